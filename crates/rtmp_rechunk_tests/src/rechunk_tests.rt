use amf_io::{MemorySink, MemorySource};
use amf_test_rows::{Row, Table};
use rtmp_rechunk::{PassEnd, rechunk, rechunk_rows, rechunked_bytes};
use std::alloc::{AllocError, Global};
use std::process::Abort;
use std::test::Fail;

/// No read and no write has this number.
const NEVER: u64 = u64::MAX;

/// The size that is asked for, how many bytes a read gives, and the number of the read that fails: 2 is behind the end, and does not
/// come; chunks behind a handshake (a
/// front, so many times AA, and the rest); how it ends; and what is written behind the handshake, in the same way.
static AGAIN: Table = Table {
    rows: 12,
    fields: 8,
    text: "
256 9999 2 | 04 00000A 000081 08 01000000 | 128 | C4 AA | | 02 000000 000004 01 00000000 00000100 04 00000A 000081 08 01000000 | 129 |
128 9999 2 | 04 00000A 000081 08 01000000 | 128 | C4 AA | | 04 00000A 000081 08 01000000 | 128 | C4 AA
256 9999 2 | C3 | 0 | | BadChunk 3073 | 02 000000 000004 01 00000000 00000100 | 0 |
256 9999 2 | 02 000000 000004 01 00000000 00000000 | 0 | | BadChunkSize 3085 | 02 000000 000004 01 00000000 00000100 | 0 |
# What is unfinished is dropped.
256 9999 2 | 04 00000A 000081 08 01000000 | 128 | | | 02 000000 000004 01 00000000 00000100 | 0 |
# The sizes of the input do not go on.
1 9999 2 | 03 000000 000002 09 01000000 AABB | 0 | | | 02 000000 000004 01 00000000 00000001 03 000000 000002 09 01000000 AA C3 BB | 0 |
128 9999 2 | 02 000000 000004 01 00000000 00000001 03 000000 000002 09 01000000 AA C3 BB | 0 | | | 03 000000 000002 09 01000000 AABB | 0 |
2147483647 9999 2 | | 0 | | | 02 000000 000004 01 00000000 7FFFFFFF | 0 |
# What is before a refusal, or before a read that fails, is written.
128 9999 2 | 03 000000 000000 09 01000000 C4 | 0 | | BadChunk 3085 | 03 000000 000000 09 01000000 | 0 |
128 9999 2 | 03 000000 000000 09 01000000 43 | 0 | | Truncated 3086 | 03 000000 000000 09 01000000 | 0 |
128 3085 1 | 03 000000 000000 09 01000000 C4 | 0 | | ReadFault | 03 000000 000000 09 01000000 | 0 |
128 3087 1 | 03 000000 000000 09 01000000 43 000005 | 0 | | ReadFault | 03 000000 000000 09 01000000 | 0 |
",
};

/// How a pass ended.
fn put_end(out: &mut String, end: Result<(), PassEnd>) -> Result<(), AllocError> {
    match end {
        Ok(()) => Ok(()),
        Err(PassEnd::Refused(refusal)) => {
            let reason = refusal.reason;
            let at = refusal.at;
            write!(out, "{reason:?} {at}")
        }
        Err(end) => write!(out, "{end:?}"),
    }
}

/// Writes an input again, which comes in pieces of at most `most` bytes; the read of the number `fail` fails.
fn written(
    alloc: Global,
    size: u32,
    input: &[u8],
    most: usize,
    fail: u64,
    out: &mut MemorySink,
) -> Result<String, Fail> {
    if size == 0 || size >= 0x8000_0000 {
        return Err("no size")?;
    }
    let mut source = MemorySource::new(alloc, input, most, 0, &[fail])?;
    let mut end = String::new(alloc);
    put_end(&mut end, rechunk(alloc, size, &mut source, out))?;
    Ok(end)
}

/// A handshake, 03 and 3,072 times 00, and then three fields of a row: a front, how many times AA, and the rest.
fn stream(alloc: Global, row: Row<'_>, place: usize) -> Result<Vec<u8>, Fail> {
    let mut bytes = Vec::new(alloc);
    bytes.push(3)?;
    for _ in 0..3072 {
        bytes.push(0)?;
    }
    bytes.extend_from_slice(&row.bytes(alloc, place)?)?;
    for _ in 0..row.number(place.wrapping_add(1))? {
        bytes.push(0xAA)?;
    }
    bytes.extend_from_slice(&row.bytes(alloc, place.wrapping_add(2))?)?;
    Ok(bytes)
}

/// The low 32 bits of a number.
fn low(number: u64) -> u32 {
    (number % 0x1_0000_0000) as u32
}

/// Whether a row is written as it is to be, in pieces of at most `most` bytes.
fn is_written(
    rt: &impl Abort,
    alloc: Global,
    row: Row<'_>,
    size: u32,
    most: usize,
    fail: u64,
) -> Result<(), Fail> {
    let input = stream(alloc, row, 1)?;
    let mut out = MemorySink::new(alloc, 1000, &[])?;
    let end = written(alloc, size, &input, most, fail, &mut out)?;
    let line = row.line();
    let want = row.field(4)?;
    assert!(rt; end.as_str() == want, "line {line}: {end} and not {want}");
    let bytes = stream(alloc, row, 5)?;
    assert!(rt;
        out.as_bytes() == bytes.as_slice(),
        "line {line}: other bytes"
    );
    Ok(())
}

/// Writes a row as it says; and where no read fails before the end, in other pieces too.
fn is_row_written(rt: &impl Abort, alloc: Global, row: Row<'_>) -> Result<(), Fail> {
    let numbers = row.numbers(alloc, 0)?;
    let [size, most, fail] = numbers.as_slice() else {
        return Err("no row")?;
    };
    is_written(rt, alloc, row, low(*size), *most as usize, *fail)?;
    if *fail == 2 {
        is_written(rt, alloc, row, low(*size), 700, NEVER)?;
        is_written(rt, alloc, row, low(*size), 3086, NEVER)?;
    }
    Ok(())
}

#[test]
fn writes_again(rt: HostRuntime) -> Result<(), Fail> {
    let alloc = rt.alloc();
    for row in AGAIN.rows(alloc)?.iter() {
        is_row_written(&rt, alloc, *row)?;
    }
    Ok(())
}

/// Whether some front of the bytes was written, and the end tells of a write that failed.
fn is_front_written(rt: &impl Abort, alloc: Global, input: &[u8], fail: u64) -> Result<(), Fail> {
    let mut out = MemorySink::new(alloc, 1000, &[fail])?;
    let end = written(alloc, 128, input, 9999, NEVER, &mut out)?;
    assert!(rt; end.as_str() == "WriteFault", "{fail}: {end}");
    assert!(rt; input.starts_with(out.as_bytes()), "{fail}: other bytes");
    Ok(())
}

#[test]
fn tells_a_write_that_fails(rt: HostRuntime) -> Result<(), Fail> {
    let alloc = rt.alloc();
    let rows = AGAIN.rows(alloc)?;
    for row in rows.iter().skip(1).take(1) {
        let input = stream(alloc, *row, 1)?;
        // Four writes, and the flush.
        for fail in 0..5 {
            is_front_written(&rt, alloc, &input, fail)?;
        }
    }
    Ok(())
}

/// Chunks behind a handshake, which are written again as they are: a message of one chunk, and one of two whose time has the extended field.
static WHOLE: Table = Table {
    rows: 1,
    fields: 3,
    text: "
03 000005 000001 09 01000000 BB 04 FFFFFF 000081 08 01000000 01000000 | 128 | C4 01000000 AA
",
};

/// From where to where this input is cut, how the pass ends, and how many of its first bytes are written.
static CUTS: Table = Table {
    rows: 16,
    fields: 4,
    text: "
0 | 0 | Truncated 0 | 0
1 | 3 | Truncated 1 | 0
1534 | 1536 | Truncated 1 | 0
1537 | 1539 | Truncated 1537 | 0
3070 | 3072 | Truncated 1537 | 0
3073 | 3073 | | 3073
3074 | 3084 | Truncated 3074 | 3073
3085 | 3085 | Truncated 3085 | 3073
3086 | 3086 | | 3086
3087 | 3097 | Truncated 3087 | 3086
3098 | 3101 | Truncated 3098 | 3086
3102 | 3229 | Truncated 3102 | 3086
3230 | 3230 | | 3086
3231 | 3234 | Truncated 3231 | 3086
3235 | 3235 | Truncated 3235 | 3086
3236 | 3236 | | 3236
",
};

/// The first bytes of an input.
fn front_of(input: &[u8], length: usize) -> &[u8] {
    input.get(..length).unwrap_or(input)
}

/// Whether the front of this length is written again as the row says.
fn is_front_of_input_written(
    rt: &impl Abort,
    alloc: Global,
    row: Row<'_>,
    input: &[u8],
    length: usize,
) -> Result<(), Fail> {
    let mut out = MemorySink::new(alloc, 1000, &[])?;
    let end = written(alloc, 128, front_of(input, length), 9999, NEVER, &mut out)?;
    let want = row.field(2)?;
    assert!(rt; end.as_str() == want, "of {length}: {end} and not {want}");
    let bytes = front_of(input, row.number(3)? as usize);
    assert!(rt; out.as_bytes() == bytes, "of {length}: other bytes");
    Ok(())
}

/// The input of the one row.
fn whole_input(alloc: Global) -> Result<Vec<u8>, Fail> {
    let rows = WHOLE.rows(alloc)?;
    match rows.first() {
        Some(row) => stream(alloc, *row, 0),
        None => Err("no row")?,
    }
}

/// The handshake is cut about the ends of its blocks, and what is behind it at each byte.
#[test]
fn is_cut_at_each_byte(rt: HostRuntime) -> Result<(), Fail> {
    let alloc = rt.alloc();
    let input = whole_input(alloc)?;
    for row in CUTS.rows(alloc)?.iter() {
        for length in row.number(0)?..=row.number(1)? {
            is_front_of_input_written(&rt, alloc, *row, &input, length as usize)?;
        }
    }
    Ok(())
}

#[test]
fn laws_stand(_rt: HostRuntime) {
    rechunk_rows();
    rechunked_bytes();
}
