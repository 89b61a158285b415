use amf_io::{MemorySink, MemorySource};
use amf_test_rows::{Row, Table};
use rtmp_listing::Lister;
use rtmp_rechunk::{PassEnd, pass_over};
use std::alloc::{AllocError, Global};
use std::process::Abort;
use std::test::Fail;

/// No read has this number.
const NEVER: u64 = u64::MAX;

/// Chunks behind a handshake (a front, so many times AA, and the rest), how it ends, and the lines.
static SHOWN: Table = Table {
    rows: 11,
    fields: 5,
    text: "
03 000000 000004 14 01000000 02 00 01 'x' | 0 | | | message id 3 type 20 stream 1 time 0 length 4; root 'x';
C3 | 0 | | BadChunk 3073 |
02 000000 000004 01 00000000 00000000 | 0 | | BadChunkSize 3085 |
04 00000A 000081 08 01000000 | 128 | | | open id 4 got 128 of 129;
04 00000A 000081 08 01000000 | 128 | C4 AA | | message id 4 type 8 stream 1 time 10 length 129;
# Two values; a value and bytes that are none; an end inside a value; no value.
03 000000 000002 14 01000000 05 06 | 0 | | | message id 3 type 20 stream 1 time 0 length 2; root null; root undefined;
03 000000 000002 14 01000000 05 FF | 0 | | | message id 3 type 20 stream 1 time 0 length 2; root null; bad BadMarker at 1;
03 000000 000004 14 01000000 05 02 00 01 | 0 | | | message id 3 type 20 stream 1 time 0 length 4; root null; bad Truncated at 4;
# Of another type there are no values; and each value has tables of its own: the second reference leads nowhere.
03 000000 000002 12 01000000 05 FF | 0 | | | message id 3 type 18 stream 1 time 0 length 2;
03 000000 000008 14 01000000 03 000009 07 0000 05 | 0 | | | message id 3 type 20 stream 1 time 0 length 8; root #0; #0 object '' sealed {} dynamic {}; bad BadReference at 4;
03 000000 000000 14 01000000 C4 | 0 | | BadChunk 3085 | message id 3 type 20 stream 1 time 0 length 0;
",
};

/// How a pass ended.
fn put_end(out: &mut String, end: Result<(), PassEnd>) -> Result<(), AllocError> {
    match end {
        Ok(()) => Ok(()),
        Err(PassEnd::Refused(refusal)) => {
            let reason = refusal.reason;
            let at = refusal.at;
            write!(out, "{reason:?} {at}")
        }
        Err(end) => write!(out, "{end:?}"),
    }
}

/// A handshake, 03 and 3,072 times 00, and then the chunks of a row.
fn stream(alloc: Global, row: Row<'_>) -> Result<Vec<u8>, Fail> {
    let mut bytes = Vec::new(alloc);
    bytes.push(3)?;
    for _ in 0..3072 {
        bytes.push(0)?;
    }
    bytes.extend_from_slice(&row.bytes(alloc, 0)?)?;
    for _ in 0..row.number(1)? {
        bytes.push(0xAA)?;
    }
    bytes.extend_from_slice(&row.bytes(alloc, 2)?)?;
    Ok(bytes)
}

/// The lines of a row, with quotation marks as the listing has them, and line feeds.
fn lines_of(alloc: Global, text: &str) -> Result<Vec<u8>, Fail> {
    let mut bytes = Vec::new(alloc);
    let mut behind = false;
    for byte in text.as_bytes() {
        match *byte {
            b'\'' => bytes.push(b'"')?,
            b';' => bytes.push(b'\n')?,
            b' ' if behind => {}
            other => bytes.push(other)?,
        }
        behind = *byte == b';';
    }
    Ok(bytes)
}

/// Lists an input, which comes in pieces of at most `most` bytes; the read of the number `fail` fails.
fn shown(
    alloc: Global,
    input: &[u8],
    most: usize,
    fail: u64,
    out: &mut MemorySink,
) -> Result<String, Fail> {
    let mut source = MemorySource::new(alloc, input, most, 0, &[fail])?;
    let mut lister = Lister::new();
    let mut end = String::new(alloc);
    put_end(&mut end, pass_over(alloc, &mut lister, &mut source, out))?;
    Ok(end)
}

/// Whether a row is listed as it is to be.
fn is_shown(
    rt: &impl Abort,
    alloc: Global,
    row: Row<'_>,
    most: usize,
    fail: u64,
) -> Result<(), Fail> {
    let input = stream(alloc, row)?;
    let mut out = MemorySink::new(alloc, 1000, &[])?;
    let end = shown(alloc, &input, most, fail, &mut out)?;
    let line = row.line();
    let want = row.field(3)?;
    assert!(rt; end.as_str() == want, "line {line}: {end} and not {want}");
    let bytes = lines_of(alloc, row.field(4)?)?;
    assert!(rt;
        out.as_bytes() == bytes.as_slice(),
        "line {line}: other lines"
    );
    Ok(())
}

#[test]
fn shows(rt: HostRuntime) -> Result<(), Fail> {
    let alloc = rt.alloc();
    for row in SHOWN.rows(alloc)?.iter() {
        // The third read is behind the end: it does not come.
        is_shown(&rt, alloc, *row, 9999, 2)?;
        is_shown(&rt, alloc, *row, 700, NEVER)?;
        is_shown(&rt, alloc, *row, 3086, NEVER)?;
    }
    Ok(())
}
