use crate::checks::is;
use crate::runs::{Link, pieces, told, wanted};
use amf_io::{MemorySink, MemorySource};
use amf_media::{rtmp, streams_end_by_verdict};
use amf_test_rows::{Row, Table};
use std::alloc::Global;
use std::process::Abort;
use std::test::Fail;

/// The size of the chunks that are written, 0 where the messages are listed; chunks behind a handshake (a front, how many times AA,
/// and the rest); how it ends; and the output in the same way, behind the handshake where chunks are written.
static STREAMS: Table = Table {
    rows: 8,
    fields: 8,
    text: "
0 | 03 000000 000004 14 01000000 02 00 01 'x' | 0 | | Done | 'message id 3 type 20 stream 1 time 0 length 4' 0A 'root ' 22 'x' 22 0A | 0 |
256 | 04 00000A 000081 08 01000000 | 128 | C4 AA | Done | 02 000000 000004 01 00000000 00000100 04 00000A 000081 08 01000000 | 129 |
0 | C3 | 0 | | BadChunk 3073 | | 0 |
0 | 02 000000 000004 01 00000000 00000000 | 0 | | BadChunkSize 3085 | | 0 |
0 | 04 00000A 000081 08 01000000 | 128 | | Done | 'open id 4 got 128 of 129' 0A | 0 |
# The same written again, where what is unfinished is dropped, and what is before a refusal is written.
128 | 04 00000A 000081 08 01000000 | 128 | | Done | | 0 |
128 | 03 000000 000000 09 01000000 C4 | 0 | | BadChunk 3085 | 03 000000 000000 09 01000000 | 0 |
2147483647 | | 0 | | Done | 02 000000 000004 01 00000000 7FFFFFFF | 0 |
",
};

/// Three fields of a row, a front, how many times AA, and the rest, behind a handshake, 03 and 3,072 times 00, or behind nothing.
fn filled(alloc: Global, row: Row<'_>, place: usize, handshake: bool) -> Result<Vec<u8>, Fail> {
    let mut bytes = Vec::new(alloc);
    if handshake {
        bytes.push(3)?;
        for _ in 0..3072 {
            bytes.push(0)?;
        }
    }
    bytes.extend_from_slice(&row.bytes(alloc, place)?)?;
    for _ in 0..row.number(place.wrapping_add(1))? {
        bytes.push(0xAA)?;
    }
    bytes.extend_from_slice(&row.bytes(alloc, place.wrapping_add(2))?)?;
    Ok(bytes)
}

/// What came of a chunk stream: how it ended, and behind a line feed what the output took.
fn ran(alloc: Global, size: u32, bytes: &[u8], link: &Link<'_>) -> Result<Vec<u8>, Fail> {
    let mut source = MemorySource::new(alloc, bytes, link.most, link.cut, link.reads)?;
    let mut sink = MemorySink::new(alloc, 65_536, link.writes)?;
    let end = match size {
        0 => rtmp(alloc, None, &mut source, &mut sink),
        1..=0x7FFF_FFFF => rtmp(alloc, Some(size), &mut source, &mut sink),
        _ => return Err("no size")?,
    };
    told(alloc, end, sink.as_bytes())
}

/// Whether a row comes out as it is to, in any pieces.
fn comes_out(rt: &impl Abort, alloc: Global, row: Row<'_>) -> Result<(), Fail> {
    let size = row.number(0)?;
    let input = filled(alloc, row, 1, true)?;
    let output = filled(alloc, row, 5, size > 0)?;
    let want = wanted(alloc, row.field(4)?, &output)?;
    is(rt, row, &ran(alloc, size, &input, &pieces(1, 0))?, &want);
    for cut in 3072..=input.len() {
        is(
            rt,
            row,
            &ran(alloc, size, &input, &pieces(65_536, cut))?,
            &want,
        );
    }
    Ok(())
}

#[test]
fn chunk_streams_are_listed_or_written_again(rt: HostRuntime) -> Result<(), Fail> {
    for row in STREAMS.rows(rt.alloc())?.iter() {
        comes_out(&rt, rt.alloc(), *row)?;
    }
    Ok(())
}

#[test]
fn laws_stand(_rt: HostRuntime) {
    streams_end_by_verdict();
}
