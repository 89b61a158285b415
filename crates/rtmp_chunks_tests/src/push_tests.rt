use crate::checks::{field, fill, holds, is, number};
use crate::told::{NEVER, Way, told};
use amf_test_rows::{Row, Table};
use rtmp_chunks::{ChunkEnd, Chunker, Message, MessageBytes};
use std::alloc::Global;
use std::process::Abort;

/// Messages that one chunker writes one after another: id, type, stream and time, the data (a front, so many times AA, and
/// the rest), and the bytes, in the same way, or why there are none.
static PUSHED: Table = Table {
    rows: 21,
    fields: 11,
    text: "
4 | 8 | 1 | 10 | | 129 | | 04 00000A 000081 08 01000000 | 128 | C4 AA |
2 | 1 | 0 | 0 | 00000100 | 0 | | 02 000000 000004 01 00000000 00000100 | 0 | |
4 | 8 | 1 | 10 | | 129 | | 04 00000A 000081 08 01000000 | 129 | |
3 | 20 | 1 | 0 | 02 00 01 'x' | 0 | | 03 000000 000004 14 01000000 02 00 01 'x' | 0 | |
3 | 9 | 1 | 0 | | 0 | | 03 000000 000000 09 01000000 | 0 | |
# Ends, which leave the size as it was.
1 | 8 | 1 | 10 | | 0 | | | 0 | | BadId
0 | 8 | 1 | 10 | | 0 | | | 0 | | BadId
65600 | 1 | 1 | 10 | | 0 | | | 0 | | BadId
2 | 1 | 0 | 0 | 00000000 | 0 | | | 0 | | BadSize
2 | 1 | 0 | 0 | 80000000 | 0 | | | 0 | | BadSize
2 | 1 | 0 | 0 | 000001 | 0 | | | 0 | | BadSize
2 | 1 | 0 | 0 | 0000000001 | 0 | | | 0 | | BadSize
4 | 8 | 1 | 10 | | 129 | | 04 00000A 000081 08 01000000 | 129 | |
# Basic headers are the shortest.
63 | 8 | 1 | 10 | BB | 0 | | 3F 00000A 000001 08 01000000 BB | 0 | |
64 | 8 | 1 | 10 | BB | 0 | | 00 00 00000A 000001 08 01000000 BB | 0 | |
319 | 8 | 1 | 10 | BB | 0 | | 00 FF 00000A 000001 08 01000000 BB | 0 | |
320 | 8 | 1 | 10 | BB | 0 | | 01 00 01 00000A 000001 08 01000000 BB | 0 | |
65599 | 8 | 1 | 10 | BB | 0 | | 01 FF FF 00000A 000001 08 01000000 BB | 0 | |
# The extended field stands exactly from FFFFFF on.
4 | 8 | 4294967295 | 16777214 | BB | 0 | | 04 FFFFFE 000001 08 FFFFFFFF BB | 0 | |
4 | 8 | 1 | 16777215 | | 257 | | 04 FFFFFF 000101 08 01000000 00FFFFFF | 256 | C4 00FFFFFF AA |
320 | 8 | 1 | 4294967295 | | 257 | | 01 00 01 FFFFFF 000101 08 01000000 FFFFFFFF | 256 | C1 00 01 FFFFFFFF AA |
",
};

/// The message of a row.
fn message_in(rt: &impl Abort, alloc: Global, row: Row<'_>) -> Message {
    let mut bytes = Vec::new(alloc);
    fill(rt, alloc, row, 4, &mut bytes);
    Message {
        id: number(rt, row, 0),
        kind: u8::try_from(number(rt, row, 1)).expect(rt, "a byte"),
        stream: number(rt, row, 2),
        time: number(rt, row, 3),
        bytes: MessageBytes::of_vec(bytes),
    }
}

fn name_of(end: ChunkEnd) -> &'static str {
    match end {
        ChunkEnd::BadId => "BadId",
        ChunkEnd::LongData => "LongData",
        ChunkEnd::BadSize => "BadSize",
        ChunkEnd::Memory => "Memory",
    }
}

/// Writes the message of a row, and says how it ended.
fn push_row(
    rt: &impl Abort,
    alloc: Global,
    chunker: &mut Chunker,
    row: Row<'_>,
    out: &mut Vec<u8>,
) -> &'static str {
    let message = message_in(rt, alloc, row);
    match chunker.push(alloc, &message, out) {
        Ok(()) => "",
        Err(end) => name_of(end),
    }
}

/// Writes the message of a row behind a byte, and compares all that is there then.
fn is_pushed(
    rt: &impl Abort,
    alloc: Global,
    chunker: &mut Chunker,
    row: Row<'_>,
    out: &mut Vec<u8>,
    want: &mut Vec<u8>,
) {
    out.push(0xEE).expect(rt, "memory");
    want.push(0xEE).expect(rt, "memory");
    let end = push_row(rt, alloc, chunker, row, out);
    is(rt, row, end, field(rt, row, 10));
    fill(rt, alloc, row, 7, want);
    let line = row.line();
    assert!(rt;
        out.as_slice() == want.as_slice(),
        "line {line}: other bytes"
    );
}

#[test]
fn pushes_or_refuses(rt: HostRuntime) {
    let mut chunker = Chunker::new();
    let mut out = Vec::new(rt.alloc());
    let mut want = Vec::new(rt.alloc());
    for row in PUSHED.rows(rt.alloc()).expect(&rt, "rows").iter() {
        is_pushed(&rt, rt.alloc(), &mut chunker, *row, &mut out, &mut want);
    }
}

/// Messages that are written and read again.
static AGAIN: Table = Table {
    rows: 4,
    fields: 8,
    text: "
4 | 8 | 1 | 10 | | 1000 | | message 4 8 1 10 1000 AAAAAAAA;
2 | 1 | 0 | 0 | 00000001 | 0 | | message 2 1 0 0 4 00000001;
65599 | 255 | 4294967295 | 4294967295 | | 300 | | message 65599 255 4294967295 4294967295 300 AAAAAAAA;
2 | 3 | 0 | 0 | 00000001 | 0 | | message 2 3 0 0 4 00000001;
",
};

/// Writes the messages, and what they are to be read as.
fn put_all_again(rt: &impl Abort, alloc: Global, out: &mut Vec<u8>, want: &mut String) {
    let mut chunker = Chunker::new();
    for row in AGAIN.rows(alloc).expect(rt, "rows").iter() {
        is(rt, *row, push_row(rt, alloc, &mut chunker, *row, out), "");
        want.push_str(field(rt, *row, 7)).expect(rt, "memory");
        want.push_str(" ").expect(rt, "memory");
    }
}

#[test]
fn reads_what_it_pushes(rt: HostRuntime) {
    let mut out = Vec::new(rt.alloc());
    let mut want = String::new(rt.alloc());
    put_all_again(&rt, rt.alloc(), &mut out, &mut want);
    let way = Way {
        has_handshake: false,
        most: 65536,
        cut: 0,
        fail: NEVER,
    };
    let got = told(&rt, rt.alloc(), &out, way);
    holds(&rt, got.as_str() == want.as_str(), &got);
}

fn double(rt: &impl Abort, bytes: &mut Vec<u8>) {
    let copy = bytes.clone().expect(rt, "memory");
    bytes.extend_from_slice(&copy).expect(rt, "memory");
}

/// A message of 2^24 bytes.
fn long_message(rt: &impl Abort, alloc: Global) -> Message {
    let mut bytes = Vec::new(alloc);
    bytes.push(0xAA).expect(rt, "memory");
    for _ in 0..24 {
        double(rt, &mut bytes);
    }
    Message {
        id: 4,
        kind: 1,
        stream: 1,
        time: 10,
        bytes: MessageBytes::of_vec(bytes),
    }
}

#[test]
fn refuses_long_data(rt: HostRuntime) {
    let message = long_message(&rt, rt.alloc());
    let mut out = Vec::new(rt.alloc());
    let end = Chunker::new().push(rt.alloc(), &message, &mut out);
    holds(&rt, end == Err(ChunkEnd::LongData), "2^24 bytes");
    holds(&rt, out.is_empty(), "nothing is written");
}
