use crate::checks::{field, fill, holds, is, number, put_bytes, put_handshake};
use crate::told::{NEVER, Way, told};
use amf_test_rows::{Row, Table};
use rtmp_chunks::{
    calls_tell, one_meaning, one_verdict, pushed_reads, reading_tells, rechunked, worked_rows,
};
use std::alloc::Global;
use std::process::Abort;

/// Chunks behind a handshake (a front, so many times AA, and the rest), and what is read of all: messages and their order.
static MESSAGES: Table = Table {
    rows: 12,
    fields: 4,
    text: "
 | 0 | |
03 000000 000004 14 01000000 02 00 01 'x' | 0 | | message 3 20 1 0 4 02000178;
04 00000A 000081 08 01000000 | 128 | C4 AA | message 4 8 1 10 129 AAAAAAAA;
C3 | 0 | | BadChunk 3073
02 000000 000004 01 00000000 00000000 | 0 | | BadChunkSize 3085
04 00000A 000081 08 01000000 | 128 | | open 4 128 129;
# Numbers of chunk streams, in each form.
00 00 000000 000001 09 01000000 BB | 0 | | message 64 9 1 0 1 BB;
00 FF 000000 000001 09 01000000 BB | 0 | | message 319 9 1 0 1 BB;
01 FF FF 000000 000001 09 01000000 BB | 0 | | message 65599 9 1 0 1 BB;
01 02 01 000000 000001 09 01000000 BB | 0 | | message 322 9 1 0 1 BB;
00 00 000000 000081 09 01000000 | 128 | C1 00 00 BB | message 64 9 1 0 129 AAAAAAAA;
# Chunk streams take turns: messages stand in the order of their last chunks.
03 000000 000081 09 01000000 | 128 | 05 000000 000001 08 01000000 BB C3 BB | message 5 8 1 0 1 BB; message 3 9 1 0 129 AAAAAAAA;
",
};

/// The same of chunk sizes, and of formats that cannot stand.
static SIZES: Table = Table {
    rows: 16,
    fields: 4,
    text: "
# A chunk size holds from the next chunk on.
02 000000 000004 01 00000000 00000001 03 000000 000002 09 01000000 AA | 0 | C3 BB | message 2 1 0 0 4 00000001; message 3 9 1 0 2 AABB;
04 00000A 000082 08 01000000 | 128 | 02 000000 000004 01 00000000 00000001 C4 BB C4 CC | message 2 1 0 0 4 00000001; message 4 8 1 10 130 AAAAAAAA;
02 000000 000004 01 00000000 7FFFFFFF 04 00000A 000081 08 01000000 | 129 | | message 2 1 0 0 4 7FFFFFFF; message 4 8 1 10 129 AAAAAAAA;
02 000000 000004 01 00000000 00000002 C2 0000 C2 0003 | 0 | | message 2 1 0 0 4 00000002; message 2 1 0 0 4 00000003;
02 000000 000004 01 00000000 00000002 C2 0000 C2 0000 | 0 | | message 2 1 0 0 4 00000002; BadChunkSize 3093
02 000000 000004 01 00000000 00000002 C2 8000 C2 0000 | 0 | | message 2 1 0 0 4 00000002; BadChunkSize 3090
02 000000 000004 01 00000000 80000000 | 0 | | BadChunkSize 3085
02 000000 000005 01 00000000 | 0 | | BadChunk 3074
03 000000 000000 09 01000000 43 000000 000003 01 | 0 | | message 3 9 1 0 0 ; BadChunk 3086
# Formats that cannot stand; also just behind a whole message, which is given first.
03 000000 000000 09 01000000 C4 | 0 | | message 3 9 1 0 0 ; BadChunk 3085
43 | 0 | | BadChunk 3073
83 | 0 | | BadChunk 3073
04 00000A 000081 08 01000000 | 128 | 04 | BadChunk 3213
04 00000A 000081 08 01000000 | 128 | 44 | BadChunk 3213
04 00000A 000081 08 01000000 | 128 | 84 | BadChunk 3213
04 00000A 000081 08 01000000 | 128 | C5 | BadChunk 3213
",
};

/// The same of messages that are dropped, and of unfinished ones.
static DROPS: Table = Table {
    rows: 7,
    fields: 4,
    text: "
# A message of type 2 drops one.
04 00000A 000081 08 01000000 | 128 | 02 000000 000004 02 00000000 00000004 | message 2 2 0 0 4 00000004;
04 00000A 000081 08 01000000 | 128 | 02 000000 000003 02 00000000 000004 | message 2 2 0 0 3 000004; open 4 128 129;
04 00000A 000081 08 01000000 | 128 | 02 000000 000004 02 00000000 00010004 C4 BB | message 2 2 0 0 4 00010004; message 4 8 1 10 129 AAAAAAAA;
04 00000A 000081 08 01000000 | 128 | 02 000000 000004 02 00000000 00000004 84 000005 BB | message 2 2 0 0 4 00000004; Truncated 3233
04 00000A 000081 08 01000000 | 128 | 02 000000 000004 02 00000000 00000004 44 000005 000001 09 BB | message 2 2 0 0 4 00000004; message 4 9 1 15 1 BB;
02 000000 000004 02 00000000 00000063 | 0 | | message 2 2 0 0 4 00000063;
02000000 00000401 00000000 00000001 05 000000 000002 0901000000 AA 03 000000 000002 0901000000 BB | 0 | | message 2 1 0 0 4 00000001; open 3 1 2; open 5 1 2;
",
};

/// The same of times.
static TIMES: Table = Table {
    rows: 13,
    fields: 4,
    text: "
# Times.
03 000005 000000 09 01000000 C3 83 000007 C3 | 0 | | message 3 9 1 5 0 ; message 3 9 1 10 0 ; message 3 9 1 17 0 ; message 3 9 1 24 0 ;
03 000005 000001 09 02000000 BB 43 000007 000002 08 CCDD | 0 | | message 3 9 2 5 1 BB; message 3 8 2 12 2 CCDD;
03 FFFFFE 000001 09 01000000 BB | 0 | | message 3 9 1 16777214 1 BB;
03 FFFFFF 000001 09 01000000 00FFFFFF BB | 0 | | message 3 9 1 16777215 1 BB;
03 FFFFFF 000001 09 01000000 00000007 BB | 0 | | message 3 9 1 7 1 BB;
03 FFFFFF 000001 09 01000000 FFFFFFFF BB 43 000002 000001 09 CC | 0 | | message 3 9 1 4294967295 1 BB; message 3 9 1 1 1 CC;
03 FFFFFF 000001 09 01000000 FFFFFFFF BB C3 00000000 CC | 0 | | message 3 9 1 4294967295 1 BB; message 3 9 1 4294967294 1 CC;
03 000005 0000010901000000 BB 43 FFFFFF 00000108 01000000 CC C3 00000000 | 1 | | message 3 9 1 5 1 BB; message 3 8 1 16777221 1 CC; message 3 8 1 33554437 1 AA;
03 000005 000001 0901000000 BB 83 FFFFFF 01000000 CC C3 12345678 | 1 | | message 3 9 1 5 1 BB; message 3 9 1 16777221 1 CC; message 3 9 1 33554437 1 AA;
04 FFFFFF 000081 08 01000000 00FFFFFF | 128 | C4 FFFFFFFF BB | message 4 8 1 16777215 129 AAAAAAAA;
04 FFFFFF 000081 08 01000000 00FFFFFF | 128 | C4 FFFFFF | Truncated 3218
# It ends inside a field.
00 | 0 | | Truncated 3073
03 0000 | 0 | | Truncated 3074
",
};

/// Whether chunks of so many bytes are tried in two pieces that meet here: at each place, but within many times AA.
fn is_cut(place: usize, length: usize) -> bool {
    place <= 20 || length <= place.saturating_add(20)
}

/// Compares what is read of bytes, which come in a way, with what a row says.
fn is_read(rt: &impl Abort, alloc: Global, row: Row<'_>, bytes: &[u8], way: Way) {
    let got = told(rt, alloc, bytes, way);
    is(rt, row, got.trim(), field(rt, row, 3));
}

/// Chunks in pieces of at most `most` bytes, none of which goes on past `cut`.
fn in_pieces(most: usize, cut: usize) -> Way {
    Way {
        has_handshake: false,
        most,
        cut,
        fail: NEVER,
    }
}

/// A handshake and what follows, in pieces of at most `most` bytes, with a read that fails.
fn behind_handshake(most: usize, fail: u64) -> Way {
    Way {
        has_handshake: true,
        most,
        cut: 0,
        fail,
    }
}

/// Reads a handshake and chunks, of which the handshake is `front` bytes; and without it a byte at a time, and in two pieces
/// that meet at each place.
fn is_read_in_any_pieces(rt: &impl Abort, alloc: Global, row: Row<'_>, whole: &[u8], front: usize) {
    is_read(rt, alloc, row, whole, behind_handshake(65536, NEVER));
    let bytes = whole.get(front..).expect(rt, "chunks");
    is_read(rt, alloc, row, bytes, in_pieces(1, 0));
    for cut in 0..=bytes.len() {
        if is_cut(cut, bytes.len()) {
            is_read(rt, alloc, row, bytes, in_pieces(65536, cut));
        }
    }
}

/// Reads the rows of a table.
fn are_read(rt: &impl Abort, alloc: Global, table: Table) {
    let mut whole = Vec::new(alloc);
    for row in table.rows(alloc).expect(rt, "rows").iter() {
        whole.clear();
        put_handshake(rt, &mut whole);
        let front = whole.len();
        fill(rt, alloc, *row, 0, &mut whole);
        is_read_in_any_pieces(rt, alloc, *row, &whole, front);
    }
}

#[test]
fn reads_messages(rt: HostRuntime) {
    are_read(&rt, rt.alloc(), MESSAGES);
}

#[test]
fn holds_to_sizes(rt: HostRuntime) {
    are_read(&rt, rt.alloc(), SIZES);
}

#[test]
fn drops_messages(rt: HostRuntime) {
    are_read(&rt, rt.alloc(), DROPS);
}

#[test]
fn reckons_times(rt: HostRuntime) {
    are_read(&rt, rt.alloc(), TIMES);
}

/// How many bytes there are of a handshake and a chunk of 12 and 4 bytes, and what these are read as.
static FRONTS: Table = Table {
    rows: 14,
    fields: 2,
    text: "
0 | Truncated 0
1 | Truncated 1
2 | Truncated 1
1536 | Truncated 1
1537 | Truncated 1537
1538 | Truncated 1537
3072 | Truncated 1537
3073 |
3074 | Truncated 3074
3075 | Truncated 3074
3084 | Truncated 3074
3085 | Truncated 3085
3088 | Truncated 3085
3089 | message 3 20 1 0 4 02000178;
",
};

#[test]
fn ends_in_each_field(rt: HostRuntime) {
    let alloc = rt.alloc();
    let mut bytes = Vec::new(alloc);
    put_handshake(&rt, &mut bytes);
    bytes
        .extend_from_slice(&[3, 0, 0, 0, 0, 0, 4, 20, 1, 0, 0, 0, 2, 0, 1, b'x'])
        .expect(&rt, "memory");
    for row in FRONTS.rows(alloc).expect(&rt, "rows").iter() {
        let length = number(&rt, *row, 0) as usize;
        let front = bytes.get(..length).expect(&rt, "a front");
        let got = told(&rt, alloc, front, behind_handshake(1000, NEVER));
        is(&rt, *row, got.trim(), field(&rt, *row, 1));
    }
}

#[test]
fn refuses_another_version(rt: HostRuntime) {
    let got = told(&rt, rt.alloc(), &[2], behind_handshake(1, NEVER));
    holds(&rt, got.as_str() == "BadVersion 0", &got);
}

/// How many bytes a read gives at most, the number of the read that fails, chunks behind a handshake, and what is read of all.
static FAULTS: Table = Table {
    rows: 7,
    fields: 4,
    text: "
500 | 0 | C3 | ReadFault
500 | 3 | C3 | ReadFault
500 | 6 | C3 | ReadFault
# Just behind a whole message, which is given first; inside the chunk that follows; and behind the end.
3089 | 1 | 03 000000 000004 14 01000000 02000178 | message 3 20 1 0 4 02000178; ReadFault
3089 | 1 | 03 000000 000004 14 01000000 02000178 C4 | message 3 20 1 0 4 02000178; ReadFault
3091 | 1 | 03 000000 000004 14 01000000 02000178 83 000005 | message 3 20 1 0 4 02000178; ReadFault
3089 | 2 | 03 000000 000004 14 01000000 02000178 | message 3 20 1 0 4 02000178;
",
};

/// Reads the chunks of a row behind a handshake, with a read that fails.
fn is_read_with_fault(rt: &impl Abort, alloc: Global, row: Row<'_>) {
    let mut bytes = Vec::new(alloc);
    put_handshake(rt, &mut bytes);
    put_bytes(rt, alloc, row, 2, &mut bytes);
    let way = behind_handshake(number(rt, row, 0) as usize, number(rt, row, 1) as u64);
    is_read(rt, alloc, row, &bytes, way);
}

#[test]
fn tells_a_read_that_fails(rt: HostRuntime) {
    for row in FAULTS.rows(rt.alloc()).expect(&rt, "rows").iter() {
        is_read_with_fault(&rt, rt.alloc(), *row);
    }
}

#[test]
fn laws_stand(_rt: HostRuntime) {
    worked_rows();
    reading_tells();
    one_meaning();
    one_verdict();
    calls_tell();
    pushed_reads();
    rechunked();
}
