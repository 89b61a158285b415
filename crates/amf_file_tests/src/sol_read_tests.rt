use crate::checks::{bytes_of, field, holds, is, number};
use amf_fixtures::end_told;
use amf_graph::{NodeView, Value};
use amf_io::{Cursor, MemorySource, ReadEnd};
use amf_sol::{SharedObject, SolVersion, read_sol};
use amf_test_rows::{Row, Table};
use std::alloc::Global;
use std::process::Abort;

/// What is read of these bytes within a limit, in pieces of at most so many, where the reads of these numbers fail.
fn read_of(
    alloc: Global,
    bytes: &[u8],
    limit: u16,
    most: usize,
    failing: &[u64],
) -> Result<SharedObject, ReadEnd> {
    let mut source = MemorySource::new(alloc, bytes, most, 0, failing)?;
    let mut cursor = Cursor::new(alloc, &mut source, limit as u32)?;
    read_sol(alloc, &mut cursor)
}

/// A file of this version with this length, and these pairs; its name is "t".
fn file(rt: &impl Abort, alloc: Global, version: u8, length: u8, pairs: &[u8]) -> Vec<u8> {
    let begin = [0x00, 0xBF, 0, 0, 0, length];
    let rest = [0x00, 0x04, 0, 0, 0, 0, 0x00, 0x01, 0x74, 0, 0, 0, version];
    let mut bytes = begin.to_vec(alloc).expect(rt, "memory");
    bytes.extend_from_slice(b"TCSO").expect(rt, "memory");
    bytes.extend_from_slice(&rest).expect(rt, "memory");
    bytes.extend_from_slice(pairs).expect(rt, "memory");
    bytes
}

/// How many members the holder has.
fn members(shared: &SharedObject) -> Option<usize> {
    let holder = shared.holder();
    holder.is_finished();
    let Value::Node(root) = holder.root() else {
        return None;
    };
    match holder.node(root) {
        NodeView::Object { members, .. } => Some(members.len()),
        _ => None,
    }
}

fn members_told(rt: &impl Abort, alloc: Global, shared: &SharedObject) -> String {
    let count = members(shared).expect(rt, "an object");
    format!(in alloc; "{count} members").expect(rt, "memory")
}

/// How many members the holder of a file has, or why the file is refused.
fn told(
    rt: &impl Abort,
    alloc: Global,
    bytes: &[u8],
    limit: u16,
    most: usize,
    failing: &[u64],
) -> String {
    match read_of(alloc, bytes, limit, most, failing) {
        Ok(shared) => members_told(rt, alloc, &shared),
        Err(end) => end_told(alloc, end).expect(rt, "memory"),
    }
}

/// Versions, lengths and pairs of files, and how many members their holders have, or why they are refused.
static FILES: Table = Table {
    rows: 14,
    fields: 4,
    text: "
# The pair a: true.
0 | 23 | 0001'a' 0101 00 | 1 members
# No pairs, an empty name, and one name twice.
3 | 17 | | 0 members
0 | 21 | 0000 05 00 | 1 members
0 | 27 | 0001'a' 05 00 0001'a' 06 00 | 2 members
3 | 28 | 03'a' 09 01 01 00 03'b' 09 00 00 | 2 members
# Names and values share the table of texts, in one file.
3 | 26 | 03'a' 06 00 00 00 06 00 00 | 2 members
# AMF 3 behind a marker of AMF 0, in two pairs with one set of tables.
0 | 32 | 0001'a' 11 09 01 01 00 0001'b' 11 09 00 00 | 2 members
# The pair a: true with another length, padding, end, text and version.
0 | 24 | 0001'a' 0101 00 | BadLength 2
0 | 24 | 0001'a' 0101 01 | BadPadding 28
0 | 24 | 0001'a' 0101 | Truncated 28
0 | 23 | 0001 FF 0101 00 | BadText 25
1 | 23 | 0001'a' 0101 00 | BadVersion 22
# The first node among the values has the index 0, and the holder none.
0 | 22 | 0000 07 0000 | BadReference 25
3 | 22 | 03'a' 06 02 00 | BadTextIndex 26
",
};

/// The file whose version, length and pairs are the first fields of a row.
fn file_in(rt: &impl Abort, alloc: Global, row: Row<'_>) -> Vec<u8> {
    let version = u8::try_from(number(rt, row, 0)).expect(rt, "a byte");
    let length = u8::try_from(number(rt, row, 1)).expect(rt, "a byte");
    let pairs = bytes_of(rt, alloc, row, 2);
    file(rt, alloc, version, length, &pairs)
}

/// Reads a file in one piece and a byte at a time, and compares what is read.
fn is_read_in_any_pieces(rt: &impl Abort, alloc: Global, row: Row<'_>) {
    let bytes = file_in(rt, alloc, row);
    for most in [1000, 1] {
        let told = told(rt, alloc, &bytes, 1000, most, &[]);
        is(rt, row, &told, field(rt, row, 3));
    }
}

#[test]
fn files_are_read_or_refused_in_any_pieces(rt: HostRuntime) {
    for row in FILES.rows(rt.alloc()).expect(&rt, "rows").iter() {
        is_read_in_any_pieces(&rt, rt.alloc(), *row);
    }
}

/// Versions, lengths and pairs of files, limits, how many bytes are in a piece, the reads that fail, and how reading ends.
static ENDS: Table = Table {
    rows: 9,
    fields: 7,
    text: "
# The limit goes first.
0 | 24 | 0001'a' 0101 01 | 0 | 1000 | | TooLarge 0
0 | 24 | 0001'a' 0101 01 | 23 | 1000 | | TooLarge 23
0 | 24 | 0001'a' 0101 01 | 28 | 1000 | | TooLarge 28
0 | 24 | 0001'a' 0101 01 | 29 | 1000 | | BadPadding 28
# A failed read is told.
0 | 23 | 0001'a' 0101 00 | 1000 | 1 | 0 | ReadFault
0 | 23 | 0001'a' 0101 00 | 1000 | 1 | 7 | ReadFault
0 | 23 | 0001'a' 0101 00 | 1000 | 1 | 23 | ReadFault
0 | 23 | 0001'a' 0101 00 | 1000 | 1 | 28 | ReadFault
0 | 23 | 0001'a' 0101 00 | 1000 | 1 | 29 | ReadFault
",
};

fn ends_as(rt: &impl Abort, alloc: Global, row: Row<'_>) {
    let bytes = file_in(rt, alloc, row);
    let limit = u16::try_from(number(rt, row, 3)).expect(rt, "a limit");
    let most = number(rt, row, 4) as usize;
    let failing = row.numbers(alloc, 5).expect(rt, "numbers");
    let told = told(rt, alloc, &bytes, limit, most, &failing);
    is(rt, row, &told, field(rt, row, 6));
}

#[test]
fn limits_and_failed_reads_are_told(rt: HostRuntime) {
    for row in ENDS.rows(rt.alloc()).expect(&rt, "rows").iter() {
        ends_as(&rt, rt.alloc(), *row);
    }
}

/// The empty file of this version, read whole.
fn empty_file(rt: &impl Abort, alloc: Global, version: u8) -> SharedObject {
    let bytes = file(rt, alloc, version, 0x11, &[]);
    read_of(alloc, &bytes, 1000, 1000, &[]).expect(rt, "a file")
}

#[test]
fn name_and_version_are_kept(rt: HostRuntime) {
    for (byte, version) in [(0, SolVersion::Amf0), (3, SolVersion::Amf3)] {
        let shared = empty_file(&rt, rt.alloc(), byte);
        holds(&rt, shared.name().as_bytes() == b"t".as_slice(), "the name");
        holds(&rt, shared.version() == version, "the version");
    }
}
