use crate::call_tests::{check_call, check_fault};
use crate::listen_tests::check_sessions;
use crate::runs::{check_listed, check_pieces};
use amf_test_rows::{Row, Table};
use std::alloc::Global;
use std::process::Abort;
use std::random::RandomSource;
use std::sync::Wait;
use std::thread::Threads;

/// Words, one more if it is not empty, and an input, with the status, the output and the error line that a run is to give.
#[derive(Clone, Copy)]
pub(crate) struct Case<'t> {
    pub words: &'t str,
    pub more: &'t [u8],
    pub input: &'t [u8],
    pub status: u32,
    pub output: &'t [u8],
    pub line: &'t [u8],
}

/// A field of a row.
pub(crate) fn field<'t>(rt: &impl Abort, row: Row<'t>, place: usize) -> &'t str {
    row.field(place).expect(rt, "a field")
}

/// Appends bytes so many times.
pub(crate) fn put(rt: &impl Abort, out: &mut Vec<u8>, count: usize, bytes: &[u8]) {
    for _ in 0..count {
        out.extend_from_slice(bytes).expect(rt, "memory");
    }
}

/// How the case of a row is run.
#[derive(Clone, Copy)]
pub(crate) enum How {
    /// All at once, a byte at a time, and in two pieces that meet at each place from this one on.
    InPieces(usize),
    /// As four more fields say.
    Listed,
    /// With a dial of one link, which two more fields tell.
    Calling,
    /// With faults of the dial, of its link and of the streams, which one more field lists.
    Failing,
    /// With a dial of three links, which eight more fields tell.
    Listening,
}

fn check_case<R: RandomSource + Threads + Wait + Abort + Sync>(
    rt: &R,
    alloc: Global,
    row: Row<'_>,
    case: &Case<'_>,
    how: How,
) {
    match how {
        How::InPieces(least) => check_pieces(rt, alloc, row.line(), case, least),
        How::Listed => check_listed(rt, alloc, row, case),
        How::Calling => check_call(rt, alloc, row, case),
        How::Failing => check_fault(rt, alloc, row, case),
        How::Listening => check_sessions(rt, alloc, row, case),
    }
}

fn check_row<R: RandomSource + Threads + Wait + Abort + Sync>(
    rt: &R,
    alloc: Global,
    row: Row<'_>,
    how: How,
) {
    let input = row.parts(alloc, 1).expect(rt, "bytes");
    let output = row.parts(alloc, 3).expect(rt, "bytes");
    let line = row.parts(alloc, 4).expect(rt, "bytes");
    let case = Case {
        words: field(rt, row, 0),
        more: b"",
        input: &input,
        status: row.number(2).expect(rt, "a status"),
        output: &output,
        line: &line,
    };
    check_case(rt, alloc, row, &case, how);
}

/// Runs over each row: words, an input, the status, the output and the error line, and it may be more.
pub(crate) fn check_rows<R: RandomSource + Threads + Wait + Abort + Sync>(
    rt: &R,
    alloc: Global,
    table: &Table,
    how: How,
) {
    for row in table.rows(alloc).expect(rt, "rows").iter() {
        check_row(rt, alloc, *row, how);
    }
}
