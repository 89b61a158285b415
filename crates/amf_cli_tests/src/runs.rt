//! Rows of words, an input, a status, an output and an error line, and the runs of the program over them.
use crate::serve_tests::check_served;
use amf_cli::run::run;
use amf_io::{
    FaultlessDial, FaultlessFront, FaultlessLink, Front, Gate, Hall, MemorySink, MemorySource,
    OpenGate, Sink, Source,
};
use amf_service::Registry;
use amf_test_rows::{Row, Table};
use amf_wire::Name;
use std::alloc::Global;
use std::process::Abort;
use std::random::RandomSource;
use std::sync::Wait;
use std::thread::Threads;

/// Words and an input, with the status, the output and the error line that a run is to give.
#[derive(Clone, Copy)]
pub(crate) struct Case<'t> {
    pub words: &'t str,
    pub input: &'t [u8],
    pub status: u32,
    pub output: &'t [u8],
    pub line: &'t [u8],
}

/// How the input comes, at most how many bytes at a time and none across which offset; at most how many bytes of the output are taken
/// at a time; and the reads and the writes that fail.
#[derive(Clone, Copy)]
pub(crate) struct Ways<'t> {
    pub most: usize,
    pub cut: usize,
    pub takes: usize,
    pub reads: &'t [u64],
    pub writes: &'t [u64],
}

pub(crate) const WHOLE: Ways<'static> = Ways {
    most: 100,
    cut: 0,
    takes: 2,
    reads: &[],
    writes: &[],
};

pub(crate) const BY_BYTES: Ways<'static> = Ways {
    most: 1,
    cut: 0,
    takes: 2,
    reads: &[],
    writes: &[],
};

/// Appends a word.
fn put_word(rt: &impl Abort, alloc: Global, names: &mut Vec<Name>, word: &str) {
    let name = Name::of_bytes(alloc, word.as_bytes()).expect(rt, "memory");
    names.push(name).expect(rt, "memory");
}

/// The words of a text.
fn names_of(rt: &impl Abort, alloc: Global, words: &str) -> Vec<Name> {
    let mut names = Vec::new(alloc);
    for word in words.split_whitespace() {
        put_word(rt, alloc, &mut names, word);
    }
    names
}

/// Runs over this front, without services, and with a dial without links.
pub(crate) fn run_over<
    R: RandomSource + Threads + Wait + Abort + Sync,
    I: Source,
    O: Sink,
    E: Sink,
    F: Front,
    G: Gate,
>(
    rt: &R,
    alloc: Global,
    words: &str,
    input: &mut I,
    out: &mut O,
    err: &mut E,
    front: &mut F,
    gate: &G,
) -> u8
where
    <F::Hall as Hall>::Link: Send,
{
    let names = names_of(rt, alloc, words);
    let registry = Registry::new(alloc, Vec::new(alloc)).expect(rt, "a registry");
    let dial = FaultlessDial::new(alloc, Vec::new(alloc));
    let mut dial: FaultlessDial<FaultlessLink> = dial.expect(rt, "a dial");
    run(
        rt, alloc, &names, input, out, err, front, gate, &registry, &mut dial,
    )
}

/// Runs with a front without halls.
pub(crate) fn run_alone<
    R: RandomSource + Threads + Wait + Abort + Sync,
    I: Source,
    O: Sink,
    E: Sink,
>(rt: &R, alloc: Global, words: &str, input: &mut I, out: &mut O, err: &mut E) -> u8 {
    let mut front = no_front(rt, alloc);
    run_over(rt, alloc, words, input, out, err, &mut front, &OpenGate)
}

/// Whether the bytes are as it is said, or begin so, where that ends with a space.
fn is_as_said(bytes: &[u8], said: &[u8]) -> bool {
    bytes == said || said.ends_with(b" ") && bytes.starts_with(said)
}

/// What differs from the case, or an empty text.
pub(crate) fn difference(case: &Case<'_>, status: u8, output: &[u8], line: &[u8]) -> &'static str {
    if u32::from(status) != case.status {
        "the status"
    } else if !is_as_said(output, case.output) {
        "the output"
    } else if is_as_said(line, case.line) {
        ""
    } else {
        "the error line"
    }
}

/// What of a run over streams in memory and this front differs from the case.
pub(crate) fn wrong_over<R: RandomSource + Threads + Wait + Abort + Sync, F: Front, G: Gate>(
    rt: &R,
    alloc: Global,
    case: &Case<'_>,
    ways: Ways<'_>,
    front: &mut F,
    gate: &G,
) -> &'static str
where
    <F::Hall as Hall>::Link: Send,
{
    let input = MemorySource::new(alloc, case.input, ways.most, ways.cut, ways.reads);
    let mut input = input.expect(rt, "a source");
    let mut output = MemorySink::new(alloc, ways.takes, ways.writes).expect(rt, "a sink");
    let mut line = MemorySink::new(alloc, 100, &[]).expect(rt, "a sink");
    let words = case.words;
    let status = run_over(
        rt,
        alloc,
        words,
        &mut input,
        &mut output,
        &mut line,
        front,
        gate,
    );
    difference(case, status, output.as_bytes(), line.as_bytes())
}

/// A front without halls.
fn no_front(rt: &impl Abort, alloc: Global) -> FaultlessFront<FaultlessLink> {
    FaultlessFront::new(alloc, Vec::new(alloc)).expect(rt, "a front")
}

/// What of a run over streams in memory differs from the case.
pub(crate) fn wrong<R: RandomSource + Threads + Wait + Abort + Sync>(
    rt: &R,
    alloc: Global,
    case: &Case<'_>,
    ways: Ways<'_>,
) -> &'static str {
    let mut front = no_front(rt, alloc);
    wrong_over(rt, alloc, case, ways, &mut front, &OpenGate)
}

/// Ends the test where a run of the case of this line differs.
pub(crate) fn check<R: RandomSource + Threads + Wait + Abort + Sync>(
    rt: &R,
    alloc: Global,
    line: u64,
    case: &Case<'_>,
    ways: Ways<'_>,
) {
    let wrong = wrong(rt, alloc, case, ways);
    let (most, cut) = (ways.most, ways.cut);
    assert!(rt;
        wrong.is_empty(),
        "line {line}: {wrong} by {most}, cut at {cut}"
    );
}

/// Runs over the input all at once, a byte at a time, and split at each place.
fn check_pieces<R: RandomSource + Threads + Wait + Abort + Sync>(
    rt: &R,
    alloc: Global,
    line: u64,
    case: &Case<'_>,
) {
    check(rt, alloc, line, case, WHOLE);
    check(rt, alloc, line, case, BY_BYTES);
    for cut in 1..case.input.len() {
        check(rt, alloc, line, case, Ways { cut, ..WHOLE });
    }
}

/// Runs as four more fields of the row say: at most how many bytes come at a time, once for each; none across which offset; and the
/// reads and the writes that fail.
fn check_listed<R: RandomSource + Threads + Wait + Abort + Sync>(
    rt: &R,
    alloc: Global,
    row: Row<'_>,
    case: &Case<'_>,
) {
    let cut = row.number(6).expect(rt, "an offset") as usize;
    let reads = row.numbers(alloc, 7).expect(rt, "numbers");
    let writes = row.numbers(alloc, 8).expect(rt, "numbers");
    for most in row.numbers(alloc, 5).expect(rt, "numbers").iter() {
        let ways = Ways {
            most: *most as usize,
            cut,
            reads: &reads,
            writes: &writes,
            ..WHOLE
        };
        check(rt, alloc, u64::from(row.line()), case, ways);
    }
}

/// Appends bytes so many times.
pub(crate) fn put(rt: &impl Abort, out: &mut Vec<u8>, count: usize, bytes: &[u8]) {
    for _ in 0..count {
        out.extend_from_slice(bytes).expect(rt, "memory");
    }
}

fn check_row<R: RandomSource + Threads + Wait + Abort + Sync>(rt: &R, alloc: Global, row: Row<'_>) {
    let input = row.parts(alloc, 1).expect(rt, "bytes");
    let output = row.parts(alloc, 3).expect(rt, "bytes");
    let line = row.parts(alloc, 4).expect(rt, "bytes");
    let case = Case {
        words: row.field(0).expect(rt, "words"),
        input: &input,
        status: row.number(2).expect(rt, "a status"),
        output: &output,
        line: &line,
    };
    match row.width() {
        5 => check_pieces(rt, alloc, u64::from(row.line()), &case),
        10 => check_served(rt, alloc, row, &case),
        _ => check_listed(rt, alloc, row, &case),
    }
}

/// Runs over each row: words, an input, the status, the output and the error line, and it may be how it is run.
pub(crate) fn check_rows<R: RandomSource + Threads + Wait + Abort + Sync>(
    rt: &R,
    alloc: Global,
    table: &Table,
) {
    for row in table.rows(alloc).expect(rt, "rows").iter() {
        check_row(rt, alloc, *row);
    }
}
