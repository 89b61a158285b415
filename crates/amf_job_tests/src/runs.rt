ghost use Rattle.std.specs.Prelude.{◌≡◌, false};

use crate::cases::Case;
use crate::dials::dial_of_none;
use amf_cli::run::run;
use amf_io::{
    Dial, FaultlessFront, FaultlessLink, MemoryDial, MemoryLink, MemorySink, MemorySource,
    OpenGate, Sink, Source,
};
use amf_service::Registry;
use amf_test_rows::Row;
use amf_wire::Name;
use std::alloc::Global;
use std::process::Abort;
use std::random::RandomSource;
use std::sync::Wait;
use std::thread::Threads;

/// How the input comes and the output is taken: at most how many bytes at a time, none that come across which offset, and the reads
/// and the writes that fail.
#[derive(Clone, Copy)]
pub(crate) struct Ways<'a> {
    pub most: usize,
    pub cut: usize,
    pub reads: &'a [u64],
    pub writes: &'a [u64],
}

pub(crate) const WHOLE: Ways<'static> = Ways {
    most: usize::MAX,
    cut: 0,
    reads: &[],
    writes: &[],
};

pub(crate) const BY_BYTES: Ways<'static> = Ways {
    most: 1,
    cut: 0,
    reads: &[],
    writes: &[],
};

/// Appends a word.
fn put_word(rt: &impl Abort, alloc: Global, names: &mut Vec<Name>, word: &[u8]) {
    let name = Name::of_bytes(alloc, word).expect(rt, "memory");
    names.push(name).expect(rt, "memory");
}

/// The words of a case.
fn names_of(rt: &impl Abort, alloc: Global, case: &Case<'_>) -> Vec<Name> {
    let mut names = Vec::new(alloc);
    for word in case.words.split_whitespace() {
        put_word(rt, alloc, &mut names, word.as_bytes());
    }
    if !case.more.is_empty() {
        put_word(rt, alloc, &mut names, case.more);
    }
    names
}

/// Runs over these streams and this dial, with a front without halls and without services.
fn run_alone<R: RandomSource + Threads + Wait + Abort + Sync, I: Source, O: Sink, E: Sink, D: Dial>(
    rt: &R,
    alloc: Global,
    words: &[Name],
    input: &mut I,
    out: &mut O,
    err: &mut E,
    dial: &mut D,
) -> u8
    requires { D.is_out dial.old ≡ false }
{
    let front = FaultlessFront::new(alloc, Vec::new(alloc));
    let mut front: FaultlessFront<FaultlessLink> = front.expect(rt, "a front");
    let registry = Registry::new(alloc, Vec::new(alloc)).expect(rt, "a registry");
    run(
        rt, alloc, words, input, out, err, &mut front, &OpenGate, &registry, dial,
    )
}

/// What differs from the case, or an empty text.
fn difference(case: &Case<'_>, status: u8, output: &[u8], line: &[u8]) -> &'static str {
    if u32::from(status) != case.status {
        "the status"
    } else if output != case.output {
        "the output"
    } else if line != case.line {
        "the error line"
    } else {
        ""
    }
}

/// What of a run of the case over streams in memory and this dial differs from it.
fn wrong_over<R: RandomSource + Threads + Wait + Abort + Sync, D: Dial>(
    rt: &R,
    alloc: Global,
    case: &Case<'_>,
    ways: Ways<'_>,
    dial: &mut D,
) -> &'static str
    requires { D.is_out dial.old ≡ false }
{
    let names = names_of(rt, alloc, case);
    let input = MemorySource::new(alloc, case.input, ways.most, ways.cut, ways.reads);
    let mut input = input.expect(rt, "a source");
    let mut output = MemorySink::new(alloc, ways.most, ways.writes).expect(rt, "a sink");
    let mut line = MemorySink::new(alloc, 100, &[]).expect(rt, "a sink");
    let status = run_alone(rt, alloc, &names, &mut input, &mut output, &mut line, dial);
    difference(case, status, output.as_bytes(), line.as_bytes())
}

/// What a dial tells behind a run: the ports that it was asked for, and how often it failed.
#[derive(Clone, Copy)]
pub(crate) struct Told<'a> {
    pub ports: &'a [u16],
    pub faults: u64,
}

/// Ends the test where a run over this dial differs from the case of this line, or the dial tells something else.
pub(crate) fn check_over<R: RandomSource + Threads + Wait + Abort + Sync>(
    rt: &R,
    alloc: Global,
    line: u32,
    case: &Case<'_>,
    ways: Ways<'_>,
    dial: &mut MemoryDial<MemoryLink>,
    told: Told<'_>,
)
    requires { dial.old.links.out ≡ false }
{
    let wrong = wrong_over(rt, alloc, case, ways, dial);
    let (most, cut) = (ways.most, ways.cut);
    assert!(rt;
        wrong.is_empty(),
        "line {line}: {wrong} by {most}, cut at {cut}"
    );
    let is_told = dial.asked() == told.ports;
    assert!(rt; is_told, "line {line}: the ports by {most}, cut at {cut}");
    let is_counted = dial.faults() == told.faults;
    assert!(rt;
        is_counted,
        "line {line}: the faults by {most}, cut at {cut}"
    );
}

/// Ends the test where a run of the case of this line differs from it, or anything is dialled.
pub(crate) fn check<R: RandomSource + Threads + Wait + Abort + Sync>(
    rt: &R,
    alloc: Global,
    line: u32,
    case: &Case<'_>,
    ways: Ways<'_>,
) {
    let mut dial = dial_of_none(rt, alloc);
    let told = Told {
        ports: &[],
        faults: 0,
    };
    check_over(rt, alloc, line, case, ways, &mut dial, told);
}

/// Runs the case of a line all at once, a byte at a time, and in two pieces that meet at each of these places.
pub(crate) fn check_pieces<R: RandomSource + Threads + Wait + Abort + Sync>(
    rt: &R,
    alloc: Global,
    line: u32,
    case: &Case<'_>,
    least: usize,
) {
    check(rt, alloc, line, case, WHOLE);
    check(rt, alloc, line, case, BY_BYTES);
    for cut in least..case.input.len() {
        check(rt, alloc, line, case, Ways { cut, ..WHOLE });
    }
}

/// Runs as four more fields of the row say: at most how many bytes come at a time, once for each; none across which offset; and the
/// reads and the writes that fail.
pub(crate) fn check_listed<R: RandomSource + Threads + Wait + Abort + Sync>(
    rt: &R,
    alloc: Global,
    row: Row<'_>,
    case: &Case<'_>,
) {
    let cut = row.number(6).expect(rt, "an offset") as usize;
    let reads = row.numbers(alloc, 7).expect(rt, "numbers");
    let writes = row.numbers(alloc, 8).expect(rt, "numbers");
    for most in row.numbers(alloc, 5).expect(rt, "numbers").iter() {
        let ways = Ways {
            most: *most as usize,
            cut,
            reads: &reads,
            writes: &writes,
        };
        check(rt, alloc, row.line(), case, ways);
    }
}
