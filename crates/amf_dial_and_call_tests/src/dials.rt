ghost use Rattle.std.specs.Prelude.{◌≡◌, false, All};
ghost use Rattle.amf_io.specs.Dial.{IsFresh};
ghost use Rattle.amf_io.specs.InMemory.{failures, sink_failures};

use amf_dial_and_call::{CallAnswer, call};
use amf_fixtures::{graph0, graph3};
use amf_graph::{Rooted, Value};
use amf_io::{Dial, Joined, MemoryDial, MemoryLink, MemorySink, MemorySource};
use amf_wire::{Name, is_amf_text};
use std::alloc::Global;
use std::process::Abort;

/// What a call comes to: a result, a bad reply of a number from 1 to 8, or one of these.
pub(crate) const RESULT: u32 = 0;

const FAULT: u32 = 20;

pub(crate) const LINK_FAULT: u32 = 30;

const NOT_ARGS: u32 = 40;

const NO_SPELLING: u32 = 41;

const NO_MEMORY: u32 = 50;

/// The bits of the result of `sum.sum` for 2 and 3.
pub(crate) const FIVE: &[u8] = b"\x40\x14\0\0\0\0\0\0";

/// The arguments 2 and 3.
const TWO_AND_THREE: &[u8] = b"\x09\x05\x01\x04\x02\x04\x03";

/// A call that is to be made, with arguments in AMF 3 or AMF 0, and what is to come of it: what it is, and the bits of a double that is
/// the result, or the code of a fault and its text.
#[derive(Clone, Copy)]
pub(crate) struct Case<'a> {
    pub target: &'a [u8],
    pub args: &'a [u8],
    pub is_amf0: bool,
    pub what: u32,
    pub told: &'a [u8],
    pub text: &'a [u8],
}

/// The call of `sum.sum` for 2 and 3.
pub(crate) fn sum_case<'a>(what: u32, told: &'a [u8]) -> Case<'a> {
    Case {
        target: b"sum.sum",
        args: TWO_AND_THREE,
        is_amf0: false,
        what,
        told,
        text: b"",
    }
}

/// How a link does: at most how many bytes come at a time, none across which offset, and the reads that fail; at most how many are
/// taken at a time, and the writes and flushes that fail.
#[derive(Clone, Copy)]
pub(crate) struct Ways<'a> {
    pub most: usize,
    pub cut: usize,
    pub reads: &'a [u64],
    pub takes: usize,
    pub writes: &'a [u64],
}

pub(crate) const WHOLE: Ways<'static> = Ways {
    most: usize::MAX,
    cut: 0,
    reads: &[],
    takes: usize::MAX,
    writes: &[],
};

pub(crate) const BY_BYTES: Ways<'static> = Ways {
    most: 1,
    cut: 0,
    reads: &[],
    takes: 1,
    writes: &[],
};

/// A link in memory that gives these bytes.
fn link_of(rt: &impl Abort, alloc: Global, bytes: &[u8], ways: Ways<'_>) -> MemoryLink
    ensures { IsFresh (failures result.source) (sink_failures result.sink) }
{
    let source = MemorySource::new(alloc, bytes, ways.most, ways.cut, ways.reads);
    let source = source.expect(rt, "a source");
    let sink = MemorySink::new(alloc, ways.takes, ways.writes).expect(rt, "a sink");
    Joined { source, sink }
}

/// A dial of one link.
pub(crate) fn dial_of(
    rt: &impl Abort,
    alloc: Global,
    bytes: &[u8],
    ways: Ways<'_>,
    failing: &[u64],
) -> MemoryDial<MemoryLink>
    ensures { result.links.out ≡ false }
{
    let mut links = Vec::new(alloc);
    let link = link_of(rt, alloc, bytes, ways);
    links.push(link).expect(rt, "memory");
    MemoryDial::new(alloc, links, failing).expect(rt, "a dial")
}

/// Whether the graph is a double of these bits.
fn is_double(graph: &Rooted, told: &[u8]) -> bool {
    match graph.root() {
        Value::Double(bits) => bits.0.to_be_bytes().as_slice() == told,
        _ => false,
    }
}

/// Whether this is what is to come of the call.
fn is_as(answer: &CallAnswer, case: Case<'_>) -> bool {
    match answer {
        CallAnswer::Graph(graph) => case.what == RESULT && is_double(graph, case.told),
        CallAnswer::Fault { code, text } => {
            case.what == FAULT && code.as_bytes() == case.told && text.as_bytes() == case.text
        }
        CallAnswer::BadReply(number) => case.what == u32::from(*number),
        CallAnswer::LinkFault => case.what == LINK_FAULT,
        CallAnswer::NotArgs => case.what == NOT_ARGS,
        CallAnswer::NoSpelling(_) => case.what == NO_SPELLING,
        CallAnswer::Memory => case.what == NO_MEMORY,
    }
}

/// The arguments of a call.
fn args_of(rt: &impl Abort, alloc: Global, case: Case<'_>) -> Rooted {
    let graph = if case.is_amf0 {
        graph0(alloc, case.args)
    } else {
        graph3(alloc, case.args)
    };
    graph.expect(rt, "a graph")
}

/// Whether the call over a dial comes to what it is to come to.
pub(crate) fn answers<D: Dial>(
    rt: &impl Abort,
    alloc: Global,
    dial: &mut D,
    port: u16,
    case: Case<'_>,
) -> bool
    requires { D.is_out dial.old ≡ false }
    ensures { D.is_out dial.new ≡ false }
{
    assert!(rt; is_amf_text(case.target));
    assert!(rt; case.target.len() < 65_536);
    let target = Name::of_bytes(alloc, case.target).expect(rt, "memory");
    let args = args_of(rt, alloc, case);
    is_as(&call(alloc, dial, port, &target, &args), case)
}

/// Whether the dial was asked once, for port 1, has its one link again, which has taken these bytes, and counts so many faults.
fn has_taken(dial: &MemoryDial<MemoryLink>, written: &[u8], faults: u64) -> bool {
    let took = match dial.returned() {
        [link] => link.sink.as_bytes() == written,
        _ => false,
    };
    took && dial.asked() == [1u16].as_slice() && dial.faults() == faults
}

/// Whether this comes of the call on port 1 over a link that gives these bytes so, and has then taken those that are to be written.
pub(crate) fn comes(
    rt: &impl Abort,
    alloc: Global,
    bytes: &[u8],
    ways: Ways<'_>,
    case: Case<'_>,
    written: &[u8],
) -> bool {
    let mut dial = dial_of(rt, alloc, bytes, ways, &[]);
    let right = answers(rt, alloc, &mut dial, 1, case);
    right && has_taken(&dial, written, u64::from(case.what == LINK_FAULT))
}

/// Whether the call over this dial ends so, which was asked for these ports, gave no link and counts so many faults.
pub(crate) fn ends_without_link(
    rt: &impl Abort,
    alloc: Global,
    dial: &mut MemoryDial<MemoryLink>,
    case: Case<'_>,
    asked: &[u16],
    faults: u64,
) -> bool
    requires { dial.old.links.out ≡ false }
{
    let right = answers(rt, alloc, dial, 1, case);
    right && dial.asked() == asked && dial.returned().is_empty() && dial.faults() == faults
}
