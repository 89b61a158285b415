ghost use Rattle.std.specs.Prelude.{◌≡◌, false, IfOk};
ghost use Rattle.amf_io.specs.Dial.{IsFresh};
ghost use Rattle.amf_io.specs.InMemory.{failures, sink_failures};

use amf_io::{Dial, Joined, MemoryDial, MemoryLink, MemorySink, MemorySource, Sink};
use amf_poll_session::{ListenEnd, listen};
use amf_wire::{Memory, Name, is_amf_text};
use std::alloc::Global;

/// What a listener comes to: 0, 20 for a fault, 30 for a link fault, 40 for a write fault, 50 for no memory, or the number of a bad reply.
fn code_of(end: &ListenEnd) -> u32 {
    match end {
        ListenEnd::Done => 0,
        ListenEnd::Fault { code: _, text: _ } => 20,
        ListenEnd::BadReply(number) => u32::from(*number),
        ListenEnd::LinkFault => 30,
        ListenEnd::WriteFault => 40,
        ListenEnd::Memory => 50,
    }
}

/// A link in memory that gives these bytes, whose reads and writes at these places fail.
pub(crate) fn link_of(
    alloc: Global,
    bytes: &[u8],
    reads: &[u64],
    writes: &[u64],
) -> Result<MemoryLink, Memory>
    ensures { IfOk result (λ l. IsFresh (failures l.source) (sink_failures l.sink)) }
{
    Ok(Joined {
        source: MemorySource::new(alloc, bytes, usize::MAX, 0, reads)?,
        sink: MemorySink::new(alloc, usize::MAX, writes)?,
    })
}

/// A dial of two links.
pub(crate) fn dial_of_two(
    alloc: Global,
    first: MemoryLink,
    second: MemoryLink,
) -> Result<MemoryDial<MemoryLink>, Memory>
    requires first { IsFresh (failures first.source) (sink_failures first.sink) }
    requires second { IsFresh (failures second.source) (sink_failures second.sink) }
    ensures { IfOk result (λ d. d.links.out ≡ false) }
{
    let mut links = Vec::new(alloc);
    links.push(first)?;
    links.push(second)?;
    MemoryDial::new(alloc, links, &[])
}

/// What a listener to `chat` on port 1 with so many polls is to come to: the code, the bytes that it writes, and how often it dials.
#[derive(Clone, Copy)]
pub(crate) struct Case<'a> {
    pub polls: u64,
    pub code: u32,
    pub written: &'a [u8],
    pub dials: usize,
}

/// Listens on port 1, and gives the code of the end. No text, or another number of polls than from 1 to 1,000,000, is 60.
fn listens<D: Dial, O: Sink>(
    alloc: Global,
    dial: &mut D,
    out: &mut O,
    name: &[u8],
    polls: u64,
) -> Result<u32, Memory>
    requires { D.is_out dial.old ≡ false }
{
    if !is_amf_text(name) || name.len() > 65_535 || polls < 1 || polls > 1_000_000 {
        return Ok(60);
    }
    let destination = Name::of_bytes(alloc, name)?;
    let end = listen(alloc, dial, out, 1, &destination, polls);
    Ok(code_of(&end))
}

/// Whether this comes of the listener over this dial, to an output whose writes at these places fail.
pub(crate) fn comes(
    alloc: Global,
    dial: &mut MemoryDial<MemoryLink>,
    case: Case<'_>,
    failing: &[u64],
) -> Result<bool, Memory>
    requires { dial.old.links.out ≡ false }
{
    let mut out = MemorySink::new(alloc, usize::MAX, failing)?;
    let code = listens(alloc, dial, &mut out, b"chat", case.polls)?;
    let right = code == case.code && out.as_bytes() == case.written;
    Ok(right && dial.asked().len() == case.dials)
}
