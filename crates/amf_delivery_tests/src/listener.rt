ghost use Rattle.std.specs.Prelude.{◌≡◌, ◌≤◌, false, IfOk};
ghost use Rattle.amf_io.specs.Dial.{IsFresh};
ghost use Rattle.amf_io.specs.InMemory.{failures, sink_failures};

use amf_io::{Joined, MemoryDial, MemoryLink, MemorySink, MemorySource};
use amf_poll_session::{ListenEnd, listen};
use amf_wire::{Memory, Name};
use std::alloc::Global;
use std::test::Fail;

/// How a listener ended.
#[derive(Clone, Copy, Debug, PartialEq, Eq)]
pub(crate) enum End {
    Done,
    Fault,
    BadReply,
    LinkFault,
    Other,
}

/// What came of a listener: how it ended, what it wrote, what its first link took, and how often it dialled.
#[derive(Drop)]
pub(crate) struct Heard {
    pub end: End,
    pub written: Vec<u8>,
    pub asked: Vec<u8>,
    pub dials: usize,
}

fn end_of(end: &ListenEnd) -> End {
    match end {
        ListenEnd::Done => End::Done,
        ListenEnd::Fault { code: _, text: _ } => End::Fault,
        ListenEnd::BadReply(_) => End::BadReply,
        ListenEnd::LinkFault => End::LinkFault,
        ListenEnd::WriteFault | ListenEnd::Memory => End::Other,
    }
}

/// A link in memory that gives these bytes, and takes a byte at a time up to the write that fails.
fn link_of(alloc: Global, bytes: &[u8], fails: &[u64]) -> Result<MemoryLink, Memory>
    ensures { IfOk result (λ l. IsFresh (failures l.source) (sink_failures l.sink)) }
{
    let most = if fails.is_empty() { usize::MAX } else { 1 };
    Ok(Joined {
        source: MemorySource::new(alloc, bytes, usize::MAX, 0, &[])?,
        sink: MemorySink::new(alloc, most, fails)?,
    })
}

/// A dial of two links that give these bytes. Of the first link these writes fail.
fn dial_of(
    alloc: Global,
    first: &[u8],
    second: &[u8],
    fails: &[u64],
) -> Result<MemoryDial<MemoryLink>, Memory>
    ensures { IfOk result (λ d. d.links.out ≡ false) }
{
    let mut links = Vec::new(alloc);
    links.push(link_of(alloc, first, fails)?)?;
    links.push(link_of(alloc, second, &[])?)?;
    MemoryDial::new(alloc, links, &[])
}

/// What the first link has taken.
fn first_asked(alloc: Global, dial: &MemoryDial<MemoryLink>) -> Result<Vec<u8>, Fail> {
    match dial.returned().first() {
        Some(link) => Ok(link.sink.as_bytes().to_vec(alloc)?),
        None => Err("no link came back".into()),
    }
}

/// What comes of a listener to `chat` with so many polls over these links.
pub(crate) fn hear(
    alloc: Global,
    first: &[u8],
    second: &[u8],
    fails: &[u64],
    polls: u64,
) -> Result<Heard, Fail>
    requires some { 1 ≤ polls }
    requires few { polls ≤ 1000000 }
{
    let Ok(destination) = Name::from_bytes(alloc, b"chat") else {
        return Err("no name".into());
    };
    let mut dial = dial_of(alloc, first, second, fails)?;
    let mut out = MemorySink::new(alloc, usize::MAX, &[])?;
    let end = listen(alloc, &mut dial, &mut out, 1, &destination, polls);
    Ok(Heard {
        end: end_of(&end),
        written: out.as_bytes().to_vec(alloc)?,
        asked: first_asked(alloc, &dial)?,
        dials: dial.asked().len(),
    })
}
