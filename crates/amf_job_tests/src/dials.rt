ghost use Rattle.std.specs.Prelude.{◌≡◌, false, All};
ghost use Rattle.amf_io.specs.Dial.{IsFresh};
ghost use Rattle.amf_io.specs.InMemory.{failures, sink_failures};

use amf_io::{Joined, MemoryDial, MemoryLink, MemorySink, MemorySource};
use std::alloc::Global;
use std::process::Abort;

/// How a dial and its link do: the dials that fail, at most how many bytes come and go at a time, and the reads and the writes of
/// the link that fail.
#[derive(Clone, Copy)]
pub(crate) struct Links<'a> {
    pub dials: &'a [u64],
    pub most: usize,
    pub reads: &'a [u64],
    pub writes: &'a [u64],
}

pub(crate) const GOOD: Links<'static> = Links {
    dials: &[],
    most: usize::MAX,
    reads: &[],
    writes: &[],
};

/// A link that gives these bytes.
fn link_of(rt: &impl Abort, alloc: Global, bytes: &[u8], links: Links<'_>) -> MemoryLink
    ensures { IsFresh (failures result.source) (sink_failures result.sink) }
{
    let source = MemorySource::new(alloc, bytes, links.most, 0, links.reads);
    let source = source.expect(rt, "a source");
    let sink = MemorySink::new(alloc, links.most, links.writes).expect(rt, "a sink");
    Joined { source, sink }
}

/// A dial of one link, which gives these bytes.
pub(crate) fn dial_of(
    rt: &impl Abort,
    alloc: Global,
    bytes: &[u8],
    links: Links<'_>,
) -> MemoryDial<MemoryLink>
    ensures { result.links.out ≡ false }
{
    let mut coming = Vec::new(alloc);
    let link = link_of(rt, alloc, bytes, links);
    coming.push(link).expect(rt, "memory");
    MemoryDial::new(alloc, coming, links.dials).expect(rt, "a dial")
}

/// A dial of three links, which give these bytes.
pub(crate) fn dial_of_three(
    rt: &impl Abort,
    alloc: Global,
    answers: [&[u8]; 3],
    links: Links<'_>,
) -> MemoryDial<MemoryLink>
    ensures { result.links.out ≡ false }
{
    let [first, second, third] = answers;
    let mut coming = Vec::new(alloc);
    let link = link_of(rt, alloc, first, links);
    coming.push(link).expect(rt, "memory");
    let link = link_of(rt, alloc, second, links);
    coming.push(link).expect(rt, "memory");
    let link = link_of(rt, alloc, third, links);
    coming.push(link).expect(rt, "memory");
    MemoryDial::new(alloc, coming, links.dials).expect(rt, "a dial")
}

/// A dial to which no link is to come.
pub(crate) fn dial_of_none(rt: &impl Abort, alloc: Global) -> MemoryDial<MemoryLink>
    ensures { result.links.out ≡ false }
{
    MemoryDial::new(alloc, Vec::new(alloc), &[]).expect(rt, "a dial")
}

/// What the one link took that the dial has again; nothing where it has none, or more.
pub(crate) fn taken(dial: &MemoryDial<MemoryLink>) -> Option<&[u8]> {
    match dial.returned() {
        [link] => Some(link.sink.as_bytes()),
        _ => None,
    }
}
