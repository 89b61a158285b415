use amf_desk::{Closed, Desk};
use amf_gateway::{LinkEnd, serve_link};
use amf_io::{Joined, Link, MemoryHall, MemoryLink, MemorySink, MemorySource, OpenGate};
use amf_service::{Echo, Registry, Service};
use amf_wire::Name;
use std::alloc::Global;
use std::process::Abort;
use std::sync::Wait;

/// How a link in memory gives its bytes and takes those of the answers, which of its calls fail, what the clock gives, and how
/// many calls of the broker may be made.
#[derive(Clone, Copy)]
pub(crate) struct Ways<'a> {
    /// The most bytes of a piece, and the offset that none crosses.
    pub pieces: (usize, usize),
    pub failing_reads: &'a [u64],
    /// The most bytes that are taken at once.
    pub most: usize,
    pub failing_writes: &'a [u64],
    pub moments: &'a [u64],
    pub share: u64,
}

/// All at once, and nothing fails. The clock gives 0.
pub(crate) const PLAINLY: Ways<'static> = Ways {
    pieces: (usize::MAX, 0),
    failing_reads: &[],
    most: usize::MAX,
    failing_writes: &[],
    moments: &[],
    share: 1 << 61,
};

/// How a link ended, what the desk tells then, and how many calls were counted.
#[derive(Clone, Copy)]
pub(crate) struct Came {
    pub end: LinkEnd,
    pub closed: Closed,
    pub calls: u64,
}

/// What is to come of a link, and where the test stands: a line or an offset.
#[derive(Clone, Copy)]
pub(crate) struct Want<'a> {
    pub at: usize,
    pub end: LinkEnd,
    pub closed: Closed,
    pub written: &'a [u8],
}

/// No call was made.
pub(crate) const NO_CALLS: Closed = Closed {
    calls: 0,
    published: 0,
    delivered: 0,
    queued: 0,
};

/// A link in memory with these bytes.
fn link_of(rt: &impl Abort, alloc: Global, bytes: &[u8], ways: Ways<'_>) -> MemoryLink {
    let (most, cut) = ways.pieces;
    Joined {
        source: MemorySource::new(alloc, bytes, most, cut, ways.failing_reads).expect(
            rt, "a source",
        ),
        sink: MemorySink::new(alloc, ways.most, ways.failing_writes).expect(rt, "a sink"),
    }
}

/// What comes of a link with these bytes at a new desk with `chat` and `news`, and what is written. The dice give 0, and the
/// one service is `echo`.
pub(crate) fn answer_of<R: Wait + Abort>(
    rt: &R,
    alloc: Global,
    bytes: &[u8],
    ways: Ways<'_>,
    written: &mut Vec<u8>,
) -> Came {
    let mut link = link_of(rt, alloc, bytes, ways);
    let came = served(rt, alloc, &mut link, ways);
    written
        .extend_from_slice(link.sink.as_bytes())
        .expect(rt, "memory");
    came
}

/// Ends the test unless this comes of a link with these bytes.
pub(crate) fn is_answered<R: Wait + Abort>(
    rt: &R,
    alloc: Global,
    bytes: &[u8],
    ways: Ways<'_>,
    want: Want<'_>,
) {
    let mut written = Vec::new(alloc);
    let came = answer_of(rt, alloc, bytes, ways, &mut written);
    let at = want.at;
    assert!(rt; came.end == want.end, "at {at}: the end");
    assert!(rt; came.closed == want.closed, "at {at}: what the desk tells");
    assert!(rt; came.calls == want.closed.calls, "at {at}: how many calls");
    assert!(rt; written.as_slice() == want.written, "at {at}: the answer");
}

/// The destinations.
fn destinations(rt: &impl Abort, alloc: Global) -> Vec<Name> {
    let mut names = Vec::new(alloc);
    for name in [b"chat", b"news"] {
        let name = Name::of_bytes(alloc, name).expect(rt, "a name");
        names.push(name).expect(rt, "memory");
    }
    names
}

/// Serves a link at a new desk, which is closed then.
pub(crate) fn served<R: Wait + Abort, L: Link>(
    rt: &R,
    alloc: Global,
    link: &mut L,
    ways: Ways<'_>,
) -> Came {
    let name = Name::of_bytes(alloc, b"echo").expect(rt, "a name");
    let echo = Box::new(alloc, Echo).expect(rt, "memory");
    let mut entries: Vec<(Name, Box<dyn Service>)> = Vec::new(alloc);
    entries.push((name, echo)).expect(rt, "memory");
    match Registry::new(alloc, entries) {
        Ok(registry) => served_at_desk(rt, alloc, link, &registry, ways),
        Err(_) => panic!(rt; "no registry"),
    }
}

/// Serves a link with these services.
fn served_at_desk<R: Wait + Abort, L: Link>(
    rt: &R,
    alloc: Global,
    link: &mut L,
    registry: &Registry,
    ways: Ways<'_>,
) -> Came {
    let (desk, mut first) = Desk::open(alloc, destinations(rt, alloc)).expect(rt, "a desk");
    let budget = first.budget();
    assert!(rt; ways.share < budget, "too many calls");
    let mut pass = desk.split(&mut first, ways.share);
    let mut hall: MemoryHall<MemoryLink> = MemoryHall::new(
        alloc,
        Vec::new(alloc),
        ways.moments,
        &[],
        &[],
    ).expect(rt, "a hall");
    let mut calls = 0;
    let end = serve_link(
        rt, alloc, link, registry, &desk, &mut pass, &mut hall, &OpenGate, 1, &mut calls,
    );
    Came {
        end,
        closed: desk.close(rt, first),
        calls,
    }
}

/// What stands behind the first place where the piece stands.
pub(crate) fn behind<'a>(bytes: &'a [u8], piece: &[u8]) -> Option<&'a [u8]> {
    for place in 0..bytes.len() {
        if let Some(rest) = bytes[place..].strip_prefix(piece) {
            return Some(rest);
        }
    }
    None
}

/// How often the piece stands there.
pub(crate) fn count_of(bytes: &[u8], piece: &[u8]) -> usize {
    let mut count = 0usize;
    for place in 0..bytes.len() {
        if bytes[place..].starts_with(piece) {
            count = count.saturating_add(1);
        }
    }
    count
}
