ghost use Rattle.amf_io.specs.Dial.{IsFresh};
ghost use Rattle.amf_io.specs.InMemory.{failures, sink_failures};

use crate::checks::{field, holds_of};
use crate::fields::pieces;
use amf_http::{HttpBuffer, HttpEnd, next_request};
use amf_io::{Joined, MemoryLink, MemorySink, MemorySource};
use amf_test_rows::Row;
use std::alloc::Global;
use std::process::Abort;

/// The size of a first request's body and whether the link ends after it, or why there is none.
pub(crate) type First = Result<Option<(usize, bool)>, HttpEnd>;

/// How bytes come: at most how many at a time, a place that no piece goes past, and the number of the read that fails. Of what
/// is written 16 bytes are taken at a time, and the write with a number fails.
#[derive(Clone, Copy)]
pub(crate) struct Ways {
    pub most: usize,
    pub cut: usize,
    pub read: u64,
    pub write: u64,
}

/// The bytes come whole, and nothing fails.
pub(crate) const WHOLE: Ways = Ways {
    most: usize::MAX,
    cut: 0,
    read: u64::MAX,
    write: u64::MAX,
};

/// A link that gives these bytes so.
pub(crate) fn link_of(rt: &impl Abort, alloc: Global, bytes: &[u8], ways: Ways) -> MemoryLink
    ensures { IsFresh (failures result.source) (sink_failures result.sink) }
{
    let source = MemorySource::new(alloc, bytes, ways.most, ways.cut, &[ways.read]);
    let source = source.expect(rt, "a source");
    let sink = MemorySink::new(alloc, 16, &[ways.write]).expect(rt, "a sink");
    Joined { source, sink }
}

/// The answer that comes next on a link.
pub(crate) fn next_on(alloc: Global, link: &mut MemoryLink, buffer: &mut HttpBuffer) -> First {
    match next_request(alloc, link, buffer) {
        Ok(Some(request)) => Ok(Some((request.body.as_slice().len(), request.close))),
        Ok(None) => Ok(None),
        Err(end) => Err(end),
    }
}

/// The first answer for bytes that come so.
pub(crate) fn first(rt: &impl Abort, alloc: Global, bytes: &[u8], ways: Ways) -> First {
    let mut link = link_of(rt, alloc, bytes, ways);
    let mut buffer = HttpBuffer::new(alloc).expect(rt, "a buffer");
    next_on(alloc, &mut link, &mut buffer)
}

/// The first answer that a field says: `taken` or `last` with the size of the body, `refused` with the status, `end`,
/// `truncated` or `fault`.
pub(crate) fn wanted(rt: &impl Abort, row: Row<'_>, place: usize) -> First {
    let field = field(rt, row, place);
    let (word, digits) = field.split_once(' ').unwrap_or((field, "0"));
    let number = digits.parse::<u32>().expect(rt, "a number");
    match word {
        "taken" => Ok(Some((number as usize, false))),
        "last" => Ok(Some((number as usize, true))),
        "refused" => Err(HttpEnd::Status(u16::try_from(number).expect(rt, "a status"))),
        "end" => Ok(None),
        "truncated" => Err(HttpEnd::Truncated),
        "fault" => Err(HttpEnd::ReadFault),
        _ => panic!(rt; "no answer"),
    }
}

/// The first answer is this one: of the bytes whole, a byte at a time, and in two pieces that meet
/// at each place.
pub(crate) fn expect_first(
    rt: &impl Abort,
    row: Row<'_>,
    alloc: Global,
    bytes: &[u8],
    want: First,
) {
    let by_bytes = Ways { most: 1, ..WHOLE };
    holds_of(rt, row, 1, first(rt, alloc, bytes, by_bytes) == want);
    for cut in 0..=bytes.len() {
        let ways = Ways { cut, ..WHOLE };
        holds_of(rt, row, cut, first(rt, alloc, bytes, ways) == want);
    }
}

/// The first answer is this one in each of these pieces, and there are so many.
pub(crate) fn expect_in_pieces(
    rt: &impl Abort,
    row: Row<'_>,
    alloc: Global,
    bytes: &[u8],
    want: First,
    ways: &str,
) -> usize {
    let mut count = 0usize;
    for word in ways.split_whitespace() {
        let (most, cut) = pieces(rt, word);
        let ways = Ways { most, cut, ..WHOLE };
        holds_of(rt, row, cut, first(rt, alloc, bytes, ways) == want);
        count = count.wrapping_add(1);
    }
    count
}

/// A link that ends within these bytes ends inside a request, and at their front before one.
pub(crate) fn expect_truncated(rt: &impl Abort, row: Row<'_>, alloc: Global, bytes: &[u8]) {
    holds_of(rt, row, 0, first(rt, alloc, b"", WHOLE) == Ok(None));
    for at in 1..bytes.len() {
        let got = first(rt, alloc, &bytes[..at], WHOLE);
        holds_of(rt, row, at, got == Err(HttpEnd::Truncated));
    }
}
