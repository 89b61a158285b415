//! What the head of a backend's reply is.

ghost use Rattle.std.specs.Prelude.{◌≡◌, ◌+◌, ◌*◌, ◌≤◌, ◌||◌, not, IfOk, length, map, All, codes};
ghost use Rattle.httparse.specs.Spans.{IsHeaderWithin, header_bytes};
ghost use Rattle.http_link.specs.Fields.{has, is_plain};
ghost use Rattle.http_backend.specs.Judging.{Judges, JudgesParts};
ghost use Rattle.http_backend.specs.Replies.{has_no_content};

use amf_wire::Memory;
use http_link::{are_plain, is_one_length, length_of, values_of};
use httparse::Status;
use httparse::spans::{EMPTY_HEADER_SPAN, HeaderSpan, parse_response};
use std::alloc::Global;

/// The most bytes of a body.
const BODY_LIMIT: u32 = 16000000;

/// What a head is.
#[derive(Clone, Copy, Debug, PartialEq, Eq)]
pub(crate) enum Judged {
    /// It is a bad reply of this number.
    Refused(u8),
    /// Nothing refuses it. A body of so many bytes follows, and it has this status code.
    Sized(u32, u16),
    /// Nothing refuses it. A body follows up to the end of the connection, and it has this status code.
    ToEnd(u16),
}

/// What this head is. It takes room for half as many fields as the head has bytes, since each has at least its colon and
/// its line end.
pub(crate) fn judge(alloc: Global, head: &[u8]) -> Result<Judged, Memory>
    ensures { IfOk result (Judges head.now) }
{
    let mut spans = vec![in alloc; EMPTY_HEADER_SPAN; head.len() / 2]?;
    judge_with(alloc, head, &mut spans)
}

/// What this head is, with room for its fields.
fn judge_with(alloc: Global, head: &[u8], spans: &mut [HeaderSpan]) -> Result<Judged, Memory>
    requires { length head.now ≤ 2 * length spans.old + 1 }
    ensures { IfOk result (Judges head.now) }
{
    match parse_response(head, spans) {
        Ok(Status::Complete(response)) => {
            if response.len != head.len() {
                return Ok(Judged::Refused(1));
            }
            judge_parts(alloc, head, response.code, &spans[..response.headers])
        }
        Ok(Status::Partial) => Ok(Judged::Refused(1)),
        Err(_) => Ok(Judged::Refused(1)),
    }
}

/// What a head with this code and these fields is.
fn judge_parts(
    alloc: Global,
    head: &[u8],
    code: u16,
    spans: &[HeaderSpan],
) -> Result<Judged, Memory>
    requires { All (IsHeaderWithin (length head.now)) spans.now }
    ensures { IfOk result (JudgesParts code (map (header_bytes head.now) spans.now)) }
{
    if is_coded(alloc, head, spans)? {
        return Ok(Judged::Refused(2));
    }
    let lengths = values_of(alloc, head, spans, b"content-length")?;
    if lengths.is_empty() {
        if has_no_content(code) {
            return Ok(Judged::Sized(0, code));
        }
        return Ok(Judged::ToEnd(code));
    }
    if !is_one_length(lengths.as_slice()) {
        return Ok(Judged::Refused(3));
    }
    let size = length_of(lengths.as_slice(), BODY_LIMIT + 1);
    if size > BODY_LIMIT {
        return Ok(Judged::Refused(3));
    }
    if has_no_content(code) {
        return Ok(Judged::Sized(0, code));
    }
    Ok(Judged::Sized(size, code))
}

/// Whether a reply with this code has no content, whatever its fields say.
fn has_no_content(code: u16) -> bool
    ensures { result ≡ has_no_content code }
{
    (code > 99 && code < 200) || code == 204 || code == 304
}

/// Whether the body is coded.
fn is_coded(alloc: Global, head: &[u8], spans: &[HeaderSpan]) -> Result<bool, Memory>
    requires { All (IsHeaderWithin (length head.now)) spans.now }
    ensures { IfOk result (λ r. let fields = map (header_bytes head.now) spans.now in r ≡ (has (codes "transfer-encoding") fields || not (is_plain fields))) }
{
    let codings = values_of(alloc, head, spans, b"transfer-encoding")?;
    let encodings = values_of(alloc, head, spans, b"content-encoding")?;
    Ok(!codings.is_empty() || !are_plain(encodings.as_slice()))
}
