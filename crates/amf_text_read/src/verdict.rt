//! The verdict on a text.

ghost use Rattle.std.specs.Prelude.{◌≡◌, ◌≤◌, true, [], length, IfOk, MatchOption};
ghost use Rattle.std.specs.Str.Lossy.{utf8_valid_len};
ghost use Rattle.json.specs.Lex.{tokens as tokens_spec};
ghost use Rattle.amf_text.specs.Scalars.{read_number};
ghost use Rattle.amf_text.specs.Scan.{scan, inside};
ghost use Rattle.amf_text.specs.Refused.{IsLeft, at_end, front, has_more, position_of, text_limit};
ghost use Rattle.amf_text_read.specs.Judgements.{EndsSo, IsJudged, LeftAt};
ghost use Rattle.amf_text_read.specs.Stops.{stop_named};
ghost use Rattle.amf_text_read.specs.TextVerdicts.{HasGoals, IsAcceptedButLabels, IsDone, IsFault, IsRefusedSo};
ghost use Rattle.amf_text_read.specs.Places.{is_cut_text};

use crate::cut::{broken_can_end, can_end};
use crate::judge::{End, Judged, Rest, judge};
use crate::place::{ends_inside, line_and_column, place_of};
use crate::stop::{Stop, stop_of};
use amf_text::TextReason;
use amf_wire::Memory;
use json::{Reader, Scratch};
use std::alloc::Global;
use std::hash::RandomState;
use std::str;

/// The most bytes of a text.
const MAX_BYTES: usize = 268_435_456;

/// Why a text is refused, and where.
#[derive(Clone, Copy, Debug, PartialEq, Eq)]
pub struct Refusal {
    /// Why.
    pub reason: TextReason,
    /// The byte, from 0.
    pub at: usize,
    /// Its line, from 1.
    pub line: usize,
    /// The byte in that line, from 1.
    pub column: usize,
}

/// Why a text is refused, and at which byte.
#[derive(Clone, Copy)]
struct Fault {
    reason: TextReason,
    at: usize,
}

/// The bytes of a text up to the first that is no UTF-8.
fn front_of(text: &[u8]) -> &str
    ensures { result.now ≡ front text.now }
{
    match str::from_utf8(text) {
        Ok(all) => all,
        Err(end) => match str::from_utf8(&text[..end.valid_up_to()]) {
            Ok(front) => front,
            Err(_) => "",
        },
    }
}

/// Whether bytes follow that are no UTF-8.
fn is_broken(text: &[u8], whole: &str) -> bool
    requires { whole.now ≡ front text.now }
    ensures { result ≡ has_more text.now }
{
    whole.len() < text.len()
}

/// The fault of a text that ends where more has to come.
fn end_fault(text: &[u8], whole: &str) -> Fault
    requires { whole.now ≡ front text.now }
    ensures reason { result.reason ≡ at_end text.now }
    ensures at { result.at ≡ length (front text.now) }
{
    let reason = if is_broken(text, whole) {
        TextReason::NotUtf8
    } else {
        TextReason::Truncated
    };
    Fault {
        reason,
        at: whole.len(),
    }
}

/// The fault of a text in which nothing has to come any more, if there is one.
fn behind(text: &[u8], whole: &str, stop: Stop) -> Option<Fault>
    requires front { whole.now ≡ front text.now }
    requires left { IsLeft read_number text.now [] }
    requires stop { stop_named stop ≡ (scan (front text.now)).stop }
    ensures { MatchOption result (IsDone text.now) (IsFault text.now) }
{
    let at = match stop {
        Stop::Ended => {
            if !is_broken(text, whole) {
                return None;
            }
            whole.len()
        }
        Stop::CommaLast(at) | Stop::Inside(at) | Stop::Fault(at) => at,
    };
    Some(Fault {
        reason: TextReason::Trailing,
        at,
    })
}

/// The fault of a text that ends inside a token, before bytes that are no UTF-8.
fn cut_broken(alloc: Global, text: &[u8], whole: &str, at: usize) -> Result<Fault, Memory>
    requires front { whole.now ≡ front text.now }
    requires more { has_more text.now ≡ true }
    requires left { HasGoals text.now }
    requires stop { (scan (front text.now)).stop ≡ inside at }
    ensures { IfOk result (IsFault text.now) }
{
    if broken_can_end(alloc, text, whole, at)? {
        return Ok(Fault {
            reason: TextReason::Truncated,
            at,
        });
    }
    if can_end(alloc, whole, at)? {
        return Ok(Fault {
            reason: TextReason::NotUtf8,
            at: whole.len(),
        });
    }
    Ok(Fault {
        reason: TextReason::NotJson,
        at,
    })
}

/// The fault of a text that ends inside a token.
fn cut_off(alloc: Global, text: &[u8], whole: &str, at: usize) -> Result<Fault, Memory>
    requires front { whole.now ≡ front text.now }
    requires left { HasGoals text.now }
    requires stop { (scan (front text.now)).stop ≡ inside at }
    ensures { IfOk result (IsFault text.now) }
{
    if is_broken(text, whole) {
        return cut_broken(alloc, text, whole, at);
    }
    if can_end(alloc, whole, at)? {
        return Ok(Fault {
            reason: TextReason::Truncated,
            at,
        });
    }
    Ok(Fault {
        reason: TextReason::NotJson,
        at,
    })
}

/// The fault of a text whose tokens end where more has to come.
fn unfinished(alloc: Global, text: &[u8], whole: &str, stop: Stop) -> Result<Fault, Memory>
    requires front { whole.now ≡ front text.now }
    requires left { HasGoals text.now }
    requires stop { stop_named stop ≡ (scan (front text.now)).stop }
    ensures { IfOk result (IsFault text.now) }
{
    match stop {
        Stop::Ended => Ok(end_fault(text, whole)),
        Stop::CommaLast(_) => Ok(end_fault(text, whole)),
        Stop::Inside(at) => cut_off(alloc, text, whole, at),
        Stop::Fault(at) => Ok(Fault {
            reason: TextReason::NotJson,
            at,
        }),
    }
}

/// The fault of a text of which all tokens can stand where they stand, if there is one.
fn left_over(
    alloc: Global,
    text: &[u8],
    whole: &str,
    tokens: usize,
    rest: Rest,
) -> Result<Option<Fault>, Memory>
    requires front { whole.now ≡ front text.now }
    requires left { LeftAt (is_cut_text (front text.now)) (tokens_spec (front text.now)) tokens rest }
    ensures { IfOk result (λ fault. MatchOption fault (IsDone text.now) (IsFault text.now)) }
{
    let stop = stop_of(whole.as_bytes(), tokens, &rest);
    if rest.is_whole {
        Ok(behind(text, whole, stop))
    } else {
        Ok(Some(unfinished(alloc, text, whole, stop)?))
    }
}

/// The fault at the token of this number, which is refused for a reason.
fn wrong_token(text: &[u8], whole: &str, tokens: usize, reason: TextReason) -> Fault
    requires front { whole.now ≡ front text.now }
    requires wrong { EndsSo (is_cut_text (front text.now)) (tokens_spec (front text.now)) tokens (End.Wrong reason) }
    ensures { IsFault text.now result }
{
    Fault {
        reason,
        at: place_of(whole.as_bytes(), tokens),
    }
}

/// The fault of a text that ends behind a key, before its colon.
fn no_colon(text: &[u8], whole: &str, tokens: usize) -> Fault
    requires front { whole.now ≡ front text.now }
    requires key { EndsSo (is_cut_text (front text.now)) (tokens_spec (front text.now)) tokens End.NoColon }
    ensures { IsFault text.now result }
{
    if is_broken(text, whole) {
        Fault {
            reason: TextReason::NotUtf8,
            at: whole.len(),
        }
    } else {
        Fault {
            reason: TextReason::Truncated,
            at: place_of(whole.as_bytes(), tokens),
        }
    }
}

/// The fault of a text whose tokens end so, if there is one.
fn fault_of(
    alloc: Global,
    text: &[u8],
    whole: &str,
    judged: Judged,
) -> Result<Option<Fault>, Memory>
    requires front { whole.now ≡ front text.now }
    requires judged { IsJudged (is_cut_text (front text.now)) (tokens_spec (front text.now)) judged }
    ensures { IfOk result (λ fault. MatchOption fault (IsDone text.now) (IsFault text.now)) }
{
    match judged.end {
        End::Wrong(reason) => Ok(Some(wrong_token(text, whole, judged.tokens, reason))),
        End::NoColon => Ok(Some(no_colon(text, whole, judged.tokens))),
        End::Left(rest) => left_over(alloc, text, whole, judged.tokens, rest),
    }
}

/// The fault of a text that is not too long, if there is one. What is looked up is found by these keys.
fn find_fault(
    alloc: Global,
    keys: Option<RandomState>,
    text: &[u8],
) -> Result<Option<Fault>, Memory>
    requires few { length text.now ≤ text_limit }
    ensures { IfOk result (λ fault. MatchOption fault (IsDone text.now) (IsFault text.now)) }
{
    let whole = front_of(text);
    let is_cut = ends_inside(whole.as_bytes());
    let mut scratch = Scratch::new(alloc);
    let mut reader = Reader::new(whole, &mut scratch)?;
    let judged = judge(alloc, keys, &mut reader, is_cut)?;
    fault_of(alloc, text, whole, judged)
}

/// The refusal for a reason at a byte.
fn refused_at(text: &[u8], fault: Fault) -> Refusal
    ensures reason { result.reason ≡ fault.reason }
    ensures at { result.at ≡ fault.at }
    ensures line { result.line ≡ (position_of text.now fault.at).line }
    ensures column { result.column ≡ (position_of text.now fault.at).column }
{
    let (line, column) = line_and_column(text, fault.at);
    Refusal {
        reason: fault.reason,
        at: fault.at,
        line,
        column,
    }
}

/// The verdict on a text: `None` where it means something, but for labels that may lead nowhere; else the first token that is wrong, and
/// why. Where nothing before them is wrong, bytes that are no UTF-8 are refused at the first of them, or behind the whole text as what
/// trails it; a text that ends inside a character that could go on is cut off. A text of more than 268,435,456 bytes is refused there. What is looked up is found by these keys. It gives up where there is no memory.
pub fn text_verdict(
    alloc: Global,
    keys: Option<RandomState>,
    text: &[u8],
) -> Result<Option<Refusal>, Memory>
    ensures { IfOk result (λ refusal. MatchOption refusal (IsAcceptedButLabels text.now) (IsRefusedSo text.now)) }
{
    if text.len() > MAX_BYTES {
        let fault = Fault {
            reason: TextReason::TooLarge,
            at: MAX_BYTES,
        };
        return Ok(Some(refused_at(text, fault)));
    }
    match find_fault(alloc, keys, text)? {
        Some(fault) => Ok(Some(refused_at(text, fault))),
        None => Ok(None),
    }
}
