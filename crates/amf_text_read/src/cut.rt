//! Whether a token goes on where a text ends inside it.

ghost use Rattle.std.specs.Prelude.{◌≡◌, ◌↔◌, ◌<◌, ◌≤◌, ℕ, List, true, false, drop, length, IfOk, IsTrue, MatchOption};
ghost use Rattle.std.specs.Str.{IsUtf8};
ghost use Rattle.json.specs.Lex.{tokens};
ghost use Rattle.amf_text.specs.Refused.{CanEnd, front, has_more};
ghost use Rattle.amf_text_read.specs.FrontEnds.{begins_open, CharEnd, Completes, Fails, FailsWhole, first_good, StringEnd, WordEnd};

use amf_wire::Memory;
use json::{Reader, Scratch, Token};
use std::alloc::Global;
use std::str;

/// Whether a text begins with a token.
fn begins_token(alloc: Global, text: &str) -> Result<bool, Memory>
    ensures { IfOk result (λ is. is ≡ first_good (tokens text.now)) }
{
    let mut scratch = Scratch::new(alloc);
    let mut reader = Reader::new(text, &mut scratch)?;
    Ok(match reader.next() {
        Some(token) => !matches!(token, Token::Bad),
        None => false,
    })
}

/// Whether a token begins with a front and these bytes behind it.
fn completes(alloc: Global, front: &str, end: &str) -> Result<bool, Memory>
    ensures yes { IfOk result (λ is. is ≡ true → Completes front.now end.now) }
    ensures no { IfOk result (λ is. is ≡ false → Fails front.now end.now) }
{
    let mut text = String::new(alloc);
    text.push_str(front)?;
    text.push_str(end)?;
    begins_token(alloc, text.as_str())
}

/// Whether a token begins with a front and some of these bytes behind it.
fn any_of(alloc: Global, front: &str, one: &str, two: &str, three: &str) -> Result<bool, Memory>
    ensures yes { IfOk result (λ is. is ≡ true → (e : List ℕ) × Completes front.now e) }
    ensures no { IfOk result (λ is. is ≡ false → (Fails front.now one.now) × (Fails front.now two.now) × (Fails front.now three.now)) }
{
    if completes(alloc, front, one)? {
        return Ok(true);
    }
    if completes(alloc, front, two)? {
        return Ok(true);
    }
    completes(alloc, front, three)
}

/// Whether a string begins with a front: behind an escape a letter, digits or half of a pair may be lacking.
fn string_goes_on(alloc: Global, front: &str) -> Result<bool, Memory>
    ensures yes { IfOk result (λ is. is ≡ true → (e : List ℕ) × Completes front.now e) }
    ensures no { IfOk result (λ is. is ≡ false → (e : List ℕ) → StringEnd e → Fails front.now e) }
{
    if any_of(alloc, front, "\"", "n\"", "0000\"")? {
        return Ok(true);
    }
    if any_of(alloc, front, "000\"", "00\"", "0\"")? {
        return Ok(true);
    }
    if any_of(alloc, front, "00\\udc00\"", "0\\udc00\"", "\\udc00\"")? {
        return Ok(true);
    }
    any_of(alloc, front, "udc00\"", "dc00\"", "c00\"")
}

/// Whether a number, `true`, `false` or `null` begins with a front.
fn word_goes_on(alloc: Global, front: &str) -> Result<bool, Memory>
    ensures yes { IfOk result (λ is. is ≡ true → (e : List ℕ) × Completes front.now e) }
    ensures no { IfOk result (λ is. is ≡ false → (e : List ℕ) → WordEnd e → Fails front.now e) }
{
    if any_of(alloc, front, "", "0", "true")? {
        return Ok(true);
    }
    if any_of(alloc, front, "rue", "ue", "e")? {
        return Ok(true);
    }
    if any_of(alloc, front, "false", "alse", "lse")? {
        return Ok(true);
    }
    if any_of(alloc, front, "se", "null", "ull")? {
        return Ok(true);
    }
    any_of(alloc, front, "ll", "l", "")
}

/// Whether a token begins with a front, which begins as a string, a number or a word does.
fn goes_on(alloc: Global, front: &str) -> Result<bool, Memory>
    requires { begins_open front.now ≡ true }
    ensures { IfOk result (λ can. IsTrue can ↔ CanEnd front.now) }
{
    if front.as_bytes()[0] == b'"' {
        string_goes_on(alloc, front)
    } else {
        word_goes_on(alloc, front)
    }
}

/// The text from a byte on, where a character begins there.
fn text_from(text: &str, at: usize) -> Option<&str>
    requires { at ≤ length text.now }
    ensures { MatchOption result (IsUtf8 (drop at text.now) → ⊥) (λ front. front.now ≡ drop at text.now) }
{
    match str::from_utf8(&text.as_bytes()[at..]) {
        Ok(front) => Some(front),
        Err(_) => None,
    }
}

/// Whether some token begins with the bytes from here on, which begin as a string, a number or a word does.
pub(crate) fn can_end(alloc: Global, text: &str, at: usize) -> Result<bool, Memory>
    requires within { at < length text.now }
    requires open { begins_open (drop at text.now) ≡ true }
    ensures { IfOk result (λ can. IsTrue can ↔ CanEnd (drop at text.now)) }
{
    match text_from(text, at) {
        Some(front) => goes_on(alloc, front),
        None => Ok(false),
    }
}

/// Whether a token begins with these bytes and an end behind them.
fn is_ended_by(alloc: Global, bytes: &[u8], end: &[u8]) -> Result<bool, Memory>
    ensures yes { IfOk result (λ is. is ≡ true → Completes bytes.now end.now) }
    ensures no { IfOk result (λ is. is ≡ false → FailsWhole bytes.now end.now) }
{
    let mut text = Vec::new(alloc);
    text.extend_from_slice(bytes)?;
    text.extend_from_slice(end)?;
    match str::from_utf8(&text) {
        Ok(text) => begins_token(alloc, text),
        Err(_) => Ok(false),
    }
}

/// Whether a string begins with these bytes, which end inside a character: one to three bytes of it may be lacking.
fn character_goes_on(alloc: Global, bytes: &[u8]) -> Result<bool, Memory>
    ensures yes { IfOk result (λ is. is ≡ true → (e : List ℕ) × Completes bytes.now e) }
    ensures no { IfOk result (λ is. is ≡ false → (e : List ℕ) → CharEnd e → FailsWhole bytes.now e) }
{
    if is_ended_by(alloc, bytes, &[0x80, b'"'])? {
        return Ok(true);
    }
    if is_ended_by(alloc, bytes, &[0x80, 0x80, b'"'])? {
        return Ok(true);
    }
    if is_ended_by(alloc, bytes, &[0xA0, 0x80, b'"'])? {
        return Ok(true);
    }
    if is_ended_by(alloc, bytes, &[0x80, 0x80, 0x80, b'"'])? {
        return Ok(true);
    }
    is_ended_by(alloc, bytes, &[0x90, 0x80, 0x80, b'"'])
}

/// Whether some token begins with the bytes from here on, which begin as a string, a number or a word does. They are not all UTF-8.
pub(crate) fn broken_can_end(
    alloc: Global,
    text: &[u8],
    whole: &str,
    at: usize,
) -> Result<bool, Memory>
    requires front { whole.now ≡ front text.now }
    requires more { has_more text.now ≡ true }
    requires within { at < length (front text.now) }
    requires open { begins_open (drop at (front text.now)) ≡ true }
    ensures { IfOk result (λ can. IsTrue can ↔ CanEnd (drop at text.now)) }
{
    character_goes_on(alloc, &text[at..])
}
