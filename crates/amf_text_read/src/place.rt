//! Where the tokens of a text stand, for the place of a refusal.

ghost use Rattle.std.specs.Prelude.{◌≡◌, ℕ, suc, ◌+◌, ◌<◌, ◌≤◌, length, get_or};
ghost use Rattle.json.specs.Lex.{between, class};
ghost use Rattle.amf_text.specs.Scan.{is_open, mode_after, next_mode, scan};
ghost use Rattle.amf_text.specs.Refused.{position_of};
ghost use Rattle.amf_text_read.specs.Modes.{mode_of};
ghost use Rattle.amf_text_read.specs.Places.{NextBegins, StandsAt, byte_at, parts_of, token_places};

use crate::mode::Mode;

/// Where the next lexeme begins from a place on, which is passed in this mode, or the end of the text.
fn lexeme_from(text: &[u8], from: usize, mode: Mode) -> usize
    requires { from ≤ length text.now }
    ensures { NextBegins text.now (mode_of mode) from result }
{
    let mut mode = mode;
    let mut at = from;
    while at < text.len() && !mode.begins(text[at]) {
        mode = mode.next(text[at]);
        at += 1;
    }
    at
}

/// Where the lexeme begins that follows the one at a place, or the end of the text.
fn lexeme_behind(text: &[u8], start: usize) -> usize
    ensures next { start < length text.now → NextBegins text.now (next_mode between (class (byte_at text.now start))) (start + 1) result }
    ensures end { length text.now ≤ start → result ≡ start }
{
    if start < text.len() {
        lexeme_from(text, start + 1, Mode::Between.next(text[start]))
    } else {
        start
    }
}

/// Whether a comma or a colon has its place behind a token that begins with this byte.
fn parts(first: u8, mark: u8) -> bool
    ensures { result ≡ parts_of first mark }
{
    mark == b',' && (first != b'{' && first != b'[') || mark == b':' && first == b'"'
}

/// Where the token begins that follows the one at a place, or the end of the text.
fn token_behind(text: &[u8], start: usize) -> usize
    ensures { (n : ℕ) → StandsAt text.now n start → n < length (scan text.now).tokens → StandsAt text.now (suc n) result }
{
    let next = lexeme_behind(text, start);
    if start < text.len() && next < text.len() && parts(text[start], text[next]) {
        lexeme_behind(text, next)
    } else {
        next
    }
}

/// Where the token of this number begins, both from 0; behind the last token, where what is no token, is cut off or stands out of
/// place begins, or the end of the text. A token is a bracket, a key with its colon, a string, a number, `true`, `false` or `null`
/// (RFC 8259, 2 and 3); no more tokens are asked for than stand in their places.
pub fn place_of(text: &[u8], token: usize) -> usize
    ensures { token ≤ length (scan text.now).tokens → result ≡ get_or (token_places text.now) token 0 }
{
    let mut at = lexeme_from(text, 0, Mode::Between);
    for _ in 0..token {
        at = token_behind(text, at);
    }
    at
}

/// Whether a text ends inside its last lexeme: that is a string without its end, or a number or a word that touches the end.
pub fn ends_inside(text: &[u8]) -> bool
    ensures { result ≡ is_open (mode_after between text.now) }
{
    let mut mode = Mode::Between;
    for byte in text {
        mode = mode.next(*byte);
    }
    mode.is_open()
}

/// The line of a place and the byte in that line, both from 1. A line feed ends a line; behind the end of the text is its end.
pub fn line_and_column(text: &[u8], at: usize) -> (usize, usize)
    ensures line { result.0 ≡ (position_of text.now at).line }
    ensures column { result.1 ≡ (position_of text.now at).column }
{
    let mut line = 1;
    let mut column = 1;
    for byte in &text[..at.min(text.len())] {
        if *byte == b'\n' {
            line += 1;
            column = 1;
        } else {
            column += 1;
        }
    }
    (line, column)
}
