//! By which strings goals are met.

ghost use Rattle.std.specs.Prelude.{◌≡◌, false, IfOk, is_some};
ghost use Rattle.json.specs.Token.{string};
ghost use Rattle.amf_text.specs.Meant.{unhex, word_meant};
ghost use Rattle.amf_text.specs.Accepted.{is_short as short_spec, form_of};
ghost use Rattle.amf_text.specs.Asks.{is_text_hex, is_short_hex, by_word};
ghost use Rattle.amf_text_read.specs.Goals.{Comes, AreAsked, listed, is_told};

use crate::goal::{Goal, Key};
use crate::scalars::{hex_bytes, word_pattern};
use crate::table::when;
use amf_wire::{Memory, is_amf_text};
use std::alloc::Global;

/// The most bytes of a name, a target or a response.
const MAX_SHORT: usize = 65_535;

/// What stands behind the word that says which form a text has.
fn form_goals(word: &str) -> Option<&'static [Goal]>
    ensures { AreAsked (by_word word.now) (listed result) }
{
    match word {
        "amf0" | "amf3" => Some(&[Goal::TableOr(Key::Root), Goal::Value, Goal::Close]),
        "packet" => Some(&[
            Goal::KeyIs(Key::Headers),
            Goal::Headers,
            Goal::KeyIs(Key::Messages),
            Goal::Messages,
            Goal::KeyIs(Key::Version),
            Goal::VersionOfPacket,
            Goal::Close,
        ]),
        "sol" => Some(&[
            Goal::KeyIs(Key::Name),
            Goal::ShortText,
            Goal::TableOr(Key::Pairs),
            Goal::Members,
            Goal::KeyIs(Key::Version),
            Goal::VersionOfFile,
            Goal::Close,
        ]),
        _ => None,
    }
}

fn is_form(word: &str) -> bool
    ensures { result ≡ is_some (form_of word.now) }
{
    word == "plain" || word == "amf3" || word == "call"
}

fn is_short(bytes: &[u8]) -> bool
    ensures { result ≡ short_spec bytes.now }
{
    bytes.len() <= MAX_SHORT
}

/// Whether pairs of hexadecimal digits stand there.
fn is_hex(alloc: Global, digits: &str) -> Result<bool, Memory>
    ensures { IfOk result (λ is. is ≡ is_some (unhex digits.now)) }
{
    Ok(hex_bytes(alloc, digits)?.is_some())
}

/// Whether hexadecimal digits are those of a text.
fn is_text(alloc: Global, digits: &str) -> Result<bool, Memory>
    ensures { IfOk result (λ is. is ≡ is_text_hex digits.now) }
{
    match hex_bytes(alloc, digits)? {
        Some(bytes) => Ok(is_amf_text(&bytes)),
        None => Ok(false),
    }
}

/// Whether hexadecimal digits are those of a name, a target or a response.
fn is_short_text(alloc: Global, digits: &str) -> Result<bool, Memory>
    ensures { IfOk result (λ is. is ≡ is_short_hex digits.now) }
{
    match hex_bytes(alloc, digits)? {
        Some(bytes) => Ok(is_amf_text(&bytes) && is_short(&bytes)),
        None => Ok(false),
    }
}

/// What comes in place of a goal by a string. Names that are told are counted elsewhere.
#[tactic(auto, unfolding(amf_text::specs::Asks::step))]
pub(crate) fn at_string(
    alloc: Global,
    goal: Goal,
    text: &str,
) -> Result<Option<&'static [Goal]>, Memory>
    ensures { IfOk result (λ next. is_told goal ≡ false → Comes goal (string text.now) (listed next)) }
{
    match goal {
        Goal::FormName => Ok(form_goals(text)),
        Goal::Value | Goal::Text | Goal::Label => Ok(Some(&[])),
        Goal::Items => Ok(Some(&[Goal::Items])),
        Goal::ShortText => Ok(when(is_short(text.as_bytes()), &[])),
        Goal::TextHex => Ok(when(is_text(alloc, text)?, &[])),
        Goal::ShortHex => Ok(when(is_short_text(alloc, text)?, &[])),
        Goal::Hex => Ok(when(is_hex(alloc, text)?, &[])),
        Goal::Pattern => Ok(when(word_pattern(text).is_some(), &[])),
        Goal::Patterns => Ok(when(word_pattern(text).is_some(), &[Goal::Patterns])),
        Goal::FormWord => Ok(when(is_form(text), &[])),
        _ => Ok(None),
    }
}
