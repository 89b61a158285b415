//! Why a token is refused where a goal has to be met.

ghost use Rattle.std.specs.Prelude.{◌≡◌, List, ℕ, IfOk};
ghost use Rattle.json.specs.Token.{Token, begin_object, key, string, number};
ghost use Rattle.amf_text.specs.Told.{stands_in};
ghost use Rattle.amf_text.specs.Asks.{fault_at, hex_fault as hex_spec, wants_key as wants_spec};
ghost use Rattle.amf_text_read.specs.Goals.{Held, goal_of};
ghost use Rattle.amf_text_read.specs.Reasons.{IsPlain};

use crate::goal::Goal;
use crate::scalars::hex_bytes;
use amf_text::TextReason;
use amf_wire::{Memory, is_amf_text};
use std::alloc::Global;

/// Whether a key has to come, or the end of an object.
fn wants_key(goal: Goal) -> bool
    ensures { (h : Held) → result ≡ wants_spec (goal_of h goal) }
{
    match goal {
        Goal::FormKey
        | Goal::KeyIs(_)
        | Goal::TableOr(_)
        | Goal::Close
        | Goal::RowKeys
        | Goal::Object
        | Goal::NodeObject
        | Goal::Plain
        | Goal::Keys
        | Goal::ClassRest
        | Goal::Begun
        | Goal::Rising
        | Goal::RisingPast
        | Goal::Left
        | Goal::FlagOrClose(_)
        | Goal::VectorKey => true,
        _ => false,
    }
}

/// Why a key is refused, and whether a row has it as its label.
#[tactic(auto, unfolding(amf_text::specs::Asks::fault_at))]
pub(crate) fn key_reason(goal: Goal, is_label: bool) -> TextReason
    ensures { (h : Held) (name : List ℕ) → is_label ≡ stands_in h.labels.at name → result ≡ fault_at (goal_of h goal) (key name) }
{
    match goal {
        Goal::RowKeys if is_label => TextReason::SameLabel,
        _ => TextReason::BadKey,
    }
}

/// Why hexadecimal digits are refused where those of a text have to stand.
fn hex_reason(alloc: Global, digits: &str) -> Result<TextReason, Memory>
    ensures { IfOk result (λ reason. reason ≡ hex_spec digits.now) }
{
    match hex_bytes(alloc, digits)? {
        Some(bytes) => Ok(if is_amf_text(&bytes) {
            TextReason::LongText
        } else {
            TextReason::BadText
        }),
        None => Ok(TextReason::BadHex),
    }
}

/// Why a string is refused.
#[tactic(auto, unfolding(amf_text::specs::Asks::fault_at))]
pub(crate) fn string_reason(alloc: Global, goal: Goal, text: &str) -> Result<TextReason, Memory>
    ensures { IfOk result (λ reason. (h : Held) → reason ≡ fault_at (goal_of h goal) (string text.now)) }
{
    if wants_key(goal) {
        return Ok(TextReason::BadKey);
    }
    match goal {
        Goal::ShortText => Ok(TextReason::LongText),
        Goal::TextHex | Goal::ShortHex => hex_reason(alloc, text),
        Goal::Hex => Ok(TextReason::BadHex),
        Goal::Pattern | Goal::Patterns => Ok(TextReason::BadNumber),
        Goal::MoreNames => Ok(TextReason::BadKey),
        _ => Ok(TextReason::BadShape),
    }
}

/// Why a number is refused.
#[tactic(auto, unfolding(amf_text::specs::Asks::fault_at))]
pub(crate) fn number_reason(goal: Goal) -> TextReason
    ensures { (h : Held) (digits : List ℕ) → result ≡ fault_at (goal_of h goal) (number digits) }
{
    if wants_key(goal) {
        return TextReason::BadKey;
    }
    match goal {
        Goal::Value
        | Goal::Items
        | Goal::Pattern
        | Goal::Patterns
        | Goal::Ints
        | Goal::Uints
        | Goal::VersionOfFile
        | Goal::VersionOfPacket => TextReason::BadNumber,
        _ => TextReason::BadShape,
    }
}

/// Why the brace of an object is refused.
#[tactic(auto, unfolding(amf_text::specs::Asks::fault_at))]
pub(crate) fn object_reason(goal: Goal) -> TextReason
    ensures { (h : Held) → result ≡ fault_at (goal_of h goal) begin_object }
{
    if wants_key(goal) {
        return TextReason::BadKey;
    }
    match goal {
        Goal::MoreHeaders(_) | Goal::MoreMessages(_) => TextReason::TooMany,
        _ => TextReason::BadShape,
    }
}

/// Why another token is refused.
#[tactic(auto, unfolding(amf_text::specs::Asks::fault_at))]
pub(crate) fn other_reason(goal: Goal) -> TextReason
    ensures { (h : Held) (t : Token) → IsPlain t → result ≡ fault_at (goal_of h goal) t }
{
    if wants_key(goal) {
        TextReason::BadKey
    } else {
        TextReason::BadShape
    }
}
