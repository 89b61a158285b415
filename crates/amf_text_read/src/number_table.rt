//! By which numbers goals are met.

ghost use Rattle.std.specs.Prelude.{◌≡◌, List, ℕ, option_map, option_and_then, is_some};
ghost use Rattle.json.specs.Token.{number as number_token};
ghost use Rattle.amf_wire.specs.WholeNumbers.{whole_of as whole_spec};
ghost use Rattle.amf_text.specs.Scalars.{read_number};
ghost use Rattle.amf_text.specs.Meant.{fits_int, fits_uint};
ghost use Rattle.amf_text.specs.Accepted.{file_version, packet_version};
ghost use Rattle.amf_text_read.specs.Goals.{Comes, listed, bits_of};

use crate::goal::Goal;
use crate::scalars::{as_int, as_uint};
use crate::table::when;
use amf_wire::{Pattern, whole_of};

/// The whole number that a number is.
fn whole(number: Option<Pattern>) -> Option<i64>
    ensures { result ≡ option_and_then whole_spec (bits_of number) }
{
    whole_of(number?)
}

fn is_int(number: Option<Pattern>) -> bool
    ensures { result ≡ is_some (option_and_then fits_int (option_and_then whole_spec (bits_of number))) }
{
    match whole(number) {
        Some(whole) => as_int(whole).is_some(),
        None => false,
    }
}

fn is_uint(number: Option<Pattern>) -> bool
    ensures { result ≡ is_some (option_and_then fits_uint (option_and_then whole_spec (bits_of number))) }
{
    match whole(number) {
        Some(whole) => as_uint(whole).is_some(),
        None => false,
    }
}

fn is_file_version(number: Option<Pattern>) -> bool
    ensures { result ≡ is_some (option_and_then file_version (option_and_then whole_spec (bits_of number))) }
{
    match whole(number) {
        Some(whole) => whole == 0 || whole == 3,
        None => false,
    }
}

fn is_packet_version(number: Option<Pattern>) -> bool
    ensures { result ≡ is_some (option_and_then packet_version (option_and_then whole_spec (bits_of number))) }
{
    match whole(number) {
        Some(whole) => whole == 0 || whole == 1 || whole == 3,
        None => false,
    }
}

/// What comes in place of a goal by a number, of which these are the bits where it is finite.
#[tactic(auto, unfolding(amf_text::specs::Asks::step))]
pub(crate) fn at_number(goal: Goal, number: Option<Pattern>) -> Option<&'static [Goal]>
    ensures { (digits : List ℕ) → read_number digits ≡ bits_of number → Comes goal (number_token digits) (listed result) }
{
    match goal {
        Goal::Value | Goal::Pattern => when(number.is_some(), &[]),
        Goal::Items => when(number.is_some(), &[Goal::Items]),
        Goal::Patterns => when(number.is_some(), &[Goal::Patterns]),
        Goal::Ints => when(is_int(number), &[Goal::Ints]),
        Goal::Uints => when(is_uint(number), &[Goal::Uints]),
        Goal::VersionOfFile => when(is_file_version(number), &[]),
        Goal::VersionOfPacket => when(is_packet_version(number), &[]),
        _ => None,
    }
}
