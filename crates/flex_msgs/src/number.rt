ghost use Rattle.std.specs.Prelude.{◌≡◌, ◌<◌, ◌^◌, ℕ, pos};
ghost use Rattle.amf_graph.specs.declared.value.Value.TheVariants.{Integer};
ghost use Rattle.amf_graph.specs.Arena.{Arena, value_content};
ghost use Rattle.flex_msgs.specs.Viewing.{whole_number};
ghost use Rattle.amf_wire.specs.WholeNumbers.{pattern_of};
ghost use Rattle.flex_msgs.specs.Messages.{stamp_of};

use amf_graph::Value;
use amf_wire::{Pattern, pattern_of, whole_of};

/// The whole number that a value is: an integer, or a double that is one.
pub fn whole_number(value: Value) -> Option<i64>
    ensures { (a : Arena) → result ≡ whole_number (value_content a value) }
{
    match value {
        Value::Integer(n) => Some(i64::from(n)),
        Value::Double(p) => whole_of(p),
        _ => None,
    }
}

/// A small number as an integer.
pub fn small(n: u8) -> Value
    ensures { result ≡ Integer (pos n) }
{
    Value::Integer(i32::from(n))
}

/// The double of a whole number below 2^53.
fn double_of(n: i64) -> Pattern
    ensures { (m : ℕ) → n ≡ pos m → m < 9007199254740992 → result.0 ≡ pattern_of m }
{
    pattern_of(n).unwrap_or(Pattern(0))
}

/// A moment as a double: 0 from 2^53 on.
pub(crate) fn stamp_of(moment: u64) -> Pattern
    ensures stamp { result.0 ≡ stamp_of moment }
    ensures range { result.0 < 2 ^ 64 }
{
    if moment < 9_007_199_254_740_992 {
        double_of(moment as i64)
    } else {
        Pattern(0)
    }
}
