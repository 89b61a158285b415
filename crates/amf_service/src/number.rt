ghost use Rattle.std.specs.Prelude.{◌≡◌, ◌≤ℤ◌, pos, negsuc, false, true, nat_lt, IfSome, IsNone};
ghost use Rattle.amf_graph.specs.Arena.{Arena, value_content};
ghost use Rattle.amf_service.specs.Shipped.{number_of, size_of};
ghost use Rattle.amf_wire.specs.WholeNumbers.{signed_pattern};

use amf_graph::Value;
use amf_wire::{Pattern, pattern_of, whole_of};

/// The number that a value is: an integer, or a double that is a whole number below 2^53 in size.
pub(crate) fn number_of(value: Value) -> Option<i64>
    ensures value { (a : Arena) → result ≡ number_of (value_content a value) }
    ensures bound { IfSome result (λ n. (negsuc 9007199254740990 ≤ℤ n) × (n ≤ℤ pos 9007199254740991)) }
{
    match value {
        Value::Integer(n) => Some(i64::from(n)),
        Value::Double(p) => whole_of(p),
        _ => None,
    }
}

/// The double of a whole number, if it is below 2^53 in size.
pub(crate) fn double_of(n: i128) -> Option<Pattern>
    ensures some { IfSome result (λ p. (nat_lt (size_of n) 9007199254740992 ≡ true) × (p.0 ≡ signed_pattern n)) }
    ensures none { IsNone result → nat_lt (size_of n) 9007199254740992 ≡ false }
{
    if n <= -9_007_199_254_740_992 || n >= 9_007_199_254_740_992 {
        return None;
    }
    pattern_of(n as i64)
}
