ghost use Rattle.std.specs.Prelude.{◌≡◌, SomeIff};
ghost use Rattle.amf_wire.specs.Integer.{IsInteger, integer_bits, integer_of};

use crate::u29::U29;

/// The integer whose 29 bits, in two's complement, are those of `n` (AMF 3 specification, 3.6).
pub fn sign29(n: U29) -> i32
    ensures value { result ≡ integer_of n }
    ensures in_range { IsInteger result }
    ensures bits { integer_bits result ≡ n }
{
    let bits = n.get();
    if bits < 1 << 28 {
        bits as i32
    } else {
        bits as i32 - (1 << 29)
    }
}

/// The 29 bits of `v` in two's complement, or `None` exactly outside -2^28 to 2^28-1 (AMF 3 specification, 3.6).
pub fn unsign29(v: i32) -> Option<U29>
    ensures { SomeIff result (IsInteger v) (integer_bits v) }
{
    if v < -(1 << 28) || v >= 1 << 28 {
        return None;
    }
    let bits = if v < 0 { v + (1 << 29) } else { v };
    U29::new(bits as u32)
}
