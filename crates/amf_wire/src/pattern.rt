ghost use Rattle.std.specs.Prelude.{◌≡◌, ◌≤ℤ◌, ◌<◌, ◌^◌, ◌/◌, ◌%◌, ℕ, ℤ, pos, negsuc, ◌↔◌, IfSome, IsSome, IsNone};
ghost use Rattle.amf_wire.specs.Whole.{IsPatternOf, HasPattern, HasParts, IsSize, PatternsAreInverse};
ghost use Rattle.amf_wire.specs.WholeNumbers.{WholeNumbers, whole_of};

/// The bits of a 64-bit double (AMF 3 specification, 3.7; AMF 0 specification, 2.2).
#[derive(Clone, Copy, Debug, PartialEq, Eq)]
pub struct Pattern(pub u64);

/// The bit above a double's fraction. It is not kept, and always counts.
const UNIT: u64 = 1 << 52;

/// The bit of a double's sign.
const SIGN: u64 = 1 << 63;

/// The whole number that the double is (IEEE 754, 3.4, binary64), or `None` where it is none, where its size is 2^53 or more,
/// and for minus zero.
pub fn whole_of(p: Pattern) -> Option<i64>
    ensures value { result ≡ whole_of p.0 }
    ensures some { IfSome result (λ v. IsPatternOf p.0 v) }
    ensures none { IsNone result → (v : ℤ) → IsPatternOf p.0 v → ⊥ }
    ensures bound { IfSome result (λ v. (negsuc 9007199254740990 ≤ℤ v) × (v ≤ℤ pos 9007199254740991)) }
{
    whole_in(p.0)
}

/// The whole number of these bits.
fn whole_in(bits: u64) -> Option<i64>
    ensures some { IfSome result (λ v. IsPatternOf bits v) }
    ensures none { IsNone result → (v : ℤ) → IsPatternOf bits v → ⊥ }
{
    if bits == 0 {
        return Some(0);
    }
    let size = size_of(bits / UNIT % 2048, bits % UNIT)?;
    Some(signed(bits, size))
}

/// This size with the sign of the double.
fn signed(bits: u64, size: u64) -> i64
    requires { IsSize (bits / 4503599627370496 % 2048) (bits % 4503599627370496) size }
    ensures { IsPatternOf bits result }
{
    let size = size as i64;
    if bits < SIGN { size } else { -size }
}

/// The value of this exponent and fraction, if it is a whole number.
fn size_of(exponent: u64, fraction: u64) -> Option<u64>
    requires exponent { exponent < 2048 }
    requires fraction { fraction < 4503599627370496 }
    ensures some { IfSome result (λ size. IsSize exponent fraction size) }
    ensures none { IsNone result → (size : ℕ) → IsSize exponent fraction size → ⊥ }
{
    if exponent < 1023 || exponent > 1075 {
        return None;
    }
    let parts = power_of_two(1075 - exponent);
    let scaled = UNIT + fraction;
    if scaled % parts != 0 {
        return None;
    }
    Some(scaled / parts)
}

/// 2 to this power, which is below 64.
fn power_of_two(power: u64) -> u64
    requires { power < 64 }
    ensures { result ≡ 2 ^ power }
{
    1 << power
}

/// The double that is this whole number (IEEE 754, 3.4, binary64), or `None` exactly where its size is 2^53 or more.
pub fn pattern_of(v: i64) -> Option<Pattern>
    ensures some { IfSome result (λ p. IsPatternOf p.0 v) }
    ensures none { IsSome result ↔ HasPattern v }
{
    let size = v.unsigned_abs();
    if size == 0 {
        return Some(Pattern(0));
    }
    if size >= 2 * UNIT {
        return None;
    }
    let magnitude = magnitude_of(size);
    Some(Pattern(if v < 0 { SIGN + magnitude } else { magnitude }))
}

/// The exponent and the fraction of this size, as they stand in a double.
fn magnitude_of(size: u64) -> u64
    requires some { 0 < size }
    requires bound { size < 9007199254740992 }
    ensures { HasParts result 0 size }
{
    let shift = size.leading_zeros() as u64 - 11;
    let fraction = size * power_of_two(shift) - UNIT;
    (1075 - shift) * UNIT + fraction
}

/// A whole number below 2^53 in size has one pattern, and a pattern is that of at most one whole number.
pub fn patterns_are_inverse()
    ensures { PatternsAreInverse }
{}

/// The functions from doubles to whole numbers and back say what the relation says.
pub fn whole_numbers()
    ensures { WholeNumbers }
{}
