//! Numbers, doubles and bytes, as the text has them.

ghost use Rattle.std.specs.Prelude.{◌≡◌, Some, None, IfOk, option_map, option_and_then, if◌then◌else◌};
ghost use Rattle.amf_text.specs.Meant.{unhex, word_meant, sixteen, joined_bytes, fits_int, fits_uint};
ghost use Rattle.amf_text.specs.Scalars.{is_small, read_number};
ghost use Rattle.amf_wire.specs.WholeNumbers.{whole_of};

use amf_wire::{Memory, Pattern, be64_at, whole_of};
use hex::FromHexError;
use std::alloc::Global;

/// The bits of the double that is nearest to a number (RFC 8259, 6), where that is finite.
pub fn number_pattern(number: &str) -> Option<Pattern>
    ensures { option_map (λ p. p.0) result ≡ read_number number.now }
{
    let value: f64 = fast_float::parse(number).ok()?;
    if value.is_finite() {
        Some(Pattern(value.to_bits()))
    } else {
        None
    }
}

/// The whole number that a number is, where its size is below 2^53, however it is written. Minus zero is none.
pub fn number_whole(number: &str) -> Option<i64>
    ensures { result ≡ option_and_then whole_of (read_number number.now) }
{
    whole_of(number_pattern(number)?)
}

/// The double that a string names: by a word, or by the sixteen hexadecimal digits of its bits.
pub fn word_pattern(word: &str) -> Option<Pattern>
    ensures { option_map (λ p. p.0) result ≡ word_meant word.now }
{
    match word {
        "NaN" => Some(Pattern(0x7FF8_0000_0000_0000)),
        "Infinity" => Some(Pattern(0x7FF0_0000_0000_0000)),
        "-Infinity" => Some(Pattern(0xFFF0_0000_0000_0000)),
        "-0" => Some(Pattern(0x8000_0000_0000_0000)),
        _ => digits_pattern(word),
    }
}

/// The double whose bits sixteen hexadecimal digits are.
fn digits_pattern(digits: &str) -> Option<Pattern>
    ensures { option_map (λ p. p.0) result ≡ option_map (joined_bytes 0) (sixteen digits.now) }
{
    let mut bytes = [0u8; 8];
    match hex::decode_to_slice(digits, &mut bytes) {
        Ok(()) => Some(Pattern(be64_at(&bytes, 0))),
        Err(_) => None,
    }
}

/// The bytes that pairs of hexadecimal digits are, of either case, or `None` where these are none. It gives up where there is no
/// memory.
pub fn hex_bytes(alloc: Global, digits: &str) -> Result<Option<Vec<u8>>, Memory>
    ensures { IfOk result (λ bytes. option_map (λ v. v.items) bytes ≡ unhex digits.now) }
{
    match hex::decode(alloc, digits) {
        Ok(bytes) => Ok(Some(bytes)),
        Err(end) => match end {
            FromHexError::OutOfMemory => Err(Memory),
            _ => Ok(None),
        },
    }
}

/// A whole number in the range of the integers of AMF 3 (3.6), from -2^28 to 2^28 - 1.
pub fn as_integer(whole: i64) -> Option<i32>
    ensures { result ≡ (if is_small whole then Some whole else None) }
{
    if -(1 << 28) <= whole && whole < 1 << 28 {
        Some(whole as i32)
    } else {
        None
    }
}

/// A whole number in the range of an `int`, from -2^31 to 2^31 - 1.
pub fn as_int(whole: i64) -> Option<i32>
    ensures { result ≡ fits_int whole }
{
    if -(1 << 31) <= whole && whole < 1 << 31 {
        Some(whole as i32)
    } else {
        None
    }
}

/// A whole number in the range of a `uint`, from 0 to 2^32 - 1.
pub fn as_uint(whole: i64) -> Option<u32>
    ensures { result ≡ fits_uint whole }
{
    if 0 <= whole && whole < 1 << 32 {
        Some(whole as u32)
    } else {
        None
    }
}
