//! Numbers and identifiers as texts.

ghost use Rattle.std.specs.Prelude.{◌≡◌, ◌^◌, ◌≤◌, IsTrue, IfOk, IfSome, IsNone, decimal};
ghost use Rattle.std.specs.Char.{is_ascii_digit};
ghost use Rattle.std.specs.List.{list_all};
ghost use Rattle.std.specs.Str.Parse.{digits_value};
ghost use Rattle.amf_answer_plan.specs.Kept.{Fits};
ghost use Rattle.amf_answer_plan.specs.Numbers.{identifier, is_numeral, number_in};

use amf_wire::{Memory, Name};
use std::alloc::Global;
use uuid::{Builder, Uuid};

/// Whether each byte is a decimal digit.
fn are_digits(bytes: &[u8]) -> bool
    ensures { result ≡ list_all is_ascii_digit bytes.now }
{
    bytes.iter().all(|b| b.is_ascii_digit())
}

/// Whether the bytes are decimal digits, of which the first is no 0.
fn is_numeral(bytes: &[u8]) -> bool
    ensures { result ≡ is_numeral bytes.now }
{
    match bytes {
        [] => false,
        [first, ..] => *first != b'0' && are_digits(bytes),
    }
}

/// The number that decimal digits write, if it is below 2^64.
fn value_of(digits: &[u8]) -> Option<u64>
    requires { IsTrue (list_all is_ascii_digit digits.now) }
    ensures some { IfSome result (λ n. n ≡ digits_value 10 digits.now) }
    ensures none { IsNone result → 2 ^ 64 ≤ digits_value 10 digits.now }
{
    let mut value = 0u64;
    for digit in digits {
        let Some(tens) = value.checked_mul(10) else {
            return None;
        };
        let Some(sum) = tens.checked_add(u64::from(*digit - b'0')) else {
            return None;
        };
        value = sum;
    }
    Some(value)
}

/// The number that a text writes in decimal digits without leading zeros, below 2^64. Every other text counts as 0.
pub fn number_in(text: &Name) -> u64
    ensures { result ≡ number_in text.now }
{
    let bytes = text.as_bytes();
    if !is_numeral(bytes) {
        return 0;
    }
    value_of(bytes).unwrap_or(0)
}

/// The identifier that two words make, the first of them the high half: version 4, variant 10, in lower case with hyphens
/// (RFC 9562, sections 4 and 5.4). It gives up where there is no memory.
pub fn identifier(alloc: Global, high: u64, low: u64) -> Result<Name, Memory>
    ensures { IfOk result (λ name. name ≡ identifier high low) }
{
    let mut bytes = [0u8; 16];
    bytes[..8].copy_from_slice(&high.to_be_bytes());
    bytes[8..].copy_from_slice(&low.to_be_bytes());
    let id = Builder::from_random_bytes(bytes).into_uuid();
    let mut buffer = Uuid::encode_buffer();
    let text = id.hyphenated().encode_lower(&mut buffer);
    Name::of_bytes(alloc, text.as_bytes())
}

/// The decimal digits of a number. It gives up where there is no memory.
pub fn numeral(alloc: Global, number: u64) -> Result<Name, Memory>
    ensures name { IfOk result (λ name. name ≡ decimal number) }
    ensures fits { IfOk result (λ name. Fits name) }
{
    let text = number.to_string(alloc)?;
    Name::of_bytes(alloc, text.as_bytes())
}
