ghost use Rattle.std.specs.Prelude.{◌≡◌, ◌<◌, ◌^◌, [], ◌∷◌, ◌&&◌, ◌||◌, not, codes, false, Some, None, OnOk};
ghost use Rattle.json.specs.Token as spec;
ghost use Rattle.json.specs.Tree.{json_tokens};
ghost use Rattle.amf_wire.specs.WholeNumbers.{whole_of};
ghost use Rattle.amf_text.specs.Scalars.{alone, Digits, AreDigits, is_odd, is_integer_like, odd_word, told_pattern, told_double};
ghost use Rattle.amf_text_write.specs.Laid.{with_more};
ghost use Rattle.amf_text_write.specs.Tells.{Tells};

use crate::layout::Output;
use amf_wire::{Memory, Pattern, whole_of};
use json::Token;
use ryu::Buffer;
use std::alloc::Global;

/// The bits of minus zero.
const MINUS_ZERO: u64 = 1 << 63;

/// The bit above a double's fraction.
const UNIT: u64 = 1 << 52;

/// The first whole number behind those of AMF 3's integers (1.3.1).
const INTEGER_END: i64 = 1 << 28;

/// Whether a double is infinite, no number, or minus zero.
fn is_odd(double: Pattern) -> bool
    ensures { result ≡ is_odd double.0 }
{
    double.0 / UNIT % 2048 == 2047 || double.0 == MINUS_ZERO
}

/// Whether a double is a whole number that an integer of AMF 3 could be.
fn is_integer_like(double: Pattern) -> bool
    ensures { result ≡ is_integer_like (whole_of double.0) }
{
    match whole_of(double) {
        Some(whole) => -INTEGER_END <= whole && whole < INTEGER_END,
        None => false,
    }
}

/// Whether a double is told apart, by an object of one member: a number of JSON could not tell it, or would tell an integer.
fn is_apart(bare: bool, double: Pattern) -> bool
    ensures { result ≡ (is_odd double.0 || (is_integer_like (whole_of double.0) && not bare)) }
{
    is_odd(double) || (is_integer_like(double) && !bare)
}

/// Doubles by their bits (IEEE 754, 3.4, binary64).
impl Output {
    /// A double that is no number of JSON, as a word or as the hexadecimal digits of its bits.
    fn odd(&mut self, alloc: Global, double: Pattern) -> Result<(), Memory>
        ensures { OnOk result (self.new ≡ with_more self.old (spec.string (odd_word double.0) ∷ [])) }
    {
        match double.0 {
            0x7FF8_0000_0000_0000 => self.string("NaN"),
            0x7FF0_0000_0000_0000 => self.string("Infinity"),
            0xFFF0_0000_0000_0000 => self.string("-Infinity"),
            MINUS_ZERO => self.string("-0"),
            bits => self.hex(alloc, &bits.to_be_bytes()),
        }
    }

    /// The bits of a double that is finite and no whole number below 2^53.
    fn digits(&mut self, bits: u64) -> Result<(), Memory>
        requires finite { is_odd bits ≡ false }
        requires part { whole_of bits ≡ None }
        ensures { (d : Digits) → AreDigits d → OnOk result (Tells (spec.number (d bits) ∷ []) self.old self.new) }
    {
        let mut digits = Buffer::new();
        self.token(Token::Number(digits.format_finite(f64::from_bits(bits))))
    }

    /// A double where nothing else can stand.
    pub(crate) fn pattern(&mut self, alloc: Global, double: Pattern) -> Result<(), Memory>
        ensures { (d : Digits) → AreDigits d → OnOk result (Tells (json_tokens (told_pattern d double.0)) self.old self.new) }
    {
        if is_odd(double) {
            return self.odd(alloc, double);
        }
        match whole_of(double) {
            Some(whole) => self.int(whole),
            None => self.digits(double.0),
        }
    }

    /// An object of one member whose value is a double.
    pub(crate) fn pattern_alone(
        &mut self,
        alloc: Global,
        tag: &str,
        double: Pattern,
    ) -> Result<(), Memory>
        ensures { (d : Digits) → AreDigits d → OnOk result (Tells (json_tokens (alone tag.now (told_pattern d double.0))) self.old self.new) }
    {
        self.token(Token::BeginObject)?;
        self.key(tag)?;
        self.pattern(alloc, double)?;
        self.token(Token::EndObject)
    }

    /// A double as a value. One that an integer could stand for is told apart, but where no integers are.
    pub(crate) fn double(
        &mut self,
        alloc: Global,
        bare: bool,
        double: Pattern,
    ) -> Result<(), Memory>
        ensures { (d : Digits) → AreDigits d → OnOk result (Tells (json_tokens (told_double d bare double.0)) self.old self.new) }
    {
        if is_apart(bare, double) {
            return self.pattern_alone(alloc, "$double", double);
        }
        self.pattern(alloc, double)
    }
}
