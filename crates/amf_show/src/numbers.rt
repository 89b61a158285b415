ghost use Rattle.std.specs.Prelude.{◌≡◌, ◌++◌, decimal, OnOk};
ghost use Rattle.std.specs.Fmt.{signed_decimal};
ghost use Rattle.amf_show.specs.Joining.{separator_before};
ghost use Rattle.amf_show.specs.Shown.{shown_double};

use crate::digits::push_short;
use crate::hex_pairs::hex_pair;
use amf_wire::{Memory, Pattern};
use itoa::Buffer;

/// Appends a word. It gives up where there is no memory.
pub fn push_word(word: &[u8], out: &mut Vec<u8>) -> Result<(), Memory>
    ensures { OnOk result (out.new.items ≡ out.old.items ++ word.now) }
{
    out.extend_from_slice(word)?;
    Ok(())
}

/// Appends the comma and the space before each part but the first.
#[tactic(auto, using(crate::proofs::Joined::separator_none, crate::proofs::Joined::separator_some))]
pub(crate) fn push_separator(place: usize, out: &mut Vec<u8>) -> Result<(), Memory>
    ensures { OnOk result (out.new.items ≡ out.old.items ++ separator_before place) }
{
    if place == 0 {
        return Ok(());
    }
    push_word(b", ", out)
}

/// Appends an integer in decimal digits.
pub(crate) fn push_int(int: i32, out: &mut Vec<u8>) -> Result<(), Memory>
    ensures { OnOk result (out.new.items ≡ out.old.items ++ signed_decimal int) }
{
    if int >= 0 {
        return push_uint(int.unsigned_abs(), out);
    }
    let mut digits = Buffer::new();
    out.extend_from_slice(digits.format(int).as_bytes())?;
    Ok(())
}

/// Appends a number in decimal digits.
pub(crate) fn push_uint(uint: u32, out: &mut Vec<u8>) -> Result<(), Memory>
    ensures { OnOk result (out.new.items ≡ out.old.items ++ decimal uint) }
{
    if uint < 10_000 {
        return push_short(uint, out);
    }
    let mut digits = Buffer::new();
    out.extend_from_slice(digits.format(uint).as_bytes())?;
    Ok(())
}

/// A `d`, and the sixteen hexadecimal digits of a double's bits.
fn double_word(double: Pattern) -> [u8; 17]
    ensures { result ≡ shown_double double.0 }
{
    let bytes = double.0.to_be_bytes();
    let mut word = [b'd'; 17];
    for place in 0..8 {
        let pair = hex_pair(bytes[place]);
        word[2 * place + 1] = pair[0];
        word[2 * place + 2] = pair[1];
    }
    word
}

/// Appends the sixteen hexadecimal digits of a double's bits behind a `d`.
pub(crate) fn push_double(double: Pattern, out: &mut Vec<u8>) -> Result<(), Memory>
    ensures { OnOk result (out.new.items ≡ out.old.items ++ shown_double double.0) }
{
    out.extend_from_slice(&double_word(double))?;
    Ok(())
}
