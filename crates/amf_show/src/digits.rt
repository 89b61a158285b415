ghost use Rattle.std.specs.Prelude.{◌≡◌, ◌<◌, ◌++◌, decimal, OnOk};

use crate::numbers::push_word;
use amf_wire::Memory;

/// Appends a number below 10,000 in decimal digits: as many as it has, at once.
pub(crate) fn push_short(number: u32, out: &mut Vec<u8>) -> Result<(), Memory>
    requires { number < 10000 }
    ensures { OnOk result (out.new.items ≡ out.old.items ++ decimal number) }
{
    let ones = b'0' + (number % 10) as u8;
    if number < 10 {
        return push_word(&[ones], out);
    }
    let tens = b'0' + (number / 10 % 10) as u8;
    if number < 100 {
        return push_word(&[tens, ones], out);
    }
    let hundreds = b'0' + (number / 100 % 10) as u8;
    if number < 1_000 {
        return push_word(&[hundreds, tens, ones], out);
    }
    let thousands = b'0' + (number / 1_000 % 10) as u8;
    push_word(&[thousands, hundreds, tens, ones], out)
}
