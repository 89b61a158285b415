ghost use Rattle.std.specs.Prelude.{◌≡◌, ◌+◌, ◌<◌, ◌^◌, ◌++◌, OnOk};
ghost use Rattle.amf_show.specs.Joining.{line_number};

use crate::numbers::{push_uint, push_word};
use amf_wire::Memory;

/// Appends a number as it stands at the front of the line of its node, with the space behind it.
pub(crate) fn push_line_number(number: u32, out: &mut Vec<u8>) -> Result<(), Memory>
    ensures { OnOk result (out.new.items ≡ out.old.items ++ line_number number) }
{
    push_word(b"#", out)?;
    push_uint(number, out)?;
    push_word(b" ", out)
}

/// Makes the text of a number that of the next one: in nine of ten cases only its last digit differs.
pub(crate) fn count_up(number: u32, text: &mut Vec<u8>) -> Result<(), Memory>
    requires small { number + 1 < 2 ^ 32 }
    requires text { text.old.items ≡ line_number number }
    ensures { OnOk result (text.new.items ≡ line_number (number + 1)) }
{
    let last = text.len() - 2;
    let digit = text[last];
    if digit < b'9' {
        text[last] = digit + 1;
        return Ok(());
    }
    text.clear();
    push_line_number(number + 1, text)
}
