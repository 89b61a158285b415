ghost use Rattle.std.specs.Prelude.{◌≡◌, ◌+◌, ◌*◌, ◌<◌, ◌≤◌, ◌↔◌, IsTrue};
ghost use Rattle.amf_wire.specs.U29Answer.{IsU29Read};
ghost use Rattle.amf_wire.specs.U29.{IsShortU29, u29_end};

use crate::u29::U29;

/// What stands at the front of bytes.
#[derive(Clone, Copy, Debug, PartialEq, Eq)]
pub enum U29Read {
    /// The first `used` bytes, one to four, spell `value`.
    Whole { value: U29, used: u8 },
    /// The bytes end before a spelling does.
    Short,
}

/// Reads the number that is spelled at the front of `bytes`, by a longer spelling than needed too (AMF 3 specification,
/// 1.3.1). `Short` comes exactly where fewer than four bytes are there and each has its top bit set.
pub fn read_u29(bytes: &[u8]) -> U29Read
    ensures answer { IsU29Read bytes.now result }
    ensures short { (result ≡ U29Read.Short) ↔ IsShortU29 bytes.now }
{
    if bytes.len() == 0 {
        return U29Read::Short;
    }
    if is_last(bytes[0]) {
        return whole(bytes[0] as u32, 1);
    }
    if bytes.len() == 1 {
        return U29Read::Short;
    }
    let high = (bytes[0] - 0x80) as u32;
    if is_last(bytes[1]) {
        return whole(high * 0x80 + bytes[1] as u32, 2);
    }
    if bytes.len() == 2 {
        return U29Read::Short;
    }
    let high = high * 0x80 + (bytes[1] - 0x80) as u32;
    if is_last(bytes[2]) {
        return whole(high * 0x80 + bytes[2] as u32, 3);
    }
    if bytes.len() == 3 {
        return U29Read::Short;
    }
    let high = high * 0x80 + (bytes[2] - 0x80) as u32;
    whole(high * 0x100 + bytes[3] as u32, 4)
}

/// Whether no other byte follows this one, of the first three.
fn is_last(byte: u8) -> bool
    ensures { IsTrue result ↔ (byte < 128) }
{
    byte < 0x80
}

fn whole(value: u32, used: u8) -> U29Read
    requires { value < u29_end }
    ensures { result ≡ U29Read.Whole value used }
{
    match U29::new(value) {
        Some(value) => U29Read::Whole { value, used },
        None => U29Read::Short,
    }
}
