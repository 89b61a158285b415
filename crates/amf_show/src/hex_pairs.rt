ghost use Rattle.std.specs.Prelude.{◌≡◌};
ghost use Rattle.amf_show.specs.Shown.{hex_byte};

/// The two hexadecimal digits of each byte, one byte after the other.
static PAIRS: [u8; 512] = [
    b'0', b'0', b'0', b'1', b'0', b'2', b'0', b'3', b'0', b'4', b'0', b'5', b'0', b'6', b'0', b'7',
    b'0', b'8', b'0', b'9', b'0', b'a', b'0', b'b', b'0', b'c', b'0', b'd', b'0', b'e', b'0', b'f',
    b'1', b'0', b'1', b'1', b'1', b'2', b'1', b'3', b'1', b'4', b'1', b'5', b'1', b'6', b'1', b'7',
    b'1', b'8', b'1', b'9', b'1', b'a', b'1', b'b', b'1', b'c', b'1', b'd', b'1', b'e', b'1', b'f',
    b'2', b'0', b'2', b'1', b'2', b'2', b'2', b'3', b'2', b'4', b'2', b'5', b'2', b'6', b'2', b'7',
    b'2', b'8', b'2', b'9', b'2', b'a', b'2', b'b', b'2', b'c', b'2', b'd', b'2', b'e', b'2', b'f',
    b'3', b'0', b'3', b'1', b'3', b'2', b'3', b'3', b'3', b'4', b'3', b'5', b'3', b'6', b'3', b'7',
    b'3', b'8', b'3', b'9', b'3', b'a', b'3', b'b', b'3', b'c', b'3', b'd', b'3', b'e', b'3', b'f',
    b'4', b'0', b'4', b'1', b'4', b'2', b'4', b'3', b'4', b'4', b'4', b'5', b'4', b'6', b'4', b'7',
    b'4', b'8', b'4', b'9', b'4', b'a', b'4', b'b', b'4', b'c', b'4', b'd', b'4', b'e', b'4', b'f',
    b'5', b'0', b'5', b'1', b'5', b'2', b'5', b'3', b'5', b'4', b'5', b'5', b'5', b'6', b'5', b'7',
    b'5', b'8', b'5', b'9', b'5', b'a', b'5', b'b', b'5', b'c', b'5', b'd', b'5', b'e', b'5', b'f',
    b'6', b'0', b'6', b'1', b'6', b'2', b'6', b'3', b'6', b'4', b'6', b'5', b'6', b'6', b'6', b'7',
    b'6', b'8', b'6', b'9', b'6', b'a', b'6', b'b', b'6', b'c', b'6', b'd', b'6', b'e', b'6', b'f',
    b'7', b'0', b'7', b'1', b'7', b'2', b'7', b'3', b'7', b'4', b'7', b'5', b'7', b'6', b'7', b'7',
    b'7', b'8', b'7', b'9', b'7', b'a', b'7', b'b', b'7', b'c', b'7', b'd', b'7', b'e', b'7', b'f',
    b'8', b'0', b'8', b'1', b'8', b'2', b'8', b'3', b'8', b'4', b'8', b'5', b'8', b'6', b'8', b'7',
    b'8', b'8', b'8', b'9', b'8', b'a', b'8', b'b', b'8', b'c', b'8', b'd', b'8', b'e', b'8', b'f',
    b'9', b'0', b'9', b'1', b'9', b'2', b'9', b'3', b'9', b'4', b'9', b'5', b'9', b'6', b'9', b'7',
    b'9', b'8', b'9', b'9', b'9', b'a', b'9', b'b', b'9', b'c', b'9', b'd', b'9', b'e', b'9', b'f',
    b'a', b'0', b'a', b'1', b'a', b'2', b'a', b'3', b'a', b'4', b'a', b'5', b'a', b'6', b'a', b'7',
    b'a', b'8', b'a', b'9', b'a', b'a', b'a', b'b', b'a', b'c', b'a', b'd', b'a', b'e', b'a', b'f',
    b'b', b'0', b'b', b'1', b'b', b'2', b'b', b'3', b'b', b'4', b'b', b'5', b'b', b'6', b'b', b'7',
    b'b', b'8', b'b', b'9', b'b', b'a', b'b', b'b', b'b', b'c', b'b', b'd', b'b', b'e', b'b', b'f',
    b'c', b'0', b'c', b'1', b'c', b'2', b'c', b'3', b'c', b'4', b'c', b'5', b'c', b'6', b'c', b'7',
    b'c', b'8', b'c', b'9', b'c', b'a', b'c', b'b', b'c', b'c', b'c', b'd', b'c', b'e', b'c', b'f',
    b'd', b'0', b'd', b'1', b'd', b'2', b'd', b'3', b'd', b'4', b'd', b'5', b'd', b'6', b'd', b'7',
    b'd', b'8', b'd', b'9', b'd', b'a', b'd', b'b', b'd', b'c', b'd', b'd', b'd', b'e', b'd', b'f',
    b'e', b'0', b'e', b'1', b'e', b'2', b'e', b'3', b'e', b'4', b'e', b'5', b'e', b'6', b'e', b'7',
    b'e', b'8', b'e', b'9', b'e', b'a', b'e', b'b', b'e', b'c', b'e', b'd', b'e', b'e', b'e', b'f',
    b'f', b'0', b'f', b'1', b'f', b'2', b'f', b'3', b'f', b'4', b'f', b'5', b'f', b'6', b'f', b'7',
    b'f', b'8', b'f', b'9', b'f', b'a', b'f', b'b', b'f', b'c', b'f', b'd', b'f', b'e', b'f', b'f',
];

/// The two hexadecimal digits of a byte, in lower case.
pub(crate) fn hex_pair(byte: u8) -> [u8; 2]
    ensures { result ≡ hex_byte byte }
{
    let from = 2 * byte as usize;
    [PAIRS[from], PAIRS[from + 1]]
}
