ghost use Rattle.std.specs.Prelude.{◌≡◌, ◌≤◌, ◌++◌, length, take, OnOk};
ghost use Rattle.amf_show.specs.Pieces.{piece_text};

use crate::numbers::push_word;
use amf_wire::Memory;

/// How many bytes a short text has at most.
const SHORT: usize = 32;

/// A text that is appended again and again.
///
/// Of a short one as many bytes are copied as a short one can have, and what is too many is cut off: a copy whose size is
/// known takes fewer steps than one of so few bytes.
#[derive(Drop)]
pub(crate) enum Piece {
    /// The text, with zeros behind it, and its length.
    Short([u8; SHORT], u8),
    Long(Vec<u8>),
}

/// A short text with zeros behind it.
fn filled(text: &[u8]) -> [u8; SHORT]
    requires { length text.now ≤ 32 }
    ensures { take (length text.now) result ≡ text.now }
{
    let mut bytes = [0; SHORT];
    for place in 0..text.len() {
        bytes[place] = text[place];
    }
    bytes
}

/// Appends the first bytes of these.
#[inline(always)]
fn push_first(bytes: [u8; SHORT], len: u8, out: &mut Vec<u8>) -> Result<(), Memory>
    ensures { OnOk result (out.new.items ≡ out.old.items ++ take len bytes) }
{
    let end = out.len() + len as usize;
    out.extend_from_slice(&bytes)?;
    out.truncate(end);
    Ok(())
}

impl Piece {
    /// That of a text.
    pub(crate) fn of(text: Vec<u8>) -> Piece
        ensures { piece_text result ≡ text.items }
    {
        if text.len() > SHORT {
            return Piece::Long(text);
        }
        Piece::Short(filled(text.as_slice()), text.len() as u8)
    }

    /// Appends its text.
    #[inline(always)]
    pub(crate) fn push(&self, out: &mut Vec<u8>) -> Result<(), Memory>
        ensures { OnOk result (out.new.items ≡ out.old.items ++ piece_text self.now) }
    {
        match self {
            Piece::Short(bytes, len) => push_first(*bytes, *len, out),
            Piece::Long(text) => push_word(text.as_slice(), out),
        }
    }
}
