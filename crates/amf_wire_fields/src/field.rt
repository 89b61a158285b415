ghost use Rattle.std.specs.Prelude.{◌≡◌, ◌<◌, ◌≤◌, ◌↔◌, IsTrue, IsSome, Some, IfOk, OnOk, length};
ghost use Rattle.amf_io.specs.Cursor.{place};
ghost use Rattle.amf_io.specs.Field.{whole};
ghost use Rattle.amf_io.specs.ReadEnds.{IsPlaced, Goes};
ghost use Rattle.amf_io.specs.CursorReads.{AnswersField};
ghost use Rattle.amf_wire_fields.specs.FieldSize.{size_of, AnswersNumber};

use crate::field_bytes::FieldBytes;
use amf_io::{Cursor, ReadEnd, Source, read_end};
use amf_wire::{U29, U29Read, read_u29};

/// No field that is read here has more bytes.
const LONGEST: usize = 8;

/// Where a field ends.
#[derive(Clone, Copy, Debug, PartialEq, Eq)]
pub enum FieldSize {
    /// Behind one byte.
    Byte,
    /// Where a U29 ends, behind at most four bytes.
    U29,
    /// Behind two bytes.
    Two,
    /// Behind four bytes.
    Four,
    /// Behind eight bytes.
    Eight,
}

impl FieldSize {
    /// Whether a field of this size ends within the bytes.
    fn is_whole(self, bytes: &[u8]) -> bool
        ensures { IsTrue result ↔ IsSome (whole (size_of self) bytes.now) }
    {
        match self {
            FieldSize::Byte => !bytes.is_empty(),
            FieldSize::U29 => match read_u29(bytes) {
                U29Read::Whole { .. } => true,
                U29Read::Short => false,
            },
            FieldSize::Two => bytes.len() >= 2,
            FieldSize::Four => bytes.len() >= 4,
            FieldSize::Eight => bytes.len() >= 8,
        }
    }

    /// How many of these bytes the field takes that begins with them.
    fn length_in(self, bytes: &[u8]) -> usize
        requires { 8 ≤ length bytes.now }
        ensures whole { whole (size_of self) bytes.now ≡ Some result }
        ensures few { result ≤ 8 }
    {
        match self {
            FieldSize::Byte => 1,
            FieldSize::U29 => match read_u29(bytes) {
                U29Read::Whole { used, .. } => used as usize,
                U29Read::Short => unreachable!(),
            },
            FieldSize::Two => 2,
            FieldSize::Four => 4,
            FieldSize::Eight => 8,
        }
    }
}

/// Reads the bytes of the next field. A field that the input or its limit cuts off is refused at its first byte.
pub fn read_field<S: Source>(
    cursor: &mut Cursor<'_, S>,
    size: FieldSize,
) -> Result<FieldBytes, ReadEnd>
    ensures goes { Goes S.Source cursor.old cursor.new result }
    ensures field { AnswersField S.tells S.left (λ bytes. bytes) (size_of size) cursor.old cursor.new result }
    ensures is_whole { IfOk result (λ bytes. whole (size_of size) bytes ≡ Some (length bytes)) }
    ensures placed { OnOk result (IsPlaced cursor.new) }
{
    // What is true of every cursor.
    let _start = cursor.at();
    let ahead = cursor.ahead();
    if ahead.len() < LONGEST {
        return read_by_bytes(cursor, size);
    }
    let len = size.length_in(ahead);
    let field = FieldBytes::front(ahead, len);
    cursor.pass(len as u32);
    Ok(field)
}

/// Reads the number of the next field, a U29 (AMF 3 specification, 1.3.1). Its ends are those of [`read_field`].
#[inline(always)]
pub fn read_number<S: Source>(cursor: &mut Cursor<'_, S>) -> Result<U29, ReadEnd>
    ensures goes { Goes S.Source cursor.old cursor.new result }
    ensures number { AnswersNumber S.tells S.left S.faults cursor.old cursor.new result }
    ensures moves { OnOk result (place cursor.old < place cursor.new) }
    ensures placed { OnOk result (IsPlaced cursor.new) }
{
    // What is true of every cursor.
    let _start = cursor.at();
    let ahead = cursor.ahead();
    match read_u29(ahead) {
        U29Read::Whole { value, used } => {
            cursor.pass(used as u32);
            Ok(value)
        }
        U29Read::Short => Ok(read_by_bytes(cursor, FieldSize::U29)?.number()),
    }
}

/// Reads the bytes of the next field, one after the other.
#[inline(never)]
fn read_by_bytes<S: Source>(
    cursor: &mut Cursor<'_, S>,
    size: FieldSize,
) -> Result<FieldBytes, ReadEnd>
    ensures goes { Goes S.Source cursor.old cursor.new result }
    ensures field { AnswersField S.tells S.left (λ bytes. bytes) (size_of size) cursor.old cursor.new result }
    ensures is_whole { IfOk result (λ bytes. whole (size_of size) bytes ≡ Some (length bytes)) }
    ensures placed { OnOk result (IsPlaced cursor.new) }
{
    let start = cursor.at();
    let mut field = FieldBytes::new();
    while !size.is_whole(field.as_slice()) {
        match cursor.byte() {
            Ok(byte) => field.push(byte),
            Err(end) => return Err(read_end(end, start)),
        }
    }
    Ok(field)
}
