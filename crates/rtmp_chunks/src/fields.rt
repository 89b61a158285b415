ghost use Rattle.std.specs.Prelude.{◌≡◌, ◌<◌, ◌≤◌, length, OnOk, IfOk};
ghost use Rattle.amf_io.specs.Field.{fixed, basic};
ghost use Rattle.amf_io.specs.ReadEnds.{IsPlaced, Goes};
ghost use Rattle.amf_io.specs.CursorReads.{AnswersField};
ghost use Rattle.amf_io.specs.Cursor.{place};
ghost use Rattle.rtmp_chunks.specs.Chunk.{id_of, format_of};

use amf_io::{Cursor, ReadEnd, Source, append_basic, append_field};
use std::alloc::Global;

/// Reads the bytes of a field of a fixed size. It grows its memory only as bytes come.
pub(crate) fn read_field<S: Source>(
    alloc: Global,
    cursor: &mut Cursor<'_, S>,
    size: u32,
) -> Result<Vec<u8>, ReadEnd>
    requires { 0 < size }
    ensures goes { Goes S.Source cursor.old cursor.new result }
    ensures field { AnswersField S.tells S.left (λ bytes. bytes.items) (fixed size) cursor.old cursor.new result }
    ensures size { IfOk result (λ bytes. length bytes.items ≡ size) }
    ensures placed { OnOk result (IsPlaced cursor.new) }
{
    let mut bytes = Vec::new(alloc);
    append_field(cursor, size, &mut bytes)?;
    Ok(bytes)
}

/// Reads a basic header, in place of what the buffer held.
pub(crate) fn read_basic<S: Source>(
    cursor: &mut Cursor<'_, S>,
    header: &mut Vec<u8>,
) -> Result<(), ReadEnd>
    ensures goes { Goes S.Source cursor.old cursor.new result }
    ensures field { AnswersField S.tells S.left (λ done. header.new.items) basic cursor.old cursor.new result }
    ensures some { OnOk result (0 < length header.new.items) }
    ensures least { OnOk result (2 ≤ id_of header.new.items) }
    ensures placed { OnOk result (IsPlaced cursor.new) }
    ensures moves { OnOk result (place cursor.old < place cursor.new) }
{
    header.clear();
    append_basic(cursor, header)
}

/// The format that a basic header has.
pub(crate) fn format_in(bytes: &[u8]) -> u8
    requires { 0 < length bytes.now }
    ensures format { result ≡ format_of bytes.now }
    ensures below { result < 4 }
{
    bytes[0] / 64
}

/// The chunk stream that a basic header numbers.
pub(crate) fn id_in(bytes: &[u8]) -> u32
    ensures id { result ≡ id_of bytes.now }
    ensures below { result < 65600 }
{
    match bytes {
        [] => 0,
        [first] => (*first % 64) as u32,
        [_, low] => *low as u32 + 64,
        [_, low, high, ..] => *low as u32 + 256 * *high as u32 + 64,
    }
}
