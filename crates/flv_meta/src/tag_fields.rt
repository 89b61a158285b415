ghost use Rattle.std.specs.Prelude.{◌≡◌, ◌+◌, ◌≤◌, length, drop};
ghost use Rattle.amf_io.specs.ReadEnds.{Goes};
ghost use Rattle.amf_io.specs.CursorReads.{Answers};
ghost use Rattle.flv_meta.specs.File.{number24};
ghost use Rattle.flv_meta.specs.FileLayout.{number_layout, body_layout, stream_layout, time_layout, size_layout, tag_layout};

use amf_io::{Cursor, ReadEnd, Source, append_field, append_raw};

/// Appends the number behind the data.
pub(crate) fn append_number<S: Source>(
    cursor: &mut Cursor<'_, S>,
    out: &mut Vec<u8>,
) -> Result<(), ReadEnd>
    ensures goes { Goes S.Source cursor.old cursor.new result }
    ensures answers { Answers S.tells S.left (λ done. out.new.items) (number_layout out.old.items) cursor.old cursor.new result }
{
    append_raw(cursor, 4, out)
}

/// Appends data of this size, and the number behind them. Its memory grows as bytes come, and by no size that was read.
fn append_body<S: Source>(
    cursor: &mut Cursor<'_, S>,
    size: u32,
    out: &mut Vec<u8>,
) -> Result<(), ReadEnd>
    ensures goes { Goes S.Source cursor.old cursor.new result }
    ensures answers { Answers S.tells S.left (λ done. out.new.items) (body_layout size out.old.items) cursor.old cursor.new result }
{
    if size == 0 {
        return append_number(cursor, out);
    }
    append_raw(cursor, size, out)?;
    append_number(cursor, out)
}

/// Appends the stream, and what is behind it.
fn append_stream<S: Source>(
    cursor: &mut Cursor<'_, S>,
    size: u32,
    out: &mut Vec<u8>,
) -> Result<(), ReadEnd>
    ensures goes { Goes S.Source cursor.old cursor.new result }
    ensures answers { Answers S.tells S.left (λ done. out.new.items) (stream_layout size out.old.items) cursor.old cursor.new result }
{
    append_raw(cursor, 3, out)?;
    append_body(cursor, size, out)
}

/// Appends the time, and what is behind it.
fn append_time<S: Source>(
    cursor: &mut Cursor<'_, S>,
    size: u32,
    out: &mut Vec<u8>,
) -> Result<(), ReadEnd>
    ensures goes { Goes S.Source cursor.old cursor.new result }
    ensures answers { Answers S.tells S.left (λ done. out.new.items) (time_layout size out.old.items) cursor.old cursor.new result }
{
    append_raw(cursor, 4, out)?;
    append_stream(cursor, size, out)
}

/// The number that the last three bytes are.
fn last24(bytes: &[u8], front: usize) -> u32
    requires { length bytes.now ≡ front + 3 }
    ensures { result ≡ number24 (drop front bytes.now) }
{
    number24(&bytes[front..])
}

/// The number that three bytes are.
pub(crate) fn number24(bytes: &[u8]) -> u32
    requires { length bytes.now ≡ 3 }
    ensures { result ≡ number24 bytes.now }
{
    u32::from_be_bytes([0, bytes[0], bytes[1], bytes[2]])
}

/// Appends the size of the data, and what is behind it.
fn append_size<S: Source>(cursor: &mut Cursor<'_, S>, out: &mut Vec<u8>) -> Result<(), ReadEnd>
    ensures goes { Goes S.Source cursor.old cursor.new result }
    ensures answers { Answers S.tells S.left (λ done. out.new.items) (size_layout out.old.items) cursor.old cursor.new result }
{
    let before = out.len();
    append_field(cursor, 3, out)?;
    let size = last24(out, before);
    append_time(cursor, size, out)
}

/// Appends the bytes of one tag, from its type to the number behind its data.
pub(crate) fn append_tag<S: Source>(
    cursor: &mut Cursor<'_, S>,
    out: &mut Vec<u8>,
) -> Result<(), ReadEnd>
    ensures goes { Goes S.Source cursor.old cursor.new result }
    ensures answers { Answers S.tells S.left (λ done. out.new.items) (tag_layout out.old.items) cursor.old cursor.new result }
{
    append_raw(cursor, 1, out)?;
    append_size(cursor, out)
}
