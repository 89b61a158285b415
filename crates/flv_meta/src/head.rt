ghost use Rattle.std.specs.Prelude.{◌≡◌, OnErr};
ghost use Rattle.amf_io.specs.ReadEnds.{Goes};
ghost use Rattle.amf_io.specs.CursorReads.{Answers};
ghost use Rattle.amf_io.specs.Stretch.{between};
ghost use Rattle.flv_meta.specs.FileAnswers.{AnswersHead};
ghost use Rattle.flv_meta.specs.FileLayout.{offset_layout, flags_layout, version_layout, head_layout};

use crate::tag_fields::append_number;
use amf_io::{Cursor, ReadEnd, Reason, Source, append_exactly, append_raw};
use std::alloc::Global;

/// What a file begins with.
const SIGNATURE: [u8; 3] = [b'F', b'L', b'V'];

/// The version that is served.
const VERSION: [u8; 1] = [1];

/// Where the number before the first tag begins.
const OFFSET: [u8; 4] = [0, 0, 0, 9];

/// Reads the head of a file, and appends its 13 bytes: the signature, the version 1, the flags, the offset 9 (E.2), and the number
/// before the first tag (E.3).
///
/// Where the input is refused, the refusal is the verdict on it: the first field that no head has there, or where the input or
/// its limit ends inside the head. `Memory` comes where there is no room for the bytes. After an end `out` is as before, and the
/// cursor must not be used again.
pub fn read_head<S: Source>(
    alloc: Global,
    cursor: &mut Cursor<'_, S>,
    out: &mut Vec<u8>,
) -> Result<(), ReadEnd>
    ensures goes { Goes S.Source cursor.old cursor.new result }
    ensures answers { AnswersHead out.old.items out.new.items (between S.tells S.left cursor.old cursor.new) result }
    ensures untouched { OnErr result (out.new.items ≡ out.old.items) }
{
    // What is true of every cursor.
    let _start = cursor.at();
    let mut head = Vec::new(alloc);
    append_head(cursor, &mut head)?;
    out.extend_from_slice(head.as_slice())?;
    Ok(())
}

/// Appends the bytes of a head.
fn append_head<S: Source>(cursor: &mut Cursor<'_, S>, out: &mut Vec<u8>) -> Result<(), ReadEnd>
    ensures goes { Goes S.Source cursor.old cursor.new result }
    ensures answers { Answers S.tells S.left (λ done. out.new.items) (head_layout out.old.items) cursor.old cursor.new result }
{
    append_exactly(cursor, &SIGNATURE, Reason::BadSignature, out)?;
    append_version(cursor, out)
}

/// Appends the version, and what is behind it in a head.
fn append_version<S: Source>(cursor: &mut Cursor<'_, S>, out: &mut Vec<u8>) -> Result<(), ReadEnd>
    ensures goes { Goes S.Source cursor.old cursor.new result }
    ensures answers { Answers S.tells S.left (λ done. out.new.items) (version_layout out.old.items) cursor.old cursor.new result }
{
    append_exactly(cursor, &VERSION, Reason::BadVersion, out)?;
    append_flags(cursor, out)
}

/// Appends the flags, and what is behind them.
fn append_flags<S: Source>(cursor: &mut Cursor<'_, S>, out: &mut Vec<u8>) -> Result<(), ReadEnd>
    ensures goes { Goes S.Source cursor.old cursor.new result }
    ensures answers { Answers S.tells S.left (λ done. out.new.items) (flags_layout out.old.items) cursor.old cursor.new result }
{
    append_raw(cursor, 1, out)?;
    append_offset(cursor, out)
}

/// Appends the offset, and the number before the first tag.
fn append_offset<S: Source>(cursor: &mut Cursor<'_, S>, out: &mut Vec<u8>) -> Result<(), ReadEnd>
    ensures goes { Goes S.Source cursor.old cursor.new result }
    ensures answers { Answers S.tells S.left (λ done. out.new.items) (offset_layout out.old.items) cursor.old cursor.new result }
{
    append_exactly(cursor, &OFFSET, Reason::BadLength, out)?;
    append_number(cursor, out)
}
