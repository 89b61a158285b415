ghost use Rattle.std.specs.Prelude.{◌^◌, ◌<◌, IfOk, OnOk};
ghost use Rattle.amf_io.specs.ReadEnds.{IsPlaced, Goes};
ghost use Rattle.amf_io.specs.CursorReads.{Answers};
ghost use Rattle.amf3_layout_laws.specs.Layout3.{flag_layout, eight_layout};

use crate::field::{FieldSize, read_field};
use amf_io::{Cursor, ReadEnd, Source};
use amf_wire::Pattern;

/// Reads a byte that counts as true unless it is 0. Its ends are those of [`read_field`].
pub fn read_flag<S: Source>(cursor: &mut Cursor<'_, S>) -> Result<bool, ReadEnd>
    ensures goes { Goes S.Source cursor.old cursor.new result }
    ensures answers { Answers S.tells S.left (λ flag. flag) flag_layout cursor.old cursor.new result }
    ensures placed { OnOk result (IsPlaced cursor.new) }
{
    Ok(read_field(cursor, FieldSize::Byte)?.byte() != 0)
}

/// Reads a double, by its bits. Its ends are those of [`read_field`].
pub fn read_double<S: Source>(cursor: &mut Cursor<'_, S>) -> Result<Pattern, ReadEnd>
    ensures goes { Goes S.Source cursor.old cursor.new result }
    ensures answers { Answers S.tells S.left (λ p. p.0) eight_layout cursor.old cursor.new result }
    ensures own { IfOk result (λ p. p.0 < 2 ^ 64) }
    ensures placed { OnOk result (IsPlaced cursor.new) }
{
    let field = read_field(cursor, FieldSize::Eight)?;
    Ok(Pattern(field.eight()))
}
