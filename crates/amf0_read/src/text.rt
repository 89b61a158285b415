ghost use Rattle.std.specs.Prelude.{◌≡◌, ◌+◌, ◌<◌, ◌≤◌, [], length, OnOk, IfOk, IfErr};
ghost use Rattle.amf_graph.specs.Arena.{IsBuilt, text_at};
ghost use Rattle.amf_io.specs.ReadEnds.{IsPlaced, Goes};
ghost use Rattle.amf_io.specs.Cursor.{place};
ghost use Rattle.amf_wire_fields.specs.Room.{room_end, left_of};
ghost use Rattle.amf0_layout_laws.specs.Layout0.{short_layout, long_layout};
ghost use Rattle.amf_wire_fields.specs.KeptText.{KeptText};
ghost use Rattle.amf0_read.specs.Ready0.{AnswersText0};

use amf_graph::{Builder, TextId};
use amf_io::{Cursor, ReadEnd, Source};
use amf_wire_fields::{FieldSize, kept, read_field, read_loose_text};
use std::alloc::Global;

/// Reads a text behind its length of 16 bits, as names are too (AMF 0, 1.3.1). Its ends are those of [`read0`].
#[inline(always)]
pub fn read_short_text<S: Source>(
    alloc: Global,
    cursor: &mut Cursor<'_, S>,
    builder: &mut Builder,
) -> Result<TextId, ReadEnd>
    requires { length builder.old.texts + left_of cursor.old < room_end }
    ensures goes { Goes S.Source cursor.old cursor.new result }
    ensures answers { AnswersText0 S.tells S.left short_layout builder.old builder.new cursor.old cursor.new result }
    ensures kept { IfOk result (λ x. KeptText builder.old builder.new x.0) }
    ensures moves { OnOk result (place cursor.old + 2 ≤ place cursor.new) }
    ensures placed { OnOk result (IsPlaced cursor.new) }
{
    // What is true of every builder.
    builder.is_built();
    let size = read_field(cursor, FieldSize::Two)?.two();
    read_loose_text(alloc, cursor, builder, size as u32)
}

/// Reads a text behind its length of 32 bits (AMF 0, 2.14).
pub fn read_long_text<S: Source>(
    alloc: Global,
    cursor: &mut Cursor<'_, S>,
    builder: &mut Builder,
) -> Result<TextId, ReadEnd>
    requires { length builder.old.texts + left_of cursor.old < room_end }
    ensures goes { Goes S.Source cursor.old cursor.new result }
    ensures answers { AnswersText0 S.tells S.left long_layout builder.old builder.new cursor.old cursor.new result }
    ensures kept { IfOk result (λ x. KeptText builder.old builder.new x.0) }
    ensures moves { OnOk result (place cursor.old + 4 ≤ place cursor.new) }
    ensures placed { OnOk result (IsPlaced cursor.new) }
{
    // What is true of every builder.
    builder.is_built();
    let size = read_field(cursor, FieldSize::Four)?.four();
    read_loose_text(alloc, cursor, builder, size)
}

/// Keeps the empty text, which is the class of an object without one.
pub fn keep_empty_text(builder: &mut Builder) -> Result<TextId, ReadEnd>
    requires { length builder.old.texts < room_end }
    ensures kept { IfOk result (λ x. KeptText builder.old builder.new x.0) }
    ensures empty { IfOk result (λ x. text_at builder.new x.0 ≡ []) }
    ensures built { OnOk result (IsBuilt builder.new) }
    ensures err { IfErr result (λ end. end ≡ ReadEnd.Memory) }
{
    let text = kept(builder.text(&[]))?;
    // What is true of every builder.
    builder.is_built();
    Ok(text)
}
