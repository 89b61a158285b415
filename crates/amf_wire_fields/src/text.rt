ghost use Rattle.std.specs.Prelude.{◌+◌, ◌<◌, OnOk, IfOk, length};
ghost use Rattle.std.specs.Bool.{OnTrue};
ghost use Rattle.amf_io.specs.Field.{text_kind};
ghost use Rattle.amf_io.specs.Layout.{give};
ghost use Rattle.amf_io.specs.ReadEnds.{IsPlaced, Goes};
ghost use Rattle.amf_io.specs.CursorReads.{Answers};
ghost use Rattle.amf_graph.specs.Arena.{text_at};
ghost use Rattle.amf3_layout_laws.specs.Layout3Words.{chunk};
ghost use Rattle.amf_wire_fields.specs.FieldSize.{BeginsWithText};
ghost use Rattle.amf_wire_fields.specs.KeptText.{KeptText};
ghost use Rattle.amf_wire_fields.specs.Room.{room_end, left_of};

use crate::contents::{Contents, read_contents};
use crate::kept_parts::kept;
use amf_graph::{Builder, TextId};
use amf_io::{Cursor, ReadEnd, Source};
use amf_wire::is_amf_text;
use std::alloc::Global;

/// Reads so many bytes of a text that enters no table. Its ends are those of [`read_contents`].
#[inline(always)]
pub fn read_loose_text<S: Source>(
    alloc: Global,
    cursor: &mut Cursor<'_, S>,
    builder: &mut Builder,
    size: u32,
) -> Result<TextId, ReadEnd>
    requires { length builder.old.texts + left_of cursor.old < room_end }
    ensures goes { Goes S.Source cursor.old cursor.new result }
    ensures answers { Answers S.tells S.left (λ x. text_at builder.new x.0) (chunk text_kind size (λ x. give x)) cursor.old cursor.new result }
    ensures kept { IfOk result (λ x. KeptText builder.old builder.new x.0) }
    ensures placed { OnOk result (IsPlaced cursor.new) }
{
    // What is true of every cursor.
    let _start = cursor.at();
    let ahead = cursor.ahead();
    if begins_with_text(ahead, size) {
        let text = builder.text(&ahead[..size as usize]);
        cursor.pass(size);
        return kept(text);
    }
    let bytes = read_contents(alloc, cursor, Contents::Text, size)?;
    kept(builder.text(&bytes))
}

/// Whether these bytes begin with a text of so many.
fn begins_with_text(bytes: &[u8], size: u32) -> bool
    ensures { OnTrue result (BeginsWithText bytes.now size) }
{
    let size = size as usize;
    if size > bytes.len() {
        return false;
    }
    is_amf_text(&bytes[..size])
}
