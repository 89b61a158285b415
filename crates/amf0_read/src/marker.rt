ghost use Rattle.std.specs.Prelude.{◌≡◌, ◌<◌, true, false, length, None, Some, IfOk, IfErr, OnOk};
ghost use Rattle.amf_io.specs.Cursor.{place};
ghost use Rattle.amf_io.specs.ReadEnds.{IsPlaced, Goes};
ghost use Rattle.amf_io.specs.CursorReads.{Answers};
ghost use Rattle.amf0_spelling.specs.Markers0.{marker0_at};
ghost use Rattle.amf0_spelling.specs.Refusals0.{marker0_refusal};
ghost use Rattle.amf0_spelling.specs.TableParts0.{shown_tables};
ghost use Rattle.amf0_read.specs.Markers0.{marker_layout};

use amf_io::{Cursor, ReadEnd, Reason, Source, refused};
use amf_wire_fields::{FieldSize, read_field};
use amf0_spelling::{Marker0, Tables0};

/// The marker that ends the pairs of a node, behind an empty name.
const END: u8 = 0x09;

/// The marker of a value that a byte is, or why it is refused.
fn judged(byte: u8, tables: &Tables0) -> Result<Marker0, Reason>
    ensures ok { IfOk result (λ marker. (Some marker ≡ marker0_at byte) × (marker0_refusal false (length (shown_tables tables.now).nodes) byte ≡ None)) }
    ensures err { IfErr result (λ reason. marker0_refusal false (length (shown_tables tables.now).nodes) byte ≡ Some reason) }
{
    match Marker0::from_byte(byte) {
        None => Err(Reason::BadMarker),
        Some(Marker0::Reference) if tables.node_at(0).is_none() => Err(Reason::BadReference),
        Some(marker) => Ok(marker),
    }
}

/// Reads the marker of a value.
#[inline(always)]
pub fn read_marker<S: Source>(
    cursor: &mut Cursor<'_, S>,
    tables: &Tables0,
) -> Result<Marker0, ReadEnd>
    ensures goes { Goes S.Source cursor.old cursor.new result }
    ensures answers { Answers S.tells S.left (λ m. Some m) (marker_layout false (length (shown_tables tables.now).nodes)) cursor.old cursor.new result }
    ensures moves { OnOk result (place cursor.old < place cursor.new) }
    ensures placed { OnOk result (IsPlaced cursor.new) }
{
    let start = cursor.at();
    let byte = read_field(cursor, FieldSize::Byte)?.byte();
    match judged(byte, tables) {
        Ok(marker) => Ok(marker),
        Err(reason) => Err(refused(reason, start)),
    }
}

/// Reads the marker of a value behind an empty name, or the end of pairs.
pub fn read_marker_or_end<S: Source>(
    cursor: &mut Cursor<'_, S>,
    tables: &Tables0,
) -> Result<Option<Marker0>, ReadEnd>
    ensures goes { Goes S.Source cursor.old cursor.new result }
    ensures answers { Answers S.tells S.left (λ m. m) (marker_layout true (length (shown_tables tables.now).nodes)) cursor.old cursor.new result }
    ensures moves { OnOk result (place cursor.old < place cursor.new) }
    ensures placed { OnOk result (IsPlaced cursor.new) }
{
    let start = cursor.at();
    let byte = read_field(cursor, FieldSize::Byte)?.byte();
    if byte == END {
        return Ok(None);
    }
    match judged(byte, tables) {
        Ok(marker) => Ok(Some(marker)),
        Err(reason) => Err(refused(reason, start)),
    }
}
