ghost use Rattle.std.specs.Prelude.{◌≡◌, ℕ, Some, slice_get, IfOk, OnOk};
ghost use Rattle.amf_io.specs.ReadEnds.{IsPlaced, Goes};
ghost use Rattle.amf_io.specs.CursorReads.{Answers};
ghost use Rattle.amf0_spelling.specs.TableParts0.{shown_tables};
ghost use Rattle.amf0_read.specs.Leaves0.{place_layout, time_layout, count_layout};

use amf_graph::NodeId;
use amf_io::{Cursor, ReadEnd, Reason, Source, refused};
use amf_wire::Pattern;
use amf_wire_fields::{FieldSize, read_field};
use amf0_spelling::Tables0;

/// Reads the index of a node of the table (AMF 0, 2.9).
pub fn read_reference<S: Source>(
    cursor: &mut Cursor<'_, S>,
    tables: &Tables0,
) -> Result<NodeId, ReadEnd>
    ensures goes { Goes S.Source cursor.old cursor.new result }
    ensures answers { Answers S.tells S.left (λ node. node.0) (place_layout (shown_tables tables.now).nodes) cursor.old cursor.new result }
    ensures there { IfOk result (λ node. (i : ℕ) × (slice_get (shown_tables tables.now).nodes i ≡ Some node.0)) }
    ensures placed { OnOk result (IsPlaced cursor.new) }
{
    let start = cursor.at();
    let index = read_field(cursor, FieldSize::Two)?.two();
    match tables.node_at(index as u32) {
        Some(node) => Ok(node),
        None => Err(refused(Reason::BadReference, start)),
    }
}

/// Reads the time of a date, behind which stands a zone that counts for nothing (AMF 0, 2.13).
pub fn read_time<S: Source>(cursor: &mut Cursor<'_, S>) -> Result<Pattern, ReadEnd>
    ensures goes { Goes S.Source cursor.old cursor.new result }
    ensures answers { Answers S.tells S.left (λ p. p.0) time_layout cursor.old cursor.new result }
    ensures placed { OnOk result (IsPlaced cursor.new) }
{
    let time = read_field(cursor, FieldSize::Eight)?.eight();
    read_field(cursor, FieldSize::Two)?;
    Ok(Pattern(time))
}

/// Reads a count (AMF 0, 2.10 and 2.12).
pub fn read_count<S: Source>(cursor: &mut Cursor<'_, S>) -> Result<u32, ReadEnd>
    ensures goes { Goes S.Source cursor.old cursor.new result }
    ensures answers { Answers S.tells S.left (λ n. n) count_layout cursor.old cursor.new result }
    ensures placed { OnOk result (IsPlaced cursor.new) }
{
    Ok(read_field(cursor, FieldSize::Four)?.four())
}
