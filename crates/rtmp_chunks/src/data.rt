ghost use Rattle.std.specs.Prelude.{◌≡◌, ◌<◌, ◌≤◌, ◌-◌, [], nat_le, ◌==◌, ◌&&◌, ◌||◌, slice_index, length, OnOk};
ghost use Rattle.amf_io.specs.Layout.{bind};
ghost use Rattle.amf_io.specs.ReadEnds.{IsPlaced, Goes};
ghost use Rattle.amf_io.specs.CursorReads.{Answers};
ghost use Rattle.rtmp_chunks.specs.Chunk.{lesser, number_of};
ghost use Rattle.rtmp_chunks.specs.Table.{head_seen, slot_seen, part_seen, begun, taken_by, part_layout};

use crate::headers::{number_in, pass_extended, read_head};
use crate::parts::{Head, PartialMessage, Slot};
use amf_io::{Cursor, ReadEnd, Reason, Source, append_field, refused};
use std::alloc::Global;

/// Whether data are refused behind which these bytes of a message came: in a message of type 1 the first byte is below 80, and
/// the whole number is not 0.
fn is_bad_data(head: Head, first: bool, bytes: &[u8]) -> bool
    requires { 0 < length bytes.now }
    ensures { result ≡ ((head.kind == 1) && ((first && nat_le 0x80 (slice_index bytes.now 0)) || ((length bytes.now == 4) && (number_of bytes.now == 0)))) }
{
    head.kind == 1 && ((first && 0x80 <= bytes[0]) || (bytes.len() == 4 && number_in(bytes) == 0))
}

/// How many bytes a chunk has of those that are left.
fn share(size: u32, left: u32) -> u32
    ensures { result ≡ lesser size left }
{
    if size <= left { size } else { left }
}

/// Reads the data of a chunk behind those of its message that came.
fn read_data<S: Source>(
    cursor: &mut Cursor<'_, S>,
    size: u32,
    part: PartialMessage,
) -> Result<PartialMessage, ReadEnd>
    ensures goes { Goes S.Source cursor.old cursor.new result }
    ensures answers { Answers S.tells S.left part_seen (taken_by size (head_seen part.head) part.bytes.items) cursor.old cursor.new result }
    ensures placed { OnOk result (IsPlaced cursor.new) }
{
    let start = cursor.at();
    let count = share(size, part.head.size - part.bytes.len() as u32);
    if count == 0 {
        return Ok(part);
    }
    let head = part.head;
    let first = part.bytes.is_empty();
    let mut bytes = part.bytes;
    append_field(cursor, count, &mut bytes)?;
    if is_bad_data(head, first, &bytes) {
        return Err(refused(Reason::BadChunkSize, start));
    }
    Ok(PartialMessage { head, bytes })
}

/// A message begins.
fn begin<S: Source>(
    alloc: Global,
    cursor: &mut Cursor<'_, S>,
    size: u32,
    format: u8,
    before: Head,
) -> Result<PartialMessage, ReadEnd>
    requires { format < 4 }
    ensures goes { Goes S.Source cursor.old cursor.new result }
    ensures answers { Answers S.tells S.left part_seen (bind (begun format (head_seen before)) (λ h. taken_by size h [])) cursor.old cursor.new result }
    ensures placed { OnOk result (IsPlaced cursor.new) }
{
    let head = read_head(alloc, cursor, format, before)?;
    let bytes = Vec::new(alloc);
    read_data(cursor, size, PartialMessage { head, bytes })
}

/// Reads a chunk behind its basic header: its message as far as it came.
pub(crate) fn read_part<S: Source>(
    alloc: Global,
    cursor: &mut Cursor<'_, S>,
    size: u32,
    format: u8,
    slot: Slot,
) -> Result<PartialMessage, ReadEnd>
    requires { format < 4 }
    ensures goes { Goes S.Source cursor.old cursor.new result }
    ensures answers { Answers S.tells S.left part_seen (part_layout size format (slot_seen slot)) cursor.old cursor.new result }
    ensures placed { OnOk result (IsPlaced cursor.new) }
{
    match slot {
        Slot::Fresh => begin(alloc, cursor, size, format, Head::NONE),
        Slot::Idle(before) => begin(alloc, cursor, size, format, before),
        Slot::Busy(part) => {
            pass_extended(alloc, cursor, part.head.extended)?;
            read_data(cursor, size, part)
        }
    }
}
