ghost use Rattle.std.specs.Prelude.{◌≡◌, ◌+◌, ◌<◌, ◌≤◌, Bool, true, false, ◌==◌, ◌&&◌, not, nat_lt, length, OnOk, IfOk};
ghost use Rattle.amf_io.specs.ReadEnds.{IsPlaced, Goes};
ghost use Rattle.amf_io.specs.CursorReads.{Answers};
ghost use Rattle.rtmp_chunks.specs.Chunk.{three, header_size, type_in, length_in, number_of, filled};
ghost use Rattle.rtmp_chunks.specs.Machine.{stamp_layout, passed};
ghost use Rattle.rtmp_chunks.specs.Table.{head_seen, begun};

use crate::fields::read_field;
use crate::parts::Head;
use amf_io::{Cursor, ReadEnd, Reason, Source, refused};
use amf_wire::be32_at;
use std::alloc::Global;

/// Where a timestamp is in the extended field.
const EXTENDED: u32 = 0xFF_FFFF;

/// The number of four bytes, the highest first.
pub(crate) fn number_in(bytes: &[u8]) -> u32
    requires { length bytes.now ≡ 4 }
    ensures { result ≡ number_of bytes.now }
{
    be32_at(bytes, 0)
}

/// The number of the three bytes at `at`, the highest first.
fn three_at(bytes: &[u8], at: usize) -> u32
    requires { at + 3 ≤ length bytes.now }
    ensures number { result ≡ three bytes.now at }
    ensures below { result < 16777216 }
{
    65536 * bytes[at] as u32 + 256 * bytes[at + 1] as u32 + bytes[at + 2] as u32
}

/// Reads the extended field where it stands, and passes it.
pub(crate) fn pass_extended<S: Source>(
    alloc: Global,
    cursor: &mut Cursor<'_, S>,
    there: bool,
) -> Result<(), ReadEnd>
    ensures goes { Goes S.Source cursor.old cursor.new result }
    ensures answers { Answers S.tells S.left (λ done. 0) (passed there) cursor.old cursor.new result }
    ensures placed { OnOk result (IsPlaced cursor.new) }
{
    // What is true of every cursor.
    let _start = cursor.at();
    if there {
        let _passed = read_field(alloc, cursor, 4)?;
    }
    Ok(())
}

/// Reads the extended field where it stands: it has the stamp.
fn read_stamp<S: Source>(
    alloc: Global,
    cursor: &mut Cursor<'_, S>,
    short: u32,
) -> Result<u32, ReadEnd>
    ensures goes { Goes S.Source cursor.old cursor.new result }
    ensures answers { Answers S.tells S.left (λ stamp. stamp) (stamp_layout short) cursor.old cursor.new result }
    ensures placed { OnOk result (IsPlaced cursor.new) }
{
    // What is true of every cursor.
    let _start = cursor.at();
    if short != EXTENDED {
        return Ok(short);
    }
    let bytes = read_field(alloc, cursor, 4)?;
    Ok(number_in(&bytes))
}

/// How many bytes a message header has in this format.
fn size_in(format: u8) -> u32
    requires { format < 3 }
    ensures size { result ≡ header_size format }
    ensures some { 0 < result }
{
    match format {
        0 => 11,
        1 => 7,
        _ => 3,
    }
}

/// Whether a message begins with this header whose length is not that of its type.
fn is_bad(format: u8, header: &[u8]) -> bool
    requires { length header.now ≡ header_size format }
    ensures { result ≡ (nat_lt format 2 && (type_in header.now == 1) && not (length_in header.now == 4)) }
{
    format < 2 && header[6] == 1 && three_at(header, 3) != 4
}

/// The header, filled in from the one before.
fn fill(format: u8, header: &[u8], stamp: u32, before: Head) -> Head
    requires size { length header.now ≡ header_size format }
    requires format { format < 3 }
    requires clean { (nat_lt format 2 && (type_in header.now == 1) && not (length_in header.now == 4)) ≡ false }
    ensures { head_seen result ≡ filled format header.now stamp (head_seen before) }
{
    let extended = three_at(header, 0) == EXTENDED;
    match format {
        0 => Head {
            kind: header[6],
            size: three_at(header, 3),
            stream: u32::from_le_bytes([header[7], header[8], header[9], header[10]]),
            time: stamp,
            delta: stamp,
            extended,
        },
        1 => Head {
            kind: header[6],
            size: three_at(header, 3),
            stream: before.stream,
            time: before.time.wrapping_add(stamp),
            delta: stamp,
            extended,
        },
        _ => Head {
            kind: before.kind,
            size: before.size,
            stream: before.stream,
            time: before.time.wrapping_add(stamp),
            delta: stamp,
            extended,
        },
    }
}

/// Reads a message header and the extended field behind it.
fn read_header<S: Source>(
    alloc: Global,
    cursor: &mut Cursor<'_, S>,
    format: u8,
    before: Head,
) -> Result<Head, ReadEnd>
    requires { format < 3 }
    ensures goes { Goes S.Source cursor.old cursor.new result }
    ensures answers { Answers S.tells S.left head_seen (begun format (head_seen before)) cursor.old cursor.new result }
    ensures placed { OnOk result (IsPlaced cursor.new) }
{
    let start = cursor.at();
    let header = read_field(alloc, cursor, size_in(format))?;
    if is_bad(format, &header) {
        return Err(refused(Reason::BadChunk, start));
    }
    let stamp = read_stamp(alloc, cursor, three_at(&header, 0))?;
    Ok(fill(format, &header, stamp, before))
}

/// A header is used again.
fn repeat<S: Source>(
    alloc: Global,
    cursor: &mut Cursor<'_, S>,
    before: Head,
) -> Result<Head, ReadEnd>
    ensures goes { Goes S.Source cursor.old cursor.new result }
    ensures answers { Answers S.tells S.left head_seen (begun 3 (head_seen before)) cursor.old cursor.new result }
    ensures placed { OnOk result (IsPlaced cursor.new) }
{
    pass_extended(alloc, cursor, before.extended)?;
    Ok(Head {
        kind: before.kind,
        size: before.size,
        stream: before.stream,
        time: before.time.wrapping_add(before.delta),
        delta: before.delta,
        extended: before.extended,
    })
}

/// Reads the header of a message that begins with this format.
pub(crate) fn read_head<S: Source>(
    alloc: Global,
    cursor: &mut Cursor<'_, S>,
    format: u8,
    before: Head,
) -> Result<Head, ReadEnd>
    requires { format < 4 }
    ensures goes { Goes S.Source cursor.old cursor.new result }
    ensures answers { Answers S.tells S.left head_seen (begun format (head_seen before)) cursor.old cursor.new result }
    ensures placed { OnOk result (IsPlaced cursor.new) }
{
    if format == 3 {
        return repeat(alloc, cursor, before);
    }
    read_header(alloc, cursor, format, before)
}
