ghost use Rattle.std.specs.Prelude.{◌≡◌, ◌<◌, ◌≤◌, ◌^◌, length, OnOk};
ghost use Rattle.amf_io.specs.Cursor.{place};
ghost use Rattle.amf_io.specs.ReadEnds.{IsPlaced, Goes};
ghost use Rattle.amf_io.specs.CursorReads.{Answers};
ghost use Rattle.amf_sol.specs.FileLayout.{file, no_pairs};
ghost use Rattle.amf_sol.specs.FileReading.{exact_layout, length_layout, name_layout, version_layout, rest_layout, end_layout};

use crate::SolVersion;
use crate::fixed::{PADDING, SECOND_SIGNATURE, SIGNATURE};
use amf_io::{Cursor, ReadEnd, Reason, Source, refused};
use amf_wire::Name;
use amf_wire_fields::{Contents, FieldSize, read_contents, read_field};
use std::alloc::Global;

/// What stands in a shared object file behind its length and before its pairs.
#[derive(Drop)]
pub(crate) struct Head {
    pub(crate) name: Name,
    pub(crate) version: SolVersion,
}

/// Reads the signature of a shared object file, and the number of bytes that it says are behind its length.
pub(crate) fn read_signature_and_length<S: Source>(
    alloc: Global,
    cursor: &mut Cursor<'_, S>,
) -> Result<u32, ReadEnd>
    ensures goes { Goes S.Source cursor.old cursor.new result }
    ensures answers { Answers S.tells S.left (λ size. size) length_layout cursor.old cursor.new result }
{
    read_exactly(alloc, cursor, &SIGNATURE, Reason::BadSignature)?;
    Ok(read_field(cursor, FieldSize::Four)?.four())
}

/// Reads what stands behind the length and before the pairs.
pub(crate) fn read_head<S: Source>(
    alloc: Global,
    cursor: &mut Cursor<'_, S>,
) -> Result<Head, ReadEnd>
    ensures goes { Goes S.Source cursor.old cursor.new result }
    ensures answers { Answers S.tells S.left (λ head. file head.version head.name no_pairs) rest_layout cursor.old cursor.new result }
    ensures placed { OnOk result (IsPlaced cursor.new) }
{
    read_exactly(alloc, cursor, &SECOND_SIGNATURE, Reason::BadSignature)?;
    let name = read_name(alloc, cursor)?;
    read_exactly(alloc, cursor, &PADDING, Reason::BadPadding)?;
    let version = read_version(cursor)?;
    Ok(Head { name, version })
}

/// Reads a field of fixed bytes. Others are refused for the reason.
fn read_exactly<S: Source>(
    alloc: Global,
    cursor: &mut Cursor<'_, S>,
    bytes: &[u8],
    reason: Reason,
) -> Result<(), ReadEnd>
    requires some { 0 < length bytes.now }
    requires few { length bytes.now < 2 ^ 28 }
    ensures goes { Goes S.Source cursor.old cursor.new result }
    ensures answers { Answers S.tells S.left (λ done. done) (exact_layout reason bytes.now) cursor.old cursor.new result }
    ensures placed { OnOk result (IsPlaced cursor.new) }
{
    let start = cursor.at();
    let found = read_contents(alloc, cursor, Contents::Bytes, bytes.len() as u32)?;
    if found.as_slice() == bytes {
        Ok(())
    } else {
        Err(refused(reason, start))
    }
}

/// Reads the name of a file, behind its length of 16 bits.
fn read_name<S: Source>(alloc: Global, cursor: &mut Cursor<'_, S>) -> Result<Name, ReadEnd>
    ensures goes { Goes S.Source cursor.old cursor.new result }
    ensures answers { Answers S.tells S.left (λ name. name) name_layout cursor.old cursor.new result }
{
    let size = read_field(cursor, FieldSize::Two)?.two();
    let bytes = read_contents(alloc, cursor, Contents::Text, size as u32)?;
    Ok(Name::of_bytes(alloc, &bytes)?)
}

/// Reads the version of a file.
fn read_version<S: Source>(cursor: &mut Cursor<'_, S>) -> Result<SolVersion, ReadEnd>
    ensures goes { Goes S.Source cursor.old cursor.new result }
    ensures answers { Answers S.tells S.left (λ version. version) version_layout cursor.old cursor.new result }
    ensures placed { OnOk result (IsPlaced cursor.new) }
{
    let start = cursor.at();
    match read_field(cursor, FieldSize::Byte)?.byte() {
        0 => Ok(SolVersion::Amf0),
        3 => Ok(SolVersion::Amf3),
        _ => Err(refused(Reason::BadVersion, start)),
    }
}

/// Reads the 0 behind a pair.
pub(crate) fn read_pair_end<S: Source>(cursor: &mut Cursor<'_, S>) -> Result<(), ReadEnd>
    ensures goes { Goes S.Source cursor.old cursor.new result }
    ensures answers { Answers S.tells S.left (λ done. done) end_layout cursor.old cursor.new result }
    ensures placed { OnOk result (IsPlaced cursor.new) }
    ensures moves { OnOk result (place cursor.old < place cursor.new) }
{
    let start = cursor.at();
    if read_field(cursor, FieldSize::Byte)?.byte() == 0 {
        Ok(())
    } else {
        Err(refused(Reason::BadPadding, start))
    }
}
