ghost use Rattle.std.specs.Prelude.{◌≡◌, ◌≤◌, OnOk};
ghost use Rattle.amf_io.specs.Cursor.{place};
ghost use Rattle.amf_io.specs.ReadEnds.{IsPlaced, Goes};
ghost use Rattle.amf_wire.specs.Style.{free};
ghost use Rattle.amf0_spelling.specs.Segments0.{Short};
ghost use Rattle.amf_packet.specs.LayoutPacket.{name_layout, must_layout, length_layout, version_layout};
ghost use Rattle.amf_packet.specs.Packet.{LengthBy, MustBy, is_version, VersionBy, CountBy};
ghost use Rattle.amf_packet.specs.ReadParts.{Reads, ReadsBare, count_layout};

use amf_io::{Cursor, ReadEnd, Reason, Source, refused};
use amf_wire::Name;
use amf_wire_fields::{Contents, FieldSize, read_contents, read_field, read_flag};
use std::alloc::Global;

/// Reads the version of a packet: `BadVersion` where it is not 0, 1 or 3.
pub fn read_version<S: Source>(cursor: &mut Cursor<'_, S>) -> Result<u16, ReadEnd>
    ensures goes { Goes S.Source cursor.old cursor.new result }
    ensures reads { ReadsBare S.tells S.left VersionBy version_layout cursor.old cursor.new result }
    ensures stays { OnOk result (place cursor.old ≤ place cursor.new) }
{
    let start = cursor.at();
    let version = read_field(cursor, FieldSize::Two)?.two();
    if is_served(version) {
        Ok(version)
    } else {
        Err(refused(Reason::BadVersion, start))
    }
}

/// Whether packets of the version are read.
fn is_served(version: u16) -> bool
    ensures { result ≡ is_version version }
{
    version == 0 || version == 1 || version == 3
}

/// Reads how many headers or messages follow.
pub fn read_count<S: Source>(cursor: &mut Cursor<'_, S>) -> Result<u16, ReadEnd>
    ensures goes { Goes S.Source cursor.old cursor.new result }
    ensures reads { Reads S.tells S.left CountBy (λ count. count) count_layout cursor.old cursor.new result }
    ensures stays { OnOk result (place cursor.old ≤ place cursor.new) }
    ensures placed { OnOk result (IsPlaced cursor.new) }
{
    Ok(read_field(cursor, FieldSize::Two)?.two())
}

/// Reads whether a header must be understood: any byte but 0 says that it must.
pub fn read_must<S: Source>(cursor: &mut Cursor<'_, S>) -> Result<bool, ReadEnd>
    ensures goes { Goes S.Source cursor.old cursor.new result }
    ensures reads { ReadsBare S.tells S.left (MustBy free) must_layout cursor.old cursor.new result }
    ensures stays { OnOk result (place cursor.old ≤ place cursor.new) }
{
    read_flag(cursor)
}

/// Reads the length of a value, which is not checked.
pub fn read_length<S: Source>(cursor: &mut Cursor<'_, S>) -> Result<(), ReadEnd>
    ensures goes { Goes S.Source cursor.old cursor.new result }
    ensures reads { ReadsBare S.tells S.left (λ _. LengthBy free) length_layout cursor.old cursor.new result }
    ensures stays { OnOk result (place cursor.old ≤ place cursor.new) }
{
    read_field(cursor, FieldSize::Four)?;
    Ok(())
}

/// Reads a name behind its length of 16 bits (AMF 0, 1.3.1).
pub fn read_name<S: Source>(alloc: Global, cursor: &mut Cursor<'_, S>) -> Result<Name, ReadEnd>
    ensures goes { Goes S.Source cursor.old cursor.new result }
    ensures reads { ReadsBare S.tells S.left Short name_layout cursor.old cursor.new result }
    ensures stays { OnOk result (place cursor.old ≤ place cursor.new) }
{
    let size = read_field(cursor, FieldSize::Two)?.two();
    let bytes = read_contents(alloc, cursor, Contents::Text, size as u32)?;
    Ok(Name::of_bytes(alloc, &bytes)?)
}
