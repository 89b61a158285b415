ghost use Rattle.std.specs.Prelude.{◌≡◌, ◌<◌, ◌^◌, length, OnOk};
ghost use Rattle.amf_wire.specs.Text.{IsText};
ghost use Rattle.amf0_spelling.specs.Segments0.{Short};
ghost use Rattle.amf_sol.specs.FileParts.{Appends, IsHead};
ghost use Rattle.amf_sol.specs.SharedObject.{version_number};

use crate::fixed::{PADDING, SECOND_SIGNATURE};
use crate::{SharedObject, SolVersion};
use amf_wire::Memory;

/// The byte that says a version.
fn version_byte(version: SolVersion) -> u8
    ensures { result ≡ version_number version }
{
    match version {
        SolVersion::Amf0 => 0x00,
        SolVersion::Amf3 => 0x03,
    }
}

/// Appends a text behind its length of 16 bits (AMF 0, 1.3.1).
pub(crate) fn append_name(name: &[u8], out: &mut Vec<u8>) -> Result<(), Memory>
    requires text { IsText name.now }
    requires short { length name.now < 2 ^ 16 }
    ensures { OnOk result (Appends (Short name.now) out.old.items out.new.items) }
{
    out.extend_from_slice(&(name.len() as u16).to_be_bytes())?;
    out.extend_from_slice(name)?;
    Ok(())
}

/// Appends what stands behind the length of a file, up to its first pair.
pub(crate) fn append_head(object: &SharedObject, out: &mut Vec<u8>) -> Result<(), Memory>
    ensures { OnOk result (Appends (IsHead object.now.name object.now.version) out.old.items out.new.items) }
{
    object.is_stored();
    out.extend_from_slice(&SECOND_SIGNATURE)?;
    append_name(object.name().as_bytes(), out)?;
    out.extend_from_slice(&PADDING)?;
    out.push(version_byte(object.version()))?;
    Ok(())
}
