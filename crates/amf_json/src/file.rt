ghost use Rattle.std.specs.Prelude.{IfOk};
ghost use Rattle.amf_sol.specs.StoredFile.{shared};
ghost use Rattle.amf_json.specs.JsonTexts.{IsFileJson};

use amf_sol::{SharedObject, SolVersion};
use amf_text_write::{FileVersion, Layout, file_text};
use amf_wire::Memory;
use amf0_write::lower;
use std::alloc::Global;

/// The canonical text of a shared object, JSON (RFC 8259). Where its version is that of AMF 0 it tells the lowered graph.
///
/// It gives up where there is no memory.
pub fn file_json(alloc: Global, layout: Layout, file: &SharedObject) -> Result<Vec<u8>, Memory>
    ensures { IfOk result (λ bytes. IsFileJson layout (shared file.now) bytes.items) }
{
    file.is_stored();
    let name = file.name().as_bytes();
    match file.version() {
        SolVersion::Amf3 => file_text(alloc, layout, name, FileVersion::Amf3, file.holder()),
        SolVersion::Amf0 => {
            let low = lower(alloc, file.holder())?;
            file_text(alloc, layout, name, FileVersion::Amf0, &low)
        }
    }
}
