ghost use Rattle.std.specs.Prelude.{◌≡◌, ◌≤◌, List, ℕ, length, IfOk};
ghost use Rattle.amf_wire.specs.Text.{IsText};
ghost use Rattle.amf_graph.specs.Rooted.{content};
ghost use Rattle.amf_sol.specs.SharedObject.{HasHolder};
ghost use Rattle.amf_sol.specs.StoredFile.{shared};
ghost use Rattle.amf_text.specs.Scalars.{read_number};
ghost use Rattle.amf_text.specs.Accepted.{Means};
ghost use Rattle.amf_text.specs.Documents.{file};
ghost use Rattle.amf_text_pages.specs.Written.{document_written, version_named};
ghost use Rattle.amf_json.specs.JsonTexts.{file_document, version_told};
ghost use Rattle.amf_bytes.specs.TextSteps.{IsMeaning};

use crate::packets::packet_of;
use amf_commands::{Content, Format};
use amf_graph::Rooted;
use amf_sol::{SharedObject, SolEnd, SolVersion};
use amf_text::whole_laws;
use amf_text_draft::{FileVersion, Written};
use amf_wire::{Memory, Name};
use std::alloc::Global;

/// What a text means: a content, and the format that the text names.
#[derive(Drop)]
pub struct Meaning {
    pub format: Format,
    pub content: Content,
}

/// What a text means that was read.
pub fn meaning_of(alloc: Global, written: Written) -> Result<Meaning, Memory>
    requires { (text : List ℕ) × Means read_number text (document_written written) }
    ensures { IfOk result (IsMeaning written) }
{
    whole_laws();
    match written {
        Written::Value3(graph) => Ok(Meaning {
            format: Format::Amf3,
            content: Content::Value(graph),
        }),
        Written::Value0(graph) => Ok(Meaning {
            format: Format::Amf0,
            content: Content::Value(graph),
        }),
        Written::Packet {
            version,
            headers,
            messages,
        } => {
            let packet = packet_of(alloc, version, headers, messages)?;
            Ok(Meaning {
                format: Format::Packet,
                content: Content::Packet(packet),
            })
        }
        Written::SharedObject {
            name,
            version,
            graph,
        } => {
            let file = file_of(alloc, &name, version, graph)?;
            Ok(Meaning {
                format: Format::Sol,
                content: Content::File(file),
            })
        }
    }
}

/// The version of a file.
fn version_of(version: FileVersion) -> SolVersion
    ensures { version_told result ≡ version_named version }
{
    match version {
        FileVersion::Amf0 => SolVersion::Amf0,
        FileVersion::Amf3 => SolVersion::Amf3,
    }
}

/// The shared object of these parts.
fn file_of(
    alloc: Global,
    name: &[u8],
    version: FileVersion,
    graph: Rooted,
) -> Result<SharedObject, Memory>
    requires text { IsText name.now }
    requires short { length name.now ≤ 65535 }
    requires holder { HasHolder (content graph) }
    ensures { IfOk result (λ o. file_document (shared o) ≡ file name.now (version_named version) (content graph)) }
{
    let name = Name::of_bytes(alloc, name)?;
    match SharedObject::new(alloc, name, version_of(version), graph) {
        Ok(file) => Ok(file),
        Err(SolEnd::Memory) => Err(Memory),
        // What a text means is so.
        Err(SolEnd::LongName) => unreachable!(),
        Err(SolEnd::NotAHolder) => unreachable!(),
    }
}
