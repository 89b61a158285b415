ghost use Rattle.std.specs.Prelude.{ℕ, IfOk, OnOk};
ghost use Rattle.std.specs.Result.{IsErrOf};
ghost use Rattle.amf_graph.specs.declared.lack.Lack.{Lack};
ghost use Rattle.amf_graph.specs.Rooted.{content as graph_of};
ghost use Rattle.amf0_write.specs.Written0.{AppendsLowered0, IsLoweredLack0};
ghost use Rattle.amf3_spelling.specs.Lacks3.{IsLack3};
ghost use Rattle.amf3_spelling.specs.Spells3.{Spelled3};
ghost use Rattle.amf_packet.specs.Content.{packet_of};
ghost use Rattle.amf_sol.specs.StoredFile.{shared};
ghost use Rattle.amf_wire.specs.Style.{canonical};
ghost use Rattle.amf_commands.specs.declared.format.Format.TheVariants as form;
ghost use Rattle.amf_commands.specs.Content.{content_of, value as of_graph, packet as of_packet, file as of_file};
ghost use Rattle.amf_commands.specs.Formats.{IsWritten, IsUnwritten};
ghost use Rattle.amf_commands.specs.ReadContent.{IsSpellable, IsPacketReady, IsOfValues};

use crate::content::Content;
use crate::format::Format;
use amf_graph::{Lack, Rooted, WriteEnd};
use amf_listings::{file_has_lowering, packet_has_lowering};
use amf_packet::{Packet, PacketEnd, write_packet_keyed};
use amf_sol::{SharedObject, write_sol_keyed};
use amf0_kinds::has_only_kinds0;
use amf0_write::{write_lowered0, write0};
use amf3_write::write3_keyed;
use std::alloc::Global;
use std::hash::RandomState;

/// Why there is no canonical spelling.
#[derive(Clone, Copy, Debug, PartialEq, Eq)]
pub enum SpellEnd {
    /// The value of this number is the first that has none, and this is its first lack.
    NoForm { value: u32, lack: Lack },
    /// There was no memory left for it.
    Memory,
}

/// The canonical spelling of a value, a packet or a file in a format. `NoForm` comes only where there is none.
pub fn spell(
    alloc: Global,
    keys: Option<RandomState>,
    to: Format,
    content: &Content,
) -> Result<Vec<u8>, SpellEnd>
    requires { IsSpellable to (content_of content.now) }
    ensures written { IfOk result (λ bytes. IsWritten to (content_of content.now) bytes.items) }
    ensures lack { (number : ℕ) (l : Lack) → IsErrOf result (SpellEnd.NoForm number l) → IsUnwritten to (content_of content.now) number l }
{
    match content {
        Content::Value(graph) => spell_value(alloc, keys, to, graph),
        Content::Packet(packet) => spell_packet(alloc, keys, packet),
        Content::File(file) => spell_file(alloc, keys, file),
    }
}

/// The canonical spelling of a content that is let go then.
pub(crate) fn spelled(
    alloc: Global,
    keys: Option<RandomState>,
    to: Format,
    content: Content,
) -> Result<Vec<u8>, SpellEnd>
    requires { IsSpellable to (content_of content) }
    ensures written { IfOk result (λ bytes. IsWritten to (content_of content) bytes.items) }
    ensures lack { (number : ℕ) (l : Lack) → IsErrOf result (SpellEnd.NoForm number l) → IsUnwritten to (content_of content) number l }
{
    spell(alloc, keys, to, &content)
}

/// The canonical spelling of one value, which has the number 0.
fn spell_value(
    alloc: Global,
    keys: Option<RandomState>,
    to: Format,
    graph: &Rooted,
) -> Result<Vec<u8>, SpellEnd>
    requires { IsOfValues to }
    ensures written { IfOk result (λ bytes. IsWritten to (of_graph (graph_of graph.now)) bytes.items) }
    ensures lack { (number : ℕ) (l : Lack) → IsErrOf result (SpellEnd.NoForm number l) → IsUnwritten to (of_graph (graph_of graph.now)) number l }
{
    match spell_graph(alloc, keys, to, graph) {
        Ok(bytes) => Ok(bytes),
        Err(WriteEnd::NoSpelling(lack)) => Err(SpellEnd::NoForm { value: 0, lack }),
        Err(WriteEnd::Memory) => Err(SpellEnd::Memory),
    }
}

/// The canonical spelling of a graph in a format of values.
fn spell_graph(
    alloc: Global,
    keys: Option<RandomState>,
    to: Format,
    graph: &Rooted,
) -> Result<Vec<u8>, WriteEnd>
    requires { IsOfValues to }
    ensures written { IfOk result (λ bytes. IsWritten to (of_graph (graph_of graph.now)) bytes.items) }
    ensures lack { (l : Lack) → IsErrOf result (WriteEnd.NoSpelling l) → IsUnwritten to (of_graph (graph_of graph.now)) 0 l }
{
    match to {
        Format::Amf3 => spell3(alloc, keys, graph),
        Format::Amf0 => spell0(alloc, graph),
        Format::Packet | Format::Sol => unreachable!(),
    }
}

/// The canonical spelling of a packet whose names and counts fit their fields.
fn spell_packet(
    alloc: Global,
    keys: Option<RandomState>,
    packet: &Packet,
) -> Result<Vec<u8>, SpellEnd>
    requires { IsPacketReady (packet_of packet.now) }
    ensures written { IfOk result (λ bytes. IsWritten form.Packet (of_packet (packet_of packet.now)) bytes.items) }
    ensures lack { (number : ℕ) (l : Lack) → IsErrOf result (SpellEnd.NoForm number l) → IsUnwritten form.Packet (of_packet (packet_of packet.now)) number l }
{
    packet_has_lowering(packet);
    let mut bytes = Vec::new(alloc);
    match write_packet_keyed(alloc, keys, packet, &mut bytes) {
        Ok(()) => Ok(bytes),
        Err(PacketEnd::NoSpelling { value, lack }) => Err(SpellEnd::NoForm { value, lack }),
        Err(PacketEnd::Memory) => Err(SpellEnd::Memory),
        Err(PacketEnd::TooMany) => unreachable!(),
        Err(PacketEnd::LongText(_)) => unreachable!(),
    }
}

/// The canonical spelling of a shared object file, which has the number 0.
fn spell_file(
    alloc: Global,
    keys: Option<RandomState>,
    file: &SharedObject,
) -> Result<Vec<u8>, SpellEnd>
    ensures written { IfOk result (λ bytes. IsWritten form.Sol (of_file (shared file.now)) bytes.items) }
    ensures lack { (number : ℕ) (l : Lack) → IsErrOf result (SpellEnd.NoForm number l) → IsUnwritten form.Sol (of_file (shared file.now)) number l }
{
    file_has_lowering(file);
    let mut bytes = Vec::new(alloc);
    match write_sol_keyed(alloc, keys, file, &mut bytes) {
        Ok(()) => Ok(bytes),
        Err(WriteEnd::NoSpelling(lack)) => Err(SpellEnd::NoForm { value: 0, lack }),
        Err(WriteEnd::Memory) => Err(SpellEnd::Memory),
    }
}

/// Appends the canonical spelling in AMF 0 of what a graph is when it is lowered. A graph that has the kinds of nodes and
/// values of AMF 0 alone is written as it stands.
fn append0(alloc: Global, graph: &Rooted, out: &mut Vec<u8>) -> Result<(), WriteEnd>
    ensures written { OnOk result (AppendsLowered0 (graph_of graph.now) out.old.items out.new.items) }
    ensures lack { (l : Lack) → IsErrOf result (WriteEnd.NoSpelling l) → IsLoweredLack0 (graph_of graph.now) l.node l.kind }
{
    if has_only_kinds0(graph) {
        return write0(alloc, graph, out);
    }
    write_lowered0(alloc, graph, out)
}

/// The canonical spelling of a graph in AMF 0, in the kinds of nodes and values that it has.
fn spell0(alloc: Global, graph: &Rooted) -> Result<Vec<u8>, WriteEnd>
    ensures written { IfOk result (λ bytes. IsWritten form.Amf0 (of_graph (graph_of graph.now)) bytes.items) }
    ensures lack { (l : Lack) → IsErrOf result (WriteEnd.NoSpelling l) → IsUnwritten form.Amf0 (of_graph (graph_of graph.now)) 0 l }
{
    let mut bytes = Vec::new(alloc);
    match append0(alloc, graph, &mut bytes) {
        Ok(()) => Ok(bytes),
        Err(end) => Err(end),
    }
}

/// The canonical spelling of a graph in AMF 3.
pub fn spell3(alloc: Global, keys: Option<RandomState>, graph: &Rooted) -> Result<Vec<u8>, WriteEnd>
    ensures written { IfOk result (λ bytes. Spelled3 canonical (graph_of graph.now) bytes.items) }
    ensures lack { (l : Lack) → IsErrOf result (WriteEnd.NoSpelling l) → IsLack3 (graph_of graph.now) l.node l.kind }
{
    let mut bytes = Vec::new(alloc);
    match write3_keyed(alloc, keys, graph, &mut bytes) {
        Ok(()) => Ok(bytes),
        Err(end) => Err(end),
    }
}
