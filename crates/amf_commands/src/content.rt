ghost use Rattle.std.specs.Prelude.{◌≡◌, List, IfOk};
ghost use Rattle.amf_packet.specs.Content.{packet_of};
ghost use Rattle.amf_sol.specs.StoredFile.{shared};
ghost use Rattle.amf_listings.specs.PacketListing.{IsPacketListing};
ghost use Rattle.amf_listings.specs.FileListing.{IsFileListing};
ghost use Rattle.amf_wire.specs.Style.{free};
ghost use Rattle.amf_io.specs.Field.{Field};
ghost use Rattle.amf_graph.specs.Rooted.{content as graph_of};
ghost use Rattle.amf_commands.specs.declared.format.Format.TheVariants as form;
ghost use Rattle.amf_commands.specs.Content.{content_of, HasNodes, IsListed, value as of_graph, packet as of_packet, file as of_file};
ghost use Rattle.amf_commands.specs.Formats.{IsSpelling};
ghost use Rattle.amf_commands.specs.ReadContent.{IsOfValues, IsPacketRead};
ghost use Rattle.amf_commands.specs.Told.{form_in, IsTold};

use crate::format::Format;
use amf_graph::Rooted;
use amf_json::{
    Layout, ValueForm, file_is_ready, file_json, packet_is_ready, packet_json, value_is_ready,
    value_json,
};
use amf_listings::{count_packet_nodes, show_file, show_packet};
use amf_packet::Packet;
use amf_show::{count_nodes, graph_listing};
use amf_sol::SharedObject;
use amf_wire::Memory;
use std::alloc::Global;

/// What an input is.
#[derive(Drop)]
pub enum Content {
    /// One value, in AMF 3 or AMF 0.
    Value(Rooted),
    /// One packet.
    Packet(Packet),
    /// One shared object file.
    File(SharedObject),
}

/// How many nodes the root of a value leads to, added over the values of a packet; of a file those of the graph whose root
/// holds the pairs.
pub fn node_count(alloc: Global, content: &Content) -> Result<u128, Memory>
    ensures { IfOk result (λ nodes. HasNodes (content_of content.now) nodes) }
{
    match content {
        Content::Value(graph) => Ok(u128::from(count_nodes(alloc, graph)?)),
        Content::Packet(packet) => count_packet_nodes(alloc, packet),
        Content::File(file) => Ok(u128::from(count_nodes(alloc, file.holder())?)),
    }
}

/// How many nodes a content has that is let go then.
pub(crate) fn counted(alloc: Global, content: Content) -> Result<u128, Memory>
    ensures { IfOk result (λ nodes. HasNodes (content_of content) nodes) }
{
    node_count(alloc, &content)
}

/// The listing of a packet.
fn packet_listing(alloc: Global, packet: &Packet) -> Result<Vec<u8>, Memory>
    ensures { IfOk result (λ bytes. IsPacketListing (packet_of packet.now) bytes.items) }
{
    let mut bytes = Vec::new(alloc);
    show_packet(alloc, packet, &mut bytes)?;
    Ok(bytes)
}

/// The listing of a shared object file.
fn file_listing(alloc: Global, file: &SharedObject) -> Result<Vec<u8>, Memory>
    ensures { IfOk result (λ bytes. IsFileListing (shared file.now) bytes.items) }
{
    let mut bytes = Vec::new(alloc);
    show_file(alloc, file, &mut bytes)?;
    Ok(bytes)
}

/// The listing of a value, of a packet or of a file.
pub fn listing(alloc: Global, content: &Content) -> Result<Vec<u8>, Memory>
    ensures { IfOk result (λ bytes. IsListed (content_of content.now) bytes.items) }
{
    match content {
        Content::Value(graph) => graph_listing(alloc, graph),
        Content::Packet(packet) => packet_listing(alloc, packet),
        Content::File(file) => file_listing(alloc, file),
    }
}

/// The listing of a content that is let go then.
pub(crate) fn listed(alloc: Global, content: Content) -> Result<Vec<u8>, Memory>
    ensures { IfOk result (λ bytes. IsListed (content_of content) bytes.items) }
{
    listing(alloc, &content)
}

/// What the text of a value in a format of values is of.
fn form_of(from: Format) -> ValueForm
    requires { IsOfValues from }
    ensures { result ≡ form_in from }
{
    match from {
        Format::Amf3 => ValueForm::Amf3,
        Format::Amf0 => ValueForm::Amf0,
        Format::Packet | Format::Sol => unreachable!(),
    }
}

/// The JSON text of a value that was read in a format of values.
fn value_text(
    alloc: Global,
    layout: Layout,
    from: Format,
    graph: &Rooted,
) -> Result<Vec<u8>, Memory>
    requires { IsOfValues from }
    ensures { IfOk result (λ bytes. IsTold layout from (of_graph (graph_of graph.now)) bytes.items) }
{
    value_is_ready(graph);
    value_json(alloc, layout, form_of(from), graph)
}

/// The JSON text of a packet that was read.
fn packet_text(alloc: Global, layout: Layout, packet: &Packet) -> Result<Vec<u8>, Memory>
    requires { IsPacketRead (packet_of packet.now) }
    ensures { IfOk result (λ bytes. IsTold layout form.Packet (of_packet (packet_of packet.now)) bytes.items) }
{
    packet_is_ready(packet);
    packet_json(alloc, layout, packet)
}

/// The JSON text of a shared object file.
fn file_text(alloc: Global, layout: Layout, file: &SharedObject) -> Result<Vec<u8>, Memory>
    ensures { IfOk result (λ bytes. IsTold layout form.Sol (of_file (shared file.now)) bytes.items) }
{
    file_is_ready(file);
    file_json(alloc, layout, file)
}

/// The JSON text of a value, of a packet or of a file that was read in a format, in the kinds of nodes and values that the format
/// has.
pub fn json_text(
    alloc: Global,
    layout: Layout,
    from: Format,
    content: &Content,
) -> Result<Vec<u8>, Memory>
    requires { (fs : List Field) × IsSpelling from free (content_of content.now) fs }
    ensures { IfOk result (λ bytes. IsTold layout from (content_of content.now) bytes.items) }
{
    match content {
        Content::Value(graph) => value_text(alloc, layout, from, graph),
        Content::Packet(packet) => packet_text(alloc, layout, packet),
        Content::File(file) => file_text(alloc, layout, file),
    }
}

/// The JSON text of a content that is let go then.
pub(crate) fn told(
    alloc: Global,
    layout: Layout,
    from: Format,
    content: Content,
) -> Result<Vec<u8>, Memory>
    requires { (fs : List Field) × IsSpelling from free (content_of content) fs }
    ensures { IfOk result (λ bytes. IsTold layout from (content_of content) bytes.items) }
{
    json_text(alloc, layout, from, &content)
}
