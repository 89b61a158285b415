ghost use Rattle.std.specs.Prelude.{◌*◌, ◌≤◌, length, map, IfOk};
ghost use Rattle.amf_packet.specs.Content.{header_of, message_of, packet_of};
ghost use Rattle.amf_packet.specs.WriteParts.{header_bodies, message_bodies};
ghost use Rattle.amf_listings.specs.PacketNodes.{HaveNodes, PacketHasNodes};

use crate::packet_body::graph;
use amf_packet::{Header, Message, Packet};
use amf_show::count_nodes;
use amf_wire::Memory;
use std::alloc::Global;

/// How many nodes the roots of a packet's values lead to, added over the values. It gives up where there is no memory.
pub fn count_packet_nodes(alloc: Global, packet: &Packet) -> Result<u128, Memory>
    ensures { IfOk result (λ nodes. PacketHasNodes (packet_of packet.now) nodes) }
{
    let headers = count_headers(alloc, packet.headers.as_slice())?;
    let messages = count_messages(alloc, packet.messages.as_slice())?;
    Ok(headers + messages)
}

fn count_headers(alloc: Global, headers: &[Header]) -> Result<u128, Memory>
    ensures nodes { IfOk result (λ nodes. HaveNodes (header_bodies (map header_of headers.now)) nodes) }
    ensures few { IfOk result (λ nodes. nodes ≤ 4294967296 * length headers.now) }
{
    let mut nodes = 0u128;
    for header in headers {
        nodes += u128::from(count_nodes(alloc, graph(&header.body))?);
    }
    Ok(nodes)
}

fn count_messages(alloc: Global, messages: &[Message]) -> Result<u128, Memory>
    ensures nodes { IfOk result (λ nodes. HaveNodes (message_bodies (map message_of messages.now)) nodes) }
    ensures few { IfOk result (λ nodes. nodes ≤ 4294967296 * length messages.now) }
{
    let mut nodes = 0u128;
    for message in messages {
        nodes += u128::from(count_nodes(alloc, graph(&message.body))?);
    }
    Ok(nodes)
}
