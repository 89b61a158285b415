ghost use Rattle.std.specs.Prelude.{◌≡◌, map, OnOk, OnErr};
ghost use Rattle.amf_packet.specs.Content.{header_of, message_of, packet_of};
ghost use Rattle.amf_listings.specs.PacketListing.{AppendsPacketListing, AreHeaders, AreMessages};
ghost use Rattle.amf_listings.specs.PacketParts.{Appended};

use crate::packet_body::graph;
use crate::packet_lines::{push_header_line, push_message_line, push_version};
use amf_packet::{Header, Message, Packet};
use amf_show::show;
use amf_wire::Memory;
use std::alloc::Global;

/// Appends the listing of a packet: a line with its version, then for each header a line with its name and whether it must be
/// understood, and for each message a line with its target, its response and the form of its value, each with the listing of
/// its value behind it.
///
/// After an end `out` is as before. It gives up where there is no memory.
pub fn show_packet(alloc: Global, packet: &Packet, out: &mut Vec<u8>) -> Result<(), Memory>
    ensures shown { OnOk result (AppendsPacketListing (packet_of packet.now) out.old.items out.new.items) }
    ensures untouched { OnErr result (out.new.items ≡ out.old.items) }
{
    let mut listing = Vec::new(alloc);
    push_version(packet.version, &mut listing)?;
    push_headers(alloc, packet.headers.as_slice(), &mut listing)?;
    push_messages(alloc, packet.messages.as_slice(), &mut listing)?;
    out.extend_from_slice(&listing)?;
    Ok(())
}

/// Appends the line of each header, and the listing of its value.
fn push_headers(alloc: Global, headers: &[Header], out: &mut Vec<u8>) -> Result<(), Memory>
    ensures { OnOk result (Appended (AreHeaders (map header_of headers.now)) out.old.items out.new.items) }
{
    for header in headers {
        push_header_line(alloc, header, out)?;
        show(alloc, graph(&header.body), out)?;
    }
    Ok(())
}

/// Appends the line of each message, and the listing of its value.
fn push_messages(alloc: Global, messages: &[Message], out: &mut Vec<u8>) -> Result<(), Memory>
    ensures { OnOk result (Appended (AreMessages (map message_of messages.now)) out.old.items out.new.items) }
{
    for message in messages {
        push_message_line(alloc, message, out)?;
        show(alloc, graph(&message.body), out)?;
    }
    Ok(())
}
