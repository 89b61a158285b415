ghost use Rattle.std.specs.Prelude.{map};
ghost use Rattle.amf_packet.specs.Content.{body_of, header_of, message_of, packet_of};
ghost use Rattle.amf_listings.specs.PacketParts.{HasLoweredBody, HaveLoweredHeaders, HaveLoweredMessages};
ghost use Rattle.amf_listings.specs.SamePacket.{HasLoweredPacket};

use amf_packet::{Body, Header, Message, Packet};
use amf0_spelling::graphs_have_one_lowering;

/// What is true of every packet: its plain values have lowerings. It does nothing.
pub fn packet_has_lowering(packet: &Packet)
    ensures { HasLoweredPacket (packet_of packet.now) }
{
    headers_have_lowerings(packet.headers.as_slice());
    messages_have_lowerings(packet.messages.as_slice());
}

fn headers_have_lowerings(headers: &[Header])
    ensures { HaveLoweredHeaders (map header_of headers.now) }
{
    for header in headers {
        body_has_lowering(&header.body);
    }
}

fn messages_have_lowerings(messages: &[Message])
    ensures { HaveLoweredMessages (map message_of messages.now) }
{
    for message in messages {
        body_has_lowering(&message.body);
    }
}

fn body_has_lowering(body: &Body)
    ensures { HasLoweredBody (body_of body.now) }
{
    match body {
        Body::Call(_) => {}
        Body::Amf3(_) => {}
        Body::Plain(graph) => {
            graphs_have_one_lowering();
            graph.is_finished();
        }
    }
}
