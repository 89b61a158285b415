ghost use Rattle.std.specs.Prelude.{ℕ, List, map};
ghost use Rattle.amf_wire.specs.Style.{free};
ghost use Rattle.amf_graph.specs.Rooted.{content};
ghost use Rattle.amf_packet.specs.Content.{header_of, message_of, packet_of};
ghost use Rattle.amf_packet.specs.Packet.{SpelledPacket};
ghost use Rattle.amf_sol.specs.StoredFile.{shared};
ghost use Rattle.amf_json.specs.Ready.{IsReadyGraph, IsReadyPacket, IsReadyFile};
ghost use Rattle.amf_json.specs.TextParts.{AreReadyHeaders, AreReadyMessages};

use amf_graph::Rooted;
use amf_packet::{Header, Message, Packet};
use amf_sol::SharedObject;

/// What is true of every graph: it can be read back from its text. It does nothing.
pub fn value_is_ready(graph: &Rooted)
    ensures { IsReadyGraph (content graph.now) }
{
    graph.is_finished();
}

/// What is true of every packet that some bytes spell: it can be read back from its text. It does nothing.
pub fn packet_is_ready(packet: &Packet)
    ensures { (bytes : List ℕ) → SpelledPacket free (packet_of packet.now) bytes → IsReadyPacket (packet_of packet.now) }
{
    headers_are_ready(packet.headers.as_slice());
    messages_are_ready(packet.messages.as_slice());
}

/// What is true of every shared object: it can be read back from its text. It does nothing.
pub fn file_is_ready(file: &SharedObject)
    ensures { IsReadyFile (shared file.now) }
{
    file.is_stored();
    value_is_ready(file.holder());
}

fn headers_are_ready(headers: &[Header])
    ensures { AreReadyHeaders (map header_of headers.now) }
{
    for header in headers {
        value_is_ready(header.body.graph());
    }
}

fn messages_are_ready(messages: &[Message])
    ensures { AreReadyMessages (map message_of messages.now) }
{
    for message in messages {
        value_is_ready(message.body.graph());
    }
}
