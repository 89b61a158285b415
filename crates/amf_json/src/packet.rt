ghost use Rattle.std.specs.Prelude.{map, IfOk};
ghost use Rattle.std.specs.List.{AllByRecursion};
ghost use Rattle.amf_wire.specs.Text.{IsText};
ghost use Rattle.amf_graph.specs.Rooted.{content};
ghost use Rattle.amf_packet.specs.Content.{header_of, message_of, packet_of};
ghost use Rattle.amf_packet.specs.WriteParts.{header_texts, message_texts};
ghost use Rattle.amf_text_write.specs.PacketTexts as text;
ghost use Rattle.amf_json.specs.JsonTexts.{IsPacketJson};
ghost use Rattle.amf_json.specs.Ready.{IsReadyPacket};
ghost use Rattle.amf_json.specs.TextParts.{TellsHeader, TellsHeaders, TellsMessage, TellsMessages};

use amf_packet::{Body, Header, Message, Packet};
use amf_text_write::{HeaderTexts, Layout, MessageTexts, PacketForm};
use amf_wire::Memory;
use amf0_write::lower;
use std::alloc::Global;

/// The canonical text of a packet, JSON (RFC 8259). Of a plain value it tells the lowered graph.
///
/// The packet can be read back from its text, as each that was read can be (`packet_is_ready`): its version is 0, 1 or 3, it has at
/// most 65,535 headers and as many messages, and each name and URI is a text of at most 65,535 bytes.
///
/// It gives up where there is no memory.
pub fn packet_json(alloc: Global, layout: Layout, packet: &Packet) -> Result<Vec<u8>, Memory>
    requires { IsReadyPacket (packet_of packet.now) }
    ensures { IfOk result (λ bytes. IsPacketJson layout (packet_of packet.now) bytes.items) }
{
    let mut headers = HeaderTexts::new(alloc, layout)?;
    put_headers(alloc, packet.headers.as_slice(), &mut headers)?;
    let mut messages = headers.into_messages()?;
    put_messages(alloc, packet.messages.as_slice(), &mut messages)?;
    messages.into_bytes(packet.version)
}

/// Tells each header.
fn put_headers(alloc: Global, headers: &[Header], texts: &mut HeaderTexts) -> Result<(), Memory>
    requires { AllByRecursion (AllByRecursion IsText) (header_texts (map header_of headers.now)) }
    ensures { TellsHeaders (map header_of headers.now) result texts.old texts.new }
{
    for header in headers {
        put_header(alloc, header, texts)?;
    }
    Ok(())
}

/// Tells each message.
fn put_messages(alloc: Global, messages: &[Message], texts: &mut MessageTexts) -> Result<(), Memory>
    requires { AllByRecursion (AllByRecursion IsText) (message_texts (map message_of messages.now)) }
    ensures { TellsMessages (map message_of messages.now) result texts.old texts.new }
{
    for message in messages {
        put_message(alloc, message, texts)?;
    }
    Ok(())
}

/// Tells a header. A plain value is lowered.
fn put_header(alloc: Global, header: &Header, texts: &mut HeaderTexts) -> Result<(), Memory>
    requires { IsText header.now.name }
    ensures { TellsHeader (header_of header.now) result texts.old texts.new }
{
    let name = header.name.as_bytes();
    match &header.body {
        Body::Call(graph) => texts.header(name, header.must, PacketForm::Call, graph),
        Body::Amf3(graph) => texts.header(name, header.must, PacketForm::Amf3, graph),
        Body::Plain(graph) => {
            let low = lower(alloc, graph)?;
            texts.header(name, header.must, PacketForm::Plain, &low)
        }
    }
}

/// Tells a message. A plain value is lowered.
fn put_message(alloc: Global, message: &Message, texts: &mut MessageTexts) -> Result<(), Memory>
    requires target { IsText message.now.target }
    requires response { IsText message.now.response }
    ensures { TellsMessage (message_of message.now) result texts.old texts.new }
{
    let target = message.target.as_bytes();
    let response = message.response.as_bytes();
    match &message.body {
        Body::Call(graph) => texts.message(target, response, PacketForm::Call, graph),
        Body::Amf3(graph) => texts.message(target, response, PacketForm::Amf3, graph),
        Body::Plain(graph) => {
            let low = lower(alloc, graph)?;
            texts.message(target, response, PacketForm::Plain, &low)
        }
    }
}
