ghost use Rattle.std.specs.Prelude.{◌≡◌, map, IfOk};
ghost use Rattle.amf_graph.specs.Rooted.{content};
ghost use Rattle.amf_packet.specs.Content.{body_of as body_seen, header_of as header_seen, message_of as message_seen, packet_of as packet_seen};
ghost use Rattle.amf_text.specs.Documents.{packet};
ghost use Rattle.amf_text_pages.specs.Written.{form_named, header_written, message_written};
ghost use Rattle.amf_json.specs.JsonTexts.{form_told, header_told, message_told, packet_document};

use amf_graph::Rooted;
use amf_packet::{Body, Header, Headers, Message, Messages, Packet};
use amf_text_draft::{PacketForm, WrittenHeader, WrittenMessage};
use amf_wire::{Memory, Name};
use std::alloc::Global;

/// The packet of these parts.
pub fn packet_of(
    alloc: Global,
    version: u16,
    headers: Vec<WrittenHeader>,
    messages: Vec<WrittenMessage>,
) -> Result<Packet, Memory>
    ensures { IfOk result (λ p. packet_document (packet_seen p) ≡ packet version (map header_written headers.items) (map message_written messages.items)) }
{
    let headers = headers_of(alloc, headers)?;
    let messages = messages_of(alloc, messages)?;
    Ok(Packet {
        version,
        headers: Headers::of_vec(headers),
        messages: Messages::of_vec(messages),
    })
}

/// The headers, in order.
fn headers_of(alloc: Global, written: Vec<WrittenHeader>) -> Result<Vec<Header>, Memory>
    ensures { IfOk result (λ hs. map header_told (map header_seen hs.items) ≡ map header_written written.items) }
{
    let mut headers = Vec::new(alloc);
    for header in written {
        headers.push(header_of(alloc, header)?)?;
    }
    Ok(headers)
}

/// The messages, in order.
fn messages_of(alloc: Global, written: Vec<WrittenMessage>) -> Result<Vec<Message>, Memory>
    ensures { IfOk result (λ ms. map message_told (map message_seen ms.items) ≡ map message_written written.items) }
{
    let mut messages = Vec::new(alloc);
    for message in written {
        messages.push(message_of(alloc, message)?)?;
    }
    Ok(messages)
}

/// One header.
fn header_of(alloc: Global, written: WrittenHeader) -> Result<Header, Memory>
    ensures { IfOk result (λ h. header_told (header_seen h) ≡ header_written written) }
{
    let name = Name::of_bytes(alloc, &written.name)?;
    Ok(Header {
        name,
        must: written.must,
        body: body_of(written.form, written.graph),
    })
}

/// One message.
fn message_of(alloc: Global, written: WrittenMessage) -> Result<Message, Memory>
    ensures { IfOk result (λ m. message_told (message_seen m) ≡ message_written written) }
{
    let target = Name::of_bytes(alloc, &written.target)?;
    let response = Name::of_bytes(alloc, &written.response)?;
    Ok(Message {
        target,
        response,
        body: body_of(written.form, written.graph),
    })
}

/// The value of a header or of a message.
fn body_of(form: PacketForm, graph: Rooted) -> Body
    ensures form { form_told (body_seen result).form ≡ form_named form }
    ensures graph { (body_seen result).graph ≡ content graph }
{
    match form {
        PacketForm::Plain => Body::Plain(graph),
        PacketForm::Amf3 => Body::Amf3(graph),
        PacketForm::Call => Body::Call(graph),
    }
}
