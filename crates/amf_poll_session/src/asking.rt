ghost use Rattle.std.specs.Prelude.{◌≡◌, ◌∷◌, [], IfOk, OnOk};
ghost use Rattle.amf_graph.specs.Arena.{Names, value_content};
ghost use Rattle.amf_graph.specs.Rooted.{content};
ghost use Rattle.amf_wire.specs.Text.{IsText};
ghost use Rattle.amf_wire.specs.Style.{canonical};
ghost use Rattle.amf_packet.specs.Packet.{SpelledPacket};
ghost use Rattle.flex_msgs.specs.Classes.{command_traits};
ghost use Rattle.flex_msgs.specs.Messages.{message_node};
ghost use Rattle.flex_msgs.specs.Writing.{WritesNames, WritesOne, AreValues};
ghost use Rattle.amf_poll_session.specs.Requests.{message_id, destination_of, numbered_headers, request_headers};
ghost use Rattle.amf_poll_session.specs.Requests.{request_values, request_graph, request_packet, IsAsked};

use crate::request::Request;
use amf_client::request_bytes;
use amf_graph::{BuildEnd, Builder, Rooted, Value};
use amf_packet::{Body, Headers, Message, Messages, Packet, PacketEnd, write_packet_keyed};
use amf_wire::{Memory, Name};
use flex_msgs::{Class, add_headers, add_message, add_object, add_text, small};
use std::alloc::Global;
use std::hash::RandomState;

/// Adds headers with a DSId and the number of a poll.
fn add_numbered(builder: &mut Builder, ds_id: &Name, number: &Name) -> Result<Value, BuildEnd>
    requires ds_id { IsText ds_id.now }
    requires number { IsText number.now }
    ensures { IfOk result (λ v. WritesOne builder.old builder.new v (λ h. numbered_headers ds_id.now number.now)) }
{
    let class = builder.text(b"")?;
    let name = builder.text(b"DSId")?;
    let text = builder.text(ds_id.as_bytes())?;
    let poll = builder.text(b"AMFPoll")?;
    let digits = builder.text(number.as_bytes())?;
    let traits = builder.traits(class, true, &[])?;
    let members = [(name, Value::Text(text)), (poll, Value::Text(digits))];
    let node = add_object(builder, traits, &[], &members)?;
    Ok(Value::Node(node))
}

/// Adds the headers of a request: the DSId, and the number of a poll.
fn add_request_headers(
    builder: &mut Builder,
    ds_id: &Name,
    id: &Name,
    request: Request,
) -> Result<Value, BuildEnd>
    requires ds_id { IsText ds_id.now }
    requires text { IsText id.now }
    requires id { id.now ≡ message_id request }
    ensures { IfOk result (λ v. WritesOne builder.old builder.new v (λ h. request_headers ds_id.now request)) }
{
    match request {
        Request::Poll(_) => add_numbered(builder, ds_id, id),
        _ => add_headers(builder, ds_id),
    }
}

/// Adds the destination of a request, which is null but for a subscribe.
fn add_destination(
    builder: &mut Builder,
    destination: &Name,
    request: Request,
) -> Result<Value, BuildEnd>
    requires { IsText destination.now }
    ensures writes { OnOk result (WritesNames builder.old builder.new) }
    ensures value { IfOk result (λ v. AreValues builder.new (v ∷ []) (λ h. destination_of destination.now request ∷ [])) }
{
    match request {
        Request::Subscribe => add_text(builder, destination),
        _ => Ok(Value::Null),
    }
}

/// Adds the message of a request behind its headers.
fn add_request(
    alloc: Global,
    builder: &mut Builder,
    destination: &Name,
    headers: Value,
    id: &Name,
    request: Request,
) -> Result<Value, BuildEnd>
    requires destination { IsText destination.now }
    requires headers { Names builder.old headers }
    requires text { IsText id.now }
    requires id { id.now ≡ message_id request }
    ensures ok { IfOk result (λ v. WritesOne builder.old builder.new v (λ h. message_node command_traits
        (request_values destination.now request (value_content h headers)))) }
    ensures names { IfOk result (λ v. Names builder.new v) }
{
    let place = add_destination(builder, destination, request)?;
    let message = add_text(builder, id)?;
    let operation = small(request.operation());
    let none = Value::Null;
    let zero = Value::Integer(0);
    let values = [
        none, none, place, headers, message, zero, zero, none, operation,
    ];
    add_message(alloc, builder, Class::Command, &values)
}

/// The graph of a request.
fn graph_of(
    alloc: Global,
    keys: Option<RandomState>,
    destination: &Name,
    ds_id: &Name,
    request: Request,
) -> Result<Rooted, BuildEnd>
    requires destination { IsText destination.now }
    requires ds_id { IsText ds_id.now }
    ensures { IfOk result (λ g. content g ≡ request_graph destination.now ds_id.now request) }
{
    let id = request.message_id(alloc)?;
    let mut builder = Builder::keyed(alloc, keys)?;
    let headers = add_request_headers(&mut builder, ds_id, &id, request)?;
    let message = add_request(alloc, &mut builder, destination, headers, &id, request)?;
    match builder.finish(message) {
        Ok(graph) => Ok(graph),
        Err(_) => Err(BuildEnd::Memory),
    }
}

/// The bytes of the packet of a request.
fn packet_bytes(
    alloc: Global,
    keys: Option<RandomState>,
    graph: Rooted,
) -> Result<Vec<u8>, PacketEnd>
    ensures { IfOk result (λ v. SpelledPacket canonical (request_packet (content graph)) v.items) }
{
    let mut messages = Vec::new(alloc);
    messages.push(Message {
        target: Name::of_bytes(alloc, b"null")?,
        response: Name::of_bytes(alloc, b"/1")?,
        body: Body::Call(graph),
    })?;
    let packet = Packet {
        version: 3,
        headers: Headers::of_vec(Vec::new(alloc)),
        messages: Messages::of_vec(messages),
    };
    let mut out = Vec::new(alloc);
    write_packet_keyed(alloc, keys, &packet, &mut out)?;
    Ok(out)
}

/// The bytes of a request to the gateway at a port.
pub(crate) fn asked(
    alloc: Global,
    keys: Option<RandomState>,
    port: u16,
    destination: &Name,
    ds_id: &Name,
    request: Request,
) -> Result<Vec<u8>, Memory>
    requires destination { IsText destination.now }
    requires ds_id { IsText ds_id.now }
    ensures { IfOk result (λ v. IsAsked port destination.now ds_id.now request v.items) }
{
    let Ok(graph) = graph_of(alloc, keys, destination, ds_id, request) else {
        return Err(Memory);
    };
    match packet_bytes(alloc, keys, graph) {
        Ok(packet) => request_bytes(alloc, port, packet.as_slice()),
        Err(_) => Err(Memory),
    }
}
