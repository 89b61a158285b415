ghost use Rattle.std.specs.Prelude.{◌≡◌, IfOk, IfSome};
ghost use Rattle.std.specs.List.{AllByRecursion};
ghost use Rattle.amf_wire.specs.Text.{IsText};
ghost use Rattle.amf_graph.specs.Arena.{Names, value_content};
ghost use Rattle.amf_graph.specs.Rooted.{content};
ghost use Rattle.amf_poll_session.specs.Replies.{kind_at, class_kind, command_kind, is_text, has_id};
ghost use Rattle.amf_poll_session.specs.Requests.{message_id};
ghost use Rattle.amf_poll_session.specs.Sessions.{or_empty};
ghost use Rattle.amf_poll_session.specs.Steps.{Hears, AddsItem, Bodies, Delivers, told_id, told_correlation};

use crate::kind::MessageKind;
use crate::request::Request;
use amf_graph::{NodeView, Rooted, Value};
use amf_wire::{Memory, Name};
use flex_msgs::{member, text_alone, whole_number};
use std::alloc::Global;

/// What a reply told.
#[derive(Drop)]
pub(crate) struct Heard {
    /// The DSId of its headers, or no bytes.
    pub(crate) ds_id: Name,
    /// The delivered bodies, in order.
    pub(crate) bodies: Vec<Value>,
}

/// The kind of a CommandMessage with this operation.
fn command_kind(operation: Option<i64>) -> MessageKind
    ensures { result ≡ command_kind operation }
{
    match operation {
        Some(number) => {
            if number == 4 {
                MessageKind::Sync
            } else if number == 10 {
                MessageKind::Invalidate
            } else {
                MessageKind::Foreign
            }
        }
        None => MessageKind::Foreign,
    }
}

/// The kind of a message of this class, where its operation is this.
fn class_kind(class: &[u8], operation: Option<i64>) -> MessageKind
    ensures { result ≡ class_kind class.now operation }
{
    if b"flex.messaging.messages.AcknowledgeMessage".as_slice() == class {
        MessageKind::Acknowledge
    } else if b"flex.messaging.messages.AsyncMessage".as_slice() == class {
        MessageKind::Async
    } else if b"flex.messaging.messages.CommandMessage".as_slice() == class {
        command_kind(operation)
    } else {
        MessageKind::Foreign
    }
}

/// What a value is as a message.
fn kind_at(alloc: Global, graph: &Rooted, value: Value) -> Result<MessageKind, Memory>
    requires { Names graph.now.arena value }
    ensures { IfOk result (λ kind. kind ≡ kind_at (content graph.now) (value_content graph.now.arena value)) }
{
    graph.is_finished();
    let Value::Node(node) = value else {
        return Ok(MessageKind::Foreign);
    };
    let NodeView::Object {
        traits,
        sealed: _sealed,
        members: _members,
    } = graph.node(node)
    else {
        return Ok(MessageKind::Foreign);
    };
    let operation = member(alloc, graph, value, b"operation")?;
    Ok(class_kind(
        graph.text(graph.traits(traits).class),
        whole_number(operation),
    ))
}

/// Adds the body of an item that is a delivered message; an invalidate has none. It says whether the item is one of these.
fn add_body(
    alloc: Global,
    graph: &Rooted,
    item: Value,
    bodies: &mut Vec<Value>,
) -> Result<bool, Memory>
    requires { Names graph.now.arena item }
    ensures { IfOk result (AddsItem graph.now item bodies.old.items bodies.new.items) }
{
    match kind_at(alloc, graph, item)? {
        MessageKind::Async => {
            let body = member(alloc, graph, item, b"body")?;
            bodies.push(body)?;
            Ok(true)
        }
        MessageKind::Invalidate => Ok(true),
        _ => Ok(false),
    }
}

/// The bodies of the delivered messages among the items of an array, where each item is one or is an invalidate.
fn bodies_of(alloc: Global, graph: &Rooted, body: Value) -> Result<Option<Vec<Value>>, Memory>
    requires { Names graph.now.arena body }
    ensures bodies { IfOk result (Bodies graph.now (value_content graph.now.arena body)) }
    ensures names { IfOk result (λ found. IfSome found (λ bodies. AllByRecursion (Names graph.now.arena) bodies.items)) }
{
    graph.is_finished();
    let Value::Node(node) = body else {
        return Ok(None);
    };
    let NodeView::Array { names, items } = graph.node(node) else {
        return Ok(None);
    };
    if !names.is_empty() {
        return Ok(None);
    }
    let mut bodies = Vec::new(alloc);
    for item in items {
        if !add_body(alloc, graph, *item, &mut bodies)? {
            return Ok(None);
        }
    }
    Ok(Some(bodies))
}

/// The bodies that a reply delivers, if it is an AcknowledgeMessage or a sync.
fn delivered(alloc: Global, graph: &Rooted) -> Result<Option<Vec<Value>>, Memory>
    ensures delivers { IfOk result (Delivers graph.now) }
    ensures names { IfOk result (λ found. IfSome found (λ bodies. AllByRecursion (Names graph.now.arena) bodies.items)) }
{
    graph.is_finished();
    match kind_at(alloc, graph, graph.root())? {
        MessageKind::Acknowledge => Ok(Some(Vec::new(alloc))),
        MessageKind::Sync => {
            let body = member(alloc, graph, graph.root(), b"body")?;
            bodies_of(alloc, graph, body)
        }
        _ => Ok(None),
    }
}

/// The DSId of the headers, where it is a text.
fn ds_id_of(alloc: Global, graph: &Rooted) -> Result<Option<Name>, Memory>
    ensures ds_id { IfOk result (λ found. found ≡ told_id (content graph.now)) }
    ensures text { IfOk result (λ found. IfSome found (λ x. IsText x)) }
{
    graph.is_finished();
    let headers = member(alloc, graph, graph.root(), b"headers")?;
    let value = member(alloc, graph, headers, b"DSId")?;
    text_alone(alloc, graph, value)
}

/// The correlation identifier, where it is a text.
fn correlation_of(alloc: Global, graph: &Rooted) -> Result<Option<Name>, Memory>
    ensures { IfOk result (λ found. found ≡ told_correlation (content graph.now)) }
{
    graph.is_finished();
    let value = member(alloc, graph, graph.root(), b"correlationId")?;
    text_alone(alloc, graph, value)
}

/// Whether this is what was told.
fn is_text(text: &Name, told: &Option<Name>) -> bool
    ensures { result ≡ is_text text.now told.now }
{
    match told {
        Some(other) => other.as_bytes() == text.as_bytes(),
        None => false,
    }
}

/// Whether it tells a DSId, where the request asks for one.
fn has_id(request: Request, ds_id: &Option<Name>) -> bool
    ensures { result ≡ has_id request ds_id.now }
{
    match ds_id {
        Some(_) => true,
        None => match request {
            Request::Ping => false,
            Request::Subscribe | Request::Poll(_) | Request::Disconnect => true,
        },
    }
}

/// The DSId, or no bytes where there is none.
fn or_empty(alloc: Global, ds_id: Option<Name>) -> Result<Name, Memory>
    requires { IfSome ds_id (λ x. IsText x) }
    ensures same { IfOk result (λ x. x ≡ or_empty ds_id) }
    ensures text { IfOk result (λ x. IsText x) }
{
    match ds_id {
        Some(ds_id) => Ok(ds_id),
        None => Name::of_bytes(alloc, b""),
    }
}

/// What a graph tells as an answer to the request, if it is one.
pub(crate) fn hear(alloc: Global, graph: &Rooted, request: Request) -> Result<Option<Heard>, Memory>
    ensures hears { IfOk result (Hears graph.now request) }
    ensures text { IfOk result (λ found. IfSome found (λ heard. IsText heard.ds_id)) }
    ensures names { IfOk result (λ found. IfSome found (λ heard. AllByRecursion (Names graph.now.arena) heard.bodies.items)) }
{
    let asked = request.message_id(alloc)?;
    let told = correlation_of(alloc, graph)?;
    if !is_text(&asked, &told) {
        return Ok(None);
    }
    let Some(bodies) = delivered(alloc, graph)? else {
        return Ok(None);
    };
    let found = ds_id_of(alloc, graph)?;
    if !has_id(request, &found) {
        return Ok(None);
    }
    let ds_id = or_empty(alloc, found)?;
    Ok(Some(Heard { ds_id, bodies }))
}
