//! Messages that are stored, and as they are delivered.

ghost use Rattle.std.specs.Prelude.{◌≡◌, ℕ, ◌↔◌, length, IfOk, IsErrOf, IsTrue};
ghost use Rattle.std.specs.List.{AllByRecursion};
ghost use Rattle.amf_wire.specs.Text.{IsText};
ghost use Rattle.amf_graph.specs.Arena.{Names};
ghost use Rattle.amf_graph.specs.Building.{stored_at};
ghost use Rattle.amf_graph.specs.Grafting.{node_value};
ghost use Rattle.flex_msgs.specs.Asked.{IsCommon};
ghost use Rattle.flex_msgs.specs.Built.{Publishes, Delivers, IsStored, IsShort, WhereShort, LacksRoomToStore, LacksRoomToDeliver};
ghost use Rattle.flex_msgs.specs.Messages.{other_values};

use crate::class::Class;
use crate::replies::add_values;
use crate::writing::{add_client, add_message};
use crate::{Common, Reply};
use amf_graph::{BuildEnd, Builder, NodeView, Rooted, Value};
use amf_wire::{Memory, Name};
use std::alloc::Global;

/// Adds the AsyncMessage that is stored of a message that is published (the AMF profile of Flex messaging:
/// flex.messaging.messages), and gives it: with copies of the body and of the headers, what they share kept.
///
/// The names are texts, and the values the graph's. `Full` comes only where the builder has no room for what is added or a name has more than [`MAX_COUNT`] bytes, and `Memory`
/// where there is none. After an end the builder must not be used again.
pub fn published(
    alloc: Global,
    builder: &mut Builder,
    common: &Common,
    graph: &Rooted,
    correlation: &Name,
    moment: u64,
) -> Result<Value, BuildEnd>
    requires common { IsCommon graph.now.arena common.now }
    requires correlation { IsText correlation.now }
    ensures ok { IfOk result (λ v. Publishes graph.now.arena common.now correlation.now moment builder.old builder.new v) }
    ensures names { IfOk result (λ v. Names builder.new v) }
    ensures full { WhereShort common.now correlation.now (IsErrOf result BuildEnd.Full → LacksRoomToStore graph.now.arena common.now builder.old) }
{
    let copies = builder.graft_values(graph, &[common.body, common.headers])?;
    let body = copies[0];
    let headers = copies[1];
    let client = Name::of_bytes(alloc, b"")?;
    let ds_id = Name::of_bytes(alloc, b"")?;
    let destination = common.destination.copy(alloc)?;
    let message = common.message.copy(alloc)?;
    let correlation = correlation.copy(alloc)?;
    let reply = Reply {
        body,
        client,
        destination,
        ds_id,
        message,
        moment,
        correlation,
    };
    let values = add_values(alloc, builder, &reply, body, headers)?;
    add_message(alloc, builder, Class::Async, &values)
}

/// Whether the root of a graph is a stored message: an object with the traits of an AsyncMessage, as [`published`] adds it (the
/// AMF profile of Flex messaging: flex.messaging.messages).
pub fn is_stored(graph: &Rooted) -> bool
    ensures { IsTrue result ↔ IsStored graph.now }
{
    graph.is_finished();
    let Value::Node(node) = graph.root() else {
        return false;
    };
    let NodeView::Object { traits, .. } = graph.node(node) else {
        return false;
    };
    Class::Async.has_traits(graph, traits)
}

/// The values of a stored message but for its client. It gives up where there is no memory.
fn other_members(alloc: Global, stored: &Rooted) -> Result<Vec<Value>, Memory>
    requires { IsStored stored.now }
    ensures others { IfOk result (λ vs. (i : ℕ) → stored.now.root ≡ node_value i → vs.items ≡ other_values (stored_at stored.now.arena i).values) }
    ensures names { IfOk result (λ vs. AllByRecursion (Names stored.now.arena) vs.items) }
    ensures count { IfOk result (λ vs. length vs.items ≡ 7) }
{
    stored.is_finished();
    let Value::Node(node) = stored.root() else {
        unreachable!();
    };
    let NodeView::Object { sealed, .. } = stored.node(node) else {
        unreachable!();
    };
    let mut others = Vec::new(alloc);
    others.push(sealed[0])?;
    others.extend_from_slice(&sealed[2..])?;
    Ok(others)
}

/// Adds a stored message as it is delivered, and gives it: with copies of its values, and with this client (the AMF profile of
/// Flex messaging: flex.messaging.messages).
///
/// The client is a text. `Full` comes only where the builder has no room for what is added or the client has more than [`MAX_COUNT`] bytes, and `Memory`
/// where there is none. After an end the builder must not be used again.
pub fn delivered(
    alloc: Global,
    builder: &mut Builder,
    stored: &Rooted,
    client: &Name,
) -> Result<Value, BuildEnd>
    requires stored { IsStored stored.now }
    requires client { IsText client.now }
    ensures ok { IfOk result (λ v. (i : ℕ) → stored.now.root ≡ node_value i → Delivers stored.now.arena i client.now builder.old builder.new v) }
    ensures names { IfOk result (λ v. Names builder.new v) }
    ensures full { IsShort client.now → IsErrOf result BuildEnd.Full → (i : ℕ) → stored.now.root ≡ node_value i → LacksRoomToDeliver stored.now.arena i client.now builder.old }
{
    stored.is_finished();
    let others = other_members(alloc, stored)?;
    let copies = builder.graft_values(stored, &others)?;
    let client = add_client(builder, client)?;
    let first = copies[0];
    let mut values = Vec::new(alloc);
    values.push(first)?;
    values.push(client)?;
    values.extend_from_slice(&copies[1..])?;
    add_message(alloc, builder, Class::Async, &values)
}
