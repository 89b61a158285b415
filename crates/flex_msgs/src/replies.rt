//! The answers to requests.

ghost use Rattle.std.specs.Prelude.{◌≡◌, ◌+◌, ◌≤◌, length, IfOk, OnOk, IsErrOf};
ghost use Rattle.std.specs.List.{AllByRecursion};
ghost use Rattle.amf_graph.specs.Arena.{Names, value_content};
ghost use Rattle.amf_graph.specs.declared.limits.TheConstants.{MAX_COUNT};
ghost use Rattle.flex_msgs.specs.Built.{IsReply, IsShortReply, IsFaultText, IsShort, Acknowledges, Errors, Syncs, Invalidates, GrewBy, HasRoomFor, HasRoomForError, client_texts};
ghost use Rattle.flex_msgs.specs.Writing.{WritesNames, WritesOne, AreValues};
ghost use Rattle.flex_msgs.specs.Messages.{reply_values, command_node};

use crate::class::Class;
use crate::number::{small, stamp_of};
use crate::writing::{add_array, add_client, add_headers, add_message, add_text};
use crate::{FaultText, Reply};
use amf_graph::{BuildEnd, Builder, Value};
use amf_wire::Name;
use std::alloc::Global;

/// Adds the texts of an answer, and gives the values that every answer has.
pub(crate) fn add_values(
    alloc: Global,
    builder: &mut Builder,
    reply: &Reply,
    body: Value,
    headers: Value,
) -> Result<Vec<Value>, BuildEnd>
    requires reply { IsReply reply.now }
    requires body { Names builder.old body }
    requires headers { Names builder.old headers }
    ensures writes { OnOk result (WritesNames builder.old builder.new) }
    ensures values { IfOk result (λ vs. AreValues builder.new vs.items (λ h. reply_values reply.now (value_content h body) (value_content h headers))) }
    ensures count { IfOk result (λ vs. length vs.items ≡ 8) }
    ensures grew { OnOk result (GrewBy builder.old builder.new (3 + client_texts reply.now.client) 0 0) }
    ensures full { HasRoomFor builder.old (3 + client_texts reply.now.client) 0 0 → IsShortReply reply.now → IsErrOf result BuildEnd.Full → ⊥ }
{
    let client = add_client(builder, &reply.client)?;
    let destination = add_text(builder, &reply.destination)?;
    let message = add_text(builder, &reply.message)?;
    let correlation = add_text(builder, &reply.correlation)?;
    let mut values = Vec::new(alloc);
    values.extend_from_slice(&[
        body,
        client,
        destination,
        headers,
        message,
        Value::Integer(0),
        Value::Double(stamp_of(reply.moment)),
        correlation,
    ])?;
    Ok(values)
}

/// Adds a CommandMessage with this operation.
pub(crate) fn add_command(
    alloc: Global,
    builder: &mut Builder,
    reply: &Reply,
    operation: u8,
    body: Value,
    headers: Value,
) -> Result<Value, BuildEnd>
    requires reply { IsReply reply.now }
    requires body { Names builder.old body }
    requires headers { Names builder.old headers }
    ensures ok { IfOk result (λ v. WritesOne builder.old builder.new v (λ h. command_node operation reply.now (value_content h body) (value_content h headers))) }
    ensures names { IfOk result (λ v. Names builder.new v) }
    ensures grew { OnOk result (GrewBy builder.old builder.new (13 + client_texts reply.now.client) 1 1) }
    ensures full { HasRoomFor builder.old (13 + client_texts reply.now.client) 1 1 → IsShortReply reply.now → IsErrOf result BuildEnd.Full → ⊥ }
{
    let mut values = add_values(alloc, builder, reply, body, headers)?;
    values.push(small(operation))?;
    add_message(alloc, builder, Class::Command, &values)
}

/// Adds an AcknowledgeMessage and gives it (the AMF profile of Flex messaging: flex.messaging.messages).
///
/// The names are texts, and the values the builder's. `Full` comes only where the builder has no room for what is added or a
/// name has more than [`MAX_COUNT`] bytes, and `Memory` where there is none. After an end the builder must not be used again.
pub fn acknowledge(alloc: Global, builder: &mut Builder, reply: &Reply) -> Result<Value, BuildEnd>
    requires reply { IsReply reply.now }
    requires body { Names builder.old reply.now.body }
    ensures ok { IfOk result (λ v. Acknowledges reply.now builder.old builder.new v) }
    ensures names { IfOk result (λ v. Names builder.new v) }
    ensures grew { OnOk result (GrewBy builder.old builder.new (15 + client_texts reply.now.client) 2 2) }
    ensures full { HasRoomFor builder.old (15 + client_texts reply.now.client) 2 2 → IsShortReply reply.now → IsErrOf result BuildEnd.Full → ⊥ }
{
    let headers = add_headers(builder, &reply.ds_id)?;
    let values = add_values(alloc, builder, reply, reply.body, headers)?;
    add_message(alloc, builder, Class::Acknowledge, &values)
}

/// Adds an ErrorMessage and gives it (the AMF profile of Flex messaging: flex.messaging.messages). Its body is null.
///
/// The names are texts, and the values the builder's. `Full` comes only where the builder has no room for what is added or a
/// name has more than [`MAX_COUNT`] bytes, and `Memory` where there is none. After an end the builder must not be used again.
pub fn error(
    alloc: Global,
    builder: &mut Builder,
    reply: &Reply,
    fault: &FaultText,
) -> Result<Value, BuildEnd>
    requires reply { IsReply reply.now }
    requires fault { IsFaultText fault.now }
    ensures ok { IfOk result (λ v. Errors reply.now fault.now builder.old builder.new v) }
    ensures names { IfOk result (λ v. Names builder.new v) }
    ensures grew { OnOk result (GrewBy builder.old builder.new (23 + client_texts reply.now.client) 2 2) }
    ensures full { HasRoomForError builder.old reply.now → IsShortReply reply.now → IsShort fault.now.code → IsShort fault.now.text → IsErrOf result BuildEnd.Full → ⊥ }
{
    let headers = add_headers(builder, &reply.ds_id)?;
    let mut values = add_values(alloc, builder, reply, Value::Null, headers)?;
    let empty = Name::of_bytes(alloc, b"")?;
    let code = add_text(builder, &fault.code)?;
    let detail = add_text(builder, &empty)?;
    let text = add_text(builder, &fault.text)?;
    values.extend_from_slice(&[Value::Null, code, detail, text, Value::Null])?;
    add_message(alloc, builder, Class::Error, &values)
}

/// Adds the CommandMessage of operation 4, whose body is the array of a batch, and gives it (the AMF profile of Flex messaging:
/// flex.messaging.messages).
///
/// The names are texts, and the values the builder's. `Full` comes only where the builder has no room for what is added or a
/// name has more than [`MAX_COUNT`] bytes, and `Memory` where there is none. After an end the builder must not be used again.
pub fn sync(
    alloc: Global,
    builder: &mut Builder,
    reply: &Reply,
    batch: Vec<Value>,
) -> Result<Value, BuildEnd>
    requires reply { IsReply reply.now }
    requires batch { AllByRecursion (Names builder.old) batch.items }
    ensures ok { IfOk result (λ v. Syncs reply.now batch.items builder.old builder.new v) }
    ensures names { IfOk result (λ v. Names builder.new v) }
    ensures grew { OnOk result (GrewBy builder.old builder.new (16 + client_texts reply.now.client) 2 3) }
    ensures full { HasRoomFor builder.old (16 + client_texts reply.now.client) 2 3 → IsShortReply reply.now → length batch.items ≤ MAX_COUNT → IsErrOf result BuildEnd.Full → ⊥ }
{
    let headers = add_headers(builder, &reply.ds_id)?;
    let body = add_array(builder, &batch)?;
    add_command(alloc, builder, reply, 4, body, headers)
}

/// Adds the CommandMessage of operation 10, by which a subscription ends, and gives it (the AMF profile of Flex messaging:
/// flex.messaging.messages). Its body is null.
///
/// The names are texts, and the values the builder's. `Full` comes only where the builder has no room for what is added or a
/// name has more than [`MAX_COUNT`] bytes, and `Memory` where there is none. After an end the builder must not be used again.
pub fn invalidate(alloc: Global, builder: &mut Builder, reply: &Reply) -> Result<Value, BuildEnd>
    requires reply { IsReply reply.now }
    ensures ok { IfOk result (λ v. Invalidates reply.now builder.old builder.new v) }
    ensures names { IfOk result (λ v. Names builder.new v) }
    ensures grew { OnOk result (GrewBy builder.old builder.new (16 + client_texts reply.now.client) 2 2) }
    ensures full { HasRoomFor builder.old (16 + client_texts reply.now.client) 2 2 → IsShortReply reply.now → IsErrOf result BuildEnd.Full → ⊥ }
{
    let headers = add_headers(builder, &reply.ds_id)?;
    add_command(alloc, builder, reply, 10, Value::Null, headers)
}
