//! How a packet is answered: message by message, in order.

ghost use Rattle.std.specs.Prelude.{◌≡◌, ◌≤◌, ◌++◌, length, map, bytes_eq, IfOk, OnErr};
ghost use Rattle.std.specs.List.{AllByRecursion};
ghost use Rattle.amf_packet.specs.Content.{body_of, message_of, packet_of};
ghost use Rattle.amf_packet.specs.PacketAnswer.{body_weight};
ghost use Rattle.amf_packet.specs.SpelledBodies.{HasFitUris};
ghost use Rattle.amf_gateway.specs.Answered.{IsAnswerable, HasRoom, most_body, SaysAll, SaysWhole};
ghost use Rattle.amf_answer_plan.specs.Services.{services_of};
ghost use Rattle.amf_answer_plan.specs.Says.{Says, Tells};
ghost use Rattle.amf_answer_plan.specs.Did.{Stopped};
ghost use Rattle.amf_answer_plan.specs.PlainCalls.{at_last_dot, plain_call as plain_plan};
ghost use Rattle.amf_answer_plan.specs.Packets.{answer_to as answer_plan, answers_to as answers_plan, messages_back as back_plan};
ghost use Rattle.amf_answer_plan.specs.Packets.{suffix as suffix_of, null_uri, is_long as is_long_content, has_long as has_long_content};

use amf_answer_plan::message_answer::MessageAnswer;
use amf_answer_plan::outside::{Outside, Unanswered};
use amf_flex_replies::flex::flex;
use amf_packet::{Message, Packet, SpelledMessage, spelled_packet};
use amf_plain_calls::plain_call::plain_call;
use amf_service::Registry;
use amf_wire::{Memory, Name};
use std::alloc::Global;
use std::hash::RandomState;

/// The most bytes that a response URI has: it leaves room for a suffix in 16 bits.
const MOST_URI: usize = 65_526;

/// Whether a message with this target is a Flex request.
fn is_flex(target: &Name) -> bool
    ensures { result ≡ bytes_eq target.now null_uri }
{
    target.as_bytes() == b"null".as_slice()
}

/// Answers a call that names a service and an operation by its target. It asks for nothing outside.
fn answer_call(
    alloc: Global,
    keys: Option<RandomState>,
    registry: &Registry,
    message: &Message,
) -> Result<MessageAnswer, Unanswered>
    requires { body_weight message.now.body ≤ most_body }
    ensures { IfOk result (Tells (plain_plan (services_of registry.now knows gives) (body_of message.now.body) (at_last_dot message.now.target))) }
{
    Ok(plain_call(alloc, keys, registry, &message.target, &message.body)?)
}

/// Answers a message: a Flex request where its target is `null`, and else a call that the target names.
fn answer_message<O: Outside>(
    alloc: Global,
    outside: &mut O,
    registry: &Registry,
    message: &Message,
) -> Result<MessageAnswer, Unanswered>
    requires light { body_weight message.now.body ≤ most_body }
    requires ready { O.may_call outside.old }
    ensures says { IfOk result (Says O.handed (answer_plan (services_of registry.now knows gives) (message_of message.now)) outside.old outside.new) }
    ensures stopped { OnErr result (Stopped O.handed (answer_plan (services_of registry.now knows gives) (message_of message.now)) outside.old outside.new) }
{
    let is_request = is_flex(&message.target);
    if is_request {
        flex(alloc, outside, registry, &message.body)
    } else {
        answer_call(alloc, outside.keys(), registry, message)
    }
}

/// What stands behind the response URI in the target of an answer.
fn suffix(well: bool) -> &'static [u8]
    ensures { result.now ≡ suffix_of well }
{
    if well { b"/onResult" } else { b"/onStatus" }
}

/// The URI that an answer goes to. It gives up where there is no memory.
fn answer_uri(alloc: Global, response: &Name, well: bool) -> Result<Name, Memory>
    ensures { IfOk result (λ uri. uri ≡ response.now ++ suffix_of well) }
{
    let mut bytes = response.as_bytes().to_vec(alloc)?;
    bytes.extend_from_slice(suffix(well))?;
    Name::of_bytes(alloc, bytes.as_slice())
}

/// The message that answers one with this response URI. It gives up where there is no memory.
fn message_back(
    alloc: Global,
    response: &Name,
    answer: MessageAnswer,
) -> Result<SpelledMessage, Memory>
    ensures target { IfOk result (λ m. m.target ≡ response.now ++ suffix_of answer.well) }
    ensures response { IfOk result (λ m. m.response ≡ null_uri) }
    ensures body { IfOk result (λ m. m.body ≡ answer.body) }
{
    Ok(SpelledMessage {
        target: answer_uri(alloc, response, answer.well)?,
        response: Name::of_bytes(alloc, b"null")?,
        body: answer.body,
    })
}

/// Answers messages, in order.
fn messages_back<O: Outside>(
    alloc: Global,
    outside: &mut O,
    registry: &Registry,
    messages: &[Message],
) -> Result<Vec<SpelledMessage>, Unanswered>
    requires light { AllByRecursion (λ m. body_weight m.body ≤ most_body) messages.now }
    requires uris { AllByRecursion HasRoom messages.now }
    requires ready { O.may_call outside.old }
    ensures says { SaysAll O.handed (back_plan (services_of registry.now knows gives) (map message_of messages.now)) outside.old outside.new result }
    ensures uris { IfOk result (λ back. AllByRecursion HasFitUris back.items) }
    ensures count { IfOk result (λ back. length back.items ≡ length messages.now) }
    ensures stopped { OnErr result (Stopped O.handed (back_plan (services_of registry.now knows gives) (map message_of messages.now)) outside.old outside.new) }
{
    let mut back = Vec::new(alloc);
    for message in messages {
        let answer = answer_message(alloc, outside, registry, message)?;
        let made = message_back(alloc, &message.response, answer)?;
        back.push(made)?;
    }
    Ok(back)
}

/// The bytes of the packet that answers one: it has the same version, and no headers.
pub(crate) fn answer_packet<O: Outside>(
    alloc: Global,
    outside: &mut O,
    registry: &Registry,
    packet: &Packet,
) -> Result<Vec<u8>, Unanswered>
    requires packet { IsAnswerable packet.now }
    requires ready { O.may_call outside.old }
    ensures says { SaysWhole O.handed (answers_plan (services_of registry.now knows gives) (packet_of packet.now)) outside.old outside.new result }
    ensures stopped { OnErr result (Stopped O.handed (answers_plan (services_of registry.now knows gives) (packet_of packet.now)) outside.old outside.new) }
{
    let back = messages_back(alloc, outside, registry, packet.messages.as_slice())?;
    let bytes = spelled_packet(alloc, packet.version, &back)?;
    Ok(bytes)
}

/// Whether the response URI of a message leaves no room for a suffix.
fn is_long(message: &Message) -> bool
    ensures { result ≡ is_long_content (message_of message.now) }
{
    message.response.as_bytes().len() > MOST_URI
}

/// Whether a response URI leaves no room for a suffix.
pub(crate) fn has_long_uri(packet: &Packet) -> bool
    ensures { result ≡ has_long_content (packet_of packet.now) }
{
    let messages = packet.messages.as_slice();
    messages.iter().any(|message| is_long(message))
}
