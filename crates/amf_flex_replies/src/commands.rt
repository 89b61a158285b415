//! How a CommandMessage is answered: which call of the desk it makes, and what is said of the reply.

ghost use Rattle.std.specs.Prelude.{◌≡◌, [], IsTrue, IfOk, OnErr};
ghost use Rattle.amf_answer_plan.specs.Commands.{ask as ask_plan, acknowledged as acknowledged_plan, say_subscribed as say_subscribed_plan, subscribe as subscribe_plan, topic_of as topic_named, unsubscribe as unsubscribe_plan, is_new as is_new_text, say_connected as say_connected_plan, ping as ping_plan, disconnect as disconnect_plan};
ghost use Rattle.amf_answer_plan.specs.Did.{Ran, Stopped};
ghost use Rattle.amf_answer_plan.specs.Says.{Says};
ghost use Rattle.amf_answer_plan.specs.Kept.{context_in, Fits, ContextFits, CommonFits, names_told};
ghost use Rattle.amf_answer_plan.specs.Kept.{connect_in};
ghost use Rattle.amf_answer_plan.specs.Replies.{context_of};
ghost use Rattle.amf_answer_plan.specs.Small.{IsSmall};

use crate::replies::{acknowledge_null, error};
use amf_answer_plan::causes::refusal;
use amf_answer_plan::context::Context;
use amf_answer_plan::message_answer::MessageAnswer;
use amf_answer_plan::numbers::{number_in, numeral};
use amf_answer_plan::outside::{Outside, Unanswered};
use amf_broker::{Call, ClientId, Reply, SubId, Topic};
use amf_wire::{Memory, Name};
use flex_msgs::Common;
use std::alloc::Global;

/// The desk's reply to a call, which takes a moment before it.
pub fn ask<O: Outside>(outside: &mut O, call: Call) -> Result<Reply, Unanswered>
    requires { O.may_call outside.old }
    ensures ran { IfOk result (λ r. Ran O.handed (ask_plan call) outside.old outside.new r) }
    ensures small { IfOk result (λ r. IsSmall r) }
    ensures stopped { OnErr result (Stopped O.handed (ask_plan call) outside.old outside.new) }
{
    let moment = outside.moment();
    outside.call(moment, call)
}

/// The error of a refusal, and an acknowledge of every other reply. It gives up where there is no memory.
pub fn acknowledged<O: Outside>(
    alloc: Global,
    outside: &mut O,
    context: &Context,
    client: &Name,
    reply: &Reply,
) -> Result<MessageAnswer, Memory>
    requires context { ContextFits (context_in context.now) }
    requires client { Fits client.now }
    ensures says { IfOk result (λ a. Says O.handed (acknowledged_plan (context_in context.now) client.now reply.now) outside.old outside.new a) }
    ensures stopped { OnErr result (Stopped O.handed (acknowledged_plan (context_in context.now) client.now reply.now) outside.old outside.new) }
{
    match refusal(alloc, reply)? {
        Some(fault) => error(alloc, outside, context, &fault),
        None => acknowledge_null(alloc, outside, context, client),
    }
}

/// What is said of the reply to a subscribe. It gives up where there is no memory.
fn say_subscribed<O: Outside>(
    alloc: Global,
    outside: &mut O,
    context: &Context,
    reply: &Reply,
) -> Result<MessageAnswer, Memory>
    requires context { ContextFits (context_in context.now) }
    ensures says { IfOk result (λ a. Says O.handed (say_subscribed_plan (context_in context.now) reply.now) outside.old outside.new a) }
    ensures stopped { OnErr result (Stopped O.handed (say_subscribed_plan (context_in context.now) reply.now) outside.old outside.new) }
{
    let empty = Name::of_bytes(alloc, b"")?;
    match reply {
        Reply::Subscribed(id) => {
            let client = numeral(alloc, id.0)?;
            acknowledge_null(alloc, outside, context, &client)
        }
        _ => acknowledged(alloc, outside, context, &empty, reply),
    }
}

/// The topic of a request. It gives up where there is no memory.
pub fn topic_of(alloc: Global, common: &Common) -> Result<Topic, Memory>
    ensures { IfOk result (λ topic. topic ≡ topic_named (names_told common.now)) }
{
    Ok(Topic {
        destination: common.destination.copy(alloc)?,
        subtopic: common.subtopic.copy(alloc)?,
    })
}

/// Operation 0: a new subscription, whose number is the client of the answer.
pub fn subscribe<O: Outside>(
    alloc: Global,
    outside: &mut O,
    common: &Common,
    context: &Context,
) -> Result<MessageAnswer, Unanswered>
    requires common { CommonFits common.now }
    requires context { context_in context.now ≡ context_of (names_told common.now) }
    requires fits { ContextFits (context_in context.now) }
    requires ready { O.may_call outside.old }
    ensures says { IfOk result (λ a. Says O.handed (subscribe_plan (names_told common.now)) outside.old outside.new a) }
    ensures stopped { OnErr result (Stopped O.handed (subscribe_plan (names_told common.now)) outside.old outside.new) }
{
    let topic = topic_of(alloc, common)?;
    let client = ClientId(number_in(&common.ds_id));
    let reply = ask(outside, Call::Subscribe { client, topic })?;
    Ok(say_subscribed(alloc, outside, context, &reply)?)
}

/// Operation 1: the end of the subscription that the client of the request names.
pub fn unsubscribe<O: Outside>(
    alloc: Global,
    outside: &mut O,
    common: &Common,
    context: &Context,
) -> Result<MessageAnswer, Unanswered>
    requires common { CommonFits common.now }
    requires context { context_in context.now ≡ context_of (names_told common.now) }
    requires fits { ContextFits (context_in context.now) }
    requires ready { O.may_call outside.old }
    ensures says { IfOk result (λ a. Says O.handed (unsubscribe_plan (names_told common.now)) outside.old outside.new a) }
    ensures stopped { OnErr result (Stopped O.handed (unsubscribe_plan (names_told common.now)) outside.old outside.new) }
{
    let client = ClientId(number_in(&common.ds_id));
    let sub = SubId(number_in(&common.client));
    let reply = ask(outside, Call::Unsubscribe { client, sub })?;
    Ok(acknowledged(alloc, outside, context, &common.client, &reply)?)
}

/// Operation 12: the end of a client.
pub fn disconnect<O: Outside>(
    alloc: Global,
    outside: &mut O,
    common: &Common,
    context: &Context,
) -> Result<MessageAnswer, Unanswered>
    requires common { CommonFits common.now }
    requires context { context_in context.now ≡ context_of (names_told common.now) }
    requires fits { ContextFits (context_in context.now) }
    requires ready { O.may_call outside.old }
    ensures says { IfOk result (λ a. Says O.handed (disconnect_plan (names_told common.now)) outside.old outside.new a) }
    ensures stopped { OnErr result (Stopped O.handed (disconnect_plan (names_told common.now)) outside.old outside.new) }
{
    let empty = Name::of_bytes(alloc, b"")?;
    let client = ClientId(number_in(&common.ds_id));
    let reply = ask(outside, Call::Disconnect { client })?;
    Ok(acknowledged(alloc, outside, context, &empty, &reply)?)
}

/// Whether a request names no client yet.
fn is_new(ds_id: &Name) -> bool
    ensures { result ≡ is_new_text ds_id.now }
{
    let bytes = ds_id.as_bytes();
    bytes.is_empty() || b"nil".as_slice() == bytes
}

/// What is said of the reply to a connect. It gives up where there is no memory.
fn say_connected<O: Outside>(
    alloc: Global,
    outside: &mut O,
    context: Context,
    reply: &Reply,
) -> Result<MessageAnswer, Memory>
    requires context { ContextFits (context_in context) }
    ensures says { IfOk result (λ a. Says O.handed (say_connected_plan (context_in context) reply.now) outside.old outside.new a) }
    ensures stopped { OnErr result (Stopped O.handed (say_connected_plan (context_in context) reply.now) outside.old outside.new) }
{
    let empty = Name::of_bytes(alloc, b"")?;
    match reply {
        Reply::Client(id) => {
            let context = context.with_client(numeral(alloc, id.0)?);
            acknowledge_null(alloc, outside, &context, &empty)
        }
        _ => acknowledged(alloc, outside, &context, &empty, reply),
    }
}

/// A new client, whose number the answer has.
fn connect<O: Outside>(
    alloc: Global,
    outside: &mut O,
    context: Context,
) -> Result<MessageAnswer, Unanswered>
    requires context { ContextFits (context_in context) }
    requires ready { O.may_call outside.old }
    ensures says { IfOk result (λ a. Says O.handed (connect_in (context_in context)) outside.old outside.new a) }
    ensures stopped { OnErr result (Stopped O.handed (connect_in (context_in context)) outside.old outside.new) }
{
    let reply = ask(outside, Call::Connect)?;
    Ok(say_connected(alloc, outside, context, &reply)?)
}

/// Operation 5: a ping, which connects a client where the request names none.
pub fn ping<O: Outside>(
    alloc: Global,
    outside: &mut O,
    common: &Common,
    context: Context,
) -> Result<MessageAnswer, Unanswered>
    requires common { CommonFits common.now }
    requires context { context_in context ≡ context_of (names_told common.now) }
    requires fits { ContextFits (context_in context) }
    requires ready { O.may_call outside.old }
    ensures says { IfOk result (λ a. Says O.handed (ping_plan (names_told common.now)) outside.old outside.new a) }
    ensures stopped { OnErr result (Stopped O.handed (ping_plan (names_told common.now)) outside.old outside.new) }
{
    if is_new(&common.ds_id) {
        return connect(alloc, outside, context);
    }
    let empty = Name::of_bytes(alloc, b"")?;
    Ok(acknowledge_null(alloc, outside, &context, &empty)?)
}
