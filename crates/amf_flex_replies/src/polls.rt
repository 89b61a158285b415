//! How a poll is answered.

ghost use Rattle.std.specs.Prelude.{◌≡◌, codes, IfOk, OnErr};
ghost use Rattle.amf_graph.specs.Arena.{Names, value_content};
ghost use Rattle.amf_graph.specs.Rooted.{content};
ghost use Rattle.flex_msgs.specs.Asked.{IsCommon, told};
ghost use Rattle.amf_answer_plan.specs.Commands.{poll as poll_plan, poll_call as poll_call_of, poll_number as poll_number_of, say_batch as say_batch_plan};
ghost use Rattle.amf_answer_plan.specs.Did.{Stopped};
ghost use Rattle.amf_answer_plan.specs.Says.{Says};
ghost use Rattle.amf_answer_plan.specs.Kept.{context_in, ContextFits, CommonFits, names_told};
ghost use Rattle.amf_answer_plan.specs.Replies.{context_of};
ghost use Rattle.amf_answer_plan.specs.Small.{IsSmall};

use crate::batches::batch;
use crate::commands::{acknowledged, ask};
use amf_answer_plan::context::Context;
use amf_answer_plan::message_answer::MessageAnswer;
use amf_answer_plan::numbers::number_in;
use amf_answer_plan::outside::{Outside, Unanswered};
use amf_broker::{Call, ClientId, Reply};
use amf_graph::{Rooted, Value};
use amf_wire::{Memory, Name};
use flex_msgs::{Common, header};
use std::alloc::Global;

/// The number of a numbered poll: what is no text is no number. It gives up where there is no memory.
fn poll_number(alloc: Global, graph: &Rooted, value: Value) -> Result<u64, Memory>
    requires { Names graph.now.arena value }
    ensures { IfOk result (λ number. number ≡ poll_number_of (value_content graph.now.arena value)) }
{
    match value {
        Value::Text(text) => {
            let name = Name::of_bytes(alloc, graph.text(text))?;
            Ok(number_in(&name))
        }
        _ => Ok(0),
    }
}

/// The call of a poll, which is numbered where the value of its header is not null. It gives up where there is no memory.
fn poll_call(alloc: Global, graph: &Rooted, client: ClientId, value: Value) -> Result<Call, Memory>
    requires { Names graph.now.arena value }
    ensures { IfOk result (λ call. call ≡ poll_call_of client (value_content graph.now.arena value)) }
{
    match value {
        Value::Null => Ok(Call::Poll { client }),
        _ => {
            let number = poll_number(alloc, graph, value)?;
            Ok(Call::PollNumbered { client, number })
        }
    }
}

/// What is said of the reply to a poll. It gives up where there is no memory.
fn say_batch<O: Outside>(
    alloc: Global,
    outside: &mut O,
    context: &Context,
    reply: &Reply,
) -> Result<MessageAnswer, Memory>
    requires context { ContextFits (context_in context.now) }
    requires small { IsSmall reply.now }
    ensures says { IfOk result (λ a. Says O.handed (say_batch_plan (context_in context.now) reply.now) outside.old outside.new a) }
    ensures stopped { OnErr result (Stopped O.handed (say_batch_plan (context_in context.now) reply.now) outside.old outside.new) }
{
    let empty = Name::of_bytes(alloc, b"")?;
    match reply {
        Reply::Batch { deliveries, ended } => batch(alloc, outside, context, deliveries, ended),
        Reply::Numbered {
            deliveries,
            ended,
            ..
        } => batch(alloc, outside, context, deliveries, ended),
        Reply::Again {
            deliveries,
            ended,
            ..
        } => batch(alloc, outside, context, deliveries, ended),
        _ => acknowledged(alloc, outside, context, &empty, reply),
    }
}

/// Operation 2: a poll, which is numbered where the headers have an `AMFPoll` that is not null.
pub fn poll<O: Outside>(
    alloc: Global,
    outside: &mut O,
    graph: &Rooted,
    common: &Common,
    context: &Context,
) -> Result<MessageAnswer, Unanswered>
    requires common { IsCommon graph.now.arena common.now }
    requires fits { CommonFits common.now }
    requires context { context_in context.now ≡ context_of (names_told common.now) }
    requires context_fits { ContextFits (context_in context.now) }
    requires ready { O.may_call outside.old }
    ensures says { IfOk result (λ a. Says O.handed (poll_plan (content graph.now) (told graph.now.arena common.now)) outside.old outside.new a) }
    ensures stopped { OnErr result (Stopped O.handed (poll_plan (content graph.now) (told graph.now.arena common.now)) outside.old outside.new) }
{
    let client = ClientId(number_in(&common.ds_id));
    let value = header(alloc, graph, common, b"AMFPoll")?;
    let call = poll_call(alloc, graph, client, value)?;
    let reply = ask(outside, call)?;
    Ok(say_batch(alloc, outside, context, &reply)?)
}
