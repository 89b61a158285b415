//! How the batch of a poll is answered.

ghost use Rattle.std.specs.Prelude.{◌≡◌, ◌≤◌, [], length, map, decimal, false, IsTrue, IfOk, OnErr};
ghost use Rattle.std.specs.List.{AllByRecursion};
ghost use Rattle.flex_msgs.specs.Answers.{invalidate_graph};
ghost use Rattle.flex_msgs.specs.Built.{IsReply, IsShortReply};
ghost use Rattle.amf_broker.specs.declared.limits.TheConstants.{MAX_MESSAGE, MAX_QUEUED, MAX_SUBS};
ghost use Rattle.amf_answer_plan.specs.Batches.{about_poll as about_poll_in, invalidates, sync as sync_plan, batch as batch_plan};
ghost use Rattle.amf_flex_replies.specs.Batching.{say_sync};
ghost use Rattle.amf_answer_plan.specs.Did.{Ran, Stopped};
ghost use Rattle.amf_answer_plan.specs.Says.{Says, Tells};
ghost use Rattle.amf_answer_plan.specs.Kept.{context_in, ContextFits};
ghost use Rattle.amf_answer_plan.specs.Replies.{fresh as fresh_plan};
ghost use Rattle.amf_answer_plan.specs.Small.{IsSmallBatch};

use crate::replies::{acknowledge_null, answered, failed, fresh};
use crate::sync_messages::sync_of;
use amf_answer_plan::causes::no_form;
use amf_answer_plan::context::Context;
use amf_answer_plan::message_answer::MessageAnswer;
use amf_answer_plan::numbers::numeral;
use amf_answer_plan::outside::Outside;
use amf_broker::{Deliveries, Delivery, SubId, SubIds};
use amf_wire::{Memory, Name};
use flex_msgs::Reply;
use std::alloc::Global;
use std::hash::RandomState;

/// What an invalidate says of the poll: its number of a client and its `messageId`, and no destination. It gives up where
/// there is no memory.
fn about_poll(alloc: Global, context: &Context) -> Result<Context, Memory>
    requires { ContextFits (context_in context.now) }
    ensures context { IfOk result (λ k. context_in k ≡ about_poll_in (context_in context.now)) }
    ensures fits { IfOk result (λ k. ContextFits (context_in k)) }
{
    Ok(Context {
        destination: Name::of_bytes(alloc, b"")?,
        ds_id: context.ds_id.copy(alloc)?,
        correlation: context.correlation.copy(alloc)?,
    })
}

/// The values of the invalidate of a subscription that ended. It gives up where there is no memory.
fn ending<O: Outside>(
    alloc: Global,
    outside: &mut O,
    context: &Context,
    sub: SubId,
) -> Result<Reply, Memory>
    requires { ContextFits (context_in context.now) }
    ensures ran { IfOk result (λ r. Ran O.handed (fresh_plan (context_in context.now) (decimal sub)) outside.old outside.new r) }
    ensures texts { IfOk result (λ r. IsReply r) }
    ensures short { IfOk result (λ r. IsShortReply r) }
    ensures stopped { OnErr result (Stopped O.handed (fresh_plan (context_in context.now) (decimal sub)) outside.old outside.new) }
{
    let client = numeral(alloc, sub.0)?;
    fresh(alloc, outside, context, &client)
}

/// The values of an invalidate for each subscription that ended, in order. It gives up where there is no memory.
fn endings<O: Outside>(
    alloc: Global,
    outside: &mut O,
    context: &Context,
    ended: &[SubId],
) -> Result<Vec<Reply>, Memory>
    requires { ContextFits (context_in context.now) }
    ensures ran { IfOk result (λ rs. Ran O.handed (invalidates (context_in context.now) ended.now) outside.old outside.new (map invalidate_graph rs.items)) }
    ensures texts { IfOk result (λ rs. AllByRecursion IsReply rs.items) }
    ensures short { IfOk result (λ rs. AllByRecursion IsShortReply rs.items) }
    ensures count { IfOk result (λ rs. length rs.items ≡ length ended.now) }
    ensures stopped { OnErr result (Stopped O.handed (invalidates (context_in context.now) ended.now) outside.old outside.new) }
{
    let about = about_poll(alloc, context)?;
    let mut replies = Vec::new(alloc);
    for sub in ended {
        let reply = ending(alloc, outside, &about, *sub)?;
        replies.push(reply)?;
    }
    Ok(replies)
}

/// The sync of these deliveries and invalidates. Where a delivery's message is no stored one it is the error that says so. It
/// gives up where there is no memory.
fn synced(
    alloc: Global,
    keys: Option<RandomState>,
    reply: Reply,
    deliveries: &[Delivery],
    endings: &[Reply],
) -> Result<MessageAnswer, Memory>
    requires texts { IsReply reply }
    requires short { IsShortReply reply }
    requires few { length deliveries.now ≤ MAX_QUEUED }
    requires small { AllByRecursion (λ d. length d.message ≤ MAX_MESSAGE) deliveries.now }
    requires few_endings { length endings.now ≤ MAX_SUBS }
    requires ending_texts { AllByRecursion IsReply endings.now }
    requires short_endings { AllByRecursion IsShortReply endings.now }
    ensures { IfOk result (λ a. Tells (say_sync reply deliveries.now (map invalidate_graph endings.now)) a) }
{
    match sync_of(alloc, keys, &reply, deliveries, endings)? {
        Some(graph) => answered(alloc, keys, reply, graph),
        None => {
            let fault = no_form(alloc)?;
            failed(alloc, reply, &fault)
        }
    }
}

/// The sync with the messages that were delivered, and with an invalidate for each subscription that ended. It gives up where
/// there is no memory.
fn sync<O: Outside>(
    alloc: Global,
    outside: &mut O,
    context: &Context,
    deliveries: &[Delivery],
    ended: &[SubId],
) -> Result<MessageAnswer, Memory>
    requires context { ContextFits (context_in context.now) }
    requires small { IsSmallBatch deliveries.now ended.now }
    ensures says { IfOk result (λ a. Says O.handed (sync_plan (context_in context.now) deliveries.now ended.now) outside.old outside.new a) }
    ensures stopped { OnErr result (Stopped O.handed (sync_plan (context_in context.now) deliveries.now ended.now) outside.old outside.new) }
{
    let empty = Name::of_bytes(alloc, b"")?;
    let keys = outside.keys();
    let reply = fresh(alloc, outside, context, &empty)?;
    let endings = endings(alloc, outside, context, ended)?;
    synced(alloc, keys, reply, deliveries, &endings)
}

/// Whether a batch has nothing in it.
fn is_nothing(deliveries: &[Delivery], ended: &[SubId]) -> bool
    ensures empty { IsTrue result → (deliveries.now ≡ []) × (ended.now ≡ []) }
    ensures some { result ≡ false → (deliveries.now ≡ []) × (ended.now ≡ []) → ⊥ }
{
    deliveries.is_empty() && ended.is_empty()
}

/// The answer to a poll that was handed this batch: a sync, or an acknowledge where nothing is in it. It gives up where there is
/// no memory.
pub fn batch<O: Outside>(
    alloc: Global,
    outside: &mut O,
    context: &Context,
    deliveries: &Deliveries,
    ended: &SubIds,
) -> Result<MessageAnswer, Memory>
    requires context { ContextFits (context_in context.now) }
    requires small { IsSmallBatch deliveries.now ended.now }
    ensures says { IfOk result (λ a. Says O.handed (batch_plan (context_in context.now) deliveries.now ended.now) outside.old outside.new a) }
    ensures stopped { OnErr result (Stopped O.handed (batch_plan (context_in context.now) deliveries.now ended.now) outside.old outside.new) }
{
    let messages = deliveries.as_slice();
    let subs = ended.as_slice();
    if is_nothing(messages, subs) {
        let empty = Name::of_bytes(alloc, b"")?;
        return acknowledge_null(alloc, outside, context, &empty);
    }
    sync(alloc, outside, context, messages, subs)
}
