//! How an AsyncMessage is answered: it is published.

ghost use Rattle.std.specs.Prelude.{◌≡◌, ◌≤◌, Some, None, IfOk, OnErr};
ghost use Rattle.amf_graph.specs.Bounds.{weight};
ghost use Rattle.amf_graph.specs.Rooted.{content};
ghost use Rattle.flex_msgs.specs.Asked.{IsCommon, told};
ghost use Rattle.amf_answer_plan.specs.Commands.{publish as publish_plan, publish_spelled as publish_spelled_plan};
ghost use Rattle.amf_answer_plan.specs.Did.{Stopped};
ghost use Rattle.amf_answer_plan.specs.Says.{Says};
ghost use Rattle.amf_answer_plan.specs.Kept.{context_in, Fits, CommonFits, ContextFits, names_told};
ghost use Rattle.amf_answer_plan.specs.Replies.{context_of};

use crate::commands::{acknowledged, topic_of};
use crate::replies::error;
use amf_answer_plan::causes::no_form;
use amf_answer_plan::context::Context;
use amf_answer_plan::message_answer::MessageAnswer;
use amf_answer_plan::messages::stored_message;
use amf_answer_plan::numbers::number_in;
use amf_answer_plan::outside::{Outside, Unanswered};
use amf_broker::{Call, ClientId};
use amf_graph::Rooted;
use amf_wire::Name;
use flex_msgs::Common;
use std::alloc::Global;

/// Publishes a message of this moment, and answers by the desk's reply with what the request says.
fn publish_with<O: Outside>(
    alloc: Global,
    outside: &mut O,
    common: &Common,
    context: &Context,
    moment: u64,
    message: Name,
) -> Result<MessageAnswer, Unanswered>
    requires common { CommonFits common.now }
    requires context { context_in context.now ≡ context_of (names_told common.now) }
    requires fits { ContextFits (context_in context.now) }
    requires ready { O.may_call outside.old }
    ensures says { IfOk result (λ a. Says O.handed (publish_spelled_plan (names_told common.now) moment (Some message)) outside.old outside.new a) }
    ensures stopped { OnErr result (Stopped O.handed (publish_spelled_plan (names_told common.now) moment (Some message)) outside.old outside.new) }
{
    let topic = topic_of(alloc, common)?;
    let empty = Name::of_bytes(alloc, b"")?;
    let client = ClientId(number_in(&common.ds_id));
    let call = Call::Publish {
        client,
        topic,
        message,
    };
    let reply = outside.call(moment, call)?;
    Ok(acknowledged(alloc, outside, context, &empty, &reply)?)
}

/// Publishes a message of this moment, and answers by the desk's reply.
fn publish_message<O: Outside>(
    alloc: Global,
    outside: &mut O,
    common: &Common,
    moment: u64,
    message: Name,
) -> Result<MessageAnswer, Unanswered>
    requires common { CommonFits common.now }
    requires ready { O.may_call outside.old }
    ensures says { IfOk result (λ a. Says O.handed (publish_spelled_plan (names_told common.now) moment (Some message)) outside.old outside.new a) }
    ensures stopped { OnErr result (Stopped O.handed (publish_spelled_plan (names_told common.now) moment (Some message)) outside.old outside.new) }
{
    let context = Context::of(alloc, common)?;
    publish_with(alloc, outside, common, &context, moment, message)
}

/// Answers a message that has no spelling.
fn publish_nothing<O: Outside>(
    alloc: Global,
    outside: &mut O,
    common: &Common,
    moment: u64,
) -> Result<MessageAnswer, Unanswered>
    requires common { CommonFits common.now }
    ensures says { IfOk result (λ a. Says O.handed (publish_spelled_plan (names_told common.now) moment None) outside.old outside.new a) }
    ensures stopped { OnErr result (Stopped O.handed (publish_spelled_plan (names_told common.now) moment None) outside.old outside.new) }
{
    let context = Context::of(alloc, common)?;
    let fault = no_form(alloc)?;
    Ok(error(alloc, outside, &context, &fault)?)
}

/// Publishes a message with the moment now, in its canonical spelling. Where it has none, nothing is asked of the desk.
pub fn publish<O: Outside>(
    alloc: Global,
    outside: &mut O,
    graph: &Rooted,
    common: &Common,
    correlation: &Name,
) -> Result<MessageAnswer, Unanswered>
    requires common { IsCommon graph.now.arena common.now }
    requires fits { CommonFits common.now }
    requires correlation { Fits correlation.now }
    requires light { weight graph.now.arena ≤ 67108864 }
    requires ready { O.may_call outside.old }
    ensures says { IfOk result (λ a. Says O.handed (publish_plan (content graph.now) (told graph.now.arena common.now) correlation.now) outside.old outside.new a) }
    ensures stopped { OnErr result (Stopped O.handed (publish_plan (content graph.now) (told graph.now.arena common.now) correlation.now) outside.old outside.new) }
{
    let keys = outside.keys();
    let moment = outside.moment();
    match stored_message(alloc, keys, graph, common, correlation, moment)? {
        Some(message) => publish_message(alloc, outside, common, moment, message),
        None => publish_nothing(alloc, outside, common, moment),
    }
}
