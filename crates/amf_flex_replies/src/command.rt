//! How a CommandMessage is answered, by its operation.

ghost use Rattle.std.specs.Prelude.{◌≤◌, IfOk, OnErr};
ghost use Rattle.amf_graph.specs.Bounds.{weight};
ghost use Rattle.amf_graph.specs.Rooted.{content};
ghost use Rattle.flex_msgs.specs.Asked.{IsCommon, told};
ghost use Rattle.amf_answer_plan.specs.Causes.{not_served as not_served_cause};
ghost use Rattle.amf_answer_plan.specs.Commands.{command as command_plan};
ghost use Rattle.amf_answer_plan.specs.Did.{Stopped};
ghost use Rattle.amf_answer_plan.specs.Says.{Says};
ghost use Rattle.amf_answer_plan.specs.Kept.{context_in, CommonFits, ContextFits};
ghost use Rattle.amf_answer_plan.specs.Replies.{error as error_plan};

use crate::commands::{disconnect, ping, subscribe, unsubscribe};
use crate::polls::poll;
use crate::replies::error;
use amf_answer_plan::causes::not_served;
use amf_answer_plan::context::Context;
use amf_answer_plan::message_answer::MessageAnswer;
use amf_answer_plan::outside::{Outside, Unanswered};
use amf_graph::Rooted;
use flex_msgs::Common;
use std::alloc::Global;

/// Answers an operation that is not served.
fn other<O: Outside>(
    alloc: Global,
    outside: &mut O,
    context: &Context,
) -> Result<MessageAnswer, Unanswered>
    requires { ContextFits (context_in context.now) }
    ensures says { IfOk result (λ a. Says O.handed (error_plan (context_in context.now) not_served_cause) outside.old outside.new a) }
    ensures stopped { OnErr result (Stopped O.handed (error_plan (context_in context.now) not_served_cause) outside.old outside.new) }
{
    let fault = not_served(alloc)?;
    Ok(error(alloc, outside, context, &fault)?)
}

/// Answers a command by its operation.
pub fn command<O: Outside>(
    alloc: Global,
    outside: &mut O,
    graph: &Rooted,
    common: &Common,
    operation: i64,
) -> Result<MessageAnswer, Unanswered>
    requires common { IsCommon graph.now.arena common.now }
    requires fits { CommonFits common.now }
    requires light { weight graph.now.arena ≤ 1048576 }
    requires ready { O.may_call outside.old }
    ensures says { IfOk result (λ a. Says O.handed (command_plan (content graph.now) (told graph.now.arena common.now) operation) outside.old outside.new a) }
    ensures stopped { OnErr result (Stopped O.handed (command_plan (content graph.now) (told graph.now.arena common.now) operation) outside.old outside.new) }
{
    let context = Context::of(alloc, common)?;
    if operation == 0 {
        return subscribe(alloc, outside, common, &context);
    }
    if operation == 1 {
        return unsubscribe(alloc, outside, common, &context);
    }
    if operation == 2 {
        return poll(alloc, outside, graph, common, &context);
    }
    if operation == 5 {
        return ping(alloc, outside, common, context);
    }
    if operation == 12 {
        return disconnect(alloc, outside, common, &context);
    }
    other(alloc, outside, &context)
}
