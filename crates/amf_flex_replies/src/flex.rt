//! How a Flex request is answered: a message of a packet whose target is `null`.

ghost use Rattle.std.specs.Prelude.{◌≡◌, ◌≤◌, Some, None, IfOk, OnErr, IfSome, IsNone};
ghost use Rattle.amf_graph.specs.Arena.{Names, value_content};
ghost use Rattle.amf_graph.specs.Bounds.{weight};
ghost use Rattle.amf_graph.specs.Rooted.{content};
ghost use Rattle.amf_packet.specs.Content.{body_of};
ghost use Rattle.amf_packet.specs.PacketAnswer.{body_weight};
ghost use Rattle.flex_msgs.specs.Asked.{IsRequest};
ghost use Rattle.amf_answer_plan.specs.Services.{services_of};
ghost use Rattle.amf_answer_plan.specs.Causes.{bad_message as bad_message_cause};
ghost use Rattle.amf_answer_plan.specs.Did.{Stopped};
ghost use Rattle.amf_answer_plan.specs.Says.{Says};
ghost use Rattle.amf_flex_replies.specs.KeptRequests.{request_answer, value_answer};
ghost use Rattle.amf_answer_plan.specs.Flex.{flex as flex_plan, message_of};
ghost use Rattle.amf_answer_plan.specs.Kept.{RequestFits};
ghost use Rattle.amf_answer_plan.specs.Replies.{no_context, error as error_plan};

use crate::command::command;
use crate::publishing::publish;
use crate::remoting::remoting;
use crate::replies::error;
use amf_answer_plan::causes::bad_message;
use amf_answer_plan::context::Context;
use amf_answer_plan::message_answer::MessageAnswer;
use amf_answer_plan::outside::{Outside, Unanswered};
use amf_graph::{Rooted, Value};
use amf_packet::Body;
use amf_service::{Registry, one_item};
use flex_msgs::{NotAMessage, Request, view_value};
use std::alloc::Global;

/// The value that is the message, with its graph: the argument of a call, and of any other body the one item of an array
/// without names.
fn value_of(body: &Body) -> Option<(&Rooted, Value)>
    ensures graph { IfSome result (λ p. (body_of body.now).graph ≡ content p.0.now) }
    ensures value { IfSome result (λ p. message_of (body_of body.now).form (body_of body.now).graph ≡ Some (value_content p.0.now.arena p.1)) }
    ensures names { IfSome result (λ p. Names p.0.now.arena p.1) }
    ensures light { IfSome result (λ p. weight p.0.now.arena ≡ body_weight body.now) }
    ensures none { IsNone result → message_of (body_of body.now).form (body_of body.now).graph ≡ None }
{
    match body {
        Body::Call(graph) => {
            graph.is_finished();
            Some((graph, graph.root()))
        }
        Body::Amf3(graph) => Some((graph, one_item(graph)?)),
        Body::Plain(graph) => Some((graph, one_item(graph)?)),
    }
}

/// Answers what is no message that is served.
fn no_message<O: Outside>(alloc: Global, outside: &mut O) -> Result<MessageAnswer, Unanswered>
    ensures says { IfOk result (λ a. Says O.handed (error_plan no_context bad_message_cause) outside.old outside.new a) }
    ensures stopped { OnErr result (Stopped O.handed (error_plan no_context bad_message_cause) outside.old outside.new) }
{
    let context = Context::none(alloc)?;
    let fault = bad_message(alloc)?;
    Ok(error(alloc, outside, &context, &fault)?)
}

/// Answers a request by its class.
fn answer_flex_request<O: Outside>(
    alloc: Global,
    outside: &mut O,
    registry: &Registry,
    graph: &Rooted,
    request: &Request,
) -> Result<MessageAnswer, Unanswered>
    requires names { IsRequest graph.now.arena request.now }
    requires fits { RequestFits request.now }
    requires light { weight graph.now.arena ≤ 1048576 }
    requires ready { O.may_call outside.old }
    ensures says { IfOk result (λ a. Says O.handed (request_answer (services_of registry.now knows gives) graph.now request.now) outside.old outside.new a) }
    ensures stopped { OnErr result (Stopped O.handed (request_answer (services_of registry.now knows gives) graph.now request.now) outside.old outside.new) }
{
    match request {
        Request::Remoting { common, operation } => {
            let answer = remoting(alloc, outside, registry, graph, common, operation)?;
            Ok(answer)
        }
        Request::Command { common, operation } => {
            command(alloc, outside, graph, common, *operation)
        }
        Request::Async {
            common,
            correlation,
        } => publish(alloc, outside, graph, common, correlation),
    }
}

/// Answers the message that a value of a graph is.
fn answer_value<O: Outside>(
    alloc: Global,
    outside: &mut O,
    registry: &Registry,
    graph: &Rooted,
    value: Value,
) -> Result<MessageAnswer, Unanswered>
    requires names { Names graph.now.arena value }
    requires light { weight graph.now.arena ≤ 1048576 }
    requires ready { O.may_call outside.old }
    ensures says { IfOk result (λ a. Says O.handed (value_answer (services_of registry.now knows gives) graph.now value) outside.old outside.new a) }
    ensures stopped { OnErr result (Stopped O.handed (value_answer (services_of registry.now knows gives) graph.now value) outside.old outside.new) }
{
    graph.is_finished();
    match view_value(alloc, graph, value) {
        Ok(request) => answer_flex_request(alloc, outside, registry, graph, &request),
        Err(NotAMessage::NotObject) => no_message(alloc, outside),
        Err(NotAMessage::NotServed) => no_message(alloc, outside),
        Err(NotAMessage::WrongKind(_)) => no_message(alloc, outside),
        Err(NotAMessage::Memory) => Err(Unanswered::Memory),
    }
}

/// Answers a Flex request, which is the body of a message of a packet.
pub fn flex<O: Outside>(
    alloc: Global,
    outside: &mut O,
    registry: &Registry,
    body: &Body,
) -> Result<MessageAnswer, Unanswered>
    requires light { body_weight body.now ≤ 1048576 }
    requires ready { O.may_call outside.old }
    ensures says { IfOk result (λ a. Says O.handed (flex_plan (services_of registry.now knows gives) (body_of body.now)) outside.old outside.new a) }
    ensures stopped { OnErr result (Stopped O.handed (flex_plan (services_of registry.now knows gives) (body_of body.now)) outside.old outside.new) }
{
    match value_of(body) {
        Some((graph, value)) => answer_value(alloc, outside, registry, graph, value),
        None => no_message(alloc, outside),
    }
}
