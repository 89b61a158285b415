//! How plain remoting is answered: a message of a packet whose target names a service and an operation.

ghost use Rattle.std.specs.Prelude.{◌≡◌, ◌≤◌, ◌+◌, Some, IfOk};
ghost use Rattle.amf_graph.specs.Bounds.{weight};
ghost use Rattle.amf_graph.specs.Graph.{Graph};
ghost use Rattle.amf_graph.specs.Isomorphic.{Isomorphic};
ghost use Rattle.amf_graph.specs.Rooted.{content};
ghost use Rattle.amf_packet.specs.Content.{body_of};
ghost use Rattle.amf_packet.specs.PacketAnswer.{body_weight};
ghost use Rattle.amf_service.specs.Meaning.{Called, heaviest_arguments};
ghost use Rattle.amf_answer_plan.specs.Services.{services_of};
ghost use Rattle.amf_answer_plan.specs.Calls.{ForGraphsOf, ComesTo, AnswerFits};
ghost use Rattle.amf_plain_calls.specs.FoundForms.{FindsForm};
ghost use Rattle.amf_answer_plan.specs.Says.{AnswersMessage, Tells};
ghost use Rattle.amf_answer_plan.specs.Kept.{FaultFits};
ghost use Rattle.amf_answer_plan.specs.PlainCalls.{at_last_dot, in_array as array_of, as_items, body_arguments, reply_form as reply_form_of, failed as failed_answer, succeeded as succeeded_plan, outcome as outcome_plan, call as call_plan, plain_call as plain_plan};

use crate::faults::fault_graph;
use crate::target::Target;
use amf_answer_plan::arrays::add_array;
use amf_answer_plan::calling::{ServiceAnswer, call_service};
use amf_answer_plan::causes::{bad_message, no_form, no_service};
use amf_answer_plan::message_answer::MessageAnswer;
use amf_answer_plan::messages::finished;
use amf_graph::{Builder, Rooted};
use amf_packet::{Body, SpelledBody};
use amf_service::{Registry, items, kept};
use amf_wire::{Memory, Name};
use amf0_spelling::Form;
use flex_msgs::FaultText;
use std::alloc::Global;
use std::hash::RandomState;

/// The spelling of a graph in AMF 0 where it has one, and else that in AMF 3 if it has one there. It gives up where there is no
/// memory.
fn plain_spelling(
    alloc: Global,
    keys: Option<RandomState>,
    graph: &Rooted,
) -> Result<Option<SpelledBody>, Memory>
    ensures { IfOk result (FindsForm Form.Plain (content graph.now)) }
{
    let spelling = SpelledBody::of(alloc, keys, Form::Plain, graph)?;
    match spelling {
        Some(body) => Ok(Some(body)),
        None => SpelledBody::of(alloc, keys, Form::Amf3, graph),
    }
}

/// The spelling of a value that answers a request of this form, if it has one. It gives up where there is no memory.
fn spelling_for(
    alloc: Global,
    keys: Option<RandomState>,
    form: Form,
    graph: &Rooted,
) -> Result<Option<SpelledBody>, Memory>
    ensures { IfOk result (FindsForm form (content graph.now)) }
{
    match form {
        Form::Plain => plain_spelling(alloc, keys, graph),
        Form::Amf3 => SpelledBody::of(alloc, keys, Form::Amf3, graph),
        Form::Call => SpelledBody::of(alloc, keys, Form::Amf3, graph),
    }
}

/// The form of a fault that answers a request of this form.
fn reply_form(form: Form) -> Form
    ensures { result ≡ reply_form_of form }
{
    match form {
        Form::Plain => Form::Plain,
        Form::Amf3 | Form::Call => Form::Amf3,
    }
}

/// The answer with this cause. It gives up where there is no memory.
fn failed(alloc: Global, form: Form, fault: &FaultText) -> Result<MessageAnswer, Memory>
    requires { FaultFits fault.now }
    ensures { IfOk result (λ x. AnswersMessage x (failed_answer form fault.now)) }
{
    let graph = fault_graph(alloc, fault)?;
    let body = SpelledBody::of_whole(alloc, reply_form(form), &graph)?;
    Ok(MessageAnswer { well: false, body })
}

/// The answer with this result, or where it has no spelling the one that says so. It gives up where there is no memory.
fn succeeded(
    alloc: Global,
    keys: Option<RandomState>,
    form: Form,
    graph: &Rooted,
) -> Result<MessageAnswer, Memory>
    ensures { IfOk result (λ x. (g : Graph) → Isomorphic g (content graph.now) → Tells (succeeded_plan form g) x) }
{
    let found = spelling_for(alloc, keys, form, graph)?;
    match found {
        Some(body) => Ok(MessageAnswer { well: true, body }),
        None => {
            let fault = no_form(alloc)?;
            failed(alloc, form, &fault)
        }
    }
}

/// What is answered of a call. It gives up where there is no memory.
fn outcome(
    alloc: Global,
    keys: Option<RandomState>,
    form: Form,
    answer: &ServiceAnswer,
) -> Result<MessageAnswer, Memory>
    requires { AnswerFits answer.now }
    ensures { IfOk result (λ x. (c : Called) → ComesTo c answer.now → Tells (outcome_plan form c) x) }
{
    match answer {
        ServiceAnswer::Gave(graph) => succeeded(alloc, keys, form, graph),
        ServiceAnswer::Failed(fault) => failed(alloc, form, fault),
    }
}

/// Calls with these arguments. It gives up where there is no memory.
fn call(
    alloc: Global,
    keys: Option<RandomState>,
    registry: &Registry,
    form: Form,
    target: &Target,
    args: &Rooted,
) -> Result<MessageAnswer, Memory>
    requires { weight args.now.arena ≤ heaviest_arguments }
    ensures { IfOk result (λ x. ForGraphsOf args.now (λ g. Tells (call_plan (services_of registry.now knows gives) form target.now (Some g)) x)) }
{
    let answer = call_service(alloc, registry, &target.service, &target.operation, args)?;
    outcome(alloc, keys, form, &answer)
}

/// An array whose one item is the root of a graph. It gives up where there is no memory.
fn in_array(alloc: Global, graph: &Rooted) -> Result<Rooted, Memory>
    requires { weight graph.now.arena ≤ 1048576 }
    ensures same { IfOk result (λ args. Isomorphic (array_of (content graph.now)) (content args)) }
    ensures light { IfOk result (λ args. weight args.arena ≤ weight graph.now.arena + 2) }
{
    graph.is_finished();
    let mut builder = Builder::beside(alloc, graph)?;
    let item = kept(builder.graft(graph))?;
    let array = add_array(&mut builder, &[item])?;
    Ok(finished(builder, array))
}

/// Calls with a graph as arguments, where it is an array without names. It gives up where there is no memory.
fn call_with_items(
    alloc: Global,
    keys: Option<RandomState>,
    registry: &Registry,
    form: Form,
    target: &Target,
    graph: &Rooted,
) -> Result<MessageAnswer, Memory>
    requires { weight graph.now.arena ≤ heaviest_arguments }
    ensures { IfOk result (λ x. Tells (call_plan (services_of registry.now knows gives) form target.now (as_items (content graph.now))) x) }
{
    graph.is_finished();
    match items(graph) {
        Some(_) => call(alloc, keys, registry, form, target, graph),
        None => {
            let fault = bad_message(alloc)?;
            failed(alloc, form, &fault)
        }
    }
}

/// Calls with the arguments that a body is. It gives up where there is no memory.
fn call_with_body(
    alloc: Global,
    keys: Option<RandomState>,
    registry: &Registry,
    target: &Target,
    body: &Body,
) -> Result<MessageAnswer, Memory>
    requires { body_weight body.now ≤ 1048576 }
    ensures { IfOk result (λ x. Tells (call_plan (services_of registry.now knows gives) (body_of body.now).form target.now (body_arguments (body_of body.now))) x) }
{
    match body {
        Body::Call(graph) => {
            graph.is_finished();
            let args = in_array(alloc, graph)?;
            call(alloc, keys, registry, Form::Call, target, &args)
        }
        Body::Amf3(graph) => call_with_items(alloc, keys, registry, Form::Amf3, target, graph),
        Body::Plain(graph) => call_with_items(alloc, keys, registry, Form::Plain, target, graph),
    }
}

/// Answers a call that names a service and an operation by its target. The target's cause goes before that of the arguments.
/// It gives up where there is no memory.
pub fn plain_call(
    alloc: Global,
    keys: Option<RandomState>,
    registry: &Registry,
    uri: &Name,
    body: &Body,
) -> Result<MessageAnswer, Memory>
    requires { body_weight body.now ≤ 1048576 }
    ensures { IfOk result (λ x. Tells (plain_plan (services_of registry.now knows gives) (body_of body.now) (at_last_dot uri.now)) x) }
{
    let target = Target::of(alloc, uri)?;
    match target {
        Some(target) => call_with_body(alloc, keys, registry, &target, body),
        None => {
            let fault = no_service(alloc)?;
            failed(alloc, body.form(), &fault)
        }
    }
}
