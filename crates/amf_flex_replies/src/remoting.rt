//! How a RemotingMessage is answered: by a call of the service that its destination names.

ghost use Rattle.std.specs.Prelude.{◌≡◌, ◌≤◌, true, false, List, Some, None, IfOk, IfSome, OnErr};
ghost use Rattle.amf_graph.specs.Arena.{Names, value_content};
ghost use Rattle.amf_graph.specs.Bounds.{weight};
ghost use Rattle.amf_graph.specs.Graph.{Graph, Value as ValueContent};
ghost use Rattle.amf_graph.specs.Isomorphic.{Isomorphic};
ghost use Rattle.amf_graph.specs.Rooted.{content};
ghost use Rattle.flex_msgs.specs.Asked.{IsCommon};
ghost use Rattle.amf_service.specs.Meaning.{Called, heaviest_arguments, heaviest_result};
ghost use Rattle.amf_service.specs.Shipped.{items_of};
ghost use Rattle.amf_answer_plan.specs.Services.{services_of};
ghost use Rattle.amf_answer_plan.specs.Calls.{ComesTo, AnswerFits};
ghost use Rattle.amf_flex_replies.specs.KeptArguments.{KeepsArguments, IsArgument};
ghost use Rattle.amf_flex_replies.specs.KeptRequests.{remoting_answer, acknowledge_root, SaysCallWith, StopsCallWith, SaysCallIf, StopsCallIf};
ghost use Rattle.amf_answer_plan.specs.Causes.{bad_message as bad_message_cause};
ghost use Rattle.amf_answer_plan.specs.Did.{Stopped};
ghost use Rattle.amf_answer_plan.specs.Says.{Says};
ghost use Rattle.amf_answer_plan.specs.Kept.{context_in, ContextFits, CommonFits};
ghost use Rattle.amf_answer_plan.specs.Remoting.{empty_arguments, arguments as arguments_of, outcome as outcome_plan};
ghost use Rattle.amf_answer_plan.specs.Replies.{error as error_plan};

use crate::replies::{answered, error, fresh};
use amf_answer_plan::arrays::add_array;
use amf_answer_plan::calling::{ServiceAnswer, call_service};
use amf_answer_plan::causes::bad_message;
use amf_answer_plan::context::Context;
use amf_answer_plan::message_answer::MessageAnswer;
use amf_answer_plan::messages::{acknowledge_with, finished};
use amf_answer_plan::outside::Outside;
use amf_graph::{Builder, Rooted, Value};
use amf_service::{Registry, copied, items};
use amf_wire::{Memory, Name};
use flex_msgs::Common;
use std::alloc::Global;

/// An array of nothing. It gives up where there is no memory.
fn empty_array(alloc: Global) -> Result<Rooted, Memory>
    ensures graph { IfOk result (λ args. content args ≡ empty_arguments) }
    ensures light { IfOk result (λ args. weight args.arena ≤ heaviest_arguments) }
{
    let mut builder = Builder::new(alloc)?;
    let array = add_array(&mut builder, &[])?;
    Ok(finished(builder, array))
}

/// A copy of the value of a graph that is to be the arguments: null is the empty array. It gives up where there is no memory.
fn argument_of(alloc: Global, graph: &Rooted, body: Value) -> Result<Rooted, Memory>
    requires names { Names graph.now.arena body }
    requires light { weight graph.now.arena ≤ heaviest_arguments }
    ensures args { IfOk result (λ args. IsArgument (content graph.now) graph.now.arena body args) }
    ensures light { IfOk result (λ args. weight args.arena ≤ heaviest_arguments) }
{
    match body {
        Value::Null => empty_array(alloc),
        _ => copied(alloc, graph, body),
    }
}

/// Whether the arguments are an array without names.
fn has_items(args: &Rooted) -> bool
    ensures some { result ≡ true → (vs : List ValueContent) × (items_of (content args.now) ≡ Some vs) }
    ensures none { result ≡ false → items_of (content args.now) ≡ None }
{
    items(args).is_some()
}

/// The arguments that the body of a request is, where it is null or an array without names. It gives up where there is no
/// memory.
fn arguments(alloc: Global, graph: &Rooted, body: Value) -> Result<Option<Rooted>, Memory>
    requires names { Names graph.now.arena body }
    requires light { weight graph.now.arena ≤ heaviest_arguments }
    ensures args { IfOk result (λ args. KeepsArguments (arguments_of (content graph.now) (value_content graph.now.arena body)) args) }
    ensures light { IfOk result (λ args. IfSome args (λ args. weight args.arena ≤ heaviest_arguments)) }
{
    graph.is_finished();
    let args = argument_of(alloc, graph, body)?;
    args.is_finished();
    Ok(has_items(&args).then_some(args))
}

/// An acknowledge whose body is the root of a graph. It gives up where there is no memory.
fn acknowledge<O: Outside>(
    alloc: Global,
    outside: &mut O,
    context: &Context,
    value: &Rooted,
) -> Result<MessageAnswer, Memory>
    requires context { ContextFits (context_in context.now) }
    requires light { weight value.now.arena ≤ heaviest_result }
    ensures says { IfOk result (λ a. (g : Graph) → Isomorphic g (content value.now) → Says O.handed (acknowledge_root context.now g) outside.old outside.new a) }
    ensures stopped { OnErr result ((g : Graph) → Stopped O.handed (acknowledge_root context.now g) outside.old outside.new) }
{
    let empty = Name::of_bytes(alloc, b"")?;
    let keys = outside.keys();
    let mut reply = fresh(alloc, outside, context, &empty)?;
    let graph = acknowledge_with(alloc, &mut reply, value)?;
    answered(alloc, keys, reply, graph)
}

/// What is said of a call. It gives up where there is no memory.
fn say_called<O: Outside>(
    alloc: Global,
    outside: &mut O,
    context: &Context,
    answer: &ServiceAnswer,
) -> Result<MessageAnswer, Memory>
    requires context { ContextFits (context_in context.now) }
    requires answer { AnswerFits answer.now }
    ensures says { IfOk result (λ a. (c : Called) → ComesTo c answer.now → Says O.handed (outcome_plan (context_in context.now) c) outside.old outside.new a) }
    ensures stopped { OnErr result ((c : Called) → ComesTo c answer.now → Stopped O.handed (outcome_plan (context_in context.now) c) outside.old outside.new) }
{
    match answer {
        ServiceAnswer::Gave(graph) => acknowledge(alloc, outside, context, graph),
        ServiceAnswer::Failed(fault) => error(alloc, outside, context, fault),
    }
}

/// The error of what has no list of arguments. It gives up where there is no memory.
fn say_no_arguments<O: Outside>(
    alloc: Global,
    outside: &mut O,
    context: &Context,
) -> Result<MessageAnswer, Memory>
    requires { ContextFits (context_in context.now) }
    ensures says { IfOk result (λ a. Says O.handed (error_plan (context_in context.now) bad_message_cause) outside.old outside.new a) }
    ensures stopped { OnErr result (Stopped O.handed (error_plan (context_in context.now) bad_message_cause) outside.old outside.new) }
{
    let fault = bad_message(alloc)?;
    error(alloc, outside, context, &fault)
}

/// Calls a service with these arguments, and says what comes of it. It gives up where there is no memory.
fn call_with<O: Outside>(
    alloc: Global,
    outside: &mut O,
    registry: &Registry,
    context: &Context,
    service: &Name,
    operation: &Name,
    args: &Rooted,
) -> Result<MessageAnswer, Memory>
    requires context { ContextFits (context_in context.now) }
    requires light { weight args.now.arena ≤ heaviest_arguments }
    ensures says { IfOk result (λ a. SaysCallWith O.handed (services_of registry.now knows gives) context.now service.now operation.now args.now outside.old outside.new a) }
    ensures stopped { OnErr result (StopsCallWith O.handed (services_of registry.now knows gives) context.now service.now operation.now args.now outside.old outside.new) }
{
    let answer = call_service(alloc, registry, service, operation, args)?;
    say_called(alloc, outside, context, &answer)
}

/// Calls a service where there are arguments, and says what comes of it. It gives up where there is no memory.
fn call_if<O: Outside>(
    alloc: Global,
    outside: &mut O,
    registry: &Registry,
    context: &Context,
    service: &Name,
    operation: &Name,
    args: &Option<Rooted>,
) -> Result<MessageAnswer, Memory>
    requires context { ContextFits (context_in context.now) }
    requires light { IfSome args.now (λ args. weight args.arena ≤ heaviest_arguments) }
    ensures says { IfOk result (λ a. SaysCallIf O.handed (services_of registry.now knows gives) context.now service.now operation.now args.now outside.old outside.new a) }
    ensures stopped { OnErr result (StopsCallIf O.handed (services_of registry.now knows gives) context.now service.now operation.now args.now outside.old outside.new) }
{
    match args {
        Some(args) => call_with(alloc, outside, registry, context, service, operation, args),
        None => say_no_arguments(alloc, outside, context),
    }
}

/// Calls the service that the destination names, and says what comes of it. What is no list of arguments goes before a
/// service that there is not. It gives up where there is no memory.
pub fn remoting<O: Outside>(
    alloc: Global,
    outside: &mut O,
    registry: &Registry,
    graph: &Rooted,
    common: &Common,
    operation: &Name,
) -> Result<MessageAnswer, Memory>
    requires common { IsCommon graph.now.arena common.now }
    requires fits { CommonFits common.now }
    requires light { weight graph.now.arena ≤ heaviest_arguments }
    ensures says { IfOk result (λ a. Says O.handed (remoting_answer (services_of registry.now knows gives) graph.now common.now operation.now) outside.old outside.new a) }
    ensures stopped { OnErr result (Stopped O.handed (remoting_answer (services_of registry.now knows gives) graph.now common.now operation.now) outside.old outside.new) }
{
    let context = Context::of(alloc, common)?;
    let args = arguments(alloc, graph, common.body)?;
    call_if(
        alloc,
        outside,
        registry,
        &context,
        &common.destination,
        operation,
        &args,
    )
}
