//! How replies to Flex requests are written.

ghost use Rattle.std.specs.Prelude.{◌≡◌, IfOk, OnErr};
ghost use Rattle.amf_graph.specs.Graph.{Graph};
ghost use Rattle.amf_graph.specs.Isomorphic.{Isomorphic};
ghost use Rattle.amf_graph.specs.Rooted.{content};
ghost use Rattle.amf_graph.specs.declared.value.Value.TheVariants.{Null};
ghost use Rattle.flex_msgs.specs.Built.{IsReply, IsShortReply};
ghost use Rattle.amf_answer_plan.specs.Did.{Ran, Stopped};
ghost use Rattle.amf_answer_plan.specs.Says.{AnswersMessage, Tells, Says};
ghost use Rattle.amf_packet.specs.SpelledBodies.{IsBodySpelledAlike, TellsSpelling};
ghost use Rattle.flex_msgs.specs.Answers.{error_graph};
ghost use Rattle.amf_answer_plan.specs.Kept.{context_in, Fits, ContextFits, FaultFits};
ghost use Rattle.amf_answer_plan.specs.Replies.{reply_with, fresh as fresh_plan, failed as failed_answer, answered as answered_plan, error as error_plan, acknowledge_null as acknowledge_null_plan};

use amf_answer_plan::causes::no_form;
use amf_answer_plan::context::Context;
use amf_answer_plan::message_answer::MessageAnswer;
use amf_answer_plan::messages::{acknowledge_of, error_of};
use amf_answer_plan::numbers::identifier;
use amf_answer_plan::outside::Outside;
use amf_graph::{Rooted, Value};
use amf_packet::SpelledBody;
use amf_wire::{Memory, Name};
use amf0_spelling::Form;
use flex_msgs::{FaultText, Reply};
use std::alloc::Global;
use std::hash::RandomState;

/// A reply of these words and this moment. It gives up where there is no memory.
fn reply_of(
    alloc: Global,
    context: &Context,
    client: &Name,
    high: u64,
    low: u64,
    moment: u64,
) -> Result<Reply, Memory>
    ensures { IfOk result (λ r. r ≡ reply_with (context_in context.now) client.now high low moment) }
{
    Ok(Reply {
        body: Value::Null,
        client: client.copy(alloc)?,
        destination: context.destination.copy(alloc)?,
        ds_id: context.ds_id.copy(alloc)?,
        message: identifier(alloc, high, low)?,
        moment,
        correlation: context.correlation.copy(alloc)?,
    })
}

/// A reply of fresh words and of the moment now. It gives up where there is no memory.
pub fn fresh<O: Outside>(
    alloc: Global,
    outside: &mut O,
    context: &Context,
    client: &Name,
) -> Result<Reply, Memory>
    requires context { ContextFits (context_in context.now) }
    requires client { Fits client.now }
    ensures ran { IfOk result (λ r. Ran O.handed (fresh_plan (context_in context.now) client.now) outside.old outside.new r) }
    ensures texts { IfOk result (λ r. IsReply r) }
    ensures short { IfOk result (λ r. IsShortReply r) }
    ensures body { IfOk result (λ r. r.body ≡ Null) }
    ensures stopped { OnErr result (Stopped O.handed (fresh_plan (context_in context.now) client.now) outside.old outside.new) }
{
    let high = outside.word();
    let low = outside.word();
    let moment = outside.moment();
    reply_of(alloc, context, client, high, low, moment)
}

/// The spelling of the error with this cause. It gives up where there is no memory.
fn error_body(alloc: Global, reply: &Reply, fault: &FaultText) -> Result<SpelledBody, Memory>
    requires texts { IsReply reply.now }
    requires short { IsShortReply reply.now }
    requires fault { FaultFits fault.now }
    ensures { IfOk result (IsBodySpelledAlike (record { form = Form.Amf3; graph = error_graph reply.now fault.now })) }
{
    let graph = error_of(alloc, reply, fault)?;
    SpelledBody::of_whole(alloc, Form::Amf3, &graph)
}

/// The error with this cause in the place of a reply. It gives up where there is no memory.
pub fn failed(alloc: Global, mut reply: Reply, fault: &FaultText) -> Result<MessageAnswer, Memory>
    requires texts { IsReply reply }
    requires short { IsShortReply reply }
    requires fault { FaultFits fault.now }
    ensures { IfOk result (λ a. AnswersMessage a (failed_answer reply fault.now)) }
{
    reply.client = Name::of_bytes(alloc, b"")?;
    let body = error_body(alloc, &reply, fault)?;
    Ok(MessageAnswer { well: false, body })
}

/// The spelling in AMF 3 of a graph that is then let go, if it has one. It gives up where there is no memory.
fn spelling_of(
    alloc: Global,
    keys: Option<RandomState>,
    graph: Rooted,
) -> Result<Option<SpelledBody>, Memory>
    ensures { IfOk result (TellsSpelling Form.Amf3 (content graph)) }
{
    SpelledBody::of(alloc, keys, Form::Amf3, &graph)
}

/// The answer with this graph, or where it has no spelling the error that says so. It gives up where there is no memory.
pub fn answered(
    alloc: Global,
    keys: Option<RandomState>,
    reply: Reply,
    graph: Rooted,
) -> Result<MessageAnswer, Memory>
    requires texts { IsReply reply }
    requires short { IsShortReply reply }
    ensures { IfOk result (λ a. (g : Graph) → Isomorphic g (content graph) → Tells (answered_plan reply g) a) }
{
    let spelling = spelling_of(alloc, keys, graph)?;
    match spelling {
        Some(body) => Ok(MessageAnswer { well: true, body }),
        None => failed(alloc, reply, &no_form(alloc)?),
    }
}

/// An error with a fresh reply's words and moment. It gives up where there is no memory.
pub fn error<O: Outside>(
    alloc: Global,
    outside: &mut O,
    context: &Context,
    fault: &FaultText,
) -> Result<MessageAnswer, Memory>
    requires context { ContextFits (context_in context.now) }
    requires fault { FaultFits fault.now }
    ensures says { IfOk result (λ a. Says O.handed (error_plan (context_in context.now) fault.now) outside.old outside.new a) }
    ensures stopped { OnErr result (Stopped O.handed (error_plan (context_in context.now) fault.now) outside.old outside.new) }
{
    let empty = Name::of_bytes(alloc, b"")?;
    let reply = fresh(alloc, outside, context, &empty)?;
    failed(alloc, reply, fault)
}

/// An acknowledge whose body is null. It gives up where there is no memory.
pub fn acknowledge_null<O: Outside>(
    alloc: Global,
    outside: &mut O,
    context: &Context,
    client: &Name,
) -> Result<MessageAnswer, Memory>
    requires context { ContextFits (context_in context.now) }
    requires client { Fits client.now }
    ensures says { IfOk result (λ a. Says O.handed (acknowledge_null_plan (context_in context.now) client.now) outside.old outside.new a) }
    ensures stopped { OnErr result (Stopped O.handed (acknowledge_null_plan (context_in context.now) client.now) outside.old outside.new) }
{
    let keys = outside.keys();
    let reply = fresh(alloc, outside, context, client)?;
    let graph = acknowledge_of(alloc, &reply)?;
    answered(alloc, keys, reply, graph)
}
