//! The graphs of the messages that are answered.

ghost use Rattle.std.specs.Prelude.{◌≡◌, ◌≤◌, false, IfOk};
ghost use Rattle.std.specs.List.{AllByRecursion};
ghost use Rattle.amf_graph.specs.Arena.{Names, IsFinished};
ghost use Rattle.amf_graph.specs.Bounds.{weight};
ghost use Rattle.amf_graph.specs.Graph.{Graph};
ghost use Rattle.amf_graph.specs.Isomorphic.{Isomorphic};
ghost use Rattle.amf_graph.specs.Rooted.{content};
ghost use Rattle.amf_graph.specs.declared.value.Value.TheVariants.{Null};
ghost use Rattle.flex_msgs.specs.Answers.{error_graph, acknowledge_graph, published_graph};
ghost use Rattle.flex_msgs.specs.Asked.{IsCommon, told};
ghost use Rattle.flex_msgs.specs.Built.{IsReply, IsShortReply};
ghost use Rattle.flex_msgs.specs.Messages.{null_value};
ghost use Rattle.amf_answer_plan.specs.Kept.{Fits, FaultFits, CommonFits};
ghost use Rattle.amf_answer_plan.specs.Plan.{whole};
ghost use Rattle.amf_answer_plan.specs.Replies.{no_nodes};
ghost use Rattle.amf_answer_plan.specs.Runs.{Finds, IsSpelling};

use amf_graph::{Builder, Rooted, Value, WriteEnd};
use amf_service::kept;
use amf_wire::{Memory, Name};
use amf3_write::write3_keyed;
use flex_msgs::{Common, FaultText, Reply, acknowledge, error, published};
use std::alloc::Global;
use std::hash::RandomState;

/// The graph that a builder holds, all of whose nodes are closed.
pub fn finished(builder: Builder, root: Value) -> Rooted
    requires closed { AllByRecursion (λ n. n.is_open ≡ false) builder.nodes }
    requires names { Names builder root }
    ensures graph { result ≡ record { arena = builder; root = root } }
    ensures finished { IsFinished builder }
{
    match builder.finish(root) {
        Ok(graph) => graph,
        Err(_) => unreachable!(),
    }
}

/// The graph of an ErrorMessage. It gives up where there is no memory.
pub fn error_of(alloc: Global, reply: &Reply, fault: &FaultText) -> Result<Rooted, Memory>
    requires texts { IsReply reply.now }
    requires short { IsShortReply reply.now }
    requires fault { FaultFits fault.now }
    ensures { IfOk result (λ graph. Isomorphic (error_graph reply.now fault.now) (content graph)) }
{
    let mut builder = Builder::new(alloc)?;
    let message = kept(error(alloc, &mut builder, reply, fault))?;
    Ok(finished(builder, message))
}

/// The graph of an AcknowledgeMessage whose body is null. It gives up where there is no memory.
pub fn acknowledge_of(alloc: Global, reply: &Reply) -> Result<Rooted, Memory>
    requires texts { IsReply reply.now }
    requires short { IsShortReply reply.now }
    requires body { reply.now.body ≡ Null }
    ensures { IfOk result (λ graph. Isomorphic (acknowledge_graph reply.now no_nodes null_value) (content graph)) }
{
    let mut builder = Builder::new(alloc)?;
    let message = kept(acknowledge(alloc, &mut builder, reply))?;
    Ok(finished(builder, message))
}

/// The graph of an AcknowledgeMessage whose body is the root of another graph. It gives up where there is no memory.
pub fn acknowledge_with(alloc: Global, reply: &mut Reply, value: &Rooted) -> Result<Rooted, Memory>
    requires texts { IsReply reply.old }
    requires short { IsShortReply reply.old }
    requires body { reply.old.body ≡ Null }
    requires light { weight value.now.arena ≤ 67108864 }
    ensures graph { IfOk result (λ graph. Isomorphic (acknowledge_graph reply.old (content value.now) (content value.now).root) (content graph)) }
    ensures same { reply.new ≡ reply.old }
{
    value.is_finished();
    let mut builder = Builder::beside(alloc, value)?;
    let body = kept(builder.graft(value))?;
    reply.body = body;
    let added = acknowledge(alloc, &mut builder, reply);
    reply.body = Value::Null;
    let message = kept(added)?;
    Ok(finished(builder, message))
}

/// The graph of the message that is stored of one that is published. It gives up where there is no memory.
fn published_of(
    alloc: Global,
    graph: &Rooted,
    common: &Common,
    correlation: &Name,
    moment: u64,
) -> Result<Rooted, Memory>
    requires common { IsCommon graph.now.arena common.now }
    requires fits { CommonFits common.now }
    requires correlation { Fits correlation.now }
    requires light { weight graph.now.arena ≤ 67108864 }
    ensures { IfOk result (λ built. Isomorphic (published_graph (content graph.now) (told graph.now.arena common.now) correlation.now moment) (content built)) }
{
    graph.is_finished();
    let mut builder = Builder::beside(alloc, graph)?;
    let added = published(alloc, &mut builder, common, graph, correlation, moment);
    let message = kept(added)?;
    Ok(finished(builder, message))
}

/// The canonical spelling of a graph in AMF 3, if it has one. It gives up where there is no memory.
fn spelling_of(
    alloc: Global,
    keys: Option<RandomState>,
    graph: &Rooted,
) -> Result<Option<Name>, Memory>
    ensures { IfOk result (λ b. (g : Graph) → Isomorphic g (content graph.now) → Finds (IsSpelling whole g) b) }
{
    let mut bytes = Vec::new(alloc);
    match write3_keyed(alloc, keys, graph, &mut bytes) {
        Ok(()) => Ok(Some(Name::of_bytes(alloc, bytes.as_slice())?)),
        Err(WriteEnd::NoSpelling(_)) => Ok(None),
        Err(WriteEnd::Memory) => Err(Memory),
    }
}

/// The bytes of the message that is stored of one that is published, if it has a spelling. It gives up where there is no memory.
pub fn stored_message(
    alloc: Global,
    keys: Option<RandomState>,
    graph: &Rooted,
    common: &Common,
    correlation: &Name,
    moment: u64,
) -> Result<Option<Name>, Memory>
    requires common { IsCommon graph.now.arena common.now }
    requires fits { CommonFits common.now }
    requires correlation { Fits correlation.now }
    requires light { weight graph.now.arena ≤ 67108864 }
    ensures { IfOk result (λ m. Finds (IsSpelling whole (published_graph (content graph.now) (told graph.now.arena common.now) correlation.now moment)) m) }
{
    let built = published_of(alloc, graph, common, correlation, moment)?;
    spelling_of(alloc, keys, &built)
}
