ghost use Rattle.std.specs.Prelude.{◌<◌, length, IfOk};
ghost use Rattle.amf_graph.specs.Order.{IsOrder};
ghost use Rattle.amf_graph.specs.Rooted.{content};
ghost use Rattle.amf0_spelling.specs.Lacks0.{Lacks0};
ghost use Rattle.amf0_spelling.specs.Met.{all_met};
ghost use Rattle.amf0_write.specs.PartLacks0.{TellsLackOutside};
ghost use Rattle.amf0_write.specs.Meetings.{AreMarked, IsReasonAt, TellsFirst};

use crate::meetings::met_again;
use crate::nodes::{enters, has_no_form, has_short_names, is_loose};
use crate::values::FAR;
use amf_graph::{Lack, LackKind, NodeId, Rooted};
use amf_iso::Numbering;
use amf_wire::Memory;
use std::alloc::Global;

/// The first reason why a node has no canonical spelling, if there is one. `place` is its place among the nodes that an index
/// can name, if it is one of those.
fn reason(node: NodeId, place: u32, is_again: bool, graph: &Rooted) -> Option<LackKind>
    requires { node.0 < length graph.now.arena.nodes }
    ensures { IsReasonAt (content graph.now) node.0 place is_again result }
{
    let view = graph.node(node);
    if has_no_form(node, view, graph) {
        Some(LackKind::NoForm)
    } else if !has_short_names(node, view, graph) {
        Some(LackKind::LongName)
    } else if !is_again {
        None
    } else if is_loose(node, graph) {
        Some(LackKind::Shared)
    } else if place >= FAR {
        Some(LackKind::FarReference)
    } else {
        None
    }
}

/// The first of the lacks, if there is one: of the least canonical number, and there the first reason.
fn first_of(numbering: &Numbering, again: &[bool], outside: u32, graph: &Rooted) -> Option<Lack>
    requires order { IsOrder (content graph.now) numbering.now }
    requires again { AreMarked (length graph.now.arena.nodes) (all_met (content graph.now) numbering.now) again.now }
    ensures { TellsFirst (Lacks0 (content graph.now) outside numbering.now) result }
{
    graph.is_finished();
    let mut entered: u32 = 0;
    for number in 0..numbering.count() {
        let node = numbering.node_at(number);
        let place = entered.saturating_sub(outside);
        if let Some(kind) = reason(node, place, again[node.0 as usize], graph) {
            return Some(Lack { kind, node: number });
        }
        if enters(node, graph) {
            entered += 1;
        }
    }
    None
}

/// The first lack of a lowered graph, if it has one (1.3.1, 2.9), where of the arrays and objects the first so many in
/// canonical order are in no table: none of them in a message, and one in a file, whose pairs are the members of an object
/// that is not written itself. It gives up where there is no memory.
pub fn first_lack0(alloc: Global, graph: &Rooted, outside: u32) -> Result<Option<Lack>, Memory>
    ensures { IfOk result (TellsLackOutside (content graph.now) outside) }
{
    let numbering = Numbering::of(alloc, graph)?;
    let again = met_again(alloc, &numbering, graph)?;
    Ok(first_of(&numbering, &again, outside, graph))
}
