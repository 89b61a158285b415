ghost use Rattle.std.specs.Prelude.{◌≡◌, ◌<◌, ◌++◌, length, map, IfOk, OnOk};
ghost use Rattle.amf_graph.specs.Graph.{node_at};
ghost use Rattle.amf_graph.specs.Order.{values_met};
ghost use Rattle.amf_graph.specs.Rooted.{content};
ghost use Rattle.amf_graph.specs.Views.{flat};
ghost use Rattle.amf_iso.specs.Contents.{values_of, AreValues, ArePairs};
ghost use Rattle.amf_iso.specs.Behind.{AreBehind};

use crate::pairs::{are_by_name, ids_by_name};
use amf_graph::{NodeId, NodeView, Rooted, TextId, Value};
use amf_wire::Memory;
use std::alloc::Global;

/// Appends the values of pairs.
fn push_seconds(pairs: &[(TextId, Value)], values: &mut Vec<Value>) -> Result<(), Memory>
    ensures { OnOk result (values.new.items ≡ values.old.items ++ map (λ p. p.1) pairs.now) }
{
    for (_, value) in pairs {
        values.push(*value)?;
    }
    Ok(())
}

/// Appends the values of pairs in by-name order. Where the pairs stand in it already, no other list is made.
fn push_by_name(
    alloc: Global,
    pairs: &[(TextId, Value)],
    graph: &Rooted,
    values: &mut Vec<Value>,
) -> Result<(), Memory>
    requires { ArePairs graph.now.arena pairs.now }
    ensures { OnOk result (AreBehind graph.now.arena pairs.now values.old.items values.new.items) }
{
    if are_by_name(pairs, graph) {
        return push_seconds(pairs, values);
    }
    let sorted = ids_by_name(alloc, pairs, graph)?;
    push_seconds(&sorted, values)
}

/// Appends each key and then its value.
fn push_entries(entries: &[(Value, Value)], values: &mut Vec<Value>) -> Result<(), Memory>
    ensures { OnOk result (values.new.items ≡ values.old.items ++ flat entries.now) }
{
    for (key, value) in entries {
        values.push(*key)?;
        values.push(*value)?;
    }
    Ok(())
}

/// The values of a node in the order in which they are met: named pairs in by-name order, an array's before its items, an
/// object's members behind its sealed values. The node is the graph's. It gives up where there is no memory.
pub fn values_met(alloc: Global, node: NodeId, graph: &Rooted) -> Result<Vec<Value>, Memory>
    requires { node.0 < length graph.now.arena.nodes }
    ensures values { IfOk result (λ met. values_of graph.now.arena met.items ≡ values_met (node_at (content graph.now) node.0)) }
    ensures names { IfOk result (λ met. AreValues graph.now.arena met.items) }
{
    graph.is_finished();
    let mut met = Vec::new(alloc);
    match graph.node(node) {
        NodeView::Array { items, names } => {
            push_by_name(alloc, names, graph, &mut met)?;
            met.extend_from_slice(items)?;
        }
        NodeView::Object {
            sealed,
            members,
            ..
        } => {
            met.extend_from_slice(sealed)?;
            push_by_name(alloc, members, graph, &mut met)?;
        }
        NodeView::Wrapper { value, .. } => met.push(value)?,
        NodeView::Values { items, .. } => met.extend_from_slice(items)?,
        NodeView::Dictionary { entries, .. } => push_entries(entries, &mut met)?,
        _ => {}
    }
    Ok(met)
}
