ghost use Rattle.std.specs.Prelude.{◌≡◌, ◌<◌, ◌^◌, ◌++◌, ℕ, ◌↔◌, List, length, map, slice_get, IfOk, OnOk};
ghost use Rattle.std.specs.List.{AllByRecursion};
ghost use Rattle.amf_graph.specs.Arena.{Names};
ghost use Rattle.amf_graph.specs.Building.{stored_at};
ghost use Rattle.amf_graph.specs.Order.{IsDistinct};
ghost use Rattle.amf_graph.specs.Views.{named, flat};
ghost use Rattle.amf_graph.specs.Gather.{placed, with_nodes, NodesBelow, held};
ghost use Rattle.amf_graph.specs.Grafting.{Reaches, StandsAt};

use crate::number_set::NumberSet;
use crate::{NodeId, NodeView, Rooted, TextId, Value};
use amf_wire::Memory;
use std::alloc::Global;

/// Adds the nodes among the values.
fn add_nodes(values: &[Value], nodes: &mut NumberSet) -> Result<(), Memory>
    requires { NodesBelow nodes.old.count values.now }
    ensures { OnOk result (nodes.new ≡ placed nodes.old.count (with_nodes values.now nodes.old.items)) }
{
    for value in values {
        if let Value::Node(node) = *value {
            nodes.add(node.0)?;
        }
    }
    Ok(())
}

/// Appends the values of pairs.
fn push_seconds(pairs: &[(TextId, Value)], values: &mut Vec<Value>) -> Result<(), Memory>
    ensures { OnOk result (values.new.items ≡ values.old.items ++ map (λ p. p.1) (named pairs.now)) }
{
    for (_, value) in pairs {
        values.push(*value)?;
    }
    Ok(())
}

/// Appends each key and then its value.
fn push_entries(entries: &[(Value, Value)], values: &mut Vec<Value>) -> Result<(), Memory>
    ensures { OnOk result (values.new.items ≡ values.old.items ++ flat entries.now) }
{
    for (key, value) in entries {
        values.push(*key)?;
        values.push(*value)?;
    }
    Ok(())
}

/// Appends what a node holds: its values, and behind them those of its pairs.
fn push_held(graph: &Rooted, node: NodeId, values: &mut Vec<Value>) -> Result<(), Memory>
    requires { node.0 < length graph.now.arena.nodes }
    ensures { OnOk result (values.new.items ≡ values.old.items ++ held (stored_at graph.now.arena node.0)) }
{
    match graph.node(node) {
        NodeView::Array { items, names } => {
            values.extend_from_slice(items)?;
            push_seconds(names, values)?;
        }
        NodeView::Object {
            sealed,
            members,
            ..
        } => {
            values.extend_from_slice(sealed)?;
            push_seconds(members, values)?;
        }
        NodeView::Wrapper { value, .. } => values.push(value)?,
        NodeView::Values { items, .. } => values.extend_from_slice(items)?,
        NodeView::Dictionary { entries, .. } => push_entries(entries, values)?,
        _ => {}
    }
    Ok(())
}

/// Adds the nodes that a node holds.
fn add_held(
    alloc: Global,
    graph: &Rooted,
    node: NodeId,
    nodes: &mut NumberSet,
) -> Result<(), Memory>
    requires there { node.0 < length graph.now.arena.nodes }
    requires count { nodes.old.count ≡ length graph.now.arena.nodes }
    ensures { OnOk result (nodes.new ≡ placed nodes.old.count (with_nodes (held (stored_at graph.now.arena node.0)) nodes.old.items)) }
{
    graph.is_finished();
    let mut held = Vec::new(alloc);
    push_held(graph, node, &mut held)?;
    add_nodes(&held, nodes)
}

/// The nodes to which the values lead, each once. It gives up where there is no memory.
pub(crate) fn reached(alloc: Global, graph: &Rooted, values: &[Value]) -> Result<NumberSet, Memory>
    requires { AllByRecursion (Names graph.now.arena) values.now }
    ensures count { IfOk result (λ nodes. nodes.count ≡ length graph.now.arena.nodes) }
    ensures once { IfOk result (λ nodes. IsDistinct nodes.items) }
    ensures reached { IfOk result (λ nodes. (i : ℕ) → StandsAt nodes.items i ↔ Reaches graph.now.arena values.now i) }
{
    graph.is_finished();
    let mut nodes = NumberSet::new(alloc, graph.node_count())?;
    add_nodes(values, &mut nodes)?;
    let mut next = 0;
    while next < nodes.len() {
        add_held(alloc, graph, NodeId(nodes.at(next)), &mut nodes)?;
        next += 1;
    }
    Ok(nodes)
}
