//! The nodes that wait to be numbered, on a stack.

ghost use Rattle.std.specs.Prelude.{◌≡◌, ◌<◌, [], false, ◌++◌, length, reverse, OnOk};
ghost use Rattle.amf_graph.specs.ByName.{by_name};
ghost use Rattle.amf_graph.specs.Graph.{node_at};
ghost use Rattle.amf_graph.specs.Order.{seconds, values_met};
ghost use Rattle.amf_graph.specs.Renumbered.{numbers_of};
ghost use Rattle.amf_graph.specs.Rooted.{content};
ghost use Rattle.amf_graph.specs.Views.{flat};
ghost use Rattle.amf_iso.specs.Contents.{pairs_of, ArePairs};
ghost use Rattle.amf_iso.specs.Remembered.{AreInOrder};
ghost use Rattle.amf_iso.specs.Waiting.{node_of, nodes_of, seconds_of, node_numbers};

use crate::LastOrder;
use amf_graph::{NodeId, NodeView, Rooted, TextId, Value};
use amf_wire::Memory;

/// Puts a value onto the stack, if it is a node.
pub(crate) fn push_node(value: Value, waiting: &mut Vec<NodeId>) -> Result<(), Memory>
    ensures { OnOk result (numbers_of waiting.new.items ≡ numbers_of waiting.old.items ++ node_of value) }
{
    match value {
        Value::Node(node) => {
            waiting.push(node)?;
            Ok(())
        }
        _ => Ok(()),
    }
}

/// Puts the nodes among values onto the stack, the first on top.
fn push_nodes(values: &[Value], waiting: &mut Vec<NodeId>) -> Result<(), Memory>
    ensures { OnOk result (numbers_of waiting.new.items ≡ numbers_of waiting.old.items ++ reverse (nodes_of values.now)) }
{
    for index in (0..values.len()).rev() {
        push_node(values[index], waiting)?;
    }
    Ok(())
}

/// Puts the nodes among the values of pairs onto the stack, the first on top.
fn push_second_nodes(pairs: &[(TextId, Value)], waiting: &mut Vec<NodeId>) -> Result<(), Memory>
    ensures { OnOk result (numbers_of waiting.new.items ≡ numbers_of waiting.old.items ++ reverse (nodes_of (seconds_of pairs.now))) }
{
    for index in (0..pairs.len()).rev() {
        push_node(pairs[index].1, waiting)?;
    }
    Ok(())
}

/// Puts the nodes among keys and values onto the stack, the first on top.
fn push_entry_nodes(entries: &[(Value, Value)], waiting: &mut Vec<NodeId>) -> Result<(), Memory>
    ensures { OnOk result (numbers_of waiting.new.items ≡ numbers_of waiting.old.items ++ reverse (nodes_of (flat entries.now))) }
{
    for index in (0..entries.len()).rev() {
        let (key, value) = entries[index];
        push_node(value, waiting)?;
        push_node(key, waiting)?;
    }
    Ok(())
}

/// Whether a value is a node.
fn is_node(value: Value) -> bool
    ensures { result ≡ false → node_of value ≡ [] }
{
    match value {
        Value::Node(_) => true,
        _ => false,
    }
}

/// Whether a node is among the values of pairs.
fn has_node(pairs: &[(TextId, Value)]) -> bool
    ensures { result ≡ false → nodes_of (seconds_of pairs.now) ≡ [] }
{
    for (_, value) in pairs {
        if is_node(*value) {
            return true;
        }
    }
    false
}

/// Puts the nodes among the values of pairs onto the stack, the first in by-name order on top. A list is made only where
/// there are some, and the pairs do not stand in this order.
fn push_by_name(
    pairs: &[(TextId, Value)],
    graph: &Rooted,
    order: &mut LastOrder,
    waiting: &mut Vec<NodeId>,
) -> Result<(), Memory>
    requires pairs { ArePairs graph.now.arena pairs.now }
    requires order { AreInOrder graph.now.arena order.old }
    ensures order { AreInOrder graph.now.arena order.new }
    ensures waiting { OnOk result (numbers_of waiting.new.items ≡ numbers_of waiting.old.items ++ reverse (node_numbers (seconds (by_name (pairs_of graph.now.arena pairs.now))))) }
{
    if !has_node(pairs) {
        return Ok(());
    }
    if order.are_by_name(pairs, graph) {
        return push_second_nodes(pairs, waiting);
    }
    let sorted = order.ids_by_name(pairs, graph)?;
    push_second_nodes(&sorted, waiting)?;
    order.take_back(sorted);
    Ok(())
}

/// Puts the nodes that a node holds onto the stack, the first that is met on top. The node is the graph's.
pub(crate) fn push_met(
    node: NodeId,
    graph: &Rooted,
    order: &mut LastOrder,
    waiting: &mut Vec<NodeId>,
) -> Result<(), Memory>
    requires there { node.0 < length graph.now.arena.nodes }
    requires order { AreInOrder graph.now.arena order.old }
    ensures order { AreInOrder graph.now.arena order.new }
    ensures waiting { OnOk result (numbers_of waiting.new.items ≡ numbers_of waiting.old.items ++ reverse (node_numbers (values_met (node_at (content graph.now) node.0)))) }
{
    graph.is_finished();
    match graph.node(node) {
        NodeView::Array { items, names } => {
            push_nodes(items, waiting)?;
            push_by_name(names, graph, order, waiting)
        }
        NodeView::Object {
            sealed,
            members,
            ..
        } => {
            push_by_name(members, graph, order, waiting)?;
            push_nodes(sealed, waiting)
        }
        NodeView::Wrapper { value, .. } => push_node(value, waiting),
        NodeView::Values { items, .. } => push_nodes(items, waiting),
        NodeView::Dictionary { entries, .. } => push_entry_nodes(entries, waiting),
        _ => Ok(()),
    }
}
