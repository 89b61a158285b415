ghost use Rattle.std.specs.Prelude.{◌≡◌, ◌<◌, ◌↔◌, ℕ, true, length, IsTrue, IfOk};
ghost use Rattle.std.specs.List.{list_any};
ghost use Rattle.amf_graph.specs.Graph.{node, node_at};
ghost use Rattle.amf_graph.specs.Order.{values_met};
ghost use Rattle.amf_graph.specs.Reached.{Reached, Holds};
ghost use Rattle.amf_graph.specs.Rooted.{content};
ghost use Rattle.amf_iso.specs.Numbers.{HasReached};
ghost use Rattle.amf_sol.specs.HolderTest.{HasPairsAlone, is_node, is_stored_node};
ghost use Rattle.amf_sol.specs.SharedObject.{HasHolder};

use amf_graph::{NodeId, NodeView, Rooted, Value};
use amf_iso::{Numbering, values_met};
use amf_wire::Memory;
use std::alloc::Global;

/// Whether a graph's root is a dynamic object without class and sealed names, and nothing that it reaches holds it. It gives
/// up where there is no memory.
pub(crate) fn is_holder(alloc: Global, graph: &Rooted) -> Result<bool, Memory>
    ensures { IfOk result (λ yes. IsTrue yes ↔ HasHolder (content graph.now)) }
{
    graph.is_finished();
    let Value::Node(root) = graph.root() else {
        return Ok(false);
    };
    if !has_pairs_alone(root, graph) {
        return Ok(false);
    }
    let numbering = Numbering::of(alloc, graph)?;
    let held = is_held(alloc, root, graph, &numbering)?;
    Ok(!held)
}

/// Whether a node is a dynamic object without class and sealed names.
fn has_pairs_alone(place: NodeId, graph: &Rooted) -> bool
    requires { place.0 < length graph.now.arena.nodes }
    ensures { IsTrue result ↔ HasPairsAlone (content graph.now) place.0 }
{
    graph.is_finished();
    let NodeView::Object { traits, sealed, .. } = graph.node(place) else {
        return false;
    };
    let class = graph.traits(traits);
    class.dynamic
        && class.sealed.is_empty()
        && sealed.is_empty()
        && graph.text(class.class).is_empty()
}

/// Whether one of the numbered nodes holds a node.
fn is_held(
    alloc: Global,
    held: NodeId,
    graph: &Rooted,
    numbering: &Numbering,
) -> Result<bool, Memory>
    requires { HasReached (content graph.now) numbering.now }
    ensures held { IfOk result (λ yes. yes ≡ true → (j : ℕ) × Reached (content graph.now) j × Holds (node_at (content graph.now) j) (node held.0)) }
    ensures unheld { IfOk result (λ yes. (j : ℕ) → Reached (content graph.now) j → Holds (node_at (content graph.now) j) (node held.0) → yes ≡ true) }
{
    graph.is_finished();
    for number in 0..numbering.count() {
        if holds(alloc, numbering.node_at(number), held, graph)? {
            return Ok(true);
        }
    }
    Ok(false)
}

/// Whether one of a node's values is the other node.
fn holds(alloc: Global, place: NodeId, held: NodeId, graph: &Rooted) -> Result<bool, Memory>
    requires { place.0 < length graph.now.arena.nodes }
    ensures { IfOk result (λ yes. yes ≡ list_any (is_node held.0) (values_met (node_at (content graph.now) place.0))) }
{
    let met = values_met(alloc, place, graph)?;
    Ok(has_node(met.as_slice(), held))
}

/// Whether the node is one of the values.
fn has_node(values: &[Value], place: NodeId) -> bool
    ensures { result ≡ list_any (is_stored_node place.0) values.now }
{
    values.iter().any(|value| is_node(*value, place))
}

/// Whether the value is the node.
fn is_node(value: Value, place: NodeId) -> bool
    ensures { result ≡ is_stored_node place.0 value }
{
    match value {
        Value::Node(node) => node.0 == place.0,
        _ => false,
    }
}
