ghost use Rattle.std.specs.Prelude.{◌≡◌, ◌<◌, ◌&&◌, ◌==◌, true, length};
ghost use Rattle.std.specs.List.{list_all};
ghost use Rattle.amf_graph.specs.Arena.{traits_at};
ghost use Rattle.amf_graph.specs.Graph.{node_at};
ghost use Rattle.amf_graph.specs.Rooted.{content};
ghost use Rattle.amf0_spelling.specs.Lowered.{IsLoweringOf};
ghost use Rattle.amf0_kinds.specs.Kinds.{is_open, is_node0, has_only_kinds0};
ghost use Rattle.amf0_kinds.specs.Kept.{is_kept};

use amf_graph::{NodeId, NodeView, Rooted, TextId, TraitsId, Value};

/// Whether AMF 0 has a value as it is: it is no integer (2.2).
fn is_value_kept(value: Value) -> bool
    ensures { result ≡ is_kept value }
{
    !matches!(value, Value::Integer(_))
}

/// Whether AMF 0 has each of the values.
fn are_kept(values: &[Value]) -> bool
    ensures { result ≡ list_all is_kept values.now }
{
    values.iter().all(|value| is_value_kept(*value))
}

/// Whether AMF 0 has the value of each pair.
fn are_pairs_kept(pairs: &[(TextId, Value)]) -> bool
    ensures { result ≡ list_all (λ p. is_kept p.1) pairs.now }
{
    pairs.iter().all(|pair| is_value_kept(pair.1))
}

/// Whether a class takes further members, and has no sealed ones (2.5, 2.18).
fn is_open(traits: TraitsId, graph: &Rooted) -> bool
    requires { traits.0 < length graph.now.arena.traits }
    ensures { result ≡ is_open (traits_at graph.now.arena traits.0) }
{
    let class = graph.traits(traits);
    class.dynamic && class.sealed.is_empty()
}

/// Whether an object has no sealed members.
fn is_object0(traits: TraitsId, sealed: &[Value], graph: &Rooted) -> bool
    requires { traits.0 < length graph.now.arena.traits }
    ensures { result ≡ (is_open (traits_at graph.now.arena traits.0) && (length sealed.now == 0)) }
{
    is_open(traits, graph) && sealed.is_empty()
}

/// Whether AMF 0 has a node of this kind, and each of its values.
fn is_node0(node: NodeId, graph: &Rooted) -> bool
    requires { node.0 < length graph.now.arena.nodes }
    ensures { result ≡ is_node0 (node_at (content graph.now) node.0) }
{
    graph.is_finished();
    match graph.node(node) {
        NodeView::Array { items, names } => are_kept(items) && are_pairs_kept(names),
        NodeView::Object {
            traits,
            sealed,
            members,
        } => is_object0(traits, sealed, graph) && are_pairs_kept(members),
        NodeView::Date(_) | NodeView::XmlDocument(_) => true,
        _ => false,
    }
}

/// Whether a graph has only kinds of nodes and values that AMF 0 has: doubles and no integers (2.2), objects with no sealed
/// members (2.5, 2.18), arrays, dates and XML documents. It is its own lowering then. Nodes to which the root does not lead
/// count too. It goes over the graph once, and takes no memory.
pub fn has_only_kinds0(graph: &Rooted) -> bool
    ensures exact { result ≡ has_only_kinds0 (content graph.now) }
    ensures own { result ≡ true → IsLoweringOf (content graph.now) (content graph.now) }
{
    if !is_value_kept(graph.root()) {
        return false;
    }
    for number in 0..graph.node_count() {
        if !is_node0(NodeId(number), graph) {
            return false;
        }
    }
    true
}
