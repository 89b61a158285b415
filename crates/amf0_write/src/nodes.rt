ghost use Rattle.std.specs.Prelude.{◌≡◌, ◌<◌, ◌↔◌, length, IsTrue};
ghost use Rattle.amf_graph.specs.Building.{stored_at};
ghost use Rattle.amf_graph.specs.Graph.{node_at};
ghost use Rattle.amf_graph.specs.Rooted.{content};
ghost use Rattle.amf_graph.specs.Views.{Shows};
ghost use Rattle.amf0_spelling.specs.Lacks0.{HasNoForm, HasShortNames, IsShortName, enters0, is_loose0};
ghost use Rattle.std.specs.List.{AllByRecursion};
ghost use Rattle.amf_iso.specs.Contents.{pairs_of, ArePairs};

use crate::values::MAX_SHORT;
use amf_graph::{NodeId, NodeView, Rooted, TextId, Value};

/// Whether AMF 0 has no form of a node: it is of a kind that AMF 0 lacks, or an array with both items and names.
pub(crate) fn has_no_form(node: NodeId, view: NodeView<'_>, graph: &Rooted) -> bool
    requires there { node.0 < length graph.now.arena.nodes }
    requires shown { Shows graph.now.arena (stored_at graph.now.arena node.0) view }
    ensures { IsTrue result ↔ HasNoForm (node_at (content graph.now) node.0) (node_at (content graph.now) node.0).head }
{
    let _ = node;
    graph.is_finished();
    match view {
        NodeView::Array { items, names } => !items.is_empty() && !names.is_empty(),
        NodeView::Object { .. } | NodeView::Date(_) | NodeView::XmlDocument(_) => false,
        _ => true,
    }
}

/// Whether each name fits its length field.
pub(crate) fn are_short(pairs: &[(TextId, Value)], graph: &Rooted) -> bool
    requires { ArePairs graph.now.arena pairs.now }
    ensures { IsTrue result ↔ AllByRecursion (λ p. IsShortName p.0) (pairs_of graph.now.arena pairs.now) }
{
    for (name, _) in pairs {
        if graph.text(*name).len() > MAX_SHORT {
            return false;
        }
    }
    true
}

/// Whether the class and the names of a node fit their length fields (1.3.1).
#[inline(always)]
pub(crate) fn has_short_names(node: NodeId, view: NodeView<'_>, graph: &Rooted) -> bool
    requires there { node.0 < length graph.now.arena.nodes }
    requires shown { Shows graph.now.arena (stored_at graph.now.arena node.0) view }
    ensures { IsTrue result ↔ HasShortNames (node_at (content graph.now) node.0) }
{
    let _ = node;
    graph.is_finished();
    match view {
        NodeView::Array { names, .. } => are_short(names, graph),
        NodeView::Object {
            traits,
            members,
            ..
        } => {
            let class = graph.text(graph.traits(traits).class);
            class.len() <= MAX_SHORT && are_short(members, graph)
        }
        _ => true,
    }
}

/// Whether an index can name the node: it is an array or an object (2.9).
pub(crate) fn enters(node: NodeId, graph: &Rooted) -> bool
    requires { node.0 < length graph.now.arena.nodes }
    ensures { result ≡ enters0 (node_at (content graph.now) node.0).head }
{
    graph.is_finished();
    match graph.node(node) {
        NodeView::Array { .. } | NodeView::Object { .. } => true,
        _ => false,
    }
}

/// Whether no index can name the node, although it has a form: it is a date or an XML document (2.13, 2.17).
pub(crate) fn is_loose(node: NodeId, graph: &Rooted) -> bool
    requires { node.0 < length graph.now.arena.nodes }
    ensures { result ≡ is_loose0 (node_at (content graph.now) node.0).head }
{
    graph.is_finished();
    match graph.node(node) {
        NodeView::Date(_) | NodeView::XmlDocument(_) => true,
        _ => false,
    }
}
