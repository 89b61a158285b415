ghost use Rattle.std.specs.Prelude.{◌<◌, ◌↔◌, length, IsTrue};
ghost use Rattle.amf_graph.specs.Building.{stored_at};
ghost use Rattle.amf_graph.specs.Graph.{AllNamed, node_at};
ghost use Rattle.amf_graph.specs.Rooted.{content};
ghost use Rattle.amf_graph.specs.Views.{Shows};

use crate::pairs::has_empty_name;
use amf_graph::{NodeId, NodeView, Rooted};

/// Whether a name of the node's pairs is empty, which no spelling can say (3.11, 3.12). It takes no memory.
pub fn is_unnamed(node: NodeId, view: NodeView<'_>, graph: &Rooted) -> bool
    requires there { node.0 < length graph.now.arena.nodes }
    requires shown { Shows graph.now.arena (stored_at graph.now.arena node.0) view }
    ensures { IsTrue result ↔ ¬ AllNamed (node_at (content graph.now) node.0).names }
{
    let _ = node;
    graph.is_finished();
    match view {
        NodeView::Array { names, .. } => has_empty_name(names, graph),
        NodeView::Object { members, .. } => has_empty_name(members, graph),
        _ => false,
    }
}
