ghost use Rattle.std.specs.Prelude.{◌≡◌, ◌<◌, ◌↔◌, length, IsTrue};
ghost use Rattle.amf_graph.specs.Arena.{traits_at};
ghost use Rattle.amf_graph.specs.Building.{stored_at};
ghost use Rattle.amf_graph.specs.Graph.{node_at};
ghost use Rattle.amf_graph.specs.Rooted.{content};
ghost use Rattle.amf_graph.specs.Views.{Shows};
ghost use Rattle.amf_iso.specs.Joined.{AreJoined};
ghost use Rattle.amf_tables.specs.ShownTraits.{AreTextIds, texts_at};

use crate::equal_texts::EqualTexts;
use crate::walk::Graphs;
use amf_graph::{NodeId, NodeView, Rooted, TextId, TraitsId};

/// Whether texts are the same, place by place.
#[tactic(auto, using(crate::proofs::Remaining::compared))]
fn texts_match(
    xs: &[TextId],
    ys: &[TextId],
    left: &Rooted,
    right: &Rooted,
    texts: &mut EqualTexts,
) -> bool
    requires left { AreTextIds left.now.arena xs.now }
    requires right { AreTextIds right.now.arena ys.now }
    requires known { AreJoined left.now.arena right.now.arena texts.old }
    ensures known { AreJoined left.now.arena right.now.arena texts.new }
    ensures same { IsTrue result ↔ texts_at left.now.arena xs.now ≡ texts_at right.now.arena ys.now }
{
    if xs.len() != ys.len() {
        return false;
    }
    for (x, y) in xs.iter().zip(ys) {
        if !texts.are_equal(*x, *y, left, right) {
            return false;
        }
    }
    true
}

/// Whether traits are the same by content: class, flag and sealed names.
fn traits_match(
    t: TraitsId,
    u: TraitsId,
    left: &Rooted,
    right: &Rooted,
    texts: &mut EqualTexts,
) -> bool
    requires left { t.0 < length left.now.arena.traits }
    requires right { u.0 < length right.now.arena.traits }
    requires known { AreJoined left.now.arena right.now.arena texts.old }
    ensures known { AreJoined left.now.arena right.now.arena texts.new }
    ensures same { IsTrue result ↔ traits_at left.now.arena t.0 ≡ traits_at right.now.arena u.0 }
{
    left.is_finished();
    right.is_finished();
    let t = left.traits(t);
    let u = right.traits(u);
    if t.dynamic != u.dynamic {
        return false;
    }
    if !texts.are_equal(t.class, u.class, left, right) {
        return false;
    }
    texts_match(t.sealed, u.sealed, left, right, texts)
}

/// Whether what two nodes have beside their values is the same by content: kind, flags, traits, class, type name and contents.
/// The views are these nodes'.
pub(crate) fn heads_match(
    i: NodeId,
    j: NodeId,
    left: NodeView<'_>,
    right: NodeView<'_>,
    graphs: &Graphs<'_>,
    texts: &mut EqualTexts,
) -> bool
    requires left { i.0 < length graphs.now.left.now.arena.nodes }
    requires right { j.0 < length graphs.now.right.now.arena.nodes }
    requires left_view { Shows graphs.now.left.now.arena (stored_at graphs.now.left.now.arena i.0) left }
    requires right_view { Shows graphs.now.right.now.arena (stored_at graphs.now.right.now.arena j.0) right }
    requires known { AreJoined graphs.now.left.now.arena graphs.now.right.now.arena texts.old }
    ensures known { AreJoined graphs.now.left.now.arena graphs.now.right.now.arena texts.new }
    ensures same { IsTrue result ↔ (node_at (content graphs.now.left.now) i.0).head ≡ (node_at (content graphs.now.right.now) j.0).head }
{
    graphs.left.is_finished();
    graphs.right.is_finished();
    match (left, right) {
        (NodeView::XmlDocument(x), NodeView::XmlDocument(y)) => x == y,
        (NodeView::Xml(x), NodeView::Xml(y)) => x == y,
        (NodeView::Date(p), NodeView::Date(q)) => p == q,
        (NodeView::Bytes(x), NodeView::Bytes(y)) => x == y,
        (
            NodeView::Ints {
                fixed: x,
                items: ns,
            },
            NodeView::Ints {
                fixed: y,
                items: ms,
            },
        ) => x == y && ns == ms,
        (
            NodeView::Uints {
                fixed: x,
                items: ns,
            },
            NodeView::Uints {
                fixed: y,
                items: ms,
            },
        ) => x == y && ns == ms,
        (
            NodeView::Doubles {
                fixed: x,
                items: ns,
            },
            NodeView::Doubles {
                fixed: y,
                items: ms,
            },
        ) => x == y && ns == ms,
        (NodeView::Array { .. }, NodeView::Array { .. }) => true,
        (NodeView::Object { traits: t, .. }, NodeView::Object { traits: u, .. }) => {
            traits_match(t, u, graphs.left, graphs.right, texts)
        }
        (NodeView::Wrapper { class: c, .. }, NodeView::Wrapper { class: d, .. }) => c == d,
        (
            NodeView::Values {
                fixed: x,
                of: t,
                ..
            },
            NodeView::Values {
                fixed: y,
                of: u,
                ..
            },
        ) => x == y && texts.are_equal(t, u, graphs.left, graphs.right),
        (NodeView::Dictionary { weak: x, .. }, NodeView::Dictionary { weak: y, .. }) => x == y,
        _ => false,
    }
}
