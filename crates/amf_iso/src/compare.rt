ghost use Rattle.std.specs.Prelude.{◌≡◌, ◌<◌, ◌↔◌, length, IsTrue, IfOk};
ghost use Rattle.amf_graph.specs.Building.{stored_at};
ghost use Rattle.amf_graph.specs.Graph.{node_at};
ghost use Rattle.amf_graph.specs.Isomorphic.{Isomorphic};
ghost use Rattle.amf_graph.specs.Rooted.{content};
ghost use Rattle.amf_graph.specs.Views.{Shows};
ghost use Rattle.amf_iso.specs.Contents.{AreValues, ArePairs};
ghost use Rattle.amf_iso.specs.Walking.{IsSound, Meets, MeetsIn, NamedMatch, PartsMatch, NodePair, AllNodesMatch};

use crate::heads::heads_match;
use crate::matches::{all_entries_meet, all_meet, names_match, seconds_meet, values_meet};
use crate::pairs::ids_by_name;
use crate::walk::{Graphs, Walk};
use amf_graph::{NodeId, NodeView, Rooted, TextId, Value};
use amf_wire::Memory;
use std::alloc::Global;

/// Whether pairs have the same names and values that are alike, place by place in by-name order. Values are looked at only
/// where all names agree, and lists are made only where the names do not agree as they stand.
#[inline(never)]
fn named_meet(
    alloc: Global,
    ps: &[(TextId, Value)],
    qs: &[(TextId, Value)],
    graphs: &Graphs<'_>,
    walk: &mut Walk,
) -> Result<bool, Memory>
    requires left { ArePairs graphs.now.left.now.arena ps.now }
    requires right { ArePairs graphs.now.right.now.arena qs.now }
    requires sound { IsSound graphs.now.left.now.arena graphs.now.right.now.arena walk.old }
    ensures { Meets graphs.now.left.now graphs.now.right.now walk.old walk.new (λ g h. NamedMatch g.arena h.arena ps.now qs.now) result }
{
    if names_match(ps, qs, graphs, &mut walk.texts) {
        return seconds_meet(ps, qs, graphs, walk);
    }
    let left = ids_by_name(alloc, ps, graphs.left)?;
    let right = ids_by_name(alloc, qs, graphs.right)?;
    if !names_match(&left, &right, graphs, &mut walk.texts) {
        return Ok(false);
    }
    seconds_meet(&left, &right, graphs, walk)
}

/// Whether values are alike, place by place, and pairs, in by-name order. Most nodes have no pairs.
#[inline(always)]
fn both_meet(
    alloc: Global,
    values: (&[Value], &[Value]),
    pairs: (&[(TextId, Value)], &[(TextId, Value)]),
    graphs: &Graphs<'_>,
    walk: &mut Walk,
) -> Result<bool, Memory>
    requires left_values { AreValues graphs.now.left.now.arena values.0.now }
    requires right_values { AreValues graphs.now.right.now.arena values.1.now }
    requires left_pairs { ArePairs graphs.now.left.now.arena pairs.0.now }
    requires right_pairs { ArePairs graphs.now.right.now.arena pairs.1.now }
    requires sound { IsSound graphs.now.left.now.arena graphs.now.right.now.arena walk.old }
    ensures { MeetsIn graphs.now walk.old walk.new (λ g h. PartsMatch g.arena h.arena pairs.entry.0.now pairs.entry.1.now values.entry.0.now values.entry.1.now) result }
{
    if !all_meet(values.0, values.1, graphs, walk)? {
        return Ok(false);
    }
    if pairs.0.is_empty() && pairs.1.is_empty() {
        return Ok(true);
    }
    named_meet(alloc, pairs.0, pairs.1, graphs, walk)
}

/// Whether what two nodes with the same head hold is alike, where it stands. The views are these nodes'.
fn parts_meet(
    alloc: Global,
    i: NodeId,
    j: NodeId,
    left: NodeView<'_>,
    right: NodeView<'_>,
    graphs: &Graphs<'_>,
    walk: &mut Walk,
) -> Result<bool, Memory>
    requires left { i.0 < length graphs.now.left.now.arena.nodes }
    requires right { j.0 < length graphs.now.right.now.arena.nodes }
    requires left_view { Shows graphs.now.left.now.arena (stored_at graphs.now.left.now.arena i.0) left }
    requires right_view { Shows graphs.now.right.now.arena (stored_at graphs.now.right.now.arena j.0) right }
    requires head { (node_at (content graphs.now.left.now) i.0).head ≡ (node_at (content graphs.now.right.now) j.0).head }
    requires sound { IsSound graphs.now.left.now.arena graphs.now.right.now.arena walk.old }
    ensures { Meets graphs.now.left.now graphs.now.right.now walk.old walk.new (λ g h. NodePair (content g) (content h) i.0 j.0) result }
{
    graphs.left.is_finished();
    graphs.right.is_finished();
    match (left, right) {
        (
            NodeView::Array {
                items: vs,
                names: ps,
            },
            NodeView::Array {
                items: ws,
                names: qs,
            },
        ) => both_meet(alloc, (vs, ws), (ps, qs), graphs, walk),
        (
            NodeView::Object {
                sealed: vs,
                members: ps,
                ..
            },
            NodeView::Object {
                sealed: ws,
                members: qs,
                ..
            },
        ) => both_meet(alloc, (vs, ws), (ps, qs), graphs, walk),
        (NodeView::Wrapper { value: v, .. }, NodeView::Wrapper { value: w, .. }) => {
            values_meet(v, w, graphs, walk)
        }
        (NodeView::Values { items: vs, .. }, NodeView::Values { items: ws, .. }) => {
            all_meet(vs, ws, graphs, walk)
        }
        (NodeView::Dictionary { entries: es, .. }, NodeView::Dictionary { entries: fs, .. }) => {
            all_entries_meet(es, fs, graphs, walk)
        }
        _ => Ok(true),
    }
}

/// Whether two nodes are alike: heads by content, and names and values place by place.
fn node_pair_meets(
    alloc: Global,
    i: NodeId,
    j: NodeId,
    graphs: &Graphs<'_>,
    walk: &mut Walk,
) -> Result<bool, Memory>
    requires left { i.0 < length graphs.now.left.now.arena.nodes }
    requires right { j.0 < length graphs.now.right.now.arena.nodes }
    requires sound { IsSound graphs.now.left.now.arena graphs.now.right.now.arena walk.old }
    ensures { Meets graphs.now.left.now graphs.now.right.now walk.old walk.new (λ g h. NodePair (content g) (content h) i.0 j.0) result }
{
    graphs.left.is_finished();
    graphs.right.is_finished();
    let left = graphs.left.node(i);
    let right = graphs.right.node(j);
    if !heads_match(i, j, left, right, graphs, &mut walk.texts) {
        return Ok(false);
    }
    parts_meet(alloc, i, j, left, right, graphs, walk)
}

/// Whether the nodes of each pair are alike, of those that were met and of those that are met on the way.
fn all_pairs_meet(alloc: Global, graphs: &Graphs<'_>, walk: &mut Walk) -> Result<bool, Memory>
    requires sound { IsSound graphs.now.left.now.arena graphs.now.right.now.arena walk.old }
    ensures { Meets graphs.now.left.now graphs.now.right.now walk.old walk.new (λ g h. AllNodesMatch (content g) (content h)) result }
{
    let mut next = 0;
    while next < walk.pairs.len() {
        let (i, j) = walk.pairs[next];
        if !node_pair_meets(alloc, i, j, graphs, walk)? {
            return Ok(false);
        }
        next += 1;
    }
    Ok(true)
}

/// Whether two graphs are the same but for the numbers of their nodes, texts and traits, the order of pairs of different
/// names, and nodes that the root does not lead to. It gives up where there is no memory.
pub fn isomorphic(alloc: Global, a: &Rooted, b: &Rooted) -> Result<bool, Memory>
    ensures { IfOk result (λ same. IsTrue same ↔ Isomorphic (content a.now) (content b.now)) }
{
    let graphs = Graphs { left: a, right: b };
    a.is_finished();
    b.is_finished();
    let mut walk = Walk::new(alloc, &graphs)?;
    if !values_meet(a.root(), b.root(), &graphs, &mut walk)? {
        return Ok(false);
    }
    all_pairs_meet(alloc, &graphs, &mut walk)
}
