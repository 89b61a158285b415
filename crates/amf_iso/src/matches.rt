ghost use Rattle.std.specs.Prelude.{◌≡◌, ◌↔◌, length, IsTrue};
ghost use Rattle.amf_graph.specs.Arena.{Names, value_content};
ghost use Rattle.amf_graph.specs.Isomorphic.{ValuesMatch};
ghost use Rattle.amf_graph.specs.Views.{flat};
ghost use Rattle.amf_iso.specs.Contents.{AreValues, ArePairs};
ghost use Rattle.amf_iso.specs.Joined.{AreJoined};
ghost use Rattle.amf_iso.specs.Walking.{IsSound, Meets, NoNodes, StoredMatch, AllMatch, SecondsMatch, NamesMatch, IsEntry, EntriesMatch};

use crate::equal_texts::EqualTexts;
use crate::walk::{Graphs, Walk};
use amf_graph::{TextId, Value};
use amf_wire::Memory;

/// Whether two values that are no nodes are the same by content.
#[inline(always)]
fn leaves_match(v: Value, w: Value, graphs: &Graphs<'_>, texts: &mut EqualTexts) -> bool
    requires left { Names graphs.now.left.now.arena v }
    requires right { Names graphs.now.right.now.arena w }
    requires known { AreJoined graphs.now.left.now.arena graphs.now.right.now.arena texts.old }
    ensures known { AreJoined graphs.now.left.now.arena graphs.now.right.now.arena texts.new }
    ensures same { IsTrue result ↔ ValuesMatch NoNodes (value_content graphs.now.left.now.arena v) (value_content graphs.now.right.now.arena w) }
{
    match (v, w) {
        (Value::Text(x), Value::Text(y)) => texts.are_equal(x, y, graphs.left, graphs.right),
        (Value::Text(_) | Value::Node(_), _) | (_, Value::Text(_) | Value::Node(_)) => false,
        _ => v == w,
    }
}

/// Whether two values are alike: nodes where they are partners, and others by content.
#[inline(always)]
pub(crate) fn values_meet(
    v: Value,
    w: Value,
    graphs: &Graphs<'_>,
    walk: &mut Walk,
) -> Result<bool, Memory>
    requires left { Names graphs.now.left.now.arena v }
    requires right { Names graphs.now.right.now.arena w }
    requires sound { IsSound graphs.now.left.now.arena graphs.now.right.now.arena walk.old }
    ensures { Meets graphs.now.left.now graphs.now.right.now walk.old walk.new (λ g h. StoredMatch g.arena h.arena v w) result }
{
    match (v, w) {
        (Value::Node(i), Value::Node(j)) => walk.nodes_meet(i, j),
        _ => Ok(leaves_match(v, w, graphs, &mut walk.texts)),
    }
}

/// Whether values are alike, place by place.
#[tactic(auto, using(crate::proofs::Meeting::meets))]
pub(crate) fn all_meet(
    vs: &[Value],
    ws: &[Value],
    graphs: &Graphs<'_>,
    walk: &mut Walk,
) -> Result<bool, Memory>
    requires left { AreValues graphs.now.left.now.arena vs.now }
    requires right { AreValues graphs.now.right.now.arena ws.now }
    requires sound { IsSound graphs.now.left.now.arena graphs.now.right.now.arena walk.old }
    ensures { Meets graphs.now.left.now graphs.now.right.now walk.old walk.new (λ g h. AllMatch g.arena h.arena vs.now ws.now) result }
{
    if vs.len() != ws.len() {
        return Ok(false);
    }
    for (v, w) in vs.iter().zip(ws) {
        if !values_meet(*v, *w, graphs, walk)? {
            return Ok(false);
        }
    }
    Ok(true)
}

/// Whether the names of pairs are the same, place by place.
#[tactic(auto, using(crate::proofs::Remaining::compared))]
pub(crate) fn names_match(
    ps: &[(TextId, Value)],
    qs: &[(TextId, Value)],
    graphs: &Graphs<'_>,
    texts: &mut EqualTexts,
) -> bool
    requires left { ArePairs graphs.now.left.now.arena ps.now }
    requires right { ArePairs graphs.now.right.now.arena qs.now }
    requires known { AreJoined graphs.now.left.now.arena graphs.now.right.now.arena texts.old }
    ensures known { AreJoined graphs.now.left.now.arena graphs.now.right.now.arena texts.new }
    ensures same { IsTrue result ↔ NamesMatch graphs.now.left.now.arena graphs.now.right.now.arena ps.now qs.now }
{
    if ps.len() != qs.len() {
        return false;
    }
    for (p, q) in ps.iter().zip(qs) {
        if !texts.are_equal(p.0, q.0, graphs.left, graphs.right) {
            return false;
        }
    }
    true
}

/// Whether the values of pairs are alike, place by place.
#[tactic(auto, using(crate::proofs::Meeting::meets))]
pub(crate) fn seconds_meet(
    ps: &[(TextId, Value)],
    qs: &[(TextId, Value)],
    graphs: &Graphs<'_>,
    walk: &mut Walk,
) -> Result<bool, Memory>
    requires left { ArePairs graphs.now.left.now.arena ps.now }
    requires right { ArePairs graphs.now.right.now.arena qs.now }
    requires long { length ps.now ≡ length qs.now }
    requires sound { IsSound graphs.now.left.now.arena graphs.now.right.now.arena walk.old }
    ensures { Meets graphs.now.left.now graphs.now.right.now walk.old walk.new (λ g h. SecondsMatch g.arena h.arena ps.now qs.now) result }
{
    for (p, q) in ps.iter().zip(qs) {
        if !values_meet(p.1, q.1, graphs, walk)? {
            return Ok(false);
        }
    }
    Ok(true)
}

/// Whether two keys are alike, and their values too.
fn entry_meets(
    e: (Value, Value),
    f: (Value, Value),
    graphs: &Graphs<'_>,
    walk: &mut Walk,
) -> Result<bool, Memory>
    requires left { IsEntry graphs.now.left.now.arena e }
    requires right { IsEntry graphs.now.right.now.arena f }
    requires sound { IsSound graphs.now.left.now.arena graphs.now.right.now.arena walk.old }
    ensures { Meets graphs.now.left.now graphs.now.right.now walk.old walk.new (λ g h. EntriesMatch g.arena h.arena e f) result }
{
    if !values_meet(e.0, f.0, graphs, walk)? {
        return Ok(false);
    }
    values_meet(e.1, f.1, graphs, walk)
}

/// Whether keys and values are alike, place by place.
#[tactic(auto, using(crate::proofs::Meeting::meets))]
pub(crate) fn all_entries_meet(
    es: &[(Value, Value)],
    fs: &[(Value, Value)],
    graphs: &Graphs<'_>,
    walk: &mut Walk,
) -> Result<bool, Memory>
    requires left { AreValues graphs.now.left.now.arena (flat es.now) }
    requires right { AreValues graphs.now.right.now.arena (flat fs.now) }
    requires sound { IsSound graphs.now.left.now.arena graphs.now.right.now.arena walk.old }
    ensures { Meets graphs.now.left.now graphs.now.right.now walk.old walk.new (λ g h. AllMatch g.arena h.arena (flat es.now) (flat fs.now)) result }
{
    if es.len() != fs.len() {
        return Ok(false);
    }
    for (e, f) in es.iter().zip(fs) {
        if !entry_meets(*e, *f, graphs, walk)? {
            return Ok(false);
        }
    }
    Ok(true)
}
