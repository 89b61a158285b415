ghost use Rattle.std.specs.Prelude.{◌≡◌, ◌↔◌, IfOk, IsTrue};
ghost use Rattle.std.specs.Cmp.Lexicographic.{slice_cmp};
ghost use Rattle.std.specs.List.Sorted.{IsSortedBy};
ghost use Rattle.std.specs.Ordering.{is_lt, nat_cmp};
ghost use Rattle.amf_graph.specs.Arena.{text_at};
ghost use Rattle.amf_graph.specs.ByName.{before, by_name};
ghost use Rattle.amf_iso.specs.Contents.{pairs_of, ArePairs, named_pairs, AreNamedPairs};

use amf_graph::{Rooted, TextId, Value};
use amf_wire::Memory;
use std::alloc::Global;

/// Pairs with their names.
fn with_names<'g>(
    alloc: Global,
    pairs: &[(TextId, Value)],
    graph: &'g Rooted,
) -> Result<Vec<(&'g [u8], Value)>, Memory>
    requires { ArePairs graph.now.arena pairs.now }
    ensures content { IfOk result (λ named. named_pairs graph.now.arena named.items ≡ pairs_of graph.now.arena pairs.now) }
    ensures names { IfOk result (λ named. AreNamedPairs graph.now.arena named.items) }
{
    graph.is_finished();
    let mut named = Vec::new(alloc);
    for (name, value) in pairs {
        named.push((graph.text(*name), *value))?;
    }
    Ok(named)
}

/// Pairs in the order of their names' bytes; pairs of one name keep their order. It gives up where there is no memory.
pub fn by_name<'g>(
    alloc: Global,
    pairs: &[(TextId, Value)],
    graph: &'g Rooted,
) -> Result<Vec<(&'g [u8], Value)>, Memory>
    requires { ArePairs graph.now.arena pairs.now }
    ensures content { IfOk result (λ named. named_pairs graph.now.arena named.items ≡ by_name (pairs_of graph.now.arena pairs.now)) }
    ensures names { IfOk result (λ named. AreNamedPairs graph.now.arena named.items) }
{
    let sorted = ids_by_name(alloc, pairs, graph)?;
    let named = with_names(alloc, &sorted, graph)?;
    Ok(named)
}

/// Does what `by_name` does, and tells each name by its id. It gives up where there is no memory.
pub fn ids_by_name(
    alloc: Global,
    pairs: &[(TextId, Value)],
    graph: &Rooted,
) -> Result<Vec<(TextId, Value)>, Memory>
    requires { ArePairs graph.now.arena pairs.now }
    ensures content { IfOk result (λ sorted. pairs_of graph.now.arena sorted.items ≡ by_name (pairs_of graph.now.arena pairs.now)) }
    ensures names { IfOk result (λ sorted. ArePairs graph.now.arena sorted.items) }
{
    let mut sorted = pairs.to_vec(alloc)?;
    sorted.sort_by(|p, q| graph.compare_texts(p.0, q.0))?;
    Ok(sorted)
}

/// Whether one name stands before another, by their bytes. A name is not compared with itself.
fn is_before(name: TextId, other: TextId, graph: &Rooted) -> bool
    ensures { result ≡ is_lt (slice_cmp nat_cmp (text_at graph.now.arena name.0) (text_at graph.now.arena other.0)) }
{
    name != other && graph.compare_texts(name, other).is_lt()
}

/// Whether pairs stand in the order of their names' bytes, so that `by_name` would change nothing. Pairs of one name may stand in
/// any order. Each name is compared with the one before it alone, and no memory is taken.
pub fn are_by_name(pairs: &[(TextId, Value)], graph: &Rooted) -> bool
    ensures { IsTrue result ↔ IsSortedBy before (pairs_of graph.now.arena pairs.now) }
{
    for index in 1..pairs.len() {
        if is_before(pairs[index].0, pairs[index - 1].0, graph) {
            return false;
        }
    }
    true
}
