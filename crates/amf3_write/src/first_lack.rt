ghost use Rattle.std.specs.Prelude.{◌≡◌, ◌<◌, ◌↔◌, ◌∷◌, [], ◌++◌, length, IsTrue, IfOk};
ghost use Rattle.std.specs.List.{AllByRecursion};
ghost use Rattle.amf_graph.specs.Arena.{Names, value_content};
ghost use Rattle.amf_graph.specs.Order.{IsOrder, Walks};
ghost use Rattle.amf_graph.specs.Reached.{IsReachedValue};
ghost use Rattle.amf_graph.specs.Renumbered.{numbers_of};
ghost use Rattle.amf_graph.specs.Rooted.{content};
ghost use Rattle.amf3_write.specs.Found.{IsLeast, IsBefore, AreSeen};
ghost use Rattle.amf3_write.specs.PartLacks.{PartLacks3, IsPartLack3, HasUnnamed};

use crate::nodes::is_unnamed;
use amf_graph::{Lack, LackKind, NodeId, Rooted, Value};
use amf_iso::{Numbering, values_met};
use amf_wire::Memory;
use std::alloc::Global;

/// Which nodes of a graph are among these.
fn marks(alloc: Global, met: &[NodeId], graph: &Rooted) -> Result<Vec<bool>, Memory>
    requires { AllByRecursion (λ n. n.0 < length graph.now.arena.nodes) met.now }
    ensures seen { IfOk result (λ seen. AreSeen (numbers_of met.now) seen.items) }
    ensures room { IfOk result (λ seen. length seen.items ≡ length graph.now.arena.nodes) }
{
    graph.is_finished();
    let mut seen = vec![in alloc; false; graph.node_count() as usize]?;
    for node in met {
        seen[node.0 as usize] = true;
    }
    Ok(seen)
}

/// The nodes to which a value leads beside those met before, each at its first meeting and before its parts.
fn found(alloc: Global, value: Value, met: &[NodeId], graph: &Rooted) -> Result<Vec<NodeId>, Memory>
    requires value { Names graph.now.arena value }
    requires met { AllByRecursion (λ n. n.0 < length graph.now.arena.nodes) met.now }
    ensures found { IfOk result (λ found. Walks (content graph.now) (numbers_of met.now) (value_content graph.now.arena value ∷ []) (numbers_of met.now ++ numbers_of found.items)) }
    ensures within { IfOk result (λ found. AllByRecursion (λ n. n.0 < length graph.now.arena.nodes) found.items) }
{
    graph.is_finished();
    let mut seen = marks(alloc, met, graph)?;
    let mut found = Vec::new(alloc);
    let mut waiting = vec![in alloc; value]?;
    while let Some(value) = waiting.pop() {
        if let Value::Node(node) = value {
            if !seen[node.0 as usize] {
                seen[node.0 as usize] = true;
                found.push(node)?;
                let mut parts = values_met(alloc, node, graph)?;
                parts.reverse();
                waiting.append(&mut parts)?;
            }
        }
    }
    Ok(found)
}

/// The lack of a node, if it has one.
fn lack_at(node: NodeId, numbering: &Numbering, graph: &Rooted) -> Option<Lack>
    requires order { IsOrder (content graph.now) numbering.now }
    requires there { node.0 < length graph.now.arena.nodes }
    ensures { IsLeast (PartLacks3 (content graph.now) numbering.now (node.0 ∷ [])) result }
{
    if !is_unnamed(node, graph.node(node), graph) {
        return None;
    }
    let number = numbering.number_of(node)?;
    Some(Lack {
        kind: LackKind::EmptyName,
        node: number,
    })
}

/// Whether a lack has a less number than the least before, or there is none before.
fn is_before(lack: Lack, least: Option<Lack>) -> bool
    ensures { IsTrue result ↔ IsBefore lack least }
{
    match least {
        Some(least) => lack.node < least.node,
        None => true,
    }
}

/// The first lack of these nodes.
fn least(found: &[NodeId], numbering: &Numbering, graph: &Rooted) -> Option<Lack>
    requires order { IsOrder (content graph.now) numbering.now }
    requires within { AllByRecursion (λ n. n.0 < length graph.now.arena.nodes) found.now }
    ensures { IsLeast (PartLacks3 (content graph.now) numbering.now (numbers_of found.now)) result }
{
    let mut least = None;
    for node in found {
        if let Some(lack) = lack_at(*node, numbering, graph) {
            if is_before(lack, least) {
                least = Some(lack);
            }
        }
    }
    least
}

/// The first lack of a part that has one, by its canonical number in the graph: of the nodes to which the value leads beside
/// those met before.
pub(crate) fn first_lack(
    alloc: Global,
    value: Value,
    met: &[NodeId],
    graph: &Rooted,
) -> Result<Lack, Memory>
    requires value { Names graph.now.arena value }
    requires reached { IsReachedValue (content graph.now) (value_content graph.now.arena value) }
    requires met { AllByRecursion (λ n. n.0 < length graph.now.arena.nodes) met.now }
    requires lacking { HasUnnamed (content graph.now) (value_content graph.now.arena value) (numbers_of met.now) }
    ensures { IfOk result (λ l. IsPartLack3 (content graph.now) (value_content graph.now.arena value) (numbers_of met.now) l.node l.kind) }
{
    let numbering = Numbering::of(alloc, graph)?;
    let found = found(alloc, value, met, graph)?;
    match least(&found, &numbering, graph) {
        Some(lack) => Ok(lack),
        None => unreachable!(),
    }
}
