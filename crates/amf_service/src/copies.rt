ghost use Rattle.std.specs.Prelude.{◌≡◌, ◌≤◌, Ok, IfOk, IsErrOf};
ghost use Rattle.amf_graph.specs.Arena.{Names, value_content};
ghost use Rattle.amf_graph.specs.Bounds.{weight};
ghost use Rattle.amf_graph.specs.Isomorphic.{Isomorphic};
ghost use Rattle.amf_graph.specs.Rooted.{content};
ghost use Rattle.amf_graph.specs.Roots.{rooted_at};

use amf_graph::{BuildEnd, Builder, Rooted, Value};
use amf_wire::Memory;
use std::alloc::Global;

/// What a builder kept that has room for it. It gives up where there is no memory.
pub fn kept<T: Drop>(answer: Result<T, BuildEnd>) -> Result<T, Memory>
    requires { IsErrOf answer BuildEnd.Full → ⊥ }
    ensures { IfOk result (λ x. answer ≡ Ok x) }
{
    match answer {
        Ok(kept) => Ok(kept),
        Err(BuildEnd::Memory) => Err(Memory),
        Err(BuildEnd::Full) => unreachable!(),
    }
}

/// A copy of what a value of the graph reaches, with the copy of the value as its root. It weighs no more than the graph. It
/// gives up where there is no memory.
pub fn copied(alloc: Global, graph: &Rooted, value: Value) -> Result<Rooted, Memory>
    requires { Names graph.now.arena value }
    ensures same { IfOk result (λ copy. Isomorphic (rooted_at (content graph.now) (value_content graph.now.arena value)) (content copy)) }
    ensures light { IfOk result (λ copy. weight copy.arena ≤ weight graph.now.arena) }
{
    graph.is_finished();
    let mut builder = Builder::beside(alloc, graph)?;
    let copies = kept(builder.graft_values(graph, &[value]))?;
    Ok(builder.whole(copies[0]))
}
