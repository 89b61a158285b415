ghost use Rattle.std.specs.Prelude.{IfOk};
ghost use Rattle.amf_graph.specs.Rooted.{content};
ghost use Rattle.amf0_spelling.specs.Lowered.{IsLoweringOf};

use crate::chains::stand_ins;
use amf_graph::Rooted;
use amf_wire::Memory;
use std::alloc::Global;

/// The graph in the kinds that AMF 0 has: doubles for integers (2.2), dynamic members for sealed ones (2.5, 2.18), and for a
/// wrapper what it wraps, through as many wrappers as there are. A wrapper that leads to wrappers for ever is null. Nodes keep
/// their numbers. It gives up where there is no memory.
pub fn lower(alloc: Global, graph: &Rooted) -> Result<Rooted, Memory>
    ensures { IfOk result (λ low. IsLoweringOf (content graph.now) (content low)) }
{
    graph.is_finished();
    let stand_ins = stand_ins(alloc, graph)?;
    graph.standing_in(alloc, &stand_ins)
}
