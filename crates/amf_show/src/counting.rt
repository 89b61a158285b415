ghost use Rattle.std.specs.Prelude.{IfOk};
ghost use Rattle.amf_graph.specs.Rooted.{content};
ghost use Rattle.amf_show.specs.Counting.{HasNodes};

use amf_graph::Rooted;
use amf_iso::Numbering;
use amf_wire::Memory;
use std::alloc::Global;

/// How many nodes the root of a graph leads to. It gives up where there is no memory.
pub fn count_nodes(alloc: Global, graph: &Rooted) -> Result<u32, Memory>
    ensures { IfOk result (λ nodes. HasNodes (content graph.now) nodes) }
{
    let numbering = Numbering::of(alloc, graph)?;
    Ok(numbering.count())
}
