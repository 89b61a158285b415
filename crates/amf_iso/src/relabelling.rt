ghost use Rattle.std.specs.Prelude.{◌≡◌, length, IfOk};
ghost use Rattle.amf_graph.specs.Isomorphic.{Isomorphic};
ghost use Rattle.amf_graph.specs.Order.{IsOrder};
ghost use Rattle.amf_graph.specs.Renumbered.{renumbered};
ghost use Rattle.amf_graph.specs.Rooted.{content};
ghost use Rattle.amf3_spelling.specs.KeptTables.{below};

use crate::Numbering;
use amf_graph::Rooted;
use amf_wire::Memory;
use std::alloc::Global;

/// The isomorphic graph of the numbered nodes alone, in the order of their numbers: the node with a number is the node at
/// that place. The numbering is the graph's. It gives up where there is no memory.
pub fn relabel(alloc: Global, graph: &Rooted, numbering: &Numbering) -> Result<Rooted, Memory>
    requires { IsOrder (content graph.now) numbering.now }
    ensures isomorphic { IfOk result (λ relabelled. Isomorphic (content graph.now) (content relabelled)) }
    ensures numbered { IfOk result (λ relabelled. IsOrder (content relabelled) (below (length numbering.now))) }
    ensures exact { IfOk result (λ relabelled. relabelled ≡ renumbered numbering.now graph.now) }
    ensures count { IfOk result (λ relabelled. length (content relabelled).nodes ≡ length numbering.now) }
{
    graph.renumbered(alloc, numbering.nodes())
}
