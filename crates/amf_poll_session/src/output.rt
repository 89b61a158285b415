ghost use Rattle.std.specs.List.{AllByRecursion};
ghost use Rattle.amf_graph.specs.Arena.{Names};
ghost use Rattle.amf_poll_session.specs.Steps.{bodies_at, Spelled};

use amf_graph::{Rooted, Value};
use amf_wire::Memory;
use amf3_write::write3_keyed;
use std::alloc::Global;
use std::hash::RandomState;

/// The canonical spellings of bodies, one after the other (AMF 3, 3.1).
pub(crate) fn spelled(
    alloc: Global,
    keys: Option<RandomState>,
    graph: Rooted,
    bodies: &[Value],
) -> Result<Vec<u8>, Memory>
    requires { AllByRecursion (Names graph.arena) bodies.now }
    ensures { Spelled (bodies_at graph bodies.now) result }
{
    let mut rooted = graph;
    let mut out = Vec::new(alloc);
    for body in bodies {
        rooted = rooted.rooted_at(*body);
        match write3_keyed(alloc, keys, &rooted, &mut out) {
            Ok(()) => {}
            Err(_) => return Err(Memory),
        }
    }
    Ok(out)
}
