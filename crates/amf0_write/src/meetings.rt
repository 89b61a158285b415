ghost use Rattle.std.specs.Prelude.{◌≡◌, [], length, IfOk};
ghost use Rattle.amf_graph.specs.Arena.{Arena, Names};
ghost use Rattle.amf_graph.specs.Order.{IsOrder};
ghost use Rattle.amf_graph.specs.Rooted.{content};
ghost use Rattle.amf0_spelling.specs.Met.{all_met};
ghost use Rattle.amf0_write.specs.Meetings.{AreMet, MeetsValue, AreMarked};

use amf_graph::{Rooted, Value};
use amf_iso::{Numbering, values_met};
use amf_wire::Memory;
use std::alloc::Global;

/// Which nodes have been met, and which of them again, by their places.
#[derive(Drop)]
struct Meetings {
    seen: Vec<bool>,
    again: Vec<bool>,
}

impl Meetings {
    /// No node has been met, of so many.
    fn new(alloc: Global, count: usize) -> Result<Meetings, Memory>
        ensures { IfOk result (λ m. AreMet count [] m.seen.items m.again.items) }
    {
        Ok(Meetings {
            seen: vec![in alloc; false; count]?,
            again: vec![in alloc; false; count]?,
        })
    }

    /// One more value is met.
    fn meet(&mut self, value: Value)
        requires room { (a : Arena) × (length self.old.seen.items ≡ length a.nodes) × (length self.old.again.items ≡ length a.nodes) × Names a value }
        ensures met { MeetsValue value self.old self.new }
    {
        if let Value::Node(node) = value {
            let place = node.0 as usize;
            self.again[place] = self.seen[place];
            self.seen[place] = true;
        }
    }
}

/// Which nodes of a graph are met again, by their places. It gives up where there is no memory.
pub(crate) fn met_again(
    alloc: Global,
    numbering: &Numbering,
    graph: &Rooted,
) -> Result<Vec<bool>, Memory>
    requires { IsOrder (content graph.now) numbering.now }
    ensures { IfOk result (λ again. AreMarked (length graph.now.arena.nodes) (all_met (content graph.now) numbering.now) again.items) }
{
    graph.is_finished();
    let mut meetings = Meetings::new(alloc, graph.node_count() as usize)?;
    meetings.meet(graph.root());
    for number in 0..numbering.count() {
        let values = values_met(alloc, numbering.node_at(number), graph)?;
        for value in &values {
            meetings.meet(*value);
        }
    }
    Ok(meetings.again)
}
