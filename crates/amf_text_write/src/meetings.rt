ghost use Rattle.std.specs.Prelude.{◌≡◌, ◌∷◌, ◌++◌, [], List, ℕ, suc, length, IfOk};
ghost use Rattle.amf_graph.specs.Arena.{Arena, value_content};
ghost use Rattle.amf_graph.specs.Graph.{Value as Met};
ghost use Rattle.amf_graph.specs.Order.{IsOrder};
ghost use Rattle.amf_graph.specs.Rooted.{content};
ghost use Rattle.amf_text.specs.Texts.{all_met};
ghost use Rattle.amf_text_write.specs.Counts.{AreCounts, meetings_of};

use amf_graph::{Rooted, Value};
use amf_iso::{Numbering, values_met};
use amf_wire::Memory;
use std::alloc::Global;

/// At how many places a node is met.
#[derive(Clone, Copy)]
pub(crate) enum Meetings {
    None,
    One,
    More,
}

impl Meetings {
    /// One more.
    fn again(self) -> Meetings
        ensures { (n : ℕ) → self ≡ meetings_of n → result ≡ meetings_of (suc n) }
    {
        match self {
            Meetings::None => Meetings::One,
            _ => Meetings::More,
        }
    }
}

/// One more value is met: where it is a node, that is counted.
fn meet(value: Value, numbering: &Numbering, counts: &mut [Meetings])
    requires { length counts.old ≡ length numbering.now }
    ensures { (a : Arena) (past : List Met) → AreCounts numbering.now past counts.old → AreCounts numbering.now (past ++ value_content a value ∷ []) counts.new }
{
    if let Value::Node(node) = value {
        if let Some(number) = numbering.number_of(node) {
            let place = number as usize;
            counts[place] = counts[place].again();
        }
    }
}

/// At how many places each node that the root leads to is met, by its number: the root is one, and each value of a node.
pub(crate) fn count_meetings(
    alloc: Global,
    graph: &Rooted,
    numbering: &Numbering,
) -> Result<Vec<Meetings>, Memory>
    requires { IsOrder (content graph.now) numbering.now }
    ensures { IfOk result (λ counts. AreCounts numbering.now (all_met (content graph.now) numbering.now) counts.items) }
{
    graph.is_finished();
    let mut counts = vec![in alloc; Meetings::None; numbering.count() as usize]?;
    meet(graph.root(), numbering, &mut counts);
    for number in 0..numbering.count() {
        let values = values_met(alloc, numbering.node_at(number), graph)?;
        for value in &values {
            meet(*value, numbering, &mut counts);
        }
    }
    Ok(counts)
}
