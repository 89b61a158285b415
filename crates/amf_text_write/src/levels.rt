ghost use Rattle.std.specs.Prelude.{◌≡◌, length, get_or, IfOk};
ghost use Rattle.amf_graph.specs.Arena.{Arena, value_content};
ghost use Rattle.amf_graph.specs.Order.{IsOrder};
ghost use Rattle.amf_graph.specs.Renumbered.{place_of};
ghost use Rattle.amf_graph.specs.Rooted.{content};
ghost use Rattle.amf_text.specs.Texts.{all_met};
ghost use Rattle.amf_text_write.specs.Counts.{AreCounts};
ghost use Rattle.amf_text_write.specs.Levels.{next_level, AreLevels, Deepens};

use crate::meetings::Meetings;
use amf_graph::{Rooted, Value};
use amf_iso::{Numbering, values_met};
use amf_wire::Memory;
use std::alloc::Global;

/// How many nodes may stand in one another.
pub(crate) const LEVELS: u8 = 32;

/// The level within a node of this level: one more, and the first one again behind the last.
fn next_level(level: u8) -> u8
    ensures { result ≡ next_level level }
{
    if level < LEVELS { level + 1 } else { 1 }
}

/// Gives this level to a value that is a node, if that is met once.
fn deepen(value: Value, numbering: &Numbering, counts: &[Meetings], level: u8, levels: &mut [u8])
    requires counts { length counts.now ≡ length numbering.now }
    requires levels { length levels.old ≡ length numbering.now }
    ensures { (a : Arena) → Deepens numbering.now counts.now level (value_content a value) levels.old levels.new }
{
    if let Value::Node(node) = value {
        if let Some(number) = numbering.number_of(node) {
            if let Meetings::One = counts[number as usize] {
                levels[number as usize] = level;
            }
        }
    }
}

/// By number how many nodes stand around each node with itself, counted from the root or a node of the table on.
pub(crate) fn count_levels(
    alloc: Global,
    graph: &Rooted,
    numbering: &Numbering,
    counts: &[Meetings],
) -> Result<Vec<u8>, Memory>
    requires order { IsOrder (content graph.now) numbering.now }
    requires counts { AreCounts numbering.now (all_met (content graph.now) numbering.now) counts.now }
    ensures levels { IfOk result (λ levels. AreLevels (content graph.now) numbering.now (λ i. get_or levels.items (place_of numbering.now i) 0)) }
    ensures all { IfOk result (λ levels. length levels.items ≡ length numbering.now) }
{
    graph.is_finished();
    let mut levels = vec![in alloc; 1u8; numbering.count() as usize]?;
    for number in 0..numbering.count() {
        let values = values_met(alloc, numbering.node_at(number), graph)?;
        let level = next_level(levels[number as usize]);
        for value in &values {
            deepen(*value, numbering, counts, level, &mut levels);
        }
    }
    Ok(levels)
}
