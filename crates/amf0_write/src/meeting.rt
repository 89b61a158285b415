ghost use Rattle.std.specs.Prelude.{◌<◌, length, IfOk};
ghost use Rattle.std.specs.List.{AllByRecursion};
ghost use Rattle.amf3_spelling.specs.Tables.{Tables};
ghost use Rattle.amf0_write.specs.Searched.{WasMet, HaveGrownFrom, AreMetBefore};

use amf_graph::{NodeId, Rooted};
use amf_tables::WriterTables;
use amf_wire::Memory;
use std::alloc::Global;

/// How a node was met.
#[derive(Clone, Copy, Debug, PartialEq, Eq)]
pub(crate) enum Meeting {
    /// It was never met.
    Never,
    /// It was, and no index names it.
    Alone,
    /// It was, and this index names it.
    At(u32),
}

/// How a node was met when the tables had so many places. One that was entered since without a place counts as met.
fn was_met(node: NodeId, tables: &WriterTables, count: u32) -> Meeting
    ensures { WasMet tables.now count node.0 result }
{
    match tables.place_of_node(node) {
        Some(place) => {
            if place < count {
                Meeting::At(place)
            } else {
                Meeting::Never
            }
        }
        None => {
            if tables.is_done(node) {
                Meeting::Alone
            } else {
                Meeting::Never
            }
        }
    }
}

/// How the nodes of a graph were met when the tables had so many places, before these nodes were entered without one.
pub(crate) fn meetings_before(
    alloc: Global,
    tables: &WriterTables,
    count: u32,
    loose: &[NodeId],
    graph: &Rooted,
) -> Result<Vec<Meeting>, Memory>
    requires within { AllByRecursion (λ n. n.0 < length graph.now.arena.nodes) loose.now }
    ensures { (t : Tables) → HaveGrownFrom graph.now count t tables.now loose.now → IfOk result (λ meetings. AreMetBefore graph.now t meetings.items count) }
{
    graph.is_finished();
    let mut meetings = Vec::new(alloc);
    for number in 0..graph.node_count() {
        meetings.push(was_met(NodeId(number), tables, count))?;
    }
    for node in loose {
        meetings[node.0 as usize] = Meeting::Never;
    }
    Ok(meetings)
}
