ghost use Rattle.std.specs.Prelude.{◌≡◌, ◌+◌, ◌<◌, ◌≤◌, [], ◌++◌, length, OnOk};
ghost use Rattle.amf_graph.specs.Building.{stored_at};
ghost use Rattle.amf_graph.specs.Graph.{node_at};
ghost use Rattle.amf_graph.specs.Rooted.{content};
ghost use Rattle.amf_graph.specs.Views.{Shows};
ghost use Rattle.amf_graph.specs.Bounds.{count_end};
ghost use Rattle.amf_iso.specs.Contents.{AreValues, ArePairs};
ghost use Rattle.amf_iso.specs.Remembered.{AreInOrder};
ghost use Rattle.amf3_write.specs.Contents.{node_segments};
ghost use Rattle.amf3_write.specs.Unwritten.{AreRunsOf, segments_left, turns_left, node_turns};
ghost use Rattle.amf3_write.specs.Unwritten.{LeadsToRest, sorted_ahead, array_ahead, object_ahead};
ghost use Rattle.amf3_write.specs.Writes.{Keeps, IsReady};

use crate::output::Output;
use crate::unwritten::{Unwritten, push_values};
use amf_graph::{NodeId, NodeView, Rooted, TextId, TraitsId, Value};
use amf_iso::LastOrder;
use amf_wire::Memory;

/// Nodes behind their markers, up to their first values.
impl Output {
    /// The header of a node and what stands behind it up to its first value; what is behind that goes onto the stack (3.9 to
    /// 3.16).
    pub(crate) fn open<'g>(
        &mut self,
        node: NodeId,
        view: NodeView<'g>,
        graph: &'g Rooted,
        order: &mut LastOrder,
        waiting: &mut Vec<Unwritten<'g>>,
    ) -> Result<(), Memory>
        requires there { node.0 < length graph.now.arena.nodes }
        requires shown { Shows graph.now.arena (stored_at graph.now.arena node.0) view }
        requires runs { AreRunsOf graph.now.arena waiting.old.items }
        requires order { AreInOrder graph.now.arena order.old }
        requires ready { IsReady graph.now.arena self.old.tables self.old.known }
        ensures leads { OnOk result (LeadsToRest graph.now (node_segments (node_at (content graph.now) node.0)) waiting.old.items waiting.new.items self.old self.new) }
        ensures runs { OnOk result (AreRunsOf graph.now.arena waiting.new.items) }
        ensures turns { OnOk result (turns_left waiting.new.items ≤ turns_left waiting.old.items + node_turns) }
        ensures keeps { Keeps self.old self.new }
        ensures order { AreInOrder graph.now.arena order.new }
        ensures ready { OnOk result (IsReady graph.now.arena self.new.tables self.new.known) }
    {
        let _ = node;
        graph.is_finished();
        match view {
            NodeView::XmlDocument(text) => self.counted(text),
            NodeView::Xml(text) => self.counted(text),
            NodeView::Bytes(bytes) => self.counted(bytes),
            NodeView::Date(milliseconds) => self.date(milliseconds),
            NodeView::Ints { fixed, items } => self.ints(fixed, items),
            NodeView::Uints { fixed, items } => self.uints(fixed, items),
            NodeView::Doubles { fixed, items } => self.doubles(fixed, items),
            NodeView::Array { items, names } => self.array(items, names, graph, order, waiting),
            NodeView::Object {
                traits,
                sealed,
                members,
            } => self.object(traits, sealed, members, graph, order, waiting),
            NodeView::Wrapper { class, value } => {
                self.wrapper(class)?;
                waiting.push(Unwritten::One(value))?;
                Ok(())
            }
            NodeView::Values { fixed, of, items } => {
                self.vector(items.len(), fixed)?;
                self.text_of(of, graph)?;
                waiting.push(Unwritten::Values(items))?;
                Ok(())
            }
            NodeView::Dictionary { weak, entries } => {
                self.vector(entries.len(), weak)?;
                waiting.push(Unwritten::Entries(entries))?;
                Ok(())
            }
        }
    }

    /// An array: its named pairs, and then its items (3.11).
    fn array<'g>(
        &mut self,
        items: &'g [Value],
        names: &'g [(TextId, Value)],
        graph: &'g Rooted,
        order: &mut LastOrder,
        waiting: &mut Vec<Unwritten<'g>>,
    ) -> Result<(), Memory>
        requires values { AreValues graph.now.arena items.now }
        requires few { length items.now < count_end }
        requires pairs { ArePairs graph.now.arena names.now }
        requires runs { AreRunsOf graph.now.arena waiting.old.items }
        requires order { AreInOrder graph.now.arena order.old }
        requires ready { IsReady graph.now.arena self.old.tables self.old.known }
        ensures leads { OnOk result (LeadsToRest graph.now (array_ahead graph.now.arena names.now items.now) waiting.old.items waiting.new.items self.old self.new) }
        ensures runs { OnOk result (AreRunsOf graph.now.arena waiting.new.items) }
        ensures turns { OnOk result (turns_left waiting.new.items ≤ turns_left waiting.old.items + (length names.now + length items.now + 2)) }
        ensures keeps { Keeps self.old self.new }
        ensures order { AreInOrder graph.now.arena order.new }
        ensures ready { OnOk result (IsReady graph.now.arena self.new.tables self.new.known) }
    {
        self.number(2 * items.len() as u32 + 1)?;
        push_values(items, waiting)?;
        self.pairs_of(names, graph, order, waiting)
    }

    /// Pairs in by-name order, onto the stack. Where there are none, the empty name that ends them is written.
    fn pairs_of<'g>(
        &mut self,
        pairs: &'g [(TextId, Value)],
        graph: &'g Rooted,
        order: &mut LastOrder,
        waiting: &mut Vec<Unwritten<'g>>,
    ) -> Result<(), Memory>
        requires pairs { ArePairs graph.now.arena pairs.now }
        requires order { AreInOrder graph.now.arena order.old }
        requires ready { IsReady graph.now.arena self.old.tables self.old.known }
        ensures leads { OnOk result (LeadsToRest graph.now (sorted_ahead graph.now.arena pairs.now) waiting.old.items waiting.new.items self.old self.new) }
        ensures runs { AreRunsOf graph.now.arena waiting.old.items → OnOk result (AreRunsOf graph.now.arena waiting.new.items) }
        ensures turns { OnOk result (turns_left waiting.new.items ≤ turns_left waiting.old.items + (length pairs.now + 1)) }
        ensures keeps { Keeps self.old self.new }
        ensures order { AreInOrder graph.now.arena order.new }
        ensures ready { OnOk result (IsReady graph.now.arena self.new.tables self.new.known) }
    {
        if pairs.is_empty() {
            self.text(b"")?;
            return Ok(());
        }
        push_pairs(pairs, graph, order, waiting)
    }

    /// An object: its sealed values, and then its members, if it may have some (3.12).
    fn object<'g>(
        &mut self,
        traits: TraitsId,
        sealed: &'g [Value],
        members: &'g [(TextId, Value)],
        graph: &'g Rooted,
        order: &mut LastOrder,
        waiting: &mut Vec<Unwritten<'g>>,
    ) -> Result<(), Memory>
        requires traits { traits.0 < length graph.now.arena.traits }
        requires values { AreValues graph.now.arena sealed.now }
        requires pairs { ArePairs graph.now.arena members.now }
        requires runs { AreRunsOf graph.now.arena waiting.old.items }
        requires order { AreInOrder graph.now.arena order.old }
        requires ready { IsReady graph.now.arena self.old.tables self.old.known }
        ensures leads { OnOk result (LeadsToRest graph.now (object_ahead graph.now.arena traits.0 members.now sealed.now) waiting.old.items waiting.new.items self.old self.new) }
        ensures runs { OnOk result (AreRunsOf graph.now.arena waiting.new.items) }
        ensures turns { OnOk result (turns_left waiting.new.items ≤ turns_left waiting.old.items + (length members.now + length sealed.now + 2)) }
        ensures keeps { Keeps self.old self.new }
        ensures order { AreInOrder graph.now.arena order.new }
        ensures ready { OnOk result (IsReady graph.now.arena self.new.tables self.new.known) }
    {
        graph.is_finished();
        let class = graph.traits(traits);
        self.traits(traits, graph)?;
        if class.dynamic {
            push_pairs(members, graph, order, waiting)?;
        }
        push_values(sealed, waiting)?;
        Ok(())
    }
}

/// Puts pairs onto the stack, in by-name order: as they stand, if they stand in it.
fn push_pairs<'g>(
    pairs: &'g [(TextId, Value)],
    graph: &'g Rooted,
    order: &mut LastOrder,
    waiting: &mut Vec<Unwritten<'g>>,
) -> Result<(), Memory>
    requires pairs { ArePairs graph.now.arena pairs.now }
    requires order { AreInOrder graph.now.arena order.old }
    ensures left { OnOk result (segments_left graph.now.arena waiting.new.items ≡ sorted_ahead graph.now.arena pairs.now ++ segments_left graph.now.arena waiting.old.items) }
    ensures runs { AreRunsOf graph.now.arena waiting.old.items → OnOk result (AreRunsOf graph.now.arena waiting.new.items) }
    ensures turns { OnOk result (turns_left waiting.new.items ≡ turns_left waiting.old.items + (length pairs.now + 1)) }
    ensures order { AreInOrder graph.now.arena order.new }
{
    if order.are_by_name(pairs, graph) {
        waiting.push(Unwritten::Pairs(pairs))?;
        return Ok(());
    }
    let mut sorted = order.ids_by_name(pairs, graph)?;
    sorted.reverse();
    waiting.push(Unwritten::Sorted(sorted))?;
    Ok(())
}
