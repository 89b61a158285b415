ghost use Rattle.std.specs.Prelude.{◌≡◌, ◌≢◌, ◌+◌, ◌<◌, ◌≤◌, [], length, OnOk};
ghost use Rattle.std.specs.List.{AllByRecursion};
ghost use Rattle.amf_graph.specs.declared.value.Value.TheVariants.{Node as NodeRef};
ghost use Rattle.amf_graph.specs.Arena.{traits_at};
ghost use Rattle.amf_graph.specs.Building.{stored_at};
ghost use Rattle.amf_graph.specs.Graph.{node_at};
ghost use Rattle.amf_graph.specs.Order.{Absent};
ghost use Rattle.amf_graph.specs.Rooted.{content};
ghost use Rattle.amf_graph.specs.Views.{Shows};
ghost use Rattle.amf_iso.specs.Remembered.{AreInOrder};
ghost use Rattle.amf0_spelling.specs.Lacks0.{HasNoForm, HasShortNames, IsShortName};
ghost use Rattle.amf0_spelling.specs.Lowered.{IsLowered};
ghost use Rattle.amf0_spelling.specs.Spells0.{IsOpenTraits};
ghost use Rattle.amf0_write.specs.Unwritten0.{IsMetValue, AreMetPairs, AreRunsOf, turns_left, TurnsFall, opened_turns};
ghost use Rattle.amf0_write.specs.Unwritten0.{LeadsNode, OpensArray, OpensObject, PutsSorted};
ghost use Rattle.amf0_write.specs.Writes0.{done_of, Keeps};
ghost use Rattle.amf_graph.specs.Bounds.{count_end};

use crate::output::Output;
use crate::unwritten::{Unwritten, push_values};
use amf_graph::{NodeId, NodeView, Rooted, TextId, TraitsId, Value};
use amf_iso::LastOrder;
use amf_wire::Memory;

/// Nodes that have a form, up to their first values.
impl Output {
    /// A node that has not been written, up to its first value; what is behind that goes onto the stack. An array or an object
    /// is in the table from its marker on, a date or an XML document is not (2.9).
    pub(crate) fn open<'g>(
        &mut self,
        node: NodeId,
        view: NodeView<'g>,
        graph: &'g Rooted,
        order: &mut LastOrder,
        waiting: &mut Vec<Unwritten<'g>>,
    ) -> Result<(), Memory>
        requires low { IsLowered (content graph.now) }
        requires met { IsMetValue graph.now (NodeRef node) }
        requires shown { Shows graph.now.arena (stored_at graph.now.arena node.0) view }
        requires new { Absent (done_of self.old) node.0 }
        requires form { HasNoForm (node_at (content graph.now) node.0) (node_at (content graph.now) node.0).head → ⊥ }
        requires short { HasShortNames (node_at (content graph.now) node.0) }
        requires runs { AreRunsOf graph.now waiting.old.items }
        requires order { AreInOrder graph.now.arena order.old }
        ensures leads { OnOk result (LeadsNode graph.now node waiting.old.items waiting.new.items self.old self.new) }
        ensures runs { OnOk result (AreRunsOf graph.now waiting.new.items) }
        ensures falls { OnOk result (TurnsFall graph.now waiting.old.items waiting.new.items self.old self.new) }
        ensures keeps { Keeps self.old self.new }
        ensures order { AreInOrder graph.now.arena order.new }
    {
        graph.is_finished();
        match view {
            NodeView::Date(milliseconds) => self.date(node, milliseconds),
            NodeView::XmlDocument(text) => self.document(node, text),
            NodeView::Array { items, names } => {
                self.enter(node)?;
                self.array(items, names, graph, order, waiting)
            }
            NodeView::Object {
                traits,
                members,
                ..
            } => {
                self.enter(node)?;
                self.object(traits, members, graph, order, waiting)
            }
            _ => unreachable!(),
        }
    }

    /// An array: by its items where it has no names, and else by its names alone (2.10, 2.12).
    fn array<'g>(
        &mut self,
        items: &'g [Value],
        names: &'g [(TextId, Value)],
        graph: &'g Rooted,
        order: &mut LastOrder,
        waiting: &mut Vec<Unwritten<'g>>,
    ) -> Result<(), Memory>
        requires few { length items.now < count_end }
        requires few_names { length names.now < count_end }
        requires form { names.now ≢ [] → items.now ≡ [] }
        requires items { AllByRecursion (IsMetValue graph.now) items.now }
        requires names { AreMetPairs graph.now names.now }
        requires order { AreInOrder graph.now.arena order.old }
        ensures opened { OnOk result (OpensArray graph.now names.now items.now waiting.old.items waiting.new.items self.old self.new) }
        ensures runs { AreRunsOf graph.now waiting.old.items → OnOk result (AreRunsOf graph.now waiting.new.items) }
        ensures turns { OnOk result (turns_left waiting.new.items ≤ turns_left waiting.old.items + opened_turns) }
        ensures keeps { Keeps self.old self.new }
        ensures order { AreInOrder graph.now.arena order.new }
    {
        if names.is_empty() {
            self.counted(0x0A, items.len())?;
            push_values(items, waiting)
        } else {
            self.counted(0x08, names.len())?;
            push_pairs(names, graph, order, waiting)
        }
    }

    /// An object: without a name where its class is empty (2.5, 2.18).
    fn object<'g>(
        &mut self,
        traits: TraitsId,
        members: &'g [(TextId, Value)],
        graph: &'g Rooted,
        order: &mut LastOrder,
        waiting: &mut Vec<Unwritten<'g>>,
    ) -> Result<(), Memory>
        requires traits { traits.0 < length graph.now.arena.traits }
        requires open { IsOpenTraits (traits_at graph.now.arena traits.0) }
        requires class { IsShortName (traits_at graph.now.arena traits.0).class }
        requires few_names { length members.now < count_end }
        requires names { AreMetPairs graph.now members.now }
        requires order { AreInOrder graph.now.arena order.old }
        ensures opened { OnOk result (OpensObject graph.now traits.0 members.now waiting.old.items waiting.new.items self.old self.new) }
        ensures runs { AreRunsOf graph.now waiting.old.items → OnOk result (AreRunsOf graph.now waiting.new.items) }
        ensures turns { OnOk result (turns_left waiting.new.items ≤ turns_left waiting.old.items + opened_turns) }
        ensures keeps { Keeps self.old self.new }
        ensures order { AreInOrder graph.now.arena order.new }
    {
        graph.is_finished();
        let class = graph.text(graph.traits(traits).class);
        self.object_front(class)?;
        push_pairs(members, graph, order, waiting)
    }
}

/// Puts pairs onto the stack, in by-name order: as they stand, if they stand in it.
#[inline(always)]
fn push_pairs<'g>(
    pairs: &'g [(TextId, Value)],
    graph: &'g Rooted,
    order: &mut LastOrder,
    waiting: &mut Vec<Unwritten<'g>>,
) -> Result<(), Memory>
    requires pairs { AreMetPairs graph.now pairs.now }
    requires order { AreInOrder graph.now.arena order.old }
    ensures left { OnOk result (PutsSorted graph.now.arena pairs.now waiting.old.items waiting.new.items) }
    ensures runs { AreRunsOf graph.now waiting.old.items → OnOk result (AreRunsOf graph.now waiting.new.items) }
    ensures turns { OnOk result (turns_left waiting.new.items ≡ turns_left waiting.old.items + (length pairs.now + 1)) }
    ensures order { AreInOrder graph.now.arena order.new }
{
    if order.are_by_name(pairs, graph) {
        waiting.push(Unwritten::Pairs(pairs))?;
        return Ok(());
    }
    let mut sorted = order.ids_by_name(pairs, graph)?;
    sorted.reverse();
    waiting.push(Unwritten::Sorted(sorted))?;
    Ok(())
}
