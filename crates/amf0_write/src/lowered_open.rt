//! Nodes of a graph that is seen as if it were lowered.

ghost use Rattle.std.specs.Prelude.{ℕ, ◌≡◌, ◌≢◌, ◌+◌, ◌<◌, ◌≤◌, ◌∷◌, [], length, OnOk};
ghost use Rattle.std.specs.List.{AllByRecursion};
ghost use Rattle.std.specs.Result.{IsErrOf};
ghost use Rattle.amf_graph.specs.declared.value.Value.TheVariants.{Node as NodeRef};
ghost use Rattle.amf_graph.specs.Arena.{array, object, date, xml_document, text_at, traits_at};
ghost use Rattle.amf_graph.specs.Building.{stored_at, closed};
ghost use Rattle.amf_graph.specs.Graph as graph_of_values;
ghost use Rattle.amf_graph.specs.Order.{Absent};
ghost use Rattle.amf_graph.specs.Rooted.{content};
ghost use Rattle.amf_graph.specs.Views.{named};
ghost use Rattle.amf_graph.specs.Bounds.{count_end};
ghost use Rattle.amf_iso.specs.Remembered.{AreInOrder};
ghost use Rattle.amf0_spelling.specs.Lacks0.{IsShortName};
ghost use Rattle.amf0_spelling.specs.Lowered.{IsLowered};
ghost use Rattle.amf0_spelling.specs.Spells0.{IsOpenTraits};
ghost use Rattle.amf0_write.specs.declared.stop.Stop.TheVariants.{Lack};
ghost use Rattle.amf0_write.specs.Unwritten0.{IsMetValue, AreMetPairs, AreRunsOf, turns_left, TurnsFall, opened_turns, LeadsNode, StopsWithin};
ghost use Rattle.amf0_write.specs.Unwritten0.{OpensArray, OpensObject, PutsSorted};
ghost use Rattle.amf0_write.specs.Writes0 as segment;
ghost use Rattle.amf0_write.specs.Writes0.{done_of, Still, Keeps};

use crate::lowered::Lowered;
use crate::output::Output;
use crate::rooms::Rooms;
use crate::stop::Stop;
use crate::unwritten::Unwritten;
use crate::values::MAX_SHORT;
use amf_graph::{NodeId, TextId, TraitsId, Value};
use amf_wire::{Memory, Pattern};

impl Output {
    /// A date (2.13).
    pub(crate) fn lowered_date<'g>(
        &mut self,
        node: NodeId,
        milliseconds: Pattern,
        graph: &'g Lowered<'g>,
        waiting: &mut Vec<Unwritten<'g>>,
    ) -> Result<(), Stop>
        requires low { IsLowered (content graph.now) }
        requires met { IsMetValue graph.now (NodeRef node) }
        requires there { stored_at graph.now.arena node.0 ≡ closed (date milliseconds.0) [] [] }
        requires new { Absent (done_of self.old) node.0 }
        requires runs { AreRunsOf graph.now waiting.old.items }
        ensures leads { OnOk result (LeadsNode graph.now node waiting.old.items waiting.new.items self.old self.new) }
        ensures lack { IsErrOf result Lack → StopsWithin graph.now (segment.value (graph_of_values.node node.0) ∷ []) waiting.old.items self.old }
        ensures still { IsErrOf result Lack → Still self.old self.new }
        ensures runs { OnOk result (AreRunsOf graph.now waiting.new.items) }
        ensures falls { OnOk result (TurnsFall graph.now waiting.old.items waiting.new.items self.old self.new) }
        ensures keeps { Keeps self.old self.new }
    {
        let _ = waiting;
        graph.is_finished();
        self.date(node, milliseconds)?;
        Ok(())
    }

    /// An XML document (2.17).
    pub(crate) fn lowered_document<'g>(
        &mut self,
        node: NodeId,
        text: &[u8],
        graph: &'g Lowered<'g>,
        waiting: &mut Vec<Unwritten<'g>>,
    ) -> Result<(), Stop>
        requires low { IsLowered (content graph.now) }
        requires met { IsMetValue graph.now (NodeRef node) }
        requires there { (x : ℕ) × (stored_at graph.now.arena node.0 ≡ closed (xml_document x) [] []) × (text.now ≡ text_at graph.now.arena x) }
        requires new { Absent (done_of self.old) node.0 }
        requires runs { AreRunsOf graph.now waiting.old.items }
        ensures leads { OnOk result (LeadsNode graph.now node waiting.old.items waiting.new.items self.old self.new) }
        ensures lack { IsErrOf result Lack → StopsWithin graph.now (segment.value (graph_of_values.node node.0) ∷ []) waiting.old.items self.old }
        ensures still { IsErrOf result Lack → Still self.old self.new }
        ensures runs { OnOk result (AreRunsOf graph.now waiting.new.items) }
        ensures falls { OnOk result (TurnsFall graph.now waiting.old.items waiting.new.items self.old self.new) }
        ensures keeps { Keeps self.old self.new }
    {
        let _ = waiting;
        graph.is_finished();
        self.document(node, text)?;
        Ok(())
    }

    /// An array: by its items where it has no names, and else by its names alone (2.10, 2.12).
    pub(crate) fn lowered_array<'g>(
        &mut self,
        node: NodeId,
        items: Vec<Value>,
        names: Vec<(TextId, Value)>,
        graph: &'g Lowered<'g>,
        rooms: &mut Rooms,
        waiting: &mut Vec<Unwritten<'g>>,
    ) -> Result<(), Stop>
        requires low { IsLowered (content graph.now) }
        requires met { IsMetValue graph.now (NodeRef node) }
        requires there { stored_at graph.now.arena node.0 ≡ closed array (named names.items) items.items }
        requires new { Absent (done_of self.old) node.0 }
        requires runs { AreRunsOf graph.now waiting.old.items }
        requires order { AreInOrder graph.now.arena rooms.old.order }
        ensures leads { OnOk result (LeadsNode graph.now node waiting.old.items waiting.new.items self.old self.new) }
        ensures lack { IsErrOf result Lack → StopsWithin graph.now (segment.value (graph_of_values.node node.0) ∷ []) waiting.old.items self.old }
        ensures still { IsErrOf result Lack → Still self.old self.new }
        ensures runs { OnOk result (AreRunsOf graph.now waiting.new.items) }
        ensures falls { OnOk result (TurnsFall graph.now waiting.old.items waiting.new.items self.old self.new) }
        ensures keeps { Keeps self.old self.new }
        ensures order { AreInOrder graph.now.arena rooms.new.order }
    {
        graph.is_finished();
        if !items.is_empty() && !names.is_empty() {
            return Err(Stop::Lack);
        }
        if !graph.are_short(&names) {
            return Err(Stop::Lack);
        }
        self.enter(node)?;
        self.made_array(items, names, graph, rooms, waiting)?;
        Ok(())
    }

    /// An object: without a name where its class is empty (2.5, 2.18).
    pub(crate) fn lowered_object<'g>(
        &mut self,
        node: NodeId,
        traits: TraitsId,
        members: Vec<(TextId, Value)>,
        graph: &'g Lowered<'g>,
        rooms: &mut Rooms,
        waiting: &mut Vec<Unwritten<'g>>,
    ) -> Result<(), Stop>
        requires low { IsLowered (content graph.now) }
        requires met { IsMetValue graph.now (NodeRef node) }
        requires there { stored_at graph.now.arena node.0 ≡ closed (object traits.0) (named members.items) [] }
        requires new { Absent (done_of self.old) node.0 }
        requires runs { AreRunsOf graph.now waiting.old.items }
        requires order { AreInOrder graph.now.arena rooms.old.order }
        ensures leads { OnOk result (LeadsNode graph.now node waiting.old.items waiting.new.items self.old self.new) }
        ensures lack { IsErrOf result Lack → StopsWithin graph.now (segment.value (graph_of_values.node node.0) ∷ []) waiting.old.items self.old }
        ensures still { IsErrOf result Lack → Still self.old self.new }
        ensures runs { OnOk result (AreRunsOf graph.now waiting.new.items) }
        ensures falls { OnOk result (TurnsFall graph.now waiting.old.items waiting.new.items self.old self.new) }
        ensures keeps { Keeps self.old self.new }
        ensures order { AreInOrder graph.now.arena rooms.new.order }
    {
        graph.is_finished();
        let class = graph.class(traits);
        if class.len() > MAX_SHORT {
            return Err(Stop::Lack);
        }
        if !graph.are_short(&members) {
            return Err(Stop::Lack);
        }
        self.enter(node)?;
        self.made_object(traits, class, members, graph, rooms, waiting)?;
        Ok(())
    }

    /// The marker and the parts of an array that was made.
    fn made_array<'g>(
        &mut self,
        mut items: Vec<Value>,
        names: Vec<(TextId, Value)>,
        graph: &'g Lowered<'g>,
        rooms: &mut Rooms,
        waiting: &mut Vec<Unwritten<'g>>,
    ) -> Result<(), Memory>
        requires few { length items.items < count_end }
        requires few_names { length names.items < count_end }
        requires form { names.items ≢ [] → items.items ≡ [] }
        requires items { AllByRecursion (IsMetValue graph.now) items.items }
        requires names { AreMetPairs graph.now names.items }
        requires order { AreInOrder graph.now.arena rooms.old.order }
        ensures opened { OnOk result (OpensArray graph.now names.items items.items waiting.old.items waiting.new.items self.old self.new) }
        ensures runs { AreRunsOf graph.now waiting.old.items → OnOk result (AreRunsOf graph.now waiting.new.items) }
        ensures turns { OnOk result (turns_left waiting.new.items ≤ turns_left waiting.old.items + opened_turns) }
        ensures keeps { Keeps self.old self.new }
        ensures order { AreInOrder graph.now.arena rooms.new.order }
    {
        if names.is_empty() {
            self.counted(0x0A, items.len())?;
            items.reverse();
            waiting.push(Unwritten::Made(items))?;
            Ok(())
        } else {
            self.counted(0x08, names.len())?;
            push_made(names, graph, rooms, waiting)
        }
    }

    /// The marker and the parts of an object that was made.
    fn made_object<'g>(
        &mut self,
        traits: TraitsId,
        class: &[u8],
        members: Vec<(TextId, Value)>,
        graph: &'g Lowered<'g>,
        rooms: &mut Rooms,
        waiting: &mut Vec<Unwritten<'g>>,
    ) -> Result<(), Memory>
        requires traits { traits.0 < length graph.now.arena.traits }
        requires open { IsOpenTraits (traits_at graph.now.arena traits.0) }
        requires is_class { class.now ≡ (traits_at graph.now.arena traits.0).class }
        requires class { IsShortName (traits_at graph.now.arena traits.0).class }
        requires few_names { length members.items < count_end }
        requires names { AreMetPairs graph.now members.items }
        requires order { AreInOrder graph.now.arena rooms.old.order }
        ensures opened { OnOk result (OpensObject graph.now traits.0 members.items waiting.old.items waiting.new.items self.old self.new) }
        ensures runs { AreRunsOf graph.now waiting.old.items → OnOk result (AreRunsOf graph.now waiting.new.items) }
        ensures turns { OnOk result (turns_left waiting.new.items ≤ turns_left waiting.old.items + opened_turns) }
        ensures keeps { Keeps self.old self.new }
        ensures order { AreInOrder graph.now.arena rooms.new.order }
    {
        let _ = traits;
        graph.is_finished();
        self.object_front(class)?;
        push_made(members, graph, rooms, waiting)
    }
}

/// Puts pairs onto the stack, in by-name order.
fn push_made<'g>(
    pairs: Vec<(TextId, Value)>,
    graph: &'g Lowered<'g>,
    rooms: &mut Rooms,
    waiting: &mut Vec<Unwritten<'g>>,
) -> Result<(), Memory>
    requires pairs { AreMetPairs graph.now pairs.items }
    requires order { AreInOrder graph.now.arena rooms.old.order }
    ensures left { OnOk result (PutsSorted graph.now.arena pairs.items waiting.old.items waiting.new.items) }
    ensures runs { AreRunsOf graph.now waiting.old.items → OnOk result (AreRunsOf graph.now waiting.new.items) }
    ensures turns { OnOk result (turns_left waiting.new.items ≡ turns_left waiting.old.items + (length pairs.items + 1)) }
    ensures order { AreInOrder graph.now.arena rooms.new.order }
{
    let mut sorted = graph.sorted(pairs, rooms)?;
    sorted.reverse();
    waiting.push(Unwritten::Sorted(sorted))?;
    Ok(())
}
