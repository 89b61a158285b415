ghost use Rattle.std.specs.Prelude.{◌≢◌, ◌<◌, ◌≤◌, ◌^◌, ◌∷◌, ◌++◌, [], length, IfOk, OnOk};
ghost use Rattle.std.specs.Int.{to_be_bytes, w16};
ghost use Rattle.std.specs.Result.{IsErrOf};
ghost use Rattle.amf_graph.specs.declared.value.NodeId.{NodeId};
ghost use Rattle.amf_graph.specs.declared.value.Value.TheVariants.{Node as NodeRef};
ghost use Rattle.amf_graph.specs.Arena.{value_content};
ghost use Rattle.amf_graph.specs.Graph as graph_of_values;
ghost use Rattle.amf_graph.specs.Order.{Absent};
ghost use Rattle.amf_graph.specs.Rooted.{RootedArena, content};
ghost use Rattle.amf_wire.specs.Text.{IsText};
ghost use Rattle.amf_iso.specs.Remembered.{AreInOrder};
ghost use Rattle.amf0_spelling.specs.Lowered.{IsLowered};
ghost use Rattle.amf0_write.specs.declared.stop.Stop.TheVariants.{Lack};
ghost use Rattle.amf0_write.specs.Unwritten0.{IsMetValue, AreRunsOf, IsNextOf, IsLeafOf, TurnsFall};
ghost use Rattle.amf0_write.specs.Unwritten0.{LeadsNode, LeadsValue, LeadsNamed, StopsAt, StopsNamed, StopsWithin};
ghost use Rattle.amf0_write.specs.Writes0 as segment;
ghost use Rattle.amf0_write.specs.Writes0.{tables_of, done_of, IsLeafSpelled, Adds, AddsBy, Still, Grown, Leads, Keeps, Stops};
ghost use Rattle.amf0_write.specs.Written0.{AreTables0};

use crate::lowered::Lowered;
use crate::lowered_node::LoweredNode;
use crate::nodes::{has_no_form, has_short_names};
use crate::output::Output;
use crate::rooms::Rooms;
use crate::stop::Stop;
use crate::unwritten::Unwritten;
use amf_graph::{NodeId, Rooted, Value};
use amf_iso::LastOrder;
use amf_wire::Memory;

/// The longest text behind a length of 16 bits (1.3.1).
pub(crate) const MAX_SHORT: usize = 65_535;

/// The least place that no index can say (2.9).
pub(crate) const FAR: u32 = 65_536;

impl Output {
    /// A value of a lowered graph, and all to which it leads that has not been written (2.2 to 2.18).
    pub(crate) fn value<'g>(&mut self, value: Value, graph: &'g Lowered<'g>) -> Result<(), Stop>
        requires low { IsLowered (content graph.now) }
        requires met { IsMetValue graph.now value }
        requires tables { AreTables0 (content graph.now) (tables_of self.old) }
        ensures leads { OnOk result (Leads (content graph.now) (segment.value (value_content graph.now.arena value) ∷ []) [] self.old self.new) }
        ensures lack { IsErrOf result Lack → Stops (content graph.now) (segment.value (value_content graph.now.arena value) ∷ []) self.old }
        ensures grown { IsErrOf result Lack → Grown (content graph.now) self.old self.new × AreTables0 (content graph.now) (tables_of self.new) }
        ensures keeps { Keeps self.old self.new }
    {
        let order = LastOrder::new(self.alloc);
        let pairs = Vec::new(self.alloc);
        let mut rooms = Rooms { order, pairs };
        let mut waiting = vec![in self.alloc; Unwritten::One(value)]?;
        while let Some(top) = waiting.pop() {
            let next = self.run(top, graph, &mut rooms, &mut waiting)?;
            if let Some(node) = next {
                self.new_node(node, graph, &mut rooms, &mut waiting)?;
            }
        }
        Ok(())
    }

    /// Writes a value that is whole where it starts: one that is no node, or a node by its index. A node that has not been
    /// written is given back. It stops at one that was, and that no index can say.
    #[inline(always)]
    pub(crate) fn whole(
        &mut self,
        value: Value,
        graph: &Lowered<'_>,
    ) -> Result<Option<NodeId>, Stop>
        requires low { IsLowered (content graph.now) }
        requires met { IsMetValue graph.now value }
        requires tables { AreTables0 (content graph.now) (tables_of self.old) }
        ensures leads { IfOk result (λ next. LeadsValue (content graph.now) (value_content graph.now.arena value) next self.old self.new) }
        ensures lack { IsErrOf result Lack → StopsAt (content graph.now) (value_content graph.now.arena value) self.old }
        ensures next { IfOk result (IsNextOf graph.now (done_of self.new)) }
        ensures still { OnOk result (Still self.old self.new) }
        ensures stopped { IsErrOf result Lack → Still self.old self.new }
        ensures keeps { Keeps self.old self.new }
    {
        match value {
            Value::Node(node) => self.known_node(node),
            _ => {
                self.plain(value, graph)?;
                Ok(None)
            }
        }
    }

    /// A value that is no node.
    #[inline(always)]
    fn plain(&mut self, value: Value, graph: &Lowered<'_>) -> Result<(), Memory>
        requires low { IsLowered (content graph.now) }
        requires met { IsMetValue graph.now value }
        requires leaf { (n : NodeId) → value ≢ NodeRef n }
        ensures adds { (x : graph_of_values.Leaf) → IsLeafOf graph.now value x → OnOk result (AddsBy (IsLeafSpelled x) self.old self.new) }
        ensures keeps { Keeps self.old self.new }
    {
        match value {
            Value::Undefined => self.byte(0x06),
            Value::Null => self.byte(0x05),
            Value::Bool(flag) => self.raw(&[0x01, u8::from(flag)]),
            Value::Double(double) => {
                self.byte(0x00)?;
                self.double(double)
            }
            Value::Text(text) => {
                graph.is_finished();
                self.text(graph.text(text))
            }
            Value::Integer(_) => unreachable!(),
            Value::Node(_) => unreachable!(),
        }
    }

    /// A text, by the shorter length where it fits (2.4, 2.14).
    #[inline(always)]
    fn text(&mut self, text: &[u8]) -> Result<(), Memory>
        requires is_text { IsText text.now }
        requires fits { length text.now < 2 ^ 32 }
        ensures adds { OnOk result (AddsBy (IsLeafSpelled (graph_of_values.text text.now)) self.old self.new) }
        ensures keeps { Keeps self.old self.new }
    {
        if text.len() <= MAX_SHORT {
            self.byte(0x02)?;
            self.short(text)
        } else {
            self.byte(0x0C)?;
            self.long(text)
        }
    }

    /// Writes a node by its index (2.9). One that has not been written is given back. It stops where no index can say the place.
    #[inline(always)]
    fn known_node(&mut self, node: NodeId) -> Result<Option<NodeId>, Stop>
        ensures leads { (g : graph_of_values.Graph) → AreTables0 g (tables_of self.old) → IfOk result (λ next. LeadsNamed g node next self.old self.new) }
        ensures lack { (g : graph_of_values.Graph) → AreTables0 g (tables_of self.old) → IsErrOf result Lack → StopsNamed g node self.old }
        ensures next { (g : RootedArena) → IsMetValue g (NodeRef node) → IfOk result (IsNextOf g (done_of self.new)) }
        ensures still { OnOk result (Still self.old self.new) }
        ensures stopped { IsErrOf result Lack → Still self.old self.new }
        ensures keeps { Keeps self.old self.new }
    {
        match self.tables.place_of_node(node) {
            Some(place) => {
                self.index(place)?;
                Ok(None)
            }
            None => {
                if self.tables.is_done(node) {
                    return Err(Stop::Lack);
                }
                Ok(Some(node))
            }
        }
    }

    /// An index (2.9). It stops where 16 bits do not say it.
    fn index(&mut self, place: u32) -> Result<(), Stop>
        ensures adds { OnOk result ((place < 2 ^ 16) × Adds (0x07 ∷ to_be_bytes w16 place) self.old self.new) }
        ensures lack { IsErrOf result Lack → (2 ^ 16 ≤ place) × Still self.old self.new }
        ensures keeps { Keeps self.old self.new }
    {
        if place >= FAR {
            return Err(Stop::Lack);
        }
        self.byte(0x07)?;
        self.raw(&(place as u16).to_be_bytes())?;
        Ok(())
    }

    /// A node that has not been written, up to its first value. It stops where the node has no form, or a name that is too
    /// long.
    fn new_node<'g>(
        &mut self,
        node: NodeId,
        graph: &'g Lowered<'g>,
        rooms: &mut Rooms,
        waiting: &mut Vec<Unwritten<'g>>,
    ) -> Result<(), Stop>
        requires low { IsLowered (content graph.now) }
        requires met { IsMetValue graph.now (NodeRef node) }
        requires new { Absent (done_of self.old) node.0 }
        requires runs { AreRunsOf graph.now waiting.old.items }
        requires order { AreInOrder graph.now.arena rooms.old.order }
        ensures leads { OnOk result (LeadsNode graph.now node waiting.old.items waiting.new.items self.old self.new) }
        ensures lack { IsErrOf result Lack → StopsWithin graph.now (segment.value (graph_of_values.node node.0) ∷ []) waiting.old.items self.old }
        ensures still { IsErrOf result Lack → Still self.old self.new }
        ensures runs { OnOk result (AreRunsOf graph.now waiting.new.items) }
        ensures falls { OnOk result (TurnsFall graph.now waiting.old.items waiting.new.items self.old self.new) }
        ensures keeps { Keeps self.old self.new }
        ensures order { AreInOrder graph.now.arena rooms.new.order }
    {
        match graph.node(self.alloc, node, rooms)? {
            LoweredNode::AsItStands(graph) => {
                self.stored_node(node, graph, &mut rooms.order, waiting)
            }
            LoweredNode::NoForm => Err(Stop::Lack),
            LoweredNode::Date(milliseconds) => {
                self.lowered_date(node, milliseconds, graph, waiting)
            }
            LoweredNode::XmlDocument(text) => self.lowered_document(node, text, graph, waiting),
            LoweredNode::Array(items, names) => {
                self.lowered_array(node, items, names, graph, rooms, waiting)
            }
            LoweredNode::Object(traits, members) => {
                self.lowered_object(node, traits, members, graph, rooms, waiting)
            }
        }
    }

    /// A node of a graph that is seen as it stands.
    fn stored_node<'g>(
        &mut self,
        node: NodeId,
        graph: &'g Rooted,
        order: &mut LastOrder,
        waiting: &mut Vec<Unwritten<'g>>,
    ) -> Result<(), Stop>
        requires low { IsLowered (content graph.now) }
        requires met { IsMetValue graph.now (NodeRef node) }
        requires new { Absent (done_of self.old) node.0 }
        requires runs { AreRunsOf graph.now waiting.old.items }
        requires order { AreInOrder graph.now.arena order.old }
        ensures leads { OnOk result (LeadsNode graph.now node waiting.old.items waiting.new.items self.old self.new) }
        ensures lack { IsErrOf result Lack → StopsWithin graph.now (segment.value (graph_of_values.node node.0) ∷ []) waiting.old.items self.old }
        ensures still { IsErrOf result Lack → Still self.old self.new }
        ensures runs { OnOk result (AreRunsOf graph.now waiting.new.items) }
        ensures falls { OnOk result (TurnsFall graph.now waiting.old.items waiting.new.items self.old self.new) }
        ensures keeps { Keeps self.old self.new }
        ensures order { AreInOrder graph.now.arena order.new }
    {
        graph.is_finished();
        let view = graph.node(node);
        if has_no_form(node, view, graph) {
            return Err(Stop::Lack);
        }
        if !has_short_names(node, view, graph) {
            return Err(Stop::Lack);
        }
        self.open(node, view, graph, order, waiting)?;
        Ok(())
    }
}
