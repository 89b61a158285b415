ghost use Rattle.std.specs.Prelude.{◌≡◌, ◌<◌, [], ◌∷◌, ◌++◌, length, IfOk, OnOk};
ghost use Rattle.std.specs.Result.{IsErrOf};
ghost use Rattle.amf_graph.specs.declared.lack.Lack.{Lack};
ghost use Rattle.amf_graph.specs.Arena.{Names, value_content};
ghost use Rattle.amf_graph.specs.Graph as graph_of_values;
ghost use Rattle.amf_graph.specs.Order.{Absent};
ghost use Rattle.amf_graph.specs.Rooted.{content};
ghost use Rattle.amf_wire.specs.Integer.{IsInteger};
ghost use Rattle.amf_iso.specs.Remembered.{AreInOrder};
ghost use Rattle.amf3_spelling.specs.ByteSpelling as spell;
ghost use Rattle.amf3_write.specs.Unwritten.{AreRunsOf, IsNextOf, turns_left, Falls, LeadsToRest, LeadsValue, StopsWithin};
ghost use Rattle.amf3_write.specs.Writes.{Stops, WritesSteps, WritesValue, Keeps, IsReady};

use crate::nodes::is_unnamed;
use crate::output::Output;
use crate::unwritten::Unwritten;
use amf_graph::{Lack, LackKind, NodeId, Rooted, Value, WriteEnd};
use amf_iso::LastOrder;
use amf_wire::{Memory, Pattern, unsign29};
use amf3_spelling::Marker;

impl Output {
    /// The integer behind its marker (3.6).
    #[inline(always)]
    fn integer(&mut self, integer: i32) -> Result<(), Memory>
        requires { IsInteger integer }
        ensures ok { OnOk result (WritesSteps (spell.step (spell.byte 4) ∷ spell.leaf_segments (graph_of_values.integer integer)) self.old self.new) }
        ensures keeps { Keeps self.old self.new }
        ensures tables { self.new.tables ≡ self.old.tables }
        ensures known { self.new.known ≡ self.old.known }
    {
        match unsign29(integer) {
            Some(bits) => {
                self.marked_number(Marker::Integer, bits.get())?;
                Ok(())
            }
            None => unreachable!(),
        }
    }

    /// The bits of a double behind its marker (3.7).
    fn double(&mut self, double: Pattern) -> Result<(), Memory>
        ensures ok { OnOk result (WritesSteps (spell.step (spell.byte 5) ∷ spell.leaf_segments (graph_of_values.double double.0)) self.old self.new) }
        ensures keeps { Keeps self.old self.new }
        ensures tables { self.new.tables ≡ self.old.tables }
        ensures known { self.new.known ≡ self.old.known }
    {
        self.marker(Marker::Double)?;
        self.raw(&double.0.to_be_bytes())?;
        Ok(())
    }

    /// A value, and all to which it leads that has not been written (3.2 to 3.16).
    pub(crate) fn value(&mut self, value: Value, graph: &Rooted) -> Result<(), WriteEnd>
        requires value { Names graph.now.arena value }
        requires ready { IsReady graph.now.arena self.old.tables self.old.known }
        ensures ok { OnOk result (WritesValue (content graph.now) (value_content graph.now.arena value) self.old self.new) }
        ensures lack { (l : Lack) → IsErrOf result (WriteEnd.NoSpelling l) → Stops (content graph.now) (spell.value (value_content graph.now.arena value) ∷ []) self.old l }
        ensures keeps { Keeps self.old self.new }
        ensures ready { OnOk result (IsReady graph.now.arena self.new.tables self.new.known) }
    {
        let mut order = LastOrder::new(self.alloc);
        let mut waiting = vec![in self.alloc; Unwritten::One(value)]?;
        while let Some(top) = waiting.pop() {
            let next = self.run(top, graph, &mut order, &mut waiting)?;
            if let Some(node) = next {
                self.new_node(node, graph, &mut order, &mut waiting)?;
            }
        }
        Ok(())
    }

    /// Writes a value that is whole where it starts: one that is no node, or a node by its place. A node that has not been
    /// written is given back.
    #[inline(always)]
    pub(crate) fn whole(&mut self, value: Value, graph: &Rooted) -> Result<Option<NodeId>, Memory>
        requires value { Names graph.now.arena value }
        requires ready { IsReady graph.now.arena self.old.tables self.old.known }
        ensures leads { IfOk result (λ next. LeadsValue (content graph.now) (value_content graph.now.arena value) next self.old self.new) }
        ensures next { IfOk result (IsNextOf graph.now.arena self.new.tables.nodes) }
        ensures keeps { Keeps self.old self.new }
        ensures ready { OnOk result (IsReady graph.now.arena self.new.tables self.new.known) }
    {
        match value {
            Value::Undefined => self.marker(Marker::Undefined)?,
            Value::Null => self.marker(Marker::Null)?,
            Value::Bool(false) => self.marker(Marker::False)?,
            Value::Bool(true) => self.marker(Marker::True)?,
            Value::Integer(integer) => self.integer(integer)?,
            Value::Double(double) => self.double(double)?,
            Value::Text(text) => {
                self.marker(Marker::Text)?;
                self.text_of(text, graph)?;
            }
            Value::Node(node) => return self.known_node(node, graph),
        }
        Ok(None)
    }

    /// Writes a node by its place. One that has not been written is given back.
    #[inline(always)]
    fn known_node(&mut self, node: NodeId, graph: &Rooted) -> Result<Option<NodeId>, Memory>
        requires there { node.0 < length graph.now.arena.nodes }
        requires ready { IsReady graph.now.arena self.old.tables self.old.known }
        ensures leads { IfOk result (λ next. LeadsValue (content graph.now) (graph_of_values.node node.0) next self.old self.new) }
        ensures next { IfOk result (IsNextOf graph.now.arena self.new.tables.nodes) }
        ensures keeps { Keeps self.old self.new }
        ensures ready { OnOk result (IsReady graph.now.arena self.new.tables self.new.known) }
    {
        graph.is_finished();
        match self.tables.place_of_node(node) {
            Some(place) => {
                self.marker(Marker::Node(graph.kind_of(node)))?;
                self.number(2 * place)?;
                Ok(None)
            }
            None => Ok(Some(node)),
        }
    }

    /// A node that has not been written, up to its first value. It is in the table from its header on (2.2).
    fn new_node<'g>(
        &mut self,
        node: NodeId,
        graph: &'g Rooted,
        order: &mut LastOrder,
        waiting: &mut Vec<Unwritten<'g>>,
    ) -> Result<(), WriteEnd>
        requires there { node.0 < length graph.now.arena.nodes }
        requires new { Absent self.old.tables.nodes node.0 }
        requires runs { AreRunsOf graph.now.arena waiting.old.items }
        requires order { AreInOrder graph.now.arena order.old }
        requires ready { IsReady graph.now.arena self.old.tables self.old.known }
        ensures leads { OnOk result (LeadsToRest graph.now (spell.value (graph_of_values.node node.0) ∷ []) waiting.old.items waiting.new.items self.old self.new) }
        ensures lack { (l : Lack) → IsErrOf result (WriteEnd.NoSpelling l) → StopsWithin graph.now (spell.value (graph_of_values.node node.0) ∷ []) waiting.old.items self.old l }
        ensures runs { OnOk result (AreRunsOf graph.now.arena waiting.new.items) }
        ensures falls { OnOk result (Falls (length graph.now.arena.nodes) self.old.tables.nodes self.new.tables.nodes (turns_left waiting.old.items) (turns_left waiting.new.items)) }
        ensures keeps { Keeps self.old self.new }
        ensures order { AreInOrder graph.now.arena order.new }
        ensures ready { OnOk result (IsReady graph.now.arena self.new.tables self.new.known) }
    {
        graph.is_finished();
        let view = graph.node(node);
        if is_unnamed(node, view, graph) {
            return Err(WriteEnd::NoSpelling(Lack {
                kind: LackKind::EmptyName,
                node: self.tables.node_count(),
            }));
        }
        self.marker(Marker::Node(view.kind()))?;
        self.tables.add_node(node)?;
        self.open(node, view, graph, order, waiting)?;
        Ok(())
    }
}
