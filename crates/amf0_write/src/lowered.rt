//! Graphs that are seen as if they were lowered, without a copy.

ghost use Rattle.std.specs.Prelude.{◌≡◌, ◌<◌, ◌↔◌, [], length, map, IfOk, IsTrue};
ghost use Rattle.std.specs.List.{AllByRecursion, AllZip, zip};
ghost use Rattle.amf_graph.specs.Arena.{IsFinished, Names, text_at, traits_at};
ghost use Rattle.amf_graph.specs.Bounds.{IsWithinBounds};
ghost use Rattle.amf_graph.specs.ByName.{by_name};
ghost use Rattle.amf_graph.specs.HaveStandIns.{HasStandIn};
ghost use Rattle.amf_graph.specs.Rooted.{content};
ghost use Rattle.amf_graph.specs.StandIns.{StandsFor, PairsStandBehind};
ghost use Rattle.amf_graph.specs.Views.{named};
ghost use Rattle.amf_iso.specs.Contents.{pairs_of, ArePairs};
ghost use Rattle.amf_iso.specs.Remembered.{AreInOrder};
ghost use Rattle.amf0_spelling.specs.Lacks0.{IsShortName};
ghost use Rattle.amf0_spelling.specs.Lowered.{IsLoweringOf};
ghost use Rattle.amf0_write.specs.Stood.{ShowsLowered};

use crate::chains::{double_of, stand_ins};
use crate::lowered_node::LoweredNode;
use crate::nodes::are_short;
use crate::rooms::Rooms;
use amf_graph::{NodeId, NodeView, Rooted, TextId, TraitsId, Value};
use amf_wire::Memory;
use std::alloc::Global;
use std::marker::Model;
use std::mem;

/// A graph as it stands, or as it is when it is lowered: each value is looked up when it is asked for.
#[derive(Drop)]
pub(crate) struct Lowered<'g> {
    graph: &'g Rooted,
    is_lowering: bool,
    /// What each node is in the lowering, by its number. Of a graph as it stands there are none.
    stand_ins: Vec<Value>,
}

impl<'g> Model for Lowered<'g> {
    ghost use Rattle.std.specs.Prelude.{◌≡◌, true};
    ghost use Rattle.amf_graph.specs.Rooted.{RootedArena};
    ghost use Rattle.amf0_write.specs.Chained.{AreLow};
    ghost use Rattle.amf0_write.specs.Stood.{seen};

    ghost Value = { RootedArena };

    ghost view = { λ l. seen l.is_lowering l.stand_ins.items l.graph.now };

    ghost invariant = { λ l. l.is_lowering ≡ true → AreLow l.graph.now l.stand_ins.items };
}

/// What stands for a value.
fn stood(value: Value, stand_ins: &[Value]) -> Value
    requires { HasStandIn stand_ins.now value }
    ensures { StandsFor stand_ins.now value result }
{
    match value {
        Value::Integer(integer) => Value::Double(double_of(integer)),
        Value::Node(node) => stand_ins[node.0 as usize],
        Value::Undefined | Value::Null | Value::Bool(_) | Value::Double(_) | Value::Text(_) =>
            value,
    }
}

/// What stands for each of the values.
fn stood_values(alloc: Global, values: &[Value], stand_ins: &[Value]) -> Result<Vec<Value>, Memory>
    requires { AllByRecursion (HasStandIn stand_ins.now) values.now }
    ensures { IfOk result (λ copies. AllZip (StandsFor stand_ins.now) values.now copies.items) }
{
    let mut copies = Vec::with_capacity(alloc, values.len())?;
    for value in values {
        copies.push(stood(*value, stand_ins))?;
    }
    Ok(copies)
}

/// Puts each of the pairs, with what stands for its value, behind the copies.
fn push_pairs(
    pairs: &[(TextId, Value)],
    stand_ins: &[Value],
    copies: &mut Vec<(TextId, Value)>,
) -> Result<(), Memory>
    requires { AllByRecursion (λ p. HasStandIn stand_ins.now p.1) (named pairs.now) }
    ensures { PairsStandBehind stand_ins.now (named copies.old.items) (named copies.new.items) (named pairs.now) result }
{
    for (name, value) in pairs {
        copies.push((*name, stood(*value, stand_ins)))?;
    }
    Ok(())
}

/// Puts each name, with what stands for the value at its place, behind the copies.
fn push_sealed(
    names: &[TextId],
    values: &[Value],
    stand_ins: &[Value],
    copies: &mut Vec<(TextId, Value)>,
) -> Result<(), Memory>
    requires all { length values.now ≡ length names.now }
    requires values { AllByRecursion (HasStandIn stand_ins.now) values.now }
    ensures { PairsStandBehind stand_ins.now (named copies.old.items) (named copies.new.items) (zip (map (λ x. x.0) names.now) values.now) result }
{
    for (place, name) in names.iter().enumerate() {
        copies.push((*name, stood(values[place], stand_ins)))?;
    }
    Ok(())
}

/// No pairs, with room for so many.
fn emptied(mut pairs: Vec<(TextId, Value)>, count: usize) -> Result<Vec<(TextId, Value)>, Memory>
    ensures { IfOk result (λ empty. empty.items ≡ []) }
{
    pairs.clear();
    pairs.reserve(count)?;
    Ok(pairs)
}

impl<'g> Lowered<'g> {
    /// A graph as it stands.
    pub(crate) fn as_it_stands(alloc: Global, graph: &'g Rooted) -> Lowered<'g>
        ensures { result ≡ graph.now }
    {
        Lowered {
            graph,
            is_lowering: false,
            stand_ins: Vec::new(alloc),
        }
    }

    /// The lowering of a graph. It takes memory for a value for each node.
    pub(crate) fn of(alloc: Global, graph: &'g Rooted) -> Result<Lowered<'g>, Memory>
        ensures { IfOk result (λ low. IsLoweringOf (content graph.now) (content low)) }
    {
        graph.is_finished();
        let stand_ins = stand_ins(alloc, graph)?;
        Ok(Lowered {
            graph,
            is_lowering: true,
            stand_ins,
        })
    }

    /// What is true of every graph. It does nothing.
    pub(crate) fn is_finished(&self)
        ensures finished { IsFinished self.now.arena }
        ensures bounds { IsWithinBounds self.now.arena }
        ensures names { Names self.now.arena self.now.root }
    {
        self.graph.is_finished();
    }

    /// The value from which the graph is reached.
    pub(crate) fn root(&self) -> Value
        ensures { result ≡ self.now.root }
    {
        let root = self.graph.root();
        if self.is_lowering {
            self.graph.is_finished();
            return stood(root, &self.stand_ins);
        }
        root
    }

    /// The bytes of a text, which has to be there.
    #[inline(always)]
    pub(crate) fn text(&self, text: TextId) -> &[u8]
        requires { text.0 < length self.now.arena.texts }
        ensures { result.now ≡ text_at self.now.arena text.0 }
    {
        self.graph.text(text)
    }

    /// The name of a class, which has to be there.
    pub(crate) fn class(&self, traits: TraitsId) -> &[u8]
        requires { traits.0 < length self.now.arena.traits }
        ensures { result.now ≡ (traits_at self.now.arena traits.0).class }
    {
        self.graph.is_finished();
        self.graph.text(self.graph.traits(traits).class)
    }

    /// Whether each name fits its length field.
    pub(crate) fn are_short(&self, pairs: &[(TextId, Value)]) -> bool
        requires { ArePairs self.now.arena pairs.now }
        ensures { IsTrue result ↔ AllByRecursion (λ p. IsShortName p.0) (pairs_of self.now.arena pairs.now) }
    {
        are_short(pairs, self.graph)
    }

    /// Pairs in the order of their names' bytes, which is remembered; pairs of one name keep their order.
    pub(crate) fn sorted(
        &self,
        pairs: Vec<(TextId, Value)>,
        rooms: &mut Rooms,
    ) -> Result<Vec<(TextId, Value)>, Memory>
        requires pairs { ArePairs self.now.arena pairs.items }
        requires order { AreInOrder self.now.arena rooms.old.order }
        ensures content { IfOk result (λ sorted. pairs_of self.now.arena sorted.items ≡ by_name (pairs_of self.now.arena pairs.items)) }
        ensures names { IfOk result (λ sorted. ArePairs self.now.arena sorted.items) }
        ensures order { AreInOrder self.now.arena rooms.new.order }
    {
        if rooms.order.are_by_name(&pairs, self.graph) {
            return Ok(pairs);
        }
        let sorted = rooms.order.ids_by_name(&pairs, self.graph)?;
        rooms.take_back(pairs);
        Ok(sorted)
    }

    /// A node as it is seen. It has to be there.
    pub(crate) fn node(
        &self,
        alloc: Global,
        node: NodeId,
        rooms: &mut Rooms,
    ) -> Result<LoweredNode<'g>, Memory>
        requires there { node.0 < length self.now.arena.nodes }
        requires order { AreInOrder self.now.arena rooms.old.order }
        ensures shown { IfOk result (ShowsLowered self.now node.0) }
        ensures order { AreInOrder self.now.arena rooms.new.order }
    {
        if !self.is_lowering {
            return Ok(LoweredNode::AsItStands(self.graph));
        }
        self.graph.is_finished();
        match self.graph.node(node) {
            NodeView::Date(milliseconds) => Ok(LoweredNode::Date(milliseconds)),
            NodeView::XmlDocument(text) => Ok(LoweredNode::XmlDocument(text)),
            NodeView::Array { items, names } => {
                let items = stood_values(alloc, items, &self.stand_ins)?;
                let mut pairs = Vec::with_capacity(alloc, names.len())?;
                push_pairs(names, &self.stand_ins, &mut pairs)?;
                Ok(LoweredNode::Array(items, pairs))
            }
            NodeView::Object {
                traits,
                sealed,
                members,
            } => {
                let class = self.graph.traits(traits);
                let room = mem::replace(&mut rooms.pairs, Vec::new(alloc));
                let mut pairs = emptied(room, sealed.len() + members.len())?;
                push_sealed(class.sealed, sealed, &self.stand_ins, &mut pairs)?;
                push_pairs(members, &self.stand_ins, &mut pairs)?;
                Ok(LoweredNode::Object(traits, pairs))
            }
            _ => Ok(LoweredNode::NoForm),
        }
    }
}
