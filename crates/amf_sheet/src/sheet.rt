ghost use Rattle.std.specs.Prelude.{◌≡◌, ◌<◌, ◌≤◌, length, IfOk, OnOk, OnErr};
ghost use Rattle.amf_wire.specs.Text.{IsText};
ghost use Rattle.amf_graph.specs.Arena.{IsTraitsIn, Names};
ghost use Rattle.amf_graph.specs.Building.{no_arena, kept_text, kept_traits, kept_node, stored_traits};
ghost use Rattle.amf_sheet.specs.Labels.{linked_arena};
ghost use Rattle.amf_sheet.specs.Telling.{untold, told, told_leaf, with_node, AreAllTold};

use crate::filling::build;
use crate::kept::kept;
use crate::labels::{link_names, link_values};
use crate::row::{Row, keep};
use amf_graph::{
    Builder, Leaf, MAX_COUNT, MAX_SEALED, MAX_TRAITS, NodeId, Rooted, Shape, TextId, TraitsId,
    Value,
};
use amf_wire::Memory;
use std::alloc::Global;
use std::hash::RandomState;
use std::marker::Model;

/// A graph whose nodes are told in any order. A node has its number as soon as it begins, so that what is told before its parts
/// are known can name it; and a node that is known by a label alone is named by [`FIRST_LABEL`](crate::FIRST_LABEL) and more.
///
/// It takes 40 bytes a node, 16 a value and 24 a pair by name, besides texts, traits and what a node without parts holds.
#[derive(Drop)]
pub struct Sheet {
    /// Its texts and traits, and no node.
    builder: Builder,
    /// The nodes by their numbers.
    rows: Vec<Row>,
    names: Vec<(TextId, Value)>,
    values: Vec<Value>,
}

impl Model for Sheet {
    ghost use Rattle.amf_graph.specs.Arena.{Arena};
    ghost use Rattle.amf_sheet.specs.Rows.{columns, sheet_arena, IsSheet};

    ghost Value = { Arena };

    ghost view = { λ s. sheet_arena s.builder (columns s.names.items s.values.items) s.rows.items };

    ghost invariant = { λ s. IsSheet s.builder (columns s.names.items s.values.items) s.rows.items };
}

impl Sheet {
    /// A sheet that holds nothing yet, whose texts are looked up by these keys, or by fixed ones where there are none. What is
    /// told is the same for all keys. It gives up where there is no memory.
    pub fn new(alloc: Global, keys: Option<RandomState>) -> Result<Sheet, Memory>
        ensures { IfOk result (λ sheet. sheet ≡ no_arena) }
    {
        Ok(Sheet {
            builder: Builder::keyed(alloc, keys)?,
            rows: Vec::new(alloc),
            names: Vec::new(alloc),
            values: Vec::new(alloc),
        })
    }

    /// Keeps a text (AMF 3, 1.3.2). Where there is no memory, nothing has changed.
    pub fn text(&mut self, bytes: &[u8]) -> Result<TextId, Memory>
        requires text { IsText bytes.now }
        requires few { length self.old.texts < MAX_COUNT }
        requires short { length bytes.now ≤ MAX_COUNT }
        ensures id { IfOk result (λ t. t.0 ≡ length self.old.texts) }
        ensures ok { OnOk result (self.new ≡ kept_text self.old bytes.now) }
        ensures err { OnErr result (self.new ≡ self.old) }
    {
        kept(self.builder.text(bytes))
    }

    /// Keeps the traits of a class (AMF 3, 3.12). Where there is no memory, nothing has changed.
    pub fn traits(
        &mut self,
        class: TextId,
        dynamic: bool,
        sealed: &[TextId],
    ) -> Result<TraitsId, Memory>
        requires names { IsTraitsIn self.old (stored_traits class dynamic sealed.now) }
        requires few { length self.old.traits < MAX_TRAITS }
        requires short { length sealed.now ≤ MAX_SEALED }
        ensures id { IfOk result (λ t. t.0 ≡ length self.old.traits) }
        ensures ok { OnOk result (self.new ≡ kept_traits self.old (stored_traits class dynamic sealed.now)) }
        ensures err { OnErr result (self.new ≡ self.old) }
    {
        kept(self.builder.traits(class, dynamic, sealed))
    }

    /// The number of one more node, which is to be told. Where there is no memory, nothing has changed.
    pub fn begin(&mut self) -> Result<NodeId, Memory>
        requires { length self.old.nodes < MAX_COUNT }
        ensures id { IfOk result (λ n. n.0 ≡ length self.old.nodes) }
        ensures ok { OnOk result (self.new ≡ kept_node self.old untold) }
        ensures err { OnErr result (self.new ≡ self.old) }
    {
        let place = self.rows.len();
        self.rows.push(Row::Untold)?;
        Ok(NodeId(place as u32))
    }

    /// Tells a node without parts (AMF 3, 3.9, 3.10, 3.13 to 3.15), in place of what was told of it.
    pub fn tell_leaf(&mut self, node: NodeId, leaf: Leaf)
        requires { node.0 < length self.old.nodes }
        ensures { self.new ≡ with_node node.0 (told_leaf leaf) self.old }
    {
        self.rows[node.0 as usize] = Row::Leaf(leaf);
    }

    /// Tells a node that takes parts, in place of what was told of it: an array's named pairs or an object's dynamic members, and
    /// its items, its sealed values in the order of the class, the wrapped value, or each key of a dictionary and then its value
    /// (AMF 3, 3.11, 3.12, 3.15, 3.16). The values may name nodes that have not begun.
    ///
    /// Where there is no memory, or all nodes together have more than 2^32-1 values or pairs, nothing has changed.
    pub fn tell(
        &mut self,
        node: NodeId,
        shape: Shape,
        names: &[(TextId, Value)],
        values: &[Value],
    ) -> Result<(), Memory>
        requires { node.0 < length self.old.nodes }
        ensures ok { OnOk result (self.new ≡ with_node node.0 (told shape names.now values.now) self.old) }
        ensures err { OnErr result (self.new ≡ self.old) }
    {
        let names = keep(&mut self.names, names)?;
        let values = keep(&mut self.values, values)?;
        self.rows[node.0 as usize] = Row::Parts(shape, names, values);
        Ok(())
    }

    /// Puts the number of a node in place of each label: that which stands in the label's place, or 0 where none does.
    pub fn link(&mut self, labels: &[NodeId])
        ensures { self.new ≡ linked_arena labels.now self.old }
    {
        link_names(labels, &mut self.names);
        link_values(labels, &mut self.values);
    }

    /// The graph of all that was told, with this root. The number of a node in it is that which it was given here. It gives up
    /// where there is no memory.
    pub fn finish(self, root: Value) -> Result<Rooted, Memory>
        requires told { AreAllTold self }
        requires root { Names self root }
        ensures { IfOk result (λ graph. graph ≡ record { arena = self; root = root }) }
    {
        let Sheet {
            mut builder,
            mut rows,
            names,
            values,
        } = self;
        build(&mut builder, &mut rows, &names, &values)?;
        Ok(builder.whole(root))
    }
}
