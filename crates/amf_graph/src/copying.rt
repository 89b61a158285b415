//! Copies of texts, traits and nodes, under the numbers of the copies.

ghost use Rattle.std.specs.Prelude.{◌≡◌, ◌<◌, ◌↔◌, [], ◌∷◌, ◌++◌, length, get_or, IsTrue, IfOk, OnOk, OnErr};
ghost use Rattle.std.specs.List.{AllByRecursion};
ghost use Rattle.amf_graph.specs.Arena.{Names, no_traits};
ghost use Rattle.amf_graph.specs.Bodies.{body_head, body_names, body_values};
ghost use Rattle.amf_graph.specs.Bounds.{IsWithinBounds};
ghost use Rattle.amf_graph.specs.Building.{leaf_head};
ghost use Rattle.amf_graph.specs.Held.{form_head, held_head, held_names, held_values};
ghost use Rattle.amf_graph.specs.Copying.{IsTooMuch, cut_of, renaming_of, copies_of, joined, ValueCounted, PairCounted, HeadCounted, TraitsCounted, AreCounts, IsBehind};
ghost use Rattle.amf_graph.specs.Grafting.{IsCut, renamed_value, renamed_values, renamed_names, renamed_head, renamed_traits, copied_texts, copied_traits, copied_nodes};
ghost use Rattle.amf_graph.specs.Views.{named, flat};

use crate::body::Body;
use crate::classes::Classes;
use crate::held::{Form, Held};
use crate::limits::{MAX_COUNT, MAX_TRAITS};
use crate::nodes::Nodes;
use crate::number_set::NumberSet;
use crate::reach::reached;
use crate::store::Store;
use crate::texts::Texts;
use crate::uses::{used_texts, used_traits};
use crate::{Leaf, NodeId, Rooted, TextId, TraitsId, Value};
use amf_wire::Memory;
use std::alloc::Global;
use std::marker::Model;

/// What is copied, and the numbers of the first copies.
pub(crate) struct Copying {
    texts: NumberSet,
    traits: NumberSet,
    nodes: NumberSet,
    first_text: u32,
    first_traits: u32,
    first_node: u32,
}

impl Drop for Copying {
    /// Lets its parts go. Written out, it is proved once; what is derived is proved at each place where one is let go.
    fn drop(self) {
        let Copying {
            texts: _,
            traits: _,
            nodes: _,
            first_text: _,
            first_traits: _,
            first_node: _,
        } = self;
    }
}

impl Model for Copying {
    ghost use Rattle.std.specs.Prelude.{◌<◌};
    ghost use Rattle.amf_graph.specs.Bounds.{count_end};
    ghost use Rattle.amf_graph.specs.Copying.{Plan};

    ghost Value = { Plan };

    ghost view = { λ c. record { texts = c.texts; traits = c.traits; nodes = c.nodes; first_text = c.first_text; first_traits = c.first_traits; first_node = c.first_node } };

    ghost invariant = { λ c. (c.first_text < count_end) × (c.first_traits < count_end) × (c.first_node < count_end) };
}

impl Copying {
    fn text(&self, text: TextId) -> TextId
        requires { text.0 < self.now.texts.count }
        ensures { result.0 ≡ (renaming_of self.now).texts text.0 }
    {
        TextId(self.first_text + self.texts.place(text.0))
    }

    fn class(&self, traits: TraitsId) -> TraitsId
        requires { traits.0 < self.now.traits.count }
        ensures { result.0 ≡ (renaming_of self.now).traits traits.0 }
    {
        TraitsId(self.first_traits + self.traits.place(traits.0))
    }

    fn node(&self, node: NodeId) -> NodeId
        requires { node.0 < self.now.nodes.count }
        ensures { result.0 ≡ (renaming_of self.now).nodes node.0 }
    {
        NodeId(self.first_node + self.nodes.place(node.0))
    }

    fn value(&self, value: Value) -> Value
        requires { ValueCounted self.now value }
        ensures { result ≡ renamed_value (renaming_of self.now) value }
    {
        match value {
            Value::Text(text) => Value::Text(self.text(text)),
            Value::Node(node) => Value::Node(self.node(node)),
            _ => value,
        }
    }

    /// Copies of the values.
    pub(crate) fn values(&self, alloc: Global, values: &[Value]) -> Result<Vec<Value>, Memory>
        requires { AllByRecursion (ValueCounted self.now) values.now }
        ensures { IfOk result (λ copies. copies.items ≡ renamed_values (renaming_of self.now) values.now) }
    {
        let mut copies = Vec::new(alloc);
        for value in values {
            copies.push(self.value(*value))?;
        }
        Ok(copies)
    }

    fn pairs(
        &self,
        alloc: Global,
        pairs: &[(TextId, Value)],
    ) -> Result<Vec<(TextId, Value)>, Memory>
        requires { AllByRecursion (PairCounted self.now) (named pairs.now) }
        ensures { IfOk result (λ copies. named copies.items ≡ renamed_names (renaming_of self.now) (named pairs.now)) }
    {
        let mut copies = Vec::new(alloc);
        for (name, value) in pairs {
            let pair = (self.text(*name), self.value(*value));
            copies.push(pair)?;
        }
        Ok(copies)
    }

    fn entries(
        &self,
        alloc: Global,
        entries: &[(Value, Value)],
    ) -> Result<Vec<(Value, Value)>, Memory>
        requires { AllByRecursion (ValueCounted self.now) (flat entries.now) }
        ensures { IfOk result (λ copies. flat copies.items ≡ renamed_values (renaming_of self.now) (flat entries.now)) }
    {
        let mut copies = Vec::new(alloc);
        for (key, value) in entries {
            let entry = (self.value(*key), self.value(*value));
            copies.push(entry)?;
        }
        Ok(copies)
    }

    fn leaf(&self, alloc: Global, leaf: &Leaf) -> Result<Leaf, Memory>
        requires { HeadCounted self.now (leaf_head leaf.now) }
        ensures { IfOk result (λ copy. leaf_head copy ≡ renamed_head (renaming_of self.now) (leaf_head leaf.now)) }
    {
        match leaf {
            Leaf::XmlDocument(text) => Ok(Leaf::XmlDocument(self.text(*text))),
            Leaf::Xml(text) => Ok(Leaf::Xml(self.text(*text))),
            _ => leaf.copy(alloc),
        }
    }

    fn form(&self, form: Form) -> Form
        requires { HeadCounted self.now (form_head form) }
        ensures { form_head result ≡ renamed_head (renaming_of self.now) (form_head form) }
    {
        match form {
            Form::Object(traits) => Form::Object(self.class(traits)),
            Form::Values(fixed, of) => Form::Values(fixed, self.text(of)),
            _ => form,
        }
    }

    fn body<'a>(&self, alloc: Global, held: Held<'a>) -> Result<Body<'a>, Memory>
        requires head { HeadCounted self.now (held_head held) }
        requires names { AllByRecursion (PairCounted self.now) (held_names held) }
        requires values { AllByRecursion (ValueCounted self.now) (held_values held) }
        ensures head { IfOk result (λ copy. body_head copy ≡ renamed_head (renaming_of self.now) (held_head held.entry)) }
        ensures names { IfOk result (λ copy. body_names copy ≡ renamed_names (renaming_of self.now) (held_names held.entry)) }
        ensures values { IfOk result (λ copy. body_values copy ≡ renamed_values (renaming_of self.now) (held_values held.entry)) }
    {
        Ok(match held {
            Held::Leaf(leaf) => Body::Leaf(self.leaf(alloc, leaf)?),
            Held::Bytes(bytes) => Body::Bytes(bytes),
            Held::Parts(form, values, names) => {
                let values = self.values(alloc, values)?;
                Body::Parts(self.form(form), values, self.pairs(alloc, names)?)
            }
            Held::Dictionary(weak, entries) => {
                Body::Dictionary(weak, self.entries(alloc, entries)?)
            }
        })
    }

    /// Copies traits behind the copies.
    fn copy_traits(
        &self,
        alloc: Global,
        graph: &Rooted,
        traits: TraitsId,
        copies: &mut Classes,
    ) -> Result<(), Memory>
        requires there { traits.0 < length graph.now.arena.traits }
        requires counted { TraitsCounted self.now (get_or graph.now.arena.traits traits.0 no_traits) }
        ensures { OnOk result (copies.new ≡ copies.old ++ renamed_traits (renaming_of self.now) (get_or graph.now.arena.traits traits.0 no_traits) ∷ []) }
    {
        let class = graph.traits(traits);
        let names = class.sealed;
        let mut sealed = Vec::new(alloc);
        for name in names {
            sealed.push(self.text(*name))?;
        }
        copies.push(self.text(class.class), class.dynamic, &sealed)?;
        Ok(())
    }

    fn text_copies(&self, alloc: Global, graph: &Rooted) -> Result<Texts, Memory>
        requires { AreCounts self.now graph.now.arena }
        ensures { IfOk result (λ copies. copies ≡ copied_texts graph.now.arena self.now.texts.items) }
    {
        let mut copies = graph.no_texts(alloc);
        for place in 0..self.texts.len() {
            let text = graph.text(TextId(self.texts.at(place)));
            copies.push(text)?;
        }
        Ok(copies)
    }

    fn traits_copies(&self, alloc: Global, graph: &Rooted) -> Result<Classes, Memory>
        requires { AreCounts self.now graph.now.arena }
        ensures { IfOk result (λ copies. copies ≡ copied_traits graph.now.arena (renaming_of self.now) self.now.traits.items) }
    {
        graph.is_finished();
        let mut copies = Classes::new(alloc);
        for place in 0..self.traits.len() {
            let traits = TraitsId(self.traits.at(place));
            self.copy_traits(alloc, graph, traits, &mut copies)?;
        }
        Ok(copies)
    }

    fn node_copies(&self, alloc: Global, graph: &Rooted) -> Result<Nodes, Memory>
        requires { AreCounts self.now graph.now.arena }
        ensures { IfOk result (λ copies. copies ≡ copied_nodes graph.now.arena (renaming_of self.now) self.now.nodes.items) }
    {
        graph.is_finished();
        let mut copies = Nodes::new(alloc);
        for place in 0..self.nodes.len() {
            let held = graph.held(NodeId(self.nodes.at(place)));
            copies.keep(self.body(alloc, held)?)?;
        }
        Ok(copies)
    }

    /// What the values use. The copies get the next numbers behind what the store has. It gives up where there is no memory.
    pub(crate) fn of(
        alloc: Global,
        graph: &Rooted,
        values: &[Value],
        store: &Store,
    ) -> Result<Copying, Memory>
        requires names { AllByRecursion (Names graph.now.arena) values.now }
        requires bounds { IsWithinBounds store.now }
        ensures exact { IfOk result (λ copying. IsCut graph.now.arena values.now (cut_of copying)) }
        ensures counts { IfOk result (λ copying. AreCounts copying graph.now.arena) }
        ensures behind { IfOk result (λ copying. IsBehind copying store.now) }
    {
        let nodes = reached(alloc, graph, values)?;
        let traits = used_traits(alloc, graph, &nodes)?;
        let texts = used_texts(alloc, graph, values, &nodes, &traits)?;
        Ok(Copying {
            texts,
            traits,
            nodes,
            first_text: store.text_count() as u32,
            first_traits: store.traits_count() as u32,
            first_node: store.node_count() as u32,
        })
    }

    /// Whether the copies pass what a graph has room for.
    pub(crate) fn is_too_much(&self) -> bool
        ensures { IsTrue result ↔ IsTooMuch MAX_COUNT MAX_TRAITS self.now }
    {
        let texts = self.first_text as usize + self.texts.len();
        let traits = self.first_traits as usize + self.traits.len();
        let nodes = self.first_node as usize + self.nodes.len();
        texts > MAX_COUNT as usize || traits > MAX_TRAITS as usize || nodes > MAX_COUNT as usize
    }

    /// The copies. It gives up where there is no memory.
    fn copies(&self, alloc: Global, graph: &Rooted) -> Result<Store, Memory>
        requires { AreCounts self.now graph.now.arena }
        ensures { IfOk result (λ store. store ≡ copies_of graph.now.arena self.now) }
    {
        let traits = self.traits_copies(alloc, graph)?;
        let texts = self.text_copies(alloc, graph)?;
        let nodes = self.node_copies(alloc, graph)?;
        Ok(Store::of(texts, traits, nodes))
    }

    /// Puts the copies behind what a store has. After an end nothing has changed.
    pub(crate) fn append_to(
        &self,
        alloc: Global,
        graph: &Rooted,
        store: &mut Store,
    ) -> Result<(), Memory>
        requires { AreCounts self.now graph.now.arena }
        ensures ok { OnOk result (store.new ≡ joined store.old (copies_of graph.now.arena self.now)) }
        ensures err { OnErr result (store.new ≡ store.old) }
    {
        graph.is_finished();
        let more = self.copies(alloc, graph)?;
        store.append(alloc, &more)
    }
}
