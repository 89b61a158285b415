ghost use Rattle.std.specs.Prelude.{◌≡◌, ◌<◌, ◌≤◌, ◌↔◌, ◌⊎◌, [], ◌∷◌, length, get_or, true, false, IfOk, IfErr, OnOk, OnErr, IsErrOf};
ghost use Rattle.std.specs.List.{AllByRecursion};
ghost use Rattle.amf_wire.specs.Text.{IsText};
ghost use Rattle.amf_graph.specs.Arena.{IsBuilt, IsFinished, IsTraitsIn, HeadNames, Names, text_at, no_traits, bytes as byte_array};
ghost use Rattle.amf_graph.specs.Bounds.{IsWithinBounds, items_of};
ghost use Rattle.amf_graph.specs.Building.{no_arena, kept_text, kept_traits, kept_node, stored_traits, stored_at, leaf_head, shape_head, begun, closed, changed, more_part, shut, PartNames, HasRoom, FitsNow, size_of, IsFirstOpen, kind_of};
ghost use Rattle.amf_graph.specs.declared.part.Part.TheVariants.{Item};
ghost use Rattle.amf_graph.specs.Copying.{cut_of, AreCounts, IsBehind};
ghost use Rattle.amf_graph.specs.Grafting.{IsCut, Grafted, IsTooMuch};
ghost use Rattle.amf_graph.specs.Views.{ShowsTraits};

use crate::body::Body;
use crate::copying::Copying;
use crate::limits::{MAX_COUNT, MAX_SEALED, MAX_TRAITS};
use crate::ranges::bytes_fit;
use crate::store::Store;
use crate::text_ranks::TextRanks;
use crate::{
    BuildEnd, Leaf, NodeId, NodeKind, Part, Rooted, Shape, TextId, TraitsId, TraitsView, Value,
};
use amf_wire::Memory;
use std::alloc::Global;
use std::hash::RandomState;
use std::marker::Model;

/// Builds a graph, from its texts, traits and nodes to its root.
#[derive(Drop)]
pub struct Builder {
    alloc: Global,
    store: Store,
}

impl Model for Builder {
    ghost use Rattle.amf_graph.specs.Arena.{Arena, IsBuilt};
    ghost use Rattle.amf_graph.specs.Bounds.{IsWithinBounds};

    ghost Value = { Arena };

    ghost view = { λ b. b.store };

    ghost invariant = { λ b. IsBuilt b.store × IsWithinBounds b.store };
}

/// A graph that cannot be finished, since a node of it is open.
#[derive(Drop)]
pub struct Unfinished {
    /// The least node that is open.
    pub node: NodeId,
    /// The builder, as it was.
    pub builder: Builder,
}

impl Builder {
    /// A builder that holds nothing yet. It gives up where there is no memory.
    ///
    /// Its texts are looked up by fixed keys, so whoever knows them can make texts that take long: `keyed` is passed others.
    pub fn new(alloc: Global) -> Result<Builder, Memory>
        ensures { IfOk result (λ builder. builder ≡ no_arena) }
    {
        Builder::keyed(alloc, None)
    }

    /// A builder that holds nothing yet, whose texts are looked up by these keys, or by fixed ones where there are none. What it
    /// builds is the same for all keys. It gives up where there is no memory.
    pub fn keyed(alloc: Global, keys: Option<RandomState>) -> Result<Builder, Memory>
        ensures { IfOk result (λ builder. builder ≡ no_arena) }
    {
        Ok(Builder {
            alloc,
            store: Store::new(alloc, keys),
        })
    }

    /// A builder that holds nothing yet, whose texts are looked up by the keys of this graph. It gives up where there is no memory.
    pub fn beside(alloc: Global, graph: &Rooted) -> Result<Builder, Memory>
        ensures { IfOk result (λ builder. builder ≡ no_arena) }
    {
        Ok(Builder {
            alloc,
            store: graph.store_beside(alloc),
        })
    }

    /// What is true of every builder. It does nothing.
    pub fn is_built(&self)
        ensures built { IsBuilt self.now }
        ensures bounds { IsWithinBounds self.now }
    {
        let _ = &self.store;
    }

    /// Keeps a text (AMF 3, 1.3.2).
    ///
    /// `Full` comes exactly where there are [`MAX_COUNT`] texts already or it has more bytes than that, and `Memory` where
    /// there is no room. After an end the builder is as before.
    pub fn text(&mut self, bytes: &[u8]) -> Result<TextId, BuildEnd>
        requires { IsText bytes.now }
        ensures id { IfOk result (λ t. t.0 ≡ length self.old.texts) }
        ensures ok { OnOk result (self.new ≡ kept_text self.old bytes.now) }
        ensures err { OnErr result (self.new ≡ self.old) }
        ensures full { IsErrOf result BuildEnd.Full ↔ ((MAX_COUNT ≤ length self.old.texts) ⊎ (MAX_COUNT < length bytes.now)) }
    {
        let place = self.store.text_count();
        if place >= MAX_COUNT as usize || bytes.len() > MAX_COUNT as usize {
            return Err(BuildEnd::Full);
        }
        self.store.keep_text(bytes)?;
        Ok(TextId(place as u32))
    }

    /// Keeps the traits of a class (AMF 3, 3.12).
    ///
    /// `Full` comes exactly where there are [`MAX_TRAITS`] traits already or more than [`MAX_SEALED`] sealed names, and
    /// `Memory` where there is no room. After an end the builder is as before.
    pub fn traits(
        &mut self,
        class: TextId,
        dynamic: bool,
        sealed: &[TextId],
    ) -> Result<TraitsId, BuildEnd>
        requires { IsTraitsIn self.old (stored_traits class dynamic sealed.now) }
        ensures id { IfOk result (λ t. t.0 ≡ length self.old.traits) }
        ensures ok { OnOk result (self.new ≡ kept_traits self.old (stored_traits class dynamic sealed.now)) }
        ensures err { OnErr result (self.new ≡ self.old) }
        ensures full { IsErrOf result BuildEnd.Full ↔ ((MAX_TRAITS ≤ length self.old.traits) ⊎ (MAX_SEALED < length sealed.now)) }
    {
        let place = self.store.traits_count();
        if place >= MAX_TRAITS as usize || sealed.len() > MAX_SEALED as usize {
            return Err(BuildEnd::Full);
        }
        self.store.keep_traits(class, dynamic, sealed)?;
        Ok(TraitsId(place as u32))
    }

    /// Keeps a node without parts (AMF 3, 3.9 to 3.16). It is complete.
    ///
    /// `Full` comes exactly where there are [`MAX_COUNT`] nodes already or it holds more bytes or items than that, and
    /// `Memory` where there is no room. After an end the builder is as before.
    pub fn leaf(&mut self, leaf: Leaf) -> Result<NodeId, BuildEnd>
        requires { HeadNames self.old (leaf_head leaf) }
        ensures id { IfOk result (λ n. n.0 ≡ length self.old.nodes) }
        ensures ok { OnOk result (self.new ≡ kept_node self.old (closed (leaf_head leaf) [] [])) }
        ensures err { OnErr result (self.new ≡ self.old) }
        ensures full { IsErrOf result BuildEnd.Full ↔ ((MAX_COUNT ≤ length self.old.nodes) ⊎ (MAX_COUNT < items_of (leaf_head leaf))) }
    {
        let place = self.store.node_count();
        if place >= MAX_COUNT as usize || leaf.len() > MAX_COUNT as usize {
            return Err(BuildEnd::Full);
        }
        leaf.numbers_fit();
        self.store.keep_node(Body::Leaf(leaf))?;
        Ok(NodeId(place as u32))
    }

    /// Keeps a byte array of these bytes (AMF 3, 3.14). It is complete. Where it is short, it takes no list of its own.
    ///
    /// `Full` comes exactly where there are [`MAX_COUNT`] nodes already or it has more bytes than that, and `Memory` where there
    /// is no room. After an end the builder is as before.
    pub fn bytes(&mut self, array: &[u8]) -> Result<NodeId, BuildEnd>
        ensures id { IfOk result (λ n. n.0 ≡ length self.old.nodes) }
        ensures ok { OnOk result (self.new ≡ kept_node self.old (closed (byte_array array.now) [] [])) }
        ensures err { OnErr result (self.new ≡ self.old) }
        ensures full { IsErrOf result BuildEnd.Full ↔ ((MAX_COUNT ≤ length self.old.nodes) ⊎ (MAX_COUNT < length array.now)) }
    {
        let place = self.store.node_count();
        if place >= MAX_COUNT as usize || array.len() > MAX_COUNT as usize {
            return Err(BuildEnd::Full);
        }
        bytes_fit(array);
        self.store.keep_node(Body::Bytes(array))?;
        Ok(NodeId(place as u32))
    }

    /// Keeps a node that is open: it has no parts yet (AMF 3, 3.9 to 3.16).
    ///
    /// `Full` comes exactly where there are [`MAX_COUNT`] nodes already, and `Memory` where there is no room. After an end
    /// the builder is as before.
    pub fn open_node(&mut self, shape: Shape) -> Result<NodeId, BuildEnd>
        requires { HeadNames self.old (shape_head shape) }
        ensures id { IfOk result (λ n. n.0 ≡ length self.old.nodes) }
        ensures ok { OnOk result (self.new ≡ kept_node self.old (begun (shape_head shape))) }
        ensures err { OnErr result (self.new ≡ self.old) }
        ensures full { IsErrOf result BuildEnd.Full ↔ (MAX_COUNT ≤ length self.old.nodes) }
    {
        let place = self.store.node_count();
        if place >= MAX_COUNT as usize {
            return Err(BuildEnd::Full);
        }
        self.store.open_node(shape)?;
        Ok(NodeId(place as u32))
    }

    /// Adds a part to a node that is open (AMF 3, 3.9 to 3.16).
    ///
    /// `Full` comes exactly where the node has [`MAX_COUNT`] items, names and parts together, and `Memory` where there is no
    /// room. After an end the builder is as before.
    #[inline(always)]
    pub fn put(&mut self, node: NodeId, part: Part) -> Result<(), BuildEnd>
        requires there { node.0 < length self.old.nodes }
        requires opened { (stored_at self.old node.0).is_open ≡ true }
        requires room { HasRoom self.old (stored_at self.old node.0) part }
        requires names { PartNames self.old part }
        ensures ok { OnOk result (self.new ≡ changed (more_part part) node.0 self.old) }
        ensures err { OnErr result (self.new ≡ self.old) }
        ensures full { IsErrOf result BuildEnd.Full ↔ (MAX_COUNT ≤ size_of (stored_at self.old node.0)) }
    {
        match part {
            Part::Item(item) => self.put_item(node, item),
            part => self.put_part(node, part),
        }
    }

    /// Does what `put` does, for an item. Most parts are items.
    #[inline(always)]
    fn put_item(&mut self, node: NodeId, item: Value) -> Result<(), BuildEnd>
        requires there { node.0 < length self.old.nodes }
        requires opened { (stored_at self.old node.0).is_open ≡ true }
        requires room { HasRoom self.old (stored_at self.old node.0) (Item item) }
        requires names { PartNames self.old (Item item) }
        ensures ok { OnOk result (self.new ≡ changed (more_part (Item item)) node.0 self.old) }
        ensures err { OnErr result (self.new ≡ self.old) }
        ensures full { IsErrOf result BuildEnd.Full ↔ (MAX_COUNT ≤ size_of (stored_at self.old node.0)) }
    {
        if self.store.size(node) >= MAX_COUNT as usize {
            return Err(BuildEnd::Full);
        }
        self.store.put_item(node, item)?;
        Ok(())
    }

    /// Does what `put` does, whatever the part is.
    fn put_part(&mut self, node: NodeId, part: Part) -> Result<(), BuildEnd>
        requires there { node.0 < length self.old.nodes }
        requires opened { (stored_at self.old node.0).is_open ≡ true }
        requires room { HasRoom self.old (stored_at self.old node.0) part }
        requires names { PartNames self.old part }
        ensures ok { OnOk result (self.new ≡ changed (more_part part) node.0 self.old) }
        ensures err { OnErr result (self.new ≡ self.old) }
        ensures full { IsErrOf result BuildEnd.Full ↔ (MAX_COUNT ≤ size_of (stored_at self.old node.0)) }
    {
        if self.store.size(node) >= MAX_COUNT as usize {
            return Err(BuildEnd::Full);
        }
        self.store.put(node, part)?;
        Ok(())
    }

    /// Closes a node that has all of its parts. It cannot fail: where there is no memory, its parts stay where they are.
    pub fn close_node(&mut self, node: NodeId)
        requires there { node.0 < length self.old.nodes }
        requires opened { (stored_at self.old node.0).is_open ≡ true }
        requires fits { FitsNow self.old (stored_at self.old node.0) }
        ensures { self.new ≡ changed shut node.0 self.old }
    {
        self.store.close(node);
    }

    /// Adds one copy of all that the values of a graph reach, and gives the copies of the values, in order. What they share in
    /// the graph, their copies share.
    ///
    /// It adds a node for each node that is reached, and a text and a traits for each number of theirs that is used. `Full` comes
    /// only where the builder has no room for these. Where it has none, or memory is wanting, nothing is added.
    pub fn graft_values(&mut self, graph: &Rooted, values: &[Value]) -> Result<Vec<Value>, BuildEnd>
        requires { AllByRecursion (Names graph.now.arena) values.now }
        ensures ok { IfOk result (λ copies. Grafted graph.now.arena values.now self.old self.new copies.items) }
        ensures count { IfOk result (λ copies. length copies.items ≡ length values.now) }
        ensures names { IfOk result (λ copies. AllByRecursion (Names self.new) copies.items) }
        ensures err { OnErr result (self.new ≡ self.old) }
        ensures full { IsErrOf result BuildEnd.Full → IsTooMuch graph.now.arena values.now self.old }
        ensures room { OnOk result (IsTooMuch graph.now.arena values.now self.old → ⊥) }
    {
        let copying = Copying::of(self.alloc, graph, values, &self.store)?;
        self.put_copies(&copying, graph, values)
    }

    /// Grafts the values, by what is to be copied for them.
    fn put_copies(
        &mut self,
        copying: &Copying,
        graph: &Rooted,
        values: &[Value],
    ) -> Result<Vec<Value>, BuildEnd>
        requires values { AllByRecursion (Names graph.now.arena) values.now }
        requires exact { IsCut graph.now.arena values.now (cut_of copying.now) }
        requires counts { AreCounts copying.now graph.now.arena }
        requires behind { IsBehind copying.now self.old }
        ensures ok { IfOk result (λ copies. Grafted graph.now.arena values.now self.old self.new copies.items) }
        ensures count { IfOk result (λ copies. length copies.items ≡ length values.now) }
        ensures names { IfOk result (λ copies. AllByRecursion (Names self.new) copies.items) }
        ensures err { OnErr result (self.new ≡ self.old) }
        ensures full { IsErrOf result BuildEnd.Full → IsTooMuch graph.now.arena values.now self.old }
        ensures room { OnOk result (IsTooMuch graph.now.arena values.now self.old → ⊥) }
    {
        graph.is_finished();
        if copying.is_too_much() {
            return Err(BuildEnd::Full);
        }
        let copies = copying.values(self.alloc, values)?;
        copying.append_to(self.alloc, graph, &mut self.store)?;
        Ok(copies)
    }

    /// Adds a copy of what the root of a graph reaches, and gives the copy of the root. Its ends are those of `graft_values`.
    pub fn graft(&mut self, graph: &Rooted) -> Result<Value, BuildEnd>
        ensures ok { IfOk result (λ copy. Grafted graph.now.arena (graph.now.root ∷ []) self.old self.new (copy ∷ [])) }
        ensures names { IfOk result (λ copy. Names self.new copy) }
        ensures err { OnErr result (self.new ≡ self.old) }
        ensures full { IsErrOf result BuildEnd.Full → IsTooMuch graph.now.arena (graph.now.root ∷ []) self.old }
        ensures room { OnOk result (IsTooMuch graph.now.arena (graph.now.root ∷ []) self.old → ⊥) }
    {
        graph.is_finished();
        let copies = self.graft_values(graph, &[graph.root()])?;
        Ok(copies[0])
    }

    /// The kind of a node, which has to be there.
    pub fn kind_of(&self, node: NodeId) -> NodeKind
        requires { node.0 < length self.now.nodes }
        ensures { result ≡ kind_of (stored_at self.now node.0).head }
    {
        self.store.kind(node)
    }

    /// The bytes of a text, which has to be there.
    pub fn text_of(&self, text: TextId) -> &[u8]
        requires { text.0 < length self.now.texts }
        ensures { result.now ≡ text_at self.now text.0 }
    {
        self.store.text(text)
    }

    /// The traits at a place, which have to be there.
    pub fn traits_of(&self, traits: TraitsId) -> TraitsView<'_>
        requires { traits.0 < length self.now.traits }
        ensures { ShowsTraits (get_or self.now.traits traits.0 no_traits) result }
    {
        self.store.traits(traits)
    }

    /// The graph with this root. `Unfinished` comes exactly where a node is open: it names the least, and gives the builder
    /// back. It asks for memory only where a text has more than 64 bytes, and does without where there is none.
    pub fn finish(self, root: Value) -> Result<Rooted, Unfinished>
        requires { Names self root }
        ensures graph { IfOk result (λ graph. graph ≡ record { arena = self; root = root }) }
        ensures finished { OnOk result (IsFinished self) }
        ensures untouched { IfErr result (λ u. u.builder ≡ self) }
        ensures opened { IfErr result (λ u. IsFirstOpen self u.node.0) }
    {
        match self.store.first_open() {
            Some(place) => Err(Unfinished {
                node: NodeId(place as u32),
                builder: self,
            }),
            None => {
                let mut store = self.store;
                store.drop_spare();
                let ranks = TextRanks::of(self.alloc, &store);
                Ok(Rooted::new(store, root, ranks))
            }
        }
    }

    /// The graph with this root, of which all nodes are closed.
    pub fn whole(self, root: Value) -> Rooted
        requires names { Names self root }
        requires closed { AllByRecursion (λ n. n.is_open ≡ false) self.nodes }
        ensures { result ≡ record { arena = self; root = root } }
    {
        match self.finish(root) {
            Ok(graph) => graph,
            Err(_) => unreachable!(),
        }
    }
}
