ghost use Rattle.std.specs.Prelude.{◌≡◌, ◌<◌, false, [], length, get_or, slice_get, Some, IfOk};
ghost use Rattle.std.specs.Cmp.Lexicographic.{slice_cmp};
ghost use Rattle.std.specs.List.{AllByRecursion};
ghost use Rattle.std.specs.Ordering.{nat_cmp};
ghost use Rattle.amf_graph.specs.Arena.{IsFinished, Names, text_at, no_traits};
ghost use Rattle.amf_graph.specs.Bounds.{IsWithinBounds, count_end};
ghost use Rattle.amf_graph.specs.Building.{no_arena, stored_at, kind_of};
ghost use Rattle.amf_graph.specs.Held.{held_node};
ghost use Rattle.amf_graph.specs.Renumbered.{numbers_of, renumbered, IsSelfContained};
ghost use Rattle.amf_graph.specs.StandIns.{GraphStandsFor};
ghost use Rattle.amf_graph.specs.TextNumbers.{contents_of};
ghost use Rattle.amf_graph.specs.TextRanks.{AreRanks};
ghost use Rattle.amf_graph.specs.Views.{Shows, ShowsTraits};

use crate::held::Held;
use crate::renumber::{places_by_node, renumbered};
use crate::stand_ins::stand_in;
use crate::store::Store;
use crate::text_ranks::TextRanks;
use crate::texts::Texts;
use crate::{NodeId, NodeKind, NodeView, TextId, TraitsId, TraitsView, Value};
use amf_wire::Memory;
use std::alloc::Global;
use std::cmp::Ordering;
use std::marker::Model;

/// A graph with its root. Every node of it is complete.
pub struct Rooted {
    store: Store,
    root: Value,
    /// Those of its long names.
    ranks: TextRanks,
}

impl Drop for Rooted {
    /// Lets its parts go. Written out, it is proved once; what is derived is proved at each place where one is let go.
    fn drop(self) {
        let Rooted {
            store: _,
            root: _,
            ranks: _,
        } = self;
    }
}

impl Model for Rooted {
    ghost use Rattle.amf_graph.specs.Arena.{IsFinished, Names};
    ghost use Rattle.amf_graph.specs.Bounds.{IsWithinBounds};
    ghost use Rattle.amf_graph.specs.Rooted.{RootedArena};
    ghost use Rattle.amf_graph.specs.TextRanks.{AreRanks};

    ghost Value = { RootedArena };

    ghost view = { λ g. record { arena = g.store; root = g.root } };

    ghost invariant = { λ g. IsFinished g.store × IsWithinBounds g.store × Names g.store g.root × AreRanks g.store.texts g.ranks.by_text.items };
}

impl Rooted {
    pub(crate) fn new(store: Store, root: Value, ranks: TextRanks) -> Rooted
        requires finished { IsFinished store }
        requires bounds { IsWithinBounds store }
        requires names { Names store root }
        requires ranks { AreRanks store.texts ranks.by_text.items }
        ensures { result ≡ record { arena = store; root = root } }
    {
        Rooted { store, root, ranks }
    }

    /// What is true of every graph. It does nothing.
    pub fn is_finished(&self)
        ensures finished { IsFinished self.now.arena }
        ensures bounds { IsWithinBounds self.now.arena }
        ensures names { Names self.now.arena self.now.root }
    {
        let _ = &self.store;
    }

    /// The value from which the graph is reached.
    pub fn root(&self) -> Value
        ensures { result ≡ self.now.root }
    {
        self.root
    }

    /// The same graph with another root, which names what is there. It takes no memory.
    pub fn rooted_at(self, root: Value) -> Rooted
        requires { Names self.arena root }
        ensures arena { result.arena ≡ self.arena }
        ensures root { result.root ≡ root }
    {
        let Rooted {
            store,
            root: _,
            ranks,
        } = self;
        Rooted::new(store, root, ranks)
    }

    /// How many nodes it has, also such that the root does not reach.
    pub fn node_count(&self) -> u32
        ensures { result ≡ length self.now.arena.nodes }
    {
        self.store.node_count() as u32
    }

    pub(crate) fn text_count(&self) -> u32
        ensures count { result ≡ length self.now.arena.texts }
        ensures few { result < count_end }
    {
        self.store.text_count() as u32
    }

    pub(crate) fn traits_count(&self) -> u32
        ensures count { result ≡ length self.now.arena.traits }
        ensures few { result < count_end }
    {
        self.store.traits_count() as u32
    }

    /// What a node is and holds, as it is kept.
    pub(crate) fn held(&self, node: NodeId) -> Held<'_>
        requires { node.0 < length self.now.arena.nodes }
        ensures { stored_at self.now.arena node.0 ≡ held_node false result }
    {
        self.store.held(node)
    }

    /// The kind of a node, which has to be there.
    pub fn kind_of(&self, node: NodeId) -> NodeKind
        requires { node.0 < length self.now.arena.nodes }
        ensures { result ≡ kind_of (stored_at self.now.arena node.0).head }
    {
        self.store.kind(node)
    }

    /// What a node holds. It has to be there.
    pub fn node(&self, node: NodeId) -> NodeView<'_>
        requires { node.0 < length self.now.arena.nodes }
        ensures { Shows self.now.arena (stored_at self.now.arena node.0) result }
    {
        self.store.node(node)
    }

    /// The bytes of a text, which has to be there.
    pub fn text(&self, text: TextId) -> &[u8]
        requires { text.0 < length self.now.arena.texts }
        ensures { result.now ≡ text_at self.now.arena text.0 }
    {
        self.store.text(text)
    }

    /// How two texts stand to one another by their bytes. For names of pairs and of sealed members it goes through 64 bytes
    /// at most, however long they are, but where there was no memory for the order of long names when the graph was made.
    /// A place with no text counts as an empty one.
    pub fn compare_texts(&self, x: TextId, y: TextId) -> Ordering
        ensures { result ≡ slice_cmp nat_cmp (text_at self.now.arena x.0) (text_at self.now.arena y.0) }
    {
        match (self.ranks.rank(x), self.ranks.rank(y)) {
            (Some(x), Some(y)) => x.cmp(&y),
            _ => self.store.compare_texts(x, y),
        }
    }

    /// The number of a text's content, counted from 0 in the order in which contents come first. The text has to be there. Two
    /// texts have one number exactly where they have the same bytes.
    pub fn text_number(&self, text: TextId) -> u32
        requires { text.0 < length self.now.arena.texts }
        ensures { slice_get (contents_of self.now.arena.texts) result ≡ Some (text_at self.now.arena text.0) }
    {
        self.store.text_number(text)
    }

    /// How many contents the texts have: each number of one is below it.
    pub fn content_count(&self) -> usize
        ensures { result ≡ length (contents_of self.now.arena.texts) }
    {
        self.store.content_count()
    }

    /// No texts yet, which are looked up as those of this graph.
    pub(crate) fn no_texts(&self, alloc: Global) -> Texts
        ensures { result ≡ [] }
    {
        self.store.no_texts(alloc)
    }

    /// Nothing yet. Texts are looked up as those of the graph.
    pub(crate) fn store_beside(&self, alloc: Global) -> Store
        ensures { result ≡ no_arena }
    {
        self.store.beside(alloc)
    }

    /// The traits at a place, which have to be there.
    pub fn traits(&self, traits: TraitsId) -> TraitsView<'_>
        requires { traits.0 < length self.now.arena.traits }
        ensures { ShowsTraits (get_or self.now.arena.traits traits.0 no_traits) result }
    {
        self.store.traits(traits)
    }

    /// The graph of these nodes alone, each under the number of its place in the list; texts and traits keep their places.
    /// The list has nodes of the graph alone, none twice, and all that the root and these nodes name. It gives up where there is
    /// no memory.
    pub fn renumbered(&self, alloc: Global, order: &[NodeId]) -> Result<Rooted, Memory>
        requires { IsSelfContained self.now (numbers_of order.now) }
        ensures { IfOk result (λ graph. graph ≡ renumbered (numbers_of order.now) self.now) }
    {
        let ranks = self.ranks.copy(alloc)?;
        let numbers = places_by_node(alloc, order, self.store.node_count())?;
        let store = self.store.renumbered(alloc, order, &numbers)?;
        let root = renumbered(self.root, &numbers);
        Ok(Rooted::new(store, root, ranks))
    }

    /// The graph with doubles for integers, and for each node among its values the one that stands in for it, by its number.
    /// Each class takes further members and has no sealed ones: an object's sealed pairs stand before its members. Texts,
    /// classes and nodes keep their places. There is one value of the graph for each of its nodes. It gives up where there is no
    /// memory.
    pub fn standing_in(&self, alloc: Global, stand_ins: &[Value]) -> Result<Rooted, Memory>
        requires all { length stand_ins.now ≡ length self.now.arena.nodes }
        requires names { AllByRecursion (Names self.now.arena) stand_ins.now }
        ensures { IfOk result (λ graph. GraphStandsFor stand_ins.now self.now graph) }
    {
        let ranks = self.ranks.copy(alloc)?;
        let store = self.store.standing_in(alloc, stand_ins)?;
        Ok(Rooted::new(store, stand_in(self.root, stand_ins), ranks))
    }
}
