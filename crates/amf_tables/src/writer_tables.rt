ghost use Rattle.std.specs.Prelude.{◌≡◌, ◌<◌, ◌≤◌, ◌↔◌, length, map, take, IsTrue, IfOk, IfNone, IfSome, OnOk, OnErr};
ghost use Rattle.amf_graph.specs.Order.{Absent};
ghost use Rattle.amf_tables.specs.FirstPlace.{IsFirstPlace};
ghost use Rattle.amf_tables.specs.KnownTexts.{AreNotedOf};
ghost use Rattle.amf_tables.specs.SpelledAlone.{IsSpelledAlone};
ghost use Rattle.amf_tables.specs.TextPlaces.{IsEntered};
ghost use Rattle.amf_tables.specs.ShownTraits.{AreTraitsOf, shown_entry};
ghost use Rattle.amf3_spelling.specs.Tables.{no_tables, with_words, external};
ghost use Rattle.amf3_spelling.specs.Tables.{add_text, add_entry, add_node, add_done};

use crate::known_texts::KnownTexts;
use crate::node_table::MAX_NODES;
use crate::spelled_nodes::SpelledNodes;
use crate::text_place::TextPlace;
use crate::text_table::TextTable;
use crate::traits_table::TraitsTable;
use amf_graph::{NodeId, Rooted, TraitsView, Wrapped};
use amf_wire::Memory;
use std::alloc::Global;
use std::hash::{BuildHasher, DefaultHasher, RandomState};
use std::marker::Model;

/// The reference tables of a writer of AMF 3 (2.2): what has been written inline, so that an index
/// can name it.
///
/// A table has at most 2^32 entries, and that of the nodes 2^28. One more is refused as `Memory`,
/// as is what there is no memory for.
pub struct WriterTables {
    alloc: Global,
    texts: TextTable,
    traits: TraitsTable,
    nodes: SpelledNodes,
}

impl Drop for WriterTables {
    /// Lets its parts go. Written out, it is proved once; what is derived is proved at each place where one is let go.
    fn drop(self) {
        let WriterTables {
            alloc: _,
            texts: _,
            traits: _,
            nodes: _,
        } = self;
    }
}

impl Model for WriterTables {
    ghost use Rattle.amf3_spelling.specs.Tables.{Tables};

    ghost Value = { Tables };

    ghost use Rattle.amf_tables.specs.TableParts.{written_tables};

    ghost view = { λ t. written_tables t.texts t.traits t.nodes };

    ghost use Rattle.std.specs.List.{AllByRecursion};
    ghost use Rattle.amf_tables.specs.WrittenParts.{IsWritten};

    ghost invariant = { λ t. AllByRecursion (IsWritten t.texts) t.traits };
}

impl WriterTables {
    /// Tables without entries. It gives up where there is no memory.
    pub fn new(alloc: Global) -> Result<WriterTables, Memory>
        ensures { IfOk result (λ tables. tables ≡ no_tables) }
    {
        WriterTables::keyed(alloc, None)
    }

    /// Tables without entries, whose hashes go by these keys, which the maker of an input does not know, or by fixed ones where
    /// there are none. It gives up where there is no memory.
    pub fn keyed(alloc: Global, keys: Option<RandomState>) -> Result<WriterTables, Memory>
        ensures { IfOk result (λ tables. tables ≡ no_tables) }
    {
        Ok(match keys {
            Some(keys) => WriterTables::hashed(alloc, keys.build_hasher(), Some(keys)),
            None => WriterTables::hashed(alloc, DefaultHasher::new(), None),
        })
    }

    /// Tables without entries: the hash of traits begins so, and texts are looked up by these keys or by none.
    fn hashed(alloc: Global, start: DefaultHasher, keys: Option<RandomState>) -> WriterTables
        ensures { result ≡ no_tables }
    {
        WriterTables {
            alloc,
            texts: TextTable::new(alloc, keys),
            traits: TraitsTable::new(alloc, start),
            nodes: SpelledNodes::new(alloc),
        }
    }

    /// Whether each node that was entered has a place.
    pub fn are_placed(&self) -> bool
        ensures { IsTrue result ↔ (self.now.done ≡ self.now.nodes) }
    {
        self.nodes.are_placed()
    }

    /// How many nodes have been entered with a place.
    pub fn node_count(&self) -> u32
        ensures count { result ≡ length self.now.nodes }
        ensures within { result ≤ MAX_NODES }
    {
        self.nodes.count()
    }

    /// The first nodes that have been entered with a place, in the order of their places: so many, or all where there are
    /// fewer. It gives up where there is no memory.
    pub fn first_nodes(&self, alloc: Global, count: u32) -> Result<Vec<NodeId>, Memory>
        ensures { IfOk result (λ nodes. map (λ node. node.0) nodes.items ≡ take count self.now.nodes) }
    {
        self.nodes.first_nodes(alloc, count)
    }

    /// How many texts have been entered.
    pub fn text_count(&self) -> usize
        ensures { result ≡ length self.now.words.texts }
    {
        self.texts.len()
    }

    /// The first place of a text: `None` exactly where it has none. It takes no memory. Texts that `add_text` entered since
    /// `settle_texts` or `place_or_add_text` was called last are compared one by one.
    pub fn place_of_text(&self, bytes: &[u8]) -> Option<u32>
        ensures first { IfSome result (IsFirstPlace self.now.words.texts bytes.now) }
        ensures none { IfNone result (Absent self.now.words.texts bytes.now) }
    {
        self.texts.place_of(bytes)
    }

    /// The first place of a node: `None` exactly where it has none. It takes no memory.
    pub fn place_of_node(&self, node: NodeId) -> Option<u32>
        ensures first { IfSome result (IsFirstPlace self.now.nodes node.0) }
        ensures within { IfSome result (λ place. place < MAX_NODES) }
        ensures none { IfNone result (Absent self.now.nodes node.0) }
    {
        self.nodes.place_of(node)
    }

    /// The first place of traits of a class that is not externalizable, as a graph shows them: `None`
    /// exactly where they have none. Where there is no memory for a list of places, the bytes of all
    /// traits are compared. Each of their texts is looked up by its bytes, as `place_of_text` does: `KnownWords` does so once.
    pub fn place_of_traits(&self, traits: &TraitsView<'_>, graph: &Rooted) -> Option<u32>
        requires { AreTraitsOf graph.now.arena traits.now }
        ensures first { IfSome result
            (IsFirstPlace self.now.words.traits (shown_entry graph.now.arena traits.now)) }
        ensures none { IfNone result (Absent self.now.words.traits (shown_entry graph.now.arena traits.now)) }
    {
        let known = KnownTexts::new(self.alloc);
        self.place_of_known(traits, graph, &known)
    }

    /// Does what `place_of_traits` does. The places of the graph's texts that are known are not looked up.
    pub(crate) fn place_of_known(
        &self,
        traits: &TraitsView<'_>,
        graph: &Rooted,
        known: &KnownTexts,
    ) -> Option<u32>
        requires shown { AreTraitsOf graph.now.arena traits.now }
        requires known { AreNotedOf graph.now.arena self.now.words.texts known.now }
        ensures first { IfSome result (IsFirstPlace self.now.words.traits (shown_entry graph.now.arena traits.now)) }
        ensures none { IfNone result (Absent self.now.words.traits (shown_entry graph.now.arena traits.now)) }
    {
        self.traits.place_of(traits, graph, &self.texts, known)
    }

    /// The first place of an externalizable class: `None` exactly where it has none. It takes no
    /// memory.
    pub fn place_of_wrapped(&self, class: Wrapped) -> Option<u32>
        ensures first { IfSome result (IsFirstPlace self.now.words.traits (external class)) }
        ensures none { IfNone result (Absent self.now.words.traits (external class)) }
    {
        self.traits.place_of_wrapped(class)
    }

    /// Hashes the texts that `add_text` entered, so that `place_of_text` does not compare them one by one. An error says that
    /// it does so with some of them.
    pub fn settle_texts(&mut self) -> Result<(), Memory>
        ensures { self.new ≡ self.old }
    {
        self.texts.settle()
    }

    /// Enters a text, and looks up none. After an error nothing has changed.
    pub fn add_text(&mut self, bytes: &[u8]) -> Result<(), Memory>
        ensures ok { OnOk result (self.new ≡ with_words self.old (add_text self.old.words bytes.now)) }
        ensures err { OnErr result (self.new ≡ self.old) }
    {
        self.texts.push(bytes)
    }

    /// The first place of a text, which is entered where it is new. After an error nothing has changed.
    pub fn place_or_add_text(&mut self, bytes: &[u8]) -> Result<TextPlace, Memory>
        ensures ok { IfOk result (IsEntered self.old.words.texts bytes.now self.new.words.texts) }
        ensures rest { self.new ≡ with_words self.old (record { texts = self.new.words.texts; traits = self.old.words.traits }) }
        ensures err { OnErr result (self.new ≡ self.old) }
    {
        self.texts.place_or_push(bytes)
    }

    /// Whether a node was entered by `add_done`, and has no place. It takes no memory.
    pub fn is_done(&self, node: NodeId) -> bool
        ensures { IsTrue result ↔ IsSpelledAlone self.now node.0 }
    {
        self.nodes.is_alone(node)
    }

    /// Enters a node that was spelled and that no index can name: it has no place. After an error nothing has changed.
    pub fn add_done(&mut self, node: NodeId) -> Result<(), Memory>
        ensures ok { OnOk result (self.new ≡ add_done self.old node.0) }
        ensures err { OnErr result (self.new ≡ self.old) }
    {
        self.nodes.push_alone(self.alloc, node)
    }

    /// Enters a node. After an error nothing has changed.
    pub fn add_node(&mut self, node: NodeId) -> Result<(), Memory>
        ensures ok { OnOk result (self.new ≡ add_node self.old node.0) }
        ensures err { OnErr result (self.new ≡ self.old) }
    {
        self.nodes.push(node)
    }

    /// Enters traits of a class that is not externalizable, as a graph shows them. After an error
    /// nothing has changed.
    pub fn add_traits(&mut self, traits: &TraitsView<'_>, graph: &Rooted) -> Result<(), Memory>
        requires { AreTraitsOf graph.now.arena traits.now }
        ensures ok { OnOk result
            (self.new ≡ with_words self.old
            (add_entry self.old.words (shown_entry graph.now.arena traits.now))) }
        ensures err { OnErr result (self.new ≡ self.old) }
    {
        // Where there is no memory for it, some texts are compared one by one.
        let _ = self.settle_texts();
        let known = KnownTexts::new(self.alloc);
        self.add_known(traits, graph, &known)
    }

    /// Does what `add_traits` does. The places of the graph's texts that are known are not looked up.
    pub(crate) fn add_known(
        &mut self,
        traits: &TraitsView<'_>,
        graph: &Rooted,
        known: &KnownTexts,
    ) -> Result<(), Memory>
        requires shown { AreTraitsOf graph.now.arena traits.now }
        requires known { AreNotedOf graph.now.arena self.old.words.texts known.now }
        ensures ok { OnOk result (self.new ≡ with_words self.old (add_entry self.old.words (shown_entry graph.now.arena traits.now))) }
        ensures err { OnErr result (self.new ≡ self.old) }
    {
        self.traits.push(traits, graph, &self.texts, known)
    }

    /// Enters the traits of an externalizable class. After an error nothing has changed.
    pub fn add_wrapped(&mut self, class: Wrapped) -> Result<(), Memory>
        ensures ok { OnOk result
            (self.new ≡ with_words self.old (add_entry self.old.words (external class))) }
        ensures err { OnErr result (self.new ≡ self.old) }
    {
        self.traits.push_wrapped(class)
    }
}
