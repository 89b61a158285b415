ghost use Rattle.std.specs.Prelude.{◌≡◌, ◌≤◌, ◌++◌, ◌∷◌, [], true, length, map, IfSome, IfNone, OnOk, OnErr};
ghost use Rattle.std.specs.List.{AllByRecursion};
ghost use Rattle.amf_graph.specs.Order.{Absent};
ghost use Rattle.amf_tables.specs.FirstPlace.{IsFirstPlace};
ghost use Rattle.amf_tables.specs.KnownTexts.{AreNotedOf};
ghost use Rattle.amf_tables.specs.ShownTraits.{AreTraitsOf, shown_entry};
ghost use Rattle.amf_tables.specs.WrittenParts.{Written, wrapped, entry_of, IsWritten, IsNoCopy, IsPushed};
ghost use Rattle.amf3_spelling.specs.Tables.{external};

use crate::first_places::{MAX_ENTRIES, enter, first_with};
use crate::known_texts::KnownTexts;
use crate::text_table::TextTable;
use crate::written_entry::WrittenEntry;
use amf_graph::{Rooted, TraitsView, Wrapped};
use amf_wire::Memory;
use indexmap::IndexMap;
use std::alloc::Global;
use std::hash::DefaultHasher;
use std::marker::Model;

/// The traits of a writer's tables, in the order of their places, with the first place of each hash. They name the texts of
/// a table of texts, which each call is passed.
#[derive(Drop)]
pub(crate) struct TraitsTable {
    alloc: Global,
    start: DefaultHasher,
    entries: Vec<WrittenEntry>,
    places: IndexMap<u64, u32>,
    /// Whether some entry has copies of its texts.
    has_copies: bool,
}

impl Model for TraitsTable {
    ghost use Rattle.std.specs.Prelude.{List};
    ghost use Rattle.amf_tables.specs.ContentHash.{AreHashed};
    ghost use Rattle.amf_tables.specs.WrittenParts.{Written};

    ghost Value = { List Written };

    ghost view = { λ t. t.entries.items };

    ghost invariant = { λ t. AreHashed t.start t.entries.items t.places t.has_copies };
}

/// Whether the first of these is this entry, which has no copies.
fn is_first(entries: &[WrittenEntry], entry: &WrittenEntry) -> bool
    requires { IsNoCopy entry.now }
    ensures { result ≡ true → IsFirstPlace entries.now entry.now 0 }
{
    match entries.first() {
        Some(first) => first.is_same(entry),
        None => false,
    }
}

/// The first place of this entry, which has no copies, among these.
fn first_same(entries: &[WrittenEntry], entry: &WrittenEntry) -> Option<u32>
    requires few { length entries.now ≤ MAX_ENTRIES }
    requires own { IsNoCopy entry.now }
    ensures first { IfSome result (IsFirstPlace entries.now entry.now) }
    ensures none { IfNone result (Absent entries.now entry.now) }
{
    let place = entries.iter().position(|other| other.is_same(entry))?;
    Some(place as u32)
}

/// The first place of traits with members among these. It goes through the bytes of their texts.
fn first_plain(
    entries: &[WrittenEntry],
    traits: &TraitsView<'_>,
    graph: &Rooted,
    texts: &TextTable,
) -> Option<u32>
    requires few { length entries.now ≤ MAX_ENTRIES }
    requires shown { AreTraitsOf graph.now.arena traits.now }
    ensures first { IfSome result (IsFirstPlace (map (entry_of texts.now) entries.now) (shown_entry graph.now.arena traits.now)) }
    ensures none { IfNone result (Absent (map (entry_of texts.now) entries.now) (shown_entry graph.now.arena traits.now)) }
{
    for (place, entry) in entries.iter().enumerate() {
        if entry.is_plain(traits, graph, texts) {
            return Some(place as u32);
        }
    }
    None
}

impl TraitsTable {
    /// A table without entries.
    pub(crate) fn new(alloc: Global, start: DefaultHasher) -> TraitsTable
        ensures { result ≡ [] }
    {
        TraitsTable {
            alloc,
            start,
            entries: Vec::new(alloc),
            places: IndexMap::new(alloc),
            has_copies: false,
        }
    }

    /// The first place of an entry without copies. Most tables have few entries, and most traits are those of the first: that is
    /// compared before anything is hashed.
    fn place_of_entry(&self, entry: &WrittenEntry) -> Option<u32>
        requires { IsNoCopy entry.now }
        ensures first { IfSome result (IsFirstPlace self.now entry.now) }
        ensures none { IfNone result (Absent self.now entry.now) }
    {
        if is_first(&self.entries, entry) {
            return Some(0);
        }
        self.place_by_hash(entry)
    }

    /// Does what `place_of_entry` does, by the hash of the entry.
    fn place_by_hash(&self, entry: &WrittenEntry) -> Option<u32>
        requires { IsNoCopy entry.now }
        ensures first { IfSome result (IsFirstPlace self.now entry.now) }
        ensures none { IfNone result (Absent self.now entry.now) }
    {
        let place = first_with(&self.places, entry.hash(self.start))?;
        if self.entries[place as usize].is_same(entry) {
            return Some(place);
        }
        // Another entry has the same hash.
        first_same(&self.entries, entry)
    }

    /// The first place of traits of a class that is not externalizable: `None` exactly where they have none.
    pub(crate) fn place_of(
        &self,
        traits: &TraitsView<'_>,
        graph: &Rooted,
        texts: &TextTable,
        known: &KnownTexts,
    ) -> Option<u32>
        requires shown { AreTraitsOf graph.now.arena traits.now }
        requires codes { AllByRecursion (IsWritten texts.now) self.now }
        requires known { AreNotedOf graph.now.arena texts.now known.now }
        ensures first { IfSome result (IsFirstPlace (map (entry_of texts.now) self.now) (shown_entry graph.now.arena traits.now)) }
        ensures none { IfNone result (Absent (map (entry_of texts.now) self.now) (shown_entry graph.now.arena traits.now)) }
    {
        if self.has_copies {
            return first_plain(&self.entries, traits, graph, texts);
        }
        match WrittenEntry::coded(self.alloc, traits, graph, texts, known) {
            Ok(Some(entry)) => self.place_of_entry(&entry),
            Ok(None) => None,
            // There is no room for the codes.
            Err(Memory) => first_plain(&self.entries, traits, graph, texts),
        }
    }

    /// The first place of an externalizable class: `None` exactly where it has none.
    pub(crate) fn place_of_wrapped(&self, class: Wrapped) -> Option<u32>
        ensures first { IfSome result (IsFirstPlace self.now (wrapped class)) }
        ensures none { IfNone result (Absent self.now (wrapped class)) }
    {
        self.place_of_entry(&WrittenEntry::external(class))
    }

    /// Enters traits of a class that is not externalizable. After an error nothing has changed.
    pub(crate) fn push(
        &mut self,
        traits: &TraitsView<'_>,
        graph: &Rooted,
        texts: &TextTable,
        known: &KnownTexts,
    ) -> Result<(), Memory>
        requires shown { AreTraitsOf graph.now.arena traits.now }
        requires known { AreNotedOf graph.now.arena texts.now known.now }
        ensures ok { OnOk result (IsPushed texts.now self.old (shown_entry graph.now.arena traits.now) self.new) }
        ensures err { OnErr result (self.new ≡ self.old) }
    {
        match WrittenEntry::coded(self.alloc, traits, graph, texts, known)? {
            Some(entry) => self.push_entry(entry),
            None => {
                let entry = WrittenEntry::copied(self.alloc, traits, graph)?;
                self.push_entry(entry)
            }
        }
    }

    /// Enters the traits of an externalizable class. After an error nothing has changed.
    pub(crate) fn push_wrapped(&mut self, class: Wrapped) -> Result<(), Memory>
        ensures ok { OnOk result (self.new ≡ self.old ++ wrapped class ∷ []) }
        ensures err { OnErr result (self.new ≡ self.old) }
    {
        self.push_entry(WrittenEntry::external(class))
    }

    fn push_entry(&mut self, entry: WrittenEntry) -> Result<(), Memory>
        ensures ok { OnOk result (self.new ≡ self.old ++ entry ∷ []) }
        ensures err { OnErr result (self.new ≡ self.old) }
    {
        let hash = entry.hash(self.start);
        let is_copy = entry.is_copy();
        enter(&mut self.entries, &mut self.places, entry, hash)?;
        if is_copy {
            self.has_copies = true;
        }
        Ok(())
    }
}
