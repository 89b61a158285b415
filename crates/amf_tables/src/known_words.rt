ghost use Rattle.std.specs.Prelude.{◌≡◌, ◌<◌, List, true, length, slice_get, Some, IfOk, IfSome, IfNone, OnOk, OnErr};
ghost use Rattle.amf_graph.specs.Arena.{IsTextId, text_at};
ghost use Rattle.amf_graph.specs.Order.{Absent};
ghost use Rattle.amf_graph.specs.TextNumbers.{contents_of};
ghost use Rattle.amf_tables.specs.FirstPlace.{IsFirstPlace};
ghost use Rattle.amf_tables.specs.KnownPlaces.{AreKnown, HasPlace};
ghost use Rattle.amf_tables.specs.KnownTexts.{AreNotedOf};
ghost use Rattle.amf_tables.specs.KnownWords.{nothing_known, entry_at, AreKnownOf, TellsPlace};
ghost use Rattle.amf_tables.specs.ShownTraits.{AreTextIds, AreTraitsOf, shown_entry};
ghost use Rattle.amf3_spelling.specs.Tables.{Entry, with_words, add_entry};
ghost use Rattle.amf_tables.specs.TextPlaces.{IsEntered};

use crate::first_places::MAX_ENTRIES;
use crate::known_places::KnownPlaces;
use crate::known_texts::KnownTexts;
use crate::text_place::TextPlace;
use crate::writer_tables::WriterTables;
use amf_graph::{Rooted, TextId, TraitsId, TraitsView};
use amf_wire::Memory;
use std::alloc::Global;
use std::marker::Model;

/// The places of the texts and traits of one graph in a writer's tables, as far as they were asked for: of texts by the
/// numbers of their contents, of traits by id. So each content is looked up once, and a new one not even once as long as the
/// tables have no texts but those that were entered here.
///
/// Each number takes four bytes, up to the greatest that was asked for. Where there is no memory to note a place, it is
/// looked up again.
pub struct KnownWords {
    texts: KnownTexts,
    traits: KnownPlaces,
}

impl Drop for KnownWords {
    /// Lets its parts go. Written out, it is proved once; what is derived is proved at each place where one is let go.
    fn drop(self) {
        let KnownWords {
            texts: _,
            traits: _,
        } = self;
    }
}

impl Model for KnownWords {
    ghost use Rattle.amf_tables.specs.KnownWords.{Known};

    ghost Value = { Known };

    ghost view = { λ k. record { texts = k.texts; traits = k.traits } };
}

/// Notes the place of a text of the graph. It says whether one is known then, or the text is empty.
fn note_text(known: &mut KnownTexts, text: TextId, graph: &Rooted, tables: &WriterTables) -> bool
    requires id { IsTextId graph.now.arena text.0 }
    requires known { AreNotedOf graph.now.arena tables.now.words.texts known.old }
    ensures { AreNotedOf graph.now.arena tables.now.words.texts known.new }
{
    let number = graph.text_number(text);
    if known.place_of(number).is_some() {
        return true;
    }
    let bytes = graph.text(text);
    if known.covers(tables.text_count()) {
        return bytes.is_empty();
    }
    match tables.place_of_text(bytes) {
        Some(place) => {
            known.keep(number, place);
            true
        }
        None => bytes.is_empty(),
    }
}

/// Notes the places of texts of the graph, one after another, up to the first that has none.
fn note_texts(known: &mut KnownTexts, ids: &[TextId], graph: &Rooted, tables: &WriterTables)
    requires ids { AreTextIds graph.now.arena ids.now }
    requires known { AreNotedOf graph.now.arena tables.now.words.texts known.old }
    ensures { AreNotedOf graph.now.arena tables.now.words.texts known.new }
{
    for id in ids {
        if !note_text(known, *id, graph, tables) {
            return;
        }
    }
}

/// Notes the places of the texts of traits, up to the first that has none.
fn note_traits(
    known: &mut KnownTexts,
    traits: &TraitsView<'_>,
    graph: &Rooted,
    tables: &WriterTables,
)
    requires shown { AreTraitsOf graph.now.arena traits.now }
    requires known { AreNotedOf graph.now.arena tables.now.words.texts known.old }
    ensures { AreNotedOf graph.now.arena tables.now.words.texts known.new }
{
    if note_text(known, traits.class, graph, tables) {
        note_texts(known, traits.sealed, graph, tables);
    }
}

/// Whether two traits of a graph are seen to be the same: one class by its number, and no sealed members. Of others it says that
/// they are not.
fn are_alike(traits: &TraitsView<'_>, other: &TraitsView<'_>, graph: &Rooted) -> bool
    requires shown { AreTraitsOf graph.now.arena traits.now }
    requires other { AreTraitsOf graph.now.arena other.now }
    ensures { result ≡ true → shown_entry graph.now.arena traits.now ≡ shown_entry graph.now.arena other.now }
{
    if !traits.sealed.is_empty() || !other.sealed.is_empty() || traits.dynamic != other.dynamic {
        return false;
    }
    graph.text_number(traits.class) == graph.text_number(other.class)
}

/// The place that is known of the traits before these, where these are seen to be the same. Most readers keep the traits of each
/// record anew, however many have one class.
#[inline(never)]
fn place_before(known: &KnownPlaces, traits: TraitsId, graph: &Rooted) -> Option<u32>
    requires { traits.0 < length graph.now.arena.traits }
    ensures { TellsPlace graph.now.arena known.now traits.0 result }
{
    if traits.0 == 0 {
        return None;
    }
    let before = TraitsId(traits.0 - 1);
    let place = known.place_of(before.0)?;
    // What is true of every graph.
    graph.is_finished();
    if are_alike(&graph.traits(traits), &graph.traits(before), graph) {
        return Some(place);
    }
    None
}

/// The place of traits, by what is known of them and of those before them. It is noted where there is memory.
#[inline(always)]
fn known_place(known: &mut KnownPlaces, traits: TraitsId, graph: &Rooted) -> Option<u32>
    requires { traits.0 < length graph.now.arena.traits }
    ensures first { TellsPlace graph.now.arena known.old traits.0 result }
    ensures known { (entries : List Entry) → AreKnown (entry_at graph.now.arena) entries known.old → AreKnown (entry_at graph.now.arena) entries known.new }
{
    if let Some(place) = known.place_of(traits.0) {
        return Some(place);
    }
    let place = place_before(known, traits, graph)?;
    known.keep(traits.0, place);
    Some(place)
}

impl KnownWords {
    /// Nothing is known.
    pub fn new(alloc: Global) -> KnownWords
        ensures { result ≡ nothing_known }
    {
        KnownWords {
            texts: KnownTexts::new(alloc),
            traits: KnownPlaces::new(alloc),
        }
    }

    /// The first place of a text of the graph, which is entered where it is new. After an error the tables are as before.
    #[inline(always)]
    pub fn place_or_add_text(
        &mut self,
        text: TextId,
        graph: &Rooted,
        tables: &mut WriterTables,
    ) -> Result<TextPlace, Memory>
        requires id { IsTextId graph.now.arena text.0 }
        requires known { AreKnownOf graph.now.arena tables.old.words self.old }
        ensures ok { IfOk result (IsEntered tables.old.words.texts (text_at graph.now.arena text.0) tables.new.words.texts) }
        ensures rest { tables.new ≡ with_words tables.old (record { texts = tables.new.words.texts; traits = tables.old.words.traits }) }
        ensures known { AreKnownOf graph.now.arena tables.new.words self.new }
        ensures err { OnErr result (tables.new ≡ tables.old) }
    {
        let number = graph.text_number(text);
        if let Some(place) = self.texts.place_of(number) {
            return Ok(TextPlace::Old(place));
        }
        self.look_up_or_add(text, number, graph, tables)
    }

    /// Does what `place_or_add_text` does, for a text whose content has this number and no known place.
    #[inline(never)]
    fn look_up_or_add(
        &mut self,
        text: TextId,
        number: u32,
        graph: &Rooted,
        tables: &mut WriterTables,
    ) -> Result<TextPlace, Memory>
        requires id { IsTextId graph.now.arena text.0 }
        requires number { slice_get (contents_of graph.now.arena.texts) number ≡ Some (text_at graph.now.arena text.0) }
        requires unknown { HasPlace self.old.texts.places number → ⊥ }
        requires known { AreKnownOf graph.now.arena tables.old.words self.old }
        ensures ok { IfOk result (IsEntered tables.old.words.texts (text_at graph.now.arena text.0) tables.new.words.texts) }
        ensures rest { tables.new ≡ with_words tables.old (record { texts = tables.new.words.texts; traits = tables.old.words.traits }) }
        ensures known { AreKnownOf graph.now.arena tables.new.words self.new }
        ensures err { OnErr result (tables.new ≡ tables.old) }
    {
        let bytes = graph.text(text);
        let count = tables.text_count();
        if self.texts.covers(count) && count < MAX_ENTRIES {
            tables.add_text(bytes)?;
            let place = count as u32;
            self.texts.keep_next(number, place);
            return Ok(TextPlace::New(place));
        }
        let found = tables.place_or_add_text(bytes)?;
        match found {
            TextPlace::Old(place) => self.texts.keep(number, place),
            TextPlace::New(place) => self.texts.keep(number, place),
        }
        Ok(found)
    }

    /// The first place of traits of the graph: `None` exactly where they have none.
    pub fn place_of_traits(
        &mut self,
        traits: TraitsId,
        graph: &Rooted,
        tables: &WriterTables,
    ) -> Option<u32>
        requires id { traits.0 < length graph.now.arena.traits }
        requires known { AreKnownOf graph.now.arena tables.now.words self.old }
        ensures first { IfSome result (IsFirstPlace tables.now.words.traits (entry_at graph.now.arena traits.0)) }
        ensures none { IfNone result (Absent tables.now.words.traits (entry_at graph.now.arena traits.0)) }
        ensures known { AreKnownOf graph.now.arena tables.now.words self.new }
    {
        if let Some(place) = known_place(&mut self.traits, traits, graph) {
            return Some(place);
        }
        graph.is_finished();
        let shown = graph.traits(traits);
        note_traits(&mut self.texts, &shown, graph, tables);
        let place = tables.place_of_known(&shown, graph, &self.texts)?;
        self.traits.keep(traits.0, place);
        Some(place)
    }

    /// Enters traits of the graph that are of a class that is not externalizable. After an error nothing has changed. It
    /// looks up by their bytes only those of their texts whose places are not known.
    pub fn add_traits(
        &self,
        traits: &TraitsView<'_>,
        graph: &Rooted,
        tables: &mut WriterTables,
    ) -> Result<(), Memory>
        requires shown { AreTraitsOf graph.now.arena traits.now }
        requires known { AreKnownOf graph.now.arena tables.old.words self.now }
        ensures ok { OnOk result (tables.new ≡ with_words tables.old (add_entry tables.old.words (shown_entry graph.now.arena traits.now))) }
        ensures known { AreKnownOf graph.now.arena tables.new.words self.now }
        ensures err { OnErr result (tables.new ≡ tables.old) }
    {
        tables.add_known(traits, graph, &self.texts)
    }
}
