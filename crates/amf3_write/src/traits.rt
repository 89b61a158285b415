ghost use Rattle.std.specs.Prelude.{◌≡◌, ◌<◌, length, IfOk, OnOk, IfSome, IfNone};
ghost use Rattle.amf_wire.specs.Text.{IsText};
ghost use Rattle.amf_graph.specs.Arena.{Arena, IsTextId, text_at};
ghost use Rattle.amf_graph.specs.Bounds.{sealed_end};
ghost use Rattle.amf_tables.specs.FirstPlace.{IsFirstPlace};
ghost use Rattle.amf_tables.specs.ShownTraits.{AreTextIds, AreTraitsOf, shown_entry, texts_at};
ghost use Rattle.amf_tables.specs.KnownWords.{entry_at};
ghost use Rattle.amf3_spelling.specs.Tables.{with_words, external};
ghost use Rattle.amf_tables.specs.TextPlaces.{IsEntered};
ghost use Rattle.amf3_spelling.specs.Words3.{NoPlaceBelow};
ghost use Rattle.amf3_spelling.specs.ByteSpelling as spell;
ghost use Rattle.amf3_write.specs.Writes.{WritesStep, WritesTexts, Keeps, IsReady};

use crate::output::Output;
use amf_graph::{Rooted, TextId, TraitsId, TraitsView, Wrapped};
use amf_tables::TextPlace;
use amf_wire::Memory;

/// How many places of the table of traits a header can name (3.12).
const NAMEABLE_TRAITS: u32 = 134_217_728;

impl Output {
    /// A text of the graph: by its place, or inline where no header can name it. The empty text has no place (1.3.2).
    pub(crate) fn text_of(&mut self, text: TextId, graph: &Rooted) -> Result<(), Memory>
        requires id { IsTextId graph.now.arena text.0 }
        requires ready { IsReady graph.now.arena self.old.tables self.old.known }
        ensures text { IsText (text_at graph.now.arena text.0) }
        ensures ok { OnOk result (WritesStep (spell.word (text_at graph.now.arena text.0)) self.old self.new) }
        ensures keeps { Keeps self.old self.new }
        ensures ready { OnOk result (IsReady graph.now.arena self.new.tables self.new.known) }
    {
        graph.is_finished();
        let bytes = graph.text(text);
        if bytes.is_empty() {
            return self.number(1);
        }
        let found = self.place_or_add_text(text, graph)?;
        match found {
            TextPlace::Old(place) => self.text_at(place, bytes),
            TextPlace::New(_) => self.counted(bytes),
        }
    }

    /// The first place of a text of the graph, which is entered where it is new.
    fn place_or_add_text(&mut self, text: TextId, graph: &Rooted) -> Result<TextPlace, Memory>
        requires id { IsTextId graph.now.arena text.0 }
        requires ready { IsReady graph.now.arena self.old.tables self.old.known }
        ensures ok { IfOk result (IsEntered self.old.tables.words.texts (text_at graph.now.arena text.0) self.new.tables.words.texts) }
        ensures rest { self.new.tables ≡ with_words self.old.tables (record { texts = self.new.tables.words.texts; traits = self.old.tables.words.traits }) }
        ensures bytes { self.new.bytes ≡ self.old.bytes }
        ensures ready { IsReady graph.now.arena self.new.tables self.new.known }
    {
        self.known.place_or_add_text(text, graph, &mut self.tables)
    }

    /// Texts of a graph, one after another.
    fn texts_of(&mut self, texts: &[TextId], graph: &Rooted) -> Result<(), Memory>
        requires texts { AreTextIds graph.now.arena texts.now }
        requires ready { IsReady graph.now.arena self.old.tables self.old.known }
        ensures ok { OnOk result (WritesTexts (texts_at graph.now.arena texts.now) self.old self.new) }
        ensures keeps { Keeps self.old self.new }
        ensures ready { OnOk result (IsReady graph.now.arena self.new.tables self.new.known) }
    {
        for text in texts {
            self.text_of(*text, graph)?;
        }
        Ok(())
    }

    /// The first place of traits of the graph, if a header can name it.
    fn place_of_traits(&mut self, traits: TraitsId, graph: &Rooted) -> Option<u32>
        requires id { traits.0 < length graph.now.arena.traits }
        requires ready { IsReady graph.now.arena self.old.tables self.old.known }
        ensures first { IfSome result (λ place. IsFirstPlace self.old.tables.words.traits (entry_at graph.now.arena traits.0) place) }
        ensures within { IfSome result (λ place. place < NAMEABLE_TRAITS) }
        ensures none { IfNone result (NoPlaceBelow NAMEABLE_TRAITS self.old.tables.words.traits (entry_at graph.now.arena traits.0)) }
        ensures tables { self.new.tables ≡ self.old.tables }
        ensures bytes { self.new.bytes ≡ self.old.bytes }
        ensures ready { IsReady graph.now.arena self.new.tables self.new.known }
    {
        let place = self.known.place_of_traits(traits, graph, &self.tables)?;
        if place < NAMEABLE_TRAITS {
            Some(place)
        } else {
            None
        }
    }

    /// Traits with members: by their place, or inline where no header can name it (3.12).
    pub(crate) fn traits(&mut self, traits: TraitsId, graph: &Rooted) -> Result<(), Memory>
        requires id { traits.0 < length graph.now.arena.traits }
        requires ready { IsReady graph.now.arena self.old.tables self.old.known }
        ensures ok { OnOk result (WritesStep (spell.traits (entry_at graph.now.arena traits.0)) self.old self.new) }
        ensures keeps { Keeps self.old self.new }
        ensures ready { OnOk result (IsReady graph.now.arena self.new.tables self.new.known) }
    {
        graph.is_finished();
        match self.place_of_traits(traits, graph) {
            Some(place) => self.number(4 * place + 1),
            None => self.traits_inline(&graph.traits(traits), graph),
        }
    }

    fn traits_inline(&mut self, traits: &TraitsView<'_>, graph: &Rooted) -> Result<(), Memory>
        requires shown { AreTraitsOf graph.now.arena traits.now }
        requires few { length traits.now.sealed.now < sealed_end }
        requires ready { IsReady graph.now.arena self.old.tables self.old.known }
        requires unnamed { NoPlaceBelow NAMEABLE_TRAITS self.old.tables.words.traits (shown_entry graph.now.arena traits.now) }
        ensures ok { OnOk result (WritesStep (spell.traits (shown_entry graph.now.arena traits.now)) self.old self.new) }
        ensures keeps { Keeps self.old self.new }
        ensures ready { OnOk result (IsReady graph.now.arena self.new.tables self.new.known) }
    {
        let flags = if traits.dynamic { 0b1011 } else { 0b0011 };
        self.number(16 * traits.sealed.len() as u32 + flags)?;
        self.text_of(traits.class, graph)?;
        self.texts_of(traits.sealed, graph)?;
        self.known.add_traits(traits, graph, &mut self.tables)?;
        Ok(())
    }

    /// The first place of an externalizable class, if a header can name it.
    fn place_of_wrapped(&self, class: Wrapped) -> Option<u32>
        ensures first { IfSome result (λ place. IsFirstPlace self.now.tables.words.traits (external class) place) }
        ensures within { IfSome result (λ place. place < NAMEABLE_TRAITS) }
        ensures none { IfNone result (NoPlaceBelow NAMEABLE_TRAITS self.now.tables.words.traits (external class)) }
    {
        let place = self.tables.place_of_wrapped(class)?;
        if place < NAMEABLE_TRAITS {
            Some(place)
        } else {
            None
        }
    }

    /// The traits of an externalizable class: by their place, or inline where no header can name it (3.12).
    pub(crate) fn wrapper(&mut self, class: Wrapped) -> Result<(), Memory>
        ensures ok { OnOk result (WritesStep (spell.traits (external class)) self.old self.new) }
        ensures keeps { Keeps self.old self.new }
        ensures ready { (a : Arena) → IsReady a self.old.tables self.old.known → IsReady a self.new.tables self.new.known }
    {
        match self.place_of_wrapped(class) {
            Some(place) => self.number(4 * place + 1),
            None => self.wrapper_inline(class),
        }
    }

    fn wrapper_inline(&mut self, class: Wrapped) -> Result<(), Memory>
        requires { NoPlaceBelow NAMEABLE_TRAITS self.old.tables.words.traits (external class) }
        ensures ok { OnOk result (WritesStep (spell.traits (external class)) self.old self.new) }
        ensures keeps { Keeps self.old self.new }
        ensures ready { (a : Arena) → IsReady a self.old.tables self.old.known → IsReady a self.new.tables self.new.known }
    {
        self.number(0b0111)?;
        self.text(class.class_name())?;
        self.tables.add_wrapped(class)?;
        Ok(())
    }
}
