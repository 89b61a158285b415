ghost use Rattle.std.specs.Prelude.{◌≡◌, ◌≤◌, ◌++◌, ◌∷◌, [], length, get_or, IfOk, IfSome, IfNone, OnOk, OnErr};
ghost use Rattle.amf_graph.specs.Order.{Absent};
ghost use Rattle.amf_tables.specs.FirstPlace.{IsFirstPlace};
ghost use Rattle.amf_tables.specs.TextPlaces.{IsEntered};

use crate::first_places::MAX_ENTRIES;
use crate::text_place::TextPlace;
use amf_graph::Texts;
use amf_wire::Memory;
use std::alloc::Global;
use std::hash::RandomState;
use std::marker::Model;

/// Texts in the order of their places, which are found by their hashes. The bytes of each content stand once.
#[derive(Drop)]
pub(crate) struct HashedTexts {
    texts: Texts,
    /// For each content, by its number, the first place of a text that has it.
    firsts: Vec<u32>,
}

impl Model for HashedTexts {
    ghost use Rattle.std.specs.Prelude.{ℕ, List};
    ghost use Rattle.amf_tables.specs.TextFirsts.{AreTextFirsts};

    ghost Value = { List (List ℕ) };

    ghost view = { λ t. t.texts };

    ghost invariant = { λ t. AreTextFirsts t.texts t.firsts.items };
}

impl HashedTexts {
    /// No texts yet. They are looked up by these keys, which the maker of an input does not know, or by none.
    pub(crate) fn new(alloc: Global, keys: Option<RandomState>) -> HashedTexts
        ensures { result ≡ [] }
    {
        HashedTexts {
            texts: Texts::new(alloc, keys),
            firsts: Vec::new(alloc),
        }
    }

    /// How many texts there are.
    pub(crate) fn len(&self) -> usize
        ensures count { result ≡ length self.now }
        ensures few { result ≤ MAX_ENTRIES }
    {
        self.texts.len()
    }

    /// The bytes of a text, or none where there is no such text.
    pub(crate) fn get(&self, place: usize) -> &[u8]
        ensures { result.now ≡ get_or self.now place [] }
    {
        self.texts.get(place)
    }

    /// The first place of a text: `None` exactly where it has none. It takes no memory.
    pub(crate) fn place_of(&self, bytes: &[u8]) -> Option<u32>
        ensures first { IfSome result (IsFirstPlace self.now bytes.now) }
        ensures none { IfNone result (Absent self.now bytes.now) }
    {
        let number = self.texts.find(bytes)?;
        Some(self.firsts[number as usize])
    }

    /// The first place of a text, which is entered where it is new. After an error nothing has changed.
    pub(crate) fn place_or_push(&mut self, bytes: &[u8]) -> Result<TextPlace, Memory>
        ensures ok { IfOk result (IsEntered self.old bytes.now self.new) }
        ensures few { length self.new ≤ MAX_ENTRIES }
        ensures err { OnErr result (self.new ≡ self.old) }
    {
        let place = self.texts.len();
        if place >= MAX_ENTRIES {
            return match self.place_of(bytes) {
                Some(first) => Ok(TextPlace::Old(first)),
                None => Err(Memory),
            };
        }
        self.firsts.reserve(1)?;
        match self.texts.find_or_push(bytes)? {
            Some(number) => Ok(TextPlace::Old(self.firsts[number as usize])),
            None => {
                self.firsts.push(place as u32)?;
                Ok(TextPlace::New(place as u32))
            }
        }
    }

    /// Enters a text. After an error nothing has changed.
    pub(crate) fn push(&mut self, bytes: &[u8]) -> Result<(), Memory>
        ensures ok { OnOk result (self.new ≡ self.old ++ bytes.now ∷ []) }
        ensures err { OnErr result (self.new ≡ self.old) }
    {
        let place = self.texts.len();
        if place >= MAX_ENTRIES {
            return Err(Memory);
        }
        self.firsts.reserve(1)?;
        self.texts.push(bytes)?;
        if self.texts.content_count() > self.firsts.len() {
            self.firsts.push(place as u32)?;
        }
        Ok(())
    }
}
