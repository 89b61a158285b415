ghost use Rattle.std.specs.Prelude.{◌≡◌, ◌≢◌, ◌↔◌, slice_get, Some, IsTrue, IfSome, IfNone};
ghost use Rattle.amf_tables.specs.KnownPlaces.{Knows, HasPlace, KeepPlaces};
ghost use Rattle.amf_tables.specs.KnownTexts.{nothing_noted, KeepsNoted};
ghost use Rattle.amf_tables.specs.declared.known_places.TheConstants.{UNKNOWN};

use crate::known_places::KnownPlaces;
use std::alloc::Global;
use std::marker::Model;

/// The places of the texts of one graph in a writer's table, by the numbers of their contents, as far as they are known.
#[derive(Drop)]
pub(crate) struct KnownTexts {
    places: KnownPlaces,
    /// So many of the table's first texts are covered: a number whose content is one of them has a known place.
    covered: usize,
}

impl Model for KnownTexts {
    ghost use Rattle.amf_tables.specs.KnownTexts.{Noted};

    ghost Value = { Noted };

    ghost view = { λ k. record { places = k.places; covered = k.covered } };
}

impl KnownTexts {
    /// Nothing is known.
    pub(crate) fn new(alloc: Global) -> KnownTexts
        ensures { result ≡ nothing_noted }
    {
        KnownTexts {
            places: KnownPlaces::new(alloc),
            covered: 0,
        }
    }

    /// What is known of a number.
    pub(crate) fn place_of(&self, number: u32) -> Option<u32>
        ensures known { IfSome result (λ place. (slice_get self.now.places number ≡ Some place) × (place ≢ UNKNOWN)) }
        ensures unknown { IfNone result (HasPlace self.now.places number → ⊥) }
    {
        self.places.place_of(number)
    }

    /// Whether all texts of a table are covered, which has so many: a number without a known place has none then.
    pub(crate) fn covers(&self, count: usize) -> bool
        ensures { IsTrue result ↔ (self.now.covered ≡ count) }
    {
        self.covered == count
    }

    /// Keeps the place of a number, where there is memory for it.
    pub(crate) fn keep(&mut self, number: u32, place: u32)
        ensures knows { Knows self.old.places number place self.new.places }
        ensures keeps { KeepPlaces self.old.places self.new.places }
        ensures covered { self.new.covered ≡ self.old.covered }
    {
        self.places.keep(number, place);
    }

    /// Keeps the place of a number, where there is memory for it: that of a text behind all that are covered. It is covered
    /// too where its place is kept.
    pub(crate) fn keep_next(&mut self, number: u32, place: u32)
        requires { place ≡ self.old.covered }
        ensures knows { Knows self.old.places number place self.new.places }
        ensures keeps { KeepsNoted self.old number self.new }
    {
        if self.places.keep(number, place) {
            self.covered = place as usize + 1;
        }
    }
}
