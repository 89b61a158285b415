ghost use Rattle.std.specs.Prelude.{◌≡◌, ◌≢◌, ℕ, [], true, slice_get, Some, IfSome, IfNone};
ghost use Rattle.amf_tables.specs.KnownPlaces.{Knows, HasPlace, KeepPlaces};

use amf_wire::Memory;
use std::alloc::Global;
use std::marker::Model;

/// What stands for a number whose place is not known.
const UNKNOWN: u32 = 4_294_967_295;

/// Places by number, as far as they are known.
#[derive(Drop)]
pub(crate) struct KnownPlaces {
    places: Vec<u32>,
}

impl Model for KnownPlaces {
    ghost use Rattle.std.specs.Prelude.{ℕ, List};

    ghost Value = { List ℕ };

    ghost view = { λ k. k.places.items };
}

/// Makes room for the place of a number. After an error there may be some room more.
fn make_room(places: &mut Vec<u32>, index: usize) -> Result<(), Memory>
    ensures known { (i k : ℕ) → slice_get places.new.items i ≡ Some k → k ≢ UNKNOWN → slice_get places.old.items i ≡ Some k }
    ensures keeps { KeepPlaces places.old.items places.new.items }
{
    while places.len() <= index {
        places.push(UNKNOWN)?;
    }
    Ok(())
}

impl KnownPlaces {
    /// Nothing is known.
    pub(crate) fn new(alloc: Global) -> KnownPlaces
        ensures { result ≡ [] }
    {
        KnownPlaces {
            places: Vec::new(alloc),
        }
    }

    /// What is known of a number.
    pub(crate) fn place_of(&self, number: u32) -> Option<u32>
        ensures known { IfSome result (λ place. (slice_get self.now number ≡ Some place) × (place ≢ UNKNOWN)) }
        ensures unknown { IfNone result (HasPlace self.now number → ⊥) }
    {
        let place = *self.places.get(number as usize)?;
        if place == UNKNOWN { None } else { Some(place) }
    }

    /// Keeps the place of a number, where there is memory for it. It says whether it is kept.
    pub(crate) fn keep(&mut self, number: u32, place: u32) -> bool
        ensures knows { Knows self.old number place self.new }
        ensures keeps { KeepPlaces self.old self.new }
        ensures kept { result ≡ true → HasPlace self.new number }
    {
        let index = number as usize;
        let _ = make_room(&mut self.places, index);
        if place == UNKNOWN || index >= self.places.len() {
            return false;
        }
        self.places[index] = place;
        true
    }
}
