ghost use Rattle.std.specs.Prelude.{◌≡◌, ℕ, ◌≤◌, ◌∷◌, [], ◌++◌, List, length, map, OnOk, OnErr, MatchOption};
ghost use Rattle.amf_graph.specs.Order.{Absent};
ghost use Rattle.amf_tables.specs.FirstPlace.{IsFirstPlace};
ghost use Rattle.amf_tables.specs.HashedPlaces.{AreFirstPlaces};

use amf_wire::Memory;
use indexmap::IndexMap;

/// A table has at most this many entries, so that each has a place that is a `u32`.
pub(crate) const MAX_ENTRIES: usize = 4_294_967_296;

/// The place of the first of several entries with this hash, from the first places of the hashes of all.
pub(crate) fn first_with(places: &IndexMap<u64, u32>, hash: u64) -> Option<u32>
    ensures { (hashes : List ℕ) → AreFirstPlaces hashes places.now → MatchOption result (Absent hashes hash) (IsFirstPlace hashes hash) }
{
    places.get(&hash).copied()
}

/// Notes the place of one more entry, behind all others. After an error nothing has changed.
fn note_place(places: &mut IndexMap<u64, u32>, hash: u64, place: u32) -> Result<(), Memory>
    ensures ok { (hashes : List ℕ) → AreFirstPlaces hashes places.old → length hashes ≡ place → OnOk result (AreFirstPlaces (hashes ++ hash ∷ []) places.new) }
    ensures err { (hashes : List ℕ) → AreFirstPlaces hashes places.old → OnErr result (AreFirstPlaces hashes places.new) }
{
    if places.get(&hash).is_none() {
        places.insert(hash, place)?;
    }
    Ok(())
}

/// Enters one more, behind all others, with its hash. After an error nothing has changed.
pub(crate) fn enter<T: Drop>(
    entries: &mut Vec<T>,
    places: &mut IndexMap<u64, u32>,
    entry: T,
    hash: u64,
) -> Result<(), Memory>
    ensures ok { OnOk result (entries.new.items ≡ entries.old.items ++ entry ∷ []) }
    ensures err { OnErr result (entries.new.items ≡ entries.old.items) }
    ensures few { length entries.old.items ≤ MAX_ENTRIES → length entries.new.items ≤ MAX_ENTRIES }
    ensures placed { (hash_of : T → ℕ) → hash_of entry ≡ hash → AreFirstPlaces (map hash_of entries.old.items) places.old → AreFirstPlaces (map hash_of entries.new.items) places.new }
{
    let place = entries.len();
    if place >= MAX_ENTRIES {
        return Err(Memory);
    }
    entries.push(entry)?;
    match note_place(places, hash, place as u32) {
        Ok(()) => Ok(()),
        Err(error) => {
            entries.pop();
            Err(error)
        }
    }
}
