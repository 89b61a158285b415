//! Where the places of each client are, and those of each topic.
ghost use Rattle.std.specs.Prelude.{◌≡◌, ◌++◌, ◌∷◌, [], ℕ, ◌<◌, ◌==◌, true, length, filter, if◌then◌else◌, IfOk, OnOk, OnErr};
ghost use Rattle.amf_broker.specs.Slots.{is_own_at, is_kept_at, spots_of};

use crate::ClientId;
use crate::slot::Slot;
use amf_wire::Memory;
use indexmap::IndexMap;
use std::alloc::Global;
use std::marker::Model;

/// Numbers of slots.
#[derive(Drop)]
pub(crate) struct Spots {
    list: Vec<usize>,
}

impl Model for Spots {
    ghost use Rattle.std.specs.Prelude.{List, ℕ};

    ghost Value = { List ℕ };

    ghost view = { λ s. s.list.items };
}

impl Spots {
    fn new(alloc: Global, at: usize) -> Result<Spots, Memory>
        ensures { IfOk result (λ spots. spots ≡ at ∷ []) }
    {
        let mut list = Vec::new(alloc);
        list.push(at)?;
        Ok(Spots { list })
    }

    fn push(&mut self, at: usize) -> Result<(), Memory>
        ensures ok { OnOk result (self.new ≡ self.old ++ (at ∷ [])) }
        ensures err { OnErr result (self.new ≡ self.old) }
    {
        self.list.push(at)?;
        Ok(())
    }

    fn as_slice(&self) -> &[usize]
        ensures { result.now ≡ self.now }
    {
        self.list.as_slice()
    }

    /// Those stay in which the client has its place.
    fn prune(&mut self, slots: &[Slot], client: ClientId)
        ensures { self.new ≡ filter (is_own_at client slots.now) self.old }
    {
        self.list.retain(|at| is_own_at(slots, *at, client));
    }

    /// Those stay in which a place is.
    fn prune_gone(&mut self, slots: &[Slot])
        ensures { self.new ≡ filter (is_kept_at slots.now) self.old }
    {
        self.list.retain(|at| is_kept_at(slots, *at));
    }
}

/// Whether the client has its place there.
pub(crate) fn is_own_at(slots: &[Slot], at: usize, client: ClientId) -> bool
    ensures own { result ≡ is_own_at client slots.now at }
    ensures bound { result ≡ true → at < length slots.now }
{
    if at >= slots.len() {
        return false;
    }
    slots[at].is_own(client)
}

/// Whether a place is there.
fn is_kept_at(slots: &[Slot], at: usize) -> bool
    ensures { result ≡ is_kept_at slots.now at }
{
    if at >= slots.len() {
        return false;
    }
    slots[at].kept
}

/// Notes under the key, which is a client's number or a topic's hash, that a place of it is there too.
pub(crate) fn note_spot(
    alloc: Global,
    spots: &mut IndexMap<u64, Spots>,
    key: u64,
    at: usize,
) -> Result<(), Memory>
    ensures ok { OnOk result ((k : ℕ) → spots_of spots.new k ≡ (if key == k then spots_of spots.old k ++ (at ∷ []) else spots_of spots.old k)) }
    ensures err { OnErr result ((k : ℕ) → spots_of spots.new k ≡ spots_of spots.old k) }
{
    if let Some(own) = spots.get_mut(&key) {
        return own.push(at);
    }
    let own = Spots::new(alloc, at)?;
    spots.insert(key, own)?;
    Ok(())
}

/// What is noted under the key.
pub(crate) fn spots_under(spots: &IndexMap<u64, Spots>, key: u64) -> &[usize]
    ensures { result.now ≡ spots_of spots.now key }
{
    match spots.get(&key) {
        Some(own) => own.as_slice(),
        None => &[],
    }
}

/// Where the client's places are.
pub(crate) fn spots_of(spots: &IndexMap<u64, Spots>, client: ClientId) -> &[usize]
    ensures { result.now ≡ spots_of spots.now client }
{
    spots_under(spots, client.0)
}

/// Of the client's places those stay noted that are there.
pub(crate) fn prune_spots(spots: &mut IndexMap<u64, Spots>, all: &[Slot], client: ClientId)
    ensures { (k : ℕ) → spots_of spots.new k ≡ (if client == k then filter (is_own_at client all.now) (spots_of spots.old k) else spots_of spots.old k) }
{
    if let Some(own) = spots.get_mut(&client.0) {
        own.prune(all, client);
    }
}

/// Of what is noted under the key that stays where a place is.
pub(crate) fn prune_gone(spots: &mut IndexMap<u64, Spots>, all: &[Slot], key: u64)
    ensures { (k : ℕ) → spots_of spots.new k ≡ (if key == k then filter (is_kept_at all.now) (spots_of spots.old k) else spots_of spots.old k) }
{
    if let Some(own) = spots.get_mut(&key) {
        own.prune_gone(all);
    }
}

/// Nothing is noted of the client any more.
pub(crate) fn drop_spots(spots: &mut IndexMap<u64, Spots>, client: ClientId)
    ensures { (k : ℕ) → spots_of spots.new k ≡ (if client == k then [] else spots_of spots.old k) }
{
    spots.swap_remove(&client.0);
}
