ghost use Rattle.std.specs.Prelude.{◌≡◌, ◌++◌, ◌∷◌, [], ◌==◌, ◌&&◌, ◌<◌, ℕ, List, true, not, length, filter, map};
ghost use Rattle.std.specs.Prelude.{count_by, nat_lt, get_or, is_some, IfOk, IfSome, OnOk, OnErr};
ghost use Rattle.std.specs.List.{list_all, list_any};
ghost use Rattle.amf_broker.specs.Lines.{cleared, waits, spans_left};
ghost use Rattle.amf_broker.specs.Members.{logs_of, members_in, members_at, are_apart, raised, is_among, lines_left, line_parted};
ghost use Rattle.amf_broker.specs.declared.slot.Slot.{Slot};
ghost use Rattle.amf_broker.specs.declared.topic.Topic.{Topic};
ghost use Rattle.amf_broker.specs.Slots.{IsFound, AreAmong, AreListed, standing, nothing, kept_if, is_own_at, own_of, own_ended, members_ended, hushed, is_heard_by};
ghost use Rattle.amf_broker.specs.Slots.{changed_at, slot_begun, spots_of};

use crate::ended::Ended;
use crate::logs::Logs;
use crate::member::Member;
use crate::merge::put_covered;
use crate::place::Place;
use crate::slot::Slot;
use crate::spots::{
    Spots, drop_spots, is_own_at, note_spot, prune_gone, prune_spots, spots_of, spots_under,
};
use crate::topic::hash_of;
use crate::{ClientId, Deliveries, SubId, Topic};
use amf_wire::Memory;
use indexmap::IndexMap;
use std::alloc::Global;
use std::hash::DefaultHasher;
use std::marker::Model;

/// The places of all subscriptions, in order of their numbers. A place stays in its slot, also when it has gone, until they
/// are tidied up. For each client the slots are noted in which it has its places, and under the hash of each topic all slots
/// that have places of the topic, and maybe others.
#[derive(Drop)]
pub(crate) struct Roster {
    alloc: Global,
    start: DefaultHasher,
    slots: Vec<Slot>,
    spots: IndexMap<u64, Spots>,
    topics: IndexMap<u64, Spots>,
}

impl Model for Roster {
    ghost use Rattle.std.specs.Prelude.{◌≡◌, ℕ, List};
    ghost use Rattle.amf_broker.specs.declared.slot.Slot.{Slot};
    ghost use Rattle.amf_broker.specs.Slots.{IsFound, AreListed, spots_of};

    ghost Value = { List Slot };

    ghost view = { λ p. p.slots.items };

    ghost invariant = { λ p. ((k : ℕ) → IsFound k (spots_of p.spots k) p.slots.items) × AreListed p.start p.topics p.slots.items };
}

impl Roster {
    /// No places yet. Those of a topic are looked up by the keys of this hasher.
    pub(crate) fn new(alloc: Global, start: DefaultHasher) -> Roster
        ensures { result ≡ [] }
    {
        Roster {
            alloc,
            start,
            slots: Vec::new(alloc),
            spots: IndexMap::new(alloc),
            topics: IndexMap::new(alloc),
        }
    }

    /// All slots.
    pub(crate) fn slots(&self) -> &[Slot]
        ensures { result.now ≡ self.now }
    {
        self.slots.as_slice()
    }

    /// A place comes to the back.
    pub(crate) fn push(&mut self, alloc: Global, place: Place) -> Result<(), Memory>
        ensures ok { OnOk result (self.new ≡ self.old ++ (record { place = place; kept = true } ∷ [])) }
        ensures err { OnErr result (self.new ≡ self.old) }
    {
        self.slots.reserve(1)?;
        let at = self.slots.len();
        let hash = hash_of(self.start, place.topic());
        note_spot(alloc, &mut self.topics, hash, at)?;
        note_spot(alloc, &mut self.spots, place.client().0, at)?;
        self.slots.push(Slot::new(place)).unwrap();
        Ok(())
    }

    /// The place that came last goes again.
    pub(crate) fn drop_last(&mut self)
        ensures { (ss : List Slot) (s : Slot) → self.old ≡ ss ++ (s ∷ []) → standing self.new ≡ standing ss }
    {
        let count = self.slots.len();
        if count > 0 {
            self.slots[count - 1].kept = false;
        }
    }

    /// The client's subscriptions listen no more.
    fn hush(&self, logs: &mut Logs, client: ClientId)
        requires listed { (topic : Topic) → members_at topic logs.old ≡ members_in topic (standing self.now) }
        requires apart { are_apart logs.old ≡ true }
        ensures { logs.new ≡ map (line_parted client) logs.old }
    {
        hush(logs, &self.slots, spots_of(&self.spots, client), client);
    }

    /// The client's places go, and what is noted of it.
    fn part(&mut self, client: ClientId)
        ensures { self.new ≡ map (kept_if (λ u. not (u.client == client))) self.old }
    {
        part(&mut self.slots, spots_of(&self.spots, client), client);
        drop_spots(&mut self.spots, client);
    }

    /// The client's subscription ends before the message of this number. Its place goes, if nothing waits for it.
    pub(crate) fn end_sub(&mut self, logs: &Logs, client: ClientId, sub: SubId, next: u64)
        ensures { self.new ≡ map (own_ended (λ k. k == client) next next (λ id. id == sub) (logs_of logs.now)) self.old }
    {
        end_sub(
            &mut self.slots,
            spots_of(&self.spots, client),
            logs,
            client,
            sub,
            next,
        );
        prune_spots(&mut self.spots, &self.slots, client);
    }

    /// Those of the client's subscriptions that are among these end before the message of this number, which is before `next`.
    /// Their places go, where nothing waits.
    fn end_own(&mut self, logs: &Logs, client: ClientId, ended: &Ended, number: u64, next: u64)
        ensures { self.new ≡ map (own_ended (λ k. k == client) number next (is_among ended.now.subs.items) (logs_of logs.now)) self.old }
    {
        end_own(
            &mut self.slots,
            spots_of(&self.spots, client),
            logs,
            client,
            ended,
            number,
            next,
        );
        prune_spots(&mut self.spots, &self.slots, client);
    }

    /// After a poll of the client what has ended is gone, and what is live begins anew at the message of this number.
    pub(crate) fn begin_anew(&mut self, client: ClientId, next: u64)
        ensures { standing self.new ≡ cleared client next (standing self.old) }
    {
        begin_anew(&mut self.slots, spots_of(&self.spots, client), client, next);
        prune_spots(&mut self.spots, &self.slots, client);
    }

    /// In how many slots the place has gone.
    fn gone(&self) -> usize {
        self.slots.iter().filter(|slot| !slot.kept).count()
    }

    /// If they are more than half, the slots of places that have gone are given up, if there is memory to note where the others
    /// are then.
    pub(crate) fn tidy(&mut self)
        ensures { standing self.new ≡ standing self.old }
    {
        if self.gone() <= self.slots.len() / 2 {
            return;
        }
        let Ok(spots) = spots_anew(self.alloc, &self.slots) else {
            return;
        };
        let Ok(topics) = topics_anew(self.alloc, self.start, &self.slots) else {
            return;
        };
        self.slots.retain(|slot| slot.kept);
        self.spots = spots;
        self.topics = topics;
    }

    /// Slots of places of the topic, and maybe of others. None of the topic is missing.
    pub(crate) fn of_topic(&self, topic: &Topic) -> &[usize]
        ensures { AreAmong topic.now result.now self.now }
    {
        spots_under(&self.topics, hash_of(self.start, topic))
    }

    /// Of the slots that are noted for the topic those stay noted in which a place is.
    pub(crate) fn prune_topic(&mut self, topic: &Topic)
        ensures { self.new ≡ self.old }
    {
        let hash = hash_of(self.start, topic);
        prune_gone(&mut self.topics, &self.slots, hash);
    }

    /// What waits for the client.
    pub(crate) fn waiting_for(
        &self,
        alloc: Global,
        logs: &Logs,
        client: ClientId,
        next: u64,
    ) -> Result<Deliveries, Memory>
        ensures { IfOk result (λ queue. queue ≡ waits (logs_of logs.now) (map (raised next) (standing self.now)) client) }
    {
        waiting_at(
            alloc,
            logs,
            &self.slots,
            spots_of(&self.spots, client),
            client,
            next,
        )
    }

    /// How many live subscriptions are the client's.
    pub(crate) fn live_of(&self, client: ClientId) -> usize
        ensures { result ≡ count_by (λ u. u.live && u.client == client) (standing self.now) }
    {
        live_at(&self.slots, spots_of(&self.spots, client), client)
    }

    /// Whether the subscription is live, and the client's.
    pub(crate) fn is_live(&self, sub: SubId, client: ClientId) -> bool
        ensures { result ≡ list_any (λ u. u.live && (u.id == sub && u.client == client)) (standing self.now) }
    {
        self.live_spot(sub, client).is_some()
    }

    /// Where the subscription has its place, if it is live and the client's.
    pub(crate) fn live_spot(&self, sub: SubId, client: ClientId) -> Option<usize>
        ensures some { is_some result ≡ list_any (λ u. u.live && (u.id == sub && u.client == client)) (standing self.now) }
        ensures within { IfSome result (λ i. i < length self.now) }
        ensures own { IfSome result (λ i. is_own_at client self.now i ≡ true) }
        ensures live { IfSome result (λ i. ((get_or self.now i nothing).place.live && (get_or self.now i nothing).place.id == sub) ≡ true) }
    {
        live_spot(&self.slots, spots_of(&self.spots, client), sub, client)
    }
}

/// The client's places at these spots go.
fn part(slots: &mut [Slot], spots: &[usize], client: ClientId)
    requires { list_all (λ i. nat_lt i (length slots.old)) spots.now ≡ true }
    ensures { slots.new ≡ changed_at (kept_if (λ u. not (u.client == client))) spots.now slots.old }
{
    for at in spots {
        slots[*at].part(client);
    }
}

/// The client's subscription in the slot, if it is there and live, listens no more.
fn hush_slot(logs: &mut Logs, slot: &Slot, client: ClientId)
    ensures { logs.new ≡ hushed client slot.now logs.old }
{
    if slot.is_own(client) && slot.place.is_live() {
        logs.part(slot.place.topic(), client);
    }
}

/// The client's subscriptions at these spots listen no more.
fn hush(logs: &mut Logs, slots: &[Slot], spots: &[usize], client: ClientId)
    requires within { list_all (λ i. nat_lt i (length slots.now)) spots.now ≡ true }
    requires heard { (topic : Topic) → is_heard_by client (own_of client slots.now spots.now) topic logs.old ≡ true }
    requires apart { are_apart logs.old ≡ true }
    ensures { logs.new ≡ map (line_parted client) logs.old }
{
    for at in spots {
        hush_slot(logs, &slots[*at], client);
    }
}

/// These clients leave: their subscriptions listen no more, and their places go.
pub(crate) fn part_clients(places: &mut Roster, logs: &mut Logs, left: &[ClientId])
    requires listed { (topic : Topic) → members_at topic logs.old ≡ members_in topic (standing places.old) }
    requires apart { are_apart logs.old ≡ true }
    ensures places { standing places.new ≡ spans_left left.now (standing places.old) }
    ensures logs { logs.new ≡ lines_left left.now logs.old }
{
    for client in left {
        places.hush(logs, *client);
        places.part(*client);
    }
}

/// The client's subscription ends before the message of this number. Its place, which is at one of these spots, goes, if
/// nothing waits for it.
fn end_sub(
    slots: &mut [Slot],
    spots: &[usize],
    logs: &Logs,
    client: ClientId,
    sub: SubId,
    next: u64,
)
    requires { list_all (λ i. nat_lt i (length slots.old)) spots.now ≡ true }
    ensures { slots.new ≡ changed_at (own_ended (λ k. k == client) next next (λ id. id == sub) (logs_of logs.now)) spots.now slots.old }
{
    for at in spots {
        slots[*at].end_sub(logs, client, sub, next);
    }
}

/// Those of the client's subscriptions at these spots that are among these end before the message of this number, which is
/// before `next`. Their places go, where nothing waits.
fn end_own(
    slots: &mut [Slot],
    spots: &[usize],
    logs: &Logs,
    client: ClientId,
    ended: &Ended,
    number: u64,
    next: u64,
)
    requires { list_all (λ i. nat_lt i (length slots.old)) spots.now ≡ true }
    ensures { slots.new ≡ changed_at (own_ended (λ k. k == client) number next (is_among ended.now.subs.items) (logs_of logs.now)) spots.now slots.old }
{
    for at in spots {
        slots[*at].end_among(logs, client, ended, number, next);
    }
}

/// Those of these members that are among these end before the message of this number, which is before `next`. Their places go,
/// where nothing waits.
pub(crate) fn end_members(
    places: &mut Roster,
    logs: &Logs,
    members: &[Member],
    ended: &Ended,
    number: u64,
    next: u64,
)
    ensures { places.new ≡ members_ended members.now ended.now.subs.items number next (logs_of logs.now) places.old }
{
    for member in members {
        if ended.has(member.sub()) {
            places.end_own(logs, member.client(), ended, number, next);
        }
    }
}

/// After a poll of the client its places at these spots go, or begin anew at the message of this number.
fn begin_anew(slots: &mut [Slot], spots: &[usize], client: ClientId, next: u64)
    requires { list_all (λ i. nat_lt i (length slots.old)) spots.now ≡ true }
    ensures { slots.new ≡ changed_at (slot_begun client next) spots.now slots.old }
{
    for at in spots {
        slots[*at].begin_anew(client, next);
    }
}

/// What waits for the client's places at these spots, by message number and then by subscription.
fn waiting_at(
    alloc: Global,
    logs: &Logs,
    slots: &[Slot],
    spots: &[usize],
    client: ClientId,
    next: u64,
) -> Result<Deliveries, Memory>
    ensures { IfOk result (λ queue. queue ≡ waits (logs_of logs.now) (map (raised next) (own_of client slots.now spots.now)) client) }
{
    let mut queue = Vec::new(alloc);
    for at in spots {
        if is_own_at(slots, *at, client) {
            let place = &slots[*at].place;
            put_covered(&mut queue, place, logs.posts_of(place.topic()), next)?;
        }
    }
    Ok(Deliveries::of_vec(queue))
}

/// How many of the client's places at these spots are live.
fn live_at(slots: &[Slot], spots: &[usize], client: ClientId) -> usize
    ensures { result ≡ count_by (λ u. u.live && u.client == client) (own_of client slots.now spots.now) }
{
    let mut count: usize = 0;
    for at in spots {
        if is_own_at(slots, *at, client) && slots[*at].place.is_live() {
            count += 1;
        }
    }
    count
}

/// At which of these spots the subscription has its place, if it is live and the client's.
fn live_spot(slots: &[Slot], spots: &[usize], sub: SubId, client: ClientId) -> Option<usize>
    ensures some { is_some result ≡ list_any (λ u. u.live && (u.id == sub && u.client == client)) (own_of client slots.now spots.now) }
    ensures within { IfSome result (λ i. i < length slots.now) }
    ensures own { IfSome result (λ i. is_own_at client slots.now i ≡ true) }
    ensures live { IfSome result (λ i. ((get_or slots.now i nothing).place.live && (get_or slots.now i nothing).place.id == sub) ≡ true) }
{
    for at in spots {
        if is_own_at(slots, *at, client) && slots[*at].place.is_live_sub(sub) {
            return Some(*at);
        }
    }
    None
}

/// Where the places of each client are once the slots of those that have gone are given up.
fn spots_anew(alloc: Global, slots: &[Slot]) -> Result<IndexMap<u64, Spots>, Memory>
    ensures { IfOk result (λ spots. (k : ℕ) → IsFound k (spots_of spots k) (filter (λ s. s.kept) slots.now)) }
{
    let mut spots = IndexMap::new(alloc);
    let mut at: usize = 0;
    for slot in slots {
        if slot.kept {
            note_spot(alloc, &mut spots, slot.place.client().0, at)?;
            at += 1;
        }
    }
    Ok(spots)
}

/// Where the places of each topic are once the slots of those that have gone are given up.
fn topics_anew(
    alloc: Global,
    start: DefaultHasher,
    slots: &[Slot],
) -> Result<IndexMap<u64, Spots>, Memory>
    ensures { IfOk result (λ spots. AreListed start spots (filter (λ s. s.kept) slots.now)) }
{
    let mut spots = IndexMap::new(alloc);
    let mut at: usize = 0;
    for slot in slots {
        if slot.kept {
            let hash = hash_of(start, slot.place.topic());
            note_spot(alloc, &mut spots, hash, at)?;
            at += 1;
        }
    }
    Ok(spots)
}
