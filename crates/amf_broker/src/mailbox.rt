ghost use Rattle.std.specs.Prelude.{◌≡◌, ◌+◌, ◌<◌, ◌≤◌, ◌==◌, ℕ, List, [], length, map, filter, count_by, sum_by, position, nat_le, true, IfOk, IfSome};
ghost use Rattle.std.specs.List.{list_all, list_any};
ghost use Rattle.amf_broker.specs.declared.limits.TheConstants.{MAX_CLIENTS};
ghost use Rattle.amf_broker.specs.Limits.{most_idle};
ghost use Rattle.amf_broker.specs.Machine.{is_idle};
ghost use Rattle.amf_broker.specs.Awake.{is_awake};
ghost use Rattle.amf_broker.specs.Sound.{are_in_order};
ghost use Rattle.amf_broker.specs.Moments.{stays};
ghost use Rattle.amf_broker.specs.Lines.{bare, new_waiter, counted, noted, emptied_waiter, kept_waiter, seen_waiter, waiters_rise};

use crate::moment::is_in;
use crate::room::Room;
use crate::{
    ClientId, Deliveries, Delivery, MAX_CLIENTS, MAX_IDLE, MAX_QUEUED, MAX_SUBS, SubId, SubIds,
};
use amf_wire::Memory;
use std::alloc::Global;
use std::marker::Model;
use std::mem;

/// A connected client, with the number of deliveries that wait for it. Room for its subscriptions that end is taken at the
/// start, so that an end can always be noted.
pub(crate) struct Mailbox {
    id: ClientId,
    waiting: u32,
    ended: Vec<SubId>,
    seen: u64,
    last: u64,
    kept: Deliveries,
    kept_ended: Vec<SubId>,
}

impl Drop for Mailbox {
    /// Lets its parts go. Written out, it is proved once; what is derived is proved at each place where one is let go.
    fn drop(self) {
        let Mailbox {
            id: _,
            waiting: _,
            ended: _,
            seen: _,
            last: _,
            kept: _,
            kept_ended: _,
        } = self;
    }
}

impl Model for Mailbox {
    ghost use Rattle.std.specs.Prelude.{◌≤◌, vec_len, vec_capacity};
    ghost use Rattle.amf_broker.specs.declared.limits.TheConstants.{MAX_QUEUED, MAX_SUBS};
    ghost use Rattle.amf_broker.specs.Lines.{Waiter, waiter};

    ghost Value = { Waiter };

    ghost view = { λ m. waiter m.id m.waiting m.ended.items m.seen m.last m.kept m.kept_ended.items };

    ghost invariant = { λ m. (m.waiting ≤ MAX_QUEUED) × (vec_len m.ended ≤ MAX_SUBS) × (MAX_SUBS ≤ vec_capacity m.ended) };
}

impl Mailbox {
    pub(crate) fn new(alloc: Global, id: ClientId, present: u64) -> Result<Mailbox, Memory>
        ensures { IfOk result (λ m. m ≡ new_waiter id present) }
    {
        let Room { ended } = Room::new(alloc)?;
        Ok(Mailbox {
            id,
            waiting: 0,
            ended,
            seen: present,
            last: 0,
            kept: Deliveries::of_vec(Vec::new(alloc)),
            kept_ended: Vec::new(alloc),
        })
    }

    pub(crate) fn id(&self) -> ClientId
        ensures { result ≡ self.now.id }
    {
        self.id
    }

    /// How many deliveries wait.
    pub(crate) fn waiting(&self) -> u32
        ensures number { result ≡ self.now.waiting }
        ensures bound { result ≤ MAX_QUEUED }
    {
        self.waiting
    }

    /// How many subscriptions ended and are not yet told.
    pub(crate) fn untold(&self) -> usize
        ensures { result ≡ length self.now.ended }
    {
        self.ended.len()
    }

    pub(crate) fn is_full(&self) -> bool
        ensures { result ≡ nat_le MAX_QUEUED self.now.waiting }
    {
        self.waiting >= MAX_QUEUED
    }

    /// One delivery more waits.
    pub(crate) fn count(&mut self)
        requires { self.old.waiting < MAX_QUEUED }
        ensures { self.new ≡ counted self.old }
    {
        self.waiting += 1;
    }

    pub(crate) fn end(&mut self, sub: SubId)
        requires { length self.old.ended < MAX_SUBS }
        ensures { self.new ≡ noted sub self.old }
    {
        self.ended.push(sub).unwrap();
    }

    /// Whether no call has named the client for so long that it expires.
    pub(crate) fn is_idle(&self, present: u64) -> bool
        ensures { result ≡ is_idle present (bare self.now) }
    {
        present.saturating_sub(self.seen) >= MAX_IDLE
    }

    /// A moment before which it does not expire, at most this one.
    pub(crate) fn awake_until(&self, most: u64) -> u64
        ensures awake { nat_le result (self.now.seen + most_idle) ≡ true }
        ensures bound { result ≤ most }
    {
        let until = self.seen.saturating_add(MAX_IDLE);
        if until < most { until } else { most }
    }

    pub(crate) fn see(&mut self, present: u64)
        ensures { self.new ≡ seen_waiter present self.old }
    {
        self.seen = present;
    }

    /// The number of the last numbered poll, or 0.
    pub(crate) fn last(&self) -> u64
        ensures { result ≡ self.now.last }
    {
        self.last
    }

    pub(crate) fn ended(&self) -> &[SubId]
        ensures { result.now ≡ self.now.ended }
    {
        self.ended.as_slice()
    }

    pub(crate) fn kept(&self) -> &[Delivery]
        ensures { result.now ≡ self.now.kept }
    {
        self.kept.as_slice()
    }

    pub(crate) fn kept_ended(&self) -> &[SubId]
        ensures { result.now ≡ self.now.kept_ended }
    {
        self.kept_ended.as_slice()
    }

    /// Nothing waits any more. The room is for what ends next.
    pub(crate) fn empty(&mut self, room: Room) -> SubIds
        ensures ended { result ≡ self.old.ended }
        ensures state { self.new ≡ emptied_waiter self.old }
    {
        let Room { ended } = room;
        let told = mem::replace(&mut self.ended, ended);
        self.waiting = 0;
        SubIds::of_vec(told)
    }

    /// Nothing waits any more: what waited is kept under this number. The room is for what ends next.
    pub(crate) fn keep(&mut self, number: u64, queue: Deliveries, room: Room)
        ensures { self.new ≡ kept_waiter number queue self.old }
    {
        let Room { ended } = room;
        self.kept_ended = mem::replace(&mut self.ended, ended);
        self.kept = queue;
        self.waiting = 0;
        self.last = number;
    }
}

/// Where the client stands, if it is connected.
pub(crate) fn place_of(clients: &[Mailbox], client: ClientId) -> Option<usize>
    ensures place { result ≡ position (λ w. w.id == client) clients.now }
    ensures bound { IfSome result (λ i. i < length clients.now) }
{
    clients.iter().position(|mailbox| mailbox.id() == client)
}

/// Where the client stands, if it is connected, among clients in order of their numbers.
pub(crate) fn place_in_order(clients: &[Mailbox], client: ClientId) -> Option<usize>
    requires { waiters_rise 0 clients.now ≡ true }
    ensures place { result ≡ position (λ w. w.id == client) clients.now }
    ensures bound { IfSome result (λ i. i < length clients.now) }
{
    match clients.binary_search_by_key(&client.0, |mailbox| mailbox.id().0) {
        Ok(place) => Some(place),
        Err(_) => None,
    }
}

/// How many deliveries wait for these clients.
pub(crate) fn queued(clients: &[Mailbox]) -> u64
    requires { length clients.now ≤ MAX_CLIENTS }
    ensures { result ≡ sum_by (λ w. w.waiting) clients.now }
{
    let mut queued = 0;
    for mailbox in clients {
        queued += u64::from(mailbox.waiting());
    }
    queued
}

/// Whether a client expires at this moment.
pub(crate) fn has_idle(clients: &[Mailbox], present: u64) -> bool
    ensures { result ≡ list_any (λ w. is_idle present (bare w)) clients.now }
{
    clients.iter().any(|mailbox| mailbox.is_idle(present))
}

/// A moment before which none of these clients expires, at most this one.
pub(crate) fn awake_until(clients: &[Mailbox], most: u64) -> u64
    ensures awake { list_all (λ w. is_awake result (bare w)) clients.now ≡ true }
    ensures bound { result ≤ most }
{
    let mut until = most;
    for mailbox in clients {
        until = mailbox.awake_until(until);
    }
    until
}

/// The clients that expire at this moment.
pub(crate) fn idle_among(
    alloc: Global,
    clients: &[Mailbox],
    present: u64,
) -> Result<Vec<ClientId>, Memory>
    ensures { IfOk result (λ ids. ids.items ≡ map (λ w. w.id) (filter (λ w. is_idle present (bare w)) clients.now)) }
{
    let mut ids = Vec::new(alloc);
    for mailbox in clients {
        if mailbox.is_idle(present) {
            ids.push(mailbox.id())?;
        }
    }
    Ok(ids)
}

/// How many clients are none of these, which stand in order of their numbers.
pub(crate) fn staying(clients: &[Mailbox], left: &[ClientId]) -> usize
    requires { are_in_order left.now ≡ true }
    ensures { result ≡ count_by (λ w. stays left.now w.id) clients.now }
{
    clients
        .iter()
        .filter(|mailbox| !is_in(left, mailbox.id()))
        .count()
}
