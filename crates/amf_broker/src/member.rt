ghost use Rattle.std.specs.Prelude.{◌≡◌, ◌==◌, ◌+◌, ◌<◌, ◌≤◌, ℕ, [], Some, length, position, true, vec_capacity};
ghost use Rattle.std.specs.List.{list_all};
ghost use Rattle.amf_broker.specs.declared.limits.TheConstants.{MAX_SUBS};
ghost use Rattle.amf_broker.specs.Lines.{untold_of, waiters_rise};
ghost use Rattle.amf_broker.specs.Members.{is_present, waiters_by, ended_by_member, waiters_after, ended_after, members_of};

use crate::mailbox::{Mailbox, place_in_order};
use crate::{ClientId, MAX_SUBS, SubId};
use std::marker::Model;

/// A live subscription, in the list of its topic. It knows the seat at which its client was seen last among the clients, so that
/// a publish need not look for it: it may have another since others have left.
#[derive(Drop)]
pub(crate) struct Member {
    sub: SubId,
    client: ClientId,
    seat: usize,
}

impl Model for Member {
    ghost use Rattle.amf_broker.specs.Members.{Listener};

    ghost Value = { Listener };

    ghost view = { λ m. record { sub = m.sub; client = m.client } };
}

impl Member {
    pub(crate) fn new(sub: SubId, client: ClientId) -> Member
        ensures { result ≡ record { sub = sub; client = client } }
    {
        Member {
            sub,
            client,
            seat: 0,
        }
    }

    pub(crate) fn sub(&self) -> SubId
        ensures { result ≡ self.now.sub }
    {
        self.sub
    }

    pub(crate) fn client(&self) -> ClientId
        ensures { result ≡ self.now.client }
    {
        self.client
    }

    /// A message comes to it. Where its client's queue is full it ends instead, and is answered.
    fn hand_over(&mut self, clients: &mut [Mailbox]) -> Option<SubId>
        requires rise { waiters_rise 0 clients.old ≡ true }
        requires present { is_present self.old.client clients.old ≡ true }
        requires room { untold_of self.old.client clients.old < MAX_SUBS }
        ensures ended { result ≡ ended_by_member self.old clients.old }
        ensures clients { clients.new ≡ waiters_by self.old clients.old }
        ensures same { self.new ≡ self.old }
    {
        let seat = seat_of(clients, self.client, self.seat);
        self.seat = seat;
        let mailbox = &mut clients[seat];
        if mailbox.is_full() {
            mailbox.end(self.sub);
            return Some(self.sub);
        }
        mailbox.count();
        None
    }
}

/// Where the client stands, which was seen last at this seat.
fn seat_of(clients: &[Mailbox], client: ClientId, seat: usize) -> usize
    requires rise { waiters_rise 0 clients.now ≡ true }
    requires present { is_present client clients.now ≡ true }
    ensures place { Some result ≡ position (λ w. w.id == client) clients.now }
    ensures bound { result < length clients.now }
{
    if seat < clients.len() && clients[seat].id() == client {
        return seat;
    }
    place_in_order(clients, client).unwrap()
}

/// A message comes to these, one after another. Those that end by that go into `ended`, which has room for them.
pub(crate) fn hand_round(
    members: &mut [Member],
    clients: &mut [Mailbox],
    mut ended: Vec<SubId>,
) -> Vec<SubId>
    requires rise { waiters_rise 0 clients.old ≡ true }
    requires present { list_all (λ m. is_present m.client clients.old) members.old ≡ true }
    requires places { (k : ℕ) → length (members_of k members.old) + untold_of k clients.old ≤ MAX_SUBS }
    requires empty { ended.items ≡ [] }
    requires room { length members.old ≤ vec_capacity ended }
    ensures clients { clients.new ≡ waiters_after members.old clients.old }
    ensures ended { result.items ≡ ended_after members.old clients.old }
    ensures same { members.new ≡ members.old }
{
    for member in members.iter_mut() {
        if let Some(sub) = member.hand_over(clients) {
            ended.push(sub).unwrap();
        }
    }
    ended
}
