use crate::lines::Lines;
use crate::merge::shared;
use crate::moment::{Moment, later_of};
use crate::room::Room;
use crate::{
    Call, ClientId, Deliveries, MAX_CLIENTS, MAX_IDLE, MAX_SUBS, Reply, SubId, SubIds, Topic,
};
use amf_wire::{Memory, Name};
use std::alloc::Global;
use std::hash::DefaultHasher;
use std::marker::Model;

mod admission;

ghost use Rattle.std.specs.Prelude.{◌≡◌, ℕ, List, [], ◌+◌, ◌<◌, ◌≤◌, ◌^◌, ◌==◌, ◌&&◌, length, true, sum_by, vec_len, vec_capacity};
ghost use Rattle.std.specs.Prelude.{IfOk, OnOk, OnErr, IsOk, None};
ghost use Rattle.std.specs.List.{list_any};
ghost use Rattle.amf_broker.specs.State.{first_board};
ghost use Rattle.amf_broker.specs.Machine.{connected, subscribed, unsubscribed, published, polled, kept_as, at_client, next_batch, same_batch, polled_numbered, disconnected, served, refusal, is_connected, places_of, queue_of, ended_of, last_of, later, expired_at, sighted};
ghost use Rattle.amf_broker.specs.Memory.{is_unsubscribe, nobody};
ghost use Rattle.amf_broker.specs.Limits.{most_idle};
ghost use Rattle.amf_broker.specs.Awake.{are_awake};
ghost use Rattle.amf_broker.specs.Moments.{board_at, clients_left, subs_left};

/// The destinations, the present moment, the connected clients with what waits for each, and the live subscriptions, these
/// two in order of their numbers.
#[derive(Drop)]
pub(crate) struct Switchboard {
    destinations: Vec<Name>,
    moment: u64,
    lines: Lines,
    next_sub: u64,
}

impl Model for Switchboard {
    ghost use Rattle.amf_broker.specs.State.{Board};
    ghost use Rattle.amf_broker.specs.Sound.{IsSound};
    ghost use Rattle.amf_broker.specs.Lines.{board_of};

    ghost Value = { Board };

    ghost view = { λ b. board_of b.destinations.items b.moment b.lines b.next_sub };

    ghost invariant = { λ b. IsSound (board_of b.destinations.items b.moment b.lines b.next_sub) };
}

impl Switchboard {
    /// Topics are looked up by the keys of this hasher.
    pub(crate) fn new(alloc: Global, destinations: Vec<Name>, start: DefaultHasher) -> Switchboard
        ensures { result ≡ first_board destinations.items }
    {
        Switchboard {
            destinations,
            moment: 0,
            lines: Lines::new(alloc, start),
            next_sub: 1,
        }
    }

    /// How many deliveries are queued for all clients.
    pub(crate) fn queued(&self) -> u64
        ensures { result ≡ sum_by (λ c. length c.queue) self.now.clients }
    {
        self.lines.queued()
    }

    /// A moment before which no client expires: this one, unless it has come.
    pub(crate) fn awake_from(&self, until: u64) -> u64
        requires awake { are_awake until self.now.clients ≡ true }
        requires bound { until ≤ self.now.moment + most_idle }
        ensures awake { are_awake result self.now.clients ≡ true }
        ensures bound { result ≤ self.now.moment + most_idle }
    {
        if self.moment < until {
            return until;
        }
        self.lines.awake_until(self.moment.saturating_add(MAX_IDLE))
    }

    /// What the present moment is at a call of this moment, and who expires at it. No client expires before `until`.
    pub(crate) fn moment(&self, alloc: Global, moment: u64, until: u64) -> Result<Moment, Memory>
        requires { are_awake until self.now.clients ≡ true }
        ensures present { IfOk result (λ m. m.present ≡ later self.now.moment moment) }
        ensures expired { IfOk result (λ m. m.expired.items ≡ expired_at moment self.now) }
        ensures nobody { nobody (expired_at moment self.now) ≡ true → IsOk result }
    {
        let present = later_of(self.moment, moment);
        let expired = if self.lines.has_idle(present, until) {
            self.lines.idle_among(alloc, present)?
        } else {
            Vec::new(alloc)
        };
        Ok(Moment { present, expired })
    }

    /// It is this moment, and the clients that expire at it are gone.
    pub(crate) fn advance(&mut self, moment: &Moment)
        ensures { self.new ≡ board_at moment.now self.old }
    {
        self.lines.leave(&moment.expired);
        self.moment = moment.present;
    }

    /// The client was seen at the present moment. After that messages that nobody waits for go.
    pub(crate) fn see(&mut self, client: Option<ClientId>)
        ensures { self.new ≡ sighted client self.old }
    {
        let Some(client) = client else {
            return;
        };
        self.lines.see(client, self.moment);
        self.lines.settle();
    }

    fn connect(&mut self, alloc: Global, moment: &Moment) -> Result<Reply, Memory>
        requires few { length (board_at moment.now self.old).clients < MAX_CLIENTS }
        requires room { self.old.next_client < 2 ^ 63 }
        ensures reply { IfOk result (λ reply. reply ≡ (connected (board_at moment.now self.old)).0) }
        ensures state { OnOk result (self.new ≡ (connected (board_at moment.now self.old)).1) }
        ensures err { OnErr result (self.new ≡ self.old) }
    {
        let id = self.lines.connect(alloc, &moment.expired, moment.present)?;
        self.moment = moment.present;
        Ok(Reply::Client(id))
    }

    fn subscribe(
        &mut self,
        alloc: Global,
        moment: &Moment,
        client: ClientId,
        topic: Topic,
    ) -> Result<Reply, Memory>
        requires connected { is_connected client (board_at moment.now self.old).clients ≡ true }
        requires few { places_of client (board_at moment.now self.old) < MAX_SUBS }
        requires room { self.old.next_sub < 2 ^ 63 }
        ensures reply { IfOk result (λ reply. reply ≡ (subscribed (board_at moment.now self.old) client topic).0) }
        ensures state { OnOk result (self.new ≡ (subscribed (board_at moment.now self.old) client topic).1) }
        ensures err { OnErr result (self.new ≡ self.old) }
    {
        let id = SubId(self.next_sub);
        self.lines
            .subscribe(alloc, &moment.expired, id, client, topic)?;
        self.moment = moment.present;
        self.next_sub += 1;
        Ok(Reply::Subscribed(id))
    }

    fn unsubscribe(&mut self, client: ClientId, sub: SubId) -> Reply
        requires { list_any (λ u. u.id == sub && u.client == client) self.old.subs ≡ true }
        ensures reply { result ≡ (unsubscribed self.old sub).0 }
        ensures state { self.new ≡ (unsubscribed self.old sub).1 }
    {
        self.lines.unsubscribe(client, sub);
        Reply::Unsubscribed(sub)
    }

    /// The message is put up and the room is taken first, so that a publish that fails has changed nothing.
    fn publish(
        &mut self,
        alloc: Global,
        moment: &Moment,
        topic: Topic,
        message: Name,
    ) -> Result<Reply, Memory>
        requires { self.old.next_message < 2 ^ 63 }
        ensures reply { IfOk result (λ reply. reply ≡ (published (board_at moment.now self.old) topic message).0) }
        ensures state { OnOk result (self.new ≡ (published (board_at moment.now self.old) topic message).1) }
        ensures err { OnErr result (self.new ≡ self.old) }
    {
        let number = self.lines.next_message();
        let ended = self.lines.publish(alloc, &moment.expired, &topic, message)?;
        self.moment = moment.present;
        Ok(Reply::Published {
            number,
            ended: SubIds::of_vec(ended),
        })
    }

    fn poll(&mut self, alloc: Global, moment: &Moment, client: ClientId) -> Result<Reply, Memory>
        requires { is_connected client (board_at moment.now self.old).clients ≡ true }
        ensures reply { IfOk result (λ reply. reply ≡ (polled (board_at moment.now self.old) client).0) }
        ensures state { OnOk result (self.new ≡ (polled (board_at moment.now self.old) client).1) }
        ensures err { OnErr result (self.new ≡ self.old) }
    {
        let deliveries = self.lines.queue_of(alloc, client)?;
        let room = Room::new(alloc)?;
        self.advance(moment);
        let ended = self.empty(client, room);
        Ok(Reply::Batch { deliveries, ended })
    }

    /// Nothing waits for the client any more. Answers what ended.
    fn empty(&mut self, client: ClientId, room: Room) -> SubIds
        requires { is_connected client self.old.clients ≡ true }
        ensures ended { result ≡ ended_of client self.old.clients }
        ensures state { self.new ≡ (polled self.old client).1 }
    {
        self.lines.empty(client, room)
    }

    fn poll_numbered(
        &mut self,
        alloc: Global,
        moment: &Moment,
        client: ClientId,
        number: u64,
    ) -> Result<Reply, Memory>
        requires { is_connected client (board_at moment.now self.old).clients ≡ true }
        ensures reply { IfOk result (λ reply. reply ≡ (polled_numbered (board_at moment.now self.old) client number).0) }
        ensures state { OnOk result (self.new ≡ (polled_numbered (board_at moment.now self.old) client number).1) }
        ensures err { OnErr result (self.new ≡ self.old) }
    {
        if number == self.last_of(moment, client) {
            self.repeat(alloc, moment, client, number)
        } else {
            self.next(alloc, moment, client, number)
        }
    }

    /// Hands out the kept batch once more.
    fn repeat(
        &mut self,
        alloc: Global,
        moment: &Moment,
        client: ClientId,
        number: u64,
    ) -> Result<Reply, Memory>
        requires { is_connected client (board_at moment.now self.old).clients ≡ true }
        ensures reply { IfOk result (λ reply. reply ≡ (same_batch (board_at moment.now self.old) client number).0) }
        ensures state { OnOk result (self.new ≡ (same_batch (board_at moment.now self.old) client number).1) }
        ensures err { OnErr result (self.new ≡ self.old) }
    {
        let deliveries = self.lines.kept_of(alloc, client)?;
        let ended = self.lines.kept_ended_of(alloc, client)?;
        self.advance(moment);
        Ok(Reply::Again {
            number,
            deliveries,
            ended,
        })
    }

    /// Hands out all that waits for the client, and keeps it under the number.
    fn next(
        &mut self,
        alloc: Global,
        moment: &Moment,
        client: ClientId,
        number: u64,
    ) -> Result<Reply, Memory>
        requires { is_connected client (board_at moment.now self.old).clients ≡ true }
        ensures reply { IfOk result (λ reply. reply ≡ (next_batch (board_at moment.now self.old) client number).0) }
        ensures state { OnOk result (self.new ≡ (next_batch (board_at moment.now self.old) client number).1) }
        ensures err { OnErr result (self.new ≡ self.old) }
    {
        let room = Room::new(alloc)?;
        let (queue, reply) = self.next_reply(alloc, client, number)?;
        self.advance(moment);
        self.keep(client, number, queue, room);
        Ok(reply)
    }

    /// What is to be kept under the number, and the reply that hands it out.
    fn next_reply(
        &self,
        alloc: Global,
        client: ClientId,
        number: u64,
    ) -> Result<(Deliveries, Reply), Memory>
        requires { is_connected client self.now.clients ≡ true }
        ensures queue { IfOk result (λ next. next.0 ≡ queue_of client self.now.clients) }
        ensures reply { IfOk result (λ next. next.1 ≡ (next_batch self.now client number).0) }
    {
        let ended = self.lines.ended_of(alloc, client)?;
        let queue = self.lines.queue_of(alloc, client)?;
        let deliveries = shared(alloc, queue.as_slice())?;
        let reply = Reply::Numbered {
            number,
            deliveries,
            ended,
        };
        Ok((queue, reply))
    }

    /// Nothing waits for the client any more: what waited is kept under this number.
    fn keep(&mut self, client: ClientId, number: u64, queue: Deliveries, room: Room)
        requires connected { is_connected client self.old.clients ≡ true }
        requires queue { queue ≡ queue_of client self.old.clients }
        ensures { self.new ≡ (next_batch self.old client number).1 }
    {
        self.lines.keep(client, number, queue, room);
    }

    fn disconnect(&mut self, client: ClientId) -> Reply
        ensures reply { result ≡ (disconnected self.old client).0 }
        ensures state { self.new ≡ (disconnected self.old client).1 }
    {
        self.lines.leave(&[client]);
        Reply::Bye
    }

    /// Answers a call of this moment that is not refused.
    pub(crate) fn serve(
        &mut self,
        alloc: Global,
        moment: &Moment,
        call: Call,
    ) -> Result<Reply, Memory>
        requires allowed { refusal (board_at moment.now self.old) call ≡ None }
        requires room { (self.old.next_client < 2 ^ 63) × (self.old.next_sub < 2 ^ 63) × (self.old.next_message < 2 ^ 63) }
        ensures reply { IfOk result (λ reply. reply ≡ (served (board_at moment.now self.old) call).0) }
        ensures state { OnOk result (self.new ≡ (served (board_at moment.now self.old) call).1) }
        ensures err { OnErr result (self.new ≡ self.old) }
        ensures unsubscribe { is_unsubscribe call ≡ true → IsOk result }
    {
        match call {
            Call::Connect => self.connect(alloc, moment),
            Call::Subscribe { client, topic } => self.subscribe(alloc, moment, client, topic),
            Call::Unsubscribe { client, sub } => {
                self.advance(moment);
                Ok(self.unsubscribe(client, sub))
            }
            Call::Publish {
                client: _,
                topic,
                message,
            } => self.publish(alloc, moment, topic, message),
            Call::Poll { client } => self.poll(alloc, moment, client),
            Call::PollNumbered { client, number } => {
                self.poll_numbered(alloc, moment, client, number)
            }
            Call::Disconnect { client } => {
                self.advance(moment);
                Ok(self.disconnect(client))
            }
        }
    }
}
