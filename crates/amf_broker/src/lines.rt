ghost use Rattle.std.specs.Prelude.{◌≡◌, [], ◌∷◌, ◌+◌, ◌<◌, ◌≤◌, ◌^◌, ◌==◌, ◌&&◌, not, true, length, map, filter, count_by, sum_by};
ghost use Rattle.std.specs.Prelude.{vec_len, vec_capacity, IfOk, OnOk, OnErr};
ghost use Rattle.std.specs.List.{list_any};
ghost use Rattle.amf_broker.specs.declared.limits.TheConstants.{MAX_CLIENTS};
ghost use Rattle.amf_broker.specs.declared.topic.Topic.{Topic};
ghost use Rattle.amf_broker.specs.Machine.{at_client, emptied, kept_as, seen_at, is_idle, is_connected, queue_of, ended_of, last_of, kept_of, kept_ended_of};
ghost use Rattle.amf_broker.specs.Sound.{are_in_order, rises_by};
ghost use Rattle.amf_broker.specs.Moments.{stays, clients_left, subs_left};
ghost use Rattle.amf_broker.specs.Awake.{are_awake};
ghost use Rattle.amf_broker.specs.Lines.{with_client, with_sub, with_message, AreFew, reached_of, waiters_rise, waiters_left, spans_left};
ghost use Rattle.amf_broker.specs.Members.{logs_of, members_in, members_at, are_apart, lines_left, line_without, is_among, AreAlone, are_of, spans_after};
ghost use Rattle.amf_broker.specs.Slots.{standing};

use crate::ended::Ended;
use crate::log::copy_of;
use crate::logs::Logs;
use crate::mailbox::{Mailbox, awake_until, has_idle, idle_among, place_in_order, queued, staying};
use crate::member::Member;
use crate::merge::shared;
use crate::moment::is_in;
use crate::place::Place;
use crate::room::Room;
use crate::roster::{Roster, end_members, part_clients};
use crate::{ClientId, Deliveries, MAX_CLIENTS, SubId, SubIds, Topic};
use amf_wire::{Memory, Name};
use std::alloc::Global;
use std::hash::DefaultHasher;
use std::marker::Model;

/// The clients and subscriptions of a board. Each message is kept once, in the log of its topic, and each subscription has
/// its place there. `turn` says which log was looked through last, and the counts after how many calls more the next one is,
/// logs that nobody needs are looked for, and empty slots are given up.
#[derive(Drop)]
pub(crate) struct Lines {
    clients: Vec<Mailbox>,
    places: Roster,
    logs: Logs,
    next_client: u64,
    next_message: u64,
    turn: usize,
    turn_in: usize,
    sweep_in: usize,
    tidy_in: usize,
}

impl Model for Lines {
    ghost use Rattle.amf_broker.specs.Lines.{Floor};
    ghost use Rattle.amf_broker.specs.Members.{floor_of, IsLined};
    ghost use Rattle.amf_broker.specs.Slots.{standing};

    ghost Value = { Floor };

    ghost view = { λ l. floor_of l.logs (standing l.places) l.clients.items l.next_client l.next_message };

    ghost invariant = { λ l. IsLined l.logs (standing l.places) l.clients.items l.next_client l.next_message };
}

impl Lines {
    /// Nobody yet. Topics are looked up by the keys of this hasher.
    pub(crate) fn new(alloc: Global, start: DefaultHasher) -> Lines
        ensures { result ≡ record { clients = []; subs = []; next_client = 1; next_message = 1 } }
    {
        Lines {
            clients: Vec::new(alloc),
            places: Roster::new(alloc, start),
            logs: Logs::new(alloc, start),
            next_client: 1,
            next_message: 1,
            turn: 0,
            turn_in: 0,
            sweep_in: 0,
            tidy_in: 0,
        }
    }

    pub(crate) fn next_message(&self) -> u64
        ensures { result ≡ self.now.next_message }
    {
        self.next_message
    }

    /// How many deliveries are queued for all clients.
    pub(crate) fn queued(&self) -> u64
        requires { length self.now.clients ≤ MAX_CLIENTS }
        ensures { result ≡ sum_by (λ c. length c.queue) self.now.clients }
    {
        queued(&self.clients)
    }

    /// Whether a client expires at this moment. None does before `until`.
    pub(crate) fn has_idle(&self, present: u64, until: u64) -> bool
        requires { are_awake until self.now.clients ≡ true }
        ensures { result ≡ list_any (is_idle present) self.now.clients }
    {
        if present < until {
            return false;
        }
        has_idle(&self.clients, present)
    }

    /// A moment before which no client expires, at most this one.
    pub(crate) fn awake_until(&self, most: u64) -> u64
        ensures awake { are_awake result self.now.clients ≡ true }
        ensures bound { result ≤ most }
    {
        awake_until(&self.clients, most)
    }

    /// The clients that expire at this moment.
    pub(crate) fn idle_among(&self, alloc: Global, present: u64) -> Result<Vec<ClientId>, Memory>
        ensures { IfOk result (λ ids. ids.items ≡ map (λ c. c.id) (filter (is_idle present) self.now.clients)) }
    {
        idle_among(alloc, &self.clients, present)
    }

    /// How many clients are none of these.
    pub(crate) fn staying(&self, expired: &[ClientId]) -> usize
        requires { are_in_order expired.now ≡ true }
        ensures { result ≡ count_by (λ c. stays expired.now c.id) self.now.clients }
    {
        staying(&self.clients, expired)
    }

    /// Whether the client is connected.
    pub(crate) fn has_client(&self, client: ClientId) -> bool
        ensures { result ≡ is_connected client self.now.clients }
    {
        place_in_order(&self.clients, client).is_some()
    }

    /// How many subscriptions of the client ended and are not yet told.
    pub(crate) fn untold_of(&self, client: ClientId) -> usize
        ensures { result ≡ length (ended_of client self.now.clients) }
    {
        match place_in_order(&self.clients, client) {
            Some(place) => self.clients[place].untold(),
            None => 0,
        }
    }

    /// The number of the client's last numbered poll, or 0.
    pub(crate) fn last_of(&self, client: ClientId) -> u64
        ensures { result ≡ last_of client self.now.clients }
    {
        match place_in_order(&self.clients, client) {
            Some(place) => self.clients[place].last(),
            None => 0,
        }
    }

    /// How many live subscriptions are the client's.
    pub(crate) fn live_of(&self, client: ClientId) -> usize
        ensures { result ≡ count_by (λ u. u.client == client) self.now.subs }
    {
        self.places.live_of(client)
    }

    /// Whether the subscription is live, and the client's.
    pub(crate) fn is_live(&self, sub: SubId, client: ClientId) -> bool
        ensures { result ≡ list_any (λ u. u.id == sub && u.client == client) self.now.subs }
    {
        self.places.is_live(sub, client)
    }

    /// These clients leave, and their subscriptions end.
    pub(crate) fn leave(&mut self, left: &[ClientId])
        requires { are_in_order left.now ≡ true }
        ensures { self.new ≡ record self.old { clients = clients_left left.now self.old.clients; subs = subs_left left.now self.old.subs } }
    {
        leave(&mut self.clients, &mut self.places, &mut self.logs, left);
    }

    /// These clients leave, and a new one comes.
    pub(crate) fn connect(
        &mut self,
        alloc: Global,
        left: &[ClientId],
        present: u64,
    ) -> Result<ClientId, Memory>
        requires left { are_in_order left.now ≡ true }
        requires room { self.old.next_client < 2 ^ 63 }
        ensures id { IfOk result (λ id. id ≡ self.old.next_client) }
        ensures ok { OnOk result (self.new ≡ with_client left.now present self.old) }
        ensures err { OnErr result (self.new ≡ self.old) }
    {
        let id = ClientId(self.next_client);
        self.clients.reserve(1)?;
        let mailbox = Mailbox::new(alloc, id, present)?;
        leave(&mut self.clients, &mut self.places, &mut self.logs, left);
        self.clients.push(mailbox).unwrap();
        self.next_client += 1;
        Ok(id)
    }

    /// These clients leave, and a subscription of another client begins.
    pub(crate) fn subscribe(
        &mut self,
        alloc: Global,
        left: &[ClientId],
        id: SubId,
        client: ClientId,
        topic: Topic,
    ) -> Result<(), Memory>
        requires left { are_in_order left.now ≡ true }
        requires connected { is_connected client (clients_left left.now self.old.clients) ≡ true }
        ensures ok { OnOk result (self.new ≡ with_sub left.now (record { id = id; client = client; topic = topic }) self.old) }
        ensures err { OnErr result (self.new ≡ self.old) }
    {
        let own = copy_of(alloc, &topic)?;
        let next = self.next_message;
        self.places.push(alloc, Place::new(id, client, own, next))?;
        let member = Member::new(id, client);
        match self.logs.enlist(alloc, &topic, member) {
            Ok(()) => {
                leave(&mut self.clients, &mut self.places, &mut self.logs, left);
                Ok(())
            }
            Err(lack) => {
                self.places.drop_last();
                Err(lack)
            }
        }
    }

    /// The client's subscription ends. What waits for it stays.
    pub(crate) fn unsubscribe(&mut self, client: ClientId, sub: SubId)
        requires own { list_any (λ u. u.id == sub && u.client == client) self.old.subs ≡ true }
        requires ordered { rises_by (λ u. u.id) 0 self.old.subs ≡ true }
        ensures { self.new ≡ record self.old { subs = filter (λ u. not (u.id == sub)) self.old.subs } }
    {
        let spot = self.places.live_spot(sub, client).unwrap();
        self.logs
            .drop_sub(self.places.slots()[spot].place.topic(), sub);
        let next = self.next_message;
        self.places.end_sub(&self.logs, client, sub, next);
    }

    /// These clients leave, and the message comes to each subscription of the topic. Answers those that end by that. The
    /// message is put up before anything changes: nobody's place covers it yet.
    pub(crate) fn publish(
        &mut self,
        alloc: Global,
        left: &[ClientId],
        topic: &Topic,
        message: Name,
    ) -> Result<Vec<SubId>, Memory>
        requires left { are_in_order left.now ≡ true }
        requires number { self.old.next_message < 2 ^ 63 }
        requires places { AreFew left.now self.old }
        requires ordered { rises_by (λ u. u.id) 0 (subs_left left.now self.old.subs) ≡ true }
        ensures ended { IfOk result (λ ended. ended.items ≡ (reached_of self.old left.now topic.now message).ended) }
        ensures ok { OnOk result (self.new ≡ with_message left.now topic.now message self.old) }
        ensures err { OnErr result (self.new ≡ self.old) }
    {
        let number = self.next_message;
        let ended = Vec::with_capacity(alloc, self.logs.members_of(topic).len())?;
        self.logs.put_up_message(alloc, topic, number, message)?;
        leave(&mut self.clients, &mut self.places, &mut self.logs, left);
        let ended = self.logs.hand_round(topic, &mut self.clients, ended);
        self.next_message += 1;
        let ended = Ended { subs: ended };
        end_all(&mut self.places, &mut self.logs, topic, &ended, number);
        Ok(ended.subs)
    }

    /// What waits for the client.
    pub(crate) fn queue_of(&self, alloc: Global, client: ClientId) -> Result<Deliveries, Memory>
        requires { is_connected client self.now.clients ≡ true }
        ensures { IfOk result (λ queue. queue ≡ queue_of client self.now.clients) }
    {
        self.places
            .waiting_for(alloc, &self.logs, client, self.next_message)
    }

    /// The subscriptions of the client that ended and are not yet told.
    pub(crate) fn ended_of(&self, alloc: Global, client: ClientId) -> Result<SubIds, Memory>
        requires { is_connected client self.now.clients ≡ true }
        ensures { IfOk result (λ ended. ended ≡ ended_of client self.now.clients) }
    {
        let place = place_in_order(&self.clients, client).unwrap();
        Ok(SubIds::of_vec(self.clients[place].ended().to_vec(alloc)?))
    }

    /// The batch that is kept of the client's last numbered poll.
    pub(crate) fn kept_of(&self, alloc: Global, client: ClientId) -> Result<Deliveries, Memory>
        requires { is_connected client self.now.clients ≡ true }
        ensures { IfOk result (λ kept. kept ≡ kept_of client self.now.clients) }
    {
        let place = place_in_order(&self.clients, client).unwrap();
        shared(alloc, self.clients[place].kept())
    }

    /// The subscriptions whose end is told in the kept batch.
    pub(crate) fn kept_ended_of(&self, alloc: Global, client: ClientId) -> Result<SubIds, Memory>
        requires { is_connected client self.now.clients ≡ true }
        ensures { IfOk result (λ ended. ended ≡ kept_ended_of client self.now.clients) }
    {
        let place = place_in_order(&self.clients, client).unwrap();
        Ok(SubIds::of_vec(self.clients[place].kept_ended().to_vec(alloc)?))
    }

    /// Nothing waits for the client any more. Answers what ended.
    pub(crate) fn empty(&mut self, client: ClientId, room: Room) -> SubIds
        requires { is_connected client self.old.clients ≡ true }
        ensures ended { result ≡ ended_of client self.old.clients }
        ensures state { self.new ≡ record self.old { clients = at_client client emptied self.old.clients } }
    {
        let place = place_in_order(&self.clients, client).unwrap();
        let ended = self.clients[place].empty(room);
        let next = self.next_message;
        self.places.begin_anew(client, next);
        ended
    }

    /// Nothing waits for the client any more: what waited is kept under this number.
    pub(crate) fn keep(&mut self, client: ClientId, number: u64, queue: Deliveries, room: Room)
        requires connected { is_connected client self.old.clients ≡ true }
        requires queue { queue ≡ queue_of client self.old.clients }
        ensures { self.new ≡ record self.old { clients = at_client client (kept_as number) self.old.clients } }
    {
        let place = place_in_order(&self.clients, client).unwrap();
        self.clients[place].keep(number, queue, room);
        let next = self.next_message;
        self.places.begin_anew(client, next);
    }

    /// The client was seen at this moment.
    pub(crate) fn see(&mut self, client: ClientId, present: u64)
        ensures { self.new ≡ record self.old { clients = at_client client (seen_at present) self.old.clients } }
    {
        if let Some(place) = place_in_order(&self.clients, client) {
            self.clients[place].see(present);
        }
    }

    /// Messages that nobody waits for go from the log whose turn it is and from the one to which a message came last, and logs
    /// that nobody needs go, and so do empty slots. Nothing of that is seen.
    pub(crate) fn settle(&mut self)
        ensures { self.new ≡ self.old }
    {
        self.take_turn();
        let turn = self.turn;
        self.trim(turn);
        let last = self.logs.last();
        self.trim(last);
        self.sweep();
        self.tidy();
    }

    /// The next log is to be looked through, however short it is. That takes a look at all places of its topic, so some calls
    /// pass before the one after it where logs have many places.
    fn take_turn(&mut self)
        ensures { self.new ≡ self.old }
    {
        if self.turn_in > 0 {
            self.turn_in -= 1;
            return;
        }
        self.turn_in = pause_of(self.places.slots().len(), self.logs.len());
        self.turn = turn_after(self.turn, self.logs.len());
        self.logs.call_up(self.turn);
    }

    /// Messages of the log at this place that nobody waits for go, if it is long or was called up.
    fn trim(&mut self, at: usize)
        ensures { self.new ≡ self.old }
    {
        if at >= self.logs.len() {
            return;
        }
        let next = self.next_message;
        self.logs.trim(at, &mut self.places, next);
    }

    /// Logs that nobody needs go. That takes a look at all logs, and for each one to which nobody listens at the places of its
    /// topic, so some calls pass before the next time.
    fn sweep(&mut self)
        ensures { self.new ≡ self.old }
    {
        if self.sweep_in > 0 {
            self.sweep_in -= 1;
            return;
        }
        self.logs.sweep(&self.places);
        self.sweep_in = (self.logs.len() / 16).saturating_add(self.places.slots().len() / 16);
    }

    /// The slots of places that have gone are given up. That takes a look at all, so as many calls pass before the next time.
    fn tidy(&mut self)
        ensures { self.new ≡ self.old }
    {
        if self.tidy_in > 0 {
            self.tidy_in -= 1;
            return;
        }
        self.places.tidy();
        self.tidy_in = self.places.slots().len();
    }
}

/// The place after this one, or the first of so many.
fn turn_after(turn: usize, count: usize) -> usize {
    if turn < count && count - turn > 1 {
        turn + 1
    } else {
        0
    }
}

/// How many calls pass from one log's turn to the next, of so many logs. A round of all looks at each slot once.
fn pause_of(slots: usize, logs: usize) -> usize {
    slots / logs.saturating_mul(16).saturating_add(1)
}

/// These clients leave, and their subscriptions end.
fn leave(clients: &mut Vec<Mailbox>, places: &mut Roster, logs: &mut Logs, left: &[ClientId])
    requires left { are_in_order left.now ≡ true }
    requires listed { (topic : Topic) → members_at topic logs.old ≡ members_in topic (standing places.old) }
    requires apart { are_apart logs.old ≡ true }
    requires rise { waiters_rise 0 clients.old.items ≡ true }
    ensures clients { clients.new.items ≡ waiters_left left.now clients.old.items }
    ensures places { standing places.new ≡ spans_left left.now (standing places.old) }
    ensures logs { logs.new ≡ lines_left left.now logs.old }
    ensures clients_len { vec_len clients.new ≤ vec_len clients.old }
    ensures clients_room { vec_capacity clients.new ≡ vec_capacity clients.old }
{
    if left.is_empty() {
        return;
    }
    part_mailboxes(clients, left);
    part_clients(places, logs, left);
}

/// These clients go from the others. Where one goes, the others are not looked at.
fn part_mailboxes(clients: &mut Vec<Mailbox>, left: &[ClientId])
    requires left { are_in_order left.now ≡ true }
    requires rise { waiters_rise 0 clients.old.items ≡ true }
    ensures clients { clients.new.items ≡ waiters_left left.now clients.old.items }
    ensures clients_len { vec_len clients.new ≤ vec_len clients.old }
    ensures clients_room { vec_capacity clients.new ≡ vec_capacity clients.old }
{
    match left {
        [client] => part_mailbox(clients, *client),
        _ => clients.retain(|mailbox| !is_in(left, mailbox.id())),
    }
}

/// This client goes from the others.
fn part_mailbox(clients: &mut Vec<Mailbox>, client: ClientId)
    requires rise { waiters_rise 0 clients.old.items ≡ true }
    ensures clients { clients.new.items ≡ waiters_left (client ∷ []) clients.old.items }
    ensures clients_len { vec_len clients.new ≤ vec_len clients.old }
    ensures clients_room { vec_capacity clients.new ≡ vec_capacity clients.old }
{
    if let Some(place) = place_in_order(clients, client) {
        clients.remove(place);
    }
}

/// These subscriptions, if there are any, end before the message of this number, which is the last one. They listen to the topic
/// alone.
fn end_all(places: &mut Roster, logs: &mut Logs, topic: &Topic, ended: &Ended, number: u64)
    requires number { number < 2 ^ 63 }
    requires alone { AreAlone topic.now ended.now.subs.items logs.old }
    requires theirs { are_of (members_at topic.now logs.old) ended.now.subs.items (standing places.old) ≡ true }
    ensures logs { logs.new ≡ map (line_without (is_among ended.now.subs.items)) logs.old }
    ensures places { standing places.new ≡ spans_after (members_at topic.now logs.old) ended.now.subs.items number (logs_of logs.old) (standing places.old) }
{
    if ended.subs.is_empty() {
        return;
    }
    end_members(
        places,
        logs,
        logs.members_of(topic),
        ended,
        number,
        number + 1,
    );
    logs.drop_subs(topic, ended);
}
