//! The logs of all topics, and where each of them stands.
ghost use Rattle.std.specs.Prelude.{◌≡◌, ◌+◌, ◌<◌, ◌≤◌, ◌==◌, ℕ, [], ◌∷◌, ◌++◌, true, false, length, filter, position};
ghost use Rattle.std.specs.Prelude.{IfOk, IfSome, OnOk, OnErr, Some, nat_eq, vec_capacity};
ghost use Rattle.indexmap.specs.IndexMap.{get};
ghost use Rattle.std.specs.List.{list_all, list_any};
ghost use Rattle.amf_broker.specs.Machine.{is_same_topic};
ghost use Rattle.amf_broker.specs.declared.limits.TheConstants.{MAX_SUBS};
ghost use Rattle.amf_broker.specs.Lines.{posts_of, untold_of, waiters_rise};
ghost use Rattle.amf_broker.specs.Members.{logs_of, members_at, is_present, members_of, waiters_after, ended_after};
ghost use Rattle.amf_broker.specs.Members.{posted_line, enlisted, line_changed, line_parted, is_among, line_without};
ghost use Rattle.amf_broker.specs.Trims.{is_kept};
ghost use Rattle.amf_broker.specs.Slots.{standing};
ghost use Rattle.amf_broker.specs.Index.{is_noted, are_noted, IsTrimmedAt};

use crate::ended::Ended;
use crate::log::{Log, Post, is_kept, place_of_log};
use crate::mailbox::Mailbox;
use crate::member::Member;
use crate::roster::Roster;
use crate::topic::hash_of;
use crate::{ClientId, Payload, SubId, Topic};
use amf_wire::{Memory, Name};
use indexmap::IndexMap;
use std::alloc::Global;
use std::hash::DefaultHasher;
use std::marker::Model;

/// Notes the place under the hash. What was noted stays so, after an error too.
fn note(places: &mut IndexMap<u64, usize>, hash: u64, place: usize) -> Result<(), Memory>
    ensures ok { OnOk result (is_noted places.new hash ≡ true) }
    ensures stays { (h : ℕ) → is_noted places.old h ≡ true → is_noted places.new h ≡ true }
{
    places.insert(hash, place)?;
    Ok(())
}

/// The place that is noted under the hash.
fn noted_at(places: &IndexMap<u64, usize>, hash: u64) -> Option<usize>
    ensures { result ≡ get nat_eq places.now hash }
{
    places.get(&hash).copied()
}

/// The places of these logs by their hashes.
fn places_of(
    alloc: Global,
    start: DefaultHasher,
    logs: &[Log],
) -> Result<IndexMap<u64, usize>, Memory>
    ensures { IfOk result (λ places. are_noted start places logs.now ≡ true) }
{
    let mut places = IndexMap::new(alloc);
    let mut place: usize = 0;
    for log in logs {
        note(&mut places, hash_of(start, log.topic()), place)?;
        place = place.saturating_add(1);
    }
    Ok(places)
}

/// Where logs have gone, of which there were so many before, the places of the others are noted anew, if there is room for
/// that.
fn note_anew(
    alloc: Global,
    start: DefaultHasher,
    logs: &[Log],
    before: usize,
    places: &mut IndexMap<u64, usize>,
)
    requires { are_noted start places.old logs.now ≡ true }
    ensures { are_noted start places.new logs.now ≡ true }
{
    if logs.len() == before {
        return;
    }
    if let Ok(noted) = places_of(alloc, start, logs) {
        *places = noted;
    }
}

/// The logs of a board, each of another topic. Under the hash of each topic a place is noted, which is where its log stands, or
/// stood before others went.
#[derive(Drop)]
pub(crate) struct Logs {
    alloc: Global,
    start: DefaultHasher,
    list: Vec<Log>,
    places: IndexMap<u64, usize>,
    last: usize,
}

impl Model for Logs {
    ghost use Rattle.std.specs.Prelude.{◌≡◌, true, List};
    ghost use Rattle.amf_broker.specs.Members.{Line, are_apart};
    ghost use Rattle.amf_broker.specs.Index.{are_noted};

    ghost Value = { List Line };

    ghost view = { λ l. l.list.items };

    ghost invariant = { λ l. (are_apart l.list.items ≡ true) × (are_noted l.start l.places l.list.items ≡ true) };
}

impl Logs {
    /// No logs yet. They are looked up by the keys of this hasher.
    pub(crate) fn new(alloc: Global, start: DefaultHasher) -> Logs
        ensures { result ≡ [] }
    {
        Logs {
            alloc,
            start,
            list: Vec::new(alloc),
            places: IndexMap::new(alloc),
            last: 0,
        }
    }

    pub(crate) fn len(&self) -> usize
        ensures { result ≡ length self.now }
    {
        self.list.len()
    }

    /// Where the log stands to which a message came last, if none has gone since.
    pub(crate) fn last(&self) -> usize {
        self.last
    }

    /// Whether the log of the topic stands at this place.
    fn is_at(&self, place: usize, topic: &Topic) -> bool
        ensures place { result ≡ true → Some place ≡ position (λ l. is_same_topic topic.now l.topic) self.now }
        ensures bound { result ≡ true → place < length self.now }
    {
        if place >= self.list.len() {
            return false;
        }
        self.list[place].is_of(topic)
    }

    /// Where the log of the topic stands, if there is one.
    fn place_of(&self, topic: &Topic) -> Option<usize>
        ensures place { result ≡ position (λ l. is_same_topic topic.now l.topic) self.now }
        ensures bound { IfSome result (λ i. i < length self.now) }
    {
        let Some(place) = noted_at(&self.places, hash_of(self.start, topic)) else {
            return None;
        };
        if self.is_at(place, topic) {
            return Some(place);
        }
        // Another topic has the same hash, or logs have gone.
        place_of_log(&self.list, topic)
    }

    /// The messages of the topic that are kept.
    pub(crate) fn posts_of(&self, topic: &Topic) -> &[Post]
        ensures { result.now ≡ posts_of topic.now (logs_of self.now) }
    {
        match self.place_of(topic) {
            Some(place) => self.list[place].posts(),
            None => &[],
        }
    }

    /// The live subscriptions that listen to the topic.
    pub(crate) fn members_of(&self, topic: &Topic) -> &[Member]
        ensures { result.now ≡ members_at topic.now self.now }
    {
        match self.place_of(topic) {
            Some(place) => self.list[place].members(),
            None => &[],
        }
    }

    /// The message comes to the back of the log of its topic, if someone listens to that.
    fn put_up(&mut self, topic: &Topic, post: Post) -> Result<(), Memory>
        ensures ok { OnOk result (self.new ≡ posted_line topic.now post self.old) }
        ensures err { OnErr result (self.new ≡ self.old) }
    {
        if let Some(place) = self.place_of(topic) {
            self.last = place;
            return self.list[place].push(post);
        }
        Ok(())
    }

    /// The message of this number comes to the back of the log of its topic, if someone listens to that.
    pub(crate) fn put_up_message(
        &mut self,
        alloc: Global,
        topic: &Topic,
        number: u64,
        message: Name,
    ) -> Result<(), Memory>
        ensures ok { OnOk result (self.new ≡ posted_line topic.now (record { number = number; bytes = message }) self.old) }
        ensures err { OnErr result (self.new ≡ self.old) }
    {
        let message = Payload::new(alloc, message)?;
        let post = Post::new(number, message);
        self.put_up(topic, post)
    }

    /// The subscription listens to the log of the topic from now on.
    pub(crate) fn enlist(
        &mut self,
        alloc: Global,
        topic: &Topic,
        member: Member,
    ) -> Result<(), Memory>
        ensures ok { OnOk result (self.new ≡ enlisted topic.now member self.old) }
        ensures err { OnErr result (self.new ≡ self.old) }
    {
        if let Some(place) = self.place_of(topic) {
            return self.list[place].join(member);
        }
        let log = Log::new(alloc, topic, member)?;
        self.add(log)
    }

    /// A log of another topic stands behind the others.
    fn add(&mut self, log: Log) -> Result<(), Memory>
        requires { list_any (λ l. is_same_topic log.topic l.topic) self.old ≡ false }
        ensures ok { OnOk result (self.new ≡ self.old ++ (log ∷ [])) }
        ensures err { OnErr result (self.new ≡ self.old) }
    {
        let hash = hash_of(self.start, log.topic());
        note(&mut self.places, hash, self.list.len())?;
        self.list.push(log)?;
        Ok(())
    }

    /// The message comes to all that listen to the topic. Those that end by that go into `ended`, which has room for them.
    pub(crate) fn hand_round(
        &mut self,
        topic: &Topic,
        clients: &mut [Mailbox],
        ended: Vec<SubId>,
    ) -> Vec<SubId>
        requires rise { waiters_rise 0 clients.old ≡ true }
        requires present { list_all (λ m. is_present m.client clients.old) (members_at topic.now self.old) ≡ true }
        requires places { (k : ℕ) → length (members_of k (members_at topic.now self.old)) + untold_of k clients.old ≤ MAX_SUBS }
        requires empty { ended.items ≡ [] }
        requires room { length (members_at topic.now self.old) ≤ vec_capacity ended }
        ensures clients { clients.new ≡ waiters_after (members_at topic.now self.old) clients.old }
        ensures ended { result.items ≡ ended_after (members_at topic.now self.old) clients.old }
        ensures same { self.new ≡ self.old }
    {
        if let Some(place) = self.place_of(topic) {
            return self.list[place].hand_round(clients, ended);
        }
        ended
    }

    /// The client's subscriptions to the topic listen no more.
    pub(crate) fn part(&mut self, topic: &Topic, client: ClientId)
        ensures { self.new ≡ line_changed topic.now (line_parted client) self.old }
    {
        if let Some(place) = self.place_of(topic) {
            self.list[place].part(client);
        }
    }

    /// The subscription has ended, which listened to the topic.
    pub(crate) fn drop_sub(&mut self, topic: &Topic, sub: SubId)
        ensures { self.new ≡ line_changed topic.now (line_without (λ id. id == sub)) self.old }
    {
        if let Some(place) = self.place_of(topic) {
            self.list[place].drop_sub(sub);
        }
    }

    /// These subscriptions have ended, which listened to the topic.
    pub(crate) fn drop_subs(&mut self, topic: &Topic, ended: &Ended)
        ensures { self.new ≡ line_changed topic.now (line_without (is_among ended.now.subs.items)) self.old }
    {
        if let Some(place) = self.place_of(topic) {
            self.list[place].drop_subs(ended);
        }
    }

    /// The log at this place, if there is one, is at its limit, however short it is.
    pub(crate) fn call_up(&mut self, place: usize)
        ensures { self.new ≡ self.old }
    {
        if place >= self.list.len() {
            return;
        }
        self.list[place].call_up();
    }

    /// Messages of the log at this place that nobody waits for go, if it has come to its limit.
    pub(crate) fn trim(&mut self, at: usize, places: &mut Roster, next: u64)
        requires { at < length self.old }
        ensures logs { IsTrimmedAt (standing places.old) at self.old self.new }
        ensures places { places.new ≡ places.old }
    {
        self.list[at].trim(places, next);
    }

    /// Logs to which nobody listens, and in which nobody has a place, go. The places of the others are noted anew, if there is
    /// room for that: else they are looked for.
    pub(crate) fn sweep(&mut self, places: &Roster)
        ensures { self.new ≡ filter (is_kept (standing places.now)) self.old }
    {
        let before = self.list.len();
        self.list.retain(|log| is_kept(log, places));
        note_anew(self.alloc, self.start, &self.list, before, &mut self.places);
    }
}
