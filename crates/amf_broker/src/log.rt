ghost use Rattle.std.specs.Prelude.{◌≡◌, ◌+◌, ◌∷◌, ◌<◌, ◌≤◌, [], ℕ, IfOk, IfSome, OnOk, OnErr};
ghost use Rattle.std.specs.Prelude.{position, ◌==◌, ◌&&◌, length, true, vec_capacity};
ghost use Rattle.std.specs.List.{list_all, list_any};
ghost use Rattle.amf_broker.specs.Machine.{is_same_topic};
ghost use Rattle.amf_broker.specs.declared.limits.TheConstants.{MAX_SUBS};
ghost use Rattle.amf_broker.specs.Lines.{untold_of, waiters_rise};
ghost use Rattle.amf_broker.specs.Members.{is_present, members_of, waiters_after, ended_after, with_post, with_member, line_parted, is_among, line_without};
ghost use Rattle.amf_broker.specs.Trims.{IsTrimmed, is_wanted, is_kept};
ghost use Rattle.amf_broker.specs.Slots.{standing, stands_at};

use crate::ended::Ended;
use crate::mailbox::Mailbox;
use crate::member::{Member, hand_round};
use crate::roster::Roster;
use crate::slot::Slot;
use crate::trim::{debtors, first_of, keep_needed};
use crate::{ClientId, Payload, SubId, Topic};
use amf_wire::{Memory, Name};
use std::alloc::Global;
use std::marker::Model;

/// A published message.
pub(crate) struct Post {
    number: u64,
    message: Payload,
}

impl Drop for Post {
    /// Lets its parts go. Written out, it is proved once; what is derived is proved at each place where one is let go.
    fn drop(self) {
        let Post {
            number: _,
            message: _,
        } = self;
    }
}

impl Model for Post {
    ghost use Rattle.amf_broker.specs.Delivery.{Message};

    ghost Value = { Message };

    ghost view = { λ p. record { number = p.number; bytes = p.message } };
}

impl Post {
    pub(crate) fn new(number: u64, message: Payload) -> Post
        ensures { result ≡ record { number = number; bytes = message } }
    {
        Post { number, message }
    }

    pub(crate) fn number(&self) -> u64
        ensures { result ≡ self.now.number }
    {
        self.number
    }

    pub(crate) fn message(&self) -> &Payload
        ensures { result.now ≡ self.now.bytes }
    {
        &self.message
    }
}

/// The length below which no log is looked through for messages that nobody waits for.
const SHORT: usize = 8;

/// The messages of a topic, each once, in order of their numbers, and the live subscriptions that listen to it, in order of
/// theirs. Messages that nobody waits for go once the log has come to its limit.
pub(crate) struct Log {
    topic: Topic,
    posts: Vec<Post>,
    members: Vec<Member>,
    limit: usize,
}

impl Drop for Log {
    /// Lets its parts go. Written out, it is proved once; what is derived is proved at each place where one is let go.
    fn drop(self) {
        let Log {
            topic: _,
            posts: _,
            members: _,
            limit: _,
        } = self;
    }
}

impl Model for Log {
    ghost use Rattle.amf_broker.specs.Members.{Line};

    ghost Value = { Line };

    ghost view = { λ l. record { topic = l.topic; posts = l.posts.items; members = l.members.items } };
}

impl Log {
    /// A log in which nothing is, to which one subscription listens.
    pub(crate) fn new(alloc: Global, topic: &Topic, member: Member) -> Result<Log, Memory>
        ensures { IfOk result (λ log. log ≡ record { topic = topic.now; posts = []; members = member ∷ [] }) }
    {
        let topic = copy_of(alloc, topic)?;
        let mut members = Vec::new(alloc);
        members.push(member)?;
        Ok(Log {
            topic,
            posts: Vec::new(alloc),
            members,
            limit: SHORT,
        })
    }

    pub(crate) fn topic(&self) -> &Topic
        ensures { result.now ≡ self.now.topic }
    {
        &self.topic
    }

    pub(crate) fn is_of(&self, topic: &Topic) -> bool
        ensures { result ≡ is_same_topic topic.now self.now.topic }
    {
        is_same_topic(topic, &self.topic)
    }

    pub(crate) fn posts(&self) -> &[Post]
        ensures { result.now ≡ self.now.posts }
    {
        self.posts.as_slice()
    }

    pub(crate) fn members(&self) -> &[Member]
        ensures { result.now ≡ self.now.members }
    {
        self.members.as_slice()
    }

    /// Whether nobody listens to it.
    pub(crate) fn is_unheard(&self) -> bool
        ensures { result ≡ (length self.now.members == 0) }
    {
        self.members.is_empty()
    }

    /// The message comes to the back, if someone listens.
    pub(crate) fn push(&mut self, post: Post) -> Result<(), Memory>
        ensures ok { OnOk result (self.new ≡ with_post post self.old) }
        ensures err { OnErr result (self.new ≡ self.old) }
        ensures topic { self.new.topic ≡ self.old.topic }
    {
        if self.members.is_empty() {
            return Ok(());
        }
        self.posts.push(post)?;
        Ok(())
    }

    /// The subscription listens from now on.
    pub(crate) fn join(&mut self, member: Member) -> Result<(), Memory>
        ensures ok { OnOk result (self.new ≡ with_member member self.old) }
        ensures err { OnErr result (self.new ≡ self.old) }
        ensures topic { self.new.topic ≡ self.old.topic }
    {
        self.members.push(member)?;
        Ok(())
    }

    /// The message comes to all that listen. Those that end by that go into `ended`, which has room for them.
    pub(crate) fn hand_round(&mut self, clients: &mut [Mailbox], ended: Vec<SubId>) -> Vec<SubId>
        requires rise { waiters_rise 0 clients.old ≡ true }
        requires present { list_all (λ m. is_present m.client clients.old) self.old.members ≡ true }
        requires places { (k : ℕ) → length (members_of k self.old.members) + untold_of k clients.old ≤ MAX_SUBS }
        requires empty { ended.items ≡ [] }
        requires room { length self.old.members ≤ vec_capacity ended }
        ensures clients { clients.new ≡ waiters_after self.old.members clients.old }
        ensures ended { result.items ≡ ended_after self.old.members clients.old }
        ensures same { self.new ≡ self.old }
    {
        hand_round(&mut self.members, clients, ended)
    }

    /// The client's subscriptions listen no more.
    pub(crate) fn part(&mut self, client: ClientId)
        ensures { self.new ≡ line_parted client self.old }
    {
        self.members.retain(|member| member.client() != client);
    }

    /// The subscription has ended.
    pub(crate) fn drop_sub(&mut self, sub: SubId)
        ensures { self.new ≡ line_without (λ id. id == sub) self.old }
    {
        self.members.retain(|member| member.sub() != sub);
    }

    /// These subscriptions have ended.
    pub(crate) fn drop_subs(&mut self, ended: &Ended)
        ensures { self.new ≡ line_without (is_among ended.now.subs.items) self.old }
    {
        self.members.retain(|member| !ended.has(member.sub()));
    }

    /// Whether it has no message, or has not come to its limit.
    fn is_short(&self) -> bool {
        self.posts.is_empty() || self.posts.len() < self.limit
    }

    /// It is at its limit, however short it is.
    pub(crate) fn call_up(&mut self)
        ensures { self.new ≡ self.old }
    {
        self.limit = 0;
    }

    /// Messages that nobody waits for go, if it has come to its limit. Of the places of all subscriptions those of its topic are
    /// looked at, and `next` is the number of the next message. The new limit is so far off that a message takes little of that
    /// time.
    pub(crate) fn trim(&mut self, places: &mut Roster, next: u64)
        ensures log { IsTrimmed (standing places.old) self.old self.new }
        ensures places { places.new ≡ places.old }
    {
        if self.is_short() {
            return;
        }
        places.prune_topic(&self.topic);
        let slots = places.slots();
        let spots = places.of_topic(&self.topic);
        let first = first_of(slots, spots, &self.topic, next);
        let debtors = debtors(slots, spots, &self.topic);
        keep_needed(&mut self.posts, slots, debtors, &self.topic, first);
        self.limit = limit_of(self.posts.len(), spots.len());
    }
}

/// How long a log of so many messages and places may become.
fn limit_of(posts: usize, places: usize) -> usize {
    posts
        .saturating_mul(2)
        .saturating_add(places / 16)
        .saturating_add(SHORT)
}

/// Whether the topics are the same.
pub(crate) fn is_same_topic(one: &Topic, other: &Topic) -> bool
    ensures { result ≡ is_same_topic one.now other.now }
{
    one.destination.as_bytes() == other.destination.as_bytes()
        && one.subtopic.as_bytes() == other.subtopic.as_bytes()
}

/// Where the log of the topic stands, if there is one. It looks at one after another.
pub(crate) fn place_of_log(logs: &[Log], topic: &Topic) -> Option<usize>
    ensures place { result ≡ position (λ l. is_same_topic topic.now l.topic) logs.now }
    ensures bound { IfSome result (λ i. i < length logs.now) }
{
    logs.iter().position(|log| log.is_of(topic))
}

/// Whether the place is there, and in the log.
fn is_placed(slot: &Slot, log: &Log) -> bool
    ensures { result ≡ (slot.now.kept && is_same_topic slot.now.place.topic log.now.topic) }
{
    slot.kept && log.is_of(slot.place.topic())
}

/// Whether a place is there, and in the log.
fn is_placed_at(slots: &[Slot], at: usize, log: &Log) -> bool
    ensures { result ≡ stands_at (λ u. is_same_topic u.topic log.now.topic) slots.now at }
{
    if at >= slots.len() {
        return false;
    }
    is_placed(&slots[at], log)
}

/// Whether one of these places is in the log.
fn has_placed(slots: &[Slot], spots: &[usize], log: &Log) -> bool
    ensures { result ≡ list_any (stands_at (λ u. is_same_topic u.topic log.now.topic) slots.now) spots.now }
{
    spots.iter().any(|at| is_placed_at(slots, *at, log))
}

/// Whether a subscription has its place in the log. It looks at the places of the topic alone.
fn is_wanted(log: &Log, places: &Roster) -> bool
    ensures { result ≡ is_wanted (standing places.now) log.now }
{
    has_placed(places.slots(), places.of_topic(&log.topic), log)
}

/// Whether someone listens to the log, or has a place in it.
pub(crate) fn is_kept(log: &Log, places: &Roster) -> bool
    ensures { result ≡ is_kept (standing places.now) log.now }
{
    !log.is_unheard() || is_wanted(log, places)
}

/// The topic once more.
pub(crate) fn copy_of(alloc: Global, topic: &Topic) -> Result<Topic, Memory>
    ensures { IfOk result (λ copy. copy ≡ topic.now) }
{
    Ok(Topic {
        destination: Name::of_bytes(alloc, topic.destination.as_bytes())?,
        subtopic: Name::of_bytes(alloc, topic.subtopic.as_bytes())?,
    })
}
