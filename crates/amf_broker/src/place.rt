ghost use Rattle.std.specs.Prelude.{◌≡◌, ◌+◌, ◌<◌, ◌^◌, ◌==◌, ◌&&◌, true, false, count_by};
ghost use Rattle.amf_broker.specs.Lines.{is_covered, is_reached_by, begun_anew, outlasts};
ghost use Rattle.amf_broker.specs.Machine.{is_same_topic};
ghost use Rattle.amf_broker.specs.Members.{raised, is_among, stopped};
ghost use Rattle.amf_broker.specs.Trims.{is_debt, is_owed};

use crate::ended::Ended;
use crate::log::{Post, is_same_topic};
use crate::{ClientId, SubId, Topic};
use std::marker::Model;

/// A subscription, with its place in the log of its topic: what is from there on waits for its client. One that has ended
/// stops before a message, and is there as long as something waits.
pub(crate) struct Place {
    id: SubId,
    client: ClientId,
    topic: Topic,
    start: u64,
    stop: u64,
    live: bool,
}

impl Drop for Place {
    /// Lets its parts go. Written out, it is proved once; what is derived is proved at each place where one is let go.
    fn drop(self) {
        let Place {
            id: _,
            client: _,
            topic: _,
            start: _,
            stop: _,
            live: _,
        } = self;
    }
}

impl Model for Place {
    ghost use Rattle.amf_broker.specs.Lines.{Span};

    ghost Value = { Span };

    ghost view = { λ p. record { id = p.id; client = p.client; topic = p.topic; start = p.start; stop = p.stop; live = p.live } };
}

impl Place {
    /// A subscription that begins at the message of this number.
    pub(crate) fn new(id: SubId, client: ClientId, topic: Topic, next: u64) -> Place
        ensures { result ≡ record { id = id; client = client; topic = topic; start = next; stop = next; live = true } }
    {
        Place {
            id,
            client,
            topic,
            start: next,
            stop: next,
            live: true,
        }
    }

    pub(crate) fn id(&self) -> SubId
        ensures { result ≡ self.now.id }
    {
        self.id
    }

    pub(crate) fn client(&self) -> ClientId
        ensures { result ≡ self.now.client }
    {
        self.client
    }

    pub(crate) fn topic(&self) -> &Topic
        ensures { result.now ≡ self.now.topic }
    {
        &self.topic
    }

    pub(crate) fn is_live(&self) -> bool
        ensures { result ≡ self.now.live }
    {
        self.live
    }

    /// Whether the message, which is before the next one, waits for its client.
    pub(crate) fn covers(&self, post: &Post, next: u64) -> bool
        ensures { result ≡ is_covered (raised next self.now).start (raised next self.now).stop post.now }
    {
        let stop = if self.live { next } else { self.stop };
        self.start <= post.number() && post.number() < stop
    }

    /// Where it starts.
    pub(crate) fn start(&self) -> u64
        ensures { result ≡ self.now.start }
    {
        self.start
    }

    /// Whether it is live, and this subscription.
    pub(crate) fn is_live_sub(&self, sub: SubId) -> bool
        ensures { result ≡ (self.now.live && self.now.id == sub) }
    {
        self.live && self.id == sub
    }

    /// Whether a message of the topic reaches it.
    pub(crate) fn is_reached_by(&self, topic: &Topic) -> bool
        ensures { result ≡ is_reached_by topic.now self.now }
    {
        self.live && is_same_topic(&self.topic, topic)
    }

    /// Whether it is of the topic and has ended.
    pub(crate) fn is_debt(&self, topic: &Topic) -> bool
        ensures { result ≡ is_debt topic.now self.now }
    {
        !self.live && is_same_topic(&self.topic, topic)
    }

    /// Whether it has ended, and the message of the topic waits for its client.
    pub(crate) fn owes(&self, topic: &Topic, post: &Post) -> bool
        ensures { result ≡ is_owed topic.now post.now self.now }
    {
        self.is_debt(topic) && self.has(post)
    }

    /// Whether the message is between its ends.
    fn has(&self, post: &Post) -> bool
        ensures { result ≡ is_covered self.now.start self.now.stop post.now }
    {
        self.start <= post.number() && post.number() < self.stop
    }

    /// It ends before the message of this number, if it is live and this subscription.
    pub(crate) fn stop_sub(&mut self, sub: SubId, end: u64)
        ensures { self.new ≡ stopped end (λ id. id == sub) self.old }
    {
        if self.live && self.id == sub {
            self.stop = end;
            self.live = false;
        }
    }

    /// It ends before the message of this number, if it is live and one of these.
    pub(crate) fn stop_among(&mut self, ended: &Ended, number: u64)
        ensures { self.new ≡ stopped number (is_among ended.now.subs.items) self.old }
    {
        if self.live && ended.has(self.id) {
            self.stop = number;
            self.live = false;
        }
    }

    /// Whether it is there after a poll of the client.
    pub(crate) fn outlasts(&self, client: ClientId) -> bool
        ensures { result ≡ outlasts client self.now }
    {
        self.live || self.client != client
    }

    /// After a poll of the client it begins anew at the message of this number.
    pub(crate) fn begin_anew(&mut self, client: ClientId, next: u64)
        ensures { self.new ≡ begun_anew client next self.old }
    {
        if self.client == client {
            self.start = next;
            self.stop = next;
        }
    }
}
