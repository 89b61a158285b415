use crate::calls::call;
use crate::events::world_of;
use amf_broker::{Answer, Delivery, Reply};
use amf_once::{Event, World};
use std::alloc::Global;
use std::process::Abort;

/// How many courses are played, and how many events of each are chosen by chance.
const COURSES: u64 = 200;

const EVENTS: u64 = 60;

/// A course that is chosen by chance: what is known of its lists so far, and how many messages were published.
#[derive(Drop)]
struct Chance {
    seed: u64,
    requests: u32,
    answers: u32,
    published: u64,
}

impl Chance {
    /// The next number by chance, below 2^31.
    fn next(&mut self) -> u32 {
        self.seed = self
            .seed
            .wrapping_mul(6_364_136_223_846_793_005)
            .wrapping_add(1);
        (self.seed >> 33) as u32
    }

    /// One of the last three places of a list of this length, or the place behind it, where nothing is.
    fn place(&mut self, length: u32) -> u32 {
        length.wrapping_sub(self.next() % 4)
    }

    fn ask(&mut self) -> Event {
        self.requests = self.requests.wrapping_add(1);
        Event::Ask
    }

    fn arrive(&mut self, place: u32) -> Event {
        if place < self.requests {
            self.answers = self.answers.wrapping_add(1);
        }
        Event::Arrive(0, place)
    }

    fn publish(&mut self, rt: &impl Abort, alloc: Global) -> Event {
        self.published = self.published.wrapping_add(1);
        Event::Other(0, call(rt, alloc, "publish 1 chat a", 0))
    }

    /// What happens next: a publish or an ask, twice as often an arrival or an answer.
    fn event(&mut self, rt: &impl Abort, alloc: Global) -> Event {
        match self.next() % 6 {
            0 => self.publish(rt, alloc),
            1 => self.ask(),
            2 | 3 => {
                let place = self.place(self.requests);
                self.arrive(place)
            }
            _ => Event::Answer(self.place(self.answers)),
        }
    }

    /// The taker asks, its request arrives, and the answer comes back: nothing is lost.
    fn poll(&mut self, rt: &impl Abort, events: &mut Vec<Event>) {
        let asked = self.requests;
        let answered = self.answers;
        events.push(self.ask()).expect(rt, "memory");
        events.push(self.arrive(asked)).expect(rt, "memory");
        events.push(Event::Answer(answered)).expect(rt, "memory");
    }

    /// Two subscriptions, then events by chance, and then so many polls of which nothing is lost.
    fn events(&mut self, rt: &impl Abort, alloc: Global, polls: u32) -> Vec<Event> {
        let mut events = Vec::new(alloc);
        for _ in 0..2 {
            let subscribe = Event::Other(0, call(rt, alloc, "subscribe 1 chat", 0));
            events.push(subscribe).expect(rt, "memory");
        }
        for _ in 0..EVENTS {
            events.push(self.event(rt, alloc)).expect(rt, "memory");
        }
        for _ in 0..polls {
            self.poll(rt, &mut events);
        }
        events
    }
}

/// How many messages a subscription was handed, unless they are not those from 1 on, each once and in order.
fn count_of(deliveries: &[Delivery], sub: u64) -> Option<u64> {
    let mut last = 0_u64;
    for delivery in deliveries {
        if delivery.sub.0 == sub {
            last = last.wrapping_add(1);
            if delivery.number != last {
                return None;
            }
        }
    }
    Some(last)
}

/// How many deliveries were handed out, and how many of these under a number.
fn handed_out(answers: &[Answer], asked: u64) -> (usize, usize) {
    let mut all = 0_usize;
    let mut pending = 0_usize;
    for answer in answers {
        if let Reply::Numbered {
            number,
            deliveries,
            ..
        } = &answer.reply
        {
            let count = deliveries.as_slice().len();
            all = all.wrapping_add(count);
            if *number == asked {
                pending = pending.wrapping_add(count);
            }
        }
    }
    (all, pending)
}

/// Ends the test unless what was taken and what is pending is what was handed out, each message once and in order.
fn is_once(rt: &impl Abort, seed: u64, world: &World) {
    let taken = world.taken.as_slice();
    let (all, pending) = handed_out(world.answers.as_slice(), world.taker.asks());
    assert!(rt; taken.len().wrapping_add(pending) == all, "seed {seed}");
    assert!(rt; count_of(taken, 1).is_some(), "seed {seed}");
    assert!(rt; count_of(taken, 1) == count_of(taken, 2), "seed {seed}");
}

/// Plays the course of a seed, with so many polls in the end, and ends the test unless each message is taken once. It tells
/// how many were published, and how many of these each subscription took.
fn play(rt: &impl Abort, alloc: Global, seed: u64, polls: u32) -> (u64, Option<u64>) {
    let mut chance = Chance {
        seed,
        requests: 0,
        answers: 0,
        published: 0,
    };
    let events = chance.events(rt, alloc, polls);
    let world = world_of(rt, alloc, events);
    is_once(rt, seed, &world);
    (chance.published, count_of(world.taken.as_slice(), 1))
}

/// After two polls of which nothing is lost all messages are taken.
#[test]
fn loses_nothing_by_chance(rt: HostRuntime) {
    let mut all = 0_u64;
    for seed in 0..COURSES {
        let _cut = play(&rt, rt.alloc(), seed, 0);
        let (published, taken) = play(&rt, rt.alloc(), seed, 2);
        assert!(rt; taken == Some(published), "seed {seed}");
        all = all.wrapping_add(published);
    }
    assert!(rt; all > COURSES);
}
