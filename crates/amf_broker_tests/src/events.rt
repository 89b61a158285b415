use crate::calls::{call, chat};
use amf_once::{Event, World, replay};
use std::alloc::Global;
use std::process::Abort;

/// The event that these words say. A number before them is the moment, else 0.
pub(crate) fn event_of(rt: &impl Abort, alloc: Global, text: &str) -> Event {
    let text = text.trim();
    let (first, rest) = text.split_once(' ').unwrap_or((text, ""));
    match first.parse::<u64>() {
        Ok(moment) => event_at(rt, alloc, moment, rest),
        Err(_) => event_at(rt, alloc, 0, text),
    }
}

fn event_at(rt: &impl Abort, alloc: Global, moment: u64, text: &str) -> Event {
    let (first, rest) = text.split_once(' ').unwrap_or((text, ""));
    match first {
        "ask" => Event::Ask,
        "arrive" => Event::Arrive(moment, rest.parse::<u32>().expect(rt, "a place")),
        "answer" => Event::Answer(rest.parse::<u32>().expect(rt, "a place")),
        _ => Event::Other(moment, call(rt, alloc, text, 0)),
    }
}

/// What these events come to at a broker whose destination is `chat`.
pub(crate) fn world_of(rt: &impl Abort, alloc: Global, events: Vec<Event>) -> World {
    assert!(rt; events.len() < 1000);
    replay(alloc, chat(rt, alloc), events).expect(rt, "a world")
}
