use crate::answers::{put_answers, put_deliveries};
use crate::checks::{field, is_answered};
use crate::events::{event_of, world_of};
use amf_once::{Event, World};
use amf_test_rows::{Row, Table};
use std::alloc::Global;
use std::process::Abort;

/// Courses of events, with the number that the taker asks in the end, what it took, and what the broker answered to the requests.
/// A delivery is its subscription, its number and its message.
static COURSES: Table = Table {
    rows: 15,
    fields: 4,
    text: r"
# events | asks | taken | answers

 | 1 | |

# A request that comes twice, answers that come in the other order, and a poll that comes late.
subscribe 1 chat; publish 1 chat a; ask; arrive 0; ask; arrive 1; answer 1; answer 0; arrive 0 | 2 | 1:1:a | numbered 1 1:1:a; again 1 1:1:a; again 1 1:1:a

# An answer that is lost, while more is published.
subscribe 1 chat; publish 1 chat a; ask; arrive 0; publish 1 chat b; ask; arrive 1; answer 1 | 2 | 1:1:a | numbered 1 1:1:a; again 1 1:1:a
subscribe 1 chat; ask; arrive 0; publish 1 chat a; arrive 0; answer 1; ask; arrive 1; answer 2 | 3 | 1:1:a | numbered 1; again 1; numbered 2 1:1:a

# An answer that comes twice, and one that comes after a newer one.
subscribe 1 chat; publish 1 chat a; ask; arrive 0; answer 0; answer 0 | 2 | 1:1:a | numbered 1 1:1:a
subscribe 1 chat; publish 1 chat a; ask; arrive 0; answer 0; publish 1 chat b; ask; arrive 1; answer 1; answer 0 | 3 | 1:1:a 1:2:b | numbered 1 1:1:a; numbered 2 1:2:b

# A request that comes after a newer one is refused, and the taker hears nothing of the refusal.
ask; arrive 0; answer 0; ask; arrive 1; answer 1; arrive 0; answer 2 | 3 | | numbered 1; numbered 2; bad number 2

# A request that is lost.
subscribe 1 chat; publish 1 chat a; ask; ask; arrive 1; answer 0 | 2 | 1:1:a | numbered 1 1:1:a

# Places that are not in their lists.
arrive 0; answer 0; ask; arrive 1; arrive 4294967295; answer 0; arrive 0; answer 1; answer 4294967295 | 1 | | numbered 1

# Of client 1 the polls and the Disconnect of others do nothing, and those of client 2 are made.
subscribe 1 chat; publish 1 chat a; poll 1; poll 1 1; disconnect 1; ask; arrive 0; answer 0 | 2 | 1:1:a | numbered 1 1:1:a
connect; disconnect 2; subscribe 2 chat; subscribe 1 chat; publish 1 chat a; ask; arrive 0; answer 0 | 2 | 1:1:a | numbered 1 1:1:a
connect; subscribe 2 chat; subscribe 1 chat; publish 2 chat a; poll 2; poll 2 1; ask; arrive 0; answer 0 | 2 | 2:1:a | numbered 1 2:1:a

# What was queued for a subscription that ended comes still.
subscribe 1 chat; publish 1 chat a; unsubscribe 1 1; publish 1 chat b; ask; arrive 0; answer 0 | 2 | 1:1:a | numbered 1 1:1:a

# A taker that is not heard of for ten minutes is gone, and keeps what it took.
subscribe 1 chat; publish 1 chat a; ask; arrive 0; 599999 arrive 0; 1199999 arrive 0; answer 0 | 2 | 1:1:a | numbered 1 1:1:a; again 1 1:1:a; no client 1 expired 1
subscribe 1 chat; connect; 1 publish 2 chat a; 600000 ask; 600000 arrive 0; answer 0 | 1 | | no client 1 expired 1
",
};

/// The events of a row.
fn events_of(rt: &impl Abort, alloc: Global, row: Row<'_>) -> Vec<Event> {
    let mut events = Vec::new(alloc);
    for text in field(rt, row, 0).split(';') {
        if !text.is_empty() {
            events.push(event_of(rt, alloc, text)).expect(rt, "memory");
        }
    }
    events
}

/// Ends the test unless the taker asks and took what a row says.
fn is_taken(rt: &impl Abort, alloc: Global, row: Row<'_>, world: &World) {
    let asks = format!(in alloc; "{}", world.taker.asks()).expect(rt, "memory");
    is_answered(rt, row, &asks, field(rt, row, 1));
    let mut taken = String::new(alloc);
    put_deliveries(&mut taken, world.taken.as_slice()).expect(rt, "memory");
    is_answered(rt, row, taken.trim(), field(rt, row, 2));
}

fn play(rt: &impl Abort, alloc: Global, row: Row<'_>) {
    let world = world_of(rt, alloc, events_of(rt, alloc, row));
    is_taken(rt, alloc, row, &world);
    let mut answers = String::new(alloc);
    put_answers(&mut answers, world.answers.as_slice()).expect(rt, "memory");
    is_answered(rt, row, &answers, field(rt, row, 3));
}

#[test]
fn takes_each_message_once(rt: HostRuntime) {
    for row in COURSES.rows(rt.alloc()).expect(&rt, "rows").iter() {
        play(&rt, rt.alloc(), *row);
    }
}
