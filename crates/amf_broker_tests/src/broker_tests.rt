use crate::answers::told;
use crate::calls::{Asked, call, name_of};
use crate::checks::{field, holds, is_answered, number};
use amf_broker::Broker;
use amf_test_rows::{Row, Table};
use std::alloc::Global;
use std::hash::RandomState;
use std::process::Abort;
use std::random::RandomSource;

/// Calls with their answers: `open` and the destinations makes a new broker, and `queued` asks how many deliveries wait.
/// Where the first field has two numbers, the call is made for each from the one to the other, and `#` stands for it.
static IN_ORDER: Table = Table {
    rows: 56,
    fields: 4,
    text: r"
# for     | moment  | call                   | answer

# In order.
          | 0       | open chat              | open
          | 0       | connect                | client 1
          | 0       | connect                | client 2
          | 0       | subscribe 1 chat       | subscribed 1
          | 0       | subscribe 1 chat       | subscribed 2
          | 0       | subscribe 2 chat       | subscribed 3
          | 0       | publish 2 chat a       | published 1
          | 0       | poll 1                 | batch 1:1:a 2:1:a
          | 0       | publish 2 chat b       | published 2
          | 0       | unsubscribe 1 1        | unsubscribed 1
          | 0       | publish 2 chat c       | published 3
          | 0       | poll 1                 | batch 1:2:b 2:2:b 2:3:c
          | 0       | poll 1                 | batch
          | 0       | poll 2                 | batch 3:1:a 3:2:b 3:3:c
          | 0       | unsubscribe 1 1        | no subscription 1
          | 0       | poll 9                 | no client 9
          | 0       | subscribe 1 nowhere    | no topic nowhere
          | 0       | disconnect 2           | bye
          | 0       | poll 2                 | no client 2
          | 0       | queued                 | queued 0

# A subscription to a subtopic gets no message without one.
          | 0       | open chat              | open
          | 0       | connect                | client 1
          | 0       | subscribe 1 chat/x     | subscribed 1
          | 0       | publish 1 chat m       | published 1
          | 0       | queued                 | queued 0

# Clients that no call names expire.
          | 0       | open chat              | open
          | 0       | connect                | client 1
          | 0       | subscribe 1 chat       | subscribed 1
          | 1000    | connect                | client 2
          | 600000  | publish 2 chat a       | published 1 expired 1
          | 600000  | poll 1                 | no client 1
          | 599000  | poll 2                 | batch
          | 1200000 | poll 2                 | no client 2 expired 2
          | 0       | queued                 | queued 0

# Numbered polls.
          | 0       | open chat              | open
          | 0       | connect                | client 1
          | 0       | subscribe 1 chat       | subscribed 1
          | 0       | publish 1 chat a       | published 1
          | 0       | poll 1 1               | numbered 1 1:1:a
          | 0       | publish 1 chat b       | published 2
          | 0       | poll 1 1               | again 1 1:1:a
          | 0       | poll 1 2               | numbered 2 1:2:b
          | 0       | poll 1 1               | bad number 2
          | 0       | poll 1 0               | bad number 2
          | 0       | poll 1                 | batch
          | 0       | queued                 | queued 0

# Two destinations.
          | 0       | open chat news         | open
          | 0       | connect                | client 1
          | 0       | subscribe 1 chat       | subscribed 1
          | 0       | subscribe 1 news       | subscribed 2
          | 0       | publish 1 news a       | published 1
          | 0       | publish 1 chat b       | published 2
          | 0       | publish 1 news c       | published 3
          | 0       | unsubscribe 1 2        | unsubscribed 2
          | 0       | poll 1                 | batch 2:1:a 1:2:b 2:3:c
          | 0       | queued                 | queued 0
",
};

/// Queues, clients and subscriptions at their limits.
static LIMITS: Table = Table {
    rows: 26,
    fields: 4,
    text: r"
# for     | moment  | call                   | answer

# A full queue ends its subscription.
          | 0       | open chat              | open
          | 0       | connect                | client 1
          | 0       | subscribe 1 chat       | subscribed 1
1 128     | 0       | publish 1 chat m       | published #
          | 0       | queued                 | queued 128
          | 0       | publish 1 chat m       | published 129 ended 1
          | 0       | poll 1                 | batch 128 from 1:1 ended 1
          | 0       | publish 1 chat m       | published 130
          | 0       | poll 1                 | batch

# Ends are told in their order.
          | 0       | open chat              | open
          | 0       | connect                | client 1
          | 0       | subscribe 1 chat       | subscribed 1
          | 0       | publish 1 chat m       | published 1
          | 0       | subscribe 1 chat       | subscribed 2
2 64      | 0       | publish 1 chat m       | published #
          | 0       | publish 1 chat m       | published 65 ended 2
          | 0       | publish 1 chat m       | published 66 ended 1
          | 0       | poll 1                 | batch 128 ended 2 ended 1

# Limits.
          | 0       | open chat              | open
1 1024    | 0       | connect                | client #
1 16      | 0       | subscribe 1 chat       | subscribed #
          | 0       | connect                | full 1024
          | 0       | subscribe 1 chat       | too many 16
          | 0       | subscribe 2 chat/x*256 | too long 255
          | 0       | publish 2 chat x*32769 | too long 32768
          | 0       | publish 2 chat x*32768 | published 1
",
};

/// As many clients as may be, each with a full queue of the longest messages.
static FULL: Table = Table {
    rows: 6,
    fields: 4,
    text: r"
# for     | moment  | call                   | answer

          | 0       | open chat              | open
1 1024    | 0       | connect                | client #
1 1024    | 0       | subscribe # chat       | subscribed #
1 128     | 0       | publish 1 chat x*32768 | published #
          | 0       | queued                 | queued 131072
1 1024    | 0       | poll #                 | batch 128 from #:1
",
};

/// A client with as many subscriptions as it may have, among several hundred others.
static OWN: Table = Table {
    rows: 20,
    fields: 4,
    text: r"
# for     | moment  | call                   | answer

          | 0       | open chat              | open
1 300     | 0       | connect                | client #
          | 0       | subscribe 1 chat/a     | subscribed 1
2 300     | 0       | subscribe # chat       | subscribed #
301 315   | 0       | subscribe 1 chat/a     | subscribed #
          | 0       | subscribe 1 chat/a     | too many 16
          | 0       | publish 2 chat x       | published 1
2 3       | 0       | publish 2 chat/a y     | published #
          | 0       | poll 1                 | batch 32
          | 0       | poll 2                 | batch 2:1:x
301 315   | 0       | unsubscribe 1 #        | unsubscribed #
          | 0       | publish 2 chat/a z     | published 4
          | 0       | poll 1                 | batch 1:4:z
          | 0       | unsubscribe 3 1        | no subscription 1
          | 0       | subscribe 1 chat       | subscribed 316
          | 0       | disconnect 2           | bye
          | 0       | publish 1 chat w       | published 5
          | 0       | poll 1                 | batch 316:5:w
          | 0       | poll 300               | batch 300:1:x 300:5:w
          | 0       | queued                 | queued 594
",
};

/// What may go to another thread.
fn sendable<T: Send>(value: T) -> T {
    value
}

/// A broker of the destinations that follow the first word, with keys of the runtime.
fn opened<R: Abort + RandomSource>(rt: &R, alloc: Global, asked: &Asked<'_>) -> Broker {
    let mut destinations = Vec::new(alloc);
    for word in asked.text.split_whitespace().skip(1) {
        let name = name_of(alloc, word).expect(rt, "a name");
        destinations.push(name).expect(rt, "memory");
    }
    let keys = RandomState::new(rt).expect(rt, "keys");
    sendable(Broker::keyed(alloc, destinations, keys).expect(rt, "a broker"))
}

/// What a broker answers to a call.
fn answer(
    rt: &impl Abort,
    alloc: Global,
    broker: &mut Broker,
    moment: u64,
    asked: &Asked<'_>,
) -> String {
    let call = call(rt, alloc, asked.text, asked.number);
    assert!(rt; broker.calls() < 1 << 62);
    let answer = broker.step(alloc, moment, call).expect(rt, "an answer");
    told(alloc, &answer).expect(rt, "memory")
}

/// What comes of a call, which may be one for a new broker.
fn answered<R: Abort + RandomSource>(
    rt: &R,
    alloc: Global,
    broker: &mut Broker,
    moment: u64,
    asked: &Asked<'_>,
) -> String {
    match asked.word(0) {
        "open" => {
            *broker = opened(rt, alloc, asked);
            String::from_str(alloc, "open").expect(rt, "memory")
        }
        "queued" => {
            let count = broker.queued();
            format!(in alloc; "queued {count}").expect(rt, "memory")
        }
        _ => answer(rt, alloc, broker, moment, asked),
    }
}

/// The first and the last number for which the call of a row is made.
fn numbers(rt: &impl Abort, row: Row<'_>) -> (u64, u64) {
    let text = field(rt, row, 0);
    if text.is_empty() {
        return (0, 0);
    }
    let asked = Asked { text, number: 0 };
    let first = asked.number(0).expect(rt, "a first number");
    let last = asked.number(1).expect(rt, "a last number");
    (first, last)
}

/// What a row says of an answer, in which `#` stands for a number.
fn wanted(rt: &impl Abort, alloc: Global, row: Row<'_>, number: u64) -> String {
    let digits = format!(in alloc; "{number}").expect(rt, "memory");
    field(rt, row, 3)
        .replace(alloc, '#', &digits)
        .expect(rt, "memory")
}

/// Makes the calls of a row, and tells how many they are.
fn ask<R: Abort + RandomSource>(rt: &R, alloc: Global, broker: &mut Broker, row: Row<'_>) -> u64 {
    let (first, last) = numbers(rt, row);
    let moment = u64::from(number(rt, row, 1));
    let mut count = 0u64;
    for number in first..=last {
        let asked = Asked {
            text: field(rt, row, 2),
            number,
        };
        let got = answered(rt, alloc, broker, moment, &asked);
        is_answered(rt, row, &got, &wanted(rt, alloc, row, number));
        count = count.wrapping_add(1);
    }
    count
}

/// Makes the calls of a table, and tells how many they are.
fn ask_all<R: Abort + RandomSource>(rt: &R, alloc: Global, table: &Table) -> u64 {
    let mut broker = Broker::new(alloc, Vec::new(alloc)).expect(rt, "a broker");
    let mut count = 0u64;
    for row in table.rows(alloc).expect(rt, "rows").iter() {
        count = count.wrapping_add(ask(rt, alloc, &mut broker, *row));
    }
    count
}

#[test]
fn answers_in_order(rt: HostRuntime) {
    let count = ask_all(&rt, rt.alloc(), &IN_ORDER);
    holds(&rt, count == 56, "calls");
}

#[test]
fn keeps_to_its_limits(rt: HostRuntime) {
    let count = ask_all(&rt, rt.alloc(), &LIMITS);
    holds(&rt, count == 1253, "calls");
}

#[test]
fn fills_every_queue(rt: HostRuntime) {
    let count = ask_all(&rt, rt.alloc(), &FULL);
    holds(&rt, count == 3202, "calls");
}

#[test]
fn gives_each_its_own(rt: HostRuntime) {
    let count = ask_all(&rt, rt.alloc(), &OWN);
    holds(&rt, count == 646, "calls");
}
