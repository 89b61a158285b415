ghost use Rattle.std.specs.Prelude.{◌≡◌, false, length, All};

use crate::runs::{Case, Ways, check_rows, put, wrong_over};
use amf_io::{
    Gate, Joined, MemoryFront, MemoryHall, MemoryLink, MemorySink, MemorySource, OpenGate,
};
use amf_test_rows::{Row, Table};
use std::alloc::Global;
use std::process::Abort;
use std::random::RandomSource;
use std::sync::Wait;
use std::sync::atomic::{AtomicBool, AtomicU64, Ordering};
use std::thread;
use std::thread::Threads;

/// The front of a packet with one message of a Flex client, up to the body of its CommandMessage.
const COMMAND: &[u8] =
    b"\0\x03\0\0\0\x01\0\x04null\0\x02/1\xFF\xFF\xFF\xFF\n\0\0\0\x01\x11\n\x81\x13Mflex.messaging.messages.CommandMessage\x09body\x11clientId\x17destination\x0Fheaders\x13messageId\x15timeToLive\x13timestamp\x1BcorrelationId\x13operation\x01\x01\x06\x09chat\n\x0B\x01\x09DSId\x06";

/// And of its AsyncMessage, whose body is the text `hi`.
const MESSAGE: &[u8] =
    b"\0\x03\0\0\0\x01\0\x04null\0\x02/1\xFF\xFF\xFF\xFF\n\0\0\0\x01\x11\n\x81\x03Iflex.messaging.messages.AsyncMessage\x09body\x11clientId\x17destination\x0Fheaders\x13messageId\x15timeToLive\x13timestamp\x1BcorrelationId\x06\x05hi\x01\x06\x09chat\n\x0B\x01\x09DSId\x06";

/// What stands behind the number of the client.
const BACK: &[u8] = b"\x01\x06\x03m\x04\0\x04\0\x06\x01";

const HEAD: &[u8] =
    b"POST /amf HTTP/1.1\r\nHost: h\r\nContent-Type: application/x-amf\r\nContent-Length: ";

/// A request in pieces: the head with the length of the packet, and the packet with the number of the client.
type Ask = [&'static [u8]; 7];

const END: &[u8] = b"\r\n\r\n";

/// A new number.
const CONNECT: Ask = [HEAD, b"190", END, COMMAND, b"\x07nil", BACK, b"\x04\x05"];

/// A subscription of client 1 to `chat`, a message there, and what came; and those of client 2.
const SUBSCRIBE: Ask = [HEAD, b"188", END, COMMAND, b"\x031", BACK, b"\x04\0"];

const PUBLISH: Ask = [HEAD, b"177", END, MESSAGE, b"\x031", BACK, b""];

const POLL: Ask = [HEAD, b"188", END, COMMAND, b"\x031", BACK, b"\x04\x02"];

const SUBSCRIBE_2: Ask = [HEAD, b"188", END, COMMAND, b"\x032", BACK, b"\x04\0"];

const POLL_2: Ask = [HEAD, b"188", END, COMMAND, b"\x032", BACK, b"\x04\x02"];

/// A link with these requests.
fn link(rt: &impl Abort, alloc: Global, asks: &[Ask]) -> MemoryLink {
    let mut bytes = Vec::new(alloc);
    for ask in asks {
        for piece in ask {
            put(rt, &mut bytes, 1, piece);
        }
    }
    let source = MemorySource::new(alloc, &bytes, usize::MAX, 0, &[]).expect(rt, "a source");
    let sink = MemorySink::new(alloc, usize::MAX, &[]).expect(rt, "a sink");
    Joined { source, sink }
}

/// A hall of so many links with these requests, whose calls of `next` with these numbers fail.
fn hall(
    rt: &impl Abort,
    alloc: Global,
    count: usize,
    asks: &[Ask],
    failing: &[u64],
) -> MemoryHall<MemoryLink>
    ensures whole { result.failed ≡ 0 }
    ensures fresh { length result.links.served.items ≡ 0 }
    ensures none_out { result.links.out ≡ false }
{
    let mut coming = Vec::new(alloc);
    for _ in 0..count {
        coming.push(link(rt, alloc, asks)).expect(rt, "memory");
    }
    MemoryHall::new(alloc, coming, &[], &[], failing).expect(rt, "a hall")
}

/// The first four requests of a client.
static FIRST: [Ask; 4] = [CONNECT, SUBSCRIBE, PUBLISH, POLL];

/// A front of one hall of so many links, whose calls of `next` and of `open` with these numbers fail.
fn front_of_one(
    rt: &impl Abort,
    alloc: Global,
    count: usize,
    next: &[u64],
    open: &[u64],
) -> MemoryFront<MemoryLink> {
    let mut halls = Vec::new(alloc);
    let only = hall(rt, alloc, count, &FIRST, next);
    halls.push(only).expect(rt, "memory");
    MemoryFront::new(alloc, halls, open).expect(rt, "a front")
}

/// No byte of the input is asked for.
const UNREAD: Ways<'static> = Ways {
    most: 1,
    cut: 0,
    takes: 100,
    reads: &[0],
    writes: &[],
};

/// Serves over a front, which is then asked at port 0 for so many workers, and has so many halls back.
fn check_front<R: RandomSource + Threads + Wait + Abort + Sync, G: Gate>(
    rt: &R,
    alloc: Global,
    case: &Case<'_>,
    ways: Ways<'_>,
    front: &mut MemoryFront<MemoryLink>,
    gate: &G,
    workers: u32,
    back: usize,
) {
    let words = case.words;
    let wrong = wrong_over(rt, alloc, case, ways, front, gate);
    assert!(rt; wrong.is_empty(), "{words}: {wrong}");
    let is_asked = front.asked() == [(0u16, workers)].as_slice();
    assert!(rt; is_asked, "{words}: the front");
    let is_back = front.returned().len() == back;
    assert!(rt; is_back, "{words}: the halls");
}

/// One worker: the status, the output and the error line; how many links there are, the calls of `next`, of `open` and of the output
/// that fail, and how many halls are given back.
static ONE_WORKER: Table = Table {
    rows: 7,
    fields: 10,
    text: r"
serve --port 0 --workers 1 --each 1 | | 0 | 'calls 4 published 1 delivered 1 queued 0' 0A | | 1 | | | | 1
serve --port=0 --workers=1 --each=2 | | 6 | | 'amf: front fault' 0A | 2 | | 0 | | 0
serve --port=0 --workers=1 --each=2 | | 6 | 'calls 0 published 0 delivered 0 queued 0' 0A | 'amf: front fault' 0A | 2 | 0 | | | 1
serve --port=0 --workers=1 --each=2 | | 6 | 'calls 4 published 1 delivered 1 queued 0' 0A | 'amf: front fault' 0A | 2 | 1 | | | 1
serve --port=0 --workers=1 --each=2 | | 0 | 'calls 8 published 2 delivered 3 queued 0' 0A | | 2 | 2 | | | 1
serve --port=0 --workers=1 --each=2 | | 4 | | 'amf: write fault' 0A | 2 | | | 0 | 1
serve --port=0 --workers=1 --each=2 | | 4 | | 'amf: write fault' 0A | 2 | 1 | | 0 | 1
",
};

/// Serves as five more fields of the row say.
pub(crate) fn check_served<R: RandomSource + Threads + Wait + Abort + Sync>(
    rt: &R,
    alloc: Global,
    row: Row<'_>,
    case: &Case<'_>,
) {
    let count = row.number(5).expect(rt, "a count") as usize;
    let next = row.numbers(alloc, 6).expect(rt, "numbers");
    let open = row.numbers(alloc, 7).expect(rt, "numbers");
    let writes = row.numbers(alloc, 8).expect(rt, "numbers");
    let back = row.number(9).expect(rt, "a count") as usize;
    let mut front = front_of_one(rt, alloc, count, &next, &open);
    let ways = Ways {
        writes: &writes,
        ..UNREAD
    };
    check_front(rt, alloc, case, ways, &mut front, &OpenGate, 1, back);
}

#[test]
fn serves_with_faults(rt: HostRuntime) {
    check_rows(&rt, rt.alloc(), &ONE_WORKER);
}

/// Holds calls until others are answered, so that two workers are at work at once. It gives up after 50,000,000 looks.
#[derive(Drop)]
struct Turns {
    first: AtomicU64,
    second: AtomicU64,
    gave_up: AtomicBool,
}

impl Turns {
    /// Waits until so many calls are answered.
    fn wait_for(&self, answered: &AtomicU64, count: u64) {
        for _ in 0..50_000_000u64 {
            if answered.load(Ordering::SeqCst) >= count {
                return;
            }
            thread::yield_now();
        }
        self.gave_up.store(true, Ordering::SeqCst);
    }
}

impl Gate for Turns {
    fn before(&self, worker: u32, call: u64) {
        match (worker, call) {
            (0, 1) => self.wait_for(&self.second, 1),
            (1, 2) => self.wait_for(&self.first, 2),
            (0, 3) => self.wait_for(&self.second, 3),
            _ => {}
        }
    }

    fn after(&self, worker: u32, call: u64) {
        let answered = if worker == 0 {
            &self.first
        } else {
            &self.second
        };
        answered.store(call, Ordering::SeqCst);
    }
}

/// A front of two halls, each of one link: client 2 subscribes and polls, and client 1 publishes.
fn front_of_two(rt: &impl Abort, alloc: Global) -> MemoryFront<MemoryLink> {
    let mut halls = Vec::new(alloc);
    let listens = hall(rt, alloc, 1, &[CONNECT, SUBSCRIBE_2, POLL_2], &[]);
    halls.push(listens).expect(rt, "memory");
    let publishes = hall(rt, alloc, 1, &[CONNECT, PUBLISH, PUBLISH], &[]);
    halls.push(publishes).expect(rt, "memory");
    MemoryFront::new(alloc, halls, &[]).expect(rt, "a front")
}

#[test]
fn two_workers_at_once(rt: HostRuntime) {
    let mut front = front_of_two(&rt, rt.alloc());
    let turns = Turns {
        first: AtomicU64::new(0),
        second: AtomicU64::new(0),
        gave_up: AtomicBool::new(false),
    };
    let case = Case {
        words: "serve --each=1 --workers=2 --port=0",
        input: b"",
        status: 0,
        output: b"calls 6 published 2 delivered 2 queued 0\n",
        line: b"",
    };
    check_front(&rt, rt.alloc(), &case, UNREAD, &mut front, &turns, 2, 2);
    assert!(rt; !turns.gave_up.load(Ordering::SeqCst));
}
