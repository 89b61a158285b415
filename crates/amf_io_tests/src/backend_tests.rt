ghost use Rattle.std.specs.Prelude.{◌≡◌, false};

use crate::checks::{field, holds, holds_of, number};
use crate::fields::text_of;
use crate::http_firsts::{WHOLE, Ways, link_of};
use amf_io::{MemoryDial, MemoryLink};
use amf_test_rows::{Row, Table};
use http_backend::{Heard, Question, ReadEnd, Reply, ask, post, read_reply};
use std::alloc::Global;
use std::process::Abort;

/// The parts of a question: service, operation, client, message, source, whether it is whole, body; and the POST.
static QUESTIONS: Table = Table {
    rows: 3,
    fields: 8,
    text: r"
users | get | | | | bare | [7] | POST /amf/users/get HTTP/1.0\r\nHost: 127.0.0.1:9000\r\nContent-Type: application/json\r\nContent-Length: 3\r\nConnection: close\r\n\r\n[7]
users | rename | 1 | m-1 | | whole | {} | POST /amf/users/rename HTTP/1.0\r\nHost: 127.0.0.1:9000\r\nContent-Type: application/json\r\nContent-Length: 2\r\nConnection: close\r\nAMF-Client: 1\r\nAMF-Message: m-1\r\nAMF-Nodes: 1\r\n\r\n{}
a/b%?# | x\sy~ | | m\s1\r\n | com.acme.Users | bare | | POST /amf/a%2Fb%25%3F%23/x%20y~ HTTP/1.0\r\nHost: 127.0.0.1:9000\r\nContent-Type: application/json\r\nContent-Length: 0\r\nConnection: close\r\nAMF-Message: m%201%0D%0A\r\nAMF-Source: com.acme.Users\r\n\r\n
",
};

fn ask_question(rt: &impl Abort, alloc: Global, row: Row<'_>) {
    let parts = [0, 1, 2, 3, 4, 6].map(|place| text_of(rt, alloc, row, place));
    let [service, operation, client, message, source, body] = &parts;
    let question = Question {
        service,
        operation,
        client,
        message,
        source,
        whole: field(rt, row, 5) == "whole",
        body,
    };
    let posted = post(alloc, 9000, &question).expect(rt, "memory");
    holds_of(rt, row, 7, posted == text_of(rt, alloc, row, 7));
}

#[test]
fn a_question_is_a_post(rt: HostRuntime) {
    for row in QUESTIONS.rows(rt.alloc()).expect(&rt, "rows").iter() {
        ask_question(&rt, rt.alloc(), *row);
    }
}

/// What a reply came to: the number of why it is bad; its status, whether its length was told, and the size of its body; or
/// nothing, since a read failed.
#[derive(Clone, Copy, PartialEq)]
enum Came {
    Bad(u32),
    Replied(u32, bool, usize),
    Failed,
}

/// What a reply is.
fn came_of(reply: &Reply) -> Came {
    match reply {
        Reply::Bad(number) => Came::Bad(u32::from(*number)),
        Reply::Replied(code, told, body) => Came::Replied(u32::from(*code), *told, body.len()),
    }
}

/// What these bytes come to, if they come so.
fn comes_to(rt: &impl Abort, alloc: Global, bytes: &[u8], ways: Ways) -> Came {
    let mut link = link_of(rt, alloc, bytes, ways);
    match read_reply(alloc, &mut link) {
        Ok(reply) => came_of(&reply),
        Err(ReadEnd::ReadFault) => Came::Failed,
        Err(ReadEnd::Memory) => panic!(rt; "no memory"),
    }
}

/// What a field says that a reply comes to: `bad` with the number, `told` or `untold` with the status and the size, or `failed`.
fn wanted(rt: &impl Abort, row: Row<'_>, place: usize) -> Came {
    let (word, rest) = field(rt, row, place)
        .split_once(' ')
        .unwrap_or(("failed", ""));
    let (first, size) = rest.split_once(' ').unwrap_or((rest, "0"));
    let first = first.parse::<u32>().unwrap_or(0);
    let size = size.parse::<usize>().expect(rt, "a size");
    match word {
        "bad" => Came::Bad(first),
        "told" => Came::Replied(first, true, size),
        "untold" => Came::Replied(first, false, size),
        _ => Came::Failed,
    }
}

/// Replies up to the end of the connection, and what they come to.
static REPLIES: Table = Table {
    rows: 27,
    fields: 2,
    text: r"
# Whole.
HTTP/1.0 200 OK\r\n\r\n | untold 200 0
HTTP/1.0 200 OK\r\n\r\n42 | untold 200 2
HTTP/1.0 200 OK\r\nContent-Length: 3\r\n\r\n[7] | told 200 3
HTTP/1.0 200 OK\r\nContent-Length: 3\r\n\r\n[7]HTTP/1.0 500 X\r\n\r\n | told 200 3
HTTP/1.1 200\r\nCONTENT-lENGTH:\t002 \r\n\r\n42 | told 200 2
HTTP/1.1 200 OK\r\nContent-Encoding: Identity\r\nContent-Length: 2\r\n\r\n42 | told 200 2
HTTP/1.1 200 OK\nContent-Length: 2\r\n\r\n42 | told 200 2
HTTP/1.1 502 Bad Gateway\r\nContent-Length: 2\r\n\r\n42 | told 502 2

# No content, whatever the fields say.
HTTP/1.1 204 No Content\r\nContent-Length: 5\r\n\r\nhello | told 204 0
HTTP/1.1 304 Not Modified\r\nContent-Length: 5\r\n\r\n | told 304 0
HTTP/1.1 100 Continue\r\n\r\nHTTP/1.1 200 OK\r\nContent-Length: 2\r\n\r\n42 | told 100 0

# No head, or one that cannot be read.
HTTP/1.1 200 OK\r\nX: a\r\n b\r\n\r\n | bad 1
HTTP/2 200\r\n\r\n | bad 1
hello\r\n\r\n | bad 1

# A coding.
HTTP/1.1 200 OK\r\nTransfer-Encoding: identity\r\nContent-Length: 2\r\n\r\n42 | bad 2
HTTP/1.1 200 OK\r\nTransfer-Encoding: chunked\r\n\r\n2\r\n42\r\n0\r\n\r\n | bad 2
HTTP/1.1 200 OK\r\nContent-Encoding: gzip\r\nContent-Length: x\r\n\r\n | bad 2

# No single length, or too long.
HTTP/1.1 200 OK\r\nContent-Length: 2\r\nContent-Length: 2\r\n\r\n42 | bad 3
HTTP/1.1 200 OK\r\nContent-Length: 2, 2\r\n\r\n42 | bad 3
HTTP/1.1 200 OK\r\nContent-Length: +2\r\n\r\n42 | bad 3
HTTP/1.1 200 OK\r\nContent-Length:\r\n\r\n42 | bad 3
HTTP/1.0 200 OK\r\nContent-Length: 16000001\r\n\r\n | bad 3
HTTP/1.0 200 OK\r\nContent-Length: 99999999999999999999\r\n\r\n | bad 3

# Cut.
HTTP/1.0 200 OK\r\n\r | bad 7
HTTP/1.0 200 OK\r\nContent-Length: 4\r\n\r\n[7] | bad 7
HTTP/1.0 200 OK\r\nContent-Length: 16000000\r\n\r\n | bad 7
HTTP/1.1 200 OK\nContent-Length: 2\n\n42 | bad 7
",
};

/// A reply comes to this whole, a byte at a time, and in two pieces that meet at each place.
fn ask_reply(rt: &impl Abort, alloc: Global, row: Row<'_>) {
    let bytes = text_of(rt, alloc, row, 0);
    let want = wanted(rt, row, 1);
    let by_bytes = Ways { most: 1, ..WHOLE };
    holds_of(rt, row, 1, comes_to(rt, alloc, &bytes, by_bytes) == want);
    for cut in 0..=bytes.len() {
        let ways = Ways { cut, ..WHOLE };
        holds_of(rt, row, cut, comes_to(rt, alloc, &bytes, ways) == want);
    }
}

#[test]
fn a_reply_comes_to_one_outcome(rt: HostRuntime) {
    for row in REPLIES.rows(rt.alloc()).expect(&rt, "rows").iter() {
        ask_reply(&rt, rt.alloc(), *row);
    }
    let nothing = comes_to(&rt, rt.alloc(), b"", WHOLE);
    holds(&rt, nothing == Came::Bad(7), "no byte");
}

/// What replies come to whose second read fails, all bytes having come with the first.
static FAILED: Table = Table {
    rows: 5,
    fields: 2,
    text: r"
HTTP/1.0 200 OK\r\nContent-Length: 3\r\n\r\n[7] | told 200 3
HTTP/1.1 204 X\r\n\r\n | told 204 0
HTTP/1.0 200 OK\r\nTransfer-Encoding: chunked\r\n\r\n | bad 2
HTTP/1.0 200 OK\r\nContent-Length: 3\r\n\r\n[7 | failed
HTTP/1.0 200 OK\r\n\r\n[7] | failed
",
};

#[test]
fn a_failed_read_comes_to_nothing(rt: HostRuntime) {
    for row in FAILED.rows(rt.alloc()).expect(&rt, "rows").iter() {
        let bytes = text_of(&rt, rt.alloc(), *row, 0);
        let ways = Ways { read: 1, ..WHOLE };
        let right = comes_to(&rt, rt.alloc(), &bytes, ways) == wanted(&rt, *row, 1);
        holds_of(&rt, *row, 1, right);
    }
}

/// What a body of so many bytes comes to that goes to the end.
fn of_length(rt: &impl Abort, alloc: Global, size: usize) -> Came {
    let mut bytes = b"HTTP/1.0 200 OK\r\n\r\n"
        .to_vec(alloc)
        .expect(rt, "memory");
    let head = bytes.len();
    bytes
        .resize(head.saturating_add(size), b'1')
        .expect(rt, "memory");
    comes_to(rt, alloc, &bytes, WHOLE)
}

#[test]
fn a_body_has_at_most_16_000_000_bytes(rt: HostRuntime) {
    let most = of_length(&rt, rt.alloc(), 16_000_000);
    holds(
        &rt,
        most == Came::Replied(200, false, 16_000_000),
        "the most",
    );
    let more = of_length(&rt, rt.alloc(), 16_000_001);
    holds(&rt, more == Came::Bad(3), "one byte more");
}

/// Which call of the dial, which write and which read fails, 9 being none; what is heard; how many links came back, and how
/// many faults the dial has.
static ASKED: Table = Table {
    rows: 5,
    fields: 6,
    text: r"
9 | 9 | 9 | told 200 3 | 1 | 0
0 | 9 | 9 | unreached | 0 | 1
9 | 0 | 9 | failed | 1 | 1
9 | 1 | 9 | failed | 1 | 1
9 | 9 | 0 | failed | 1 | 1
",
};

/// A dial of one link that gives a reply.
fn dial(rt: &impl Abort, alloc: Global, row: Row<'_>) -> MemoryDial<MemoryLink>
    ensures { result.links.out ≡ false }
{
    let ways = Ways {
        write: u64::from(number(rt, row, 1)),
        read: u64::from(number(rt, row, 2)),
        ..WHOLE
    };
    let reply = b"HTTP/1.0 200 OK\r\nContent-Length: 3\r\n\r\n[7]";
    let mut links = Vec::new(alloc);
    links
        .push(link_of(rt, alloc, reply, ways))
        .expect(rt, "memory");
    let failing = [u64::from(number(rt, row, 0))];
    MemoryDial::new(alloc, links, &failing).expect(rt, "a dial")
}

/// Whether this was heard.
fn is_heard(rt: &impl Abort, row: Row<'_>, heard: &Heard) -> bool {
    match heard {
        Heard::Unreached => field(rt, row, 3) == "unreached",
        Heard::Broken => field(rt, row, 3) == "failed",
        Heard::Came(reply) => came_of(reply) == wanted(rt, row, 3),
    }
}

fn ask_once(rt: &impl Abort, alloc: Global, row: Row<'_>) {
    let mut dial = dial(rt, alloc, row);
    let question = b"POST /amf/a/b HTTP/1.0\r\n\r\n";
    let heard = ask(alloc, &mut dial, 9000, question).expect(rt, "memory");
    holds_of(rt, row, 3, is_heard(rt, row, &heard));
    holds_of(
        rt,
        row,
        4,
        dial.returned().len() == number(rt, row, 4) as usize,
    );
    holds_of(rt, row, 5, dial.faults() == u64::from(number(rt, row, 5)));
    holds_of(rt, row, 0, dial.asked() == [9000u16].as_slice());
}

#[test]
fn a_backend_is_asked_once(rt: HostRuntime) {
    for row in ASKED.rows(rt.alloc()).expect(&rt, "rows").iter() {
        ask_once(&rt, rt.alloc(), *row);
    }
}
