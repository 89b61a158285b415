use crate::answered::{Came, PLAINLY, Want, Ways, answer_of, behind, count_of, is_answered};
use crate::checks::{field, holds};
use crate::requests::{put, put_bytes, put_flex_request, put_flex_response, put_words, request};
use amf_desk::Closed;
use amf_gateway::LinkEnd;
use amf_test_rows::{Row, Table};
use std::alloc::Global;
use std::process::Abort;
use std::sync::Wait;

/// The requests of a new client: a ping, a subscription, a message and two polls, and their answers, where dice and clock
/// give 0. First stands the digit to which each is answered.
static FIRST: Table = Table {
    rows: 5,
    fields: 3,
    text: r"
1 | COMMAND OPERATION 0A0B0101 01 0601 0A05 25'DSMessagingVersion' 0401 09'DSId' 0607'nil' 01 PING TIMES 0601 0405 | ACKNOWLEDGE 01 01 0601 ONE FRESH PING
2 | COMMAND OPERATION 01 01 0609'chat' ONE 0605'm2' TIMES 0601 0400 | ACKNOWLEDGE 01 0603'1' 0609'chat' 0A0B01 09'DSId' 0612 01 FRESH 0605'm2'
3 | ASYNC 0605'hi' 01 0609'chat' ONE 0605'm3' TIMES 0601 | ACKNOWLEDGE 01 01 0609'chat' ONE FRESH 0605'm3'
4 | COMMAND OPERATION 01 01 0601 ONE 0605'm4' TIMES 0601 0402 | COMMAND OPERATION 090301 0A8103 49'flex.messaging.messages.AsyncMessage' 02 04 06 08 0A 0C 0E 10 0605'hi' 0603'1' 0609'chat' 0A0B01 09'DSId' 0618 01 0605'm3' 0400 05 0000000000000000 0601 01 0601 0A09 1C 0618 01 FRESH 0605'm4' 0404
5 | COMMAND OPERATION 01 01 0601 ONE 0605'm5' TIMES 0601 0402 | ACKNOWLEDGE 01 01 0601 ONE FRESH 0605'm5'
",
};

/// Byte for byte, in pieces of so many bytes.
#[test]
fn the_first_requests_of_a_client(rt: HostRuntime) {
    let mut asked = Vec::new(rt.alloc());
    let mut wanted = Vec::new(rt.alloc());
    for row in FIRST.rows(rt.alloc()).expect(&rt, "rows").iter() {
        let digit = field(&rt, *row, 0);
        put_flex_request(&rt, rt.alloc(), digit, field(&rt, *row, 1), &mut asked);
        put_flex_response(&rt, rt.alloc(), digit, field(&rt, *row, 2), &mut wanted);
    }
    for most in [usize::MAX, 1, 100] {
        let ways = Ways {
            pieces: (most, 0),
            ..PLAINLY
        };
        let want = Want {
            at: most,
            end: LinkEnd::Closed,
            closed: Closed {
                calls: 5,
                published: 1,
                delivered: 1,
                queued: 0,
            },
            written: &wanted,
        };
        is_answered(&rt, rt.alloc(), &asked, ways, want);
    }
}

/// What comes of the requests of a table, of which first stands the digit to which each is answered. What is written has the
/// pieces of all rows in their order.
fn answers<R: Wait + Abort>(
    rt: &R,
    alloc: Global,
    table: Table,
    ways: Ways<'_>,
    written: &mut Vec<u8>,
) -> Came {
    let mut asked = Vec::new(alloc);
    let rows = table.rows(alloc).expect(rt, "rows");
    for row in rows.iter() {
        let digit = field(rt, *row, 0);
        put_flex_request(rt, alloc, digit, field(rt, *row, 1), &mut asked);
    }
    let came = answer_of(rt, alloc, &asked, ways, written);
    let mut rest = written.as_slice();
    for row in rows.iter() {
        rest = behind_all(rt, alloc, *row, rest);
    }
    came
}

/// What stands behind the pieces of a row.
fn behind_all<'a>(rt: &impl Abort, alloc: Global, row: Row<'_>, bytes: &'a [u8]) -> &'a [u8] {
    let mut rest = bytes;
    let mut piece = Vec::new(alloc);
    for text in field(rt, row, 2).split(';') {
        piece.clear();
        put_bytes(rt, alloc, text, &mut piece);
        rest = behind(rest, &piece).expect(rt, text);
    }
    rest
}

/// Calls that each take a moment before them and one with their answer, all about `chat`. A client that none has named for
/// 600,000 milliseconds ends.
static IDLE: Table = Table {
    rows: 7,
    fields: 3,
    text: r"
0 | COMMAND OPERATION 01 01 0609'chat' NEW 0603'm' TIMES 0601 0405 | '/0/onResult'
1 | COMMAND OPERATION 01 01 0609'chat' ONE 0603'm' TIMES 0601 0400 | '/1/onResult'
2 | COMMAND OPERATION 01 01 0609'chat' NEW 0603'm' TIMES 0601 0405 | '/2/onResult'
3 | ASYNC 0603'a' 01 0609'chat' TWO 0603'm' TIMES 0601 | '/3/onResult'
4 | COMMAND OPERATION 01 01 0609'chat' ONE 0603'm' TIMES 0601 0402 | '/4/onStatus'; 'Client.NoClient'
5 | COMMAND OPERATION 01 01 0609'chat' TWO 0603'm' TIMES 0601 0402 | '/5/onResult'; 'AcknowledgeMessage'
6 | COMMAND OPERATION 01 01 0609'chat' TWO 0603'm' TIMES 0601 0402 | '/6/onStatus'; 'Client.NoClient'; 'no such client'
",
};

/// The link is read to its end, the desk tells this, and so many messages were handed out.
fn is_closed(rt: &impl Abort, came: Came, calls: u64, published: u64, delivered: u64) {
    let closed = Closed {
        calls,
        published,
        delivered,
        queued: 0,
    };
    holds(rt, came.end == LinkEnd::Closed, "the end");
    holds(rt, came.closed == closed, "what the desk tells");
    holds(rt, came.calls == calls, "how many calls were counted");
}

#[test]
fn idle_clients_end(rt: HostRuntime) {
    let ways = Ways {
        moments: &[
            0, 0, 0, 0, 1_000, 1_000, 600_000, 600_000, 600_000, 600_000, 599_000, 599_000,
            1_200_000, 1_200_000,
        ],
        ..PLAINLY
    };
    let mut written = Vec::new(rt.alloc());
    let came = answers(&rt, rt.alloc(), IDLE, ways, &mut written);
    is_closed(&rt, came, 7, 1, 0);
    holds(&rt, count_of(&written, b"AsyncMessage") == 0, "messages");
}

/// Numbered polls. One that is asked twice is answered the same twice, and counted once.
static NUMBERED: Table = Table {
    rows: 10,
    fields: 3,
    text: r"
0 | COMMAND OPERATION 01 01 0609'chat' NEW 0603'm' TIMES 0601 0405 | '/0/onResult'
1 | COMMAND OPERATION 01 01 0609'chat' ONE 0603'm' TIMES 0601 0400 | '/1/onResult'
2 | ASYNC 0603'a' 01 0609'chat' ONE 0603'm' TIMES 0601 | '/2/onResult'
3 | COMMAND OPERATION 01 01 0609'chat' 0A0B01 09'DSId' 0603'1' 0F'AMFPoll' 0603'1' 01 0603'm' TIMES 0601 0402 | '/3/onResult'; 0603'a'
4 | ASYNC 0603'b' 01 0609'chat' ONE 0603'm' TIMES 0601 | '/4/onResult'
5 | COMMAND OPERATION 01 01 0609'chat' 0A0B01 09'DSId' 0603'1' 0F'AMFPoll' 0603'1' 01 0603'm' TIMES 0601 0402 | '/5/onResult'; 0603'a'
6 | COMMAND OPERATION 01 01 0609'chat' 0A0B01 09'DSId' 0603'1' 0F'AMFPoll' 0603'2' 01 0603'm' TIMES 0601 0402 | '/6/onResult'; 0603'b'
7 | COMMAND OPERATION 01 01 0609'chat' 0A0B01 09'DSId' 0603'1' 0F'AMFPoll' 0603'1' 01 0603'm' TIMES 0601 0402 | '/7/onStatus'; 'Client.BadNumber'
8 | COMMAND OPERATION 01 01 0609'chat' 0A0B01 09'DSId' 0603'1' 0F'AMFPoll' 0603'0' 01 0603'm' TIMES 0601 0402 | '/8/onStatus'; 'bad poll number'
9 | COMMAND OPERATION 01 01 0609'chat' ONE 0603'm' TIMES 0601 0402 | '/9/onResult'; 'AcknowledgeMessage'
",
};

#[test]
fn numbered_polls(rt: HostRuntime) {
    let mut written = Vec::new(rt.alloc());
    let came = answers(&rt, rt.alloc(), NUMBERED, PLAINLY, &mut written);
    is_closed(&rt, came, 10, 2, 2);
    holds(&rt, count_of(&written, b"AsyncMessage") == 3, "messages");
}

/// Two calls, of which the second is one too many for the pass: it is counted, and has no answer.
static TWO_CALLS: Table = Table {
    rows: 2,
    fields: 3,
    text: r"
0 | COMMAND OPERATION 01 01 0609'chat' NEW 0603'm' TIMES 0601 0405 | '/0/onResult'
1 | COMMAND OPERATION 01 01 0609'chat' ONE 0603'm' TIMES 0601 0400 |
",
};

#[test]
fn one_call_too_many(rt: HostRuntime) {
    let mut written = Vec::new(rt.alloc());
    let ways = Ways {
        share: 1,
        ..PLAINLY
    };
    let came = answers(&rt, rt.alloc(), TWO_CALLS, ways, &mut written);
    holds(&rt, came.end == LinkEnd::Spent, "the end");
    holds(&rt, came.calls == 2, "how many calls were counted");
    holds(&rt, came.closed.calls == 1, "how many were made");
    holds(&rt, count_of(&written, b"HTTP/1.1") == 1, "one answer");
}

/// What a packet with so many pings of new clients has.
fn put_pings(rt: &impl Abort, alloc: Global, count: u16, packet: &mut Vec<u8>) {
    put(rt, packet, &[b"\0\x03\0\0", &count.to_be_bytes()]);
    let mut message = Vec::new(alloc);
    let words =
        "0004'null' 0002'/1' FFFFFFFF 0A 00000001 11 COMMAND OPERATION 01 01 0601 NEW 0603'm' TIMES 0601 0405";
    put_words(rt, alloc, words, &mut message);
    for _ in 0..count {
        put(rt, packet, &[&message]);
    }
}

/// The pieces of the answer to the 1,024th ping and to the one behind it.
static LAST: Table = Table {
    rows: 1,
    fields: 3,
    text: r"
 | | 06 09 '1024'; '/1/onStatus'; 'Server.Full'; 'too many clients'
",
};

/// The 1,025th client is one too many.
#[test]
fn too_many_clients(rt: HostRuntime) {
    let mut packet = Vec::new(rt.alloc());
    put_pings(&rt, rt.alloc(), 1_025, &mut packet);
    let asked = request(&rt, rt.alloc(), &packet);
    let mut written = Vec::new(rt.alloc());
    let came = answer_of(&rt, rt.alloc(), &asked, PLAINLY, &mut written);
    holds(&rt, came.end == LinkEnd::Closed, "the end");
    holds(&rt, came.closed.calls == 1_025, "calls");
    holds(&rt, came.calls == 1_025, "counted calls");
    holds(&rt, count_of(&written, b"/1/onResult") == 1_024, "results");
    holds(&rt, count_of(&written, b"/1/onStatus") == 1, "faults");
    for row in LAST.rows(rt.alloc()).expect(&rt, "rows").iter() {
        behind_all(&rt, rt.alloc(), *row, &written);
    }
}
