ghost use Rattle.std.specs.Prelude.{◌≡◌, false};

use crate::cases::{Case, How, check_rows, field};
use crate::dials::{GOOD, Links, dial_of_three};
use crate::runs::{BY_BYTES, Told, WHOLE, Ways, check_over};
use amf_io::{MemoryDial, MemoryLink};
use amf_test_rows::{Row, Table, push_part};
use std::alloc::Global;
use std::process::Abort;
use std::random::RandomSource;
use std::sync::Wait;
use std::thread::Threads;

/// Words, no input, the status, the output and the line; the answers that each of three links gives, by their rows in `ANSWERS`, and the
/// requests that it takes, by their rows in `REQUESTS`; how many dials there are, and which of them fail, from 0.
static LISTENS: Table = Table {
    rows: 14,
    fields: 13,
    text: r#"
listen --port 1 --destination chat --polls 1 | | 0 | 0605'hi' | | 0 1 | 2 3 | | 0 1 2 | 2 3 | | 2 |
listen --port 1 --destination chat --polls 1 | | 9 | | 'amf: bad reply 7' 0A | 0 1 | | | 0 1 2 | 2 | 2 | 3 |
# Over one link, by three, and what a link has given stays given where the next poll is lost.
listen --polls=2 --destination=chat --port=1 | | 0 | 0605'hi' 0603'a' | | 0 1 2 5 3 | | | 0 1 2 4 3 | | | 1 |
listen --port 1 --destination chat --polls 2 | | 0 | 0605'hi' 0603'a' | | 0 1 | 2 5 | 3 | 0 1 2 | 2 4 3 | 3 | 3 |
listen --port 1 --destination chat --polls 2 | | 9 | 0605'hi' | 'amf: bad reply 7' 0A | 0 1 2 | | | 0 1 2 4 | 4 | 4 | 3 |
listen --port 1 --destination chat --polls 1 | | 0 | | | 0 1 4 | 3 | | 0 1 2 3 | 3 | | 2 |
# The ping and the subscribe are not sent again.
listen --port 1 --destination chat --polls 1 | | 9 | | 'amf: bad reply 7' 0A | | | | 0 | | | 1 |
listen --port 1 --destination chat --polls 1 | | 9 | | 'amf: bad reply 7' 0A | 0 | | | 0 1 | | | 1 |
listen --port 1 --destination chat --polls 1 | | 10 | | 'amf: link fault' 0A | 0 1 | | | | | | 1 | 0
# Dials that fail are counted, and the last failure decides.
listen --port 1 --destination chat --polls 1 | | 10 | | 'amf: link fault' 0A | 0 1 | 2 3 | | 0 1 2 | | | 3 | 1 2
listen --port 1 --destination chat --polls 1 | | 9 | | 'amf: bad reply 7' 0A | 0 1 | | 2 3 | 0 1 2 | 2 | | 3 | 1
# A fault, another identifier and an answer without a DSId end it at once; what came before stays.
listen --port 1 --destination chat --polls 2 | | 8 | 0605'hi' | 'amf: fault "c" "t"' 0A | 0 1 2 6 | | | 0 1 2 4 | | | 1 |
listen --port 1 --destination chat --polls 2 | | 9 | 0605'hi' | 'amf: bad reply 6' 0A | 0 1 2 2 | | | 0 1 2 4 | | | 1 |
listen --port 1 --destination chat --polls 1 | | 9 | | 'amf: bad reply 6' 0A | 7 | | | 0 | | | 1 |
"#,
};

/// The requests: a ping, a subscribe, a poll, a disconnect, and the next poll.
static REQUESTS: Table = Table {
    rows: 5,
    fields: 1,
    text: "
'POST /amf HTTP/1.1' 0D0A 'Host: 127.0.0.1:1' 0D0A 'Content-Type: application/x-amf' 0D0A 'Content-Length: 184' 0D0A0D0A 0003 0000 0001 0004'null' 0002'/1' FFFFFFFF 0A 00000001 11 0A 8113 4D'flex.messaging.messages.CommandMessage' 09'body' 11'clientId' 17'destination' 0F'headers' 13'messageId' 15'timeToLive' 13'timestamp' 1B'correlationId' 13'operation' 01 01 01 0A0B01 09'DSId' 0607'nil' 01 0603'p' 0400 0400 01 0405
'POST /amf HTTP/1.1' 0D0A 'Host: 127.0.0.1:1' 0D0A 'Content-Type: application/x-amf' 0D0A 'Content-Length: 187' 0D0A0D0A 0003 0000 0001 0004'null' 0002'/1' FFFFFFFF 0A 00000001 11 0A 8113 4D'flex.messaging.messages.CommandMessage' 09'body' 11'clientId' 17'destination' 0F'headers' 13'messageId' 15'timeToLive' 13'timestamp' 1B'correlationId' 13'operation' 01 01 0609'chat' 0A0B01 09'DSId' 0603'7' 01 0603's' 0400 0400 01 0400
'POST /amf HTTP/1.1' 0D0A 'Host: 127.0.0.1:1' 0D0A 'Content-Type: application/x-amf' 0D0A 'Content-Length: 192' 0D0A0D0A 0003 0000 0001 0004'null' 0002'/1' FFFFFFFF 0A 00000001 11 0A 8113 4D'flex.messaging.messages.CommandMessage' 09'body' 11'clientId' 17'destination' 0F'headers' 13'messageId' 15'timeToLive' 13'timestamp' 1B'correlationId' 13'operation' 01 01 01 0A0B01 0F'AMFPoll' 0603'1' 09'DSId' 0603'7' 01 0616 0400 0400 01 0402
'POST /amf HTTP/1.1' 0D0A 'Host: 127.0.0.1:1' 0D0A 'Content-Type: application/x-amf' 0D0A 'Content-Length: 182' 0D0A0D0A 0003 0000 0001 0004'null' 0002'/1' FFFFFFFF 0A 00000001 11 0A 8113 4D'flex.messaging.messages.CommandMessage' 09'body' 11'clientId' 17'destination' 0F'headers' 13'messageId' 15'timeToLive' 13'timestamp' 1B'correlationId' 13'operation' 01 01 01 0A0B01 09'DSId' 0603'7' 01 0603'd' 0400 0400 01 040C
'POST /amf HTTP/1.1' 0D0A 'Host: 127.0.0.1:1' 0D0A 'Content-Type: application/x-amf' 0D0A 'Content-Length: 192' 0D0A0D0A 0003 0000 0001 0004'null' 0002'/1' FFFFFFFF 0A 00000001 11 0A 8113 4D'flex.messaging.messages.CommandMessage' 09'body' 11'clientId' 17'destination' 0F'headers' 13'messageId' 15'timeToLive' 13'timestamp' 1B'correlationId' 13'operation' 01 01 01 0A0B01 0F'AMFPoll' 0603'2' 09'DSId' 0603'7' 01 0616 0400 0400 01 0402
",
};

/// The answers: to a ping, to a subscribe, a batch of one message, to a disconnect, without a message, another batch, a fault, and one to a
/// ping that has no identifier.
static ANSWERS: Table = Table {
    rows: 8,
    fields: 1,
    text: "
'HTTP/1.1 200 OK' 0D0A 'Content-Type: application/x-amf' 0D0A 'Content-Length: 180' 0D0A0D0A 0003 0000 0001 000B'/1/onResult' 0004'null' FFFFFFFF 11 0A 8103 55'flex.messaging.messages.AcknowledgeMessage' 09'body' 11'clientId' 17'destination' 0F'headers' 13'messageId' 15'timeToLive' 13'timestamp' 1B'correlationId' 01 01 01 0A0B01 09'DSId' 0603'7' 01 0603'm' 0400 0400 0603'p'
'HTTP/1.1 200 OK' 0D0A 'Content-Type: application/x-amf' 0D0A 'Content-Length: 176' 0D0A0D0A 0003 0000 0001 000B'/1/onResult' 0004'null' FFFFFFFF 11 0A 8103 55'flex.messaging.messages.AcknowledgeMessage' 09'body' 11'clientId' 17'destination' 0F'headers' 13'messageId' 15'timeToLive' 13'timestamp' 1B'correlationId' 01 0603'1' 0609'chat' 01 0603'm' 0400 0400 0603's'
'HTTP/1.1 200 OK' 0D0A 'Content-Type: application/x-amf' 0D0A 'Content-Length: 240' 0D0A0D0A 0003 0000 0001 000B'/1/onResult' 0004'null' FFFFFFFF 11 0A 8113 4D'flex.messaging.messages.CommandMessage' 09'body' 11'clientId' 17'destination' 0F'headers' 13'messageId' 15'timeToLive' 13'timestamp' 1B'correlationId' 13'operation' 09 03 01 0A 8103 49'flex.messaging.messages.AsyncMessage' 02 04 06 08 0A 0C 0E 10 0605'hi' 01 01 01 01 0400 0400 01 01 01 01 0603'm' 0400 0400 0603'1' 0404
'HTTP/1.1 200 OK' 0D0A 'Content-Type: application/x-amf' 0D0A 'Content-Length: 169' 0D0A0D0A 0003 0000 0001 000B'/1/onResult' 0004'null' FFFFFFFF 11 0A 8103 55'flex.messaging.messages.AcknowledgeMessage' 09'body' 11'clientId' 17'destination' 0F'headers' 13'messageId' 15'timeToLive' 13'timestamp' 1B'correlationId' 01 01 01 01 0603'm' 0400 0400 0603'd'
'HTTP/1.1 200 OK' 0D0A 'Content-Type: application/x-amf' 0D0A 'Content-Length: 169' 0D0A0D0A 0003 0000 0001 000B'/1/onResult' 0004'null' FFFFFFFF 11 0A 8103 55'flex.messaging.messages.AcknowledgeMessage' 09'body' 11'clientId' 17'destination' 0F'headers' 13'messageId' 15'timeToLive' 13'timestamp' 1B'correlationId' 01 01 01 01 0603'm' 0400 0400 0603'1'
'HTTP/1.1 200 OK' 0D0A 'Content-Type: application/x-amf' 0D0A 'Content-Length: 239' 0D0A0D0A 0003 0000 0001 000B'/1/onResult' 0004'null' FFFFFFFF 11 0A 8113 4D'flex.messaging.messages.CommandMessage' 09'body' 11'clientId' 17'destination' 0F'headers' 13'messageId' 15'timeToLive' 13'timestamp' 1B'correlationId' 13'operation' 09 03 01 0A 8103 49'flex.messaging.messages.AsyncMessage' 02 04 06 08 0A 0C 0E 10 0603'a' 01 01 01 01 0400 0400 01 01 01 01 0603'm' 0400 0400 0603'2' 0404
'HTTP/1.1 200 OK' 0D0A 'Content-Type: application/x-amf' 0D0A 'Content-Length: 57' 0D0A0D0A 0003 0000 0001 000B'/1/onStatus' 0004'null' FFFFFFFF 11 0A 0B01 09'code' 0603'c' 17'description' 0603't' 01
'HTTP/1.1 200 OK' 0D0A 'Content-Type: application/x-amf' 0D0A 'Content-Length: 169' 0D0A0D0A 0003 0000 0001 000B'/1/onResult' 0004'null' FFFFFFFF 11 0A 8103 55'flex.messaging.messages.AcknowledgeMessage' 09'body' 11'clientId' 17'destination' 0F'headers' 13'messageId' 15'timeToLive' 13'timestamp' 1B'correlationId' 01 01 01 01 0603'm' 0400 0400 0603'p'
",
};

/// Appends the messages of these rows of a table.
fn put_messages(rt: &impl Abort, alloc: Global, out: &mut Vec<u8>, table: &Table, numbers: &[u64]) {
    let rows = table.rows(alloc).expect(rt, "rows");
    for number in numbers {
        let row = rows.get(*number as usize).expect(rt, "a row");
        push_part(alloc, out, field(rt, *row, 0)).expect(rt, "bytes");
    }
}

/// What a link takes, or what it gives: the messages that a field lists.
fn side_of(rt: &impl Abort, alloc: Global, table: &Table, row: Row<'_>, place: usize) -> Vec<u8> {
    let numbers = row.numbers(alloc, place).expect(rt, "numbers");
    let mut bytes = Vec::new(alloc);
    put_messages(rt, alloc, &mut bytes, table, &numbers);
    bytes
}

/// The dial of a row, which gives three links.
fn dial_for(
    rt: &impl Abort,
    alloc: Global,
    row: Row<'_>,
    links: Links<'_>,
) -> MemoryDial<MemoryLink>
    ensures { result.links.out ≡ false }
{
    let first = side_of(rt, alloc, &ANSWERS, row, 5);
    let second = side_of(rt, alloc, &ANSWERS, row, 6);
    let third = side_of(rt, alloc, &ANSWERS, row, 7);
    dial_of_three(rt, alloc, [&first, &second, &third], links)
}

/// Ends the test where a link has not taken the requests that a field lists, each as often as it says.
fn check_taken(rt: &impl Abort, alloc: Global, row: Row<'_>, place: usize, link: &MemoryLink) {
    let asked = side_of(rt, alloc, &REQUESTS, row, place);
    let is_taken = link.sink.as_bytes() == asked.as_slice();
    let line = row.line();
    assert!(rt; is_taken, "line {line}: the link of field {place}");
}

/// Runs over this dial, of which so many calls fail: it dials port 1 as often as the row says, and has each link back that it gave.
fn check_session<R: RandomSource + Threads + Wait + Abort + Sync>(
    rt: &R,
    alloc: Global,
    row: Row<'_>,
    case: &Case<'_>,
    ways: Ways<'_>,
    dial: &mut MemoryDial<MemoryLink>,
    failing: usize,
)
    requires { dial.old.links.out ≡ false }
{
    let line = row.line();
    let dials = row.number(11).expect(rt, "a count") as usize;
    let ports = [1u16, 1, 1];
    let often = dials.min(3);
    let told = Told {
        ports: &ports[..often],
        faults: failing as u64,
    };
    check_over(rt, alloc, line, case, ways, dial, told);
    let is_back = dial.returned().len() == often - failing.min(often);
    assert!(rt; is_back, "line {line}: the links");
    for (place, link) in dial.returned().iter().enumerate() {
        check_taken(rt, alloc, row, 8 + place, link);
    }
}

/// Runs with streams and links that come and go in these ways.
fn listen_once<R: RandomSource + Threads + Wait + Abort + Sync>(
    rt: &R,
    alloc: Global,
    row: Row<'_>,
    case: &Case<'_>,
    ways: Ways<'_>,
) {
    let dials = row.numbers(alloc, 12).expect(rt, "numbers");
    let links = Links {
        dials: &dials,
        most: ways.most,
        ..GOOD
    };
    let mut dial = dial_for(rt, alloc, row, links);
    check_session(rt, alloc, row, case, ways, &mut dial, dials.len());
}

/// Runs the session of a row all at once, and a byte at a time.
pub(crate) fn check_sessions<R: RandomSource + Threads + Wait + Abort + Sync>(
    rt: &R,
    alloc: Global,
    row: Row<'_>,
    case: &Case<'_>,
) {
    listen_once(rt, alloc, row, case, WHOLE);
    listen_once(rt, alloc, row, case, BY_BYTES);
}

#[test]
fn sessions(rt: HostRuntime) {
    check_rows(&rt, rt.alloc(), &LISTENS, How::Listening);
}

/// Runs the session of a row where this write of the output fails; its bytes go one by one.
fn check_write<R: RandomSource + Threads + Wait + Abort + Sync>(
    rt: &R,
    alloc: Global,
    row: Row<'_>,
    write: u64,
    output: &[u8],
) {
    let case = Case {
        words: field(rt, row, 0),
        more: b"",
        input: b"",
        status: 4,
        output,
        line: b"amf: write fault\n",
    };
    let ways = Ways {
        writes: &[write],
        ..BY_BYTES
    };
    let told = Told {
        ports: &[1, 1],
        faults: 0,
    };
    let mut dial = dial_for(rt, alloc, row, GOOD);
    check_over(rt, alloc, row.line(), &case, ways, &mut dial, told);
}

/// Writes of the output of the first row that fail: the first, the third and the flush.
#[test]
fn output_that_fails(rt: HostRuntime) {
    let alloc = rt.alloc();
    let rows = LISTENS.rows(alloc).expect(&rt, "rows");
    let row = rows.first().expect(&rt, "a row");
    check_write(&rt, alloc, *row, 0, b"");
    check_write(&rt, alloc, *row, 2, b"\x06\x05");
    check_write(&rt, alloc, *row, 4, b"\x06\x05hi");
}
