use crate::checks::{bytes_in, field, number};
use crate::replies::{
    BY_BYTES, GOOD, NULL, RESULT, WHOLE, Want, Ways, is_read, put_reply, reply_with,
};
use amf_test_rows::{Row, Table};
use std::alloc::Global;
use std::process::Abort;

/// The lines of a head, each of which ends in `;`, before a packet with the result null, and what is read: 0 for that result,
/// or the number of a bad reply. A `#` stands for the packet's length.
static HEADS: Table = Table {
    rows: 34,
    fields: 2,
    text: r"
HTTP/1.1 200 OK;Content-Length: #; | 0
HTTP/1.0 200 OK;Content-Length: #; | 0
HTTP/1.1 200 ;content-LENGTH:#;X: y; | 0
HTTP/1.1 200 OK;Content-Length: 00#;Content-Encoding: Identity; | 0
HTTP/1.1 200 OK;Content-Type: text/html;Connection: close;Content-Length: #; | 0
HTTP/1.1 404 Not Found;Content-Length: #; | 8
HTTP/1.1 500 No;Content-Length: #; | 8
HTTP/1.1 201 Created;Content-Length: #; | 8
HTTP/1.1 204 No Content;Content-Length: #; | 8
HTTP/1.1 500 No;Content-Length: 1; | 8
HTTP/1.1 500 No;Content-Length: 0; | 8
HTTP/1.1 200 OK;Content-Length: 1; | 4
HTTP/1.1 200 OK;Content-Length: 0; | 4
HTTP/1.1 200 OK; | 3
HTTP/1.1 404 Not Found; | 3
HTTP/1.1 100 Continue; | 3
HTTP/1.1 200 OK;Content-Length: #;Content-Length: #; | 3
HTTP/1.1 200 OK;Content-Length: #, #; | 3
HTTP/1.1 200 OK;Content-Length: +#; | 3
HTTP/1.1 200 OK;Content-Length: -1; | 3
HTTP/1.1 200 OK;Content-Length:; | 3
HTTP/1.1 200 OK;Content-Length: 16777217; | 3
HTTP/1.1 200 OK;Content-Length: 99999999999999999999999; | 3
HTTP/1.1 200 OK;Transfer-Encoding: chunked; | 2
HTTP/1.1 200 OK;Transfer-Encoding: identity;Content-Length: #; | 2
HTTP/1.1 200 OK;Content-Encoding: gzip;Content-Length: #; | 2
HTTP/1.1 500 No;Content-Encoding: gzip;Content-Length: 1, 1; | 2
HTTP/2 200 OK;Content-Length: #; | 1
HTTP/1.1 20 OK;Content-Length: #; | 1
ICY 200 OK;Content-Length: #; | 1
HTTP/1.1 200 OK;Content Length: #;Transfer-Encoding: chunked; | 1
HTTP/1.1 200 OK;Content-Length: 16777216; | 7
HTTP/1.1 500 No;Content-Length: 1000; | 7
HTTP/1.1 200 OK;Content-Length: 1#; | 7
",
};

/// Whole bodies, each a packet or none, and the number of the bad reply.
static BODIES: Table = Table {
    rows: 8,
    fields: 2,
    text: r"
00 03 00 00 00 00 | 5
00 03 00 00 00 02 00 0B '/1/onResult' 00 00 00 00 00 00 05 00 0B '/1/onResult' 00 00 00 00 00 00 05 | 5
00 03 00 00 00 02 00 0B '/1/onResult' 00 00 00 00 00 00 05 00 0B '/1/onStatus' 00 00 00 00 00 00 05 | 5
00 02 00 00 00 00 | 4
00 03 00 00 00 01 00 0B '/1/onResult' 00 00 00 00 00 00 | 4
00 03 00 00 00 01 00 0B '/1/onResult' 00 00 00 00 00 00 05 00 | 4
00 03 00 00 00 01 00 0B '/1/onResult' 00 00 00 00 00 00 0E | 4
'<html>no</html>' | 4
",
};

/// The target of the one message of a packet, its value, what is read, and the canonical bytes of the result, or the code of
/// the fault, `/` and its text.
static MESSAGES: Table = Table {
    rows: 29,
    fields: 4,
    text: r"
'/1/onResult' | 11 05 40 14 00 00 00 00 00 00 | 0 | 05 40 14 00 00 00 00 00 00
'/1/onResult' | 00 40 14 00 00 00 00 00 00 | 0 | 05 40 14 00 00 00 00 00 00
'/1/onResult' | 05 | 0 | 01
'/1/onResult' | 0A 00 00 00 01 11 04 05 | 0 | 04 05
'/1/onResult' | 0A 00 00 00 01 05 | 0 | 09 03 01 01
'/1/onResult' | 11 09 03 01 09 00 | 0 | 09 03 01 09 00
'/1/onResult' | 03 00 01 'a' 02 00 01 'b' 00 00 09 | 0 | 0A 0B 01 03 'a' 06 03 'b' 01
'/1/onResult' | 03 00 00 05 00 00 09 | 6 |
'/1/onResult' | 0A 00 00 00 01 03 00 00 05 00 00 09 | 6 |
'/1/onresult' | 05 | 5 |
'/1' | 05 | 5 |
'/1/onResult/' | 05 | 5 |
'/2/onResult' | 05 | 5 |
'/2/onStatus' | 05 | 5 |
'null' | 03 00 00 05 00 00 09 | 5 |
'/1/onStatus' | 03 00 04 'code' 02 00 01 'a' 00 0B 'description' 02 00 01 'b' 00 00 09 | 20 | 'a/b'
'/1/onStatus' | 11 0A 0B 01 09 'code' 06 03 'a' 17 'description' 06 03 'b' 01 | 20 | 'a/b'
'/1/onStatus' | 11 0A 23 01 09 'code' 17 'description' 06 03 'a' 06 03 'b' | 20 | 'a/b'
'/1/onStatus' | 03 00 04 'code' 02 00 01 'a' 00 0B 'description' 02 00 01 'b' 00 04 'code' 02 00 01 'c' 00 00 09 | 20 | 'c/b'
'/1/onStatus' | 03 00 00 05 00 04 'code' 02 00 00 00 0B 'description' 02 00 00 00 00 09 | 20 | '/'
'/1/onStatus' | 11 0A 0B 49 'flex.messaging.messages.ErrorMessage' 13 'faultCode' 06 03 'a' 17 'faultString' 06 03 'b' 01 | 20 | 'a/b'
'/1/onStatus' | 11 0A 0B 49 'flex.messaging.messages.ErrorMessage' 09 'code' 06 03 'a' 17 'description' 06 03 'b' 01 | 6 |
'/1/onStatus' | 11 0A 0B 01 13 'faultCode' 06 03 'a' 17 'faultString' 06 03 'b' 01 | 6 |
'/1/onStatus' | 11 09 01 09 'code' 06 03 'a' 17 'description' 06 03 'b' 01 | 6 |
'/1/onStatus' | 03 00 04 'code' 00 3F F0 00 00 00 00 00 00 00 0B 'description' 02 00 01 'b' 00 00 09 | 6 |
'/1/onStatus' | 03 00 04 'code' 02 00 01 'a' 00 00 09 | 6 |
'/1/onStatus' | 03 00 0B 'description' 02 00 01 'b' 00 00 09 | 6 |
'/1/onStatus' | 02 00 01 'a' | 6 |
'/1/onStatus' | 05 | 6 |
",
};

/// What a row says that a reply is read as.
fn wanted<'a>(rt: &impl Abort, row: Row<'_>, place: usize, bytes: &'a [u8]) -> Want<'a> {
    Want {
        at: row.line() as usize,
        what: number(rt, row, place),
        bytes,
    }
}

/// Bytes are read as this, whole and a byte at a time.
fn ask(rt: &impl Abort, alloc: Global, bytes: &[u8], want: Want<'_>) {
    is_read(rt, alloc, bytes, WHOLE, want);
    is_read(rt, alloc, bytes, BY_BYTES, want);
}

/// Bytes are read as this in two pieces that meet at any place.
fn ask_in_two(rt: &impl Abort, alloc: Global, bytes: &[u8], want: Want<'_>) {
    for cut in 0..bytes.len() {
        is_read(rt, alloc, bytes, Ways { cut, ..WHOLE }, want);
    }
}

fn ask_head(rt: &impl Abort, alloc: Global, row: Row<'_>) {
    let bytes = reply_with(rt, alloc, field(rt, row, 0), b"/1/onResult", b"\x11\x01");
    let mut want = wanted(rt, row, 1, b"");
    if want.what == RESULT {
        want.bytes = NULL;
    }
    ask(rt, alloc, &bytes, want);
}

#[test]
fn heads(rt: HostRuntime) {
    for row in HEADS.rows(rt.alloc()).expect(&rt, "rows").iter() {
        ask_head(&rt, rt.alloc(), *row);
    }
}

fn ask_body(rt: &impl Abort, alloc: Global, row: Row<'_>) {
    let mut bytes = Vec::new(alloc);
    put_reply(rt, &mut bytes, GOOD, &bytes_in(rt, alloc, row, 0));
    let want = wanted(rt, row, 1, b"");
    ask(rt, alloc, &bytes, want);
    ask_in_two(rt, alloc, &bytes, want);
}

#[test]
fn bodies(rt: HostRuntime) {
    for row in BODIES.rows(rt.alloc()).expect(&rt, "rows").iter() {
        ask_body(&rt, rt.alloc(), *row);
    }
}

/// A reply whose packet has one message.
fn answer(rt: &impl Abort, alloc: Global, row: Row<'_>) -> Vec<u8> {
    let target = bytes_in(rt, alloc, row, 0);
    let value = bytes_in(rt, alloc, row, 1);
    reply_with(rt, alloc, GOOD, &target, &value)
}

fn ask_message(rt: &impl Abort, alloc: Global, row: Row<'_>) {
    let bytes = answer(rt, alloc, row);
    let canonical = bytes_in(rt, alloc, row, 3);
    ask(rt, alloc, &bytes, wanted(rt, row, 2, &canonical));
}

#[test]
fn messages(rt: HostRuntime) {
    for row in MESSAGES.rows(rt.alloc()).expect(&rt, "rows").iter() {
        ask_message(&rt, rt.alloc(), *row);
    }
}
