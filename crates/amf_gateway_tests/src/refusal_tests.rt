use crate::answered::{NO_CALLS, PLAINLY, Want, is_answered};
use crate::checks::{bytes_in, field, number};
use crate::requests::{put, request};
use amf_gateway::LinkEnd;
use amf_test_rows::{Row, Table};
use std::alloc::Global;
use std::process::Abort;
use std::sync::Wait;

/// The lines of a head, each of which ends in `;`, its status, and the lines of the answer but the last two, behind which the link ends.
static HEADS: Table = Table {
    rows: 9,
    fields: 3,
    text: r"
POST /amf HTTP/1.1;Host: h;Content-Type: application/x-amf;X: y; | 411 | HTTP/1.1 411 Length Required;
POST /amf HTTP/1.1;Host: h;Content-Type: application/x-amf;Content-Encoding: gzip; | 415 | HTTP/1.1 415 Unsupported Media Type;
POST /x HTTP/1.1;Host: h;Content-Type: application/x-amf;Content-Length: 0; | 404 | HTTP/1.1 404 Not Found;
POST /amf HTTP/1.1;Host: h;Content-Type: application/x-amf;Transfer-Encoding: chunked; | 501 | HTTP/1.1 501 Not Implemented;
POST /amf HTTP/1.1;Host: h;Content-Type: application/x-amf;Content-Length: 1048577; | 413 | HTTP/1.1 413 Content Too Large;
POST /amf HTTP/1.1;Content-Type: application/x-amf;Content-Length: 0;X: y; | 400 | HTTP/1.1 400 Bad Request;
POST /amf HTTP/1.1;Host: h;Content-Type: application/x-amf;Expect: 100-continue; | 417 | HTTP/1.1 417 Expectation Failed;
POST /amf HTTP/1.1;Host: h;Content-Type: application/x-amf;Content-Length: 0; | 400 | HTTP/1.1 400 Bad Request;
GET /amf HTTP/1.1;Host: h;Content-Type: application/x-amf;Content-Length: 0; | 405 | HTTP/1.1 405 Method Not Allowed;Allow: POST;
",
};

/// Lines each of which ends in `;`, then these bytes.
fn lines(rt: &impl Abort, alloc: Global, text: &str, rest: &[u8]) -> Vec<u8> {
    let mut bytes = Vec::new(alloc);
    for byte in text.bytes() {
        if byte == b';' {
            put(rt, &mut bytes, &[b"\r\n"]);
        } else {
            bytes.push(byte).expect(rt, "memory");
        }
    }
    put(rt, &mut bytes, &[rest]);
    bytes
}

/// Bytes are answered with these lines and this status, and behind the answer the link ends. No call is made.
fn is_refused<R: Wait + Abort>(
    rt: &R,
    alloc: Global,
    bytes: &[u8],
    at: usize,
    status: u16,
    text: &str,
) {
    let rest = b"Content-Length: 0\r\nConnection: close\r\n\r\n";
    let wanted = lines(rt, alloc, text, rest);
    let want = Want {
        at,
        end: LinkEnd::Refused(status),
        closed: NO_CALLS,
        written: &wanted,
    };
    is_answered(rt, alloc, bytes, PLAINLY, want);
}

fn ask_head<R: Wait + Abort>(rt: &R, alloc: Global, row: Row<'_>) {
    let asked = lines(rt, alloc, field(rt, row, 0), b"\r\n");
    let status = u16::try_from(number(rt, row, 1)).expect(rt, "a status");
    let at = row.line() as usize;
    is_refused(rt, alloc, &asked, at, status, field(rt, row, 2));
}

#[test]
fn heads_that_are_refused(rt: HostRuntime) {
    for row in HEADS.rows(rt.alloc()).expect(&rt, "rows").iter() {
        ask_head(&rt, rt.alloc(), *row);
    }
}

/// 8,192 bytes without the end of a head.
#[test]
fn a_head_without_an_end(rt: HostRuntime) {
    let endless = vec![in rt.alloc(); b'A'; 8192].expect(&rt, "memory");
    let text = "HTTP/1.1 431 Request Header Fields Too Large;";
    is_refused(&rt, rt.alloc(), &endless, 0, 431, text);
}

/// Bodies that are no packet.
static BODIES: Table = Table {
    rows: 3,
    fields: 1,
    text: r"
00 02
00 00 FF FF
00 00 00 00 00 00 00
",
};

/// A packet is refused.
fn is_no_packet<R: Wait + Abort>(rt: &R, alloc: Global, packet: &[u8], at: usize) {
    let asked = request(rt, alloc, packet);
    is_refused(rt, alloc, &asked, at, 400, "HTTP/1.1 400 Bad Request;");
}

#[test]
fn bodies_that_are_refused(rt: HostRuntime) {
    for row in BODIES.rows(rt.alloc()).expect(&rt, "rows").iter() {
        let packet = bytes_in(&rt, rt.alloc(), *row, 0);
        is_no_packet(&rt, rt.alloc(), &packet, row.line() as usize);
    }
}

/// A call whose answer would have too long a name.
#[test]
fn too_long_a_response_is_refused(rt: HostRuntime) {
    let long = vec![in rt.alloc(); b'/'; 65_527].expect(&rt, "memory");
    let mut packet = Vec::new(rt.alloc());
    let front = b"\0\0\0\0\0\x01\0\x09echo.echo\xFF\xF7";
    let rest = b"\0\0\0\x0A\x0A\0\0\0\x01\x02\0\x02hi";
    put(&rt, &mut packet, &[front, &long, rest]);
    is_no_packet(&rt, rt.alloc(), &packet, 0);
}
