ghost use Rattle.std.specs.Prelude.{◌≡◌};
ghost use Rattle.amf_http.specs.Response.{is_status};

use crate::checks::{field, holds, holds_of, number};
use crate::fields::{pieces, text_of};
use crate::http_firsts::{
    First, WHOLE, Ways, expect_first, expect_truncated, link_of, next_on, wanted,
};
use amf_http::{AnswerEnd, HttpBuffer, HttpEnd, next_request, write_response};
use amf_io::MemoryLink;
use amf_test_rows::{Row, Table};
use std::alloc::Global;
use std::process::Abort;

/// The head of a call of `echo.echo` with the text `hi`.
const ECHO_HEAD: &[u8] =
    b"POST /amf HTTP/1.1\r\nHost: h\r\nContent-Type: application/x-amf\r\nContent-Length: 35\r\n\r\n";

/// Its body, and its first answer.
static ECHO: Table = Table {
    rows: 1,
    fields: 2,
    text: r"
0000 0000 0001 0009 'echo.echo' 0002 '/1' 0000000A 0A 00000001 02 0002 'hi' | taken 35
",
};

const GOOD: &[u8] =
    b"POST /amf HTTP/1.1\r\nHost: h\r\nContent-Type: application/x-amf\r\nContent-Length: 2\r\n\r\n";

/// Whether the next request has this body.
fn has_body(alloc: Global, link: &mut MemoryLink, buffer: &mut HttpBuffer, body: &[u8]) -> bool {
    match next_request(alloc, link, buffer) {
        Ok(Some(request)) => request.body.as_slice() == body,
        _ => false,
    }
}

/// Two bodies come, and then the end.
fn expect_two(
    rt: &impl Abort,
    row: Row<'_>,
    alloc: Global,
    bytes: &[u8],
    bodies: [&[u8]; 2],
    ways: Ways,
) {
    let mut link = link_of(rt, alloc, bytes, ways);
    let mut buffer = HttpBuffer::new(alloc).expect(rt, "a buffer");
    for body in bodies {
        holds_of(
            rt,
            row,
            ways.cut,
            has_body(alloc, &mut link, &mut buffer, body),
        );
    }
    let end = next_on(alloc, &mut link, &mut buffer);
    holds_of(rt, row, ways.cut, end == Ok(None));
}

/// Two bodies come, and then the end: a byte at a time, and in two pieces that meet at each place.
fn expect_two_in_pieces(
    rt: &impl Abort,
    row: Row<'_>,
    alloc: Global,
    bytes: &[u8],
    bodies: [&[u8]; 2],
) {
    let by_bytes = Ways { most: 1, ..WHOLE };
    expect_two(rt, row, alloc, bytes, bodies, by_bytes);
    for cut in 0..bytes.len() {
        let ways = Ways { cut, ..WHOLE };
        expect_two(rt, row, alloc, bytes, bodies, ways);
    }
}

fn ask_two(rt: &impl Abort, alloc: Global, row: Row<'_>) {
    let body = row.bytes(alloc, 0).expect(rt, "bytes");
    let mut bytes = ECHO_HEAD.to_vec(alloc).expect(rt, "memory");
    bytes.extend_from_slice(&body).expect(rt, "memory");
    expect_first(rt, row, alloc, &bytes, wanted(rt, row, 1));
    expect_truncated(rt, row, alloc, &bytes);
    put_good(rt, &mut bytes, b"ho");
    expect_two_in_pieces(rt, row, alloc, &bytes, [&body, b"ho"]);
}

#[test]
fn two_requests_on_one_link(rt: HostRuntime) {
    for row in ECHO.rows(rt.alloc()).expect(&rt, "rows").iter() {
        ask_two(&rt, rt.alloc(), *row);
    }
}

/// How many requests are cut from bytes before something else is answered, and what that is.
fn requests_before(rt: &impl Abort, alloc: Global, bytes: &[u8], ways: Ways) -> (usize, First) {
    let mut link = link_of(rt, alloc, bytes, ways);
    let mut buffer = HttpBuffer::new(alloc).expect(rt, "a buffer");
    count_requests(alloc, &mut link, &mut buffer, bytes.len())
}

/// How many requests come, at most so many, and then what.
fn count_requests(
    alloc: Global,
    link: &mut MemoryLink,
    buffer: &mut HttpBuffer,
    most: usize,
) -> (usize, First) {
    for count in 0..most {
        let next = next_on(alloc, link, buffer);
        if !matches!(next, Ok(Some(_))) {
            return (count, next);
        }
    }
    (most, Ok(None))
}

/// Appends a request with this body of two bytes.
fn put_good(rt: &impl Abort, out: &mut Vec<u8>, body: &[u8]) {
    out.extend_from_slice(GOOD).expect(rt, "memory");
    out.extend_from_slice(body).expect(rt, "memory");
}

/// Two requests, one behind the other.
fn two_requests(rt: &impl Abort, alloc: Global) -> Vec<u8> {
    let mut bytes = Vec::new(alloc);
    put_good(rt, &mut bytes, b"hi");
    put_good(rt, &mut bytes, b"hi");
    bytes
}

/// Where the read with this number fails of two requests that come a byte at a time.
fn expect_fault(rt: &impl Abort, alloc: Global, bytes: &[u8], failing: usize) {
    let ways = Ways {
        most: 1,
        read: failing as u64,
        ..WHOLE
    };
    // The second request is whole with the last byte, so the read behind it finds the end.
    let whole = if failing < bytes.len() / 2 { 0 } else { 1 };
    let found = requests_before(rt, alloc, bytes, ways);
    let right = found == (whole, Err(HttpEnd::ReadFault));
    holds(rt, right, "a failed read");
}

#[test]
fn a_failed_read_decides_nothing(rt: HostRuntime) {
    let bytes = two_requests(&rt, rt.alloc());
    for failing in 0..bytes.len() {
        expect_fault(&rt, rt.alloc(), &bytes, failing);
    }
}

/// In which pieces two requests of 85 bytes come, which read fails, how many requests come before something else, and what
/// that is.
static FAILED_READS: Table = Table {
    rows: 4,
    fields: 4,
    text: r"
all    | 0 | 0 | fault
all    | 1 | 2 | fault
all    | 2 | 2 | end
all@85 | 1 | 1 | fault
",
};

fn ask_failed_read(rt: &impl Abort, alloc: Global, row: Row<'_>, bytes: &[u8]) {
    let (most, cut) = pieces(rt, field(rt, row, 0));
    let read = u64::from(number(rt, row, 1));
    let ways = Ways {
        most,
        cut,
        read,
        ..WHOLE
    };
    let want = (number(rt, row, 2) as usize, wanted(rt, row, 3));
    holds_of(
        rt,
        row,
        cut,
        requests_before(rt, alloc, bytes, ways) == want,
    );
}

#[test]
fn a_failed_read_of_long_pieces(rt: HostRuntime) {
    let bytes = two_requests(&rt, rt.alloc());
    for row in FAILED_READS.rows(rt.alloc()).expect(&rt, "rows").iter() {
        ask_failed_read(&rt, rt.alloc(), *row, &bytes);
    }
    let ways = Ways { read: 1, ..WHOLE };
    let found = requests_before(&rt, rt.alloc(), b"P", ways);
    let right = found == (0, Err(HttpEnd::ReadFault));
    holds(&rt, right, "a failed read behind one byte");
}

/// Whether this status is written.
fn is_written(status: u16) -> bool
    ensures { result ≡ is_status status }
{
    matches!(
        status,
        200 | 400 | 404 | 405 | 411 | 413 | 415 | 417 | 431 | 501
    )
}

/// This is written of a response with the body `hi`, 16 bytes at a time, where the write with this number fails, and it ends
/// so.
fn expect_written(
    rt: &impl Abort,
    row: Row<'_>,
    alloc: Global,
    write: u64,
    want: &[u8],
    end: Result<(), AnswerEnd>,
) {
    let (status, close) = response_of(rt, row);
    let mut link = link_of(rt, alloc, b"", Ways { write, ..WHOLE });
    assert!(rt; is_written(status));
    let answer = write_response(alloc, &mut link, status, b"hi", close);
    holds_of(rt, row, want.len(), answer == end);
    holds_of(rt, row, want.len(), link.sink.as_bytes() == want);
}

/// A status, whether the link is to be closed, and what is written.
static RESPONSES: Table = Table {
    rows: 11,
    fields: 3,
    text: r"
200 | no  | HTTP/1.1 200 OK\r\nContent-Type: application/x-amf\r\nContent-Length: 2\r\n\r\nhi
200 | yes | HTTP/1.1 200 OK\r\nContent-Type: application/x-amf\r\nContent-Length: 2\r\nConnection: close\r\n\r\nhi
400 | no  | HTTP/1.1 400 Bad Request\r\nContent-Length: 0\r\nConnection: close\r\n\r\n
404 | no  | HTTP/1.1 404 Not Found\r\nContent-Length: 0\r\nConnection: close\r\n\r\n
405 | yes | HTTP/1.1 405 Method Not Allowed\r\nAllow: POST\r\nContent-Length: 0\r\nConnection: close\r\n\r\n
411 | no  | HTTP/1.1 411 Length Required\r\nContent-Length: 0\r\nConnection: close\r\n\r\n
413 | no  | HTTP/1.1 413 Content Too Large\r\nContent-Length: 0\r\nConnection: close\r\n\r\n
415 | no  | HTTP/1.1 415 Unsupported Media Type\r\nContent-Length: 0\r\nConnection: close\r\n\r\n
417 | no  | HTTP/1.1 417 Expectation Failed\r\nContent-Length: 0\r\nConnection: close\r\n\r\n
431 | no  | HTTP/1.1 431 Request Header Fields Too Large\r\nContent-Length: 0\r\nConnection: close\r\n\r\n
501 | no  | HTTP/1.1 501 Not Implemented\r\nContent-Length: 0\r\nConnection: close\r\n\r\n
",
};

fn response_of(rt: &impl Abort, row: Row<'_>) -> (u16, bool) {
    let status = u16::try_from(number(rt, row, 0)).expect(rt, "a status");
    match field(rt, row, 1) {
        "yes" => (status, true),
        "no" => (status, false),
        _ => panic!(rt; "no response"),
    }
}

/// What is written of a response, also where a write fails.
fn ask_response(rt: &impl Abort, alloc: Global, row: Row<'_>) {
    let want = text_of(rt, alloc, row, 2);
    expect_written(rt, row, alloc, u64::MAX, &want, Ok(()));
    // There is a write for each 16 bytes, and then the flush.
    for failing in 0..=want.len().div_ceil(16) {
        let front = &want[..want.len().min(failing.saturating_mul(16))];
        let end = Err(AnswerEnd::WriteFault);
        expect_written(rt, row, alloc, failing as u64, front, end);
    }
}

#[test]
fn responses_and_fronts_of_them(rt: HostRuntime) {
    for row in RESPONSES.rows(rt.alloc()).expect(&rt, "rows").iter() {
        ask_response(&rt, rt.alloc(), *row);
    }
}
