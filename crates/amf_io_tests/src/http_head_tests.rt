use crate::checks::{field, holds, holds_of, number};
use crate::fields::{put_text, text_of};
use crate::http_firsts::{WHOLE, expect_first, expect_in_pieces, expect_truncated, first, wanted};
use amf_http::HttpEnd;
use amf_test_rows::{Row, Table};
use std::alloc::Global;
use std::process::Abort;

/// Heads without their last line, and what the first answer is where `hi` follows.
static HEADS: Table = Table {
    rows: 25,
    fields: 2,
    text: r"
# Taken.
POST /amf HTTP/1.1\r\nHost: h\r\nContent-Type: application/x-amf\r\nContent-Length: 2\r\n | taken 2
POST /amf HTTP/1.1\r\nHost: h\r\ncontent-encoding: Identity\r\nCONTENT-TYPE:\tApplication/X-AMF ; v=1\r\nContent-Length: 2\r\n | taken 2
POST /amf HTTP/1.0\r\nContent-Type: application/x-amf\r\nContent-Length: 2\r\n | last 2
POST /amf HTTP/1.1\r\nHost: h\r\nConnection: keep-alive , Close\r\nContent-Type: application/x-amf\r\nContent-Length: 2\r\n | last 2
POST /amf HTTP/1.1\r\nHost: h\r\nConnection: closed\r\nContent-Type: application/x-amf\r\nContent-Length: 2\r\n | taken 2

# Refused.
GET /amf HTTP/1.1\r\nHost: h\r\n | refused 405
post /amf HTTP/1.1\r\nHost: h\r\n | refused 405
POST /x HTTP/1.1\r\nHost: h\r\n | refused 404
POST /amf/ HTTP/1.1\r\nHost: h\r\n | refused 404
POST /amf HTTP/1.1\r\n | refused 400
POST /amf HTTP/1.1\r\nHost: h\r\nhost: h\r\n | refused 400
POST /amf HTTP/2.0\r\nHost: h\r\n | refused 400
POST /amf\r\nHost: h\r\n | refused 400
POST /amf HTTP/1.1\r\nHost : h\r\n | refused 400
\r\n | refused 400
\r\nPOST /amf HTTP/1.1\r\nHost: h\r\n | refused 415
POST /amf HTTP/1.1\nHost: h\r\n | refused 415
POST /amf HTTP/1.1\nHost: h\n\r\n | refused 400
POST /amf HTTP/1.1\r\nHost: h\r\nTransfer-Encoding: chunked\r\n | refused 501
POST /amf HTTP/1.1\r\nHost: h\r\nExpect: 100-continue\r\n | refused 417
POST /amf HTTP/1.1\r\nHost: h\r\nContent-Type: text/plain\r\nContent-Length: 2\r\n | refused 415
POST /amf HTTP/1.1\r\nHost: h\r\nContent-Type: application/x-amf\r\nContent-Type: application/x-amf\r\n | refused 415
POST /amf HTTP/1.1\r\nHost: h\r\nContent-Encoding: gzip\r\nContent-Type: application/x-amf\r\n | refused 415
POST /amf HTTP/1.1\r\nHost: h\r\nContent-Type: application/x-amf\r\n | refused 411
POST /amf HTTP/1.1\r\nHost: h\r\nContent-Type: application/x-amf\r\nContent-Length: 2\r\nContent-Length: 2\r\n | refused 400
",
};

/// Appends the last line of a head, and then these bytes.
fn end_head(rt: &impl Abort, out: &mut Vec<u8>, rest: &[u8]) {
    out.extend_from_slice(b"\r\n").expect(rt, "memory");
    out.extend_from_slice(rest).expect(rt, "memory");
}

/// The first answer of a head and the body `hi`, and of each front of the head.
fn ask_head(rt: &impl Abort, alloc: Global, row: Row<'_>) {
    let mut bytes = text_of(rt, alloc, row, 0);
    end_head(rt, &mut bytes, b"");
    expect_truncated(rt, row, alloc, &bytes);
    bytes.extend_from_slice(b"hi").expect(rt, "memory");
    expect_first(rt, row, alloc, &bytes, wanted(rt, row, 1));
}

#[test]
fn heads(rt: HostRuntime) {
    for row in HEADS.rows(rt.alloc()).expect(&rt, "rows").iter() {
        ask_head(&rt, rt.alloc(), *row);
    }
}

/// The parts of a head that nothing refuses, its fields in one order and in the other.
static ORDERS: Table = Table {
    rows: 2,
    fields: 8,
    text: r"
POST\s | /amf\s | HTTP/1.1\r\n | Host: h\r\n | A: coding\r\n | A: expectation\r\n | Content-Type: application/x-amf\r\n | Content-Length: 2\r\n
POST\s | /amf\s | HTTP/1.1\r\n | Content-Length: 2\r\n | Content-Type: application/x-amf\r\n | A: expectation\r\n | A: coding\r\n | Host: h\r\n
",
};

/// A part, what may stand in its place, and the answer to it. A fault before another one decides.
static FAULTS: Table = Table {
    rows: 10,
    fields: 3,
    text: r"
HTTP/1.1\r\n                        | HTTP/3.1\r\n                   | refused 400
Host: h\r\n                         |                                | refused 400
A: coding\r\n                       | Transfer-Encoding: chunked\r\n | refused 501
/amf\s                              | /x\s                           | refused 404
POST\s                              | GET\s                          | refused 405
A: expectation\r\n                  | Expect: 100-continue\r\n       | refused 417
Content-Type: application/x-amf\r\n |                                | refused 415
Content-Length: 2\r\n               |                                | refused 411
Content-Length: 2\r\n               | Content-Length: +2\r\n         | refused 400
Content-Length: 2\r\n               | Content-Length: 1048577\r\n    | refused 413
",
};

/// What stands in the place of a part, where these two are wrong.
fn part_with<'t>(rt: &impl Abort, part: &'t str, earlier: Row<'t>, later: Row<'t>) -> &'t str {
    if part == field(rt, earlier, 0) {
        field(rt, earlier, 1)
    } else if part == field(rt, later, 0) {
        field(rt, later, 1)
    } else {
        part
    }
}

/// The head where two parts are wrong.
fn head_with(
    rt: &impl Abort,
    alloc: Global,
    order: Row<'_>,
    earlier: Row<'_>,
    later: Row<'_>,
) -> Vec<u8> {
    let mut bytes = Vec::new(alloc);
    for place in 0..8 {
        let part = part_with(rt, field(rt, order, place), earlier, later);
        put_text(rt, &mut bytes, part);
    }
    bytes
}

/// The first answer where two parts are wrong, and where the head is too long besides.
fn ask_faults(rt: &impl Abort, alloc: Global, order: Row<'_>, earlier: Row<'_>, later: Row<'_>) {
    let mut bytes = head_with(rt, alloc, order, earlier, later);
    let size = bytes.len();
    end_head(rt, &mut bytes, b"hi");
    expect_first(rt, earlier, alloc, &bytes, wanted(rt, earlier, 2));
    bytes.resize(size, 0).expect(rt, "memory");
    put_times(rt, &mut bytes, "x", 8192);
    end_head(rt, &mut bytes, b"hi");
    let got = first(rt, alloc, &bytes, WHOLE);
    holds_of(rt, later, 8192, got == Err(HttpEnd::Status(431)));
}

/// Asks each pair of faults in this order, and tells how many there are.
fn ask_order(rt: &impl Abort, alloc: Global, order: Row<'_>, faults: &[Row<'_>]) -> usize {
    let mut count = 0usize;
    for (first, earlier) in faults.iter().enumerate() {
        for later in faults.iter().skip(first) {
            ask_faults(rt, alloc, order, *earlier, *later);
            count = count.wrapping_add(1);
        }
    }
    count
}

#[test]
fn the_first_of_two_faults_decides_in_either_order(rt: HostRuntime) {
    let faults = FAULTS.rows(rt.alloc()).expect(&rt, "rows");
    for order in ORDERS.rows(rt.alloc()).expect(&rt, "rows").iter() {
        let count = ask_order(&rt, rt.alloc(), *order, &faults);
        holds(&rt, count == 55, "pairs");
    }
}

/// Appends a text so many times.
fn put_times(rt: &impl Abort, out: &mut Vec<u8>, text: &str, count: u32) {
    for _ in 0..count {
        out.extend_from_slice(text.as_bytes()).expect(rt, "memory");
    }
}

/// What bytes begin with, how many times which byte follows, what comes then, in which pieces they come, and the first answer.
static SIZES: Table = Table {
    rows: 20,
    fields: 6,
    text: r"
# A length is decimal digits.
POST /amf HTTP/1.1\r\nHost: h\r\nContent-Type: application/x-amf\r\nContent-Length: 0\r\n\r\n | 1048576 | x | | all 1 8192 all@100 | taken 0
POST /amf HTTP/1.1\r\nHost: h\r\nContent-Type: application/x-amf\r\nContent-Length: 00\r\n\r\n | 1048576 | x | | all 1 8192 all@100 | taken 0
POST /amf HTTP/1.1\r\nHost: h\r\nContent-Type: application/x-amf\r\nContent-Length: 35\r\n\r\n | 1048576 | x | | all 1 8192 all@100 | taken 35
POST /amf HTTP/1.1\r\nHost: h\r\nContent-Type: application/x-amf\r\nContent-Length: 00000000000000000035\r\n\r\n | 1048576 | x | | all 1 8192 all@100 | taken 35
POST /amf HTTP/1.1\r\nHost: h\r\nContent-Type: application/x-amf\r\nContent-Length: 1048576\r\n\r\n | 1048576 | x | | all 1 8192 all@100 | taken 1048576
POST /amf HTTP/1.1\r\nHost: h\r\nContent-Type: application/x-amf\r\nContent-Length: 1048577\r\n\r\n | 1048576 | x | | all 1 8192 all@100 | refused 413
POST /amf HTTP/1.1\r\nHost: h\r\nContent-Type: application/x-amf\r\nContent-Length: 99999999999999999999\r\n\r\n|1048576|x|| all 1 8192 all@100|refused 413
POST /amf HTTP/1.1\r\nHost: h\r\nContent-Type: application/x-amf\r\nContent-Length:\s\r\n\r\n | 1048576 | x | | all 1 8192 all@100 | refused 400
POST /amf HTTP/1.1\r\nHost: h\r\nContent-Type: application/x-amf\r\nContent-Length: -2\r\n\r\n | 1048576 | x | | all 1 8192 all@100 | refused 400
POST /amf HTTP/1.1\r\nHost: h\r\nContent-Type: application/x-amf\r\nContent-Length: 0x2\r\n\r\n | 1048576 | x | | all 1 8192 all@100 | refused 400
POST /amf HTTP/1.1\r\nHost: h\r\nContent-Type: application/x-amf\r\nContent-Length: 2 2\r\n\r\n | 1048576 | x | | all 1 8192 all@100 | refused 400
POST /amf HTTP/1.1\r\nHost: h\r\nContent-Type: application/x-amf\r\nContent-Length: 2, 2\r\n\r\n | 1048576 | x | | all 1 8192 all@100 | refused 400
# A head has at most 8,192 bytes: heads of 8,191, 8,192 and 8,193, and the first hundred bytes of each.
POST /amf HTTP/1.1\r\nHost: h\r\nContent-Type: application/x-amf\r\nContent-Length: 2\r\nX:\s | 8103 | x | \r\n\r\nhi | all 1 all@8190 8191@8192 | taken 2
POST /amf HTTP/1.1\r\nHost: h\r\nContent-Type: application/x-amf\r\nContent-Length: 2\r\nX:\s | 8104 | x | \r\n\r\nhi | all 1 all@8190 8191@8192 | taken 2
POST /amf HTTP/1.1\r\nHost: h\r\nContent-Type: application/x-amf\r\nContent-Length: 2\r\nX:\s | 8105 | x | \r\n\r\nhi | all 1 all@8190 8191@8192 | refused 431
POST /amf HTTP/1.1\r\nHost: h\r\nContent-Type: application/x-amf\r\nContent-Length: 2\r\nX:\s | 16 | x | | all | truncated
# A line has at most 8,192 bytes.
 | 8192 | A | | all 1 all@1 all@8191 | refused 431
 | 1 | A | | all | truncated
 | 4096 | A | | all | truncated
 | 8191 | A | | all | truncated
",
};

/// The first answers of a row, and in how many pieces.
fn ask_size(rt: &impl Abort, alloc: Global, row: Row<'_>) -> usize {
    let mut bytes = text_of(rt, alloc, row, 0);
    put_times(rt, &mut bytes, field(rt, row, 2), number(rt, row, 1));
    put_text(rt, &mut bytes, field(rt, row, 3));
    let ways = field(rt, row, 4);
    expect_in_pieces(rt, row, alloc, &bytes, wanted(rt, row, 5), ways)
}

#[test]
fn sizes_of_bodies_heads_and_lines(rt: HostRuntime) {
    let mut count = 0usize;
    for row in SIZES.rows(rt.alloc()).expect(&rt, "rows").iter() {
        count = count.wrapping_add(ask_size(&rt, rt.alloc(), *row));
    }
    holds(&rt, count == 68, "pieces");
}
