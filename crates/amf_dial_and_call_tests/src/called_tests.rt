use crate::checks::{holds, holds_of};
use crate::dials::{
    BY_BYTES, Case, FIVE, LINK_FAULT, RESULT, WHOLE, Ways, answers, comes, dial_of,
    ends_without_link, sum_case,
};
use crate::replies::{SUM_ASKED, SUM_REPLY};
use amf_test_rows::{Row, Table};
use std::alloc::Global;
use std::process::Abort;

/// Replies to the call of `sum.sum` for 2 and 3, and what comes of each: 0 and the bits of a double, 20, the code and the text, or the
/// number of a bad reply.
static REPLIES: Table = Table {
    rows: 10,
    fields: 4,
    text: "
'HTTP/1.1 200 OK' 0D0A 'Content-Type: application/x-amf' 0D0A 'Content-Length: 39' 0D0A0D0A 0003 0000 0001 000B'/1/onResult' 0004'null' FFFFFFFF 11 05 4014000000000000 | 0 | 4014000000000000 |
'HTTP/1.1 200 OK' 0D0A 'Content-Type: application/x-amf' 0D0A 'Content-Length: 89' 0D0A0D0A 0003 0000 0001 000B'/1/onStatus' 0004'null' FFFFFFFF 03 0004'code' 020010'Client.NoService' 000B'description' 02000F'no such service' 000009 | 20 | 'Client.NoService' | 'no such service'
'HTTP/1.1 2OO OK' 0D0A 'Content-Type: application/x-amf' 0D0A 'Content-Length: 30' 0D0A0D0A 0003 0000 0001 000B'/1/onResult' 0004'null' FFFFFFFF 05 | 1 | |
'HTTP/1.1 200 OK' 0D0A 'Content-Type: application/x-amf' 0D0A 'Content-Length: 30' 0D0A 'Transfer-Encoding: identity' 0D0A0D0A 0003 0000 0001 000B'/1/onResult' 0004'null' FFFFFFFF 05 | 2 | |
'HTTP/1.1 200 OK' 0D0A 'Content-Type: application/x-amf' 0D0A 'Content-Length: +30' 0D0A0D0A 0003 0000 0001 000B'/1/onResult' 0004'null' FFFFFFFF 05 | 3 | |
'HTTP/1.1 200 OK' 0D0A 'Content-Type: application/x-amf' 0D0A 'Content-Length: 29' 0D0A0D0A 0003 0000 0001 000B'/1/onResult' 0004'null' FFFFFFFF | 4 | |
'HTTP/1.1 200 OK' 0D0A 'Content-Type: application/x-amf' 0D0A 'Content-Length: 30' 0D0A0D0A 0003 0000 0001 000B'/2/onResult' 0004'null' FFFFFFFF 05 | 5 | |
'HTTP/1.1 200 OK' 0D0A 'Content-Type: application/x-amf' 0D0A 'Content-Length: 30' 0D0A0D0A 0003 0000 0001 000B'/1/onStatus' 0004'null' FFFFFFFF 05 | 6 | |
'HTTP/1.1 200 OK' 0D0A 'Content-Type: application/x-amf' 0D0A 'Content-Length: 31' 0D0A0D0A 0003 0000 0001 000B'/1/onResult' 0004'null' FFFFFFFF 05 | 7 | |
'HTTP/1.1 404 OK' 0D0A 'Content-Type: application/x-amf' 0D0A 'Content-Length: 30' 0D0A0D0A 0003 0000 0001 000B'/1/onResult' 0004'null' FFFFFFFF 05 | 8 | |
",
};

/// A target and arguments in AMF 3, and what is written to port 1.
static CALLS: Table = Table {
    rows: 3,
    fields: 3,
    text: "
'sum.sum' | 09 05 01 04 02 04 03 | 'POST /amf HTTP/1.1' 0D0A 'Host: 127.0.0.1:1' 0D0A 'Content-Type: application/x-amf' 0D0A 'Content-Length: 31' 0D0A0D0A 00 03 00 00 00 01 00 07 'sum.sum' 00 02 '/1' FF FF FF FF 11 09 05 01 04 02 04 03
'nobody.op' | 09 05 01 04 02 04 03 | 'POST /amf HTTP/1.1' 0D0A 'Host: 127.0.0.1:1' 0D0A 'Content-Type: application/x-amf' 0D0A 'Content-Length: 33' 0D0A0D0A 00 03 00 00 00 01 00 09 'nobody.op' 00 02 '/1' FF FF FF FF 11 09 05 01 04 02 04 03
'' | 09 01 01 | 'POST /amf HTTP/1.1' 0D0A 'Host: 127.0.0.1:1' 0D0A 'Content-Type: application/x-amf' 0D0A 'Content-Length: 20' 0D0A0D0A 00 03 00 00 00 01 00 00 00 02 '/1' FF FF FF FF 11 09 01 01
",
};

/// Values in AMF 0, the first three with one in AMF 3, that are no arguments, 40, or have no spelling, 41: an item has an empty name.
static UNCALLED: Table = Table {
    rows: 5,
    fields: 2,
    text: "
11 01 | 40
11 09 01 03 'a' 01 01 | 40
11 0A 0B 01 01 | 40
08 00000001 0001 'a' 05 0000 09 | 40
0A 00000001 03 0000 05 0000 09 | 41
",
};

/// The bytes of a field of a row.
fn bytes_of(rt: &impl Abort, alloc: Global, row: Row<'_>, place: usize) -> Vec<u8> {
    row.bytes(alloc, place).expect(rt, "bytes")
}

/// A reply that comes a byte at a time, whole, and in two pieces that meet at any place.
fn check_reply(rt: &impl Abort, alloc: Global, row: Row<'_>, bytes: &[u8], case: Case<'_>) {
    let right = comes(rt, alloc, bytes, BY_BYTES, case, SUM_ASKED);
    holds_of(rt, row, bytes.len(), right);
    for cut in 0..bytes.len() {
        let ways = Ways { cut, ..WHOLE };
        let right = comes(rt, alloc, bytes, ways, case, SUM_ASKED);
        holds_of(rt, row, cut, right);
    }
}

fn reply_row(rt: &impl Abort, alloc: Global, row: Row<'_>) {
    let what = row.number(1).expect(rt, "a number");
    let bytes = bytes_of(rt, alloc, row, 0);
    let told = bytes_of(rt, alloc, row, 2);
    let text = bytes_of(rt, alloc, row, 3);
    let case = Case {
        text: &text,
        ..sum_case(what, &told)
    };
    check_reply(rt, alloc, row, &bytes, case);
}

#[test]
fn replies(rt: HostRuntime) {
    for row in REPLIES.rows(rt.alloc()).expect(&rt, "rows").iter() {
        reply_row(&rt, rt.alloc(), *row);
    }
}

/// The call is written as the row has it, to a peer that gives no bytes: the number is 7.
fn call_row(rt: &impl Abort, alloc: Global, row: Row<'_>) {
    let target = bytes_of(rt, alloc, row, 0);
    let args = bytes_of(rt, alloc, row, 1);
    let written = bytes_of(rt, alloc, row, 2);
    let case = Case {
        target: &target,
        args: &args,
        ..sum_case(7, b"")
    };
    let right = comes(rt, alloc, b"", WHOLE, case, &written);
    holds_of(rt, row, 0, right);
}

#[test]
fn calls(rt: HostRuntime) {
    for row in CALLS.rows(rt.alloc()).expect(&rt, "rows").iter() {
        call_row(&rt, rt.alloc(), *row);
    }
}

/// The call ends so, and nothing is dialled.
fn uncalled_row(rt: &impl Abort, alloc: Global, row: Row<'_>) {
    let what = row.number(1).expect(rt, "a number");
    let args = bytes_of(rt, alloc, row, 0);
    let case = Case {
        args: &args,
        is_amf0: true,
        ..sum_case(what, b"")
    };
    let mut dial = dial_of(rt, alloc, SUM_REPLY, WHOLE, &[]);
    let right = ends_without_link(rt, alloc, &mut dial, case, &[], 0);
    holds_of(rt, row, 0, right);
}

#[test]
fn no_calls(rt: HostRuntime) {
    for row in UNCALLED.rows(rt.alloc()).expect(&rt, "rows").iter() {
        uncalled_row(&rt, rt.alloc(), *row);
    }
}

/// Two calls over a dial of one link: the first is answered, and none is given for the second, which the dial counts.
#[test]
fn one_link_for_each_call(rt: HostRuntime) {
    let alloc = rt.alloc();
    let mut dial = dial_of(&rt, alloc, SUM_REPLY, WHOLE, &[]);
    let first = answers(&rt, alloc, &mut dial, 1, sum_case(RESULT, FIVE));
    let second = answers(&rt, alloc, &mut dial, 2, sum_case(LINK_FAULT, b""));
    holds(&rt, first, "an answer");
    holds(&rt, second, "no link");
    holds(&rt, dial.asked() == [1u16, 2].as_slice(), "the ports");
    holds(&rt, dial.returned().len() == 1, "the link");
    holds(&rt, dial.faults() == 1, "the faults");
}
