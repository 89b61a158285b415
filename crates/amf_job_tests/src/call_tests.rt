ghost use Rattle.std.specs.Prelude.{◌≡◌, false};

use crate::cases::{Case, How, check_rows};
use crate::dials::{GOOD, Links, dial_of, taken};
use crate::runs::{BY_BYTES, Told, WHOLE, Ways, check_over};
use amf_io::{MemoryDial, MemoryLink};
use amf_test_rows::{Row, Table};
use std::alloc::Global;
use std::process::Abort;
use std::random::RandomSource;
use std::sync::Wait;
use std::thread::Threads;

/// Words, an input, the status, the output and the line; what is written to the link, and what comes of it.
static CALLS: Table = Table {
    rows: 5,
    fields: 7,
    text: r#"
call --port 1 --target sum.sum | 09 05 01 04 02 04 03 | 0 | 05 4014000000000000 | | 'POST /amf HTTP/1.1' 0D0A 'Host: 127.0.0.1:1' 0D0A 'Content-Type: application/x-amf' 0D0A 'Content-Length: 31' 0D0A0D0A 0003 0000 0001 0007'sum.sum' 0002'/1' FFFFFFFF 11 09 05 01 04 02 04 03 | 'HTTP/1.1 200 OK' 0D0A 'Content-Type: application/x-amf' 0D0A 'Content-Length: 39' 0D0A0D0A 0003 0000 0001 000B'/1/onResult' 0004'null' FFFFFFFF 11 05 4014000000000000
call --port 1 --target nobody.op | 09 05 01 04 02 04 03 | 8 | | 'amf: fault "Client.NoService" "no such service"' 0A | 'POST /amf HTTP/1.1' 0D0A 'Host: 127.0.0.1:1' 0D0A 'Content-Type: application/x-amf' 0D0A 'Content-Length: 33' 0D0A0D0A 0003 0000 0001 0009'nobody.op' 0002'/1' FFFFFFFF 11 09 05 01 04 02 04 03 | 'HTTP/1.1 200 OK' 0D0A 'Content-Type: application/x-amf' 0D0A 'Content-Length: 104' 0D0A0D0A 0003 0000 0001 000B'/1/onStatus' 0004'null' FFFFFFFF 03 0004'code' 02 0010'Client.NoService' 000B'description' 02 000F'no such service' 0005'level' 02 0005'error' 000009
# The result is written in its canonical spelling, and a code and a text as in a listing.
call --target= --port=0000000001 | 09 05 01 04 80 05 06 80 01 | 0 | 09 05 01 06 03 'a' 06 00 | | 'POST /amf HTTP/1.1' 0D0A 'Host: 127.0.0.1:1' 0D0A 'Content-Type: application/x-amf' 0D0A 'Content-Length: 24' 0D0A0D0A 0003 0000 0001 0000 0002'/1' FFFFFFFF 11 09 05 01 04 05 06 01 | 'HTTP/1.1 200 OK' 0D0A 'Content-Type: application/x-amf' 0D0A 'Content-Length: 39' 0D0A0D0A 0003 0000 0001 000B'/1/onResult' 0004'null' FFFFFFFF 11 09 05 01 06 03 'a' 06 03 'a'
call --port 1 --target a | 09 01 01 | 8 | | 'amf: fault "\22" "\5c\c3\a9"' 0A | 'POST /amf HTTP/1.1' 0D0A 'Host: 127.0.0.1:1' 0D0A 'Content-Type: application/x-amf' 0D0A 'Content-Length: 21' 0D0A0D0A 0003 0000 0001 0001'a' 0002'/1' FFFFFFFF 11 09 01 01 | 'HTTP/1.1 200 OK' 0D0A 'Content-Type: application/x-amf' 0D0A 'Content-Length: 62' 0D0A0D0A 0003 0000 0001 000B'/1/onStatus' 0004'null' FFFFFFFF 03 0004'code' 02 0001'"' 000B'description' 02 0003 5C C3A9 000009
call --port 1 --target a | 09 01 01 | 9 | | 'amf: bad reply 5' 0A | 'POST /amf HTTP/1.1' 0D0A 'Host: 127.0.0.1:1' 0D0A 'Content-Type: application/x-amf' 0D0A 'Content-Length: 21' 0D0A0D0A 0003 0000 0001 0001'a' 0002'/1' FFFFFFFF 11 09 01 01 | 'HTTP/1.1 200 OK' 0D0A 'Content-Type: application/x-amf' 0D0A 'Content-Length: 30' 0D0A0D0A 0003 0000 0001 000B'/2/onResult' 0004'null' FFFFFFFF 05
"#,
};

/// What goes over a link: what is written, and what comes back.
#[derive(Clone, Copy)]
struct Talk<'a> {
    asked: &'a [u8],
    answer: &'a [u8],
}

/// Runs the case so: it dials port 1 once, writes this to the link and gives what the case says of what comes back.
fn check_talk<R: RandomSource + Threads + Wait + Abort + Sync>(
    rt: &R,
    alloc: Global,
    line: u32,
    case: &Case<'_>,
    ways: Ways<'_>,
    asked: &[u8],
    dial: &mut MemoryDial<MemoryLink>,
)
    requires { dial.old.links.out ≡ false }
{
    let told = Told {
        ports: &[1],
        faults: 0,
    };
    check_over(rt, alloc, line, case, ways, dial, told);
    let is_asked = taken(dial) == Some(asked);
    let (most, cut) = (ways.most, ways.cut);
    assert!(rt; is_asked, "line {line}: the link by {most}, cut at {cut}");
}

fn call_once<R: RandomSource + Threads + Wait + Abort + Sync>(
    rt: &R,
    alloc: Global,
    line: u32,
    case: &Case<'_>,
    ways: Ways<'_>,
    talk: Talk<'_>,
) {
    let links = Links {
        most: ways.most,
        ..GOOD
    };
    let mut dial = dial_of(rt, alloc, talk.answer, links);
    check_talk(rt, alloc, line, case, ways, talk.asked, &mut dial);
}

/// Runs the call of a row all at once, a byte at a time, and with an input in two pieces that meet at any place.
pub(crate) fn check_call<R: RandomSource + Threads + Wait + Abort + Sync>(
    rt: &R,
    alloc: Global,
    row: Row<'_>,
    case: &Case<'_>,
) {
    let asked = row.parts(alloc, 5).expect(rt, "bytes");
    let answer = row.parts(alloc, 6).expect(rt, "bytes");
    let talk = Talk {
        asked: &asked,
        answer: &answer,
    };
    let line = row.line();
    call_once(rt, alloc, line, case, WHOLE, talk);
    call_once(rt, alloc, line, case, BY_BYTES, talk);
    for cut in 1..case.input.len() {
        call_once(rt, alloc, line, case, Ways { cut, ..WHOLE }, talk);
    }
}

#[test]
fn calls(rt: HostRuntime) {
    check_rows(&rt, rt.alloc(), &CALLS, How::Calling);
}

/// Words, an input, the status, the output and the line, where nothing is dialled.
static NOT_DIALLED: Table = Table {
    rows: 6,
    fields: 5,
    text: "
call --port 1 --target sum.sum | 01 | 7 | | 'amf: no form NotArgs node 0 value 0' 0A
call --port 1 --target sum.sum | 09 01 03 'a' 01 01 | 7 | | 'amf: no form NotArgs node 0 value 0' 0A
call --port 1 --target sum.sum | | 1 | | 'amf: refused Truncated at 0' 0A
call --port 1 --target sum.sum | 12 | 1 | | 'amf: refused BadMarker at 0' 0A
call --port 1 --target sum.sum | 09 03 01 06 02 | 1 | | 'amf: refused BadTextIndex at 4' 0A
call --port 1 --target sum.sum | 09 01 01 01 | 1 | | 'amf: refused Trailing at 3' 0A
",
};

#[test]
fn not_dialled(rt: HostRuntime) {
    check_rows(&rt, rt.alloc(), &NOT_DIALLED, How::InPieces(1));
}

/// The answer 5 to a call on port 1.
const ANSWER: &[u8] =
    b"HTTP/1.1 200 OK\r\nContent-Type: application/x-amf\r\nContent-Length: 39\r\n\r\n\
\0\x03\0\0\0\x01\0\x0B/1/onResult\0\x04null\xFF\xFF\xFF\xFF\x11\x05\x40\x14\0\0\0\0\0\0";

/// The same of the first, and then at most how many bytes of the answer come, and the number of the dial, the read and the write of
/// the link, and the read and the write of the streams that fails; all come and go byte by byte.
static FAULTS: Table = Table {
    rows: 11,
    fields: 6,
    text: "
call --port 1 --target sum.sum | 09 05 01 04 02 04 03 | 9 | | 'amf: bad reply 7' 0A | 0 999 999 999 999 999
call --port 1 --target sum.sum | 09 05 01 04 02 04 03 | 9 | | 'amf: bad reply 7' 0A | 99 999 999 999 999 999
call --port 1 --target sum.sum | 09 05 01 04 02 04 03 | 10 | | 'amf: link fault' 0A | 999 0 999 999 999 999
call --port 1 --target sum.sum | 09 05 01 04 02 04 03 | 10 | | 'amf: link fault' 0A | 999 999 0 999 999 999
call --port 1 --target sum.sum | 09 05 01 04 02 04 03 | 10 | | 'amf: link fault' 0A | 999 999 99 999 999 999
call --port 1 --target sum.sum | 09 05 01 04 02 04 03 | 10 | | 'amf: link fault' 0A | 999 999 999 0 999 999
# The read of the end fails, then the first write, the fourth and the flush.
call --port 1 --target sum.sum | 09 05 01 04 02 04 03 | 3 | | 'amf: read fault' 0A | 999 999 999 999 7 999
call --port 1 --target sum.sum | 09 05 01 04 02 04 03 | 4 | | 'amf: write fault' 0A | 999 999 999 999 999 0
call --port 1 --target sum.sum | 09 05 01 04 02 04 03 | 4 | 05 4014 | 'amf: write fault' 0A | 999 999 999 999 999 3
call --port 1 --target sum.sum | 09 05 01 04 02 04 03 | 4 | 05 4014000000000000 | 'amf: write fault' 0A | 999 999 999 999 999 9
# A fault behind all is none.
call --port 1 --target sum.sum | 09 05 01 04 02 04 03 | 0 | 05 4014000000000000 | | 999 1 999 999 8 10
",
};

/// Runs a call where these calls fail; it is dialled but where the input cannot be read.
fn call_with<R: RandomSource + Threads + Wait + Abort + Sync>(
    rt: &R,
    alloc: Global,
    row: Row<'_>,
    case: &Case<'_>,
    ways: Ways<'_>,
    come: usize,
    links: Links<'_>,
) {
    let end = come.min(ANSWER.len());
    let mut dial = dial_of(rt, alloc, &ANSWER[..end], links);
    let ports: &[u16] = if case.status == 3 { &[] } else { &[1] };
    let told = Told {
        ports,
        faults: u64::from(case.status == 10),
    };
    check_over(rt, alloc, row.line(), case, ways, &mut dial, told);
}

/// An answer that is cut, and calls of the dial, of its link and of the streams that fail.
pub(crate) fn check_fault<R: RandomSource + Threads + Wait + Abort + Sync>(
    rt: &R,
    alloc: Global,
    row: Row<'_>,
    case: &Case<'_>,
) {
    let numbers = row.numbers(alloc, 5).expect(rt, "numbers");
    let [come, dial, read, write, input, output] = numbers.as_slice() else {
        panic!(rt; "six numbers");
    };
    let ways = Ways {
        reads: &[*input],
        writes: &[*output],
        ..BY_BYTES
    };
    let links = Links {
        dials: &[*dial],
        most: 1,
        reads: &[*read],
        writes: &[*write],
    };
    call_with(rt, alloc, row, case, ways, *come as usize, links);
}

#[test]
fn calls_that_fail(rt: HostRuntime) {
    check_rows(&rt, rt.alloc(), &FAULTS, How::Failing);
}
