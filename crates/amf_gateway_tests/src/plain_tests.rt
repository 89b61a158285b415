use crate::answered::{NO_CALLS, PLAINLY, Want, Ways, answer_of, is_answered, served};
use crate::checks::{bytes_in, holds};
use crate::requests::{put, request, response};
use amf_gateway::LinkEnd;
use amf_io::{Failed, Link};
use amf_test_rows::{Row, Table};
use std::alloc::Global;
use std::process::Abort;
use std::sync::Wait;

/// A call of `echo.echo` with the text `hi`.
const ECHO: &[u8] = b"\0\0\0\0\0\x01\0\x09echo.echo\0\x02/1\0\0\0\x0A\x0A\0\0\0\x01\x02\0\x02hi";

const ECHOED: &[u8] = b"\0\0\0\0\0\x01\0\x0B/1/onResult\0\x04null\xFF\xFF\xFF\xFF\x02\0\x02hi";

/// Packets with a call, and their answers.
static CALLS: Table = Table {
    rows: 3,
    fields: 2,
    text: r"
0000 0000 0001 0009 'echo.echo' 0002 '/1' 0000000A 0A 00000001 02 0002 'hi' | 0000 0000 0001 000B '/1/onResult' 0004 'null' FFFFFFFF 02 0002 'hi'
0000 0000 0001 000A 'echo.other' 0002 '/1' 0000000A 0A 00000001 02 0002 'hi' | 0000 0000 0001 000B '/1/onStatus' 0004 'null' FFFFFFFF 03 0004 'code' 02 0012 'Client.NoOperation' 000B 'description' 02 0011 'no such operation' 0005 'level' 02 0005 'error' 0000 09
0000 0000 0001 0009 'nobody.op' 0002 '/1' 0000000A 0A 00000001 02 0002 'hi' | 0000 0000 0001 000B '/1/onStatus' 0004 'null' FFFFFFFF 03 0004 'code' 02 0010 'Client.NoService' 000B 'description' 02 000F 'no such service' 0005 'level' 02 0005 'error' 0000 09
",
};

/// One request, and its answer.
fn ask<R: Wait + Abort>(rt: &R, alloc: Global, row: Row<'_>) {
    let asked = request(rt, alloc, &bytes_in(rt, alloc, row, 0));
    let wanted = response(rt, alloc, &bytes_in(rt, alloc, row, 1));
    let want = Want {
        at: row.line() as usize,
        end: LinkEnd::Closed,
        closed: NO_CALLS,
        written: &wanted,
    };
    is_answered(rt, alloc, &asked, PLAINLY, want);
}

#[test]
fn calls_of_services(rt: HostRuntime) {
    for row in CALLS.rows(rt.alloc()).expect(&rt, "rows").iter() {
        ask(&rt, rt.alloc(), *row);
    }
}

/// The bytes twice.
fn twice(rt: &impl Abort, alloc: Global, bytes: &[u8]) -> Vec<u8> {
    let mut both = Vec::new(alloc);
    put(rt, &mut both, &[bytes, bytes]);
    both
}

/// The same two answers wherever the bytes are cut, and nothing but whole answers of what was read.
#[test]
fn two_calls_in_any_pieces(rt: HostRuntime) {
    let two = twice(&rt, rt.alloc(), &request(&rt, rt.alloc(), ECHO));
    let both = twice(&rt, rt.alloc(), &response(&rt, rt.alloc(), ECHOED));
    for cut in 0..two.len() {
        let ways = Ways {
            pieces: (usize::MAX, cut),
            ..PLAINLY
        };
        let want = Want {
            at: cut,
            end: LinkEnd::Closed,
            closed: NO_CALLS,
            written: &both,
        };
        is_answered(&rt, rt.alloc(), &two, ways, want);
    }
}

/// A link that ends inside its request gets no answer, and makes no call.
#[test]
fn a_request_that_is_cut_off(rt: HostRuntime) {
    let whole = request(&rt, rt.alloc(), ECHO);
    for cut in 0..whole.len() {
        let want = Want {
            at: cut,
            end: if cut == 0 {
                LinkEnd::Closed
            } else {
                LinkEnd::Truncated
            },
            closed: NO_CALLS,
            written: b"",
        };
        is_answered(&rt, rt.alloc(), &whole[..cut], PLAINLY, want);
    }
}

/// Whether the call ends well where these reads and writes fail, by pieces of 16 bytes. Else it ends by this fault, and what
/// was written is a front of the answer.
fn ends_well<'a, R: Wait + Abort>(
    rt: &R,
    alloc: Global,
    failing_reads: &'a [u64],
    failing_writes: &'a [u64],
    fault: LinkEnd,
) -> bool {
    let ways = Ways {
        pieces: (16, 0),
        failing_reads,
        most: 16,
        failing_writes,
        ..PLAINLY
    };
    let mut written = Vec::new(alloc);
    let came = answer_of(rt, alloc, &request(rt, alloc, ECHO), ways, &mut written);
    let wanted = response(rt, alloc, ECHOED);
    holds(rt, wanted.starts_with(&written), "a front of the answer");
    holds(rt, came.calls == came.closed.calls, "how many calls");
    let is_well = came.end == LinkEnd::Closed;
    holds(rt, is_well || came.end == fault, "the end");
    is_well
}

/// Each read and each write fails once.
#[test]
fn a_link_that_fails(rt: HostRuntime) {
    let mut read = 0usize;
    let mut written = 0usize;
    for failing in 0..40u64 {
        if ends_well(&rt, rt.alloc(), &[failing], &[], LinkEnd::ReadFault) {
            read = read.saturating_add(1);
        }
        if ends_well(&rt, rt.alloc(), &[], &[failing], LinkEnd::WriteFault) {
            written = written.saturating_add(1);
        }
    }
    // The request comes in 8 reads, and one more finds the end.
    holds(&rt, read == 31, "failed reads");
    holds(&rt, 0 < written && written < 40, "failed writes");
}

/// A peer that sends a request and waits for its answer: a read before that fails.
#[derive(Drop)]
struct Patient<'a> {
    request: &'a [u8],
    /// How many requests it has sent, and how many it will send.
    sent: usize,
    all: usize,
    answer: &'a [u8],
    taken: usize,
    failed: u64,
}

impl Link for Patient<'_> {
    ghost use Rattle.std.specs.Prelude.{[]};

    ghost tells_left = { λ l. ⊥ };

    ghost left = { λ l. [] };

    ghost tells_held = { λ l. ⊥ };

    ghost held = { λ l. [] };

    ghost read_faults = { λ l. l.failed };

    ghost write_faults = { λ l. 0 };

    fn read(&mut self, buf: &mut [u8]) -> Result<usize, Failed> {
        if self.taken < self.sent.saturating_mul(self.answer.len()) {
            self.failed = self.failed.saturating_add(1);
            return Err(Failed);
        }
        if self.sent == self.all || buf.len() < self.request.len() {
            return Ok(0);
        }
        self.sent = self.sent.saturating_add(1);
        buf[..self.request.len()].copy_from_slice(self.request);
        Ok(self.request.len())
    }

    fn write(&mut self, piece: &[u8]) -> Result<usize, Failed> {
        self.taken = self.taken.saturating_add(piece.len());
        Ok(piece.len())
    }

    fn flush(&mut self) -> Result<(), Failed> {
        Ok(())
    }
}

/// Each request is answered before the next read.
#[test]
fn answers_before_it_reads_on(rt: HostRuntime) {
    let one = request(&rt, rt.alloc(), ECHO);
    let answer = response(&rt, rt.alloc(), ECHOED);
    let mut link = Patient {
        request: &one,
        sent: 0,
        all: 2,
        answer: &answer,
        taken: 0,
        failed: 0,
    };
    let came = served(&rt, rt.alloc(), &mut link, PLAINLY);
    holds(&rt, came.end == LinkEnd::Closed, "the end");
    holds(&rt, came.calls == came.closed.calls, "how many calls");
    holds(&rt, link.failed == 0, "no read before an answer");
    let all = answer.len().saturating_mul(2);
    holds(&rt, link.taken == all, "two answers");
}
