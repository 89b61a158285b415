use crate::checks::{holds, holds_at};
use crate::dials::{
    BY_BYTES, FIVE, LINK_FAULT, RESULT, WHOLE, Ways, comes, dial_of, ends_without_link, sum_case,
};
use crate::replies::{SUM_ASKED, SUM_REPLY};

/// A peer that closes before its reply is whole, at each byte: the number is 7, and that is no fault of the link.
#[test]
fn a_peer_that_closes(rt: HostRuntime) {
    let case = sum_case(7, b"");
    for end in 0..SUM_REPLY.len() {
        let right = comes(&rt, rt.alloc(), &SUM_REPLY[..end], WHOLE, case, SUM_ASKED);
        holds_at(&rt, end, right, "closed");
    }
}

/// Each read fails in turn; behind the reply none is made.
#[test]
fn reads_that_fail(rt: HostRuntime) {
    for place in 0..=SUM_REPLY.len() {
        let ways = Ways {
            reads: &[place as u64],
            ..BY_BYTES
        };
        let case = if place < SUM_REPLY.len() {
            sum_case(LINK_FAULT, b"")
        } else {
            sum_case(RESULT, FIVE)
        };
        let right = comes(&rt, rt.alloc(), SUM_REPLY, ways, case, SUM_ASKED);
        holds_at(&rt, place, right, "a failed read");
    }
}

/// Each write of one byte fails in turn, and then the flush; behind that none is made.
#[test]
fn writes_that_fail(rt: HostRuntime) {
    for place in 0..=SUM_ASKED.len() + 1 {
        let ways = Ways {
            writes: &[place as u64],
            ..BY_BYTES
        };
        let case = if place <= SUM_ASKED.len() {
            sum_case(LINK_FAULT, b"")
        } else {
            sum_case(RESULT, FIVE)
        };
        let written = &SUM_ASKED[..place.min(SUM_ASKED.len())];
        let right = comes(&rt, rt.alloc(), SUM_REPLY, ways, case, written);
        holds_at(&rt, place, right, "a failed write");
    }
}

/// The call over a dial that fails is a link fault that it has counted once, and no link was given.
#[test]
fn a_dial_that_fails(rt: HostRuntime) {
    let mut dial = dial_of(&rt, rt.alloc(), SUM_REPLY, WHOLE, &[0]);
    let case = sum_case(LINK_FAULT, b"");
    let right = ends_without_link(&rt, rt.alloc(), &mut dial, case, &[1], 1);
    holds(&rt, right, "a dial that fails");
}
