use crate::checks::holds_at;
use crate::dials::{Case, comes, dial_of_two, link_of};
use crate::replies::replies_at;
use std::alloc::Global;
use std::process::Abort;
use std::test::Fail;

/// A session of one poll whose first link ends behind these bytes comes to this over a second link that gives those.
fn is_so(alloc: Global, first: &[u8], second: &[u8], case: Case<'_>) -> Result<bool, Fail> {
    let first = link_of(alloc, first, &[], &[])?;
    let second = link_of(alloc, second, &[], &[])?;
    let mut dial = dial_of_two(alloc, first, second)?;
    Ok(comes(alloc, &mut dial, case, &[])?)
}

/// A link that ends at each byte from a place to another.
fn cut_from(
    rt: &impl Abort,
    alloc: Global,
    bytes: &[u8],
    from: usize,
    second: &[u8],
    case: Case<'_>,
) -> Result<(), Fail> {
    for end in from..bytes.len() {
        let right = is_so(alloc, &bytes[..end], second, case)?;
        holds_at(rt, end, right, "a link that ends");
    }
    Ok(())
}

/// In the answers of the ping and of the subscribe a link that ends is a bad reply.
#[test]
fn before_the_poll(rt: HostRuntime) -> Result<(), Fail> {
    let bytes = replies_at(rt.alloc(), &[0, 1])?;
    let second = replies_at(rt.alloc(), &[0, 1, 5, 4])?;
    let case = Case {
        polls: 1,
        code: 7,
        written: b"",
        dials: 1,
    };
    cut_from(&rt, rt.alloc(), &bytes, 0, &second, case)
}

/// In the answer of the poll, that comes whole over a second link: its message is written once.
#[test]
fn in_the_poll(rt: HostRuntime) -> Result<(), Fail> {
    let from = replies_at(rt.alloc(), &[0, 1])?.len();
    let bytes = replies_at(rt.alloc(), &[0, 1, 5])?;
    let second = replies_at(rt.alloc(), &[5, 4])?;
    let case = Case {
        polls: 1,
        code: 0,
        written: b"\x06\x05hi",
        dials: 2,
    };
    cut_from(&rt, rt.alloc(), &bytes, from, &second, case)
}

/// In the answer of the disconnect, which is sent again.
#[test]
fn behind_the_poll(rt: HostRuntime) -> Result<(), Fail> {
    let from = replies_at(rt.alloc(), &[0, 1, 5])?.len();
    let bytes = replies_at(rt.alloc(), &[0, 1, 5, 4])?;
    let second = replies_at(rt.alloc(), &[4])?;
    let case = Case {
        polls: 1,
        code: 0,
        written: b"\x06\x05hi",
        dials: 2,
    };
    cut_from(&rt, rt.alloc(), &bytes, from, &second, case)
}
