use crate::gateway::answers;
use crate::listener::{End, Heard, hear};
use crate::requests::{PLACES, all_links};
use std::alloc::{AllocError, Global};
use std::process::Abort;
use std::sync::Wait;
use std::test::Fail;

/// The bodies of the messages that were published: a batch of three, and one.
const PUBLISHED: &[u8] = b"\x06\x05hi\x04\x05\x0A\x0B\x01\x03a\x02\x01\x06\x07you";

/// Ends the test where something does not hold at this byte of what passes at this place.
fn holds(rt: &impl Abort, place: usize, byte: usize, right: bool, what: &str) {
    assert!(rt; right, "byte {byte} at {place}: {what}");
}

/// Adds what links bring, or what they were answered, where these are the listener's.
fn add_listeners(bytes: &mut Vec<u8>, links: &[Vec<u8>], from: usize) -> Result<(), AllocError> {
    for (link, place) in links.iter().zip(from..) {
        if PLACES.contains(&place) {
            bytes.extend_from_slice(link)?;
        }
    }
    Ok(())
}

/// What was answered before a link was cut, up to the answer that it was cut in, and over the next link.
#[derive(Drop)]
struct Told {
    before: Vec<u8>,
    cut: Vec<u8>,
    behind: Vec<u8>,
}

/// What the gateway tells a listener where the answer at this place is lost: the request comes again.
fn told_again<R: Wait>(
    rt: &R,
    alloc: Global,
    links: &[Vec<u8>],
    place: usize,
) -> Result<Told, Fail> {
    let mut came = Vec::new(alloc);
    let (Some(front), Some(back)) = (links.get(..=place), links.get(place..)) else {
        return Err("no place".into());
    };
    for link in front.iter().chain(back) {
        came.push(link.to_vec(alloc)?)?;
    }
    let told = answers(rt, alloc, &came)?;
    let (mut before, mut cut, mut behind) = (Vec::new(alloc), Vec::new(alloc), Vec::new(alloc));
    add_listeners(&mut before, told.get(..place).unwrap_or(&[]), 0)?;
    cut.extend_from_slice(told.get(place).map_or(&[], |answer| answer.as_slice()))?;
    add_listeners(
        &mut behind,
        told.get(place.wrapping_add(1)..).unwrap_or(&[]),
        place,
    )?;
    Ok(Told {
        before,
        cut,
        behind,
    })
}

/// Whether all messages were written, once each and in order, over two links.
fn is_whole(came: &Heard) -> bool {
    came.written.as_slice() == PUBLISHED && came.dials == 2
}

/// An answer is cut off at each byte. Only where the answer of the disconnect is lost, the gateway no longer knows the client.
fn cut_in_answer<R: Wait + Abort>(
    rt: &R,
    alloc: Global,
    links: &[Vec<u8>],
    place: usize,
) -> Result<(), Fail> {
    let told = told_again(rt, alloc, links, place)?;
    let end = if place == 6 { End::Fault } else { End::Done };
    for byte in 0..told.cut.len() {
        let mut first = told.before.to_vec(alloc)?;
        first.extend_from_slice(&told.cut[..byte])?;
        let came = hear(alloc, &first, &told.behind, &[], 2)?;
        holds(rt, place, byte, is_whole(&came), "what was written");
        holds(rt, place, byte, came.end == end, "how it ended");
    }
    Ok(())
}

#[test]
fn answers_that_are_cut_off(rt: HostRuntime) -> Result<(), Fail> {
    let links = all_links(&rt, rt.alloc())?;
    for place in [3, 5, 6] {
        cut_in_answer(&rt, rt.alloc(), &links, place)?;
    }
    Ok(())
}

/// Whether nothing was written, over one link.
fn is_nothing(came: &Heard) -> bool {
    came.written.is_empty() && came.dials == 1
}

/// A request is cut off at each byte: its link takes no more of it. A ping and a subscribe are not repeated, and any other request comes whole
/// over the next link.
fn cut_in_request<R: Wait + Abort>(
    rt: &R,
    alloc: Global,
    links: &[Vec<u8>],
    place: usize,
) -> Result<(), Fail> {
    let told = answers(rt, alloc, links)?;
    let (mut asked, mut before, mut behind) = (Vec::new(alloc), Vec::new(alloc), Vec::new(alloc));
    add_listeners(&mut asked, links.get(..place).unwrap_or(&[]), 0)?;
    add_listeners(&mut before, told.get(..place).unwrap_or(&[]), 0)?;
    add_listeners(&mut behind, told.get(place..).unwrap_or(&[]), place)?;
    for byte in 0..links.get(place).map_or(0, |link| link.len()) {
        // Each request before was flushed, which counts as a write.
        let flushes = PLACES.iter().filter(|at| **at < place).count();
        let fails = asked.len().wrapping_add(flushes).wrapping_add(byte) as u64;
        let came = hear(alloc, &before, &behind, &[fails], 2)?;
        let (right, end) = if place < 2 {
            (is_nothing(&came), End::LinkFault)
        } else {
            (is_whole(&came), End::Done)
        };
        holds(rt, place, byte, right, "what was written");
        holds(rt, place, byte, came.end == end, "how it ended");
    }
    Ok(())
}

#[test]
fn requests_that_are_cut_off(rt: HostRuntime) -> Result<(), Fail> {
    let links = all_links(&rt, rt.alloc())?;
    for place in PLACES {
        cut_in_request(&rt, rt.alloc(), &links, place)?;
    }
    Ok(())
}

/// A ping and a subscribe are not repeated: where the link ends in the answer of one, nothing is written.
fn begins_in_vain<R: Wait + Abort>(rt: &R, alloc: Global, links: &[Vec<u8>]) -> Result<(), Fail> {
    let told = answers(rt, alloc, links)?;
    let mut first = Vec::new(alloc);
    add_listeners(&mut first, told.get(..2).unwrap_or(&[]), 0)?;
    for byte in 0..first.len() {
        let came = hear(alloc, &first[..byte], &[], &[], 2)?;
        holds(rt, 0, byte, is_nothing(&came), "what was written");
        holds(rt, 0, byte, came.end == End::BadReply, "how it ended");
    }
    Ok(())
}

#[test]
fn a_session_that_does_not_begin(rt: HostRuntime) -> Result<(), Fail> {
    let links = all_links(&rt, rt.alloc())?;
    begins_in_vain(&rt, rt.alloc(), &links)
}
