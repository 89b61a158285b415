use crate::gateway::answers;
use crate::listener::hear;
use itoa::Buffer;
use std::alloc::{AllocError, Global};
use std::sync::Wait;
use std::test::Fail;

/// A packet whose one message goes to `null`, up to the message itself.
const PACKET: &[u8] = b"\0\x03\0\0\0\x01\0\x04null\0\x02/1\xFF\xFF\xFF\xFF\x0A\0\0\0\x01\x11";

/// The first eight names of a message.
const NAMES: &[u8] =
    b"\x09body\x11clientId\x17destination\x0Fheaders\x13messageId\x15timeToLive\x13timestamp\x1BcorrelationId";

const COMMAND: &[u8] = b"\x0A\x81\x13\x4Dflex.messaging.messages.CommandMessage";

const ASYNC: &[u8] = b"\x0A\x81\x03\x49flex.messaging.messages.AsyncMessage";

/// What a ping has behind its names.
const PING: &[u8] =
    b"\x13operation\x01\x01\x06\x01\x0A\x0B\x01\x09DSId\x06\x07nil\x01\x06\x03p\x04\0\x04\0\x06\x01\x04\x05";

/// What a message of client 2 to `chat` has behind its body.
const SENT: &[u8] =
    b"\x01\x06\x09chat\x0A\x0B\x01\x09DSId\x06\x032\x01\x06\x03m\x04\0\x04\0\x06\x01";

/// The places of the listener's requests among the links that come to the gateway. A publisher comes between them: behind the subscribe with
/// a ping and three messages, and behind the first poll with another message.
pub(crate) const PLACES: [usize; 5] = [0, 1, 3, 5, 6];

/// Adds a request whose message has these parts.
fn add_request(bytes: &mut Vec<u8>, message: &[&[u8]]) -> Result<(), AllocError> {
    let mut length = PACKET.len();
    for part in message {
        length = length.wrapping_add(part.len());
    }
    let mut digits = Buffer::new();
    bytes.extend_from_slice(
        b"POST /amf HTTP/1.1\r\nHost: h\r\nContent-Type: application/x-amf\r\nContent-Length: ",
    )?;
    bytes.extend_from_slice(digits.format(length).as_bytes())?;
    bytes.extend_from_slice(b"\r\n\r\n")?;
    bytes.extend_from_slice(PACKET)?;
    for part in message {
        bytes.extend_from_slice(part)?;
    }
    Ok(())
}

/// What the publisher sends at this place.
pub(crate) fn published(alloc: Global, place: usize) -> Result<Vec<u8>, AllocError> {
    let mut bytes = Vec::new(alloc);
    if place == 2 {
        add_request(&mut bytes, &[COMMAND, NAMES, PING])?;
        for body in [
            b"\x06\x05hi".as_slice(),
            b"\x04\x05",
            b"\x0A\x0B\x01\x03a\x02\x01",
        ] {
            add_request(&mut bytes, &[ASYNC, NAMES, body, SENT])?;
        }
    } else {
        add_request(&mut bytes, &[ASYNC, NAMES, b"\x06\x07you", SENT])?;
    }
    Ok(bytes)
}

/// The answers at the listener's places, one behind the other.
fn told_listener(alloc: Global, told: &[Vec<u8>]) -> Result<Vec<u8>, AllocError> {
    let mut bytes = Vec::new(alloc);
    for place in PLACES {
        if let Some(answer) = told.get(place) {
            bytes.extend_from_slice(answer)?;
        }
    }
    Ok(bytes)
}

/// What the links bring to the gateway, in order, where none is cut: the listener's requests, each on a link of its own, and the publisher's.
pub(crate) fn all_links<R: Wait>(rt: &R, alloc: Global) -> Result<Vec<Vec<u8>>, Fail> {
    let mut links = Vec::new(alloc);
    let mut asked = 0;
    for place in 0..7 {
        if PLACES.contains(&place) {
            let told = answers(rt, alloc, &links)?;
            let came = hear(alloc, &told_listener(alloc, &told)?, &[], &[], 2)?;
            let more = came.asked.get(asked..).unwrap_or(&[]);
            links.push(more.to_vec(alloc)?)?;
            asked = came.asked.len();
        } else {
            links.push(published(alloc, place)?)?;
        }
    }
    Ok(links)
}
