use crate::gateway::answers;
use crate::listener::{End, Heard, hear};
use crate::requests::published;
use std::alloc::{AllocError, Global};
use std::sync::Wait;
use std::test::Fail;

/// The place of the publisher's link among those that come to the gateway: behind the ping and the subscribe.
const PUBLISHER: usize = 2;

/// What the gateway answered to all links but the publisher's.
fn told_listener(alloc: Global, told: &[Vec<u8>]) -> Result<Vec<u8>, AllocError> {
    let mut bytes = Vec::new(alloc);
    for (place, answer) in told.iter().enumerate() {
        if place != PUBLISHER {
            bytes.extend_from_slice(answer)?;
        }
    }
    Ok(bytes)
}

/// What comes of twenty polls over one link, whose requests are answered one after the other.
fn twenty_polls<R: Wait>(rt: &R, alloc: Global) -> Result<Heard, Fail> {
    let mut links = Vec::new(alloc);
    let mut asked = 0;
    for place in 0..24 {
        if place == PUBLISHER {
            links.push(published(alloc, PUBLISHER)?)?;
        } else {
            let told = answers(rt, alloc, &links)?;
            let came = hear(alloc, &told_listener(alloc, &told)?, &[], &[], 20)?;
            let more = came.asked.get(asked..).unwrap_or(&[]);
            links.push(more.to_vec(alloc)?)?;
            asked = came.asked.len();
        }
    }
    let told = answers(rt, alloc, &links)?;
    hear(alloc, &told_listener(alloc, &told)?, &[], &[], 20)
}

#[test]
fn many_polls(rt: HostRuntime) -> Result<(), Fail> {
    let came = twenty_polls(&rt, rt.alloc())?;
    assert!(rt; came.end == End::Done);
    assert!(rt; came.dials == 1);
    assert!(rt;
        came.written.as_slice() == b"\x06\x05hi\x04\x05\x0A\x0B\x01\x03a\x02\x01".as_slice()
    );
    Ok(())
}
