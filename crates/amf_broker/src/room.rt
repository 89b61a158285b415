ghost use Rattle.std.specs.Prelude.{◌≡◌, ◌≤◌, [], vec_capacity};
ghost use Rattle.amf_broker.specs.declared.limits.TheConstants.{MAX_SUBS};

use crate::{MAX_SUBS, SubId};
use amf_wire::Memory;
use std::alloc::Global;

/// Room for the subscriptions of a client that end.
#[derive(Drop)]
pub(crate) struct Room {
    pub(crate) ended: Vec<SubId>,
    ghost ended_empty: { ended.items ≡ [] },
    ghost ended_fits: { MAX_SUBS ≤ vec_capacity ended },
}

impl Room {
    pub(crate) fn new(alloc: Global) -> Result<Room, Memory> {
        Ok(Room {
            ended: Vec::with_capacity(alloc, MAX_SUBS as usize)?,
        })
    }
}
