//! The target of a plain call.

ghost use Rattle.std.specs.Prelude.{◌≡◌, IfOk, IfSome, IsNone, Some, None};
ghost use Rattle.amf_answer_plan.specs.PlainCalls.{at_last_dot};

use amf_wire::{Memory, Name};
use std::alloc::Global;
use std::marker::Model;

/// The service and the operation that a target names.
#[derive(Drop)]
pub struct Target {
    pub service: Name,
    pub operation: Name,
}

impl Model for Target {
    ghost use Rattle.amf_answer_plan.specs.PlainCalls.{Target};

    ghost Value = { Target };

    ghost view = { λ t. record { service = t.service; operation = t.operation } };
}

/// What stands before the last dot of the bytes, and what stands after it.
fn parted(bytes: &[u8]) -> Option<(&[u8], &[u8])>
    ensures some { IfSome result (λ p. at_last_dot bytes.now ≡ Some (record { service = p.0.now; operation = p.1.now })) }
    ensures none { IsNone result → at_last_dot bytes.now ≡ None }
{
    let mut front = bytes;
    while let [more @ .., last] = front {
        if *last == b'.' {
            return Some((more, &bytes[front.len()..]));
        }
        front = more;
    }
    None
}

impl Target {
    /// The service that stands before the last dot and the operation that stands after it. There is neither where there is no
    /// dot.
    pub fn of(alloc: Global, uri: &Name) -> Result<Option<Target>, Memory>
        ensures { IfOk result (λ target. target ≡ at_last_dot uri.now) }
    {
        let Some((service, operation)) = parted(uri.as_bytes()) else {
            return Ok(None);
        };
        Ok(Some(Target {
            service: Name::of_bytes(alloc, service)?,
            operation: Name::of_bytes(alloc, operation)?,
        }))
    }
}
