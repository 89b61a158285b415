ghost use Rattle.std.specs.Prelude.{◌≡◌, ◌*◌, ◌^◌, ◌≤◌, IfOk, IfErr, vec_len};
ghost use Rattle.amf_workers.specs.HiredWorkers.{Hires};

use crate::hired_worker::HiredWorker;
use amf_desk::{Desk, Pass};
use amf_gateway::{Worker, WorkerEnd};
use amf_io::Hall;
use std::alloc::Global;
use std::hash::RandomState;

/// How many calls a worker may make.
const SHARE: u64 = 1 << 55;

/// Splits off a pass of 2^55 calls for each hall, in order, and makes workers of them, numbered from 0, with these keys. The pass is the first of
/// the desk, none was split off it yet, and there are at most 64 halls. The halls are handed back where there is no memory.
pub(crate) fn hire<H: Hall>(
    alloc: Global,
    desk: &Desk,
    first: &mut Pass,
    mut halls: Vec<H>,
    keys: Option<RandomState>,
) -> Result<Vec<HiredWorker<H>>, Vec<H>>
    requires desk { first.old.desk ≡ desk.now }
    requires first { (first.old.number ≡ 0) × (first.old.splits ≡ 0) }
    requires room { (vec_len halls ≤ 64) × (64 * 2 ^ 55 ≤ first.old.budget) }
    ensures desk { (first.new.desk ≡ first.old.desk) × (first.new.destinations ≡ first.old.destinations) × (first.new.number ≡ 0) }
    ensures hired_workers { IfOk result (λ hired_workers. Hires first.old first.new (vec_len halls) halls.items hired_workers.items) }
    ensures back { IfErr result (λ back. back.items ≡ halls.items) }
{
    let Ok(mut hired_workers) = Vec::with_capacity(alloc, halls.len()) else {
        return Err(halls);
    };
    halls.reverse();
    let mut number = 0;
    while let Some(hall) = halls.pop() {
        let pass = desk.split(first, SHARE);
        hired_workers.push_reserved(HiredWorker {
            worker: Worker::keyed(number, pass, hall, keys),
            end: WorkerEnd::Done { starved: false },
        });
        number += 1;
    }
    halls.destroy_empty();
    Ok(hired_workers)
}
