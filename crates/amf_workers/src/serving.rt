ghost use Rattle.std.specs.Prelude.{◌≡◌, ◌≤◌, ◌^◌, [], false, All, vec_len};
ghost use Rattle.amf_answer_plan.specs.Services.{services_of};
ghost use Rattle.amf_workers.specs.Together.{Serves, destinations};
ghost use Rattle.amf_workers.specs.Halls.{ServesHalls};

use crate::answer::ServeAnswer;
use crate::gather::{gather, give_back};
use crate::hire::hire;
use crate::opening::open_desk;
use crate::work::work_all;
use amf_desk::{Desk, Pass};
use amf_io::{Front, Gate, Hall, OpenEnd};
use amf_service::Registry;
use std::alloc::Global;
use std::hash::RandomState;
use std::random::RandomSource;
use std::sync::Wait;
use std::thread::Threads;

/// A worker for each hall serves it, all at once, and the halls go back to the front. The desk is new and the pass its first one,
/// and there are at most 64 halls, of which none has served, failed or a link out.
fn serve_halls<R: Threads + Wait + RandomSource + Sync, F: Front, G: Gate>(
    rt: &R,
    alloc: Global,
    desk: Desk,
    mut first: Pass,
    front: &mut F,
    gate: &G,
    registry: &Registry,
    halls: Vec<F::Hall>,
    each: u64,
) -> ServeAnswer
where
    <F::Hall as Hall>::Link: Send,
    requires first { first ≡ record { desk = desk; destinations = destinations; number = 0; seen = []; budget = 2 ^ 62; splits = 0 } }
    requires few { vec_len halls ≤ 64 }
    requires whole { All (λ h. F.Hall.faults h ≡ 0) halls.items }
    requires fresh { All (λ h. F.Hall.served h ≡ []) halls.items }
    requires none_out { All (λ h. F.Hall.is_out h ≡ false) halls.items }
    ensures { ServesHalls F.Front F.Hall.Hall F.Hall.Link.Link (services_of registry.now knows gives) each halls.items front.old front.new result }
{
    let keys = RandomState::new(rt).ok();
    let mut hired_workers = match hire(alloc, &desk, &mut first, halls, keys) {
        Ok(hired_workers) => hired_workers,
        Err(halls) => {
            give_back(front, halls);
            return ServeAnswer::Memory;
        }
    };
    work_all(
        rt,
        alloc,
        &desk,
        registry,
        gate,
        hired_workers.as_mut_slice(),
        each,
    );
    let ends = gather(&desk, &mut first, front, hired_workers);
    ServeAnswer::Closed {
        counts: desk.close(rt, first),
        starved: ends.starved,
        faulty: ends.faulty,
    }
}

/// Opens a hall for each worker, at most 64, serves up to `each` links of each hall, all halls at once in threads of their own,
/// and gives the halls back to the front. All links are served at one desk, with the destinations `chat` and `news`. It may
/// wait for the links.
///
/// The runtime gives the keys by which the workers' readers and writers look texts up, and the broker topics, so that no request can be
/// made that takes long; where it gives none, they are fixed.
pub fn serve<R: Threads + Wait + RandomSource + Sync, F: Front, G: Gate>(
    rt: &R,
    alloc: Global,
    front: &mut F,
    gate: &G,
    registry: &Registry,
    port: u16,
    workers: u32,
    each: u64,
) -> ServeAnswer
where
    <F::Hall as Hall>::Link: Send,
    requires { workers ≤ 64 }
    ensures { Serves F.Front F.Hall.Hall F.Hall.Link.Link (services_of registry.now knows gives) port workers each front.old front.new result }
{
    let keys = RandomState::new(rt).ok();
    let Ok((desk, first)) = open_desk(alloc, keys) else {
        return ServeAnswer::Memory;
    };
    match front.open(alloc, port, workers) {
        Ok(halls) => serve_halls(rt, alloc, desk, first, front, gate, registry, halls, each),
        Err(OpenEnd::Failed) => ServeAnswer::NotOpened,
        Err(OpenEnd::Memory) => ServeAnswer::Memory,
    }
}
