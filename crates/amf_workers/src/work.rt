ghost use denote.Param.Send.{IsSend, IsSync};
ghost use Rattle.std.specs.Prelude.{◌≡◌, false, All};
ghost use Rattle.amf_answer_plan.specs.Services.{services_of};
ghost use Rattle.amf_workers.specs.HiredWorkers.{AllServed, HiredServed};

use crate::hired_worker::HiredWorker;
use amf_desk::Desk;
use amf_io::{Gate, Hall};
use amf_service::Registry;
use std::alloc::Global;
use std::sync::Wait;
use std::thread;
use std::thread::Threads;

/// The most threads at a time.
const MOST_WORKERS: usize = 64;

/// All workers serve at once, each up to `each` links of its hall, of which none is out. The desk is that of their passes.
pub(crate) fn work_all<R: Threads + Wait + Sync, H: Hall, G: Gate>(
    rt: &R,
    alloc: Global,
    desk: &Desk,
    registry: &Registry,
    gate: &G,
    hired_workers: &mut [HiredWorker<H>],
    each: u64,
)
where
    H::Link: Send,
    requires { All (λ w. (w.worker.pass.desk ≡ desk.now) × (H.is_out w.worker.hall ≡ false)) hired_workers.old }
    ensures { AllServed H.Hall H.Link.Link (services_of registry.now knows gives) each hired_workers.old hired_workers.new }
{
    thread::for_each_mut(
        rt,
        hired_workers,
        MOST_WORKERS,
        &|_, hired_worker: &mut HiredWorker<H>|
            requires { (hired_worker.now.worker.pass.desk ≡ desk.now) × (H.is_out hired_worker.now.worker.hall ≡ false) × IsSync R.row × IsSend H.row × IsSync G.row }
            ensures { HiredServed H.Hall H.Link.Link (services_of registry.entry.now knows gives) each hired_worker.entry.now hired_worker.exit.now }
        { hired_worker.work(rt, alloc, desk, registry, gate, each) },
    );
}
