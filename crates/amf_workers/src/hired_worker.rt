ghost use Rattle.std.specs.Prelude.{◌≡◌, false};
ghost use Rattle.amf_answer_plan.specs.Services.{services_of};
ghost use Rattle.amf_workers.specs.HiredWorkers.{HiredServed};

use amf_desk::Desk;
use amf_gateway::{Worker, WorkerEnd};
use amf_io::{Gate, Hall};
use amf_service::Registry;
use std::alloc::Global;
use std::sync::Wait;

/// A worker, and how it ended.
pub(crate) struct HiredWorker<H: Hall> {
    pub worker: Worker<H>,
    pub end: WorkerEnd,
}

impl<H: Hall> HiredWorker<H> {
    /// Serves up to `each` links of the worker's hall, of which none is out. The desk is that of its pass.
    pub fn work<R: Wait, G: Gate>(
        &mut self,
        rt: &R,
        alloc: Global,
        desk: &Desk,
        registry: &Registry,
        gate: &G,
        each: u64,
    )
        requires { (self.old.worker.pass.desk ≡ desk.now) × (H.is_out self.old.worker.hall ≡ false) }
        ensures { HiredServed H.Hall H.Link.Link (services_of registry.now knows gives) each self.old self.new }
    {
        self.end = self.worker.serve(rt, alloc, desk, registry, gate, each);
    }
}
