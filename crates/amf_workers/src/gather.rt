ghost use Rattle.std.specs.Prelude.{◌≡◌, ◌≢◌, ◌||◌, true, false, ◌∷◌, [], map};
ghost use Rattle.std.specs.List.{AllByRecursion, list_any};
ghost use Rattle.amf_desk.specs.Passes.{JoinedTo};
ghost use Rattle.amf_gateway.specs.Served.{starved_in};
ghost use Rattle.amf_workers.specs.HiredWorkers.{CanJoin};
ghost use Rattle.amf_workers.specs.Together.{failed_in};
ghost use Rattle.amf_workers.specs.Gathered.{Gathered, TookBack};

use crate::hired_worker::HiredWorker;
use amf_desk::{Desk, Pass};
use amf_gateway::WorkerEnd;
use amf_io::Front;

/// How workers ended.
#[derive(Clone, Copy)]
pub(crate) struct Ends {
    /// Whether a link of one ended because memory ran out.
    pub starved: bool,
    /// Whether the hall of one failed.
    pub faulty: bool,
}

impl Ends {
    /// With one more worker, which ended so.
    fn and(self, end: WorkerEnd) -> Ends
        ensures starved { result.starved ≡ (self.starved || starved_in end) }
        ensures faulty { result.faulty ≡ (self.faulty || failed_in end) }
    {
        match end {
            WorkerEnd::Done { starved } => Ends {
                starved: self.starved || starved,
                faulty: self.faulty,
            },
            WorkerEnd::FrontFault { starved } => Ends {
                starved: self.starved || starved,
                faulty: true,
            },
        }
    }
}

/// Gives the hall of a worker back to the front, joins its pass into the first one, and tells how it ended.
fn take_in<F: Front>(
    desk: &Desk,
    first: &mut Pass,
    front: &mut F,
    hired_worker: HiredWorker<F::Hall>,
) -> WorkerEnd
    requires desk { first.old.desk ≡ desk.now }
    requires worker { (hired_worker.worker.pass.desk ≡ desk.now) × (hired_worker.worker.pass.number ≢ 0) }
    ensures pass { JoinedTo first.old hired_worker.worker.pass first.new }
    ensures hall { TookBack F.Front F.Hall.faults front.old front.new (hired_worker.worker.hall ∷ []) }
    ensures end { result ≡ hired_worker.end }
{
    let HiredWorker { worker, end } = hired_worker;
    let (pass, hall) = worker.into_parts();
    front.back(hall);
    desk.join(first, pass);
    end
}

/// Gives the halls of the workers back to the front, in their order, joins their passes into the first one, and tells how they
/// ended. The desk is that of all passes, of which the first one is not among the workers'.
pub(crate) fn gather<F: Front>(
    desk: &Desk,
    first: &mut Pass,
    front: &mut F,
    mut hired_workers: Vec<HiredWorker<F::Hall>>,
) -> Ends
    requires desk { first.old.desk ≡ desk.now }
    requires workers { AllByRecursion (CanJoin first.old) hired_workers.items }
    ensures passes { Gathered first.old first.new (map (λ w. w.worker.pass) hired_workers.items) }
    ensures halls { TookBack F.Front F.Hall.faults front.old front.new (map (λ w. w.worker.hall) hired_workers.items) }
    ensures starved { result.starved ≡ list_any starved_in (map (λ w. w.end) hired_workers.items) }
    ensures faulty { result.faulty ≡ list_any failed_in (map (λ w. w.end) hired_workers.items) }
{
    let mut ends = Ends {
        starved: false,
        faulty: false,
    };
    hired_workers.reverse();
    while let Some(hired_worker) = hired_workers.pop() {
        let end = take_in(desk, first, front, hired_worker);
        ends = ends.and(end);
    }
    hired_workers.destroy_empty();
    ends
}

/// Gives halls back to the front, in their order.
pub(crate) fn give_back<F: Front>(front: &mut F, mut halls: Vec<F::Hall>)
    ensures { TookBack F.Front F.Hall.faults front.old front.new halls.items }
{
    halls.reverse();
    while let Some(unserved) = halls.pop() {
        front.back(unserved);
    }
    halls.destroy_empty();
}
