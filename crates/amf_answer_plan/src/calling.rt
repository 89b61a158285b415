//! Calls of services.

ghost use Rattle.std.specs.Prelude.{◌≡◌, ◌≤◌, IfOk, Err};
ghost use Rattle.amf_graph.specs.Bounds.{weight};
ghost use Rattle.amf_service.specs.Meaning.{Called, heaviest_arguments};
ghost use Rattle.amf_service.specs.Registry.{called, AnswersCall};
ghost use Rattle.amf_answer_plan.specs.Services.{services_of};
ghost use Rattle.amf_answer_plan.specs.Calls.{ForGraphsOf, ComesTo, AnswerFits};

use crate::causes::{no_operation, no_service, service_fault};
use amf_graph::Rooted;
use amf_service::{CallEnd, Registry};
use amf_wire::{Memory, Name};
use flex_msgs::FaultText;
use std::alloc::Global;

/// What a call of a service comes to.
#[derive(Drop)]
pub enum ServiceAnswer {
    /// Its result.
    Gave(Rooted),
    /// Why there is none.
    Failed(FaultText),
}

/// Why a call has no result. It gives up where there is no memory.
fn cause_of(alloc: Global, end: CallEnd) -> Result<FaultText, Memory>
    ensures comes { IfOk result (λ f. (c : Called) → AnswersCall c (Err end) → ComesTo c (ServiceAnswer.Failed f)) }
    ensures fits { IfOk result (λ f. (c : Called) → AnswersCall c (Err end) → AnswerFits (ServiceAnswer.Failed f)) }
{
    match end {
        CallEnd::NoService => no_service(alloc),
        CallEnd::NoOperation => no_operation(alloc),
        CallEnd::Fault(text) => service_fault(alloc, text),
        CallEnd::Memory => Err(Memory),
    }
}

/// What the service of this name gives for the arguments. It gives up where there is no memory.
pub fn call_service(
    alloc: Global,
    registry: &Registry,
    service: &Name,
    operation: &Name,
    args: &Rooted,
) -> Result<ServiceAnswer, Memory>
    requires { weight args.now.arena ≤ heaviest_arguments }
    ensures comes { IfOk result (λ a. ForGraphsOf args.now (λ g. ComesTo (called (services_of registry.now knows gives) service.now operation.now g) a)) }
    ensures fits { IfOk result (λ a. AnswerFits a) }
{
    args.is_finished();
    registry.is_lawful(service);
    match registry.call(alloc, service, operation, args) {
        Ok(graph) => Ok(ServiceAnswer::Gave(graph)),
        Err(end) => {
            let cause = cause_of(alloc, end)?;
            Ok(ServiceAnswer::Failed(cause))
        }
    }
}
