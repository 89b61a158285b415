ghost use Rattle.std.specs.Prelude.{◌≡◌, ◌≤◌, ℕ, List, Bool, IfOk};
ghost use Rattle.amf_graph.specs.Bounds.{weight};
ghost use Rattle.amf_graph.specs.Graph.{Graph};
ghost use Rattle.amf_graph.specs.Rooted.{content};
ghost use Rattle.amf_service.specs.Meaning.{Given, Answers, IsLawful, asked, heaviest_arguments, heaviest_result};
ghost use Rattle.amf_service.specs.declared.service.ServiceEnd.TheVariants.{Memory as NoMemory};

use amf_graph::Rooted;
use amf_wire::{Memory, Name};
use std::alloc::Global;

/// Why a service has no result.
#[derive(Debug, Drop)]
pub enum ServiceEnd {
    /// The service does not know the operation.
    Unknown,
    /// The operation has no result for these arguments: a text of at most 65,535 bytes.
    Fault(Name),
    /// There was no memory left for it.
    Memory,
}

impl From<Memory> for ServiceEnd {
    ghost from_gives = { λ _ e. e ≡ NoMemory };

    fn from(_error: Memory) -> ServiceEnd {
        ServiceEnd::Memory
    }
}

/// A service, with the operations that it knows.
pub trait Service: Send + Sync + Drop {
    /// Whether it knows an operation.
    ghost knows: { Self → List ℕ → Bool };

    /// What an operation gives for a graph of arguments.
    ghost gives: { Self → List ℕ → Graph → Given };

    /// What the operation gives for the arguments, whose weight is at most 2^21 (nodes and one, values, names, traits with their
    /// sealed names, bytes of texts and of contents). The result has a weight of at most 2^26. `Unknown` comes exactly where
    /// the service does not know the operation, `Fault` exactly where the operation gives that fault, and `Memory` where
    /// there is no room.
    fn answers(&self, alloc: Global, operation: &Name, args: &Rooted) -> Result<Rooted, ServiceEnd>
        requires { weight args.now.arena ≤ heaviest_arguments }
        ensures answer { Answers (asked (record { knows = knows self.now; gives = gives self.now }) operation.now (content args.now)) result }
        ensures light { IfOk result (λ graph. weight graph.arena ≤ heaviest_result) };

    /// Whole isomorphic arguments give isomorphic results and equal faults. It does nothing.
    fn is_lawful(&self)
        ensures { IsLawful (gives self.now) };
}
