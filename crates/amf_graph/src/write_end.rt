ghost use Rattle.std.specs.Prelude.{◌≡◌};
ghost use Rattle.amf_graph.specs.declared.write_end.WriteEnd.TheVariants.{Memory};

use crate::Lack;
use std::alloc::{AllocError, AllocFailed};
use thiserror::Error;

/// Why a graph was not written.
#[derive(Clone, Copy, Debug, PartialEq, Eq, Error)]
pub enum WriteEnd {
    /// The format has no spelling of the graph.
    #[error("no spelling from node {}", .0.node)]
    NoSpelling(Lack),
    /// There was no memory left for it.
    #[error("no memory")]
    Memory,
}

impl From<AllocError> for WriteEnd {
    ghost from_gives = { λ _ e. e ≡ Memory };

    fn from(_error: AllocError) -> WriteEnd {
        WriteEnd::Memory
    }
}

impl<T: Drop> From<AllocFailed<T>> for WriteEnd {
    ghost from_gives = { λ _ e. e ≡ Memory };

    fn from(_error: AllocFailed<T>) -> WriteEnd {
        WriteEnd::Memory
    }
}

impl From<amf_wire::Memory> for WriteEnd {
    ghost from_gives = { λ _ e. e ≡ Memory };

    fn from(_error: amf_wire::Memory) -> WriteEnd {
        WriteEnd::Memory
    }
}
