ghost use Rattle.std.specs.Prelude.{◌≡◌};
ghost use Rattle.amf_graph.specs.declared.build_end.BuildEnd.TheVariants.{Memory};

use std::alloc::{AllocError, AllocFailed};
use thiserror::Error;

/// Why a builder did not take what it was given. It is as before.
#[derive(Clone, Copy, Debug, PartialEq, Eq, Error)]
pub enum BuildEnd {
    /// There was no memory left for it.
    #[error("no memory")]
    Memory,
    /// It is more than the headers of the formats have room for.
    #[error("the graph is full")]
    Full,
}

impl From<AllocError> for BuildEnd {
    ghost from_gives = { λ _ e. e ≡ Memory };

    fn from(_error: AllocError) -> BuildEnd {
        BuildEnd::Memory
    }
}

impl<T: Drop> From<AllocFailed<T>> for BuildEnd {
    ghost from_gives = { λ _ e. e ≡ Memory };

    fn from(_error: AllocFailed<T>) -> BuildEnd {
        BuildEnd::Memory
    }
}

impl From<amf_wire::Memory> for BuildEnd {
    ghost from_gives = { λ _ e. e ≡ Memory };

    fn from(_error: amf_wire::Memory) -> BuildEnd {
        BuildEnd::Memory
    }
}
