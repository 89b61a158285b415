ghost use Rattle.std.specs.Prelude.{◌≡◌};

use amf_wire as wire;
use std::alloc::AllocError;

/// Why there is no shared object of a name, a version and a graph.
#[derive(Clone, Copy, Debug, PartialEq, Eq)]
pub enum SolEnd {
    /// The name has more than 65,535 bytes, which its length field cannot say.
    LongName,
    /// The root is not a dynamic object without class and sealed names, or something that it reaches holds it.
    NotAHolder,
    /// There was no memory left.
    Memory,
}

impl From<AllocError> for SolEnd {
    ghost use Rattle.amf_sol.specs.declared.sol_end.SolEnd.TheVariants.{Memory};

    ghost from_gives = { λ _ e. e ≡ Memory };

    fn from(_error: AllocError) -> SolEnd {
        SolEnd::Memory
    }
}

impl From<wire::Memory> for SolEnd {
    ghost use Rattle.amf_sol.specs.declared.sol_end.SolEnd.TheVariants.{Memory};

    ghost from_gives = { λ _ e. e ≡ Memory };

    fn from(_error: wire::Memory) -> SolEnd {
        SolEnd::Memory
    }
}
