ghost use Rattle.std.specs.Prelude.{◌≡◌};

use amf_io::{ReadEnd, Refusal};
use amf_wire::Memory;

/// Why a pass did not write all.
#[derive(Clone, Copy, Debug, PartialEq, Eq, Drop)]
pub enum PassEnd {
    /// The input is refused.
    Refused(Refusal),
    /// A read of the input failed.
    ReadFault,
    /// A write or a flush of the output failed.
    WriteFault,
    /// There was no memory left.
    Memory,
}

impl From<Memory> for PassEnd {
    ghost use Rattle.rtmp_rechunk.specs.declared.pass_end.PassEnd.TheVariants.{Memory as NoMemory};

    ghost from_gives = { λ _ e. e ≡ NoMemory };

    fn from(_error: Memory) -> PassEnd {
        PassEnd::Memory
    }
}

impl From<ReadEnd> for PassEnd {
    ghost use Rattle.rtmp_rechunk.specs.Ends.{end_of};

    ghost from_gives = { λ end e. e ≡ end_of end };

    fn from(end: ReadEnd) -> PassEnd {
        match end {
            ReadEnd::Refused(refusal) => PassEnd::Refused(refusal),
            ReadEnd::ReadFault => PassEnd::ReadFault,
            ReadEnd::Memory => PassEnd::Memory,
        }
    }
}
