ghost use Rattle.std.specs.Prelude.{◌≡◌};
ghost use Rattle.amf_commands.specs.declared.run_end.RunEnd.TheVariants.{NoMemory};

use amf_graph::Lack;
use amf_io::{ReadEnd, Refusal};
use amf_wire::Memory;
use std::alloc::{AllocError, AllocFailed};

/// Why a run wrote no whole output.
#[derive(Clone, Copy, Debug, PartialEq, Eq)]
pub enum RunEnd {
    /// The input is refused: status 1.
    Refused(Refusal),
    /// The words are invalid: status 2.
    Usage,
    /// A read of the input failed: status 3.
    ReadFault,
    /// A write or a flush of the output failed: status 4.
    WriteFault,
    /// There was no memory left: status 5.
    NoMemory,
    /// The front, or a hall of it, failed: status 6.
    FrontFault,
    /// The value of this number is the first that has no canonical spelling, and this is its first lack: status 7. The one
    /// value of an input has the number 0, and so has a file; the values of a packet are counted from 0, those of the headers
    /// first.
    NoForm { value: u32, lack: Lack },
}

impl RunEnd {
    ghost use Rattle.amf_commands.specs.Lines.{status_of};

    /// The status of the program.
    pub fn status(self) -> u8
        ensures { result ≡ status_of self }
    {
        match self {
            RunEnd::Refused(_) => 1,
            RunEnd::Usage => 2,
            RunEnd::ReadFault => 3,
            RunEnd::WriteFault => 4,
            RunEnd::NoMemory => 5,
            RunEnd::FrontFault => 6,
            RunEnd::NoForm { .. } => 7,
        }
    }
}

impl From<Memory> for RunEnd {
    ghost from_gives = { λ _ e. e ≡ NoMemory };

    fn from(_error: Memory) -> RunEnd {
        RunEnd::NoMemory
    }
}

impl From<AllocError> for RunEnd {
    ghost from_gives = { λ _ e. e ≡ NoMemory };

    fn from(_error: AllocError) -> RunEnd {
        RunEnd::NoMemory
    }
}

impl<T: Drop> From<AllocFailed<T>> for RunEnd {
    ghost from_gives = { λ _ e. e ≡ NoMemory };

    fn from(_error: AllocFailed<T>) -> RunEnd {
        RunEnd::NoMemory
    }
}

impl From<ReadEnd> for RunEnd {
    ghost use Rattle.amf_commands.specs.Lines.{end_of};

    ghost from_gives = { λ end e. e ≡ end_of end };

    fn from(end: ReadEnd) -> RunEnd {
        match end {
            ReadEnd::Refused(refusal) => RunEnd::Refused(refusal),
            ReadEnd::ReadFault => RunEnd::ReadFault,
            ReadEnd::Memory => RunEnd::NoMemory,
        }
    }
}
