use amf_graph::Lack;
use amf_io::{ReadEnd, Refusal};
use amf_wire::Memory;
use std::alloc::{AllocError, AllocFailed};

/// How a job on media ends.
#[derive(Clone, Copy, Debug, PartialEq, Eq)]
pub enum MediaEnd {
    /// The output was written whole.
    Done,
    /// The input is refused.
    Refused(Refusal),
    /// A read of the input failed.
    ReadFault,
    /// A write or a flush of the output failed.
    WriteFault,
    /// AMF 0 has no spelling of the value that is to be set, and this is its first lack.
    NoForm(Lack),
    /// The spelling of the value that is to be set is too long for a tag.
    LongData,
    /// There was no memory left.
    Memory,
}

impl From<Memory> for MediaEnd {
    ghost use Rattle.std.specs.Prelude.{◌≡◌};
    ghost use Rattle.amf_media.specs.declared.ending.MediaEnd.TheVariants.{Memory as NoMemory};

    ghost from_gives = { λ _ e. e ≡ NoMemory };

    fn from(_error: Memory) -> MediaEnd {
        MediaEnd::Memory
    }
}

impl From<AllocError> for MediaEnd {
    ghost use Rattle.std.specs.Prelude.{◌≡◌};
    ghost use Rattle.amf_media.specs.declared.ending.MediaEnd.TheVariants.{Memory as NoMemory};

    ghost from_gives = { λ _ e. e ≡ NoMemory };

    fn from(_error: AllocError) -> MediaEnd {
        MediaEnd::Memory
    }
}

impl<T: Drop> From<AllocFailed<T>> for MediaEnd {
    ghost use Rattle.std.specs.Prelude.{◌≡◌};
    ghost use Rattle.amf_media.specs.declared.ending.MediaEnd.TheVariants.{Memory as NoMemory};

    ghost from_gives = { λ _ e. e ≡ NoMemory };

    fn from(_error: AllocFailed<T>) -> MediaEnd {
        MediaEnd::Memory
    }
}

impl From<ReadEnd> for MediaEnd {
    ghost use Rattle.std.specs.Prelude.{◌≡◌};
    ghost use Rattle.amf_media.specs.Ends.{end_of};

    ghost from_gives = { λ end e. e ≡ end_of end };

    fn from(end: ReadEnd) -> MediaEnd {
        match end {
            ReadEnd::Refused(refusal) => MediaEnd::Refused(refusal),
            ReadEnd::ReadFault => MediaEnd::ReadFault,
            ReadEnd::Memory => MediaEnd::Memory,
        }
    }
}
