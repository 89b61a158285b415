ghost use Rattle.std.specs.Prelude.{◌≡◌};
ghost use Rattle.amf_bytes.specs.declared.ending.BytesEnd.TheVariants.{Memory as NoMemory};

use amf_graph::Lack;
use amf_text_draft::Refusal;
use amf_wire::Memory;
use std::alloc::{AllocError, AllocFailed};

/// Why no bytes were written of a text.
#[derive(Clone, Copy, Debug, PartialEq, Eq)]
pub enum BytesEnd {
    /// The text is refused.
    Refused(Refusal),
    /// A read of the input failed.
    ReadFault,
    /// A write or a flush of the output failed.
    WriteFault,
    /// The value of this number is the first of what the text means that has no canonical spelling, and this is its first lack.
    /// The one value of a text has the number 0, and so has a file; the values of a packet are counted from 0, those of the
    /// headers first.
    NoForm { value: u32, lack: Lack },
    /// There was no memory left.
    Memory,
}

impl From<Memory> for BytesEnd {
    ghost from_gives = { λ _ e. e ≡ NoMemory };

    fn from(_error: Memory) -> BytesEnd {
        BytesEnd::Memory
    }
}

impl From<AllocError> for BytesEnd {
    ghost from_gives = { λ _ e. e ≡ NoMemory };

    fn from(_error: AllocError) -> BytesEnd {
        BytesEnd::Memory
    }
}

impl<T: Drop> From<AllocFailed<T>> for BytesEnd {
    ghost from_gives = { λ _ e. e ≡ NoMemory };

    fn from(_error: AllocFailed<T>) -> BytesEnd {
        BytesEnd::Memory
    }
}
