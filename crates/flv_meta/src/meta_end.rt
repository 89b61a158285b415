ghost use Rattle.std.specs.Prelude.{◌≡◌};
ghost use Rattle.flv_meta.specs.declared.meta_end.MetaTagEnd.TheVariants.{Memory};

use amf_graph::Lack;
use amf_io::Refusal;
use thiserror::Error;

/// Why a metadata tag gave no value.
#[derive(Clone, Copy, Debug, PartialEq, Eq, Error)]
pub enum MetaEnd {
    /// The bytes behind the name are refused. The offset is counted from the first byte of the cursor that gave the tag.
    #[error("metadata refused at {}", .0.at)]
    Refused(Refusal),
    /// There was no memory left.
    #[error("no memory")]
    Memory,
}

/// Why a value was not written as a metadata tag.
#[derive(Clone, Copy, Debug, PartialEq, Eq, Error)]
pub enum MetaTagEnd {
    /// AMF 0 has no spelling of the value.
    #[error("no spelling from node {}", .0.node)]
    NoSpelling(Lack),
    /// The data would have more than 16,777,215 bytes, which their size cannot say (E.4.1).
    #[error("data that are too long for a tag")]
    LongData,
    /// There was no memory left.
    #[error("no memory")]
    Memory,
}

impl From<amf_wire::Memory> for MetaTagEnd {
    ghost from_gives = { λ _ e. e ≡ Memory };

    fn from(_error: amf_wire::Memory) -> MetaTagEnd {
        MetaTagEnd::Memory
    }
}
