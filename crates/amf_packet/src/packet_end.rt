ghost use Rattle.std.specs.Prelude.{◌≡◌};
ghost use Rattle.amf_packet.specs.declared.packet_end.PacketEnd.TheVariants.{Memory};

use amf_graph::Lack;
use std::alloc::{AllocError, AllocFailed};
use std::error::Error;
use std::fmt;

/// Why a packet was not written. Values are counted from 0, those of the headers first.
#[derive(Clone, Copy, Debug, PartialEq, Eq)]
pub enum PacketEnd {
    /// It has more than 65,535 headers or messages (AMF 0, 4.1).
    TooMany,
    /// A text that stands with this value has more than 65,535 bytes (AMF 0, 4.2 and 4.3).
    LongText(u32),
    /// This value has no canonical spelling in its form.
    NoSpelling { value: u32, lack: Lack },
    /// There was no memory left for it.
    Memory,
}

impl fmt::Display for PacketEnd {
    fn fmt<W: fmt::Write>(&self, f: &mut fmt::Formatter<W>) -> fmt::Result {
        match self {
            PacketEnd::TooMany => f.write_str("too many headers or messages"),
            PacketEnd::LongText(value) => write!(f, "a long text with value {value}"),
            PacketEnd::NoSpelling { value, lack } => {
                write!(f, "no spelling of value {value} from node {}", lack.node)
            }
            PacketEnd::Memory => f.write_str("no memory"),
        }
    }
}

impl Error for PacketEnd {}

impl From<AllocError> for PacketEnd {
    ghost from_gives = { λ _ e. e ≡ Memory };

    fn from(_error: AllocError) -> PacketEnd {
        PacketEnd::Memory
    }
}

impl<T: Drop> From<AllocFailed<T>> for PacketEnd {
    ghost from_gives = { λ _ e. e ≡ Memory };

    fn from(_error: AllocFailed<T>) -> PacketEnd {
        PacketEnd::Memory
    }
}

impl From<amf_wire::Memory> for PacketEnd {
    ghost from_gives = { λ _ e. e ≡ Memory };

    fn from(_error: amf_wire::Memory) -> PacketEnd {
        PacketEnd::Memory
    }
}
