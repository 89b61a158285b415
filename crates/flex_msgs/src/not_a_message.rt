ghost use Rattle.std.specs.Prelude.{◌≡◌};
ghost use Rattle.flex_msgs.specs.declared.not_a_message.NotAMessage.TheVariants.{Memory};

use crate::Member;
use std::alloc::{AllocError, AllocFailed};
use thiserror::Error;

/// Why a graph is no message that is served.
#[derive(Clone, Copy, Debug, PartialEq, Eq, Error)]
pub enum NotAMessage {
    /// The root is no object.
    #[error("no object")]
    NotObject,
    /// The object is of another class than the three that are served.
    #[error("a class that is not served")]
    NotServed,
    /// The first member, in the order of [`Member`], that is of another kind than the class asks for.
    #[error("{0} is of another kind")]
    WrongKind(Member),
    /// There was no memory left for it.
    #[error("no memory")]
    Memory,
}

impl From<AllocError> for NotAMessage {
    ghost from_gives = { λ _ e. e ≡ Memory };

    fn from(_error: AllocError) -> NotAMessage {
        NotAMessage::Memory
    }
}

impl<T: Drop> From<AllocFailed<T>> for NotAMessage {
    ghost from_gives = { λ _ e. e ≡ Memory };

    fn from(_error: AllocFailed<T>) -> NotAMessage {
        NotAMessage::Memory
    }
}

impl From<amf_wire::Memory> for NotAMessage {
    ghost from_gives = { λ _ e. e ≡ Memory };

    fn from(_error: amf_wire::Memory) -> NotAMessage {
        NotAMessage::Memory
    }
}
