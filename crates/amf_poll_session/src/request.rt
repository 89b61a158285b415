ghost use Rattle.std.specs.Prelude.{◌≡◌, IfOk};
ghost use Rattle.amf_wire.specs.Text.{IsText};
ghost use Rattle.amf_poll_session.specs.Requests.{message_id, operation};

use amf_wire::{Memory, Name};
use itoa::Buffer;
use std::alloc::Global;

/// A request of a listener.
#[derive(Clone, Copy, Debug, PartialEq, Eq)]
pub(crate) enum Request {
    /// Asks for the number of a client.
    Ping,
    /// Subscribes to the destination.
    Subscribe,
    /// Asks for the batch of this number.
    Poll(u64),
    /// Says that the client goes.
    Disconnect,
}

impl Request {
    /// Its message identifier.
    pub(crate) fn message_id(self, alloc: Global) -> Result<Name, Memory>
        ensures id { IfOk result (λ id. id ≡ message_id self) }
        ensures text { IfOk result (λ id. IsText id) }
    {
        match self {
            Request::Ping => Name::of_bytes(alloc, b"p"),
            Request::Subscribe => Name::of_bytes(alloc, b"s"),
            Request::Poll(number) => {
                let mut digits = Buffer::new();
                Name::of_bytes(alloc, digits.format(number).as_bytes())
            }
            Request::Disconnect => Name::of_bytes(alloc, b"d"),
        }
    }

    /// Its operation (the AMF profile of Flex messaging: flex.messaging.messages.CommandMessage).
    pub(crate) fn operation(self) -> u8
        ensures { result ≡ operation self }
    {
        match self {
            Request::Ping => 5,
            Request::Subscribe => 0,
            Request::Poll(_) => 2,
            Request::Disconnect => 12,
        }
    }
}
