ghost use Rattle.std.specs.Prelude.{◌≡◌};

use crate::{ClientId, SubId, Topic};
use amf_wire::Name;

/// What a caller asks of the broker.
#[derive(Debug, Drop)]
pub enum Call {
    /// A new client.
    Connect,
    /// A new subscription of a client.
    Subscribe {
        client: ClientId,
        topic: Topic,
    },
    /// The end of a subscription. What is queued for it stays.
    Unsubscribe {
        client: ClientId,
        sub: SubId,
    },
    /// A message for each live subscription of the topic.
    Publish {
        client: ClientId,
        topic: Topic,
        message: Name,
    },
    /// All that is queued for a client.
    Poll {
        client: ClientId,
    },
    /// The poll of this number, which counts from 1: all that is queued, or the batch of the poll before once more.
    PollNumbered {
        client: ClientId,
        number: u64,
    },
    /// The end of a client, of its subscriptions and of its queue.
    Disconnect {
        client: ClientId,
    },
}

impl Call {
    ghost use Rattle.amf_broker.specs.Machine.{named_by};

    /// The client that the call names.
    pub(crate) fn client(&self) -> Option<ClientId>
        ensures { result ≡ named_by self.now }
    {
        match self {
            Call::Connect => None,
            Call::Subscribe { client, .. }
            | Call::Unsubscribe { client, .. }
            | Call::Publish { client, .. }
            | Call::Poll { client }
            | Call::PollNumbered { client, .. }
            | Call::Disconnect { client } => Some(*client),
        }
    }
}
