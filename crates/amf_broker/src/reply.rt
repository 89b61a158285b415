ghost use Rattle.std.specs.Prelude.{◌≡◌};

use crate::{ClientId, Payload, SubId};
use amf_wire::Name;
use std::marker::Model;

/// A message that waits for a client, or was handed to it.
#[derive(Debug, Drop)]
pub struct Delivery {
    pub sub: SubId,
    /// The message's number. Numbers count from 1, and none is used again.
    pub number: u64,
    pub message: Payload,
}

/// Deliveries, in the order in which they were queued.
#[derive(Debug)]
pub struct Deliveries {
    items: Vec<Delivery>,
}

impl Drop for Deliveries {
    /// Lets its parts go. Written out, it is proved once; what is derived is proved at each place where one is let go.
    fn drop(self) {
        let Deliveries { items: _ } = self;
    }
}

impl Model for Deliveries {
    ghost use Rattle.std.specs.Prelude.{List};
    ghost use Rattle.amf_broker.specs.declared.reply.Delivery.{Delivery};

    ghost Value = { List Delivery };

    ghost view = { λ d. d.items.items };
}

impl Deliveries {
    /// These deliveries.
    pub fn of_vec(items: Vec<Delivery>) -> Deliveries
        ensures { result ≡ items.items }
    {
        Deliveries { items }
    }

    /// The deliveries, in order.
    pub fn as_slice(&self) -> &[Delivery]
        ensures { result.now ≡ self.now }
    {
        self.items.as_slice()
    }
}

/// Subscriptions, in the order in which they ended.
#[derive(Debug)]
pub struct SubIds {
    items: Vec<SubId>,
}

impl Drop for SubIds {
    /// Lets its parts go. Written out, it is proved once; what is derived is proved at each place where one is let go.
    fn drop(self) {
        let SubIds { items: _ } = self;
    }
}

impl Model for SubIds {
    ghost use Rattle.std.specs.Prelude.{ℕ, List};

    ghost Value = { List ℕ };

    ghost view = { λ s. s.items.items };
}

impl SubIds {
    /// These subscriptions.
    pub fn of_vec(items: Vec<SubId>) -> SubIds
        ensures { result ≡ items.items }
    {
        SubIds { items }
    }

    /// The subscriptions, in order.
    pub fn as_slice(&self) -> &[SubId]
        ensures { result.now ≡ self.now }
    {
        self.items.as_slice()
    }
}

/// Clients, in order of their numbers.
#[derive(Debug)]
pub struct ClientIds {
    items: Vec<ClientId>,
}

impl Drop for ClientIds {
    /// Lets its parts go. Written out, it is proved once; what is derived is proved at each place where one is let go.
    fn drop(self) {
        let ClientIds { items: _ } = self;
    }
}

impl Model for ClientIds {
    ghost use Rattle.std.specs.Prelude.{ℕ, List};

    ghost Value = { List ℕ };

    ghost view = { λ c. c.items.items };
}

impl ClientIds {
    /// These clients.
    pub fn of_vec(items: Vec<ClientId>) -> ClientIds
        ensures { result ≡ items.items }
    {
        ClientIds { items }
    }

    /// The clients, in order.
    pub fn as_slice(&self) -> &[ClientId]
        ensures { result.now ≡ self.now }
    {
        self.items.as_slice()
    }
}

/// What the broker answers to a call: its reply, and the clients that expired before it.
#[derive(Debug, Drop)]
pub struct Answer {
    pub reply: Reply,
    pub expired: ClientIds,
}

/// What the broker replies. `Full` and what follows are refusals, which change nothing but
/// what every call does.
#[derive(Debug)]
pub enum Reply {
    /// The number of the new client.
    Client(ClientId),
    /// The number of the new subscription.
    Subscribed(SubId),
    /// The subscription that ended.
    Unsubscribed(SubId),
    /// The message's number, and the subscriptions that ended since their client's queue was full.
    Published {
        number: u64,
        ended: SubIds,
    },
    /// What was queued, and the subscriptions that a full queue ended since the last poll.
    Batch {
        deliveries: Deliveries,
        ended: SubIds,
    },
    /// The batch of the numbered poll.
    Numbered {
        number: u64,
        deliveries: Deliveries,
        ended: SubIds,
    },
    /// The batch that was handed out under this number before.
    Again {
        number: u64,
        deliveries: Deliveries,
        ended: SubIds,
    },
    /// The client is gone.
    Bye,
    /// As many clients are connected as may be.
    Full(u32),
    /// No such client is connected.
    NoClient(ClientId),
    /// No such destination.
    NoTopic(Name),
    /// More bytes than may be.
    TooLong(u32),
    /// As many subscriptions as a client may have.
    TooManySubs(u32),
    /// No such subscription of this client is live.
    NoSub(SubId),
    /// The number is neither that of the client's next numbered poll nor that of its last one, which is this.
    BadNumber(u64),
}

impl Drop for Reply {
    /// Lets its parts go. Written out, it is proved once; what is derived is proved at each place where one is let go.
    fn drop(self) {
        match self {
            Reply::Published {
                number: _,
                ended: _,
            } => {}
            Reply::Batch {
                deliveries: _,
                ended: _,
            } => {}
            Reply::Numbered {
                number: _,
                deliveries: _,
                ended: _,
            } => {}
            Reply::Again {
                number: _,
                deliveries: _,
                ended: _,
            } => {}
            Reply::NoTopic(_) => {}
            Reply::Client(_) | Reply::NoClient(_) => {}
            Reply::Subscribed(_) | Reply::Unsubscribed(_) | Reply::NoSub(_) => {}
            Reply::Full(_) | Reply::TooLong(_) | Reply::TooManySubs(_) => {}
            Reply::BadNumber(_) => {}
            Reply::Bye => {}
        }
    }
}
