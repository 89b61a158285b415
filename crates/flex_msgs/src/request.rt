use amf_graph::Value;
use amf_wire::Name;
use std::fmt;

/// A member of a message whose kind is asked for, in the order in which it is asked for.
#[derive(Clone, Copy, Debug, PartialEq, Eq)]
pub enum Member {
    /// `headers`: an object, an array or null.
    Headers,
    /// `DSId` of the headers: a text or null.
    DsId,
    /// `DSSubtopic` of the headers: a text or null.
    DsSubtopic,
    /// `destination`: a text or null.
    Destination,
    /// `messageId`: a text or null.
    MessageId,
    /// `clientId`: a text or null.
    ClientId,
    /// `correlationId` of an AsyncMessage: a text or null.
    CorrelationId,
    /// `operation`: a text of a RemotingMessage, a whole number of a CommandMessage.
    Operation,
}

impl fmt::Display for Member {
    fn fmt<W: fmt::Write>(&self, f: &mut fmt::Formatter<W>) -> fmt::Result {
        f.write_str(match self {
            Member::Headers => "headers",
            Member::DsId => "DSId",
            Member::DsSubtopic => "DSSubtopic",
            Member::Destination => "destination",
            Member::MessageId => "messageId",
            Member::ClientId => "clientId",
            Member::CorrelationId => "correlationId",
            Member::Operation => "operation",
        })
    }
}

/// What every message has. A text that is absent or null is the empty name.
pub struct Common {
    /// `messageId`.
    pub message: Name,
    /// `destination`.
    pub destination: Name,
    /// `clientId`.
    pub client: Name,
    /// `DSId` of the headers.
    pub ds_id: Name,
    /// `DSSubtopic` of the headers.
    pub subtopic: Name,
    /// `body`, a value of the graph that was viewed.
    pub body: Value,
    /// `headers`, a value of the graph that was viewed.
    pub headers: Value,
}

impl Drop for Common {
    /// Lets its parts go. Written out, it is proved once; what is derived is proved at each place where one is let go.
    fn drop(self) {
        let Common {
            message: _,
            destination: _,
            client: _,
            ds_id: _,
            subtopic: _,
            body: _,
            headers: _,
        } = self;
    }
}

/// A message that is served.
#[derive(Drop)]
pub enum Request {
    /// A RemotingMessage: a call of a service.
    Remoting { common: Common, operation: Name },
    /// A CommandMessage.
    Command { common: Common, operation: i64 },
    /// An AsyncMessage: what is published.
    Async { common: Common, correlation: Name },
}
