use amf_graph::{Lack, Rooted};
use amf_wire::Name;

/// What a call came to.
#[derive(Drop)]
pub enum CallAnswer {
    /// The graph that answers it.
    Graph(Rooted),
    /// The peer answered with a fault.
    Fault { code: Name, text: Name },
    /// The reply is bad, for the reason of this number, from 1 to 8.
    BadReply(u8),
    /// The dial failed, or a write, a flush or a read of its link did.
    LinkFault,
    /// The arguments are no array without names. Nothing was dialled.
    NotArgs,
    /// The arguments have no canonical spelling, and this is their first lack. Nothing was dialled.
    NoSpelling(Lack),
    /// There was no memory left.
    Memory,
}
