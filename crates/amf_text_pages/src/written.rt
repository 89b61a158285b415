//! What a text means.

use amf_graph::Rooted;

/// A value of a packet: no marker in it switches to AMF 3, some marker does, or it is a call, of which the graph is that of its one
/// item (AMF 0, 3.1 and 4.3).
#[derive(Clone, Copy, Debug, PartialEq, Eq)]
pub enum PacketForm {
    /// No marker switches to AMF 3.
    Plain,
    /// A marker switches to AMF 3 somewhere, and it is no call.
    Amf3,
    /// A strict array of one item, which is in AMF 3.
    Call,
}

/// The format of the values of a shared object: version 0 or 3.
#[derive(Clone, Copy, Debug, PartialEq, Eq)]
pub enum FileVersion {
    /// Version 0: AMF 0.
    Amf0,
    /// Version 3: AMF 3.
    Amf3,
}

/// A header of a packet (AMF 0, 4.2).
#[derive(Drop)]
pub struct WrittenHeader {
    /// Its name, a text of at most 65,535 bytes.
    pub name: Vec<u8>,
    /// Whether the receiver must understand it.
    pub must: bool,
    /// How its value is spelled.
    pub form: PacketForm,
    /// Its value; of a call the one item.
    pub graph: Rooted,
}

/// A message of a packet (AMF 0, 4.3).
#[derive(Drop)]
pub struct WrittenMessage {
    /// What it is for, a text of at most 65,535 bytes.
    pub target: Vec<u8>,
    /// What its answer is for, a text of at most 65,535 bytes.
    pub response: Vec<u8>,
    /// How its value is spelled.
    pub form: PacketForm,
    /// Its value; of a call the one item.
    pub graph: Rooted,
}

/// What a text means.
#[derive(Drop)]
pub enum Written {
    /// A value of AMF 3.
    Value3(Rooted),
    /// A value of AMF 0, not lowered.
    Value0(Rooted),
    /// A shared object file.
    SharedObject {
        /// Its name, a text of at most 65,535 bytes.
        name: Vec<u8>,
        /// The format of its values.
        version: FileVersion,
        /// Its pairs: the root is a dynamic object that holds them. Of version 0 it is not lowered.
        graph: Rooted,
    },
    /// A packet (AMF 0, 4.1).
    Packet {
        /// Version 0, 1 or 3.
        version: u16,
        /// Its headers, at most 65,535.
        headers: Vec<WrittenHeader>,
        /// Its messages, at most 65,535.
        messages: Vec<WrittenMessage>,
    },
}
