ghost use Rattle.std.specs.Prelude.{◌≡◌, ◌<◌, ◌≤◌, length};

use std::marker::Model;

/// A message header, filled in from the one before.
#[derive(Clone, Copy, Debug, PartialEq, Eq, Drop)]
pub(crate) struct Head {
    pub(crate) kind: u8,
    pub(crate) size: u32,
    pub(crate) stream: u32,
    pub(crate) time: u32,
    pub(crate) delta: u32,
    pub(crate) extended: bool,
    ghost four: { kind ≡ 1 → size ≡ 4 },
    ghost small: { size < 16777216 },
}

impl Head {
    /// What the first header of a chunk stream is filled in from.
    pub(crate) const NONE: Head = Head {
        kind: 0,
        size: 0,
        stream: 0,
        time: 0,
        delta: 0,
        extended: false,
    };
}

/// A message as far as it came.
#[derive(Drop)]
pub(crate) struct PartialMessage {
    pub(crate) head: Head,
    pub(crate) bytes: Vec<u8>,
    ghost short: { length bytes.items ≤ head.size },
}

/// A chunk stream.
#[derive(Drop)]
pub(crate) enum Slot {
    /// No header came yet.
    Fresh,
    /// Between messages: the header of the last one.
    Idle(Head),
    /// Within a message.
    Busy(PartialMessage),
}

/// The data of a message, without its headers.
#[derive(Debug, Drop)]
pub struct MessageBytes {
    bytes: Vec<u8>,
}

impl Model for MessageBytes {
    ghost use Rattle.std.specs.Prelude.{ℕ, List};

    ghost Value = { List ℕ };

    ghost view = { λ m. m.bytes.items };
}

impl MessageBytes {
    /// These bytes.
    pub fn of_vec(bytes: Vec<u8>) -> MessageBytes
        ensures { result ≡ bytes.items }
    {
        MessageBytes { bytes }
    }

    /// The bytes, in order.
    pub fn as_slice(&self) -> &[u8]
        ensures { result.now ≡ self.now }
    {
        self.bytes.as_slice()
    }
}

/// A message (Adobe's RTMP specification 1.0, 5.3.1.2).
#[derive(Drop)]
pub struct Message {
    /// Its chunk stream: from 2 to 65,599 where it was read.
    pub id: u32,
    /// Its type.
    pub kind: u8,
    /// Its message stream.
    pub stream: u32,
    /// Its time in milliseconds, modulo 2^32.
    pub time: u32,
    /// Its data: at most 16,777,215 bytes where it was read.
    pub bytes: MessageBytes,
}

/// An unfinished message.
#[derive(Clone, Copy, Debug, PartialEq, Eq, Drop)]
pub struct Open {
    /// Its chunk stream.
    pub id: u32,
    /// How many bytes of it came.
    pub got: u32,
    /// How many it has.
    pub of: u32,
}

/// The chunk streams of one direction of a connection, as far as they were read (Adobe's RTMP specification 1.0, 5.3). It holds the
/// bytes of unfinished messages as far as they came, and a table up to the greatest id that came, of at most 65,600.
#[derive(Drop)]
pub struct Chunks {
    pub(crate) size: u32,
    pub(crate) slots: Vec<Slot>,
    pub(crate) unfinished: Vec<Open>,
    ghost few: { length slots.items ≤ 65600 },
}

/// Writes messages as chunks of one size, until a message sets another.
#[derive(Drop)]
pub struct Chunker {
    pub(crate) size: u32,
    ghost some: { 0 < size },
}
