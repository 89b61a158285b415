/// Why a call has no answer.
#[derive(Clone, Copy, Debug, PartialEq, Eq)]
pub enum DeskEnd {
    /// The pass may make no more calls.
    Spent,
    /// There was no memory left for the answer.
    Memory,
}

/// What a closed desk tells of its history.
#[derive(Clone, Copy, Debug, PartialEq, Eq)]
pub struct Closed {
    /// How many calls were answered.
    pub calls: u64,
    /// How many messages were published.
    pub published: u64,
    /// How many deliveries polls handed out, up to 2^64 - 1. One that was handed out again is not counted again.
    pub delivered: u64,
    /// How many deliveries are still queued.
    pub queued: u64,
}
