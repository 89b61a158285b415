/// The most clients that are connected at once.
pub const MAX_CLIENTS: u32 = 1024;

/// The most subscriptions of one client that are live, or have ended and are not yet told.
pub const MAX_SUBS: u32 = 16;

/// The most deliveries that wait for one client.
pub const MAX_QUEUED: u32 = 128;

/// The most bytes of a subtopic.
pub const MAX_SUBTOPIC: u32 = 255;

/// The most bytes of a message.
pub const MAX_MESSAGE: u32 = 32768;

/// The milliseconds after which a client that no call has named expires.
pub const MAX_IDLE: u64 = 600_000;
