use amf_desk::Closed;

/// What serving came to.
#[derive(Clone, Copy, Debug, PartialEq, Eq)]
pub enum ServeAnswer {
    /// There was no memory left for the desk, the halls or the workers. No link was served, and the front has its halls again.
    Memory,
    /// The front failed to open its halls.
    NotOpened,
    /// All workers have ended and the desk is closed.
    Closed {
        /// What was counted at the desk.
        counts: Closed,
        /// Whether a link ended because memory ran out.
        starved: bool,
        /// Whether a hall failed, which the front has counted.
        faulty: bool,
    },
}
