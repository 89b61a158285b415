/// What a message is, by its class, and a CommandMessage by its operation.
#[derive(Clone, Copy, Debug, PartialEq, Eq)]
pub(crate) enum MessageKind {
    Acknowledge,
    /// A batch: operation 4.
    Sync,
    /// The end of a subscription: operation 10.
    Invalidate,
    Async,
    Foreign,
}
