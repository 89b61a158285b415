use amf_wire::Name;

/// How a listener ended.
#[derive(Drop)]
pub enum ListenEnd {
    /// Every poll and the disconnect were answered.
    Done,
    /// The peer answered with a fault.
    Fault { code: Name, text: Name },
    /// The last reply is bad, for the reason of this number, from 1 to 8.
    BadReply(u8),
    /// The last dial failed, or a write, a flush or a read of the last link did.
    LinkFault,
    /// A write of the output failed.
    WriteFault,
    /// There was no memory left.
    Memory,
}
