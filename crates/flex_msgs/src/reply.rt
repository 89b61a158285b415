use amf_graph::Value;
use amf_wire::Name;

/// The values of an answer. Its names are texts.
pub struct Reply {
    /// `body` of an acknowledge: a value of the builder that the answer is added to.
    pub body: Value,
    /// `clientId`, written null where it is empty. Every other empty name is written as the empty text.
    pub client: Name,
    /// `destination`.
    pub destination: Name,
    /// `DSId` of the headers.
    pub ds_id: Name,
    /// `messageId`.
    pub message: Name,
    /// `timestamp`, in milliseconds since 1970. A moment of 2^53 or more is written as 0.
    pub moment: u64,
    /// `correlationId`.
    pub correlation: Name,
}

impl Drop for Reply {
    /// Lets its parts go. Written out, it is proved once; what is derived is proved at each place where one is let go.
    fn drop(self) {
        let Reply {
            body: _,
            client: _,
            destination: _,
            ds_id: _,
            message: _,
            moment: _,
            correlation: _,
        } = self;
    }
}

/// Why a request failed. Its names are texts.
pub struct FaultText {
    /// `faultCode`.
    pub code: Name,
    /// `faultString`.
    pub text: Name,
}

impl Drop for FaultText {
    /// Lets its parts go. Written out, it is proved once; what is derived is proved at each place where one is let go.
    fn drop(self) {
        let FaultText { code: _, text: _ } = self;
    }
}
