use amf_packet::SpelledBody;

/// What a message of a packet is answered: a result or a status, and the spelling of a value.
#[derive(Drop)]
pub struct MessageAnswer {
    pub well: bool,
    pub body: SpelledBody,
}
