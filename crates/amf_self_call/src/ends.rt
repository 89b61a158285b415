use amf_wire::{Memory, Name};

/// Why no graph came back.
#[derive(Debug, Drop)]
pub enum RoundEnd {
    /// The gateway answered with a fault.
    Fault { code: Name, text: Name },
    /// The call or its answer is longer than the body of a request or of a reply may be: 8 or 3.
    BadReply(u8),
    /// There was no memory left.
    Memory,
}

impl From<Memory> for RoundEnd {
    ghost use Rattle.std.specs.Prelude.{◌≡◌};
    ghost use Rattle.amf_self_call.specs.declared.ends.RoundEnd.TheVariants as end;

    ghost from_gives = { λ _ e. e ≡ end.Memory };

    fn from(_error: Memory) -> RoundEnd {
        RoundEnd::Memory
    }
}
