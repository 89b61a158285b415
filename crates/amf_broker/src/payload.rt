ghost use Rattle.std.specs.Prelude.{◌≡◌, IfOk};

use amf_wire::{Memory, Name};
use std::alloc::Global;
use std::marker::Model;
use std::sync::Arc;

/// The bytes of a message. The broker and all to whom it was handed share them.
#[derive(Debug)]
pub struct Payload {
    shared: Arc<Name, Global>,
}

impl Drop for Payload {
    /// Lets its parts go. Written out, it is proved once; what is derived is proved at each place where one is let go.
    fn drop(self) {
        let Payload { shared: _ } = self;
    }
}

impl Model for Payload {
    ghost use Rattle.std.specs.Prelude.{ℕ, List};
    ghost use Rattle.std.specs.Arc.{arc_value};

    ghost Value = { List ℕ };

    ghost view = { λ p. arc_value p.shared };
}

impl Payload {
    /// The bytes of this message.
    pub fn new(alloc: Global, message: Name) -> Result<Payload, Memory>
        ensures { IfOk result (λ p. p ≡ message) }
    {
        Ok(Payload {
            shared: Arc::new(alloc, message)?,
        })
    }

    /// The same bytes, once more.
    pub fn share(&self) -> Result<Payload, Memory>
        ensures { IfOk result (λ p. p ≡ self.now) }
    {
        Ok(Payload {
            shared: Arc::try_clone(&self.shared)?,
        })
    }

    /// The bytes, which need be no text.
    pub fn as_bytes(&self) -> &[u8]
        ensures { result.now ≡ self.now }
    {
        self.shared.as_bytes()
    }
}
