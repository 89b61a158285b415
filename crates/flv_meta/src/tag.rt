ghost use Rattle.std.specs.Prelude.{◌≡◌};

use std::marker::Model;

/// The bytes of a tag, from its type to the number behind its data (E.3 and E.4.1).
#[derive(Debug, Drop)]
pub struct TagBytes {
    bytes: Vec<u8>,
}

impl Model for TagBytes {
    ghost use Rattle.std.specs.Prelude.{ℕ, List};

    ghost Value = { List ℕ };

    ghost view = { λ t. t.bytes.items };
}

impl TagBytes {
    /// These bytes.
    pub fn of_vec(bytes: Vec<u8>) -> TagBytes
        ensures { result ≡ bytes.items }
    {
        TagBytes { bytes }
    }

    /// The bytes, in order.
    pub fn as_slice(&self) -> &[u8]
        ensures { result.now ≡ self.now }
    {
        self.bytes.as_slice()
    }
}

/// A tag of an FLV file, and how many bytes of the input stand before it.
#[derive(Debug, Drop)]
pub struct Tag {
    pub at: u32,
    pub bytes: TagBytes,
}
