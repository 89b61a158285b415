ghost use Rattle.std.specs.Prelude.{◌≡◌, ℕ, ◌<◌, SomeIff};
ghost use Rattle.amf_wire.specs.U29.{u29_end};

use std::marker::Model;

/// An unsigned integer of 29 bits (AMF 3 specification, 1.3.1).
#[derive(Clone, Copy, Debug, PartialEq, Eq)]
pub struct U29 {
    value: u32,
}

impl Model for U29 {
    ghost Value = { ℕ };

    ghost view = { λ n. n.value };

    ghost invariant = { λ n. n.value < u29_end };

    ghost inverse = { λ n. record { value = n } };
}

impl U29 {
    /// The number `n`, or `None` exactly from 2^29.
    pub fn new(n: u32) -> Option<U29>
        ensures { SomeIff result (n < u29_end) n }
    {
        if n < 1 << 29 {
            Some(U29 { value: n })
        } else {
            None
        }
    }

    /// The number, which is below 2^29.
    pub fn get(self) -> u32
        ensures value { result ≡ self }
        ensures in_bits { result < u29_end }
    {
        self.value
    }
}
