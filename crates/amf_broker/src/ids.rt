use std::marker::Model;

/// The number of a client. Numbers count from 1, and none is used again.
#[derive(Clone, Copy, Debug, PartialEq, Eq)]
pub struct ClientId(pub u64);

impl Model for ClientId {
    ghost use Rattle.std.specs.Prelude.{ℕ};

    ghost Value = { ℕ };

    ghost view = { λ id. id.0 };

    ghost inverse = { λ n. record { 0 = n } };
}

/// The number of a subscription. Numbers count from 1, and none is used again.
#[derive(Clone, Copy, Debug, PartialEq, Eq)]
pub struct SubId(pub u64);

impl Model for SubId {
    ghost use Rattle.std.specs.Prelude.{ℕ};

    ghost Value = { ℕ };

    ghost view = { λ id. id.0 };

    ghost inverse = { λ n. record { 0 = n } };
}
