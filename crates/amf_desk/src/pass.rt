ghost use Rattle.std.specs.Prelude.{◌≡◌, ◌↔◌, IsTrue};

use crate::counted::CountedBroker;
use crate::view::View;
use atomic_table::Seat;
use std::marker::Model;

pub(crate) type Place = Seat<Option<CountedBroker>, View>;

/// A caller's place at a desk. Contracts see it as the desk with its destinations, the pass's number, what it has seen of
/// the desk's history, how many calls it may still make, and how many passes were split off it.
#[derive(Drop)]
pub struct Pass {
    pub(crate) seat: Place,
    pub(crate) first: bool,
    pub(crate) budget: u64,
}

impl Model for Pass {
    ghost use Rattle.amf_desk.specs.Passes.{Held};
    ghost use Rattle.amf_desk.specs.Seats.{held, Ready};

    ghost Value = { Held };

    ghost view = { λ p. held p.seat.table_id p.seat.me.0 };

    ghost invariant = { λ p. Ready p.seat p.budget p.first };
}

impl Pass {
    /// How many calls the pass may still make.
    pub fn budget(&self) -> u64
        ensures { result ≡ self.now.budget }
    {
        self.budget
    }

    /// Whether `Desk::open` gave this pass.
    pub fn is_first(&self) -> bool
        ensures { IsTrue result ↔ (self.now.number ≡ 0) }
    {
        self.first
    }
}
