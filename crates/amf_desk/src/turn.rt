//! A call, composed of its steps.
ghost use Rattle.std.specs.Prelude.{◌≡◌, ◌<◌, ◌^◌, [], ◌∷◌, Some, None, IfOk, OnErr};
ghost use Rattle.amf_desk.specs.declared.view.Stage.TheVariants.{Idle};
ghost use Rattle.amf_desk.specs.Histories.{counted_after};
ghost use Rattle.amf_desk.specs.Rule.{staged};
ghost use Rattle.amf_desk.specs.Steps.{Sound};
ghost use Rattle.amf_desk.specs.Seats.{Ran, Stayed, Entered, HasTurn};

use crate::counted::CountedBroker;
use crate::desk::Desk;
use crate::pass::Place;
use crate::plays::Told;
use amf_broker::{Answer, Call};
use amf_wire::Memory;
use std::alloc::Global;
use std::sync::Wait;

impl Desk {
    /// Takes a turn, and the broker out of the slot.
    pub(crate) fn enter<R: Wait>(&self, rt: &R, seat: &mut Place) -> CountedBroker
        requires own { seat.old.table_id ≡ self.now }
        requires idle { (seat.old.me.0.stage ≡ Idle) × (0 < seat.old.me.0.budget) × (seat.old.me.1 ≡ []) }
        ensures own { (seat.new.table_id ≡ seat.old.table_id) × (seat.new.id ≡ seat.old.id) }
        ensures entered { Entered seat.old.me.0 seat.new.me result }
    {
        let ticket = self.get_ticket(rt, seat);
        self.wait_turn(rt, seat, ticket);
        self.take_out(seat)
    }

    /// Puts the broker back, as the history leaves it, and ends the turn.
    pub(crate) fn leave(&self, seat: &mut Place, broker: CountedBroker)
        requires own { seat.old.table_id ≡ self.now }
        requires turn { HasTurn seat.old.me.0 }
        requires out { seat.old.me.1 ≡ (0, None) ∷ [] }
        requires broker { broker ≡ counted_after seat.old.me.0.destinations seat.old.me.0.seen }
        ensures own { (seat.new.table_id ≡ seat.old.table_id) × (seat.new.id ≡ seat.old.id) }
        ensures given { seat.new.me ≡ (staged seat.old.me.0 Idle, []) }
    {
        self.put_in(seat, broker);
        self.hand_on(seat);
    }

    /// One call in one turn. Without memory for its answer the history stays as it is.
    pub(crate) fn run<E: Told, R: Wait>(
        &self,
        rt: &R,
        alloc: Global,
        seat: &mut Place,
        moment: u64,
        call: Call,
    ) -> Result<Answer, Memory>
        requires own { seat.old.table_id ≡ self.now }
        requires idle { (seat.old.me.0.stage ≡ Idle) × (0 < seat.old.me.0.budget) × (seat.old.me.1 ≡ []) }
        requires told { (E.moment ≡ moment) × (E.call ≡ call) }
        ensures own { (seat.new.table_id ≡ seat.old.table_id) × (seat.new.id ≡ seat.old.id) }
        ensures idle { (seat.new.me.0.stage ≡ Idle) × (seat.new.me.1 ≡ []) }
        ensures sound { Sound seat.new.me.0 }
        ensures ok { IfOk result (λ answer. Ran seat.old.me.0 moment call answer seat.new.me.0) }
        ensures err { OnErr result (Stayed seat.old.me.0 moment call seat.new.me.0) }
    {
        let mut broker = self.enter(rt, seat);
        match broker.answer(alloc, moment, call) {
            Ok(answer) => {
                self.count_in::<E>(seat);
                self.leave(seat, broker);
                Ok(answer)
            }
            Err(Memory) => {
                self.leave(seat, broker);
                Err(Memory)
            }
        }
    }
}
