//! The steps of a call, one function each.
ghost use Rattle.std.specs.Prelude.{◌≡◌, ℕ, ◌+◌, ◌%◌, ◌^◌, ◌<◌, true, false, List, [], ◌∷◌, Some, None};
ghost use Rattle.amf_desk.specs.declared.counted.CountedBroker.{CountedBroker};
ghost use Rattle.amf_desk.specs.declared.view.Stage.TheVariants.{Idle, Waits, Turn};
ghost use Rattle.amf_desk.specs.Histories.{counted_after};
ghost use Rattle.amf_desk.specs.Rule.{staged};
ghost use Rattle.amf_desk.specs.Steps.{Came, Sound, counted};
ghost use Rattle.amf_desk.specs.Seats.{HasTaken, Waiting, HasTurn};

use crate::counted::CountedBroker;
use crate::desk::Desk;
use crate::pass::Place;
use crate::plays::{Come, Count, Give, Take, TakeNext, Told};

pub(crate) const TICKET: usize = 0;

pub(crate) const SERVING: usize = 1;

const COUNT: usize = 2;

impl Desk {
    /// Takes a ticket.
    pub(crate) fn take_ticket(&self, seat: &mut Place) -> u64
        requires own { seat.old.table_id ≡ self.now }
        requires idle { (seat.old.me.0.stage ≡ Idle) × (0 < seat.old.me.0.budget) }
        ensures own { (seat.new.table_id ≡ seat.old.table_id) × (seat.new.id ≡ seat.old.id) }
        ensures ticket { HasTaken seat.old.me result seat.new.me }
    {
        self.table.shared.fetch_add::<Take>(seat, TICKET, 1)
    }

    /// Takes this ticket, if it is the next one.
    pub(crate) fn take_this(&self, seat: &mut Place, ticket: u64) -> bool
        requires own { seat.old.table_id ≡ self.now }
        requires idle { (seat.old.me.0.stage ≡ Idle) × (0 < seat.old.me.0.budget) }
        ensures own { (seat.new.table_id ≡ seat.old.table_id) × (seat.new.id ≡ seat.old.id) }
        ensures taken { result ≡ true → HasTaken seat.old.me ticket seat.new.me }
        ensures not_taken { result ≡ false → seat.new.me ≡ seat.old.me }
    {
        let next = ticket.wrapping_add(1);
        self.table
            .shared
            .compare_exchange::<TakeNext>(seat, TICKET, ticket, next)
            == ticket
    }

    /// Looks once whether the ticket is served.
    pub(crate) fn look(&self, seat: &mut Place, ticket: u64) -> bool
        requires own { seat.old.table_id ≡ self.now }
        requires waits { Waiting seat.old.me.0 ticket }
        ensures own { (seat.new.table_id ≡ seat.old.table_id) × (seat.new.id ≡ seat.old.id) }
        ensures turn { result ≡ true → (t : ℕ) × Came seat.old.me.0 t seat.old.me.1 seat.new.me }
        ensures not_yet { result ≡ false → seat.new.me ≡ seat.old.me }
    {
        let serving = self.table.shared.load::<Come>(seat, SERVING);
        serving == ticket
    }

    /// Takes the broker out of the slot.
    pub(crate) fn take_out(&self, seat: &mut Place) -> CountedBroker
        requires own { seat.old.table_id ≡ self.now }
        requires out { (broker : CountedBroker) × (seat.old.me.1 ≡ (0, Some broker) ∷ []) }
        ensures own { (seat.new.table_id ≡ seat.old.table_id) × (seat.new.id ≡ seat.old.id) }
        ensures left { seat.new.me ≡ (seat.old.me.0, (0, None) ∷ []) }
        ensures broker { seat.old.me.1 ≡ (0, Some result) ∷ [] }
    {
        match self.table.shared.exchange(seat, 0, None) {
            Some(broker) => broker,
            None => unreachable!(),
        }
    }

    /// Adds the call to the history.
    pub(crate) fn count_in<E: Told>(&self, seat: &mut Place)
        requires own { seat.old.table_id ≡ self.now }
        requires turn { HasTurn seat.old.me.0 }
        requires budget { 0 < seat.old.me.0.budget }
        ensures own { (seat.new.table_id ≡ seat.old.table_id) × (seat.new.id ≡ seat.old.id) }
        ensures counted { seat.new.me ≡ (counted seat.old.me.0 E.moment E.call, seat.old.me.1) }
        ensures sound { Sound seat.new.me.0 }
    {
        self.table.shared.fetch_add::<Count<E>>(seat, COUNT, 1);
    }

    /// Puts the broker back into the slot.
    pub(crate) fn put_in(&self, seat: &mut Place, broker: CountedBroker)
        requires own { seat.old.table_id ≡ self.now }
        requires out { seat.old.me.1 ≡ (0, None) ∷ [] }
        ensures own { (seat.new.table_id ≡ seat.old.table_id) × (seat.new.id ≡ seat.old.id) }
        ensures put { seat.new.me ≡ (seat.old.me.0, (0, Some broker) ∷ []) }
    {
        match self.table.shared.exchange(seat, 0, Some(broker)) {
            None => {}
            Some(_) => unreachable!(),
        }
    }

    /// Serves the next ticket, and gives the slot back.
    pub(crate) fn hand_on(&self, seat: &mut Place)
        requires own { seat.old.table_id ≡ self.now }
        requires turn { HasTurn seat.old.me.0 }
        requires back { seat.old.me.1 ≡ (0, Some (counted_after seat.old.me.0.destinations seat.old.me.0.seen)) ∷ [] }
        ensures own { (seat.new.table_id ≡ seat.old.table_id) × (seat.new.id ≡ seat.old.id) }
        ensures given { seat.new.me ≡ (staged seat.old.me.0 Idle, []) }
    {
        self.table.shared.fetch_add::<Give>(seat, SERVING, 1);
    }
}
