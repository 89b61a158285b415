//! How a caller waits for its turn.
ghost use Rattle.std.specs.Prelude.{◌≡◌, ℕ, ◌<◌, true, false, IfSome, IsNone};
ghost use Rattle.amf_desk.specs.declared.view.Stage.TheVariants.{Idle};
ghost use Rattle.amf_desk.specs.Steps.{Came};
ghost use Rattle.amf_desk.specs.Seats.{HasTaken, Waiting};

use crate::desk::Desk;
use crate::pass::Place;
use crate::steps::{SERVING, TICKET};
use std::hint;
use std::sync::Wait;
use std::thread::Parker;
use std::time::Duration;

/// How often a caller looks before it sleeps.
const LOOKS: u32 = 20;

/// How often a caller sleeps before it takes a place in the line.
const NAPS: u32 = 200;

/// The microseconds by which a sleep is longer than the one before.
const NAP: u64 = 50;

/// The sleeps after which they do not grow any more.
const LONGEST: u32 = 15;

/// Sleeps for a short time, which is longer the more sleeps were before it.
fn nap<R: Wait>(rt: &R, before: u32) {
    let micros = NAP * u64::from(before.min(LONGEST) + 1);
    Parker::new().park_timeout(rt, Duration::from_micros(micros));
}

impl Desk {
    /// Takes the ticket that is served now, if nobody has it.
    pub(crate) fn try_ticket(&self, seat: &mut Place) -> Option<u64>
        requires own { seat.old.table_id ≡ self.now }
        requires idle { (seat.old.me.0.stage ≡ Idle) × (0 < seat.old.me.0.budget) }
        ensures own { (seat.new.table_id ≡ seat.old.table_id) × (seat.new.id ≡ seat.old.id) }
        ensures taken { IfSome result (λ ticket. HasTaken seat.old.me ticket seat.new.me) }
        ensures not_taken { IsNone result → seat.new.me ≡ seat.old.me }
    {
        let serving = self.table.shared.peek(SERVING);
        if self.table.shared.peek(TICKET) == serving && self.take_this(seat, serving) {
            return Some(serving);
        }
        None
    }

    /// Tries a few times to take the ticket that is served now.
    pub(crate) fn try_often(&self, seat: &mut Place) -> Option<u64>
        requires own { seat.old.table_id ≡ self.now }
        requires idle { (seat.old.me.0.stage ≡ Idle) × (0 < seat.old.me.0.budget) }
        ensures own { (seat.new.table_id ≡ seat.old.table_id) × (seat.new.id ≡ seat.old.id) }
        ensures taken { IfSome result (λ ticket. HasTaken seat.old.me ticket seat.new.me) }
        ensures not_taken { IsNone result → seat.new.me ≡ seat.old.me }
    {
        for _ in 0..LOOKS {
            if let Some(ticket) = self.try_ticket(seat) {
                return Some(ticket);
            }
            hint::spin_loop();
        }
        None
    }

    /// Takes the ticket that is served next, once nobody has it. A caller that was passed over many times takes a place
    /// in the line.
    pub(crate) fn get_ticket<R: Wait>(&self, rt: &R, seat: &mut Place) -> u64
        requires own { seat.old.table_id ≡ self.now }
        requires idle { (seat.old.me.0.stage ≡ Idle) × (0 < seat.old.me.0.budget) }
        ensures own { (seat.new.table_id ≡ seat.old.table_id) × (seat.new.id ≡ seat.old.id) }
        ensures ticket { HasTaken seat.old.me result seat.new.me }
    {
        for before in 0..NAPS {
            if let Some(ticket) = self.try_often(seat) {
                return ticket;
            }
            nap(rt, before);
        }
        self.take_ticket(seat)
    }

    /// Looks a few times, since turns are short.
    pub(crate) fn look_often(&self, seat: &mut Place, ticket: u64) -> bool
        requires own { seat.old.table_id ≡ self.now }
        requires waits { Waiting seat.old.me.0 ticket }
        ensures own { (seat.new.table_id ≡ seat.old.table_id) × (seat.new.id ≡ seat.old.id) }
        ensures turn { result ≡ true → (t : ℕ) × Came seat.old.me.0 t seat.old.me.1 seat.new.me }
        ensures not_yet { result ≡ false → seat.new.me ≡ seat.old.me }
    {
        for _ in 0..LOOKS {
            if self.look(seat, ticket) {
                return true;
            }
            hint::spin_loop();
        }
        false
    }

    /// Waits until the ticket is served. The slot is then out with the seat.
    pub(crate) fn wait_turn<R: Wait>(&self, rt: &R, seat: &mut Place, ticket: u64)
        requires own { seat.old.table_id ≡ self.now }
        requires waits { Waiting seat.old.me.0 ticket }
        ensures own { (seat.new.table_id ≡ seat.old.table_id) × (seat.new.id ≡ seat.old.id) }
        ensures turn { (t : ℕ) × Came seat.old.me.0 t seat.old.me.1 seat.new.me }
    {
        for _ in rt.forever() {
            if self.look_often(seat, ticket) {
                return;
            }
            nap(rt, 0);
        }
        unreachable!()
    }
}
