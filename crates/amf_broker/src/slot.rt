ghost use Rattle.std.specs.Prelude.{◌≡◌, ◌==◌, not, true};
ghost use Rattle.amf_broker.specs.Members.{logs_of, is_among};
ghost use Rattle.amf_broker.specs.Slots.{kept_if, is_own, own_ended, slot_begun};

use crate::ended::Ended;
use crate::logs::Logs;
use crate::merge::{remains, remains_sub};
use crate::place::Place;
use crate::{ClientId, SubId};

/// A place that stays where it is among the others, also when its subscription has gone.
#[derive(Drop)]
pub(crate) struct Slot {
    pub(crate) place: Place,
    pub(crate) kept: bool,
}

impl Slot {
    pub(crate) fn new(place: Place) -> Slot
        ensures { result ≡ record { place = place; kept = true } }
    {
        Slot { place, kept: true }
    }

    /// Whether the place is there, and the client's.
    pub(crate) fn is_own(&self, client: ClientId) -> bool
        ensures { result ≡ is_own client self.now }
    {
        self.kept && self.place.client() == client
    }

    /// The place goes, if it is the client's.
    pub(crate) fn part(&mut self, client: ClientId)
        ensures { self.new ≡ kept_if (λ u. not (u.client == client)) self.old }
    {
        self.kept = self.kept && self.place.client() != client;
    }

    /// The client's subscription ends before the message of this number. Its place goes, if nothing waits for it.
    pub(crate) fn end_sub(&mut self, logs: &Logs, client: ClientId, sub: SubId, next: u64)
        ensures { self.new ≡ own_ended (λ k. k == client) next next (λ id. id == sub) (logs_of logs.now) self.old }
    {
        if self.is_own(client) {
            self.place.stop_sub(sub, next);
            self.kept = remains_sub(&self.place, logs, sub, next);
        }
    }

    /// The client's subscription, if it is one of these, ends before the message of this number, which is before `next`. Its place
    /// goes, if nothing waits for it.
    pub(crate) fn end_among(
        &mut self,
        logs: &Logs,
        client: ClientId,
        ended: &Ended,
        number: u64,
        next: u64,
    )
        ensures { self.new ≡ own_ended (λ k. k == client) number next (is_among ended.now.subs.items) (logs_of logs.now) self.old }
    {
        if self.is_own(client) {
            self.place.stop_among(ended, number);
            self.kept = remains(&self.place, logs, ended, next);
        }
    }

    /// After a poll of the client its place goes, if it has ended, and else begins anew at the message of this number.
    pub(crate) fn begin_anew(&mut self, client: ClientId, next: u64)
        ensures { self.new ≡ slot_begun client next self.old }
    {
        if self.is_own(client) {
            self.kept = self.place.outlasts(client);
            self.place.begin_anew(client, next);
        }
    }
}
