ghost use Rattle.std.specs.Prelude.{◌≡◌, ◌≢◌, ◌^◌, ◌<◌, ◌≤◌, [], IfOk, IfErr};
ghost use Rattle.amf_desk.specs.Histories.{NoneBy, counted_after};
ghost use Rattle.amf_desk.specs.Passes.{kept, split_off, Called, JoinedTo, ClosedAs};
ghost use Rattle.amf_desk.specs.Ends.{Ended};

use crate::closed::{Closed, DeskEnd};
use crate::counted::CountedBroker;
use crate::pass::Pass;
use crate::view::{DeskRule, View};
use amf_broker::{Answer, Call};
use amf_wire::{Memory, Name};
use atomic_table::{Refused, Table};
use std::alloc::Global;
use std::hash::RandomState;
use std::marker::{Brand, Model};
use std::snapshot::Snapshot;
use std::sync::Wait;

/// A broker that threads share. Each call takes a ticket, waits until it is served, and has the broker for itself until its
/// answer stands in the history.
#[derive(Drop)]
pub struct Desk {
    pub(crate) table: Table<Option<CountedBroker>, View, Snapshot<Vec<Name>>, DeskRule, Global>,
}

impl Model for Desk {
    ghost use Rattle.std.specs.Prelude.{◌≡◌};
    ghost use Rattle.atomic_table.specs.Seated.{TableId};

    ghost Value = { TableId };

    ghost view = { λ d. d.table.shared.table_id };

    ghost invariant = { λ d. (d.table.shared.table_id.words ≡ 3) × (d.table.shared.table_id.slots ≡ 1) };
}

/// How many calls the first pass may make.
const BUDGET: u64 = 1 << 62;

impl Desk {
    /// A desk with a broker of these destinations and an empty history, and its first pass, which may make 2^62 calls. It
    /// gives up where there is no memory.
    pub fn open(alloc: Global, destinations: Vec<Name>) -> Result<(Desk, Pass), Memory>
        ensures { IfOk result (λ r. r.1 ≡ record { desk = r.0; destinations = destinations.items; number = 0; seen = []; budget = 2 ^ 62; splits = 0 }) }
    {
        let about = Snapshot::of(&destinations);
        let broker = CountedBroker::new(alloc, destinations)?;
        Desk::with_broker(alloc, &about, broker)
    }

    /// The same, and topics are looked up by hashes of these keys. So whoever names topics should not know them.
    pub fn open_keyed(
        alloc: Global,
        destinations: Vec<Name>,
        keys: RandomState,
    ) -> Result<(Desk, Pass), Memory>
        ensures { IfOk result (λ r. r.1 ≡ record { desk = r.0; destinations = destinations.items; number = 0; seen = []; budget = 2 ^ 62; splits = 0 }) }
    {
        let about = Snapshot::of(&destinations);
        let broker = CountedBroker::keyed(alloc, destinations, keys)?;
        Desk::with_broker(alloc, &about, broker)
    }

    /// A desk with this broker, which is new and has these destinations.
    fn with_broker(
        alloc: Global,
        about: &Snapshot<Vec<Name>>,
        broker: CountedBroker,
    ) -> Result<(Desk, Pass), Memory>
        requires { broker ≡ counted_after about.now.value.items [] }
        ensures { IfOk result (λ r. r.1 ≡ record { desk = r.0; destinations = about.now.value.items; number = 0; seen = []; budget = 2 ^ 62; splits = 0 }) }
    {
        let mut slots = Vec::new(alloc);
        slots.push(Some(broker))?;
        match Table::new(alloc, &[0, 0, 0], slots, about) {
            Ok((table, seat)) => {
                Ok((
                    Desk { table },
                    Pass {
                        seat,
                        first: true,
                        budget: BUDGET,
                    },
                ))
            }
            Err(Refused { slots }) => {
                drop(slots);
                Err(Memory)
            }
        }
    }

    /// The broker's answer to a call of this moment, in milliseconds. It may wait for other calls, and has an entry in the
    /// history where it is answered. `Spent` comes exactly where the pass may make no call, which is then as before. After
    /// `Memory`, which comes only where the answer takes memory, the broker is as before and the pass may make as many calls,
    /// but may have seen more.
    pub fn call<R: Wait>(
        &self,
        rt: &R,
        alloc: Global,
        pass: &mut Pass,
        moment: u64,
        call: Call,
    ) -> Result<Answer, DeskEnd>
        requires { pass.old.desk ≡ self.now }
        ensures answer { IfOk result (λ answer. Called pass.old moment call answer pass.new) }
        ensures end { IfErr result (λ end. Ended pass.old moment call pass.new end) }
    {
        if pass.budget == 0 {
            return Err(DeskEnd::Spent);
        }
        let Ok(answer) = self.run::<Brand, R>(rt, alloc, &mut pass.seat, moment, call) else {
            return Err(DeskEnd::Memory);
        };
        pass.budget -= 1;
        Ok(answer)
    }

    /// Splits off a pass, which may make `share` of the calls and has seen what the first one has. The pass is the first, the
    /// desk its own, and `share` at most its budget. It takes no memory.
    pub fn split(&self, pass: &mut Pass, share: u64) -> Pass
        requires desk { pass.old.desk ≡ self.now }
        requires first { pass.old.number ≡ 0 }
        requires share { share ≤ pass.old.budget }
        ensures old { pass.new ≡ kept share pass.old }
        ensures new { result ≡ split_off share pass.old }
        ensures fresh { NoneBy result.number result.seen }
    {
        let seat = self.cut::<Brand>(&mut pass.seat, share);
        pass.budget -= share;
        Pass {
            seat,
            first: false,
            budget: share,
        }
    }

    /// Takes in a pass that was split off, with the calls that it may still make. The desk is that of both passes, and the one
    /// taken in is not the first. It takes no memory.
    pub fn join(&self, into: &mut Pass, from: Pass)
        requires desk { (into.old.desk ≡ self.now) × (from.desk ≡ self.now) }
        requires second { from.number ≢ 0 }
        ensures { JoinedTo into.old from into.new }
    {
        let Pass {
            seat,
            first: _,
            budget,
        } = from;
        self.merge(&mut into.seat, seat);
        into.budget += budget;
    }

    /// Waits for a turn as a call does, and tells of the history as it then is. The desk is the pass's own, and its budget is
    /// not 0. It takes no memory.
    pub fn close<R: Wait>(self, rt: &R, pass: Pass) -> Closed
        requires desk { pass.desk ≡ self }
        requires budget { 0 < pass.budget }
        ensures { ClosedAs pass result }
    {
        let Pass {
            mut seat,
            first: _,
            budget: _,
        } = pass;
        let counted = self.enter(rt, &mut seat);
        Closed {
            calls: counted.broker.calls(),
            published: counted.published,
            delivered: counted.delivered,
            queued: counted.broker.queued(),
        }
    }
}
