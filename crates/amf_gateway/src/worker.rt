//! Workers at a desk, each with a pass and a hall of its own.

ghost use Rattle.std.specs.Prelude.{◌≡◌, ◌||◌, false, None};
ghost use Rattle.amf_answer_plan.specs.Services.{services_of};
ghost use Rattle.amf_gateway.specs.Served.{WorkerServed, WorkerCounts, CountsAnswered, CountsTold, starved_in};
ghost use Rattle.amf_gateway.specs.WorkerSteps.{NextServed};

use crate::at_hand::AtHand;
use crate::serve::serve_link_keyed;
use amf_desk::{Desk, Pass};
use amf_io::{Failed, Gate, Hall};
use amf_service::Registry;
use std::alloc::Global;
use std::hash::RandomState;
use std::sync::Wait;

/// A worker at a desk, which serves the links of its hall.
pub struct Worker<H: Hall> {
    /// Its number among the workers.
    pub number: u32,
    pub pass: Pass,
    pub hall: H,
    /// How many calls of the desk it has made, up to 2^64 - 1.
    pub calls: u64,
    /// The keys by which its readers and writers look texts up; with none they are fixed.
    pub keys: Option<RandomState>,
}

/// Why a worker ended, and whether a link of it ended because memory ran out.
#[derive(Clone, Copy, Debug, PartialEq, Eq)]
pub enum WorkerEnd {
    /// It has served all links that it was to serve, or the hall has no more.
    Done { starved: bool },
    /// The hall failed.
    FrontFault { starved: bool },
}

/// Whether a link ended because memory ran out, before or now.
fn either(before: bool, now: bool) -> bool
    ensures { result ≡ (before || now) }
{
    before || now
}

impl<H: Hall> Worker<H> {
    /// A worker that has made no calls. Its readers and writers look texts up by fixed keys, so whoever knows them can send a request that
    /// takes long: `keyed` is passed others.
    pub fn new(number: u32, pass: Pass, hall: H) -> Worker<H>
        ensures number { result.number ≡ number }
        ensures pass { result.pass ≡ pass }
        ensures hall { result.hall ≡ hall }
        ensures calls { result.calls ≡ 0 }
        ensures keys { result.keys ≡ None }
    {
        Worker::keyed(number, pass, hall, None)
    }

    /// A worker that has made no calls, whose readers and writers look texts up by these keys, or by fixed ones where there are none.
    pub fn keyed(number: u32, pass: Pass, hall: H, keys: Option<RandomState>) -> Worker<H>
        ensures number { result.number ≡ number }
        ensures pass { result.pass ≡ pass }
        ensures hall { result.hall ≡ hall }
        ensures calls { result.calls ≡ 0 }
        ensures keys { result.keys ≡ keys }
    {
        Worker {
            number,
            pass,
            hall,
            calls: 0,
            keys,
        }
    }

    /// Its pass and its hall.
    pub fn into_parts(self) -> (Pass, H)
        ensures pass { result.0 ≡ self.pass }
        ensures hall { result.1 ≡ self.hall }
    {
        let Worker {
            number: _,
            pass,
            hall,
            calls: _,
            keys: _,
        } = self;
        (pass, hall)
    }

    /// Serves a link and gives it back to the hall. Tells whether it ended because memory ran out.
    fn serve_and_give_back<R: Wait, G: Gate>(
        &mut self,
        at: &AtHand<'_, R, G>,
        mut link: H::Link,
    ) -> bool
        requires { self.old.pass.desk ≡ at.now.desk.now }
        ensures served { NextServed H.Hall H.Link.Link (services_of at.now.registry.now knows gives) self.old self.new link result }
        ensures calls { WorkerCounts 1 self.old self.new }
        ensures all_answered { CountsAnswered result self.old self.new }
        ensures number { self.new.number ≡ self.old.number }
        ensures keys { self.new.keys ≡ self.old.keys }
    {
        let end = serve_link_keyed(
            at,
            &mut link,
            &mut self.pass,
            &mut self.hall,
            &mut self.calls,
        );
        self.hall.back(link);
        end.is_starved()
    }

    /// Serves up to `each` links of the hall, one after the other: each is served and given back before the next is waited for, so no client
    /// waits for another to come. A link's end does not stop the worker. The desk is that of its pass. Its number and its keys stay, and its calls are counted: those that had an answer, and
    /// one that had none at most for each link that it served. Where no link ran out of memory and calls are left, each had one.
    pub fn serve<R: Wait, G: Gate>(
        &mut self,
        rt: &R,
        alloc: Global,
        desk: &Desk,
        registry: &Registry,
        gate: &G,
        each: u64,
    ) -> WorkerEnd
        requires desk { self.old.pass.desk ≡ desk.now }
        requires none_out { H.is_out self.old.hall ≡ false }
        ensures served { WorkerServed H.Hall H.Link.Link (services_of registry.now knows gives) each self.old self.new result }
        ensures calls { WorkerCounts each self.old self.new }
        ensures all_answered { CountsAnswered (starved_in result) self.old self.new }
        ensures calls_told { CountsTold H.Hall self.old self.new }
        ensures none_out { H.is_out self.new.hall ≡ false }
        ensures number { self.new.number ≡ self.old.number }
        ensures keys { self.new.keys ≡ self.old.keys }
    {
        let _before = self.calls;
        let at = AtHand {
            rt,
            alloc,
            keys: self.keys,
            registry,
            desk,
            gate,
            worker: self.number,
        };
        let mut starved = false;
        for _ in 0..each {
            match self.hall.next() {
                Ok(Some(link)) => {
                    let hungry = self.serve_and_give_back(&at, link);
                    starved = either(starved, hungry);
                }
                Ok(None) => return WorkerEnd::Done { starved },
                Err(Failed) => return WorkerEnd::FrontFault { starved },
            }
        }
        WorkerEnd::Done { starved }
    }
}
