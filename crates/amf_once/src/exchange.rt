ghost use Rattle.std.specs.Prelude.{◌≡◌, ℕ, ◌+◌, ◌++◌, ◌<◌, ◌^◌, ◌==◌, if◌then◌else◌, List, IfOk, OnOk, slice_get};
ghost use Rattle.amf_once.specs.Taking.{says};
ghost use Rattle.amf_once.specs.Hearing.{asks_then, taken_of, Below, AllSay};
ghost use Rattle.amf_once.specs.Course.{Course, start, asked, arrived, answered, called, step, is_barred};
ghost use Rattle.amf_once.specs.Shown.{Shows};
ghost use Rattle.amf_once.specs.Worlds.{IsWorldOf};

use crate::{Answers, Event, Taken, Taker, World};
use amf_broker::{Answer, Broker, Call, ClientId, Deliveries, Delivery, Reply};
use amf_wire::{Memory, Name};
use std::alloc::Global;

/// A broker with its client 1, and a taker, with the requests and answers between them.
#[derive(Drop)]
pub(crate) struct Exchange {
    broker: Broker,
    taker: Taker,
    requests: Vec<u64>,
    answers: Vec<Answer>,
    taken: Vec<Delivery>,
}

impl Exchange {
    /// A new broker of these destinations, to which client 1 comes at moment 0.
    pub(crate) fn new(alloc: Global, destinations: Vec<Name>) -> Result<Exchange, Memory>
        ensures { IfOk result (λ exchange. Shows exchange (start destinations.items)) }
    {
        let mut broker = Broker::new(alloc, destinations)?;
        broker.step(alloc, 0, Call::Connect)?;
        Ok(Exchange {
            broker,
            taker: Taker::new(),
            requests: Vec::new(alloc),
            answers: Vec::new(alloc),
            taken: Vec::new(alloc),
        })
    }

    /// What happens next. After `Memory` it must not be used again.
    pub(crate) fn happen(&mut self, alloc: Global, event: Event) -> Result<(), Memory>
        requires calls { self.old.broker.calls < 2 ^ 62 }
        requires answers { AllSay (Below (2 ^ 62)) self.old.answers.items }
        ensures { OnOk result ((w : Course) → Shows self.old w → Shows self.new (step event w)) }
    {
        match event {
            Event::Ask => self.ask(),
            Event::Arrive(moment, place) => self.arrive(alloc, moment, place),
            Event::Answer(place) => self.answer(place),
            Event::Other(moment, call) => self.call(alloc, moment, call),
        }
    }

    /// What it comes to.
    pub(crate) fn into_world(self) -> World
        ensures { (w : Course) → Shows self w → IsWorldOf w result }
    {
        World {
            taker: self.taker,
            taken: Deliveries::of_vec(self.taken),
            answers: Answers::of_vec(self.answers),
        }
    }

    fn ask(&mut self) -> Result<(), Memory>
        ensures { OnOk result ((w : Course) → Shows self.old w → Shows self.new (asked w)) }
    {
        self.requests.push(self.taker.asks())?;
        Ok(())
    }

    fn arrive(&mut self, alloc: Global, moment: u64, place: u32) -> Result<(), Memory>
        requires { self.old.broker.calls < 2 ^ 62 }
        ensures { OnOk result ((w : Course) → Shows self.old w → Shows self.new (arrived moment (slice_get w.requests place) w)) }
    {
        let Some(number) = self.requests.get(place as usize) else {
            return Ok(());
        };
        let poll = Call::PollNumbered {
            client: ClientId(1),
            number: *number,
        };
        let answer = self.broker.step(alloc, moment, poll)?;
        self.answers.push(answer)?;
        Ok(())
    }

    fn answer(&mut self, place: u32) -> Result<(), Memory>
        requires { AllSay (Below (2 ^ 62)) self.old.answers.items }
        ensures { OnOk result ((w : Course) → Shows self.old w → Shows self.new (answered (slice_get w.answers place) w)) }
    {
        match self.answers.get(place as usize) {
            Some(answer) => hear(&mut self.taker, &mut self.taken, &answer.reply),
            None => Ok(()),
        }
    }

    fn call(&mut self, alloc: Global, moment: u64, call: Call) -> Result<(), Memory>
        requires { self.old.broker.calls < 2 ^ 62 }
        ensures { OnOk result ((w : Course) → Shows self.old w → Shows self.new (called moment call (is_barred 1 call) w)) }
    {
        if !is_taken_away(&call) {
            self.broker.step(alloc, moment, call)?;
        }
        Ok(())
    }
}

/// Whether the call is one of client 1 that an event may not make: a poll or a Disconnect.
fn is_taken_away(call: &Call) -> bool
    ensures { result ≡ is_barred 1 call.now }
{
    match call {
        Call::Poll { client } | Call::PollNumbered { client, .. } | Call::Disconnect { client } =>
            client.0 == 1,
        _ => false,
    }
}

/// A reply reaches a taker. Of a new batch the deliveries join those taken.
fn hear(taker: &mut Taker, taken: &mut Vec<Delivery>, reply: &Reply) -> Result<(), Memory>
    requires { Below (2 ^ 62) (says reply.now) }
    ensures asks { OnOk result (taker.new ≡ asks_then (says reply.now) taker.old) }
    ensures taken { OnOk result (taken.new.items ≡ taken.old.items ++ taken_of (says reply.now) taker.old) }
{
    match reply {
        Reply::Numbered {
            number,
            deliveries,
            ..
        }
        | Reply::Again {
            number,
            deliveries,
            ..
        } => hear_batch(taker, taken, *number, deliveries.as_slice()),
        _ => Ok(()),
    }
}

fn hear_batch(
    taker: &mut Taker,
    taken: &mut Vec<Delivery>,
    number: u64,
    deliveries: &[Delivery],
) -> Result<(), Memory>
    requires { number < 2 ^ 62 }
    ensures asks { OnOk result (taker.new ≡ (if number == taker.old then taker.old + 1 else taker.old)) }
    ensures taken { OnOk result (taken.new.items ≡ (if number == taker.old then taken.old.items ++ deliveries.now else taken.old.items)) }
{
    match taker.take(number) {
        Taken::New => append(taken, deliveries),
        Taken::Old | Taken::Ahead => Ok(()),
    }
}

/// These deliveries join those taken. They share their messages.
fn append(taken: &mut Vec<Delivery>, deliveries: &[Delivery]) -> Result<(), Memory>
    ensures { OnOk result (taken.new.items ≡ taken.old.items ++ deliveries.now) }
{
    for delivery in deliveries {
        taken.push(Delivery {
            sub: delivery.sub,
            number: delivery.number,
            message: delivery.message.share()?,
        })?;
    }
    Ok(())
}
