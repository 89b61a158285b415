//! The broker, with the counts that a desk tells when it is closed.
ghost use Rattle.std.specs.Prelude.{◌≡◌, ◌^◌, ◌<◌, [], OnErr, IfOk};
ghost use Rattle.amf_desk.specs.Histories.{publishes, hands_out, counted_after, AnswersAs, WantsMemory};

use amf_broker::{Answer, Broker, Call, Reply};
use amf_wire::{Memory, Name};
use std::alloc::Global;
use std::hash::RandomState;

/// A broker, how many messages its answers published, and how many deliveries they handed out. Each count stops at 2^64 - 1.
#[derive(Drop)]
pub struct CountedBroker {
    pub broker: Broker,
    pub published: u64,
    pub delivered: u64,
}

/// 1 where the reply published a message.
fn published_by(reply: &Reply) -> u64
    ensures { result ≡ publishes reply.now }
{
    match reply {
        Reply::Published { .. } => 1,
        _ => 0,
    }
}

/// How many deliveries the reply hands out for the first time.
fn handed_out_by(reply: &Reply) -> u64
    ensures { result ≡ hands_out reply.now }
{
    match reply {
        Reply::Batch { deliveries, .. } | Reply::Numbered { deliveries, .. } => {
            deliveries.as_slice().len() as u64
        }
        _ => 0,
    }
}

impl CountedBroker {
    pub(crate) fn new(alloc: Global, destinations: Vec<Name>) -> Result<CountedBroker, Memory>
        ensures { IfOk result (λ counted. counted ≡ counted_after destinations.items []) }
    {
        Ok(CountedBroker {
            broker: Broker::new(alloc, destinations)?,
            published: 0,
            delivered: 0,
        })
    }

    /// The same, and the broker looks topics up by hashes of these keys.
    pub(crate) fn keyed(
        alloc: Global,
        destinations: Vec<Name>,
        keys: RandomState,
    ) -> Result<CountedBroker, Memory>
        ensures { IfOk result (λ counted. counted ≡ counted_after destinations.items []) }
    {
        Ok(CountedBroker {
            broker: Broker::keyed(alloc, destinations, keys)?,
            published: 0,
            delivered: 0,
        })
    }

    /// The broker's answer to the call, whatever history led to it.
    pub(crate) fn answer(
        &mut self,
        alloc: Global,
        moment: u64,
        call: Call,
    ) -> Result<Answer, Memory>
        requires { self.old.broker.calls < 2 ^ 62 }
        ensures ok { IfOk result (λ a. AnswersAs self.old moment call self.new a) }
        ensures err { OnErr result (self.new ≡ self.old) }
        ensures wants { OnErr result (WantsMemory self.old moment call) }
    {
        let answer = self.broker.step(alloc, moment, call)?;
        self.published = self.published.saturating_add(published_by(&answer.reply));
        self.delivered = self.delivered.saturating_add(handed_out_by(&answer.reply));
        Ok(answer)
    }
}
