ghost use Rattle.std.specs.Prelude.{◌≡◌, ℕ, List, ◌<◌, ◌^◌, IfOk, OnOk, OnErr, IsOk, IsTrue, length, sum_by};
ghost use Rattle.amf_broker.specs.State.{first};
ghost use Rattle.amf_broker.specs.Machine.{answer_to, after};
ghost use Rattle.amf_broker.specs.Delivery.{KeepsDelivery};
ghost use Rattle.amf_broker.specs.Memory.{takes_none};

use crate::switchboard::Switchboard;
use crate::{Answer, Call, ClientIds};
use amf_wire::{Memory, Name};
use std::alloc::Global;
use std::hash::{BuildHasher, DefaultHasher, RandomState};
use std::marker::Model;

/// A broker of publish and subscribe. It answers one call after another, and hands out messages only when it is polled.
pub struct Broker {
    board: Switchboard,
    calls: u64,
    /// A moment before which no client expires.
    awake_until: u64,
}

impl Drop for Broker {
    /// Lets its parts go. Written out, it is proved once; what is derived is proved at each place where one is let go.
    fn drop(self) {
        let Broker {
            board: _,
            calls: _,
            awake_until: _,
        } = self;
    }
}

impl Model for Broker {
    ghost use Rattle.amf_broker.specs.State.{State};
    ghost use Rattle.amf_broker.specs.Awake.{IsCounted};

    ghost Value = { State };

    ghost view = { λ b. record { board = b.board; calls = b.calls } };

    ghost invariant = { λ b. IsCounted b.board b.calls b.awake_until };
}

impl Broker {
    /// A broker of these destinations, to which nobody is connected. It gives up where there is no memory.
    pub fn new(alloc: Global, destinations: Vec<Name>) -> Result<Broker, Memory>
        ensures { IfOk result (λ broker. broker ≡ first destinations.items) }
    {
        Ok(Broker::hashed(alloc, destinations, DefaultHasher::new()))
    }

    /// The same, and its topics are looked up by hashes of these keys. So whoever names topics should not know them.
    pub fn keyed(
        alloc: Global,
        destinations: Vec<Name>,
        keys: RandomState,
    ) -> Result<Broker, Memory>
        ensures { IfOk result (λ broker. broker ≡ first destinations.items) }
    {
        Ok(Broker::hashed(alloc, destinations, keys.build_hasher()))
    }

    /// The hashes begin so.
    fn hashed(alloc: Global, destinations: Vec<Name>, start: DefaultHasher) -> Broker
        ensures { result ≡ first destinations.items }
    {
        let board = Switchboard::new(alloc, destinations, start);
        Broker {
            board,
            calls: 0,
            awake_until: 0,
        }
    }

    /// How many calls were answered.
    pub fn calls(&self) -> u64
        ensures { result ≡ self.now.calls }
    {
        self.calls
    }

    /// How many deliveries are queued for all clients.
    pub fn queued(&self) -> u64
        ensures { result ≡ sum_by (λ c. length c.queue) self.now.board.clients }
    {
        self.board.queued()
    }

    /// Answers a call of this moment, of which a broker takes 2^62. The moment is in milliseconds, and one that is before
    /// the present moment stands for it. After `Memory` the broker is as before, the present moment too, and no call is
    /// counted.
    pub fn step(&mut self, alloc: Global, moment: u64, call: Call) -> Result<Answer, Memory>
        requires { self.old.calls < 2 ^ 62 }

        // The answer and the state are the machine's.
        ensures answer { IfOk result (λ a. a ≡ answer_to self.old moment call) }
        ensures state { OnOk result (self.new ≡ after self.old moment call) }
        ensures memory { OnErr result (self.new ≡ self.old) }

        // So each subscription of any history got what was due to it.
        ensures delivery { IfOk result (λ a. KeepsDelivery self.old moment call a self.new) }

        ensures takes_none { IsTrue (takes_none call (answer_to self.old moment call)) → IsOk result }
    {
        let moment = self.board.moment(alloc, moment, self.awake_until)?;
        let caller = call.client();
        let reply = match self.board.admitted(&moment, call) {
            Err(refusal) => {
                self.board.advance(&moment);
                refusal
            }
            Ok(call) => self.board.serve(alloc, &moment, call)?,
        };
        self.board.see(caller);
        self.calls += 1;
        let expired = ClientIds::of_vec(moment.expired);
        self.awake_until = self.board.awake_from(self.awake_until);
        Ok(Answer { reply, expired })
    }
}
