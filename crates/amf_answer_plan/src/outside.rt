ghost use Rattle.std.specs.Prelude.{◌≡◌, IfOk, OnErr};
ghost use Rattle.amf_broker.specs.History.{Entry as Event};
ghost use Rattle.amf_answer_plan.specs.Did.{Drawn, none_taken, moment_taken, word_taken, entry_taken, no_answer, both_taken};
ghost use Rattle.amf_answer_plan.specs.Small.{IsSmall};

use amf_broker::{Call, Reply};
use amf_wire::Memory;
use std::alloc::{AllocError, AllocFailed};
use std::hash::RandomState;

/// Why a request was not answered.
#[derive(Clone, Copy, Debug, PartialEq, Eq)]
pub enum Unanswered {
    /// No more calls may be made.
    Spent,
    /// There was no memory left.
    Memory,
}

impl From<AllocError> for Unanswered {
    fn from(_error: AllocError) -> Unanswered {
        Unanswered::Memory
    }
}

impl<T: Drop> From<AllocFailed<T>> for Unanswered {
    fn from(_error: AllocFailed<T>) -> Unanswered {
        Unanswered::Memory
    }
}

impl From<Memory> for Unanswered {
    fn from(_error: Memory) -> Unanswered {
        Unanswered::Memory
    }
}

/// What a gateway is given while it answers: moments, words and the desk's replies.
pub trait Outside {
    /// What was given between two states, in order.
    ghost handed: { Self → Self → Drawn → Type 0 };

    /// Whether it may call the desk.
    ghost may_call: { Self → Type 0 };

    /// The keys by which readers and writers look texts up; with none they are fixed.
    fn keys(&self) -> Option<RandomState>;

    /// The moment now, in milliseconds.
    fn moment(&mut self) -> u64
        ensures { handed self.old self.new (moment_taken result) };

    /// The next word.
    fn word(&mut self) -> u64
        ensures { handed self.old self.new (word_taken result) };

    /// The desk's reply to a call of this moment.
    fn call(&mut self, moment: u64, call: Call) -> Result<Reply, Unanswered>
        requires { may_call self.old }
        ensures reply { IfOk result (λ reply. (e : Event) × handed self.old self.new (entry_taken e) × (e.moment ≡ moment) × (e.call ≡ call) × (e.answer.reply ≡ reply)) }
        ensures small { IfOk result (λ reply. IsSmall reply) }
        ensures none { OnErr result (handed self.old self.new no_answer) };

    /// Where nothing happens, nothing is given.
    ghost hands_none: { (a : Self) → handed a a none_taken };

    /// One thing after another.
    ghost hands_both: { (a b c : Self) (k l : Drawn) → handed a b k → handed b c l → handed a c (both_taken k l) };

    /// What may call the desk may do so afterwards.
    ghost may_still: { (a b : Self) (k : Drawn) → handed a b k → may_call a → may_call b };
}
