ghost use Rattle.std.specs.Prelude.{◌≡◌, refl};
ghost use Rattle.std.proofs.Common.{◌∙◌, sym};
ghost use Rattle.amf_gateway.specs.Handed.{CallerGoesOn};
ghost use Rattle.amf_gateway.specs.WorkerSteps.{reason_of};
ghost use Rattle.amf_gateway.specs.HandedLaws.{aid_none, pass_none, calls_none, caller_both};

use crate::at_hand::AtHand;
use amf_answer_plan::outside::{Outside, Unanswered};
use amf_broker::{Call, Reply};
use amf_desk::{DeskEnd, Pass};
use amf_io::{Gate, Hall};
use std::hash::RandomState;
use std::sync::Wait;

/// A worker's place at a desk, with what gives it moments and words.
pub struct Caller<'a, R: Wait, A: Hall, G: Gate> {
    pub(crate) pass: &'a mut Pass,
    pub(crate) aid: &'a mut A,
    /// How many calls of the desk the worker has made, up to 2^64 - 1.
    pub(crate) calls: &'a mut u64,
    pub(crate) at: &'a AtHand<'a, R, G>,
    /// Why a call of the desk had no answer. After it none is made.
    pub(crate) unanswered: Option<Unanswered>,
}

/// Why a call has no answer.
fn why(end: DeskEnd) -> Unanswered
    ensures { result ≡ reason_of end }
{
    match end {
        DeskEnd::Spent => Unanswered::Spent,
        DeskEnd::Memory => Unanswered::Memory,
    }
}

impl<R: Wait, A: Hall, G: Gate> Drop for Caller<'_, R, A, G> {
    /// The pass, the aid and the count of calls stay as the caller leaves them.
    fn drop(self)
        ensures pass { self.exit.0.now ≡ self.entry.pass.now }
        ensures aid { self.exit.1.0.now ≡ self.entry.aid.now }
        ensures calls { self.exit.1.1.0.now ≡ self.entry.calls.now }
    {
        let Caller {
            pass: _pass,
            aid: _aid,
            calls: _calls,
            at: _at,
            unanswered: _unanswered,
        } = self;
    }
}

impl<R: Wait, A: Hall, G: Gate> Outside for Caller<'_, R, A, G> {
    ghost handed = { λ c d k. CallerGoesOn A.Hall c.aid d.aid c.pass d.pass c.at.now.desk.now d.at.now.desk.now c.calls d.calls c.unanswered d.unanswered k };

    ghost may_call = { λ c. c.pass.now.desk ≡ c.at.now.desk.now };

    fn keys(&self) -> Option<RandomState> {
        self.at.keys
    }

    fn moment(&mut self) -> u64 {
        self.aid.now()
    }

    fn word(&mut self) -> u64 {
        self.aid.word()
    }

    fn call(&mut self, moment: u64, call: Call) -> Result<Reply, Unanswered> {
        if let Some(end) = self.unanswered {
            return Err(end);
        }
        *self.calls = self.calls.saturating_add(1);
        let at = self.at;
        at.gate.before(at.worker, *self.calls);
        let answer = at.desk.call(at.rt, at.alloc, self.pass, moment, call);
        at.gate.after(at.worker, *self.calls);
        match answer {
            Ok(answer) => Ok(answer.reply),
            Err(end) => {
                let end = why(end);
                self.unanswered = Some(end);
                Err(end)
            }
        }
    }

    ghost hands_none = { λ a. (
      aid_none _ a.aid.now,
      pass_none a.pass.now,
      refl,
      refl,
      refl,
      refl,
      calls_none a.pass.now a.unanswered a.calls.now,
      λ e. refl,
    ) };

    ghost hands_both = { λ a b c k l p q. caller_both _ a.aid b.aid c.aid a.pass b.pass c.pass
        a.calls b.calls c.calls a.unanswered b.unanswered c.unanswered k l p q };

    ghost may_still = { λ a b k p may. p.1.desk ∙ (may ∙ sym p.2) };
}
