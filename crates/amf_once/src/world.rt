ghost use Rattle.std.specs.Prelude.{◌≡◌};

use crate::Taker;
use amf_broker::{Answer, Deliveries};
use std::marker::Model;

/// Answers of a broker, in the order in which it gave them.
#[derive(Debug, Drop)]
pub struct Answers {
    items: Vec<Answer>,
}

impl Model for Answers {
    ghost use Rattle.std.specs.Prelude.{List};
    ghost use Rattle.amf_broker.specs.declared.reply.Answer.{Answer};

    ghost Value = { List Answer };

    ghost view = { λ a. a.items.items };
}

impl Answers {
    /// These answers.
    pub fn of_vec(items: Vec<Answer>) -> Answers
        ensures { result ≡ items.items }
    {
        Answers { items }
    }

    /// The answers, in order.
    pub fn as_slice(&self) -> &[Answer]
        ensures { result.now ≡ self.now }
    {
        self.items.as_slice()
    }
}

/// What stands after events.
#[derive(Debug, Drop)]
pub struct World {
    /// The taker, with the number that it asks next.
    pub taker: Taker,
    /// The deliveries of the batches that were new to it, in the order in which it took them.
    pub taken: Deliveries,
    /// What the broker answered to the requests that reached it, in that order, whether or not the answer reached the taker.
    pub answers: Answers,
}
