ghost use Rattle.std.specs.Prelude.{◌≡◌, ℕ, ◌+◌, ◌^◌, ◌<◌, if◌then◌else◌, ◌==◌};
ghost use Rattle.amf_once.specs.Taking.{judged};

use std::marker::Model;

/// What a taker says of a batch by its number.
#[derive(Clone, Copy, Debug, PartialEq, Eq)]
pub enum Taken {
    /// It is the batch that was asked for: use its messages now. The taker asks for the next one from here on.
    New,
    /// It was taken before: an answer that came twice, or late. Use nothing of it.
    Old,
    /// It was not asked for yet. No broker of `amf_broker` answers so. Use nothing of it.
    Ahead,
}

/// The client's side of numbered polls: the number of the batch that it wants next, from 1.
///
/// Poll with the number that [`Taker::asks`] gives, and repeat that poll as often as it takes until an answer comes. Show the
/// number of each batch that comes to [`Taker::take`], and use the batch exactly where that is [`Taken::New`]. It holds one
/// number, and no call of it takes memory.
#[derive(Clone, Debug, PartialEq, Eq, Drop)]
pub struct Taker {
    number: u64,
}

impl Model for Taker {
    ghost use Rattle.std.specs.Prelude.{ℕ};

    ghost Value = { ℕ };

    ghost view = { λ t. t.number };

    ghost inverse = { λ n. record { number = n } };
}

impl Taker {
    /// A taker that has taken nothing, and asks for batch 1.
    pub fn new() -> Self
        ensures { result ≡ 1 }
    {
        Taker { number: 1 }
    }

    /// The number of the batch that it wants next, which is that of its next poll.
    pub fn asks(&self) -> u64
        ensures { result ≡ self.now }
    {
        self.number
    }

    /// Judges a batch by its number, which is below 2^62. Of a new one the number asked rises by one, and else it stays.
    pub fn take(&mut self, number: u64) -> Taken
        requires { number < 2 ^ 62 }
        ensures judged { result ≡ judged self.old number }
        ensures rises { self.new ≡ (if number == self.old then self.old + 1 else self.old) }
    {
        if number == self.number {
            self.number += 1;
            Taken::New
        } else if number < self.number {
            Taken::Old
        } else {
            Taken::Ahead
        }
    }
}
