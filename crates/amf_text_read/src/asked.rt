//! What has to stand next in a text, token by token.

ghost use Rattle.std.specs.Prelude.{◌≡◌, ◌-◌, [], ◌∷◌, ◌++◌, IfOk, OnOk, MatchOption, length, reverse, take};
ghost use Rattle.json.specs.Reads.{token_of};
ghost use Rattle.amf_text.specs.Asks.{start};
ghost use Rattle.amf_text.specs.Refused.{is_label};
ghost use Rattle.amf_text_read.specs.NextGoals.{with_more};
ghost use Rattle.amf_text_read.specs.Verdicts.{asked_of, is_empty, IsFirst, Judges};

use crate::goal::Goal;
use crate::held::Lists;
use crate::next::Next;
use amf_text::TextReason;
use amf_wire::Memory;
use json::Token;
use std::alloc::Global;
use std::hash::RandomState;

/// What has to stand next in a text of which some tokens have been read.
pub struct Asked {
    /// The last of these has to stand next, then the one before it, and so on.
    goals: Vec<Goal>,
    lists: Lists,
}

impl Drop for Asked {
    /// Lets its parts go. Written out, it is proved once; what is derived is proved at each place where one is let go.
    fn drop(self) {
        let Asked { goals: _, lists: _ } = self;
    }
}

/// What has to stand next, or nothing behind the whole text.
fn next_goal(goals: &[Goal]) -> Option<Goal>
    ensures { MatchOption result (reverse goals.now ≡ []) (λ g. reverse goals.now ≡ g ∷ reverse (take (length goals.now - 1) goals.now)) }
{
    goals.last().copied()
}

/// Puts goals in front of those that stand next.
fn put_first(goals: &mut Vec<Goal>, first: &[Goal]) -> Result<(), Memory>
    ensures { OnOk result (reverse goals.new.items ≡ first.now ++ reverse goals.old.items) }
{
    let mut place = first.len();
    while place > 0 {
        place -= 1;
        goals.push(first[place])?;
    }
    Ok(())
}

/// Puts what has to stand next in place of a goal that was met.
fn put(goals: &mut Vec<Goal>, next: Next) -> Result<(), Memory>
    ensures { OnOk result (reverse goals.new.items ≡ with_more next.goals.now next.more ++ reverse goals.old.items) }
{
    if let Some(more) = next.more {
        goals.push(more)?;
    }
    put_first(goals, next.goals)
}

impl Asked {
    /// Nothing has been read: the whole text has to come. What is looked up is found by these keys.
    pub fn new(alloc: Global, keys: Option<RandomState>) -> Result<Asked, Memory>
        ensures { IfOk result (λ asked. asked_of asked ≡ start ∷ []) }
    {
        let mut goals = Vec::new(alloc);
        goals.push(Goal::Start)?;
        Ok(Asked {
            goals,
            lists: Lists::new(alloc, keys),
        })
    }

    /// What has to stand next, if anything has to come.
    pub fn goal(&self) -> Option<Goal>
        ensures { MatchOption result (asked_of self.now ≡ []) (λ g. IsFirst g (asked_of self.now)) }
    {
        next_goal(&self.goals)
    }

    /// Takes a token: `None` where it is asked for, else the reason why it is refused, and then nothing changes.
    pub fn take(&mut self, token: &Token<'_>) -> Result<Option<TextReason>, Memory>
        ensures { IfOk result (Judges (asked_of self.old) (asked_of self.new) (token_of token.now)) }
    {
        let Some(goal) = next_goal(&self.goals) else {
            return Ok(Some(TextReason::Trailing));
        };
        match self.lists.next(goal, token)? {
            Some(next) => {
                self.lists.note(goal, token)?;
                self.goals.pop();
                put(&mut self.goals, next)?;
                Ok(None)
            }
            None => Ok(Some(self.lists.reason(goal, token)?)),
        }
    }

    /// Whether a label has to come.
    pub(crate) fn wants_label(&self) -> bool
        ensures { result ≡ is_label (asked_of self.now) }
    {
        matches!(next_goal(&self.goals), Some(Goal::Label))
    }

    /// Whether nothing has to come any more.
    pub fn is_whole(&self) -> bool
        ensures { result ≡ is_empty (asked_of self.now) }
    {
        self.goals.is_empty()
    }
}
