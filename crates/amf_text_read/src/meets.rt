//! Whether a token meets a goal, and what comes in its place, or why it is refused.

ghost use Rattle.std.specs.Prelude.{◌≡◌, [], IfOk};
ghost use Rattle.json.specs.Token.{key as key_token, string, end_object};
ghost use Rattle.json.specs.Reads.{token_of};
ghost use Rattle.amf_text.specs.Told.{stands_in, comes_before};
ghost use Rattle.amf_text.specs.Asks.{fault_at};
ghost use Rattle.amf_text_read.specs.Goals.{Comes, goal_of, if_met};
ghost use Rattle.amf_text_read.specs.NextGoals.{all_listed};
ghost use Rattle.amf_text_read.specs.Meets.{AreNext};
ghost use Rattle.amf_text_read.specs.Lists.{held_of};

use crate::goal::{Goal, Key};
use crate::held::Lists;
use crate::next::{Next, alone, object_next};
use crate::number_table::at_number;
use crate::reasons::{key_reason, number_reason, object_reason, other_reason, string_reason};
use crate::scalars::number_pattern;
use crate::table::{at_array, at_array_end, at_flag, at_key, at_null, ends_object, when};
use crate::word_table::at_string;
use amf_text::TextReason;
use amf_wire::Memory;
use json::Token;

/// What comes in place of a key before which the table may stand.
#[tactic(auto, unfolding(amf_text::specs::Asks::step))]
fn table_next(name: Key, key: &str) -> Option<Next>
    ensures { Comes (Goal.TableOr name) (key_token key.now) (all_listed result) }
{
    if key == "nodes" {
        Some(Next {
            goals: &[Goal::Rows],
            more: Some(Goal::KeyIs(name)),
        })
    } else {
        alone(when(key == name.name(), &[]))
    }
}

impl Lists {
    /// Whether a row of the table that is open has this label.
    fn is_label(&self, label: &str) -> bool
        ensures { result ≡ stands_in (held_of self.now).labels.at label.now }
    {
        match self.labels.at.find(label.as_bytes()) {
            Some(_) => true,
            None => false,
        }
    }

    /// Whether a key comes behind the last of keys that rise.
    fn rises(&self, key: &str) -> bool
        ensures { result ≡ comes_before (held_of self.now).lasts.at key.now }
    {
        self.lasts.at.as_slice().cmp(key.as_bytes()).is_lt()
    }

    /// What comes in place of a goal by a key.
    #[tactic(auto, unfolding(amf_text::specs::Asks::step))]
    fn key_next(&self, goal: Goal, key: &str) -> Option<Next>
        ensures { AreNext (held_of self.now) goal (key_token key.now) (all_listed result) }
    {
        match goal {
            Goal::TableOr(name) => table_next(name, key),
            Goal::RowKeys => alone(when(!self.is_label(key), &[Goal::Node, Goal::RowKeys])),
            Goal::Left => {
                let is_left = self.names.at.is_left(key.as_bytes());
                alone(when(is_left, &[Goal::Value, Goal::Left]))
            }
            Goal::RisingPast => alone(when(self.rises(key), &[Goal::Value, Goal::RisingPast])),
            _ => alone(at_key(goal, key)),
        }
    }

    /// Whether an object may end there.
    #[tactic(auto, unfolding(amf_text::specs::Asks::step))]
    fn ends(&self, goal: Goal) -> bool
        ensures { AreNext (held_of self.now) goal end_object (if_met result []) }
    {
        match goal {
            Goal::Left => !self.names.at.has_left(),
            _ => ends_object(goal),
        }
    }

    /// What comes in place of a goal by a string.
    #[tactic(auto, unfolding(amf_text::specs::Asks::step))]
    fn string_next(&self, goal: Goal, text: &str) -> Result<Option<Next>, Memory>
        ensures { IfOk result (λ next. AreNext (held_of self.now) goal (string text.now) (all_listed next)) }
    {
        match goal {
            Goal::MoreNames => {
                let is_told = self.names.at.is_told(text.as_bytes());
                Ok(alone(when(!is_told, &[Goal::MoreNames])))
            }
            _ => Ok(alone(at_string(self.alloc, goal, text)?)),
        }
    }

    /// What comes in place of a goal by a token, or nothing where it is refused.
    pub(crate) fn next(&self, goal: Goal, token: &Token<'_>) -> Result<Option<Next>, Memory>
        ensures { IfOk result (λ next. AreNext (held_of self.now) goal (token_of token.now) (all_listed next)) }
    {
        match token {
            Token::BeginObject => Ok(object_next(goal)),
            Token::EndObject => Ok(alone(when(self.ends(goal), &[]))),
            Token::BeginArray => Ok(alone(at_array(goal))),
            Token::EndArray => Ok(alone(at_array_end(goal))),
            Token::Key(key) => Ok(self.key_next(goal, key)),
            Token::String(text) => self.string_next(goal, text),
            Token::Number(number) => Ok(alone(at_number(goal, number_pattern(number)))),
            Token::Bool(flag) => Ok(alone(at_flag(goal, *flag))),
            Token::Null => Ok(alone(at_null(goal))),
            Token::Bad => Ok(None),
        }
    }

    /// Why a token is refused that does not meet a goal.
    pub(crate) fn reason(&self, goal: Goal, token: &Token<'_>) -> Result<TextReason, Memory>
        ensures { IfOk result (λ reason. reason ≡ fault_at (goal_of (held_of self.now) goal) (token_of token.now)) }
    {
        match token {
            Token::Key(key) => Ok(key_reason(goal, self.is_label(key))),
            Token::String(text) => string_reason(self.alloc, goal, text),
            Token::Number(_) => Ok(number_reason(goal)),
            Token::BeginObject => Ok(object_reason(goal)),
            Token::EndObject
            | Token::BeginArray
            | Token::EndArray
            | Token::Bool(_)
            | Token::Null
            | Token::Bad => Ok(other_reason(goal)),
        }
    }
}
