//! What has to stand in place of a goal that a token has met.

ghost use Rattle.std.specs.Prelude.{◌≡◌, ◌<◌, ◌∷◌, ◌++◌, [], Some, None};
ghost use Rattle.json.specs.Token.{begin_object};
ghost use Rattle.amf_text_read.specs.Goals.{Comes, listed};
ghost use Rattle.amf_text_read.specs.NextGoals.{all_listed};

use crate::goal::{Goal, Key};
use crate::table::at_object;

/// What has to stand next in place of a goal: some goals, the first first, and maybe one more behind them.
#[derive(Clone, Copy)]
pub(crate) struct Next {
    pub(crate) goals: &'static [Goal],
    pub(crate) more: Option<Goal>,
}

/// These goals and no more.
pub(crate) fn alone(goals: Option<&'static [Goal]>) -> Option<Next>
    ensures { all_listed result ≡ listed goals.entry }
{
    match goals {
        Some(goals) => Some(Next { goals, more: None }),
        None => None,
    }
}

/// These goals and one behind them, where something is left.
fn if_left(left: u16, goals: &'static [Goal], more: Goal) -> Option<Next>
    ensures none { left ≡ 0 → all_listed result ≡ None }
    ensures some { 0 < left → all_listed result ≡ Some (goals.now ++ more ∷ []) }
{
    if left == 0 {
        None
    } else {
        Some(Next {
            goals,
            more: Some(more),
        })
    }
}

/// What comes in place of a goal by the brace of an object.
#[tactic(auto, unfolding(amf_text::specs::Asks::step))]
pub(crate) fn object_next(goal: Goal) -> Option<Next>
    ensures { Comes goal begin_object (all_listed result) }
{
    match goal {
        Goal::MoreHeaders(left) => if_left(
            left,
            &[
                Goal::KeyIs(Key::Form),
                Goal::FormWord,
                Goal::KeyIs(Key::Must),
                Goal::Flag,
                Goal::KeyIs(Key::Name),
                Goal::ShortText,
                Goal::TableOr(Key::Root),
                Goal::Value,
                Goal::Close,
            ],
            Goal::MoreHeaders(left.saturating_sub(1)),
        ),
        Goal::MoreMessages(left) => if_left(
            left,
            &[
                Goal::KeyIs(Key::Form),
                Goal::FormWord,
                Goal::TableOr(Key::Response),
                Goal::ShortText,
                Goal::KeyIs(Key::Root),
                Goal::Value,
                Goal::KeyIs(Key::Target),
                Goal::ShortText,
                Goal::Close,
            ],
            Goal::MoreMessages(left.saturating_sub(1)),
        ),
        _ => alone(at_object(goal)),
    }
}
