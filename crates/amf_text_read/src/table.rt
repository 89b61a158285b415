//! By which tokens goals are met, and what has to stand in place of each.

ghost use Rattle.std.specs.Prelude.{◌≡◌, [], true, false};
ghost use Rattle.json.specs.Token.{begin_object, end_object, begin_array, end_array, key as key_token, boolean, null};
ghost use Rattle.amf_text.specs.Asks.{node_key, value_key, vector_tag, class_key, begun_key};
ghost use Rattle.amf_text_read.specs.Goals.{Comes, AreBehind, listed, if_met, is_counted, is_left, is_alone};

use crate::goal::{Goal, Key};
use crate::tag::{Tag, is_name, tag_of};

/// What comes in place of a goal by the brace of an object. Headers and messages are counted elsewhere.
#[tactic(auto, unfolding(amf_text::specs::Asks::step))]
pub(crate) fn at_object(goal: Goal) -> Option<&'static [Goal]>
    ensures { is_counted goal ≡ false → Comes goal begin_object (listed result) }
{
    match goal {
        Goal::Start => Some(&[Goal::FormKey]),
        Goal::Rows => Some(&[Goal::RowKeys]),
        Goal::Value => Some(&[Goal::Object]),
        Goal::Items => Some(&[Goal::Object, Goal::Items]),
        Goal::Node => Some(&[Goal::NodeObject]),
        Goal::Members => Some(&[Goal::Keys]),
        Goal::Sealed => Some(&[Goal::Rising]),
        Goal::Those => Some(&[Goal::Left]),
        Goal::Text => Some(&[Goal::KeyIs(Key::Text), Goal::TextHex, Goal::Close]),
        Goal::ShortText => Some(&[Goal::KeyIs(Key::Text), Goal::ShortHex, Goal::Close]),
        _ => None,
    }
}

/// What comes in place of a goal by the bracket of a list.
#[tactic(auto, unfolding(amf_text::specs::Asks::step))]
pub(crate) fn at_array(goal: Goal) -> Option<&'static [Goal]>
    ensures { Comes goal begin_array (listed result) }
{
    match goal {
        Goal::Headers => Some(&[Goal::MoreHeaders(65535)]),
        Goal::Messages => Some(&[Goal::MoreMessages(65535)]),
        Goal::Value | Goal::Node | Goal::List => Some(&[Goal::Items]),
        Goal::Items => Some(&[Goal::Items, Goal::Items]),
        Goal::EntriesList => Some(&[Goal::Entries]),
        Goal::Entries => Some(&[Goal::Value, Goal::Value, Goal::EndList, Goal::Entries]),
        Goal::Members | Goal::Sealed => Some(&[Goal::Pairs]),
        Goal::Pairs => Some(&[Goal::Text, Goal::Value, Goal::EndList, Goal::Pairs]),
        Goal::ClassNames => Some(&[Goal::MoreNames]),
        Goal::PatternList => Some(&[Goal::Patterns]),
        Goal::IntList => Some(&[Goal::Ints]),
        Goal::UintList => Some(&[Goal::Uints]),
        _ => None,
    }
}

/// Whether an object may end there. Names that are left are counted elsewhere.
#[tactic(auto, unfolding(amf_text::specs::Asks::step))]
pub(crate) fn ends_object(goal: Goal) -> bool
    ensures { is_left goal ≡ false → Comes goal end_object (if_met result []) }
{
    match goal {
        Goal::Close
        | Goal::RowKeys
        | Goal::Object
        | Goal::NodeObject
        | Goal::Plain
        | Goal::Keys
        | Goal::ClassRest
        | Goal::Begun
        | Goal::Rising
        | Goal::RisingPast
        | Goal::FlagOrClose(_) => true,
        _ => false,
    }
}

/// What comes in place of a goal by the end of a list.
#[tactic(auto, unfolding(amf_text::specs::Asks::step))]
pub(crate) fn at_array_end(goal: Goal) -> Option<&'static [Goal]>
    ensures { Comes goal end_array (listed result) }
{
    match goal {
        Goal::EndList
        | Goal::MoreHeaders(_)
        | Goal::MoreMessages(_)
        | Goal::Items
        | Goal::Entries
        | Goal::Pairs
        | Goal::Patterns
        | Goal::Ints
        | Goal::Uints => Some(&[]),
        Goal::MoreNames => Some(&[Goal::KeyIs(Key::Sealed), Goal::Those, Goal::Close]),
        _ => None,
    }
}

/// What comes in place of a goal by `null`.
#[tactic(auto, unfolding(amf_text::specs::Asks::step))]
pub(crate) fn at_null(goal: Goal) -> Option<&'static [Goal]>
    ensures { Comes goal null (listed result) }
{
    match goal {
        Goal::Value => Some(&[]),
        Goal::Items => Some(&[Goal::Items]),
        _ => None,
    }
}

/// What comes in place of a goal by `true` or `false`.
#[tactic(auto, unfolding(amf_text::specs::Asks::step))]
pub(crate) fn at_flag(goal: Goal, flag: bool) -> Option<&'static [Goal]>
    ensures { Comes goal (boolean flag) (listed result) }
{
    match goal {
        Goal::Value | Goal::Flag => Some(&[]),
        Goal::Items => Some(&[Goal::Items]),
        Goal::Truth => when(flag, &[]),
        _ => None,
    }
}

/// These goals, where a test holds.
pub(crate) fn when(test: bool, goals: &'static [Goal]) -> Option<&'static [Goal]>
    ensures { listed result ≡ if_met test goals.now }
{
    if test { Some(goals) } else { None }
}

/// What comes in place of a goal that is met by the first key of a node.
#[tactic(auto, unfolding(amf_text::specs::Asks::node_key, amf_text::specs::Asks::vector_tag))]
fn node_goals(tag: Tag) -> Option<&'static [Goal]>
    ensures { AreBehind node_key tag (listed result) }
{
    match tag {
        Tag::Name => Some(&[Goal::Value, Goal::Plain]),
        Tag::Array => Some(&[
            Goal::List,
            Goal::KeyIs(Key::Names),
            Goal::Members,
            Goal::Close,
        ]),
        Tag::Class => Some(&[Goal::Text, Goal::ClassRest]),
        Tag::Collection | Tag::List | Tag::Proxy => Some(&[Goal::Value, Goal::Close]),
        Tag::Xmldoc | Tag::Xml => Some(&[Goal::Text, Goal::Close]),
        Tag::Date => Some(&[Goal::Pattern, Goal::Close]),
        Tag::Bytes => Some(&[Goal::Hex, Goal::Close]),
        Tag::Doubles => Some(&[Goal::PatternList, Goal::FlagOrClose(Key::Fixed)]),
        Tag::Dictionary => Some(&[Goal::EntriesList, Goal::FlagOrClose(Key::Weak)]),
        Tag::Fixed => Some(&[Goal::Flag, Goal::VectorKey]),
        _ => vector_goals(tag),
    }
}

/// What comes in place of a goal that is met by the first key of a value.
#[tactic(auto, unfolding(amf_text::specs::Asks::value_key))]
fn value_goals(tag: Tag) -> Option<&'static [Goal]>
    ensures { AreBehind value_key tag (listed result) }
{
    match tag {
        Tag::Undefined => Some(&[Goal::Truth, Goal::Close]),
        Tag::Double => Some(&[Goal::Pattern, Goal::Close]),
        Tag::Text => Some(&[Goal::TextHex, Goal::Close]),
        Tag::Node => Some(&[Goal::Label, Goal::Close]),
        _ => node_goals(tag),
    }
}

/// What stands behind a key of a vector whose length is fixed, or not.
#[tactic(auto, unfolding(amf_text::specs::Asks::vector_tag))]
fn vector_goals(tag: Tag) -> Option<&'static [Goal]>
    ensures { AreBehind vector_tag tag (listed result) }
{
    match tag {
        Tag::Ints => Some(&[Goal::IntList, Goal::Close]),
        Tag::Uints => Some(&[Goal::UintList, Goal::Close]),
        Tag::Type => Some(&[
            Goal::Text,
            Goal::KeyIs(Key::Values),
            Goal::List,
            Goal::Close,
        ]),
        _ => None,
    }
}

/// What stands behind the first key that follows a class.
#[tactic(auto, unfolding(amf_text::specs::Asks::class_key, amf_text::specs::Asks::begun_key))]
fn class_goals(tag: Tag) -> Option<&'static [Goal]>
    ensures { AreBehind class_key tag (listed result) }
{
    match tag {
        Tag::Dynamic => Some(&[Goal::Members, Goal::Begun]),
        _ => begun_goals(tag),
    }
}

/// What stands behind the key that follows dynamic members.
#[tactic(auto, unfolding(amf_text::specs::Asks::begun_key))]
fn begun_goals(tag: Tag) -> Option<&'static [Goal]>
    ensures { AreBehind begun_key tag (listed result) }
{
    match tag {
        Tag::Names => Some(&[Goal::ClassNames]),
        Tag::Sealed => Some(&[Goal::Sealed, Goal::Close]),
        _ => None,
    }
}

/// What comes in place of a goal by a key. Goals that hold lists, and the table that may come first, are treated elsewhere.
#[tactic(auto, unfolding(amf_text::specs::Asks::step))]
pub(crate) fn at_key(goal: Goal, key: &str) -> Option<&'static [Goal]>
    ensures { is_alone goal ≡ true → Comes goal (key_token key.now) (listed result) }
{
    match goal {
        Goal::FormKey => when(key == "amf", &[Goal::FormName]),
        Goal::KeyIs(name) => when(key == name.name(), &[]),
        Goal::Object => value_goals(tag_of(key)),
        Goal::NodeObject => node_goals(tag_of(key)),
        Goal::Plain => when(is_name(key), &[Goal::Value, Goal::Plain]),
        Goal::Keys => Some(&[Goal::Value, Goal::Keys]),
        Goal::ClassRest => class_goals(tag_of(key)),
        Goal::Begun => begun_goals(tag_of(key)),
        Goal::Rising => Some(&[Goal::Value, Goal::RisingPast]),
        Goal::FlagOrClose(name) => when(key == name.name(), &[Goal::Flag, Goal::Close]),
        Goal::VectorKey => vector_goals(tag_of(key)),
        _ => None,
    }
}
