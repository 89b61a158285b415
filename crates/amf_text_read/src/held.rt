//! The lists that goals hold: labels, names of classes, and the last keys of members that rise.

ghost use Rattle.std.specs.Prelude.{◌≡◌, OnOk};
ghost use Rattle.json.specs.Token.{key as key_token, begin_object, begin_array, end_object};
ghost use Rattle.json.specs.Reads.{token_of};
ghost use Rattle.amf_text_read.specs.Goals.{held_after};
ghost use Rattle.amf_text_read.specs.Lists.{held_of, no_lists, MayTake};

use crate::goal::Goal;
use crate::names::Names;
use crate::nested::Nested;
use amf_graph::Texts;
use amf_wire::Memory;
use json::Token;
use std::alloc::Global;
use std::hash::RandomState;

/// The labels of tables, the names of classes, and the last keys of members that rise, each for the goals that are open.
pub(crate) struct Lists {
    pub(crate) alloc: Global,
    keys: Option<RandomState>,
    pub(crate) labels: Nested<Texts>,
    pub(crate) names: Nested<Names>,
    pub(crate) lasts: Nested<Vec<u8>>,
}

impl Drop for Lists {
    /// Lets its parts go. Written out, it is proved once; what is derived is proved at each place where one is let go.
    fn drop(self) {
        let Lists {
            alloc: _,
            keys: _,
            labels: _,
            names: _,
            lasts: _,
        } = self;
    }
}

impl Lists {
    /// Nothing is held yet. What is looked up is found by these keys.
    pub(crate) fn new(alloc: Global, keys: Option<RandomState>) -> Lists
        ensures { held_of result ≡ no_lists }
    {
        Lists {
            alloc,
            keys,
            labels: Nested::new(alloc, Texts::new(alloc, keys)),
            names: Nested::new(alloc, Names::new(alloc, keys)),
            lasts: Nested::new(alloc, Vec::new(alloc)),
        }
    }

    /// Keeps the label of a row that has none of those before it.
    fn label(&mut self, label: &[u8]) -> Result<(), Memory>
        requires { MayTake (held_of self.old) Goal.RowKeys (key_token label.now) }
        ensures { OnOk result (held_of self.new ≡ held_after (held_of self.old) Goal.RowKeys (key_token label.now)) }
    {
        self.labels.at.find_or_push(label)?;
        Ok(())
    }

    /// Keeps a key in place of the last one.
    fn last(&mut self, key: &[u8]) -> Result<(), Memory>
        ensures { OnOk result (held_of self.new ≡ held_after (held_of self.old) Goal.RisingPast (key_token key.now)) }
    {
        self.lasts.at.clear();
        self.lasts.at.extend_from_slice(key)?;
        Ok(())
    }

    /// Notes a key by which a goal is met.
    fn note_key(&mut self, goal: Goal, key: &[u8]) -> Result<(), Memory>
        requires { MayTake (held_of self.old) goal (key_token key.now) }
        ensures { OnOk result (held_of self.new ≡ held_after (held_of self.old) goal (key_token key.now)) }
    {
        match goal {
            Goal::RowKeys => self.label(key),
            Goal::Left => self.names.at.give(key),
            Goal::Rising => {
                self.lasts.enter(Vec::new(self.alloc))?;
                self.last(key)
            }
            Goal::RisingPast => self.last(key),
            _ => Ok(()),
        }
    }

    /// Notes that a goal is met by the brace of an object.
    fn note_object(&mut self, goal: Goal) -> Result<(), Memory>
        ensures { OnOk result (held_of self.new ≡ held_after (held_of self.old) goal begin_object) }
    {
        match goal {
            Goal::Rows => self.labels.enter(Texts::new(self.alloc, self.keys)),
            Goal::Those => {
                self.names.at.begin();
                Ok(())
            }
            _ => Ok(()),
        }
    }

    /// Notes that a goal is met by the bracket of a list.
    fn note_array(&mut self, goal: Goal) -> Result<(), Memory>
        ensures { OnOk result (held_of self.new ≡ held_after (held_of self.old) goal begin_array) }
    {
        match goal {
            Goal::ClassNames => self.names.enter(Names::new(self.alloc, self.keys)),
            _ => Ok(()),
        }
    }

    /// Notes that a goal is met by the end of an object.
    fn note_end(&mut self, goal: Goal)
        ensures { held_of self.new ≡ held_after (held_of self.old) goal end_object }
    {
        match goal {
            Goal::RowKeys => self.labels.leave(Texts::new(self.alloc, self.keys)),
            Goal::Left => self.names.leave(Names::new(self.alloc, self.keys)),
            Goal::RisingPast => self.lasts.leave(Vec::new(self.alloc)),
            _ => {}
        }
    }

    /// Notes a token by which a goal is met.
    pub(crate) fn note(&mut self, goal: Goal, token: &Token<'_>) -> Result<(), Memory>
        requires { MayTake (held_of self.old) goal (token_of token.now) }
        ensures { OnOk result (held_of self.new ≡ held_after (held_of self.old) goal (token_of token.now)) }
    {
        match token {
            Token::Key(key) => self.note_key(goal, key.as_bytes()),
            Token::BeginObject => self.note_object(goal),
            Token::BeginArray => self.note_array(goal),
            Token::EndObject => {
                self.note_end(goal);
                Ok(())
            }
            Token::String(text) => match goal {
                Goal::MoreNames => self.names.at.tell(text.as_bytes()),
                _ => Ok(()),
            },
            _ => Ok(()),
        }
    }
}
