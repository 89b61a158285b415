//! The sealed names of a class that tells them.

ghost use Rattle.std.specs.Prelude.{◌≡◌, true, false, get_or, OnOk};
ghost use Rattle.amf_text.specs.Told.{stands_in};
ghost use Rattle.amf_text_read.specs.Names.{no_names, with_name, all_left, without_name, has_some};
ghost use Rattle.amf_text_read.specs.Flags.{with_flag};

use amf_graph::Texts;
use amf_wire::Memory;
use std::alloc::Global;
use std::hash::RandomState;
use std::marker::Model;

/// The names that a class has told, and which of them a member has.
pub(crate) struct Names {
    told: Texts,
    given: Vec<bool>,
}

impl Drop for Names {
    /// Lets its parts go. Written out, it is proved once; what is derived is proved at each place where one is let go.
    fn drop(self) {
        let Names { told: _, given: _ } = self;
    }
}

impl Model for Names {
    ghost use Rattle.amf_graph.specs.TextNumbers.{contents_of};
    ghost use Rattle.amf_text_read.specs.Names.{ToldNames, left_of};

    ghost Value = { ToldNames };

    ghost view = { λ a. record { told = contents_of a.told; left = left_of a.given.items (contents_of a.told) } };
}

/// Whether a flag is set. Those that are lacking are not.
fn is_set(flags: &[bool], place: usize) -> bool
    ensures { result ≡ get_or flags.now place false }
{
    place < flags.len() && flags[place]
}

/// Sets a flag.
fn set_flag(flags: &mut Vec<bool>, place: usize) -> Result<(), Memory>
    ensures { OnOk result (flags.new.items ≡ with_flag place flags.old.items) }
{
    while flags.len() <= place {
        flags.push(false)?;
    }
    flags[place] = true;
    Ok(())
}

impl Names {
    /// None are told yet. They are looked up by these keys.
    pub(crate) fn new(alloc: Global, keys: Option<RandomState>) -> Names
        ensures { result ≡ no_names }
    {
        Names {
            told: Texts::new(alloc, keys),
            given: Vec::new(alloc),
        }
    }

    /// Whether a name has been told.
    pub(crate) fn is_told(&self, name: &[u8]) -> bool
        ensures { result ≡ stands_in self.now.told name.now }
    {
        match self.told.find(name) {
            Some(_) => true,
            None => false,
        }
    }

    /// Tells a name that has not been told yet.
    pub(crate) fn tell(&mut self, name: &[u8]) -> Result<(), Memory>
        requires { stands_in self.old.told name.now ≡ false }
        ensures { OnOk result (self.new ≡ with_name self.old name.now) }
    {
        self.given.clear();
        self.told.find_or_push(name)?;
        Ok(())
    }

    /// Members begin: none of them has a name yet.
    pub(crate) fn begin(&mut self)
        ensures { self.new ≡ all_left self.old }
    {
        self.given.clear();
    }

    /// Whether a name has been told, and no member has it yet.
    pub(crate) fn is_left(&self, name: &[u8]) -> bool
        ensures { result ≡ stands_in self.now.left name.now }
    {
        match self.told.find(name) {
            Some(number) => !is_set(&self.given, number as usize),
            None => false,
        }
    }

    /// Whether some name has no member yet.
    pub(crate) fn has_left(&self) -> bool
        ensures { result ≡ has_some self.now.left }
    {
        for place in 0..self.told.content_count() {
            if !is_set(&self.given, place) {
                return true;
            }
        }
        false
    }

    /// Gives a name that is left to a member.
    pub(crate) fn give(&mut self, name: &[u8]) -> Result<(), Memory>
        requires { stands_in self.old.left name.now ≡ true }
        ensures { OnOk result (self.new ≡ without_name self.old name.now) }
    {
        match self.told.find(name) {
            Some(number) => {
                set_flag(&mut self.given, number as usize)?;
                Ok(())
            }
            None => Ok(()),
        }
    }
}
