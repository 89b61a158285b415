//! What goals hold that stand around one another.

ghost use Rattle.std.specs.Prelude.{◌≡◌, [], OnOk};
ghost use Rattle.amf_text_read.specs.Goals.{enter, leave};
ghost use Rattle.amf_text_read.specs.Nesting.{nested};

use amf_wire::Memory;
use std::alloc::Global;
use std::mem;

/// What is held for the innermost of some goals, and for those around it.
#[derive(Drop)]
pub(crate) struct Nested<T> {
    pub(crate) at: T,
    outer: Vec<T>,
}

impl<T: Drop> Nested<T> {
    /// Nothing is around it.
    pub(crate) fn new(alloc: Global, at: T) -> Nested<T>
        ensures at { result.at ≡ at }
        ensures outer { result.outer.items ≡ [] }
    {
        Nested {
            at,
            outer: Vec::new(alloc),
        }
    }

    /// Goes on to an inner one.
    pub(crate) fn enter(&mut self, inner: T) -> Result<(), Memory>
        ensures { OnOk result (nested self.new.at self.new.outer.items ≡ enter inner (nested self.old.at self.old.outer.items)) }
    {
        let outer = mem::replace(&mut self.at, inner);
        self.outer.push(outer)?;
        Ok(())
    }

    /// Goes back to the one around it, or to this where there is none.
    pub(crate) fn leave(&mut self, none: T)
        ensures { nested self.new.at self.new.outer.items ≡ leave none (nested self.old.at self.old.outer.items) }
    {
        self.at = match self.outer.pop() {
            Some(outer) => outer,
            None => none,
        };
    }
}
