//! Nodes with lists of their own.

ghost use Rattle.std.specs.Prelude.{◌≡◌, ◌<◌, Some, None, OnOk, OnErr};
ghost use Rattle.amf_graph.specs.Bodies.{TakesPart};
ghost use Rattle.amf_graph.specs.Bounds.{count_end};
ghost use Rattle.amf_graph.specs.Building.{shape_head, begun, more_part, shut, size_of};
ghost use Rattle.amf_graph.specs.Held.{held_node};
ghost use Rattle.amf_graph.specs.Slots.{no_lists, with_node};
ghost use Rattle.amf_graph.specs.declared.part.Part.TheVariants.{Item};

use crate::held::{Form, Held};
use crate::part_lists::PartLists;
use crate::{Part, Shape, Value};
use amf_wire::Memory;
use std::alloc::Global;
use std::marker::Model;

/// Whose a slot is: no node's, or that of the node at this place, which is open or closed.
#[derive(Clone, Copy)]
enum State {
    Left,
    Open(u32),
    Closed(u32),
}

/// A node that is open, or that has its lists to itself, or none. The lists are used again.
#[derive(Drop)]
pub(crate) struct Slot {
    state: State,
    shape: Shape,
    lists: PartLists,
}

impl Model for Slot {
    ghost use Rattle.amf_graph.specs.Slots.{KeptSlot, state_owner, state_open, slot_node};

    ghost Value = { KeptSlot };

    ghost view = { λ s. record { owner = state_owner s.state; node = slot_node (state_open s.state) s.shape s.lists.values s.lists.names s.lists.entries } };
}

impl Slot {
    /// A node that has no parts yet.
    pub(crate) fn new(owner: u32, shape: Shape) -> Slot
        ensures { result ≡ record { owner = Some owner; node = begun (shape_head shape) } }
    {
        Slot {
            state: State::Open(owner),
            shape,
            lists: PartLists::new(),
        }
    }

    /// Another node in the place of the one that was here, without parts.
    pub(crate) fn begin(&mut self, owner: u32, shape: Shape)
        ensures { self.new ≡ record { owner = Some owner; node = begun (shape_head shape) } }
    {
        self.state = State::Open(owner);
        self.shape = shape;
        self.lists.clear();
    }

    pub(crate) fn owner(&self) -> Option<u32>
        ensures { result ≡ self.now.owner }
    {
        match self.state {
            State::Left => None,
            State::Open(owner) | State::Closed(owner) => Some(owner),
        }
    }

    /// No node stands here any more.
    pub(crate) fn leave(&mut self)
        ensures { self.new.owner ≡ None }
    {
        self.state = State::Left;
    }

    /// Whether its lists are still to be made.
    pub(crate) fn is_bare(&self) -> bool {
        self.lists.are_unmade()
    }

    /// Gives its lists, without what they held. No node stands here.
    pub(crate) fn take_lists(&mut self) -> PartLists
        ensures { result ≡ no_lists }
    {
        self.lists.take()
    }

    /// Uses lists that are empty, if its own are still to be made.
    pub(crate) fn use_lists(&mut self, lists: PartLists)
        requires { lists ≡ no_lists }
        ensures { self.new ≡ self.old }
    {
        self.lists.take_over(lists);
    }

    pub(crate) fn is_open(&self) -> bool
        ensures { result ≡ self.now.node.is_open }
    {
        matches!(self.state, State::Open(_))
    }

    /// What the node is and holds.
    pub(crate) fn held(&self) -> Held<'_>
        ensures { self.now.node ≡ held_node self.now.node.is_open result }
    {
        let form = match self.shape {
            Shape::Array => Form::Array,
            Shape::Object(traits) => Form::Object(traits),
            Shape::Wrapper(class) => Form::Wrapper(class),
            Shape::Values(fixed, of) => Form::Values(fixed, of),
            Shape::Dictionary(weak) => return Held::Dictionary(weak, self.lists.entries()),
        };
        Held::Parts(form, self.lists.values(), self.lists.names())
    }

    /// How many names and parts the node has together.
    #[inline(always)]
    pub(crate) fn size(&self) -> usize
        requires { size_of self.now.node < count_end }
        ensures { result ≡ size_of self.now.node }
    {
        match self.shape {
            Shape::Dictionary(_) => self.lists.entries().len(),
            _ => self.lists.names().len() + self.lists.values().len(),
        }
    }

    /// Adds a part. After an end nothing has changed.
    #[inline(always)]
    pub(crate) fn put(&mut self, alloc: Global, part: Part) -> Result<(), Memory>
        requires { TakesPart self.old.node part }
        ensures ok { OnOk result (self.new ≡ with_node (more_part part self.old.node) self.old) }
        ensures err { OnErr result (self.new ≡ self.old) }
        ensures owner { self.new.owner ≡ self.old.owner }
    {
        match part {
            Part::Item(item) => return self.put_item(alloc, item),
            Part::Named(name, value) => self.lists.push_name(alloc, name, value)?,
            Part::Entry(key, value) => self.lists.push_entry(alloc, key, value)?,
        }
        Ok(())
    }

    /// Adds an item. After an end nothing has changed.
    #[inline(always)]
    pub(crate) fn put_item(&mut self, alloc: Global, item: Value) -> Result<(), Memory>
        requires { TakesPart self.old.node (Item item) }
        ensures ok { OnOk result (self.new ≡ with_node (more_part (Item item) self.old.node) self.old) }
        ensures err { OnErr result (self.new ≡ self.old) }
        ensures owner { self.new.owner ≡ self.old.owner }
    {
        self.lists.push_value(alloc, item)
    }

    pub(crate) fn close(&mut self)
        ensures { self.new ≡ with_node (shut self.old.node) self.old }
    {
        if let State::Open(owner) = self.state {
            self.state = State::Closed(owner);
        }
    }
}
