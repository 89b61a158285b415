ghost use Rattle.std.specs.Prelude.{◌≡◌, ◌∷◌, [], reverse, IfOk, OnOk, MatchOption};
ghost use Rattle.amf3_read.specs.FrameRows.{parts_of, role_with, names_below, keys_below};

use crate::frame::{Frame, Role};
use crate::opening::Parts;
use amf_graph::{NodeId, TextId, Value};
use amf_wire::Memory;
use std::alloc::Global;
use std::marker::Model;
use std::mem::size_of;

/// Where a value goes, without the name or the key.
#[derive(Clone, Copy)]
pub enum BareRole {
    /// It is an item.
    Item,
    /// It stands behind a name.
    Named,
    /// It is a key, and its value follows.
    Key,
    /// It is the value of a key.
    Entry,
}

/// What is to be read of a node, without how many.
#[derive(Clone, Copy)]
pub enum BareParts {
    /// Named pairs, and then items.
    Array,
    /// Sealed values.
    Sealed,
    /// Sealed values, and then the members of a dynamic class.
    Dynamic,
    /// Values.
    Items,
    /// Keys, each with its value.
    Entries,
}

/// A frame without the name and the key: 12 bytes, where a frame has 48.
#[derive(Clone, Copy)]
pub struct Row {
    pub node: NodeId,
    /// How many of the parts are to be read.
    pub count: u32,
    pub role: BareRole,
    pub parts: BareParts,
}

const _: () = prove!(size_of::<Row>() == 12);

/// The open nodes around the innermost one, a stack of frames. Few frames have a name or a key, so these are kept apart.
pub struct Frames {
    rows: Vec<Row>,
    /// The name of each row whose value stands behind one, in the order of the rows.
    names: Vec<TextId>,
    /// The key of each row that is an entry, in the order of the rows.
    keys: Vec<Value>,
}

impl Drop for Frames {
    /// Lets its parts go. Written out, it is proved once; what is derived is proved at each place where one is let go.
    fn drop(self) {
        let Frames {
            rows: _,
            names: _,
            keys: _,
        } = self;
    }
}

impl Model for Frames {
    ghost use Rattle.std.specs.Prelude.{List, reverse};
    ghost use Rattle.amf3_read.specs.declared.frame.Frame.{Frame};
    ghost use Rattle.amf3_read.specs.FrameRows.{frames_of};

    ghost Value = { List Frame };

    ghost view = { λ s. frames_of (reverse s.rows.items) (reverse s.names.items) (reverse s.keys.items) };
}

impl Frames {
    /// No frames.
    pub fn new(alloc: Global) -> Frames
        ensures { result ≡ [] }
    {
        Frames {
            rows: Vec::new(alloc),
            names: Vec::new(alloc),
            keys: Vec::new(alloc),
        }
    }

    /// Puts a frame on top. After an error the stack must not be used again.
    #[inline(always)]
    pub fn push(&mut self, frame: Frame) -> Result<(), Memory>
        ensures { OnOk result (self.new ≡ frame ∷ self.old) }
    {
        let Frame { node, role, todo } = frame;
        let role = put_role(&mut self.names, &mut self.keys, role)?;
        let (parts, count) = counted(todo);
        self.rows.push(Row {
            node,
            count,
            role,
            parts,
        })?;
        Ok(())
    }

    /// Takes the frame on top.
    #[inline(always)]
    pub fn pop(&mut self) -> Option<Frame>
        ensures { MatchOption result (self.old ≡ []) (λ frame. self.old ≡ frame ∷ self.new) }
    {
        let Row {
            node,
            count,
            role,
            parts,
        } = self.rows.pop()?;
        let role = take_role(&mut self.names, &mut self.keys, role);
        let todo = so_many(parts, count);
        Some(Frame { node, role, todo })
    }
}

/// Puts the name or the key of a role, if it has one, on top of the others.
#[inline(always)]
fn put_role(names: &mut Vec<TextId>, keys: &mut Vec<Value>, role: Role) -> Result<BareRole, Memory>
    ensures role { IfOk result (λ bare. role_with (reverse names.new.items) (reverse keys.new.items) bare ≡ role) }
    ensures names { IfOk result (λ bare. names_below (reverse names.new.items) bare ≡ reverse names.old.items) }
    ensures keys { IfOk result (λ bare. keys_below (reverse keys.new.items) bare ≡ reverse keys.old.items) }
{
    match role {
        Role::Item => Ok(BareRole::Item),
        Role::Named(name) => {
            names.push(name)?;
            Ok(BareRole::Named)
        }
        Role::Key => Ok(BareRole::Key),
        Role::Entry(key) => {
            keys.push(key)?;
            Ok(BareRole::Entry)
        }
    }
}

/// Gives a role its name or its key, which is taken from the top: there is one for each.
#[inline(always)]
fn take_role(names: &mut Vec<TextId>, keys: &mut Vec<Value>, role: BareRole) -> Role
    ensures role { result ≡ role_with (reverse names.old.items) (reverse keys.old.items) role }
    ensures names { reverse names.new.items ≡ names_below (reverse names.old.items) role }
    ensures keys { reverse keys.new.items ≡ keys_below (reverse keys.old.items) role }
{
    match role {
        BareRole::Item => Role::Item,
        BareRole::Named => Role::Named(names.pop().unwrap_or(TextId(0))),
        BareRole::Key => Role::Key,
        BareRole::Entry => Role::Entry(keys.pop().unwrap_or(Value::Undefined)),
    }
}

/// What is to be read, and how many of it.
#[inline(always)]
fn counted(todo: Parts) -> (BareParts, u32)
    ensures { parts_of result.0 result.1 ≡ todo }
{
    match todo {
        Parts::Array(count) => (BareParts::Array, count),
        Parts::Object { sealed, dynamic } => {
            if dynamic {
                (BareParts::Dynamic, sealed)
            } else {
                (BareParts::Sealed, sealed)
            }
        }
        Parts::Items(count) => (BareParts::Items, count),
        Parts::Entries(count) => (BareParts::Entries, count),
    }
}

/// So many of these are to be read.
#[inline(always)]
fn so_many(parts: BareParts, count: u32) -> Parts
    ensures { result ≡ parts_of parts count }
{
    match parts {
        BareParts::Array => Parts::Array(count),
        BareParts::Sealed => Parts::Object {
            sealed: count,
            dynamic: false,
        },
        BareParts::Dynamic => Parts::Object {
            sealed: count,
            dynamic: true,
        },
        BareParts::Items => Parts::Items(count),
        BareParts::Entries => Parts::Entries(count),
    }
}
