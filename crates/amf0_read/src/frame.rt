ghost use Rattle.std.specs.Prelude.{◌≡◌};
ghost use Rattle.amf0_read.specs.Frames0.{part_of, todo_behind};

use amf_graph::{NodeId, Part, TextId, Value};
use amf0_spelling::Marker0;

/// What is still to be read of an open node.
#[derive(Clone, Copy)]
pub enum Todo {
    /// So many items.
    Items(u32),
    /// Names with their values, up to their end.
    Pairs,
}

/// Where the value goes that is read next.
#[derive(Clone, Copy)]
pub enum Role {
    /// It is an item, behind which so many follow.
    Item(u32),
    /// It stands behind this name.
    Named(TextId),
}

/// An open node that waits for a value.
#[derive(Clone, Copy)]
pub struct Frame {
    pub node: NodeId,
    pub role: Role,
}

/// What was read last.
#[derive(Clone, Copy)]
pub enum Now {
    /// The marker of a value.
    Begun(Marker0),
    /// A value.
    Given(Value),
    /// So much of an open node is still to be read.
    Open(NodeId, Todo),
}

impl Role {
    /// The part that a value is there.
    pub fn part_of(self, value: Value) -> Part
        ensures { result ≡ part_of self value }
    {
        match self {
            Role::Item(_) => Part::Item(value),
            Role::Named(name) => Part::Named(name, value),
        }
    }

    /// What is still to be read behind the value.
    pub fn todo_behind(self) -> Todo
        ensures { result ≡ todo_behind self }
    {
        match self {
            Role::Item(more) => Todo::Items(more),
            Role::Named(_) => Todo::Pairs,
        }
    }
}
