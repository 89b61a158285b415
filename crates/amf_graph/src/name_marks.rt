//! Which texts are names.

ghost use Rattle.std.specs.Prelude.{◌≡◌, length};

use crate::classes::Classes;
use crate::held::Held;
use crate::nodes::Nodes;
use crate::{TextId, Value};

/// Marks a text.
fn mark(text: TextId, marks: &mut [bool])
    ensures { length marks.new ≡ length marks.old }
{
    if let Some(mark) = marks.get_mut(text.0 as usize) {
        *mark = true;
    }
}

/// Marks the names of pairs.
fn mark_names(pairs: &[(TextId, Value)], marks: &mut [bool])
    ensures { length marks.new ≡ length marks.old }
{
    for (name, _) in pairs {
        mark(*name, marks);
    }
}

/// Marks the names of the pairs of nodes.
pub(crate) fn mark_pairs(nodes: &Nodes, marks: &mut [bool])
    ensures { length marks.new ≡ length marks.old }
{
    for place in 0..nodes.len() {
        if let Held::Parts(_, _, names) = nodes.held(place) {
            mark_names(names, marks);
        }
    }
}

/// Marks the names of sealed members.
pub(crate) fn mark_sealed(classes: &Classes, marks: &mut [bool])
    ensures { length marks.new ≡ length marks.old }
{
    for place in 0..classes.len() {
        for name in classes.get(place).sealed {
            mark(*name, marks);
        }
    }
}
