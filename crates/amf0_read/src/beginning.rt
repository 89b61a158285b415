ghost use Rattle.std.specs.Prelude.{ℕ, ◌<◌, reverse, IfOk};
ghost use Rattle.amf_io.specs.ReadEnds.{Goes};
ghost use Rattle.amf0_layout_laws.specs.Layout0.{value0_layout};
ghost use Rattle.amf0_spelling.specs.TableParts0.{shown_tables};
ghost use Rattle.amf_wire_fields.specs.Room.{left_of};
ghost use Rattle.amf0_read.specs.Ready0.{Ready0, StillReady0};
ghost use Rattle.amf0_read.specs.Frames0.{Holds, owed, state_in};
ghost use Rattle.amf0_read.specs.Beginnings0.{LeadsOn, LeadsItems};

use crate::frame::{Frame, Now, Role, Todo};
use crate::leaf::read_count;
use crate::marker::read_marker;
use crate::node::{open_array, start_apart};
use amf_graph::Builder;
use amf_io::{Cursor, ReadEnd, Source};
use amf0_spelling::{Marker0, Tables0};
use std::alloc::Global;

/// What is read of a value before its stack of open nodes is needed.
#[derive(Drop)]
pub struct Beginning {
    pub frames: Vec<Frame>,
    pub now: Now,
    /// Whether it begins as a call does: with an array of one item in AMF 3.
    pub is_call: bool,
}

/// Reads the start of a value, and of an array of one item that item's marker too.
pub fn read_beginning<S: Source>(
    alloc: Global,
    cursor: &mut Cursor<'_, S>,
    builder: &mut Builder,
    tables: &mut Tables0,
) -> Result<Beginning, ReadEnd>
    requires { Ready0 0 builder.old (shown_tables tables.old) cursor.old }
    ensures goes { Goes S.Source cursor.old cursor.new result }
    ensures leads { (n : ℕ) → left_of cursor.old < n → LeadsOn S.tells S.left n (state_in builder.old tables.old) (state_in builder.new tables.new) cursor.old cursor.new result }
    ensures still_ready { IfOk result (λ beginning. StillReady0 (owed beginning.now) 0 builder.old builder.new (shown_tables tables.new) cursor.old cursor.new) }
    ensures holds { IfOk result (λ beginning. Holds (left_of cursor.new) beginning.now (reverse beginning.frames.items) builder.new) }
{
    match read_marker(cursor, tables)? {
        Marker0::Strict => read_items(alloc, cursor, builder, tables),
        marker => {
            let start = start_apart(alloc, cursor, builder, tables, marker)?;
            Ok(Beginning {
                frames: Vec::new(alloc),
                now: start.now(),
                is_call: false,
            })
        }
    }
}

/// Reads the count of an array with items, opens it, and reads the marker of its item where it has just one.
fn read_items<S: Source>(
    alloc: Global,
    cursor: &mut Cursor<'_, S>,
    builder: &mut Builder,
    tables: &mut Tables0,
) -> Result<Beginning, ReadEnd>
    requires { Ready0 1 builder.old (shown_tables tables.old) cursor.old }
    ensures goes { Goes S.Source cursor.old cursor.new result }
    ensures leads { (n : ℕ) → left_of cursor.old < n → LeadsItems S.tells S.left n (state_in builder.old tables.old) (state_in builder.new tables.new) cursor.old cursor.new result }
    ensures still_ready { IfOk result (λ beginning. StillReady0 (owed beginning.now) 1 builder.old builder.new (shown_tables tables.new) cursor.old cursor.new) }
    ensures holds { IfOk result (λ beginning. Holds (left_of cursor.new) beginning.now (reverse beginning.frames.items) builder.new) }
{
    let count = read_count(cursor)?;
    let node = open_array(builder, tables)?;
    if count != 1 {
        return Ok(Beginning {
            frames: Vec::new(alloc),
            now: Now::Open(node, Todo::Items(count)),
            is_call: false,
        });
    }
    let item = read_marker(cursor, tables)?;
    let mut frames = Vec::new(alloc);
    frames.push(Frame {
        node,
        role: Role::Item(0),
    })?;
    Ok(Beginning {
        frames,
        now: Now::Begun(item),
        is_call: item == Marker0::Switch,
    })
}
