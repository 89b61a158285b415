ghost use Rattle.std.specs.Prelude.{◌≡◌, ◌-◌, reverse, OnOk};
ghost use Rattle.amf_io.specs.Cursor.{place};
ghost use Rattle.amf_io.specs.ReadEnds.{Goes};
ghost use Rattle.amf0_spelling.specs.KeptTables0.{AreTables0In};
ghost use Rattle.amf0_spelling.specs.TableParts0.{shown_tables};
ghost use Rattle.amf_io.specs.Stretch.{between};
ghost use Rattle.amf_wire_fields.specs.Room.{HasRoomFor, Raises, left_of};
ghost use Rattle.amf0_read.specs.Answer0.{Answers0};
ghost use Rattle.amf0_read.specs.Beginnings0.{form_of};
ghost use Rattle.amf0_read.specs.Ready0.{Ready0, StillReady0};
ghost use Rattle.amf0_read.specs.Frames0.{Holds, owed, state_in, AnswersValue0, ReadsOn};

use crate::beginning::{Beginning, read_beginning};
use crate::fill::{Filled, fill};
use crate::formed::Read0;
use crate::frame::{Frame, Now};
use crate::node::start_apart;
use amf_graph::{Builder, Value};
use amf_io::{Cursor, ReadEnd, Source};
use amf_wire_fields::kept;
use amf0_spelling::{Form, Tables0};
use std::alloc::Global;

/// Reads one value into a builder and its tables (AMF 0 specification, 2.2 to 2.18 and 3.1), however many nodes are within
/// one another. Behind each marker that switches to AMF 3 stands a value for `read3`, with the same AMF 3 tables.
///
/// The tables are the builder's, and the bytes that the cursor's limit still allows are below 2^27 together with each of
/// the builder's numbers of nodes, texts and traits.
///
/// The form tells whether a marker has switched to AMF 3 since the tables were new.
///
/// Where the input is refused, the refusal is the verdict on it: the first field that no value of AMF 0
/// has there, or where the input or its limit ends. `Memory` comes where there is no room for what is read. After an end
/// the builder, the tables and the cursor must not be used again.
pub fn read0<S: Source>(
    alloc: Global,
    cursor: &mut Cursor<'_, S>,
    builder: &mut Builder,
    tables: &mut Tables0,
) -> Result<Read0, ReadEnd>
    requires tables { AreTables0In builder.old (shown_tables tables.old) }
    requires room { HasRoomFor builder.old (left_of cursor.old) }
    ensures goes { Goes S.Source cursor.old cursor.new result }
    ensures answers { Answers0 builder.old builder.new (shown_tables tables.old) (shown_tables tables.new) (between S.tells S.left cursor.old cursor.new) result }
    ensures tables { OnOk result (AreTables0In builder.new (shown_tables tables.new)) }
    ensures raises { OnOk result (Raises builder.old builder.new (place cursor.new - place cursor.old)) }
{
    // What is true of every builder and every cursor.
    builder.is_built();
    let _start = cursor.at();
    let Beginning {
        frames,
        now,
        is_call,
    } = read_beginning(alloc, cursor, builder, tables)?;
    let value = read_on(alloc, cursor, builder, tables, frames, now)?;
    let form = form_of(is_call, tables.has_switched());
    Ok(Read0 { value, form })
}

/// Reads one value as [`read0`] does, for readers of formats that have it within them: what was read is told by its
/// layout.
pub fn read_value0<S: Source>(
    alloc: Global,
    cursor: &mut Cursor<'_, S>,
    builder: &mut Builder,
    tables: &mut Tables0,
) -> Result<Value, ReadEnd>
    requires { Ready0 0 builder.old (shown_tables tables.old) cursor.old }
    ensures goes { Goes S.Source cursor.old cursor.new result }
    ensures answers { AnswersValue0 S.tells S.left (state_in builder.old tables.old) (state_in builder.new tables.new) cursor.old cursor.new result }
    ensures still_ready { OnOk result (StillReady0 0 0 builder.old builder.new (shown_tables tables.new) cursor.old cursor.new) }
{
    let Beginning { frames, now, .. } = read_beginning(alloc, cursor, builder, tables)?;
    read_on(alloc, cursor, builder, tables, frames, now)
}

/// The form of a value that begins as a call does, or not, and with which a marker has switched to AMF 3 by then, or not.
fn form_of(is_call: bool, switched: bool) -> Form
    ensures { result ≡ form_of is_call switched }
{
    match (is_call, switched) {
        (true, _) => Form::Call,
        (false, true) => Form::Amf3,
        (false, false) => Form::Plain,
    }
}

/// Reads on, with the nodes that are open on a stack of its own, until the outermost value is whole.
fn read_on<S: Source>(
    alloc: Global,
    cursor: &mut Cursor<'_, S>,
    builder: &mut Builder,
    tables: &mut Tables0,
    mut frames: Vec<Frame>,
    mut now: Now,
) -> Result<Value, ReadEnd>
    requires ready { Ready0 (owed now) builder.old (shown_tables tables.old) cursor.old }
    requires holds { Holds (left_of cursor.old) now (reverse frames.items) builder.old }
    ensures goes { Goes S.Source cursor.old cursor.new result }
    ensures answers { ReadsOn S.tells S.left now (reverse frames.items) (state_in builder.old tables.old) (state_in builder.new tables.new) cursor.old cursor.new result }
    ensures still_ready { OnOk result (StillReady0 0 (owed now) builder.old builder.new (shown_tables tables.new) cursor.old cursor.new) }
{
    loop {
        match now {
            Now::Begun(marker) => {
                now = start_apart(alloc, cursor, builder, tables, marker)?.now();
            }
            Now::Given(value) => {
                let Some(frame) = frames.pop() else {
                    return Ok(value);
                };
                kept(builder.put(frame.node, frame.role.part_of(value)))?;
                now = Now::Open(frame.node, frame.role.todo_behind());
            }
            Now::Open(node, todo) => match fill(alloc, cursor, builder, tables, node, todo)? {
                Filled::Within(role, child, more) => {
                    frames.push(Frame { node, role })?;
                    now = Now::Open(child, more);
                }
                Filled::Closed => now = Now::Given(Value::Node(node)),
            },
        }
    }
}
