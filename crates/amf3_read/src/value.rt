ghost use Rattle.std.specs.Prelude.{ℕ, suc, ◌<◌, ◌≤◌, ◌+◌, ◌-◌, ◌*◌, ◌∷◌, length, OnOk, IfOk};
ghost use Rattle.amf_wire.specs.Integer.{IsInteger, integer_of};
ghost use Rattle.amf_wire.specs.U29.{u29_value};
ghost use Rattle.amf_io.specs.Field.{u29_kind, no_refusal};
ghost use Rattle.amf_io.specs.Layout.{give, want};
ghost use Rattle.amf_io.specs.Cursor.{place};
ghost use Rattle.amf_io.specs.ReadEnds.{IsPlaced, Goes};
ghost use Rattle.amf_io.specs.CursorReads.{Answers};
ghost use Rattle.amf3_layout_laws.specs.Layout3State.{state_of};
ghost use Rattle.amf3_read.specs.Ready.{Ready, Continues};
ghost use Rattle.amf3_spelling.specs.KeptTables.{AreTablesIn};
ghost use Rattle.amf_io.specs.Stretch.{between};
ghost use Rattle.amf_wire_fields.specs.Room.{HasRoomFor, Raises, left_of};
ghost use Rattle.amf3_read.specs.Answer.{Answers3};
ghost use Rattle.amf3_read.specs.Steps.{marker_layout};
ghost use Rattle.amf3_read.specs.Frames.{Starts, StartHolds, StillReady, AnswersValue3};
ghost use Rattle.amf3_read.specs.Follows.{FollowsOver, StandsOver, IsWaiting, entry_of, item_of, key_frame_of};
ghost use Rattle.amf3_read.specs.Now as now;
ghost use Rattle.amf_graph.specs.Arena.{Names};

use crate::fill::{Step, behind_item, go_on};
use crate::frame::{Frame, OpenNode, Role, part_of};
use crate::frames::Frames;
use crate::node::{Start, start_node};
use crate::opening::Parts;
use crate::plain::read_plain;
use crate::text::read_text;
use amf_graph::{Builder, NodeId, Part, Value};
use amf_io::{Cursor, ReadEnd, Reason, Source, refused};
use amf_tables::Tables3;
use amf_wire::sign29;
use amf_wire_fields::{FieldSize, kept, read_double, read_field, read_number};
use amf3_spelling::Marker;
use std::alloc::Global;

/// Reads one value into a builder and its tables (AMF 3 specification, 3.2 to 3.16), however many nodes are within one another.
///
/// The tables are the builder's, and the bytes that the cursor's limit still allows are below 2^27 together with each of
/// the builder's numbers of nodes, texts and traits.
///
/// Where the input is refused, the refusal is the verdict on it: the first field that no value of AMF 3
/// has there, or where the input or its limit ends. `Memory` comes where there is no room for what is read. After an end
/// the builder, the tables and the cursor must not be used again.
pub fn read3<S: Source>(
    alloc: Global,
    cursor: &mut Cursor<'_, S>,
    builder: &mut Builder,
    tables: &mut Tables3,
) -> Result<Value, ReadEnd>
    requires tables { AreTablesIn builder.old tables.old }
    requires room { HasRoomFor builder.old (left_of cursor.old) }
    ensures goes { Goes S.Source cursor.old cursor.new result }
    ensures answers { Answers3 builder.old builder.new tables.old tables.new (between S.tells S.left cursor.old cursor.new) result }
    ensures tables { OnOk result (AreTablesIn builder.new tables.new) }
    ensures raises { OnOk result (Raises builder.old builder.new (place cursor.new - place cursor.old)) }
{
    // What is true of every builder and every cursor.
    builder.is_built();
    let _start = cursor.at();
    read_value(alloc, cursor, builder, tables)
}

/// Reads one value as [`read3`] does, for readers of formats that have it within them: what was read is told by its
/// layout. The nodes that are open are on a stack of its own.
pub fn read_value<S: Source>(
    alloc: Global,
    cursor: &mut Cursor<'_, S>,
    builder: &mut Builder,
    tables: &mut Tables3,
) -> Result<Value, ReadEnd>
    requires { Ready 0 builder.old tables.old cursor.old }
    ensures goes { Goes S.Source cursor.old cursor.new result }
    ensures answers { AnswersValue3 S.tells S.left (state_of builder.old tables.old) (state_of builder.new tables.new) cursor.old cursor.new result }
    ensures continues { OnOk result (Continues 0 builder.old builder.new tables.new cursor.old cursor.new) }
    ensures moves { OnOk result (place cursor.old < place cursor.new) }
{
    let mut innermost = match start_apart(alloc, cursor, builder, tables)? {
        Start::Value(value) => return Ok(value),
        Start::Open(node, todo) => OpenNode { node, todo },
    };
    let mut frames = Frames::new(alloc);
    loop {
        let OpenNode { node, todo } = innermost;
        match go_on(alloc, cursor, builder, tables, node, todo)? {
            Step::Open(todo) => innermost = OpenNode { node, todo },
            // Most values are items: these are read one after the other.
            Step::Wait(Role::Item, todo) => {
                innermost = read_items(alloc, cursor, builder, tables, &mut frames, node, todo)?;
            }
            Step::Wait(Role::Key, todo) => {
                innermost = read_key(alloc, cursor, builder, tables, &mut frames, node, todo)?;
            }
            Step::Wait(role, todo) => {
                let frame = Frame { node, role, todo };
                innermost = read_part(alloc, cursor, builder, tables, &mut frames, frame)?;
            }
            Step::Closed => {
                let value = Value::Node(node);
                let Some(frame) = frames.pop() else {
                    return Ok(value);
                };
                innermost = give(alloc, cursor, builder, tables, &mut frames, frame, value)?;
            }
        }
    }
}

/// Reads the item that a node waits for, and those that follow it, up to one that is a node with values: of that the start, and the
/// frame goes onto the stack. The answer is the node that is innermost then.
#[inline(always)]
fn read_items<S: Source>(
    alloc: Global,
    cursor: &mut Cursor<'_, S>,
    builder: &mut Builder,
    tables: &mut Tables3,
    frames: &mut Frames,
    node: NodeId,
    todo: Parts,
) -> Result<OpenNode, ReadEnd>
    requires { StandsOver S.Source builder.old tables.old cursor.old now.wanted (item_of node todo ∷ frames.old) }
    ensures goes { Goes S.Source cursor.old cursor.new result }
    ensures follows { FollowsOver S.Source builder.old builder.new tables.old tables.new cursor.old cursor.new now.wanted (item_of node todo ∷ frames.old) frames.new result }
    ensures less { OnOk result (2 * left_of cursor.new + length frames.new < 2 * left_of cursor.old + length frames.old) }
{
    let mut todo = todo;
    loop {
        match start_item(alloc, cursor, builder, tables)? {
            Start::Value(value) => kept(builder.put(node, Part::Item(value)))?,
            Start::Open(child, parts) => {
                let role = Role::Item;
                frames.push(Frame { node, role, todo })?;
                return Ok(OpenNode {
                    node: child,
                    todo: parts,
                });
            }
        }
        match behind_item(todo) {
            Some(rest) => todo = rest,
            None => return Ok(OpenNode { node, todo }),
        }
    }
}

/// Reads the key that a node waits for, and its value, or the start of one of the two: then the frame goes onto the stack. The
/// answer is the node that is innermost then.
#[inline(never)]
fn read_key<S: Source>(
    alloc: Global,
    cursor: &mut Cursor<'_, S>,
    builder: &mut Builder,
    tables: &mut Tables3,
    frames: &mut Frames,
    node: NodeId,
    todo: Parts,
) -> Result<OpenNode, ReadEnd>
    requires ready { Ready 0 builder.old tables.old cursor.old }
    requires waits { IsWaiting (left_of cursor.old) builder.old (key_frame_of node todo) }
    ensures goes { Goes S.Source cursor.old cursor.new result }
    ensures follows { FollowsOver S.Source builder.old builder.new tables.old tables.new cursor.old cursor.new now.wanted (key_frame_of node todo ∷ frames.old) frames.new result }
    ensures less { OnOk result (2 * left_of cursor.new + length frames.new < 2 * left_of cursor.old + length frames.old) }
{
    let role = Role::Key;
    let frame = Frame { node, role, todo };
    match start_item(alloc, cursor, builder, tables)? {
        Start::Value(value) => give(alloc, cursor, builder, tables, frames, frame, value),
        Start::Open(child, parts) => {
            frames.push(frame)?;
            Ok(OpenNode {
                node: child,
                todo: parts,
            })
        }
    }
}

/// Reads the value that a frame waits for, or its start: then the frame goes onto the stack. The answer is the node that is
/// innermost then.
#[inline(always)]
fn read_part<S: Source>(
    alloc: Global,
    cursor: &mut Cursor<'_, S>,
    builder: &mut Builder,
    tables: &mut Tables3,
    frames: &mut Frames,
    frame: Frame,
) -> Result<OpenNode, ReadEnd>
    requires ready { Ready 0 builder.old tables.old cursor.old }
    requires waits { IsWaiting (left_of cursor.old) builder.old frame }
    ensures goes { Goes S.Source cursor.old cursor.new result }
    ensures follows { FollowsOver S.Source builder.old builder.new tables.old tables.new cursor.old cursor.new now.wanted (frame ∷ frames.old) frames.new result }
    ensures less { OnOk result (2 * left_of cursor.new + length frames.new < 2 * left_of cursor.old + length frames.old) }
{
    match start_value(alloc, cursor, builder, tables)? {
        Start::Value(value) => give(alloc, cursor, builder, tables, frames, frame, value),
        Start::Open(node, todo) => {
            frames.push(frame)?;
            Ok(OpenNode { node, todo })
        }
    }
}

/// Gives a frame the value that it waits for: it is put into the frame's node, or it is a key, and the key's value is read.
#[inline(always)]
fn give<S: Source>(
    alloc: Global,
    cursor: &mut Cursor<'_, S>,
    builder: &mut Builder,
    tables: &mut Tables3,
    frames: &mut Frames,
    frame: Frame,
    value: Value,
) -> Result<OpenNode, ReadEnd>
    requires ready { Ready 0 builder.old tables.old cursor.old }
    requires waits { IsWaiting (suc (left_of cursor.old)) builder.old frame }
    requires names { Names builder.old value }
    ensures goes { Goes S.Source cursor.old cursor.new result }
    ensures follows { FollowsOver S.Source builder.old builder.new tables.old tables.new cursor.old cursor.new (now.given value) (frame ∷ frames.old) frames.new result }
    ensures no_more { OnOk result (2 * left_of cursor.new + length frames.new ≤ 2 * left_of cursor.old + length frames.old) }
{
    let Frame { node, role, todo } = frame;
    match part_of(role, value) {
        Some(part) => {
            kept(builder.put(node, part))?;
            Ok(OpenNode { node, todo })
        }
        None => {
            let inner = read_entry(alloc, cursor, builder, tables, frames, node, value, todo)?;
            Ok(inner)
        }
    }
}

/// Reads the value of a key, or its start, as [`read_part`] does.
#[inline(always)]
fn read_entry<S: Source>(
    alloc: Global,
    cursor: &mut Cursor<'_, S>,
    builder: &mut Builder,
    tables: &mut Tables3,
    frames: &mut Frames,
    node: NodeId,
    key: Value,
    todo: Parts,
) -> Result<OpenNode, ReadEnd>
    requires ready { Ready 0 builder.old tables.old cursor.old }
    requires waits { IsWaiting (left_of cursor.old) builder.old (entry_of node key todo) }
    ensures goes { Goes S.Source cursor.old cursor.new result }
    ensures follows { FollowsOver S.Source builder.old builder.new tables.old tables.new cursor.old cursor.new now.wanted (entry_of node key todo ∷ frames.old) frames.new result }
    ensures less { OnOk result (2 * left_of cursor.new + length frames.new < 2 * left_of cursor.old + length frames.old) }
{
    match start_apart(alloc, cursor, builder, tables)? {
        Start::Value(value) => {
            kept(builder.put(node, Part::Entry(key, value)))?;
            Ok(OpenNode { node, todo })
        }
        Start::Open(child, parts) => {
            let role = Role::Entry(key);
            frames.push(Frame { node, role, todo })?;
            Ok(OpenNode {
                node: child,
                todo: parts,
            })
        }
    }
}

/// Reads the start of a value as [`start_value`] does, where that is rarely done.
#[inline(never)]
fn start_apart<S: Source>(
    alloc: Global,
    cursor: &mut Cursor<'_, S>,
    builder: &mut Builder,
    tables: &mut Tables3,
) -> Result<Start, ReadEnd>
    requires { Ready 0 builder.old tables.old cursor.old }
    ensures goes { Goes S.Source cursor.old cursor.new result }
    ensures starts { (n : ℕ) → left_of cursor.old < n → Starts S.tells S.left n (state_of builder.old tables.old) (state_of builder.new tables.new) cursor.old cursor.new result }
    ensures still_ready { OnOk result (StillReady 0 builder.old builder.new tables.new cursor.old cursor.new) }
    ensures holds { IfOk result (StartHolds builder.old builder.new (left_of cursor.new)) }
    ensures moves { OnOk result (place cursor.old < place cursor.new) }
{
    start_value(alloc, cursor, builder, tables)
}

/// Reads the start of an item as [`start_value`] does. Most items are plain values of which all bytes are ahead.
#[inline(always)]
fn start_item<S: Source>(
    alloc: Global,
    cursor: &mut Cursor<'_, S>,
    builder: &mut Builder,
    tables: &mut Tables3,
) -> Result<Start, ReadEnd>
    requires { Ready 0 builder.old tables.old cursor.old }
    ensures goes { Goes S.Source cursor.old cursor.new result }
    ensures starts { (n : ℕ) → left_of cursor.old < n → Starts S.tells S.left n (state_of builder.old tables.old) (state_of builder.new tables.new) cursor.old cursor.new result }
    ensures still_ready { OnOk result (StillReady 0 builder.old builder.new tables.new cursor.old cursor.new) }
    ensures holds { IfOk result (StartHolds builder.old builder.new (left_of cursor.new)) }
    ensures moves { OnOk result (place cursor.old < place cursor.new) }
{
    match read_plain(cursor, tables) {
        Some(value) => Ok(Start::Value(value)),
        None => start_value(alloc, cursor, builder, tables),
    }
}

/// Reads the start of a value: all of it, or a node up to its first value.
#[inline(always)]
fn start_value<S: Source>(
    alloc: Global,
    cursor: &mut Cursor<'_, S>,
    builder: &mut Builder,
    tables: &mut Tables3,
) -> Result<Start, ReadEnd>
    requires { Ready 0 builder.old tables.old cursor.old }
    ensures goes { Goes S.Source cursor.old cursor.new result }
    ensures starts { (n : ℕ) → left_of cursor.old < n → Starts S.tells S.left n (state_of builder.old tables.old) (state_of builder.new tables.new) cursor.old cursor.new result }
    ensures still_ready { OnOk result (StillReady 0 builder.old builder.new tables.new cursor.old cursor.new) }
    ensures holds { IfOk result (StartHolds builder.old builder.new (left_of cursor.new)) }
    ensures moves { OnOk result (place cursor.old < place cursor.new) }
{
    match read_marker(cursor)? {
        Marker::Undefined => Ok(Start::Value(Value::Undefined)),
        Marker::Null => Ok(Start::Value(Value::Null)),
        Marker::False => Ok(Start::Value(Value::Bool(false))),
        Marker::True => Ok(Start::Value(Value::Bool(true))),
        Marker::Integer => Ok(Start::Value(Value::Integer(read_integer(cursor)?))),
        Marker::Double => Ok(Start::Value(Value::Double(read_double(cursor)?))),
        Marker::Text => {
            let text = read_text(alloc, cursor, builder, tables)?;
            Ok(Start::Value(Value::Text(text)))
        }
        Marker::Node(kind) => start_node(alloc, cursor, builder, tables, kind),
    }
}

/// Reads a marker.
#[inline(always)]
fn read_marker<S: Source>(cursor: &mut Cursor<'_, S>) -> Result<Marker, ReadEnd>
    ensures goes { Goes S.Source cursor.old cursor.new result }
    ensures answers { Answers S.tells S.left (λ m. m) marker_layout cursor.old cursor.new result }
    ensures moves { OnOk result (place cursor.old < place cursor.new) }
    ensures placed { OnOk result (IsPlaced cursor.new) }
{
    let start = cursor.at();
    let byte = read_field(cursor, FieldSize::Byte)?.byte();
    match Marker::from_byte(byte) {
        Some(marker) => Ok(marker),
        None => Err(refused(Reason::BadMarker, start)),
    }
}

/// Reads an integer (AMF 3 specification, 3.6).
#[inline(always)]
fn read_integer<S: Source>(cursor: &mut Cursor<'_, S>) -> Result<i32, ReadEnd>
    ensures goes { Goes S.Source cursor.old cursor.new result }
    ensures answers { Answers S.tells S.left (λ n. n) (want (u29_kind no_refusal) (λ b. give (integer_of (u29_value b)))) cursor.old cursor.new result }
    ensures own { IfOk result IsInteger }
    ensures placed { OnOk result (IsPlaced cursor.new) }
{
    Ok(sign29(read_number(cursor)?))
}
