ghost use Rattle.std.specs.Prelude.{◌≡◌, ◌+◌, ◌<◌, ◌≤◌, length, OnOk, IfOk, IfErr};
ghost use Rattle.amf_io.specs.Cursor.{place};
ghost use Rattle.amf_io.specs.ReadEnds.{Goes};
ghost use Rattle.amf_graph.specs.Arena.{HeadNames, IsBuilt, IsTextId, array};
ghost use Rattle.amf_graph.specs.Bounds.{items_of};
ghost use Rattle.amf_graph.specs.Building.{leaf_head};
ghost use Rattle.amf_wire_fields.specs.Room.{room_end, left_of};
ghost use Rattle.amf0_spelling.specs.declared.marker.Marker0.TheVariants as marker0;
ghost use Rattle.amf0_spelling.specs.TableParts0.{shown_tables};
ghost use Rattle.amf0_read.specs.Opens0.{KeepsLeaf, Opens, OpensObject};
ghost use Rattle.amf0_read.specs.Ready0.{Ready0, StillReady0};
ghost use Rattle.amf0_read.specs.Frames0.{now_of, StartsBehind, StartHolds, state_in};

use crate::frame::{Now, Todo};
use crate::leaf::{read_count, read_reference, read_time};
use crate::text::{keep_empty_text, read_long_text, read_short_text};
use amf_graph::{Builder, Leaf, NodeId, Shape, TextId, Value};
use amf_io::{Cursor, ReadEnd, Source};
use amf_wire_fields::{kept, read_double, read_flag};
use amf0_spelling::{Marker0, Tables0};
use amf3_read::read_value;
use std::alloc::Global;

/// A value as far as it is read before the first value within it.
#[derive(Clone, Copy)]
pub enum Start {
    /// All of it was read.
    Value(Value),
    /// It is an open node, of which so much is still to be read.
    Open(NodeId, Todo),
}

impl Start {
    /// What was read last.
    pub fn now(self) -> Now
        ensures { result ≡ now_of self }
    {
        match self {
            Start::Value(value) => Now::Given(value),
            Start::Open(node, todo) => Now::Open(node, todo),
        }
    }
}

/// Reads the start of a value behind its marker: all of it, or a node up to its first value.
#[inline(always)]
pub fn start_value<S: Source>(
    alloc: Global,
    cursor: &mut Cursor<'_, S>,
    builder: &mut Builder,
    tables: &mut Tables0,
    marker: Marker0,
) -> Result<Start, ReadEnd>
    requires { Ready0 1 builder.old (shown_tables tables.old) cursor.old }
    ensures goes { Goes S.Source cursor.old cursor.new result }
    ensures starts { StartsBehind S.tells S.left marker (state_in builder.old tables.old) (state_in builder.new tables.new) cursor.old cursor.new result }
    ensures still_ready { OnOk result (StillReady0 0 1 builder.old builder.new (shown_tables tables.new) cursor.old cursor.new) }
    ensures holds { IfOk result (StartHolds builder.old builder.new (left_of cursor.new)) }
    ensures stays { OnOk result (place cursor.old ≤ place cursor.new) }
{
    match marker {
        // Most values are these.
        Marker0::Null => Ok(Start::Value(Value::Null)),
        Marker0::Boolean => Ok(Start::Value(Value::Bool(read_flag(cursor)?))),
        Marker0::Double => Ok(Start::Value(Value::Double(read_double(cursor)?))),
        Marker0::Text => {
            let text = read_short_text(alloc, cursor, builder)?;
            builder.is_built();
            Ok(Start::Value(Value::Text(text)))
        }
        _ => handed(start_apart(alloc, cursor, builder, tables, marker)),
    }
}

/// What a call has read. Through it a loop that reads values needs no place in memory for those that it reads without a call.
#[inline(always)]
fn handed(read: Result<Start, ReadEnd>) -> Result<Start, ReadEnd>
    ensures { result ≡ read }
{
    match read {
        Ok(start) => Ok(start),
        Err(end) => Err(end),
    }
}

/// Reads the start of a value behind its marker as [`start_value`] does, where that is rarely done.
#[inline(never)]
pub fn start_apart<S: Source>(
    alloc: Global,
    cursor: &mut Cursor<'_, S>,
    builder: &mut Builder,
    tables: &mut Tables0,
    marker: Marker0,
) -> Result<Start, ReadEnd>
    requires { Ready0 1 builder.old (shown_tables tables.old) cursor.old }
    ensures goes { Goes S.Source cursor.old cursor.new result }
    ensures starts { StartsBehind S.tells S.left marker (state_in builder.old tables.old) (state_in builder.new tables.new) cursor.old cursor.new result }
    ensures still_ready { OnOk result (StillReady0 0 1 builder.old builder.new (shown_tables tables.new) cursor.old cursor.new) }
    ensures holds { IfOk result (StartHolds builder.old builder.new (left_of cursor.new)) }
    ensures stays { OnOk result (place cursor.old ≤ place cursor.new) }
{
    match marker {
        Marker0::Null => Ok(Start::Value(Value::Null)),
        Marker0::Undefined | Marker0::Unsupported => Ok(Start::Value(Value::Undefined)),
        Marker0::Boolean => Ok(Start::Value(Value::Bool(read_flag(cursor)?))),
        Marker0::Double => Ok(Start::Value(Value::Double(read_double(cursor)?))),
        Marker0::Text => {
            let text = read_short_text(alloc, cursor, builder)?;
            builder.is_built();
            Ok(Start::Value(Value::Text(text)))
        }
        Marker0::LongText => {
            let text = read_long_text(alloc, cursor, builder)?;
            builder.is_built();
            Ok(Start::Value(Value::Text(text)))
        }
        Marker0::Reference => Ok(Start::Value(Value::Node(read_reference(cursor, tables)?))),
        Marker0::Date => read_date(cursor, builder, tables),
        Marker0::Document => read_document(alloc, cursor, builder, tables),
        Marker0::Object => {
            let class = keep_empty_text(builder)?;
            let node = open_object(builder, tables, class)?;
            Ok(Start::Open(node, Todo::Pairs))
        }
        Marker0::Typed => start_typed(alloc, cursor, builder, tables),
        Marker0::Names => start_names(cursor, builder, tables),
        Marker0::Strict => start_strict(cursor, builder, tables),
        Marker0::Switch => read_switched(alloc, cursor, builder, tables),
    }
}

/// Reads a date (AMF 0, 2.13).
fn read_date<S: Source>(
    cursor: &mut Cursor<'_, S>,
    builder: &mut Builder,
    tables: &Tables0,
) -> Result<Start, ReadEnd>
    requires { Ready0 1 builder.old (shown_tables tables.now) cursor.old }
    ensures goes { Goes S.Source cursor.old cursor.new result }
    ensures starts { StartsBehind S.tells S.left marker0.Date (state_in builder.old tables.now) (state_in builder.new tables.now) cursor.old cursor.new result }
    ensures still_ready { OnOk result (StillReady0 0 1 builder.old builder.new (shown_tables tables.now) cursor.old cursor.new) }
    ensures holds { IfOk result (StartHolds builder.old builder.new (left_of cursor.new)) }
    ensures stays { OnOk result (place cursor.old ≤ place cursor.new) }
{
    let time = read_time(cursor)?;
    let node = keep_leaf(builder, Leaf::Date(time))?;
    Ok(Start::Value(Value::Node(node)))
}

/// Reads an XML document (AMF 0, 2.17).
fn read_document<S: Source>(
    alloc: Global,
    cursor: &mut Cursor<'_, S>,
    builder: &mut Builder,
    tables: &Tables0,
) -> Result<Start, ReadEnd>
    requires { Ready0 1 builder.old (shown_tables tables.now) cursor.old }
    ensures goes { Goes S.Source cursor.old cursor.new result }
    ensures starts { StartsBehind S.tells S.left marker0.Document (state_in builder.old tables.now) (state_in builder.new tables.now) cursor.old cursor.new result }
    ensures still_ready { OnOk result (StillReady0 0 1 builder.old builder.new (shown_tables tables.now) cursor.old cursor.new) }
    ensures holds { IfOk result (StartHolds builder.old builder.new (left_of cursor.new)) }
    ensures stays { OnOk result (place cursor.old ≤ place cursor.new) }
{
    let text = read_long_text(alloc, cursor, builder)?;
    // What is true of every builder.
    builder.is_built();
    let node = keep_leaf(builder, Leaf::XmlDocument(text))?;
    Ok(Start::Value(Value::Node(node)))
}

/// Reads the class of an object, and starts it (AMF 0, 2.18).
fn start_typed<S: Source>(
    alloc: Global,
    cursor: &mut Cursor<'_, S>,
    builder: &mut Builder,
    tables: &mut Tables0,
) -> Result<Start, ReadEnd>
    requires { Ready0 1 builder.old (shown_tables tables.old) cursor.old }
    ensures goes { Goes S.Source cursor.old cursor.new result }
    ensures starts { StartsBehind S.tells S.left marker0.Typed (state_in builder.old tables.old) (state_in builder.new tables.new) cursor.old cursor.new result }
    ensures still_ready { OnOk result (StillReady0 0 1 builder.old builder.new (shown_tables tables.new) cursor.old cursor.new) }
    ensures holds { IfOk result (StartHolds builder.old builder.new (left_of cursor.new)) }
    ensures stays { OnOk result (place cursor.old ≤ place cursor.new) }
{
    let class = read_short_text(alloc, cursor, builder)?;
    // What is true of every builder.
    builder.is_built();
    let node = open_object(builder, tables, class)?;
    Ok(Start::Open(node, Todo::Pairs))
}

/// Reads the count of an array with names, which is not checked, and starts it (AMF 0, 2.10).
fn start_names<S: Source>(
    cursor: &mut Cursor<'_, S>,
    builder: &mut Builder,
    tables: &mut Tables0,
) -> Result<Start, ReadEnd>
    requires { Ready0 1 builder.old (shown_tables tables.old) cursor.old }
    ensures goes { Goes S.Source cursor.old cursor.new result }
    ensures starts { StartsBehind S.tells S.left marker0.Names (state_in builder.old tables.old) (state_in builder.new tables.new) cursor.old cursor.new result }
    ensures still_ready { OnOk result (StillReady0 0 1 builder.old builder.new (shown_tables tables.new) cursor.old cursor.new) }
    ensures holds { IfOk result (StartHolds builder.old builder.new (left_of cursor.new)) }
    ensures stays { OnOk result (place cursor.old ≤ place cursor.new) }
{
    read_count(cursor)?;
    let node = open_array(builder, tables)?;
    Ok(Start::Open(node, Todo::Pairs))
}

/// Reads the count of an array with items, and starts it (AMF 0, 2.12).
fn start_strict<S: Source>(
    cursor: &mut Cursor<'_, S>,
    builder: &mut Builder,
    tables: &mut Tables0,
) -> Result<Start, ReadEnd>
    requires { Ready0 1 builder.old (shown_tables tables.old) cursor.old }
    ensures goes { Goes S.Source cursor.old cursor.new result }
    ensures starts { StartsBehind S.tells S.left marker0.Strict (state_in builder.old tables.old) (state_in builder.new tables.new) cursor.old cursor.new result }
    ensures still_ready { OnOk result (StillReady0 0 1 builder.old builder.new (shown_tables tables.new) cursor.old cursor.new) }
    ensures holds { IfOk result (StartHolds builder.old builder.new (left_of cursor.new)) }
    ensures stays { OnOk result (place cursor.old ≤ place cursor.new) }
{
    let count = read_count(cursor)?;
    let node = open_array(builder, tables)?;
    Ok(Start::Open(node, Todo::Items(count)))
}

/// Reads a value of AMF 3 (AMF 0, 3.1).
fn read_switched<S: Source>(
    alloc: Global,
    cursor: &mut Cursor<'_, S>,
    builder: &mut Builder,
    tables: &mut Tables0,
) -> Result<Start, ReadEnd>
    requires { Ready0 1 builder.old (shown_tables tables.old) cursor.old }
    ensures goes { Goes S.Source cursor.old cursor.new result }
    ensures starts { StartsBehind S.tells S.left marker0.Switch (state_in builder.old tables.old) (state_in builder.new tables.new) cursor.old cursor.new result }
    ensures still_ready { OnOk result (StillReady0 0 1 builder.old builder.new (shown_tables tables.new) cursor.old cursor.new) }
    ensures holds { IfOk result (StartHolds builder.old builder.new (left_of cursor.new)) }
    ensures stays { OnOk result (place cursor.old ≤ place cursor.new) }
{
    let value = read_value(alloc, cursor, builder, &mut tables.amf3)?;
    tables.switch();
    Ok(Start::Value(value))
}

/// Keeps a node without parts, which no index of AMF 0 names.
fn keep_leaf(builder: &mut Builder, leaf: Leaf) -> Result<NodeId, ReadEnd>
    requires names { HeadNames builder.old (leaf_head leaf) }
    requires room { length builder.old.nodes < room_end }
    requires few { items_of (leaf_head leaf) < room_end }
    ensures ok { IfOk result (λ node. KeepsLeaf builder.old builder.new (leaf_head leaf) node.0) }
    ensures built { OnOk result (IsBuilt builder.new) }
    ensures err { IfErr result (λ end. end ≡ ReadEnd.Memory) }
{
    let node = kept(builder.leaf(leaf))?;
    // What is true of every builder.
    builder.is_built();
    Ok(node)
}

/// Opens an array, which an index names from then on.
pub fn open_array(builder: &mut Builder, tables: &mut Tables0) -> Result<NodeId, ReadEnd>
    requires room { length builder.old.nodes < room_end }
    ensures ok { IfOk result (λ node. Opens builder.old builder.new (shown_tables tables.old) (shown_tables tables.new) array node.0) }
    ensures err { IfErr result (λ end. end ≡ ReadEnd.Memory) }
{
    let node = kept(builder.open_node(Shape::Array))?;
    tables.push_node(node)?;
    Ok(node)
}

/// Opens a dynamic object of a class, which an index names from then on.
fn open_object(
    builder: &mut Builder,
    tables: &mut Tables0,
    class: TextId,
) -> Result<NodeId, ReadEnd>
    requires class { IsTextId builder.old class.0 }
    requires few_traits { length builder.old.traits + 1 < room_end }
    requires few_nodes { length builder.old.nodes < room_end }
    ensures ok { IfOk result (λ node. OpensObject builder.old builder.new (shown_tables tables.old) (shown_tables tables.new) class.0 node.0) }
    ensures err { IfErr result (λ end. end ≡ ReadEnd.Memory) }
{
    let traits = kept(builder.traits(class, true, &[]))?;
    let node = kept(builder.open_node(Shape::Object(traits)))?;
    tables.push_node(node)?;
    Ok(node)
}
