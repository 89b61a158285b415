ghost use Rattle.std.specs.Prelude.{◌≤◌, length, OnOk, IfOk, IfErr};
ghost use Rattle.std.specs.Bool.{OnTrue};
ghost use Rattle.amf_io.specs.Field.{AreBytes};
ghost use Rattle.amf_io.specs.Cursor.{place};
ghost use Rattle.amf_io.specs.ReadEnds.{Goes};
ghost use Rattle.amf_io.specs.CursorReads.{Ends};
ghost use Rattle.amf_graph.specs.declared.kind.NodeKind.TheVariants.{Bytes};
ghost use Rattle.amf3_spelling.specs.Markers3.{node_marker};
ghost use Rattle.amf3_layout_laws.specs.Layout3State.{state_of};
ghost use Rattle.amf3_layout_laws.specs.Layout3.{opening};
ghost use Rattle.amf_wire_fields.specs.Room.{left_of};
ghost use Rattle.amf3_read.specs.Ready.{Ready};
ghost use Rattle.amf3_read.specs.Opened.{IsOpening};
ghost use Rattle.amf3_read.specs.Begins.{Begins};
ghost use Rattle.amf3_read.specs.Frames.{StartsNode, StartsInline, StartHolds, StillReady};

use crate::header::{Header, judge_header};
use crate::opening::{Opening, Parts, read_opening};
use amf_graph::{Builder, NodeId, NodeKind, Value};
use amf_io::{Cursor, ReadEnd, Source, refused};
use amf_tables::Tables3;
use amf_wire_fields::{kept, read_number};
use std::alloc::Global;

/// A node that is in the table: complete, or with values to come.
#[derive(Clone, Copy)]
pub struct Entered {
    pub node: NodeId,
    pub parts: Option<Parts>,
}

/// A value as far as it is read before the first value within it.
#[derive(Clone, Copy)]
pub enum Start {
    /// All of it was read.
    Value(Value),
    /// It is an open node, of which so much is still to be read.
    Open(NodeId, Parts),
}

/// Reads the start of the node of this kind behind its marker: one of the table, or one inline.
#[inline(always)]
pub fn start_node<S: Source>(
    alloc: Global,
    cursor: &mut Cursor<'_, S>,
    builder: &mut Builder,
    tables: &mut Tables3,
    kind: NodeKind,
) -> Result<Start, ReadEnd>
    requires { Ready 0 builder.old tables.old cursor.old }
    ensures goes { Goes S.Source cursor.old cursor.new result }
    ensures starts { StartsNode S.tells S.left kind (state_of builder.old tables.old) (state_of builder.new tables.new) cursor.old cursor.new result }
    ensures still_ready { OnOk result (StillReady 0 builder.old builder.new tables.new cursor.old cursor.new) }
    ensures holds { IfOk result (StartHolds builder.old builder.new (left_of cursor.new)) }
    ensures stays { OnOk result (place cursor.old ≤ place cursor.new) }
{
    let start = cursor.at();
    let header = read_number(cursor)?.get();
    match judge_header(builder, tables, kind, header) {
        Err(reason) => Err(refused(reason, start)),
        Ok(Header::Known(node)) => Ok(Start::Value(Value::Node(node))),
        Ok(Header::Inline) => start_inline(alloc, cursor, builder, tables, kind, header),
    }
}

/// Reads the start of a node that is given inline, behind its header.
#[inline(always)]
fn start_inline<S: Source>(
    alloc: Global,
    cursor: &mut Cursor<'_, S>,
    builder: &mut Builder,
    tables: &mut Tables3,
    kind: NodeKind,
    header: u32,
) -> Result<Start, ReadEnd>
    requires ready { Ready 1 builder.old tables.old cursor.old }
    requires known { IsOpening tables.old (node_marker kind) header }
    ensures goes { Goes S.Source cursor.old cursor.new result }
    ensures starts { StartsInline S.tells S.left kind header (state_of builder.old tables.old) (state_of builder.new tables.new) cursor.old cursor.new result }
    ensures still_ready { OnOk result (StillReady 1 builder.old builder.new tables.new cursor.old cursor.new) }
    ensures holds { IfOk result (StartHolds builder.old builder.new (left_of cursor.new)) }
    ensures stays { OnOk result (place cursor.old ≤ place cursor.new) }
{
    let Entered { node, parts } = begin_node(alloc, cursor, builder, tables, kind, header)?;
    match parts {
        None => Ok(Start::Value(Value::Node(node))),
        Some(parts) => Ok(Start::Open(node, parts)),
    }
}

/// Does what `enter_node` does. Most nodes are arrays or objects of known traits: these have code of their own.
#[inline(always)]
fn begin_node<S: Source>(
    alloc: Global,
    cursor: &mut Cursor<'_, S>,
    builder: &mut Builder,
    tables: &mut Tables3,
    kind: NodeKind,
    header: u32,
) -> Result<Entered, ReadEnd>
    requires ready { Ready 1 builder.old tables.old cursor.old }
    requires known { IsOpening tables.old (node_marker kind) header }
    ensures goes { Goes S.Source cursor.old cursor.new result }
    ensures begins { IfOk result (Begins S.tells S.left kind header builder.old builder.new tables.old tables.new cursor.old cursor.new) }
    ensures ends { IfErr result (Ends S.tells S.left (opening kind header (state_of builder.old tables.old)) cursor.old cursor.new) }
    ensures ready { OnOk result (Ready 0 builder.new tables.new cursor.new) }
    ensures stays { OnOk result (place cursor.old ≤ place cursor.new) }
{
    match kind {
        NodeKind::Array => enter_node(alloc, cursor, builder, tables, NodeKind::Array, header),
        NodeKind::Object if header % 4 == 1 => {
            enter_node(alloc, cursor, builder, tables, NodeKind::Object, header)
        }
        _ => enter_apart(alloc, cursor, builder, tables, kind, header),
    }
}

/// Does what `enter_node` does, for a kind of which there are few.
#[inline(never)]
fn enter_apart<S: Source>(
    alloc: Global,
    cursor: &mut Cursor<'_, S>,
    builder: &mut Builder,
    tables: &mut Tables3,
    kind: NodeKind,
    header: u32,
) -> Result<Entered, ReadEnd>
    requires ready { Ready 1 builder.old tables.old cursor.old }
    requires known { IsOpening tables.old (node_marker kind) header }
    ensures goes { Goes S.Source cursor.old cursor.new result }
    ensures begins { IfOk result (Begins S.tells S.left kind header builder.old builder.new tables.old tables.new cursor.old cursor.new) }
    ensures ends { IfErr result (Ends S.tells S.left (opening kind header (state_of builder.old tables.old)) cursor.old cursor.new) }
    ensures ready { OnOk result (Ready 0 builder.new tables.new cursor.new) }
    ensures stays { OnOk result (place cursor.old ≤ place cursor.new) }
{
    match kind {
        NodeKind::Bytes => enter_bytes(alloc, cursor, builder, tables, header),
        NodeKind::Values => enter_node(alloc, cursor, builder, tables, NodeKind::Values, header),
        NodeKind::Dictionary => {
            enter_node(alloc, cursor, builder, tables, NodeKind::Dictionary, header)
        }
        _ => enter_node(alloc, cursor, builder, tables, kind, header),
    }
}

/// Does what `enter_node` does, for a byte array (AMF 3 specification, 3.14). Where all of it is ahead, no list is made of it.
fn enter_bytes<S: Source>(
    alloc: Global,
    cursor: &mut Cursor<'_, S>,
    builder: &mut Builder,
    tables: &mut Tables3,
    header: u32,
) -> Result<Entered, ReadEnd>
    requires ready { Ready 1 builder.old tables.old cursor.old }
    requires known { IsOpening tables.old (node_marker Bytes) header }
    ensures goes { Goes S.Source cursor.old cursor.new result }
    ensures begins { IfOk result (Begins S.tells S.left Bytes header builder.old builder.new tables.old tables.new cursor.old cursor.new) }
    ensures ends { IfErr result (Ends S.tells S.left (opening Bytes header (state_of builder.old tables.old)) cursor.old cursor.new) }
    ensures ready { OnOk result (Ready 0 builder.new tables.new cursor.new) }
    ensures stays { OnOk result (place cursor.old ≤ place cursor.new) }
{
    // What is true of every cursor.
    let _start = cursor.at();
    let size = header / 2;
    let ahead = cursor.ahead();
    if has_bytes(ahead, size) {
        let array = builder.bytes(&ahead[..size as usize]);
        cursor.pass(size);
        let node = kept(array)?;
        builder.is_built();
        tables.push_node(node)?;
        return Ok(Entered { node, parts: None });
    }
    enter_node(alloc, cursor, builder, tables, NodeKind::Bytes, header)
}

/// Whether there are so many of these bytes.
fn has_bytes(bytes: &[u8], size: u32) -> bool
    ensures there { OnTrue result (size ≤ length bytes.now) }
    ensures bytes { AreBytes bytes.now }
{
    size as usize <= bytes.len()
}

/// Reads what stands between a node's header and its values, and enters the node.
#[inline(always)]
fn enter_node<S: Source>(
    alloc: Global,
    cursor: &mut Cursor<'_, S>,
    builder: &mut Builder,
    tables: &mut Tables3,
    kind: NodeKind,
    header: u32,
) -> Result<Entered, ReadEnd>
    requires ready { Ready 1 builder.old tables.old cursor.old }
    requires known { IsOpening tables.old (node_marker kind) header }
    ensures goes { Goes S.Source cursor.old cursor.new result }
    ensures begins { IfOk result (Begins S.tells S.left kind header builder.old builder.new tables.old tables.new cursor.old cursor.new) }
    ensures ends { IfErr result (Ends S.tells S.left (opening kind header (state_of builder.old tables.old)) cursor.old cursor.new) }
    ensures ready { OnOk result (Ready 0 builder.new tables.new cursor.new) }
    ensures stays { OnOk result (place cursor.old ≤ place cursor.new) }
{
    match read_opening(alloc, cursor, builder, tables, kind, header)? {
        Opening::Leaf(leaf) => {
            let node = kept(builder.leaf(leaf))?;
            builder.is_built();
            tables.push_node(node)?;
            Ok(Entered { node, parts: None })
        }
        Opening::Node(shape, parts) => {
            let node = kept(builder.open_node(shape))?;
            tables.push_node(node)?;
            Ok(Entered {
                node,
                parts: Some(parts),
            })
        }
    }
}
