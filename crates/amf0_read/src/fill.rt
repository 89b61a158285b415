ghost use Rattle.std.specs.Prelude.{◌<◌, IfOk};
ghost use Rattle.amf_io.specs.Cursor.{place};
ghost use Rattle.amf_io.specs.ReadEnds.{Goes};
ghost use Rattle.amf_graph.specs.Arena.{head_content};
ghost use Rattle.amf_graph.specs.Building.{stored_at};
ghost use Rattle.amf0_spelling.specs.TableParts0.{shown_tables};
ghost use Rattle.amf3_read.specs.Filling.{IsOpened};
ghost use Rattle.amf_wire_fields.specs.Room.{left_of};
ghost use Rattle.amf0_read.specs.Ready0.{Ready0, StillReady0};
ghost use Rattle.amf0_read.specs.Frames0.{Lacks, GoesOnWith, state_in, StepHolds, StepMoves, owed_at, IsOpenAlone, Fills, FilledMoves};

use crate::frame::{Role, Todo};
use crate::marker::{read_marker, read_marker_or_end};
use crate::node::{Start, start_value};
use crate::text::read_short_text;
use amf_graph::{Builder, NodeId};
use amf_io::{Cursor, ReadEnd, Source};
use amf_wire_fields::kept;
use amf0_spelling::{Marker0, Tables0};
use std::alloc::Global;

/// How far an open node was filled.
#[derive(Clone, Copy)]
pub enum Filled {
    /// It has all of its parts, and is closed.
    Closed,
    /// In this role of it a node begins, which is open, and of which so much is still to be read.
    Within(Role, NodeId, Todo),
}

/// How an open node went on.
#[derive(Clone, Copy)]
pub enum Step {
    /// It waits for a value for this role, whose marker was read.
    Wait(Role, Marker0),
    /// It is closed.
    Closed,
}

/// Reads the values of an open node, each into it, up to its end, where it is closed, or to a node that begins within it.
pub fn fill<S: Source>(
    alloc: Global,
    cursor: &mut Cursor<'_, S>,
    builder: &mut Builder,
    tables: &mut Tables0,
    node: NodeId,
    todo: Todo,
) -> Result<Filled, ReadEnd>
    requires ready { Ready0 0 builder.old (shown_tables tables.old) cursor.old }
    requires opened { IsOpenAlone (left_of cursor.old) builder.old node.0 todo }
    ensures goes { Goes S.Source cursor.old cursor.new result }
    ensures fills { Fills S.tells S.left S.faults node todo builder.old builder.new (shown_tables tables.old) (shown_tables tables.new) cursor.old cursor.new result }
    ensures moves { IfOk result (FilledMoves (place cursor.old) (place cursor.new)) }
{
    // Items and pairs each have a loop of their own.
    match todo {
        Todo::Items(more) => fill_by(alloc, cursor, builder, tables, node, Todo::Items(more)),
        Todo::Pairs => fill_by(alloc, cursor, builder, tables, node, Todo::Pairs),
    }
}

/// Does what [`fill`] does.
#[inline(always)]
fn fill_by<S: Source>(
    alloc: Global,
    cursor: &mut Cursor<'_, S>,
    builder: &mut Builder,
    tables: &mut Tables0,
    node: NodeId,
    mut todo: Todo,
) -> Result<Filled, ReadEnd>
    requires ready { Ready0 0 builder.old (shown_tables tables.old) cursor.old }
    requires opened { IsOpenAlone (left_of cursor.old) builder.old node.0 todo }
    ensures goes { Goes S.Source cursor.old cursor.new result }
    ensures fills { Fills S.tells S.left S.faults node todo builder.old builder.new (shown_tables tables.old) (shown_tables tables.new) cursor.old cursor.new result }
    ensures moves { IfOk result (FilledMoves (place cursor.old) (place cursor.new)) }
{
    loop {
        match go_on(alloc, cursor, builder, tables, node, todo)? {
            Step::Closed => return Ok(Filled::Closed),
            Step::Wait(role, marker) => {
                match start_value(alloc, cursor, builder, tables, marker)? {
                    Start::Value(value) => {
                        kept(builder.put(node, role.part_of(value)))?;
                        todo = role.todo_behind();
                    }
                    Start::Open(child, more) => return Ok(Filled::Within(role, child, more)),
                }
            }
        }
    }
}

/// Reads on in an open node, up to the marker of its next value, or its end, where it is closed.
#[inline(always)]
fn go_on<S: Source>(
    alloc: Global,
    cursor: &mut Cursor<'_, S>,
    builder: &mut Builder,
    tables: &Tables0,
    node: NodeId,
    todo: Todo,
) -> Result<Step, ReadEnd>
    requires ready { Ready0 0 builder.old (shown_tables tables.now) cursor.old }
    requires opened { IsOpened builder.old node.0 (left_of cursor.old) }
    requires lacks { Lacks (head_content builder.old (stored_at builder.old node.0).head) (stored_at builder.old node.0) todo }
    ensures goes { Goes S.Source cursor.old cursor.new result }
    ensures answers { GoesOnWith S.tells S.left node.0 todo (state_in builder.old tables.now) (state_in builder.new tables.now) cursor.old cursor.new result }
    ensures still_ready { IfOk result (λ step. StillReady0 (owed_at step) 0 builder.old builder.new (shown_tables tables.now) cursor.old cursor.new) }
    ensures holds { IfOk result (StepHolds builder.old builder.new node.0) }
    ensures moves { IfOk result (StepMoves (place cursor.old) (place cursor.new)) }
{
    match todo {
        Todo::Items(0) => {
            builder.close_node(node);
            Ok(Step::Closed)
        }
        Todo::Items(more) => {
            let marker = read_marker(cursor, tables)?;
            Ok(Step::Wait(Role::Item(more - 1), marker))
        }
        Todo::Pairs => {
            let name = read_short_text(alloc, cursor, builder)?;
            // What is true of every builder.
            builder.is_built();
            if !builder.text_of(name).is_empty() {
                let marker = read_marker(cursor, tables)?;
                return Ok(Step::Wait(Role::Named(name), marker));
            }
            match read_marker_or_end(cursor, tables)? {
                Some(marker) => Ok(Step::Wait(Role::Named(name), marker)),
                None => {
                    builder.close_node(node);
                    Ok(Step::Closed)
                }
            }
        }
    }
}
