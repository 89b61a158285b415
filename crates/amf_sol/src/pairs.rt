ghost use Rattle.std.specs.Prelude.{◌≡◌, ◌+◌, ◌<◌, ℕ, List, OnOk, IfOk, IfErr};
ghost use Rattle.amf_io.specs.Cursor.{place};
ghost use Rattle.amf_io.specs.ReadEnds.{IsPlaced, Goes};
ghost use Rattle.amf_graph.specs.Building.{no_arena};
ghost use Rattle.amf0_spelling.specs.KeptTables0.{no_kept_tables0};
ghost use Rattle.amf0_spelling.specs.TableParts0.{shown_tables};
ghost use Rattle.amf0_read.specs.Frames0.{state_in};
ghost use Rattle.amf0_read.specs.Ready0.{Ready0};
ghost use Rattle.amf_wire_fields.specs.Room.{room_end, left_of};
ghost use Rattle.amf3_read.specs.Ready.{Ready};
ghost use Rattle.amf_sol.specs.declared.sol_version.SolVersion.TheVariants.{Amf0, Amf3};
ghost use Rattle.amf_sol.specs.FileLayout.{holder_arena};
ghost use Rattle.amf_sol.specs.FileReading.{state_in3, AreOfFormat, IsOpenHolder, AnswersPair, AnswersPairs, AnswersHolder, closed_holder};

use crate::SolVersion;
use crate::head::read_pair_end;
use amf_graph::{Builder, NodeId, Part, Rooted, Shape, Value};
use amf_io::{Cursor, ReadEnd, Source, is_over};
use amf_tables::Tables3;
use amf_wire_fields::kept;
use amf0_read::{read_short_text, read_value0};
use amf0_spelling::Tables0;
use amf3_read::{read_text, read_value};
use std::alloc::Global;
use std::hash::RandomState;

/// The holder: the first node.
const HOLDER: NodeId = NodeId(0);

/// Reads the pairs up to the end of the input into a new holder, which is the first node, and in no table.
pub(crate) fn read_holder<S: Source>(
    alloc: Global,
    keys: Option<RandomState>,
    cursor: &mut Cursor<'_, S>,
    version: SolVersion,
) -> Result<Rooted, ReadEnd>
    requires placed { IsPlaced cursor.old }
    requires room { left_of cursor.old + 1 < room_end }
    ensures goes { Goes S.Source cursor.old cursor.new result }
    ensures answers { (n : ℕ) (name : List ℕ) → left_of cursor.old < n → AnswersHolder S.tells S.left version n name cursor.old cursor.new result }
{
    let mut builder = Builder::keyed(alloc, keys)?;
    read_held(alloc, cursor, &mut builder, version)?;
    Ok(close_holder(builder, HOLDER))
}

/// Opens the holder in a builder that holds nothing yet, and reads the pairs into it up to the end of the input.
fn read_held<S: Source>(
    alloc: Global,
    cursor: &mut Cursor<'_, S>,
    builder: &mut Builder,
    version: SolVersion,
) -> Result<(), ReadEnd>
    requires empty { builder.old ≡ no_arena }
    requires placed { IsPlaced cursor.old }
    requires room { left_of cursor.old + 1 < room_end }
    ensures goes { Goes S.Source cursor.old cursor.new result }
    ensures answers { (n : ℕ) (name : List ℕ) → left_of cursor.old < n → AnswersPairs S.tells S.left version n name builder.new cursor.old cursor.new result }
    ensures holder { OnOk result (IsOpenHolder builder.new 0) }
{
    let holder = open_holder(builder)?;
    read_pairs(alloc, cursor, builder, holder, version)
}

/// Opens a holder in a new builder.
fn open_holder(builder: &mut Builder) -> Result<NodeId, ReadEnd>
    requires { builder.old ≡ no_arena }
    ensures holder { IfOk result (λ holder. holder.0 ≡ 0) }
    ensures opened { OnOk result (builder.new ≡ holder_arena) }
    ensures err { IfErr result (λ end. end ≡ ReadEnd.Memory) }
{
    let class = kept(builder.text(&[]))?;
    let traits = kept(builder.traits(class, true, &[]))?;
    kept(builder.open_node(Shape::Object(traits)))
}

/// Closes the holder, and gives the graph whose root it is.
fn close_holder(builder: Builder, holder: NodeId) -> Rooted
    requires first { holder.0 ≡ 0 }
    requires opened { IsOpenHolder builder 0 }
    ensures { result ≡ closed_holder builder }
{
    let mut builder = builder;
    builder.close_node(holder);
    match builder.finish(Value::Node(holder)) {
        Ok(graph) => graph,
        Err(_) => unreachable!(),
    }
}

/// Reads pairs of a format to the end of the input, with one set of tables.
fn read_pairs<S: Source>(
    alloc: Global,
    cursor: &mut Cursor<'_, S>,
    builder: &mut Builder,
    holder: NodeId,
    version: SolVersion,
) -> Result<(), ReadEnd>
    requires first { holder.0 ≡ 0 }
    requires opened { builder.old ≡ holder_arena }
    requires placed { IsPlaced cursor.old }
    requires room { left_of cursor.old + 1 < room_end }
    ensures goes { Goes S.Source cursor.old cursor.new result }
    ensures answers { (n : ℕ) (name : List ℕ) → left_of cursor.old < n → AnswersPairs S.tells S.left version n name builder.new cursor.old cursor.new result }
    ensures holder { OnOk result (IsOpenHolder builder.new 0) }
{
    let mut tables = Tables0::new(alloc)?;
    read_each(alloc, cursor, builder, &mut tables, holder, version)
}

/// Reads pairs of a format to the end of the input, by tables without entries.
fn read_each<S: Source>(
    alloc: Global,
    cursor: &mut Cursor<'_, S>,
    builder: &mut Builder,
    tables: &mut Tables0,
    holder: NodeId,
    version: SolVersion,
) -> Result<(), ReadEnd>
    requires first { holder.0 ≡ 0 }
    requires opened { builder.old ≡ holder_arena }
    requires empty { shown_tables tables.old ≡ no_kept_tables0 }
    requires placed { IsPlaced cursor.old }
    requires room { left_of cursor.old + 1 < room_end }
    ensures goes { Goes S.Source cursor.old cursor.new result }
    ensures answers { (n : ℕ) (name : List ℕ) → left_of cursor.old < n → AnswersPairs S.tells S.left version n name builder.new cursor.old cursor.new result }
    ensures holder { OnOk result (IsOpenHolder builder.new 0) }
{
    while !is_over(cursor)? {
        read_pair(alloc, cursor, builder, tables, holder, version)?;
    }
    Ok(())
}

/// Reads a pair of a format into the holder. Those of AMF 3 need the tables of AMF 3 alone.
fn read_pair<S: Source>(
    alloc: Global,
    cursor: &mut Cursor<'_, S>,
    builder: &mut Builder,
    tables: &mut Tables0,
    holder: NodeId,
    version: SolVersion,
) -> Result<(), ReadEnd>
    requires first { holder.0 ≡ 0 }
    requires ready { Ready0 0 builder.old (shown_tables tables.old) cursor.old }
    requires format { AreOfFormat version (shown_tables tables.old) }
    requires holder { IsOpenHolder builder.old (left_of cursor.old) }
    ensures goes { Goes S.Source cursor.old cursor.new result }
    ensures answers { AnswersPair S.tells S.left version (state_in builder.old tables.old) (state_in builder.new tables.new) cursor.old cursor.new result }
    ensures ready { OnOk result (Ready0 0 builder.new (shown_tables tables.new) cursor.new) }
    ensures format { OnOk result (AreOfFormat version (shown_tables tables.new)) }
    ensures holder { OnOk result (IsOpenHolder builder.new (left_of cursor.new)) }
    ensures moves { OnOk result (place cursor.old < place cursor.new) }
{
    match version {
        SolVersion::Amf0 => read_pair0(alloc, cursor, builder, tables, holder),
        SolVersion::Amf3 => read_pair3(alloc, cursor, builder, &mut tables.amf3, holder),
    }
}

/// Reads a pair of AMF 0 into the holder.
fn read_pair0<S: Source>(
    alloc: Global,
    cursor: &mut Cursor<'_, S>,
    builder: &mut Builder,
    tables: &mut Tables0,
    holder: NodeId,
) -> Result<(), ReadEnd>
    requires first { holder.0 ≡ 0 }
    requires ready { Ready0 0 builder.old (shown_tables tables.old) cursor.old }
    requires holder { IsOpenHolder builder.old (left_of cursor.old) }
    ensures goes { Goes S.Source cursor.old cursor.new result }
    ensures answers { AnswersPair S.tells S.left Amf0 (state_in builder.old tables.old) (state_in builder.new tables.new) cursor.old cursor.new result }
    ensures ready { OnOk result (Ready0 0 builder.new (shown_tables tables.new) cursor.new) }
    ensures holder { OnOk result (IsOpenHolder builder.new (left_of cursor.new)) }
    ensures moves { OnOk result (place cursor.old < place cursor.new) }
{
    let name = read_short_text(alloc, cursor, builder)?;
    // What is true of every builder.
    builder.is_built();
    let value = read_value0(alloc, cursor, builder, tables)?;
    read_pair_end(cursor)?;
    kept(builder.put(holder, Part::Named(name, value)))?;
    Ok(())
}

/// Reads a pair of AMF 3 into the holder.
fn read_pair3<S: Source>(
    alloc: Global,
    cursor: &mut Cursor<'_, S>,
    builder: &mut Builder,
    tables: &mut Tables3,
    holder: NodeId,
) -> Result<(), ReadEnd>
    requires first { holder.0 ≡ 0 }
    requires ready { Ready 0 builder.old tables.old cursor.old }
    requires holder { IsOpenHolder builder.old (left_of cursor.old) }
    ensures goes { Goes S.Source cursor.old cursor.new result }
    ensures answers { AnswersPair S.tells S.left Amf3 (state_in3 builder.old tables.old) (state_in3 builder.new tables.new) cursor.old cursor.new result }
    ensures ready { OnOk result (Ready 0 builder.new tables.new cursor.new) }
    ensures holder { OnOk result (IsOpenHolder builder.new (left_of cursor.new)) }
    ensures moves { OnOk result (place cursor.old < place cursor.new) }
{
    let name = read_text(alloc, cursor, builder, tables)?;
    let value = read_value(alloc, cursor, builder, tables)?;
    read_pair_end(cursor)?;
    kept(builder.put(holder, Part::Named(name, value)))?;
    Ok(())
}
