ghost use Rattle.std.specs.Prelude.{◌≡◌, ◌<◌, length, IfOk, OnOk, OnErr};
ghost use Rattle.std.specs.List.{AllByRecursion};
ghost use Rattle.std.specs.Result.{IsErrOf};
ghost use Rattle.amf_graph.specs.declared.lack.Lack.{Lack};
ghost use Rattle.amf_graph.specs.Arena.{Arena, Names, IsTextId, text_at, value_content};
ghost use Rattle.amf_graph.specs.Reached.{IsReachedValue};
ghost use Rattle.amf_graph.specs.Rooted.{content};
ghost use Rattle.amf_tables.specs.KnownWords.{AreKnownOf};
ghost use Rattle.amf3_write.specs.PartLacks.{HasUnnamed, IsPartLack3};
ghost use Rattle.amf3_write.specs.PartTables.{AreTablesOf};
ghost use Rattle.amf3_write.specs.Writes.{BeginsWith};
ghost use Rattle.amf3_write.specs.Written.{AppendsPart, AppendsText};

use crate::GraphTables;
use crate::first_lack::first_lack;
use crate::output::Output;
use amf_graph::{Rooted, TextId, Value, WriteEnd};
use amf_tables::WriterTables;
use amf_wire::Memory;
use std::alloc::Global;
use std::mem;

/// The tables, taken from where they stood.
fn taken(alloc: Global, tables: &mut WriterTables) -> Result<GraphTables, Memory>
    ensures tables { IfOk result (λ own. own.tables ≡ tables.old) }
    ensures known { IfOk result (λ own. (a : Arena) → AreKnownOf a own.tables.words own.known) }
{
    let empty = WriterTables::new(alloc)?;
    Ok(GraphTables::of(alloc, mem::replace(tables, empty)))
}

/// Appends the canonical case of a text (AMF 3, 1.3.2): by its place in the tables, or inline.
///
/// The text is the graph's. After an end `out` is as before, and the tables must not be used again. It gives up where there
/// is no memory.
pub fn write3_text(
    alloc: Global,
    graph: &Rooted,
    text: TextId,
    tables: &mut WriterTables,
    out: &mut Vec<u8>,
) -> Result<(), Memory>
    requires { IsTextId graph.now.arena text.0 }
    ensures written { OnOk result (AppendsText (text_at graph.now.arena text.0) tables.old tables.new out.old.items out.new.items) }
    ensures untouched { OnErr result (out.new.items ≡ out.old.items) }
{
    let mut own = taken(alloc, tables)?;
    let result = write_text(alloc, graph, text, &mut own, out);
    *tables = own.tables;
    result
}

/// Appends the canonical case of a text, which is looked up by its bytes.
fn write_text(
    alloc: Global,
    graph: &Rooted,
    text: TextId,
    tables: &mut GraphTables,
    out: &mut Vec<u8>,
) -> Result<(), Memory>
    requires { IsTextId graph.now.arena text.0 }
    ensures written { OnOk result (AppendsText (text_at graph.now.arena text.0) tables.old.tables tables.new.tables out.old.items out.new.items) }
    ensures untouched { OnErr result (out.new.items ≡ out.old.items) }
{
    graph.is_finished();
    let start = out.len();
    let mut output = Output::taking(alloc, tables, out)?;
    let result = output.text(graph.text(text));
    output.put_back(result.is_err(), start, tables, out);
    result
}

/// Does what `write3_text` does, with tables of this graph: the text is looked up by its bytes once, however often it is
/// named. The tables are of this graph (`AreTablesOf`).
pub fn write3_text_of(
    alloc: Global,
    graph: &Rooted,
    text: TextId,
    tables: &mut GraphTables,
    out: &mut Vec<u8>,
) -> Result<(), Memory>
    requires id { IsTextId graph.now.arena text.0 }
    requires tables { AreTablesOf graph.now.arena tables.old }
    ensures written { OnOk result (AppendsText (text_at graph.now.arena text.0) tables.old.tables tables.new.tables out.old.items out.new.items) }
    ensures tables { OnOk result (AreTablesOf graph.now.arena tables.new) }
    ensures untouched { OnErr result (out.new.items ≡ out.old.items) }
{
    let start = out.len();
    let mut output = Output::taking(alloc, tables, out)?;
    let result = output.text_of(text, graph);
    output.put_back(result.is_err(), start, tables, out);
    result
}

/// Appends the canonical case of a value. A lack has its number among the nodes of the tables.
fn write_value(
    alloc: Global,
    graph: &Rooted,
    value: Value,
    tables: &mut GraphTables,
    out: &mut Vec<u8>,
) -> Result<(), WriteEnd>
    requires value { Names graph.now.arena value }
    requires tables { AreTablesOf graph.now.arena tables.old }
    ensures written { OnOk result (AppendsPart (content graph.now) (value_content graph.now.arena value) tables.old.tables tables.new.tables out.old.items out.new.items) }
    ensures lack { (l : Lack) → IsErrOf result (WriteEnd.NoSpelling l) → HasUnnamed (content graph.now) (value_content graph.now.arena value) tables.old.tables.done }
    ensures nodes { BeginsWith tables.old.tables.nodes tables.new.tables.nodes }
    ensures tables { OnOk result (AreTablesOf graph.now.arena tables.new) }
    ensures untouched { OnErr result (out.new.items ≡ out.old.items) }
{
    let start = out.len();
    let mut output = Output::taking(alloc, tables, out)?;
    let result = output.value(value, graph);
    output.put_back(result.is_err(), start, tables, out);
    result
}

/// Does what `write3_part` does, with tables of this graph: each text and traits of the graph is looked up by its content
/// once, however many parts name it. The tables are of this graph (`AreTablesOf`).
pub fn write3_part_of(
    alloc: Global,
    graph: &Rooted,
    value: Value,
    tables: &mut GraphTables,
    out: &mut Vec<u8>,
) -> Result<(), WriteEnd>
    requires value { Names graph.now.arena value }
    requires reached { IsReachedValue (content graph.now) (value_content graph.now.arena value) }
    requires tables { AreTablesOf graph.now.arena tables.old }
    ensures written { OnOk result (AppendsPart (content graph.now) (value_content graph.now.arena value) tables.old.tables tables.new.tables out.old.items out.new.items) }
    ensures lack { (l : Lack) → IsErrOf result (WriteEnd.NoSpelling l) → IsPartLack3 (content graph.now) (value_content graph.now.arena value) tables.old.tables.done l.node l.kind }
    ensures tables { OnOk result (AreTablesOf graph.now.arena tables.new) }
    ensures untouched { OnErr result (out.new.items ≡ out.old.items) }
{
    let count = tables.tables.node_count();
    match write_value(alloc, graph, value, tables, out) {
        Err(WriteEnd::NoSpelling(_)) => {
            let met = tables.tables.first_nodes(alloc, count)?;
            let lack = first_lack(alloc, value, &met, graph)?;
            Err(WriteEnd::NoSpelling(lack))
        }
        result => result,
    }
}

/// Appends the canonical case of a value of a graph, from the tables of what is written before it (AMF 3, 3.2 to 3.16). The
/// value is one of the graph that is reached from its root, the nodes of the tables are the graph's, and each that was
/// spelled has a place, as `are_placed` tells.
///
/// After an end `out` is as before, and the tables must not be used again. `NoSpelling` tells the first lack of the nodes to
/// which the value leads beside those of the tables, by the canonical numbers of the whole graph; `Memory` comes where there
/// is no room for the tables or the bytes.
///
/// Each call learns the places of the graph's texts anew: where many parts of one graph are written, `write3_part_of` learns
/// them once.
pub fn write3_part(
    alloc: Global,
    graph: &Rooted,
    value: Value,
    tables: &mut WriterTables,
    out: &mut Vec<u8>,
) -> Result<(), WriteEnd>
    requires value { Names graph.now.arena value }
    requires reached { IsReachedValue (content graph.now) (value_content graph.now.arena value) }
    requires nodes { AllByRecursion (λ i. i < length graph.now.arena.nodes) tables.old.nodes }
    requires placed { tables.old.done ≡ tables.old.nodes }
    ensures written { OnOk result (AppendsPart (content graph.now) (value_content graph.now.arena value) tables.old tables.new out.old.items out.new.items) }
    ensures lack { (l : Lack) → IsErrOf result (WriteEnd.NoSpelling l) → IsPartLack3 (content graph.now) (value_content graph.now.arena value) tables.old.done l.node l.kind }
    ensures nodes { OnOk result (AllByRecursion (λ i. i < length graph.now.arena.nodes) tables.new.nodes) }
    ensures placed { OnOk result (tables.new.done ≡ tables.new.nodes) }
    ensures untouched { OnErr result (out.new.items ≡ out.old.items) }
{
    let mut own = taken(alloc, tables)?;
    let result = write3_part_of(alloc, graph, value, &mut own, out);
    *tables = own.tables;
    result
}
