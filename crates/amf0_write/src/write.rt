ghost use Rattle.std.specs.Prelude.{◌≡◌, ◌≤◌, OnOk, OnErr, IfOk};
ghost use Rattle.std.specs.Result.{IsErrOf};
ghost use Rattle.amf_graph.specs.declared.lack.Lack.{Lack};
ghost use Rattle.amf_graph.specs.Arena.{Names, value_content};
ghost use Rattle.amf_graph.specs.Reached.{IsReachedValue};
ghost use Rattle.amf_graph.specs.Rooted.{content};
ghost use Rattle.amf0_spelling.specs.Lacks0.{IsLack0};
ghost use Rattle.amf0_spelling.specs.Lowered.{IsLowered};
ghost use Rattle.amf3_spelling.specs.Tables.{Tables};
ghost use Rattle.amf0_write.specs.declared.stop.Stop.TheVariants.{Lack as Stopped};
ghost use Rattle.amf0_write.specs.PartLacks0.{IsKeptPartLack0};
ghost use Rattle.amf0_write.specs.Searched.{HasPartLack0, HasLackBehind, IsLackBehind, AreGrownTables, HaveGrownFrom};
ghost use Rattle.amf0_write.specs.Unwritten0.{IsMetValue};
ghost use Rattle.amf0_write.specs.Written0.{tables0, AreTables0, AppendsCanonical0, AppendsKeptPart0, AppendsLowered0, IsLoweredLack0};
ghost use Rattle.amf_graph.specs.Bounds.{count_end};

use crate::lowered::Lowered;
use crate::lowering::lower;
use crate::meeting::meetings_before;
use crate::output::Output;
use crate::part_lack::part_lack;
use crate::stop::Stop;
use amf_graph::{Lack, NodeId, Rooted, Value, WriteEnd};
use amf_tables::WriterTables;
use amf_wire::Memory;
use std::alloc::Global;

/// Appends the canonical case of a value, from the tables of what is written before it, and tells the nodes that were entered
/// without a place. After an end `out` is as before. It stops where the value leads to a lack.
fn write_value<'g>(
    alloc: Global,
    graph: &'g Lowered<'g>,
    value: Value,
    tables: &mut WriterTables,
    loose: &mut Vec<NodeId>,
    out: &mut Vec<u8>,
) -> Result<(), Stop>
    requires low { IsLowered (content graph.now) }
    requires met { IsMetValue graph.now value }
    requires tables { AreTables0 (content graph.now) (tables0 tables.old) }
    ensures written { OnOk result (AppendsKeptPart0 graph.now value (tables0 tables.old) (tables0 tables.new) out.old.items out.new.items) }
    ensures tables { OnOk result (AreTables0 (content graph.now) (tables0 tables.new)) }
    ensures lack { IsErrOf result Stopped → HasPartLack0 (content graph.now) (value_content graph.now.arena value) (tables0 tables.old) }
    ensures grown { IsErrOf result Stopped → AreGrownTables (content graph.now) (tables0 tables.old) (tables0 tables.new) loose.new.items }
    ensures untouched { OnErr result (out.new.items ≡ out.old.items) }
{
    let start = out.len();
    let mut output = Output::taking(alloc, tables, out)?;
    let result = output.value(value, graph);
    *loose = output.put_back(result.is_err(), start, tables, out);
    result
}

/// The first lack of a part that has one, where these are the tables that a writer left, with so many places before, and the
/// nodes that it entered without one. It gives up where there is no memory.
fn lack_of(
    alloc: Global,
    graph: &Rooted,
    value: Value,
    tables: &WriterTables,
    count: u32,
    loose: &[NodeId],
) -> Result<Lack, Memory>
    requires met { IsMetValue graph.now value }
    requires few { count ≤ count_end }
    requires lacking { (t : Tables) × HasLackBehind graph.now value t × HaveGrownFrom graph.now count t tables.now loose.now }
    ensures { (t : Tables) → HaveGrownFrom graph.now count t tables.now loose.now → IfOk result (IsLackBehind graph.now value t) }
{
    graph.is_finished();
    let meetings = meetings_before(alloc, tables, count, loose, graph)?;
    part_lack(alloc, value, meetings, count, graph)
}

/// Appends the canonical case of a value of a lowered graph, from the tables of what is written before it (AMF 0, 2.2 to
/// 2.18). The value is one of the graph that is reached from its root, and the tables are those of canonical spellings of
/// this graph: new ones, those that a call before left, or either after `add_done` of arrays or objects that take no place.
///
/// After an end `out` is as before, and the tables must not be used again. `NoSpelling` tells the first lack of the nodes that
/// the value meets, by the canonical numbers of the whole graph; `Memory` comes where there is no room for the tables or the
/// bytes.
pub fn write0_part(
    alloc: Global,
    graph: &Rooted,
    value: Value,
    tables: &mut WriterTables,
    out: &mut Vec<u8>,
) -> Result<(), WriteEnd>
    requires low { IsLowered (content graph.now) }
    requires value { Names graph.now.arena value }
    requires reached { IsReachedValue (content graph.now) (value_content graph.now.arena value) }
    requires tables { AreTables0 (content graph.now) (tables0 tables.old) }
    ensures written { OnOk result (AppendsKeptPart0 graph.now value (tables0 tables.old) (tables0 tables.new) out.old.items out.new.items) }
    ensures tables { OnOk result (AreTables0 (content graph.now) (tables0 tables.new)) }
    ensures lack { (l : Lack) → IsErrOf result (WriteEnd.NoSpelling l) → IsKeptPartLack0 graph.now value (tables0 tables.old) l.node l.kind }
    ensures untouched { OnErr result (out.new.items ≡ out.old.items) }
{
    let count = tables.node_count();
    let mut loose = Vec::new(alloc);
    let seen = Lowered::as_it_stands(alloc, graph);
    match write_value(alloc, &seen, value, tables, &mut loose, out) {
        Ok(()) => Ok(()),
        Err(Stop::Memory) => Err(WriteEnd::Memory),
        Err(Stop::Lack) => {
            let lack = lack_of(alloc, graph, value, tables, count, &loose)?;
            Err(WriteEnd::NoSpelling(lack))
        }
    }
}

/// Appends the canonical spelling of a lowered graph (AMF 0, 2.2 to 2.18).
///
/// After an end `out` is as before. `NoSpelling` comes only where the graph has no canonical spelling, and tells the first lack
/// of the graph; `Memory` where there is no room for the tables or the bytes.
pub fn write0(alloc: Global, graph: &Rooted, out: &mut Vec<u8>) -> Result<(), WriteEnd>
    requires { IsLowered (content graph.now) }
    ensures written { OnOk result (AppendsCanonical0 (content graph.now) out.old.items out.new.items) }
    ensures lack { (l : Lack) → IsErrOf result (WriteEnd.NoSpelling l) → IsLack0 (content graph.now) l.node l.kind }
    ensures untouched { OnErr result (out.new.items ≡ out.old.items) }
{
    graph.is_finished();
    let mut tables = WriterTables::new(alloc)?;
    write0_part(alloc, graph, graph.root(), &mut tables, out)
}

/// Appends the canonical case of the root of a lowering. It stops where there is none.
fn write_seen<'g>(alloc: Global, graph: &'g Lowered<'g>, out: &mut Vec<u8>) -> Result<(), Stop>
    requires { IsLowered (content graph.now) }
    ensures written { OnOk result (AppendsCanonical0 (content graph.now) out.old.items out.new.items) }
    ensures untouched { OnErr result (out.new.items ≡ out.old.items) }
{
    graph.is_finished();
    let mut tables = WriterTables::new(alloc)?;
    let mut loose = Vec::new(alloc);
    write_value(alloc, graph, graph.root(), &mut tables, &mut loose, out)
}

/// Appends the canonical spelling of a lowered copy of a graph.
fn write_copied(alloc: Global, graph: &Rooted, out: &mut Vec<u8>) -> Result<(), WriteEnd>
    ensures written { OnOk result (AppendsLowered0 (content graph.now) out.old.items out.new.items) }
    ensures lack { (l : Lack) → IsErrOf result (WriteEnd.NoSpelling l) → IsLoweredLack0 (content graph.now) l.node l.kind }
    ensures untouched { OnErr result (out.new.items ≡ out.old.items) }
{
    let low = lower(alloc, graph)?;
    write0(alloc, &low, out)
}

/// Appends the canonical spelling of what a graph is when it is lowered, and makes no lowered copy of it, unless there is no
/// spelling: then the copy tells the first lack.
///
/// After an end `out` is as before. `NoSpelling` comes only where the lowering has no canonical spelling, and tells its first
/// lack; `Memory` where there is no room for a value of each node, for what is made of a node, for the tables, the bytes or,
/// where there is no spelling, the copy.
pub fn write_lowered0(alloc: Global, graph: &Rooted, out: &mut Vec<u8>) -> Result<(), WriteEnd>
    ensures written { OnOk result (AppendsLowered0 (content graph.now) out.old.items out.new.items) }
    ensures lack { (l : Lack) → IsErrOf result (WriteEnd.NoSpelling l) → IsLoweredLack0 (content graph.now) l.node l.kind }
    ensures untouched { OnErr result (out.new.items ≡ out.old.items) }
{
    let seen = Lowered::of(alloc, graph)?;
    match write_seen(alloc, &seen, out) {
        Ok(()) => Ok(()),
        Err(Stop::Memory) => Err(WriteEnd::Memory),
        Err(Stop::Lack) => write_copied(alloc, graph, out),
    }
}
