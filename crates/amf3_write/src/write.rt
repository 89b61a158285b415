ghost use Rattle.std.specs.Prelude.{◌≡◌, OnOk, OnErr};
ghost use Rattle.std.specs.Result.{IsErrOf};
ghost use Rattle.amf_graph.specs.declared.lack.Lack.{Lack};
ghost use Rattle.amf_graph.specs.Rooted.{content};
ghost use Rattle.amf3_spelling.specs.Lacks3.{IsLack3};
ghost use Rattle.amf3_write.specs.Written.{AppendsCanonical};

use crate::{GraphTables, write3_part_of};
use amf_graph::{Rooted, WriteEnd};
use amf_tables::WriterTables;
use std::alloc::Global;
use std::hash::RandomState;

/// Appends the canonical spelling of a graph (AMF 3, 3.2 to 3.16).
///
/// After an end `out` is as before. `NoSpelling` comes only where the graph has no canonical spelling, and tells the first lack
/// of the graph; `Memory` where there is no room for the tables or the bytes.
///
/// The tables are looked up by fixed keys, so whoever knows them can make a graph that takes long: `write3_keyed` is passed
/// others.
pub fn write3(alloc: Global, graph: &Rooted, out: &mut Vec<u8>) -> Result<(), WriteEnd>
    ensures written { OnOk result (AppendsCanonical (content graph.now) out.old.items out.new.items) }
    ensures lack { (l : Lack) → IsErrOf result (WriteEnd.NoSpelling l) → IsLack3 (content graph.now) l.node l.kind }
    ensures untouched { OnErr result (out.new.items ≡ out.old.items) }
{
    write3_keyed(alloc, None, graph, out)
}

/// Does what `write3` does, with tables that are looked up by these keys, or by fixed ones where there are none. What is
/// written is the same for all keys.
pub fn write3_keyed(
    alloc: Global,
    keys: Option<RandomState>,
    graph: &Rooted,
    out: &mut Vec<u8>,
) -> Result<(), WriteEnd>
    ensures written { OnOk result (AppendsCanonical (content graph.now) out.old.items out.new.items) }
    ensures lack { (l : Lack) → IsErrOf result (WriteEnd.NoSpelling l) → IsLack3 (content graph.now) l.node l.kind }
    ensures untouched { OnErr result (out.new.items ≡ out.old.items) }
{
    graph.is_finished();
    let made = WriterTables::keyed(alloc, keys)?;
    let mut tables = GraphTables::of(alloc, made);
    write3_part_of(alloc, graph, graph.root(), &mut tables, out)
}
