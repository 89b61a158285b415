ghost use Rattle.std.specs.Prelude.{◌≡◌, ℕ, ◌<◌, length, IfOk, OnOk};
ghost use Rattle.std.specs.Result.{IsErrOf};
ghost use Rattle.amf_wire.specs.Style.{canonical};
ghost use Rattle.amf_graph.specs.declared.lack.Lack.{Lack};
ghost use Rattle.amf_graph.specs.Arena.{Names, IsTextId, value_content};
ghost use Rattle.amf_graph.specs.Reached.{IsReachedValue};
ghost use Rattle.amf_graph.specs.Rooted.{content};
ghost use Rattle.amf_iso.specs.Contents.{ArePairs};
ghost use Rattle.amf0_spelling.specs.Lowered.{IsLowered};
ghost use Rattle.amf3_spelling.specs.Tables.{no_tables};
ghost use Rattle.amf3_write.specs.PartTables.{AreTablesOf};
ghost use Rattle.amf0_write.specs.PartLacks0.{LacksOutside, IsLackOutside};
ghost use Rattle.amf0_write.specs.Written0.{tables0, AreTables0};
ghost use Rattle.amf_sol.specs.declared.sol_version.SolVersion.TheVariants.{Amf0, Amf3};
ghost use Rattle.amf_sol.specs.FileLacks.{IsHolderLack};
ghost use Rattle.amf_sol.specs.FileParts.{AreSortedOf, Appends, AppendsBy, KeptPair3, KeptPair0, IsKeptLack0, IsKeptLack3};
ghost use Rattle.amf_sol.specs.SharedObject.{IsHolder, HasHolder, PairsOf, HolderBy};

use crate::write_head::append_name;
use crate::{SharedObject, SolVersion};
use amf_graph::{Lack, LackKind, NodeId, NodeView, Rooted, TextId, Value, WriteEnd};
use amf_iso::ids_by_name;
use amf_tables::WriterTables;
use amf_wire::Memory;
use amf0_write::{first_lack0, lower, write0_part};
use amf3_write::{GraphTables, write3_part_of, write3_text_of};
use std::alloc::Global;
use std::hash::RandomState;

/// The longest name behind a length of 16 bits (AMF 0, 1.3.1).
const MAX_SHORT: usize = 65_535;

/// What stands behind a pair.
const PAIR_END: u8 = 0x00;

/// The node that holds the pairs.
fn holder_of(graph: &Rooted) -> NodeId
    requires { HasHolder (content graph.now) }
    ensures holder { IsHolder (content graph.now) result.0 }
    ensures there { result.0 < length graph.now.arena.nodes }
{
    graph.is_finished();
    match graph.root() {
        Value::Node(root) => root,
        _ => unreachable!(),
    }
}

/// The pairs, in the order of their names. It gives up where there is no memory.
fn sorted_pairs(alloc: Global, graph: &Rooted) -> Result<Vec<(TextId, Value)>, Memory>
    requires { HasHolder (content graph.now) }
    ensures content { (h : ℕ) → IsHolder (content graph.now) h → IfOk result (λ pairs. AreSortedOf graph.now h pairs.items) }
    ensures names { IfOk result (λ pairs. ArePairs graph.now.arena pairs.items) }
{
    graph.is_finished();
    match graph.node(holder_of(graph)) {
        NodeView::Object { members, .. } => ids_by_name(alloc, members, graph),
        _ => unreachable!(),
    }
}

/// Appends a pair in AMF 3, by the tables of the file.
fn append_pair3(
    alloc: Global,
    graph: &Rooted,
    pair: (TextId, Value),
    tables: &mut GraphTables,
    out: &mut Vec<u8>,
) -> Result<(), WriteEnd>
    requires name { IsTextId graph.now.arena pair.0.0 }
    requires value { Names graph.now.arena pair.1 }
    requires reached { IsReachedValue (content graph.now) (value_content graph.now.arena pair.1) }
    requires tables { AreTablesOf graph.now.arena tables.old }
    ensures written { OnOk result (AppendsBy (KeptPair3 graph.now pair) tables.old.tables tables.new.tables out.old.items out.new.items) }
    ensures tables { OnOk result (AreTablesOf graph.now.arena tables.new) }
    ensures lack { (l : Lack) → IsErrOf result (WriteEnd.NoSpelling l) → IsKeptLack3 graph.now pair tables.old.tables l.node l.kind }
{
    let (name, value) = pair;
    write3_text_of(alloc, graph, name, tables, out)?;
    write3_part_of(alloc, graph, value, tables, out)?;
    out.push(PAIR_END)?;
    Ok(())
}

/// Appends pairs in AMF 3: those of the graph, in the order of their names.
fn append_sorted3(
    alloc: Global,
    keys: Option<RandomState>,
    graph: &Rooted,
    pairs: &[(TextId, Value)],
    out: &mut Vec<u8>,
) -> Result<(), WriteEnd>
    requires holder { HasHolder (content graph.now) }
    requires content { (h : ℕ) → IsHolder (content graph.now) h → AreSortedOf graph.now h pairs.now }
    requires names { ArePairs graph.now.arena pairs.now }
    ensures written { OnOk result (Appends (PairsOf canonical Amf3 (content graph.now)) out.old.items out.new.items) }
    ensures lack { (l : Lack) → IsErrOf result (WriteEnd.NoSpelling l) → IsHolderLack Amf3 (content graph.now) l.node l.kind }
{
    let made = WriterTables::keyed(alloc, keys)?;
    let mut tables = GraphTables::of(alloc, made);
    append_each3(alloc, graph, pairs, &mut tables, out)
}

/// Appends pairs in AMF 3: those of the graph, in the order of their names, by tables without entries.
fn append_each3(
    alloc: Global,
    graph: &Rooted,
    pairs: &[(TextId, Value)],
    tables: &mut GraphTables,
    out: &mut Vec<u8>,
) -> Result<(), WriteEnd>
    requires holder { HasHolder (content graph.now) }
    requires content { (h : ℕ) → IsHolder (content graph.now) h → AreSortedOf graph.now h pairs.now }
    requires names { ArePairs graph.now.arena pairs.now }
    requires empty { tables.old.tables ≡ no_tables }
    requires tables { AreTablesOf graph.now.arena tables.old }
    ensures written { OnOk result (Appends (PairsOf canonical Amf3 (content graph.now)) out.old.items out.new.items) }
    ensures lack { (l : Lack) → IsErrOf result (WriteEnd.NoSpelling l) → IsHolderLack Amf3 (content graph.now) l.node l.kind }
{
    for pair in pairs {
        append_pair3(alloc, graph, *pair, tables, out)?;
    }
    Ok(())
}

/// Appends the pairs in AMF 3.
fn append_pairs3(
    alloc: Global,
    keys: Option<RandomState>,
    graph: &Rooted,
    out: &mut Vec<u8>,
) -> Result<(), WriteEnd>
    requires { HasHolder (content graph.now) }
    ensures written { OnOk result (Appends (PairsOf canonical Amf3 (content graph.now)) out.old.items out.new.items) }
    ensures lack { (l : Lack) → IsErrOf result (WriteEnd.NoSpelling l) → IsHolderLack Amf3 (content graph.now) l.node l.kind }
{
    let pairs = sorted_pairs(alloc, graph)?;
    append_sorted3(alloc, keys, graph, pairs.as_slice(), out)
}

/// Appends a pair in AMF 0, by the tables of the file.
fn append_pair0(
    alloc: Global,
    low: &Rooted,
    pair: (TextId, Value),
    tables: &mut WriterTables,
    out: &mut Vec<u8>,
) -> Result<(), WriteEnd>
    requires low { IsLowered (content low.now) }
    requires name { IsTextId low.now.arena pair.0.0 }
    requires value { Names low.now.arena pair.1 }
    requires reached { IsReachedValue (content low.now) (value_content low.now.arena pair.1) }
    requires tables { AreTables0 (content low.now) (tables0 tables.old) }
    ensures written { OnOk result (AppendsBy (KeptPair0 low.now pair) (tables0 tables.old) (tables0 tables.new) out.old.items out.new.items) }
    ensures tables { OnOk result (AreTables0 (content low.now) (tables0 tables.new)) }
    ensures lack { (l : Lack) → IsErrOf result (WriteEnd.NoSpelling l) → IsKeptLack0 low.now pair (tables0 tables.old) l.node l.kind }
{
    low.is_finished();
    let (name, value) = pair;
    let text = low.text(name);
    if text.len() > MAX_SHORT {
        return Err(WriteEnd::NoSpelling(Lack {
            kind: LackKind::LongName,
            node: 0,
        }));
    }
    append_name(text, out)?;
    write0_part(alloc, low, value, tables, out)?;
    out.push(PAIR_END)?;
    Ok(())
}

/// Appends pairs in AMF 0: those of the lowered graph, in the order of their names. It stops at one that has no spelling.
fn append_sorted0(
    alloc: Global,
    low: &Rooted,
    pairs: &[(TextId, Value)],
    out: &mut Vec<u8>,
) -> Result<(), WriteEnd>
    requires holder { HasHolder (content low.now) }
    requires low { IsLowered (content low.now) }
    requires content { (h : ℕ) → IsHolder (content low.now) h → AreSortedOf low.now h pairs.now }
    requires names { ArePairs low.now.arena pairs.now }
    ensures written { OnOk result (Appends (PairsOf canonical Amf0 (content low.now)) out.old.items out.new.items) }
    ensures lack { (l : Lack) → IsErrOf result (WriteEnd.NoSpelling l) → LacksOutside (content low.now) 1 l.node l.kind }
{
    let mut tables = WriterTables::new(alloc)?;
    append_each0(alloc, low, pairs, &mut tables, out)
}

/// Appends pairs in AMF 0: those of the lowered graph, in the order of their names, by tables without entries, into which the
/// holder is entered. It stops at one that has no spelling.
fn append_each0(
    alloc: Global,
    low: &Rooted,
    pairs: &[(TextId, Value)],
    tables: &mut WriterTables,
    out: &mut Vec<u8>,
) -> Result<(), WriteEnd>
    requires holder { HasHolder (content low.now) }
    requires low { IsLowered (content low.now) }
    requires content { (h : ℕ) → IsHolder (content low.now) h → AreSortedOf low.now h pairs.now }
    requires names { ArePairs low.now.arena pairs.now }
    requires empty { tables.old ≡ no_tables }
    ensures written { OnOk result (Appends (PairsOf canonical Amf0 (content low.now)) out.old.items out.new.items) }
    ensures lack { (l : Lack) → IsErrOf result (WriteEnd.NoSpelling l) → LacksOutside (content low.now) 1 l.node l.kind }
{
    low.is_finished();
    tables.add_done(holder_of(low))?;
    for pair in pairs {
        append_pair0(alloc, low, *pair, tables, out)?;
    }
    Ok(())
}

/// Appends the pairs of a lowered graph in AMF 0, or tells the first lack of the graph.
fn append_pairs0(alloc: Global, low: &Rooted, out: &mut Vec<u8>) -> Result<(), WriteEnd>
    requires holder { HasHolder (content low.now) }
    requires low { IsLowered (content low.now) }
    ensures written { OnOk result (Appends (PairsOf canonical Amf0 (content low.now)) out.old.items out.new.items) }
    ensures lack { (l : Lack) → IsErrOf result (WriteEnd.NoSpelling l) → IsLackOutside (content low.now) 1 l.node l.kind }
{
    let pairs = sorted_pairs(alloc, low)?;
    match append_sorted0(alloc, low, pairs.as_slice(), out) {
        Err(WriteEnd::NoSpelling(_)) => match first_lack0(alloc, low, 1)? {
            Some(lack) => Err(WriteEnd::NoSpelling(lack)),
            None => unreachable!(),
        },
        result => result,
    }
}

/// Appends the pairs of a shared object in the format of its version. A lowering is a lowered graph (`lowering_is_lowered`).
pub(crate) fn append_pairs(
    alloc: Global,
    keys: Option<RandomState>,
    object: &SharedObject,
    out: &mut Vec<u8>,
) -> Result<(), WriteEnd>
    ensures written { OnOk result (Appends (HolderBy canonical object.now.version (content object.now.holder)) out.old.items out.new.items) }
    ensures lack { (l : Lack) → IsErrOf result (WriteEnd.NoSpelling l) → IsHolderLack object.now.version (content object.now.holder) l.node l.kind }
{
    object.is_stored();
    let holder = object.holder();
    match object.version() {
        SolVersion::Amf3 => append_pairs3(alloc, keys, holder, out),
        SolVersion::Amf0 => {
            let low = lower(alloc, holder)?;
            append_pairs0(alloc, &low, out)
        }
    }
}
