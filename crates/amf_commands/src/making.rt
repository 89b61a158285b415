ghost use Rattle.std.specs.Prelude.{◌≡◌, ◌≤◌, List, length, IfOk};
ghost use Rattle.amf_io.specs.Field.{Field};
ghost use Rattle.amf_graph.specs.Reached.{IsNamed};
ghost use Rattle.amf_graph.specs.Rooted.{content};
ghost use Rattle.amf3_spelling.specs.Spells3.{Spelled3};
ghost use Rattle.amf_vectors.specs.Made.{made};
ghost use Rattle.amf_wire.specs.Style.{free, canonical as canon};
ghost use Rattle.amf_commands.specs.declared.content.Content.TheVariants as kept;
ghost use Rattle.amf_commands.specs.declared.format.Format.TheVariants.{Amf3};
ghost use Rattle.amf_commands.specs.Content.{content_of};
ghost use Rattle.amf_commands.specs.Formats.{IsSpelling};
ghost use Rattle.amf_commands.specs.Input.{most};
ghost use Rattle.amf_commands.specs.Run.{IsMeasured};

use crate::content::Content;
use crate::format::Format;
use crate::lines::measure_line;
use crate::reading::{LIMIT, read_in_format};
use crate::run_end::RunEnd;
use crate::spelling::spell3;
use amf_graph::{BuildEnd, Rooted, WriteEnd};
use amf_io::FaultlessSource;
use amf_iso::isomorphic;
use amf_vectors::make;
use amf_wire::Memory;
use std::alloc::Global;
use std::hash::RandomState;

/// The line that measures the graph that is made of a seed and a size: how many nodes it has, how many bytes its canonical
/// spelling in AMF 3 has, and the sum of these.
///
/// A spelling that is no longer than an input may be is read again, and gives the graph back.
pub fn measurement(
    alloc: Global,
    keys: Option<RandomState>,
    seed: u32,
    size: u32,
) -> Result<Vec<u8>, Memory>
    requires least { 1 ≤ size }
    requires most { size ≤ 1000000 }
    ensures { IfOk result (λ line. IsMeasured (made seed size) line.items) }
{
    let graph = made_graph(alloc, seed, size)?;
    measured(alloc, keys, &graph)
}

/// The line that measures a graph without empty names.
fn measured(alloc: Global, keys: Option<RandomState>, graph: &Rooted) -> Result<Vec<u8>, Memory>
    requires { IsNamed (content graph.now) }
    ensures { IfOk result (λ line. IsMeasured (content graph.now) line.items) }
{
    let bytes = canonical(alloc, keys, graph)?;
    if bytes.len() <= LIMIT as usize {
        read_back(alloc, graph, &bytes)?;
    }
    Ok(measure_line(alloc, graph.node_count(), &bytes)?)
}

/// The graph that is made of a seed and a size.
fn made_graph(alloc: Global, seed: u32, size: u32) -> Result<Rooted, Memory>
    requires least { 1 ≤ size }
    requires most { size ≤ 1000000 }
    ensures { IfOk result (λ graph. content graph ≡ made seed size) }
{
    match make(alloc, seed, size) {
        Ok(graph) => Ok(graph),
        Err(BuildEnd::Memory) => Err(Memory),
        Err(BuildEnd::Full) => unreachable!(),
    }
}

/// The canonical spelling in AMF 3 of a graph without empty names.
fn canonical(alloc: Global, keys: Option<RandomState>, graph: &Rooted) -> Result<Vec<u8>, Memory>
    requires { IsNamed (content graph.now) }
    ensures { IfOk result (λ bytes. Spelled3 canon (content graph.now) bytes.items) }
{
    match spell3(alloc, keys, graph) {
        Ok(bytes) => Ok(bytes),
        Err(WriteEnd::Memory) => Err(Memory),
        Err(WriteEnd::NoSpelling(_)) => unreachable!(),
    }
}

/// Reads the canonical spelling of a graph, and finds the graph in it.
fn read_back(alloc: Global, graph: &Rooted, bytes: &[u8]) -> Result<(), Memory>
    requires spelled { Spelled3 canon (content graph.now) bytes.now }
    requires within { length bytes.now ≤ most }
{
    let mut source = FaultlessSource::new(alloc, bytes, bytes.len(), 0)?;
    let read = match read_in_format(alloc, None, Format::Amf3, &mut source) {
        Ok(read) => read,
        Err(end) => return Err(only_memory(end)),
    };
    let copy = only_value(read);
    if isomorphic(alloc, graph, &copy)? {
        Ok(())
    } else {
        unreachable!()
    }
}

/// The graph of what was read in AMF 3.
fn only_value(read: Content) -> Rooted
    requires { (fs : List Field) × IsSpelling Amf3 free (content_of read) fs }
    ensures { read ≡ kept.Value result }
{
    match read {
        Content::Value(graph) => graph,
        Content::Packet(_) | Content::File(_) => unreachable!(),
    }
}

/// The one end of which nothing says when it comes.
fn only_memory(_end: RunEnd) -> Memory
    requires { _end ≡ RunEnd.NoMemory }
{
    Memory
}
