use crate::read0::read_into0;
use crate::read3::read_into3;
use crate::reading::Reading;
use amf_graph::{Builder, NodeId, Rooted, Value};
use amf_io::ReadEnd;
use amf_wire::Memory;
use std::alloc::Global;

/// Why bytes give no graph.
#[derive(Clone, Copy, Debug, PartialEq, Eq)]
pub enum NoGraph {
    /// No value is read of them.
    Read(ReadEnd),
    /// A node was left open.
    Open,
    /// The graph has no such node.
    NoNode,
}

impl From<Memory> for NoGraph {
    fn from(_end: Memory) -> NoGraph {
        NoGraph::Read(ReadEnd::Memory)
    }
}

impl From<ReadEnd> for NoGraph {
    fn from(end: ReadEnd) -> NoGraph {
        NoGraph::Read(end)
    }
}

/// The graph that these bytes of AMF 3 spell.
pub fn graph3(alloc: Global, bytes: &[u8]) -> Result<Rooted, NoGraph> {
    let mut builder = Builder::new(alloc)?;
    let root = read_into3(alloc, bytes, &Reading::cut_at(100_000, 0), &mut builder)?;
    builder.finish(root).map_err(|_| NoGraph::Open)
}

/// The graph that these bytes of AMF 0 spell.
pub fn graph0(alloc: Global, bytes: &[u8]) -> Result<Rooted, NoGraph> {
    let mut builder = Builder::new(alloc)?;
    let read = read_into0(alloc, bytes, &Reading::cut_at(100_000, 0), &mut builder)?;
    builder.finish(read.value).map_err(|_| NoGraph::Open)
}

/// The same graph from this node, which may lead to fewer nodes.
pub fn rooted_at(graph: Rooted, node: u32) -> Result<Rooted, NoGraph> {
    if node < graph.node_count() {
        Ok(graph.rooted_at(Value::Node(NodeId(node))))
    } else {
        Err(NoGraph::NoNode)
    }
}
