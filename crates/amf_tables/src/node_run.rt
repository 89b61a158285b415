ghost use Rattle.std.specs.Prelude.{◌≡◌, ◌++◌, ◌∷◌, [], length, map, take, slice_get, IfOk, OnOk, OnErr};
ghost use Rattle.std.specs.Option.{option_map};
ghost use Rattle.amf_tables.specs.TableParts.{node_number};

use amf_graph::NodeId;
use amf_wire::Memory;
use std::alloc::Global;
use std::marker::Model;

/// Nodes, in the order in which they were entered. The first ones are a run as long as each has the number behind that of
/// the node before it: of a run only its first number and its length are kept.
#[derive(Drop)]
pub(crate) struct NodeRun {
    first: u32,
    count: u32,
    /// The nodes behind the run.
    rest: Vec<NodeId>,
}

impl Model for NodeRun {
    ghost use Rattle.std.specs.Prelude.{◌+◌, ◌<◌, ◌^◌, ℕ, List};
    ghost use Rattle.amf_tables.specs.NodeRuns.{run_nodes};

    ghost Value = { List ℕ };

    ghost view = { λ r. run_nodes r.first r.count r.rest.items };

    ghost invariant = { λ r. r.first + r.count < 2 ^ 32 };
}

impl NodeRun {
    /// No nodes.
    pub(crate) fn new(alloc: Global) -> NodeRun
        ensures { result ≡ [] }
    {
        NodeRun {
            first: 0,
            count: 0,
            rest: Vec::new(alloc),
        }
    }

    /// How many nodes have been entered.
    pub(crate) fn len(&self) -> usize
        ensures { result ≡ length self.now }
    {
        self.count as usize + self.rest.len()
    }

    /// The first nodes that have been entered: so many, or all where there are fewer.
    pub(crate) fn first_nodes(&self, alloc: Global, count: u32) -> Result<Vec<NodeId>, Memory>
        ensures { IfOk result (λ nodes. map node_number nodes.items ≡ take count self.now) }
    {
        let mut nodes = Vec::new(alloc);
        for index in 0..count {
            match self.get(index) {
                Some(node) => nodes.push(node)?,
                None => return Ok(nodes),
            }
        }
        Ok(nodes)
    }

    /// The node that was entered at this place: `None` exactly past the last one. It takes no memory.
    pub(crate) fn get(&self, index: u32) -> Option<NodeId>
        ensures { option_map node_number result ≡ slice_get self.now index }
    {
        if index < self.count {
            return Some(NodeId(self.first + index));
        }
        self.rest.get((index - self.count) as usize).copied()
    }

    /// Enters a node. After an error nothing has changed.
    pub(crate) fn push(&mut self, node: NodeId) -> Result<(), Memory>
        ensures ok { OnOk result (self.new ≡ self.old ++ node.0 ∷ []) }
        ensures err { OnErr result (self.new ≡ self.old) }
    {
        if self.rest.is_empty() && node.0 < u32::MAX {
            if self.count == 0 {
                self.first = node.0;
                self.count = 1;
                return Ok(());
            }
            if node.0 == self.first + self.count {
                self.count += 1;
                return Ok(());
            }
        }
        self.rest.push(node)?;
        Ok(())
    }
}
