ghost use Rattle.std.specs.Prelude.{◌≡◌, ◌<◌, ℕ, length, slice_get, Some, IfOk, MatchOption};
ghost use Rattle.amf_graph.specs.Order.{Absent, IsOrder, IsDistinct};
ghost use Rattle.amf_graph.specs.Renumbered.{numbers_of};
ghost use Rattle.amf_graph.specs.Rooted.{content};
ghost use Rattle.amf_iso.specs.Numbers.{HasReached};

use crate::LastOrder;
use crate::waiting::{push_met, push_node};
use amf_graph::{NodeId, Rooted};
use amf_wire::Memory;
use std::alloc::Global;
use std::marker::Model;

/// The nodes to which a graph's root leads, in canonical order: each at its first meeting and before its parts.
pub struct Numbering {
    nodes: Vec<NodeId>,
    /// The number of each node of the graph that was met.
    numbers: Vec<Option<u32>>,
}

impl Drop for Numbering {
    /// Lets its parts go. Written out, it is proved once; what is derived is proved at each place where one is let go.
    fn drop(self) {
        let Numbering {
            nodes: _,
            numbers: _,
        } = self;
    }
}

impl Model for Numbering {
    ghost use Rattle.std.specs.Prelude.{ℕ, List};
    ghost use Rattle.amf_graph.specs.Renumbered.{numbers_of};
    ghost use Rattle.amf_iso.specs.Numbers.{AreNumbers};

    ghost Value = { List ℕ };

    ghost view = { λ n. numbers_of n.nodes.items };

    ghost invariant = { λ n. AreNumbers (numbers_of n.nodes.items) n.numbers.items };
}

impl Numbering {
    /// Numbers the nodes to which the root leads, each of them once. It gives up where there is no memory.
    pub fn of(alloc: Global, graph: &Rooted) -> Result<Numbering, Memory>
        ensures order { IfOk result (λ n. IsOrder (content graph.now) n) }
        ensures once { IfOk result (λ n. IsDistinct n) }
        ensures reached { IfOk result (λ n. HasReached (content graph.now) n) }
    {
        graph.is_finished();
        let mut nodes = Vec::new(alloc);
        let mut numbers = vec![in alloc; None; graph.node_count() as usize]?;
        let mut order = LastOrder::new(alloc);
        let mut waiting = Vec::new(alloc);
        push_node(graph.root(), &mut waiting)?;
        while let Some(node) = waiting.pop() {
            if numbers[node.0 as usize].is_none() {
                numbers[node.0 as usize] = Some(nodes.len() as u32);
                nodes.push(node)?;
                push_met(node, graph, &mut order, &mut waiting)?;
            }
        }
        Ok(Numbering { nodes, numbers })
    }

    /// How many nodes have a number.
    pub fn count(&self) -> u32
        ensures { result ≡ length self.now }
    {
        self.nodes.len() as u32
    }

    /// The node with this number, which is below `count`.
    pub fn node_at(&self, number: u32) -> NodeId
        requires { number < length self.now }
        ensures { slice_get self.now number ≡ Some result.0 }
    {
        self.nodes[number as usize]
    }

    /// The nodes in the order of their numbers.
    pub(crate) fn nodes(&self) -> &[NodeId]
        ensures { numbers_of result.now ≡ self.now }
    {
        self.nodes.as_slice()
    }

    /// The number of a node, if the root leads to it.
    pub fn number_of(&self, node: NodeId) -> Option<u32>
        ensures number { MatchOption result (Absent self.now node.0) (λ n. slice_get self.now n ≡ Some node.0) }
        ensures alone { (n k : ℕ) → result ≡ Some n → slice_get self.now k ≡ Some node.0 → k ≡ n }
    {
        self.numbers.get(node.0 as usize).copied().flatten()
    }
}
