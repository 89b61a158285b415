ghost use Rattle.std.specs.Prelude.{◌≡◌, ℕ, ◌<◌, ◌≤◌, ◌++◌, ◌∷◌, [], List, length, map, take, IfOk, IfSome, IfNone, OnOk, OnErr};
ghost use Rattle.amf_graph.specs.Order.{Absent};
ghost use Rattle.amf_tables.specs.FirstPlace.{IsFirstPlace};
ghost use Rattle.amf_tables.specs.NodePlaces.{ArePlacesOf};

use crate::node_run::NodeRun;
use amf_graph::NodeId;
use amf_wire::Memory;
use std::alloc::Global;
use std::marker::Model;

/// The table of nodes has at most this many, so that a header can name each of them (1.3.1).
pub(crate) const MAX_NODES: usize = 268_435_456;

/// What stands in `places` for a node that has no place.
const NONE: u32 = 4_294_967_295;

/// The nodes of a writer's tables, in the order of their places, with the first place of each number.
#[derive(Drop)]
pub(crate) struct NodeTable {
    nodes: NodeRun,
    /// So many of the first nodes have their numbers for their places: 0, 1, 2 and on.
    own: u32,
    /// The first places of the other numbers: that of the number `own` stands first.
    places: Vec<u32>,
}

impl Model for NodeTable {
    ghost use Rattle.std.specs.Prelude.{◌≤◌, ℕ, List, length};
    ghost use Rattle.amf_tables.specs.NodePlaces.{ArePlacesOf};
    ghost use Rattle.amf_tables.specs.declared.node_table.TheConstants.{MAX_NODES};

    ghost Value = { List ℕ };

    ghost view = { λ t. t.nodes };

    ghost invariant = { λ t. (length t.nodes ≤ MAX_NODES) × ArePlacesOf t.own t.nodes t.places.items };
}

/// Makes room for the place of a node. After an error there may be some room more.
fn make_room(places: &mut Vec<u32>, index: usize) -> Result<(), Memory>
    ensures ok { OnOk result (index < length places.new.items) }
    ensures placed { (own : ℕ) (nodes : List ℕ) → ArePlacesOf own nodes places.old.items → ArePlacesOf own nodes places.new.items }
{
    while places.len() <= index {
        places.push(NONE)?;
    }
    Ok(())
}

impl NodeTable {
    /// A table without entries.
    pub(crate) fn new(alloc: Global) -> NodeTable
        ensures { result ≡ [] }
    {
        NodeTable {
            nodes: NodeRun::new(alloc),
            own: 0,
            places: Vec::new(alloc),
        }
    }

    /// How many nodes have been entered.
    pub(crate) fn count(&self) -> u32
        ensures count { result ≡ length self.now }
        ensures within { result ≤ MAX_NODES }
    {
        self.nodes.len() as u32
    }

    /// The first nodes that have been entered, in the order of their places: so many, or all where there are fewer.
    pub(crate) fn first_nodes(&self, alloc: Global, count: u32) -> Result<Vec<NodeId>, Memory>
        ensures { IfOk result (λ nodes. map (λ node. node.0) nodes.items ≡ take count self.now) }
    {
        self.nodes.first_nodes(alloc, count)
    }

    /// The first place of a node: `None` exactly where it has none. It takes no memory.
    pub(crate) fn place_of(&self, node: NodeId) -> Option<u32>
        ensures first { IfSome result (IsFirstPlace self.now node.0) }
        ensures within { IfSome result (λ place. place < MAX_NODES) }
        ensures none { IfNone result (Absent self.now node.0) }
    {
        if node.0 < self.own {
            return Some(node.0);
        }
        let place = *self.places.get((node.0 - self.own) as usize)?;
        if place == NONE { None } else { Some(place) }
    }

    /// Enters a node. After an error nothing has changed.
    #[inline(always)]
    pub(crate) fn push(&mut self, node: NodeId) -> Result<(), Memory>
        ensures ok { OnOk result (self.new ≡ self.old ++ node.0 ∷ []) }
        ensures err { OnErr result (self.new ≡ self.old) }
    {
        let place = self.nodes.len();
        if place >= MAX_NODES {
            return Err(Memory);
        }
        if node.0 < self.own {
            self.nodes.push(node)?;
            return Ok(());
        }
        if node.0 == self.own && place == self.own as usize {
            self.nodes.push(node)?;
            self.own += 1;
            return Ok(());
        }
        let index = (node.0 - self.own) as usize;
        make_room(&mut self.places, index)?;
        self.nodes.push(node)?;
        if self.places[index] == NONE {
            self.places[index] = place as u32;
        }
        Ok(())
    }
}
