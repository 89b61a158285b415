ghost use Rattle.std.specs.Prelude.{◌≡◌, ◌↔◌, ℕ, ◌<◌, ◌≤◌, ◌++◌, ◌∷◌, [], List, Bool, true, cond, length, map, take, slice_get, Some, IsTrue, IfOk, IfSome, IfNone, OnOk, OnErr};
ghost use Rattle.amf_graph.specs.Order.{Absent};
ghost use Rattle.amf_tables.specs.FirstPlace.{IsFirstPlace};
ghost use Rattle.amf_tables.specs.SpelledNodes.{AreSpelled};
ghost use Rattle.amf_tables.specs.TableParts.{node_number};

use crate::node_table::{MAX_NODES, NodeTable};
use amf_graph::NodeId;
use amf_wire::Memory;
use std::alloc::Global;
use std::marker::Model;

/// The nodes that were spelled: those of a writer's table, and those that no index can name.
#[derive(Drop)]
pub(crate) struct SpelledNodes {
    placed: NodeTable,
    /// Whether `done` has all of them in the order in which they were entered; else each has a place.
    split: bool,
    done: Vec<NodeId>,
    /// By number, whether a node was entered without a place.
    marks: Vec<bool>,
}

impl Model for SpelledNodes {
    ghost use Rattle.std.specs.Prelude.{cond, map};
    ghost use Rattle.amf_tables.specs.TableParts.{node_number};
    ghost use Rattle.amf_tables.specs.SpelledNodes.{Spelled, AreSpelled};

    ghost Value = { Spelled };

    ghost view = { λ s. record { nodes = s.placed; done = cond s.split (map node_number s.done.items) s.placed } };

    ghost invariant = { λ s. AreSpelled s.placed (cond s.split (map node_number s.done.items) s.placed) s.marks.items };
}

/// Makes room for the mark of a node. After an error there may be some room more.
fn make_room(marks: &mut Vec<bool>, index: usize) -> Result<(), Memory>
    ensures ok { OnOk result (index < length marks.new.items) }
    ensures spelled { (nodes done : List ℕ) → AreSpelled nodes done marks.old.items → AreSpelled nodes done marks.new.items }
{
    while marks.len() <= index {
        marks.push(false)?;
    }
    Ok(())
}

/// Whether the mark at this place is set.
fn is_marked(marks: &[bool], index: usize) -> bool
    ensures { IsTrue result ↔ (slice_get marks.now index ≡ Some true) }
{
    match marks.get(index) {
        Some(mark) => *mark,
        None => false,
    }
}

/// Keeps a list of all nodes from now on, and not only of those that have places.
#[tactic(auto, using(crate::proofs::SpelledNodes::list_begun))]
fn begin_list(
    alloc: Global,
    split: &mut bool,
    done: &mut Vec<NodeId>,
    placed: &NodeTable,
) -> Result<(), Memory>
    ensures ok { OnOk result (split.new ≡ true) }
    ensures same { cond split.new (map node_number done.new.items) placed.now ≡ cond split.old (map node_number done.old.items) placed.now }
{
    if !*split {
        *done = placed.first_nodes(alloc, placed.count())?;
        *split = true;
    }
    Ok(())
}

impl SpelledNodes {
    /// None yet.
    pub(crate) fn new(alloc: Global) -> SpelledNodes
        ensures nodes { result.nodes ≡ [] }
        ensures done { result.done ≡ [] }
    {
        SpelledNodes {
            placed: NodeTable::new(alloc),
            split: false,
            done: Vec::new(alloc),
            marks: Vec::new(alloc),
        }
    }

    /// How many have a place.
    pub(crate) fn count(&self) -> u32
        ensures count { result ≡ length self.now.nodes }
        ensures within { result ≤ MAX_NODES }
    {
        self.placed.count()
    }

    /// The first of those that have a place, in the order of their places: so many, or all where there are fewer.
    pub(crate) fn first_nodes(&self, alloc: Global, count: u32) -> Result<Vec<NodeId>, Memory>
        ensures { IfOk result (λ nodes. map (λ node. node.0) nodes.items ≡ take count self.now.nodes) }
    {
        self.placed.first_nodes(alloc, count)
    }

    /// The first place of a node: `None` exactly where it has none. It takes no memory.
    pub(crate) fn place_of(&self, node: NodeId) -> Option<u32>
        ensures first { IfSome result (IsFirstPlace self.now.nodes node.0) }
        ensures within { IfSome result (λ place. place < MAX_NODES) }
        ensures none { IfNone result (Absent self.now.nodes node.0) }
    {
        self.placed.place_of(node)
    }

    /// Whether each has a place.
    pub(crate) fn are_placed(&self) -> bool
        ensures { IsTrue result ↔ (self.now.done ≡ self.now.nodes) }
    {
        !self.split || self.done.len() <= self.placed.count() as usize
    }

    /// Whether a node was entered, and has no place.
    pub(crate) fn is_alone(&self, node: NodeId) -> bool
        ensures { IsTrue result ↔ (((k : ℕ) × (slice_get self.now.done k ≡ Some node.0)) × Absent self.now.nodes node.0) }
    {
        match self.placed.place_of(node) {
            Some(_) => false,
            None => is_marked(&self.marks, node.0 as usize),
        }
    }

    /// Enters a node with the next place. After an error nothing has changed.
    pub(crate) fn push(&mut self, node: NodeId) -> Result<(), Memory>
        ensures nodes { OnOk result (self.new.nodes ≡ self.old.nodes ++ node.0 ∷ []) }
        ensures done { OnOk result (self.new.done ≡ self.old.done ++ node.0 ∷ []) }
        ensures err { OnErr result (self.new ≡ self.old) }
    {
        if !self.split {
            self.placed.push(node)?;
            return Ok(());
        }
        self.done.push(node)?;
        match self.placed.push(node) {
            Ok(()) => Ok(()),
            Err(error) => {
                self.done.pop();
                Err(error)
            }
        }
    }

    /// Enters a node without a place. After an error nothing has changed.
    pub(crate) fn push_alone(&mut self, alloc: Global, node: NodeId) -> Result<(), Memory>
        ensures nodes { OnOk result (self.new.nodes ≡ self.old.nodes) }
        ensures done { OnOk result (self.new.done ≡ self.old.done ++ node.0 ∷ []) }
        ensures err { OnErr result (self.new ≡ self.old) }
    {
        let index = node.0 as usize;
        make_room(&mut self.marks, index)?;
        begin_list(alloc, &mut self.split, &mut self.done, &self.placed)?;
        self.done.push(node)?;
        self.marks[index] = true;
        Ok(())
    }
}
