ghost use Rattle.std.specs.Prelude.{◌≡◌, [], true, IfOk, OnOk, IsTrue};
ghost use Rattle.std.specs.List.Sorted.{IsSortedBy};
ghost use Rattle.amf_graph.specs.Arena.{Arena};
ghost use Rattle.amf_graph.specs.ByName.{before, by_name};
ghost use Rattle.amf_iso.specs.Contents.{pairs_of, ArePairs};
ghost use Rattle.amf_iso.specs.Remembered.{nothing_remembered, ids_of, placed, in_order, AreNumbersOf, AreInOrder};

use crate::pairs::{are_by_name, ids_by_name};
use amf_graph::{Rooted, TextId, Value};
use amf_wire::Memory;
use std::alloc::Global;
use std::marker::Model;
use std::mem;

/// The order of more names is not remembered.
const MOST_NAMES: usize = 256;

/// The names of the pairs that were put in order last, by the numbers of their contents, and their order. Where the next
/// pairs have the same names, as most records repeat those of the one before, no bytes are compared. Names of more than 256
/// pairs are not remembered.
///
/// What is remembered is right for one graph (`AreInOrder`).
pub struct LastOrder {
    alloc: Global,
    names: Vec<u32>,
    /// The names in order, each with its place among them.
    order: Vec<(TextId, usize)>,
    /// Room for pairs in order.
    room: Vec<(TextId, Value)>,
}

impl Drop for LastOrder {
    /// Lets its parts go. Written out, it is proved once; what is derived is proved at each place where one is let go.
    fn drop(self) {
        let LastOrder {
            alloc: _,
            names: _,
            order: _,
            room: _,
        } = self;
    }
}

impl Model for LastOrder {
    ghost use Rattle.amf_iso.specs.Remembered.{Remembered};

    ghost Value = { Remembered };

    ghost view = { λ o. record { names = o.names.items; order = o.order.items } };
}

/// Whether these are the numbers of the names of pairs.
fn are_names(names: &[u32], pairs: &[(TextId, Value)], graph: &Rooted) -> bool
    requires { ArePairs graph.now.arena pairs.now }
    ensures { result ≡ true → AreNumbersOf graph.now.arena (ids_of pairs.now) names.now }
{
    if names.len() != pairs.len() {
        return false;
    }
    for index in 0..names.len() {
        if names[index] != graph.text_number(pairs[index].0) {
            return false;
        }
    }
    true
}

/// Appends the numbers of the names of pairs to none.
fn push_names(pairs: &[(TextId, Value)], graph: &Rooted, names: &mut Vec<u32>) -> Result<(), Memory>
    requires pairs { ArePairs graph.now.arena pairs.now }
    requires empty { names.old.items ≡ [] }
    ensures { OnOk result (AreNumbersOf graph.now.arena (ids_of pairs.now) names.new.items) }
{
    for index in 0..pairs.len() {
        names.push(graph.text_number(pairs[index].0))?;
    }
    Ok(())
}

/// Appends the names of pairs to none, each with its place.
fn push_places(pairs: &[(TextId, Value)], places: &mut Vec<(TextId, usize)>) -> Result<(), Memory>
    requires { places.old.items ≡ [] }
    ensures { OnOk result (places.new.items ≡ placed 0 (ids_of pairs.now)) }
{
    for place in 0..pairs.len() {
        places.push((pairs[place].0, place))?;
    }
    Ok(())
}

/// Makes the order of the names of pairs from nothing.
fn push_order(
    pairs: &[(TextId, Value)],
    graph: &Rooted,
    order: &mut Vec<(TextId, usize)>,
) -> Result<(), Memory>
    requires { order.old.items ≡ [] }
    ensures { OnOk result (order.new.items ≡ in_order graph.now.arena (ids_of pairs.now)) }
{
    push_places(pairs, order)?;
    order.sort_by(|p, q| graph.compare_texts(p.0, q.0))?;
    Ok(())
}

/// Pairs in the order of names that have these numbers, as theirs do, in this room.
fn picked(
    mut sorted: Vec<(TextId, Value)>,
    names: &[u32],
    order: &[(TextId, usize)],
    pairs: &[(TextId, Value)],
    graph: &Rooted,
) -> Result<Vec<(TextId, Value)>, Memory>
    requires pairs { ArePairs graph.now.arena pairs.now }
    requires names { AreNumbersOf graph.now.arena (ids_of pairs.now) names.now }
    requires order { AreInOrder graph.now.arena (record { names = names.now; order = order.now }) }
    ensures content { IfOk result (λ sorted. pairs_of graph.now.arena sorted.items ≡ by_name (pairs_of graph.now.arena pairs.now)) }
    ensures names { IfOk result (λ sorted. ArePairs graph.now.arena sorted.items) }
{
    let _ = names;
    let _ = graph;
    sorted.clear();
    sorted.reserve(order.len())?;
    for (_, place) in order {
        sorted.push_reserved(pairs[*place]);
    }
    Ok(sorted)
}

impl LastOrder {
    /// Nothing is remembered.
    pub fn new(alloc: Global) -> LastOrder
        ensures nothing { result ≡ nothing_remembered }
        ensures order { (a : Arena) → AreInOrder a result }
    {
        LastOrder {
            alloc,
            names: Vec::new(alloc),
            order: Vec::new(alloc),
            room: Vec::new(alloc),
        }
    }

    /// Whether pairs are known to stand in the order of their names' bytes, so that `ids_by_name` would change nothing. Pairs
    /// of the names that are remembered are not looked at further. It takes no memory.
    pub fn are_by_name(&self, pairs: &[(TextId, Value)], graph: &Rooted) -> bool
        requires { ArePairs graph.now.arena pairs.now }
        ensures { IsTrue result → IsSortedBy before (pairs_of graph.now.arena pairs.now) }
    {
        if are_names(&self.names, pairs, graph) {
            return false;
        }
        are_by_name(pairs, graph)
    }

    /// Pairs in the order of their names' bytes, each name by its id; pairs of one name keep their order. Their names are
    /// remembered, where they are not too many. It gives up where there is no memory, and what is remembered is right for the graph then too.
    pub fn ids_by_name(
        &mut self,
        pairs: &[(TextId, Value)],
        graph: &Rooted,
    ) -> Result<Vec<(TextId, Value)>, Memory>
        requires pairs { ArePairs graph.now.arena pairs.now }
        requires order { AreInOrder graph.now.arena self.old }
        ensures content { IfOk result (λ sorted. pairs_of graph.now.arena sorted.items ≡ by_name (pairs_of graph.now.arena pairs.now)) }
        ensures names { IfOk result (λ sorted. ArePairs graph.now.arena sorted.items) }
        ensures order { AreInOrder graph.now.arena self.new }
    {
        if pairs.len() > MOST_NAMES {
            return ids_by_name(self.alloc, pairs, graph);
        }
        self.remember(pairs, graph)?;
        let room = mem::replace(&mut self.room, Vec::new(self.alloc));
        picked(room, &self.names, &self.order, pairs, graph)
    }

    /// Takes back what `ids_by_name` gave, as room for the next pairs.
    pub fn take_back(&mut self, sorted: Vec<(TextId, Value)>)
        ensures { self.new ≡ self.old }
    {
        if sorted.capacity() <= MOST_NAMES {
            self.room = sorted;
        }
    }

    /// Remembers the names of pairs and their order, if it does not do so yet.
    fn remember(&mut self, pairs: &[(TextId, Value)], graph: &Rooted) -> Result<(), Memory>
        requires pairs { ArePairs graph.now.arena pairs.now }
        requires order { AreInOrder graph.now.arena self.old }
        ensures names { OnOk result (AreNumbersOf graph.now.arena (ids_of pairs.now) self.new.names) }
        ensures order { AreInOrder graph.now.arena self.new }
    {
        if are_names(&self.names, pairs, graph) {
            return Ok(());
        }
        self.learn(pairs, graph)
    }

    /// Puts the names of pairs in order. After an error nothing is remembered.
    fn learn(&mut self, pairs: &[(TextId, Value)], graph: &Rooted) -> Result<(), Memory>
        requires { ArePairs graph.now.arena pairs.now }
        ensures names { OnOk result (AreNumbersOf graph.now.arena (ids_of pairs.now) self.new.names) }
        ensures order { AreInOrder graph.now.arena self.new }
    {
        let mut names = mem::replace(&mut self.names, Vec::new(self.alloc));
        let mut order = mem::replace(&mut self.order, Vec::new(self.alloc));
        names.clear();
        order.clear();
        push_names(pairs, graph, &mut names)?;
        push_order(pairs, graph, &mut order)?;
        self.names = names;
        self.order = order;
        Ok(())
    }
}
