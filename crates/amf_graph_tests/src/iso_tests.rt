ghost use Rattle.std.specs.Prelude.{◌≡◌, length};

use crate::checks::holds;
use crate::graph_tests::of_two_texts;
use amf_fixtures::{graph3, rooted_at};
use amf_graph::{NodeId, Rooted, TextId, Value};
use amf_iso::{
    LastOrder, Numbering, are_by_name, by_name, ids_by_name, isomorphic, relabel, values_met,
};
use std::alloc::Global;
use std::process::Abort;

/// An array whose names are not in order: they are those of the nodes 1 and 2, and node 3 is its item.
const OUT_OF_ORDER: &[u8] = b"\x09\x03\x03b\x09\x01\x01\x03a\x09\x01\x01\x01\x09\x01\x01";

/// An array that leads to node 1, an array that leads back to itself.
const TO_A_RING: &[u8] = b"\x09\x03\x01\x09\x03\x01\x09\x02";

/// Numbers, and the nodes that are out of order.
static NUMBERED: [(u32, NodeId); 4] = [
    (0, NodeId(0)),
    (1, NodeId(2)),
    (2, NodeId(1)),
    (3, NodeId(3)),
];

/// Checks which node has a number.
fn is_numbered(rt: &impl Abort, numbering: &Numbering, number: u32, node: NodeId) {
    assert!(rt; number < numbering.count());
    holds(
        rt,
        numbering.node_at(number) == node,
        "the node at a number",
    );
    holds(
        rt,
        numbering.number_of(node) == Some(number),
        "the number of a node",
    );
}

fn are_numbered(rt: &impl Abort, numbering: &Numbering) {
    holds(rt, numbering.count() == 4, "the count");
    for (number, node) in NUMBERED.iter() {
        is_numbered(rt, numbering, *number, *node);
    }
}

fn numbers_in_order(rt: &impl Abort, alloc: Global, graph: &Rooted) {
    let numbering = Numbering::of(alloc, graph).expect(rt, "an order");
    are_numbered(rt, &numbering);
}

/// The graph with its nodes in their order.
fn relabelled(rt: &impl Abort, alloc: Global, graph: &Rooted) -> Rooted {
    let numbering = Numbering::of(alloc, graph).expect(rt, "an order");
    relabel(alloc, graph, &numbering).expect(rt, "a graph")
}

fn relabels_in_order(rt: &impl Abort, alloc: Global, graph: &Rooted) {
    let other = relabelled(rt, alloc, graph);
    holds(rt, other.node_count() == 4, "as many nodes");
    holds(rt, other.root() == Value::Node(NodeId(0)), "the root");
    let alike = isomorphic(alloc, graph, &other).expect(rt, "memory");
    holds(rt, alike, "alike");
}

#[test]
fn names_go_in_order(rt: HostRuntime) {
    let graph = graph3(rt.alloc(), OUT_OF_ORDER).expect(&rt, "a graph");
    numbers_in_order(&rt, rt.alloc(), &graph);
    relabels_in_order(&rt, rt.alloc(), &graph);
}

/// Nodes, each with its number if it is reached.
static REACHED: [(NodeId, Option<u32>); 3] = [
    (NodeId(1), Some(0)),
    (NodeId(0), None),
    (NodeId(2), None),
];

/// Checks the number of each node.
fn has_numbers(rt: &impl Abort, numbering: &Numbering) {
    holds(rt, numbering.count() == 1, "the count");
    for (node, number) in REACHED.iter() {
        let found = numbering.number_of(*node);
        holds(rt, found == *number, "the number of a node");
    }
}

fn numbers_what_is_reached(rt: &impl Abort, alloc: Global, ring: &Rooted) {
    let numbering = Numbering::of(alloc, ring).expect(rt, "an order");
    has_numbers(rt, &numbering);
}

/// The values that are met at node 0.
fn met_at_first(rt: &impl Abort, alloc: Global, graph: &Rooted) -> Vec<Value> {
    assert!(rt; graph.node_count() > 0, "a node");
    values_met(alloc, NodeId(0), graph).expect(rt, "memory")
}

fn meets_the_values_of_a_node(rt: &impl Abort, alloc: Global, ring: &Rooted) {
    let met = met_at_first(rt, alloc, ring);
    holds(
        rt,
        met.as_slice() == [Value::Node(NodeId(1))].as_slice(),
        "the values",
    );
}

fn is_not_the_array(rt: &impl Abort, alloc: Global, ring: &Rooted) {
    let other = graph3(alloc, OUT_OF_ORDER).expect(rt, "a graph");
    let alike = isomorphic(alloc, ring, &other).expect(rt, "memory");
    holds(rt, !alike, "another graph");
}

/// The ring, whose graph has the array that leads to it too.
#[test]
fn a_ring_is_reached_alone(rt: HostRuntime) {
    let whole = graph3(rt.alloc(), TO_A_RING).expect(&rt, "a graph");
    let ring = rooted_at(whole, 1).expect(&rt, "a node");
    holds(&rt, ring.node_count() == 2, "two nodes");
    numbers_what_is_reached(&rt, rt.alloc(), &ring);
    meets_the_values_of_a_node(&rt, rt.alloc(), &ring);
    is_not_the_array(&rt, rt.alloc(), &ring);
}

/// The texts b and a, each with null.
const PAIRS: [(TextId, Value); 2] = [(TextId(0), Value::Null), (TextId(1), Value::Null)];

fn sorts_pairs_by_name(rt: &impl Abort, alloc: Global, graph: &Rooted)
    requires { length graph.now.arena.texts ≡ 2 }
{
    let sorted = by_name(alloc, &PAIRS, graph).expect(rt, "memory");
    let wanted = [(b"a".as_slice(), Value::Null), (b"b", Value::Null)];
    holds(rt, sorted.as_slice() == wanted.as_slice(), "pairs by name");
}

fn sorts_ids_by_name(rt: &impl Abort, alloc: Global, graph: &Rooted)
    requires { length graph.now.arena.texts ≡ 2 }
{
    holds(rt, !are_by_name(&PAIRS, graph), "not in order");
    let ids = ids_by_name(alloc, &PAIRS, graph).expect(rt, "memory");
    let wanted = [(TextId(1), Value::Null), (TextId(0), Value::Null)];
    holds(rt, ids.as_slice() == wanted.as_slice(), "texts by name");
    holds(rt, are_by_name(&ids, graph), "in order");
}

/// The second time the order is the one that is remembered.
fn remembers_the_order(rt: &impl Abort, alloc: Global, graph: &Rooted)
    requires { length graph.now.arena.texts ≡ 2 }
{
    let mut last = LastOrder::new(alloc);
    let wanted = [(TextId(1), Value::Null), (TextId(0), Value::Null)];
    let first = last.ids_by_name(&PAIRS, graph).expect(rt, "memory");
    holds(rt, first.as_slice() == wanted.as_slice(), "learned");
    holds(rt, !last.are_by_name(&PAIRS, graph), "known");
    last.take_back(first);
    let second = last.ids_by_name(&PAIRS, graph).expect(rt, "memory");
    holds(rt, second.as_slice() == wanted.as_slice(), "remembered");
}

#[test]
fn sorts_by_name(rt: HostRuntime) {
    let graph = of_two_texts(&rt, rt.alloc(), b"b", b"a");
    sorts_pairs_by_name(&rt, rt.alloc(), &graph);
    sorts_ids_by_name(&rt, rt.alloc(), &graph);
    remembers_the_order(&rt, rt.alloc(), &graph);
}
