use crate::checks::holds;
use amf_graph::{NodeId, NodeView, Rooted, Value};
use amf_vectors::{make, vectors};
use std::process::Abort;

/// The first value among the members of an object.
fn first_member(graph: &Rooted, place: u32) -> Option<Value> {
    if place >= graph.node_count() {
        return None;
    }
    let NodeView::Object { members, .. } = graph.node(NodeId(place)) else {
        return None;
    };
    let (_, value) = members.first()?;
    Some(*value)
}

fn is_made(rt: &impl Abort, graph: &Rooted) {
    holds(rt, graph.root() == Value::Node(NodeId(0)), "the root");
    holds(rt, graph.node_count() == 3, "how many nodes");
    holds(
        rt,
        first_member(graph, 1) == Some(Value::Integer(16_838)),
        "the first",
    );
    holds(
        rt,
        first_member(graph, 2) == Some(Value::Integer(5_758)),
        "the second",
    );
}

#[test]
fn an_array_and_two_objects(rt: HostRuntime) {
    let graph = make(rt.alloc(), 1, 3).expect(&rt, "a graph");
    is_made(&rt, &graph);
}

#[test]
fn vectors_of_both_kinds(rt: HostRuntime) {
    let mut canonical = 0u32;
    for vector in vectors() {
        if vector.input == vector.output {
            canonical = canonical.wrapping_add(1);
        }
    }
    holds(&rt, canonical == 18, "how many are canonical");
}
