ghost use Rattle.std.specs.Prelude.{◌≡◌, ℕ, ◌+◌, ◌<◌, true, false, length, IfOk};
ghost use Rattle.std.specs.List.{AllByRecursion};
ghost use Rattle.amf_graph.specs.Arena.{Names, value_content};
ghost use Rattle.amf_graph.specs.Graph as graph_of_values;
ghost use Rattle.amf_graph.specs.Graph.{node_at, IsPattern};
ghost use Rattle.amf_graph.specs.Rooted.{RootedArena, content};
ghost use Rattle.amf_wire.specs.Integer.{IsInteger};
ghost use Rattle.amf_wire.specs.Whole.{IsPatternOf};
ghost use Rattle.amf0_spelling.specs.Lowered.{is_wrapper, wraps, unwrapped};
ghost use Rattle.amf0_write.specs.Chained.{AreAfter, IsFurther, AreUnwrapped, AreChainEnds, IsLowEnd, HasNoWrapper, AreLow};

use amf_graph::{NodeId, NodeKind, NodeView, Rooted, Value};
use amf_wire::{Memory, Pattern, pattern_of};
use std::alloc::Global;

/// Whether a node is a wrapper.
fn is_wrapper(node: NodeId, graph: &Rooted) -> bool
    requires { node.0 < length graph.now.arena.nodes }
    ensures { result ≡ is_wrapper (node_at (content graph.now) node.0).head }
{
    match graph.kind_of(node) {
        NodeKind::Wrapper => true,
        _ => false,
    }
}

/// What a wrapper wraps; any other node itself.
fn unwrapped(node: NodeId, graph: &Rooted) -> Value
    requires { node.0 < length graph.now.arena.nodes }
    ensures content { value_content graph.now.arena result ≡ unwrapped (content graph.now) (graph_of_values.node node.0) }
    ensures names { Names graph.now.arena result }
{
    graph.is_finished();
    if !is_wrapper(node, graph) {
        return Value::Node(node);
    }
    match graph.node(node) {
        NodeView::Wrapper { value, .. } => value,
        _ => Value::Node(node),
    }
}

/// Whether a value is a wrapper.
fn wraps(value: Value, graph: &Rooted) -> bool
    requires { Names graph.now.arena value }
    ensures { result ≡ wraps (content graph.now) (value_content graph.now.arena value) }
{
    match value {
        Value::Node(node) => is_wrapper(node, graph),
        _ => false,
    }
}

/// For each node the value one step on.
fn first_steps(alloc: Global, graph: &Rooted) -> Result<Vec<Value>, Memory>
    ensures { IfOk result (λ ends. AreAfter graph.now 1 ends.items) }
{
    graph.is_finished();
    let mut ends = Vec::new(alloc);
    for number in 0..graph.node_count() {
        ends.push(unwrapped(NodeId(number), graph))?;
    }
    Ok(ends)
}

/// The value as many steps on as the ends of the nodes are.
fn further(value: Value, ends: &[Value]) -> Value
    requires { (g : RootedArena) × (length ends.now ≡ length g.arena.nodes) × Names g.arena value }
    ensures names { (g : RootedArena) (steps : ℕ) → AreAfter g steps ends.now → Names g.arena value → Names g.arena result }
    ensures content { IsFurther ends.now value result }
{
    match value {
        Value::Node(node) => ends[node.0 as usize],
        _ => value,
    }
}

/// For each node the value twice as many steps on.
fn doubled(alloc: Global, ends: &[Value]) -> Result<Vec<Value>, Memory>
    requires { (g : RootedArena) × (steps : ℕ) × AreAfter g steps ends.now }
    ensures { (g : RootedArena) (steps : ℕ) → AreAfter g steps ends.now → IfOk result (λ doubled. AreAfter g (steps + steps) doubled.items) }
{
    let mut doubled = Vec::new(alloc);
    for end in ends {
        doubled.push(further(*end, ends))?;
    }
    Ok(doubled)
}

/// Whether one of the values is a wrapper.
fn lead_on(ends: &[Value], graph: &Rooted) -> bool
    requires { AllByRecursion (Names graph.now.arena) ends.now }
    ensures { result ≡ false → AreUnwrapped graph.now ends.now }
{
    for end in ends {
        if wraps(*end, graph) {
            return true;
        }
    }
    false
}

/// For each node the value at which its chain of wrappers ends. Where that is a wrapper, the chain never ends: it is longer
/// than there are nodes.
fn chain_ends(alloc: Global, graph: &Rooted) -> Result<Vec<Value>, Memory>
    ensures { IfOk result (λ ends. AreChainEnds graph.now ends.items) }
{
    graph.is_finished();
    let mut ends = first_steps(alloc, graph)?;
    let mut steps: u32 = 1;
    while steps < graph.node_count() && lead_on(&ends, graph) {
        ends = doubled(alloc, &ends)?;
        steps += steps;
    }
    Ok(ends)
}

/// The double that is this integer.
pub(crate) fn double_of(integer: i32) -> Pattern
    requires { IsInteger integer }
    ensures pattern { IsPatternOf result.0 integer }
    ensures fits { IsPattern result.0 }
{
    match pattern_of(integer as i64) {
        Some(pattern) => pattern,
        None => unreachable!(),
    }
}

/// What the end of a chain is in a lowered graph.
fn low(end: Value, graph: &Rooted) -> Value
    requires { Names graph.now.arena end }
    ensures names { Names graph.now.arena result }
    ensures low { IsLowEnd graph.now end result }
{
    if wraps(end, graph) {
        return Value::Null;
    }
    match end {
        Value::Integer(integer) => Value::Double(double_of(integer)),
        _ => end,
    }
}

/// Whether any node is a wrapper.
fn has_wrapper(graph: &Rooted) -> bool
    ensures { result ≡ false → HasNoWrapper graph.now }
{
    for number in 0..graph.node_count() {
        if is_wrapper(NodeId(number), graph) {
            return true;
        }
    }
    false
}

/// For each node itself, where none is a wrapper.
fn all_themselves(alloc: Global, graph: &Rooted) -> Result<Vec<Value>, Memory>
    requires { HasNoWrapper graph.now }
    ensures { IfOk result (λ ins. AreLow graph.now ins.items) }
{
    let count = graph.node_count();
    let mut stand_ins = Vec::with_capacity(alloc, count as usize)?;
    for number in 0..count {
        stand_ins.push(Value::Node(NodeId(number)))?;
    }
    Ok(stand_ins)
}

/// For each node what it is in a lowered graph: itself, or for a wrapper what its chain ends in. A chain of so many wrappers
/// takes as many turns as its length has binary digits.
pub(crate) fn stand_ins(alloc: Global, graph: &Rooted) -> Result<Vec<Value>, Memory>
    ensures { IfOk result (λ ins. AreLow graph.now ins.items) }
{
    if !has_wrapper(graph) {
        return all_themselves(alloc, graph);
    }
    let ends = chain_ends(alloc, graph)?;
    let mut stand_ins = Vec::new(alloc);
    for end in &ends {
        stand_ins.push(low(*end, graph))?;
    }
    Ok(stand_ins)
}
