ghost use Rattle.std.specs.Prelude.{◌≡◌, ◌≤◌, ◌<◌, ◌+◌, ◌-◌, length, IfOk, OnOk, IsErrOf};
ghost use Rattle.std.specs.Prelude.{true, false};
ghost use Rattle.std.specs.List.{AllByRecursion};
ghost use Rattle.amf_graph.specs.Building.{no_arena};
ghost use Rattle.amf_graph.specs.Rooted.{content};
ghost use Rattle.amf_vectors.specs.Made.{made, number};
ghost use Rattle.amf_vectors.specs.Making.{making, reference};

use crate::numbers::{first, next};
use amf_graph::{BuildEnd, Builder, NodeId, Part, Rooted, Shape, TextId, TraitsId, Value};
use std::alloc::Global;

/// The most nodes of a graph that is made.
pub const MAX_SIZE: u32 = 1_000_000;

/// The array that holds all other nodes.
const ALL: NodeId = NodeId(0);
/// The traits of all objects.
const PLAIN: TraitsId = TraitsId(0);
/// The name of a key.
const KEY: TextId = TextId(1);
/// The name of a partner.
const PARTNER: TextId = TextId(2);

/// A graph of `size` nodes, 1 to [`MAX_SIZE`]: an array of objects that name each other, made of the numbers of a linear
/// congruential generator. It gives up where there is no memory, and is never `Full`.
pub fn make(alloc: Global, seed: u32, size: u32) -> Result<Rooted, BuildEnd>
    requires least { 1 ≤ size }
    requires most { size ≤ MAX_SIZE }
    ensures made { IfOk result (λ graph. content graph ≡ made seed size) }
    ensures memory { IsErrOf result BuildEnd.Full → ⊥ }
{
    let mut builder = Builder::new(alloc)?;
    build(&mut builder, seed, size)?;
    Ok(finished(builder))
}

/// Builds the array and its objects in a new builder.
fn build(builder: &mut Builder, seed: u32, size: u32) -> Result<(), BuildEnd>
    requires empty { builder.old ≡ no_arena }
    requires least { 1 ≤ size }
    requires most { size ≤ MAX_SIZE }
    ensures made { OnOk result (builder.new ≡ making false seed (size - 1)) }
    ensures memory { IsErrOf result BuildEnd.Full → ⊥ }
{
    begin(builder)?;
    let mut number = first(seed);
    for place in 1..size {
        number = next(number);
        let object = builder.open_node(Shape::Object(PLAIN))?;
        let key = Value::Integer((number / 65_536) as i32);
        builder.put(object, Part::Named(KEY, key))?;
        let partner = Value::Node(NodeId(number % (place + 1)));
        builder.put(object, Part::Named(PARTNER, partner))?;
        builder.close_node(object);
        builder.put(ALL, Part::Item(Value::Node(object)))?;
    }
    builder.close_node(ALL);
    Ok(())
}

/// Begins the array without its objects, with the traits and the names of all objects.
fn begin(builder: &mut Builder) -> Result<(), BuildEnd>
    requires { builder.old ≡ no_arena }
    ensures begun { OnOk result (builder.new ≡ making true 0 0) }
    ensures memory { IsErrOf result BuildEnd.Full → ⊥ }
{
    let class = builder.text(b"")?;
    builder.text(b"k")?;
    builder.text(b"p")?;
    builder.traits(class, true, &[])?;
    builder.open_node(Shape::Array)?;
    Ok(())
}

/// The graph of the array.
fn finished(builder: Builder) -> Rooted
    requires there { 0 < length builder.nodes }
    requires closed { AllByRecursion (λ n. n.is_open ≡ false) builder.nodes }
    ensures { result ≡ record { arena = builder; root = reference 0 } }
{
    match builder.finish(Value::Node(ALL)) {
        Ok(graph) => graph,
        Err(_) => unreachable!(),
    }
}
