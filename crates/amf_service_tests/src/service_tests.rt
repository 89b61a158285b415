ghost use Rattle.std.specs.Prelude.{◌≡◌, ◌≤◌, ◌<◌, true, false, [], bytes_eq, codes, length, pos, IfOk, OnOk};
ghost use Rattle.std.specs.List.{AllByRecursion};
ghost use Rattle.amf_graph.specs.Arena.{Names as NamesIn, array};
ghost use Rattle.amf_graph.specs.Bounds.{weight};
ghost use Rattle.amf_graph.specs.Building.{no_arena, kept_text, kept_node, closed};
ghost use Rattle.amf_graph.specs.Graph.{leaf, integer};
ghost use Rattle.amf_graph.specs.declared.value.Value.TheVariants.{Node};
ghost use Rattle.amf_service.specs.Meaning.{result as Gave, heaviest_arguments};
ghost use Rattle.amf_service.specs.Shipped.{items_of, or_fault};

use crate::checks::holds;
use amf_graph::{BuildEnd, Builder, NodeId, Part, Rooted, Shape, TextId, Value};
use amf_service::{
    CallEnd, Echo, Names, Registry, RegistryEnd, Service, ServiceEnd, Sum, fault, is_named, items,
    service_laws, service_rows,
};
use amf_wire::{Name, Pattern, is_amf_text};
use std::alloc::Global;
use std::process::Abort;

/// How many items there are.
fn count_of(items: &[Value]) -> i32
    requires { length items.now < heaviest_arguments }
    ensures { result ≡ pos (length items.now) }
{
    items.len() as i32
}

/// The operation `count` gives the number of its arguments.
#[derive(Drop)]
struct Count;

impl Service for Count {
    ghost knows = { λ _. bytes_eq (codes "count") };

    ghost gives = { λ _ operation args. or_fault (items_of args) (λ vs. Gave (record { nodes = []; root = leaf (integer (pos (length vs))) })) };

    fn answers(
        &self,
        alloc: Global,
        operation: &Name,
        args: &Rooted,
    ) -> Result<Rooted, ServiceEnd> {
        if !is_named(operation, b"count") {
            return Err(ServiceEnd::Unknown);
        }
        match items(args) {
            Some(items) => Ok(Builder::new(alloc)?.whole(Value::Integer(count_of(items)))),
            None => Err(fault(alloc, b"wrong arguments")),
        }
    }

    fn is_lawful(&self) {}
}

/// What a call in a table comes to.
#[derive(Clone, Copy)]
enum Want<'a> {
    Root(Value),
    Fault(&'a str),
    NoService,
    NoOperation,
}

fn name_of(rt: &impl Abort, alloc: Global, text: &str) -> Name {
    Name::of_bytes(alloc, text.as_bytes()).expect(rt, "a name")
}

/// Whether it is a small number.
fn is_small(value: &Value) -> bool
    ensures { result ≡ true → NamesIn no_arena value.now }
{
    match value {
        Value::Integer(n) => *n >= -1000 && *n <= 1000,
        Value::Double(p) => p.0 < 0x8000_0000_0000_0000,
        _ => false,
    }
}

/// Whether each of these is a small number.
fn are_small(items: &[Value]) -> bool
    ensures { result ≡ true → AllByRecursion (NamesIn no_arena) items.now }
{
    for item in items {
        if !is_small(item) {
            return false;
        }
    }
    true
}

/// Adds an array of these values.
fn add_array(builder: &mut Builder, items: &[Value]) -> Result<NodeId, BuildEnd>
    requires names { AllByRecursion (NamesIn builder.old) items.now }
    ensures id { IfOk result (λ n. n.0 ≡ length builder.old.nodes) }
    ensures ok { OnOk result (builder.new ≡ kept_node builder.old (closed array [] items.now)) }
{
    builder.is_built();
    let node = builder.open_node(Shape::Array)?;
    for item in items {
        builder.put(node, Part::Item(*item))?;
    }
    builder.close_node(node);
    Ok(node)
}

/// An array of these numbers, which are few and small.
fn arguments(rt: &impl Abort, alloc: Global, items: &[Value]) -> Rooted
    ensures { weight result.arena ≤ heaviest_arguments }
{
    assert!(rt; items.len() <= 1000, "few numbers");
    assert!(rt; are_small(items), "small numbers");
    let mut builder = Builder::new(alloc).expect(rt, "a builder");
    let array = add_array(&mut builder, items).expect(rt, "an array");
    builder.whole(Value::Node(array))
}

/// Whether it is what a call comes to.
fn is_wanted(answer: &Result<Rooted, CallEnd>, want: &Want) -> bool {
    match (answer, want) {
        (Ok(graph), Want::Root(value)) => graph.root() == *value,
        (Err(CallEnd::Fault(fault)), Want::Fault(text)) => fault.as_bytes() == text.as_bytes(),
        (Err(CallEnd::NoService), Want::NoService) => true,
        (Err(CallEnd::NoOperation), Want::NoOperation) => true,
        _ => false,
    }
}

/// Adds the service of this name, which is one that counts where it is no other.
fn add(rt: &impl Abort, alloc: Global, entries: &mut Vec<(Name, Box<dyn Service>)>, name: &str) {
    let service: Box<dyn Service> = match name {
        "echo" => Box::new(alloc, Echo).expect(rt, "a service"),
        "sum" => Box::new(alloc, Sum).expect(rt, "a service"),
        _ => Box::new(alloc, Count).expect(rt, "a service"),
    };
    entries
        .push((name_of(rt, alloc, name), service))
        .expect(rt, "memory");
}

/// The services of these names.
fn registered(rt: &impl Abort, alloc: Global, names: &[&str]) -> Result<Registry, RegistryEnd> {
    let mut entries: Vec<(Name, Box<dyn Service>)> = Vec::new(alloc);
    for name in names {
        add(rt, alloc, &mut entries, name);
    }
    Registry::new(alloc, entries)
}

/// The services of the tests.
fn registry(rt: &impl Abort, alloc: Global) -> Registry {
    match registered(rt, alloc, &["echo", "sum", "count"]) {
        Ok(registry) => registry,
        Err(_) => panic!(rt; "no registry"),
    }
}

/// Whether the operation of a service gives for these arguments what its row says.
fn answers_as(rt: &impl Abort, alloc: Global, registry: &Registry, row: &Row, args: &Rooted) -> bool
    requires { weight args.now.arena ≤ heaviest_arguments }
{
    let service = name_of(rt, alloc, row.0);
    let operation = name_of(rt, alloc, row.1);
    let answer = registry.call(alloc, &service, &operation, args);
    is_wanted(&answer, &row.3)
}

/// Calls what a row says.
fn call(rt: &impl Abort, alloc: Global, registry: &Registry, row: &Row) {
    let args = arguments(rt, alloc, row.2);
    holds(rt, answers_as(rt, alloc, registry, row, &args), row.0);
}

const FIVE: Value = Value::Double(Pattern(0x4014_0000_0000_0000));

/// A service and its operation, the items that it is given, and what it comes to.
type Row = (&'static str, &'static str, &'static [Value], Want<'static>);

const TWO: &[Value] = &[Value::Integer(2), Value::Integer(3)];

static CALLS: [Row; 6] = [
    ("sum", "sum", TWO, Want::Root(FIVE)),
    ("echo", "echo", TWO, Want::Fault("wrong arguments")),
    ("count", "count", TWO, Want::Root(Value::Integer(2))),
    ("ech", "echo", TWO, Want::NoService),
    ("echo", "other", TWO, Want::NoOperation),
    ("echo", "echo", &[FIVE], Want::Root(FIVE)),
];

#[test]
fn calls_services_by_their_names(rt: HostRuntime) {
    let registry = registry(&rt, rt.alloc());
    for row in CALLS.iter() {
        call(&rt, rt.alloc(), &registry, row);
    }
}

/// Whether it ends with this name, which stands twice.
fn repeats(made: &Result<Registry, RegistryEnd>, name: &[u8]) -> bool {
    match made {
        Err(RegistryEnd::DuplicateService(repeated)) => repeated.as_bytes() == name,
        _ => false,
    }
}

#[test]
fn a_name_that_stands_twice(rt: HostRuntime) {
    let made = registered(&rt, rt.alloc(), &["echo", "sum", "echo"]);
    holds(&rt, repeats(&made, b"echo"), "the name");
}

/// Keeps a text.
fn text(rt: &impl Abort, builder: &mut Builder, bytes: &[u8]) -> TextId
    ensures id { result.0 ≡ length builder.old.texts }
    ensures kept { builder.new ≡ kept_text builder.old bytes.now }
{
    assert!(rt; is_amf_text(bytes), "a text");
    builder.text(bytes).expect(rt, "a text")
}

/// Adds an array of one object with the members b and a.
fn add_members(rt: &impl Abort, builder: &mut Builder) -> NodeId
    requires { builder.old ≡ no_arena }
    ensures names { NamesIn builder.new (Node result) }
    ensures closed { AllByRecursion (λ n. n.is_open ≡ false) builder.new.nodes }
    ensures light { weight builder.new ≤ heaviest_arguments }
{
    let b = text(rt, builder, b"b");
    let a = text(rt, builder, b"a");
    let traits = builder.traits(b, true, &[]).expect(rt, "traits");
    let object = builder
        .open_node(Shape::Object(traits))
        .expect(rt, "an object");
    builder
        .put(object, Part::Named(b, Value::Integer(1)))
        .expect(rt, "a member");
    builder
        .put(object, Part::Named(a, Value::Integer(2)))
        .expect(rt, "a member");
    builder.close_node(object);
    add_array(builder, &[Value::Node(object)]).expect(rt, "an array")
}

/// Arguments that are such an object.
fn two_members(rt: &impl Abort, alloc: Global) -> Rooted
    ensures { weight result.arena ≤ heaviest_arguments }
{
    let mut builder = Builder::new(alloc).expect(rt, "a builder");
    let array = add_members(rt, &mut builder);
    builder.whole(Value::Node(array))
}

/// The text that stands at a place of an array.
fn text_at(graph: &Rooted, place: usize) -> Option<&[u8]> {
    let items = items(graph)?;
    if place >= items.len() {
        return None;
    }
    match items[place] {
        Value::Text(text) => Some(graph.text(text)),
        _ => None,
    }
}

/// The names of the members of the object that is the one item of these arguments.
fn names_of(rt: &impl Abort, alloc: Global, args: &Rooted) -> Rooted
    requires { weight args.now.arena ≤ heaviest_arguments }
{
    let operation = name_of(rt, alloc, "names");
    match Names.answers(alloc, &operation, args) {
        Ok(names) => names,
        Err(_) => panic!(rt; "no names"),
    }
}

fn are_ordered(rt: &impl Abort, names: &Rooted) {
    holds(rt, text_at(names, 0) == Some(b"a".as_slice()), "the first");
    holds(rt, text_at(names, 1) == Some(b"b".as_slice()), "the second");
    holds(rt, text_at(names, 2) == None, "no third");
}

#[test]
fn names_are_ordered(rt: HostRuntime) {
    let args = two_members(&rt, rt.alloc());
    let names = names_of(&rt, rt.alloc(), &args);
    are_ordered(&rt, &names);
}

#[test]
fn facts_stand(_rt: HostRuntime) {
    service_rows();
    service_laws();
}
