ghost use Rattle.std.specs.Prelude.{◌≡◌, ◌<◌, length};
ghost use Rattle.amf_tables.specs.ShownTraits.{AreTextIds};

use crate::checks::{bytes_of, field, holds, holds_in, number, number_in};
use crate::graph_tests::of_two_texts;
use amf_graph::{NodeId, Rooted, TextId, TraitsId, TraitsView, Wrapped};
use amf_tables::{Tables3, WriterTables};
use amf_test_rows::{Row, Table};
use std::alloc::Global;
use std::process::Abort;

/// The served class of a row, or none where the field is `-`.
fn class_in(rt: &impl Abort, row: Row<'_>, place: usize) -> Option<Wrapped> {
    match field(rt, row, place) {
        "ArrayCollection" => Some(Wrapped::ArrayCollection),
        "ArrayList" => Some(Wrapped::ArrayList),
        "ObjectProxy" => Some(Wrapped::ObjectProxy),
        "-" => None,
        _ => panic!(rt; "no class"),
    }
}

/// What a reader enters in turn: a text, a node, and traits with their class if that is served.
static ENTERED: Table = Table {
    rows: 5,
    fields: 4,
    text: "
4 | 5 | - | -
7 | 8 | - | -
4 | 5 | - | -
- | - | 9 | -
- | - | 2 | ArrayList
",
};

/// What stands at each index, from 0: a text, a node, traits and a served class.
static FOUND: Table = Table {
    rows: 4,
    fields: 4,
    text: "
4 | 5 | 9 | -
7 | 8 | 2 | ArrayList
4 | 5 | - | -
- | - | - | -
",
};

fn enter(rt: &impl Abort, row: Row<'_>, tables: &mut Tables3) {
    if let Some(text) = number_in(rt, row, 0) {
        tables.push_text(TextId(text)).expect(rt, "memory");
    }
    if let Some(node) = number_in(rt, row, 1) {
        tables.push_node(NodeId(node)).expect(rt, "memory");
    }
    if let Some(traits) = number_in(rt, row, 2) {
        enter_traits(rt, TraitsId(traits), class_in(rt, row, 3), tables);
    }
}

fn enter_traits(rt: &impl Abort, traits: TraitsId, class: Option<Wrapped>, tables: &mut Tables3) {
    match class {
        Some(class) => tables.push_external(traits, class).expect(rt, "memory"),
        None => tables.push_traits(traits).expect(rt, "memory"),
    }
}

fn entered_tables(rt: &impl Abort, alloc: Global) -> Tables3 {
    let mut tables = Tables3::new(alloc).expect(rt, "tables");
    for row in ENTERED.rows(alloc).expect(rt, "rows").iter() {
        enter(rt, *row, &mut tables);
    }
    tables
}

fn are_found(rt: &impl Abort, row: Row<'_>, index: u32, tables: &Tables3) {
    let text = number_in(rt, row, 0).map(TextId);
    holds_in(rt, row, tables.text_at(index) == text, "the text");
    let node = number_in(rt, row, 1).map(NodeId);
    holds_in(rt, row, tables.node_at(index) == node, "the node");
    let traits = number_in(rt, row, 2).map(TraitsId);
    holds_in(rt, row, tables.traits_at(index) == traits, "the traits");
    let class = class_in(rt, row, 3);
    holds_in(rt, row, tables.wrapped_at(index) == class, "the class");
}

#[test]
fn a_reader_finds_what_it_entered(rt: HostRuntime) {
    let tables = entered_tables(&rt, rt.alloc());
    let mut index = 0_u32;
    for row in FOUND.rows(rt.alloc()).expect(&rt, "rows").iter() {
        are_found(&rt, *row, index, &tables);
        index = index.wrapping_add(1);
    }
}

/// What a writer enters in turn: a text, a node or a served class.
static WRITTEN: Table = Table {
    rows: 7,
    fields: 2,
    text: "
text | 'a'
text | 'b'
text | 'a'
node | 3
node | 0
class | ObjectProxy
class | ArrayCollection
",
};

/// What a writer looks up, and the first place where it stands.
static FIRST_PLACES: Table = Table {
    rows: 9,
    fields: 3,
    text: "
text | 'a' | 0
text | 'b' | 1
text | | -
node | 3 | 0
node | 0 | 1
node | 1 | -
class | ObjectProxy | 0
class | ArrayCollection | 1
class | ArrayList | -
",
};

fn add(rt: &impl Abort, alloc: Global, row: Row<'_>, tables: &mut WriterTables) {
    match field(rt, row, 0) {
        "text" => add_text(rt, alloc, row, tables),
        "node" => add_node(rt, number(rt, row, 1), tables),
        _ => add_wrapped(rt, class_in(rt, row, 1), tables),
    }
}

fn add_text(rt: &impl Abort, alloc: Global, row: Row<'_>, tables: &mut WriterTables) {
    let text = bytes_of(rt, alloc, row, 1);
    tables.add_text(&text).expect(rt, "memory");
}

fn add_node(rt: &impl Abort, node: u32, tables: &mut WriterTables) {
    tables.add_node(NodeId(node)).expect(rt, "memory");
}

fn add_wrapped(rt: &impl Abort, class: Option<Wrapped>, tables: &mut WriterTables) {
    let class = class.expect(rt, "a class");
    tables.add_wrapped(class).expect(rt, "memory");
}

fn place_of(rt: &impl Abort, alloc: Global, row: Row<'_>, tables: &WriterTables) -> Option<u32> {
    match field(rt, row, 0) {
        "text" => tables.place_of_text(&bytes_of(rt, alloc, row, 1)),
        "node" => tables.place_of_node(NodeId(number(rt, row, 1))),
        _ => tables.place_of_wrapped(class_in(rt, row, 1).expect(rt, "a class")),
    }
}

fn written_tables(rt: &impl Abort, alloc: Global) -> WriterTables {
    let mut tables = WriterTables::new(alloc).expect(rt, "tables");
    for row in WRITTEN.rows(alloc).expect(rt, "rows").iter() {
        add(rt, alloc, *row, &mut tables);
    }
    tables
}

fn finds_first_places(rt: &impl Abort, alloc: Global, tables: &WriterTables) {
    for row in FIRST_PLACES.rows(alloc).expect(rt, "rows").iter() {
        let place = place_of(rt, alloc, *row, tables);
        holds_in(rt, *row, place == number_in(rt, *row, 2), "the place");
    }
}

/// Has the tables hash their texts, and adds two more.
fn settles(rt: &impl Abort, tables: &mut WriterTables) {
    holds(rt, tables.text_count() == 3, "how many texts");
    tables.settle_texts().expect(rt, "memory");
    holds(rt, tables.text_count() == 3, "as many texts");
    tables.add_text(b"b").expect(rt, "memory");
    tables.add_text(b"late").expect(rt, "memory");
    holds(rt, tables.place_of_text(b"late") == Some(4), "a late text");
}

/// So many of the first nodes, or all where there are fewer.
static FIRST_NODES: [(u32, &[NodeId]); 4] = [
    (0, &[]),
    (1, &[NodeId(3)]),
    (2, &[NodeId(3), NodeId(0)]),
    (5, &[NodeId(3), NodeId(0)]),
];

fn tells_its_first_nodes(
    rt: &impl Abort,
    alloc: Global,
    tables: &WriterTables,
    count: u32,
    nodes: &[NodeId],
) {
    let first = tables.first_nodes(alloc, count).expect(rt, "memory");
    holds(rt, first.as_slice() == nodes, "the first nodes");
}

fn has_a_node_without_a_place(rt: &impl Abort, tables: &mut WriterTables) {
    holds(rt, tables.are_placed(), "all have places");
    tables.add_done(NodeId(5)).expect(rt, "memory");
    holds(rt, !tables.are_placed(), "one has no place");
    holds(rt, tables.is_done(NodeId(5)), "done");
    holds(rt, !tables.is_done(NodeId(1)), "not done");
}

#[test]
fn a_writer_finds_what_it_entered(rt: HostRuntime) {
    let mut tables = written_tables(&rt, rt.alloc());
    finds_first_places(&rt, rt.alloc(), &tables);
    for (count, nodes) in FIRST_NODES.iter() {
        tells_its_first_nodes(&rt, rt.alloc(), &tables, *count, nodes);
    }
    settles(&rt, &mut tables);
    finds_first_places(&rt, rt.alloc(), &tables);
    has_a_node_without_a_place(&rt, &mut tables);
}

/// Enters a wrapper, and a class of the first text with a member of the second.
fn add_class(rt: &impl Abort, graph: &Rooted, tables: &mut WriterTables)
    requires { length graph.now.arena.texts ≡ 2 }
{
    add_wrapped(rt, Some(Wrapped::ArrayList), tables);
    let entered = TraitsView {
        class: TextId(0),
        dynamic: true,
        sealed: &[TextId(1)],
    };
    tables.add_traits(&entered, graph).expect(rt, "memory");
}

/// Where a class stands, whose objects may have further members.
fn place_of_class(
    tables: &WriterTables,
    graph: &Rooted,
    class: TextId,
    sealed: &[TextId],
) -> Option<u32>
    requires class { class.0 < length graph.now.arena.texts }
    requires sealed { AreTextIds graph.now.arena sealed.now }
{
    let view = TraitsView {
        class,
        dynamic: true,
        sealed,
    };
    tables.place_of_traits(&view, graph)
}

/// Classes by their two texts, and where each stands.
fn finds_classes(rt: &impl Abort, graph: &Rooted, tables: &WriterTables)
    requires { length graph.now.arena.texts ≡ 2 }
{
    let entered = place_of_class(tables, graph, TextId(0), &[TextId(1)]);
    holds(rt, entered == Some(1), "the same");
    let alike = place_of_class(tables, graph, TextId(1), &[TextId(0)]);
    holds(rt, alike == Some(1), "by other texts");
    let shorter = place_of_class(tables, graph, TextId(0), &[]);
    holds(rt, shorter == None, "with fewer members");
}

fn finds_by_content(rt: &impl Abort, alloc: Global, graph: &Rooted)
    requires { length graph.now.arena.texts ≡ 2 }
{
    let mut tables = WriterTables::new(alloc).expect(rt, "tables");
    add_class(rt, graph, &mut tables);
    finds_classes(rt, graph, &tables);
}

#[test]
fn a_writer_finds_traits_by_content(rt: HostRuntime) {
    // One text at two places.
    let graph = of_two_texts(&rt, rt.alloc(), b"a", b"a");
    finds_by_content(&rt, rt.alloc(), &graph);
}
