//! Graphs as texts. `root V; ` comes first, and then `#n NODE; ` for each node in the order of their numbers. Values, names and members
//! stand in the order in which the graph holds them.

ghost use Rattle.std.specs.Prelude.{◌<◌, length, map};
ghost use Rattle.std.specs.List.{AllByRecursion};
ghost use Rattle.amf_graph.specs.Arena.{Names, IsTextId};
ghost use Rattle.amf_graph.specs.Views.{named, flat};

use amf_graph::{NodeId, NodeView, Rooted, TextId, TraitsId, Value, Wrapped};
use amf_wire::Pattern;
use std::process::Abort;

/// Appends a word.
pub(crate) fn put(rt: &impl Abort, word: &str, out: &mut String) {
    out.push_str(word).expect(rt, "memory");
}

/// Appends what stands before all but the first of a list.
fn put_comma(rt: &impl Abort, place: usize, out: &mut String) {
    if place > 0 {
        put(rt, ", ", out);
    }
}

/// Appends a byte of a text.
fn put_byte(rt: &impl Abort, byte: u8, out: &mut String) {
    if byte >= b' ' && byte <= b'~' && byte != b'"' && byte != b'\\' {
        out.push(char::from(byte)).expect(rt, "memory");
    } else {
        write!(out, "\\{byte:02x}").expect(rt, "memory");
    }
}

/// Appends a text between quotation marks, each byte that is no plain one by two hexadecimal digits.
pub(crate) fn put_text(rt: &impl Abort, bytes: &[u8], out: &mut String) {
    put(rt, "\"", out);
    for byte in bytes {
        put_byte(rt, *byte, out);
    }
    put(rt, "\"", out);
}

/// Appends a double by its bits.
fn put_double(rt: &impl Abort, double: Pattern, out: &mut String) {
    let bits = double.0;
    write!(out, "d{bits:016x}").expect(rt, "memory");
}

/// Appends a value.
fn put_value(rt: &impl Abort, graph: &Rooted, value: Value, out: &mut String)
    requires { Names graph.now.arena value }
{
    match value {
        Value::Undefined => put(rt, "undefined", out),
        Value::Null => put(rt, "null", out),
        Value::Bool(flag) => write!(out, "{flag}").expect(rt, "memory"),
        Value::Integer(number) => write!(out, "{number}").expect(rt, "memory"),
        Value::Double(double) => put_double(rt, double, out),
        Value::Text(text) => put_text(rt, graph.text(text), out),
        Value::Node(node) => put_number(rt, node, out),
    }
}

/// Appends the number of a node.
fn put_number(rt: &impl Abort, node: NodeId, out: &mut String) {
    let number = node.0;
    write!(out, "#{number}").expect(rt, "memory");
}

/// Appends values.
fn put_values(rt: &impl Abort, graph: &Rooted, values: &[Value], out: &mut String)
    requires { AllByRecursion (Names graph.now.arena) values.now }
{
    put(rt, "[", out);
    for (place, value) in values.iter().enumerate() {
        put_comma(rt, place, out);
        put_value(rt, graph, *value, out);
    }
    put(rt, "]", out);
}

/// Appends names.
fn put_names(rt: &impl Abort, graph: &Rooted, names: &[TextId], out: &mut String)
    requires { AllByRecursion (IsTextId graph.now.arena) (map (λ x. x.0) names.now) }
{
    put(rt, "[", out);
    for (place, name) in names.iter().enumerate() {
        put_comma(rt, place, out);
        put_text(rt, graph.text(*name), out);
    }
    put(rt, "]", out);
}

/// Appends names with their values.
fn put_pairs(rt: &impl Abort, graph: &Rooted, pairs: &[(TextId, Value)], out: &mut String)
    requires { AllByRecursion (λ p. IsTextId graph.now.arena p.0 × Names graph.now.arena p.1) (named pairs.now) }
{
    put(rt, "{", out);
    for (place, pair) in pairs.iter().enumerate() {
        put_comma(rt, place, out);
        put_text(rt, graph.text(pair.0), out);
        put(rt, "=", out);
        put_value(rt, graph, pair.1, out);
    }
    put(rt, "}", out);
}

/// Appends keys with their values.
fn put_entries(rt: &impl Abort, graph: &Rooted, entries: &[(Value, Value)], out: &mut String)
    requires { AllByRecursion (Names graph.now.arena) (flat entries.now) }
{
    put(rt, "{", out);
    for (place, entry) in entries.iter().enumerate() {
        put_comma(rt, place, out);
        put_value(rt, graph, entry.0, out);
        put(rt, "=", out);
        put_value(rt, graph, entry.1, out);
    }
    put(rt, "}", out);
}

/// The word of a flag.
fn fixed_word(fixed: bool) -> &'static str {
    if fixed { "fixed " } else { "open " }
}

/// Appends a word, and a text behind it.
fn put_worded(rt: &impl Abort, word: &str, text: &[u8], out: &mut String) {
    put(rt, word, out);
    put_text(rt, text, out);
}

fn put_date(rt: &impl Abort, milliseconds: Pattern, out: &mut String) {
    put(rt, "date ", out);
    put_double(rt, milliseconds, out);
}

fn put_bytes(rt: &impl Abort, bytes: &[u8], out: &mut String) {
    put(rt, "bytes x", out);
    for byte in bytes {
        write!(out, "{byte:02x}").expect(rt, "memory");
    }
}

fn put_ints(rt: &impl Abort, fixed: bool, items: &[i32], out: &mut String) {
    let word = fixed_word(fixed);
    write!(out, "ints {word}{items:?}").expect(rt, "memory");
}

fn put_uints(rt: &impl Abort, fixed: bool, items: &[u32], out: &mut String) {
    let word = fixed_word(fixed);
    write!(out, "uints {word}{items:?}").expect(rt, "memory");
}

fn put_doubles(rt: &impl Abort, fixed: bool, items: &[Pattern], out: &mut String) {
    put(rt, "doubles ", out);
    put(rt, fixed_word(fixed), out);
    put(rt, "[", out);
    for (place, item) in items.iter().enumerate() {
        put_comma(rt, place, out);
        put_double(rt, *item, out);
    }
    put(rt, "]", out);
}

/// Appends an array: its items, and its names.
fn put_array(
    rt: &impl Abort,
    graph: &Rooted,
    items: &[Value],
    names: &[(TextId, Value)],
    out: &mut String,
)
    requires items { AllByRecursion (Names graph.now.arena) items.now }
    requires names { AllByRecursion (λ p. IsTextId graph.now.arena p.0 × Names graph.now.arena p.1) (named names.now) }
{
    put(rt, "array ", out);
    put_values(rt, graph, items, out);
    put(rt, " ", out);
    put_pairs(rt, graph, names, out);
}

/// Appends a class: its name, whether its objects take further members, and its sealed names.
fn put_class(rt: &impl Abort, graph: &Rooted, traits: TraitsId, out: &mut String)
    requires { traits.0 < length graph.now.arena.traits }
{
    graph.is_finished();
    let class = graph.traits(traits);
    put_worded(rt, "object ", graph.text(class.class), out);
    let word = if class.dynamic {
        " dynamic "
    } else {
        " sealed "
    };
    put(rt, word, out);
    put_names(rt, graph, class.sealed, out);
}

/// Appends an object: its class, its sealed values, and its members.
fn put_object(
    rt: &impl Abort,
    graph: &Rooted,
    traits: TraitsId,
    sealed: &[Value],
    members: &[(TextId, Value)],
    out: &mut String,
)
    requires traits { traits.0 < length graph.now.arena.traits }
    requires sealed { AllByRecursion (Names graph.now.arena) sealed.now }
    requires members { AllByRecursion (λ p. IsTextId graph.now.arena p.0 × Names graph.now.arena p.1) (named members.now) }
{
    put_class(rt, graph, traits, out);
    put(rt, " ", out);
    put_values(rt, graph, sealed, out);
    put(rt, " ", out);
    put_pairs(rt, graph, members, out);
}

fn put_wrapper(rt: &impl Abort, graph: &Rooted, class: Wrapped, value: Value, out: &mut String)
    requires { Names graph.now.arena value }
{
    write!(out, "{class:?} ").expect(rt, "memory");
    put_value(rt, graph, value, out);
}

/// Appends a vector of values: the name of its type, and its values.
fn put_vector(
    rt: &impl Abort,
    graph: &Rooted,
    fixed: bool,
    of: TextId,
    items: &[Value],
    out: &mut String,
)
    requires of { IsTextId graph.now.arena of.0 }
    requires items { AllByRecursion (Names graph.now.arena) items.now }
{
    put(rt, "values ", out);
    put_worded(rt, fixed_word(fixed), graph.text(of), out);
    put(rt, " ", out);
    put_values(rt, graph, items, out);
}

fn put_dictionary(
    rt: &impl Abort,
    graph: &Rooted,
    weak: bool,
    entries: &[(Value, Value)],
    out: &mut String,
)
    requires { AllByRecursion (Names graph.now.arena) (flat entries.now) }
{
    let word = if weak {
        "dictionary weak "
    } else {
        "dictionary "
    };
    put(rt, word, out);
    put_entries(rt, graph, entries, out);
}

/// Appends what a node holds.
fn put_node(rt: &impl Abort, graph: &Rooted, node: NodeId, out: &mut String)
    requires { node.0 < length graph.now.arena.nodes }
{
    graph.is_finished();
    match graph.node(node) {
        NodeView::XmlDocument(text) => put_worded(rt, "xmldoc ", text, out),
        NodeView::Xml(text) => put_worded(rt, "xml ", text, out),
        NodeView::Date(milliseconds) => put_date(rt, milliseconds, out),
        NodeView::Bytes(bytes) => put_bytes(rt, bytes, out),
        NodeView::Ints { fixed, items } => put_ints(rt, fixed, items, out),
        NodeView::Uints { fixed, items } => put_uints(rt, fixed, items, out),
        NodeView::Doubles { fixed, items } => put_doubles(rt, fixed, items, out),
        NodeView::Array { items, names } => put_array(rt, graph, items, names, out),
        NodeView::Object {
            traits,
            sealed,
            members,
        } => put_object(rt, graph, traits, sealed, members, out),
        NodeView::Wrapper { class, value } => put_wrapper(rt, graph, class, value, out),
        NodeView::Values { fixed, of, items } => put_vector(rt, graph, fixed, of, items, out),
        NodeView::Dictionary { weak, entries } => put_dictionary(rt, graph, weak, entries, out),
    }
}

/// Appends a graph.
pub(crate) fn put_graph(rt: &impl Abort, graph: &Rooted, out: &mut String) {
    graph.is_finished();
    put(rt, "root ", out);
    put_value(rt, graph, graph.root(), out);
    put(rt, "; ", out);
    for number in 0..graph.node_count() {
        write!(out, "#{number} ").expect(rt, "memory");
        put_node(rt, graph, NodeId(number), out);
        put(rt, "; ", out);
    }
}
