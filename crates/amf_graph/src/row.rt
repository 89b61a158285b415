//! Where a node is kept.

ghost use Rattle.std.specs.Prelude.{◌≡◌, ◌+◌, IfOk, IfSome};
ghost use Rattle.amf_graph.specs.Held.{form_head};
ghost use Rattle.amf_graph.specs.Pools.{Pool, SpanIn, RowIn, valued_node, named_node, pool_node};

use crate::held::Form;
use crate::{TextId, TraitsId, Wrapped};
use amf_wire::Memory;
use std::mem::size_of;

/// A part of a pool, from one place up to another.
#[derive(Clone, Copy)]
pub(crate) struct Span {
    pub(crate) start: u32,
    pub(crate) end: u32,
}

/// Where a node is kept. All but those in slots are closed.
#[derive(Clone, Copy)]
pub(crate) enum Row {
    /// In a slot: it is open, or its parts stay where they are, since they are so many or the pools had no room.
    Slot(u32),
    /// A node without parts, by its place among these: any but a short byte array.
    Leaf(u32),
    /// A short byte array, by its bytes.
    Bytes(Span),
    /// An array without pairs, by its values. Each form stands here by itself: a `Form` inside would have a tag of its own, and take
    /// a word more in each row.
    Array(Span),
    /// An array without values, by its pairs.
    NamedArray(Span),
    /// An object without members, by its traits and its values.
    Object(TraitsId, Span),
    /// An object without values, by its traits and its members.
    NamedObject(TraitsId, Span),
    /// An instance of a class that is served, by its values.
    Wrapper(Wrapped, Span),
    /// A vector of values: whether its length is fixed, the name of its type, and its values.
    Values(bool, TextId, Span),
    /// A node with values and pairs, by its place among these.
    Both(u32),
    /// A dictionary: whether its keys are held weakly, and its entries.
    Dictionary(bool, Span),
}

const _: () = prove!(size_of::<Row>() == 16);

/// Where a node with values and pairs is kept.
#[derive(Clone, Copy)]
pub(crate) struct Both {
    pub(crate) form: Form,
    pub(crate) values: Span,
    pub(crate) names: Span,
}

impl Row {
    /// Where a node of this form is kept that has values alone.
    pub(crate) fn of_values(form: Form, values: Span) -> Row
        ensures inside { (p : Pool) → SpanIn p.values values → RowIn p result }
        ensures shows { (p : Pool) → pool_node p result ≡ valued_node p (form_head form) values }
    {
        match form {
            Form::Array => Row::Array(values),
            Form::Object(traits) => Row::Object(traits, values),
            Form::Wrapper(class) => Row::Wrapper(class, values),
            Form::Values(fixed, of) => Row::Values(fixed, of, values),
        }
    }

    /// Where a node of this form is kept that has pairs alone, if there is a row for it.
    pub(crate) fn of_names(form: Form, names: Span) -> Option<Row>
        ensures inside { IfSome result (λ row. (p : Pool) → SpanIn p.names names → RowIn p row) }
        ensures shows { IfSome result (λ row. (p : Pool) → pool_node p row ≡ named_node p (form_head form) names) }
    {
        match form {
            Form::Array => Some(Row::NamedArray(names)),
            Form::Object(traits) => Some(Row::NamedObject(traits, names)),
            Form::Wrapper(_) | Form::Values(..) => None,
        }
    }
}

/// The number of a place. It gives up where it has none.
pub(crate) fn number_of(place: usize) -> Result<u32, Memory>
    ensures { IfOk result (λ number. number ≡ place) }
{
    match u32::try_from(place) {
        Ok(number) => Ok(number),
        Err(_) => Err(Memory),
    }
}

/// So many places, from one on. It gives up where they have no numbers.
pub(crate) fn span_from(start: usize, count: usize) -> Result<Span, Memory>
    ensures start { IfOk result (λ span. span.start ≡ start) }
    ensures end { IfOk result (λ span. span.end ≡ start + count) }
{
    match start.checked_add(count) {
        Some(end) => Ok(Span {
            start: number_of(start)?,
            end: number_of(end)?,
        }),
        None => Err(Memory),
    }
}
