//! The parts and the bytes of closed nodes, one behind the other.

ghost use Rattle.std.specs.Prelude.{◌≡◌, ◌≤◌, ◌++◌, [], ◌∷◌, length, map, slice_range, false, is_ok, if◌then◌else◌, IfOk, OnErr};
ghost use Rattle.amf_graph.specs.Arena.{bytes, dictionary};
ghost use Rattle.amf_graph.specs.Building.{leaf_head, closed};
ghost use Rattle.amf_graph.specs.Held.{form_head, held_node};
ghost use Rattle.amf_graph.specs.Pools.{no_pool, span_of, SpanIn, RowIn, BothIn, valued_node, named_node, both_node, pool_node, Grows, Keeps};
ghost use Rattle.amf_graph.specs.Views.{named, flat};

use crate::held::{Form, Held};
use crate::row::{Both, Row, Span, number_of, span_from};
use crate::{Leaf, TextId, Value};
use amf_wire::Memory;
use std::alloc::Global;
use std::marker::Model;

/// From so many bytes on, a byte array has a list of its own.
const LONG: usize = 4096;

/// Parts and bytes of nodes, each node's in one piece.
#[derive(Drop)]
pub(crate) struct Pools {
    values: Vec<Value>,
    names: Vec<(TextId, Value)>,
    entries: Vec<(Value, Value)>,
    /// Those of short byte arrays, which have no list of their own.
    bytes: Vec<u8>,
    both: Vec<Both>,
    leaves: Vec<Leaf>,
}

impl Model for Pools {
    ghost use Rattle.std.specs.Prelude.{map};
    ghost use Rattle.amf_graph.specs.Building.{leaf_head};
    ghost use Rattle.amf_graph.specs.Pools.{Pool};

    ghost Value = { Pool };

    ghost view = { λ p. record { values = p.values.items; names = p.names.items; entries = p.entries.items; bytes = p.bytes.items; both = p.both.items; leaves = map leaf_head p.leaves.items } };
}

fn values_in(values: &[Value], span: Span) -> &[Value]
    requires { SpanIn values.now span }
    ensures { result.now ≡ span_of values.now span }
{
    &values[span.start as usize..span.end as usize]
}

fn names_in(names: &[(TextId, Value)], span: Span) -> &[(TextId, Value)]
    requires { SpanIn names.now span }
    ensures { result.now ≡ span_of names.now span }
{
    &names[span.start as usize..span.end as usize]
}

fn entries_in(entries: &[(Value, Value)], span: Span) -> &[(Value, Value)]
    requires { SpanIn entries.now span }
    ensures { result.now ≡ span_of entries.now span }
{
    &entries[span.start as usize..span.end as usize]
}

fn bytes_in(bytes: &[u8], span: Span) -> &[u8]
    requires { SpanIn bytes.now span }
    ensures { result.now ≡ span_of bytes.now span }
{
    &bytes[span.start as usize..span.end as usize]
}

/// Puts these parts behind the others: of most nodes there are none. After an end nothing has changed.
fn extend<T: Copy>(parts: &mut Vec<T>, more: &[T]) -> Result<(), Memory>
    ensures { parts.new.items ≡ (if is_ok result then parts.old.items ++ more.now else parts.old.items) }
{
    if !more.is_empty() {
        parts.extend_from_slice(more)?;
    }
    Ok(())
}

/// Puts where a node with values and pairs is kept behind the others. After an end nothing has changed.
fn push_both(rows: &mut Vec<Both>, row: Both) -> Result<Row, Memory>
    ensures row { IfOk result (λ r. r ≡ Row.Both (length rows.old.items)) }
    ensures rows { rows.new.items ≡ (if is_ok result then rows.old.items ++ row ∷ [] else rows.old.items) }
{
    let number = number_of(rows.len())?;
    rows.push(row)?;
    Ok(Row::Both(number))
}

impl Pools {
    pub(crate) fn new(alloc: Global) -> Pools
        ensures { result ≡ no_pool }
    {
        Pools {
            values: Vec::new(alloc),
            names: Vec::new(alloc),
            entries: Vec::new(alloc),
            bytes: Vec::new(alloc),
            both: Vec::new(alloc),
            leaves: Vec::new(alloc),
        }
    }

    fn with_values(&self, form: Form, values: Span) -> Held<'_>
        requires { SpanIn self.now.values values }
        ensures { valued_node self.now (form_head form) values ≡ held_node false result }
    {
        Held::Parts(form, values_in(&self.values, values), &[])
    }

    fn with_names(&self, form: Form, names: Span) -> Held<'_>
        requires { SpanIn self.now.names names }
        ensures { named_node self.now (form_head form) names ≡ held_node false result }
    {
        Held::Parts(form, &[], names_in(&self.names, names))
    }

    fn with_both(&self, both: Both) -> Held<'_>
        requires { BothIn self.now both }
        ensures { both_node self.now both ≡ held_node false result }
    {
        let values = values_in(&self.values, both.values);
        Held::Parts(both.form, values, names_in(&self.names, both.names))
    }

    /// What a node that is kept here is and holds.
    pub(crate) fn held(&self, row: Row) -> Held<'_>
        requires { RowIn self.now row }
        ensures { pool_node self.now row ≡ held_node false result }
    {
        match row {
            Row::Slot(_) => unreachable!(),
            Row::Leaf(place) => Held::Leaf(&self.leaves[place as usize]),
            Row::Bytes(span) => Held::Bytes(bytes_in(&self.bytes, span)),
            Row::Array(values) => self.with_values(Form::Array, values),
            Row::NamedArray(names) => self.with_names(Form::Array, names),
            Row::Object(traits, values) => self.with_values(Form::Object(traits), values),
            Row::NamedObject(traits, names) => self.with_names(Form::Object(traits), names),
            Row::Wrapper(class, values) => self.with_values(Form::Wrapper(class), values),
            Row::Values(fixed, of, values) => self.with_values(Form::Values(fixed, of), values),
            Row::Both(place) => self.with_both(self.both[place as usize]),
            Row::Dictionary(weak, entries) => {
                Held::Dictionary(weak, entries_in(&self.entries, entries))
            }
        }
    }

    /// Keeps the bytes of a short byte array. It gives up where the array is long. After an end nothing has changed.
    fn keep_bytes(&mut self, array: &[u8]) -> Result<Row, Memory>
        ensures ok { IfOk result (λ row. Keeps self.old self.new (closed (bytes array.now) [] []) row) }
        ensures grows { Grows self.old self.new }
        ensures err { OnErr result (self.new ≡ self.old) }
    {
        if array.len() >= LONG {
            return Err(Memory);
        }
        let span = span_from(self.bytes.len(), array.len())?;
        extend(&mut self.bytes, array)?;
        Ok(Row::Bytes(span))
    }

    fn push_leaf(&mut self, leaf: Leaf) -> Result<Row, Memory>
        ensures ok { IfOk result (λ row. Keeps self.old self.new (closed (leaf_head leaf) [] []) row) }
        ensures grows { Grows self.old self.new }
    {
        let number = number_of(self.leaves.len())?;
        self.leaves.push(leaf)?;
        Ok(Row::Leaf(number))
    }

    /// Keeps a copy of a byte array, of a short one the bytes alone, where there is room. After an end what was there is there.
    pub(crate) fn keep_array(&mut self, array: &[u8]) -> Result<Row, Memory>
        ensures ok { IfOk result (λ row. Keeps self.old self.new (closed (bytes array.now) [] []) row) }
        ensures grows { Grows self.old self.new }
    {
        if let Ok(row) = self.keep_bytes(array) {
            return Ok(row);
        }
        let list = array.to_vec(*self.leaves.allocator())?;
        self.push_leaf(Leaf::Bytes(list))
    }

    /// Keeps a node without parts, of a short byte array the bytes alone, where there is room. After an end what was there is there.
    pub(crate) fn keep_leaf(&mut self, leaf: Leaf) -> Result<Row, Memory>
        ensures ok { IfOk result (λ row. Keeps self.old self.new (closed (leaf_head leaf) [] []) row) }
        ensures grows { Grows self.old self.new }
    {
        if let Leaf::Bytes(array) = &leaf
            && let Ok(row) = self.keep_bytes(array)
        {
            return Ok(row);
        }
        self.push_leaf(leaf)
    }

    /// Keeps the values and the pairs of a node. After an end what was there is there.
    #[inline(always)]
    pub(crate) fn keep_parts(
        &mut self,
        form: Form,
        values: &[Value],
        names: &[(TextId, Value)],
    ) -> Result<Row, Memory>
        ensures ok { IfOk result (λ row. Keeps self.old self.new (closed (form_head form) (named names.now) values.now) row) }
        ensures grows { Grows self.old self.new }
    {
        if !names.is_empty() {
            return self.keep_named(form, values, names);
        }
        let span = span_from(self.values.len(), values.len())?;
        extend(&mut self.values, values)?;
        Ok(Row::of_values(form, span))
    }

    /// Does what `keep_parts` does, where there are pairs.
    fn keep_named(
        &mut self,
        form: Form,
        values: &[Value],
        names: &[(TextId, Value)],
    ) -> Result<Row, Memory>
        ensures ok { IfOk result (λ row. Keeps self.old self.new (closed (form_head form) (named names.now) values.now) row) }
        ensures grows { Grows self.old self.new }
    {
        let name_span = span_from(self.names.len(), names.len())?;
        extend(&mut self.names, names)?;
        if values.is_empty()
            && let Some(row) = Row::of_names(form, name_span)
        {
            return Ok(row);
        }
        let value_span = span_from(self.values.len(), values.len())?;
        extend(&mut self.values, values)?;
        let both = Both {
            form,
            values: value_span,
            names: name_span,
        };
        push_both(&mut self.both, both)
    }

    /// Keeps the entries of a dictionary. After an end what was there is there.
    pub(crate) fn keep_dictionary(
        &mut self,
        weak: bool,
        entries: &[(Value, Value)],
    ) -> Result<Row, Memory>
        ensures ok { IfOk result (λ row. Keeps self.old self.new (closed (dictionary weak) [] (flat entries.now)) row) }
        ensures grows { Grows self.old self.new }
    {
        let span = span_from(self.entries.len(), entries.len())?;
        extend(&mut self.entries, entries)?;
        Ok(Row::Dictionary(weak, span))
    }
}
