//! Where what is told of a node stands.

ghost use Rattle.std.specs.Prelude.{◌≡◌, ◌+◌, IfOk};
ghost use Rattle.amf_graph.specs.Pools.{IsFront};
ghost use Rattle.amf_sheet.specs.Rows.{span_of, SpanIn};

use amf_graph::{Leaf, Shape};
use amf_wire::Memory;
use std::mem::size_of;

/// A part of a column, from one place up to another.
#[derive(Clone, Copy)]
pub(crate) struct Span {
    pub(crate) start: u32,
    pub(crate) end: u32,
}

/// What is told of a node.
#[derive(Drop)]
pub(crate) enum Row {
    Untold,
    /// A node without parts.
    Leaf(Leaf),
    /// One that takes parts, by its names and its values.
    Parts(Shape, Span, Span),
}

const _: () = prove!(size_of::<Row>() == 40);

/// The number of a place. It gives up where it has none.
fn number_of(place: usize) -> Result<u32, Memory>
    ensures { IfOk result (λ number. number ≡ place) }
{
    match u32::try_from(place) {
        Ok(number) => Ok(number),
        Err(_) => Err(Memory),
    }
}

/// So many places, from one on. It gives up where they have no numbers.
fn span_from(start: usize, count: usize) -> Result<Span, Memory>
    ensures start { IfOk result (λ span. span.start ≡ start) }
    ensures end { IfOk result (λ span. span.end ≡ start + count) }
{
    match start.checked_add(count) {
        Some(end) => Ok(Span {
            start: number_of(start)?,
            end: number_of(end)?,
        }),
        None => Err(Memory),
    }
}

/// Keeps these behind the others, and says where they stand. After an end nothing has changed.
pub(crate) fn keep<T: Copy>(column: &mut Vec<T>, more: &[T]) -> Result<Span, Memory>
    ensures front { IsFront column.old.items column.new.items }
    ensures inside { IfOk result (λ span. SpanIn column.new.items span) }
    ensures kept { IfOk result (λ span. span_of column.new.items span ≡ more.now) }
{
    let span = span_from(column.len(), more.len())?;
    column.extend_from_slice(more)?;
    Ok(span)
}

/// What stands in a span of a column.
pub(crate) fn part<T>(column: &[T], span: Span) -> &[T]
    requires { SpanIn column.now span }
    ensures { result.now ≡ span_of column.now span }
{
    &column[span.start as usize..span.end as usize]
}
