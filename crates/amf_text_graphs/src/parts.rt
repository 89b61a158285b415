//! Tells the nodes of a page.

ghost use Rattle.std.specs.Prelude.{◌<◌, length, map, OnOk};
ghost use Rattle.std.specs.List.{AllByRecursion};
ghost use Rattle.amf_graph.specs.Graph.{IsValue};
ghost use Rattle.amf_wire.specs.Text.{IsText};
ghost use Rattle.amf_text_trees.specs.Pages.{value_at};
ghost use Rattle.amf_text_pages.specs.Entries.{entry_of, pair_of};
ghost use Rattle.amf_text_graphs.specs.Telling.{PartsTold};

use crate::book::Book;
use crate::rows::Rows;
use crate::values::{pairs, values};
use amf_graph::{NodeId, Shape};
use amf_text_pages::Entry;
use amf_wire::Memory;
use std::alloc::Global;

/// Tells a node with these names and values.
pub(crate) fn tell_parts(
    alloc: Global,
    book: &mut Book,
    rows: &Rows,
    node: NodeId,
    shape: Shape,
    names: &[(Vec<u8>, Entry)],
    items: &[Entry],
) -> Result<(), Memory>
    requires there { node.0 < length book.old.nodes }
    requires texts { AllByRecursion (λ p. IsText p.0.items) names.now }
    requires names { AllByRecursion (λ p. IsValue (value_at rows.now (entry_of p.1))) names.now }
    requires items { AllByRecursion (λ e. IsValue (value_at rows.now (entry_of e))) items.now }
    ensures { OnOk result (PartsTold rows.now book.old book.new node.0 shape (map pair_of names.now) (map entry_of items.now)) }
{
    let names = pairs(alloc, book, rows, names)?;
    let values = values(alloc, book, rows, items)?;
    book.tell(node, shape, &names, &values)
}
