//! From a page to its graph.

ghost use Rattle.std.specs.Prelude.{◌≡◌, ◌<◌, length, map, IfOk, OnOk};
ghost use Rattle.std.specs.List.{AllByRecursion};
ghost use Rattle.amf_graph.specs.Bounds.{count_end};
ghost use Rattle.amf_graph.specs.Rooted.{content};
ghost use Rattle.amf_text.specs.WholeLaws.{IsSoundNode};
ghost use Rattle.amf_text_trees.specs.Pages.{node_of, page_graph};
ghost use Rattle.amf_text_graphs.specs.Graphs.{IsWritable};
ghost use Rattle.amf_text_pages.specs.Pages.{kept_of, page_of};
ghost use Rattle.amf_text_graphs.specs.Fronts.{HasFront};

use crate::book::Book;
use crate::nodes::tell;
use crate::rows::Rows;
use crate::values::value;
use amf_graph::{NodeId, Rooted};
use amf_text_laws::few_nodes;
use amf_text_pages::{Node, Page};
use amf_wire::Memory;
use std::alloc::Global;
use std::hash::RandomState;

/// A book of so many nodes, of which nothing is told yet.
fn book_of(alloc: Global, keys: Option<RandomState>, count: usize) -> Result<Book, Memory>
    requires { count < count_end }
    ensures { IfOk result (λ book. length book.nodes ≡ count) }
{
    let mut book = Book::new(alloc, keys)?;
    for _ in 0..count {
        book.begin()?;
    }
    Ok(book)
}

/// Tells all nodes of a page, by their numbers.
fn tell_all(
    alloc: Global,
    keys: Option<RandomState>,
    book: &mut Book,
    rows: &Rows,
    nodes: Vec<Node>,
) -> Result<(), Memory>
    requires begun { length book.old.nodes ≡ length nodes.items }
    requires few { length nodes.items < count_end }
    requires sound { AllByRecursion (IsSoundNode (length nodes.items)) (map (node_of rows.now) (map kept_of nodes.items)) }
    ensures count { OnOk result (length book.new.nodes ≡ length nodes.items) }
    ensures shown { OnOk result (HasFront rows.now book.new (map kept_of nodes.items)) }
{
    let mut place = 0;
    for node in nodes {
        tell(alloc, keys, book, rows, NodeId(place), node)?;
        place += 1;
    }
    Ok(())
}

/// The graph of a page. It gives up where there is no room for it.
pub(crate) fn page_graph(
    alloc: Global,
    keys: Option<RandomState>,
    page: Page,
) -> Result<Rooted, Memory>
    requires { IsWritable (page_graph (page_of page)) }
    ensures { IfOk result (λ g. content g ≡ page_graph (page_of page)) }
{
    few_nodes();
    let Page { sheet, table, root } = page;
    let rows = Rows::of(alloc, keys, table)?;
    let mut book = book_of(alloc, keys, sheet.nodes.len())?;
    tell_all(alloc, keys, &mut book, &rows, sheet.nodes)?;
    let root = value(&mut book, &rows, &root)?;
    book.into_sheet().finish(root)
}
