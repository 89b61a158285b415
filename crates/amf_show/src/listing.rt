ghost use Rattle.std.specs.Prelude.{◌≡◌, ◌++◌, IfOk, OnOk, OnErr};
ghost use Rattle.std.specs.List.{flat_map};
ghost use Rattle.amf_graph.specs.Order.{IsOrder};
ghost use Rattle.amf_graph.specs.Rooted.{content};
ghost use Rattle.amf_show.specs.Listing.{shown_node, shown_graph, AppendsListing, IsListing};

use crate::class_text::class_texts;
use crate::line_number::{count_up, push_line_number};
use crate::lister::Lister;
use amf_graph::Rooted;
use amf_iso::Numbering;
use amf_wire::Memory;
use std::alloc::Global;

/// The listing of a graph: a line for the root, and a line for each node to which it leads, in canonical order. A node is
/// named by its place in that order. It gives up where there is no memory.
pub fn graph_listing(alloc: Global, graph: &Rooted) -> Result<Vec<u8>, Memory>
    ensures listed { IfOk result (λ listing. IsListing (content graph.now) listing.items) }
{
    let numbering = Numbering::of(alloc, graph)?;
    let classes = class_texts(alloc, graph, &numbering)?;
    let lister = Lister {
        alloc,
        graph,
        numbering: &numbering,
        classes: &classes,
    };
    let mut listing = Vec::new(alloc);
    lister.push_graph(&mut listing)?;
    Ok(listing)
}

/// Appends the listing of a graph, as [`graph_listing`] gives it.
///
/// After an end `out` is as before. It gives up where there is no memory.
pub fn show(alloc: Global, graph: &Rooted, out: &mut Vec<u8>) -> Result<(), Memory>
    ensures shown { OnOk result (AppendsListing (content graph.now) out.old.items out.new.items) }
    ensures untouched { OnErr result (out.new.items ≡ out.old.items) }
{
    let listing = graph_listing(alloc, graph)?;
    out.extend_from_slice(&listing)?;
    Ok(())
}

impl Lister<'_> {
    /// Appends the lines of the graph.
    fn push_graph(&self, out: &mut Vec<u8>) -> Result<(), Memory>
        requires { IsOrder (content self.now.graph.now) self.now.numbering.now }
        ensures { OnOk result (out.new.items ≡ out.old.items ++ shown_graph (content self.now.graph.now) self.now.numbering.now) }
    {
        self.graph.is_finished();
        out.extend_from_slice(b"root ")?;
        self.push_value(self.graph.root(), out)?;
        out.push(b'\n')?;
        self.push_nodes(out)
    }

    /// Appends a line for each node that has a number.
    fn push_nodes(&self, out: &mut Vec<u8>) -> Result<(), Memory>
        requires { IsOrder (content self.now.graph.now) self.now.numbering.now }
        ensures { OnOk result (out.new.items ≡ out.old.items ++ flat_map (shown_node (content self.now.graph.now) self.now.numbering.now) self.now.numbering.now) }
    {
        let mut text = Vec::new(self.alloc);
        push_line_number(0, &mut text)?;
        for number in 0..self.numbering.count() {
            self.push_line(text.as_slice(), self.numbering.node_at(number), out)?;
            count_up(number, &mut text)?;
        }
        Ok(())
    }
}
