ghost use Rattle.std.specs.Prelude.{◌≡◌, ◌<◌, ◌++◌, length, OnOk};
ghost use Rattle.amf_graph.specs.Graph.{node_at};
ghost use Rattle.amf_graph.specs.Rooted.{content};
ghost use Rattle.amf_show.specs.Listing.{contents_of};
ghost use Rattle.amf_show.specs.Shown.{line_feed};

use crate::contents::{push_byte_array, push_date, push_worded};
use crate::lister::Lister;
use crate::numbers::push_word;
use crate::vectors::{push_doubles, push_ints, push_uints};
use amf_graph::{NodeId, NodeView};
use amf_wire::Memory;

impl Lister<'_> {
    /// Appends the line of a node, whose number is given.
    pub(crate) fn push_line(
        &self,
        number: &[u8],
        node: NodeId,
        out: &mut Vec<u8>,
    ) -> Result<(), Memory>
        requires { node.0 < length self.now.graph.now.arena.nodes }
        ensures { OnOk result (out.new.items ≡ out.old.items ++ (number.now ++ contents_of self.now.numbering.now (node_at (content self.now.graph.now) node.0) ++ line_feed)) }
    {
        push_word(number, out)?;
        self.push_contents(node, out)?;
        out.push(b'\n')?;
        Ok(())
    }

    /// Appends what a node holds.
    fn push_contents(&self, node: NodeId, out: &mut Vec<u8>) -> Result<(), Memory>
        requires { node.0 < length self.now.graph.now.arena.nodes }
        ensures { OnOk result (out.new.items ≡ out.old.items ++ contents_of self.now.numbering.now (node_at (content self.now.graph.now) node.0)) }
    {
        self.graph.is_finished();
        match self.graph.node(node) {
            NodeView::XmlDocument(text) => push_worded(b"xmldoc ", text, out),
            NodeView::Xml(text) => push_worded(b"xml ", text, out),
            NodeView::Date(milliseconds) => push_date(milliseconds, out),
            NodeView::Bytes(bytes) => push_byte_array(bytes, out),
            NodeView::Ints { fixed, items } => push_ints(fixed, items, out),
            NodeView::Uints { fixed, items } => push_uints(fixed, items, out),
            NodeView::Doubles { fixed, items } => push_doubles(fixed, items, out),
            NodeView::Array { items, names } => self.push_array(items, names, out),
            NodeView::Object {
                traits,
                sealed,
                members,
            } => self.push_object(traits, sealed, members, out),
            NodeView::Wrapper { class, value } => self.push_wrapper(class, value, out),
            NodeView::Values { fixed, of, items } => self.push_vector(fixed, of, items, out),
            NodeView::Dictionary { weak, entries } => self.push_dictionary(weak, entries, out),
        }
    }
}
