//! Tells the nodes of a page that have no parts.

ghost use Rattle.std.specs.Prelude.{◌<◌, length, OnOk};
ghost use Rattle.amf_graph.specs.Graph.{doubles, xml, xml_document};
ghost use Rattle.amf_wire.specs.Text.{IsText};
ghost use Rattle.amf_text_graphs.specs.Telling.{LeafTold};

use crate::book::Book;
use crate::items;
use amf_graph::{Leaf, NodeId};
use amf_wire::Memory;
use std::alloc::Global;

/// Tells a node of XML.
#[tactic(auto, using(crate::proofs::Tellings::xml_told))]
pub(crate) fn tell_xml(book: &mut Book, node: NodeId, bytes: &[u8]) -> Result<(), Memory>
    requires there { node.0 < length book.old.nodes }
    requires text { IsText bytes.now }
    ensures { OnOk result (LeafTold book.old book.new node.0 (xml bytes.now)) }
{
    let text = book.text(bytes)?;
    book.tell_leaf(node, Leaf::Xml(text));
    Ok(())
}

/// Tells a node of an XML document.
#[tactic(auto, using(crate::proofs::Tellings::xml_document_told))]
pub(crate) fn tell_xml_document(book: &mut Book, node: NodeId, bytes: &[u8]) -> Result<(), Memory>
    requires there { node.0 < length book.old.nodes }
    requires text { IsText bytes.now }
    ensures { OnOk result (LeafTold book.old book.new node.0 (xml_document bytes.now)) }
{
    let text = book.text(bytes)?;
    book.tell_leaf(node, Leaf::XmlDocument(text));
    Ok(())
}

/// Tells a vector of doubles by their bits.
#[tactic(auto, using(crate::proofs::Tellings::doubles_told))]
pub(crate) fn tell_doubles(
    alloc: Global,
    book: &mut Book,
    node: NodeId,
    fixed: bool,
    items: &[u64],
) -> Result<(), Memory>
    requires { node.0 < length book.old.nodes }
    ensures { OnOk result (LeafTold book.old book.new node.0 (doubles fixed items.now)) }
{
    let patterns = items::patterns(alloc, items)?;
    book.tell_leaf(node, Leaf::Doubles(fixed, patterns));
    Ok(())
}
