//! The graphs of a document.

ghost use Rattle.std.specs.Prelude.{◌≡◌, map, IfOk};
ghost use Rattle.std.specs.List.{AllByRecursion};
ghost use Rattle.amf_text.specs.Tellable.{EachGraph};
ghost use Rattle.amf_text_trees.specs.Pages.{page_graph};
ghost use Rattle.amf_text_graphs.specs.Graphs.{IsWritable, header_graph, message_graph, graphs_in};
ghost use Rattle.amf_text_pages.specs.Pages.{page_of, header_of, message_of, document_of};
ghost use Rattle.amf_text_pages.specs.Written.{header_written, message_written, document_written};

use crate::graphs::page_graph;
use amf_text_pages::{Document, Header, Message, Written, WrittenHeader, WrittenMessage};
use amf_wire::Memory;
use std::alloc::Global;
use std::hash::RandomState;

/// A header with its graph.
fn header_with_graph(
    alloc: Global,
    keys: Option<RandomState>,
    header: Header,
) -> Result<WrittenHeader, Memory>
    requires { IsWritable (header_graph (header_of header)).graph }
    ensures { IfOk result (λ h. header_written h ≡ header_graph (header_of header)) }
{
    let graph = page_graph(alloc, keys, header.page)?;
    Ok(WrittenHeader {
        name: header.name,
        must: header.must,
        form: header.form,
        graph,
    })
}

/// A message with its graph.
fn message_with_graph(
    alloc: Global,
    keys: Option<RandomState>,
    message: Message,
) -> Result<WrittenMessage, Memory>
    requires { IsWritable (message_graph (message_of message)).graph }
    ensures { IfOk result (λ m. message_written m ≡ message_graph (message_of message)) }
{
    let graph = page_graph(alloc, keys, message.page)?;
    Ok(WrittenMessage {
        target: message.target,
        response: message.response,
        form: message.form,
        graph,
    })
}

/// Headers with their graphs.
fn headers_with_graphs(
    alloc: Global,
    keys: Option<RandomState>,
    headers: Vec<Header>,
) -> Result<Vec<WrittenHeader>, Memory>
    requires { AllByRecursion (λ h. IsWritable h.graph) (map header_graph (map header_of headers.items)) }
    ensures { IfOk result (λ all. map header_written all.items ≡ map header_graph (map header_of headers.items)) }
{
    let mut all = Vec::new(alloc);
    for header in headers {
        all.push(header_with_graph(alloc, keys, header)?)?;
    }
    Ok(all)
}

/// Messages with their graphs.
fn messages_with_graphs(
    alloc: Global,
    keys: Option<RandomState>,
    messages: Vec<Message>,
) -> Result<Vec<WrittenMessage>, Memory>
    requires { AllByRecursion (λ m. IsWritable m.graph) (map message_graph (map message_of messages.items)) }
    ensures { IfOk result (λ all. map message_written all.items ≡ map message_graph (map message_of messages.items)) }
{
    let mut all = Vec::new(alloc);
    for message in messages {
        all.push(message_with_graph(alloc, keys, message)?)?;
    }
    Ok(all)
}

/// A document with graphs in place of its pages, which have to be sound and small enough for their numbers (`IsWritable`).
/// Labels are looked up by hashes with these keys. It gives up where there is no memory.
pub fn document_with_graphs(
    alloc: Global,
    keys: Option<RandomState>,
    document: Document,
) -> Result<Written, Memory>
    requires { EachGraph IsWritable (graphs_in (document_of document)) }
    ensures { IfOk result (λ w. document_written w ≡ graphs_in (document_of document)) }
{
    Ok(match document {
        Document::Value3(page) => Written::Value3(page_graph(alloc, keys, page)?),
        Document::Value0(page) => Written::Value0(page_graph(alloc, keys, page)?),
        Document::File(name, version, page) => Written::SharedObject {
            name,
            version,
            graph: page_graph(alloc, keys, page)?,
        },
        Document::Packet(version, headers, messages) => Written::Packet {
            version,
            headers: headers_with_graphs(alloc, keys, headers)?,
            messages: messages_with_graphs(alloc, keys, messages)?,
        },
    })
}
