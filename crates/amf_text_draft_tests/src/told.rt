//! What texts mean, or why they are refused, as texts: graphs as `shown` has them.

use crate::shown::{put, put_graph, put_text};
use amf_text_draft::{
    FileVersion, PacketForm, Refusal, TextEnd, Written, WrittenHeader, WrittenMessage, read_text,
};
use std::alloc::Global;
use std::process::Abort;

fn version_word(version: FileVersion) -> &'static str {
    match version {
        FileVersion::Amf0 => " 0; ",
        FileVersion::Amf3 => " 3; ",
    }
}

fn form_word(form: PacketForm) -> &'static str {
    match form {
        PacketForm::Plain => " plain; ",
        PacketForm::Amf3 => " amf3; ",
        PacketForm::Call => " call; ",
    }
}

fn put_header(rt: &impl Abort, header: &WrittenHeader, out: &mut String) {
    put(rt, "header ", out);
    put_text(rt, &header.name, out);
    put(rt, if header.must { " must" } else { "" }, out);
    put(rt, form_word(header.form), out);
    put_graph(rt, &header.graph, out);
}

fn put_message(rt: &impl Abort, message: &WrittenMessage, out: &mut String) {
    put(rt, "message ", out);
    put_text(rt, &message.target, out);
    put(rt, " ", out);
    put_text(rt, &message.response, out);
    put(rt, form_word(message.form), out);
    put_graph(rt, &message.graph, out);
}

fn put_written(rt: &impl Abort, written: &Written, out: &mut String) {
    match written {
        Written::Value3(graph) => {
            put(rt, "amf3; ", out);
            put_graph(rt, graph, out);
        }
        Written::Value0(graph) => {
            put(rt, "amf0; ", out);
            put_graph(rt, graph, out);
        }
        Written::SharedObject {
            name,
            version,
            graph,
        } => {
            put(rt, "sol ", out);
            put_text(rt, name, out);
            put(rt, version_word(*version), out);
            put_graph(rt, graph, out);
        }
        Written::Packet {
            version,
            headers,
            messages,
        } => {
            write!(out, "packet {version}; ").expect(rt, "memory");
            for header in headers {
                put_header(rt, header, out);
            }
            for message in messages {
                put_message(rt, message, out);
            }
        }
    }
}

fn put_refusal(rt: &impl Abort, refusal: Refusal, out: &mut String) {
    let Refusal {
        reason,
        at,
        line,
        column,
    } = refusal;
    write!(out, "{reason:?} at {at} line {line} column {column}").expect(rt, "memory");
}

/// What a text means, or its refusal.
pub(crate) fn told(rt: &impl Abort, alloc: Global, text: &[u8]) -> String {
    let mut out = String::new(alloc);
    match read_text(alloc, None, text) {
        Ok(written) => put_written(rt, &written, &mut out),
        Err(TextEnd::Refused(refusal)) => put_refusal(rt, refusal, &mut out),
        Err(TextEnd::Memory) => put(rt, "no memory", &mut out),
    }
    out
}
