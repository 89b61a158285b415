//! The bytes by which a backend is asked.

ghost use Rattle.std.specs.Prelude.{◌≡◌, ◌++◌, IfOk, OnOk, codes, decimal, length};
ghost use Rattle.http_link.specs.Sent.{line};
ghost use Rattle.http_backend.specs.Posted.{posted, head, path, named_line, caller_lines, kind_lines, nodes_line, top_lines, end_lines};

use crate::escape::push_escaped;
use amf_wire::Memory;
use http_header::HeaderValue;
use std::alloc::{AllocError, Global};
use std::marker::Model;

/// What a backend is asked: an operation of a service, for a caller, with arguments.
#[derive(Drop)]
pub struct Question<'a> {
    pub service: &'a [u8],
    pub operation: &'a [u8],
    /// The number of a Flex client, or nothing.
    pub client: &'a [u8],
    /// The identifier of a Flex message, or nothing.
    pub message: &'a [u8],
    /// The source that a Flex message names, or nothing.
    pub source: &'a [u8],
    /// Whether the body is a whole text, whose nodes may be shared, and no bare array.
    pub whole: bool,
    pub body: &'a [u8],
}

impl<'a> Model for Question<'a> {
    ghost use Rattle.http_backend.specs.Posted.{Question};

    ghost Value = { Question };

    ghost view = { λ q. record { service = q.service.now; operation = q.operation.now; client = q.client.now; message = q.message.now; source = q.source.now; whole = q.whole; body = q.body.now } };
}

/// Appends the first line.
fn push_first(out: &mut Vec<u8>, question: &Question<'_>) -> Result<(), AllocError>
    ensures { OnOk result (out.new.items ≡ out.old.items ++ line (codes "POST " ++ path question.now ++ codes " HTTP/1.0")) }
{
    out.extend_from_slice(b"POST /amf/")?;
    push_escaped(out, question.service)?;
    out.extend_from_slice(b"/")?;
    push_escaped(out, question.operation)?;
    out.extend_from_slice(b" HTTP/1.0\r\n")
}

/// Appends a line.
fn push_line(out: &mut Vec<u8>, text: &[u8]) -> Result<(), AllocError>
    ensures { OnOk result (out.new.items ≡ out.old.items ++ line text.now) }
{
    out.extend_from_slice(text)?;
    out.extend_from_slice(b"\r\n")
}

/// Appends bytes as they are.
fn push(out: &mut Vec<u8>, bytes: &[u8]) -> Result<(), AllocError>
    ensures { OnOk result (out.new.items ≡ out.old.items ++ bytes.now) }
{
    out.extend_from_slice(bytes)
}

/// Appends a line of a name and a number.
fn push_number(out: &mut Vec<u8>, alloc: Global, name: &[u8], number: u64) -> Result<(), AllocError>
    ensures { OnOk result (out.new.items ≡ out.old.items ++ line (name.now ++ decimal number)) }
{
    out.extend_from_slice(name)?;
    out.extend_from_slice(HeaderValue::from_u64(alloc, number)?.as_bytes())?;
    out.extend_from_slice(b"\r\n")
}

/// Appends a line of a name and a value, unless this is empty.
fn push_named(out: &mut Vec<u8>, name: &[u8], value: &[u8]) -> Result<(), AllocError>
    ensures { OnOk result (out.new.items ≡ out.old.items ++ named_line name.now value.now) }
{
    if value.is_empty() {
        return Ok(());
    }
    out.extend_from_slice(name)?;
    push_escaped(out, value)?;
    out.extend_from_slice(b"\r\n")
}

/// Appends what is said of the caller.
fn push_caller(out: &mut Vec<u8>, question: &Question<'_>) -> Result<(), AllocError>
    ensures { OnOk result (out.new.items ≡ out.old.items ++ caller_lines question.now) }
{
    push_named(out, b"AMF-Client: ", question.client)?;
    push_named(out, b"AMF-Message: ", question.message)?;
    push_named(out, b"AMF-Source: ", question.source)
}

/// Appends what is said of the body.
fn push_kind(out: &mut Vec<u8>, alloc: Global, size: u64) -> Result<(), AllocError>
    ensures { OnOk result (out.new.items ≡ out.old.items ++ kind_lines size) }
{
    push_line(out, b"Content-Type: application/json")?;
    push_number(out, alloc, b"Content-Length: ", size)?;
    push_line(out, b"Connection: close")
}

/// Appends what names the place.
fn push_top(
    out: &mut Vec<u8>,
    alloc: Global,
    port: u16,
    question: &Question<'_>,
) -> Result<(), AllocError>
    ensures { OnOk result (out.new.items ≡ out.old.items ++ top_lines port question.now) }
{
    push_first(out, question)?;
    push_number(out, alloc, b"Host: 127.0.0.1:", u64::from(port))
}

/// Appends the line that says that the body is a whole text, if it is one.
fn push_nodes(out: &mut Vec<u8>, whole: bool) -> Result<(), AllocError>
    ensures { OnOk result (out.new.items ≡ out.old.items ++ nodes_line whole) }
{
    if whole {
        return push_line(out, b"AMF-Nodes: 1");
    }
    Ok(())
}

/// Appends what is said of the caller and of the nodes, and the end of the head.
fn push_end(out: &mut Vec<u8>, question: &Question<'_>) -> Result<(), AllocError>
    ensures { OnOk result (out.new.items ≡ out.old.items ++ end_lines question.now) }
{
    push_caller(out, question)?;
    push_nodes(out, question.whole)?;
    push_line(out, b"")
}

/// Appends the head.
fn push_head(
    out: &mut Vec<u8>,
    alloc: Global,
    port: u16,
    question: &Question<'_>,
) -> Result<(), AllocError>
    ensures { OnOk result (out.new.items ≡ out.old.items ++ head port question.now) }
{
    push_top(out, alloc, port, question)?;
    push_kind(out, alloc, question.body.len() as u64)?;
    push_end(out, question)
}

/// The bytes of a POST to the backend at this port of 127.0.0.1. It gives up where there is no memory.
pub fn post(alloc: Global, port: u16, question: &Question<'_>) -> Result<Vec<u8>, Memory>
    ensures { IfOk result (λ v. v.items ≡ posted port question.now) }
{
    let mut out = Vec::new(alloc);
    push_head(&mut out, alloc, port, question)?;
    push(&mut out, question.body)?;
    Ok(out)
}
