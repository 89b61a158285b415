ghost use Rattle.std.specs.Prelude.{◌≡◌, ◌<◌, ◌^◌, ◌↔◌, ◌++◌, [], length, IfOk, codes, decimal, false};
ghost use Rattle.std.specs.Result.{IsErrOf};
ghost use Rattle.amf_io.specs.Outside.{Keeps};
ghost use Rattle.amf_wire.specs.Style.{canonical};
ghost use Rattle.amf_wire.specs.Text.{IsText};
ghost use Rattle.amf_graph.specs.declared.lack.Lack.{Lack};
ghost use Rattle.amf_graph.specs.Rooted.{content};
ghost use Rattle.amf3_spelling.specs.Lacks3.{IsLack3};
ghost use Rattle.amf_packet.specs.Packet.{SpelledPacket};
ghost use Rattle.std.specs.Int.{to_be_bytes, w16};
ghost use Rattle.http_link.specs.Sent.{line};
ghost use Rattle.amf_client.specs.Asking.{request, call_packet, packet_with, are_arguments as arguments_are, IsAsk};
ghost use Rattle.amf_client.specs.Asked.{Writes, HasBytes, CountsWrites, Spares};

use crate::AskEnd;
use amf_graph::{NodeView, Rooted, Value, WriteEnd};
use amf_io::Link;
use amf_wire::{Memory, Name};
use amf3_write::write3_keyed;
use http_header::HeaderValue;
use http_link::send;
use std::alloc::Global;
use std::hash::RandomState;

/// Writes a call to the gateway at this port of 127.0.0.1: a POST (RFC 9112, section 3) of a packet (AMF 0, 4.1) whose one
/// message names the operation by the target, and asks to be answered to `/1`, with the canonical spelling of the arguments.
/// The target is a text of at most 65,535 bytes.
///
/// `NotArgs` comes exactly where the arguments are no array without names, and `NoSpelling` exactly where they are one, have no
/// canonical spelling and there is memory; it tells their first lack. With these and with `Memory` nothing is written.
/// `WriteFault` comes only where the count of the link's write faults rose, and a front of the call was written then.
///
/// Texts are looked up by fixed keys, so whoever knows them can make arguments that take long: `write_call_keyed` is passed others.
pub fn write_call<L: Link>(
    alloc: Global,
    link: &mut L,
    port: u16,
    target: &Name,
    args: &Rooted,
) -> Result<(), AskEnd>
    requires text { IsText target.now }
    requires short { length target.now < 2 ^ 16 }
    ensures tells { L.tells_held link.new → L.tells_held link.old }
    ensures writes { L.tells_held link.new → Writes (IsAsk port target.now (content args.now)) (L.held link.old) (L.held link.new) result }
    ensures asked { HasBytes (IsAsk port target.now (content args.now)) result }
    ensures arguments { IsErrOf result AskEnd.NotArgs ↔ (arguments_are (content args.now) ≡ false) }
    ensures lack { (l : Lack) → IsErrOf result (AskEnd.NoSpelling l) → IsLack3 (content args.now) l.node l.kind }
    ensures nothing { Spares link.old link.new result }
    ensures cause { CountsWrites (L.write_faults link.old) (L.write_faults link.new) result }
    ensures other_side { Keeps (L.tells_left link.old) (L.tells_left link.new) (L.left link.old) (L.left link.new) }
    ensures other_count { L.read_faults link.new ≡ L.read_faults link.old }
{
    write_call_keyed(alloc, None, link, port, target, args)
}

/// Does what `write_call` does, with texts that are looked up by these keys, or by fixed ones where there are none. What is
/// written is the same for all keys.
pub fn write_call_keyed<L: Link>(
    alloc: Global,
    keys: Option<RandomState>,
    link: &mut L,
    port: u16,
    target: &Name,
    args: &Rooted,
) -> Result<(), AskEnd>
    requires text { IsText target.now }
    requires short { length target.now < 2 ^ 16 }
    ensures tells { L.tells_held link.new → L.tells_held link.old }
    ensures writes { L.tells_held link.new → Writes (IsAsk port target.now (content args.now)) (L.held link.old) (L.held link.new) result }
    ensures asked { HasBytes (IsAsk port target.now (content args.now)) result }
    ensures arguments { IsErrOf result AskEnd.NotArgs ↔ (arguments_are (content args.now) ≡ false) }
    ensures lack { (l : Lack) → IsErrOf result (AskEnd.NoSpelling l) → IsLack3 (content args.now) l.node l.kind }
    ensures nothing { Spares link.old link.new result }
    ensures cause { CountsWrites (L.write_faults link.old) (L.write_faults link.new) result }
    ensures other_side { Keeps (L.tells_left link.old) (L.tells_left link.new) (L.left link.old) (L.left link.new) }
    ensures other_count { L.read_faults link.new ≡ L.read_faults link.old }
{
    if !are_arguments(args) {
        return Err(AskEnd::NotArgs);
    }
    let packet = packet_bytes(alloc, keys, target, args)?;
    let bytes = request_bytes(alloc, port, packet.as_slice())?;
    send(link, bytes.as_slice())?;
    Ok(())
}

/// Whether the root is an array without names.
fn are_arguments(args: &Rooted) -> bool
    ensures { result ≡ arguments_are (content args.now) }
{
    args.is_finished();
    let Value::Node(node) = args.root() else {
        return false;
    };
    match args.node(node) {
        NodeView::Array { names, .. } => names.is_empty(),
        _ => false,
    }
}

/// The bytes of the packet of a call.
fn packet_bytes(
    alloc: Global,
    keys: Option<RandomState>,
    target: &Name,
    args: &Rooted,
) -> Result<Vec<u8>, AskEnd>
    requires text { IsText target.now }
    requires short { length target.now < 2 ^ 16 }
    ensures spelled { IfOk result (λ v. SpelledPacket canonical (call_packet target.now (content args.now)) v.items) }
    ensures lack { (l : Lack) → IsErrOf result (AskEnd.NoSpelling l) → IsLack3 (content args.now) l.node l.kind }
    ensures no_arguments { IsErrOf result AskEnd.NotArgs → ⊥ }
    ensures no_fault { IsErrOf result AskEnd.WriteFault → ⊥ }
{
    let mut out = packet_start(alloc, target)?;
    match write3_keyed(alloc, keys, args, &mut out) {
        Ok(()) => Ok(out),
        Err(WriteEnd::NoSpelling(lack)) => Err(AskEnd::NoSpelling(lack)),
        Err(WriteEnd::Memory) => Err(AskEnd::Memory),
    }
}

/// The bytes of the packet before its arguments.
fn packet_start(alloc: Global, target: &Name) -> Result<Vec<u8>, Memory>
    requires { length target.now < 2 ^ 16 }
    ensures { IfOk result (λ v. v.items ≡ packet_with (to_be_bytes w16 (length target.now)) target.now []) }
{
    let mut out = Vec::new(alloc);
    out.extend_from_slice(&[0, 3, 0, 0, 0, 1])?;
    out.extend_from_slice(&(target.as_bytes().len() as u16).to_be_bytes())?;
    out.extend_from_slice(target.as_bytes())?;
    out.extend_from_slice(&[0, 2, 47, 49, 255, 255, 255, 255, 17])?;
    Ok(out)
}

/// The first two lines of a request.
fn first_lines(alloc: Global, port: u16) -> Result<Vec<u8>, Memory>
    ensures { IfOk result (λ v. v.items ≡ line (codes "POST /amf HTTP/1.1") ++ line (codes "Host: 127.0.0.1:" ++ decimal port)) }
{
    let mut out = Vec::new(alloc);
    out.extend_from_slice(b"POST /amf HTTP/1.1\r\n")?;
    out.extend_from_slice(b"Host: 127.0.0.1:")?;
    out.extend_from_slice(HeaderValue::from_u64(alloc, u64::from(port))?.as_bytes())?;
    out.extend_from_slice(b"\r\n")?;
    Ok(out)
}

/// The bytes of a request of the gateway at this port of 127.0.0.1: a POST whose content is this packet (RFC 9112, section 3). It gives
/// up where there is no memory.
pub fn request_bytes(alloc: Global, port: u16, packet: &[u8]) -> Result<Vec<u8>, Memory>
    ensures { IfOk result (λ v. v.items ≡ request port packet.now) }
{
    let mut out = first_lines(alloc, port)?;
    out.extend_from_slice(b"Content-Type: application/x-amf\r\n")?;
    out.extend_from_slice(b"Content-Length: ")?;
    out.extend_from_slice(HeaderValue::from_u64(alloc, packet.len() as u64)?.as_bytes())?;
    out.extend_from_slice(b"\r\n")?;
    out.extend_from_slice(b"\r\n")?;
    out.extend_from_slice(packet)?;
    Ok(out)
}
