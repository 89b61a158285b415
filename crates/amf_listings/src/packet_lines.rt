ghost use Rattle.std.specs.Prelude.{◌≡◌, ◌++◌, OnOk};
ghost use Rattle.amf_packet.specs.Content.{body_of, header_of, message_of};
ghost use Rattle.amf_listings.specs.PacketListing.{form_name, header_line, message_line, packet_line, shown_must};

use amf_packet::{Body, Header, Message};
use amf_show::{push_word, show_text};
use amf_wire::Memory;
use itoa::Buffer;
use std::alloc::Global;

/// Appends the first line of a packet: its version.
#[tactic(auto, unfolding(crate::specs::PacketListing::packet_line))]
pub(crate) fn push_version(version: u16, out: &mut Vec<u8>) -> Result<(), Memory>
    ensures { OnOk result (out.new.items ≡ out.old.items ++ packet_line version) }
{
    let mut digits = Buffer::new();
    push_word(b"packet ", out)?;
    push_word(digits.format(version).as_bytes(), out)?;
    push_word(b"\n", out)
}

/// Appends the line of a header: its name, and whether it must be understood.
#[tactic(auto, unfolding(crate::specs::PacketListing::header_line))]
pub(crate) fn push_header_line(
    alloc: Global,
    header: &Header,
    out: &mut Vec<u8>,
) -> Result<(), Memory>
    ensures { OnOk result (out.new.items ≡ out.old.items ++ header_line (header_of header.now)) }
{
    push_word(b"header ", out)?;
    show_text(alloc, header.name.as_bytes(), out)?;
    push_word(b" ", out)?;
    push_word(must_word(header.must), out)?;
    push_word(b"\n", out)
}

/// Appends the line of a message: its target, its response, and the form of its value.
#[tactic(auto, unfolding(crate::specs::PacketListing::message_line))]
pub(crate) fn push_message_line(
    alloc: Global,
    message: &Message,
    out: &mut Vec<u8>,
) -> Result<(), Memory>
    ensures { OnOk result (out.new.items ≡ out.old.items ++ message_line (message_of message.now)) }
{
    push_word(b"message ", out)?;
    show_text(alloc, message.target.as_bytes(), out)?;
    push_word(b" ", out)?;
    show_text(alloc, message.response.as_bytes(), out)?;
    push_word(b" ", out)?;
    push_word(form_word(&message.body), out)?;
    push_word(b"\n", out)
}

fn must_word(must: bool) -> &'static [u8]
    ensures { result.now ≡ shown_must must }
{
    if must { b"1" } else { b"0" }
}

fn form_word(body: &Body) -> &'static [u8]
    ensures { result.now ≡ form_name (body_of body.now).form }
{
    match body {
        Body::Call(_) => b"call",
        Body::Amf3(_) => b"amf3",
        Body::Plain(_) => b"plain",
    }
}
