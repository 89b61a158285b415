//! What a part of a text comes to.

ghost use Rattle.std.specs.Prelude.{◌≡◌, IfOk};
ghost use Rattle.amf_text_trees.specs.Frames.{take};
ghost use Rattle.amf_text_gather.specs.Frames.{frame_of};
ghost use Rattle.amf_text_gather.specs.Pieces.{piece_named};

use crate::frame::Frame;
use amf_text_pages::{Document, Entry, FileVersion, Header, Message, PacketForm};
use amf_wire::Memory;
use std::alloc::Global;

/// What a part of a text comes to.
#[derive(Drop)]
pub(crate) enum Piece {
    Value(Entry),
    Values(Vec<Entry>),
    Members(Vec<(Vec<u8>, Entry)>),
    Text(Vec<u8>),
    Bytes(Vec<u8>),
    Pattern(u64),
    Patterns(Vec<u64>),
    Int(i32),
    Ints(Vec<i32>),
    Uint(u32),
    Uints(Vec<u32>),
    Words(Vec<Vec<u8>>),
    Flag(bool),
    Form(PacketForm),
    Version(FileVersion),
    PacketVersion(u16),
    Header(Header),
    Headers(Vec<Header>),
    Message(Message),
    Messages(Vec<Message>),
    Document(Document),
}

impl Frame {
    /// Takes a piece.
    pub(crate) fn take(self, alloc: Global, piece: Piece) -> Result<Frame, Memory>
        ensures { IfOk result (λ f. frame_of f ≡ take (piece_named piece) (frame_of self)) }
    {
        match piece {
            Piece::Value(entry) => self.take_value(entry),
            Piece::Values(entries) => Ok(self.take_values(entries)),
            Piece::Members(pairs) => Ok(self.take_members(pairs)),
            Piece::Text(text) => self.take_text(alloc, text),
            Piece::Bytes(bytes) => Ok(self.take_bytes(bytes)),
            Piece::Pattern(pattern) => self.take_pattern(pattern),
            Piece::Patterns(patterns) => Ok(self.take_patterns(patterns)),
            Piece::Int(int) => self.take_int(int),
            Piece::Ints(ints) => Ok(self.take_ints(ints)),
            Piece::Uint(uint) => self.take_uint(uint),
            Piece::Uints(uints) => Ok(self.take_uints(uints)),
            Piece::Words(words) => Ok(self.take_words(words)),
            Piece::Flag(flag) => Ok(self.take_flag(flag)),
            Piece::Form(form) => Ok(self.take_form(form)),
            Piece::Version(version) => Ok(self.take_version(version)),
            Piece::PacketVersion(version) => Ok(self.take_packet_version(version)),
            Piece::Header(header) => self.take_header(header),
            Piece::Headers(headers) => Ok(self.take_headers(headers)),
            Piece::Message(message) => self.take_message(message),
            Piece::Messages(messages) => Ok(self.take_messages(messages)),
            Piece::Document(document) => Ok(self.take_document(document)),
        }
    }
}
