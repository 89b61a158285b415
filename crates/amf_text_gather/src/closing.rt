//! What a frame comes to at its bracket.

ghost use Rattle.std.specs.Prelude.{◌≡◌, true, map, set};
ghost use Rattle.amf_text_trees.specs.Sheets as sheet;
ghost use Rattle.amf_text_trees.specs.Sheets.{store};
ghost use Rattle.amf_text_trees.specs.Sheets.{node as node_entry};
ghost use Rattle.amf_text_trees.specs.Pieces.{value as value_piece};
ghost use Rattle.amf_text_trees.specs.Frames.{piece_of, sheet_behind};
ghost use Rattle.amf_text_gather.specs.Frames.{frame_of, is_lone};
ghost use Rattle.amf_text_pages.specs.Pages.{kept_of, sheet_of};
ghost use Rattle.amf_text_gather.specs.Pieces.{piece_named};

use crate::frame::Frame;
use crate::piece::Piece;
use amf_text_pages::{Entry, Node, Sheet};
use std::alloc::Global;

/// A piece, and the sheet behind it.
#[derive(Drop)]
pub(crate) struct Closed {
    pub(crate) piece: Piece,
    pub(crate) sheet: Sheet,
}

/// Puts a node in the place of its number.
fn put(nodes: &mut Vec<Node>, number: usize, node: Node)
    ensures { map kept_of nodes.new.items ≡ set (map kept_of nodes.old.items) number (kept_of node) }
{
    if number < nodes.len() {
        nodes[number] = node;
    }
}

/// A node that is complete.
fn stored(sheet: Sheet, number: usize, node: Node) -> Closed
    ensures piece { piece_named result.piece ≡ value_piece (node_entry number) }
    ensures sheet { sheet_of result.sheet ≡ store number (kept_of node) (sheet_of sheet) }
{
    let mut sheet = sheet;
    put(&mut sheet.nodes, number, node);
    Closed {
        piece: Piece::Value(Entry::Node(number)),
        sheet,
    }
}

/// A piece that changes no sheet.
fn alone(piece: Piece, sheet: Sheet) -> Closed
    ensures piece { result.piece ≡ piece }
    ensures sheet { result.sheet ≡ sheet }
{
    Closed { piece, sheet }
}

/// What a frame comes to that is no node and has no sheet of its own.
fn lone_piece(frame: Frame) -> Piece
    requires { is_lone (frame_of frame) ≡ true }
    ensures { (s : sheet.Sheet) → piece_named result ≡ piece_of s (frame_of frame) }
{
    match frame {
        Frame::List(entries) => Piece::Values(entries),
        Frame::Members(pairs, _) => Piece::Members(pairs),
        Frame::Whole(entry) => Piece::Value(entry),
        Frame::Quoted(text) => Piece::Text(text),
        Frame::Patterns(patterns) => Piece::Patterns(patterns),
        Frame::Ints(ints) => Piece::Ints(ints),
        Frame::Uints(uints) => Piece::Uints(uints),
        Frame::Words(words) => Piece::Words(words),
        Frame::Headers(headers) => Piece::Headers(headers),
        Frame::Messages(messages) => Piece::Messages(messages),
        _ => Piece::Flag(false),
    }
}

/// What a frame comes to at its bracket.
pub(crate) fn close(alloc: Global, frame: Frame, sheet: Sheet) -> Closed
    ensures piece { piece_named result.piece ≡ piece_of (sheet_of sheet) (frame_of frame) }
    ensures sheet { sheet_of result.sheet ≡ sheet_behind (sheet_of sheet) (frame_of frame) }
{
    match frame {
        Frame::Items(node, entries) => stored(sheet, node, Node::Array(Vec::new(alloc), entries)),
        Frame::Plain(node, pairs, _) => stored(sheet, node, Node::Open(pairs)),
        Frame::Done(node, kept) => stored(sheet, node, kept),
        Frame::Class(node, class) => stored(sheet, node, Node::Sealed(class, Vec::new(alloc))),
        Frame::Doubles(node, numbers, fixed) => {
            stored(sheet, node, Node::Doubles(fixed, numbers))
        }
        Frame::Dictionary(node, entries, weak) => {
            stored(sheet, node, Node::Dictionary(weak, entries))
        }
        Frame::Document(document) => alone(
            Piece::Document(document.with_sheet(sheet)),
            Sheet::new(alloc),
        ),
        Frame::Header(header, around) => alone(Piece::Header(header.with_sheet(sheet)), around),
        Frame::Message(message, around) => alone(Piece::Message(message.with_sheet(sheet)), around),
        lone => alone(lone_piece(lone), sheet),
    }
}
