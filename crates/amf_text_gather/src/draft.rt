//! What has been gathered of a text so far: its sheet, and what is open.

ghost use Rattle.std.specs.Prelude.{◌≡◌, ◌∷◌, ◌++◌, [], None, IfOk, OnOk, MatchOption};
ghost use Rattle.amf_text_trees.specs.Sheets.{no_sheet, count, begin, call};
ghost use Rattle.amf_text_trees.specs.Frames.{bottom, take_text, take_value};
ghost use Rattle.amf_text_trees.specs.Gathering.{draft, giving, push, finishing};
ghost use Rattle.amf_text_trees.specs.Pieces.{text as text_piece, value as value_piece};
ghost use Rattle.amf_text_pages.specs.Entries.{entry_of};
ghost use Rattle.amf_text_gather.specs.Frames.{frame_of};
ghost use Rattle.amf_text_gather.specs.Pieces.{piece_named};
ghost use Rattle.amf_text_gather.specs.Drafts.{draft_of};

use crate::closing::close;
use crate::frame::Frame;
use crate::piece::Piece;
use amf_text_pages::{Entry, Sheet};
use amf_wire::Memory;
use std::alloc::Global;
use std::mem;

/// The sheet so far, and what is open, the innermost last.
#[derive(Drop)]
pub(crate) struct Draft {
    pub(crate) alloc: Global,
    pub(crate) sheet: Sheet,
    pub(crate) frames: Vec<Frame>,
}

/// Puts the pair of the name whose value has come, if there is one.
fn put_pair(
    pairs: &mut Vec<(Vec<u8>, Entry)>,
    name: &mut Option<Vec<u8>>,
    entry: Entry,
) -> Result<(), Memory>
    ensures pairs { OnOk result (MatchOption name.old (pairs.new ≡ pairs.old) (λ k. pairs.new.items ≡ pairs.old.items ++ (k, entry) ∷ [])) }
    ensures name { OnOk result (name.new ≡ None) }
{
    match mem::replace(name, None) {
        Some(name) => {
            pairs.push((name, entry))?;
            Ok(())
        }
        None => Ok(()),
    }
}

/// Takes a value where the frame stands, if that is a list or has names; else gives it back.
fn take_here(frame: &mut Frame, entry: Entry) -> Result<Option<Entry>, Memory>
    ensures { IfOk result (λ left. MatchOption left (frame_of frame.new ≡ take_value (entry_of entry) (frame_of frame.old)) (λ e. (e ≡ entry) × (frame.new ≡ frame.old))) }
{
    match frame {
        Frame::Items(_, entries) => {
            entries.push(entry)?;
            Ok(None)
        }
        Frame::List(entries) => {
            entries.push(entry)?;
            Ok(None)
        }
        Frame::Plain(_, pairs, name) => {
            put_pair(pairs, name, entry)?;
            Ok(None)
        }
        Frame::Members(pairs, name) => {
            put_pair(pairs, name, entry)?;
            Ok(None)
        }
        _ => Ok(Some(entry)),
    }
}

/// Takes a text where the frame stands, if that has names; else gives it back.
fn text_here(frame: &mut Frame, text: Vec<u8>) -> Option<Vec<u8>>
    ensures { MatchOption result (frame_of frame.new ≡ take_text text.items (frame_of frame.old)) (λ x. (x ≡ text) × (frame.new ≡ frame.old)) }
{
    match frame {
        Frame::Plain(_, _, name) => {
            *name = Some(text);
            None
        }
        Frame::Members(_, name) => {
            *name = Some(text);
            None
        }
        _ => Some(text),
    }
}

impl Draft {
    /// Nothing has been read.
    pub(crate) fn new(alloc: Global) -> Result<Draft, Memory>
        ensures { IfOk result (λ d. draft_of d ≡ draft no_sheet (bottom ∷ [])) }
    {
        let mut frames = Vec::new(alloc);
        frames.push(Frame::Bottom)?;
        Ok(Draft {
            alloc,
            sheet: Sheet::new(alloc),
            frames,
        })
    }

    /// Takes the innermost frame away.
    pub(crate) fn pop(&mut self) -> Option<Frame>
        ensures sheet { self.new.sheet ≡ self.old.sheet }
        ensures frame { MatchOption result (draft_of self.new ≡ draft_of self.old) (λ f. (draft_of self.old).frames ≡ frame_of f ∷ (draft_of self.new).frames) }
        ensures none { MatchOption result ((draft_of self.old).frames ≡ []) (λ f. Unit {0}) }
    {
        self.frames.pop()
    }

    /// Puts a frame inside the others.
    pub(crate) fn push(&mut self, frame: Frame) -> Result<(), Memory>
        ensures { OnOk result (draft_of self.new ≡ push (frame_of frame) (draft_of self.old)) }
    {
        self.frames.push(frame)?;
        Ok(())
    }

    /// Gives a piece to the innermost frame.
    pub(crate) fn give(&mut self, piece: Piece) -> Result<(), Memory>
        ensures { OnOk result (draft_of self.new ≡ giving (piece_named piece) (draft_of self.old)) }
    {
        match self.pop() {
            Some(frame) => {
                let taken = frame.take(self.alloc, piece)?;
                self.push(taken)
            }
            None => Ok(()),
        }
    }

    /// Gives a value to the innermost frame. A list takes it where it stands: no frame is moved for it.
    pub(crate) fn give_value(&mut self, entry: Entry) -> Result<(), Memory>
        ensures { OnOk result (draft_of self.new ≡ giving (value_piece (entry_of entry)) (draft_of self.old)) }
    {
        let count = self.frames.len();
        if count == 0 {
            return Ok(());
        }
        match take_here(&mut self.frames[count - 1], entry)? {
            None => Ok(()),
            Some(entry) => self.give(Piece::Value(entry)),
        }
    }

    /// Gives a text to the innermost frame. One with names takes it where it stands: no frame is moved for it.
    pub(crate) fn put_text(&mut self, text: Vec<u8>) -> Result<(), Memory>
        ensures { OnOk result (draft_of self.new ≡ giving (text_piece text.items) (draft_of self.old)) }
    {
        let count = self.frames.len();
        if count == 0 {
            return Ok(());
        }
        match text_here(&mut self.frames[count - 1], text) {
            None => Ok(()),
            Some(text) => self.give(Piece::Text(text)),
        }
    }

    /// Gives a piece that has come of the innermost frame to the one around it.
    fn give_closed(&mut self, piece: Piece) -> Result<(), Memory>
        ensures { OnOk result (draft_of self.new ≡ giving (piece_named piece) (draft_of self.old)) }
    {
        match piece {
            Piece::Value(entry) => self.give_value(entry),
            piece => self.give(piece),
        }
    }

    /// The innermost frame is at its bracket.
    pub(crate) fn finish(&mut self) -> Result<(), Memory>
        ensures { OnOk result (draft_of self.new ≡ finishing (draft_of self.old)) }
    {
        match self.pop() {
            Some(frame) => {
                let sheet = mem::replace(&mut self.sheet, Sheet::new(self.alloc));
                let closed = close(self.alloc, frame, sheet);
                self.sheet = closed.sheet;
                self.give_closed(closed.piece)
            }
            None => Ok(()),
        }
    }

    /// A node begins: its number.
    pub(crate) fn begin(&mut self) -> Result<usize, Memory>
        ensures number { IfOk result (λ n. n ≡ count (draft_of self.old).sheet) }
        ensures begun { OnOk result (draft_of self.new ≡ draft (begin (draft_of self.old).sheet) (draft_of self.old).frames) }
    {
        let number = self.sheet.nodes.len();
        self.sheet.begin(self.alloc)?;
        Ok(number)
    }

    /// A label is called.
    pub(crate) fn call(&mut self, label: Vec<u8>) -> Result<(), Memory>
        ensures { OnOk result (draft_of self.new ≡ draft (call label.items (draft_of self.old).sheet) (draft_of self.old).frames) }
    {
        self.sheet.call(label)
    }
}
