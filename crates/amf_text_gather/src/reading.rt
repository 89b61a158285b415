//! The tokens of a text, one by one.

ghost use Rattle.std.specs.Prelude.{◌≡◌, IfOk};
ghost use Rattle.json.specs.Reads.{token_of};
ghost use Rattle.json.specs.Lex.{tokens};
ghost use Rattle.amf_text.specs.Scalars.{read_number};
ghost use Rattle.amf_text_read.specs.Verdicts.{asked_of};
ghost use Rattle.amf_text_trees.specs.Gathering.{tree_step, trees_after};
ghost use Rattle.amf_text_gather.specs.Drafts.{draft_of};
ghost use Rattle.amf_text_gather.specs.Frames.{frame_of};
ghost use Rattle.amf_text_gather.specs.States.{state_if, IsDocumentOf, IsEnded, IsGathered};

use crate::draft::Draft;
use crate::frame::Frame;
use amf_text_pages::Document;
use amf_text_read::Asked;
use amf_text_trees::tree_laws;
use amf_wire::Memory;
use json::{Reader, Scratch, Token};
use std::alloc::Global;
use std::hash::RandomState;

/// Takes one token, and says whether it is asked for.
fn meets(asked: &mut Asked, draft: &mut Draft, token: &Token<'_>) -> Result<bool, Memory>
    ensures { IfOk result (λ met. tree_step read_number (asked_of asked.old) (draft_of draft.old) (token_of token.now) ≡ state_if met asked.new draft.new) }
{
    let Some(goal) = asked.goal() else {
        return Ok(false);
    };
    if asked.take(token)?.is_some() {
        return Ok(false);
    }
    draft.gather(goal, token)?;
    Ok(true)
}

/// Takes all tokens, and says whether each of them is asked for.
fn meet_all(asked: &mut Asked, draft: &mut Draft, reader: &mut Reader<'_>) -> Result<bool, Memory>
    ensures { IfOk result (λ met. trees_after read_number (asked_of asked.old) (draft_of draft.old) reader.old ≡ state_if met asked.new draft.new) }
{
    while let Some(token) = reader.next() {
        if !meets(asked, draft, &token)? {
            return Ok(false);
        }
    }
    Ok(true)
}

/// The document of a frame that is the text at its end.
fn document_in(frame: Frame) -> Option<Document>
    ensures { IsDocumentOf (frame_of frame) result }
{
    match frame {
        Frame::Ended(document) => Some(document),
        _ => None,
    }
}

/// The document that has been gathered at the end.
fn ended(draft: &mut Draft) -> Option<Document>
    ensures { IsEnded (draft_of draft.old) result }
{
    match draft.pop() {
        Some(frame) => document_in(frame),
        None => None,
    }
}

/// What a text says whose tokens are all asked for, and behind which nothing has to come, as pages; none of any other text.
/// Labels may still lead nowhere. It gives up where there is no memory.
pub fn gather_text(
    alloc: Global,
    keys: Option<RandomState>,
    text: &str,
) -> Result<Option<Document>, Memory>
    ensures { IfOk result (IsGathered (tokens text.now)) }
{
    tree_laws();
    let mut scratch = Scratch::new(alloc);
    let mut reader = Reader::new(text, &mut scratch)?;
    let mut asked = Asked::new(alloc, keys)?;
    let mut draft = Draft::new(alloc)?;
    if !meet_all(&mut asked, &mut draft, &mut reader)? {
        return Ok(None);
    }
    if asked.is_whole() {
        Ok(ended(&mut draft))
    } else {
        Ok(None)
    }
}
