ghost use Rattle.std.specs.Prelude.{◌≡◌, ◌+◌, ◌≤◌, [], ◌∷◌, ◌++◌, length, IfOk, IfErr};
ghost use Rattle.amf_io.specs.Cursor.{source_of, place, bound, unread};
ghost use Rattle.amf_text.specs.Refused.{text_limit};
ghost use Rattle.amf_bytes.specs.declared.ending.BytesEnd.TheVariants.{Memory as NoMemory};
ghost use Rattle.amf_bytes.specs.TextRuns.{CountsTextReads};
ghost use Rattle.amf_bytes.specs.TextSteps.{IsTakingEnd, TakesText};

use crate::ending::BytesEnd;
use amf_io::{Cursor, CursorEnd, Source, Window};
use std::alloc::Global;

/// The most bytes of a text: 256 MiB.
const LIMIT: u32 = 268_435_456;

/// The text that the input is. Of a longer input than a text may be it gives the front, and one byte more.
pub fn take_text<I: Source>(alloc: Global, input: &mut I) -> Result<Vec<u8>, BytesEnd>
    ensures takes { I.tells input.old → TakesText (I.left input.old) (I.left input.new) result }
    ensures taken { I.tells input.old → length (I.left input.old) ≤ length (I.left input.new) + (text_limit + 1) }
    ensures counts { CountsTextReads (I.faults input.old) (I.faults input.new) result }
    ensures ends { IsTakingEnd result }
{
    let window = Window::new(alloc, LIMIT)?;
    let mut cursor = Cursor::over(input, window);
    whole_text(alloc, &mut cursor)
}

/// The text that all the bytes of a cursor are.
fn whole_text<S: Source>(alloc: Global, cursor: &mut Cursor<'_, S>) -> Result<Vec<u8>, BytesEnd>
    requires at_start { place cursor.old ≡ 0 }
    requires limit { bound cursor.old ≡ text_limit }
    ensures same_reference { (source_of cursor.new).ghost_name ≡ (source_of cursor.old).ghost_name }
    ensures takes { S.tells (source_of cursor.old).now → TakesText (unread S.left cursor.old) (S.left (source_of cursor.new).now) result }
    ensures taken { S.tells (source_of cursor.old).now → length (unread S.left cursor.old) ≤ length (S.left (source_of cursor.new).now) + (text_limit + 1) }
    ensures counts { CountsTextReads (S.faults (source_of cursor.old).now) (S.faults (source_of cursor.new).now) result }
    ensures ends { IsTakingEnd result }
{
    let mut text = Vec::new(alloc);
    match cursor.take_into(LIMIT, &mut text) {
        Ok(()) => match cursor.at_end() {
            Ok(true) => Ok(text),
            Ok(false) => longer_text(text),
            Err(_) => Err(BytesEnd::ReadFault),
        },
        Err(CursorEnd::Ended) => Ok(text),
        Err(CursorEnd::TooLarge) => longer_text(text),
        Err(CursorEnd::ReadFault) => Err(BytesEnd::ReadFault),
        Err(CursorEnd::Memory) => Err(BytesEnd::Memory),
    }
}

/// A text with one byte more, which shows that the input is longer than a text may be.
fn longer_text(mut text: Vec<u8>) -> Result<Vec<u8>, BytesEnd>
    ensures longer { IfOk result (λ longer. longer.items ≡ text.items ++ 0 ∷ []) }
    ensures memory { IfErr result (λ end. end ≡ NoMemory) }
{
    text.push(0)?;
    Ok(text)
}
