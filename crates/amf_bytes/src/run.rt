ghost use Rattle.std.specs.Prelude.{◌≡◌, ◌+◌, ◌≤◌, length};
ghost use Rattle.amf_text.specs.Refused.{text_limit};
ghost use Rattle.amf_bytes.specs.TextRuns.{CountsTextReads, CountsTextWrites, IsTextUntouched, RunsTextOver};
ghost use Rattle.amf_bytes.specs.TextSteps.{IsOutputEnd, OutputText};

use crate::ending::BytesEnd;
use crate::making::bytes_of;
use crate::taking::take_text;
use amf_io::{Sink, Source, write_whole};
use std::alloc::Global;
use std::hash::RandomState;

/// Reads a JSON text (RFC 8259) of at most 268,435,456 bytes, and writes the canonical bytes of the value, the packet or the
/// file that it means, in the format that it names. The keys are those by which texts are looked up.
pub fn write_bytes<I: Source, O: Sink>(
    alloc: Global,
    keys: Option<RandomState>,
    input: &mut I,
    out: &mut O,
) -> Result<(), BytesEnd>
    ensures tells { O.tells out.new → O.tells out.old }
    ensures runs { I.tells input.old → RunsTextOver I.Source O.Sink input.old input.new out.old out.new result }
    ensures taken { I.tells input.old → length (I.left input.old) ≤ length (I.left input.new) + (text_limit + 1) }
    ensures untouched { IsTextUntouched out.old out.new result }
    ensures reads { CountsTextReads (I.faults input.old) (I.faults input.new) result }
    ensures writes { CountsTextWrites (O.faults out.old) (O.faults out.new) result }
{
    let bytes = output_of(alloc, keys, input)?;
    match write_whole(out, &bytes) {
        Ok(()) => Ok(()),
        Err(_) => Err(BytesEnd::WriteFault),
    }
}

/// The canonical bytes of what the input means.
fn output_of<I: Source>(
    alloc: Global,
    keys: Option<RandomState>,
    input: &mut I,
) -> Result<Vec<u8>, BytesEnd>
    ensures makes { I.tells input.old → OutputText (I.left input.old) (I.left input.new) result }
    ensures taken { I.tells input.old → length (I.left input.old) ≤ length (I.left input.new) + (text_limit + 1) }
    ensures counts { CountsTextReads (I.faults input.old) (I.faults input.new) result }
    ensures ends { IsOutputEnd result }
{
    let text = take_text(alloc, input)?;
    bytes_of(alloc, keys, text)
}
