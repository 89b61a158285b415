ghost use Rattle.amf_bytes.specs.TextSteps.{MakesBytes, ReadsText, SpellsMeaning};
ghost use Rattle.amf_commands.specs.Content.{content_of};
ghost use Rattle.amf_commands.specs.ReadContent.{IsSpellable};

use crate::ending::BytesEnd;
use crate::meaning::{Meaning, meaning_of};
use amf_commands::{SpellEnd, spell};
use amf_text_draft::{TextEnd, Written, read_text};
use std::alloc::Global;
use std::hash::RandomState;

/// The canonical bytes of what a text means.
pub fn bytes_of(
    alloc: Global,
    keys: Option<RandomState>,
    text: Vec<u8>,
) -> Result<Vec<u8>, BytesEnd>
    ensures { MakesBytes text.items result }
{
    let written = read(alloc, keys, text)?;
    let meaning = meaning_of(alloc, written)?;
    spelled(alloc, keys, meaning)
}

/// What a text means, which is let go then.
fn read(alloc: Global, keys: Option<RandomState>, text: Vec<u8>) -> Result<Written, BytesEnd>
    ensures { ReadsText text.items result }
{
    match read_text(alloc, keys, &text) {
        Ok(written) => Ok(written),
        Err(TextEnd::Refused(refusal)) => Err(BytesEnd::Refused(refusal)),
        Err(TextEnd::Memory) => Err(BytesEnd::Memory),
    }
}

/// The canonical bytes of a meaning, which is let go then.
fn spelled(alloc: Global, keys: Option<RandomState>, meaning: Meaning) -> Result<Vec<u8>, BytesEnd>
    requires { IsSpellable meaning.format (content_of meaning.content) }
    ensures { SpellsMeaning meaning result }
{
    match spell(alloc, keys, meaning.format, &meaning.content) {
        Ok(bytes) => Ok(bytes),
        Err(SpellEnd::NoForm { value, lack }) => Err(BytesEnd::NoForm { value, lack }),
        Err(SpellEnd::Memory) => Err(BytesEnd::Memory),
    }
}
