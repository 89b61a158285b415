ghost use Rattle.flv_meta.specs.FileAnswers.{IsStoredTag};

use amf_io::{Cursor, MemorySource, ReadEnd};
use flv_meta::{Tag, is_metadata, next_tag, read_head};
use std::alloc::Global;
use std::test::Fail;

/// More tags than any file here has.
const MANY: u32 = 16;

/// How bytes are given: how many at most, how many at most in a piece, the offset past which no piece goes on, and the
/// numbers of the reads that fail.
#[derive(Clone, Copy, Debug)]
pub(crate) struct Reading<'a> {
    pub(crate) limit: u32,
    pub(crate) most: usize,
    pub(crate) cut: usize,
    pub(crate) failing: &'a [u64],
}

/// What is told of a file: its head, of each tag the place, the length and whether it is metadata, and how the file ends.
pub(crate) fn file_told(
    alloc: Global,
    bytes: &[u8],
    reading: &Reading<'_>,
) -> Result<String, Fail> {
    let mut source = MemorySource::new(alloc, bytes, reading.most, reading.cut, reading.failing)?;
    let mut cursor = Cursor::new(alloc, &mut source, reading.limit)?;
    let mut told = String::new(alloc);
    let mut goes_on = tell_head(alloc, &mut cursor, bytes, &mut told)?;
    for _ in 0..MANY {
        if goes_on {
            goes_on = tell_next(alloc, &mut cursor, &mut told)?;
        }
    }
    Ok(told)
}

/// Tells the head, and whether tags may follow. The head goes behind a byte, and an end leaves that alone.
fn tell_head(
    alloc: Global,
    cursor: &mut Cursor<'_, MemorySource>,
    bytes: &[u8],
    told: &mut String,
) -> Result<bool, Fail> {
    let mut out = vec![in alloc; 0xAA]?;
    match read_head(alloc, cursor, &mut out) {
        Ok(()) => {
            told.push_str(head_told(bytes, &out))?;
            Ok(true)
        }
        Err(end) => {
            told.push_str(&end_told(alloc, end)?)?;
            Ok(false)
        }
    }
}

/// Whether the first 13 bytes stand behind the byte that was there.
fn head_told(bytes: &[u8], out: &[u8]) -> &'static str {
    match out.split_first() {
        Some((0xAA, head)) if head.len() == 13 && bytes.starts_with(head) => "head, ",
        _ => "other bytes, ",
    }
}

/// Tells the next tag or how the file ends, and whether tags may follow.
fn tell_next(
    alloc: Global,
    cursor: &mut Cursor<'_, MemorySource>,
    told: &mut String,
) -> Result<bool, Fail> {
    match next_tag(alloc, cursor) {
        Ok(Some(tag)) => {
            told.push_str(&tag_told(alloc, &tag)?)?;
            Ok(true)
        }
        Ok(None) => {
            told.push_str("end")?;
            Ok(false)
        }
        Err(end) => {
            told.push_str(&end_told(alloc, end)?)?;
            Ok(false)
        }
    }
}

/// The place of a tag, its length, and whether it is metadata.
fn tag_told(alloc: Global, tag: &Tag) -> Result<String, Fail>
    requires { IsStoredTag tag.now }
{
    let at = tag.at;
    let length = tag.bytes.as_slice().len();
    let kind = if is_metadata(tag) { " meta" } else { "" };
    Ok(format!(in alloc; "{at}+{length}{kind}, ")?)
}

/// The reason and the place of a refusal, or the end itself.
fn end_told(alloc: Global, end: ReadEnd) -> Result<String, Fail> {
    match end {
        ReadEnd::Refused(refusal) => {
            let reason = refusal.reason;
            let at = refusal.at;
            Ok(format!(in alloc; "{reason:?} {at}")?)
        }
        end => Ok(format!(in alloc; "{end:?}")?),
    }
}
