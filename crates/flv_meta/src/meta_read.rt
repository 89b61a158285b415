ghost use Rattle.std.specs.Prelude.{◌≡◌, ◌<◌, ◌^◌, length};
ghost use Rattle.flv_meta.specs.File.{Tag as FileTag, IsTag, tag_bytes};
ghost use Rattle.flv_meta.specs.FileAnswers.{IsStoredTag};
ghost use Rattle.flv_meta.specs.MetadataAnswer.{AnswersMetadata, AnswersValue};

use crate::meta_end::MetaEnd;
use crate::meta_part::value_part;
use crate::tag::Tag;
use amf_graph::{Builder, Rooted};
use amf_io::{Cursor, Empty, ReadEnd, Refusal};
use amf0_read::read0;
use amf0_spelling::Tables0;
use std::alloc::Global;
use std::hash::RandomState;

/// How many bytes of a tag stand before the value of its metadata: 11 before the data, and the 13 of the name.
const BEFORE_VALUE: u32 = 24;

/// The value of a metadata tag (E.4.4 and E.5), read from empty tables and as if the input ended with the data. What stands behind
/// it in the data counts for nothing. There is none exactly where it is no metadata tag.
///
/// The tag is a whole one that ends within 32 bits, as `next_tag` gives it.
///
/// A refusal is the verdict on the bytes behind the name; its offset is counted from where `at` of the tag is counted. `Memory`
/// comes where there is no room for what is read.
///
/// Texts are looked up by fixed keys, so whoever knows them can make a tag that takes long: `metadata_keyed` is passed others.
pub fn metadata(alloc: Global, tag: &Tag) -> Result<Option<Rooted>, MetaEnd>
    requires { IsStoredTag tag.now }
    ensures { (t : FileTag) → IsTag t → tag.now.bytes ≡ tag_bytes t → AnswersMetadata t tag.now.at result }
{
    metadata_keyed(alloc, None, tag)
}

/// Does what `metadata` does, with texts that are looked up by these keys, or by fixed ones where there are none. What is read
/// is the same for all keys.
pub fn metadata_keyed(
    alloc: Global,
    keys: Option<RandomState>,
    tag: &Tag,
) -> Result<Option<Rooted>, MetaEnd>
    requires { IsStoredTag tag.now }
    ensures { (t : FileTag) → IsTag t → tag.now.bytes ≡ tag_bytes t → AnswersMetadata t tag.now.at result }
{
    let Some(bytes) = value_part(tag.bytes.as_slice()) else {
        return Ok(None);
    };
    match read_value(alloc, keys, bytes) {
        Ok(graph) => Ok(Some(graph)),
        Err(ReadEnd::Refused(refusal)) => {
            let start = tag.at + BEFORE_VALUE;
            let at = start + refusal.at;
            Err(MetaEnd::Refused(Refusal {
                reason: refusal.reason,
                at,
            }))
        }
        // No read of bytes in memory fails.
        Err(ReadEnd::ReadFault) => unreachable!(),
        Err(ReadEnd::Memory) => Err(MetaEnd::Memory),
    }
}

/// The graph that a front of the bytes spells in AMF 0, from empty tables.
fn read_value(alloc: Global, keys: Option<RandomState>, bytes: &[u8]) -> Result<Rooted, ReadEnd>
    requires { length bytes.now < 2 ^ 24 }
    ensures { AnswersValue bytes.now result }
{
    let mut end = Empty;
    let mut cursor = Cursor::over_bytes(alloc, &mut end, bytes, bytes.len() as u32)?;
    let mut builder = Builder::keyed(alloc, keys)?;
    let mut tables = Tables0::new(alloc)?;
    let read = read0(alloc, &mut cursor, &mut builder, &mut tables)?;
    Ok(builder.whole(read.value))
}
