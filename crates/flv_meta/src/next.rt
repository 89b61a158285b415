ghost use Rattle.std.specs.Prelude.{IfOk};
ghost use Rattle.std.specs.Option.{IfSome};
ghost use Rattle.amf_io.specs.ReadEnds.{Goes};
ghost use Rattle.amf_io.specs.Stretch.{between};
ghost use Rattle.flv_meta.specs.FileAnswers.{AnswersTag, IsStoredTag};

use crate::tag::{Tag, TagBytes};
use crate::tag_fields::append_tag;
use amf_io::{Cursor, ReadEnd, Source, is_over};
use std::alloc::Global;

/// Reads the next tag of a file, from its type to the number behind its data (E.3 and E.4.1). There is none exactly where the
/// input ends here.
///
/// Nothing in a tag is refused. Where the input or its limit ends inside the tag, the refusal is the verdict on it: the field
/// that is not whole. `Memory` comes where there is no room for the bytes: they are held once, and the memory grows as they come,
/// by no size that was read. After an end the cursor must not be used again.
pub fn next_tag<S: Source>(
    alloc: Global,
    cursor: &mut Cursor<'_, S>,
) -> Result<Option<Tag>, ReadEnd>
    ensures goes { Goes S.Source cursor.old cursor.new result }
    ensures answers { AnswersTag (between S.tells S.left cursor.old cursor.new) result }
    ensures stored { IfOk result (λ next. IfSome next (λ tag. IsStoredTag tag)) }
{
    let at = cursor.at();
    if is_over(cursor)? {
        return Ok(None);
    }
    let mut bytes = Vec::new(alloc);
    append_tag(cursor, &mut bytes)?;
    // What is true of every cursor.
    let _end = cursor.at();
    Ok(Some(Tag {
        at,
        bytes: TagBytes::of_vec(bytes),
    }))
}
