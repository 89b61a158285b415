ghost use Rattle.std.specs.Prelude.{◌+◌, ◌<◌, ◌≤◌, IfOk};
ghost use Rattle.amf_io.specs.Cursor.{place};
ghost use Rattle.amf_io.specs.ReadEnds.{Goes};
ghost use Rattle.amf_io.specs.Stretch.{between};
ghost use Rattle.amf_graph.specs.Bounds.{weight};
ghost use Rattle.amf_wire_fields.specs.Room.{room_end, left_of};
ghost use Rattle.amf_sol.specs.FileAnswer.{AnswersFile};

use crate::SharedObject;
use crate::head::{read_head, read_signature_and_length};
use crate::pairs::read_holder;
use amf_io::{Cursor, ReadEnd, Reason, Source, refused};
use std::alloc::Global;
use std::hash::RandomState;

/// The number of bytes of a file that its length field does not count.
const UNCOUNTED: u64 = 6;

/// Reads a shared object file, up to the end of the input: the signature, the length, the name and the version, and then pairs
/// with one set of tables. The pairs are the members of the holder, which is in no table.
///
/// The bytes that the cursor's limit still allows are below 2^27.
///
/// Where the input is refused, the refusal is the verdict on it: the first field that no file has there, or where the input or
/// its limit ends inside a pair or before the first; `BadLength` where nothing else is wrong, and the length is not the number
/// of bytes behind it. `Memory` comes where there is no room for what is read. After an end the cursor must not be used again.
///
/// Texts are looked up by fixed keys, so whoever knows them can make a file that takes long: `read_sol_keyed` is passed others.
pub fn read_sol<S: Source>(
    alloc: Global,
    cursor: &mut Cursor<'_, S>,
) -> Result<SharedObject, ReadEnd>
    requires room { left_of cursor.old < room_end }
    ensures goes { Goes S.Source cursor.old cursor.new result }
    ensures answers { AnswersFile (between S.tells S.left cursor.old cursor.new) result }
    ensures weighs { IfOk result (λ file. place cursor.old + weight file.holder.arena ≤ place cursor.new) }
{
    read_sol_keyed(alloc, None, cursor)
}

/// Does what `read_sol` does, with texts that are looked up by these keys, or by fixed ones where there are none. What is read is
/// the same for all keys.
pub fn read_sol_keyed<S: Source>(
    alloc: Global,
    keys: Option<RandomState>,
    cursor: &mut Cursor<'_, S>,
) -> Result<SharedObject, ReadEnd>
    requires room { left_of cursor.old < room_end }
    ensures goes { Goes S.Source cursor.old cursor.new result }
    ensures answers { AnswersFile (between S.tells S.left cursor.old cursor.new) result }
    ensures weighs { IfOk result (λ file. place cursor.old + weight file.holder.arena ≤ place cursor.new) }
{
    let start = cursor.at();
    let length = read_signature_and_length(alloc, cursor)?;
    let head = read_head(alloc, cursor)?;
    let holder = read_holder(alloc, keys, cursor, head.version)?;
    if length as u64 + UNCOUNTED != (cursor.at() - start) as u64 {
        return Err(refused(Reason::BadLength, start + 2));
    }
    Ok(SharedObject::of_parts(head.name, head.version, holder))
}
