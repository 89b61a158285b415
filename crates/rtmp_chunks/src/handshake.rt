ghost use Rattle.std.specs.Prelude.{◌≡◌, ◌++◌, drop, length, OnOk, OnErr};
ghost use Rattle.amf_io.specs.ReadEnds.{Goes};
ghost use Rattle.amf_io.specs.CursorReads.{Answers};
ghost use Rattle.rtmp_chunks.specs.Machine.{handshake_layout, blocks_layout};

use crate::fields::read_field;
use amf_io::{Cursor, ReadEnd, Reason, Source, append_raw, refused};
use std::alloc::Global;

/// Appends the two blocks behind the version.
fn append_blocks<S: Source>(cursor: &mut Cursor<'_, S>, out: &mut Vec<u8>) -> Result<(), ReadEnd>
    ensures goes { Goes S.Source cursor.old cursor.new result }
    ensures answers { Answers S.tells S.left (λ done. out.new.items) (blocks_layout out.old.items) cursor.old cursor.new result }
{
    append_raw(cursor, 1536, out)?;
    append_raw(cursor, 1536, out)
}

/// Reads the bytes of a handshake.
fn read_all<S: Source>(alloc: Global, cursor: &mut Cursor<'_, S>) -> Result<Vec<u8>, ReadEnd>
    ensures goes { Goes S.Source cursor.old cursor.new result }
    ensures answers { Answers S.tells S.left (λ bytes. bytes.items) handshake_layout cursor.old cursor.new result }
{
    let at = cursor.at();
    let mut bytes = read_field(alloc, cursor, 1)?;
    if bytes[0] != 3 {
        return Err(refused(Reason::BadVersion, at));
    }
    append_blocks(cursor, &mut bytes)?;
    Ok(bytes)
}

/// Reads a handshake (Adobe's RTMP specification 1.0, 5.2), and appends its 3,073 bytes. It is refused with `BadVersion` where its
/// version is not 3, and as each reader is where it is cut. After an end `out` is as before, and the cursor must not be used again.
pub fn read_handshake<S: Source>(
    alloc: Global,
    cursor: &mut Cursor<'_, S>,
    out: &mut Vec<u8>,
) -> Result<(), ReadEnd>
    ensures goes { Goes S.Source cursor.old cursor.new result }
    ensures answers { Answers S.tells S.left (λ done. drop (length out.old.items) out.new.items) handshake_layout cursor.old cursor.new result }
    ensures appended { OnOk result (out.new.items ≡ out.old.items ++ drop (length out.old.items) out.new.items) }
    ensures kept { OnErr result (out.new.items ≡ out.old.items) }
{
    let bytes = read_all(alloc, cursor)?;
    out.extend_from_slice(&bytes)?;
    Ok(())
}
