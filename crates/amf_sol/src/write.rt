ghost use Rattle.std.specs.Prelude.{◌≡◌, ◌<◌, ◌^◌, ◌++◌, [], length, IfOk, OnOk, OnErr};
ghost use Rattle.std.specs.Result.{IsErrOf};
ghost use Rattle.amf_wire.specs.Style.{canonical};
ghost use Rattle.amf_graph.specs.declared.lack.Lack.{Lack};
ghost use Rattle.amf_graph.specs.Rooted.{content};
ghost use Rattle.amf3_write.specs.Writes.{BeginsWith};
ghost use Rattle.amf_sol.specs.FileLacks.{IsHolderLack, IsFileLack};
ghost use Rattle.amf_sol.specs.FileParts.{Appends, file_bytes};
ghost use Rattle.amf_sol.specs.SharedObject.{AfterLength};
ghost use Rattle.amf_sol.specs.StoredFile.{shared};
ghost use Rattle.amf_sol.specs.WrittenFile.{AppendsFile};

use crate::SharedObject;
use crate::fixed::SIGNATURE;
use crate::write_head::append_head;
use crate::write_pairs::append_pairs;
use amf_graph::{Lack, LackKind, WriteEnd};
use amf_wire::Memory;
use std::alloc::Global;
use std::hash::RandomState;

/// The most bytes that a length of 32 bits says.
const MAX_LENGTH: usize = 0xFFFF_FFFF;

/// Appends the canonical file of a shared object: the pairs by the bytes of their names, and each value canonically, by one set
/// of tables, in which the object that holds the pairs takes no place. For AMF 0 the graph is lowered.
///
/// After an end `out` is as before. `NoSpelling` tells the first node that has no spelling, by its canonical number in the graph,
/// for AMF 0 in the lowered one, and its first lack; the object that holds the pairs is number 0, and its own names may be empty.
/// `LongFile` at node 0 comes only where there is no other lack, and where more than 4,294,967,295 bytes would stand behind the
/// length. `Memory` comes where there is no room for the tables or the bytes.
///
/// The texts of AMF 3 are looked up by fixed keys, so whoever knows them can make a file that takes long: `write_sol_keyed` is
/// passed others.
pub fn write_sol(alloc: Global, object: &SharedObject, out: &mut Vec<u8>) -> Result<(), WriteEnd>
    ensures written { OnOk result (AppendsFile (shared object.now) out.old.items out.new.items) }
    ensures lack { (l : Lack) → IsErrOf result (WriteEnd.NoSpelling l) → IsFileLack (shared object.now) l.node l.kind }
    ensures untouched { OnErr result (out.new.items ≡ out.old.items) }
{
    write_sol_keyed(alloc, None, object, out)
}

/// Does what `write_sol` does, with tables that are looked up by these keys, or by fixed ones where there are none. What is written
/// is the same for all keys.
pub fn write_sol_keyed(
    alloc: Global,
    keys: Option<RandomState>,
    object: &SharedObject,
    out: &mut Vec<u8>,
) -> Result<(), WriteEnd>
    ensures written { OnOk result (AppendsFile (shared object.now) out.old.items out.new.items) }
    ensures lack { (l : Lack) → IsErrOf result (WriteEnd.NoSpelling l) → IsFileLack (shared object.now) l.node l.kind }
    ensures untouched { OnErr result (out.new.items ≡ out.old.items) }
{
    object.is_stored();
    let rest = behind_length(alloc, keys, object)?;
    if rest.len() > MAX_LENGTH {
        return Err(WriteEnd::NoSpelling(Lack {
            kind: LackKind::LongFile,
            node: 0,
        }));
    }
    append_whole(rest.as_slice(), out)?;
    Ok(())
}

/// What stands behind the length of a file.
fn behind_length(
    alloc: Global,
    keys: Option<RandomState>,
    object: &SharedObject,
) -> Result<Vec<u8>, WriteEnd>
    ensures written { IfOk result (λ rest. Appends (AfterLength canonical (shared object.now)) [] rest.items) }
    ensures lack { (l : Lack) → IsErrOf result (WriteEnd.NoSpelling l) → IsHolderLack object.now.version (content object.now.holder) l.node l.kind }
{
    let mut rest = Vec::new(alloc);
    append_head(object, &mut rest)?;
    append_pairs(alloc, keys, object, &mut rest)?;
    Ok(rest)
}

/// Appends a file, of which this stands behind the length. After an end `out` is as before.
fn append_whole(rest: &[u8], out: &mut Vec<u8>) -> Result<(), Memory>
    requires { length rest.now < 2 ^ 32 }
    ensures written { OnOk result (out.new.items ≡ out.old.items ++ file_bytes rest.now) }
    ensures untouched { OnErr result (out.new.items ≡ out.old.items) }
{
    let start = out.len();
    let result = append_parts(rest, out);
    if result.is_err() {
        out.truncate(start);
    }
    result
}

/// Appends the signature, a length and what stands behind it.
fn append_parts(rest: &[u8], out: &mut Vec<u8>) -> Result<(), Memory>
    requires { length rest.now < 2 ^ 32 }
    ensures written { OnOk result (out.new.items ≡ out.old.items ++ file_bytes rest.now) }
    ensures begins { BeginsWith out.old.items out.new.items }
{
    out.extend_from_slice(&SIGNATURE)?;
    out.extend_from_slice(&(rest.len() as u32).to_be_bytes())?;
    out.extend_from_slice(rest)?;
    Ok(())
}
