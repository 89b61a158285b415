ghost use Rattle.std.specs.Prelude.{◌≡◌, ◌+◌, ◌<◌, ◌^◌, ◌++◌, List, ℕ, length, OnOk, OnErr};
ghost use Rattle.flv_meta.specs.File.{tag_bytes, metadata_tag};

use crate::meta_part::{NAME, SCRIPT};
use amf_wire::Memory;

/// Appends the metadata tag of these bytes behind the name. After an end `out` is as before.
pub(crate) fn append_whole(bytes: &[u8], out: &mut Vec<u8>) -> Result<(), Memory>
    requires { 13 + length bytes.now < 2 ^ 24 }
    ensures written { OnOk result (out.new.items ≡ out.old.items ++ tag_bytes (metadata_tag bytes.now)) }
    ensures untouched { OnErr result (out.new.items ≡ out.old.items) }
{
    let start = out.len();
    let result = append_parts(bytes, out);
    if result.is_err() {
        out.truncate(start);
    }
    result
}

/// Appends the type, the size, time and stream 0, the name, the bytes and the number.
fn append_parts(bytes: &[u8], out: &mut Vec<u8>) -> Result<(), Memory>
    requires { 13 + length bytes.now < 2 ^ 24 }
    ensures written { OnOk result (out.new.items ≡ out.old.items ++ tag_bytes (metadata_tag bytes.now)) }
    ensures begins { (rest : List ℕ) × (out.new.items ≡ out.old.items ++ rest) }
{
    let size = (bytes.len() + NAME.len()) as u32;
    out.push(SCRIPT)?;
    out.extend_from_slice(&size.to_be_bytes()[1..])?;
    out.extend_from_slice(&[0; 7])?;
    out.extend_from_slice(&NAME)?;
    out.extend_from_slice(bytes)?;
    out.extend_from_slice(&(size + 11).to_be_bytes())?;
    Ok(())
}
