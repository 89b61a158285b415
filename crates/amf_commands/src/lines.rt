ghost use Rattle.std.specs.Prelude.{◌≡◌, IfOk};
ghost use Rattle.std.specs.List.{sum};
ghost use Rattle.amf_commands.specs.Lines as line;

use crate::version::VERSION;
use itoa::Buffer;
use std::alloc::{AllocError, Global};

/// The line that says how many nodes there are.
pub fn count_line(alloc: Global, nodes: u128) -> Result<Vec<u8>, AllocError>
    ensures { IfOk result (λ bytes. bytes.items ≡ line.count_line nodes) }
{
    let mut digits = Buffer::new();
    let mut bytes = Vec::from_slice(alloc, b"ok nodes ")?;
    bytes.extend_from_slice(digits.format(nodes).as_bytes())?;
    bytes.extend_from_slice(b"\n")?;
    Ok(bytes)
}

/// The line that says how many nodes there are, how many bytes their spelling has, and the sum of these.
pub fn measure_line(alloc: Global, nodes: u32, spelling: &[u8]) -> Result<Vec<u8>, AllocError>
    ensures { IfOk result (λ bytes. bytes.items ≡ line.measure_line nodes spelling.now) }
{
    let mut digits = Buffer::new();
    let mut bytes = Vec::from_slice(alloc, b"nodes ")?;
    bytes.extend_from_slice(digits.format(nodes).as_bytes())?;
    bytes.extend_from_slice(b" bytes ")?;
    bytes.extend_from_slice(digits.format(spelling.len()).as_bytes())?;
    bytes.extend_from_slice(b" sum ")?;
    bytes.extend_from_slice(digits.format(sum_of(spelling)).as_bytes())?;
    bytes.extend_from_slice(b"\n")?;
    Ok(bytes)
}

/// The line that says which version the program is.
pub fn version_line(alloc: Global) -> Result<Vec<u8>, AllocError>
    ensures { IfOk result (λ bytes. bytes.items ≡ line.version_line) }
{
    let mut bytes = Vec::from_slice(alloc, b"amf ")?;
    bytes.extend_from_slice(VERSION.as_bytes())?;
    bytes.extend_from_slice(b"\n")?;
    Ok(bytes)
}

/// The sum of the bytes.
fn sum_of(bytes: &[u8]) -> u128
    ensures { result ≡ sum bytes.now }
{
    let mut total = 0u128;
    for byte in bytes {
        total += u128::from(*byte);
    }
    total
}
