//! Bytes as they stand in a path or in the value of a field.

ghost use Rattle.std.specs.Prelude.{◌≡◌, ◌++◌, ◌<◌, OnOk};
ghost use Rattle.http_backend.specs.Escaped.{is_unreserved, digit, escaped, escaped_byte};

use std::alloc::AllocError;

/// Whether a byte stands for itself.
fn is_unreserved(byte: u8) -> bool
    ensures { result ≡ is_unreserved byte }
{
    matches!(byte, b'a'..=b'z' | b'A'..=b'Z' | b'0'..=b'9' | b'-' | b'.' | b'_' | b'~')
}

/// The hexadecimal digit of a number, in upper case.
fn digit(number: u8) -> u8
    requires { number < 16 }
    ensures { result ≡ digit number }
{
    if number < 10 {
        b'0' + number
    } else {
        b'7' + number
    }
}

/// Appends a byte, escaped unless it stands for itself.
fn push_byte(out: &mut Vec<u8>, byte: u8) -> Result<(), AllocError>
    ensures { OnOk result (out.new.items ≡ out.old.items ++ escaped_byte byte) }
{
    if is_unreserved(byte) {
        out.extend_from_slice(&[byte])
    } else {
        out.extend_from_slice(&[b'%', digit(byte / 16), digit(byte % 16)])
    }
}

/// Appends bytes, each escaped unless it stands for itself.
pub fn push_escaped(out: &mut Vec<u8>, bytes: &[u8]) -> Result<(), AllocError>
    ensures { OnOk result (out.new.items ≡ out.old.items ++ escaped bytes.now) }
{
    for byte in bytes {
        push_byte(out, *byte)?;
    }
    Ok(())
}
