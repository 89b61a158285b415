ghost use Rattle.std.specs.Prelude.{◌≡◌, ◌++◌, OnOk, OnErr};
ghost use Rattle.std.specs.List.{flat_map, list_all};
ghost use Rattle.amf_show.specs.Shown.{hex_byte, is_plain, shown_byte, shown_text};

use crate::hex_pairs::hex_pair;
use crate::numbers::push_word;
use amf_wire::Memory;
use std::alloc::Global;

/// Appends bytes as a text of a listing: between quotation marks, where `20` to `7E` stand as they are but for the quotation
/// mark and the backslash, and any other byte is a backslash and two hexadecimal digits.
///
/// After an end `out` is as before. It gives up where there is no memory.
pub fn show_text(alloc: Global, bytes: &[u8], out: &mut Vec<u8>) -> Result<(), Memory>
    ensures shown { OnOk result (out.new.items ≡ out.old.items ++ shown_text bytes.now) }
    ensures untouched { OnErr result (out.new.items ≡ out.old.items) }
{
    let mut shown = Vec::new(alloc);
    push_text(bytes, &mut shown)?;
    out.extend_from_slice(&shown)?;
    Ok(())
}

/// Appends the two hexadecimal digits of a byte.
fn push_hex_byte(byte: u8, out: &mut Vec<u8>) -> Result<(), Memory>
    ensures { OnOk result (out.new.items ≡ out.old.items ++ hex_byte byte) }
{
    push_word(&hex_pair(byte), out)
}

/// Appends the hexadecimal digits of bytes.
pub(crate) fn push_hex(bytes: &[u8], out: &mut Vec<u8>) -> Result<(), Memory>
    ensures { OnOk result (out.new.items ≡ out.old.items ++ flat_map hex_byte bytes.now) }
{
    for byte in bytes {
        push_hex_byte(*byte, out)?;
    }
    Ok(())
}

/// Whether a byte of a text stands for itself.
fn is_plain(byte: u8) -> bool
    ensures { result ≡ is_plain byte }
{
    byte >= b' ' && byte <= b'~' && byte != b'"' && byte != b'\\'
}

/// Appends a byte of a text.
#[tactic(auto, unfolding(crate::specs::Shown::shown_byte))]
fn push_byte(byte: u8, out: &mut Vec<u8>) -> Result<(), Memory>
    ensures { OnOk result (out.new.items ≡ out.old.items ++ shown_byte byte) }
{
    if is_plain(byte) {
        out.push(byte)?;
        return Ok(());
    }
    out.push(b'\\')?;
    push_hex_byte(byte, out)
}

/// Whether each byte of a text stands for itself.
fn are_plain(bytes: &[u8]) -> bool
    ensures { result ≡ list_all is_plain bytes.now }
{
    bytes.iter().all(|byte| is_plain(*byte))
}

/// Appends the bytes of a text one after the other.
fn push_each_byte(bytes: &[u8], out: &mut Vec<u8>) -> Result<(), Memory>
    ensures { OnOk result (out.new.items ≡ out.old.items ++ flat_map shown_byte bytes.now) }
{
    for byte in bytes {
        push_byte(*byte, out)?;
    }
    Ok(())
}

/// Appends the bytes of a text: at once where each stands for itself.
#[tactic(auto, using(crate::proofs::Texts::plain_shown))]
fn push_bytes(bytes: &[u8], out: &mut Vec<u8>) -> Result<(), Memory>
    ensures { OnOk result (out.new.items ≡ out.old.items ++ flat_map shown_byte bytes.now) }
{
    if are_plain(bytes) {
        out.extend_from_slice(bytes)?;
        return Ok(());
    }
    push_each_byte(bytes, out)
}

/// Appends a text between its quotation marks.
#[tactic(auto, unfolding(crate::specs::Shown::shown_text))]
pub(crate) fn push_text(bytes: &[u8], out: &mut Vec<u8>) -> Result<(), Memory>
    ensures { OnOk result (out.new.items ≡ out.old.items ++ shown_text bytes.now) }
{
    out.push(b'"')?;
    push_bytes(bytes, out)?;
    out.push(b'"')?;
    Ok(())
}
