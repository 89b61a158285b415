ghost use Rattle.std.specs.Prelude.{◌≡◌, ◌++◌, decimal, OnOk};
ghost use Rattle.rtmp_chunks.specs.Table.{message_seen, open_seen, opens_seen};
ghost use Rattle.rtmp_listing.specs.Listing as listing;

use amf_io::Refusal;
use itoa::Buffer;
use rtmp_chunks::{Message, Open};
use std::alloc::AllocError;

/// Appends a word.
fn push_word(word: &[u8], out: &mut Vec<u8>) -> Result<(), AllocError>
    ensures { OnOk result (out.new.items ≡ out.old.items ++ word.now) }
{
    out.extend_from_slice(word)
}

/// Appends a number.
fn push_number(number: u64, out: &mut Vec<u8>) -> Result<(), AllocError>
    ensures { OnOk result (out.new.items ≡ out.old.items ++ decimal number) }
{
    let mut digits = Buffer::new();
    out.extend_from_slice(digits.format(number).as_bytes())
}

/// Appends a word and a number behind it.
fn push_part(word: &[u8], number: u64, out: &mut Vec<u8>) -> Result<(), AllocError>
    ensures { OnOk result (out.new.items ≡ out.old.items ++ (word.now ++ decimal number)) }
{
    push_word(word, out)?;
    push_number(number, out)
}

/// Appends the line of a message.
#[tactic(auto, unfolding(crate::specs::Listing::message_line))]
pub(crate) fn push_message_line(message: &Message, out: &mut Vec<u8>) -> Result<(), AllocError>
    ensures { OnOk result (out.new.items ≡ out.old.items ++ listing.message_line (message_seen message.now)) }
{
    push_part(b"message id ", message.id as u64, out)?;
    push_part(b" type ", message.kind as u64, out)?;
    push_part(b" stream ", message.stream as u64, out)?;
    push_part(b" time ", message.time as u64, out)?;
    push_part(b" length ", message.bytes.as_slice().len() as u64, out)?;
    push_word(b"\n", out)
}

/// Appends the line of an unfinished message.
#[tactic(auto, unfolding(crate::specs::Listing::open_line))]
fn push_open_line(one: &Open, out: &mut Vec<u8>) -> Result<(), AllocError>
    ensures { OnOk result (out.new.items ≡ out.old.items ++ listing.open_line (open_seen one.now)) }
{
    push_part(b"open id ", one.id as u64, out)?;
    push_part(b" got ", one.got as u64, out)?;
    push_part(b" of ", one.of as u64, out)?;
    push_word(b"\n", out)
}

/// Appends a line for each unfinished message.
pub(crate) fn push_open_lines(unfinished: &[Open], out: &mut Vec<u8>) -> Result<(), AllocError>
    ensures { OnOk result (out.new.items ≡ out.old.items ++ listing.open_lines (opens_seen unfinished.now)) }
{
    for one in unfinished {
        push_open_line(one, out)?;
    }
    Ok(())
}

/// Appends the line that says why data are no values.
#[tactic(auto, unfolding(crate::specs::Listing::bad_line))]
pub(crate) fn push_bad_line(refusal: Refusal, out: &mut Vec<u8>) -> Result<(), AllocError>
    ensures { OnOk result (out.new.items ≡ out.old.items ++ listing.bad_line refusal.reason refusal.at) }
{
    push_word(b"bad ", out)?;
    push_word(refusal.reason.name(), out)?;
    push_part(b" at ", refusal.at as u64, out)?;
    push_word(b"\n", out)
}
