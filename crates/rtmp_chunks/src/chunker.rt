ghost use Rattle.std.specs.Prelude.{◌≡◌, ◌<◌, ◌≤◌, ◌++◌, ◌⊎◌, ℕ, length, take, drop, OnOk, OnErr, IfErr, Some, Err};
ghost use Rattle.amf_io.specs.Field.{AreBytes};
ghost use Rattle.rtmp_chunks.specs.declared.chunker.ChunkEnd.{ChunkEnd as End};
ghost use Rattle.rtmp_chunks.specs.declared.chunker.ChunkEnd.TheVariants.{Memory};
ghost use Rattle.rtmp_chunks.specs.Chunk.{lesser};
ghost use Rattle.rtmp_chunks.specs.Push.{basic_header, three_bytes, extended_field, message_header, chunks_behind, pushed};
ghost use Rattle.rtmp_chunks.specs.Push.{size_then, size_of, IsPushed, IsPushable, sets_no_size, refusal_of};
ghost use Rattle.rtmp_chunks.specs.Table.{message_seen};

use crate::headers::number_in;
use crate::parts::{Chunker, Message};
use std::alloc::{AllocError, Global};

/// Appends the shortest basic header.
fn push_basic(format: u8, id: u32, out: &mut Vec<u8>) -> Result<(), AllocError>
    requires format { format < 4 }
    requires id { id ≤ 65599 }
    ensures { OnOk result (out.new.items ≡ out.old.items ++ basic_header format id) }
{
    let top = 64 * format;
    if id < 64 {
        out.extend_from_slice(&[top + id as u8])
    } else if id < 320 {
        out.extend_from_slice(&[top, (id - 64) as u8])
    } else {
        out.extend_from_slice(&[top + 1, ((id - 64) % 256) as u8, ((id - 64) / 256) as u8])
    }
}

/// Appends a number of three bytes, the highest first.
fn push_three(number: u32, out: &mut Vec<u8>) -> Result<(), AllocError>
    requires { number < 16777216 }
    ensures { OnOk result (out.new.items ≡ out.old.items ++ three_bytes number) }
{
    out.extend_from_slice(&[
        (number / 65536) as u8,
        (number / 256 % 256) as u8,
        (number % 256) as u8,
    ])
}

/// Appends the extended field, where the time has it.
fn push_extended(time: u32, out: &mut Vec<u8>) -> Result<(), AllocError>
    ensures { OnOk result (out.new.items ≡ out.old.items ++ extended_field time) }
{
    if time < 0xFF_FFFF {
        return Ok(());
    }
    out.extend_from_slice(&time.to_be_bytes())
}

/// The timestamp that a message header has.
fn short_time(time: u32) -> u32
    ensures short { result ≡ lesser time 0xFFFFFF }
    ensures below { result < 16777216 }
{
    if time <= 0xFF_FFFF { time } else { 0xFF_FFFF }
}

/// Appends the message header of format 0.
fn push_header(m: &Message, out: &mut Vec<u8>) -> Result<(), AllocError>
    requires { length m.now.bytes ≤ 16777215 }
    ensures { OnOk result (out.new.items ≡ out.old.items ++ message_header (message_seen m.now)) }
{
    push_three(short_time(m.time), out)?;
    push_three(m.bytes.as_slice().len() as u32, out)?;
    out.push(m.kind)?;
    out.extend_from_slice(&m.stream.to_le_bytes())
}

/// Appends a chunk of format 3.
fn push_later(id: u32, time: u32, piece: &[u8], out: &mut Vec<u8>) -> Result<(), AllocError>
    requires { id ≤ 65599 }
    ensures { OnOk result (out.new.items ≡ out.old.items ++ (basic_header 3 id ++ (extended_field time ++ piece.now))) }
{
    push_basic(3, id, out)?;
    push_extended(time, out)?;
    out.extend_from_slice(piece)
}

/// Appends the first chunk, of format 0.
fn push_first(m: &Message, piece: &[u8], out: &mut Vec<u8>) -> Result<(), AllocError>
    requires id { m.now.id ≤ 65599 }
    requires short { length m.now.bytes ≤ 16777215 }
    ensures { OnOk result
        (out.new.items ≡ out.old.items ++
        (basic_header 0 m.now.id ++ (message_header (message_seen m.now) ++ (extended_field m.now.time ++ piece.now)))) }
{
    push_basic(0, m.id, out)?;
    push_header(m, out)?;
    push_extended(m.time, out)?;
    out.extend_from_slice(piece)
}

/// The part of the bytes that one chunk has, and the others.
fn cut(bytes: &[u8], size: u32) -> (&[u8], &[u8])
    ensures front { result.0.now ≡ take size bytes.now }
    ensures rest { result.1.now ≡ drop size bytes.now }
{
    let n = size as usize;
    if n < bytes.len() {
        bytes.split_at(n)
    } else {
        bytes.split_at(bytes.len())
    }
}

/// Appends what is left of a message, in chunks of format 3.
fn push_rest(size: u32, m: &Message, rest: &[u8], out: &mut Vec<u8>) -> Result<(), AllocError>
    requires id { m.now.id ≤ 65599 }
    requires size { 0 < size }
    ensures { OnOk result ((fuel : ℕ) → length rest.now ≤ fuel
        → out.new.items ≡ out.old.items ++ chunks_behind fuel size m.now.id m.now.time rest.now) }
{
    let mut left = rest;
    while !left.is_empty() {
        let (piece, more) = cut(left, size);
        push_later(m.id, m.time, piece, out)?;
        left = more;
    }
    Ok(())
}

/// Appends a message.
fn write(size: u32, m: &Message, out: &mut Vec<u8>) -> Result<(), AllocError>
    requires size { 0 < size }
    requires id { m.now.id ≤ 65599 }
    requires short { length m.now.bytes ≤ 16777215 }
    ensures { OnOk result (out.new.items ≡ out.old.items ++ pushed size (message_seen m.now)) }
{
    let (piece, rest) = cut(m.bytes.as_slice(), size);
    push_first(m, piece, out)?;
    push_rest(size, m, rest, out)?;
    Ok(())
}

/// No fewer bytes than a message takes: 18 at most before its data, and 7 at most before those of each later chunk.
fn room_for(size: u32, m: &Message) -> usize
    requires size { 0 < size }
    requires short { length m.now.bytes ≤ 16777215 }
{
    let count = m.bytes.as_slice().len();
    count + 18 + 7 * (count / size as usize)
}

/// Why a message is not written (sections of Adobe's RTMP specification 1.0).
#[derive(Clone, Copy, Debug, PartialEq, Eq, Drop)]
pub enum ChunkEnd {
    /// Its id is below 2 or above 65,599: no chunk stream has it (5.3.1.1).
    BadId,
    /// It has more than 16,777,215 bytes, more than a message header can say (5.3.1.2).
    LongData,
    /// It is of type 1, and its data are not four bytes with a number from 1 to 2^31-1 (5.4.1).
    BadSize,
    /// There is no memory for its bytes.
    Memory,
}

/// Whether a message of type 1 sets no chunk size.
fn is_bad_size(m: &Message) -> bool
    ensures { result ≡ sets_no_size (message_seen m.now) }
{
    let bytes = m.bytes.as_slice();
    m.kind == 1 && (bytes.len() != 4 || number_in(bytes) == 0 || 0x8000_0000 <= number_in(bytes))
}

/// Why a message cannot be written.
fn refusal(m: &Message) -> Option<ChunkEnd>
    ensures { result ≡ refusal_of (message_seen m.now) }
{
    if m.id < 2 || 65_599 < m.id {
        return Some(ChunkEnd::BadId);
    }
    if 16_777_215 < m.bytes.as_slice().len() {
        return Some(ChunkEnd::LongData);
    }
    if is_bad_size(m) {
        return Some(ChunkEnd::BadSize);
    }
    None
}

/// The numbers of a slice of bytes are bytes.
fn are_bytes(bytes: &[u8])
    ensures { AreBytes bytes.now }
{
    let _ = bytes;
}

/// Numbers are those of their types.
fn are_in_range(kind: u8, stream: u32, time: u32)
    ensures kind { kind < 256 }
    ensures stream { stream < 4294967296 }
    ensures time { time < 4294967296 }
{
    let _ = (kind, stream, time);
}

/// A message that is not refused is one that can be written.
fn is_pushed(m: &Message)
    requires { refusal_of (message_seen m.now) ≡ None }
    ensures { IsPushed (message_seen m.now) }
{
    are_in_range(m.kind, m.stream, m.time);
    are_bytes(m.bytes.as_slice());
}

/// A message that was read is one that can be written, where it sets no chunk size.
pub(crate) fn is_pushable(m: &Message)
    requires least { 2 ≤ m.now.id }
    requires most { m.now.id ≤ 65599 }
    requires short { length m.now.bytes ≤ 16777215 }
    ensures { IsPushable (message_seen m.now) }
{
    are_in_range(m.kind, m.stream, m.time);
    are_bytes(m.bytes.as_slice());
}

impl Chunker {
    /// Chunks have 128 bytes until a message sets another size (5.4.1).
    pub fn new() -> Chunker
        ensures { size_of result ≡ 128 }
    {
        Chunker { size: 128 }
    }

    /// Appends a message (Adobe's RTMP specification 1.0, 5.3.1): one chunk of format 0, and then chunks of format 3, with the
    /// shortest basic headers, and the extended timestamp exactly from time 0xFFFFFF. A message of type 1 sets the size of the
    /// chunks behind it. A message is refused with `BadId`, `LongData` or `BadSize`, in this order, exactly where it is one of
    /// these; `Memory` is the one other end. After an end both are as before.
    pub fn push(&mut self, alloc: Global, m: &Message, out: &mut Vec<u8>) -> Result<(), ChunkEnd>
        ensures pushed { OnOk result (out.new.items ≡ out.old.items ++ pushed (size_of self.old) (message_seen m.now)) }
        ensures size { OnOk result (size_of self.new ≡ size_then (size_of self.old) (message_seen m.now)) }
        ensures accepted { OnOk result (IsPushed (message_seen m.now)) }
        ensures refused { (end : End) → refusal_of (message_seen m.now) ≡ Some end → result ≡ Err end }
        ensures ends { IfErr result (λ end. (refusal_of (message_seen m.now) ≡ Some end) ⊎ (end ≡ Memory)) }
        ensures kept { OnErr result (size_of self.new ≡ size_of self.old) }
        ensures untouched { OnErr result (out.new.items ≡ out.old.items) }
    {
        if let Some(end) = refusal(m) {
            return Err(end);
        }
        is_pushed(m);
        let Ok(mut bytes) = Vec::with_capacity(alloc, room_for(self.size, m)) else {
            return Err(ChunkEnd::Memory);
        };
        if write(self.size, m, &mut bytes).is_err() {
            return Err(ChunkEnd::Memory);
        }
        if out.extend_from_slice(&bytes).is_err() {
            return Err(ChunkEnd::Memory);
        }
        if m.kind == 1 {
            self.size = number_in(m.bytes.as_slice());
        }
        Ok(())
    }
}
