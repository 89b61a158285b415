ghost use Rattle.std.specs.Prelude.{◌≡◌, ◌<◌, ◌++◌, List, ℕ, OnOk, OnErr, IfOk};
ghost use Rattle.rtmp_chunks.specs.declared.chunker.ChunkEnd.TheVariants.{Memory as NoMemory};
ghost use Rattle.rtmp_chunks.specs.Push.{IsPushed, pushed, size_of, size_then};
ghost use Rattle.rtmp_chunks.specs.Rechunk.{size_message as setting};
ghost use Rattle.rtmp_chunks.specs.Table.{message_seen};
ghost use Rattle.rtmp_rechunk.specs.Rechunk.{size_in, Restarts, Repeats, EndsSilently, RechunkedBytes};
ghost use Rattle.rtmp_rechunk.specs.Worked.{RechunkRows};

use crate::handler::Handler;
use crate::rechunker::Rechunker;
use amf_wire::Memory;
use rtmp_chunks::{ChunkEnd, Chunker, Message, MessageBytes, Open};
use std::alloc::Global;

/// The message that sets a chunk size (Adobe's RTMP specification 1.0, 5.4.1).
fn size_message(alloc: Global, size: u32) -> Result<Message, Memory>
    ensures { IfOk result (λ m. message_seen m ≡ setting size) }
{
    let bytes = Vec::from_slice(alloc, &size.to_be_bytes())?;
    Ok(Message {
        id: 2,
        kind: 1,
        stream: 0,
        time: 0,
        bytes: MessageBytes::of_vec(bytes),
    })
}

/// The one end of a message that can be written.
fn memory_of(end: ChunkEnd) -> Memory
    requires { end ≡ NoMemory }
{
    match end {
        ChunkEnd::Memory => Memory,
        _ => unreachable!(),
    }
}

/// Appends a message that can be written: there is no other end than want of memory.
fn push_one(
    alloc: Global,
    chunker: &mut Chunker,
    message: &Message,
    out: &mut Vec<u8>,
) -> Result<(), Memory>
    requires { IsPushed (message_seen message.now) }
    ensures pushed { OnOk result (out.new.items ≡ out.old.items ++ pushed (size_of chunker.old) (message_seen message.now)) }
    ensures size { OnOk result (size_of chunker.new ≡ size_then (size_of chunker.old) (message_seen message.now)) }
    ensures kept { OnErr result (size_of chunker.new ≡ size_of chunker.old) }
{
    match chunker.push(alloc, message, out) {
        Ok(()) => Ok(()),
        Err(end) => Err(memory_of(end)),
    }
}

impl Rechunker {
    /// Writes chunks of a size from 1 to 2^31-1 bytes.
    pub fn new(alloc: Global, size: u32) -> Result<Rechunker, Memory>
        requires some { 0 < size }
        requires most { size < 2147483648 }
        ensures { IfOk result (λ r. size_in r ≡ size) }
    {
        let mut chunker = Chunker::new();
        let mut start = Vec::new(alloc);
        if size == 128 {
            return Ok(Rechunker {
                size,
                chunker,
                start,
            });
        }
        let message = size_message(alloc, size)?;
        push_one(alloc, &mut chunker, &message, &mut start)?;
        Ok(Rechunker {
            size,
            chunker,
            start,
        })
    }
}

impl Handler for Rechunker {
    ghost begins = { λ r. Restarts (size_in r) };

    ghost says = { λ r. Repeats (size_in r) };

    ghost ends = { λ r. EndsSilently };

    fn begin(&self, _alloc: Global, handshake: &[u8], out: &mut Vec<u8>) -> Result<(), Memory> {
        out.extend_from_slice(handshake)?;
        out.extend_from_slice(&self.start)?;
        Ok(())
    }

    fn message(
        &mut self,
        alloc: Global,
        message: &Message,
        out: &mut Vec<u8>,
    ) -> Result<(), Memory> {
        if message.kind == 1 {
            return Ok(());
        }
        push_one(alloc, &mut self.chunker, message, out)
    }

    fn finish(
        &self,
        _alloc: Global,
        _unfinished: &[Open],
        _out: &mut Vec<u8>,
    ) -> Result<(), Memory> {
        Ok(())
    }
}

/// What a [`Rechunker`] writes is the handshake and the bytes of one chunker.
pub fn rechunked_bytes()
    ensures bytes { RechunkedBytes }
{}

/// Worked outputs are as they are to be.
pub fn rechunk_rows()
    ensures rows { RechunkRows }
{}
