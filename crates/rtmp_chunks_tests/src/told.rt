use amf_io::{Cursor, MemorySource, ReadEnd};
use rtmp_chunks::{Chunks, Message, Open, read_handshake};
use std::alloc::Global;
use std::process::Abort;

/// How many bytes of a message are told.
const FEW: usize = 4;

/// More calls than any row has messages.
const CALLS: u32 = 100;

/// The place of the first chunk behind a handshake.
const HANDSHAKE: u32 = 3073;

/// No read has this number.
pub(crate) const NEVER: u64 = u64::MAX;

/// How an input comes: with a handshake or without one, in pieces of at most `most` bytes, none of which goes on past `cut`,
/// and with a read that fails, whose number is `fail`.
#[derive(Clone, Copy)]
pub(crate) struct Way {
    pub has_handshake: bool,
    pub most: usize,
    pub cut: usize,
    pub fail: u64,
}

/// What is read of an input: its messages, its unfinished ones, and why it ends. Without a handshake places are told as if it
/// stood there.
pub(crate) fn told(rt: &impl Abort, alloc: Global, bytes: &[u8], way: Way) -> String {
    let mut out = String::new(alloc);
    let mut source = MemorySource::new(alloc, bytes, way.most, way.cut, &[way.fail]).expect(
        rt, "a source",
    );
    put_told(rt, alloc, &mut source, way.has_handshake, &mut out);
    out
}

fn put_told(
    rt: &impl Abort,
    alloc: Global,
    source: &mut MemorySource,
    has_handshake: bool,
    out: &mut String,
) {
    let mut cursor = Cursor::new(alloc, source, u32::MAX).expect(rt, "a cursor");
    if !has_handshake {
        put_chunks(rt, alloc, &mut cursor, HANDSHAKE, out);
    } else if is_greeted(rt, alloc, &mut cursor, out) {
        put_chunks(rt, alloc, &mut cursor, 0, out);
    }
}

/// Whether a handshake is read, of which the end is told else.
fn is_greeted(
    rt: &impl Abort,
    alloc: Global,
    cursor: &mut Cursor<'_, MemorySource>,
    out: &mut String,
) -> bool {
    let mut handshake = Vec::new(alloc);
    match read_handshake(alloc, cursor, &mut handshake) {
        Ok(()) => {
            assert!(rt; handshake.len() == 3073, "another handshake");
            true
        }
        Err(end) => {
            put_end(rt, out, end, 0);
            false
        }
    }
}

fn put_chunks(
    rt: &impl Abort,
    alloc: Global,
    cursor: &mut Cursor<'_, MemorySource>,
    base: u32,
    out: &mut String,
) {
    let mut chunks = Chunks::new(alloc).expect(rt, "a reader");
    for _ in 0..CALLS {
        if !put_next(rt, alloc, cursor, &mut chunks, base, out) {
            return;
        }
    }
}

/// Tells of the next message, and else of the end. It says whether there may be more.
fn put_next(
    rt: &impl Abort,
    alloc: Global,
    cursor: &mut Cursor<'_, MemorySource>,
    chunks: &mut Chunks,
    base: u32,
    out: &mut String,
) -> bool {
    match chunks.next(alloc, cursor) {
        Ok(Some(message)) => {
            put_message(rt, out, &message);
            true
        }
        Ok(None) => {
            put_open(rt, out, chunks.open());
            false
        }
        Err(end) => {
            put_end(rt, out, end, base);
            false
        }
    }
}

/// A word, and numbers behind it.
fn put_numbers(rt: &impl Abort, out: &mut String, word: &str, numbers: &[u32]) {
    out.push_str(word).expect(rt, "memory");
    for number in numbers {
        write!(out, " {number}").expect(rt, "memory");
    }
}

fn put_message(rt: &impl Abort, out: &mut String, message: &Message) {
    let bytes = message.bytes.as_slice();
    let length = u32::try_from(bytes.len()).expect(rt, "a length");
    let kind = u32::from(message.kind);
    let numbers = [message.id, kind, message.stream, message.time, length];
    put_numbers(rt, out, "message", &numbers);
    out.push_str(" ").expect(rt, "memory");
    for byte in bytes.iter().take(FEW) {
        write!(out, "{byte:02X}").expect(rt, "memory");
    }
    out.push_str("; ").expect(rt, "memory");
}

fn put_open(rt: &impl Abort, out: &mut String, list: &[Open]) {
    for open in list {
        put_numbers(rt, out, "open", &[open.id, open.got, open.of]);
        out.push_str("; ").expect(rt, "memory");
    }
}

/// Why a reader ended, with the place of a refusal counted from `base`.
fn put_end(rt: &impl Abort, out: &mut String, end: ReadEnd, base: u32) {
    match end {
        ReadEnd::Refused(refusal) => {
            let reason = refusal.reason;
            let at = refusal.at.wrapping_add(base);
            write!(out, "{reason:?} {at}").expect(rt, "memory");
        }
        end => write!(out, "{end:?}").expect(rt, "memory"),
    }
}
