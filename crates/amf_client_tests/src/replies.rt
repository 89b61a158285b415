use amf_client::{AnswerFault, ReplyBuffer, read_result};
use amf_graph::Rooted;
use amf_io::{Joined, MemorySink, MemorySource};
use amf3_write::write3;
use itoa::Buffer;
use std::alloc::Global;
use std::process::Abort;

/// What a reply is read as: a result, a bad reply of a number from 1 to 8, or one of these.
pub(crate) const RESULT: u32 = 0;

pub(crate) const FAULT: u32 = 20;

pub(crate) const READ_FAULT: u32 = 30;

/// What a reply is to be read as. The bytes are the canonical ones of a result in AMF 3, or the code of a fault, `/` and its
/// text, and else none. Where the test stands is a line or an offset.
#[derive(Clone, Copy)]
pub(crate) struct Want<'a> {
    pub at: usize,
    pub what: u32,
    pub bytes: &'a [u8],
}

/// A bad reply, or a read that fails.
pub(crate) fn no_result(at: usize, what: u32) -> Want<'static> {
    Want {
        at,
        what,
        bytes: b"",
    }
}

/// How a link gives its bytes: at most so many at a time, none across this offset, and the reads that fail.
#[derive(Clone, Copy)]
pub(crate) struct Ways<'a> {
    pub most: usize,
    pub cut: usize,
    pub failing: &'a [u64],
}

pub(crate) const WHOLE: Ways<'static> = Ways {
    most: usize::MAX,
    cut: 0,
    failing: &[],
};

pub(crate) const BY_BYTES: Ways<'static> = Ways {
    most: 1,
    cut: 0,
    failing: &[],
};

/// A link in memory.
pub(crate) type MemoryReply = Joined<MemorySource, MemorySink>;

pub(crate) fn link_of(rt: &impl Abort, alloc: Global, bytes: &[u8], ways: Ways<'_>) -> MemoryReply {
    Joined {
        source: MemorySource::new(alloc, bytes, ways.most, ways.cut, ways.failing).expect(
            rt, "a source",
        ),
        sink: MemorySink::new(alloc, usize::MAX, &[]).expect(rt, "a sink"),
    }
}

/// What an answer is, and its bytes.
fn put_answer(
    rt: &impl Abort,
    alloc: Global,
    answer: &Result<Rooted, AnswerFault>,
    out: &mut Vec<u8>,
) -> u32 {
    match answer {
        Ok(graph) => {
            assert!(rt; write3(alloc, graph, out).is_ok(), "no spelling");
            RESULT
        }
        Err(AnswerFault::Fault { code, text }) => {
            put(rt, out, &[code.as_bytes(), b"/", text.as_bytes()]);
            FAULT
        }
        Err(AnswerFault::BadReply(number)) => u32::from(*number),
        Err(AnswerFault::ReadFault) => READ_FAULT,
        Err(AnswerFault::Memory) => panic!(rt; "no memory"),
    }
}

/// Ends the test unless this is read next of a link.
pub(crate) fn is_next(
    rt: &impl Abort,
    alloc: Global,
    link: &mut MemoryReply,
    buffer: &mut ReplyBuffer,
    want: Want<'_>,
) {
    let answer = read_result(alloc, link, buffer);
    let mut bytes = Vec::new(alloc);
    let what = put_answer(rt, alloc, &answer, &mut bytes);
    let at = want.at;
    assert!(rt; what == want.what, "at {at}: {what}");
    assert!(rt; bytes.as_slice() == want.bytes, "at {at}: other bytes");
}

/// Ends the test unless this is read of these bytes.
pub(crate) fn is_read(
    rt: &impl Abort,
    alloc: Global,
    bytes: &[u8],
    ways: Ways<'_>,
    want: Want<'_>,
) {
    let mut link = link_of(rt, alloc, bytes, ways);
    let mut buffer = ReplyBuffer::new(alloc).expect(rt, "a buffer");
    is_next(rt, alloc, &mut link, &mut buffer, want);
}

/// Appends the pieces one behind the other.
pub(crate) fn put(rt: &impl Abort, out: &mut Vec<u8>, pieces: &[&[u8]]) {
    for piece in pieces {
        out.extend_from_slice(piece).expect(rt, "memory");
    }
}

/// Appends a reply: lines each of which ends in `;`, an empty one, and the body. A `#` stands for the number of the body's
/// bytes.
pub(crate) fn put_reply(rt: &impl Abort, out: &mut Vec<u8>, lines: &str, body: &[u8]) {
    let mut digits = Buffer::new();
    let size = digits.format(body.len()).as_bytes();
    for byte in lines.bytes() {
        match byte {
            b';' => put(rt, out, &[b"\r\n"]),
            b'#' => put(rt, out, &[size]),
            _ => out.push(byte).expect(rt, "memory"),
        }
    }
    put(rt, out, &[b"\r\n", body]);
}

/// Appends a packet of one message to this target, with this value.
pub(crate) fn put_packet(rt: &impl Abort, out: &mut Vec<u8>, target: &[u8], value: &[u8]) {
    let size = u16::try_from(target.len())
        .expect(rt, "a length")
        .to_be_bytes();
    put(
        rt,
        out,
        &[
            b"\0\x03\0\0\0\x01",
            &size,
            target,
            b"\0\x04null\xFF\xFF\xFF\xFF",
            value,
        ],
    );
}

/// A reply with this head and a packet of one message.
pub(crate) fn reply_with(
    rt: &impl Abort,
    alloc: Global,
    lines: &str,
    target: &[u8],
    value: &[u8],
) -> Vec<u8> {
    let mut packet = Vec::new(alloc);
    put_packet(rt, &mut packet, target, value);
    let mut bytes = Vec::new(alloc);
    put_reply(rt, &mut bytes, lines, &packet);
    bytes
}

/// The lines of a good reply.
pub(crate) const GOOD: &str = "HTTP/1.1 200 OK;Content-Length: #;";

/// A reply with the result whose canonical bytes are these.
pub(crate) fn good_reply(rt: &impl Abort, alloc: Global, canonical: &[u8]) -> Vec<u8> {
    let mut value = Vec::new(alloc);
    put(rt, &mut value, &[b"\x11", canonical]);
    reply_with(rt, alloc, GOOD, b"/1/onResult", &value)
}

/// The canonical bytes of null.
pub(crate) const NULL: &[u8] = b"\x01";
