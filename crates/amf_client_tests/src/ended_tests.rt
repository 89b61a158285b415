use crate::checks::holds;
use crate::replies::{
    BY_BYTES, MemoryReply, NULL, READ_FAULT, RESULT, WHOLE, Want, Ways, good_reply, is_next,
    is_read, link_of, no_result, put,
};
use amf_client::ReplyBuffer;
use std::alloc::Global;
use std::process::Abort;

/// A peer that closes before the reply is whole, at each byte.
#[test]
fn a_peer_that_closes(rt: HostRuntime) {
    let bytes = good_reply(&rt, rt.alloc(), NULL);
    for end in 0..bytes.len() {
        is_read(&rt, rt.alloc(), &bytes[..end], WHOLE, no_result(end, 7));
    }
}

/// A read that fails before the reply is whole is told, and behind it none is made.
#[test]
fn reads_that_fail(rt: HostRuntime) {
    let bytes = good_reply(&rt, rt.alloc(), NULL);
    let whole = Want {
        at: bytes.len(),
        what: RESULT,
        bytes: NULL,
    };
    for (at, read) in (0..=bytes.len()).zip(0u64..) {
        let ways = Ways {
            failing: &[read],
            ..BY_BYTES
        };
        let want = if at < bytes.len() {
            no_result(at, READ_FAULT)
        } else {
            whole
        };
        is_read(&rt, rt.alloc(), &bytes, ways, want);
    }
}

/// How a reply comes whole, where a read fails.
fn whole_failing(failing: &[u64]) -> Ways<'_> {
    Ways { failing, ..WHOLE }
}

/// A read that fails inside a body is told, whatever the status.
#[test]
fn a_read_that_fails_in_a_body(rt: HostRuntime) {
    let bytes: &[u8] = b"HTTP/1.1 500 No\r\nContent-Length: 5\r\n\r\nab";
    let want = no_result(0, READ_FAULT);
    is_read(&rt, rt.alloc(), bytes, whole_failing(&[1]), want);
}

/// Bytes that end too early, of which no more are read once their end was seen: the next read would fail.
fn is_cut(rt: &impl Abort, alloc: Global, bytes: &[u8], next: u64) {
    let mut link = link_of(rt, alloc, bytes, whole_failing(&[next]));
    let mut buffer = ReplyBuffer::new(alloc).expect(rt, "a buffer");
    is_next(rt, alloc, &mut link, &mut buffer, no_result(bytes.len(), 7));
    holds(rt, link.source.faults() == 0, "no read");
}

#[test]
fn no_read_follows_the_end(rt: HostRuntime) {
    let inside: &[u8] = b"HTTP/1.1 200 OK\r\nContent-Length: 5\r\n\r\nab";
    is_cut(&rt, rt.alloc(), b"", 1);
    is_cut(&rt, rt.alloc(), b"HTTP/1.1 200 OK\r\n", 2);
    is_cut(&rt, rt.alloc(), inside, 2);
}

/// Behind 20 bytes of a head come so many and the end of the head, and this number is told.
fn ask_long(rt: &impl Abort, alloc: Global, count: usize, rest: &[u8], number: u32) {
    let mut bytes = Vec::new(alloc);
    put(rt, &mut bytes, &[b"HTTP/1.1 200 OK\r\nX: "]);
    bytes
        .resize(20usize.saturating_add(count), b'x')
        .expect(rt, "memory");
    put(rt, &mut bytes, &[rest]);
    is_read(rt, alloc, &bytes, WHOLE, no_result(count, number));
    is_read(rt, alloc, &bytes, BY_BYTES, no_result(count, number));
}

/// 8,192 bytes without an empty line are no head, and fewer are not whole; a head may have 8,192 bytes.
#[test]
fn heads_that_do_not_end(rt: HostRuntime) {
    let alloc = rt.alloc();
    ask_long(&rt, alloc, 8168, b"\r\n\r\n", 3);
    ask_long(&rt, alloc, 8169, b"\r\n\r\n", 1);
    ask_long(&rt, alloc, 8171, b"", 7);
    ask_long(&rt, alloc, 8172, b"", 1);
    ask_long(&rt, alloc, 20_000, b"", 1);
}

/// A result is read next.
fn is_result(
    rt: &impl Abort,
    alloc: Global,
    link: &mut MemoryReply,
    buffer: &mut ReplyBuffer,
    bytes: &[u8],
) {
    let want = Want {
        at: 0,
        what: RESULT,
        bytes,
    };
    is_next(rt, alloc, link, buffer, want);
}

/// Two replies that come together are read one after the other, and then comes this.
fn two_replies(rt: &impl Abort, alloc: Global, bytes: &[u8], ways: Ways<'_>, last: u32) {
    let mut link = link_of(rt, alloc, bytes, ways);
    let mut buffer = ReplyBuffer::new(alloc).expect(rt, "a buffer");
    is_result(rt, alloc, &mut link, &mut buffer, NULL);
    is_result(rt, alloc, &mut link, &mut buffer, b"\x04\x05");
    is_next(rt, alloc, &mut link, &mut buffer, no_result(1, last));
}

/// Where both come in one piece, the second is read without a read of the link: the next one fails.
#[test]
fn what_comes_behind_a_reply_is_kept(rt: HostRuntime) {
    let mut bytes = good_reply(&rt, rt.alloc(), NULL);
    let second = good_reply(&rt, rt.alloc(), b"\x04\x05");
    put(&rt, &mut bytes, &[&second]);
    two_replies(&rt, rt.alloc(), &bytes, WHOLE, 7);
    two_replies(&rt, rt.alloc(), &bytes, BY_BYTES, 7);
    two_replies(&rt, rt.alloc(), &bytes, whole_failing(&[1]), READ_FAULT);
}
