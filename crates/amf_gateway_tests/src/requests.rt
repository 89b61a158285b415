use amf_test_rows::bytes_of;
use itoa::Buffer;
use std::alloc::Global;
use std::process::Abort;

/// Appends the pieces one behind the other.
pub(crate) fn put(rt: &impl Abort, out: &mut Vec<u8>, pieces: &[&[u8]]) {
    for piece in pieces {
        out.extend_from_slice(piece).expect(rt, "memory");
    }
}

/// Appends a head that begins with these lines, and a packet.
fn put_whole(rt: &impl Abort, out: &mut Vec<u8>, lines: &[u8], packet: &[u8]) {
    let mut digits = Buffer::new();
    let size = digits.format(packet.len()).as_bytes();
    let kind = b"\r\nContent-Type: application/x-amf\r\nContent-Length: ";
    put(rt, out, &[lines, kind, size, b"\r\n\r\n", packet]);
}

/// Appends a request with this packet.
pub(crate) fn put_request(rt: &impl Abort, out: &mut Vec<u8>, packet: &[u8]) {
    put_whole(rt, out, b"POST /amf HTTP/1.1\r\nHost: h", packet);
}

/// Appends a response with this packet, which is not the last of its link.
pub(crate) fn put_response(rt: &impl Abort, out: &mut Vec<u8>, packet: &[u8]) {
    put_whole(rt, out, b"HTTP/1.1 200 OK", packet);
}

/// A request with this packet.
pub(crate) fn request(rt: &impl Abort, alloc: Global, packet: &[u8]) -> Vec<u8> {
    let mut bytes = Vec::new(alloc);
    put_request(rt, &mut bytes, packet);
    bytes
}

/// A response with this packet.
pub(crate) fn response(rt: &impl Abort, alloc: Global, packet: &[u8]) -> Vec<u8> {
    let mut bytes = Vec::new(alloc);
    put_response(rt, &mut bytes, packet);
    bytes
}

/// The first eight names of a message, as each form of message begins: a command, an acknowledgement and a plain one.
const NAMES: &[u8] =
    b"\x09body\x11clientId\x17destination\x0Fheaders\x13messageId\x15timeToLive\x13timestamp\x1BcorrelationId";

/// What a word of a row stands for in the place of bytes, in two pieces.
fn pieces_of(word: &str) -> Option<(&'static [u8], &'static [u8])> {
    match word {
        "COMMAND" => Some((
            b"\x0A\x81\x13\x4Dflex.messaging.messages.CommandMessage",
            NAMES,
        )),
        "ACKNOWLEDGE" => Some((
            b"\x0A\x81\x03\x55flex.messaging.messages.AcknowledgeMessage",
            NAMES,
        )),
        "ASYNC" => Some((
            b"\x0A\x81\x03\x49flex.messaging.messages.AsyncMessage",
            NAMES,
        )),
        "OPERATION" => Some((b"\x13operation", b"")),
        // The headers of a new client, and of clients 1 and 2.
        "NEW" => Some((b"\x0A\x0B\x01\x09DSId\x06\x07nil", b"\x01")),
        "ONE" => Some((b"\x0A\x0B\x01\x09DSId\x06\x031", b"\x01")),
        "TWO" => Some((b"\x0A\x0B\x01\x09DSId\x06\x032", b"\x01")),
        // A time to live and a timestamp of 0, as integers.
        "TIMES" => Some((b"\x04\0", b"\x04\0")),
        // The fresh identifier, the time to live and the timestamp of an answer, where dice and clock give 0.
        "FRESH" => Some((
            b"\x06\x4900000000-0000-4000-8000-000000000000",
            b"\x04\0\x05\0\0\0\0\0\0\0\0",
        )),
        // The identifier of a ping.
        "PING" => Some((b"\x06\x498C9E1A20-0000-4000-8000-0000000000A1", b"")),
        _ => None,
    }
}

/// Appends the bytes that a text without words of the table spells.
pub(crate) fn put_bytes(rt: &impl Abort, alloc: Global, text: &str, out: &mut Vec<u8>) {
    let bytes = bytes_of(alloc, text).expect(rt, "memory");
    put(rt, out, &[&bytes.expect(rt, text)]);
}

/// Appends what the words of a text stand for. No space stands inside quotes.
pub(crate) fn put_words(rt: &impl Abort, alloc: Global, text: &str, out: &mut Vec<u8>) {
    for word in text.split_whitespace() {
        match pieces_of(word) {
            Some((front, rest)) => put(rt, out, &[front, rest]),
            None => put_bytes(rt, alloc, word, out),
        }
    }
}

/// Appends a Flex request, to be answered to this digit.
pub(crate) fn put_flex_request(
    rt: &impl Abort,
    alloc: Global,
    digit: &str,
    message: &str,
    out: &mut Vec<u8>,
) {
    let mut packet = Vec::new(alloc);
    let front = b"\0\x03\0\0\0\x01\0\x04null\0\x02/";
    let rest = b"\xFF\xFF\xFF\xFF\x0A\0\0\0\x01\x11";
    put(rt, &mut packet, &[front, digit.as_bytes(), rest]);
    put_words(rt, alloc, message, &mut packet);
    put_request(rt, out, &packet);
}

/// Appends a Flex answer to this digit.
pub(crate) fn put_flex_response(
    rt: &impl Abort,
    alloc: Global,
    digit: &str,
    message: &str,
    out: &mut Vec<u8>,
) {
    let mut packet = Vec::new(alloc);
    let front = b"\0\x03\0\0\0\x01\0\x0B/";
    let rest = b"/onResult\0\x04null\xFF\xFF\xFF\xFF\x11";
    put(rt, &mut packet, &[front, digit.as_bytes(), rest]);
    put_words(rt, alloc, message, &mut packet);
    put_response(rt, out, &packet);
}
