/// How the call of `sum.sum` on port 1 with the arguments 2 and 3 is written.
pub(crate) const SUM_ASKED: &[u8] =
    b"POST /amf HTTP/1.1\r\nHost: 127.0.0.1:1\r\nContent-Type: application/x-amf\r\nContent-Length: 31\r\n\r\n\
\0\x03\0\0\0\x01\0\x07sum.sum\0\x02/1\xFF\xFF\xFF\xFF\x11\x09\x05\x01\x04\x02\x04\x03";

/// What the gateway answers to it: 5.
pub(crate) const SUM_REPLY: &[u8] =
    b"HTTP/1.1 200 OK\r\nContent-Type: application/x-amf\r\nContent-Length: 39\r\n\r\n\
\0\x03\0\0\0\x01\0\x0B/1/onResult\0\x04null\xFF\xFF\xFF\xFF\x11\x05\x40\x14\0\0\0\0\0\0";
