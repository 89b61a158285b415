use crate::cases::{How, check_rows};
use amf_test_rows::Table;

/// Words, chunks behind a handshake, 03 and 3,072 times 00, the status, the output and the line.
static STREAMS: Table = Table {
    rows: 17,
    fields: 5,
    text: r#"
rtmp --do show | 03 + 3072*00 + 03 000000 000004 14 01000000 02 0001 'x' | 0 | 'message id 3 type 20 stream 1 time 0 length 4' 0A 'root "x"' 0A |
rtmp --do rechunk --size 256 | 03 + 3072*00 + 04 00000A 000081 08 01000000 + 128*AA + C4 AA | 0 | 03 + 3072*00 + 02 000000 000004 01 00000000 00000100 0400000A 000081 08 01000000 + 129*AA |
rtmp --do show | 03 + 3072*00 + C3 | 1 | | 'amf: refused BadChunk at 3073' 0A
rtmp --do show | 03 + 3072*00 + 02 000000 000004 01 00000000 00000000 | 1 | | 'amf: refused BadChunkSize at 3085' 0A
rtmp --do=show | 03 + 3072*00 + 04 00000A 000081 08 01000000 + 128*AA | 0 | 'open id 4 got 128 of 129' 0A |
# Data that are no values.
rtmp --do show | 03 + 3072*00 + 03 000000 000001 14 01000000 04 | 0 | 'message id 3 type 20 stream 1 time 0 length 1' 0A 'bad BadMarker at 0' 0A |
# The size 128 is not said, and what is unfinished is dropped.
rtmp --size=0000000128 --do=rechunk | 03 + 3072*00 + 03 000000 000001 09 01000000 BB 04 00000A 000081 08 01000000 + 128*AA | 0 | 03 + 3072*00 + 03 000000 000001 09 01000000 BB |
rtmp --do rechunk --size 2147483647 | 03 + 3072*00 | 0 | 03 + 3072*00 + 02 000000 000004 01 00000000 7FFFFFFF |
# What is before a refusal is written.
rtmp --do rechunk --size 128 | 03 + 3072*00 + 03 000000 000001 09 01000000 AB C4 | 1 | 03 + 3072*00 + 03 000000 000001 09 01000000 AB | 'amf: refused BadChunk at 3086' 0A
rtmp --do show | 03 + 3072*00 + 03 000000 000000 09 01000000 43 | 1 | 'message id 3 type 9 stream 1 time 0 length 0' 0A | 'amf: refused Truncated at 3086' 0A
# What a client of a media server sends first: `examples/connect.rtmp` behind its handshake.
rtmp --do show | 03 + 3072*00 + 02 000000 000004 01 00000000 00001000 03 000000 000035 14 00000000 02 0007 'connect' 00 3FF0000000000000 03 0003 'app' 02 0004 'live' 0008 'flashVer' 02 0005 'amf/1' 0000 09 | 0 | 'message id 2 type 1 stream 0 time 0 length 4' 0A 'message id 3 type 20 stream 0 time 0 length 53' 0A 'root "connect"' 0A 'root d3ff0000000000000' 0A 'root #0' 0A '#0 object "" sealed {} dynamic {"app"="live", "flashVer"="amf/1"}' 0A |
# And what `examples/connect.txt` makes of it.
rtmp --do rechunk --size 16 | 03 + 3072*00 + 02000000000004010000000000001000030000000000351400000000020007 'connect' 003FF0000000000000030003 'app' 020004 'live' 0008 'flashVer' 020005 'amf/1' 000009 | 0 | 03 + 3072*00 + 02000000000004010000000000000010030000000000351400000000020007 'connect' 003FF0000000C3000000030003 'app' 020004 'live' C30008 'flashVer' 020005 'amf' C32F31000009 |
rtmp --do show | 03 + 3072*00 + 02000000000004010000000000000010030000000000351400000000020007 'connect' 003FF0000000C3000000030003 'app' 020004 'live' C30008 'flashVer' 020005 'amf' C32F31000009 | 0 | 'message id 2 type 1 stream 0 time 0 length 4' 0A 'message id 3 type 20 stream 0 time 0 length 53' 0A 'root "connect"' 0A 'root d3ff0000000000000' 0A 'root #0' 0A '#0 object "" sealed {} dynamic {"app"="live", "flashVer"="amf/1"}' 0A |
rtmp --do rechunk --size 4096 | 03 + 3072*00 + 02000000000004010000000000000010030000000000351400000000020007 'connect' 003FF0000000C3000000030003 'app' 020004 'live' C30008 'flashVer' 020005 'amf' C32F31000009 | 0 | 03 + 3072*00 + 02000000000004010000000000001000030000000000351400000000020007 'connect' 003FF0000000000000030003 'app' 020004 'live' 0008 'flashVer' 020005 'amf/1' 000009 |
rtmp --do show | 03 + 3072*00 + 02000000000004010000000000001000030000000000351400000000020007 'connec' | 1 | 'message id 2 type 1 stream 0 time 0 length 4' 0A | 'amf: refused Truncated at 3101' 0A
rtmp --do show | 03 + 3072*00 + 02000000000004010000000000000010030000000000351400000000020007 'connect' 003FF0000000C30000 | 1 | 'message id 2 type 1 stream 0 time 0 length 4' 0A | 'amf: refused Truncated at 3118' 0A
rtmp --do show | 03 + 3072*00 + 02000000000004010000000000000010030000000000351400000000020007 'connect' 003FF0000000 | 0 | 'message id 2 type 1 stream 0 time 0 length 4' 0A 'open id 3 got 16 of 53' 0A |
"#,
};

#[test]
fn chunk_streams(rt: HostRuntime) {
    check_rows(&rt, rt.alloc(), &STREAMS, How::InPieces(3070));
}

/// Words and an input without a whole handshake, the status, the output and the line.
static FRONTS: Table = Table {
    rows: 3,
    fields: 5,
    text: "
rtmp --do show | | 1 | | 'amf: refused Truncated at 0' 0A
rtmp --do rechunk --size 1 | 04 | 1 | | 'amf: refused BadVersion at 0' 0A
rtmp --do rechunk --size 128 | 03 00 | 1 | | 'amf: refused Truncated at 1' 0A
",
};

#[test]
fn handshakes(rt: HostRuntime) {
    check_rows(&rt, rt.alloc(), &FRONTS, How::InPieces(1));
}

/// Where the read behind all bytes fails, what the messages give is written; where the first write fails, nothing is.
static FAULTS: Table = Table {
    rows: 2,
    fields: 9,
    text: r#"
rtmp --do show | 03 + 3072*00 + 03 000000 000004 14 01000000 02 0001 'x' | 3 | 'message id 3 type 20 stream 1 time 0 length 4' 0A 'root "x"' 0A | 'amf: read fault' 0A | 100000 | 0 | 1 |
rtmp --do show | 03 + 3072*00 + 03 000000 000004 14 01000000 02 0001 'x' | 4 | | 'amf: write fault' 0A | 100000 | 0 | | 0
"#,
};

#[test]
fn streams_that_fail(rt: HostRuntime) {
    check_rows(&rt, rt.alloc(), &FAULTS, How::Listed);
}
