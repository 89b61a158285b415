ghost use Rattle.rtmp_chunks.specs.Worked.{Rows};
ghost use Rattle.rtmp_chunks.specs.Calls.{CallsTell};
ghost use Rattle.rtmp_chunks.specs.Rechunk.{Rechunked};
ghost use Rattle.rtmp_chunks.specs.Laws.{ReadsStreams, StreamsAreRead, DeviceReads, OneMeaning, StreamsJudged, PushedReads};

/// Worked chunk streams are read and written as they are to be.
pub fn worked_rows()
    ensures rows { Rows }
{}

/// What is read chunk by chunk is what a chunk stream says, and nothing else is.
pub fn reading_tells()
    ensures reads { ReadsStreams }
    ensures streams { StreamsAreRead }
    ensures device { DeviceReads }
{}

/// Bytes say one thing alone: these messages, and these unfinished ones.
pub fn one_meaning()
    ensures one { OneMeaning }
{}

/// An input of bytes has one verdict: it is a chunk stream, or it is refused for one reason at one place; and a field that is
/// refused is the first that is wrong.
pub fn one_verdict()
    ensures judged { StreamsJudged }
{}

/// Calls of [`crate::Chunks::next`] behind [`crate::read_handshake`], until one gives none, give exactly the messages of the chunk
/// stream that the input is, and [`crate::Chunks::open`] lists its unfinished ones. Where one is refused, that is the verdict on
/// the whole input; and behind a refusal or a read that failed the messages are all those of the front before it. The same is said
/// of a handshake that is refused, or whose reading fails: no message is before it.
pub fn calls_tell()
    ensures calls { CallsTell }
{}

/// What is written for messages says these messages, and nothing that is unfinished.
pub fn pushed_reads()
    ensures reads { PushedReads }
{}

/// The messages of an input of bytes, but those of type 1, are never refused by [`crate::Chunker::push`]; and what is written for
/// them in chunks of another size says that size and them, and nothing that is unfinished.
pub fn rechunked()
    ensures again { Rechunked }
{}
