//! Laws of the jobs on chunk streams: `Refused` comes by the verdict on the input.

ghost use Rattle.amf_media.specs.RtmpLaws.{StreamsEndByVerdict};

/// A chunk stream of at most 4,294,967,295 bytes is not refused. No job is done on an input that is refused, and a refusal is the
/// verdict on it.
pub fn streams_end_by_verdict()
    ensures { StreamsEndByVerdict }
{}
