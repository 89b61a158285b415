ghost use Rattle.std.specs.Prelude.{◌≡◌};
ghost use Rattle.rtmp_chunks.specs.Push.{pushed_all, size_of};
ghost use Rattle.rtmp_chunks.specs.Rechunk.{size_messages};

use rtmp_chunks::Chunker;

/// Writes a chunk stream again, in chunks of one size: a [`crate::Handler`]. Messages that set a chunk size are left out, and what
/// is unfinished is dropped. One chunker makes all chunks.
#[derive(Drop)]
pub struct Rechunker {
    pub(crate) size: u32,
    pub(crate) chunker: Chunker,
    pub(crate) start: Vec<u8>,
    ghost holds: { size_of chunker ≡ size },
    ghost starts: { start.items ≡ pushed_all 128 (size_messages size) },
}
