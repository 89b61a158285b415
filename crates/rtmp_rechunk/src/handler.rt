ghost use Rattle.std.specs.Prelude.{List, ℕ, OnOk};
ghost use Rattle.rtmp_chunks.specs.Chunk.{Message as Seen, Unfinished};
ghost use Rattle.rtmp_chunks.specs.Push.{IsPushable};
ghost use Rattle.rtmp_chunks.specs.Table.{message_seen, opens_seen};
ghost use Rattle.rtmp_rechunk.specs.Pass.{Appended};

use amf_wire::Memory;
use rtmp_chunks::{Message, Open};
use std::alloc::Global;

/// What is written for a chunk stream: for its handshake, then for each message, and at its end for the unfinished ones.
pub trait Handler {
    /// What it writes for a handshake.
    ghost begins: { Self → List ℕ → List ℕ → Type 0 };

    /// What it writes for a message.
    ghost says: { Self → Seen → List ℕ → Type 0 };

    /// What it writes at the end, where these messages are unfinished.
    ghost ends: { Self → List Unfinished → List ℕ → Type 0 };

    /// Appends what it writes for the bytes of a handshake.
    fn begin(&self, alloc: Global, handshake: &[u8], out: &mut Vec<u8>) -> Result<(), Memory>
        ensures { OnOk result (Appended (begins self.now handshake.now) out.old.items out.new.items) };

    /// Appends what it writes for a message of a chunk stream. What it writes for others stays as it was.
    fn message(&mut self, alloc: Global, message: &Message, out: &mut Vec<u8>) -> Result<(), Memory>
        requires { IsPushable (message_seen message.now) }
        ensures says { OnOk result (Appended (says self.old (message_seen message.now)) out.old.items out.new.items) }
        ensures still { (m : Seen) (bytes : List ℕ) → says self.new m bytes → says self.old m bytes }
        ensures same_end { (open_ones : List Unfinished) (bytes : List ℕ) → ends self.new open_ones bytes → ends self.old open_ones bytes };

    /// Appends what it writes at the end.
    fn finish(&self, alloc: Global, unfinished: &[Open], out: &mut Vec<u8>) -> Result<(), Memory>
        ensures { OnOk result (Appended (ends self.now (opens_seen unfinished.now)) out.old.items out.new.items) };
}
