ghost use Rattle.rtmp_listing.specs.Listing.{ShowsMessage, BeginsSilently, ListsOpen};

use crate::lines::{push_message_line, push_open_lines};
use crate::values::push_values;
use amf_wire::Memory;
use rtmp_chunks::{Message, Open};
use rtmp_rechunk::Handler;
use std::alloc::Global;
use std::hash::RandomState;

/// Lists the messages of a chunk stream: a line for each, behind that of a message of type 20 the listings of its AMF 0 values,
/// and at the end a line for each unfinished one.
#[derive(Clone, Copy, Debug, Drop)]
pub struct Lister {
    keys: Option<RandomState>,
}

impl Lister {
    /// Texts are looked up by fixed keys, so whoever knows them can make a stream that takes long: `keyed` is passed others.
    pub fn new() -> Lister {
        Lister::keyed(None)
    }

    /// Texts are looked up by these keys, or by fixed ones where there are none. What is listed is the same for all keys.
    pub fn keyed(keys: Option<RandomState>) -> Lister {
        Lister { keys }
    }
}

impl Handler for Lister {
    ghost begins = { λ l. BeginsSilently };

    ghost says = { λ l. ShowsMessage };

    ghost ends = { λ l. ListsOpen };

    fn begin(&self, _alloc: Global, _handshake: &[u8], _out: &mut Vec<u8>) -> Result<(), Memory> {
        Ok(())
    }

    fn message(
        &mut self,
        alloc: Global,
        message: &Message,
        out: &mut Vec<u8>,
    ) -> Result<(), Memory> {
        push_message_line(message, out)?;
        if message.kind != 20 {
            return Ok(());
        }
        push_values(alloc, self.keys, message.bytes.as_slice(), out)
    }

    fn finish(&self, _alloc: Global, unfinished: &[Open], out: &mut Vec<u8>) -> Result<(), Memory> {
        push_open_lines(unfinished, out)?;
        Ok(())
    }
}
