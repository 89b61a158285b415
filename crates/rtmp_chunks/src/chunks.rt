ghost use Rattle.std.specs.Prelude.{◌≡◌, ◌<◌, ◌≤◌, ℕ, [], ◌∷◌, length, OnOk, IfOk, IfSome, None};
ghost use Rattle.amf_io.specs.Cursor.{place};
ghost use Rattle.amf_io.specs.ReadEnds.{IsPlaced, Goes};
ghost use Rattle.amf_io.specs.CursorReads.{Answers};
ghost use Rattle.amf_io.specs.Stretch.{between};
ghost use Rattle.rtmp_chunks.specs.Chunk.{size_behind, whole_message};
ghost use Rattle.rtmp_chunks.specs.Machine.{start, put, dropped_by, chunk_layout};
ghost use Rattle.rtmp_chunks.specs.Push.{IsPushable};
ghost use Rattle.rtmp_chunks.specs.Reader.{AnswersNext};
ghost use Rattle.rtmp_chunks.specs.Table.{head_seen, slot_behind, slots_seen, message_seen, made, made_by, opens_seen, held, listed, ListsAll};

use crate::chunker::is_pushable;
use crate::data::read_part;
use crate::fields::{format_in, id_in, read_basic};
use crate::headers::number_in;
use crate::parts::{Chunks, Message, MessageBytes, Open, PartialMessage, Slot};
use crate::table::{drop_unfinished, is_refused, list_unfinished, make_room, take_slot};
use amf_io::{Cursor, ReadEnd, Reason, Source, is_over, refused};
use amf_wire::Memory;
use std::alloc::Global;

impl Chunks {
    /// No chunk was read: chunks have 128 bytes.
    pub fn new(alloc: Global) -> Result<Chunks, Memory>
        ensures start { IfOk result (λ chunks. held chunks [] ≡ start) }
        ensures none { IfOk result (λ chunks. listed chunks ≡ []) }
    {
        Ok(Chunks {
            size: 128,
            slots: Vec::new(alloc),
            unfinished: Vec::new(alloc),
        })
    }

    /// The unfinished messages by id, as they were when [`Chunks::next`] last gave none.
    pub fn open(&self) -> &[Open]
        ensures { opens_seen result.now ≡ listed self.now }
    {
        &self.unfinished
    }

    /// What a whole message does: it sets the chunk size, or drops an unfinished one.
    fn obey(&mut self, message: &Message)
        requires { message.now.kind ≡ 1 → length message.now.bytes ≡ 4 }
        ensures size { self.new.size ≡ size_behind self.old.size (message_seen message.now ∷ []) }
        ensures slots { (j : ℕ) → slots_seen self.new.slots.items j ≡ dropped_by j (message_seen message.now ∷ []) (slots_seen self.old.slots.items j) }
        ensures listed { self.new.unfinished.items ≡ self.old.unfinished.items }
    {
        if message.kind == 1 {
            self.size = number_in(message.bytes.as_slice());
        }
        if message.kind == 2 && message.bytes.as_slice().len() == 4 {
            drop_unfinished(&mut self.slots, number_in(message.bytes.as_slice()));
        }
    }

    /// These bytes of a message came: it may be whole.
    fn came(&mut self, id: u32, part: PartialMessage) -> Option<Message>
        requires room { id < length self.old.slots.items }
        requires least { 2 ≤ id }
        ensures made { made result ≡ whole_message id (head_seen part.head) part.bytes.items }
        ensures pushable { IfSome result (λ message. IsPushable (message_seen message)) }
        ensures size { self.new.size ≡ size_behind self.old.size (made result) }
        ensures slots { (j : ℕ)
            → slots_seen self.new.slots.items j ≡ dropped_by j (made result) (put id (slot_behind part) (slots_seen self.old.slots.items) j) }
        ensures listed { self.new.unfinished.items ≡ self.old.unfinished.items }
    {
        let place = id as usize;
        let head = part.head;
        if part.bytes.len() < head.size as usize {
            self.slots[place] = Slot::Busy(part);
            return None;
        }
        self.slots[place] = Slot::Idle(head);
        let message = Message {
            id,
            kind: head.kind,
            stream: head.stream,
            time: head.time,
            bytes: MessageBytes::of_vec(part.bytes),
        };
        is_pushable(&message);
        self.obey(&message);
        Some(message)
    }

    /// Reads a chunk, and gives the message that it makes whole. Its basic header goes through a buffer.
    fn chunk<S: Source>(
        &mut self,
        alloc: Global,
        cursor: &mut Cursor<'_, S>,
        header: &mut Vec<u8>,
    ) -> Result<Option<Message>, ReadEnd>
        ensures goes { Goes S.Source cursor.old cursor.new result }
        ensures answers { Answers S.tells S.left (λ it. held self.new (made it)) (chunk_layout (held self.old [])) cursor.old cursor.new result }
        ensures placed { OnOk result (IsPlaced cursor.new) }
        ensures moves { OnOk result (place cursor.old < place cursor.new) }
        ensures listed { OnOk result (self.new.unfinished.items ≡ self.old.unfinished.items) }
        ensures pushable { IfOk result (λ it. IfSome it (λ message. IsPushable (message_seen message))) }
    {
        let start = cursor.at();
        read_basic(cursor, header)?;
        let id = id_in(header);
        let format = format_in(header);
        if is_refused(&self.slots, id, format) {
            return Err(refused(Reason::BadChunk, start));
        }
        make_room(&mut self.slots, id)?;
        let slot = take_slot(&mut self.slots, id);
        let part = read_part(alloc, cursor, self.size, format, slot)?;
        Ok(self.came(id, part))
    }

    /// Reads to the end of the next message, and no further. There is none exactly where the input ends between chunks before
    /// another message is whole. `BadChunk` and `BadChunkSize` stand at the field that is refused: a format that cannot stand
    /// (5.3.1.2), a message of type 1 whose length is not 4, or whose number is 0 or above 2^31-1 (5.4.1). A refusal or a read that
    /// fails comes only once each message before it was given. A message that sets no chunk size can be written: [`Chunker::push`]
    /// refuses none of them. Its memory grows only as bytes come, but for the table. After an end
    /// the `Chunks` and the cursor must not be used again.
    pub fn next<S: Source>(
        &mut self,
        alloc: Global,
        cursor: &mut Cursor<'_, S>,
    ) -> Result<Option<Message>, ReadEnd>
        ensures goes { Goes S.Source cursor.old cursor.new result }
        ensures answers { AnswersNext message_seen (held self.old []) (held self.new (made_by result)) (between S.tells S.left cursor.old cursor.new) result }
        ensures open { IfOk result (λ it. it ≡ None → ListsAll self.new) }
        ensures kept { IfOk result (λ it. IfSome it (λ message. listed self.new ≡ listed self.old)) }
        ensures pushable { IfOk result (λ it. IfSome it (λ message. IsPushable (message_seen message))) }
    {
        // What is true of every cursor.
        let _start = cursor.at();
        let mut header = Vec::new(alloc);
        while !is_over(cursor)? {
            if let Some(message) = self.chunk(alloc, cursor, &mut header)? {
                return Ok(Some(message));
            }
        }
        self.unfinished = list_unfinished(alloc, &self.slots)?;
        Ok(None)
    }
}
