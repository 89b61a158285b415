ghost use Rattle.std.specs.Prelude.{◌≡◌, ◌≢◌, ◌<◌, ◌≤◌, ◌+◌, ◌^◌, [], length, take, vec_len, vec_capacity, true, false, OnOk, OnErr, IfOk, IfSome, IfNone};
ghost use Rattle.amf_graph.specs.Arena.{Arena};
ghost use Rattle.amf_wire.specs.Text.{IsText};
ghost use Rattle.amf_graph.specs.Bounds.{count_end};
ghost use Rattle.amf_wire.specs.U29.{u29_end};
ghost use Rattle.amf_tables.specs.FirstPlace.{IsFirstPlace};
ghost use Rattle.amf3_spelling.specs.Markers3.{marker_byte};
ghost use Rattle.amf3_spelling.specs.Words3.{NoPlaceBelow};
ghost use Rattle.amf3_spelling.specs.ByteSpelling as spell;
ghost use Rattle.amf3_write.specs.Writes.{WritesStep, WritesSteps, Keeps, IsReady, marked_steps};

use crate::GraphTables;
use amf_tables::{KnownWords, WriterTables};
use amf_wire::Memory;
use amf3_spelling::Marker;
use std::alloc::Global;
use std::mem;

/// How many places of the table of texts a header can name (1.3.2).
const NAMEABLE_TEXTS: u32 = 268_435_456;

/// No number of 29 bits takes more bytes.
const LONGEST_NUMBER: usize = 4;

/// No marker takes more bytes with a number behind it.
const LONGEST_MARKED: usize = 5;

/// Asks for room for a marker and a number. After an end nothing has changed.
#[inline(never)]
fn grow(bytes: &mut Vec<u8>) -> Result<(), Memory>
    ensures same { bytes.new.items ≡ bytes.old.items }
    ensures room { OnOk result (vec_len bytes.new + LONGEST_MARKED ≤ vec_capacity bytes.new) }
{
    bytes.reserve(LONGEST_MARKED)?;
    Ok(())
}

/// Makes room for a marker and a number: mostly it is there. After an end nothing has changed.
#[inline(always)]
fn make_room(bytes: &mut Vec<u8>) -> Result<(), Memory>
    ensures same { bytes.new.items ≡ bytes.old.items }
    ensures room { OnOk result (vec_len bytes.new + LONGEST_MARKED ≤ vec_capacity bytes.new) }
{
    if bytes.capacity() - bytes.len() < LONGEST_MARKED {
        return grow(bytes);
    }
    Ok(())
}

/// What has been written: the tables that it leads to, and the bytes.
#[derive(Drop)]
pub(crate) struct Output {
    pub(crate) alloc: Global,
    pub(crate) tables: WriterTables,
    /// What is known of the places of the graph's texts and traits.
    pub(crate) known: KnownWords,
    pub(crate) bytes: Vec<u8>,
}

impl Output {
    /// The tables and the bytes, taken from where they stood.
    pub(crate) fn taking(
        alloc: Global,
        tables: &mut GraphTables,
        bytes: &mut Vec<u8>,
    ) -> Result<Output, Memory>
        ensures tables { IfOk result (λ output. output.tables ≡ tables.old.tables) }
        ensures known { IfOk result (λ output. output.known ≡ tables.old.known) }
        ensures bytes { IfOk result (λ output. output.bytes ≡ bytes.old) }
        ensures untouched { OnErr result ((tables.new.tables ≡ tables.old.tables) × (bytes.new ≡ bytes.old)) }
    {
        let empty = WriterTables::new(alloc)?;
        Ok(Output {
            alloc,
            tables: mem::replace(&mut tables.tables, empty),
            known: mem::replace(&mut tables.known, KnownWords::new(alloc)),
            bytes: mem::replace(bytes, Vec::new(alloc)),
        })
    }

    /// The tables and the bytes, back to where they stood: after an end the first bytes alone, so many as there were.
    pub(crate) fn put_back(
        mut self,
        has_ended: bool,
        start: usize,
        tables: &mut GraphTables,
        bytes: &mut Vec<u8>,
    )
        ensures tables { tables.new.tables ≡ self.tables }
        ensures known { tables.new.known ≡ self.known }
        ensures whole { has_ended ≡ false → bytes.new ≡ self.bytes }
        ensures cut { has_ended ≡ true → bytes.new.items ≡ take start self.bytes.items }
    {
        if has_ended {
            self.bytes.truncate(start);
        }
        tables.tables = self.tables;
        tables.known = self.known;
        *bytes = self.bytes;
    }

    /// A marker (3.1).
    pub(crate) fn marker(&mut self, marker: Marker) -> Result<(), Memory>
        ensures ok { OnOk result (WritesStep (spell.byte (marker_byte marker)) self.old self.new) }
        ensures keeps { Keeps self.old self.new }
        ensures tables { self.new.tables ≡ self.old.tables }
        ensures known { self.new.known ≡ self.old.known }
    {
        make_room(&mut self.bytes)?;
        self.bytes.push_reserved(marker.byte());
        Ok(())
    }

    /// A number of 29 bits, in the fewest bytes (1.3.1). Most are of one byte.
    #[inline(always)]
    pub(crate) fn number(&mut self, number: u32) -> Result<(), Memory>
        requires { number < u29_end }
        ensures ok { OnOk result (WritesStep (spell.number number) self.old self.new) }
        ensures keeps { Keeps self.old self.new }
        ensures tables { self.new.tables ≡ self.old.tables }
        ensures known { self.new.known ≡ self.old.known }
    {
        if number < 0x80 && self.bytes.len() < self.bytes.capacity() {
            self.one_byte(number);
            return Ok(());
        }
        self.any_number(number)
    }

    /// A number of 29 bits, in the fewest bytes.
    #[inline(never)]
    fn any_number(&mut self, number: u32) -> Result<(), Memory>
        requires { number < u29_end }
        ensures ok { OnOk result (WritesStep (spell.number number) self.old self.new) }
        ensures keeps { Keeps self.old self.new }
        ensures tables { self.new.tables ≡ self.old.tables }
        ensures known { self.new.known ≡ self.old.known }
    {
        make_room(&mut self.bytes)?;
        self.number_in_room(number);
        Ok(())
    }

    /// A marker, for which there is room.
    #[inline(always)]
    fn marker_in_room(&mut self, marker: Marker)
        requires { vec_len self.old.bytes < vec_capacity self.old.bytes }
        ensures writes { WritesStep (spell.byte (marker_byte marker)) self.old self.new }
        ensures keeps { Keeps self.old self.new }
        ensures tables { self.new.tables ≡ self.old.tables }
        ensures known { self.new.known ≡ self.old.known }
        ensures len { vec_len self.new.bytes ≡ vec_len self.old.bytes + 1 }
        ensures capacity { vec_capacity self.new.bytes ≡ vec_capacity self.old.bytes }
    {
        self.bytes.push_reserved(marker.byte());
    }

    /// A marker, and the number of 29 bits behind it.
    #[inline(always)]
    pub(crate) fn marked_number(&mut self, marker: Marker, number: u32) -> Result<(), Memory>
        requires { number < u29_end }
        ensures ok { OnOk result (WritesSteps (marked_steps (marker_byte marker) number) self.old self.new) }
        ensures keeps { Keeps self.old self.new }
        ensures tables { self.new.tables ≡ self.old.tables }
        ensures known { self.new.known ≡ self.old.known }
    {
        make_room(&mut self.bytes)?;
        self.marker_in_room(marker);
        self.number_in_room(number);
        Ok(())
    }

    /// A number, for which there is room.
    #[inline(always)]
    fn number_in_room(&mut self, number: u32)
        requires small { number < u29_end }
        requires room { vec_len self.old.bytes + LONGEST_NUMBER ≤ vec_capacity self.old.bytes }
        ensures writes { WritesStep (spell.number number) self.old self.new }
        ensures keeps { Keeps self.old self.new }
        ensures tables { self.new.tables ≡ self.old.tables }
        ensures known { self.new.known ≡ self.old.known }
    {
        if number < 0x80 {
            return self.one_byte(number);
        }
        if number < 0x4000 {
            return self.two_bytes(number);
        }
        if number < 0x20_0000 {
            return self.three_bytes(number);
        }
        self.four_bytes(number)
    }

    /// A number of one byte.
    #[inline(always)]
    fn one_byte(&mut self, number: u32)
        requires small { number < 2 ^ 7 }
        requires room { vec_len self.old.bytes + 1 ≤ vec_capacity self.old.bytes }
        ensures writes { WritesStep (spell.number number) self.old self.new }
        ensures keeps { Keeps self.old self.new }
        ensures tables { self.new.tables ≡ self.old.tables }
        ensures known { self.new.known ≡ self.old.known }
    {
        self.bytes.push_reserved(number as u8);
    }

    /// A number of two bytes.
    #[inline(always)]
    fn two_bytes(&mut self, number: u32)
        requires large { 2 ^ 7 ≤ number }
        requires small { number < 2 ^ 14 }
        requires room { vec_len self.old.bytes + 2 ≤ vec_capacity self.old.bytes }
        ensures writes { WritesStep (spell.number number) self.old self.new }
        ensures keeps { Keeps self.old self.new }
        ensures tables { self.new.tables ≡ self.old.tables }
        ensures known { self.new.known ≡ self.old.known }
    {
        self.bytes
            .push_reserved(0x80 + (number / 0x80 % 0x80) as u8);
        self.bytes.push_reserved((number % 0x80) as u8);
    }

    /// A number of three bytes.
    #[inline(always)]
    fn three_bytes(&mut self, number: u32)
        requires large { 2 ^ 14 ≤ number }
        requires small { number < 2 ^ 21 }
        requires room { vec_len self.old.bytes + 3 ≤ vec_capacity self.old.bytes }
        ensures writes { WritesStep (spell.number number) self.old self.new }
        ensures keeps { Keeps self.old self.new }
        ensures tables { self.new.tables ≡ self.old.tables }
        ensures known { self.new.known ≡ self.old.known }
    {
        self.bytes
            .push_reserved(0x80 + (number / 0x4000 % 0x80) as u8);
        self.bytes
            .push_reserved(0x80 + (number / 0x80 % 0x80) as u8);
        self.bytes.push_reserved((number % 0x80) as u8);
    }

    /// A number of four bytes.
    #[inline(always)]
    fn four_bytes(&mut self, number: u32)
        requires large { 2 ^ 21 ≤ number }
        requires small { number < u29_end }
        requires room { vec_len self.old.bytes + 4 ≤ vec_capacity self.old.bytes }
        ensures writes { WritesStep (spell.number number) self.old self.new }
        ensures keeps { Keeps self.old self.new }
        ensures tables { self.new.tables ≡ self.old.tables }
        ensures known { self.new.known ≡ self.old.known }
    {
        self.bytes
            .push_reserved(0x80 + (number / 0x40_0000 % 0x80) as u8);
        self.bytes
            .push_reserved(0x80 + (number / 0x8000 % 0x80) as u8);
        self.bytes
            .push_reserved(0x80 + (number / 0x100 % 0x80) as u8);
        self.bytes.push_reserved((number % 0x100) as u8);
    }

    /// Bytes as they are.
    pub(crate) fn raw(&mut self, bytes: &[u8]) -> Result<(), Memory>
        ensures ok { OnOk result (WritesStep (spell.raw bytes.now) self.old self.new) }
        ensures keeps { Keeps self.old self.new }
        ensures tables { self.new.tables ≡ self.old.tables }
        ensures known { self.new.known ≡ self.old.known }
    {
        self.bytes.extend_from_slice(bytes)?;
        Ok(())
    }

    /// A flag of a header: 1 for true (3.15).
    pub(crate) fn flag(&mut self, flag: bool) -> Result<(), Memory>
        ensures ok { OnOk result (WritesStep (spell.flag flag) self.old self.new) }
        ensures keeps { Keeps self.old self.new }
        ensures tables { self.new.tables ≡ self.old.tables }
        ensures known { self.new.known ≡ self.old.known }
    {
        self.bytes.push(u8::from(flag))?;
        Ok(())
    }

    /// The first place of a text, if a header can name it. It takes no memory.
    fn place_of_text(&self, text: &[u8]) -> Option<u32>
        ensures first { IfSome result (λ place. IsFirstPlace self.now.tables.words.texts text.now place) }
        ensures within { IfSome result (λ place. place < NAMEABLE_TEXTS) }
        ensures none { IfNone result (NoPlaceBelow NAMEABLE_TEXTS self.now.tables.words.texts text.now) }
    {
        let place = self.tables.place_of_text(text)?;
        if place < NAMEABLE_TEXTS {
            Some(place)
        } else {
            None
        }
    }

    /// A text: by its place, or inline where no header can name it. The empty text has no place (1.3.2).
    pub(crate) fn text(&mut self, text: &[u8]) -> Result<(), Memory>
        requires is_text { IsText text.now }
        requires short { length text.now < count_end }
        ensures ok { OnOk result (WritesStep (spell.word text.now) self.old self.new) }
        ensures keeps { Keeps self.old self.new }
        ensures ready { (a : Arena) → IsReady a self.old.tables self.old.known → IsReady a self.new.tables self.new.known }
    {
        if text.is_empty() {
            return self.number(1);
        }
        self.tables.settle_texts()?;
        self.settled_text(text)
    }

    /// A text that is not empty. Where texts of the tables are not hashed, it is compared with them one by one.
    fn settled_text(&mut self, text: &[u8]) -> Result<(), Memory>
        requires is_text { IsText text.now }
        requires short { length text.now < count_end }
        requires not_empty { text.now ≢ [] }
        ensures ok { OnOk result (WritesStep (spell.word text.now) self.old self.new) }
        ensures keeps { Keeps self.old self.new }
        ensures ready { (a : Arena) → IsReady a self.old.tables self.old.known → IsReady a self.new.tables self.new.known }
    {
        match self.place_of_text(text) {
            Some(place) => self.number(2 * place),
            None => self.text_inline(text),
        }
    }

    /// A text that stands at this place first: by its place, or inline where no header can name it.
    pub(crate) fn text_at(&mut self, place: u32, text: &[u8]) -> Result<(), Memory>
        requires is_text { IsText text.now }
        requires short { length text.now < count_end }
        requires not_empty { text.now ≢ [] }
        requires first { IsFirstPlace self.old.tables.words.texts text.now place }
        ensures ok { OnOk result (WritesStep (spell.word text.now) self.old self.new) }
        ensures keeps { Keeps self.old self.new }
        ensures ready { (a : Arena) → IsReady a self.old.tables self.old.known → IsReady a self.new.tables self.new.known }
    {
        if place < NAMEABLE_TEXTS {
            return self.number(2 * place);
        }
        self.text_inline(text)
    }

    fn text_inline(&mut self, text: &[u8]) -> Result<(), Memory>
        requires is_text { IsText text.now }
        requires short { length text.now < count_end }
        requires not_empty { text.now ≢ [] }
        requires unnamed { NoPlaceBelow NAMEABLE_TEXTS self.old.tables.words.texts text.now }
        ensures ok { OnOk result (WritesStep (spell.word text.now) self.old self.new) }
        ensures keeps { Keeps self.old self.new }
        ensures ready { (a : Arena) → IsReady a self.old.tables self.old.known → IsReady a self.new.tables self.new.known }
    {
        self.number(2 * text.len() as u32 + 1)?;
        self.raw(text)?;
        self.tables.add_text(text)?;
        Ok(())
    }
}
