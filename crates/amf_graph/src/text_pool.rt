//! Texts, one behind the other in one list of bytes.

ghost use Rattle.std.specs.Prelude.{◌≡◌, ◌<◌, ◌≤◌, [], ◌∷◌, ◌++◌, length, take, get_or, slice_range, nat_lt, IfOk, OnOk, OnErr};
ghost use Rattle.std.specs.List.{list_any};
ghost use Rattle.amf_graph.specs.TextPool.{pieces, AreEnds};

use crate::row::{Span, span_from};
use amf_wire::Memory;
use std::alloc::Global;
use std::marker::Model;

/// For how many texts there is room at first.
pub(crate) const FIRST_TEXTS: usize = 16;

/// For how many bytes there is room at first.
const FIRST_BYTES: usize = 256;

/// Texts in the order in which they were kept, each by the place where its bytes end. A content may stand more than once: nothing is looked up.
///
/// A text takes its bytes, and four more. All bytes together are below 2^32, else there is no memory.
pub struct TextPool {
    bytes: Vec<u8>,
    ends: Vec<u32>,
}

impl Drop for TextPool {
    /// Lets its parts go. Written out, it is proved once; what is derived is proved at each place where one is let go.
    fn drop(self) {
        let TextPool { bytes: _, ends: _ } = self;
    }
}

impl Model for TextPool {
    ghost use Rattle.std.specs.Prelude.{List, ℕ, length};
    ghost use Rattle.amf_graph.specs.TextPool.{pieces, AreEnds};

    ghost Value = { List (List ℕ) };

    ghost view = { λ p. pieces p.bytes.items 0 p.ends.items };

    ghost invariant = { λ p. AreEnds 0 (length p.bytes.items) p.ends.items };
}

/// How much room a list of so many asks for: for its first parts at once, since most lists get some, and then for one.
pub(crate) fn room_for(count: usize, first: usize) -> usize
    requires { 0 < first }
    ensures { 0 < result }
{
    if count == 0 { first } else { 1 }
}

/// Where the text at a place begins: where the one before ends.
pub(crate) fn start_of(ends: &[u32], place: usize) -> usize
    requires { place ≤ length ends.now }
    ensures { result ≡ get_or (0 ∷ ends.now) place 0 }
{
    if place > 0 {
        ends[place - 1] as usize
    } else {
        0
    }
}

/// The bytes from one place up to another.
fn part(bytes: &[u8], start: usize, end: usize) -> &[u8]
    requires start { start ≤ end }
    requires end { end ≤ length bytes.now }
    ensures { result.now ≡ slice_range bytes.now start end }
{
    &bytes[start..end]
}

/// The bytes of the text at a place.
fn piece<'a>(bytes: &'a [u8], ends: &[u32], place: usize) -> &'a [u8]
    requires ends { AreEnds 0 (length bytes.now) ends.now }
    requires there { place < length ends.now }
    ensures { result.now ≡ get_or (pieces bytes.now 0 ends.now) place [] }
{
    let start = start_of(ends, place);
    part(bytes, start, ends[place] as usize)
}

impl TextPool {
    /// No texts yet. It takes no memory.
    pub fn new(alloc: Global) -> TextPool
        ensures { result ≡ [] }
    {
        TextPool {
            bytes: Vec::new(alloc),
            ends: Vec::new(alloc),
        }
    }

    /// How many texts there are.
    pub fn len(&self) -> usize
        ensures { result ≡ length self.now }
    {
        self.ends.len()
    }

    /// The bytes of a text.
    pub fn get(&self, place: usize) -> &[u8]
        requires { place < length self.now }
        ensures { result.now ≡ get_or self.now place [] }
    {
        piece(&self.bytes, &self.ends, place)
    }

    /// Keeps a text behind the others. After an end nothing has changed.
    pub fn push(&mut self, text: &[u8]) -> Result<(), Memory>
        ensures ok { OnOk result (self.new ≡ self.old ++ text.now ∷ []) }
        ensures err { OnErr result (self.new ≡ self.old) }
    {
        let Span { end, .. } = span_from(self.bytes.len(), text.len())?;
        self.ends.reserve(room_for(self.ends.len(), FIRST_TEXTS))?;
        self.bytes
            .reserve(room_for(self.bytes.len(), FIRST_BYTES).max(text.len()))?;
        self.bytes.extend_from_slice(text)?;
        self.ends.push_reserved(end);
        Ok(())
    }

    /// Keeps so many texts alone.
    pub(crate) fn truncate(&mut self, count: usize)
        requires { count ≤ length self.old }
        ensures { self.new ≡ take count self.old }
    {
        let end = start_of(&self.ends, count);
        self.ends.truncate(count);
        self.bytes.truncate(end);
    }

    /// Whether a text has more bytes than these.
    pub(crate) fn has_longer(&self, most: usize) -> bool
        ensures { result ≡ list_any (λ x. nat_lt most (length x)) self.now }
    {
        for place in 0..self.len() {
            if self.get(place).len() > most {
                return true;
            }
        }
        false
    }

    /// The same texts once more.
    pub(crate) fn copy(&self, alloc: Global) -> Result<TextPool, Memory>
        ensures { IfOk result (λ copy. copy ≡ self.now) }
    {
        Ok(TextPool {
            bytes: self.bytes.to_vec(alloc)?,
            ends: self.ends.to_vec(alloc)?,
        })
    }
}
