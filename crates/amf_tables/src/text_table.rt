ghost use Rattle.std.specs.Prelude.{◌≡◌, ◌≤◌, ◌↔◌, ◌++◌, ◌∷◌, [], length, drop, get_or, IsTrue, IfOk, IfSome, IfNone, OnOk, OnErr};
ghost use Rattle.amf_graph.specs.Order.{Absent};
ghost use Rattle.amf_tables.specs.FirstPlace.{IsFirstPlace};
ghost use Rattle.amf_tables.specs.LateTexts.{AreLate};
ghost use Rattle.amf_tables.specs.TextCodes.{text_of};
ghost use Rattle.amf_tables.specs.TextPlaces.{IsEntered};

use crate::first_places::MAX_ENTRIES;
use crate::hashed_texts::HashedTexts;
use crate::text_codes::EMPTY;
use crate::text_place::TextPlace;
use amf_graph::TextPool;
use amf_wire::Memory;
use std::alloc::Global;
use std::hash::RandomState;
use std::marker::Model;

/// The texts of a writer's tables, in the order of their places. A text that is entered by `push` is not hashed before a text
/// is looked up by its bytes: until then it is a late one.
#[derive(Drop)]
pub(crate) struct TextTable {
    alloc: Global,
    hashed: HashedTexts,
    /// The texts behind those, and before them so many that are there by now.
    late: TextPool,
    moved: usize,
}

impl Model for TextTable {
    ghost use Rattle.std.specs.Prelude.{ℕ, List, ◌++◌, drop};
    ghost use Rattle.amf_tables.specs.LateTexts.{AreLate};

    ghost Value = { List (List ℕ) };

    ghost view = { λ t. t.hashed ++ drop t.moved t.late };

    ghost invariant = { λ t. AreLate t.hashed t.late t.moved };
}

/// Moves the late texts to those that are hashed, one after another. After an error some of them are moved.
fn move_late(hashed: &mut HashedTexts, late: &TextPool, moved: &mut usize) -> Result<(), Memory>
    requires { AreLate hashed.old late.now moved.old }
    ensures same { hashed.new ++ drop moved.new late.now ≡ hashed.old ++ drop moved.old late.now }
    ensures late { AreLate hashed.new late.now moved.new }
    ensures ok { OnOk result (moved.new ≡ length late.now) }
{
    while *moved < late.len() {
        hashed.push(late.get(*moved))?;
        *moved += 1;
    }
    Ok(())
}

/// Hashes the late texts. After an error some of them are hashed.
fn hash_late(
    alloc: Global,
    hashed: &mut HashedTexts,
    late: &mut TextPool,
    moved: &mut usize,
) -> Result<(), Memory>
    requires { AreLate hashed.old late.old moved.old }
    ensures same { hashed.new ++ drop moved.new late.new ≡ hashed.old ++ drop moved.old late.old }
    ensures late { AreLate hashed.new late.new moved.new }
    ensures ok { OnOk result (drop moved.new late.new ≡ []) }
{
    move_late(hashed, late, moved)?;
    if *moved > 0 {
        *late = TextPool::new(alloc);
        *moved = 0;
    }
    Ok(())
}

/// The first place among the late texts that are not moved, from the first of those on. They are compared one by one.
fn place_in(late: &TextPool, moved: usize, bytes: &[u8]) -> Option<usize>
    requires { moved ≤ length late.now }
    ensures first { IfSome result (IsFirstPlace (drop moved late.now) bytes.now) }
    ensures none { IfNone result (Absent (drop moved late.now) bytes.now) }
{
    for index in moved..late.len() {
        if late.get(index) == bytes {
            return Some(index - moved);
        }
    }
    None
}

/// A late text that is not moved, counted from the first of those on, or the empty one where there is none.
fn late_at(late: &TextPool, moved: usize, place: usize) -> &[u8]
    requires { moved ≤ length late.now }
    ensures { result.now ≡ get_or (drop moved late.now) place [] }
{
    if place < late.len() - moved {
        late.get(moved + place)
    } else {
        &[]
    }
}

impl TextTable {
    /// A table without entries. Its texts are looked up by these keys, which the maker of an input does not know, or by none.
    pub(crate) fn new(alloc: Global, keys: Option<RandomState>) -> TextTable
        ensures { result ≡ [] }
    {
        TextTable {
            alloc,
            hashed: HashedTexts::new(alloc, keys),
            late: TextPool::new(alloc),
            moved: 0,
        }
    }

    /// How many texts there are.
    pub(crate) fn len(&self) -> usize
        ensures count { result ≡ length self.now }
        ensures few { result ≤ MAX_ENTRIES }
    {
        self.hashed.len() + (self.late.len() - self.moved)
    }

    /// The bytes of a text, or none where there is no such text.
    fn get(&self, place: usize) -> &[u8]
        ensures { result.now ≡ get_or self.now place [] }
    {
        let hashed = self.hashed.len();
        if place < hashed {
            self.hashed.get(place)
        } else {
            late_at(&self.late, self.moved, place - hashed)
        }
    }

    /// The text of a code, and the empty one where a number is no code.
    fn text_of(&self, code: u32) -> &[u8]
        ensures { result.now ≡ text_of self.now code }
    {
        if code == EMPTY {
            return &[];
        }
        self.get(code as usize)
    }

    /// Whether these bytes are the text of a code.
    pub(crate) fn is_named(&self, code: u32, bytes: &[u8]) -> bool
        ensures { IsTrue result ↔ (text_of self.now code ≡ bytes.now) }
    {
        self.text_of(code) == bytes
    }

    /// Hashes the late texts. After an error some of them are hashed.
    pub(crate) fn settle(&mut self) -> Result<(), Memory>
        ensures { self.new ≡ self.old }
    {
        hash_late(
            self.alloc,
            &mut self.hashed,
            &mut self.late,
            &mut self.moved,
        )
    }

    /// The first place of a text: `None` exactly where it has none. It takes no memory, so it compares late texts one by one.
    pub(crate) fn place_of(&self, bytes: &[u8]) -> Option<u32>
        ensures first { IfSome result (IsFirstPlace self.now bytes.now) }
        ensures none { IfNone result (Absent self.now bytes.now) }
    {
        if let Some(place) = self.hashed.place_of(bytes) {
            return Some(place);
        }
        let behind = place_in(&self.late, self.moved, bytes)?;
        Some((self.hashed.len() + behind) as u32)
    }

    /// The first place of a text, which is entered where it is new. After an error nothing has changed.
    pub(crate) fn place_or_push(&mut self, bytes: &[u8]) -> Result<TextPlace, Memory>
        ensures ok { IfOk result (IsEntered self.old bytes.now self.new) }
        ensures err { OnErr result (self.new ≡ self.old) }
    {
        hash_late(
            self.alloc,
            &mut self.hashed,
            &mut self.late,
            &mut self.moved,
        )?;
        self.hashed.place_or_push(bytes)
    }

    /// Enters a text. After an error nothing has changed.
    pub(crate) fn push(&mut self, bytes: &[u8]) -> Result<(), Memory>
        ensures ok { OnOk result (self.new ≡ self.old ++ bytes.now ∷ []) }
        ensures err { OnErr result (self.new ≡ self.old) }
    {
        if self.len() >= MAX_ENTRIES {
            return Err(Memory);
        }
        self.late.push(bytes)
    }
}
