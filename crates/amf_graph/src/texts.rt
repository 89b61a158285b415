//! The texts of a graph, each content kept once.

ghost use Rattle.std.specs.Prelude.{◌≡◌, ◌<◌, ◌≤◌, [], ◌∷◌, ◌++◌, true, length, map, take, get_or, slice_get, Some, nat_lt, MatchOption, IfOk, OnOk, OnErr};
ghost use Rattle.std.specs.List.{AllByRecursion, list_any};
ghost use Rattle.amf_graph.specs.Order.{Absent};
ghost use Rattle.amf_graph.specs.TextNumbers.{with_content, contents_of};
ghost use Rattle.amf_graph.specs.KeptTexts.{content_at, text_hash};

use crate::chains::Chains;
use crate::guesses::Guesses;
use crate::text_keys::TextKeys;
use crate::text_pool::{FIRST_TEXTS, TextPool, room_for};
use amf_wire::Memory;
use std::alloc::Global;
use std::hash::RandomState;
use std::marker::Model;

/// Texts in the order in which they were kept. Each content stands once, whatever the number of texts that have it, and is found by its hash.
pub struct Texts {
    keys: TextKeys,
    contents: TextPool,
    chains: Chains,
    numbers: Vec<u32>,
    guesses: Guesses,
}

impl Drop for Texts {
    /// Lets its parts go. Written out, it is proved once; what is derived is proved at each place where one is let go.
    fn drop(self) {
        let Texts {
            keys: _,
            contents: _,
            chains: _,
            numbers: _,
            guesses: _,
        } = self;
    }
}

impl Model for Texts {
    ghost use Rattle.std.specs.Prelude.{List, ℕ, map};
    ghost use Rattle.amf_graph.specs.KeptTexts.{content_at, AreTexts};

    ghost Value = { List (List ℕ) };

    ghost view = { λ t. map (content_at t.contents) t.numbers.items };

    ghost invariant = { λ t. AreTexts t.keys t.contents t.chains t.numbers.items };
}

/// The number of a content with this hash, if it is there.
fn number_of(
    contents: &TextPool,
    chains: &Chains,
    bytes: &[u8],
    keys: TextKeys,
    hash: u32,
) -> Option<u32>
    requires hashes { chains.now ≡ map (text_hash keys) contents.now }
    requires hash { hash ≡ text_hash keys bytes.now }
    ensures { MatchOption result (Absent contents.now bytes.now) (λ n. slice_get contents.now n ≡ Some bytes.now) }
{
    let _ = keys;
    let mut link = chains.first(hash);
    while link > 0 {
        let number = link - 1;
        if contents.get(number as usize) == bytes {
            return Some(number);
        }
        link = chains.next(link);
    }
    None
}

/// Keeps a content that is not there, and its hash, behind the others. After an end nothing has changed.
fn enter(
    contents: &mut TextPool,
    chains: &mut Chains,
    bytes: &[u8],
    keys: TextKeys,
    hash: u32,
) -> Result<u32, Memory>
    requires hashes { chains.old ≡ map (text_hash keys) contents.old }
    requires hash { hash ≡ text_hash keys bytes.now }
    requires new { Absent contents.old bytes.now }
    ensures number { IfOk result (λ n. slice_get contents.new n ≡ Some bytes.now) }
    ensures ok { OnOk result (contents.new ≡ with_content contents.old bytes.now) }
    ensures err { OnErr result (contents.new ≡ contents.old) }
    ensures hashes { chains.new ≡ map (text_hash keys) contents.new }
{
    let _ = keys;
    let number = contents.len();
    contents.push(bytes)?;
    match chains.push(hash) {
        Ok(()) => Ok(number as u32),
        Err(end) => {
            contents.truncate(number);
            Err(end)
        }
    }
}

/// Whether a content stands at this number, if there is one.
#[inline(always)]
fn is_at(contents: &TextPool, number: u32, bytes: &[u8]) -> bool
    ensures { result ≡ true → slice_get contents.now number ≡ Some bytes.now }
{
    let place = number as usize;
    if place >= contents.len() {
        return false;
    }
    contents.get(place) == bytes
}

/// The number of a content, which is looked up by its hash, and kept behind the others where it is not there. After an end nothing
/// has changed.
#[inline(always)]
fn number_by_hash(
    contents: &mut TextPool,
    chains: &mut Chains,
    bytes: &[u8],
    keys: TextKeys,
) -> Result<u32, Memory>
    requires { chains.old ≡ map (text_hash keys) contents.old }
    ensures number { IfOk result (λ n. slice_get contents.new n ≡ Some bytes.now) }
    ensures ok { OnOk result (contents.new ≡ with_content contents.old bytes.now) }
    ensures err { OnErr result (contents.new ≡ contents.old) }
    ensures hashes { chains.new ≡ map (text_hash keys) contents.new }
{
    let hash = keys.hash(bytes);
    match number_of(contents, chains, bytes, keys, hash) {
        Some(number) => Ok(number),
        None => enter(contents, chains, bytes, keys, hash),
    }
}

/// The number of a content, which may be this one, and is kept behind the others where it is not there. After an end nothing has
/// changed.
#[inline(always)]
fn number_for(
    contents: &mut TextPool,
    chains: &mut Chains,
    bytes: &[u8],
    keys: TextKeys,
    guess: u32,
) -> Result<u32, Memory>
    requires { chains.old ≡ map (text_hash keys) contents.old }
    ensures number { IfOk result (λ n. slice_get contents.new n ≡ Some bytes.now) }
    ensures ok { OnOk result (contents.new ≡ with_content contents.old bytes.now) }
    ensures err { OnErr result (contents.new ≡ contents.old) }
    ensures hashes { chains.new ≡ map (text_hash keys) contents.new }
{
    if is_at(contents, guess, bytes) {
        return Ok(guess);
    }
    number_by_hash(contents, chains, bytes, keys)
}

/// The bytes of a text, or none where there is no such text.
fn text_at<'a>(contents: &'a TextPool, numbers: &[u32], place: usize) -> &'a [u8]
    requires { AllByRecursion (λ n. n < length contents.now) numbers.now }
    ensures { result.now ≡ get_or (map (content_at contents.now) numbers.now) place [] }
{
    if place < numbers.len() {
        contents.get(numbers[place] as usize)
    } else {
        &[]
    }
}

/// Forgets the hashes behind the first ones.
fn truncate_chains(chains: &mut Chains, count: usize)
    requires { count ≤ length chains.old }
    ensures { chains.new ≡ take count chains.old }
{
    while chains.len() > count {
        chains.pop();
    }
}

impl Texts {
    /// No texts yet. Their hashes go by these keys, which the maker of an input does not know, or by none.
    pub fn new(alloc: Global, keys: Option<RandomState>) -> Texts
        ensures { result ≡ [] }
    {
        Texts {
            keys: TextKeys::of(keys),
            contents: TextPool::new(alloc),
            chains: Chains::new(alloc),
            numbers: Vec::new(alloc),
            guesses: Guesses::new(alloc),
        }
    }

    /// No texts yet, which are looked up as these are.
    pub(crate) fn none(&self, alloc: Global) -> Texts
        ensures { result ≡ [] }
    {
        Texts {
            keys: self.keys,
            contents: TextPool::new(alloc),
            chains: Chains::new(alloc),
            numbers: Vec::new(alloc),
            guesses: Guesses::new(alloc),
        }
    }

    /// How many texts there are.
    pub fn len(&self) -> usize
        ensures { result ≡ length self.now }
    {
        self.numbers.len()
    }

    /// How many contents they have.
    pub fn content_count(&self) -> usize
        ensures { result ≡ length (contents_of self.now) }
    {
        self.contents.len()
    }

    /// The bytes of a text, or none where there is no such text.
    pub fn get(&self, place: usize) -> &[u8]
        ensures { result.now ≡ get_or self.now place [] }
    {
        text_at(&self.contents, &self.numbers, place)
    }

    /// The number of a text's content.
    pub(crate) fn number(&self, place: usize) -> u32
        requires { place < length self.now }
        ensures { slice_get (contents_of self.now) result ≡ Some (get_or self.now place []) }
    {
        self.numbers[place]
    }

    /// The number of a content, counted from 0 in the order in which they came, if a text has it. It takes no memory.
    pub fn find(&self, bytes: &[u8]) -> Option<u32>
        ensures { MatchOption result (Absent (contents_of self.now) bytes.now) (λ n. slice_get (contents_of self.now) n ≡ Some bytes.now) }
    {
        let hash = self.keys.hash(bytes);
        number_of(&self.contents, &self.chains, bytes, self.keys, hash)
    }

    /// Keeps a text behind the others. After an end nothing has changed.
    pub fn push(&mut self, bytes: &[u8]) -> Result<(), Memory>
        ensures ok { OnOk result (self.new ≡ self.old ++ bytes.now ∷ []) }
        ensures err { OnErr result (self.new ≡ self.old) }
    {
        self.numbers
            .reserve(room_for(self.numbers.len(), FIRST_TEXTS))?;
        let number = number_for(
            &mut self.contents,
            &mut self.chains,
            bytes,
            self.keys,
            self.guesses.next(bytes),
        )?;
        self.guesses.note(number, bytes, self.numbers.len());
        self.numbers.push_reserved(number);
        Ok(())
    }

    /// The number of a content that a text has: then nothing changes. A text with another content is kept behind the others, and there is no number. After an end nothing has changed.
    pub fn find_or_push(&mut self, bytes: &[u8]) -> Result<Option<u32>, Memory>
        ensures number { IfOk result (λ found. MatchOption found (Absent (contents_of self.old) bytes.now) (λ n. slice_get (contents_of self.old) n ≡ Some bytes.now)) }
        ensures texts { IfOk result (λ found. MatchOption found (self.new ≡ self.old ++ bytes.now ∷ []) (λ n. self.new ≡ self.old)) }
        ensures err { OnErr result (self.new ≡ self.old) }
    {
        let hash = self.keys.hash(bytes);
        if let Some(number) = number_of(&self.contents, &self.chains, bytes, self.keys, hash) {
            return Ok(Some(number));
        }
        self.numbers
            .reserve(room_for(self.numbers.len(), FIRST_TEXTS))?;
        let number = enter(&mut self.contents, &mut self.chains, bytes, self.keys, hash)?;
        self.numbers.push_reserved(number);
        Ok(None)
    }

    /// Keeps so many texts alone, which have so many contents.
    fn truncate(&mut self, count: usize, contents: usize)
        requires { contents ≡ length (contents_of (take count self.old)) }
        ensures { self.new ≡ take count self.old }
    {
        self.numbers.truncate(count);
        self.contents.truncate(contents);
        truncate_chains(&mut self.chains, contents);
    }

    /// Keeps other texts behind these. After an end some of them are there.
    fn push_all(&mut self, more: &Texts) -> Result<(), Memory>
        ensures ok { OnOk result (self.new ≡ self.old ++ more.now) }
        ensures front { take (length self.old) self.new ≡ self.old }
    {
        for place in 0..more.len() {
            self.push(more.get(place))?;
        }
        Ok(())
    }

    /// Keeps other texts behind these. After an end nothing has changed.
    pub(crate) fn append(&mut self, more: &Texts) -> Result<(), Memory>
        ensures ok { OnOk result (self.new ≡ self.old ++ more.now) }
        ensures err { OnErr result (self.new ≡ self.old) }
    {
        let count = self.len();
        let contents = self.content_count();
        match self.push_all(more) {
            Ok(()) => Ok(()),
            Err(end) => {
                self.truncate(count, contents);
                Err(end)
            }
        }
    }

    /// Whether a text has more bytes than these.
    pub(crate) fn has_longer(&self, most: usize) -> bool
        ensures { result ≡ list_any (λ x. nat_lt most (length x)) (contents_of self.now) }
    {
        self.contents.has_longer(most)
    }

    /// The same texts once more.
    pub(crate) fn copy(&self, alloc: Global) -> Result<Texts, Memory>
        ensures { IfOk result (λ copy. copy ≡ self.now) }
    {
        Ok(Texts {
            keys: self.keys,
            contents: self.contents.copy(alloc)?,
            chains: self.chains.copy(alloc)?,
            numbers: self.numbers.to_vec(alloc)?,
            guesses: Guesses::new(alloc),
        })
    }
}
