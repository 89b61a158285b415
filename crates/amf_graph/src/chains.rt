//! Numbers by their hashes.

ghost use Rattle.std.specs.Prelude.{◌≡◌, ℕ, ◌+◌, ◌-◌, ◌<◌, ◌≤◌, ◌^◌, [], ◌∷◌, ◌++◌, length, take, set, get_or, bit_and, false, IfOk, OnOk, OnErr};
ghost use Rattle.amf_graph.specs.Chains.{LeadsTo, LeadsFrom, hash_at, hash_mark, hashes_of, nexts_of, with_mark, IsMarked, AreMarked, AreLinked, AreChains, AreFound};

use amf_wire::Memory;
use std::alloc::Global;
use std::marker::Model;

/// The most numbers that are kept: a link is one more than a number.
const MAX_NUMBERS: usize = 4_294_967_295;

/// How many buckets there are at first.
const FIRST_BUCKETS: usize = 16;

/// What is kept of a number. Both stand together, since a step along a chain reads both.
#[derive(Clone, Copy)]
struct Link {
    hash: u32,
    /// The link to the next lower number of its bucket.
    next: u32,
}

/// Hashes, each with its number, which counts from 0. The numbers of one hash are found from the greatest down.
#[derive(Drop)]
pub(crate) struct Chains {
    alloc: Global,
    links: Vec<Link>,
    /// For each bucket the link to its greatest number. A link is one more than the number, or 0 for none.
    buckets: Vec<u32>,
    /// For each bucket the marks of its hashes, in one byte: so most hashes that no number has are known by what is in the cache.
    marks: Vec<u8>,
}

impl Model for Chains {
    ghost use Rattle.std.specs.Prelude.{List, ℕ};
    ghost use Rattle.amf_graph.specs.Chains.{hashes_of, AreFound};

    ghost Value = { List ℕ };

    ghost view = { λ c. hashes_of c.links.items };

    ghost invariant = { λ c. AreFound c.links.items c.buckets.items c.marks.items };
}

/// The bucket of a hash, of so many.
fn bucket_of(count: usize, hash: u32) -> usize
    requires { 0 < count }
    ensures bucket { result ≡ bit_and hash (count - 1) }
    ensures there { result < count }
{
    hash as usize & (count - 1)
}

/// The mark of a hash, one of eight. It goes by bits that do not choose the bucket.
fn mark_of(hash: u32) -> u8
    ensures { result ≡ hash_mark hash }
{
    1 << (hash >> 29)
}

/// Whether a hash's bucket has its mark.
fn is_marked(hash: u32, marks: &[u8]) -> bool
    requires { 0 < length marks.now }
    ensures { result ≡ false → IsMarked marks.now hash → ⊥ }
{
    let kept = marks[bucket_of(marks.len(), hash)];
    kept | mark_of(hash) == kept
}

/// Adds a hash's mark to those of its bucket.
fn mark(hash: u32, marks: &mut [u8])
    requires { 0 < length marks.old }
    ensures { marks.new ≡ with_mark hash marks.old }
{
    let bucket = bucket_of(marks.len(), hash);
    marks[bucket] |= mark_of(hash);
}

/// Marks all hashes.
fn mark_all(links: &[Link], marks: &mut [u8])
    requires { 0 < length marks.old }
    ensures marked { AreMarked (hashes_of links.now) marks.new }
    ensures count { length marks.new ≡ length marks.old }
{
    for link in links {
        mark(link.hash, marks);
    }
}

/// Enters the next number at the front of its bucket's chain.
fn enter(hash: u32, number: u32, buckets: &mut [u32]) -> u32
    requires there { 0 < length buckets.old }
    requires few { number + 1 < 2 ^ 32 }
    ensures head { result ≡ get_or buckets.old (bit_and hash (length buckets.old - 1)) 0 }
    ensures entered { buckets.new ≡ set buckets.old (bit_and hash (length buckets.old - 1)) (number + 1) }
{
    let bucket = bucket_of(buckets.len(), hash);
    let head = buckets[bucket];
    buckets[bucket] = number + 1;
    head
}

/// Links all numbers anew, in buckets that are empty.
fn link_all(links: &mut [Link], buckets: &mut [u32])
    requires few { length links.old < 2 ^ 32 }
    requires there { 0 < length buckets.old }
    requires none { AreLinked (length buckets.old - 1) 0 (hashes_of links.old) (nexts_of links.old) buckets.old }
    ensures same { hashes_of links.new ≡ hashes_of links.old }
    ensures linked { AreLinked (length buckets.old - 1) (length links.old) (hashes_of links.old) (nexts_of links.new) buckets.new }
    ensures count { length buckets.new ≡ length buckets.old }
{
    for place in 0..links.len() {
        links[place].next = enter(links[place].hash, place as u32, buckets);
    }
}

/// From a link of a chain on, the first one that leads to this hash.
fn link_of(links: &[Link], from: u32, hash: u32) -> u32
    requires from { from ≤ length links.now }
    requires lower { (i : ℕ) → i < length links.now → get_or (nexts_of links.now) i 0 ≤ i }
    ensures { LeadsFrom (hashes_of links.now) (nexts_of links.now) (length links.now) hash from result }
{
    let mut link = from;
    while link > 0 {
        let at = links[link as usize - 1];
        if at.hash == hash {
            return link;
        }
        link = at.next;
    }
    0
}

/// The link to the greatest number that has this hash.
fn first_of(links: &[Link], buckets: &[u32], marks: &[u8], hash: u32) -> u32
    requires chains { AreChains (hashes_of links.now) (nexts_of links.now) buckets.now }
    requires marked { AreMarked (hashes_of links.now) marks.now }
    requires count { length marks.now ≡ length buckets.now }
    ensures { LeadsTo (hash_at (hashes_of links.now)) (length links.now) hash result }
{
    if marks.is_empty() || !is_marked(hash, marks) {
        return 0;
    }
    let bucket = bucket_of(buckets.len(), hash);
    link_of(links, buckets[bucket], hash)
}

/// From the link to a number, the one to the next lower number of the same hash.
fn next_of(links: &[Link], buckets: &[u32], link: u32) -> u32
    requires chains { AreChains (hashes_of links.now) (nexts_of links.now) buckets.now }
    requires some { 0 < link }
    requires there { link ≤ length links.now }
    ensures { LeadsTo (hash_at (hashes_of links.now)) (link - 1) (hash_at (hashes_of links.now) (link - 1)) result }
{
    let _ = buckets;
    let at = links[link as usize - 1];
    link_of(links, at.next, at.hash)
}

/// Links all numbers in twice as many buckets, where there are as many numbers as buckets. After an end nothing has changed.
fn make_room(
    alloc: Global,
    links: &mut [Link],
    buckets: &mut Vec<u32>,
    marks: &mut Vec<u8>,
) -> Result<(), Memory>
    requires { AreFound links.old buckets.old.items marks.old.items }
    ensures same { hashes_of links.new ≡ hashes_of links.old }
    ensures found { AreFound links.new buckets.new.items marks.new.items }
    ensures room { OnOk result (length links.new < length buckets.new.items) }
{
    let count = links.len();
    if count < buckets.len() {
        return Ok(());
    }
    let room = FIRST_BUCKETS.max(2 * count);
    let mut more = vec![in alloc; 0; room]?;
    let mut more_marks = vec![in alloc; 0; room]?;
    link_all(links, &mut more);
    mark_all(links, &mut more_marks);
    *buckets = more;
    *marks = more_marks;
    Ok(())
}

impl Chains {
    /// No number has a hash yet.
    pub(crate) fn new(alloc: Global) -> Chains
        ensures { result ≡ [] }
    {
        Chains {
            alloc,
            links: Vec::new(alloc),
            buckets: Vec::new(alloc),
            marks: Vec::new(alloc),
        }
    }

    /// How many numbers have hashes.
    pub(crate) fn len(&self) -> usize
        ensures { result ≡ length self.now }
    {
        self.links.len()
    }

    /// The link to the greatest number that has this hash.
    pub(crate) fn first(&self, hash: u32) -> u32
        ensures { LeadsTo (hash_at self.now) (length self.now) hash result }
    {
        first_of(&self.links, &self.buckets, &self.marks, hash)
    }

    /// From the link to a number, the one to the next lower number of the same hash.
    pub(crate) fn next(&self, link: u32) -> u32
        requires some { 0 < link }
        requires there { link ≤ length self.now }
        ensures { LeadsTo (hash_at self.now) (link - 1) (hash_at self.now (link - 1)) result }
    {
        next_of(&self.links, &self.buckets, link)
    }

    /// Gives the next number to a hash. After an end nothing has changed.
    pub(crate) fn push(&mut self, hash: u32) -> Result<(), Memory>
        ensures few { OnOk result (length self.new < 2 ^ 32) }
        ensures ok { OnOk result (self.new ≡ self.old ++ hash ∷ []) }
        ensures err { OnErr result (self.new ≡ self.old) }
    {
        let number = self.links.len();
        if number >= MAX_NUMBERS {
            return Err(Memory);
        }
        make_room(
            self.alloc,
            &mut self.links,
            &mut self.buckets,
            &mut self.marks,
        )?;
        let bucket = bucket_of(self.buckets.len(), hash);
        let next = self.buckets[bucket];
        self.links.push(Link { hash, next })?;
        self.buckets[bucket] = number as u32 + 1;
        mark(hash, &mut self.marks);
        Ok(())
    }

    /// Forgets the greatest number.
    pub(crate) fn pop(&mut self)
        requires { 0 < length self.old }
        ensures { self.new ≡ take (length self.old - 1) self.old }
    {
        if let Some(Link { hash, next }) = self.links.pop() {
            let bucket = bucket_of(self.buckets.len(), hash);
            self.buckets[bucket] = next;
        }
    }

    /// The same hashes once more.
    pub(crate) fn copy(&self, alloc: Global) -> Result<Chains, Memory>
        ensures { IfOk result (λ copy. copy ≡ self.now) }
    {
        Ok(Chains {
            alloc,
            links: self.links.to_vec(alloc)?,
            buckets: self.buckets.to_vec(alloc)?,
            marks: self.marks.to_vec(alloc)?,
        })
    }
}
