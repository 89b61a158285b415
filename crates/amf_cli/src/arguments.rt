ghost use Rattle.std.specs.Prelude.{◌≡◌, ℕ, List, IfOk, slice_get};

use amf_wire::{Memory, Name};
use std::alloc::Global;
use std::env::FillError;
use std::rt::Env;

/// The words that a program was started with, behind its name.
pub trait Arguments {
    /// Whether it tells them.
    ghost tells: { Self → Type 0 };

    /// The bytes of each, in order, where it tells.
    ghost words: { Self → List (List ℕ) };

    /// The word at this place, from 0 on; `None` where there are no more.
    fn word(&self, alloc: Global, place: usize) -> Result<Option<Name>, Memory>
        ensures { tells self.now → IfOk result (λ word. word ≡ slice_get (words self.now) place) };
}

/// The words of the machine, of which no contract tells the bytes.
#[derive(Clone, Copy)]
pub struct Environment<'a, R: Env> {
    rt: &'a R,
}

impl<'a, R: Env> Environment<'a, R> {
    /// The words that this runtime has.
    pub fn new(rt: &'a R) -> Environment<'a, R> {
        Environment { rt }
    }
}

impl<R: Env> Arguments for Environment<'_, R> {
    ghost use Rattle.std.specs.Prelude.{[]};

    ghost tells = { λ e. ⊥ };

    ghost words = { λ e. [] };

    fn word(&self, alloc: Global, place: usize) -> Result<Option<Name>, Memory> {
        // Number 0 is the program's name, which is not looked at: it may be any bytes.
        match place.checked_add(1) {
            Some(number) => argument(self.rt, alloc, number),
            None => Ok(None),
        }
    }
}

/// The argument of this number, or `None` where the list has ended.
fn argument<R: Env>(rt: &R, alloc: Global, number: usize) -> Result<Option<Name>, Memory> {
    let mut room = 256usize;
    for _ in 0..usize::BITS {
        let mut bytes = Vec::new(alloc);
        bytes.resize(room, 0u8)?;
        match rt.arg(number, bytes.as_mut_slice()) {
            Ok(length) => {
                bytes.truncate(length);
                return Ok(Some(Name::of_bytes(alloc, bytes.as_slice())?));
            }
            Err(FillError::NotPresent) => return Ok(None),
            Err(FillError::TooLong) => room = room.saturating_add(room),
        }
    }
    Err(Memory)
}

/// All the words, in order, each with the bytes that it has there.
pub fn words_of<A: Arguments>(alloc: Global, arguments: &A) -> Result<Vec<Name>, Memory>
    ensures { A.tells arguments.now → IfOk result (λ words. words.items ≡ A.words arguments.now) }
{
    let mut words = Vec::new(alloc);
    for place in 0..usize::MAX {
        match arguments.word(alloc, place)? {
            Some(word) => words.push(word)?,
            None => return Ok(words),
        }
    }
    Err(Memory)
}
