use amf_cli::Arguments;
use amf_wire::{Memory, Name};
use std::alloc::Global;

/// Words in memory, which it does not tell.
#[derive(Drop)]
pub(crate) struct Given {
    words: Vec<Name>,
}

impl Given {
    pub(crate) fn new(alloc: Global, words: &[&[u8]]) -> Result<Given, Memory> {
        let mut names = Vec::new(alloc);
        for word in words {
            names.push(Name::of_bytes(alloc, word)?)?;
        }
        Ok(Given { words: names })
    }
}

impl Arguments for Given {
    ghost use Rattle.std.specs.Prelude.{[]};

    ghost tells = { λ _. ⊥ };

    ghost words = { λ _. [] };

    fn word(&self, alloc: Global, place: usize) -> Result<Option<Name>, Memory> {
        match self.words.get(place) {
            Some(word) => Ok(Some(word.copy(alloc)?)),
            None => Ok(None),
        }
    }
}
