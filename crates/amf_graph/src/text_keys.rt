//! The hash of a text.

ghost use Rattle.std.specs.Prelude.{◌≡◌};
ghost use Rattle.amf_graph.specs.KeptTexts.{text_hash};

use std::hash::{BuildHasher, FoldHasher, Hasher, RandomState};

/// What the hash of a text begins with, and what it ends with.
///
/// A `FoldHasher` multiplies by parts of what it is given. So the last of it is a part that the maker of a text does not know: else
/// texts could be made that fall into one bucket whatever the hash begins with.
#[derive(Clone, Copy)]
pub(crate) struct TextKeys {
    start: FoldHasher,
    end: [u8; 16],
}

/// A number that no one knows who does not know the keys.
fn secret(keys: RandomState, place: u8) -> u64 {
    let mut state = keys.build_hasher();
    state.write(&[place]);
    state.finish()
}

impl TextKeys {
    /// Keys that no one knows who does not know these. With none they are the same each time.
    pub(crate) fn of(keys: Option<RandomState>) -> TextKeys {
        let mut start = FoldHasher::default();
        let mut end = 0;
        if let Some(keys) = keys {
            start.write(&secret(keys, 0).to_le_bytes());
            end = u128::from(secret(keys, 1)) << 64;
        }
        TextKeys {
            start,
            end: end.to_le_bytes(),
        }
    }

    /// The hash of a text: 32 bits.
    pub(crate) fn hash(&self, text: &[u8]) -> u32
        ensures { result ≡ text_hash self.now text.now }
    {
        let mut state = self.start;
        state.write(text);
        state.write(&self.end);
        (state.finish() & 0xFFFF_FFFF) as u32
    }
}
