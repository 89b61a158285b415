//! Which text comes next, as a guess: most records have the names of the one before, in its order.

use std::alloc::Global;

/// For how many contents it is noted which one came behind them. Greater numbers share the places of these.
const MOST_FOLLOWERS: usize = 16_384;

/// From so many texts on it is noted which content came behind which: a small graph does without.
const FEW_TEXTS: usize = 16;

/// No content.
const NONE: u32 = u32::MAX;

/// What was met behind which content the last time. A guess may be wrong: the bytes decide. The empty content does not count among
/// those that follow one another: it stands behind the names of each record.
#[derive(Drop)]
pub(crate) struct Guesses {
    /// By content, the one that was met behind it.
    followers: Vec<u32>,
    /// The content that was met last.
    last: u32,
    /// Where the empty content was met last.
    empty: u32,
}

/// Makes places for more followers. Where there is no memory, they are not noted.
#[inline(never)]
fn make_places(followers: &mut Vec<u32>, count: usize) {
    let _ = followers.resize(count, NONE);
}

impl Guesses {
    /// Nothing was met yet.
    pub(crate) fn new(alloc: Global) -> Guesses {
        Guesses {
            followers: Vec::new(alloc),
            last: 0,
            empty: 0,
        }
    }

    /// Which content these bytes may be. There may be none of that number.
    #[inline(always)]
    pub(crate) fn next(&self, bytes: &[u8]) -> u32 {
        let place = self.last as usize % MOST_FOLLOWERS;
        if bytes.is_empty() {
            self.empty
        } else if place < self.followers.len() {
            self.followers[place]
        } else {
            NONE
        }
    }

    /// Notes which content a text has that came behind so many. What came behind which is noted once they are many.
    #[inline(always)]
    pub(crate) fn note(&mut self, number: u32, bytes: &[u8], count: usize) {
        if bytes.is_empty() {
            self.empty = number;
            return;
        }
        if count >= FEW_TEXTS {
            self.follow(number);
        }
        self.last = number;
    }

    /// Notes which content came behind the last one.
    #[inline(always)]
    fn follow(&mut self, number: u32) {
        let place = self.last as usize % MOST_FOLLOWERS;
        if place >= self.followers.len() {
            make_places(&mut self.followers, place + 1);
        }
        if place < self.followers.len() {
            self.followers[place] = number;
        }
    }
}
