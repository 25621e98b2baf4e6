//! Hashes of private states, and how much memory they take. Both are hints: no clause mentions
//! them.

use crate::private::{Activity, Frame, Private};

// An odd number whose bits are spread evenly.
const FACTOR: u64 = 0x9E37_79B9_7F4A_7C15;

/// Mixes a number into a hash.
#[inline(always)]
pub fn mix(hash: u64, n: u64) -> u64 {
    (hash ^ n).wrapping_mul(FACTOR).rotate_left(29)
}

// The number of a word: each has its own.
#[inline(always)]
fn number_of_word(word: i32) -> u64 {
    let magnitude = u64::from(word.unsigned_abs());
    if word < 0 {
        magnitude ^ (1 << 40)
    } else {
        magnitude
    }
}

/// Mixes words into a hash.
pub fn mix_words(mut hash: u64, words: &[i32]) -> u64 {
    for word in words {
        hash = mix(hash, number_of_word(*word));
    }
    hash
}

fn number_of_activity(activity: Activity) -> u64 {
    match activity {
        Activity::NotBegun => 0,
        Activity::Running => 1,
        Activity::Waiting => 2,
        Activity::Ended => 3,
        Activity::Faulted(_) => 4,
    }
}

fn mix_frame(mut hash: u64, frame: &Frame) -> u64 {
    for n in [frame.counter, frame.temp, frame.component, frame.gate] {
        hash = mix(hash, u64::from(n));
    }
    mix(hash, frame.base as u64)
}

impl Private {
    /// A hash of the content.
    pub fn hash(&self) -> u64 {
        let mut hash = mix(self.counter.into(), number_of_activity(self.activity));
        hash = mix(hash, self.consumed as u64);
        hash = mix(hash, self.gate.into());
        for frame in self.frames.iter().take(self.depth) {
            hash = mix_frame(hash, frame);
        }
        hash = mix_words(hash, &self.memory.words);
        mix_words(hash, &self.memory.temps)
    }

    /// How many bytes of memory a copy takes, about.
    pub fn size(&self) -> usize {
        let words = self
            .memory
            .words
            .len()
            .saturating_add(self.memory.temps.len());
        let frames = self.frames.len().saturating_mul(32);
        words
            .saturating_mul(4)
            .saturating_add(frames)
            .saturating_add(256)
    }
}
