//! The words in which a process has its rights.

/// Where the parameters of a process wait among the shared words until it begins.
#[derive(Clone, Copy)]
pub struct Waiting {
    pub start: usize,
    pub count: usize,
}

/// The words of a process, and the shared words after them.
#[derive(Clone, Copy)]
pub struct Words<'r> {
    /// The number of the process.
    pub process: u32,
    pub own: &'r [i32],
    pub shared: &'r [i32],
    /// Where its parameters wait, unless it has begun.
    pub waiting: Option<Waiting>,
}

/// A word, as all processes name it: its owner, which is a process or 0 for the shared words, and
/// its index among the words of its owner.
#[derive(Clone, Copy, PartialEq, Eq, PartialOrd, Ord)]
pub(crate) struct Address {
    pub(crate) owner: u32,
    pub(crate) at: usize,
}

// The word with an index. A missing word reads as 0.
fn word_at(words: &[i32], at: usize) -> i32 {
    match words.get(at) {
        Some(word) => *word,
        None => 0,
    }
}

impl Words<'_> {
    /// The word at an address of the process.
    pub(crate) fn word(self, at: usize) -> i32 {
        match self.waiting {
            Some(waiting) if at < waiting.count => {
                word_at(self.shared, waiting.start.saturating_add(at))
            }
            _ if at < self.own.len() => word_at(self.own, at),
            _ => word_at(self.shared, at.saturating_sub(self.own.len())),
        }
    }

    /// The word at an address of the process, as all processes name it.
    pub(crate) fn address(self, at: usize) -> Address {
        if at < self.own.len() {
            return Address {
                owner: self.process,
                at,
            };
        }
        Address {
            owner: 0,
            at: at.saturating_sub(self.own.len()),
        }
    }
}
