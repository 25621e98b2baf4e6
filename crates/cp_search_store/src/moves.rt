//! Moves that were made before: where the late step of a process leads, with the eager steps after
//! it, from a kernel and a private state of the process, by their numbers.

ghost use Rattle.std.specs.Prelude.{◌≡◌, ◌++◌, ◌∷◌, [], IfSome, OnOk, true};
ghost use Rattle.cp_search_store.specs.Moves.{HasMove};

use crate::hints::Hints;
use cp_private::hashing::mix;
use std::alloc::{AllocError, Global};

/// The bytes of a move.
const MOVE_BYTES: usize = 24;

/// The number of a process, and the numbers of a kernel and of a private state of the process.
#[derive(Clone, Copy, PartialEq, Eq)]
pub struct Key {
    pub process: u32,
    pub kernel: u32,
    pub part: u32,
}

/// Where a move leads.
#[derive(Clone, Copy)]
pub enum Outcome {
    /// The next step of the process isn't late.
    NotLate,
    /// The move depends on more than the kernel and the private state.
    Wide,
    /// It leads to the kernel and the private state with these numbers.
    Leads { kernel: u32, part: u32 },
}

/// A move that was made.
#[derive(Clone, Copy)]
pub(crate) struct Move {
    pub(crate) key: Key,
    pub(crate) outcome: Outcome,
}

/// The moves that were made.
#[derive(Drop)]
pub struct Moves {
    pub(crate) moves: Vec<Move>,
    hints: Hints,
}

fn hash_of(key: Key) -> u64 {
    let parts = mix(key.process.into(), key.kernel.into());
    mix(parts, key.part.into())
}

fn is_same_key(one: Key, other: Key) -> bool
    ensures { result ≡ true → one ≡ other }
{
    one.process == other.process && one.kernel == other.kernel && one.part == other.part
}

impl Moves {
    /// No moves.
    pub fn new(alloc: Global) -> Moves
        ensures { result.moves.items ≡ [] }
    {
        Moves {
            moves: Vec::new(alloc),
            hints: Hints::new(alloc),
        }
    }

    // Where the move with an index leads, if it is the one with this key.
    fn at(&self, index: u32, key: Key) -> Option<Outcome>
        ensures { IfSome result (λ o. HasMove self.now.moves.items key o) }
    {
        match self.moves.get(index as usize) {
            Some(made) => {
                if !is_same_key(made.key, key) {
                    return None;
                }
                Some(made.outcome)
            }
            None => None,
        }
    }

    /// Where the move with this key leads, if it was made.
    pub fn find(&self, key: Key) -> Option<Outcome>
        ensures { IfSome result (λ o. HasMove self.now.moves.items key o) }
    {
        let hash = hash_of(key);
        for step in 0..self.hints.len() {
            let index = self.hints.at(hash, step)?;
            if let Some(outcome) = self.at(index, key) {
                return Some(outcome);
            }
        }
        None
    }

    // Notes the hash of the last move.
    fn note(&mut self, alloc: Global, hash: u64) -> Result<(), AllocError>
        ensures { self.new.moves.items ≡ self.old.moves.items }
    {
        if self.hints.is_crowded() {
            note_all(alloc, &self.moves, &mut self.hints)
        } else {
            let last = self.moves.len().saturating_sub(1);
            self.hints.note(hash, last.min(u32::MAX as usize) as u32);
            Ok(())
        }
    }

    /// Notes a move.
    ///
    /// # Errors
    ///
    /// `AllocError` if memory runs out.
    pub fn remember(&mut self, alloc: Global, key: Key, outcome: Outcome) -> Result<(), AllocError>
        ensures { OnOk result (self.new.moves.items
            ≡ self.old.moves.items ++ record { key = key; outcome = outcome } ∷ []) }
    {
        self.moves.push(Move { key, outcome })?;
        self.note(alloc, hash_of(key))?;
        Ok(())
    }

    /// How many bytes of memory the moves take.
    pub fn size(&self) -> usize {
        let bytes = self.moves.len().saturating_mul(MOVE_BYTES);
        bytes.saturating_add(self.hints.size())
    }
}

// Makes the table larger, and notes the hashes of all moves.
fn note_all(alloc: Global, moves: &[Move], hints: &mut Hints) -> Result<(), AllocError> {
    hints.grow(alloc)?;
    let mut index = 0;
    for made in moves {
        hints.note(hash_of(made.key), index);
        index = index.saturating_add(1);
    }
    Ok(())
}
