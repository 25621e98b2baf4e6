//! Copies of what rounds change, by which rounds can be undone.

ghost use Rattle.std.specs.Prelude.{◌≡◌, IfOk};
ghost use Rattle.cp_rounds.specs.Checkpoints.{IsCopyOf};
ghost use Rattle.cp_rounds.specs.Views.{KeepsText};

use crate::machine::Machine;
use crate::parts::Parts;
use std::alloc::AllocError;

/// A copy of what rounds change of a machine: its private states, its kernel and its count.
#[derive(Drop)]
pub struct Checkpoint {
    parts: Parts,
    rounds: u64,
}

impl<'r, 't> Machine<'r, 't> {
    /// Copies what rounds change.
    ///
    /// # Errors
    ///
    /// `AllocError` if memory runs out.
    pub fn checkpoint(&self) -> Result<Checkpoint, AllocError>
        ensures { IfOk result (IsCopyOf self.now) }
    {
        let parts = self.parts.copy(self.alloc)?;
        Ok(Checkpoint {
            parts,
            rounds: self.rounds,
        })
    }

    /// Undoes the rounds that were made since the copy.
    pub fn restore(&mut self, before: Checkpoint)
        ensures parts { self.new.parts ≡ before.parts }
        ensures rounds { self.new.rounds ≡ before.rounds }
        ensures text { KeepsText self.old self.new }
    {
        let Checkpoint { parts, rounds } = before;
        self.parts = parts;
        self.rounds = rounds;
    }
}
