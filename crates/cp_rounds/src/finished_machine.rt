//! A machine that makes no more rounds and outlives its text.

ghost use Rattle.std.specs.Prelude.{◌≡◌};
ghost use Rattle.cp_rounds.specs.Views.{finished_machine_of};

use crate::parts::Parts;
use cp_rounds_handoff::config::MachineConfig;

/// What a machine was after its last round, without the tables of its text.
pub struct FinishedMachine {
    pub(crate) config: MachineConfig,
    pub(crate) parts: Parts,
    pub(crate) rounds: u64,
}

// A derived `Drop` would make proofs slower (docs/CI.md).
impl Drop for FinishedMachine {
    fn drop(self) {
        let FinishedMachine {
            config: _,
            parts: _,
            rounds: _,
        } = self;
    }
}

impl FinishedMachine {
    /// The number of rounds made.
    pub fn rounds(&self) -> u64
        ensures { result ≡ (finished_machine_of self.now).rounds }
    {
        self.rounds
    }
}
