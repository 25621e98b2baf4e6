//! What no round changes.

ghost use Rattle.std.specs.Prelude.{◌≡◌, ◌<◌, ◌+◌, ◌-◌, ◌^◌, IfSome};
ghost use Rattle.cp_rounds_handoff.specs.Inputs.{input_at};
ghost use Rattle.cp_rounds_handoff.specs.Turned.{round_time_of};

use crate::round_time::RoundTime;
use cp_base_config::tick::Tick;
use cp_program::program::Program;

/// The program, the inputs of its processes by number, and the tick.
pub struct MachineConfig {
    pub program: Program,
    pub inputs: Vec<Vec<u8>>,
    pub tick: Tick,
}

// A derived `Drop` would make proofs slower (docs/CI.md).
impl Drop for MachineConfig {
    fn drop(self) {
        let MachineConfig {
            program: _,
            inputs: _,
            tick: _,
        } = self;
    }
}

impl MachineConfig {
    /// The input of process p, from 1, or nothing if it has none.
    pub fn input(&self, p: usize) -> &[u8]
        ensures { result.now ≡ input_at self.now.inputs.items (p - 1) }
    {
        match self.inputs.get(p.saturating_sub(1)) {
            Some(input) => input.as_slice(),
            None => &[],
        }
    }

    /// The time of the round after the first `rounds` rounds.
    pub fn round_time(&self, rounds: u64) -> RoundTime
        requires { rounds < 2 ^ 64 - 1 }
        ensures { result ≡ round_time_of self.now.tick.rounds rounds }
    {
        let tick = u64::from(self.tick.rounds);
        RoundTime {
            clock: (rounds + 1) / tick,
            wakes: (rounds + 1) % tick == 0,
        }
    }

    /// The time of a round of a run that began after `done` rounds: of the one that comes
    /// `later` rounds after the one at an index. `None` if no machine makes so many rounds.
    pub(crate) fn round_time_of(&self, done: u64, index: usize, later: u32) -> Option<RoundTime>
        ensures { IfSome result
            (λ round_time. round_time ≡ round_time_of self.now.tick.rounds (done + (index + later))) }
    {
        let rounds = index.checked_add(later as usize)?;
        let rounds = done.checked_add(rounds as u64)?;
        if rounds == u64::MAX {
            return None;
        }
        Some(self.round_time(rounds))
    }
}
