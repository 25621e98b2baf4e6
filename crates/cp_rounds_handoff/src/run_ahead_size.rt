//! How many rounds are worth making at once.

use cp_base_config::turn::Turn;
use cp_program::program::Program;

// How many steps of a process are worth making at once: the cost of a draw then hardly counts.
const STEPS_AT_ONCE: u64 = 5_000;

// The largest number of rounds made at once, of turns however short.
const MAX_ROUNDS_AHEAD: u64 = 64;

// How many bytes are reserved for rounds made at once, at most.
const MAX_BYTES_AHEAD: u64 = 32 * 1024 * 1024;

// How many rounds of a run are made one by one first: many processes end soon.
const FIRST_ROUNDS_ALONE: u32 = 8;

// After how many rounds one by one, at most, two are tried at once again.
const MAX_ROUNDS_ALONE: u32 = 64;

// How many bytes are reserved for a round: for what each process writes, and for all of
// them as askers of each gate.
fn bytes_a_round(program: &Program, turn: Turn) -> u64 {
    let written = 22 * u64::from(turn.steps());
    let asked = (program.monitors() as u64).saturating_mul(4);
    (program.processes() as u64).saturating_mul(written.saturating_add(asked))
}

/// How many rounds are made at once: twice as many each time that no process had anything to do but
/// to compute, and otherwise one by one for a while.
#[derive(Clone, Copy)]
pub struct RunAheadSize {
    /// The largest number of rounds made at once.
    most: u32,
    rounds: u32,
    /// How many rounds are still made one by one.
    alone: u32,
    /// How many are made one by one after the next time that a process had something else to do.
    next_alone: u32,
}

impl RunAheadSize {
    /// The run-ahead size of the first round of a program.
    pub fn first(program: &Program, turn: Turn) -> RunAheadSize {
        let worth = STEPS_AT_ONCE / u64::from(turn.steps());
        let room = MAX_BYTES_AHEAD / bytes_a_round(program, turn).max(1);
        RunAheadSize {
            most: worth.min(room).min(MAX_ROUNDS_AHEAD).max(1) as u32,
            rounds: 2,
            alone: FIRST_ROUNDS_ALONE,
            next_alone: 1,
        }
    }

    /// The largest number of rounds that are ever made at once.
    pub fn most(&self) -> u32 {
        self.most
    }

    /// How many rounds are worth making at once.
    pub fn rounds(&mut self) -> u32 {
        if self.alone > 0 {
            self.alone -= 1;
            return 1;
        }
        self.rounds.min(self.most)
    }

    /// Adapts to rounds that were made at once: whether all processes did only compute.
    pub fn adapt(&mut self, all_computed: bool) {
        if all_computed {
            self.rounds = self.rounds.saturating_mul(2).min(self.most);
            self.next_alone = 1;
        } else {
            self.slow_down();
        }
    }

    /// Has some rounds made one by one.
    pub fn slow_down(&mut self) {
        self.rounds = 2;
        self.alone = self.next_alone;
        self.next_alone = self.next_alone.saturating_mul(2).min(MAX_ROUNDS_ALONE);
    }
}
