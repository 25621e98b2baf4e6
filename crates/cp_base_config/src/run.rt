//! The parameters of runs and replays.

use crate::plan::Plan;
use crate::tick::Tick;
use crate::turn::Turn;

/// The parameters of a run: the number of rounds, the plan of each, how often the clock ticks, and
/// whether the report has the chains of askers.
#[derive(Clone, Copy)]
pub struct Run {
    pub rounds: u32,
    pub plan: Plan,
    pub tick: Tick,
    pub chains: bool,
}

/// The parameters of a replay: the most steps of a kernel turn, how often the clock ticks, and
/// whether the report has the chains of askers.
#[derive(Clone, Copy)]
pub struct Replay {
    pub turn: Turn,
    pub tick: Tick,
    pub chains: bool,
}
