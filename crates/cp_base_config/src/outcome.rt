//! The parameters of outcomes.

use crate::plan::Plan;
use crate::tick::Tick;

/// The parameters of a run that ends when nothing can move: the largest number of rounds, the plan
/// of each, and how often the clock ticks.
#[derive(Clone, Copy)]
pub struct UntilStill {
    pub limit: u32,
    pub plan: Plan,
    pub tick: Tick,
}

/// What is written of an outcome. `P` is the type that says which process is meant.
#[derive(Clone, Copy)]
pub enum OutcomeForm<P> {
    /// The verdict, and why each process that hasn't ended is where it is.
    Verdict,
    /// The transcript of a process, as raw bytes.
    Transcript(P),
    /// Who waits for whom, as a graph for Graphviz.
    Dot,
    /// The verdict, and what became of each process, as a JSON object.
    Json,
}
