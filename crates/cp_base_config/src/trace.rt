//! The parameters of traces.

use crate::plan::Plan;
use crate::tick::Tick;

/// How a trace is reported.
#[derive(Clone, Copy)]
pub enum TraceForm {
    /// What each round changed, as a line for each process or monitor.
    Lines,
    /// What each round changed: a JSON object for each change, each on a line.
    Json,
    /// The state of each process and monitor after each round, as text: a row for each of them, and
    /// a character for each round.
    Timeline,
    /// The timeline as a picture.
    Svg,
}

/// The parameters of a trace: the number of rounds, the first round that is reported, the form, the
/// plan of each round, and how often the clock ticks.
#[derive(Clone, Copy)]
pub struct Tracing {
    pub rounds: u32,
    pub from: u32,
    pub form: TraceForm,
    pub plan: Plan,
    pub tick: Tick,
}
