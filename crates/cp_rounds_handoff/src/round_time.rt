//! The time at which a round is made.

/// What a round sees of the time.
#[derive(Clone, Copy)]
pub struct RoundTime {
    /// The ticks since the start.
    pub clock: u64,
    /// Whether the processes that wait for the clock continue.
    pub wakes: bool,
}
