//! The kinds of schedules that a search looks for.

/// What a schedule leads to.
#[derive(Clone, Copy)]
pub enum Kind {
    /// Nobody can move and nobody has a fault, but not all are done: each would have ended, or be a
    /// server that is delayed.
    Stuck,
    /// Somebody has a fault, whether or not others can move.
    Fault,
}
