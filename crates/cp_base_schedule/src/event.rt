//! The events of a round.

/// An event of a round. Processes have numbers from 1.
#[derive(Clone, Copy)]
pub enum Event {
    /// One private step of a process, if its next step is private.
    P(usize),
    /// The whole kernel turn of a process.
    K(usize),
}
