//! The state of a process.

use cp_model::state::Fault;

/// The state of a process: what the kernel knows of it and, once it has begun and neither asks nor
/// is delayed, what it knows itself.
#[derive(Clone, Copy, Debug, PartialEq, Eq)]
pub enum ProcState {
    Unstarted,
    /// Started in the current round.
    Fresh,
    Ready,
    /// Waits for the gate of this monitor.
    Asking(u32),
    /// Is in a queue of this monitor, whose word is shared word `queue`.
    Delayed { monitor: u32, queue: u32 },
    /// Waits for the clock.
    Waiting,
    Ended,
    Faulted(Fault),
}
