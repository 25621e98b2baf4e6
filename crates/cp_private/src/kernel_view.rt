//! What the kernel knows of monitors and processes: gates, and the stages of processes.

/// Who holds the gate of a monitor.
#[derive(Clone, Copy, Debug, PartialEq, Eq)]
pub enum Holder {
    /// The monitor isn't initialised.
    Unset,
    Free,
    /// The process with this number.
    Process(u32),
}

/// The gate of a monitor: its holder, and the numbers of its askers, in the order in which they
/// asked.
#[derive(Drop)]
pub struct Gate {
    pub holder: Holder,
    pub askers: Vec<u32>,
}

/// What the kernel knows of a process.
#[derive(Clone, Copy, Debug, PartialEq, Eq)]
pub enum SchedulingState {
    Unstarted,
    /// Started in the current round.
    Fresh,
    Begun,
    /// Waiting for the gate of this monitor.
    Asking(u32),
    /// Waiting in a queue of this monitor, whose word is shared word `queue`.
    Delayed { monitor: u32, queue: u32 },
}
