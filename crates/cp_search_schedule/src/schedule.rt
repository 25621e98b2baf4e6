//! Schedules.

use cp_model::state::Fault;

/// A schedule, with turns of one step.
#[derive(Drop)]
pub struct Schedule {
    /// The events of its rounds, as an order text.
    pub order: Vec<u8>,
    /// Its calls of monitors, in their order, and each `init` of a monitor.
    pub calls: Vec<Call>,
}

/// A call of a monitor's entry, or an `init` of a monitor.
#[derive(Drop)]
pub struct Call {
    /// The number of the process that calls, from 1.
    pub process: u32,
    /// The number of the operation that calls.
    pub operation: u32,
    /// The number of the monitor, from 1, if the call got as far.
    pub monitor: Option<u32>,
    /// Whether it is an `init`.
    pub is_init: bool,
    /// What follows from the call until the next one, in the order of time.
    pub effects: Vec<Effect>,
}

/// An effect of a call on a process.
#[derive(Clone, Copy)]
pub struct Effect {
    /// The number of the process, from 1.
    pub process: u32,
    pub kind: EffectKind,
}

/// What a process does or meets.
#[derive(Clone, Copy)]
pub enum EffectKind {
    /// It asks for the gate of a monitor, which the process with this number holds, if anybody.
    Waits { monitor: u32, holder: Option<u32> },
    /// It had asked for the gate of a monitor, and has got it.
    Enters { monitor: u32 },
    /// It is delayed in a queue of a monitor, given by the address of the queue.
    Delays { monitor: u32, queue: u32 },
    /// It was delayed, and is continued by the process with this number.
    Continued { by: u32 },
    /// It has a fault, at the operation with this number.
    Faults { fault: Fault, operation: u32 },
}
