//! Where the processes of a machine are, and who is at its monitors. This is plain data, which code
//! above makes of a machine, so that reasons don't depend on rounds.

use cp_inspect::state::ProcState;
use cp_outcome_circles::site::ContinueSite;
use cp_private::kernel_view::Holder;

/// What an operation comes from in the text.
#[derive(Clone, Copy)]
pub enum Site {
    /// A call within an expression, or an item of an `init`.
    Call,
    /// The end of a routine.
    EndOfRoutine,
    /// The end of a body.
    EndOfBody,
    /// Any other part of a statement.
    Statement,
}

/// Where a process is.
#[derive(Drop)]
pub struct ProcessSnapshot {
    /// From 1.
    pub number: u32,
    pub state: ProcState,
    /// The place in the text that the operation at which it is comes from, if it has begun and
    /// hasn't ended.
    pub at: Option<usize>,
    /// What that operation comes from.
    pub site: Site,
    /// The places of the calls of its activations, outermost first. A call has more than one place
    /// only if two branches end with the same call.
    pub called_at: Vec<Vec<usize>>,
    /// The path of the queue in which it is delayed, or no bytes.
    pub queue: Vec<u8>,
    /// What it has displayed.
    pub transcript: Vec<u8>,
    /// The `continue` statements of its program, if a process is delayed.
    pub continues: Vec<ContinueSite>,
}

/// Who is at a monitor.
#[derive(Clone, Copy)]
pub struct MonitorSnapshot {
    /// From 1.
    pub number: u32,
    pub holder: Holder,
    /// Whether a process asks for its gate.
    pub is_asked: bool,
}

/// Where the processes of a machine are after its rounds, and who is at its monitors.
#[derive(Drop)]
pub struct StatusSnapshot {
    pub rounds: u64,
    /// The processes by number, from 1.
    pub processes: Vec<ProcessSnapshot>,
    /// The monitors by number, from 1.
    pub monitors: Vec<MonitorSnapshot>,
}

impl ProcessSnapshot {
    /// Whether the process has ended.
    pub(crate) fn has_ended(&self) -> bool {
        matches!(self.state, ProcState::Ended)
    }

    /// The places of the calls that lead to where the process is. It is at the last call itself if
    /// it asks for a gate.
    pub(crate) fn calls(&self) -> &[Vec<usize>] {
        match (self.state, self.called_at.split_last()) {
            (ProcState::Asking(_), Some((_, before))) => before,
            _ => &self.called_at,
        }
    }
}

impl StatusSnapshot {
    /// The process with a number, if there is one.
    pub(crate) fn process(&self, number: u32) -> Option<&ProcessSnapshot> {
        self.processes.get((number as usize).checked_sub(1)?)
    }

    // The monitor with a number, if there is one.
    fn monitor(&self, number: u32) -> Option<&MonitorSnapshot> {
        self.monitors.get((number as usize).checked_sub(1)?)
    }

    /// The holder of the gate of the monitor with a number. The gate of a missing monitor is unset.
    pub(crate) fn holder_of(&self, number: u32) -> Holder {
        match self.monitor(number) {
            Some(monitor) => monitor.holder,
            None => Holder::Unset,
        }
    }

    /// Whether a process has faulted.
    pub(crate) fn has_fault(&self) -> bool {
        for process in &self.processes {
            if let ProcState::Faulted(_) = process.state {
                return true;
            }
        }
        false
    }

    // Whether a process is delayed in the monitor with a number.
    fn has_delayed(&self, number: u32) -> bool {
        for process in &self.processes {
            match process.state {
                ProcState::Delayed { monitor, .. } if monitor == number => return true,
                _ => {}
            }
        }
        false
    }

    /// Whether a monitor is held, asked for, or has processes delayed in it.
    pub(crate) fn is_used(&self, monitor: &MonitorSnapshot) -> bool {
        let is_held = matches!(monitor.holder, Holder::Process(_));
        is_held || monitor.is_asked || self.has_delayed(monitor.number)
    }
}
