//! The state of a process, in a word.

use cp_inspect::state::ProcState;

/// The word of a state, as a report has it.
pub(crate) fn word_of(state: ProcState) -> &'static str {
    match state {
        ProcState::Unstarted => "unstarted",
        ProcState::Fresh => "fresh",
        ProcState::Ready => "ready",
        ProcState::Asking(_) => "asking",
        ProcState::Delayed { .. } => "delayed",
        ProcState::Waiting => "waiting",
        ProcState::Ended => "ended",
        ProcState::Faulted(_) => "fault",
    }
}
