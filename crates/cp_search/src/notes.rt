//! What a search notes besides its states. No clause rests on it: a schedule that is found is
//! replayed.

use cp_program::program::Program;
use cp_search_states::settling::StepLimit;
use cp_search_states::state::SearchState;
use cp_search_store::store::{Full, Room};
use std::alloc::{AllocError, Global};

/// How far a search goes.
#[derive(Clone, Copy)]
pub struct Limits {
    /// How far each state is followed.
    pub step_limit: StepLimit,
    /// How many states are kept at most.
    pub states: u32,
    /// How many bytes the states take at most, about.
    pub memory: usize,
    /// How many threads look at states beside each other. What is found doesn't depend on it.
    pub workers: u32,
}

impl Limits {
    /// How much is kept of the states.
    pub(crate) fn room(self) -> Room {
        Room {
            states: self.states,
            memory: self.memory,
        }
    }
}

/// Why a search stopped before all states were seen.
#[derive(Clone, Copy, Debug, PartialEq, Eq)]
pub enum Stop {
    /// The program uses the clock.
    Clock,
    /// There are more states than the limit allows.
    States,
    /// The states take more memory than the limit allows.
    Memory,
    /// The process with this number computes forever, or for longer than it is followed.
    Forever(usize),
    /// A process has no state, which no program leads to.
    Defect,
}

/// Which call led to a state: the index of the state before it, and the number of the process. The
/// first state has the process 0.
#[derive(Clone, Copy)]
pub(crate) struct Origin {
    pub(crate) parent: u32,
    pub(crate) process: u32,
}

impl Origin {
    /// The origin of the first state.
    pub(crate) const START: Origin = Origin {
        parent: 0,
        process: 0,
    };

    /// A call of a process from the state with an index.
    pub(crate) fn of(parent: usize, process: usize) -> Origin {
        let most = u32::MAX as usize;
        Origin {
            parent: parent.min(most) as u32,
            process: process.min(most) as u32,
        }
    }
}

/// What a search notes.
#[derive(Drop)]
pub struct Notes {
    pub(crate) limits: Limits,
    /// How each state was reached, by its index.
    origins: Vec<Origin>,
    /// How many calls were tried.
    pub transitions: u64,
    /// Why the search stopped, if it did before all states were seen.
    pub stop: Option<Stop>,
}

impl Notes {
    pub(crate) fn new(alloc: Global, limits: Limits) -> Notes {
        Notes {
            limits,
            origins: Vec::new(alloc),
            transitions: 0,
            stop: None,
        }
    }

    /// Notes how the next state was reached.
    pub(crate) fn note_state(&mut self, origin: Origin) -> Result<(), AllocError> {
        self.origins.push(origin)?;
        Ok(())
    }

    /// Notes why a state wasn't added.
    pub(crate) fn note_full(&mut self, full: Option<Full>) {
        self.stop = Some(match full {
            Some(Full::States) => Stop::States,
            Some(Full::Memory) => Stop::Memory,
            None => Stop::Defect,
        });
    }

    pub(crate) fn note_transition(&mut self) {
        self.transitions = self.transitions.saturating_add(1);
    }

    /// Notes which process makes steps forever in a state that doesn't settle.
    pub(crate) fn note_unsettled(&mut self, program: &Program, state: &SearchState) {
        self.stop = Some(match state.first_eager(program) {
            Some(process) => Stop::Forever(process),
            None => Stop::Defect,
        });
    }

    /// The processes whose calls lead to the state with an index, in their order.
    ///
    /// # Errors
    ///
    /// `AllocError` if memory runs out.
    pub fn callers(&self, alloc: Global, index: usize) -> Result<Vec<usize>, AllocError> {
        let mut callers = Vec::new(alloc);
        let mut at = index;
        for _ in 0..self.origins.len() {
            match self.origins.get(at) {
                Some(origin) if origin.process != 0 => {
                    callers.push(origin.process as usize)?;
                    at = origin.parent as usize;
                }
                _ => break,
            }
        }
        callers.reverse();
        Ok(callers)
    }
}
