//! The first states of each kind. A schedule that leads to one of them is replayed, so no clause
//! mentions them.

use crate::space::Space;
use cp_program::program::Program;
use cp_search_states::state::SearchState;
use std::alloc::AllocError;

/// The indices of the first states of each kind.
#[derive(Clone, Copy)]
pub struct Kinds {
    /// All processes are done: each has ended, or is a server and is delayed.
    pub ended: Option<usize>,
    /// Nobody can move and nobody has a fault, but not all are done.
    pub stuck: Option<usize>,
    /// Somebody has a fault.
    pub fault: Option<usize>,
}

impl Kinds {
    // No states.
    fn none() -> Kinds {
        Kinds {
            ended: None,
            stuck: None,
            fault: None,
        }
    }

    // Notes a state, unless there is an earlier one of its kind.
    fn note(&mut self, program: &Program, servers: &[u32], index: usize, state: &SearchState) {
        if !state.is_sound(program) {
            self.fault = self.fault.or(Some(index));
        } else if state.proceeds(program) {
            return;
        } else if state.is_done(program, servers) {
            self.ended = self.ended.or(Some(index));
        } else {
            self.stuck = self.stuck.or(Some(index));
        }
    }
}

/// The first states of each kind, of those that were seen.
///
/// # Errors
///
/// `AllocError` if memory runs out.
pub(crate) fn kinds_of(
    program: &Program,
    servers: &[u32],
    space: &mut Space,
) -> Result<Kinds, AllocError> {
    let mut kinds = Kinds::none();
    for index in 0..space.store.len() {
        if space.store.restore(index, &mut space.state)? {
            kinds.note(program, servers, index, &space.state);
        }
    }
    Ok(kinds)
}
