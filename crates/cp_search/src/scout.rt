//! What a worker does: it finds where late steps lead, and changes nothing that others see.

ghost use Rattle.std.specs.Prelude.{◌≡◌, ◌≤◌, ◌<◌, [], All, IfOk, IfSome, true};
ghost use Rattle.cp_program.specs.View as view;
ghost use Rattle.cp_law_cores.specs.Clocks.{is_timeless};
ghost use Rattle.cp_law_exploring.specs.Exploring.{count};
ghost use Rattle.cp_search_states.specs.SearchStates.{input_of};
ghost use Rattle.cp_search_store.specs.States.{state_count};
ghost use Rattle.cp_search.specs.SearchResults.{IsReady};
ghost use Rattle.cp_search.specs.Batches.{IsNext, IsStep};

use crate::moving::is_late;
use crate::space::Space;
use cp_program::program::Program;
use cp_search_states::settling::advance;
use cp_search_states::state::SearchState;
use cp_search_store::moves::Outcome;
use std::alloc::{AllocError, Global};

/// Where a late step leads.
#[derive(Drop)]
pub(crate) enum Next {
    /// The next step isn't late.
    NotLate,
    /// To the state whose parts have these numbers.
    Leads { kernel: u32, row: Vec<u32> },
}

/// Where the late step of a process leads, from the state with an index.
#[derive(Drop)]
pub(crate) struct Found {
    pub(crate) index: usize,
    pub(crate) process: usize,
    pub(crate) next: Next,
}

/// The state that a worker works on, and what it has found.
#[derive(Drop)]
pub(crate) struct Scout {
    state: SearchState,
    pub(crate) found: Vec<Found>,
}

impl Scout {
    /// A worker that has found nothing.
    ///
    /// # Errors
    ///
    /// `AllocError` if memory runs out.
    pub(crate) fn new(alloc: Global, program: &Program) -> Result<Scout, AllocError>
        ensures { IfOk result (λ scout. scout.found.items ≡ []) }
    {
        Ok(Scout {
            state: SearchState::first(alloc, program)?,
            found: Vec::new(alloc),
        })
    }

    // Where the late step of process p leads from the state with an index, if its parts are known.
    fn next(
        &mut self,
        alloc: Global,
        program: &Program,
        inputs: &[Vec<u8>],
        space: &Space,
        i: usize,
        p: usize,
    ) -> Result<Option<Next>, AllocError>
        requires timeless { is_timeless (view.program program.now) ≡ true }
        requires ready { IsReady (view.program program.now) (input_of inputs.now)
            space.now.store space.now.moves.moves.items }
        requires within { i < state_count space.now.store }
        requires first { 1 ≤ p }
        ensures next { IfOk result (λ next. IfSome next (IsNext (view.program program.now)
            (input_of inputs.now) space.now.store i p)) }
        ensures found { self.new.found ≡ self.old.found }
    {
        if !space.store.restore(i, &mut self.state)? {
            return Ok(None);
        }
        if !is_late(self.state.way(program, p)) {
            return Ok(Some(Next::NotLate));
        }
        let step_limit = space.notes.limits.step_limit;
        if !advance(program, inputs, &mut self.state, p, step_limit)? {
            return Ok(None);
        }
        if !self.state.has_numbers(program) {
            return Ok(None);
        }
        let mut row = Vec::new(alloc);
        match space.store.find(&self.state, &mut row)? {
            Some(kernel) => Ok(Some(Next::Leads { kernel, row })),
            None => Ok(None),
        }
    }

    /// Finds where the late steps of all processes lead from the state with an index, but those
    /// whose moves are remembered.
    ///
    /// # Errors
    ///
    /// `AllocError` if memory runs out.
    pub(crate) fn look(
        &mut self,
        alloc: Global,
        program: &Program,
        inputs: &[Vec<u8>],
        space: &Space,
        i: usize,
    ) -> Result<(), AllocError>
        requires timeless { is_timeless (view.program program.now) ≡ true }
        requires ready { IsReady (view.program program.now) (input_of inputs.now)
            space.now.store space.now.moves.moves.items }
        requires within { i < state_count space.now.store }
        ensures { All (IsStep (view.program program.now) (input_of inputs.now) space.now.store)
            self.old.found.items → All (IsStep (view.program program.now) (input_of inputs.now)
            space.now.store) self.new.found.items }
    {
        for k in 0..program.processes() {
            if space.remembers(i, k + 1) {
                continue;
            }
            let Some(next) = self.next(alloc, program, inputs, space, i, k + 1)? else {
                continue;
            };
            self.found.push(Found {
                index: i,
                process: k + 1,
                next,
            })?;
        }
        Ok(())
    }
}

/// Where the late steps lead from the states between two indices. Some may be missing.
pub(crate) fn look_at(
    alloc: Global,
    program: &Program,
    inputs: &[Vec<u8>],
    space: &Space,
    start: usize,
    end: usize,
) -> Vec<Found>
    requires timeless { is_timeless (view.program program.now) ≡ true }
    requires ready { IsReady (view.program program.now) (input_of inputs.now)
        space.now.store space.now.moves.moves.items }
    ensures { All (IsStep (view.program program.now) (input_of inputs.now) space.now.store)
        result.items }
{
    let Ok(mut scout) = Scout::new(alloc, program) else {
        return Vec::new(alloc);
    };
    for i in start..end.min(space.store.len()) {
        if scout.look(alloc, program, inputs, space, i).is_err() {
            break;
        }
    }
    scout.found
}
