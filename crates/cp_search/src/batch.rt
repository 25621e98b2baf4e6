//! Batches: workers find where the late steps of some states lead, before these are expanded. The
//! calling thread takes what they have found in the order of the states.

ghost use Rattle.std.specs.Prelude.{◌≡◌, All, IfOk, IfSome, OnOk, [], true};
ghost use Rattle.cp_program.specs.View as view;
ghost use Rattle.cp_law_cores.specs.Clocks.{is_timeless};
ghost use Rattle.cp_search_states.specs.SearchStates.{input_of};
ghost use Rattle.cp_search.specs.SearchResults.{IsReady};
ghost use Rattle.cp_search.specs.Batches.{AreFound, IsAmong, IsStep};

use crate::scout::{Found, look_at};
use crate::space::Space;
use cp_program::program::Program;
use std::alloc::{AllocError, Global};
use std::thread;
use std::thread::Threads;

/// The most states of a batch.
const MAX_STATES: usize = 4096;

/// The most numbers of private states that workers find in a batch, which take 16 MB.
const MAX_NUMBERS: usize = 4_000_000;

/// With fewer steps than this, it takes longer to start a thread than to make them.
const MIN_STEPS: usize = 1024;

/// What workers have found.
#[derive(Drop)]
pub(crate) struct Batch {
    /// What each worker has found, in the order of the states.
    pub(crate) found: Vec<Vec<Found>>,
    /// Whose steps are taken next, and which of them.
    worker: usize,
    place: usize,
    /// The index of the first state after the batch.
    end: usize,
}

// The most states of a batch, for states with so many private states.
fn max_states(width: usize) -> usize {
    match MAX_NUMBERS.checked_div(width.saturating_mul(width)) {
        Some(states) => states.max(1).min(MAX_STATES),
        None => MAX_STATES,
    }
}

// Lets so many workers look at the states between two indices.
fn look_all<R: Threads + Sync>(
    rt: &R,
    alloc: Global,
    program: &Program,
    inputs: &[Vec<u8>],
    space: &Space,
    start: usize,
    end: usize,
) -> Result<Vec<Vec<Found>>, AllocError>
    requires timeless { is_timeless (view.program program.now) ≡ true }
    requires ready { IsReady (view.program program.now) (input_of inputs.now)
        space.now.store space.now.moves.moves.items }
    ensures { IfOk result (λ found. AreFound (view.program program.now) (input_of inputs.now)
        space.now.store found.items) }
{
    let workers = (space.notes.limits.workers as usize).max(1);
    let share = end.saturating_sub(start).div_ceil(workers);
    thread::map_indices(
        rt,
        alloc,
        workers,
        &|n: usize| -> Vec<Found>
            requires { (is_timeless (view.program program.now) ≡ true)
                × IsReady (view.program program.now) (input_of inputs.now) space.now.store
                space.now.moves.moves.items }
            ensures { All (IsStep (view.program program.entry.now) (input_of inputs.entry.now)
                space.entry.now.store) result.items }
        {
            let first = start.saturating_add(n.saturating_mul(share));
            look_at(
                alloc,
                program,
                inputs,
                space,
                first,
                end.min(first.saturating_add(share)),
            )
        },
    )
}

impl Batch {
    /// A batch in which nothing was found.
    pub(crate) fn new(alloc: Global) -> Batch
        ensures { result.found.items ≡ [] }
    {
        Batch {
            found: Vec::new(alloc),
            worker: 0,
            place: 0,
            end: 0,
        }
    }

    /// Begins a batch at the state with an index, if the batch before is over. It has the states that
    /// were seen, up to a limit.
    ///
    /// # Errors
    ///
    /// `AllocError` if memory runs out.
    pub(crate) fn begin_at<R: Threads + Sync>(
        &mut self,
        rt: &R,
        alloc: Global,
        program: &Program,
        inputs: &[Vec<u8>],
        space: &Space,
        index: usize,
    ) -> Result<(), AllocError>
        requires timeless { is_timeless (view.program program.now) ≡ true }
        requires ready { IsReady (view.program program.now) (input_of inputs.now)
            space.now.store space.now.moves.moves.items }
        ensures { OnOk result (AreFound (view.program program.now) (input_of inputs.now)
            space.now.store self.old.found.items → AreFound (view.program program.now)
            (input_of inputs.now) space.now.store self.new.found.items) }
    {
        if index < self.end {
            return Ok(());
        }
        let width = program.processes();
        let end = space
            .store
            .len()
            .min(index.saturating_add(max_states(width)));
        self.found.clear();
        self.worker = 0;
        self.place = 0;
        self.end = end;
        let steps = end.saturating_sub(index).saturating_mul(width);
        if space.notes.limits.workers < 2 || steps < MIN_STEPS {
            return Ok(());
        }
        self.found = look_all(rt, alloc, program, inputs, space, index, end)?;
        self.skip_workers();
        Ok(())
    }

    /// What was found of the late step of process p from the state with an index.
    // inline(always): a search by one worker finds nothing here for each step.
    #[inline(always)]
    pub(crate) fn at(&self, index: usize, p: usize) -> Option<&Found>
        ensures index { IfSome result (λ f. f.now.index ≡ index) }
        ensures process { IfSome result (λ f. f.now.process ≡ p) }
        ensures among { IfSome result (λ f. IsAmong f.now self.now.found.items) }
    {
        let found = self.found.get(self.worker)?.get(self.place)?;
        if found.index != index || found.process != p {
            return None;
        }
        Some(found)
    }

    // Goes to the next worker that has found something, if this one hasn't found more.
    fn skip_workers(&mut self)
        ensures { self.new.found ≡ self.old.found }
    {
        for _worker in 0..self.found.len() {
            match self.found.get(self.worker) {
                Some(found) if found.len() <= self.place => (),
                _ => return,
            }
            self.place = 0;
            self.worker = self.worker.saturating_add(1);
        }
    }

    /// Passes over what was found of the late step of process p from the state with an index.
    #[inline(always)]
    pub(crate) fn pass(&mut self, index: usize, p: usize)
        ensures { self.new.found ≡ self.old.found }
    {
        if self.at(index, p).is_none() {
            return;
        }
        self.place = self.place.saturating_add(1);
        self.skip_workers();
    }
}
