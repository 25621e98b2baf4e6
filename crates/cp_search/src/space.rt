//! The states that a search has seen, and what it notes of them.

ghost use Rattle.std.specs.Prelude.{◌≡◌, ◌≤◌, ◌<◌, ℕ, List, IfOk, IfSome, [], All, length, slice_set, ◌-◌, true};
ghost use Rattle.cp_model_program.specs.Programs as plain;
ghost use Rattle.cp_program.specs.View as view;
ghost use Rattle.cp_law_exploring.specs.Exploring.{count};
ghost use Rattle.cp_law_servers.specs.Servers.{AreServed};
ghost use Rattle.cp_search_states.specs.Alone.{AreNumbered};
ghost use Rattle.cp_search_states.specs.SearchStates.{core_of};
ghost use Rattle.cp_search_store.specs.Stored.{row};
ghost use Rattle.cp_search_store.specs.States.{cores_of, state_count, IsAdded, IsBelow, IsSound};
ghost use Rattle.cp_search.specs.SearchResults.{HasAdded, IsKeyAt, exchanged};

use crate::notes::{Limits, Notes, Origin, Stop};
use cp_program::program::Program;
use cp_search_states::state::SearchState;
use cp_search_store::moves::{Key, Moves, Outcome};
use cp_search_store::store::Store;
use std::alloc::{AllocError, Global};

/// How many moves are made before it matters whether they are found again.
const FREE_MOVES: u64 = 4096;

/// How many moves were found again, and how many were made.
#[derive(Clone, Copy)]
pub(crate) struct Tally {
    pub(crate) found: u64,
    pub(crate) made: u64,
}

impl Tally {
    // Nothing.
    fn none() -> Tally {
        Tally { found: 0, made: 0 }
    }

    /// Whether moves are found again so often that it pays to make more of them.
    pub(crate) fn pays(self) -> bool {
        self.made < FREE_MOVES || self.made <= self.found
    }

    /// Notes that a move was found again.
    pub(crate) fn note_found(&mut self) {
        self.found = self.found.saturating_add(1);
    }

    /// Notes that a move was made.
    pub(crate) fn note_made(&mut self) {
        self.made = self.made.saturating_add(1);
    }
}

/// The states that were seen, the moves that were made, what is noted of them, and the state that is
/// at work.
#[derive(Drop)]
pub(crate) struct Space {
    pub(crate) store: Store,
    pub(crate) moves: Moves,
    pub(crate) tally: Tally,
    pub(crate) notes: Notes,
    pub(crate) state: SearchState,
    /// The numbers of the private states of the state that is to be added.
    next_row: Vec<u32>,
}

impl Space {
    /// A space without states.
    pub(crate) fn new(alloc: Global, program: &Program, limits: Limits) -> Space
        ensures sound { IsSound result.store }
        ensures none { (inputs : ℕ → List ℕ) → cores_of inputs result.store ≡ [] }
        ensures moves { result.moves.moves.items ≡ [] }
    {
        Space {
            store: Store::new(alloc, program.processes(), limits.room()),
            moves: Moves::new(alloc),
            tally: Tally::none(),
            notes: Notes::new(alloc, limits),
            state: SearchState::empty(alloc),
            next_row: Vec::new(alloc),
        }
    }

    /// The key of the move of process p in the state with an index.
    pub(crate) fn key(&self, index: usize, p: usize) -> Option<Key>
        ensures { IfSome result (λ key. IsKeyAt self.now.store index p key) }
    {
        if p > u32::MAX as usize {
            return None;
        }
        let kernel = self.store.kernel_number(index)?;
        let part = self.store.part_number(index, p)?;
        Some(Key {
            process: p as u32,
            kernel,
            part,
        })
    }

    /// Whether it is remembered where the move of process p leads in the state with an index.
    pub(crate) fn remembers(&self, index: usize, p: usize) -> bool {
        match self.key(index, p) {
            Some(key) => matches!(
                self.moves.find(key),
                Some(Outcome::NotLate | Outcome::Leads { .. })
            ),
            None => false,
        }
    }

    // Adds the state whose kernel has this number, and whose private states have the numbers of the
    // row, unless it is known or a limit is reached. Returns whether the store has it.
    fn add_row(&mut self, alloc: Global, kernel: u32, origin: Origin) -> Result<bool, AllocError>
        requires sound { IsSound self.old.store }
        requires kernel { kernel < length self.old.store.kernels.kernels.items }
        requires parts { All (IsBelow (length self.old.store.parts.privates.items))
            self.old.next_row.items }
        ensures added { IfOk result (λ added. added ≡ true
            → IsAdded self.old.store kernel self.old.next_row.items self.new.store) }
        ensures moves { self.new.moves ≡ self.old.moves }
    {
        let count = self.store.len();
        let beside = self.moves.size();
        if !self.store.add(alloc, kernel, &self.next_row, beside)? {
            self.notes.note_full(self.store.full(beside));
            return Ok(false);
        }
        if count < self.store.len() {
            self.notes.note_state(origin)?;
        }
        Ok(true)
    }

    /// Adds the state that is at work, unless it is known or a limit is reached. Returns whether the
    /// store has it.
    pub(crate) fn add(
        &mut self,
        alloc: Global,
        program: &Program,
        origin: Origin,
    ) -> Result<bool, AllocError>
        requires { IsSound self.old.store }
        ensures added { IfOk result (λ added. added ≡ true → (inputs : ℕ → List ℕ)
            → HasAdded (view.program program.now) inputs self.old.store
            (core_of inputs self.old.state) self.new.store) }
        ensures moves { self.new.moves ≡ self.old.moves }
        ensures numbers { IfOk result (λ added. added ≡ true → (inputs : ℕ → List ℕ)
            → AreNumbered (view.program program.now) (core_of inputs self.old.state)) }
    {
        if !self.state.has_numbers(program) {
            self.notes.stop = Some(Stop::Defect);
            return Ok(false);
        }
        let kernel = self.store.number(alloc, &self.state, &mut self.next_row)?;
        self.add_row(alloc, kernel, origin)
    }

    /// Adds the state whose parts have these numbers, unless it is known or a limit is reached.
    /// Returns whether the store has it.
    pub(crate) fn add_numbered(
        &mut self,
        alloc: Global,
        kernel: u32,
        row: &[u32],
        origin: Origin,
    ) -> Result<bool, AllocError>
        requires sound { IsSound self.old.store }
        requires kernel { kernel < length self.old.store.kernels.kernels.items }
        requires parts { All (IsBelow (length self.old.store.parts.privates.items)) row.now }
        ensures added { IfOk result (λ added. added ≡ true
            → IsAdded self.old.store kernel row.now self.new.store) }
        ensures moves { self.new.moves ≡ self.old.moves }
    {
        self.next_row.clear();
        self.next_row.extend_from_slice(row)?;
        self.add_row(alloc, kernel, origin)
    }

    // Makes the row that of the state with an index, with another number for process p. Returns
    // whether it could.
    fn copy_row(&mut self, index: usize, p: usize, part: u32) -> Result<bool, AllocError>
        ensures numbers { IfOk result (λ done. done ≡ true → self.new.next_row.items ≡ slice_set
            (row self.old.store.width self.old.store.part_numbers.items index) (p - 1) part) }
        ensures store { self.new.store ≡ self.old.store }
        ensures moves { self.new.moves ≡ self.old.moves }
    {
        let Some(numbers) = self.store.row(index) else {
            return Ok(false);
        };
        self.next_row.clear();
        self.next_row.extend_from_slice(numbers)?;
        if p == 0 || self.next_row.len() < p {
            return Ok(false);
        }
        self.next_row[p - 1] = part;
        Ok(true)
    }

    /// Adds the state with an index, but with this kernel and this private state of process p,
    /// unless it is known or a limit is reached. Returns whether the store has it.
    pub(crate) fn add_exchanged(
        &mut self,
        alloc: Global,
        index: usize,
        p: usize,
        kernel: u32,
        part: u32,
    ) -> Result<bool, AllocError>
        requires sound { IsSound self.old.store }
        requires kernel { kernel < length self.old.store.kernels.kernels.items }
        requires part { part < length self.old.store.parts.privates.items }
        requires first { 1 ≤ p }
        ensures added { IfOk result (λ added. added ≡ true
            → (program : plain.Program) (inputs : ℕ → List ℕ)
            → HasAdded program inputs self.old.store
            (exchanged inputs self.old.store index p kernel part) self.new.store) }
        ensures moves { self.new.moves ≡ self.old.moves }
    {
        if !self.copy_row(index, p, part)? {
            self.notes.stop = Some(Stop::Defect);
            return Ok(false);
        }
        self.add_row(alloc, kernel, Origin::of(index, p))
    }
}

/// Whether no state has a fault or is stuck, if servers may wait forever. Only the answer `true` is
/// proved to be right. It works on `state`.
pub(crate) fn are_fine(
    program: &Program,
    servers: &[u32],
    store: &Store,
    state: &mut SearchState,
) -> Result<bool, AllocError>
    ensures { IfOk result (λ fine. fine ≡ true → (inputs : ℕ → List ℕ)
        → AreServed servers.now (count (view.program program.now)) (cores_of inputs store.now)) }
{
    for i in 0..store.len() {
        if !store.restore(i, state)? {
            return Ok(false);
        }
        if !state.is_acceptable(program, servers) {
            return Ok(false);
        }
    }
    Ok(true)
}
