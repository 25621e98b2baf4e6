//! The states that a search has seen.

ghost use Rattle.std.specs.Prelude.{◌≡◌, ◌<◌, ◌-◌, ℕ, List, [], All, IfOk, IfSome, OnOk, Some, length, slice_get, true};
ghost use Rattle.cp_kernel.specs.KernelOf.{kernel_of};
ghost use Rattle.cp_kernel.specs.Turns.{parts_of};
ghost use Rattle.cp_search_states.specs.SearchStates.{core_of};
ghost use Rattle.cp_search_store.specs.Stored.{IsKernelAt, IsPartAt, row};
ghost use Rattle.cp_search_store.specs.States.{HasMoreParts, HasRow, IsAdded, IsBelow, IsLone, IsNumbered, IsPushed, IsRowAt, IsSound, core_at, cores_of, kernel_in, parts_in, state_count};

use crate::hints::Hints;
use crate::kernels::Kernels;
use crate::parts::Parts;
use crate::rows::{hash_of, is_same_row, number_at, row_at};
use cp_kernel::kernel::Kernel;
use cp_private::private::Private;
use cp_private::private_box::PrivateBox;
use cp_search_states::alone::Lone;
use cp_search_states::state::SearchState;
use std::alloc::{AllocError, Global};

/// The bytes that a search notes of each state, beside the store.
const NOTED_BYTES: usize = 8;

/// How much a store keeps at most.
#[derive(Clone, Copy)]
pub struct Room {
    pub states: u32,
    /// How many bytes of memory it takes at most, about.
    pub memory: usize,
}

/// Why a store takes no more states.
#[derive(Clone, Copy, Debug, PartialEq, Eq)]
pub enum Full {
    States,
    Memory,
}

/// States by their indices, from 0.
#[derive(Drop)]
pub struct Store {
    kernels: Kernels,
    parts: Parts,
    /// How many private states each state has.
    width: usize,
    /// The number of the kernel of each state.
    kernel_numbers: Vec<u32>,
    /// The numbers of the private states of each state, row by row.
    part_numbers: Vec<u32>,
    hints: Hints,
    room: Room,
}

impl Store {
    /// A store without states, for states with so many private states.
    pub fn new(alloc: Global, width: usize, room: Room) -> Store
        ensures sound { IsSound result }
        ensures none { (inputs : ℕ → List ℕ) → cores_of inputs result ≡ [] }
    {
        Store {
            kernels: Kernels::new(alloc),
            parts: Parts::new(alloc),
            width,
            kernel_numbers: Vec::new(alloc),
            part_numbers: Vec::new(alloc),
            hints: Hints::new(alloc),
            room,
        }
    }

    /// How many states there are.
    pub fn len(&self) -> usize
        ensures { result ≡ state_count self.now }
    {
        self.kernel_numbers.len()
    }

    /// The number of the kernel of the state with an index.
    pub fn kernel_number(&self, index: usize) -> Option<u32>
        ensures { IfSome result (λ k. slice_get self.now.kernel_numbers.items index ≡ Some k) }
    {
        number_at(&self.kernel_numbers, index)
    }

    /// The numbers of the private states of the state with an index.
    pub fn row(&self, index: usize) -> Option<&[u32]>
        ensures { IfSome result
            (λ r. r.now ≡ row self.now.width self.now.part_numbers.items index) }
    {
        row_at(&self.part_numbers, self.width, index)
    }

    /// The number of the private state of process p in the state with an index.
    pub fn part_number(&self, index: usize, p: usize) -> Option<u32>
        ensures { IfSome result (λ n. slice_get
            (row self.now.width self.now.part_numbers.items index) (p - 1) ≡ Some n) }
    {
        match self.row(index) {
            Some(numbers) => number_at(numbers, p.saturating_sub(1)),
            None => None,
        }
    }

    /// The kernel and the private state with these numbers, copied.
    ///
    /// # Errors
    ///
    /// `AllocError` if memory runs out.
    pub fn lone(&self, alloc: Global, kernel: u32, part: u32) -> Result<Option<Lone>, AllocError>
        ensures { IfOk result (λ lone. IfSome lone (IsLone self.now kernel part)) }
    {
        let Some(known_kernel) = self.kernels.get(kernel) else {
            return Ok(None);
        };
        let Some(known_part) = self.parts.get(part) else {
            return Ok(None);
        };
        let lone = Lone::of(alloc, known_kernel, known_part)?;
        Ok(Some(lone))
    }

    // How many bytes of memory the states take, about.
    fn size(&self) -> usize {
        let numbers = self.kernel_numbers.len() + self.part_numbers.len();
        let noted = self.kernel_numbers.len().saturating_mul(NOTED_BYTES);
        numbers
            .saturating_mul(4)
            .saturating_add(noted)
            .saturating_add(self.kernels.size())
            .saturating_add(self.parts.size())
            .saturating_add(self.hints.size())
    }

    /// Which limit is reached, if one is. The search takes `beside` more bytes.
    pub fn full(&self, beside: usize) -> Option<Full> {
        if self.room.states as usize <= self.kernel_numbers.len() {
            Some(Full::States)
        } else if self.room.memory <= self.size().saturating_add(beside) {
            Some(Full::Memory)
        } else {
            None
        }
    }

    // Whether the state with an index has these numbers.
    fn is_row_at(&self, index: u32, kernel: u32, row: &[u32]) -> bool
        ensures { result ≡ true → IsRowAt self.now index kernel row.now }
    {
        match self.kernel_numbers.get(index as usize) {
            Some(known) if *known == kernel => {
                match row_at(&self.part_numbers, self.width, index as usize) {
                    Some(numbers) => is_same_row(numbers, row),
                    None => false,
                }
            }
            _ => false,
        }
    }

    // Whether a state has these numbers. Only the answer `true` is proved to be right.
    fn has_row(&self, kernel: u32, row: &[u32], hash: u64) -> bool
        ensures { result ≡ true → HasRow self.now kernel row.now }
    {
        for step in 0..self.hints.len() {
            let Some(index) = self.hints.at(hash, step) else {
                return false;
            };
            if self.is_row_at(index, kernel, row) {
                return true;
            }
        }
        false
    }

    /// The number of a kernel, which is added if it is new.
    ///
    /// # Errors
    ///
    /// `AllocError` if memory runs out.
    pub fn number_kernel(&mut self, alloc: Global, kernel: &Kernel) -> Result<u32, AllocError>
        ensures parts { OnOk result (HasMoreParts self.old self.new) }
        ensures is { IfOk result (λ n. IsKernelAt self.new.kernels.kernels.items n kernel.now) }
    {
        let number = self.kernels.number(alloc, kernel)?;
        Ok(number)
    }

    /// The number of a private state, which is added if it is new.
    ///
    /// # Errors
    ///
    /// `AllocError` if memory runs out.
    pub fn number_part(&mut self, alloc: Global, private: &Private) -> Result<u32, AllocError>
        ensures parts { OnOk result (HasMoreParts self.old self.new) }
        ensures is { IfOk result (λ n. IsPartAt self.new.parts.privates.items n private.now) }
    {
        let number = self.parts.number(alloc, private)?;
        Ok(number)
    }

    /// The numbers of the parts of a state: that of its kernel, and in `row` those of its private
    /// states. New parts are added.
    ///
    /// # Errors
    ///
    /// `AllocError` if memory runs out.
    pub fn number(
        &mut self,
        alloc: Global,
        state: &SearchState,
        row: &mut Vec<u32>,
    ) -> Result<u32, AllocError>
        ensures { IfOk result (λ k. IsNumbered self.old state.now self.new k row.new.items) }
    {
        let kernel = self.kernels.number(alloc, &state.kernel)?;
        self.parts.number_all(alloc, &state.privates, row)?;
        Ok(kernel)
    }

    /// The numbers of the parts of a state, if all are known: that of its kernel, and in `row` those
    /// of its private states.
    ///
    /// # Errors
    ///
    /// `AllocError` if memory runs out.
    pub fn find(&self, state: &SearchState, row: &mut Vec<u32>) -> Result<Option<u32>, AllocError>
        ensures { IfOk result (λ found. IfSome found
            (λ k. IsNumbered self.now state.now self.now k row.new.items)) }
    {
        let Some(kernel) = self.kernels.find(&state.kernel, state.kernel.hash()) else {
            return Ok(None);
        };
        if !self.parts.find_all(&state.privates, row)? {
            return Ok(None);
        }
        Ok(Some(kernel))
    }

    // Adds a state with these numbers, and notes their hash.
    fn push(&mut self, alloc: Global, kernel: u32, row: &[u32], hash: u64) -> Result<(), AllocError>
        ensures { OnOk result (IsPushed self.old kernel row.now self.new) }
    {
        self.kernel_numbers.push(kernel)?;
        self.part_numbers.extend_from_slice(row)?;
        if !self.hints.is_crowded() {
            self.hints.note(hash, last_of(&self.kernel_numbers));
            return Ok(());
        }
        self.hints.grow(alloc)?;
        note_all(
            &mut self.hints,
            &self.kernel_numbers,
            &self.part_numbers,
            self.width,
        );
        Ok(())
    }

    /// Adds the state whose parts have these numbers, unless the store has it or a limit is
    /// reached. Returns whether the store has it. The search takes `beside` more bytes.
    ///
    /// # Errors
    ///
    /// `AllocError` if memory runs out.
    pub fn add(
        &mut self,
        alloc: Global,
        kernel: u32,
        row: &[u32],
        beside: usize,
    ) -> Result<bool, AllocError>
        requires sound { IsSound self.old }
        requires kernel { kernel < length self.old.kernels.kernels.items }
        requires parts { All (IsBelow (length self.old.parts.privates.items)) row.now }
        ensures { IfOk result (λ added. added ≡ true → IsAdded self.old kernel row.now self.new) }
    {
        let hash = hash_of(kernel, row);
        if self.has_row(kernel, row, hash) {
            return Ok(true);
        }
        if row.len() != self.width {
            return Ok(false);
        }
        if self.full(beside).is_some() {
            return Ok(false);
        }
        self.push(alloc, kernel, row, hash)?;
        Ok(true)
    }

    // Makes a kernel that of the state with an index. Returns whether it could.
    fn restore_kernel(&self, index: usize, kernel: &mut Kernel) -> Result<bool, AllocError>
        ensures { IfOk result
            (λ done. done ≡ true → kernel_of kernel.new ≡ kernel_in self.now index) }
    {
        match self.kernel_numbers.get(index) {
            Some(number) => self.kernels.restore(*number, kernel),
            None => Ok(false),
        }
    }

    // Makes private states those of the state with an index. Returns whether it could.
    fn restore_parts(&self, index: usize, privates: &mut Vec<PrivateBox>) -> bool
        ensures { result ≡ true → (inputs : ℕ → List ℕ)
            → parts_of inputs 1 privates.new.items ≡ parts_in inputs self.now index }
    {
        match row_at(&self.part_numbers, self.width, index) {
            Some(row) => self.parts.restore_all(row, privates),
            None => false,
        }
    }

    /// Makes a state the one with an index. Returns whether it could.
    ///
    /// # Errors
    ///
    /// `AllocError` if memory runs out.
    pub fn restore(&self, index: usize, state: &mut SearchState) -> Result<bool, AllocError>
        ensures { IfOk result (λ done. done ≡ true → (inputs : ℕ → List ℕ)
            → core_of inputs state.new ≡ core_at inputs self.now index) }
    {
        if !self.restore_parts(index, &mut state.privates) {
            return Ok(false);
        }
        self.restore_kernel(index, &mut state.kernel)
    }
}

// The index of the last state.
fn last_of(kernel_numbers: &[u32]) -> u32 {
    let last = kernel_numbers.len().saturating_sub(1);
    last.min(u32::MAX as usize) as u32
}

// Notes the hashes of all states.
fn note_all(hints: &mut Hints, kernel_numbers: &[u32], part_numbers: &[u32], width: usize) {
    let mut index = 0u32;
    for kernel in kernel_numbers {
        if let Some(row) = row_at(part_numbers, width, index as usize) {
            hints.note(hash_of(*kernel, row), index);
        }
        index = index.saturating_add(1);
    }
}
