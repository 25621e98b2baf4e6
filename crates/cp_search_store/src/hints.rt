//! Where to look for what has a hash: an open table of numbers, with linear probing. No clause
//! rests on it.

use std::alloc::{AllocError, Global};

const FIRST_SLOTS: usize = 64;

/// A table of numbers by hashes.
#[derive(Drop)]
pub(crate) struct Hints {
    /// The numbers, each one more than it is. A free slot has 0.
    slots: Vec<u32>,
    used: usize,
}

impl Hints {
    pub(crate) fn new(alloc: Global) -> Hints {
        Hints {
            slots: Vec::new(alloc),
            used: 0,
        }
    }

    // The slot in which a number with a hash is, if those before it are taken.
    fn place(&self, hash: u64, step: usize) -> usize {
        let mask = self.slots.len().saturating_sub(1);
        (hash as usize).wrapping_add(step) & mask
    }

    /// How many slots there are, which is how many steps a look-up makes at most.
    pub(crate) fn len(&self) -> usize {
        self.slots.len()
    }

    /// The number at a step of a look-up, or nothing at a free slot, where the look-up ends.
    pub(crate) fn at(&self, hash: u64, step: usize) -> Option<u32> {
        match self.slots.get(self.place(hash, step)) {
            Some(number) if *number != 0 => Some(*number - 1),
            _ => None,
        }
    }

    /// Notes the number of what has a hash. It does nothing if no slot is free.
    pub(crate) fn note(&mut self, hash: u64, number: u32) {
        for step in 0..self.slots.len() {
            let place = self.place(hash, step);
            if let Some(slot) = self.slots.get_mut(place) {
                if *slot == 0 {
                    *slot = number.saturating_add(1);
                    self.used = self.used.saturating_add(1);
                    return;
                }
            }
        }
    }

    /// Whether two thirds of the slots are taken.
    pub(crate) fn is_crowded(&self) -> bool {
        self.slots.len() / 3 * 2 <= self.used
    }

    /// Makes the table twice as large, and empty.
    pub(crate) fn grow(&mut self, alloc: Global) -> Result<(), AllocError> {
        let count = self.slots.len().saturating_mul(2).max(FIRST_SLOTS);
        self.slots = Vec::from_elem(alloc, 0, count)?;
        self.used = 0;
        Ok(())
    }

    /// How many bytes of memory the table takes.
    pub(crate) fn size(&self) -> usize {
        self.slots.len().saturating_mul(4)
    }
}
