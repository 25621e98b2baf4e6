//! Rights that are passed by an `init` which a process can still come to.

use crate::words::Address;
use std::alloc::{AllocError, Global};
use std::collections::BTreeMap;

// One of the values that a word may get.
#[derive(Clone, Copy, PartialEq, Eq, PartialOrd, Ord)]
struct Slot {
    address: Address,
    index: usize,
}

/// The values that words may get by an `init`.
#[derive(Drop)]
pub(crate) struct Rights {
    values: BTreeMap<Slot, i32>,
    count: usize,
}

impl Rights {
    /// No values.
    pub(crate) fn new(alloc: Global) -> Rights {
        Rights {
            values: BTreeMap::new(alloc),
            count: 0,
        }
    }

    /// How many values there are.
    pub(crate) fn count(&self) -> usize {
        self.count
    }

    /// A value that a word may get, by its index.
    pub(crate) fn value(&self, address: Address, index: usize) -> Option<i32> {
        self.values.get(&Slot { address, index }).copied()
    }

    fn insert(&mut self, slot: Slot, value: i32) -> Result<(), AllocError> {
        self.count = self.count.saturating_add(1);
        match self.values.insert(slot, value) {
            Ok(_) => Ok(()),
            Err(_) => Err(AllocError),
        }
    }

    /// Adds a value that a word may get. Fails only if memory runs out.
    pub(crate) fn add(&mut self, address: Address, value: i32) -> Result<(), AllocError> {
        for index in 0..usize::MAX {
            match self.value(address, index) {
                Some(known) if known == value => return Ok(()),
                Some(_) => {}
                None => return self.insert(Slot { address, index }, value),
            }
        }
        Ok(())
    }
}
