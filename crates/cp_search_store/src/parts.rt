//! The different private states, and their numbers.

ghost use Rattle.std.specs.Prelude.{◌≡◌, IfOk, IfSome, OnOk, true};
ghost use Rattle.cp_search_store.specs.Stored.{AreNumbered, Extends, IsPartAt};

use crate::hints::Hints;
use cp_private::private::Private;
use cp_private::private_box::PrivateBox;
use std::alloc::{AllocError, Global};

/// The different private states of all processes.
#[derive(Drop)]
pub(crate) struct Parts {
    pub(crate) privates: Vec<PrivateBox>,
    hints: Hints,
    bytes: usize,
}

impl Parts {
    pub(crate) fn new(alloc: Global) -> Parts {
        Parts {
            privates: Vec::new(alloc),
            hints: Hints::new(alloc),
            bytes: 0,
        }
    }

    // Whether the private state with a number has the same content. Only the answer `true` is
    // proved to be right.
    fn is_at(&self, number: u32, private: &Private) -> bool
        ensures { result ≡ true → IsPartAt self.now.privates.items number private.now }
    {
        match self.privates.get(number as usize) {
            Some(known) => known.private().is_same(private),
            None => false,
        }
    }

    fn find(&self, private: &Private, hash: u64) -> Option<u32>
        ensures { IfSome result (λ n. IsPartAt self.now.privates.items n private.now) }
    {
        for step in 0..self.hints.len() {
            let number = self.hints.at(hash, step)?;
            if self.is_at(number, private) {
                return Some(number);
            }
        }
        None
    }

    // Adds a private state, and returns its number.
    fn push(&mut self, alloc: Global, private: &Private) -> Result<u32, AllocError>
        ensures grows { OnOk result (Extends self.old.privates.items self.new.privates.items) }
        ensures is { IfOk result (λ n. IsPartAt self.new.privates.items n private.now) }
    {
        let number = self.privates.len();
        if u32::MAX as usize <= number {
            return Err(AllocError);
        }
        let copy = private.copy(alloc)?;
        self.privates.push(PrivateBox::new(alloc, copy)?)?;
        Ok(number as u32)
    }

    // Notes the hash of the private state with a number.
    fn note(&mut self, alloc: Global, hash: u64, number: u32) -> Result<(), AllocError>
        ensures { self.new.privates.items ≡ self.old.privates.items }
    {
        if self.hints.is_crowded() {
            note_all(alloc, &self.privates, &mut self.hints)
        } else {
            self.hints.note(hash, number);
            Ok(())
        }
    }

    /// The number of a private state, which is added if it is new.
    pub(crate) fn number(&mut self, alloc: Global, private: &Private) -> Result<u32, AllocError>
        ensures grows { OnOk result (Extends self.old.privates.items self.new.privates.items) }
        ensures is { IfOk result (λ n. IsPartAt self.new.privates.items n private.now) }
    {
        let hash = private.hash();
        if let Some(number) = self.find(private, hash) {
            return Ok(number);
        }
        self.bytes = self.bytes.saturating_add(private.size());
        let number = self.push(alloc, private)?;
        self.note(alloc, hash, number)?;
        Ok(number)
    }

    /// The numbers of private states. New ones are added.
    ///
    /// # Errors
    ///
    /// `AllocError` if memory runs out.
    pub(crate) fn number_all(
        &mut self,
        alloc: Global,
        privates: &[PrivateBox],
        numbers: &mut Vec<u32>,
    ) -> Result<(), AllocError>
        ensures grows { OnOk result (Extends self.old.privates.items self.new.privates.items) }
        ensures are { OnOk result (AreNumbered self.new.privates.items numbers.new.items
            privates.now) }
    {
        numbers.clear();
        for private in privates {
            let number = self.number(alloc, private.private())?;
            numbers.push(number)?;
        }
        Ok(())
    }

    /// Finds the numbers of private states. Returns whether all are known. Only the answer `true` is
    /// proved to be right.
    ///
    /// # Errors
    ///
    /// `AllocError` if memory runs out.
    pub(crate) fn find_all(
        &self,
        privates: &[PrivateBox],
        numbers: &mut Vec<u32>,
    ) -> Result<bool, AllocError>
        ensures { IfOk result (λ done. done ≡ true → AreNumbered self.now.privates.items
            numbers.new.items privates.now) }
    {
        numbers.clear();
        for private in privates {
            let known = private.private();
            let Some(number) = self.find(known, known.hash()) else {
                return Ok(false);
            };
            numbers.push(number)?;
        }
        Ok(true)
    }

    /// The private state with a number.
    pub(crate) fn get(&self, number: u32) -> Option<&Private>
        ensures { IfSome result (λ x. IsPartAt self.now.privates.items number x.now) }
    {
        match self.privates.get(number as usize) {
            Some(known) => Some(known.private()),
            None => None,
        }
    }

    // Makes a private state the one with a number. Returns whether it could.
    fn restore(&self, number: u32, private: &mut Private) -> bool
        ensures { result ≡ true → IsPartAt self.now.privates.items number private.new }
    {
        match self.privates.get(number as usize) {
            Some(known) => private.assign(known.private()),
            None => false,
        }
    }

    /// Makes private states those with the numbers. Returns whether it could.
    pub(crate) fn restore_all(&self, numbers: &[u32], privates: &mut Vec<PrivateBox>) -> bool
        ensures { result ≡ true → AreNumbered self.now.privates.items numbers.now
            privates.new.items }
    {
        if numbers.len() != privates.len() {
            return false;
        }
        for i in 0..privates.len() {
            if !self.restore(numbers[i], privates[i].private_mut()) {
                return false;
            }
        }
        true
    }

    /// How many bytes of memory the private states take, about.
    pub(crate) fn size(&self) -> usize {
        self.bytes.saturating_add(self.hints.size())
    }
}

// Makes the table larger, and notes the hashes of all private states.
fn note_all(alloc: Global, privates: &[PrivateBox], hints: &mut Hints) -> Result<(), AllocError> {
    hints.grow(alloc)?;
    let mut number = 0;
    for private in privates {
        hints.note(private.private().hash(), number);
        number = number.saturating_add(1);
    }
    Ok(())
}
