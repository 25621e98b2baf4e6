//! The different kernels, and their numbers.

ghost use Rattle.std.specs.Prelude.{◌≡◌, IfOk, IfSome, OnOk, true};
ghost use Rattle.cp_search_store.specs.Stored.{Extends, IsKernelAt};

use crate::hints::Hints;
use cp_kernel::kernel::Kernel;
use std::alloc::{AllocError, Global};

/// The different kernels.
#[derive(Drop)]
pub(crate) struct Kernels {
    pub(crate) kernels: Vec<Kernel>,
    hints: Hints,
    bytes: usize,
}

impl Kernels {
    pub(crate) fn new(alloc: Global) -> Kernels {
        Kernels {
            kernels: Vec::new(alloc),
            hints: Hints::new(alloc),
            bytes: 0,
        }
    }

    // Whether the kernel with a number has the same content. Only the answer `true` is proved to be
    // right.
    fn is_at(&self, number: u32, kernel: &Kernel) -> bool
        ensures { result ≡ true → IsKernelAt self.now.kernels.items number kernel.now }
    {
        match self.kernels.get(number as usize) {
            Some(known) => known.is_same(kernel),
            None => false,
        }
    }

    /// The number of a kernel with a hash, if it is known.
    pub(crate) fn find(&self, kernel: &Kernel, hash: u64) -> Option<u32>
        ensures { IfSome result (λ n. IsKernelAt self.now.kernels.items n kernel.now) }
    {
        for step in 0..self.hints.len() {
            let number = self.hints.at(hash, step)?;
            if self.is_at(number, kernel) {
                return Some(number);
            }
        }
        None
    }

    // Adds a kernel, and returns its number.
    fn push(&mut self, alloc: Global, kernel: &Kernel) -> Result<u32, AllocError>
        ensures grows { OnOk result (Extends self.old.kernels.items self.new.kernels.items) }
        ensures is { IfOk result (λ n. IsKernelAt self.new.kernels.items n kernel.now) }
    {
        let number = self.kernels.len();
        if u32::MAX as usize <= number {
            return Err(AllocError);
        }
        self.kernels.push(kernel.copy_without_transcripts(alloc)?)?;
        Ok(number as u32)
    }

    // Notes the hash of the kernel with a number.
    fn note(&mut self, alloc: Global, hash: u64, number: u32) -> Result<(), AllocError>
        ensures { self.new.kernels.items ≡ self.old.kernels.items }
    {
        if self.hints.is_crowded() {
            note_all(alloc, &self.kernels, &mut self.hints)
        } else {
            self.hints.note(hash, number);
            Ok(())
        }
    }

    /// The number of a kernel, which is added if it is new.
    ///
    /// # Errors
    ///
    /// `AllocError` if memory runs out.
    pub(crate) fn number(&mut self, alloc: Global, kernel: &Kernel) -> Result<u32, AllocError>
        ensures grows { OnOk result (Extends self.old.kernels.items self.new.kernels.items) }
        ensures is { IfOk result (λ n. IsKernelAt self.new.kernels.items n kernel.now) }
    {
        let hash = kernel.hash();
        if let Some(number) = self.find(kernel, hash) {
            return Ok(number);
        }
        self.bytes = self.bytes.saturating_add(kernel.size());
        let number = self.push(alloc, kernel)?;
        self.note(alloc, hash, number)?;
        Ok(number)
    }

    /// The kernel with a number.
    pub(crate) fn get(&self, number: u32) -> Option<&Kernel>
        ensures { IfSome result (λ k. IsKernelAt self.now.kernels.items number k.now) }
    {
        match self.kernels.get(number as usize) {
            Some(known) => Some(known),
            None => None,
        }
    }

    /// Makes a kernel the one with a number. Returns whether it could.
    ///
    /// # Errors
    ///
    /// `AllocError` if memory runs out.
    pub(crate) fn restore(&self, number: u32, kernel: &mut Kernel) -> Result<bool, AllocError>
        ensures { IfOk result (λ done. done ≡ true → IsKernelAt self.now.kernels.items number
            kernel.new) }
    {
        match self.kernels.get(number as usize) {
            Some(known) => kernel.assign(known),
            None => Ok(false),
        }
    }

    /// How many bytes of memory the kernels take, about.
    pub(crate) fn size(&self) -> usize {
        self.bytes.saturating_add(self.hints.size())
    }
}

// Makes the table larger, and notes the hashes of all kernels.
fn note_all(alloc: Global, kernels: &[Kernel], hints: &mut Hints) -> Result<(), AllocError> {
    hints.grow(alloc)?;
    let mut number = 0;
    for kernel in kernels {
        hints.note(kernel.hash(), number);
        number = number.saturating_add(1);
    }
    Ok(())
}
