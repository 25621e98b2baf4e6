//! Chains of askers: a process and then, as long as the last one asks for a gate, the holder of
//! that gate.

ghost use Rattle.std.specs.Prelude.{◌≡◌};
ghost use Rattle.std.specs.Iterator.{YieldsFirst, item_count};
ghost use Rattle.cp_model_machine.specs.Chains as plain;
ghost use Rattle.cp_kernel.specs.KernelOf.{kernel_of};
ghost use Rattle.cp_kernel.specs.ChainOf.{processes_left};

use crate::kernel::Kernel;
use cp_private::kernel_view::{Holder, SchedulingState};

/// The processes of a chain that are still to come, in order. It takes no memory.
#[derive(Drop)]
pub struct Chain<'a> {
    kernel: &'a Kernel,
    next: Option<u32>,
    /// How many processes may come at most.
    most: usize,
}

impl Iterator for Chain<'_> {
    type Item = u32;

    ghost next_gives = { YieldsFirst processes_left };

    ghost remaining = { item_count processes_left };

    fn next(&mut self) -> Option<u32> {
        if self.most == 0 {
            return None;
        }
        let process = self.next?;
        self.most -= 1;
        self.next = self.kernel.waits_for(process);
        Some(process)
    }
}

impl Kernel {
    /// The process for which process p waits: the holder of the gate that it asks for.
    pub fn waits_for(&self, p: u32) -> Option<u32>
        ensures { result ≡ plain.waits_for (kernel_of self.now) p }
    {
        let SchedulingState::Asking(monitor) = self.stage(p) else {
            return None;
        };
        match self.holder(monitor) {
            Holder::Process(holder) => Some(holder),
            Holder::Unset | Holder::Free => None,
        }
    }

    /// The asking chain of process p, of at most one process more than there are monitors.
    pub fn chain(&self, p: u32) -> Chain<'_>
        ensures { processes_left result ≡ plain.chain (kernel_of self.now) p }
    {
        Chain {
            kernel: self,
            next: Some(p),
            most: self.gates.len() + 1,
        }
    }
}
