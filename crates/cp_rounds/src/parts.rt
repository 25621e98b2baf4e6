//! What rounds change.

ghost use Rattle.std.specs.Prelude.{◌≡◌, length};
ghost use Rattle.cp_rounds_handoff.specs.Numbers.{AreNumbered};

use cp_kernel::kernel::Kernel;
use cp_private::private_box::PrivateBox;
use std::alloc::Global;

/// The private states by process, and the kernel.
#[derive(Drop)]
pub struct Parts {
    pub(crate) privates: Vec<PrivateBox>,
    pub(crate) kernel: Kernel,
    ghost numbers: { AreNumbered privates.items },
    ghost count: { length kernel.stages.items ≡ length privates.items },
}

impl Parts {
    /// The parts of a machine without processes. It takes no memory.
    pub(crate) fn none(alloc: Global) -> Parts {
        Parts {
            privates: Vec::new(alloc),
            kernel: Kernel::empty(alloc),
        }
    }
}
