//! How the private states and the kernel of a machine start.

ghost use Rattle.std.specs.Prelude.{◌≡◌, IfOk, length};
ghost use Rattle.cp_program.specs.View as view;
ghost use Rattle.cp_rounds_handoff.specs.Numbers.{AreNumbered};
ghost use Rattle.cp_rounds.specs.Starts.{AreFirst, IsStart};

use crate::parts::Parts;
use cp_kernel::kernel::Kernel;
use cp_private::private::Private;
use cp_private::private_box::PrivateBox;
use cp_program::program::Program;
use std::alloc::{AllocError, Global};

// The private states of all processes at the start.
fn first_privates(alloc: Global, program: &Program) -> Result<Vec<PrivateBox>, AllocError>
    ensures first { IfOk result (λ xs. AreFirst (view.program program.now) xs.items) }
    ensures count { IfOk result
        (λ xs. length xs.items ≡ length (view.program program.now).processes) }
{
    let count = program.processes();
    let mut privates = Vec::with_capacity(alloc, count)?;
    for i in 0..count {
        let private = Private::new(alloc, program, i + 1)?;
        privates.push(PrivateBox::new(alloc, private)?)?;
    }
    Ok(privates)
}

/// The private states of all processes and the kernel at the start.
///
/// # Errors
///
/// `AllocError` if memory runs out, or if a process or the monitors have 2^30 words or more.
pub fn first_parts(alloc: Global, program: &Program) -> Result<Parts, AllocError>
    ensures { IfOk result (λ parts. IsStart (view.program program.now) parts.privates.items
        parts.kernel) }
{
    let privates = first_privates(alloc, program)?;
    let kernel = Kernel::new(alloc, program)?;
    Ok(Parts { privates, kernel })
}
