//! Copies of private states, as a round begins with them, and of all that rounds change.

ghost use Rattle.std.specs.Prelude.{◌≡◌, ℕ, List, IfOk};
ghost use Rattle.cp_private.specs.States.{private_of};
ghost use Rattle.cp_rounds_handoff.specs.Turned.{woken};
ghost use Rattle.cp_rounds.specs.Replayed.{AreWoken};
ghost use Rattle.cp_rounds.specs.Runs.{AreSame};

use crate::parts::Parts;
use cp_private::private::Private;
use cp_private::private_box::PrivateBox;
use std::alloc::{AllocError, Global};

// A copy of a private state. If `wakes`, a process that waits continues in it.
fn woken_copy(alloc: Global, private: &Private, wakes: bool) -> Result<Private, AllocError>
    ensures { IfOk result
        (λ x. (input : List ℕ) → private_of x input ≡ woken wakes (private_of private.now input)) }
{
    let mut copy = private.copy(alloc)?;
    if wakes {
        copy.wake();
    }
    Ok(copy)
}

/// Copies of private states. If `wakes`, the processes that wait continue in them.
///
/// # Errors
///
/// `AllocError` if memory runs out.
pub fn woken_copies(
    alloc: Global,
    privates: &[PrivateBox],
    wakes: bool,
) -> Result<Vec<PrivateBox>, AllocError>
    ensures { IfOk result (λ copies. AreWoken wakes privates.now copies.items) }
{
    let mut copies = Vec::with_capacity(alloc, privates.len())?;
    for private in privates {
        let copy = woken_copy(alloc, private.private(), wakes)?;
        copies.push(PrivateBox::new(alloc, copy)?)?;
    }
    Ok(copies)
}

impl Parts {
    /// A copy.
    ///
    /// # Errors
    ///
    /// `AllocError` if memory runs out.
    pub(crate) fn copy(&self, alloc: Global) -> Result<Parts, AllocError>
        ensures { IfOk result (λ copy. AreSame self.now.privates.items self.now.kernel
            copy.privates.items copy.kernel) }
    {
        let privates = woken_copies(alloc, &self.privates, false)?;
        let kernel = self.kernel.copy(alloc)?;
        Ok(Parts { privates, kernel })
    }
}
