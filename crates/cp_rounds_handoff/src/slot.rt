//! Slots for private turns, and the exchange of private states with them.

ghost use Rattle.std.specs.Prelude.{◌≡◌, ◌<◌, ◌≤◌, ◌-◌, false, true, Some, slice_get};
ghost use Rattle.cp_private.specs.Resting.{is_idle};
ghost use Rattle.cp_rounds_handoff.specs.Tasks.{AreMade, AreTaken, HasRoom};

use crate::open_round::OpenRound;
use crate::task::{Course, Task};
use cp_private::private::Private;
use cp_private::private_box::PrivateBox;
use std::alloc::{AllocError, Global};
use std::mem;

/// A slot of the handoff queue. It holds the task of a process, or else a spare private state,
/// which takes the place of the process's own while that is here.
#[derive(Drop)]
pub struct Slot<'a, C: Course> {
    spare: Option<PrivateBox>,
    pub(crate) task: Option<Task<'a, C>>,
}

impl<'a, C: Course> Slot<'a, C> {
    /// A slot without a task.
    ///
    /// # Errors
    ///
    /// `AllocError` if memory runs out.
    pub fn empty(alloc: Global) -> Result<Slot<'a, C>, AllocError> {
        let spare = PrivateBox::new(alloc, Private::absent(alloc))?;
        Ok(Slot {
            spare: Some(spare),
            task: None,
        })
    }

    /// Publishes the turn of a process in a round, which is still to be made, and leaves the spare
    /// private state in the place of its own, where it doesn't rest.
    #[inline(always)]
    pub fn publish(&mut self, round: &OpenRound<'a, C>, process: usize, private: &mut PrivateBox)
        requires number { private.old.number ≡ process }
        requires at { slice_get round.now.start.value.items (process - 1)
            ≡ Some private.old }
        requires room { HasRoom C.most false private.old }
        ensures left { is_idle round.now.round_time.wakes private.new ≡ true
            → private.new ≡ private.old }
    {
        let Some(start) = &round.token else {
            return;
        };
        let Some(spare) = self.spare.take() else {
            return;
        };
        // No spare private state rests, but no contract says so.
        if spare.private().is_idle(round.round_time.wakes) {
            return;
        }
        let private = mem::replace(private, spare);
        self.task = Some(Task::new(round, start, process, private));
    }

    /// Takes the private state of a process after its private turns, of rounds from this one on,
    /// into its place, which the spare one leaves. Returns the number of turns. It is 0 if they
    /// aren't made, if they are more than `most`, or if these aren't turns of this process in this
    /// round.
    #[inline(always)]
    pub fn take(
        &mut self,
        round: &OpenRound<'a, C>,
        process: usize,
        most: u32,
        private: &mut PrivateBox,
    ) -> u32
        ensures few { result ≤ most }
        ensures taken { 0 < result
            → AreTaken (AreMade C.without_kernel C.turned C.round_time round.now.index result)
            (C.input (process - 1)) C.most round.now.start.value.items process private.new }
    {
        let Some(task) = self.task.take() else {
            return 0;
        };
        let Some((turns, found)) = task.finish(round, process, most) else {
            return 0;
        };
        self.spare = Some(mem::replace(private, found));
        turns
    }
}
