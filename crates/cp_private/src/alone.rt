//! What a private step reads besides its process's state: nothing of the kernel.

ghost use Rattle.std.specs.Prelude.{◌≡◌};
ghost use Rattle.cp_private.specs.States.{IsAlone};

use crate::outside::StepContext;

impl<'a> StepContext<'a> {
    pub(crate) fn alone(input: &'a [u8], clock: u64) -> StepContext<'a>
        ensures alone { IsAlone result }
        ensures input { result.input.now ≡ input.now }
        ensures clock { result.clock ≡ clock }
    {
        StepContext {
            clock,
            input,
            gates: &[],
            stages: &[],
        }
    }
}
