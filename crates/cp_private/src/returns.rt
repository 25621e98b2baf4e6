//! Returns from routines and bodies, and `continue`, which returns.

ghost use Rattle.cp_private.specs.Keeping.{IsAddressable, KeepsOwn, KeepsRest};
ghost use Rattle.cp_private.specs.States.{IsStep};
ghost use Rattle.cp_model_machine.specs.Calling as calling;
ghost use Rattle.cp_model_machine.specs.PrivateStates.{Leaves};
ghost use Rattle.cp_model_machine.specs.Steps as plain;
ghost use Rattle.cp_program.specs.View as view;

use crate::effect::Effect;
use crate::frames::leaves;
use crate::outside::StepContext;
use crate::private::Private;
use cp_model::state::Fault;
use cp_program::term::PlaceExpression;

impl Private {
    /// Returns from the running routine. It is a fault if a function has set no result.
    #[inline(always)]
    pub(crate) fn leave_routine(
        &mut self,
        shared: &[i32],
        outside: &StepContext,
        function: bool,
    ) -> Result<Effect, Fault>
        requires { IsAddressable shared.now }
        ensures step { IsStep self.old shared.now outside.now self.new shared.now result
            (λ w o. calling.with_frame o o.frames (λ f fs. calling.return_with o o f fs function
            (calling.gate_effect f.gate Leaves))) }
        ensures kept { KeepsOwn self.old self.new }
    {
        let Some(frame) = self.innermost() else {
            return Ok(Effect::None);
        };
        let value = self.value_to_return(shared, function)?;
        self.return_to(frame, value);
        Ok(leaves(frame.gate))
    }

    /// Ends the body of a component.
    pub(crate) fn end_body(
        &mut self,
        shared: &[i32],
        outside: &StepContext,
    ) -> Result<Effect, Fault>
        requires { IsAddressable shared.now }
        ensures step { IsStep self.old shared.now outside.now self.new shared.now result
            (λ w o. calling.with_frame o o.frames (λ f fs. (
              calling.leave o f fs,
              calling.gate_effect f.gate Leaves,
            ))) }
        ensures kept { KeepsOwn self.old self.new }
    {
        let Some(frame) = self.innermost() else {
            return Ok(Effect::None);
        };
        self.return_to(frame, None);
        Ok(leaves(frame.gate))
    }

    /// Resumes the process that waits in a queue, if there is one, and returns from the running
    /// routine. Does nothing if that routine has entered no monitor.
    pub(crate) fn leave_by_continue(
        &mut self,
        shared: &mut [i32],
        outside: &StepContext,
        queue: &PlaceExpression,
        function: bool,
    ) -> Result<Effect, Fault>
        requires { IsAddressable shared.old }
        ensures step { IsStep self.old shared.old outside.now self.new shared.new result
            (λ w o. plain.with_place w o (view.place_expression queue.now) (λ at. plain.continue o at
            function)) }
        ensures kept { KeepsRest self.old shared.old self.new shared.new }
    {
        let at = self.place(shared, outside, queue)?;
        let Some(frame) = self.innermost() else {
            return Ok(Effect::None);
        };
        if frame.gate == 0 {
            return Ok(Effect::None);
        }
        let value = self.value_to_return(shared, function)?;
        let resumed = self.word(shared, at);
        self.return_to(frame, value);
        self.set_word(shared, at, 0);
        Ok(Effect::Continues {
            monitor: frame.gate,
            resumed,
        })
    }
}
