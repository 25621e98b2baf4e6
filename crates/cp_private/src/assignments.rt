//! Assignments, and the operations that choose which operation comes next.

ghost use Rattle.std.specs.Prelude.{◌≡◌, ℕ, pos, List, if◌then◌else◌};
ghost use Rattle.cp_model_program.specs.Programs as code;
ghost use Rattle.cp_model_program.specs.Tables.{place_in};
ghost use Rattle.cp_model_program.specs.Terms.{Rooted};
ghost use Rattle.cp_model.specs.Integers.{same_integer};
ghost use Rattle.cp_model_machine.specs.Steps as plain;
ghost use Rattle.cp_model_machine.specs.PrivateStates.{go_to, private_outcome};
ghost use Rattle.cp_private.specs.Assigning.{assign};
ghost use Rattle.cp_private.specs.Keeping.{IsAddressable, KeepsOwn, KeepsRest};
ghost use Rattle.cp_private.specs.States.{IsStep, Represents, join, outcome};
ghost use Rattle.cp_program.specs.Reaches.{cap_place};
ghost use Rattle.cp_program.specs.View as view;

use crate::effect::Effect;
use crate::outside::StepContext;
use crate::private::Private;
use cp_model::state::Fault;
use cp_program::element::Element;
use cp_program::operation::{Assignment, Table, Then};
use cp_program::term::{PlaceExpression, Root, Term};

impl Private {
    // The address may be capped to the largest `usize`.
    #[inline(always)]
    fn set_within(
        &mut self,
        shared: &mut [i32],
        at: usize,
        n: i32,
        assignment: &Assignment,
    ) -> Result<Effect, Fault>
        requires { IsAddressable shared.old }
        ensures step { (input : List ℕ) (place : ℕ) → cap_place place ≡ at
            → outcome (join self.new input shared.new) result ≡ assign assignment.now
            (join self.old input shared.old) place n }
        ensures kept { KeepsRest self.old shared.old self.new shared.new }
        ensures represents { Represents self.old self.new }
    {
        if !assignment.bounds.contain(n) {
            return Err(Fault::Range);
        }
        self.set_word(shared, at, n);
        self.counter = assignment.next;
        Ok(Effect::None)
    }

    #[inline(never)]
    pub(crate) fn set(
        &mut self,
        shared: &mut [i32],
        outside: &StepContext,
        to: &PlaceExpression,
        value: &Term,
        assignment: &Assignment,
    ) -> Result<Effect, Fault>
        requires { IsAddressable shared.old }
        ensures step { IsStep self.old shared.old outside.now self.new shared.new result
            (λ w o. plain.with_place w o (view.place_expression to.now) (λ at. plain.with_value w o
            (view.term value.now) (λ n. assign assignment.now o at n))) }
        ensures kept { KeepsRest self.old shared.old self.new shared.new }
        ensures represents { Represents self.old self.new }
    {
        let at = self.place(shared, outside, to)?;
        let n = self.evaluate(shared, outside, value)?;
        self.set_within(shared, at, n, assignment)
    }

    /// Sets an element whose place needs no loop.
    #[inline(never)]
    pub(crate) fn set_element(
        &mut self,
        shared: &mut [i32],
        outside: &StepContext,
        to: &Element,
        value: &Term,
        assignment: &Assignment,
    ) -> Result<Effect, Fault>
        requires { IsAddressable shared.old }
        ensures step { IsStep self.old shared.old outside.now self.new shared.new result
            (λ w o. plain.with_place w o (view.element to.now) (λ at. plain.with_value w o
            (view.term value.now) (λ n. assign assignment.now o at n))) }
        ensures kept { KeepsRest self.old shared.old self.new shared.new }
    {
        let at = self.element_place(shared, outside, to)?;
        let n = self.evaluate(shared, outside, value)?;
        self.set_within(shared, at, n, assignment)
    }

    /// Sets a whole variable.
    #[inline(never)]
    pub(crate) fn set_root(
        &mut self,
        shared: &mut [i32],
        outside: &StepContext,
        root: Root,
        value: &Term,
        assignment: &Assignment,
    ) -> Result<Effect, Fault>
        requires { IsAddressable shared.old }
        ensures step { IsStep self.old shared.old outside.now self.new shared.new result
            (λ w o. plain.with_place w o (Rooted (view.root root)) (λ at. plain.with_value w o
            (view.term value.now) (λ n. assign assignment.now o at n))) }
        ensures kept { KeepsRest self.old shared.old self.new shared.new }
    {
        let at = self.reach(shared, outside).root_place(root);
        let n = self.evaluate(shared, outside, value)?;
        self.set_within(shared, at, n, assignment)
    }

    #[inline(never)]
    pub(crate) fn set_result(
        &mut self,
        shared: &mut [i32],
        outside: &StepContext,
        value: &Term,
        assignment: &Assignment,
    ) -> Result<Effect, Fault>
        requires { IsAddressable shared.old }
        ensures step { IsStep self.old shared.old outside.now self.new shared.new result
            (λ w o. plain.with_value w o (view.term value.now) (λ n.
            assign assignment.now o o.base n)) }
        ensures kept { KeepsRest self.old shared.old self.new shared.new }
    {
        let n = self.evaluate(shared, outside, value)?;
        let at = self.memory.base;
        self.set_within(shared, at, n, assignment)
    }

    pub(crate) fn copy_words(
        &mut self,
        shared: &mut [i32],
        outside: &StepContext,
        to: &PlaceExpression,
        from: &PlaceExpression,
        size: u32,
        next: u32,
    ) -> Result<Effect, Fault>
        requires { IsAddressable shared.old }
        ensures step { IsStep self.old shared.old outside.now self.new shared.new result
            (λ w o. plain.with_place w o (view.place_expression to.now) (λ at. plain.with_place w o
            (view.place_expression from.now) (λ b. plain.copy_words o at b size next))) }
        ensures kept { KeepsRest self.old shared.old self.new shared.new }
    {
        let at = self.place(shared, outside, to)?;
        let from = self.place(shared, outside, from)?;
        self.move_words(shared, at, from, size as usize);
        self.counter = next;
        Ok(Effect::None)
    }

    #[inline(never)]
    pub(crate) fn test(
        &mut self,
        shared: &[i32],
        outside: &StepContext,
        value: &Term,
        yes: u32,
        no: u32,
    ) -> Result<Effect, Fault>
        requires { IsAddressable shared.now }
        ensures step { IsStep self.old shared.now outside.now self.new shared.now result
            (λ w o. plain.with_value w o (view.term value.now) (λ n. private_outcome (go_to (if
            same_integer n (pos 1) then yes else no) o))) }
        ensures kept { KeepsOwn self.old self.new }
    {
        let n = self.evaluate(shared, outside, value)?;
        self.counter = if n == 1 { yes } else { no };
        Ok(Effect::None)
    }

    /// Evaluates a term, and does with the value what is to be done with it.
    #[inline(always)]
    pub(crate) fn evaluate_then(
        &mut self,
        shared: &mut [i32],
        outside: &StepContext,
        value: &Term,
        after: &Then,
    ) -> Result<Effect, Fault>
        requires { IsAddressable shared.old }
        ensures step { (program : code.Program) → IsStep self.old shared.old outside.now
            self.new shared.new result (λ w o. plain.act program w o
            (view.evaluation (view.term value.now) after.now)) }
        ensures kept { KeepsRest self.old shared.old self.new shared.new }
    {
        match after {
            Then::Set { to, assignment } => self.set(shared, outside, to, value, assignment),
            Then::SetLocal { at, assignment } => {
                self.set_root(shared, outside, Root::Local(*at), value, assignment)
            }
            Then::SetMember { at, assignment } => {
                self.set_root(shared, outside, Root::Member(*at), value, assignment)
            }
            Then::SetElement { to, assignment } => {
                self.set_element(shared, outside, to, value, assignment)
            }
            Then::SetResult(assignment) => self.set_result(shared, outside, value, assignment),
            Then::Test { yes, no } => self.test(shared, outside, value, *yes, *no),
        }
    }

    pub(crate) fn choose(
        &mut self,
        shared: &[i32],
        outside: &StepContext,
        value: &Term,
        table: &Table,
    ) -> Result<Effect, Fault>
        requires { IsAddressable shared.now }
        ensures step { IsStep self.old shared.now outside.now self.new shared.now result
            (λ w o. plain.with_value w o (view.term value.now) (λ n. plain.go_to_arm o (place_in
            (view.table table.now) n))) }
        ensures kept { KeepsOwn self.old self.new }
    {
        let n = self.evaluate(shared, outside, value)?;
        match table.place(n) {
            Some(next) => {
                self.counter = next;
                Ok(Effect::None)
            }
            None => Err(Fault::NoLabel),
        }
    }

    /// Continues with the operation `next`.
    #[inline(always)]
    pub(crate) fn go_to(
        &mut self,
        shared: &[i32],
        outside: &StepContext,
        next: u32,
    ) -> Result<Effect, Fault>
        ensures step { IsStep self.old shared.now outside.now self.new shared.now result
            (λ w o. private_outcome (go_to next o)) }
        ensures kept { KeepsOwn self.old self.new }
    {
        self.counter = next;
        Ok(Effect::None)
    }
}
