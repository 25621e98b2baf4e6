//! The arguments of calls and of `init`.

ghost use Rattle.std.specs.Prelude.{◌≡◌, ◌+◌, ◌<◌, ◌^◌, ℕ, List, None, map};
ghost use Rattle.cp_private.specs.Keeping.{ChangesOnlyWords, IsAddressable};
ghost use Rattle.cp_private.specs.Calls.{passing_of};
ghost use Rattle.cp_private.specs.States.{join, outside_of};
ghost use Rattle.cp_model_machine.specs.Passing as plain;
ghost use Rattle.cp_model_machine.specs.PrivateStates.{view_of};
ghost use Rattle.cp_model_machine.specs.Values.{place_of, value_of};
ghost use Rattle.cp_program.specs.Reaches.{cap_place};
ghost use Rattle.cp_program.specs.View as view;

use crate::outside::StepContext;
use crate::private::Private;
use cp_model::state::Fault;
use cp_program::bounds::Bounds;
use cp_program::operation::{Argument, Target};
use cp_program::term::{PlaceExpression, Term};

/// Where arguments are put: the address of the first word there, and the address of the first
/// word of the activation or component that they belong to in the end.
#[derive(Clone, Copy)]
pub(crate) struct Destination {
    pub(crate) to: usize,
    pub(crate) home: usize,
    ghost small: { (to < 2 ^ 35) × (home < 2 ^ 35) },
}

impl Private {
    // The bounds and the place are read once the value is known, so that they needn't be kept while
    // it is evaluated.
    #[inline(always)]
    fn pass_value(
        &mut self,
        shared: &mut [i32],
        outside: &StepContext,
        to: usize,
        far: &u32,
        bounds: &Bounds,
        term: &Term,
    ) -> Result<(), Fault>
        requires shared { IsAddressable shared.old }
        requires to { to < 2 ^ 35 }
        ensures step { (own : ℕ) → let o = join self.old outside.now.input.now shared.old in
            passing_of (join self.new outside.now.input.now shared.new) result ≡ plain.pass_result o
            (value_of (view_of (outside_of outside.now own) o) (view.term term.now))
            (λ n. plain.pass_value o (to + far.now) bounds.now.low bounds.now.high n) }
        ensures kept { ChangesOnlyWords self.old shared.old self.new shared.new }
    {
        let n = self.evaluate(shared, outside, term)?;
        if !bounds.contain(n) {
            return Err(Fault::Range);
        }
        self.set_word(shared, to + *far as usize, n);
        Ok(())
    }

    #[inline(always)]
    fn pass_copy(
        &mut self,
        shared: &mut [i32],
        outside: &StepContext,
        at: usize,
        size: u32,
        from: &PlaceExpression,
    ) -> Result<(), Fault>
        requires shared { IsAddressable shared.old }
        requires at { at < 2 ^ 36 }
        ensures step { (own : ℕ) → let o = join self.old outside.now.input.now shared.old in
            passing_of (join self.new outside.now.input.now shared.new) result ≡ plain.pass_result o
            (place_of (view_of (outside_of outside.now own) o) (view.place_expression from.now))
            (λ a. plain.pass_copy o at size a) }
        ensures kept { ChangesOnlyWords self.old shared.old self.new shared.new }
    {
        let from = self.place(shared, outside, from)?;
        self.move_words(shared, at, from, size as usize);
        Ok(())
    }

    // An address as a word, or 0 if it is beyond all words.
    fn reference_word(&self, shared: &[i32], at: usize) -> i32
        requires { IsAddressable shared.now }
        ensures { (input : List ℕ) (place : ℕ) → cap_place place ≡ at
            → result ≡ plain.reference_word (join self.now input shared.now) place }
    {
        if at <= self.memory.words.len() + shared.len() {
            at as i32
        } else {
            0
        }
    }

    #[inline(always)]
    fn pass_reference(
        &mut self,
        shared: &mut [i32],
        outside: &StepContext,
        at: usize,
        to: &PlaceExpression,
    ) -> Result<(), Fault>
        requires shared { IsAddressable shared.old }
        requires at { at < 2 ^ 36 }
        ensures step { (own : ℕ) → let o = join self.old outside.now.input.now shared.old in
            passing_of (join self.new outside.now.input.now shared.new) result ≡ plain.pass_result o
            (place_of (view_of (outside_of outside.now own) o) (view.place_expression to.now))
            (λ a. plain.pass_word o at (plain.reference_word o a)) }
        ensures kept { ChangesOnlyWords self.old shared.old self.new shared.new }
    {
        let place = self.place(shared, outside, to)?;
        let word = self.reference_word(shared, place);
        self.set_word(shared, at, word);
        Ok(())
    }

    #[inline(always)]
    fn pass_right(&mut self, shared: &mut [i32], at: usize, home: usize, of: Target)
        requires shared { IsAddressable shared.old }
        requires at { at < 2 ^ 36 }
        ensures step { (input : List ℕ) → let o = join self.old input shared.old in
            plain.pass_word o at (plain.right_word o home (view.target of))
            ≡ record { own = join self.new input shared.new; fault = None } }
        ensures kept { ChangesOnlyWords self.old shared.old self.new shared.new }
    {
        let word = self.right_word(shared, home, of);
        self.set_word(shared, at, word);
    }

    // Passes any argument. Most are values, and the others would take registers from these.
    #[inline(never)]
    fn pass_any(
        &mut self,
        shared: &mut [i32],
        outside: &StepContext,
        destination: Destination,
        argument: &Argument,
    ) -> Result<(), Fault>
        requires { IsAddressable shared.old }
        ensures step { (own : ℕ)
            → passing_of (join self.new outside.now.input.now shared.new) result
            ≡ plain.pass_one (outside_of outside.now own) destination.to destination.home
            (join self.old outside.now.input.now shared.old) (view.argument argument.now) }
        ensures kept { ChangesOnlyWords self.old shared.old self.new shared.new }
    {
        let Destination { to, home } = destination;
        match argument {
            Argument::Value { at, bounds, term } => {
                self.pass_value(shared, outside, to, at, bounds, term)
            }
            Argument::Copy { at, size, from } => {
                self.pass_copy(shared, outside, to + *at as usize, *size, from)
            }
            Argument::Reference {
                at,
                to: place_expression,
            } => { self.pass_reference(shared, outside, to + *at as usize, place_expression) }
            Argument::Right { at, of } => {
                let far = *at as usize;
                self.pass_right(shared, to + far, home + far, *of);
                Ok(())
            }
        }
    }

    /// Passes arguments from the first one on. A fault ends the passing, and the words passed
    /// before it stay.
    #[inline(always)]
    pub(crate) fn pass_all(
        &mut self,
        shared: &mut [i32],
        outside: &StepContext,
        destination: Destination,
        arguments: &[Argument],
    ) -> Result<(), Fault>
        requires { IsAddressable shared.old }
        ensures step { (own : ℕ)
            → passing_of (join self.new outside.now.input.now shared.new) result
            ≡ plain.pass_all (outside_of outside.now own) destination.to destination.home
            (map view.argument arguments.now)
            (join self.old outside.now.input.now shared.old) }
        ensures kept { ChangesOnlyWords self.old shared.old self.new shared.new }
    {
        let mut left = arguments;
        while let Some((argument, after)) = left.split_first() {
            match argument {
                Argument::Value { at, bounds, term } => {
                    self.pass_value(shared, outside, destination.to, at, bounds, term)?
                }
                _ => self.pass_any(shared, outside, destination, argument)?,
            }
            left = after;
        }
        Ok(())
    }
}
