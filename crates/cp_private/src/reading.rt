//! What evaluation reads of a private state, and the values and addresses that it finds.

ghost use Rattle.std.specs.Prelude.{◌≡◌, ℕ, List};
ghost use Rattle.cp_model_program.specs.Starts.{word};
ghost use Rattle.cp_private.specs.Keeping.{IsAddressable};
ghost use Rattle.cp_private.specs.States.{join, outside_of};
ghost use Rattle.cp_model_machine.specs.PrivateStates as plain;
ghost use Rattle.cp_model_machine.specs.Values.{place_of, value_of};
ghost use Rattle.cp_program.specs.Reaches.{cap_place, capped_result, view_of};
ghost use Rattle.cp_program.specs.View as view;

use crate::outside::StepContext;
use crate::private::Private;
use crate::words;
use cp_model::state::Fault;
use cp_program::element::Element;
use cp_program::reach::{OwnWords, Reach};
use cp_program::term::{PlaceExpression, Term};

impl Private {
    /// What evaluation reads.
    #[inline(always)]
    pub(crate) fn reach<'a>(&'a self, shared: &'a [i32], outside: &StepContext) -> Reach<'a>
        requires { IsAddressable shared.now }
        ensures { (input : List ℕ) (own : ℕ) → view_of result ≡ plain.view_of
            (outside_of outside.now own) (join self.now input shared.now) }
    {
        Reach {
            memory: &self.memory,
            shared,
            clock: outside.clock,
        }
    }

    /// The word at an address, which may be capped to the largest `usize`.
    #[inline(always)]
    pub(crate) fn word(&self, shared: &[i32], at: usize) -> i32
        requires { IsAddressable shared.now }
        ensures { (input : List ℕ) (place : ℕ) → cap_place place ≡ at → result ≡ word
            (join self.now input shared.now).words place }
    {
        words::read(&self.memory.words, shared, at)
    }

    // Terms that go deeper, or have a fault, are rare enough for a call and a result in memory.
    #[inline(never)]
    fn deep_value(&self, shared: &[i32], outside: &StepContext, term: &Term) -> Result<i32, Fault>
        requires { IsAddressable shared.now }
        ensures { (input : List ℕ) (own : ℕ) → result ≡ value_of
            (plain.view_of (outside_of outside.now own) (join self.now input shared.now))
            (view.term term.now) }
    {
        term.value(&self.reach(shared, outside))
    }

    #[inline(never)]
    fn deep_place(
        &self,
        shared: &[i32],
        outside: &StepContext,
        place_expression: &PlaceExpression,
    ) -> Result<usize, Fault>
        requires { IsAddressable shared.now }
        ensures { (input : List ℕ) (own : ℕ) → result ≡ capped_result (place_of
            (plain.view_of (outside_of outside.now own) (join self.now input shared.now))
            (view.place_expression place_expression.now)) }
    {
        place_expression.place(&self.reach(shared, outside))
    }

    /// The value of a term.
    #[inline(always)]
    pub(crate) fn evaluate(
        &self,
        shared: &[i32],
        outside: &StepContext,
        term: &Term,
    ) -> Result<i32, Fault>
        requires { IsAddressable shared.now }
        ensures { (input : List ℕ) (own : ℕ) → result ≡ value_of
            (plain.view_of (outside_of outside.now own) (join self.now input shared.now))
            (view.term term.now) }
    {
        // In a step of the kernel most words are shared. To look for them in registers too would
        // make a private call so large that the compiler doesn't inline it.
        if !shared.is_empty() {
            return term.value_here(&self.reach(shared, outside));
        }
        match term.fast_argument::<OwnWords>(&self.memory, shared) {
            Some(n) => Ok(n),
            None => self.deep_value(shared, outside, term),
        }
    }

    /// The address of a place expression. An address beyond all words may be capped to the largest
    /// `usize`.
    #[inline(always)]
    pub(crate) fn place(
        &self,
        shared: &[i32],
        outside: &StepContext,
        place_expression: &PlaceExpression,
    ) -> Result<usize, Fault>
        requires { IsAddressable shared.now }
        ensures { (input : List ℕ) (own : ℕ) → result ≡ capped_result (place_of
            (plain.view_of (outside_of outside.now own) (join self.now input shared.now))
            (view.place_expression place_expression.now)) }
    {
        if !shared.is_empty() {
            return place_expression.place(&self.reach(shared, outside));
        }
        match place_expression.fast_place::<OwnWords>(&self.memory, shared) {
            Some(at) => Ok(at),
            None => self.deep_place(shared, outside, place_expression),
        }
    }

    /// The address of an element.
    pub(crate) fn element_place(
        &self,
        shared: &[i32],
        outside: &StepContext,
        element: &Element,
    ) -> Result<usize, Fault>
        requires { IsAddressable shared.now }
        ensures { (input : List ℕ) (own : ℕ) → result ≡ capped_result (place_of
            (plain.view_of (outside_of outside.now own) (join self.now input shared.now))
            (view.element element.now)) }
    {
        element.place(&self.reach(shared, outside))
    }
}
