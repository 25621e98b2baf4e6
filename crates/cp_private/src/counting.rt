//! The steps of a `for`, whose counter and last value are in two temps.

ghost use Rattle.std.specs.Prelude.{◌≡◌, ◌+◌, MatchOption, FitsSigned};
ghost use Rattle.std.specs.Int.{w32};
ghost use Rattle.cp_model.specs.StatementSteps as statements;
ghost use Rattle.cp_model_program.specs.Starts.{word};
ghost use Rattle.cp_private.specs.Keeping.{IsAddressable, KeepsRest};
ghost use Rattle.cp_private.specs.States.{IsStep};
ghost use Rattle.cp_model_machine.specs.Steps as plain;
ghost use Rattle.cp_program.specs.View as view;

use crate::effect::Effect;
use crate::outside::StepContext;
use crate::private::Private;
use cp_model::state::Fault;
use cp_program::operation::Counting;
use cp_program::term::Term;

impl Private {
    // The temp at a place, or 0 if it is missing.
    #[inline(always)]
    pub(crate) fn temp_at(&self, at: usize) -> i32
        ensures { result ≡ word self.now.memory.temps.items at }
    {
        match self.memory.temps.get(at) {
            Some(n) => *n,
            None => 0,
        }
    }

    // Begins the body with the counter `n`.
    fn count_to(
        &mut self,
        shared: &mut [i32],
        outside: &StepContext,
        counting: &Counting,
        n: i32,
        last: i32,
    ) -> Result<Effect, Fault>
        requires { IsAddressable shared.old }
        ensures step { IsStep self.old shared.old outside.now self.new shared.new result
            (λ w o. plain.count_to w o (view.counting counting.now) n last) }
        ensures kept { KeepsRest self.old shared.old self.new shared.new }
    {
        if !counting.bounds.contain(n) {
            return Err(Fault::Range);
        }
        let at = self.reach(shared, outside).root_place(counting.variable);
        let temp = self.memory.temp + counting.temp as usize;
        self.set_word(shared, at, n);
        self.set_temp(temp, n);
        self.set_temp(temp + 1, last);
        self.counter = counting.body;
        Ok(Effect::None)
    }

    /// Begins a `for`, or passes it if there is nothing to count.
    pub(crate) fn count_from(
        &mut self,
        shared: &mut [i32],
        outside: &StepContext,
        counting: &Counting,
        first: &Term,
        last: &Term,
    ) -> Result<Effect, Fault>
        requires { IsAddressable shared.old }
        ensures step { IsStep self.old shared.old outside.now self.new shared.new result
            (λ w o. plain.with_value w o (view.term first.now) (λ n. plain.with_value w o
            (view.term last.now) (λ m. plain.first_count w o (view.counting
            counting.now) n m))) }
        ensures kept { KeepsRest self.old shared.old self.new shared.new }
    {
        let n = self.evaluate(shared, outside, first)?;
        let last = self.evaluate(shared, outside, last)?;
        if is_past(counting.down, n, last) {
            self.counter = counting.next;
            return Ok(Effect::None);
        }
        self.count_to(shared, outside, counting, n, last)
    }

    /// Goes to the next counter, or passes the `for` after its last value.
    pub(crate) fn count_on(
        &mut self,
        shared: &mut [i32],
        outside: &StepContext,
        counting: &Counting,
    ) -> Result<Effect, Fault>
        requires { IsAddressable shared.old }
        ensures step { IsStep self.old shared.old outside.now self.new shared.new result
            (λ w o. plain.next_count w o (view.counting counting.now) (word o.temps (o.temp +
            counting.now.temp)) (word o.temps (o.temp + counting.now.temp + 1))) }
        ensures kept { KeepsRest self.old shared.old self.new shared.new }
    {
        let temp = self.memory.temp + counting.temp as usize;
        let n = self.temp_at(temp);
        let last = self.temp_at(temp + 1);
        if n == last {
            self.counter = counting.next;
            return Ok(Effect::None);
        }
        match next_counter(counting.down, n) {
            Some(n) => self.count_to(shared, outside, counting, n, last),
            None => Err(Fault::Range),
        }
    }
}

fn is_past(down: bool, n: i32, last: i32) -> bool
    ensures { result ≡ statements.is_past down n last }
{
    if down { n < last } else { last < n }
}

// The next counter, if it fits in 32 bits.
#[inline(always)]
pub(crate) fn next_counter(down: bool, n: i32) -> Option<i32>
    ensures { MatchOption result (FitsSigned w32 (statements.next_counter down n) → ⊥)
        (λ m. m ≡ statements.next_counter down n) }
{
    if down {
        n.checked_sub(1)
    } else {
        n.checked_add(1)
    }
}
