//! The commonest steps, made in registers.
//!
//! A step that isn't made here, because it faults or its terms go deeper, has changed nothing. It
//! is then made like any other step. `W` says whether shared words are looked for.

ghost use Rattle.std.specs.Prelude.{◌≡◌, ℕ, ◌+◌, false, true, None, IfSome, Ok};
ghost use Rattle.cp_private.specs.Assigning.{assign};
ghost use Rattle.cp_private.specs.Keeping.{IsAddressable, KeepsOwn, KeepsRest};
ghost use Rattle.cp_private.specs.FastStep.{Makes, Stays};
ghost use Rattle.cp_private.specs.States.{Represents};
ghost use Rattle.cp_private.specs.declared.fast_step.FastPath.TheVariants as fast_path_case;
ghost use Rattle.cp_model_machine.specs.Calling as calling;
ghost use Rattle.cp_model_machine.specs.PrivateStates.{Leaves, NoEffect};
ghost use Rattle.cp_model_machine.specs.Steps as plain;
ghost use Rattle.cp_model_machine.specs.Values.{value_of};
ghost use Rattle.cp_program.specs.Reaches.{view_with};
ghost use Rattle.cp_program.specs.View as view;
ghost use Rattle.cp_model_program.specs.Programs as code;
ghost use Rattle.cp_model_program.specs.Starts.{word};
ghost use Rattle.cp_model_program.specs.Terms as terms;

use crate::counting::next_counter;
use crate::private::Private;
use cp_program::operation::{Assignment, Counting, Operation, Then};
use cp_program::reach::Words;
use cp_program::term::{PlaceExpression, Term};

/// What became of a step that was tried in registers.
#[derive(Clone, Copy)]
pub(crate) enum FastPath {
    Made,
    /// Not made: the operation calls a routine.
    Calls,
    /// Not made: the operation is rare, or its terms go deeper or fault.
    Rare,
}

#[inline(always)]
fn fast_path_of(is_made: bool) -> FastPath
    ensures made { result ≡ fast_path_case.Made → is_made ≡ true }
    ensures rare { (result ≡ fast_path_case.Made → ⊥) → is_made ≡ false }
{
    if is_made {
        FastPath::Made
    } else {
        FastPath::Rare
    }
}

impl Private {
    // Writes a word, if the value is within its bounds.
    #[inline(always)]
    fn write_within(
        &mut self,
        shared: &mut [i32],
        at: usize,
        n: i32,
        assignment: &Assignment,
    ) -> bool
        requires { IsAddressable shared.old }
        ensures step { result ≡ true
            → Makes (λ w o. assign assignment.now o at n)
            self.old shared.old self.new shared.new NoEffect }
        ensures same { result ≡ false → Stays self.old shared.old self.new shared.new }
        ensures kept { KeepsRest self.old shared.old self.new shared.new }
        ensures represents { Represents self.old self.new }
    {
        if !assignment.bounds.contain(n) {
            return false;
        }
        self.set_word(shared, at, n);
        self.counter = assignment.next;
        true
    }

    // Does with the value `n` of a term what is to be done with it.
    #[inline(always)]
    fn use_fast<W: Words>(&mut self, shared: &mut [i32], n: i32, after: &Then) -> bool
        requires { IsAddressable shared.old }
        ensures step { result ≡ true → (value : terms.Term) (program : code.Program)
            → ((clock : ℕ) → value_of (view_with self.old.memory shared.old clock) value ≡ Ok n)
            → Makes (λ w o. plain.act program w o (view.evaluation value after.now))
            self.old shared.old self.new shared.new NoEffect }
        ensures same { result ≡ false → Stays self.old shared.old self.new shared.new }
        ensures kept { KeepsRest self.old shared.old self.new shared.new }
        ensures represents { Represents self.old self.new }
    {
        match after {
            Then::SetLocal { at, assignment } => {
                let at = self.memory.local(*at);
                self.write_within(shared, at, n, assignment)
            }
            Then::SetMember { at, assignment } => {
                let at = self.memory.member(*at);
                self.write_within(shared, at, n, assignment)
            }
            Then::SetElement { to, assignment } => {
                let Some(at) = to.fast_place::<W>(&self.memory, shared) else {
                    return false;
                };
                self.write_within(shared, at, n, assignment)
            }
            Then::Set { to, assignment } => {
                let Some(at) = to.fast_place::<W>(&self.memory, shared) else {
                    return false;
                };
                self.write_within(shared, at, n, assignment)
            }
            Then::SetResult(assignment) => {
                let at = self.memory.base;
                self.write_within(shared, at, n, assignment)
            }
            Then::Test { yes, no } => {
                self.counter = if n == 1 { *yes } else { *no };
                true
            }
        }
    }

    // Evaluates a term, and does with the value what is to be done with it.
    #[inline(always)]
    fn evaluate_fast<W: Words>(&mut self, shared: &mut [i32], value: &Term, after: &Then) -> bool
        requires { IsAddressable shared.old }
        ensures step { result ≡ true → (program : code.Program)
            → Makes (λ w o. plain.act program w o (view.evaluation (view.term value.now) after.now))
            self.old shared.old self.new shared.new NoEffect }
        ensures same { result ≡ false → Stays self.old shared.old self.new shared.new }
        ensures kept { KeepsRest self.old shared.old self.new shared.new }
        ensures represents { Represents self.old self.new }
    {
        // The value and the place are both found or nothing is done, so the place needn't be kept
        // while the value is found.
        let Some(n) = value.fast_value::<W>(&self.memory, shared) else {
            return false;
        };
        self.use_fast::<W>(shared, n, after)
    }

    #[inline(always)]
    fn copy_fast<W: Words>(
        &mut self,
        shared: &mut [i32],
        to: &PlaceExpression,
        from: &PlaceExpression,
        size: &u32,
        next: &u32,
    ) -> bool
        requires { IsAddressable shared.old }
        ensures step { result ≡ true → Makes (λ w o. plain.with_place w o (view.place_expression to.now) (λ at.
            plain.with_place w o (view.place_expression from.now) (λ b.
            plain.copy_words o at b size.now next.now)))
            self.old shared.old self.new shared.new NoEffect }
        ensures same { result ≡ false → Stays self.old shared.old self.new shared.new }
        ensures kept { KeepsRest self.old shared.old self.new shared.new }
        ensures represents { Represents self.old self.new }
    {
        let Some(at) = to.fast_place::<W>(&self.memory, shared) else {
            return false;
        };
        let Some(from) = from.fast_place::<W>(&self.memory, shared) else {
            return false;
        };
        self.move_words(shared, at, from, *size as usize);
        self.counter = *next;
        true
    }

    // Goes to the next counter, if its variable is found. The last counter stays where it is.
    #[inline(always)]
    fn count_fast<W: Words>(&mut self, shared: &mut [i32], counting: &Counting) -> bool
        requires { IsAddressable shared.old }
        ensures step { result ≡ true
            → Makes (λ w o. plain.next_count w o (view.counting counting.now)
            (word o.temps (o.temp + counting.now.temp))
            (word o.temps (o.temp + counting.now.temp + 1)))
            self.old shared.old self.new shared.new NoEffect }
        ensures same { result ≡ false → Stays self.old shared.old self.new shared.new }
        ensures kept { KeepsRest self.old shared.old self.new shared.new }
        ensures represents { Represents self.old self.new }
    {
        let temp = self.memory.temp + counting.temp as usize;
        let n = self.temp_at(temp);
        let last = self.temp_at(temp + 1);
        if n == last {
            self.counter = counting.next;
            return true;
        }
        let Some(n) = next_counter(counting.down, n) else {
            return false;
        };
        if !counting.bounds.contain(n) {
            return false;
        }
        let Some(at) = self.memory.fast_root_place::<W>(shared, counting.variable) else {
            return false;
        };
        self.set_word(shared, at, n);
        self.set_temp(temp, n);
        self.counter = counting.body;
        true
    }

    /// Returns from the running routine to a caller that holds no gate. Returns the gate that is
    /// left, which is 0 if there is none, or `None` if the step wasn't made.
    #[inline(always)]
    pub(crate) fn return_fast(&mut self, shared: &[i32], function: bool) -> Option<u32>
        requires { IsAddressable shared.now }
        ensures step { IfSome result (λ gate. Makes (λ w o.
            calling.with_frame o o.frames (λ f fs. calling.return_with o o f fs function
            (calling.gate_effect f.gate Leaves))) self.old shared.now self.new shared.now
            (calling.gate_effect gate Leaves)) }
        ensures same { result ≡ None → self.new ≡ self.old }
        ensures kept { KeepsOwn self.old self.new }
        ensures activity { self.new.activity ≡ self.old.activity }
        ensures free { self.old.gate ≡ 0 → self.new.gate ≡ 0 }
    {
        let Some(frame) = self.innermost() else {
            return None;
        };
        if frame.held != 0 {
            return None;
        }
        let Ok(value) = self.value_to_return(shared, function) else {
            return None;
        };
        self.return_to(frame, value);
        Some(frame.gate)
    }

    /// Makes the step of an operation, if that takes no more than registers. Otherwise changes
    /// nothing.
    #[inline(always)]
    pub(crate) fn take_fast_step<W: Words>(
        &mut self,
        shared: &mut [i32],
        operation: &Operation,
    ) -> FastPath
        requires { IsAddressable shared.old }
        ensures step { result ≡ fast_path_case.Made → (program : code.Program)
            → Makes (λ w o. plain.act program w o (view.operation operation.now))
            self.old shared.old self.new shared.new NoEffect }
        ensures private { result ≡ fast_path_case.Made
            → plain.is_kernel_operation (view.operation operation.now) ≡ false }
        ensures same { (result ≡ fast_path_case.Made → ⊥)
            → Stays self.old shared.old self.new shared.new }
        ensures kept { KeepsRest self.old shared.old self.new shared.new }
        ensures represents { Represents self.old self.new }
    {
        match operation {
            Operation::Evaluate { value, then } => {
                fast_path_of(self.evaluate_fast::<W>(shared, value, then))
            }
            Operation::Cycle { body } => {
                self.counter = *body;
                FastPath::Made
            }
            Operation::ForNext(counting) => fast_path_of(self.count_fast::<W>(shared, counting)),
            Operation::CopyWords {
                to,
                from,
                size,
                next,
            } => fast_path_of(self.copy_fast::<W>(shared, to, from, size, next)),
            Operation::Procedure { .. } | Operation::Function { .. } => FastPath::Calls,
            _ => FastPath::Rare,
        }
    }
}
