//! Applies the operators of terms in registers, to operands that `flat` evaluates.
//!
//! The compiler drops `inline(always)`, without a word, from functions that would grow very large.
//! So sums, differences, products, quotients and remainders have arms of their own, and all other
//! operators share one `apply`.

ghost use Rattle.std.specs.Prelude.{◌≡◌, ℕ, IfSome, Ok};
ghost use Rattle.cp_model.specs.Erase.{operator_of};
ghost use Rattle.cp_model_machine.specs.Values as values;
ghost use Rattle.cp_program.specs.Reaches.{apply_operation, view_with};
ghost use Rattle.cp_program.specs.View as view;

use crate::exact::{apply, difference, product, sum};
use crate::reach::{Memory, Words};
use crate::term::Application;
use cp_model::tree::Operator;

// An operator with the values of its operands.
#[derive(Clone, Copy)]
struct Operands {
    operator: Operator,
    left: i32,
    right: i32,
}

impl Operands {
    #[inline(always)]
    fn apply(self) -> Option<i32>
        ensures { IfSome result
            (λ n. values.apply (operator_of self.operator) self.left self.right ≡ Ok n) }
    {
        apply(self.operator, self.left, self.right)
    }
}

impl Application {
    // The value of a sum, difference, product, quotient or remainder of `left`, the value so far,
    // and a flat operand.
    #[inline(always)]
    fn arithmetic_value_after<W: Words>(
        &self,
        left: i32,
        memory: &Memory,
        shared: &[i32],
    ) -> Option<i32>
        ensures { (clock : ℕ) → IfSome result (λ n. apply_operation
            (view_with memory.now shared.now clock) left (view.application self.now) ≡ Ok n) }
    {
        match self {
            Application::AddNumber(n) => sum(left, *n),
            Application::SubtractNumber(n) => difference(left, *n),
            Application::MultiplyNumber(n) => product(left, *n),
            Application::DivideNumber(divisor) => divisor.quotient(left),
            Application::ModuloNumber(divisor) => Some(divisor.remainder(left)),
            Application::AddLocal(at) => sum(left, memory.fast_local::<W>(shared, *at)?),
            Application::AddMember(at) => sum(left, memory.fast_member::<W>(shared, *at)?),
            Application::SubtractLocal(at) => difference(
                left,
                memory.fast_local::<W>(shared, *at)?,
            ),
            Application::SubtractMember(at) => {
                difference(left, memory.fast_member::<W>(shared, *at)?)
            }
            Application::MultiplyLocal(at) => product(left, memory.fast_local::<W>(shared, *at)?),
            Application::MultiplyMember(at) => product(left, memory.fast_member::<W>(shared, *at)?),
            Application::LocalMinus(at) => {
                difference(memory.fast_local::<W>(shared, *at)?, left)
            }
            Application::MemberMinus(at) => {
                difference(memory.fast_member::<W>(shared, *at)?, left)
            }
            _ => None,
        }
    }

    // Any other operator with its operands, if the operand is flat.
    #[inline(always)]
    fn flat_operands<W: Words>(
        &self,
        left: i32,
        memory: &Memory,
        shared: &[i32],
    ) -> Option<Operands>
        ensures { (clock : ℕ) → IfSome result (λ x. apply_operation
            (view_with memory.now shared.now clock) left (view.application self.now)
            ≡ values.apply (operator_of x.operator) x.left x.right) }
    {
        match self {
            Application::WithNumber(operator, n) => Some(Operands {
                operator: *operator,
                left,
                right: *n,
            }),
            Application::WithLocal(operator, at) => Some(Operands {
                operator: *operator,
                left,
                right: memory.fast_local::<W>(shared, *at)?,
            }),
            Application::WithMember(operator, at) => Some(Operands {
                operator: *operator,
                left,
                right: memory.fast_member::<W>(shared, *at)?,
            }),
            Application::WithMade(operator, temp) => Some(Operands {
                operator: *operator,
                left,
                right: memory.made(*temp),
            }),
            Application::LocalBefore(operator, at) => Some(Operands {
                operator: *operator,
                left: memory.fast_local::<W>(shared, *at)?,
                right: left,
            }),
            Application::MemberBefore(operator, at) => Some(Operands {
                operator: *operator,
                left: memory.fast_member::<W>(shared, *at)?,
                right: left,
            }),
            _ => None,
        }
    }

    // Any other operator with its operands, if the operand is near.
    #[inline(always)]
    fn fast_operands<W: Words>(
        &self,
        left: i32,
        memory: &Memory,
        shared: &[i32],
    ) -> Option<Operands>
        ensures { (clock : ℕ) → IfSome result (λ x. apply_operation
            (view_with memory.now shared.now clock) left (view.application self.now)
            ≡ values.apply (operator_of x.operator) x.left x.right) }
    {
        match self {
            Application::WithOperand(operator, operand) => Some(Operands {
                operator: *operator,
                left,
                right: operand.further_value::<W>(memory, shared)?,
            }),
            _ => self.flat_operands::<W>(left, memory, shared),
        }
    }

    // The value of the operator, if the value so far is `left` and the operand is flat.
    #[inline(always)]
    pub(crate) fn flat_value_after<W: Words>(
        &self,
        left: i32,
        memory: &Memory,
        shared: &[i32],
    ) -> Option<i32>
        ensures { (clock : ℕ) → IfSome result (λ n. apply_operation
            (view_with memory.now shared.now clock) left (view.application self.now) ≡ Ok n) }
    {
        match self.arithmetic_value_after::<W>(left, memory, shared) {
            Some(n) => Some(n),
            None => self.flat_operands::<W>(left, memory, shared)?.apply(),
        }
    }

    // The value of the operator, if the value so far is `left` and the operand is near.
    #[inline(always)]
    pub(crate) fn fast_value_after<W: Words>(
        &self,
        left: i32,
        memory: &Memory,
        shared: &[i32],
    ) -> Option<i32>
        ensures { (clock : ℕ) → IfSome result (λ n. apply_operation
            (view_with memory.now shared.now clock) left (view.application self.now) ≡ Ok n) }
    {
        match self.arithmetic_value_after::<W>(left, memory, shared) {
            Some(n) => Some(n),
            None => self.fast_operands::<W>(left, memory, shared)?.apply(),
        }
    }
}
