//! Arithmetic that finds a result in range, or nothing if there is a fault. Such a result fits
//! registers.

ghost use Rattle.std.specs.Prelude.{◌≡◌, IfSome, Ok};
ghost use Rattle.cp_model_program.specs.Functions as functions;
ghost use Rattle.cp_model.specs.Abstract as abstract;
ghost use Rattle.cp_model.specs.Erase.{operator_of};
ghost use Rattle.cp_model_machine.specs.Values as values;

use crate::arithmetic::{FIRST, LAST, truth};
use crate::divisor::Divisor;
use cp_model::tree::Operator;

#[inline(always)]
fn in_range(n: i64) -> Option<i32>
    ensures { IfSome result (λ m. functions.in_range n ≡ Ok m) }
{
    if FIRST <= n && n <= LAST {
        Some(n as i32)
    } else {
        None
    }
}

#[inline(always)]
pub(crate) fn sum(a: i32, b: i32) -> Option<i32>
    ensures { IfSome result (λ m. values.apply abstract.Add a b ≡ Ok m) }
{
    in_range(i64::from(a) + i64::from(b))
}

#[inline(always)]
pub(crate) fn difference(a: i32, b: i32) -> Option<i32>
    ensures { IfSome result (λ m. values.apply abstract.Subtract a b ≡ Ok m) }
{
    in_range(i64::from(a) - i64::from(b))
}

#[inline(always)]
pub(crate) fn product(a: i32, b: i32) -> Option<i32>
    ensures { IfSome result (λ m. values.apply abstract.Multiply a b ≡ Ok m) }
{
    in_range(i64::from(a) * i64::from(b))
}

#[inline(always)]
fn quotient(a: i32, b: i32) -> Option<i32>
    ensures { IfSome result (λ m. values.apply abstract.Divide a b ≡ Ok m) }
{
    if b == 0 || b == -1 {
        return None;
    }
    in_range(i64::from(a / b))
}

#[inline(always)]
fn remainder(a: i32, b: i32) -> Option<i32>
    ensures { IfSome result (λ m. values.apply abstract.Modulo a b ≡ Ok m) }
{
    if b == 0 || b == -1 {
        return None;
    }
    in_range(i64::from(a % b))
}

impl Divisor {
    #[inline(always)]
    pub(crate) fn quotient(self, a: i32) -> Option<i32>
        ensures { IfSome result (λ m. values.apply abstract.Divide a self.number ≡ Ok m) }
    {
        in_range(i64::from(a / self.number()))
    }

    #[inline(always)]
    pub(crate) fn remainder(self, a: i32) -> i32
        ensures { values.apply abstract.Modulo a self.number ≡ Ok result }
    {
        a % self.number()
    }
}

#[inline(always)]
pub(crate) fn apply(operator: Operator, a: i32, b: i32) -> Option<i32>
    ensures { IfSome result (λ m. values.apply (operator_of operator) a b ≡ Ok m) }
{
    match operator {
        Operator::Add => sum(a, b),
        Operator::Subtract => difference(a, b),
        Operator::Multiply => product(a, b),
        Operator::Divide => quotient(a, b),
        Operator::Modulo => remainder(a, b),
        Operator::And => Some(truth(a == 1 && b == 1)),
        Operator::Or => Some(truth(a == 1 || b == 1)),
        Operator::Equal => Some(truth(a == b)),
        Operator::Unequal => Some(truth(a != b)),
        Operator::Less => Some(truth(a < b)),
        Operator::Greater => Some(truth(b < a)),
        Operator::AtMost => Some(truth(a <= b)),
        Operator::AtLeast => Some(truth(b <= a)),
    }
}
