//! The values of operators and standard functions, and their faults.

ghost use Rattle.std.specs.Prelude.{◌≡◌};
ghost use Rattle.cp_model_program.specs.Functions as functions;
ghost use Rattle.cp_model_program.specs.Terms as terms;
ghost use Rattle.cp_model.specs.Abstract as abstract;
ghost use Rattle.cp_model.specs.Erase.{operator_of};
ghost use Rattle.cp_model.specs.Places.{within};
ghost use Rattle.cp_model.specs.declared.state.Fault.TheVariants as fault;
ghost use Rattle.cp_model_machine.specs.Values as values;
ghost use Rattle.cp_program.specs.View as view;

use crate::term::Function;
use cp_model::ordinals::{FIRST_INTEGER, LAST_CHARACTER, LAST_INTEGER};
use cp_model::state::Fault;
use cp_model::tree::Operator;

// The integers as numbers that hold the result of any operation on two of them.
pub(crate) const FIRST: i64 = FIRST_INTEGER as i64;

pub(crate) const LAST: i64 = LAST_INTEGER as i64;

pub(crate) fn in_range(n: i64) -> Result<i32, Fault>
    ensures { result ≡ functions.in_range n }
{
    if FIRST <= n && n <= LAST {
        Ok(n as i32)
    } else {
        Err(Fault::Overflow)
    }
}

#[inline(always)]
pub(crate) fn truth(b: bool) -> i32
    ensures { result ≡ values.truth b }
{
    if b { 1 } else { 0 }
}

fn quotient(a: i32, b: i32) -> Result<i32, Fault>
    ensures { result ≡ values.apply abstract.Divide a b }
{
    if b == 0 {
        return Err(Fault::DivisionByZero);
    }
    if b == -1 {
        return in_range(-i64::from(a));
    }
    in_range(i64::from(a / b))
}

fn remainder(a: i32, b: i32) -> Result<i32, Fault>
    ensures { result ≡ values.apply abstract.Modulo a b }
{
    if b == 0 {
        return Err(Fault::DivisionByZero);
    }
    if b == -1 {
        return Ok(0);
    }
    in_range(i64::from(a % b))
}

// `div` truncates toward zero, and `mod` is its remainder.
#[inline(always)]
pub(crate) fn apply(operator: Operator, a: i32, b: i32) -> Result<i32, Fault>
    ensures { result ≡ values.apply (operator_of operator) a b }
{
    match operator {
        Operator::Add => in_range(i64::from(a) + i64::from(b)),
        Operator::Subtract => in_range(i64::from(a) - i64::from(b)),
        Operator::Multiply => in_range(i64::from(a) * i64::from(b)),
        Operator::Divide => quotient(a, b),
        Operator::Modulo => remainder(a, b),
        Operator::And => Ok(truth(a == 1 && b == 1)),
        Operator::Or => Ok(truth(a == 1 || b == 1)),
        Operator::Equal => Ok(truth(a == b)),
        Operator::Unequal => Ok(truth(a != b)),
        Operator::Less => Ok(truth(a < b)),
        Operator::Greater => Ok(truth(b < a)),
        Operator::AtMost => Ok(truth(a <= b)),
        Operator::AtLeast => Ok(truth(b <= a)),
    }
}

// The number `n`, if it is within the bounds.
fn check_range(n: i64, low: i32, high: i32) -> Result<i32, Fault>
    ensures { result ≡ functions.unless (within low high n) fault.Range n }
{
    if i64::from(low) <= n && n <= i64::from(high) {
        Ok(n as i32)
    } else {
        Err(Fault::Range)
    }
}

fn shift(n: i32, by: i32, low: i32, high: i32) -> Result<i32, Fault>
    ensures { result ≡ functions.standard (terms.Shift by low high) n }
{
    check_range(i64::from(n) + i64::from(by), low, high)
}

pub(crate) fn standard(function: Function, n: i32) -> Result<i32, Fault>
    ensures { result ≡ functions.standard (view.function function) n }
{
    match function {
        Function::Abs => {
            let n = i64::from(n);
            in_range(if n < 0 { -n } else { n })
        }
        Function::Ord => in_range(i64::from(n)),
        Function::Chr => check_range(i64::from(n), 0, i32::from(LAST_CHARACTER)),
        Function::Shift { by, low, high } => shift(n, by, low, high),
    }
}
