//! Operations and programs that have nothing to do with the clock.

ghost use Rattle.std.specs.Prelude.{◌≡◌, true, map};
ghost use Rattle.cp_law_cores.specs.Clocks as plain;
ghost use Rattle.cp_program.specs.View as view;

use crate::terms::{place_expression_is_timeless, term_is_timeless};
use cp_program::operation::{Argument, Operation, Then};
use cp_program::program::Program;
use cp_program::term::Term;

fn argument_is_timeless(x: &Argument) -> bool
    ensures { result ≡ true → plain.argument_is_timeless (view.argument x.now) ≡ true }
{
    match x {
        Argument::Value { term, .. } => term_is_timeless(term),
        Argument::Copy { from, .. } => place_expression_is_timeless(from),
        Argument::Reference { to, .. } => place_expression_is_timeless(to),
        Argument::Right { .. } => true,
    }
}

fn arguments_are_timeless(xs: &[Argument]) -> bool
    ensures { result ≡ true
        → plain.arguments_are_timeless (map view.argument xs.now) ≡ true }
{
    for x in xs {
        if !argument_is_timeless(x) {
            return false;
        }
    }
    true
}

fn evaluation_is_timeless(value: &Term, after: &Then) -> bool
    ensures { result ≡ true → plain.operation_is_timeless
        (view.evaluation (view.term value.now) after.now) ≡ true }
{
    match after {
        Then::Set { to, .. } => place_expression_is_timeless(to) && term_is_timeless(value),
        Then::SetLocal { .. } => term_is_timeless(value),
        Then::SetMember { .. } => term_is_timeless(value),
        Then::SetElement { .. } => term_is_timeless(value),
        Then::SetResult(_) => term_is_timeless(value),
        Then::Test { .. } => term_is_timeless(value),
    }
}

fn operation_is_timeless(x: &Operation) -> bool
    ensures { result ≡ true → plain.operation_is_timeless (view.operation x.now) ≡ true }
{
    match x {
        Operation::Evaluate { value, then } => evaluation_is_timeless(value, then),
        Operation::CopyWords { to, from, .. } => place_expression_is_timeless(to)
            && place_expression_is_timeless(from),
        Operation::Case { value, .. } => term_is_timeless(value),
        Operation::For { first, last, .. } => term_is_timeless(first) && term_is_timeless(last),
        Operation::ForNext(_) => true,
        Operation::Cycle { .. } => true,
        Operation::Procedure { call, .. } => arguments_are_timeless(&call.arguments),
        Operation::Function { call, .. } => arguments_are_timeless(&call.arguments),
        Operation::Return { .. } => true,
        Operation::InitClass { call, .. } => arguments_are_timeless(&call.arguments),
        Operation::InitMonitor { call, .. } => arguments_are_timeless(&call.arguments),
        Operation::InitProcess { arguments, .. } => arguments_are_timeless(arguments),
        Operation::EndBody => true,
        Operation::End => true,
        Operation::Display { value, .. } => term_is_timeless(value),
        Operation::Accept { to, .. } => place_expression_is_timeless(to),
        Operation::Delay { queue, .. } => place_expression_is_timeless(queue),
        Operation::Continue { queue, .. } => place_expression_is_timeless(queue),
        Operation::Wait { .. } => false,
    }
}

/// Whether a program has nothing to do with the clock. Only the answer `true` is proved to be
/// right.
pub fn is_timeless(program: &Program) -> bool
    ensures { result ≡ true → plain.is_timeless (view.program program.now) ≡ true }
{
    for place in 0..u32::MAX {
        let Some(operation) = program.operation(place) else {
            return true;
        };
        if !operation_is_timeless(operation) {
            return false;
        }
    }
    false
}
