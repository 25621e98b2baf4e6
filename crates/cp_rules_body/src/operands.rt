//! What operators and arguments require of a type.

ghost use Rattle.std.specs.Prelude.{◌≡◌, [], ◌∷◌, ◌++◌, Option, None, Some};
ghost use Rattle.cp_model.specs.RulesEnvironment as r;
ghost use Rattle.cp_model.specs.RulesNames as n;
ghost use Rattle.cp_model.specs.RulesExpressions as x;
ghost use Rattle.cp_model.specs.View.{expression};
ghost use Rattle.cp_rules_body.specs.Arguments.{form_rules, type_rule, is_standard_type};
ghost use Rattle.cp_rules_body.specs.Reports.{Reports, ReportsOf};

use crate::bases::{BOOLEAN, CHAR, INTEGER, QUEUE, is_base};
use crate::diagnostics::{Diagnostics, report_violation};
use crate::environment::Environment;
use crate::values::variable;
use cp_model::rules::{Mode, Rule, Want};
use cp_model::tree::{Expression, Operator};

fn are_of_one_base(found: Option<usize>, other: Option<usize>) -> bool
    ensures { result ≡ x.operands_fit None found other }
{
    match found {
        Some(found) => is_base(found, other),
        None => false,
    }
}

fn operands_fit(operator: Operator, found: Option<usize>, other: Option<usize>) -> bool
    ensures { result ≡ x.operands_fit (x.signature operator).wants found other }
{
    match operator {
        Operator::Add => is_base(INTEGER, found) && is_base(INTEGER, other),
        Operator::Subtract => is_base(INTEGER, found) && is_base(INTEGER, other),
        Operator::Multiply => is_base(INTEGER, found) && is_base(INTEGER, other),
        Operator::Divide => is_base(INTEGER, found) && is_base(INTEGER, other),
        Operator::Modulo => is_base(INTEGER, found) && is_base(INTEGER, other),
        Operator::And => is_base(BOOLEAN, found) && is_base(BOOLEAN, other),
        Operator::Or => is_base(BOOLEAN, found) && is_base(BOOLEAN, other),
        _ => are_of_one_base(found, other),
    }
}

fn operator_gives(operator: Operator) -> usize
    ensures { result ≡ (x.signature operator).gives }
{
    match operator {
        Operator::Add => INTEGER,
        Operator::Subtract => INTEGER,
        Operator::Multiply => INTEGER,
        Operator::Divide => INTEGER,
        Operator::Modulo => INTEGER,
        _ => BOOLEAN,
    }
}

/// C2: the operands don't fit the operator.
pub fn operands(
    env: &Environment,
    diagnostics: &mut Diagnostics,
    operator: Operator,
    at: usize,
    a: usize,
    b: usize,
) -> Option<usize>
    ensures { Reports diagnostics.old diagnostics.new result (x.c2_operands env.now operator at a b) }
{
    if operands_fit(operator, env.base(a), env.base(b)) {
        return Some(operator_gives(operator));
    }
    report_violation(diagnostics, Rule::C2, at)
}

/// C2: the operand of a sign or of `not` isn't of the base type `wanted`.
pub fn operand(
    env: &Environment,
    diagnostics: &mut Diagnostics,
    wanted: usize,
    at: usize,
    t: usize,
) -> Option<usize>
    ensures { Reports diagnostics.old diagnostics.new result (x.c2_operand env.now wanted at t) }
{
    if is_base(wanted, env.base(t)) {
        return Some(wanted);
    }
    report_violation(diagnostics, Rule::C2, at)
}

/// How the first name of an argument is judged.
pub fn mode(want: Want) -> Mode
    ensures { result ≡ x.mode_of want }
{
    match want {
        Want::Parameter(p) => {
            if p.by_reference {
                Mode::Variable
            } else {
                Mode::Value
            }
        }
        Want::CharVariable => Mode::Variable,
        Want::QueueVariable => Mode::Queue,
        _ => Mode::Value,
    }
}

/// How the first operand of an argument is judged, or the name of a call that is an argument.
/// Neither is the argument itself.
pub fn first_operand(mode: Mode) -> Mode
    ensures { result ≡ x.first_operand mode }
{
    match mode {
        Mode::Queue => Mode::Value,
        Mode::Variable => Mode::FirstOperand,
        _ => mode,
    }
}

// C2: a value argument doesn't agree with its parameter. C10: a `var` argument isn't of the
// parameter's very type.
fn fits_type(
    env: &Environment,
    diagnostics: &mut Diagnostics,
    by_reference: bool,
    of: Option<usize>,
    value: &Expression,
    t: usize,
) -> Option<usize>
    ensures { Reports diagnostics.old diagnostics.new result
        (x.fits_type env.now by_reference of (expression value.now) t) }
{
    let Some(u) = of else {
        return Some(t);
    };
    let (fits, rule) = if by_reference {
        (t == u, Rule::C10)
    } else {
        (env.agree(u, t), Rule::C2)
    };
    if fits {
        return Some(t);
    }
    report_violation(diagnostics, rule, value.first_token())
}

/// C10: an argument that must be a variable isn't one, whatever else is broken in it.
pub fn has_form(
    env: &Environment,
    diagnostics: &mut Diagnostics,
    want: Want,
    value: &Expression,
) -> bool
    ensures { ReportsOf diagnostics.old diagnostics.new result (form_rules env.now want (expression value.now)) }
{
    match want {
        Want::Parameter(p) => {
            if p.by_reference {
                variable(env, diagnostics, value)
            } else {
                true
            }
        }
        Want::CharVariable => variable(env, diagnostics, value),
        _ => true,
    }
}

// Whether an argument of a standard routine may have this type.
fn is_wanted(env: &Environment, want: Want, t: usize) -> bool
    ensures { result ≡ is_standard_type env.now want t }
{
    match want {
        Want::Parameter(_) => true,
        Want::Simple => env.is_simple(t),
        Want::Integer => is_base(INTEGER, env.base(t)),
        Want::CharVariable => is_base(CHAR, env.base(t)),
        Want::QueueVariable => t == QUEUE,
    }
}

/// The rules about the type of an argument.
pub fn has_type(
    env: &Environment,
    diagnostics: &mut Diagnostics,
    want: Want,
    value: &Expression,
    t: usize,
) -> Option<usize>
    ensures { Reports diagnostics.old diagnostics.new result (type_rule env.now want (expression value.now) t) }
{
    if let Want::Parameter(p) = want {
        return fits_type(env, diagnostics, p.by_reference, p.of, value, t);
    }
    if is_wanted(env, want, t) {
        return Some(t);
    }
    report_violation(diagnostics, Rule::C2, value.first_token())
}
