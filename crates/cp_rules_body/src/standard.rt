//! Calls of standard functions and procedures.

ghost use Rattle.std.specs.Prelude.{◌≡◌, ◌∷◌, [], Option, None, Some, length, nat_eq};
ghost use Rattle.cp_model.specs.RulesEnvironment as r;
ghost use Rattle.cp_model.specs.RulesNames as n;
ghost use Rattle.cp_rules_body.specs.Callees.{wants_of, callee_if, ReportsWherever};

use crate::bases::{BOOLEAN, CHAR, INTEGER};
use crate::callees::{Callee, Wants};
use crate::diagnostics::{Diagnostics, report_violation};
use cp_model::rules::{Gives, Rule, Standard, Want};
use cp_model::tree::Identifier;

/// What the arguments of a standard routine must satisfy.
pub fn standard_wants(standard: Standard) -> Wants
    ensures { (env : r.Environment) → wants_of env result ≡ n.standard_wants standard }
{
    match standard {
        Standard::Abs => Wants::One(Want::Integer),
        Standard::Succ => Wants::One(Want::Simple),
        Standard::Pred => Wants::One(Want::Simple),
        Standard::Ord => Wants::One(Want::Simple),
        Standard::Chr => Wants::One(Want::Integer),
        Standard::Empty => Wants::One(Want::QueueVariable),
        Standard::Delay => Wants::One(Want::QueueVariable),
        Standard::Continue => Wants::One(Want::QueueVariable),
        Standard::Display => Wants::One(Want::Simple),
        Standard::Accept => Wants::One(Want::CharVariable),
        Standard::Realtime => Wants::Nothing,
        Standard::Wait => Wants::Nothing,
    }
}

// Whether a standard routine takes `count` arguments.
fn standard_fits(standard: Standard, count: usize) -> bool
    ensures { result ≡ n.standard_fits standard count }
{
    match standard {
        Standard::Realtime => 0 == count,
        Standard::Wait => 0 == count,
        _ => 1 == count,
    }
}

// What a standard function wants and gives, or `None` if the routine isn't a function.
fn standard_function(standard: Standard) -> Option<Callee>
    ensures { (env : r.Environment) → callee_if env result ≡ n.standard_function standard }
{
    let gives = match standard {
        Standard::Abs => Gives::Value(INTEGER),
        Standard::Succ => Gives::ArgumentBase,
        Standard::Pred => Gives::ArgumentBase,
        Standard::Ord => Gives::Value(INTEGER),
        Standard::Chr => Gives::Value(CHAR),
        Standard::Empty => Gives::Value(BOOLEAN),
        Standard::Realtime => Gives::Value(INTEGER),
        _ => return None,
    };
    let wants = standard_wants(standard);
    Some(Callee { wants, gives })
}

// What a standard procedure wants, or `None` if the routine isn't a procedure.
fn standard_procedure(standard: Standard) -> Option<Callee>
    ensures { (env : r.Environment) → callee_if env result ≡ n.standard_procedure standard }
{
    let is_procedure = matches!(
        standard,
        Standard::Delay | Standard::Continue | Standard::Display | Standard::Accept | Standard::Wait
    );
    if is_procedure {
        let wants = standard_wants(standard);
        let gives = Gives::Nothing;
        Some(Callee { wants, gives })
    } else {
        None
    }
}

// Judges a call of a standard routine. C2: the number of arguments is wrong. `rule`: there is no
// callee.
fn judge_standard_call(
    diagnostics: &mut Diagnostics,
    rule: Rule,
    name: &Identifier,
    fits: bool,
    callee: Option<Callee>,
) -> Option<Callee>
    ensures { ReportsWherever diagnostics.old diagnostics.new result
        (λ env. n.standard_called rule name.now fits (callee_if env callee)) }
{
    if !fits {
        return report_violation(diagnostics, Rule::C2, name.at);
    }
    match callee {
        Some(callee) => Some(callee),
        None => report_violation(diagnostics, rule, name.at),
    }
}

/// Judges a call of a standard function with `count` arguments.
pub fn judge_standard_function_call(
    diagnostics: &mut Diagnostics,
    rule: Rule,
    name: &Identifier,
    count: usize,
    standard: Standard,
) -> Option<Callee>
    ensures { ReportsWherever diagnostics.old diagnostics.new result
        (λ env. n.standard_called rule name.now (n.standard_fits standard count)
        (n.standard_function standard)) }
{
    let fits = standard_fits(standard, count);
    let callee = standard_function(standard);
    judge_standard_call(diagnostics, rule, name, fits, callee)
}

/// Judges a call of a standard procedure with `count` arguments.
pub fn judge_standard_procedure_call(
    diagnostics: &mut Diagnostics,
    name: &Identifier,
    count: usize,
    standard: Standard,
) -> Option<Callee>
    ensures { ReportsWherever diagnostics.old diagnostics.new result
        (λ env. n.standard_called Rule.C2 name.now (n.standard_fits standard count)
        (n.standard_procedure standard)) }
{
    let fits = standard_fits(standard, count);
    let callee = standard_procedure(standard);
    judge_standard_call(diagnostics, Rule::C2, name, fits, callee)
}
