//! Expressions: their types, and the rules inside them.
//!
//! Expressions, designators and arguments are judged by mutual recursion. What doesn't take part in
//! it is in other modules. `specs/ExpressionParts.antt` names the parts of the definition that
//! single functions compute.

ghost use Rattle.std.specs.Prelude.{◌≡◌, ℕ, ◌+◌, ◌*◌, ◌<◌, ◌++◌, [], ◌∷◌, map, drop, length, Option, None, Some, slice_get};
ghost use Rattle.cp_model.specs.Syntax as s;
ghost use Rattle.cp_model.specs.RulesJudged.{Judged};
ghost use Rattle.cp_model.specs.RulesExpressions as x;
ghost use Rattle.cp_model.specs.RulesNames as n;
ghost use Rattle.cp_model.specs.View.{designator, expression, selector, index, operation, indices_of, expressions_of, selectors_of};
ghost use Rattle.cp_model.specs.declared.rules.Entity.{Entity as EntityValue};
ghost use Rattle.cp_rules_body.specs.Callees.{wants_of, result_if, ReportsCallee};
ghost use Rattle.cp_rules_body.specs.ExpressionParts as parts;
ghost use Rattle.cp_rules_body.specs.Reports.{Reports, ReportsOf, ReportsBoth};

use crate::bases::{BOOLEAN, CHAR, INTEGER};
use crate::callees::{Called, Callee, Wants, function, want, wants_of_call};
use crate::designators::{names_fit, no_indexed_value};
use crate::diagnostics::{Diagnostics, answer_if};
use crate::environment::Environment;
use crate::members::member;
use crate::names::{array, element};
use crate::operands::{first_operand, has_form, has_type, mode as mode_of, operand, operands};
use crate::roots::root;
use crate::values::{plain_variable, result_type, value};
use cp_model::rules::{ArrayPart, Entity, Mode, Violation, Want};
use cp_model::tree::{Designator, Expression, Index, Operation, Operator, Selector};

/// Judges an expression and returns its type.
#[cycle(judge)]
pub fn judge(
    env: &Environment,
    diagnostics: &mut Diagnostics,
    mode: Mode,
    value: &Expression,
) -> Option<usize>
    ensures { Reports diagnostics.old diagnostics.new result (x.judge env.now mode (expression value.now)) }
{
    match value {
        Expression::Number { .. } => Some(INTEGER),
        Expression::Character { .. } => Some(CHAR),
        Expression::Designated(d) => judge_use(env, diagnostics, mode, d),
        Expression::Call(d, list) => {
            let fits = names_fit(env, diagnostics, first_operand(mode), d);
            let called = judge_callee(env, diagnostics, mode, d, list.len());
            let t = arguments(env, diagnostics, called.wants, list);
            answer_if(fits, result(env, called.callee, t))
        }
        Expression::Parenthesized { inner, .. } => judge(env, diagnostics, Mode::Value, inner),
        Expression::Not { at, operand: value } => {
            let t = judge(env, diagnostics, Mode::Value, value)?;
            operand(env, diagnostics, BOOLEAN, *at, t)
        }
        Expression::Signed {
            at,
            operand: value,
            ..
        } => {
            let t = judge(env, diagnostics, Mode::Value, value)?;
            operand(env, diagnostics, INTEGER, *at, t)
        }
        Expression::Chain { first, rest } => {
            if rest.is_empty() {
                return judge(env, diagnostics, mode, first);
            }
            let left = judge(env, diagnostics, first_operand(mode), first);
            chain(env, diagnostics, left, rest)
        }
    }
}

// Judges the operators after an operand, and their right operands.
#[cycle(judge)]
fn chain(
    env: &Environment,
    diagnostics: &mut Diagnostics,
    left: Option<usize>,
    rest: &[Operation],
) -> Option<usize>
    ensures { parts.ReportsChain env.now diagnostics.old diagnostics.new left result (map operation rest.now) }
{
    let mut left = left;
    for o in rest {
        let right = judge(env, diagnostics, Mode::Value, &o.operand);
        left = judge_operation(env, diagnostics, o.operator, o.at, left, right);
    }
    left
}

// Judges an operator, if the types of both operands are known.
fn judge_operation(
    env: &Environment,
    diagnostics: &mut Diagnostics,
    operator: Operator,
    at: usize,
    left: Option<usize>,
    right: Option<usize>,
) -> Option<usize>
    ensures { ReportsBoth diagnostics.old diagnostics.new left right result (x.c2_operands env.now operator at) }
{
    operands(env, diagnostics, operator, at, left?, right?)
}

// Judges a designator that is used as a value, or where a variable is wanted.
#[cycle(judge)]
fn judge_use(
    env: &Environment,
    diagnostics: &mut Diagnostics,
    mode: Mode,
    designated: &Designator,
) -> Option<usize>
    ensures { Reports diagnostics.old diagnostics.new result (parts.judge_use env.now mode (designator designated.now)) }
{
    if let Some(t) = plain_variable(env, mode, designated) {
        return Some(t);
    }
    let fits = names_fit(env, diagnostics, mode, designated);
    let t = type_of_designator(env, diagnostics, mode, designated);
    answer_if(fits, t)
}

/// The type of a designator that is used as a value, or where a variable is wanted.
#[cycle(judge)]
pub fn type_of_designator(
    env: &Environment,
    diagnostics: &mut Diagnostics,
    mode: Mode,
    designated: &Designator,
) -> Option<usize>
    ensures { Reports diagnostics.old diagnostics.new result
        (parts.type_of_designator env.now mode (designator designated.now)) }
{
    let entity = judge_designator(env, diagnostics, designated)?;
    value(env, diagnostics, mode, designated, entity)
}

/// Judges a designator and returns what it represents.
#[cycle(judge)]
pub fn judge_designator(
    env: &Environment,
    diagnostics: &mut Diagnostics,
    designated: &Designator,
) -> Option<Entity>
    ensures { Reports diagnostics.old diagnostics.new result (x.designate env.now (designator designated.now)) }
{
    let mut part = root(env, diagnostics, designated);
    for s in &designated.selectors {
        part = select(env, diagnostics, part, s);
    }
    part
}

// What a selector selects of what is designated so far.
#[cycle(judge)]
fn select(
    env: &Environment,
    diagnostics: &mut Diagnostics,
    part: Option<Entity>,
    s: &Selector,
) -> Option<Entity>
    ensures { (t : Option Violation) (j : Judged EntityValue) → Reports t diagnostics.old part j
        → Reports t diagnostics.new result (x.select env.now j (selector s.now)) }
{
    match s {
        Selector::Field { at, name } => {
            let entity = part?;
            member(env, diagnostics, *at, name, entity)
        }
        Selector::Indexed(indices) => select_elements(env, diagnostics, part, indices),
    }
}

#[cycle(judge)]
fn select_elements(
    env: &Environment,
    diagnostics: &mut Diagnostics,
    part: Option<Entity>,
    indices: &[Index],
) -> Option<Entity>
    ensures { (t : Option Violation) (j : Judged EntityValue) → Reports t diagnostics.old part j
        → Reports t diagnostics.new result (x.apply_indices env.now j (indices_of (map index indices.now))) }
{
    let mut part = part;
    for i in indices {
        let of = array_if(env, diagnostics, i.at, part);
        let t = judge(env, diagnostics, Mode::Value, &i.value);
        part = element_if(env, diagnostics, i.value.first_token(), of, t);
    }
    part
}

// The array that is indexed, if it is known what is indexed.
fn array_if(
    env: &Environment,
    diagnostics: &mut Diagnostics,
    at: usize,
    part: Option<Entity>,
) -> Option<ArrayPart>
    ensures { (t : Option Violation) (j : Judged EntityValue) → Reports t diagnostics.old part j
        → Reports t diagnostics.new result (parts.array_of env.now at j) }
{
    let entity = part?;
    array(env, diagnostics, at, entity)
}

// An element of an array, if the array and the type of the index are known.
fn element_if(
    env: &Environment,
    diagnostics: &mut Diagnostics,
    at: usize,
    of: Option<ArrayPart>,
    found: Option<usize>,
) -> Option<Entity>
    ensures { ReportsBoth diagnostics.old diagnostics.new of found result (n.c2_index env.now at) }
{
    element(env, diagnostics, at, of?, found?)
}

// The type of what a call gives, if what is called and the type of the first argument are known.
fn result(env: &Environment, callee: Option<Callee>, found: Option<usize>) -> Option<usize>
    ensures { result ≡ result_if env.now callee found }
{
    match (callee, found) {
        (Some(callee), Some(found)) => Some(result_type(env, found, callee.gives)),
        _ => None,
    }
}

// The function that is called, if it is known what its name represents.
fn function_if(
    env: &Environment,
    diagnostics: &mut Diagnostics,
    mode: Mode,
    designated: &Designator,
    count: usize,
    entity: Option<Entity>,
) -> Option<Callee>
    ensures { (t : Option Violation) (j : Judged EntityValue) → Reports t diagnostics.old entity j
        → ReportsCallee env.now t diagnostics.new result
        (parts.function_if env.now mode (designator designated.now) count j) }
{
    let entity = entity?;
    function(env, diagnostics, mode, designated, count, entity)
}

#[cycle(judge)]
fn judge_callee(
    env: &Environment,
    diagnostics: &mut Diagnostics,
    mode: Mode,
    designated: &Designator,
    count: usize,
) -> Called
    ensures callee { ReportsCallee env.now diagnostics.old diagnostics.new result.callee
        (parts.callee_of env.now mode (designator designated.now) count) }
    ensures wants { wants_of env.now result.wants ≡ x.wants_in env.now
        (x.designate env.now (designator designated.now))
        (parts.callee_of env.now mode (designator designated.now) count) }
{
    let no_value = no_indexed_value(env, diagnostics, mode, designated);
    let entity = judge_designator(env, diagnostics, designated);
    let function = function_if(env, diagnostics, mode, designated, count, entity);
    let callee = answer_if(no_value, function);
    Called {
        wants: wants_of_call(env, entity, callee),
        callee,
    }
}

/// Judges all arguments against what they must satisfy, and returns the type of the first one, or
/// integer if there are none.
#[cycle(judge)]
pub fn arguments(
    env: &Environment,
    diagnostics: &mut Diagnostics,
    wants: Wants,
    list: &[Expression],
) -> Option<usize>
    ensures { Reports diagnostics.old diagnostics.new result
        (x.arguments env.now (wants_of env.now wants) (expressions_of (map expression list.now))) }
{
    let [first, rest @ ..] = list else {
        return Some(INTEGER);
    };
    let mut t = argument(env, diagnostics, want(env, wants, 0), first);
    for (number, e) in rest.iter().enumerate() {
        let u = argument(env, diagnostics, want(env, wants, number + 1), e);
        t = u.and(t);
    }
    t
}

#[cycle(judge)]
fn argument(
    env: &Environment,
    diagnostics: &mut Diagnostics,
    want: Option<Want>,
    value: &Expression,
) -> Option<usize>
    ensures { Reports diagnostics.old diagnostics.new result (parts.argument_for env.now want (expression value.now)) }
{
    let Some(want) = want else {
        return judge(env, diagnostics, Mode::Value, value);
    };
    let has_form = has_form(env, diagnostics, want, value);
    let t = type_of_argument(env, diagnostics, want, value);
    answer_if(has_form, t)
}

#[cycle(judge)]
fn type_of_argument(
    env: &Environment,
    diagnostics: &mut Diagnostics,
    want: Want,
    value: &Expression,
) -> Option<usize>
    ensures { Reports diagnostics.old diagnostics.new result
        (parts.type_of_argument env.now want (expression value.now)) }
{
    let t = judge(env, diagnostics, mode_of(want), value)?;
    has_type(env, diagnostics, want, value, t)
}
