//! Needs: the number of words that the activations of called routines take, one inside another,
//! while expressions and statements run.
//!
//! cp_model's `specs/RulesNeeds.antt` defines them. A need is the greatest among the needs of
//! routines and bodies, which the tables hold, so it is one of these or 0. `specs/Needs.antt` names
//! the parts of the definition that single functions compute.

ghost use Rattle.std.specs.Prelude.{◌≡◌, map, max, drop};
ghost use Rattle.cp_model.specs.RulesEnvironment as r;
ghost use Rattle.cp_model.specs.RulesExpressions as x;
ghost use Rattle.cp_model.specs.RulesJudged.{meaning_of};
ghost use Rattle.cp_model.specs.RulesNeeds as n;
ghost use Rattle.cp_model.specs.View.{designator, expression, selector, index, operation, statement, arm, init_item, indices_of, expressions_of, selectors_of, statements_of, arms_of};
ghost use Rattle.cp_rules_body.specs.Needs as parts;

use crate::diagnostics::Diagnostics;
use crate::entities::{find_designated_entity, is_routine};
use crate::environment::Environment;
use crate::expressions::judge_designator;
use crate::names::find_entity;
use cp_model::rules::{Entity, SystemRow};
use cp_model::tree::{
    Arm, Designator, Expression, Identifier, Index, InitItem, Operation, Selector, Sort, Statement,
};

/// The need of an expression, in words: the greatest need among the routines that are called in it,
/// or 0.
#[cycle(need_in_expressions)]
pub fn need_of_expression(env: &Environment, value: &Expression) -> usize
    ensures { result ≡ n.need_expression env.now (expression value.now) }
{
    match value {
        Expression::Number { .. } => 0,
        Expression::Character { .. } => 0,
        Expression::Designated(d) => need_of_designator(env, d),
        Expression::Call(d, list) => need_of_designator(env, d).max(need_of_expressions(env, list)),
        Expression::Parenthesized { inner, .. } => need_of_expression(env, inner),
        Expression::Not { operand, .. } => need_of_expression(env, operand),
        Expression::Signed { operand, .. } => need_of_expression(env, operand),
        Expression::Chain { first, rest } => {
            need_of_expression(env, first).max(need_of_operations(env, rest))
        }
    }
}

#[cycle(need_in_expressions)]
fn need_of_operations(env: &Environment, rest: &[Operation]) -> usize
    ensures { result ≡ parts.need_operations env.now (map operation rest.now) }
{
    let mut need = 0;
    for o in rest {
        need = need.max(need_of_expression(env, &o.operand));
    }
    need
}

#[cycle(need_in_expressions)]
fn need_of_expressions(env: &Environment, list: &[Expression]) -> usize
    ensures { result ≡ n.need_expressions env.now (expressions_of (map expression list.now)) }
{
    let mut need = 0;
    for e in list {
        need = need.max(need_of_expression(env, e));
    }
    need
}

#[cycle(need_in_expressions)]
fn need_of_designator(env: &Environment, designated: &Designator) -> usize
    ensures { result ≡ n.need_designator env.now (designator designated.now) }
{
    need_of_callee(env, designated).max(need_of_selectors(env, &designated.selectors))
}

#[cycle(need_in_expressions)]
fn need_of_selectors(env: &Environment, selectors: &[Selector]) -> usize
    ensures { result ≡ n.need_selectors env.now (selectors_of (map selector selectors.now)) }
{
    let mut need = 0;
    for s in selectors {
        need = need.max(need_of_selector(env, s));
    }
    need
}

#[cycle(need_in_expressions)]
fn need_of_selector(env: &Environment, s: &Selector) -> usize
    ensures { result ≡ n.need_selector env.now (selector s.now) }
{
    match s {
        Selector::Field { .. } => 0,
        Selector::Indexed(indices) => need_of_indices(env, indices),
    }
}

#[cycle(need_in_expressions)]
fn need_of_indices(env: &Environment, indices: &[Index]) -> usize
    ensures { result ≡ n.need_indices env.now (indices_of (map index indices.now)) }
{
    let mut need = 0;
    for i in indices {
        need = need.max(need_of_expression(env, &i.value));
    }
    need
}

// The need of the routine that a designator represents, if it represents one. The indices are
// judged only if the names represent a routine. With indices they never do, since no array contains
// components.
fn need_of_callee(env: &Environment, designated: &Designator) -> usize
    ensures { result ≡ n.need_called env.now (x.designate env.now (designator designated.now)) }
{
    if is_routine(find_designated_entity(env, designated)) {
        need_if_called(env, designation(env, designated))
    } else {
        0
    }
}

// What a designator represents, if nothing is broken in it.
fn designation(env: &Environment, designated: &Designator) -> Option<Entity>
    ensures { result ≡ meaning_of (x.designate env.now (designator designated.now)) }
{
    let mut diagnostics = Diagnostics::earliest();
    judge_designator(env, &mut diagnostics, designated)
}

// The need of the routine that is called, if it is one.
fn need_if_called(env: &Environment, entity: Option<Entity>) -> usize
    ensures { result ≡ parts.need_if_called env.now entity }
{
    match entity {
        Some(Entity::Routine(r)) => env.routine(r).need,
        Some(Entity::Entry(r)) => env.routine(r).need,
        _ => 0,
    }
}

/// The need of a statement, in words: the greatest need among the routines that are called in it
/// and the bodies of the classes and monitors that it initialises, or 0.
#[cycle(need_in_statements)]
pub fn need_of_statement(env: &Environment, judged: &Statement) -> usize
    ensures { result ≡ n.need_statement env.now (statement judged.now) }
{
    match judged {
        Statement::Empty => 0,
        Statement::Assign(a) => {
            need_of_designator(env, &a.target).max(need_of_expression(env, &a.value))
        }
        Statement::Call(call) => {
            need_of_designator(env, &call.procedure).max(need_of_expressions(env, &call.arguments))
        }
        Statement::Compound(list) => need_of_statements(env, list),
        Statement::If { condition, then } => need_of_branch(env, then, condition),
        Statement::IfElse {
            condition,
            branches,
        } => {
            let then = need_of_statement(env, &branches.0);
            let either = then.max(need_of_statement(env, &branches.1));
            need_of_expression(env, condition).max(either)
        }
        Statement::Case { selector, arms } => {
            need_of_expression(env, selector).max(need_of_arms(env, arms))
        }
        Statement::While { condition, body } => need_of_branch(env, body, condition),
        Statement::Repeat { body, condition } => {
            need_of_statements(env, body).max(need_of_expression(env, condition))
        }
        Statement::For { header, body } => {
            let from = need_of_expression(env, &header.from);
            let bounds = from.max(need_of_expression(env, &header.last));
            bounds.max(need_of_statement(env, body))
        }
        Statement::Cycle(list) => need_of_statements(env, list),
        Statement::Init { items, .. } => need_of_items(env, items),
    }
}

// The need of a condition and the statement after it.
#[cycle(need_in_statements)]
fn need_of_branch(env: &Environment, body: &Statement, condition: &Expression) -> usize
    ensures { result ≡ max (n.need_expression env.now (expression condition.now))
        (n.need_statement env.now (statement body.now)) }
{
    need_of_expression(env, condition).max(need_of_statement(env, body))
}

/// The need of statements, in words: the greatest need among them, or 0.
#[cycle(need_in_statements)]
pub fn need_of_statements(env: &Environment, list: &[Statement]) -> usize
    ensures { result ≡ n.need_statements env.now (statements_of (map statement list.now)) }
{
    let mut need = 0;
    for s in list {
        if matches!(s, Statement::Empty) {
            continue;
        }
        need = need.max(need_of_statement(env, s));
    }
    need
}

#[cycle(need_in_statements)]
fn need_of_arms(env: &Environment, arms: &[Arm]) -> usize
    ensures { result ≡ n.need_arms env.now (arms_of (map arm arms.now)) }
{
    let mut need = 0;
    for a in arms {
        need = need.max(need_of_statement(env, &a.body));
    }
    need
}

fn need_of_items(env: &Environment, items: &[InitItem]) -> usize
    ensures { result ≡ n.need_items env.now (map init_item items.now) }
{
    let mut need = 0;
    for i in items {
        need = need.max(need_of_item(env, i));
    }
    need
}

fn need_of_item(env: &Environment, i: &InitItem) -> usize
    ensures { result ≡ parts.need_item env.now (init_item i.now) }
{
    need_if_initialised(env, &i.component).max(need_of_expressions(env, &i.arguments))
}

// The need of the body of the component that is initialised, if it is one.
fn need_if_initialised(env: &Environment, component: &Identifier) -> usize
    ensures { result ≡ n.need_initialised env.now (r.c1_named env.now component.now) }
{
    match find_entity(env, component) {
        Some(Entity::Variable(t, _)) => need_of_system(env, env.system(t)),
        _ => 0,
    }
}

fn need_of_system(env: &Environment, number: Option<usize>) -> usize
    ensures { result ≡ n.need_system env.now number }
{
    match number {
        Some(number) => need_of_body(env.system_row(number)),
        None => 0,
    }
}

// The body of a process is run by the process itself.
fn need_of_body(row: SystemRow) -> usize
    ensures { result ≡ n.need_body_of row row.sort }
{
    match row.sort {
        Sort::Process => 0,
        _ => row.body_need,
    }
}
