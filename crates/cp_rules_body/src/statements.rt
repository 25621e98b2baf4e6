//! Statements: the rules inside them.

ghost use Rattle.std.specs.Prelude.{◌≡◌, ◌++◌, [], ◌∷◌, OnOk, map, Option, None, Some};
ghost use Rattle.cp_model.specs.RulesJudged.{least, violations_of};
ghost use Rattle.cp_model.specs.RulesStatements as st;
ghost use Rattle.cp_model.specs.Syntax as syntax;
ghost use Rattle.cp_model.specs.View as view;
ghost use Rattle.cp_rules_body.specs.StatementParts as parts;

use crate::assignments::judge_assignment;
use crate::conditions::{condition, for_header, selector};
use crate::diagnostics::Diagnostics;
use crate::environment::Environment;
use crate::initialisation::judge_init;
use crate::labels::{Labels, judge_labels, selector_base};
use crate::procedures::judge_call;
use cp_model::tree::{Arm, Expression, ForHeader, Statement};
use std::alloc::{AllocError, Global};

/// Judges a statement. Fails only if memory runs out for the labels of a `case`.
#[cycle(statement)]
pub fn statement(
    env: &Environment,
    alloc: Global,
    diagnostics: &mut Diagnostics,
    judged: &Statement,
) -> Result<(), AllocError>
    ensures { OnOk result
        (diagnostics.new ≡ least diagnostics.old (st.statement env.now (view.statement judged.now))) }
{
    match judged {
        Statement::Empty => {}
        Statement::Assign(a) => judge_assignment(env, diagnostics, &a.target, a.at, &a.value),
        Statement::Call(call) => judge_call(env, diagnostics, &call.procedure, &call.arguments),
        Statement::Compound(list) => statements(env, alloc, diagnostics, list)?,
        Statement::If { condition: e, then } => judge_branch(env, alloc, diagnostics, then, e)?,
        Statement::IfElse {
            condition: e,
            branches,
        } => {
            judge_branch(env, alloc, diagnostics, &branches.0, e)?;
            statement(env, alloc, diagnostics, &branches.1)?;
        }
        Statement::Case { selector: e, arms } => judge_case(env, alloc, diagnostics, arms, e)?,
        Statement::While { condition: e, body } => judge_branch(env, alloc, diagnostics, body, e)?,
        Statement::Repeat { body, condition: e } => judge_repeat(env, alloc, diagnostics, body, e)?,
        Statement::For { header, body } => judge_for(env, alloc, diagnostics, body, header)?,
        Statement::Cycle(list) => statements(env, alloc, diagnostics, list)?,
        Statement::Init { at, items } => judge_init(env, diagnostics, *at, items),
    }
    Ok(())
}

// Judges a condition and the statement after it.
#[cycle(statement)]
fn judge_branch(
    env: &Environment,
    alloc: Global,
    diagnostics: &mut Diagnostics,
    body: &Statement,
    expression: &Expression,
) -> Result<(), AllocError>
    ensures { OnOk result
        (diagnostics.new ≡ least diagnostics.old
        (violations_of (st.c2_condition env.now (view.expression expression.now)) ++ st.statement env.now
        (view.statement body.now))) }
{
    condition(env, diagnostics, expression);
    statement(env, alloc, diagnostics, body)
}

// Judges the variable and the bounds of a `for`, and the statement after them.
#[cycle(statement)]
fn judge_for(
    env: &Environment,
    alloc: Global,
    diagnostics: &mut Diagnostics,
    body: &Statement,
    header: &ForHeader,
) -> Result<(), AllocError>
    ensures { OnOk result
        (diagnostics.new ≡ least diagnostics.old
        (parts.for_header env.now header.now.variable (view.expression header.now.from)
        (view.expression header.now.last) ++ st.statement env.now (view.statement body.now))) }
{
    for_header(
        env,
        diagnostics,
        &header.variable,
        &header.from,
        &header.last,
    );
    statement(env, alloc, diagnostics, body)
}

// Judges a selector and the arms after it.
#[cycle(statement)]
fn judge_case(
    env: &Environment,
    alloc: Global,
    diagnostics: &mut Diagnostics,
    arms: &[Arm],
    expression: &Expression,
) -> Result<(), AllocError>
    ensures { OnOk result
        (diagnostics.new ≡ least diagnostics.old
        (st.statement env.now (syntax.Case (view.expression expression.now)
        (view.arms_of (map view.arm arms.now))))) }
{
    let t = selector(env, diagnostics, expression);
    judge_arms(env, alloc, diagnostics, selector_base(env, t), arms)
}

// Judges statements and the condition after them.
#[cycle(statement)]
fn judge_repeat(
    env: &Environment,
    alloc: Global,
    diagnostics: &mut Diagnostics,
    body: &[Statement],
    expression: &Expression,
) -> Result<(), AllocError>
    ensures { OnOk result
        (diagnostics.new ≡ least diagnostics.old
        (st.statements env.now (view.statements_of (map view.statement body.now)) ++ violations_of
        (st.c2_condition env.now (view.expression expression.now)))) }
{
    statements(env, alloc, diagnostics, body)?;
    condition(env, diagnostics, expression);
    Ok(())
}

/// Judges statements, one after another.
#[cycle(statement)]
pub fn statements(
    env: &Environment,
    alloc: Global,
    diagnostics: &mut Diagnostics,
    list: &[Statement],
) -> Result<(), AllocError>
    ensures { OnOk result
        (diagnostics.new ≡ least diagnostics.old
        (st.statements env.now (view.statements_of (map view.statement list.now)))) }
{
    for s in list {
        if matches!(s, Statement::Empty) {
            continue;
        }
        statement(env, alloc, diagnostics, s)?;
    }
    Ok(())
}

// Judges the arms of a `case`. Their labels must have the base type of its selector, if that is
// known.
#[cycle(statement)]
fn judge_arms(
    env: &Environment,
    alloc: Global,
    diagnostics: &mut Diagnostics,
    base: Option<usize>,
    list: &[Arm],
) -> Result<(), AllocError>
    ensures { OnOk result
        (diagnostics.new ≡ least diagnostics.old
        (st.arms env.now base [] (view.arms_of (map view.arm list.now)))) }
{
    let mut seen = Labels::new(alloc, base.unwrap_or(0));
    for a in list {
        judge_labels(env, diagnostics, base, &mut seen, &a.labels)?;
        statement(env, alloc, diagnostics, &a.body)?;
    }
    Ok(())
}
