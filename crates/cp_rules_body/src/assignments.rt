//! Assignments: the left side, the right side, and whether they agree.

ghost use Rattle.std.specs.Prelude.{◌≡◌, ◌++◌, [], ◌∷◌, map, Option, None, Some};
ghost use Rattle.cp_model.specs.RulesEnvironment as r;
ghost use Rattle.cp_model.specs.RulesJudged.{Sound, least};
ghost use Rattle.cp_model.specs.RulesNames as n;
ghost use Rattle.cp_model.specs.declared.rules.Entity.TheVariants as entity;
ghost use Rattle.cp_model.specs.declared.rules.Mode.TheVariants as mode;
ghost use Rattle.cp_model.specs.RulesStatements as st;
ghost use Rattle.cp_model.specs.View.{designator, expression, selector, selectors_of};
ghost use Rattle.cp_rules_body.specs.StatementParts as parts;
ghost use Rattle.cp_rules_body.specs.Reports.{Reports, ReportsOf, ReportsBoth};

use crate::designators::names_fit;
use crate::diagnostics::{Diagnostics, answer_if, report, report_violation};
use crate::environment::Environment;
use crate::expressions::{judge, type_of_designator};
use crate::names::find_entity;
use crate::values::{designates_variable, designator_of, is_changeable, is_plain};
use cp_model::rules::{Access, Entity, Mode, Returns, Rule, Violation};
use cp_model::tree::{Designator, Expression, Identifier, Selector};

// The result type of the function that is being defined, if its name is the whole left side. C4 and
// C10: the name is a procedure's own.
fn whole_result(diagnostics: &mut Diagnostics, name: &Identifier, returns: Returns) -> Option<usize>
    ensures { Reports diagnostics.old diagnostics.new result (st.own_result name.now (selectors_of []) returns) }
{
    match returns {
        Returns::Value(t) => Some(t),
        Returns::Broken(violation) => {
            report(diagnostics, violation);
            None
        }
        Returns::Nothing => {
            report(
                diagnostics,
                Violation {
                    rule: Rule::C4,
                    at: name.at,
                },
            );
            report_violation(diagnostics, Rule::C10, name.at)
        }
    }
}

// C10: the left side is a part of that result. C4: the name is a procedure's own.
fn part_of_result(
    diagnostics: &mut Diagnostics,
    name: &Identifier,
    returns: Returns,
) -> Option<usize>
    ensures { Reports diagnostics.old diagnostics.new result (parts.part_of_result name.now returns) }
{
    if let Returns::Nothing = returns {
        report(
            diagnostics,
            Violation {
                rule: Rule::C4,
                at: name.at,
            },
        );
    }
    report_violation(diagnostics, Rule::C10, name.at)
}

fn own_result(
    diagnostics: &mut Diagnostics,
    name: &Identifier,
    selectors: &[Selector],
    returns: Returns,
) -> Option<usize>
    ensures { Reports diagnostics.old diagnostics.new result
        (st.own_result name.now (selectors_of (map selector selectors.now)) returns) }
{
    match selectors {
        [] => whole_result(diagnostics, name, returns),
        _ => part_of_result(diagnostics, name, returns),
    }
}

// Judges the names of a left side that isn't a function's own name. C10: it isn't a variable.
fn names_changeable(
    env: &Environment,
    diagnostics: &mut Diagnostics,
    designated: &Designator,
) -> bool
    ensures { ReportsOf diagnostics.old diagnostics.new result
        (n.c2_c5_c8_named env.now mode.Variable (designator designated.now) ++ n.c10_designator env.now
        (designator designated.now)) }
{
    let fits = names_fit(env, diagnostics, Mode::Variable, designated);
    let is_variable = designates_variable(env, diagnostics, designated);
    fits && is_variable
}

fn other_left(
    env: &Environment,
    diagnostics: &mut Diagnostics,
    designated: &Designator,
) -> Option<usize>
    ensures { Reports diagnostics.old diagnostics.new result (st.other_left_side env.now (designator designated.now)) }
{
    let fits = names_changeable(env, diagnostics, designated);
    let t = type_of_designator(env, diagnostics, Mode::Variable, designated);
    answer_if(fits, t)
}

// The type of a left side whose first name is a variable.
fn variable_left(
    env: &Environment,
    diagnostics: &mut Diagnostics,
    designated: &Designator,
    t: usize,
    access: Access,
) -> Option<usize>
    ensures { r.c1_named env.now designated.now.root ≡ Sound (entity.Variable t access)
        → Reports diagnostics.old diagnostics.new result (st.left_side env.now (designator designated.now)) }
{
    if designated.selectors.is_empty()
        && is_changeable(access)
        && is_plain(env, Mode::Variable, t)
    {
        return Some(t);
    }
    other_left(env, diagnostics, designated)
}

// The type of a left side.
fn left(env: &Environment, diagnostics: &mut Diagnostics, designated: &Designator) -> Option<usize>
    ensures { Reports diagnostics.old diagnostics.new result (st.left_side env.now (designator designated.now)) }
{
    match find_entity(env, &designated.root) {
        Some(Entity::UnfinishedRoutine(row)) => {
            own_result(
                diagnostics,
                &designated.root,
                &designated.selectors,
                row.returns,
            )
        }
        Some(Entity::Variable(t, access)) => variable_left(env, diagnostics, designated, t, access),
        _ => other_left(env, diagnostics, designated),
    }
}

fn component(env: &Environment, name: &Identifier) -> Option<usize>
    ensures { result ≡ st.component_by env.now (r.c1_named env.now name.now) }
{
    match find_entity(env, name) {
        Some(Entity::Variable(t, _)) => { if env.is_component(t) { Some(t) } else { None } }
        _ => None,
    }
}

// The type of a component, if its name is the whole designator.
fn component_alone(env: &Environment, name: &Identifier, selectors: &[Selector]) -> Option<usize>
    ensures { result ≡ parts.component_alone env.now name.now
        (selectors_of (map selector selectors.now)) }
{
    match selectors {
        [] => component(env, name),
        _ => None,
    }
}

fn lone_component(env: &Environment, value: &Expression) -> Option<usize>
    ensures { result ≡ st.lone_component env.now (expression value.now) }
{
    let d = designator_of(value)?;
    component_alone(env, &d.root, &d.selectors)
}

// Judges a right side and returns its type. A component's name is judged as a value only if the
// left side isn't a component.
fn right(
    env: &Environment,
    diagnostics: &mut Diagnostics,
    to_component: bool,
    value: &Expression,
) -> Option<usize>
    ensures { Reports diagnostics.old diagnostics.new result (parts.right env.now to_component (expression value.now)) }
{
    if to_component {
        if let Some(t) = lone_component(env, value) {
            return Some(t);
        }
    }
    judge(env, diagnostics, Mode::Value, value)
}

fn is_component_type(env: &Environment, target: Option<usize>) -> bool
    ensures { result ≡ parts.is_component_if env.now target }
{
    match target {
        Some(t) => env.is_component(t),
        None => false,
    }
}

fn judge_sides(
    env: &Environment,
    diagnostics: &mut Diagnostics,
    at: usize,
    a: usize,
    b: usize,
) -> Option<usize>
    ensures { Reports diagnostics.old diagnostics.new result (st.c2_sides env.now at a b) }
{
    if env.agree(a, b) {
        return Some(a);
    }
    report_violation(diagnostics, Rule::C2, at)
}

// C2: the sides of an assignment don't agree.
fn sides(
    env: &Environment,
    diagnostics: &mut Diagnostics,
    at: usize,
    found: Option<usize>,
    other: Option<usize>,
) -> Option<usize>
    ensures { ReportsBoth diagnostics.old diagnostics.new found other result (st.c2_sides env.now at) }
{
    judge_sides(env, diagnostics, at, found?, other?)
}

/// Judges an assignment, whose `:=` is at `at`. C2: its sides don't agree. C10: the left side isn't
/// a variable.
pub fn judge_assignment(
    env: &Environment,
    diagnostics: &mut Diagnostics,
    designated: &Designator,
    at: usize,
    value: &Expression,
)
    ensures { diagnostics.new ≡ least diagnostics.old
        (st.assignment env.now (designator designated.now) at (expression value.now)) }
{
    let a = left(env, diagnostics, designated);
    let b = right(env, diagnostics, is_component_type(env, a), value);
    sides(env, diagnostics, at, a, b);
}
