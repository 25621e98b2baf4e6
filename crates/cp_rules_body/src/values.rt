//! The uses of a designator: as a value, or where a variable is wanted.

ghost use Rattle.std.specs.Prelude.{◌≡◌, ◌++◌, [], ◌∷◌, IfSome, map, Option, None, Some};
ghost use Rattle.cp_model.specs.RulesEnvironment as r;
ghost use Rattle.cp_model.specs.RulesNames as n;
ghost use Rattle.cp_model.specs.View.{designator, expression, selector, selectors_of};
ghost use Rattle.cp_model.specs.RulesJudged.{Sound};
ghost use Rattle.cp_rules_body.specs.ExpressionParts.{judge_use};
ghost use Rattle.cp_rules_body.specs.Reports.{Reports, ReportsOf};
ghost use Rattle.cp_rules_body.specs.Designated.{designator_if, designator_in, is_plain};

use crate::bases::INTEGER;
use crate::callees::function;
use crate::diagnostics::{Diagnostics, report_violation, unless_holds};
use crate::environment::Environment;
use crate::names::{anywhere, find_entity, outside_definition, sort_rule};
use crate::places::{first_name, last_name};
use cp_model::rules::{Access, Entity, Gives, Mode, Rule};
use cp_model::tree::{Designator, Expression, Identifier, Selector};

/// The type of what a call gives, if its first argument is of the type `argument`.
pub fn result_type(env: &Environment, argument: usize, gives: Gives) -> usize
    ensures { result ≡ n.given_type env.now argument gives }
{
    match gives {
        Gives::Value(t) => t,
        Gives::ArgumentBase => env.base(argument).unwrap_or(argument),
        Gives::Nothing => argument,
    }
}

// Judges a routine without arguments as a call of a function. C10: a variable is wanted.
fn function_alone(
    env: &Environment,
    diagnostics: &mut Diagnostics,
    mode: Mode,
    designated: &Designator,
    entity: Entity,
) -> Option<Gives>
    ensures { Reports diagnostics.old diagnostics.new result
        (n.function_alone env.now mode (designator designated.now) entity) }
{
    match mode {
        Mode::Variable => {
            anywhere(env, diagnostics, first_name(designated), entity);
            report_violation(diagnostics, Rule::C10, first_name(designated).at)
        }
        _ => {
            let callee = function(env, diagnostics, mode, designated, 0, entity)?;
            Some(callee.gives)
        }
    }
}

fn is_no_component(env: &Environment, mode: Mode, t: usize) -> bool
    ensures { result ≡ n.is_used_as_component mode env.now t }
{
    match mode {
        Mode::Variable => true,
        _ => !env.is_component(t),
    }
}

/// The type of a designator that is used as a value. C2 or C10: its name is of another sort, or a
/// component is used as a value.
pub fn value(
    env: &Environment,
    diagnostics: &mut Diagnostics,
    mode: Mode,
    designated: &Designator,
    entity: Entity,
) -> Option<usize>
    ensures { Reports diagnostics.old diagnostics.new result (n.value_of env.now mode (designator designated.now) entity) }
{
    match entity {
        Entity::Constant(base, _) => Some(base),
        Entity::Variable(t, _) => {
            if is_no_component(env, mode, t) {
                return Some(t);
            }
            report_violation(
                diagnostics,
                sort_rule(mode, designated),
                last_name(designated).at,
            )
        }
        Entity::Type(_) => report_violation(
            diagnostics,
            sort_rule(mode, designated),
            last_name(designated).at,
        ),
        Entity::UnfinishedConstant => {
            outside_definition(diagnostics, last_name(designated), entity);
            report_violation(
                diagnostics,
                sort_rule(mode, designated),
                last_name(designated).at,
            )
        }
        Entity::UnfinishedType => {
            outside_definition(diagnostics, last_name(designated), entity);
            report_violation(
                diagnostics,
                sort_rule(mode, designated),
                last_name(designated).at,
            )
        }
        _ => {
            let gives = function_alone(env, diagnostics, mode, designated, entity)?;
            Some(result_type(env, INTEGER, gives))
        }
    }
}

/// Whether a variable with this access may be changed.
pub fn is_changeable(access: Access) -> bool
    ensures { result ≡ n.is_changeable access }
{
    !matches!(access, Access::Passive)
}

fn selects_field_first(selectors: &[Selector]) -> bool
    ensures { result ≡ n.selects_field_first (selectors_of (map selector selectors.now)) }
{
    matches!(selectors, [Selector::Field { .. }, ..])
}

/// Whether a name with these selectors is a variable or a part of one. An unknown name passes,
/// since it is reported elsewhere.
pub fn is_variable(env: &Environment, name: &Identifier, selectors: &[Selector]) -> bool
    ensures { result ≡ n.is_variable env.now (selectors_of (map selector selectors.now))
        (r.c1_named env.now name.now) }
{
    match find_entity(env, name) {
        Some(Entity::Variable(t, access)) => {
            is_changeable(access) && !(env.is_component(t) && selects_field_first(selectors))
        }
        Some(_) => false,
        None => true,
    }
}

/// C10: a designator isn't a variable, a `var` parameter or a part of one.
pub fn designates_variable(
    env: &Environment,
    diagnostics: &mut Diagnostics,
    designated: &Designator,
) -> bool
    ensures { ReportsOf diagnostics.old diagnostics.new result (n.c10_designator env.now (designator designated.now)) }
{
    unless_holds(
        diagnostics,
        is_variable(env, &designated.root, &designated.selectors),
        Rule::C10,
        designated.root.at,
    )
}

/// Whether a variable of the type may be used by its name alone: it has no queues, and isn't a
/// component that is used as a value.
pub fn is_plain(env: &Environment, mode: Mode, t: usize) -> bool
    ensures { result ≡ is_plain env.now mode t }
{
    !env.has_queues(t) && is_no_component(env, mode, t)
}

/// The type of a designator that is the name of a variable, if nothing is broken in its use. So the
/// commonest designators are looked up once, and the rules about others are judged one by one.
pub fn plain_variable(env: &Environment, mode: Mode, designated: &Designator) -> Option<usize>
    ensures { IfSome result (λ t. judge_use env.now mode (designator designated.now) ≡ Sound t) }
{
    if !designated.selectors.is_empty() {
        return None;
    }
    match find_entity(env, &designated.root) {
        Some(Entity::Variable(t, _)) => {
            if is_plain(env, mode, t) {
                Some(t)
            } else {
                None
            }
        }
        _ => None,
    }
}

/// The designator, if the expression is one. A chain of one operand counts as that operand.
pub fn designator_of(value: &Expression) -> Option<&Designator>
    ensures { designator_if result ≡ designator_in (expression value.now) }
{
    match value {
        Expression::Designated(d) => Some(d),
        Expression::Chain { first, rest } => match rest.as_slice() {
            [] => designator_of(first),
            _ => None,
        },
        _ => None,
    }
}

/// C10: an expression that must be a variable isn't one.
pub fn variable(env: &Environment, diagnostics: &mut Diagnostics, value: &Expression) -> bool
    ensures { ReportsOf diagnostics.old diagnostics.new result (n.c10_variable env.now (expression value.now)) }
{
    match designator_of(value) {
        Some(d) => designates_variable(env, diagnostics, d),
        None => unless_holds(diagnostics, false, Rule::C10, value.first_token()),
    }
}
