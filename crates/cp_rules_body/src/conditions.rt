//! Conditions, selectors of `case`, and the variable and the bounds of `for`.

ghost use Rattle.std.specs.Prelude.{◌≡◌, ◌++◌, [], ◌∷◌, map, ℕ, Option, None, Some};
ghost use Rattle.cp_model.specs.RulesEnvironment as r;
ghost use Rattle.cp_model.specs.RulesNames as n;
ghost use Rattle.cp_model.specs.RulesJudged.{Judged, least, meaning_of, guard};
ghost use Rattle.cp_model.specs.declared.rules.Rule.TheVariants.{C2};
ghost use Rattle.cp_model.specs.declared.rules.Mode.TheVariants as mode;
ghost use Rattle.cp_model.specs.RulesStatements as st;
ghost use Rattle.cp_model.specs.View.{designator, expression, selector, selectors_of};
ghost use Rattle.cp_rules_body.specs.StatementParts as parts;
ghost use Rattle.cp_rules_body.specs.Reports.{Reports, ReportsOf};

use crate::bases::{BOOLEAN, is_base};
use crate::diagnostics::{Diagnostics, answer_if, report_violation, unless_holds};
use crate::environment::Environment;
use crate::expressions::judge;
use crate::names::{anywhere, judge_name, outside_definition, queue_in_place};
use crate::values::is_variable;
use cp_model::rules::{Entity, Mode, Rule};
use cp_model::tree::{Expression, Identifier};

// C2: the type isn't one that is wanted.
fn require_type(diagnostics: &mut Diagnostics, fits: bool, at: usize, t: usize) -> Option<usize>
    ensures { Reports diagnostics.old diagnostics.new result (guard fits C2 at t) }
{
    if fits {
        return Some(t);
    }
    report_violation(diagnostics, Rule::C2, at)
}

/// C2: a condition isn't Boolean.
pub fn condition(
    env: &Environment,
    diagnostics: &mut Diagnostics,
    value: &Expression,
) -> Option<usize>
    ensures { Reports diagnostics.old diagnostics.new result (st.c2_condition env.now (expression value.now)) }
{
    let t = judge(env, diagnostics, Mode::Value, value)?;
    require_type(
        diagnostics,
        is_base(BOOLEAN, env.base(t)),
        value.first_token(),
        t,
    )
}

/// C2: the selector of a `case` isn't simple.
pub fn selector(
    env: &Environment,
    diagnostics: &mut Diagnostics,
    value: &Expression,
) -> Option<usize>
    ensures { Reports diagnostics.old diagnostics.new result (st.c2_selector env.now (expression value.now)) }
{
    let t = judge(env, diagnostics, Mode::Value, value)?;
    require_type(diagnostics, env.is_simple(t), value.first_token(), t)
}

/// C2: a bound of a `for` doesn't agree with its variable, if the type of the variable is known.
pub fn bound(
    env: &Environment,
    diagnostics: &mut Diagnostics,
    variable: Option<usize>,
    value: &Expression,
) -> Option<usize>
    ensures { (j : Judged ℕ) → variable ≡ meaning_of j
        → Reports diagnostics.old diagnostics.new result (st.bound env.now j (expression value.now)) }
{
    let u = judge(env, diagnostics, Mode::Value, value)?;
    match variable {
        Some(t) => require_type(diagnostics, env.agree(t, u), value.first_token(), u),
        None => Some(u),
    }
}

// The type of a bare name where a variable is wanted. C10: it is neither a variable nor a constant.
fn plain_value(
    env: &Environment,
    diagnostics: &mut Diagnostics,
    name: &Identifier,
    entity: Entity,
) -> Option<usize>
    ensures { Reports diagnostics.old diagnostics.new result
        (n.value_of env.now mode.Variable (st.plain name.now) entity) }
{
    match entity {
        Entity::Constant(base, _) => Some(base),
        Entity::Variable(t, _) => Some(t),
        Entity::Type(_) => report_violation(diagnostics, Rule::C10, name.at),
        Entity::UnfinishedConstant => {
            outside_definition(diagnostics, name, entity);
            report_violation(diagnostics, Rule::C10, name.at)
        }
        Entity::UnfinishedType => {
            outside_definition(diagnostics, name, entity);
            report_violation(diagnostics, Rule::C10, name.at)
        }
        _ => {
            anywhere(env, diagnostics, name, entity);
            report_violation(diagnostics, Rule::C10, name.at)
        }
    }
}

fn plain_name(env: &Environment, diagnostics: &mut Diagnostics, name: &Identifier) -> Option<usize>
    ensures { Reports diagnostics.old diagnostics.new result (parts.plain_name env.now name.now) }
{
    let entity = judge_name(env, diagnostics, name)?;
    plain_value(env, diagnostics, name, entity)
}

fn plain_variable(
    env: &Environment,
    diagnostics: &mut Diagnostics,
    name: &Identifier,
) -> Option<usize>
    ensures { Reports diagnostics.old diagnostics.new result (parts.plain_variable env.now name.now) }
{
    let no_queue = queue_in_place(env, diagnostics, Mode::Variable, name);
    let t = plain_name(env, diagnostics, name);
    answer_if(no_queue, t)
}

fn simple_variable(
    env: &Environment,
    diagnostics: &mut Diagnostics,
    name: &Identifier,
) -> Option<usize>
    ensures { Reports diagnostics.old diagnostics.new result (parts.simple_variable env.now name.now) }
{
    let t = plain_variable(env, diagnostics, name)?;
    require_type(diagnostics, env.is_simple(t), name.at, t)
}

// C10: the variable of a `for` isn't a variable. C2: it isn't simple.
fn for_variable(
    env: &Environment,
    diagnostics: &mut Diagnostics,
    name: &Identifier,
) -> Option<usize>
    ensures { Reports diagnostics.old diagnostics.new result (st.for_variable env.now name.now) }
{
    let changeable = unless_holds(diagnostics, is_variable(env, name, &[]), Rule::C10, name.at);
    let t = simple_variable(env, diagnostics, name);
    answer_if(changeable, t)
}

/// Judges the variable and the bounds of a `for`.
pub fn for_header(
    env: &Environment,
    diagnostics: &mut Diagnostics,
    name: &Identifier,
    from: &Expression,
    last: &Expression,
)
    ensures { diagnostics.new ≡ least diagnostics.old
        (parts.for_header env.now name.now (expression from.now) (expression last.now)) }
{
    let t = for_variable(env, diagnostics, name);
    bound(env, diagnostics, t, from);
    bound(env, diagnostics, t, last);
}
