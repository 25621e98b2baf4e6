//! Calls of procedures as statements.

ghost use Rattle.std.specs.Prelude.{◌≡◌, ◌++◌, [], ◌∷◌, map, length, Option, None, Some};
ghost use Rattle.cp_model.specs.RulesJudged.{Judged, least};
ghost use Rattle.cp_model.specs.RulesExpressions as x;
ghost use Rattle.cp_model.specs.declared.rules.Entity.{Entity as EntityValue};
ghost use Rattle.cp_model.specs.RulesStatements as st;
ghost use Rattle.cp_model.specs.View.{designator, expression, expressions_of};
ghost use Rattle.cp_rules_body.specs.Callees.{wants_of, ReportsCallee};
ghost use Rattle.cp_rules_body.specs.StatementParts as parts;
ghost use Rattle.cp_rules_body.specs.Reports.{Reports};

use crate::callees::{Called, Callee, procedure, wants_of_call};
use crate::designators::{names_fit, no_indexed_value};
use crate::diagnostics::{Diagnostics, answer_if};
use crate::environment::Environment;
use crate::expressions::{arguments, judge_designator};
use cp_model::rules::{Entity, Mode, Violation};
use cp_model::tree::{Designator, Expression};

// The procedure that is called, if it is known what its name represents.
fn procedure_if(
    env: &Environment,
    diagnostics: &mut Diagnostics,
    designated: &Designator,
    count: usize,
    entity: Option<Entity>,
) -> Option<Callee>
    ensures { (t : Option Violation) (j : Judged EntityValue) → Reports t diagnostics.old entity j
        → ReportsCallee env.now t diagnostics.new result
        (parts.procedure_if env.now (designator designated.now) count j) }
{
    let entity = entity?;
    procedure(env, diagnostics, designated, count, entity)
}

fn judge_callee(
    env: &Environment,
    diagnostics: &mut Diagnostics,
    designated: &Designator,
    count: usize,
) -> Called
    ensures callee { ReportsCallee env.now diagnostics.old diagnostics.new result.callee
        (parts.procedure_called env.now (designator designated.now) count) }
    ensures wants { wants_of env.now result.wants ≡ x.wants_in env.now
        (x.designate env.now (designator designated.now))
        (parts.procedure_called env.now (designator designated.now) count) }
{
    let no_value = no_indexed_value(env, diagnostics, Mode::Value, designated);
    let entity = judge_designator(env, diagnostics, designated);
    let procedure = procedure_if(env, diagnostics, designated, count, entity);
    let callee = answer_if(no_value, procedure);
    Called {
        wants: wants_of_call(env, entity, callee),
        callee,
    }
}

/// Judges a call of a procedure. C2: what is called isn't a procedure, or an argument doesn't fit.
pub fn judge_call(
    env: &Environment,
    diagnostics: &mut Diagnostics,
    designated: &Designator,
    list: &[Expression],
)
    ensures { diagnostics.new ≡ least diagnostics.old
        (st.call_statement env.now (designator designated.now) (expressions_of (map expression list.now))) }
{
    names_fit(env, diagnostics, Mode::Value, designated);
    let called = judge_callee(env, diagnostics, designated, list.len());
    arguments(env, diagnostics, called.wants, list);
}
