//! Calls of routines: what a routine wants as arguments, and what it gives.

ghost use Rattle.std.specs.Prelude.{◌≡◌, ◌∷◌, [], map, Option, None, Some, slice_get, length, nat_eq};
ghost use Rattle.cp_model.specs.RulesEnvironment as r;
ghost use Rattle.cp_model.specs.RulesNames as n;
ghost use Rattle.cp_model.specs.RulesJudged.{meaning_of, Sound};
ghost use Rattle.cp_model.specs.View.{designator};
ghost use Rattle.cp_rules_body.specs.Callees.{wants_of, wants_if, ReportsCallee, ReportsWherever};
ghost use Rattle.cp_rules_body.specs.Reports.{Reports, ReportsOf};

use crate::diagnostics::{Diagnostics, answer_if, report, report_violation, unless_holds};
use crate::environment::Environment;
use crate::names::{in_place, outside_definition, sort_rule};
use crate::places::last_name;
use crate::standard::{
    judge_standard_function_call, judge_standard_procedure_call, standard_wants,
};
use cp_model::rules::{
    Entity, Gives, Mode, ParameterRow, Returns, RoutineRow, Rule, Violation, Want,
};
use cp_model::tree::{Designator, Identifier};

/// What the arguments of a call must satisfy.
#[derive(Clone, Copy)]
pub enum Wants {
    Nothing,
    One(Want),
    /// Parameters: the number of the first one, and how many there are.
    Parameters(usize, usize),
}

/// The routine that is called: what it wants, and what it gives.
#[derive(Clone, Copy)]
pub struct Callee {
    pub wants: Wants,
    pub gives: Gives,
}

/// A call: what its arguments must satisfy, even if something is broken in its name, and the
/// routine that is called.
#[derive(Clone, Copy)]
pub struct Called {
    pub(crate) wants: Wants,
    pub(crate) callee: Option<Callee>,
}

/// What a routine gives if it is called as a function. C2: the number of arguments is wrong.
/// `rule`: the routine is a procedure.
fn gives(
    diagnostics: &mut Diagnostics,
    rule: Rule,
    name: &Identifier,
    fits: bool,
    returns: Returns,
) -> Option<Gives>
    ensures { Reports diagnostics.old diagnostics.new result (n.function_gives rule name.now fits returns) }
{
    match returns {
        Returns::Nothing => report_violation(
            diagnostics,
            if fits { rule } else { Rule::C2 },
            name.at,
        ),
        Returns::Value(t) => {
            if fits {
                return Some(Gives::Value(t));
            }
            report_violation(diagnostics, Rule::C2, name.at)
        }
        Returns::Broken(violation) => {
            unless_holds(diagnostics, fits, Rule::C2, name.at);
            report(diagnostics, violation);
            None
        }
    }
}

// Judges a call of a routine as a function with `count` arguments.
fn judge_function_call(
    diagnostics: &mut Diagnostics,
    rule: Rule,
    name: &Identifier,
    count: usize,
    row: RoutineRow,
) -> Option<Callee>
    ensures { ReportsWherever diagnostics.old diagnostics.new result
        (λ env. n.function_called env rule name.now count row) }
{
    let gives = gives(diagnostics, rule, name, row.count == count, row.returns)?;
    Some(Callee {
        wants: Wants::Parameters(row.first, row.count),
        gives,
    })
}

fn is_procedure(returns: Returns) -> bool
    ensures { result ≡ n.is_procedure returns }
{
    matches!(returns, Returns::Nothing)
}

// Judges a call of a routine as a procedure with `count` arguments.
fn judge_procedure_call(
    diagnostics: &mut Diagnostics,
    name: &Identifier,
    count: usize,
    row: RoutineRow,
) -> Option<Callee>
    ensures { ReportsWherever diagnostics.old diagnostics.new result
        (λ env. n.procedure_called env name.now count row) }
{
    if is_procedure(row.returns) && row.count == count {
        return Some(Callee {
            wants: Wants::Parameters(row.first, row.count),
            gives: Gives::Nothing,
        });
    }
    report_violation(diagnostics, Rule::C2, name.at)
}

/// C5: a routine without `entry` is after a component's `.`.
pub fn has_entry(diagnostics: &mut Diagnostics, name: &Identifier, row: RoutineRow) -> bool
    ensures { ReportsOf diagnostics.old diagnostics.new result (n.c5_without_entry name.now row) }
{
    unless_holds(diagnostics, row.entry, Rule::C5, name.at)
}

// C5: an entry routine is called by its bare name.
fn by_name(diagnostics: &mut Diagnostics, name: &Identifier, row: RoutineRow) -> bool
    ensures { ReportsOf diagnostics.old diagnostics.new result (n.c5_by_name name.now row) }
{
    unless_holds(diagnostics, !row.entry, Rule::C5, name.at)
}

/// Judges a call of a function with `count` arguments.
#[tactic(auto, using(crate::proofs::CalleesReported::also_callee))]
pub fn function(
    env: &Environment,
    diagnostics: &mut Diagnostics,
    mode: Mode,
    designated: &Designator,
    count: usize,
    entity: Entity,
) -> Option<Callee>
    ensures { ReportsCallee env.now diagnostics.old diagnostics.new result
        (n.function_of env.now mode (designator designated.now) count entity) }
{
    let x = last_name(designated);
    let rule = sort_rule(mode, designated);
    match entity {
        Entity::Routine(number) => {
            let row = env.routine(number);
            let by_name = by_name(diagnostics, x, row);
            answer_if(
                by_name,
                judge_function_call(diagnostics, rule, x, count, row),
            )
        }
        Entity::Entry(number) => {
            let row = env.routine(number);
            let has_entry = has_entry(diagnostics, x, row);
            answer_if(
                has_entry,
                judge_function_call(diagnostics, rule, x, count, row),
            )
        }
        Entity::UnfinishedRoutine(row) => {
            let finished = outside_definition(diagnostics, x, entity);
            answer_if(
                finished,
                judge_function_call(diagnostics, rule, x, count, row),
            )
        }
        Entity::Standard(standard) => {
            let in_place = in_place(env, diagnostics, x, Entity::Standard(standard));
            answer_if(
                in_place,
                judge_standard_function_call(diagnostics, rule, x, count, standard),
            )
        }
        _ => {
            outside_definition(diagnostics, x, entity);
            report_violation(diagnostics, rule, x.at)
        }
    }
}

/// Judges a call of a procedure with `count` arguments.
#[tactic(auto, using(crate::proofs::CalleesReported::also_callee))]
pub fn procedure(
    env: &Environment,
    diagnostics: &mut Diagnostics,
    designated: &Designator,
    count: usize,
    entity: Entity,
) -> Option<Callee>
    ensures { ReportsCallee env.now diagnostics.old diagnostics.new result
        (n.procedure_of env.now (designator designated.now) count entity) }
{
    let x = last_name(designated);
    match entity {
        Entity::Routine(number) => {
            let row = env.routine(number);
            let by_name = by_name(diagnostics, x, row);
            answer_if(by_name, judge_procedure_call(diagnostics, x, count, row))
        }
        Entity::Entry(number) => {
            let row = env.routine(number);
            let has_entry = has_entry(diagnostics, x, row);
            answer_if(has_entry, judge_procedure_call(diagnostics, x, count, row))
        }
        Entity::UnfinishedRoutine(row) => {
            let finished = outside_definition(diagnostics, x, entity);
            answer_if(finished, judge_procedure_call(diagnostics, x, count, row))
        }
        Entity::Standard(standard) => {
            let in_place = in_place(env, diagnostics, x, Entity::Standard(standard));
            answer_if(
                in_place,
                judge_standard_procedure_call(diagnostics, x, count, standard),
            )
        }
        _ => {
            outside_definition(diagnostics, x, entity);
            report_violation(diagnostics, Rule::C2, x.at)
        }
    }
}

fn parameters(row: RoutineRow) -> Wants
    ensures { (env : r.Environment) → wants_of env result ≡ n.wants_of env row }
{
    Wants::Parameters(row.first, row.count)
}

// What the arguments of a call must satisfy, whatever is broken in the call.
fn wants_of_entity(env: &Environment, entity: Entity) -> Wants
    ensures { wants_of env.now result ≡ n.wants_named env.now (Sound entity) }
{
    match entity {
        Entity::Routine(number) => parameters(env.routine(number)),
        Entity::Entry(number) => parameters(env.routine(number)),
        Entity::UnfinishedRoutine(row) => parameters(row),
        Entity::Standard(standard) => standard_wants(standard),
        _ => Wants::Nothing,
    }
}

/// What the arguments of a call must satisfy: nothing if it isn't known what is called.
pub fn wants_of_call(env: &Environment, entity: Option<Entity>, callee: Option<Callee>) -> Wants
    ensures { wants_of env.now result ≡ wants_if env.now entity callee }
{
    match (callee, entity) {
        (Some(callee), _) => callee.wants,
        (None, Some(entity)) => wants_of_entity(env, entity),
        (None, None) => Wants::Nothing,
    }
}

/// The parameter with this number, counted from 0, among the `count` parameters from `first` on.
pub fn parameter(
    env: &Environment,
    first: usize,
    count: usize,
    number: usize,
) -> Option<ParameterRow>
    ensures { result ≡ slice_get (r.parameters_from env.now first count) number }
{
    if number < count {
        env.parameter(first, number)
    } else {
        None
    }
}

/// What the argument with this number, counted from 0, must satisfy.
pub fn want(env: &Environment, wants: Wants, number: usize) -> Option<Want>
    ensures { result ≡ slice_get (wants_of env.now wants) number }
{
    match wants {
        Wants::Nothing => None,
        Wants::One(want) => { if number == 0 { Some(want) } else { None } }
        Wants::Parameters(first, count) => {
            let p = parameter(env, first, count, number)?;
            Some(Want::Parameter(p))
        }
    }
}
