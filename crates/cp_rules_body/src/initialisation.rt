//! The statement `init`: the components that it names, and their arguments.

ghost use Rattle.std.specs.Prelude.{◌≡◌, ◌++◌, [], ◌∷◌, map, length, IfSome, Option, None, Some, slice_get};
ghost use Rattle.cp_model.specs.RulesEnvironment as r;
ghost use Rattle.cp_model.specs.RulesExpressions as x;
ghost use Rattle.cp_model.specs.RulesJudged.{Sound, least, meaning_of, then_judge, violations_of};
ghost use Rattle.cp_model.specs.RulesNames as n;
ghost use Rattle.cp_model.specs.declared.rules.Mode.TheVariants as mode;
ghost use Rattle.cp_model.specs.RulesStatements as st;
ghost use Rattle.cp_model.specs.View.{designator, expression, expressions_of, init_item};
ghost use Rattle.cp_rules_body.specs.InitParts as parts;
ghost use Rattle.cp_rules_body.specs.Reports.{Reports};

use crate::bases::INTEGER;
use crate::callees::parameter;
use crate::designators::names_fit;
use crate::diagnostics::{Diagnostics, answer_if, report, report_violation, unless_holds};
use crate::environment::Environment;
use crate::expressions::{self, judge};
use crate::names::{anywhere, find_entity, is_in_routine, judge_name, queue_in_place};
use crate::places::last_name;
use crate::values::designator_of;
use cp_model::rules::{Access, Entity, Mode, Rule, SystemRow, Violation};
use cp_model::tree::{Designator, Expression, Identifier, InitItem, Selector};

fn own_system(
    diagnostics: &mut Diagnostics,
    name: &Identifier,
    access: Access,
    system: Option<usize>,
) -> Option<usize>
    ensures { Reports diagnostics.old diagnostics.new result (st.system_initialised name.now access system) }
{
    match access {
        Access::Own => match system {
            Some(y) => Some(y),
            None => report_violation(diagnostics, Rule::C12, name.at),
        },
        _ => report_violation(diagnostics, Rule::C12, name.at),
    }
}

// C12: `init` names something that isn't a component variable of this component.
fn own_component(
    env: &Environment,
    diagnostics: &mut Diagnostics,
    name: &Identifier,
    entity: Entity,
) -> Option<usize>
    ensures { Reports diagnostics.old diagnostics.new result (st.c12_component env.now name.now entity) }
{
    match entity {
        Entity::Variable(t, access) => own_system(diagnostics, name, access, env.system(t)),
        _ => {
            anywhere(env, diagnostics, name, entity);
            report_violation(diagnostics, Rule::C12, name.at)
        }
    }
}

fn system_of_component(
    env: &Environment,
    diagnostics: &mut Diagnostics,
    name: &Identifier,
) -> Option<usize>
    ensures { Reports diagnostics.old diagnostics.new result
        (then_judge (r.c1_named env.now name.now) (st.c12_component env.now name.now)) }
{
    let entity = judge_name(env, diagnostics, name)?;
    own_component(env, diagnostics, name, entity)
}

// C12: a wrong number of arguments.
fn judge_argument_count(
    env: &Environment,
    diagnostics: &mut Diagnostics,
    name: &Identifier,
    count: usize,
    y: usize,
) -> Option<SystemRow>
    ensures { Reports diagnostics.old diagnostics.new result (st.c12_count env.now name.now count y) }
{
    let row = env.system_row(y);
    if row.count == count {
        return Some(row);
    }
    report_violation(diagnostics, Rule::C12, name.at)
}

// The system type that is initialised, whatever the number of arguments is.
fn component(
    env: &Environment,
    diagnostics: &mut Diagnostics,
    name: &Identifier,
    count: usize,
) -> Option<usize>
    ensures diagnostics { diagnostics.new ≡ least diagnostics.old (violations_of (parts.component env.now name.now count)) }
    ensures system { result ≡ meaning_of (parts.system env.now name.now) }
{
    let y = system_of_component(env, diagnostics, name)?;
    judge_argument_count(env, diagnostics, name, count, y);
    Some(y)
}

// ---- an argument without requirements, or one that must be a component's name

fn unused_entity(
    env: &Environment,
    diagnostics: &mut Diagnostics,
    designated: &Designator,
    entity: Entity,
) -> Option<usize>
    ensures { Reports diagnostics.old diagnostics.new result (st.surplus_name env.now (designator designated.now) entity) }
{
    let in_place = anywhere(env, diagnostics, last_name(designated), entity);
    answer_if(in_place, Some(INTEGER))
}

fn unused_designator(
    env: &Environment,
    diagnostics: &mut Diagnostics,
    designated: &Designator,
) -> Option<usize>
    ensures { Reports diagnostics.old diagnostics.new result
        (then_judge (x.designate env.now (designator designated.now))
        (st.surplus_name env.now (designator designated.now))) }
{
    let entity = expressions::judge_designator(env, diagnostics, designated)?;
    unused_entity(env, diagnostics, designated, entity)
}

fn unwanted_designator(
    env: &Environment,
    diagnostics: &mut Diagnostics,
    designated: &Designator,
) -> Option<usize>
    ensures { Reports diagnostics.old diagnostics.new result
        (parts.unwanted_designator env.now (designator designated.now)) }
{
    let fits = names_fit(env, diagnostics, Mode::Value, designated);
    let t = unused_designator(env, diagnostics, designated);
    answer_if(fits, t)
}

// Judges an argument without requirements. What a designator represents isn't judged as a value.
fn unwanted_argument(
    env: &Environment,
    diagnostics: &mut Diagnostics,
    value: &Expression,
) -> Option<usize>
    ensures { Reports diagnostics.old diagnostics.new result (st.surplus_argument env.now (expression value.now)) }
{
    match designator_of(value) {
        Some(d) => unwanted_designator(env, diagnostics, d),
        None => judge(env, diagnostics, Mode::Value, value),
    }
}

// C12: an argument isn't of the component type that is wanted.
fn passed_entity(
    env: &Environment,
    diagnostics: &mut Diagnostics,
    wanted: usize,
    name: &Identifier,
    entity: Entity,
) -> Option<usize>
    ensures { Reports diagnostics.old diagnostics.new result (st.c12_passed env.now wanted name.now entity) }
{
    match entity {
        Entity::Variable(t, _) => {
            if t == wanted {
                return Some(t);
            }
            report_violation(diagnostics, Rule::C12, name.at)
        }
        _ => {
            anywhere(env, diagnostics, name, entity);
            report_violation(diagnostics, Rule::C12, name.at)
        }
    }
}

fn passed_name(
    env: &Environment,
    diagnostics: &mut Diagnostics,
    wanted: usize,
    name: &Identifier,
) -> Option<usize>
    ensures { Reports diagnostics.old diagnostics.new result
        (then_judge (r.c1_named env.now name.now) (st.c12_passed env.now wanted name.now)) }
{
    let entity = judge_name(env, diagnostics, name)?;
    passed_entity(env, diagnostics, wanted, name, entity)
}

fn name_argument(
    env: &Environment,
    diagnostics: &mut Diagnostics,
    wanted: usize,
    name: &Identifier,
) -> Option<usize>
    ensures { Reports diagnostics.old diagnostics.new result (parts.name_argument env.now wanted name.now) }
{
    let no_queue = queue_in_place(env, diagnostics, Mode::Value, name);
    let t = passed_name(env, diagnostics, wanted, name);
    answer_if(no_queue, t)
}

// The name, if it has no selectors.
fn whole_name<'t>(name: &'t Identifier, selectors: &[Selector]) -> Option<&'t Identifier>
    ensures { parts.name_if result ≡ parts.whole_name name.now (parts.selectors selectors.now) }
{
    match selectors {
        [] => Some(name),
        _ => None,
    }
}

// The name, if the expression is a bare name.
fn name_alone(value: &Expression) -> Option<&Identifier>
    ensures { parts.name_if result ≡ parts.name_alone (expression value.now) }
{
    let d = designator_of(value)?;
    whole_name(&d.root, &d.selectors)
}

// C12: the argument for a component parameter isn't a name.
fn component_argument(
    env: &Environment,
    diagnostics: &mut Diagnostics,
    wanted: usize,
    value: &Expression,
) -> Option<usize>
    ensures { Reports diagnostics.old diagnostics.new result
        (st.component_argument env.now wanted (expression value.now)) }
{
    match name_alone(value) {
        Some(x) => name_argument(env, diagnostics, wanted, x),
        None => {
            report(
                diagnostics,
                Violation {
                    rule: Rule::C12,
                    at: value.first_token(),
                },
            );
            unwanted_argument(env, diagnostics, value);
            None
        }
    }
}

fn simple_agrees(
    env: &Environment,
    diagnostics: &mut Diagnostics,
    wanted: usize,
    value: &Expression,
    t: usize,
) -> Option<usize>
    ensures { Reports diagnostics.old diagnostics.new result
        (parts.simple_agrees env.now wanted (expression value.now) t) }
{
    if env.agree(wanted, t) {
        return Some(t);
    }
    report_violation(diagnostics, Rule::C12, value.first_token())
}

// C12: an argument doesn't agree with its simple parameter.
fn simple_argument(
    env: &Environment,
    diagnostics: &mut Diagnostics,
    wanted: usize,
    value: &Expression,
) -> Option<usize>
    ensures { Reports diagnostics.old diagnostics.new result
        (parts.simple_argument env.now wanted (expression value.now)) }
{
    let t = judge(env, diagnostics, Mode::Value, value)?;
    simple_agrees(env, diagnostics, wanted, value, t)
}

fn argument(
    env: &Environment,
    diagnostics: &mut Diagnostics,
    wanted: Option<usize>,
    value: &Expression,
) -> Option<usize>
    ensures { Reports diagnostics.old diagnostics.new result (st.init_argument env.now wanted (expression value.now)) }
{
    match wanted {
        None => unwanted_argument(env, diagnostics, value),
        Some(wanted) => {
            if env.is_component(wanted) {
                component_argument(env, diagnostics, wanted, value)
            } else {
                simple_argument(env, diagnostics, wanted, value)
            }
        }
    }
}

// The type of the parameter with this number, if it is known.
fn parameter_type(env: &Environment, system: Option<usize>, number: usize) -> Option<usize>
    ensures { result ≡ parts.type_if (slice_get (parts.parameters_if env.now system) number) }
{
    let row = env.system_row(system?);
    let p = parameter(env, row.first, row.count, number)?;
    p.of
}

fn arguments(
    env: &Environment,
    diagnostics: &mut Diagnostics,
    system: Option<usize>,
    list: &[Expression],
)
    ensures { diagnostics.new ≡ least diagnostics.old
        (st.init_arguments env.now (parts.parameters_if env.now system)
        (expressions_of (map expression list.now))) }
{
    for (number, e) in list.iter().enumerate() {
        argument(env, diagnostics, parameter_type(env, system, number), e);
    }
}

// The system type of a component that may be initialised with so many arguments, by one look-up.
fn plain_component(env: &Environment, name: &Identifier, count: usize) -> Option<usize>
    ensures named { IfSome result (λ y. n.c8_named env.now mode.Value name.now ≡ []) }
    ensures component { IfSome result
        (λ y. violations_of (parts.component env.now name.now count) ≡ []) }
    ensures system { IfSome result (λ y. parts.system env.now name.now ≡ Sound y) }
{
    let Some(Entity::Variable(t, Access::Own)) = find_entity(env, name) else {
        return None;
    };
    let y = env.system(t)?;
    if env.has_queues(t) || env.system_row(y).count != count {
        return None;
    }
    Some(y)
}

// Judges the component of an item, and returns its system type, whatever the number of arguments
// is.
fn item_component(
    env: &Environment,
    diagnostics: &mut Diagnostics,
    name: &Identifier,
    count: usize,
) -> Option<usize>
    ensures diagnostics { diagnostics.new ≡ least diagnostics.old (n.c8_named env.now mode.Value name.now ++ violations_of
        (parts.component env.now name.now count)) }
    ensures system { result ≡ meaning_of (parts.system env.now name.now) }
{
    let plain = plain_component(env, name, count);
    if plain.is_some() {
        return plain;
    }
    queue_in_place(env, diagnostics, Mode::Value, name);
    component(env, diagnostics, name, count)
}

fn item(env: &Environment, diagnostics: &mut Diagnostics, item: &InitItem)
    ensures { diagnostics.new ≡ least diagnostics.old (st.init_item env.now (init_item item.now)) }
{
    let system = item_component(env, diagnostics, &item.component, item.arguments.len());
    arguments(env, diagnostics, system, &item.arguments);
}

/// Judges an `init`, whose word is at `at`. C12: it is in a routine, or an item is wrong.
pub fn judge_init(env: &Environment, diagnostics: &mut Diagnostics, at: usize, items: &[InitItem])
    ensures { diagnostics.new ≡ least diagnostics.old (parts.judge_init env.now at (map init_item items.now)) }
{
    unless_holds(
        diagnostics,
        !is_in_routine(env.region().part),
        Rule::C12,
        at,
    );
    for i in items {
        item(env, diagnostics, i);
    }
}
