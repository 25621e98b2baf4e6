//! The rules about a name: whether it is visible, and of which sort it is.

ghost use Rattle.std.specs.Prelude.{◌≡◌, ◌++◌, [], ◌∷◌, map, length, Option, None, Some};
ghost use Rattle.cp_model.specs.RulesEnvironment as r;
ghost use Rattle.cp_model.specs.RulesNames as n;
ghost use Rattle.cp_model.specs.RulesJudged.{meaning_of, unless};
ghost use Rattle.cp_model.specs.View.{designator, selector, selectors_of};
ghost use Rattle.cp_rules_body.specs.Reports.{Reports, ReportsFirst, ReportsOf};

use crate::diagnostics::{
    Diagnostics, fail_with_violation, report, report_violation, unless_holds,
};
use crate::environment::Environment;
use crate::places::{first_name, has_field, last_name};
use cp_model::rules::{
    Access, ArrayPart, Entity, Member, Mode, Part, Region, Rule, Standard, Structure, Violation,
};
use cp_model::tree::{Designator, Identifier, Selector};

/// What a name represents, or the violation. C1: it isn't visible. A violation in its declaration
/// is reported again.
pub fn resolve(
    env: &Environment,
    diagnostics: &mut Diagnostics,
    name: &Identifier,
) -> Result<Entity, Violation>
    ensures { ReportsFirst diagnostics.old diagnostics.new result (r.c1_named env.now name.now) }
{
    match env.find(name.name.as_bytes()) {
        None => fail_with_violation(diagnostics, Rule::C1, name.at),
        Some(Entity::Hidden) => fail_with_violation(diagnostics, Rule::C1, name.at),
        Some(Entity::Broken(violation)) => {
            report(diagnostics, violation);
            Err(violation)
        }
        Some(entity) => Ok(entity),
    }
}

/// What a name represents, or `None` if something is broken in it, which is reported.
pub fn judge_name(
    env: &Environment,
    diagnostics: &mut Diagnostics,
    name: &Identifier,
) -> Option<Entity>
    ensures { Reports diagnostics.old diagnostics.new result (r.c1_named env.now name.now) }
{
    resolve(env, diagnostics, name).ok()
}

/// What a name represents, if that is known. This reports nothing.
pub fn find_entity(env: &Environment, name: &Identifier) -> Option<Entity>
    ensures { result ≡ meaning_of (r.c1_named env.now name.now) }
{
    match env.find(name.name.as_bytes()) {
        None => None,
        Some(Entity::Hidden) => None,
        Some(Entity::Broken(_)) => None,
        Some(entity) => Some(entity),
    }
}

/// C4: a constant, type or routine is named inside its own definition.
pub fn outside_definition(diagnostics: &mut Diagnostics, name: &Identifier, entity: Entity) -> bool
    ensures { ReportsOf diagnostics.old diagnostics.new result (r.c4_unfinished name.now entity) }
{
    let finished = !matches!(
        entity,
        Entity::UnfinishedConstant | Entity::UnfinishedType | Entity::UnfinishedRoutine(_)
    );
    unless_holds(diagnostics, finished, Rule::C4, name.at)
}

/// Whether the part is a routine.
pub fn is_in_routine(part: Part) -> bool
    ensures { result ≡ r.is_in_routine part }
{
    !matches!(part, Part::Body)
}

fn is_in_entry(part: Part) -> bool
    ensures { result ≡ r.is_in_entry part }
{
    matches!(part, Part::EntryRoutine)
}

fn is_allowed(region: Region, standard: Standard) -> bool
    ensures { result ≡ r.is_allowed region standard }
{
    match standard {
        Standard::Delay => region.sort.is_monitor() && is_in_routine(region.part),
        Standard::Empty => region.sort.is_monitor() && is_in_routine(region.part),
        Standard::Continue => region.sort.is_monitor() && is_in_entry(region.part),
        Standard::Wait => region.sort.is_process(),
        _ => true,
    }
}

/// C9: a standard name is used in the wrong place.
pub fn in_place(
    env: &Environment,
    diagnostics: &mut Diagnostics,
    name: &Identifier,
    entity: Entity,
) -> bool
    ensures { ReportsOf diagnostics.old diagnostics.new result (r.c9_standard env.now name.now entity) }
{
    match entity {
        Entity::Standard(standard) => {
            unless_holds(
                diagnostics,
                is_allowed(env.region(), standard),
                Rule::C9,
                name.at,
            )
        }
        _ => true,
    }
}

/// C4 and C9: the rules that apply to a name everywhere.
pub fn anywhere(
    env: &Environment,
    diagnostics: &mut Diagnostics,
    name: &Identifier,
    entity: Entity,
) -> bool
    ensures { ReportsOf diagnostics.old diagnostics.new result (r.c4_c9_named env.now name.now entity) }
{
    let finished = outside_definition(diagnostics, name, entity);
    let in_place = in_place(env, diagnostics, name, entity);
    finished && in_place
}

/// What a member of a record or a component represents. C1: there is no member with this name.
pub fn entity_of_member(
    diagnostics: &mut Diagnostics,
    name: &Identifier,
    access: Access,
    member: Option<Member>,
) -> Option<Entity>
    ensures { (env : r.Environment)
        → Reports diagnostics.old diagnostics.new result (n.member_named env name.now access member) }
{
    match member {
        None => report_violation(diagnostics, Rule::C1, name.at),
        Some(Member::Field(t)) => Some(Entity::Variable(t, access)),
        Some(Member::Routine(routine)) => Some(Entity::Entry(routine)),
    }
}

/// C2: a `[` comes after something that isn't an array.
pub fn array(
    env: &Environment,
    diagnostics: &mut Diagnostics,
    at: usize,
    entity: Entity,
) -> Option<ArrayPart>
    ensures { Reports diagnostics.old diagnostics.new result (n.c2_array env.now at entity) }
{
    if let Entity::Variable(t, access) = entity {
        if let Structure::Array(index, element) = env.structure(t) {
            return Some(ArrayPart {
                index,
                element,
                access,
            });
        }
    }
    report_violation(diagnostics, Rule::C2, at)
}

/// C2: an index doesn't agree with the array's index type. The element is a part of the same
/// variable.
pub fn element(
    env: &Environment,
    diagnostics: &mut Diagnostics,
    at: usize,
    part: ArrayPart,
    t: usize,
) -> Option<Entity>
    ensures { Reports diagnostics.old diagnostics.new result (n.c2_index env.now at part t) }
{
    if env.agree(part.index, t) {
        return Some(Entity::Variable(part.element, part.access));
    }
    report_violation(diagnostics, Rule::C2, at)
}

fn is_queue_variable(env: &Environment, name: &Identifier) -> bool
    ensures { result ≡ n.has_queues env.now (r.c1_named env.now name.now) }
{
    match find_entity(env, name) {
        Some(Entity::Variable(t, _)) => env.has_queues(t),
        _ => false,
    }
}

/// C8: a variable with queues is named other than as the argument of `delay`, `continue` or
/// `empty`.
pub fn queue_in_place(
    env: &Environment,
    diagnostics: &mut Diagnostics,
    mode: Mode,
    name: &Identifier,
) -> bool
    ensures { ReportsOf diagnostics.old diagnostics.new result (n.c8_named env.now mode name.now) }
{
    match mode {
        Mode::Queue => true,
        _ => unless_holds(
            diagnostics,
            !is_queue_variable(env, name),
            Rule::C8,
            name.at,
        ),
    }
}

// The rule that is broken if the last name is of another sort, where C10 applies to the first one.
fn sort_rule_of_variable(selectors: &[Selector]) -> Rule
    ensures { result ≡ n.sort_rule_of_variable (selectors_of (map selector selectors.now)) }
{
    if has_field(selectors) {
        Rule::C2
    } else {
        Rule::C10
    }
}

/// The rule that is broken if a name is of another sort than is wanted: C2, or C10 where that rule
/// applies.
pub fn sort_rule(mode: Mode, designated: &Designator) -> Rule
    ensures { result ≡ n.sort_rule mode (designator designated.now) }
{
    match mode {
        Mode::Variable => sort_rule_of_variable(&designated.selectors),
        Mode::FirstOperand => sort_rule_of_variable(&designated.selectors),
        _ => Rule::C2,
    }
}
