//! The rules about the names of a designator, whatever else is broken in it.

ghost use Rattle.std.specs.Prelude.{◌≡◌, ◌++◌, [], ◌∷◌, map, true, Option, None, Some};
ghost use Rattle.cp_model.specs.RulesEnvironment as r;
ghost use Rattle.cp_model.specs.RulesNames as n;
ghost use Rattle.cp_model.specs.View.{designator, index, indices_of, selector, selectors_of};
ghost use Rattle.cp_rules_body.specs.Reports.{ReportsOf};

use crate::callees::has_entry;
use crate::diagnostics::{Diagnostics, unless_holds};
use crate::environment::Environment;
use crate::members::member_of_type;
use crate::names::{find_entity, queue_in_place, sort_rule};
use crate::places::{first_name, last_name};
use cp_model::rules::{Entity, Member, Mode, NamedPart, Rule, Structure};
use cp_model::tree::{Designator, Identifier, Index, Selector};

// The rule that is broken if the first name is of another sort: C2, or C10 where that rule applies.
fn first_rule(mode: Mode) -> Rule
    ensures { result ≡ n.first_rule mode }
{
    match mode {
        Mode::Variable => Rule::C10,
        Mode::FirstOperand => Rule::C10,
        _ => Rule::C2,
    }
}

fn is_type(env: &Environment, name: &Identifier) -> bool
    ensures { result ≡ n.is_type (r.c1_named env.now name.now) }
{
    matches!(
        find_entity(env, name),
        Some(Entity::Type(_)) | Some(Entity::UnfinishedType)
    )
}

fn is_indexed_first(selectors: &[Selector]) -> bool
    ensures { result ≡ n.is_indexed_first (selectors_of (map selector selectors.now)) }
{
    matches!(selectors, [Selector::Indexed(_), ..])
}

// C2 or C10: the name of a type comes before `[`.
fn no_indexed_type(
    env: &Environment,
    diagnostics: &mut Diagnostics,
    mode: Mode,
    designated: &Designator,
) -> bool
    ensures { ReportsOf diagnostics.old diagnostics.new result (n.c2_before_index env.now mode (designator designated.now)) }
{
    let wrong = is_indexed_first(&designated.selectors) && is_type(env, &designated.root);
    unless_holds(diagnostics, !wrong, first_rule(mode), designated.root.at)
}

// The member with the name `identifier` of what `name` represents, if there is one.
fn find_member(env: &Environment, name: &Identifier, identifier: &Identifier) -> Option<Member>
    ensures { result ≡ n.member_selected env.now identifier.now.name (r.c1_named env.now name.now) }
{
    match find_entity(env, name) {
        Some(Entity::Variable(t, _)) => member_of_type(env, t, identifier),
        _ => None,
    }
}

// C5: a routine after a component's `.` lacks `entry`.
fn member_has_entry(
    env: &Environment,
    diagnostics: &mut Diagnostics,
    name: &Identifier,
    identifier: &Identifier,
) -> bool
    ensures { ReportsOf diagnostics.old diagnostics.new result
        (n.c5_member env.now identifier.now
        (n.member_selected env.now identifier.now.name (r.c1_named env.now name.now))) }
{
    match find_member(env, name, identifier) {
        Some(Member::Routine(number)) => has_entry(diagnostics, identifier, env.routine(number)),
        _ => true,
    }
}

// C5: a routine after the first name lacks `entry`.
fn selected_has_entry(
    env: &Environment,
    diagnostics: &mut Diagnostics,
    identifier: &Identifier,
    selectors: &[Selector],
) -> bool
    ensures { ReportsOf diagnostics.old diagnostics.new result
        (n.c5_selected env.now identifier.now (selectors_of (map selector selectors.now))) }
{
    match selectors {
        [Selector::Field { name, .. }, ..] => member_has_entry(env, diagnostics, identifier, name),
        _ => true,
    }
}

// C5: in a designator, a routine after a component's `.` lacks `entry`.
fn entry_after_point(
    env: &Environment,
    diagnostics: &mut Diagnostics,
    designated: &Designator,
) -> bool
    ensures { ReportsOf diagnostics.old diagnostics.new result (n.c5_after_point env.now (designator designated.now)) }
{
    selected_has_entry(env, diagnostics, &designated.root, &designated.selectors)
}

// Whether the first name of a designator is that of a variable which may be named here, and indices
// come right after it: then nothing is broken in its names, as one look-up reports.
fn indexes_variable(env: &Environment, mode: Mode, designated: &Designator) -> bool
    ensures { result ≡ true → n.c2_c5_c8_named env.now mode (designator designated.now) ≡ [] }
{
    if !is_indexed_first(&designated.selectors) {
        return false;
    }
    match find_entity(env, &designated.root) {
        Some(Entity::Variable(t, _)) => !env.has_queues(t),
        _ => false,
    }
}

/// C2 or C10, C5 and C8 for the names of a designator: a type before `[`, a routine without
/// `entry`, a variable with queues in the wrong place.
pub fn names_fit(
    env: &Environment,
    diagnostics: &mut Diagnostics,
    mode: Mode,
    designated: &Designator,
) -> bool
    ensures { ReportsOf diagnostics.old diagnostics.new result (n.c2_c5_c8_named env.now mode (designator designated.now)) }
{
    if indexes_variable(env, mode, designated) {
        return true;
    }
    let no_type = no_indexed_type(env, diagnostics, mode, designated);
    let entry = entry_after_point(env, diagnostics, designated);
    let no_queue = queue_in_place(env, diagnostics, mode, first_name(designated));
    no_type && (entry && no_queue)
}

// ---- what isn't a routine although one is wanted

fn first_part(env: &Environment, name: &Identifier) -> NamedPart
    ensures { result ≡ n.first_part (r.c1_named env.now name.now) }
{
    let (is_value, of) = match find_entity(env, name) {
        Some(Entity::Constant(_, _)) => (true, None),
        Some(Entity::Variable(t, _)) => (true, Some(t)),
        _ => (false, None),
    };
    NamedPart {
        is_value,
        is_indexed: false,
        of,
    }
}

fn field_type(env: &Environment, name: &Identifier, of: Option<usize>) -> Option<usize>
    ensures { result ≡ n.field_type env.now name.now.name of }
{
    match member_of_type(env, of?, name) {
        Some(Member::Field(t)) => Some(t),
        _ => None,
    }
}

fn element_type(env: &Environment, of: Option<usize>) -> Option<usize>
    ensures { result ≡ n.element_type env.now of }
{
    match env.structure(of?) {
        Structure::Array(_, element) => Some(element),
        _ => None,
    }
}

fn indexed_type(env: &Environment, of: Option<usize>, indices: &[Index]) -> Option<usize>
    ensures { result ≡ n.indexed_type env.now of (indices_of (map index indices.now)) }
{
    let mut of = of;
    for _ in indices {
        of = element_type(env, of);
    }
    of
}

fn next_part(env: &Environment, part: NamedPart, s: &Selector) -> NamedPart
    ensures { result ≡ n.next_part env.now part (selector s.now) }
{
    match s {
        Selector::Field { name, .. } => {
            let of = field_type(env, name, part.of);
            NamedPart {
                is_value: of.is_some(),
                is_indexed: false,
                of,
            }
        }
        Selector::Indexed(indices) => NamedPart {
            is_value: part.is_value,
            is_indexed: true,
            of: indexed_type(env, part.of, indices),
        },
    }
}

// The last name of a designator and the indices after it.
fn last_part(env: &Environment, designated: &Designator) -> NamedPart
    ensures { result ≡ n.last_part_of env.now (designator designated.now) }
{
    let mut part = first_part(env, &designated.root);
    for s in &designated.selectors {
        part = next_part(env, part, s);
    }
    part
}

/// C2 or C10: a routine is wanted, but an indexed variable, field, constant or component is named.
pub fn no_indexed_value(
    env: &Environment,
    diagnostics: &mut Diagnostics,
    mode: Mode,
    designated: &Designator,
) -> bool
    ensures { ReportsOf diagnostics.old diagnostics.new result (n.c2_indexed env.now mode (designator designated.now)) }
{
    let part = last_part(env, designated);
    unless_holds(
        diagnostics,
        !(part.is_indexed && part.is_value),
        sort_rule(mode, designated),
        last_name(designated).at,
    )
}
