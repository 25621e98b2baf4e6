//! When judging ends early: once a violation is reported, all that is left of the text is after its
//! place, and nothing broken that is visible is earlier. Then nothing that is reported of the rest
//! is earlier, as cp_rules_cutoff proves.

ghost use Rattle.std.specs.Prelude.{◌≡◌, IsTrue};
ghost use Rattle.cp_rules_cutoff.specs.Later as later;
ghost use Rattle.cp_rules.specs.Endings.{rest_of, reported_with};

use crate::checker::Checker;
use crate::remaining::Remaining;
use cp_model::rules::{Entity, Returns, Violation};
use cp_rules_body::Environment;
use cp_rules_body::diagnostics::is_before;

// Whether a violation isn't earlier than `first`.
fn is_later(first: Violation, violation: Violation) -> bool
    ensures { result ≡ later.is_later first violation }
{
    !is_before(violation, first)
}

// Whether a routine returns nothing that is broken earlier than `first`.
fn are_returns_later(first: Violation, returns: Returns) -> bool
    ensures { result ≡ later.returns_later first returns }
{
    match returns {
        Returns::Broken(violation) => is_later(first, violation),
        _ => true,
    }
}

// Whether a name represents nothing that is broken earlier than `first`.
fn is_entity_later(first: Violation, entity: Entity) -> bool
    ensures { result ≡ later.entity_later first entity }
{
    match entity {
        Entity::Broken(violation) => is_later(first, violation),
        Entity::UnfinishedRoutine(row) => are_returns_later(first, row.returns),
        _ => true,
    }
}

fn are_names_later(first: Violation, environment: &Environment) -> bool
    ensures { result ≡ later.names_later first environment.now.names }
{
    for number in 0..environment.name_count() {
        if let Some((_, entity)) = environment.name(number) {
            if !is_entity_later(first, entity) {
                return false;
            }
        }
    }
    true
}

fn are_routines_later(first: Violation, environment: &Environment) -> bool
    ensures { result ≡ later.routines_later first environment.now.routines }
{
    for number in 0..environment.routine_count() {
        if !are_returns_later(first, environment.routine(number).returns) {
            return false;
        }
    }
    true
}

// Whether nothing broken that is visible is earlier than `first`.
fn is_environment_later(first: Violation, environment: &Environment) -> bool
    ensures { result ≡ later.environment_later first environment.now }
{
    are_names_later(first, environment) && are_routines_later(first, environment)
}

impl<'t> Checker<'t> {
    /// Whether what was reported stays the earliest, whatever is reported of the rest of the text.
    /// If all violations are listed, nothing is decided before the end.
    pub fn is_decided(&self, left: &Remaining) -> bool
        ensures { IsTrue result → (reported_with self.now (rest_of left.now) ≡ self.now.diagnostics) }
    {
        if self.diagnostics.lists_all() {
            return false;
        }
        match self.diagnostics.first() {
            Some(first) => is_environment_later(first, &self.environment)
                && left.is_after(first.at),
            None => false,
        }
    }
}
