//! What the names of a designator represent, whatever its indices are.
//!
//! If nothing is broken in a designator, it represents the same (`proofs/Covers.antt`). So code
//! that only needs to know whether that is a routine needn't judge the indices.

ghost use Rattle.std.specs.Prelude.{◌≡◌, map, Option, None, Some};
ghost use Rattle.cp_model.specs.View.{designator, index, indices_of, selector, selectors_of};
ghost use Rattle.cp_rules_body.specs.EntitiesNamed as spec;

use crate::diagnostics::Diagnostics;
use crate::environment::Environment;
use crate::members::member;
use crate::names::{array, find_entity};
use cp_model::rules::Entity;
use cp_model::tree::{Designator, Index, Selector};

/// Whether an entity is a routine that can be called.
pub fn is_routine(entity: Option<Entity>) -> bool
    ensures { result ≡ spec.is_routine entity }
{
    matches!(entity, Some(Entity::Routine(_)) | Some(Entity::Entry(_)))
}

// An element of what is indexed, whatever the index is.
fn element(env: &Environment, at: usize, entity: Option<Entity>) -> Option<Entity>
    ensures { result ≡ spec.element env.now at entity }
{
    let mut diagnostics = Diagnostics::earliest();
    let part = array(env, &mut diagnostics, at, entity?)?;
    Some(Entity::Variable(part.element, part.access))
}

fn elements(env: &Environment, entity: Option<Entity>, indices: &[Index]) -> Option<Entity>
    ensures { result ≡ spec.elements env.now entity (indices_of (map index indices.now)) }
{
    let mut entity = entity;
    for i in indices {
        entity = element(env, i.at, entity);
    }
    entity
}

// What a selector selects of what the names before it represent.
fn part(env: &Environment, entity: Option<Entity>, s: &Selector) -> Option<Entity>
    ensures { result ≡ spec.part env.now entity (selector s.now) }
{
    match s {
        Selector::Field { at, name } => {
            let mut diagnostics = Diagnostics::earliest();
            member(env, &mut diagnostics, *at, name, entity?)
        }
        Selector::Indexed(indices) => elements(env, entity, indices),
    }
}

/// What the names of a designator represent, if that is known.
pub fn find_designated_entity(env: &Environment, designated: &Designator) -> Option<Entity>
    ensures { result ≡ spec.designated_entity env.now (designator designated.now) }
{
    let mut entity = find_entity(env, &designated.root);
    for s in &designated.selectors {
        entity = part(env, entity, s);
    }
    entity
}
