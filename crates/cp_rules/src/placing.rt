//! The positions where a type may be used.

ghost use Rattle.std.specs.Prelude.{◌≡◌, ◌||◌, not};
ghost use Rattle.cp_model.specs.RulesEnvironment.{is_simple};
ghost use Rattle.cp_model.specs.RulesJudged.{meaning_of, guard};
ghost use Rattle.cp_model.specs.RulesTypes as types;
ghost use Rattle.cp_model.specs.View as view;
ghost use Rattle.cp_model.specs.declared.rules.Rule.TheVariants.{C2};
ghost use Rattle.cp_rules.specs.Checking.{Judges};
ghost use Rattle.cp_rules.specs.Outer.{ReportsOuter, index_type, is_written_structure, misplaces_queues, judge_in_position};

use crate::checker::{Checker, Judged};
use cp_model::rules::{Entity, Position, Rule, Structure};
use cp_model::tree::{Identifier, Sort, TypeExpression};
use cp_rules_body::Environment;
use cp_rules_body::constants::constant_at;
use cp_rules_body::names::find_entity;

fn allows_system(position: Position, sort: Sort) -> bool
    ensures { result ≡ types.allows_system position sort }
{
    match position {
        Position::InitialVariable => true,
        Position::MonitorVariable => sort.is_class(),
        Position::ComponentVariable => sort.is_class(),
        _ => false,
    }
}

fn allows_structure(env: &Environment, position: Position, structure: Structure) -> bool
    ensures { result ≡ types.allows_structure env.now position structure }
{
    match structure {
        Structure::System(y) => allows_system(position, env.system_row(y).sort),
        _ => true,
    }
}

fn allows_queues(position: Position) -> bool
    ensures { result ≡ types.allows_queues position }
{
    matches!(
        position,
        Position::Definition | Position::Element | Position::MonitorVariable
    )
}

/// The place of the first token of a written type.
pub fn type_at(written: &TypeExpression) -> usize
    ensures { result ≡ types.type_at (view.type_expression written.now) }
{
    match written {
        TypeExpression::Named(x) => x.at,
        TypeExpression::Subrange(bounds) => constant_at(&bounds.0),
        TypeExpression::Array { at, .. } => *at,
        TypeExpression::Record { at, .. } => *at,
    }
}

// Whether a type is written as an array or a record.
fn is_written_structure(written: &TypeExpression) -> bool
    ensures { result ≡ is_written_structure (view.type_expression written.now) }
{
    matches!(
        written,
        TypeExpression::Array { .. } | TypeExpression::Record { .. }
    )
}

// The type that a name represents, if that is known.
fn known_type(env: &Environment, name: &Identifier) -> Option<usize>
    ensures { result ≡ meaning_of (types.named_type env.now name.now) }
{
    match find_entity(env, name)? {
        Entity::Type(t) => Some(t),
        _ => None,
    }
}

fn names_queues(env: &Environment, name: &Identifier) -> bool
    ensures { result ≡ types.has_queues env.now (types.named_type env.now name.now) }
{
    match known_type(env, name) {
        Some(t) => env.has_queues(t),
        None => false,
    }
}

// Whether a written type has queues, as far as that is known if something is broken inside it.
fn holds_queues(env: &Environment, written: &TypeExpression) -> bool
    ensures { result ≡ types.holds_queues env.now (view.type_expression written.now) }
{
    match written {
        TypeExpression::Named(x) => names_queues(env, x),
        TypeExpression::Array { element, .. } => holds_queues(env, element),
        _ => false,
    }
}

// Whether an array with queues is written where none is allowed.
fn misplaces_queues(env: &Environment, position: Position, written: &TypeExpression) -> bool
    ensures { result ≡ misplaces_queues env.now position (view.type_expression written.now) }
{
    match written {
        TypeExpression::Array { element, .. } => {
            !(allows_queues(position) || !holds_queues(env, element))
        }
        _ => false,
    }
}

impl<'t> Checker<'t> {
    // C6: a system type where none is allowed. C8: a type with queues where none is allowed.
    fn judge_position_at(&mut self, position: Position, at: usize, t: usize) -> Judged<usize>
        ensures { Judges self.old self.new result (types.c6_c8_placed self.old.env position at t) }
    {
        let env = &self.environment;
        let has_place = allows_structure(env, position, env.structure(t));
        let queues_have = allows_queues(position) || !env.has_queues(t);
        match (has_place, queues_have) {
            (true, true) => Ok(t),
            (true, false) => self.breaks(Rule::C8, at),
            (false, true) => self.breaks(Rule::C6, at),
            (false, false) => {
                let first = self.breaks(Rule::C6, at);
                self.unless(false, Rule::C8, at);
                first
            }
        }
    }

    /// Judges the position of a written type, after the type itself. C6: a system type where none
    /// is allowed. C8: a type with queues where none is allowed, even if something is broken inside
    /// it.
    pub fn judge_position(
        &mut self,
        position: Position,
        written: &TypeExpression,
        of: Judged<usize>,
    ) -> Judged<usize>
        ensures { ReportsOuter self.old self.new result
            (judge_in_position self.old.env position (view.type_expression written.now) of) }
    {
        match of {
            Ok(number) => self.judge_position_at(position, type_at(written), number),
            Err(violation) => {
                if misplaces_queues(&self.environment, position, written) {
                    self.breaks(Rule::C8, type_at(written))
                } else {
                    Err(violation)
                }
            }
        }
    }

    // C2: an index type isn't simple.
    fn simple(&mut self, at: usize, t: usize) -> Judged<usize>
        ensures { Judges self.old self.new result (guard (is_simple self.old.env t) C2 at t) }
    {
        if self.environment.is_simple(t) {
            Ok(t)
        } else {
            self.breaks(Rule::C2, at)
        }
    }

    /// Judges a written index type, after the type itself. C2: it isn't simple, even if something
    /// is broken inside it.
    pub fn index_type(&mut self, written: &TypeExpression, of: Judged<usize>) -> Judged<usize>
        ensures { ReportsOuter self.old self.new result
            (index_type self.old.env (view.type_expression written.now) of) }
    {
        match of {
            Ok(number) => self.simple(type_at(written), number),
            Err(violation) => {
                if is_written_structure(written) {
                    self.breaks(Rule::C2, type_at(written))
                } else {
                    Err(violation)
                }
            }
        }
    }
}
