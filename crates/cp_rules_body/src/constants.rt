//! Constants where they are written: in definitions, subranges and labels.

ghost use Rattle.std.specs.Prelude.{◌≡◌, ◌++◌, [], ◌∷◌, pos, neg_ℤ, Option, None, Some};
ghost use Rattle.cp_model.specs.RulesTypes as types;
ghost use Rattle.cp_model.specs.RulesJudged.{also, breaks, violation};
ghost use Rattle.cp_model.specs.declared.rules.Rule.TheVariants as rules;
ghost use Rattle.cp_rules_body.specs.Reports.{ReportsFirst};

use crate::bases::{CHAR, INTEGER};
use crate::diagnostics::{Diagnostics, fail_with_violation, unless_holds};
use crate::environment::Environment;
use crate::names::resolve;
use cp_model::rules::{Entity, Rule, Violation};
use cp_model::tree::{Constant, Identifier};

/// The place where a constant begins.
pub fn constant_at(constant: &Constant) -> usize
    ensures { result ≡ types.constant_at constant.now }
{
    match constant {
        Constant::Number { at, .. } => *at,
        Constant::Negative { at, .. } => *at,
        Constant::Character { at, .. } => *at,
        Constant::Named(x) => x.at,
    }
}

/// C4 and C2: the name of something unfinished that is of another sort than is wanted.
pub fn unfinished_of_other_sort<A>(diagnostics: &mut Diagnostics, at: usize) -> Result<A, Violation>
    ensures { ReportsFirst diagnostics.old diagnostics.new result
        (also (violation rules.C4 at ∷ []) (breaks rules.C2 at)) }
{
    let first = fail_with_violation(diagnostics, Rule::C4, at);
    unless_holds(diagnostics, false, Rule::C2, at);
    first
}

// C2: a constant is wanted, but the name is of another sort. C4: a constant is used inside its own
// definition.
fn constant_of_entity(
    diagnostics: &mut Diagnostics,
    name: &Identifier,
    entity: Entity,
) -> Result<(usize, i32), Violation>
    ensures { ReportsFirst diagnostics.old diagnostics.new result (types.c2_constant name.now entity) }
{
    match entity {
        Entity::Constant(base, ordinal) => Ok((base, ordinal)),
        Entity::UnfinishedConstant => fail_with_violation(diagnostics, Rule::C4, name.at),
        Entity::UnfinishedType => unfinished_of_other_sort(diagnostics, name.at),
        Entity::UnfinishedRoutine(_) => unfinished_of_other_sort(diagnostics, name.at),
        _ => fail_with_violation(diagnostics, Rule::C2, name.at),
    }
}

/// The base type and the ordinal of a constant, or the first violation in it.
pub fn constant(
    env: &Environment,
    diagnostics: &mut Diagnostics,
    constant: &Constant,
) -> Result<(usize, i32), Violation>
    ensures { ReportsFirst diagnostics.old diagnostics.new result (types.constant env.now constant.now) }
{
    match constant {
        Constant::Number { value, .. } => Ok((INTEGER, i32::from(*value))),
        Constant::Negative { value, .. } => Ok((INTEGER, -i32::from(*value))),
        Constant::Character { ordinal, .. } => Ok((CHAR, i32::from(*ordinal))),
        Constant::Named(x) => {
            let entity = resolve(env, diagnostics, x)?;
            constant_of_entity(diagnostics, x, entity)
        }
    }
}
