//! The first name of a designator, before its selectors apply.

ghost use Rattle.std.specs.Prelude.{◌≡◌, ◌++◌, [], ◌∷◌, map, Option, None, Some};
ghost use Rattle.cp_model.specs.RulesEnvironment as r;
ghost use Rattle.cp_model.specs.RulesNames as n;
ghost use Rattle.cp_model.specs.RulesJudged.{then_judge};
ghost use Rattle.cp_model.specs.View.{designator, selector, selectors_of};
ghost use Rattle.cp_rules_body.specs.Reports.{Reports};

use crate::diagnostics::{Diagnostics, answer_if};
use crate::environment::Environment;
use crate::names::{anywhere, judge_name};
use cp_model::rules::Entity;
use cp_model::tree::{Designator, Identifier, Selector};

// C4 and C9 for a name with selectors. A name without selectors is judged by its use.
fn before_selectors(
    env: &Environment,
    diagnostics: &mut Diagnostics,
    name: &Identifier,
    selectors: &[Selector],
    entity: Entity,
) -> Option<Entity>
    ensures { Reports diagnostics.old diagnostics.new result
        (n.before_selectors env.now name.now (selectors_of (map selector selectors.now)) entity) }
{
    match selectors {
        [] => Some(entity),
        _ => {
            let in_place = anywhere(env, diagnostics, name, entity);
            answer_if(in_place, Some(entity))
        }
    }
}

/// What the first name of a designator represents, before its selectors apply.
pub fn root(
    env: &Environment,
    diagnostics: &mut Diagnostics,
    designator: &Designator,
) -> Option<Entity>
    ensures { Reports diagnostics.old diagnostics.new result
        (then_judge (r.c1_named env.now designator.now.root)
        (n.before_selectors env.now designator.now.root
        (selectors_of (map selector designator.now.selectors.items)))) }
{
    let entity = judge_name(env, diagnostics, &designator.root)?;
    before_selectors(
        env,
        diagnostics,
        &designator.root,
        &designator.selectors,
        entity,
    )
}
