//! Fields of records and routines of components: the names after a `.`.

ghost use Rattle.std.specs.Prelude.{◌≡◌, ◌∷◌, [], map, Option, None, Some, get_or};
ghost use Rattle.cp_model.specs.RulesEnvironment as r;
ghost use Rattle.cp_model.specs.Names.{lookup};
ghost use Rattle.cp_model.specs.RulesNames as n;
ghost use Rattle.cp_rules_body.specs.Reports.{Reports, ReportsOf};

use crate::diagnostics::{Diagnostics, report_violation};
use crate::environment::Environment;
use crate::names::entity_of_member;
use cp_model::rules::{Entity, Member, Rule, Structure};
use cp_model::tree::Identifier;

/// What a name after a `.` represents. C2: the `.` comes after something that is neither a record
/// nor a component.
pub fn member(
    env: &Environment,
    diagnostics: &mut Diagnostics,
    at: usize,
    name: &Identifier,
    entity: Entity,
) -> Option<Entity>
    ensures { Reports diagnostics.old diagnostics.new result (n.member_of env.now at name.now entity) }
{
    let Entity::Variable(t, access) = entity else {
        return report_violation(diagnostics, Rule::C2, at);
    };
    match env.structure(t) {
        Structure::Record(k) => entity_of_member(diagnostics, name, access, env.member(k, name)),
        Structure::System(y) => {
            let k = env.system_row(y).members;
            entity_of_member(diagnostics, name, access, env.member(k, name))
        }
        _ => report_violation(diagnostics, Rule::C2, at),
    }
}

/// The member of a type with this name, if it has one.
pub fn member_of_type(env: &Environment, t: usize, name: &Identifier) -> Option<Member>
    ensures { result ≡ n.member_in name.now.name
        (r.members_in env.now (r.row_of env.now t).structure) }
{
    match env.structure(t) {
        Structure::Record(k) => env.member(k, name),
        Structure::System(y) => env.member(env.system_row(y).members, name),
        _ => None,
    }
}
