//! The members of a system type: its routines, by their names.

ghost use Rattle.std.specs.Prelude.{◌≡◌, ◌≤◌, ◌++◌, None, IfOk, OnOk, drop, length, map};
ghost use Rattle.cp_model.specs.Names.{lookup};
ghost use Rattle.cp_model.specs.Rules.{routine_member, routine_members};

use crate::checker::Checker;
use cp_model::rules::{Entity, Member};
use cp_rules_body::environment::Members;
use std::alloc::AllocError;

// Adds what a name represents, if that is a routine.
fn add_member<'t>(
    members: &mut Members<'t>,
    name: &'t [u8],
    entity: Entity,
) -> Result<(), AllocError>
    requires { lookup name.now members.old ≡ None }
    ensures { OnOk result (members.new ≡ members.old ++ routine_member name.now entity) }
{
    if let Entity::Routine(number) = entity {
        members.add(name, Member::Routine(number))?;
    }
    Ok(())
}

impl<'t> Checker<'t> {
    /// The routines among the names that were declared after the first `mark` ones. Fails only if
    /// memory runs out.
    pub fn routine_members(&self, mark: usize) -> Result<Members<'t>, AllocError>
        ensures { IfOk result
            (λ members. members ≡ routine_members (drop mark self.now.env.names)) }
    {
        let mut members = Members::new(self.alloc, self.key);
        let count = self.environment.name_count();
        for number in mark..count {
            match self.environment.name(number) {
                Some((name, entity)) => add_member(&mut members, name, entity)?,
                None => {}
            }
        }
        Ok(members)
    }
}
