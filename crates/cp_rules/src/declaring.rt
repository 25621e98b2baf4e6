//! Names that are declared one after another as the same entity.

ghost use Rattle.std.specs.Prelude.{◌≡◌, OnOk};
ghost use Rattle.cp_model.specs.RulesDeclarations as d;
ghost use Rattle.cp_rules.specs.Checking.{after};

use crate::checker::Checker;
use cp_model::rules::Entity;
use cp_model::tree::Identifier;
use std::alloc::AllocError;

impl<'t> Checker<'t> {
    /// Declares each of these names, in order. C1: one is already visible. Fails only if memory
    /// runs out.
    pub fn declare_all(&mut self, names: &'t [Identifier], entity: Entity) -> Result<(), AllocError>
        ensures { OnOk result
            (self.new ≡ after self.old (d.declare_all self.old.env entity names.now)) }
    {
        self.environment.reserve_names(names.len())?;
        for x in names {
            self.declare(x, entity)?;
        }
        Ok(())
    }
}
