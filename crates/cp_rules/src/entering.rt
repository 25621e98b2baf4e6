//! The inside of a routine or a system type: its parameters are visible there, and its statements
//! are in a region of their own.

ghost use Rattle.std.specs.Prelude.{◌≡◌, OnOk, map};
ghost use Rattle.cp_model.specs.RulesDeclarations as d;
ghost use Rattle.cp_model.specs.RulesNeeds.{need_statements};
ghost use Rattle.cp_model.specs.RulesStatements as st;
ghost use Rattle.cp_model.specs.View as view;
ghost use Rattle.cp_rules.specs.Checking.{after, reporting};
ghost use Rattle.cp_rules.specs.Headings.{lent};
ghost use Rattle.cp_rules.specs.Routines.{enter_region};

use crate::checker::Checker;
use cp_model::rules::{Entity, ParameterRow, Region};
use cp_model::tree::{Identifier, Statement};
use cp_rules_body::needs::need_of_statements;
use cp_rules_body::statements::statements;
use std::alloc::AllocError;

impl<'t> Checker<'t> {
    /// Enters a routine or a system type with these parameters. Fails only if memory runs out.
    pub fn enter(&mut self, rows: &[ParameterRow], region: Region) -> Result<(), AllocError>
        ensures { OnOk result
            (self.new ≡ record self.old { env = enter_region self.old.env rows.now region }) }
    {
        self.environment.add_parameters(rows)?;
        self.environment.set_region(region);
        Ok(())
    }

    /// Declares each of these names as the entity next to it, unless it is already visible. Fails
    /// only if memory runs out.
    pub fn add_each(&mut self, names: &[(&'t Identifier, Entity)]) -> Result<(), AllocError>
        ensures { OnOk result
            (self.new ≡ record
            self.old { env = (d.declare_each self.old.env (map lent names.now)).env }) }
    {
        for (x, entity) in names {
            self.add(x, *entity)?;
        }
        Ok(())
    }

    /// Judges statements, one after another. Fails only if memory runs out.
    pub fn statements(&mut self, list: &[Statement]) -> Result<(), AllocError>
        ensures { OnOk result
            (self.new ≡ reporting self.old
            (st.statements self.old.env (view.statements_of (map view.statement list.now)))) }
    {
        statements(&self.environment, self.alloc, &mut self.diagnostics, list)
    }

    /// The need of statements, in words.
    pub fn need(&self, list: &[Statement]) -> usize
        ensures { result ≡ need_statements self.now.env
            (view.statements_of (map view.statement list.now)) }
    {
        need_of_statements(&self.environment, list)
    }
}
