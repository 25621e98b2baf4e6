//! The lines of whole components.

ghost use Rattle.std.specs.Prelude.{◌≡◌, OnOk, map};
ghost use Rattle.cp_compile_symbols.specs.Representing.{entry};
ghost use Rattle.cp_inspect.specs.Lists.{declared_member};
ghost use Rattle.cp_inspect.specs.Sinks.{FillsSinks};
ghost use Rattle.cp_inspect.specs.Walks.{ReportsComponent, ReportsMembers};

use crate::heads::head_words;
use crate::walk::Walk;
use crate::walk_output::WalkOutput;
use cp_compile_symbols::{Declared, Field, Tables, TypeRow};
use std::alloc::AllocError;

impl Walk {
    /// Reports members of a component, one after another, from the next address on.
    pub(crate) fn members(
        &mut self,
        tables: &Tables,
        walk_output: &WalkOutput,
        out: &mut Vec<u8>,
        members: &[Field],
    ) -> Result<(), AllocError>
        ensures { OnOk result (
            FillsSinks walk_output.now self.old self.new out.old.items out.new.items
            (λ v before after. ReportsMembers tables.now v (map entry members.now)
            self.old.at before after)) }
    {
        for member in members {
            self.variable(tables, walk_output, out, member.name, member.of)?;
        }
        Ok(())
    }

    /// Reports the variables of a component whose words begin at `start` and whose type has the
    /// number `row`.
    ///
    /// # Errors
    ///
    /// `AllocError` if memory runs out.
    pub fn component(
        &mut self,
        tables: &Tables,
        walk_output: &WalkOutput,
        out: &mut Vec<u8>,
        row: usize,
        start: usize,
    ) -> Result<(), AllocError>
        ensures { OnOk result (
            FillsSinks walk_output.now self.old self.new out.old.items out.new.items
            (λ v before after. ReportsComponent tables.now v row start before after)) }
    {
        let Some(TypeRow::Component { system, members }) = tables.types.row(row) else {
            return Ok(());
        };
        let head = head_words(tables, *system)?;
        self.at = start.checked_add(head).ok_or(AllocError)?;
        self.members(tables, walk_output, out, members)
    }

    // Reports variables of the initial process, one after another, from the next address on.
    fn variables(
        &mut self,
        tables: &Tables,
        walk_output: &WalkOutput,
        out: &mut Vec<u8>,
        variables: &[Declared],
    ) -> Result<(), AllocError>
        ensures { OnOk result (
            FillsSinks walk_output.now self.old self.new out.old.items out.new.items
            (λ v before after. ReportsMembers tables.now v (map declared_member variables.now)
            self.old.at before after)) }
    {
        for declared in variables {
            self.variable(tables, walk_output, out, declared.name, declared.of)?;
        }
        Ok(())
    }

    /// Reports the variables of the initial process, whose words begin with its mark.
    ///
    /// # Errors
    ///
    /// `AllocError` if memory runs out.
    pub fn initial(
        &mut self,
        tables: &Tables,
        walk_output: &WalkOutput,
        out: &mut Vec<u8>,
    ) -> Result<(), AllocError>
        ensures { OnOk result (
            FillsSinks walk_output.now self.old self.new out.old.items out.new.items
            (λ v before after. ReportsMembers tables.now v
            (map declared_member tables.now.initial.variables.items) 1 before after)) }
    {
        self.at = 1;
        self.variables(tables, walk_output, out, &tables.initial.variables)
    }
}
