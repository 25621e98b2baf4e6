//! The members and rights of a component, and which of its parameters are rights.

ghost use Rattle.std.specs.Prelude.{IfOk, OnOk, map};
ghost use Rattle.cp_compile_symbols.specs.Components.{MakesComponent, Picks, PicksComponents, RightsLie};
ghost use Rattle.cp_compile_symbols.specs.Variables.{declared_entry};

use crate::layout::{Layout, Layouts, sum};
use crate::names::{Names, add_first};
use crate::types::Types;
use crate::variables::Declared;
use cp_base_names::NameTable;
use cp_model::tree::{Fields, Parameters};
use std::alloc::{AllocError, Global};

/// A right to a component: its offset in words from the first word of the component that has it,
/// and the number of its type.
#[derive(Clone, Copy)]
pub struct Right {
    pub at: usize,
    pub of: usize,
}

impl<'t> Types<'t> {
    // Adds the parameter `d` if it is a right to a component.
    fn pick(
        &self,
        components: &mut Vec<Declared<'t>>,
        declared: Declared<'t>,
    ) -> Result<(), AllocError>
        ensures { OnOk result (Picks self.now (declared_entry declared.entry)
            (map declared_entry components.old.items) (map declared_entry components.new.items)) }
    {
        if self.is_component(declared.of) {
            components.push(declared)?;
        }
        Ok(())
    }

    /// The declared names in `list` whose types are types of components.
    pub fn components(&self, list: &[Declared<'t>]) -> Result<Vec<Declared<'t>>, AllocError>
        ensures { IfOk result (λ components. PicksComponents self.now (map declared_entry list.now)
            (map declared_entry components.items)) }
    {
        let mut components = Vec::new(self.alloc);
        for d in list {
            self.pick(&mut components, *d)?;
        }
        Ok(components)
    }

    /// The rights to these components. They are one after another, after the mark in the first
    /// word.
    pub fn rights_to(&self, components: &[Declared<'t>]) -> Result<NameTable<'t, Right>, AllocError>
        ensures { IfOk result (λ rights. RightsLie self.now
            (map declared_entry components.now) rights) }
    {
        let mut rights = NameTable::new(self.alloc, self.key);
        for i in 0..components.len() {
            let d = components[i];
            add_first(
                &mut rights,
                d.name,
                Right {
                    at: i + 1,
                    of: d.of,
                },
            )?;
        }
        Ok(rights)
    }
}

impl<'t> Layouts<'t> {
    /// The layout of a component of a system type with these parameters and variables: its size in
    /// words, and where its members are.
    pub fn own_members(
        &mut self,
        names: &Names<'t>,
        types: &mut Types<'t>,
        parameters: &'t [Parameters],
        variables: &'t [Fields],
    ) -> Result<Layout<'t>, AllocError>
        ensures { IfOk result (λ l. MakesComponent names.now types.old types.new self.old.rows.items
            self.new.rows.items parameters.now variables.now l) }
    {
        let mut members = Vec::new(self.alloc);
        types.add_parameters(names, parameters, &mut members)?;
        types.fields(names, variables, &mut members)?;
        self.extend(names, types)?;
        let head = sum(Some(1), types.rights(names, parameters));
        self.members(&members, head)
    }
}
