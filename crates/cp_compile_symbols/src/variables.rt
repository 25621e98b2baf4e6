//! The parameters and variables that groups of names declare, in text order.

ghost use Rattle.std.specs.Prelude.{◌≡◌, ◌++◌, OnOk, is_some, map};
ghost use Rattle.cp_compile_symbols.specs.Variables.{Declares, declared_entries, declared_entry, with_declared_group, with_declared_groups, with_declared_parameter, with_declared_parameters};

use crate::names::Names;
use crate::types::Types;
use cp_model::tree::{Fields, Identifier, Parameters};
use std::alloc::AllocError;

/// A declared parameter or variable: its name, whether it is a `var` parameter, and the number of
/// its type.
#[derive(Clone, Copy)]
pub struct Declared<'t> {
    pub name: &'t [u8],
    pub by_reference: bool,
    pub of: usize,
}

// Adds names of one type.
fn declare_each<'t>(
    list: &mut Vec<Declared<'t>>,
    names: &'t [Identifier],
    by_reference: bool,
    of: usize,
) -> Result<(), AllocError>
    ensures { OnOk result (map declared_entry list.new.items ≡ map declared_entry list.old.items ++
        declared_entries names.now by_reference of) }
{
    for x in names {
        list.push(Declared {
            name: x.name.as_bytes(),
            by_reference,
            of,
        })?;
    }
    Ok(())
}

impl<'t> Types<'t> {
    fn declare_parameter(
        &mut self,
        names: &Names<'t>,
        group: &'t Parameters,
        list: &mut Vec<Declared<'t>>,
    ) -> Result<(), AllocError>
        ensures { OnOk result (Declares names.now self.old self.new
            (map declared_entry list.old.items) (map declared_entry list.new.items)
            (with_declared_parameter group.now)) }
    {
        let of = self.named_type(names, &group.of)?;
        declare_each(list, &group.names, group.by_reference.is_some(), of)?;
        Ok(())
    }

    /// Adds the parameters that these groups declare.
    pub fn declare_parameters(
        &mut self,
        names: &Names<'t>,
        groups: &'t [Parameters],
        list: &mut Vec<Declared<'t>>,
    ) -> Result<(), AllocError>
        ensures { OnOk result (Declares names.now self.old self.new
            (map declared_entry list.old.items) (map declared_entry list.new.items)
            (with_declared_parameters groups.now)) }
    {
        for group in groups {
            self.declare_parameter(names, group, list)?;
        }
        Ok(())
    }

    fn declare_group(
        &mut self,
        names: &Names<'t>,
        group: &'t Fields,
        list: &mut Vec<Declared<'t>>,
    ) -> Result<(), AllocError>
        ensures { OnOk result (Declares names.now self.old self.new
            (map declared_entry list.old.items) (map declared_entry list.new.items)
            (with_declared_group group.now)) }
    {
        let of = self.resolve(names, &group.of)?;
        declare_each(list, &group.names, false, of)?;
        Ok(())
    }

    /// Adds the variables that these groups declare.
    pub fn declare_variables(
        &mut self,
        names: &Names<'t>,
        groups: &'t [Fields],
        list: &mut Vec<Declared<'t>>,
    ) -> Result<(), AllocError>
        ensures { OnOk result (Declares names.now self.old self.new
            (map declared_entry list.old.items) (map declared_entry list.new.items)
            (with_declared_groups groups.now)) }
    {
        for group in groups {
            self.declare_group(names, group, list)?;
        }
        Ok(())
    }
}
