//! The names of the types with which parameters and variables are declared.

ghost use Rattle.std.specs.Prelude.{◌≡◌, IfOk, OnOk, map};
ghost use Rattle.cp_model.specs.Erase as erase;
ghost use Rattle.cp_model.specs.View as view;
ghost use Rattle.cp_model_program.specs.Scopes.{type_name};
ghost use Rattle.cp_compile_symbols.specs.TypeNames.{AreTypeNames, NamesMore, typed_among};

use crate::names::add_first;
use cp_base_names::{Key, NameTable};
use cp_model::tree::{Fields, Identifier, Parameters, TypeExpression};
use std::alloc::{AllocError, Global};

// The name of a written type, empty if the type isn't a bare name. An array without index types is
// its element type.
fn type_name<'t>(of: &'t TypeExpression) -> &'t [u8]
    ensures { result.now ≡ type_name (erase.type_expression (view.type_expression of.now)) }
{
    match of {
        TypeExpression::Named(x) => x.name.as_bytes(),
        TypeExpression::Array {
            indices,
            element,
            ..
        } => match indices.as_slice() {
            [] => type_name(element),
            [_, ..] => &[],
        },
        TypeExpression::Subrange(_) => &[],
        TypeExpression::Record { .. } => &[],
    }
}

// Adds names that are declared with one type.
fn add_names<'t>(
    table: &mut NameTable<'t, &'t [u8]>,
    names: &'t [Identifier],
    of: &'t [u8],
) -> Result<(), AllocError>
    ensures { OnOk result
        (NamesMore table.old table.new (typed_among (map erase.name names.now) of.now)) }
{
    for x in names {
        add_first(table, x.name.as_bytes(), of)?;
    }
    Ok(())
}

/// The name of the type of each parameter that these groups declare.
pub fn parameter_types<'t>(
    alloc: Global,
    key: Key,
    groups: &'t [Parameters],
) -> Result<NameTable<'t, &'t [u8]>, AllocError>
    ensures { IfOk result (λ names.
        AreTypeNames names (map erase.parameter_group (map view.parameters groups.now))) }
{
    let mut table = NameTable::new(alloc, key);
    for group in groups {
        add_names(&mut table, &group.names, group.of.name.as_bytes())?;
    }
    Ok(table)
}

/// The name of the type of each variable that these groups declare, empty if the type isn't a bare
/// name.
pub fn variable_types<'t>(
    alloc: Global,
    key: Key,
    groups: &'t [Fields],
) -> Result<NameTable<'t, &'t [u8]>, AllocError>
    ensures { IfOk result (λ names.
        AreTypeNames names (map erase.variable_group (map view.variables groups.now))) }
{
    let mut table = NameTable::new(alloc, key);
    for group in groups {
        add_names(&mut table, &group.names, type_name(&group.of))?;
    }
    Ok(table)
}
