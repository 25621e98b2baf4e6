//! The components that a report describes: the component variables of the initial process, in text
//! order.

ghost use Rattle.std.specs.Prelude.{◌≡◌, IfOk, filter, map};
ghost use Rattle.cp_model.specs.Components.{is_component_of};
ghost use Rattle.cp_model.specs.Erase as erase;
ghost use Rattle.cp_model.specs.Types.{ResolvedType};
ghost use Rattle.cp_compile_symbols.specs.Representing.{Represents, entry};
ghost use Rattle.cp_compile_symbols.specs.Variables.{declared_entry};
ghost use Rattle.cp_inspect.specs.Lists.{Lists, Picks};

use cp_compile_symbols::{Declared, Field, Tables, TypeRow};
use cp_model::tree::Sort;
use std::alloc::{AllocError, Global};

// Whether the type with this number is a component type of the sort.
fn is_of_sort(tables: &Tables, row: usize, sort: Sort) -> bool
    ensures { (t : ResolvedType) → Represents tables.now.types row t
        → result ≡ is_component_of (erase.sort_of sort) t }
{
    let Some(TypeRow::Component { system, .. }) = tables.types.row(row) else {
        return false;
    };
    match tables.types.system(*system) {
        Some(system) => sort.is_same(system.sort),
        None => false,
    }
}

// Adds a variable if it is a component of the sort.
fn pick<'t>(
    tables: &Tables<'t>,
    sort: Sort,
    list: &mut Vec<Field<'t>>,
    variable: Declared<'t>,
) -> Result<(), AllocError>
    ensures { IfOk result (λ _. Picks tables.now.types (erase.sort_of sort)
        (declared_entry variable.entry) (map entry list.old.items) (map entry list.new.items)) }
{
    if is_of_sort(tables, variable.of, sort) {
        list.push(Field {
            name: variable.name,
            of: variable.of,
        })?;
    }
    Ok(())
}

/// The processes without the initial one, or the monitors, by number.
///
/// # Errors
///
/// `AllocError` if memory runs out.
pub fn components<'t>(
    alloc: Global,
    tables: &Tables<'t>,
    sort: Sort,
) -> Result<Vec<Field<'t>>, AllocError>
    ensures { IfOk result (λ list. Lists tables.now.types (erase.sort_of sort)
        (map declared_entry tables.now.initial.variables.items) (map entry list.items)) }
{
    let mut list = Vec::new(alloc);
    for variable in &tables.initial.variables {
        pick(tables, sort, &mut list, *variable)?;
    }
    Ok(list)
}
