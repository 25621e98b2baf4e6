//! The members of components, and the variables of routines as members.

ghost use Rattle.std.specs.Prelude.{◌≡◌, ◌∷◌, ◌++◌, [], IfOk, OnOk, if◌then◌else◌, map};
ghost use Rattle.cp_compile_emit.specs.Members.{is_own, member_of, own_of};
ghost use Rattle.cp_compile_symbols.specs.Representing.{entry};

use cp_compile_symbols::{Declared, Field, Types};
use std::alloc::{AllocError, Global};

// Adds a parameter, unless it is a right to a component.
fn keep<'t>(
    types: &Types<'t>,
    kept: &mut Vec<Declared<'t>>,
    declared: Declared<'t>,
) -> Result<(), AllocError>
    ensures { OnOk result (kept.new.items ≡ (if is_own types.now declared.entry
        then kept.old.items ++ declared.entry ∷ [] else kept.old.items)) }
{
    if types.system_of(declared.of).is_none() {
        kept.push(declared)?;
    }
    Ok(())
}

/// The parameters in `list` that aren't rights to components.
pub fn own_parameters<'t>(
    alloc: Global,
    types: &Types<'t>,
    list: &[Declared<'t>],
) -> Result<Vec<Declared<'t>>, AllocError>
    ensures { IfOk result (λ own. own.items ≡ own_of types.now list.now) }
{
    let mut kept = Vec::new(alloc);
    for d in list {
        keep(types, &mut kept, *d)?;
    }
    Ok(kept)
}

/// Adds these variables as members.
pub fn add_members<'t>(
    members: &mut Vec<Field<'t>>,
    list: &[Declared<'t>],
) -> Result<(), AllocError>
    ensures { OnOk result (map entry members.new.items ≡ map entry members.old.items
        ++ map member_of list.now) }
{
    for d in list {
        members.push(Field {
            name: d.name,
            of: d.of,
        })?;
    }
    Ok(())
}
