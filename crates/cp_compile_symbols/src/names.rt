//! The names of constants and types in the outermost scope.

ghost use Rattle.std.specs.Prelude.{◌≡◌, [], OnOk};
ghost use Rattle.cp_compile_symbols.specs.Tables.{Behind};

use crate::types::Base;
use cp_base_names::{Key, NameTable};
use std::alloc::{AllocError, Global};

/// The value of a constant: its base type and its ordinal.
#[derive(Clone, Copy)]
pub struct Value<'t> {
    pub base: Base<'t>,
    pub ordinal: i32,
}

/// The constants and types of the outermost scope. A type is known by its number in `Types`.
#[derive(Drop)]
pub struct Names<'t> {
    pub constants: NameTable<'t, Value<'t>>,
    pub types: NameTable<'t, usize>,
}

impl<'t> Names<'t> {
    /// Creates empty tables of names.
    pub fn new(alloc: Global, key: Key) -> Names<'t>
        ensures constants { result.constants ≡ [] }
        ensures types { result.types ≡ [] }
    {
        Names {
            constants: NameTable::new(alloc, key),
            types: NameTable::new(alloc, key),
        }
    }
}

/// Adds a name after the others, unless the table has it already.
pub fn add_first<'t, A: Copy>(
    table: &mut NameTable<'t, A>,
    name: &'t [u8],
    value: A,
) -> Result<(), AllocError>
    ensures { OnOk result (Behind name.now value table.old table.new) }
{
    if table.find(name).is_none() {
        table.add(name, value)?;
    }
    Ok(())
}
