//! The names of a text for its components and values, in place of numbers.

use crate::changes::Value;
use crate::owners::{name_of, word};
use cp_base_names::{Key, NameTable};
use cp_compile_symbols::Base;
use cp_inspect::component_table::{ComponentTable, Owner};
use cp_inspect::inspect::Inspect;
use cp_inspect::place;
use cp_model::tree::{Defined, Identifier, Section, Tree, TypeDefinition};
use cp_private::kernel_view::Holder;
use std::alloc::{AllocError, Global};

// The values of each enumeration, by its name.
type Enumerations<'t> = NameTable<'t, &'t [Identifier]>;

/// The names of a text for its components and values.
#[derive(Drop)]
pub(crate) struct Vocabulary<'t> {
    alloc: Global,
    pub(crate) component_table: ComponentTable<'t>,
    enumerations: Enumerations<'t>,
}

fn add_enumerations<'t>(
    enumerations: &mut Enumerations<'t>,
    definitions: &'t [TypeDefinition],
) -> Result<(), AllocError> {
    for definition in definitions {
        if let Defined::Enumeration(values) = &definition.defined {
            let name = definition.name.name.as_bytes();
            if enumerations.find(name).is_none() {
                enumerations.add(name, values)?;
            }
        }
    }
    Ok(())
}

fn enumerations<'t>(
    alloc: Global,
    key: Key,
    tree: &'t Tree,
) -> Result<Enumerations<'t>, AllocError> {
    let mut enumerations = NameTable::new(alloc, key);
    for section in &tree.sections {
        if let Section::Types(definitions) = section {
            add_enumerations(&mut enumerations, definitions)?;
        }
    }
    Ok(enumerations)
}

impl<'t> Vocabulary<'t> {
    /// The vocabulary of a text with this tree, whose processes and monitors these are.
    pub(crate) fn of(
        alloc: Global,
        key: Key,
        component_table: ComponentTable<'t>,
        tree: &'t Tree,
    ) -> Result<Vocabulary<'t>, AllocError> {
        Ok(Vocabulary {
            alloc,
            component_table,
            enumerations: enumerations(alloc, key, tree)?,
        })
    }

    /// The number of the type of a process or monitor, or `None` for the initial process.
    pub(crate) fn type_of(&self, owner: Owner) -> Option<usize> {
        let component = match owner {
            Owner::Process(number) => {
                let index = usize::try_from(number).ok()?.checked_sub(2)?;
                self.component_table.processes.get(index)?
            }
            Owner::Monitor(number) => self.component_table.monitor(number)?,
        };
        Some(component.of)
    }

    /// The name of the process with a number.
    pub(crate) fn process(&self, number: u32) -> &'t str {
        name_of(&self.component_table, Owner::Process(number))
    }

    /// The names of the processes with these numbers.
    pub(crate) fn processes(&self, numbers: &[u32]) -> Result<Vec<&'t str>, AllocError> {
        let mut names = Vec::with_capacity(self.alloc, numbers.len())?;
        for number in numbers {
            names.push(self.process(*number))?;
        }
        Ok(names)
    }

    /// The name of the holder of a gate, `free` or `unset`.
    pub(crate) fn holder(&self, holder: Holder) -> &'t str {
        match holder {
            Holder::Unset => "unset",
            Holder::Free => "free",
            Holder::Process(number) => self.process(number),
        }
    }

    // The value with an ordinal of the enumeration with this name.
    fn enumerated(&self, name: &[u8], ordinal: i32) -> Value<'t> {
        let values = self.enumerations.find(name).unwrap_or(&[]);
        let value = match usize::try_from(ordinal) {
            Ok(index) => values.get(index),
            Err(_) => None,
        };
        match value {
            Some(value) => Value::Name(word(value.name.as_bytes())),
            None => Value::Integer(ordinal),
        }
    }

    // The value with an ordinal, of a base type.
    fn ordinal(&self, base: Option<Base<'_>>, ordinal: i32) -> Value<'t> {
        match base {
            Some(Base::Integer) | None => Value::Integer(ordinal),
            Some(Base::Char) => character(ordinal),
            Some(Base::Boolean) => Value::Boolean(ordinal != 0),
            Some(Base::Enumeration { name, .. }) => self.enumerated(name, ordinal),
        }
    }

    /// The value of a variable of a type with the number `of`, as it is reported.
    pub(crate) fn value<M: Inspect>(
        &self,
        machine: &M,
        of: usize,
        value: place::Value,
    ) -> Value<'t> {
        match value {
            place::Value::Ordinal(ordinal) => self.ordinal(machine.base_of(of), ordinal),
            place::Value::Queue(Some(process)) => Value::Name(self.process(process)),
            place::Value::Queue(None) => Value::Empty,
        }
    }
}

// The character with an ordinal.
fn character<'t>(ordinal: i32) -> Value<'t> {
    match u8::try_from(ordinal) {
        Ok(byte) => Value::Character(char::from(byte)),
        Err(_) => Value::Integer(ordinal),
    }
}
