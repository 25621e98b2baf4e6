//! The names of a text for its components and values, in place of numbers.

use crate::value::VariableValue;
use cp_base_names::{Key, NameTable};
use cp_compile_symbols::Base;
use cp_inspect::component_table::ComponentTable;
use cp_inspect::inspect::Inspect;
use cp_inspect::place::Value;
use cp_model::tree::{Defined, Identifier, Section, Tree, TypeDefinition};
use std::alloc::{AllocError, Global};

// The values of each enumeration, by its name.
type Enumerations<'t> = NameTable<'t, &'t [Identifier]>;

/// The names of a text for its components and values.
#[derive(Drop)]
pub(crate) struct Vocabulary<'t> {
    pub(crate) alloc: Global,
    pub(crate) components: ComponentTable<'t>,
    enumerations: Enumerations<'t>,
}

fn add_enumerations<'t>(
    enumerations: &mut Enumerations<'t>,
    definitions: &'t [TypeDefinition],
) -> Result<(), AllocError> {
    for definition in definitions {
        if let Defined::Enumeration(values) = &definition.defined {
            let name = definition.name.name.as_bytes();
            if enumerations.find(name).is_none() {
                enumerations.add(name, values)?;
            }
        }
    }
    Ok(())
}

fn enumerations<'t>(
    alloc: Global,
    key: Key,
    tree: &'t Tree,
) -> Result<Enumerations<'t>, AllocError> {
    let mut enumerations = NameTable::new(alloc, key);
    for section in &tree.sections {
        if let Section::Types(definitions) = section {
            add_enumerations(&mut enumerations, definitions)?;
        }
    }
    Ok(enumerations)
}

// The character with an ordinal.
fn character(ordinal: i32) -> VariableValue {
    match u8::try_from(ordinal) {
        Ok(byte) => VariableValue::Character(char::from(byte)),
        Err(_) => VariableValue::Integer(ordinal),
    }
}

impl<'t> Vocabulary<'t> {
    /// The vocabulary of a text with this tree, whose names have this key. Fails only if memory runs
    /// out.
    pub(crate) fn of(
        alloc: Global,
        key: Key,
        components: ComponentTable<'t>,
        tree: &'t Tree,
    ) -> Result<Vocabulary<'t>, AllocError> {
        Ok(Vocabulary {
            alloc,
            components,
            enumerations: enumerations(alloc, key, tree)?,
        })
    }

    fn name(&self, bytes: &[u8]) -> Result<VariableValue, AllocError> {
        Ok(VariableValue::Name(String::from_utf8_lossy(self.alloc, bytes)?))
    }

    // The value with an ordinal of the enumeration with this name.
    fn enumerated(&self, name: &[u8], ordinal: i32) -> Result<VariableValue, AllocError> {
        let values = self.enumerations.find(name).unwrap_or(&[]);
        let value = match usize::try_from(ordinal) {
            Ok(index) => values.get(index),
            Err(_) => None,
        };
        match value {
            Some(value) => self.name(value.name.as_bytes()),
            None => Ok(VariableValue::Integer(ordinal)),
        }
    }

    /// The value of a variable of a type with the number `of`. Fails only if memory runs out.
    pub(crate) fn value<M: Inspect>(
        &self,
        machine: &M,
        of: usize,
        value: Value,
    ) -> Result<VariableValue, AllocError> {
        match value {
            Value::Queue(None) => Ok(VariableValue::Empty),
            Value::Queue(Some(process)) => self.name(self.components.process_name(process)),
            Value::Ordinal(ordinal) => match machine.base_of(of) {
                Some(Base::Integer) | None => Ok(VariableValue::Integer(ordinal)),
                Some(Base::Char) => Ok(character(ordinal)),
                Some(Base::Boolean) => Ok(VariableValue::Boolean(ordinal != 0)),
                Some(Base::Enumeration { name, .. }) => self.enumerated(name, ordinal),
            },
        }
    }
}
