//! Paths of queues, with the names of values of enumerations as indices.

use cp_model::tree::{
    Constant, Defined, Fields, Identifier, Section, System, Tree, TypeDefinition, TypeExpression,
};
use std::alloc::{AllocError, Global};

/// How many names of types or constants are followed. Longer chains leave numbers.
const MAX_NAMES: usize = 64;

// The type that one of these groups gives to a variable with a name.
fn type_in<'t>(groups: &'t [Fields], name: &[u8]) -> Option<&'t TypeExpression> {
    for group in groups {
        for variable in &group.names {
            if variable.name.as_bytes() == name {
                return Some(&group.of);
            }
        }
    }
    None
}

// The definition with a name among these.
fn definition_in<'t>(list: &'t [TypeDefinition], name: &[u8]) -> Option<&'t Defined> {
    for definition in list {
        if definition.name.name.as_bytes() == name {
            return Some(&definition.defined);
        }
    }
    None
}

// The type definition with a name.
fn definition<'t>(tree: &'t Tree, name: &[u8]) -> Option<&'t Defined> {
    for section in &tree.sections {
        if let Section::Types(list) = section {
            if let Some(found) = definition_in(list, name) {
                return Some(found);
            }
        }
    }
    None
}

// Whether a list of identifiers has one with this name.
fn has_name(list: &[Identifier], name: &[u8]) -> bool {
    for identifier in list {
        if identifier.name.as_bytes() == name {
            return true;
        }
    }
    false
}

fn enumeration_in<'t>(list: &'t [TypeDefinition], value: &[u8]) -> Option<&'t [Identifier]> {
    for definition in list {
        if let Defined::Enumeration(values) = &definition.defined {
            if has_name(values, value) {
                return Some(values);
            }
        }
    }
    None
}

// The constant with a name in a section.
fn constant_in<'t>(section: &'t Section, name: &[u8]) -> Option<&'t Constant> {
    let Section::Constants(list) = section else {
        return None;
    };
    for definition in list {
        if definition.name.name.as_bytes() == name {
            return Some(&definition.value);
        }
    }
    None
}

// The name that a constant with this name is defined as, if it is one.
fn renamed<'t>(tree: &'t Tree, name: &[u8]) -> Option<&'t [u8]> {
    for section in &tree.sections {
        if let Some(Constant::Named(other)) = constant_in(section, name) {
            return Some(other.name.as_bytes());
        }
    }
    None
}

// The enumeration that has a value with this name, or one of which this is a constant.
fn enumeration_of_value<'t>(tree: &'t Tree, value: &'t [u8]) -> Option<&'t [Identifier]> {
    let mut name = value;
    for _name in 0..MAX_NAMES {
        for section in &tree.sections {
            if let Section::Types(list) = section {
                if let Some(values) = enumeration_in(list, name) {
                    return Some(values);
                }
            }
        }
        name = renamed(tree, name)?;
    }
    None
}

// The enumeration of an index with this type.
fn enumeration_of<'t>(tree: &'t Tree, index: &'t TypeExpression) -> Option<&'t [Identifier]> {
    let mut of = index;
    for _name in 0..MAX_NAMES {
        match of {
            TypeExpression::Named(name) => match definition(tree, name.name.as_bytes())? {
                Defined::Enumeration(values) => return Some(values),
                Defined::Written(written) => of = written,
                Defined::System(_) => return None,
            },
            TypeExpression::Subrange(bounds) => match &bounds.0 {
                Constant::Named(value) => {
                    return enumeration_of_value(tree, value.name.as_bytes());
                }
                _ => return None,
            },
            _ => return None,
        }
    }
    None
}

// The array type of a type, by its name.
fn array_of<'t>(tree: &'t Tree, of: &'t TypeExpression) -> Option<&'t TypeExpression> {
    let mut of = of;
    for _name in 0..MAX_NAMES {
        match of {
            TypeExpression::Array { .. } => return Some(of),
            TypeExpression::Named(name) => match definition(tree, name.name.as_bytes())? {
                Defined::Written(written) => of = written,
                _ => return None,
            },
            _ => return None,
        }
    }
    None
}

// The enumerations of the indices of a variable, in their order, or none for an index that is a
// number.
fn enumerations<'t>(
    alloc: Global,
    tree: &'t Tree,
    of: &'t TypeExpression,
) -> Result<Vec<Option<&'t [Identifier]>>, AllocError> {
    let mut all = Vec::new(alloc);
    let mut rest = of;
    for _array in 0..MAX_NAMES {
        let Some(
            TypeExpression::Array {
                indices,
                element,
                ..
            },
        ) = array_of(tree, rest)
        else {
            break;
        };
        for index in indices.iter() {
            all.push(enumeration_of(tree, index))?;
        }
        rest = element;
    }
    Ok(all)
}

// The number that these digits spell.
fn number_of(digits: &[u8]) -> Option<usize> {
    let mut number: usize = 0;
    for digit in digits {
        if !digit.is_ascii_digit() {
            return None;
        }
        let value = usize::from(digit.saturating_sub(b'0'));
        number = number.checked_mul(10)?.checked_add(value)?;
    }
    Some(number)
}

// The name of the value with an index of an enumeration.
fn value_name<'t>(values: Option<&'t [Identifier]>, digits: &[u8]) -> Option<&'t [u8]> {
    let value = values?.get(number_of(digits)?)?;
    Some(value.name.as_bytes())
}

// The length of the text before the `]` that ends an index, or of the whole text.
fn index_length(text: &[u8]) -> usize {
    for (at, byte) in text.iter().enumerate() {
        if *byte == b']' {
            return at;
        }
    }
    text.len()
}

/// The path of a queue, or of an element of an array of queues with this name, of a monitor, in
/// which indices of enumerations are named. `path` has numbers as indices. Fails only if memory
/// runs out.
pub fn push_path(
    alloc: Global,
    tree: &Tree,
    monitor: &System,
    name: &[u8],
    path: &[u8],
) -> Result<Vec<u8>, AllocError> {
    let mut named = Vec::new(alloc);
    named.extend_from_slice(name)?;
    let kinds = match type_in(&monitor.variables, name) {
        Some(of) => enumerations(alloc, tree, of)?,
        None => Vec::new(alloc),
    };
    let mut rest = path.get(name.len()..).unwrap_or(&[]);
    for number in 0..path.len() {
        let [b'[', after @ ..] = rest else {
            break;
        };
        let length = index_length(after);
        let digits = after.get(..length).unwrap_or(&[]);
        let values = kinds.get(number).copied().unwrap_or(None);
        named.extend_from_slice(b"[")?;
        named.extend_from_slice(value_name(values, digits).unwrap_or(digits))?;
        named.extend_from_slice(b"]")?;
        rest = after.get(length.saturating_add(1)..).unwrap_or(&[]);
    }
    Ok(named)
}
