//! Where the initial process starts a process.

use cp_model::tree::{InitItem, Statement};
use std::alloc::{AllocError, Global};

// Adds the places of the items that name this component.
fn add_places(items: &[InitItem], name: &[u8], places: &mut Vec<usize>) -> Result<(), AllocError> {
    for item in items {
        if item.component.name.as_bytes() == name {
            places.push(item.component.at)?;
        }
    }
    Ok(())
}

/// The places in the text where an `init` among these statements names this component. Fails only
/// if memory runs out.
pub fn places_of_init(
    alloc: Global,
    statements: &[&Statement],
    name: &[u8],
) -> Result<Vec<usize>, AllocError> {
    let mut places = Vec::new(alloc);
    for s in statements {
        if let Statement::Init { items, .. } = s {
            add_places(items, name, &mut places)?;
        }
    }
    Ok(places)
}
