//! The access graph of a text, in either form.

use crate::instances::Instances;
use crate::{dot, lines};
use cp_base_config::explaining::Form;
use cp_base_names::Key;
use cp_model::tree::Tree;
use cp_output::page::Page;
use std::alloc::{AllocError, Global};

/// Writes the components of an accepted text, and which of them has a right to which. The key is
/// that of its names. Fails only if memory runs out.
pub fn graph(alloc: Global, key: Key, tree: &Tree, form: Form) -> Result<Page, AllocError> {
    let instances = Instances::of(alloc, key, tree)?;
    let mut page = Page::new(alloc);
    match form {
        Form::Lines => lines::write(&mut page, &instances)?,
        Form::Dot => dot::write(&mut page, &instances)?,
    }
    Ok(page)
}
