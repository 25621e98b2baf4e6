//! Names such as `m.balance`, `m.cell[2]` or `m`, in any letter case, and the variables that they
//! name: those of a process or a monitor whose path is the part after the dot, or begins with it.

use cp_inspect::component_table::{ComponentTable, Owner};
use cp_inspect::leaves::Leaf;
use std::alloc::AllocError;

/// What a name names: an owner, and the beginning of the paths of its variables, which is empty if
/// all are meant.
#[derive(Clone, Copy)]
pub struct Named<'a> {
    pub owner: Owner,
    path: &'a str,
}

/// The number of the type of a process or a monitor, or `None` for the initial process.
pub fn row_of(components: &ComponentTable<'_>, owner: Owner) -> Option<usize> {
    let component = match owner {
        Owner::Process(number) => {
            let index = usize::try_from(number).ok()?.checked_sub(2)?;
            components.processes.get(index)?
        }
        Owner::Monitor(number) => components.monitor(number)?,
    };
    Some(component.of)
}

// Whether a part of a variable comes after this byte of a path.
fn begins_part(byte: u8) -> bool {
    byte == b'.' || byte == b'['
}

impl<'a> Named<'a> {
    /// What a name names among these components, if it begins with the name of one of them.
    ///
    /// # Errors
    ///
    /// `AllocError` if the number of the component has more than 32 bits, as none has that fits in
    /// memory.
    pub fn of(
        components: &ComponentTable<'_>,
        name: &'a str,
    ) -> Result<Option<Named<'a>>, AllocError> {
        let (component, path) = match name.split_once('.') {
            Some((_, "")) => return Ok(None),
            Some((component, path)) => (component, path),
            None => (name, ""),
        };
        Ok(match components.owner(component.as_bytes())? {
            Some(owner) => Some(Named { owner, path }),
            None => None,
        })
    }

    /// Whether all variables of the owner are meant.
    pub fn is_whole(&self) -> bool {
        self.path.is_empty()
    }

    /// Whether a variable is meant.
    pub fn has(&self, leaf: &Leaf) -> bool {
        let wanted = self.path.as_bytes();
        let Some(front) = leaf.path.get(..wanted.len()) else {
            return false;
        };
        let is_whole = match leaf.path.get(wanted.len()) {
            Some(next) => wanted.is_empty() || begins_part(*next),
            None => true,
        };
        is_whole && front.eq_ignore_ascii_case(wanted)
    }
}
