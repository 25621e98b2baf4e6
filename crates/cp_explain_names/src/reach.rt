//! Components in reach of a place, by the entries that they have.

use crate::scope::{Scope, Wanted};
use cp_model::tree::{Fields, Identifier, Parameters, Routine, TypeExpression};

fn has_entry(routines: &[Routine], name: &[u8]) -> bool {
    for routine in routines {
        if routine.entry.is_some() && routine.name.name.as_bytes() == name {
            return true;
        }
    }
    false
}

impl<'t> Scope<'t> {
    // Whether the type with this name is that of components that have this entry.
    fn is_type_with_entry(&self, of: &'t Identifier, name: &[u8]) -> bool {
        match self.find(Wanted::other_than(of)) {
            Some(declared) => match declared.system {
                Some(system) => has_entry(&system.routines, name),
                None => false,
            },
            None => false,
        }
    }

    fn parameter_with_entry(
        &self,
        groups: &'t [Parameters],
        name: &[u8],
    ) -> Option<&'t Identifier> {
        for group in groups {
            if self.is_type_with_entry(&group.of, name) {
                return group.names.first();
            }
        }
        None
    }

    fn variable_with_entry(&self, groups: &'t [Fields], name: &[u8]) -> Option<&'t Identifier> {
        for group in groups {
            if let TypeExpression::Named(of) = &group.of {
                if self.is_type_with_entry(of, name) {
                    return group.names.first();
                }
            }
        }
        None
    }

    /// The first component in reach that has an entry routine with this name.
    pub fn component_with_entry(&self, name: &[u8]) -> Option<&'t Identifier> {
        let right = match self.system {
            Some(system) => self.parameter_with_entry(&system.parameters, name),
            None => None,
        };
        match right {
            Some(found) => Some(found),
            None => self.variable_with_entry(self.variables(), name),
        }
    }
}
