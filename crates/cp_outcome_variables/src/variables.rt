//! The variables of processes and monitors, with their values.

use crate::named::{Named, row_of};
use crate::value::VariableValue;
use crate::vocabulary::Vocabulary;
use cp_base_names::Key;
use cp_inspect::component_table::{ComponentTable, Owner};
use cp_inspect::inspect::Inspect;
use cp_inspect::leaves::Leaf;
use cp_model::tree::Tree;
use serde::Serialize;
use std::alloc::{AllocError, Global};

/// A simple part of a variable, or a queue.
#[derive(Drop, Serialize)]
pub struct Variable {
    /// Its path, as in a report. The name of its owner comes first if it was asked for by name.
    #[serde(rename = "variable")]
    pub path: String,
    pub value: VariableValue,
}

/// The variables that an outcome shows.
#[derive(Drop)]
pub struct Variables {
    /// For each monitor by number, its variables.
    pub monitors: Vec<Vec<Variable>>,
    /// Those that were asked for by name.
    pub shown: Vec<Variable>,
}

// Whose name comes before a path.
fn owner_name<'t>(components: &ComponentTable<'t>, owner: Owner) -> &'t [u8] {
    match owner {
        Owner::Process(number) => components.process_name(number),
        Owner::Monitor(number) => components.monitor_name(number),
    }
}

// The path of a variable, after the name of its owner.
fn full_path(
    alloc: Global,
    components: &ComponentTable<'_>,
    owner: Owner,
    leaf: &Leaf,
) -> Result<String, AllocError> {
    let mut path = Vec::new(alloc);
    path.extend_from_slice(owner_name(components, owner))?;
    path.extend_from_slice(b".")?;
    path.extend_from_slice(&leaf.path)?;
    String::from_utf8_lossy(alloc, &path)
}

impl<'t> Vocabulary<'t> {
    fn variable<M: Inspect>(
        &self,
        machine: &M,
        owner: Owner,
        leaf: &Leaf,
        path: String,
    ) -> Result<Variable, AllocError> {
        let value = machine.value_at(&leaf.in_owner(owner));
        Ok(Variable {
            path,
            value: self.value(machine, leaf.of, value)?,
        })
    }

    // The variables of a process or a monitor.
    fn variables<M: Inspect>(
        &self,
        machine: &M,
        owner: Owner,
    ) -> Result<Vec<Variable>, AllocError> {
        let mut all = Vec::new(self.alloc);
        for leaf in &machine.leaves_of(self.alloc, row_of(&self.components, owner))? {
            let path = String::from_utf8_lossy(self.alloc, &leaf.path)?;
            all.push(self.variable(machine, owner, leaf, path)?)?;
        }
        Ok(all)
    }

    // Adds the variables that a name names.
    fn add_named<M: Inspect>(
        &self,
        machine: &M,
        named: Named<'_>,
        shown: &mut Vec<Variable>,
    ) -> Result<(), AllocError> {
        let owner = named.owner;
        for leaf in &machine.leaves_of(self.alloc, row_of(&self.components, owner))? {
            if named.has(leaf) {
                let path = full_path(self.alloc, &self.components, owner, leaf)?;
                shown.push(self.variable(machine, owner, leaf, path)?)?;
            }
        }
        Ok(())
    }

    // The variables that names name, in the order of the names.
    fn shown<M: Inspect>(&self, machine: &M, names: &[&str]) -> Result<Vec<Variable>, AllocError> {
        let mut shown = Vec::new(self.alloc);
        for name in names {
            if let Some(named) = Named::of(&self.components, name)? {
                self.add_named(machine, named, &mut shown)?;
            }
        }
        Ok(shown)
    }

    // The variables of each monitor, by number.
    fn of_monitors<M: Inspect>(&self, machine: &M) -> Result<Vec<Vec<Variable>>, AllocError> {
        let mut monitors = Vec::new(self.alloc);
        let mut number: u32 = 0;
        for _monitor in &self.components.monitors {
            number = number.saturating_add(1);
            monitors.push(self.variables(machine, Owner::Monitor(number))?)?;
        }
        Ok(monitors)
    }
}

/// The variables of a machine with these names and, if `has_monitors`, those of all monitors. The
/// machine runs a program with this tree and these components, whose names have this key. A name that
/// no variable has shows nothing.
///
/// # Errors
///
/// `AllocError` if memory runs out.
pub fn variables_of<'t, M: Inspect>(
    alloc: Global,
    key: Key,
    components: ComponentTable<'t>,
    tree: &'t Tree,
    machine: &M,
    names: &[&str],
    has_monitors: bool,
) -> Result<Variables, AllocError> {
    let vocabulary = Vocabulary::of(alloc, key, components, tree)?;
    Ok(Variables {
        monitors: if has_monitors {
            vocabulary.of_monitors(machine)?
        } else {
            Vec::new(alloc)
        },
        shown: vocabulary.shown(machine, names)?,
    })
}
