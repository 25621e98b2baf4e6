//! The components that a text or a system type declares or has rights to.

use cp_base_names::{Key, NameTable};
use cp_model::tree::{
    Defined, Fields, Identifier, Parameters, Section, Sort, System, Tree, TypeDefinition,
    TypeExpression,
};
use std::alloc::{AllocError, Global};

/// The system types of a text by their names.
#[derive(Drop)]
pub struct Systems<'t> {
    names: NameTable<'t, &'t System>,
    key: Key,
}

impl<'t> Systems<'t> {
    /// Collects the system types of a tree, whose names have this key. Fails only if memory runs out.
    pub fn of(alloc: Global, key: Key, tree: &'t Tree) -> Result<Systems<'t>, AllocError> {
        let mut systems = Systems {
            names: NameTable::new(alloc, key),
            key,
        };
        for section in &tree.sections {
            if let Section::Types(definitions) = section {
                systems.add_all(definitions)?;
            }
        }
        Ok(systems)
    }

    fn add_all(&mut self, definitions: &'t [TypeDefinition]) -> Result<(), AllocError> {
        for definition in definitions {
            if let Defined::System(system) = &definition.defined {
                self.add(&definition.name, system)?;
            }
        }
        Ok(())
    }

    fn add(&mut self, identifier: &'t Identifier, system: &'t System) -> Result<(), AllocError> {
        let name = identifier.name.as_bytes();
        match self.names.find(name) {
            Some(_) => Ok(()),
            None => self.names.add(name, system),
        }
    }
}

/// A component: the name of its variable, or of the parameter that gives the right to it, and the
/// name of its type.
#[derive(Clone, Copy)]
pub struct Component<'t> {
    pub name: &'t Identifier,
    pub of: &'t Identifier,
    pub sort: Sort,
    /// The number of a process, from 2, or of a monitor, from 1, if the initial process declares
    /// it.
    pub number: usize,
}

/// The components that a text or a system type declares or has rights to, in the order of their
/// declarations.
#[derive(Drop)]
pub struct Components<'t> {
    names: NameTable<'t, Component<'t>>,
    processes: usize,
    monitors: usize,
}

impl<'t> Components<'t> {
    /// Collects the components among these parameters and variables. Fails only if memory runs out.
    pub fn of(
        alloc: Global,
        systems: &Systems<'t>,
        parameters: &'t [Parameters],
        variables: &'t [Fields],
    ) -> Result<Components<'t>, AllocError> {
        let mut components = Components {
            names: NameTable::new(alloc, systems.key),
            processes: 1,
            monitors: 0,
        };
        for group in parameters {
            components.add_all(systems, &group.names, &group.of)?;
        }
        for group in variables {
            if let TypeExpression::Named(of) = &group.of {
                components.add_all(systems, &group.names, of)?;
            }
        }
        Ok(components)
    }

    /// The number of components.
    pub fn len(&self) -> usize {
        self.names.len()
    }

    /// The component at an index among all of them, from 0.
    pub fn get(&self, index: usize) -> Option<Component<'t>> {
        let (_, component) = self.names.get(index)?;
        Some(component)
    }

    /// The component with this name.
    pub fn find(&self, name: &Identifier) -> Option<Component<'t>> {
        self.names.find(name.name.as_bytes())
    }

    fn add_all(
        &mut self,
        systems: &Systems<'t>,
        names: &'t [Identifier],
        of: &'t Identifier,
    ) -> Result<(), AllocError> {
        let Some(system) = systems.names.find(of.name.as_bytes()) else {
            return Ok(());
        };
        for name in names {
            let number = self.next_number(system.sort);
            self.add(Component {
                name,
                of,
                sort: system.sort,
                number,
            })?;
        }
        Ok(())
    }

    fn add(&mut self, component: Component<'t>) -> Result<(), AllocError> {
        let name = component.name.name.as_bytes();
        match self.names.find(name) {
            Some(_) => Ok(()),
            None => self.names.add(name, component),
        }
    }

    fn next_number(&mut self, sort: Sort) -> usize {
        match sort {
            Sort::Process => {
                self.processes = self.processes.saturating_add(1);
                self.processes
            }
            Sort::Monitor => {
                self.monitors = self.monitors.saturating_add(1);
                self.monitors
            }
            Sort::Class => 0,
        }
    }
}
