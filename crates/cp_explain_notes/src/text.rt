//! The walk over declarations: in the order of the text, so that what a name represents is known
//! where it is used.

use crate::flow::Flow;
use crate::note::NoteText;
use crate::walk::{Behaviour, Inside, SystemType, Walk};
use cp_base_names::Key;
use cp_explain_meanings::meaning::{Meaning, Shape};
use cp_model::tree::{
    Body, ConstantDefinition, Defined, Fields, Identifier, Routine, Section, Sort, System, Tree,
    TypeDefinition,
};
use cp_output::page::Page;
use std::alloc::{AllocError, Global};

impl<'t> Walk<'t> {
    fn routine(&mut self, of: usize, routine: &'t Routine) -> Result<(), AllocError> {
        let visible = self.names.count();
        self.names.declare_parameters(&routine.parameters)?;
        self.names.declare_variables(&routine.variables)?;
        self.inside = self.inside.of_routine(routine);
        self.flow = Flow::START;
        self.statements(&routine.body.statements)?;
        self.ends_function()?;
        self.names.leave(visible);
        self.define_routine(of, routine)
    }

    // Makes a routine that was walked over visible, also after the `.` of a component.
    fn define_routine(&mut self, of: usize, routine: &'t Routine) -> Result<(), AllocError> {
        let number = self.routines.len();
        self.routines.push(Behaviour {
            routine,
            delays: self.inside.delays,
            queue: self.inside.queue,
        })?;
        self.names.declare(&routine.name, Meaning::Routine(number))?;
        let entry = Meaning::Entry(self.inside.sort, number);
        self.names.add_member(of, &routine.name, entry)
    }

    fn routines(&mut self, of: usize, routines: &'t [Routine]) -> Result<(), AllocError> {
        for routine in routines {
            self.routine(of, routine)?;
        }
        Ok(())
    }

    // Walks over the body of a component that declares these variables.
    fn body(&mut self, body: &'t Body, variables: &'t [Fields]) -> Result<(), AllocError> {
        self.inside = Inside::body(self.inside.sort, self.inside.is_initial);
        self.flow = Flow::START;
        self.inits.clear();
        self.statements(&body.statements)?;
        self.never_initialised(variables)
    }

    fn system(&mut self, name: &'t Identifier, system: &'t System) -> Result<(), AllocError> {
        let visible = self.names.count();
        let first_call = self.queue_uses.calls();
        self.names.declare_parameters(&system.parameters)?;
        self.names.declare_variables(&system.variables)?;
        self.inside = Inside::body(system.sort, false);
        self.queues.leave_monitor();
        self.routines(name.at, &system.routines)?;
        self.body(&system.body, &system.variables)?;
        self.never_continued()?;
        self.names.leave(visible);
        let defined = SystemType {
            system,
            first_call,
            last_call: self.queue_uses.calls(),
        };
        self.define_system(name, defined)
    }

    fn define_system(
        &mut self,
        name: &'t Identifier,
        defined: SystemType<'t>,
    ) -> Result<(), AllocError> {
        let shape = Shape::System(defined.system.sort, name.at);
        self.names.declare(name, Meaning::Type(shape))?;
        match self.systems.insert(name.at, defined) {
            Ok(_) => Ok(()),
            Err(_) => Err(AllocError),
        }
    }

    fn constants(&mut self, definitions: &'t [ConstantDefinition]) -> Result<(), AllocError> {
        for definition in definitions {
            if let Some(ordinal) = self.names.ordinal(&definition.value) {
                self.names
                    .declare(&definition.name, Meaning::Constant(ordinal))?;
            }
        }
        Ok(())
    }

    fn types(&mut self, definitions: &'t [TypeDefinition]) -> Result<(), AllocError> {
        for definition in definitions {
            let x = &definition.name;
            match &definition.defined {
                Defined::Written(of) => self.names.declare_type(x, of)?,
                Defined::Enumeration(values) => self.names.declare_enumeration(x, values)?,
                Defined::System(system) => self.system(x, system)?,
            }
        }
        Ok(())
    }

    fn text(&mut self, tree: &'t Tree) -> Result<(), AllocError> {
        for section in &tree.sections {
            match section {
                Section::Constants(definitions) => self.constants(definitions)?,
                Section::Types(definitions) => self.types(definitions)?,
            }
        }
        self.names.declare_variables(&tree.variables)?;
        self.inside = Inside::body(Sort::Process, true);
        self.routines(tree.body.at, &tree.routines)?;
        self.body(&tree.body, &tree.variables)
    }
}

/// The notes on an accepted text, in the order of the text. The key is that of its names. Fails
/// only if memory runs out.
pub fn notes(
    alloc: Global,
    key: Key,
    text: &[u8],
    tree: &Tree,
) -> Result<Vec<NoteText>, AllocError> {
    let mut walk = Walk::new(alloc, key)?;
    walk.text(tree)?;
    walk.notes.reported(alloc, text)
}

/// Adds the notes on an accepted text to a page, in the order of the text. Fails only if memory
/// runs out.
pub fn add_notes(
    alloc: Global,
    key: Key,
    page: &mut Page,
    file: &[u8],
    text: &[u8],
    tree: &Tree,
) -> Result<(), AllocError> {
    for note in &notes(alloc, key, text, tree)? {
        note.write(page, file);
    }
    Ok(())
}
