//! The names that are visible at a place, by what they represent.

use crate::nearest::Nearest;
use crate::scope::Scope;
use crate::standard::{STANDARD, StandardKind};
use cp_model::tree::{Defined, Parameters, Routine, Section, TypeDefinition};
use std::alloc::{AllocError, Global};

/// What names may be at a place.
#[derive(Clone, Copy)]
pub struct Fit {
    pub constants: bool,
    pub variables: bool,
    pub types: bool,
    pub functions: bool,
    pub procedures: bool,
}

/// No name at all.
pub const NO_NAME: Fit = Fit {
    constants: false,
    variables: false,
    types: false,
    functions: false,
    procedures: false,
};

impl Fit {
    fn is_standard(self, kind: StandardKind) -> bool {
        match kind {
            StandardKind::Type => self.types,
            StandardKind::Constant => self.constants,
            StandardKind::Function(_) => self.functions,
            StandardKind::Procedure(_) => self.procedures,
        }
    }
}

impl<'t> Nearest<'t> {
    fn offer_standard(&mut self, alloc: Global, fit: Fit) -> Result<(), AllocError> {
        for standard in STANDARD.as_slice() {
            if fit.is_standard(standard.kind) {
                self.offer(alloc, standard.name.as_bytes())?;
            }
        }
        Ok(())
    }

    fn offer_parameters(
        &mut self,
        alloc: Global,
        groups: &'t [Parameters],
    ) -> Result<(), AllocError> {
        for group in groups {
            self.offer_names(alloc, &group.names)?;
        }
        Ok(())
    }

    fn offer_routines(
        &mut self,
        alloc: Global,
        fit: Fit,
        routines: &'t [Routine],
    ) -> Result<(), AllocError> {
        for routine in routines {
            let fits = match routine.result_type {
                Some(_) => fit.functions,
                None => fit.procedures,
            };
            if fits {
                self.offer(alloc, routine.name.name.as_bytes())?;
            }
        }
        Ok(())
    }

    fn offer_type(
        &mut self,
        alloc: Global,
        fit: Fit,
        definition: &'t TypeDefinition,
    ) -> Result<(), AllocError> {
        if fit.types {
            self.offer(alloc, definition.name.name.as_bytes())?;
        }
        match &definition.defined {
            Defined::Enumeration(values) if fit.constants => self.offer_names(alloc, values),
            _ => Ok(()),
        }
    }

    fn offer_section(
        &mut self,
        alloc: Global,
        fit: Fit,
        section: &'t Section,
    ) -> Result<(), AllocError> {
        match section {
            Section::Types(definitions) => {
                for definition in definitions {
                    self.offer_type(alloc, fit, definition)?;
                }
            }
            Section::Constants(definitions) => {
                for definition in definitions {
                    if fit.constants {
                        self.offer(alloc, definition.name.name.as_bytes())?;
                    }
                }
            }
        }
        Ok(())
    }

    fn offer_variables(&mut self, alloc: Global, scope: Scope<'t>) -> Result<(), AllocError> {
        if let Some(routine) = scope.routine {
            self.offer_parameters(alloc, &routine.parameters)?;
            self.offer_groups(alloc, &routine.variables)?;
        }
        if let Some(system) = scope.system {
            self.offer_parameters(alloc, &system.parameters)?;
        }
        self.offer_groups(alloc, scope.variables())
    }

    /// Offers the names that are visible and fit. Fails only if memory runs out.
    pub fn offer_visible(
        &mut self,
        alloc: Global,
        scope: Scope<'t>,
        fit: Fit,
    ) -> Result<(), AllocError> {
        if fit.variables {
            self.offer_variables(alloc, scope)?;
        }
        self.offer_routines(alloc, fit, scope.routines())?;
        for section in &scope.tree.sections {
            self.offer_section(alloc, fit, section)?;
        }
        self.offer_standard(alloc, fit)
    }
}
