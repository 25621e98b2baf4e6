//! Blueprints: which components each system type and the initial process declare, and what their
//! bodies hand over.

use crate::handing::Handing;
use cp_base_names::{Key, NameTable};
use cp_model::tree::{
    Defined, Fields, Identifier, Parameters, Section, Sort, Statement, Tree, TypeDefinition,
    TypeExpression,
};
use std::alloc::{AllocError, Global};

/// A component that a type declares.
#[derive(Clone, Copy)]
pub(crate) struct Part<'t> {
    pub(crate) name: &'t Identifier,
    pub(crate) of: &'t Identifier,
    pub(crate) sort: Sort,
    /// The number of its type's blueprint.
    pub(crate) blueprint: usize,
}

/// Where the component comes from that an `init` hands over: it is a part of the same type, or came
/// by a parameter. Parts and parameters are counted from 0.
#[derive(Clone, Copy)]
pub(crate) enum Origin {
    Part(usize),
    Parameter(usize),
}

/// What an `init` hands to the part `to`, for its parameter with this number.
#[derive(Clone, Copy)]
pub(crate) struct Right {
    pub(crate) to: usize,
    pub(crate) parameter: usize,
    pub(crate) from: Origin,
}

/// What a system type or the initial process declares, and what its body hands over, in order of
/// the parts that are given it.
#[derive(Drop)]
pub(crate) struct Blueprint<'t> {
    pub(crate) parts: Vec<Part<'t>>,
    pub(crate) rights: Vec<Right>,
}

// A system type: its sort, and the number of its blueprint.
#[derive(Clone, Copy)]
struct Kind {
    sort: Sort,
    blueprint: usize,
}

// The names of one type's components while its blueprint is made.
#[derive(Drop)]
struct Draft<'t> {
    names: NameTable<'t, Origin>,
    parts: Vec<Part<'t>>,
    parameters: usize,
}

impl<'t> Draft<'t> {
    fn name(&mut self, identifier: &'t Identifier, origin: Origin) -> Result<(), AllocError> {
        let name = identifier.name.as_bytes();
        match self.names.find(name) {
            Some(_) => Ok(()),
            None => self.names.add(name, origin),
        }
    }

    fn add_parameters(
        &mut self,
        names: &'t [Identifier],
        is_right: bool,
    ) -> Result<(), AllocError> {
        for x in names {
            if is_right {
                self.name(x, Origin::Parameter(self.parameters))?;
            }
            self.parameters = self.parameters.saturating_add(1);
        }
        Ok(())
    }

    fn add_parts(
        &mut self,
        names: &'t [Identifier],
        of: &'t Identifier,
        kind: Kind,
    ) -> Result<(), AllocError> {
        for name in names {
            let number = self.parts.len();
            self.name(name, Origin::Part(number))?;
            self.parts.push(Part {
                name,
                of,
                sort: kind.sort,
                blueprint: kind.blueprint,
            })?;
        }
        Ok(())
    }
}

/// The blueprints of a text. The last one is that of the initial process.
#[derive(Drop)]
pub(crate) struct Blueprints<'t> {
    kinds: NameTable<'t, Kind>,
    key: Key,
    all: Vec<Blueprint<'t>>,
}

impl<'t> Blueprints<'t> {
    /// Makes the blueprints of a tree, whose names have this key. Fails only if memory runs out.
    pub fn of(alloc: Global, key: Key, tree: &'t Tree) -> Result<Blueprints<'t>, AllocError> {
        let mut blueprints = Blueprints {
            kinds: NameTable::new(alloc, key),
            key,
            all: Vec::new(alloc),
        };
        for section in &tree.sections {
            if let Section::Types(definitions) = section {
                blueprints.add_types(alloc, definitions)?;
            }
        }
        blueprints.add(alloc, &[], &tree.variables, &tree.body.statements)?;
        Ok(blueprints)
    }

    /// The blueprint with this number.
    pub fn get(&self, number: usize) -> Option<&Blueprint<'t>> {
        self.all.get(number)
    }

    /// The number of the initial process's blueprint.
    pub fn initial(&self) -> usize {
        self.all.len().saturating_sub(1)
    }

    fn add_types(
        &mut self,
        alloc: Global,
        definitions: &'t [TypeDefinition],
    ) -> Result<(), AllocError> {
        for definition in definitions {
            if let Defined::System(system) = &definition.defined {
                let body = &system.body.statements;
                self.add(alloc, &system.parameters, &system.variables, body)?;
                self.add_kind(&definition.name, system.sort)?;
            }
        }
        Ok(())
    }

    // Names the blueprint that was added last.
    fn add_kind(&mut self, identifier: &'t Identifier, sort: Sort) -> Result<(), AllocError> {
        let name = identifier.name.as_bytes();
        let blueprint = self.initial();
        match self.kinds.find(name) {
            Some(_) => Ok(()),
            None => self.kinds.add(name, Kind { sort, blueprint }),
        }
    }

    fn add(
        &mut self,
        alloc: Global,
        parameters: &'t [Parameters],
        variables: &'t [Fields],
        body: &'t [Statement],
    ) -> Result<(), AllocError> {
        let draft = self.draft(alloc, parameters, variables)?;
        let rights = Handing::rights(alloc, &draft.names, body)?;
        self.all.push(Blueprint {
            parts: draft.parts,
            rights,
        })?;
        Ok(())
    }

    fn draft(
        &self,
        alloc: Global,
        parameters: &'t [Parameters],
        variables: &'t [Fields],
    ) -> Result<Draft<'t>, AllocError> {
        let mut draft = Draft {
            names: NameTable::new(alloc, self.key),
            parts: Vec::new(alloc),
            parameters: 0,
        };
        for group in parameters {
            let is_right = self.kinds.find(group.of.name.as_bytes()).is_some();
            draft.add_parameters(&group.names, is_right)?;
        }
        self.add_variables(&mut draft, variables)?;
        Ok(draft)
    }

    fn add_variables(
        &self,
        draft: &mut Draft<'t>,
        variables: &'t [Fields],
    ) -> Result<(), AllocError> {
        for group in variables {
            if let TypeExpression::Named(of) = &group.of {
                if let Some(kind) = self.kinds.find(of.name.as_bytes()) {
                    draft.add_parts(&group.names, of, kind)?;
                }
            }
        }
        Ok(())
    }
}
