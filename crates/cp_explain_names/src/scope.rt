//! What a name represents at a place of a text, according to its declarations.
//!
//! In an accepted text no name hides another. In a text that breaks a rule, the innermost
//! declaration counts.

use cp_model::tree::{
    Constant, ConstantDefinition, Defined, Fields, Identifier, Parameters, Routine, Section, Sort,
    System, Tree, TypeDefinition, TypeExpression,
};

/// What a name is declared as.
#[derive(Clone, Copy, PartialEq, Eq)]
pub enum Kind {
    Constant,
    EnumerationValue,
    Type,
    SystemType(Sort),
    Variable,
    ValueParameter,
    VarParameter,
    Procedure,
    Function,
}

/// A declaration in a text: the name, and what it is declared as.
#[derive(Clone, Copy)]
pub struct Declaration<'t> {
    pub name: &'t Identifier,
    pub kind: Kind,
    /// The name of the type, if this is a variable or a parameter whose type has a name.
    pub of: Option<&'t Identifier>,
    /// The type as it is written, if this is a variable.
    pub written: Option<&'t TypeExpression>,
    /// The value, if this is a constant.
    pub value: Option<&'t Constant>,
    /// The definition of the type that this is, or to which it belongs as a value.
    pub definition: Option<&'t TypeDefinition>,
    /// The routine that is declared, if this is one.
    pub routine: Option<&'t Routine>,
    /// The system type that is defined, if this is one.
    pub system: Option<&'t System>,
}

/// A name to look up, ignoring its declaration at one place.
#[derive(Clone, Copy)]
pub struct Wanted<'a> {
    name: &'a [u8],
    but: usize,
}

impl<'a> Wanted<'a> {
    /// Looks for a declaration of the name `x` other than `x` itself.
    pub fn other_than(identifier: &'a Identifier) -> Wanted<'a> {
        Wanted {
            name: identifier.name.as_bytes(),
            but: identifier.at,
        }
    }

    fn is(&self, name: &Identifier) -> bool {
        name.at != self.but && name.name.as_bytes() == self.name
    }

    fn among<'t>(&self, names: &'t [Identifier]) -> Option<&'t Identifier> {
        for x in names {
            if self.is(x) {
                return Some(x);
            }
        }
        None
    }

    /// Finds the variable or field with this name.
    pub fn in_groups<'t>(&self, groups: &'t [Fields]) -> Option<Declaration<'t>> {
        for group in groups {
            if let Some(name) = self.among(&group.names) {
                return Some(Declaration {
                    of: type_name(&group.of),
                    written: Some(&group.of),
                    ..plain(name, Kind::Variable)
                });
            }
        }
        None
    }

    /// Finds the parameter with this name.
    pub fn in_parameters<'t>(&self, groups: &'t [Parameters]) -> Option<Declaration<'t>> {
        for group in groups {
            if let Some(name) = self.among(&group.names) {
                let kind = match group.by_reference {
                    Some(_) => Kind::VarParameter,
                    None => Kind::ValueParameter,
                };
                return Some(Declaration {
                    of: Some(&group.of),
                    ..plain(name, kind)
                });
            }
        }
        None
    }

    /// Finds the routine with this name.
    pub fn in_routines<'t>(&self, routines: &'t [Routine]) -> Option<Declaration<'t>> {
        for routine in routines {
            if self.is(&routine.name) {
                let kind = match routine.result_type {
                    Some(_) => Kind::Function,
                    None => Kind::Procedure,
                };
                return Some(Declaration {
                    routine: Some(routine),
                    ..plain(&routine.name, kind)
                });
            }
        }
        None
    }

    fn in_constants<'t>(&self, definitions: &'t [ConstantDefinition]) -> Option<Declaration<'t>> {
        for definition in definitions {
            if self.is(&definition.name) {
                return Some(Declaration {
                    value: Some(&definition.value),
                    ..plain(&definition.name, Kind::Constant)
                });
            }
        }
        None
    }

    fn in_type<'t>(&self, definition: &'t TypeDefinition) -> Option<Declaration<'t>> {
        if let Defined::Enumeration(values) = &definition.defined {
            if let Some(value) = self.among(values) {
                return Some(Declaration {
                    definition: Some(definition),
                    ..plain(value, Kind::EnumerationValue)
                });
            }
        }
        if !self.is(&definition.name) {
            return None;
        }
        Some(match &definition.defined {
            Defined::System(system) => Declaration {
                system: Some(system),
                definition: Some(definition),
                ..plain(&definition.name, Kind::SystemType(system.sort))
            },
            _ => Declaration {
                definition: Some(definition),
                ..plain(&definition.name, Kind::Type)
            },
        })
    }

    fn in_types<'t>(&self, definitions: &'t [TypeDefinition]) -> Option<Declaration<'t>> {
        for definition in definitions {
            let found = self.in_type(definition);
            if found.is_some() {
                return found;
            }
        }
        None
    }

    fn in_sections<'t>(&self, sections: &'t [Section]) -> Option<Declaration<'t>> {
        for section in sections {
            let found = match section {
                Section::Constants(definitions) => self.in_constants(definitions),
                Section::Types(definitions) => self.in_types(definitions),
            };
            if found.is_some() {
                return found;
            }
        }
        None
    }
}

fn plain<'t>(name: &'t Identifier, kind: Kind) -> Declaration<'t> {
    Declaration {
        name,
        kind,
        of: None,
        written: None,
        value: None,
        definition: None,
        routine: None,
        system: None,
    }
}

fn type_name(of: &TypeExpression) -> Option<&Identifier> {
    match of {
        TypeExpression::Named(x) => Some(x),
        _ => None,
    }
}

/// Where names are looked up: in the routine and in the system type that the place is in, if any,
/// and in the text.
#[derive(Clone, Copy)]
pub struct Scope<'t> {
    pub tree: &'t Tree,
    pub system: Option<&'t System>,
    pub routine: Option<&'t Routine>,
}

impl<'t> Scope<'t> {
    /// The variables of the system type, or else of the initial process.
    pub fn variables(&self) -> &'t [Fields] {
        match self.system {
            Some(system) => &system.variables,
            None => &self.tree.variables,
        }
    }

    /// The routines of the system type, or else of the initial process.
    pub fn routines(&self) -> &'t [Routine] {
        match self.system {
            Some(system) => &system.routines,
            None => &self.tree.routines,
        }
    }

    fn in_routine(&self, wanted: Wanted<'_>) -> Option<Declaration<'t>> {
        let routine = self.routine?;
        match wanted.in_parameters(&routine.parameters) {
            Some(found) => Some(found),
            None => wanted.in_groups(&routine.variables),
        }
    }

    fn in_parameters(&self, wanted: Wanted<'_>) -> Option<Declaration<'t>> {
        wanted.in_parameters(&self.system?.parameters)
    }

    /// Finds the component's own variable with this name.
    pub fn own_variable(&self, wanted: Wanted<'_>) -> Option<Declaration<'t>> {
        wanted.in_groups(self.variables())
    }

    /// Finds the innermost declaration of a name.
    pub fn find(&self, wanted: Wanted<'_>) -> Option<Declaration<'t>> {
        if let Some(found) = self.in_routine(wanted) {
            return Some(found);
        }
        if let Some(found) = self.in_parameters(wanted) {
            return Some(found);
        }
        if let Some(found) = self.own_variable(wanted) {
            return Some(found);
        }
        match wanted.in_routines(self.routines()) {
            Some(found) => Some(found),
            None => wanted.in_sections(&self.tree.sections),
        }
    }

    /// Finds the declaration of a name by the initial process that isn't visible in a system type.
    pub fn find_hidden(&self, wanted: Wanted<'_>) -> Option<Declaration<'t>> {
        let _system = self.system?;
        match wanted.in_groups(&self.tree.variables) {
            Some(found) => Some(found),
            None => wanted.in_routines(&self.tree.routines),
        }
    }

    /// The system type of the component with this name.
    pub fn system_of(&self, name: &Identifier) -> Option<&'t System> {
        let of = self.find(Wanted::other_than(name))?.of?;
        self.find(Wanted::other_than(of))?.system
    }
}
