//! The walk over declarations and whole texts.

use crate::finder::Finder;
use crate::site::{Declaring, Mark, NameRole, Pair, Site, TypePlace};
use cp_model::tree::{
    Constant, ConstantDefinition, Defined, Fields, Identifier, Parameters, Routine, Section,
    System, Tree, TypeDefinition, TypeExpression,
};

/// The place of a constant.
pub(crate) fn constant_place(constant: &Constant) -> usize {
    match constant {
        Constant::Number { at, .. }
        | Constant::Negative { at, .. }
        | Constant::Character { at, .. } => *at,
        Constant::Named(x) => x.at,
    }
}

impl<'t> Finder<'t> {
    /// Finds what is at a place of a whole text.
    pub fn find(tree: &'t Tree, at: usize) -> Site<'t> {
        let mut finder = Finder::new(tree, at);
        finder.sections(&tree.sections);
        finder.variables(&tree.variables);
        finder.routines(&tree.routines);
        finder.mark(tree.body.at, Mark::InitialBegin);
        finder.statements(&tree.body.statements);
        finder.site
    }

    pub(crate) fn constant(&mut self, constant: &'t Constant, mark: Mark) {
        self.mark(constant_place(constant), mark);
        if let Constant::Named(x) = constant {
            self.name(x, NameRole::Constant);
        }
    }

    fn declaring_names(&mut self, names: &'t [Identifier], what: Declaring) {
        for x in names {
            self.name(x, NameRole::Declared(what));
        }
    }

    #[cycle(types)]
    fn written_type(&mut self, of: &'t TypeExpression, place: TypePlace) {
        match of {
            TypeExpression::Named(x) => self.name(x, NameRole::Type(place)),
            TypeExpression::Subrange(bounds) => {
                let (low, high) = &**bounds;
                self.pair(constant_place(high), Pair::Bounds(low, high));
                self.constant(low, Mark::FirstBound);
                self.constant(high, Mark::LastBound);
            }
            TypeExpression::Array {
                at,
                indices,
                element,
            } => {
                self.mark(*at, Mark::Type(place));
                self.index_types(indices);
                self.written_type(element, TypePlace::Element);
            }
            TypeExpression::Record { at, groups } => {
                self.mark(*at, Mark::Type(place));
                self.record(groups);
            }
        }
    }

    #[cycle(types)]
    fn index_types(&mut self, indices: &'t [TypeExpression]) {
        for index in indices {
            self.written_type(index, TypePlace::Index);
        }
    }

    #[cycle(types)]
    fn record(&mut self, groups: &'t [Fields]) {
        for group in groups {
            self.declaring_names(&group.names, Declaring::Field);
            self.written_type(&group.of, TypePlace::Field);
        }
    }

    fn group(&mut self, group: &'t Fields, what: Declaring, place: TypePlace) {
        self.declaring_names(&group.names, what);
        self.written_type(&group.of, place);
    }

    fn variables(&mut self, groups: &'t [Fields]) {
        for group in groups {
            self.group(group, Declaring::Variable, TypePlace::Variable);
        }
    }

    fn routine_variables(&mut self, groups: &'t [Fields]) {
        for group in groups {
            self.group(
                group,
                Declaring::RoutineVariable,
                TypePlace::RoutineVariable,
            );
        }
    }

    fn parameters(&mut self, groups: &'t [Parameters], place: TypePlace) {
        for group in groups {
            if let Some(at) = group.by_reference {
                self.mark(at, Mark::Var);
            }
            self.declaring_names(&group.names, Declaring::Parameter);
            self.name(&group.of, NameRole::Type(place));
        }
    }

    fn routine(&mut self, routine: &'t Routine) {
        if let Some(at) = routine.entry {
            self.mark(at, Mark::Entry);
        }
        self.name(&routine.name, NameRole::Declared(Declaring::Routine));
        self.scope.routine = Some(routine);
        self.parameters(&routine.parameters, TypePlace::RoutineParameter);
        if let Some(x) = &routine.result_type {
            self.name(x, NameRole::Type(TypePlace::Result));
        }
        self.routine_variables(&routine.variables);
        self.statements(&routine.body.statements);
        self.scope.routine = None;
    }

    fn routines(&mut self, routines: &'t [Routine]) {
        for routine in routines {
            self.routine(routine);
        }
    }

    fn system(&mut self, system: &'t System) {
        self.scope.system = Some(system);
        self.parameters(&system.parameters, TypePlace::SystemParameter);
        self.variables(&system.variables);
        self.routines(&system.routines);
        self.statements(&system.body.statements);
        self.scope.system = None;
    }

    fn constants(&mut self, definitions: &'t [ConstantDefinition]) {
        for definition in definitions {
            self.name(&definition.name, NameRole::Declared(Declaring::Constant));
            self.constant(&definition.value, Mark::DefinitionValue);
        }
    }

    fn type_definition(&mut self, definition: &'t TypeDefinition) {
        self.name(&definition.name, NameRole::Declared(Declaring::Type));
        match &definition.defined {
            Defined::Written(of) => self.written_type(of, TypePlace::Definition),
            Defined::Enumeration(values) => self.declaring_names(
                values,
                Declaring::EnumerationValue,
            ),
            Defined::System(system) => self.system(system),
        }
    }

    fn types(&mut self, definitions: &'t [TypeDefinition]) {
        for definition in definitions {
            self.type_definition(definition);
        }
    }

    fn sections(&mut self, sections: &'t [Section]) {
        for section in sections {
            match section {
                Section::Constants(definitions) => self.constants(definitions),
                Section::Types(definitions) => self.types(definitions),
            }
        }
    }
}
