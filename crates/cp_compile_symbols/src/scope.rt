//! What the code of a unit is compiled with, and what names mean in it.

ghost use Rattle.std.specs.Prelude.{◌≡◌, option_map};
ghost use Rattle.cp_model.specs.Calls as calls;
ghost use Rattle.cp_model.specs.Environments.{constant_or_unknown, meaning, permanent_variables};
ghost use Rattle.cp_model.specs.Erase as erase;
ghost use Rattle.cp_model.specs.Names.{lookup};
ghost use Rattle.cp_model.specs.View as view;
ghost use Rattle.cp_model_program.specs.Scopes as code;
ghost use Rattle.cp_model_program.specs.Layout as layout;
ghost use Rattle.cp_model.specs.Abstract as a;
ghost use Rattle.cp_compile_symbols.specs.Components.{RightIs};
ghost use Rattle.cp_compile_symbols.specs.Designators.{Selects};
ghost use Rattle.cp_compile_symbols.specs.Layouts.{PartIs};
ghost use Rattle.cp_compile_symbols.specs.Locals.{LocalIs};
ghost use Rattle.cp_compile_symbols.specs.Scopes.{CalleeIs, IsScope, MeaningIs, VariableIs, locals_of, results_of};

use crate::components::Right;
use crate::designators::first_part;
use crate::layout::Part;
use crate::locals::Local;
use crate::names::Value;
use crate::numbering::Numbered;
use crate::routines::RoutineTable;
use crate::systems::{Component, IndexedRoutine, SystemTable};
use crate::tables::Tables;
use cp_base_names::NameTable;
use cp_model::tree::{Designator, Selector};

/// What the code of a unit is compiled with: the tables of its text, its system type, and its
/// routine unless the unit is a body. `firsts` has the first unit of each system type that is
/// defined before this one, by name, and `first` is the first unit of this one.
#[derive(Clone, Copy)]
pub struct Scope<'s, 't> {
    pub(crate) tables: &'s Tables<'t>,
    pub(crate) system: &'s SystemTable<'t>,
    pub(crate) routine: Option<&'s RoutineTable<'t>>,
    pub(crate) firsts: &'s NameTable<'t, u32>,
    pub(crate) first: u32,
}

/// What a designator calls: a routine, and its component if that isn't the calling component
/// itself.
#[derive(Clone, Copy)]
pub struct Callee<'s, 't, 'n> {
    pub routine: IndexedRoutine<'s, 't>,
    pub of: Option<Component<'n>>,
}

/// What a name means: the value of a constant, or the number of a variable's type.
#[derive(Clone, Copy)]
pub enum Meaning<'t> {
    Constant(Value<'t>),
    Variable(usize),
    Unknown,
}

// The number of the type of a parameter or variable, if one was found.
fn type_of(found: Option<Numbered>) -> Option<usize>
    ensures { result ≡ option_map (λ n. n.of) found }
{
    Some(found?.of)
}

impl<'s, 't> Scope<'s, 't> {
    /// Creates the scope of a routine or of the body of a system type.
    pub fn new(
        tables: &'s Tables<'t>,
        system: &'s SystemTable<'t>,
        routine: Option<&'s RoutineTable<'t>>,
        firsts: &'s NameTable<'t, u32>,
        first: u32,
    ) -> Scope<'s, 't>
        ensures { result ≡ record {
          tables = tables.entry;
          system = system.entry;
          routine = routine.entry;
          firsts = firsts.entry;
          first = first;
        } }
    {
        Scope {
            tables,
            system,
            routine,
            firsts,
            first,
        }
    }

    /// The tables of the text.
    pub fn tables(&self) -> &'s Tables<'t>
        ensures { result ≡ self.now.tables }
    {
        self.tables
    }

    /// The table of the system type.
    pub fn system(&self) -> &'s SystemTable<'t>
        ensures { result ≡ self.now.system }
    {
        self.system
    }

    /// The table of the routine, or `None` in a body.
    pub fn routine(&self) -> Option<&'s RoutineTable<'t>>
        ensures { result ≡ self.now.routine }
    {
        self.routine
    }

    /// The parameter or variable of the routine that has this name.
    pub fn local(&self, name: &[u8]) -> Option<Local>
        ensures { (s : code.Scope) → IsScope self.now s → LocalIs self.now.tables.now.types result
            (code.local_in s name.now) }
    {
        self.routine?.locals.names.find(name)
    }

    /// The own member of the component that has this name.
    pub fn member(&self, name: &[u8]) -> Option<Part>
        ensures { (s : code.Scope) → IsScope self.now s → PartIs self.now.tables.now.types result
            (layout.member s.globals s.system name.now) }
    {
        self.system.members.parts.find(name)
    }

    /// The right of the component that has this name.
    pub fn right(&self, name: &[u8]) -> Option<Right>
        ensures { (s : code.Scope) → IsScope self.now s → RightIs self.now.tables.now.types result
            (layout.right s.globals s.system name.now) }
    {
        self.system.rights.find(name)
    }

    // The type of the result variable of a function, if this is the function's name.
    fn result_type(&self, name: &[u8]) -> Option<usize>
        ensures { (s : code.Scope) → IsScope self.now s → VariableIs self.now.tables.now.types
            result (lookup name.now (results_of s.globals s.routine)) }
    {
        let routine = self.routine?;
        if name != routine.name {
            return None;
        }
        routine.result
    }

    // The type of the routine's parameter, variable or result that has this name.
    fn local_type(&self, name: &[u8]) -> Option<usize>
        ensures { (s : code.Scope) → IsScope self.now s → VariableIs self.now.tables.now.types
            result (lookup name.now (locals_of s.globals s.routine)) }
    {
        match self.local(name) {
            Some(local) => Some(local.of),
            None => self.result_type(name),
        }
    }

    // The type of the component's parameter or variable that has this name.
    fn permanent_type(&self, name: &[u8]) -> Option<usize>
        ensures { (s : code.Scope) → IsScope self.now s → VariableIs self.now.tables.now.types
            result (lookup name.now (permanent_variables s.globals s.system)) }
    {
        match type_of(self.system.parameter_names.find(name)) {
            Some(of) => Some(of),
            None => type_of(self.system.variable_names.find(name)),
        }
    }

    // What a name means in the outermost scope.
    fn outer_meaning(&self, name: &[u8]) -> Meaning<'t>
        ensures { (s : code.Scope) → IsScope self.now s → MeaningIs self.now.tables.now.types result
            (constant_or_unknown (lookup name.now s.globals.constants)) }
    {
        match self.tables.names.constants.find(name) {
            Some(value) => Meaning::Constant(value),
            None => Meaning::Unknown,
        }
    }

    /// What a name means: a variable of the routine or its result, else a variable of the
    /// component, else a constant.
    pub fn meaning(&self, name: &[u8]) -> Meaning<'t>
        ensures { (s : code.Scope) → IsScope self.now s → MeaningIs self.now.tables.now.types result
            (meaning (code.environment s) name.now) }
    {
        if let Some(of) = self.local_type(name) {
            return Meaning::Variable(of);
        }
        match self.permanent_type(name) {
            Some(of) => Meaning::Variable(of),
            None => self.outer_meaning(name),
        }
    }

    // The routine of this system type that a bare name calls.
    fn own_callee<'n>(&self, name: &[u8]) -> Option<Callee<'s, 't, 'n>>
        ensures { (s : code.Scope) → IsScope self.now s → CalleeIs self.now s result
            (calls.callee (code.environment s) (a.Plain name.now)) }
    {
        if self.local(name).is_some() {
            return None;
        }
        match self.system.routine(name) {
            None => None,
            Some(routine) => Some(Callee { routine, of: None }),
        }
    }

    // The routine that `component.name` calls.
    fn component_callee<'n>(&self, component: &'n [u8], name: &[u8]) -> Option<Callee<'s, 't, 'n>>
        ensures { (s : code.Scope) → IsScope self.now s → CalleeIs self.now s result
            (calls.callee (code.environment s) (a.Part (a.Plain component.now) name.now)) }
    {
        match self.system.component(&self.tables.types, component) {
            None => None,
            Some(of) => match self.tables.system(of.system) {
                None => None,
                Some(system) => match system.routine(name) {
                    None => None,
                    Some(routine) => Some(Callee {
                        routine,
                        of: Some(of),
                    }),
                },
            },
        }
    }

    // The routine that a name with one selector calls.
    fn selected_callee<'n>(&self, name: &'n [u8], selector: &Selector) -> Option<Callee<'s, 't, 'n>>
        ensures { (s : code.Scope) → IsScope self.now s → Selects (view.selector selector.now)
            → CalleeIs self.now s result (calls.callee (code.environment s)
            (erase.select (a.Plain name.now) (view.selector selector.now))) }
    {
        match selector {
            Selector::Field { name: routine, .. } => {
                self.component_callee(name, routine.name.as_bytes())
            }
            Selector::Indexed(_) => None,
        }
    }

    /// The routine that a designator calls, or `None` if it calls none.
    pub fn callee<'n>(&self, designator: &'n Designator) -> Option<Callee<'s, 't, 'n>>
        ensures { (s : code.Scope) → IsScope self.now s → CalleeIs self.now s result
            (calls.callee (code.environment s) (erase.designator (view.designator designator.now))) }
    {
        let name = designator.root.name.as_bytes();
        match first_part(&designator.selectors) {
            None => self.own_callee(name),
            Some((first, rest)) => match first_part(rest) {
                None => self.selected_callee(name, first),
                Some(_) => None,
            },
        }
    }
}
