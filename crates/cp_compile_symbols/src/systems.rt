//! What is known of a system type: its parameters, variables and routines, and where the members
//! and rights of its components are.

ghost use Rattle.std.specs.Prelude.{◌≡◌, [], IfOk, option_map, slice_get};
ghost use Rattle.cp_model.specs.Abstract.{Name};
ghost use Rattle.cp_model.specs.Names.{lookup};
ghost use Rattle.cp_compile_symbols.specs.TypeNames.{name_or};
ghost use Rattle.cp_compile_symbols.specs.Systems.{ComponentFound, MakesRoutines, MakesSystem, RoutineFound, component_of_name, routine_number, routines_of};

use crate::components::Right;
use crate::layout::{Layout, Layouts};
use crate::names::{Names, add_first};
use crate::numbering::Numbered;
use crate::routines::RoutineTable;
use crate::type_names::{parameter_types, variable_types};
use crate::types::Types;
use crate::variables::Declared;
use cp_base_names::NameTable;
use cp_model::tree::{Fields, Parameters, Routine};
use std::alloc::{AllocError, Global};

/// A system type: its parameters, variables and routines in text order, and where the members and
/// rights of its components are. `members` also has the size of a component. Parameters, variables,
/// routines and the names of the types of parameters and variables can also be found by name.
#[derive(Drop)]
pub struct SystemTable<'t> {
    pub parameters: Vec<Declared<'t>>,
    pub variables: Vec<Declared<'t>>,
    pub members: Layout<'t>,
    pub rights: NameTable<'t, Right>,
    pub(crate) parameter_names: NameTable<'t, Numbered>,
    pub(crate) variable_names: NameTable<'t, Numbered>,
    pub(crate) parameter_types: NameTable<'t, &'t [u8]>,
    pub(crate) variable_types: NameTable<'t, &'t [u8]>,
    pub(crate) routines: Vec<RoutineTable<'t>>,
    pub(crate) routine_names: NameTable<'t, usize>,
}

impl<'t> Layouts<'t> {
    // Makes the tables of these routines.
    fn routines(
        &mut self,
        names: &Names<'t>,
        types: &mut Types<'t>,
        texts: &'t [Routine],
    ) -> Result<Vec<RoutineTable<'t>>, AllocError>
        ensures { IfOk result (λ rs. MakesRoutines names.now types.old types.new self.old.rows.items
            self.new.rows.items texts.now rs.items) }
    {
        let mut tables = Vec::new(self.alloc);
        for text in texts {
            let table = self.routine(names, types, text)?;
            tables.push(table)?;
        }
        Ok(tables)
    }

    // The numbers of routines by their names.
    fn routine_names(&self, texts: &'t [Routine]) -> Result<NameTable<'t, usize>, AllocError>
        ensures { IfOk result (λ names. (x : Name) → lookup x names ≡ routine_number x 0
            (routines_of texts.now)) }
    {
        let mut names = NameTable::new(self.alloc, self.key);
        for i in 0..texts.len() {
            add_first(&mut names, texts[i].name.name.as_bytes(), i)?;
        }
        Ok(names)
    }

    /// Makes the table of a system type with these parameters, variables and routines.
    pub fn system(
        &mut self,
        names: &Names<'t>,
        types: &mut Types<'t>,
        parameters: &'t [Parameters],
        variables: &'t [Fields],
        routines: &'t [Routine],
    ) -> Result<SystemTable<'t>, AllocError>
        ensures { IfOk result (λ s. MakesSystem names.now types.old types.new self.old.rows.items
            self.new.rows.items parameters.now variables.now routines.now s) }
    {
        let mut own_parameters = Vec::new(self.alloc);
        types.declare_parameters(names, parameters, &mut own_parameters)?;
        let mut own_variables = Vec::new(self.alloc);
        types.declare_variables(names, variables, &mut own_variables)?;
        let members = self.own_members(names, types, parameters, variables)?;
        let components = types.components(&own_parameters)?;
        let rights = types.rights_to(&components)?;
        let parameter_names = types.numbered_names(&own_parameters)?;
        let variable_names = types.numbered_names(&own_variables)?;
        let parameter_types = parameter_types(self.alloc, self.key, parameters)?;
        let variable_types = variable_types(self.alloc, self.key, variables)?;
        let routine_names = self.routine_names(routines)?;
        let routines = self.routines(names, types, routines)?;
        Ok(SystemTable {
            parameters: own_parameters,
            variables: own_variables,
            members,
            rights,
            parameter_names,
            variable_names,
            parameter_types,
            variable_types,
            routines,
            routine_names,
        })
    }
}

/// A routine of a system type: its number in text order, and its table.
#[derive(Clone, Copy)]
pub struct IndexedRoutine<'s, 't> {
    pub index: usize,
    pub table: &'s RoutineTable<'t>,
}

/// A component that a parameter or variable names: its name, the number of its system type, whether
/// it is a parameter, and how many monitors and processes are declared before it.
#[derive(Clone, Copy)]
pub struct Component<'n> {
    pub name: &'n [u8],
    pub system: usize,
    pub is_parameter: bool,
    pub monitors: usize,
    pub processes: usize,
}

// The component that a parameter or variable names, or `None` if it isn't a component.
fn as_component<'n>(
    types: &Types,
    name: &'n [u8],
    is_parameter: bool,
    named: Option<Numbered>,
) -> Option<Component<'n>>
    ensures { result ≡ component_of_name types.now name.entry is_parameter named }
{
    let named = named?;
    let system = types.system_of(named.of)?;
    Some(Component {
        name,
        system,
        is_parameter,
        monitors: named.monitors,
        processes: named.processes,
    })
}

impl<'t> SystemTable<'t> {
    /// The routine with this number, if there is one.
    pub fn routine_at(&self, index: usize) -> Option<&RoutineTable<'t>>
        ensures { option_map (λ t. t.now) result ≡ slice_get self.now.routines.items index }
    {
        self.routines.get(index)
    }

    /// The first routine with this name.
    pub fn routine(&self, name: &[u8]) -> Option<IndexedRoutine<'_, 't>>
        ensures { RoutineFound self.now name.now result }
    {
        match self.routine_names.find(name) {
            None => None,
            Some(index) => match self.routine_at(index) {
                None => None,
                Some(table) => Some(IndexedRoutine { index, table }),
            },
        }
    }

    /// The name of the type with which a variable is declared, empty if the type isn't a bare name.
    pub fn variable_type(&self, name: &[u8]) -> &'t [u8]
        ensures { result.now ≡ name_or (lookup name.now self.now.variable_types) [] }
    {
        self.variable_types.find(name).unwrap_or(&[])
    }

    /// The component that a name means inside a component of this system type.
    pub fn component<'n>(&self, types: &Types<'t>, name: &'n [u8]) -> Option<Component<'n>>
        ensures { ComponentFound types.now self.now name.now result }
    {
        match as_component(types, name, true, self.parameter_names.find(name)) {
            Some(c) => Some(c),
            None => as_component(types, name, false, self.variable_names.find(name)),
        }
    }
}
