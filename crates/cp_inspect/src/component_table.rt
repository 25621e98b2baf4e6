//! The processes and the monitors of a text by number, and their names.

ghost use Rattle.std.specs.Prelude.{◌≡◌, ◌-◌, IfOk, map, option_map, slice_get};
ghost use Rattle.cp_model.specs.Abstract.{Monitor, Process};
ghost use Rattle.cp_compile_symbols.specs.Representing.{entry};
ghost use Rattle.cp_compile_symbols.specs.Variables.{declared_entry};
ghost use Rattle.cp_inspect.specs.Lists.{Lists};
ghost use Rattle.cp_inspect.specs.Names.{names_of, number_from, owner_named, process_named};

use crate::listing::components;
pub use crate::place::Owner;
use cp_compile_symbols::{Field, Tables, small_number};
use cp_model::tree::Sort;
use std::alloc::{AllocError, Global};

/// The name of process 1, unless another process or a monitor has it.
pub const INITIAL: &[u8] = b"initial";

/// The processes and the monitors of a text.
#[derive(Drop)]
pub struct ComponentTable<'t> {
    /// The processes by number, without the initial one.
    pub processes: Vec<Field<'t>>,
    /// The monitors by number.
    pub monitors: Vec<Field<'t>>,
}

// The number of the component with this name, in any letter case. The first one has the number
// `first`.
fn number_of(list: &[Field<'_>], name: &[u8], first: usize) -> Result<Option<u32>, AllocError>
    ensures { IfOk result
        (λ number. number ≡ number_from first name.now (names_of list.now)) }
{
    for (at, field) in list.iter().enumerate() {
        if field.name.eq_ignore_ascii_case(name) {
            return Ok(Some(small_number(at.saturating_add(first))?));
        }
    }
    Ok(None)
}

impl<'t> ComponentTable<'t> {
    /// The processes and the monitors of a text with these tables.
    ///
    /// # Errors
    ///
    /// `AllocError` if memory runs out.
    pub fn of(alloc: Global, tables: &Tables<'t>) -> Result<ComponentTable<'t>, AllocError>
        ensures processes { IfOk result (λ component_table. Lists tables.now.types Process
            (map declared_entry tables.now.initial.variables.items)
            (map entry component_table.processes.items)) }
        ensures monitors { IfOk result (λ component_table. Lists tables.now.types Monitor
            (map declared_entry tables.now.initial.variables.items)
            (map entry component_table.monitors.items)) }
    {
        let monitors = components(alloc, tables, Sort::Monitor)?;
        let processes = components(alloc, tables, Sort::Process)?;
        Ok(ComponentTable {
            processes,
            monitors,
        })
    }

    /// The monitor with this number. The number 0 is read as 1.
    pub fn monitor(&self, number: u32) -> Option<&Field<'t>>
        ensures { option_map (λ f. f.now) result
            ≡ slice_get self.now.monitors.items (number - 1) }
    {
        self.monitors.get((number as usize).saturating_sub(1))
    }

    /// The name of the process with this number, or no bytes if there is none.
    pub fn process_name(&self, number: u32) -> &'t [u8] {
        if number == 1 {
            return INITIAL;
        }
        let Some(index) = (number as usize).checked_sub(2) else {
            return &[];
        };
        match self.processes.get(index) {
            Some(process) => process.name,
            None => &[],
        }
    }

    /// The name of the monitor with this number, or no bytes if there is none.
    pub fn monitor_name(&self, number: u32) -> &'t [u8] {
        match self.monitor(number) {
            Some(monitor) => monitor.name,
            None => &[],
        }
    }

    /// The number of the process with this name, in any letter case, if there is one.
    /// Process 1 is named `initial`, unless another process has that name.
    ///
    /// # Errors
    ///
    /// `AllocError` if its number has more than 32 bits, as none has that fits in memory.
    pub fn process(&self, name: &[u8]) -> Result<Option<u32>, AllocError>
        ensures { IfOk result
            (λ number. number ≡ process_named name.now (names_of self.now.processes.items)) }
    {
        Ok(match number_of(&self.processes, name, 2)? {
            Some(number) => Some(number),
            None if name.eq_ignore_ascii_case(INITIAL) => Some(1),
            None => None,
        })
    }

    /// The monitor with this name, in any letter case, or else the process, if there is one.
    ///
    /// # Errors
    ///
    /// As for `process`.
    pub fn owner(&self, name: &[u8]) -> Result<Option<Owner>, AllocError>
        ensures { IfOk result (λ owner. owner ≡ owner_named name.now
            (names_of self.now.monitors.items) (names_of self.now.processes.items)) }
    {
        if let Some(number) = number_of(&self.monitors, name, 1)? {
            return Ok(Some(Owner::Monitor(number)));
        }
        Ok(match self.process(name)? {
            Some(number) => Some(Owner::Process(number)),
            None => None,
        })
    }
}
