//! The names of parameters and variables, with the numbers of the components among them.

ghost use Rattle.std.specs.Prelude.{◌≡◌, ◌≤◌, IfOk, List, if◌then◌else◌, map};
ghost use Rattle.cp_model.specs.Abstract.{Name, Process};
ghost use Rattle.cp_model.specs.Components.{count_before, is_component_of};
ghost use Rattle.cp_model.specs.Declarations.{Variable};
ghost use Rattle.cp_model.specs.Erase as erase;
ghost use Rattle.cp_model.specs.Types.{ResolvedType};
ghost use Rattle.cp_compile_symbols.specs.Numbering.{AreNumbered, system_of};
ghost use Rattle.cp_compile_symbols.specs.Representing.{Represents, row_at};
ghost use Rattle.cp_compile_symbols.specs.Variables.{AreDeclared, declared_entry};

use crate::names::add_first;
use crate::types::{TypeRow, Types};
use crate::variables::Declared;
use cp_base_names::NameTable;
use cp_model::tree::Sort;
use std::alloc::{AllocError, Global};

/// A named parameter or variable: the number of its type, and how many monitors and processes are
/// declared before it.
#[derive(Clone, Copy)]
pub struct Numbered {
    pub(crate) of: usize,
    pub(crate) monitors: usize,
    pub(crate) processes: usize,
}

impl<'t> Types<'t> {
    /// The number of the system type of the components of a type, or `None` if it isn't a type of
    /// components.
    pub fn system_of(&self, number: usize) -> Option<usize>
        ensures { result ≡ system_of (row_at self.now number) }
    {
        match self.row(number) {
            Some(TypeRow::Component { system, .. }) => Some(*system),
            _ => None,
        }
    }

    /// Whether the variables of a type are components of this sort.
    pub fn is_component_of(&self, sort: Sort, number: usize) -> bool
        ensures { (t : ResolvedType) → Represents self.now number t → result ≡ is_component_of
            (erase.sort_of sort) t }
    {
        match self.system_of(number) {
            None => false,
            Some(k) => match self.system(k) {
                None => false,
                Some(y) => sort.is_same(y.sort),
            },
        }
    }

    // The number of components of this sort that a variable of the type is: 1 or 0.
    fn component_count(&self, sort: Sort, number: usize) -> usize
        ensures most { result ≤ 1 }
        ensures count { (t : ResolvedType) → Represents self.now number t → result ≡
            (if is_component_of (erase.sort_of sort) t then 1 else 0) }
    {
        if self.is_component_of(sort, number) {
            1
        } else {
            0
        }
    }

    /// The number of processes before this name in a list of variables, or of all if the list lacks
    /// the name.
    pub fn processes_before(&self, list: &[Declared<'t>], name: &[u8]) -> usize
        ensures { (vs : List (Name × Variable))
            → AreDeclared self.now (map declared_entry list.now) vs
            → result ≡ count_before Process name.now vs }
    {
        let mut count = 0;
        for d in list {
            if name == d.name {
                return count;
            }
            count += self.component_count(Sort::Process, d.of);
        }
        count
    }

    /// The names of these parameters or variables, with the numbers of the components among them.
    pub fn numbered_names(
        &self,
        list: &[Declared<'t>],
    ) -> Result<NameTable<'t, Numbered>, AllocError>
        ensures { IfOk result (λ names. AreNumbered self.now (map declared_entry list.now) names) }
    {
        let mut names = NameTable::new(self.alloc, self.key);
        let mut monitors = 0;
        let mut processes = 0;
        for d in list {
            let numbered = Numbered {
                of: d.of,
                monitors,
                processes,
            };
            add_first(&mut names, d.name, numbered)?;
            monitors += self.component_count(Sort::Monitor, d.of);
            processes += self.component_count(Sort::Process, d.of);
        }
        Ok(names)
    }
}
