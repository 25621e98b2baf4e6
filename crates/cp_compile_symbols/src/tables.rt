//! The tables of a text: its outermost scope, the layouts of its types, and its system types.

ghost use Rattle.std.specs.Prelude.{◌≡◌, IfOk, option_map, slice_get};
ghost use Rattle.cp_model.specs.Declarations.{globals};
ghost use Rattle.cp_model.specs.Erase as erase;
ghost use Rattle.cp_model.specs.View as view;
ghost use Rattle.cp_compile_symbols.specs.Texts.{MakesSystems, TablesRepresent};

use crate::layout::Layouts;
use crate::names::Names;
use crate::outer::Outer;
use crate::systems::SystemTable;
use crate::types::Types;
use cp_base_names::Key;
use cp_model::tree::Tree;
use std::alloc::{AllocError, Global};

/// What the compiler needs to know of a text: the names and types of its outermost scope, the
/// layouts of its types, its system types by their numbers in text order, and the initial process.
/// The key is that of its names.
pub struct Tables<'t> {
    pub key: Key,
    pub names: Names<'t>,
    pub types: Types<'t>,
    pub layouts: Layouts<'t>,
    pub systems: Vec<SystemTable<'t>>,
    pub initial: SystemTable<'t>,
}

// A derived `Drop` would make proofs slower (docs/CI.md).
impl Drop for Tables<'_> {
    fn drop(self) {
        let Tables {
            key: _,
            names: _,
            types: _,
            layouts: _,
            systems: _,
            initial: _,
        } = self;
    }
}

impl<'t> Layouts<'t> {
    // Makes the tables of all system types.
    fn systems(
        &mut self,
        names: &Names<'t>,
        types: &mut Types<'t>,
    ) -> Result<Vec<SystemTable<'t>>, AllocError>
        ensures { IfOk result (λ ss. MakesSystems names.now types.old types.new self.old.rows.items
            self.new.rows.items ss.items) }
    {
        let mut tables = Vec::new(self.alloc);
        for number in 0..types.systems.len() {
            let y = types.systems[number];
            let table = self.system(names, types, &y.parameters, &y.variables, &y.routines)?;
            tables.push(table)?;
        }
        Ok(tables)
    }
}

impl<'t> Tables<'t> {
    /// The table of the system type with this number, if there is one.
    pub fn system(&self, number: usize) -> Option<&SystemTable<'t>>
        ensures { option_map (λ t. t.now) result ≡ slice_get self.now.systems.items number }
    {
        self.systems.get(number)
    }

    /// Makes the tables of any text. Fails only if there is no room for them.
    pub fn of_tree(alloc: Global, key: Key, tree: &'t Tree) -> Result<Tables<'t>, AllocError>
        ensures { IfOk result (λ tables. TablesRepresent
            (globals (erase.abstract (view.tree tree.now))) tables tree.now) }
    {
        let outer = Outer::of_tree(alloc, key, tree)?;
        let names = outer.names;
        let mut types = outer.types;
        let mut layouts = Layouts::new(alloc, key);
        let systems = layouts.systems(&names, &mut types)?;
        let initial = layouts.system(&names, &mut types, &[], &tree.variables, &tree.routines)?;
        // Types that have no layout yet get one.
        layouts.extend(&names, &types)?;
        Ok(Tables {
            key,
            names,
            types,
            layouts,
            systems,
            initial,
        })
    }
}
