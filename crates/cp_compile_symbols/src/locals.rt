//! Where the parameters and variables of a routine are in its activation.

ghost use Rattle.std.specs.Prelude.{◌≡◌, ◌+◌, [], ℕ, IfOk, map};
ghost use Rattle.cp_model.specs.Declarations.{Variable};
ghost use Rattle.cp_model.specs.Types.{GlobalScope};
ghost use Rattle.cp_model_program.specs.Layout as code;
ghost use Rattle.cp_compile_symbols.specs.Layouts.{AreLaid, Counts};
ghost use Rattle.cp_compile_symbols.specs.Locals.{LaysLocals};
ghost use Rattle.cp_compile_symbols.specs.Representing.{Represents};
ghost use Rattle.cp_compile_symbols.specs.declared.types.Types.{Types};
ghost use Rattle.cp_compile_symbols.specs.Variables.{declared_entry};

use crate::layout::{Layouts, sum};
use crate::names::add_first;
use crate::variables::Declared;
use cp_base_names::NameTable;
use std::alloc::{AllocError, Global};

/// A parameter or variable of a routine: its offset in words from the first word of the activation,
/// whether it is a `var` parameter, and the number of its type. The offset is `None` if it is too
/// large.
#[derive(Clone, Copy)]
pub struct Local {
    pub at: Option<u32>,
    pub by_reference: bool,
    pub of: usize,
}

/// The parameters and variables of a routine, and the size of an activation in words, or `None` if
/// it is too large.
#[derive(Drop)]
pub struct Locals<'t> {
    pub words: Option<u32>,
    pub names: NameTable<'t, Local>,
}

impl<'t> Layouts<'t> {
    /// The size in words of a parameter or variable in its activation.
    pub fn local_words(&self, by_reference: bool, of: usize) -> Result<Option<u32>, AllocError>
        ensures { IfOk result (λ size. (g : GlobalScope) (types : Types) (v : Variable)
            → AreLaid g types self.now.rows.items → by_reference ≡ v.by_reference
            → Represents types of v.type → Counts size (code.local_words g v)) }
    {
        if by_reference {
            Ok(Some(1))
        } else {
            self.words(of)
        }
    }

    /// Lays out these parameters and variables one after another. The first one is `head` words
    /// from the first word of the activation.
    pub fn locals(&self, list: &[Declared<'t>], head: Option<u32>) -> Result<Locals<'t>, AllocError>
        ensures { IfOk result (λ l. LaysLocals self.now.rows.items
            (map declared_entry list.now) head l) }
    {
        let mut locals = Locals {
            words: head,
            names: NameTable::new(self.alloc, self.key),
        };
        for d in list {
            let local = Local {
                at: locals.words,
                by_reference: d.by_reference,
                of: d.of,
            };
            add_first(&mut locals.names, d.name, local)?;
            let size = self.local_words(d.by_reference, d.of)?;
            locals.words = sum(locals.words, size);
        }
        Ok(locals)
    }
}
