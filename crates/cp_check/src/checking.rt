//! The check of a text: its program and its tables, or the rule that it breaks.

ghost use Rattle.std.specs.Prelude.{IfOk};
ghost use Rattle.cp_model.specs.Declarations.{globals};
ghost use Rattle.cp_model.specs.Erase as erase;
ghost use Rattle.cp_model.specs.Rules.{Accepted};
ghost use Rattle.cp_model.specs.View as view;
ghost use Rattle.cp_compile_symbols.specs.Texts.{TablesRepresent};
ghost use Rattle.cp_check.specs.Checked.{Checks, IsCompiled};

use cp_base_names::Key;
use cp_compile::compile;
use cp_compile_symbols::Tables;
use cp_model::tree::Tree;
use cp_model_program::counts::has_short_parameters;
use cp_model_program::law::accepted_tree_has_program;
use cp_program::program::Program;
use cp_rules::text::{RuleError, judge};
use std::alloc::{AllocError, Global};

/// An accepted text that was compiled: its program, and the tables of what its names represent,
/// which borrow the names from its tree. The tables are made only once, for all later uses. They
/// are in a box, since a proof follows each part of what a function owns.
#[derive(Drop)]
pub struct CompiledText<'t> {
    pub program: Program,
    pub tables: Box<Tables<'t>>,
}

/// Makes the tables of a text that was accepted. The key is that of its names.
///
/// # Errors
///
/// `AllocError` if there is no room for them.
pub fn tables_of<'t>(alloc: Global, key: Key, tree: &'t Tree) -> Result<Box<Tables<'t>>, AllocError>
    ensures { IfOk result (λ tables. TablesRepresent (globals (erase.abstract (view.tree tree.now)))
        tables.value tree.now) }
{
    let tables = Box::new(alloc, Tables::of_tree(alloc, key, tree)?)?;
    Ok(tables)
}

/// Compiles a text that was accepted. The key is that of its names.
///
/// # Errors
///
/// `AllocError` if there is no room for its tables or its program.
pub fn compile_accepted<'t>(
    alloc: Global,
    key: Key,
    tree: &'t Tree,
) -> Result<CompiledText<'t>, AllocError>
    requires accepted { Accepted (view.tree tree.now) }
    ensures { IfOk result (IsCompiled tree.now) }
{
    accepted_tree_has_program(tree);
    // No source of a mebibyte has so many parameters.
    if !has_short_parameters(tree) {
        return Err(AllocError);
    }
    let tables = tables_of(alloc, key, tree)?;
    let program = compile(alloc, tree, &tables)?;
    Ok(CompiledText { program, tables })
}

/// Judges a text and compiles it.
///
/// # Errors
///
/// `Broken` if the text breaks a rule, and `Memory` if there is no room for what is made of it.
pub fn check<'t>(alloc: Global, tree: &'t Tree) -> Result<CompiledText<'t>, RuleError>
    ensures { Checks tree.now result }
{
    let key = Key::of(tree);
    match judge(alloc, key, tree) {
        Err(error) => Err(error),
        Ok(()) => match compile_accepted(alloc, key, tree) {
            Ok(compiled) => Ok(compiled),
            Err(_) => Err(RuleError::Memory),
        },
    }
}
