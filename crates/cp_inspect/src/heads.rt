//! How many words come before the members of a component.

ghost use Rattle.std.specs.Prelude.{◌≡◌, Some, IfOk};
ghost use Rattle.std.specs.Borrow.{Bor};
ghost use Rattle.cp_model_program.specs.Layout as layout;
ghost use Rattle.cp_model.specs.Erase as erase;
ghost use Rattle.cp_model.specs.Types.{GlobalScope};
ghost use Rattle.cp_model.specs.View as view;
ghost use Rattle.cp_model.specs.declared.tree.System.{System};
ghost use Rattle.cp_compile_symbols.specs.Representing.{ScopeRepresents, system_at};
ghost use Rattle.cp_inspect.specs.Walks.{HeadIs};

use cp_compile_symbols::Tables;
use cp_model::tree::Sort;
use std::alloc::AllocError;

/// How many words the mark and the rights of a component of this system type take.
pub(crate) fn head_words(tables: &Tables, number: usize) -> Result<usize, AllocError>
    ensures { IfOk result (λ head. (g : GlobalScope) (y : Bor System)
        → ScopeRepresents tables.now.names tables.now.types g
        → system_at tables.now.types number ≡ Some y
        → head ≡ layout.head_words g (erase.system (view.system y.now))) }
{
    let Some(system) = tables.types.system(number) else {
        return Err(AllocError);
    };
    match tables.types.rights(&tables.names, &system.parameters) {
        Some(rights) => Ok(rights as usize + 1),
        None => Err(AllocError),
    }
}

/// How many words the mark and the rights of a class of this system type take, and `None` for a
/// process or a monitor, whose words are elsewhere.
pub(crate) fn class_head(tables: &Tables, number: usize) -> Result<Option<usize>, AllocError>
    ensures { IfOk result (λ head. (g : GlobalScope) (y : Bor System)
        → ScopeRepresents tables.now.names tables.now.types g
        → system_at tables.now.types number ≡ Some y
        → HeadIs g (erase.system (view.system y.now)) head) }
{
    let Some(system) = tables.types.system(number) else {
        return Ok(None);
    };
    if !matches!(system.sort, Sort::Class) {
        return Ok(None);
    }
    Ok(Some(head_words(tables, number)?))
}
