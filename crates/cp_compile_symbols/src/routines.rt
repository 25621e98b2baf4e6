//! What is known of a routine: its parameters and variables, where they are, and the type of its
//! result.

ghost use Rattle.std.specs.Prelude.{◌≡◌, ◌++◌, IfOk, map};
ghost use Rattle.cp_law_typing.specs.Needs.{result_words};
ghost use Rattle.cp_model.specs.Erase as erase;
ghost use Rattle.cp_compile_symbols.specs.Layouts.{Counts};
ghost use Rattle.cp_model_program.specs.Layout.{passed_parameters};
ghost use Rattle.cp_model.specs.Abstract as a;
ghost use Rattle.cp_model.specs.Types.{GlobalScope};
ghost use Rattle.cp_compile_symbols.specs.Routines.{MakesResult, MakesRoutine, RoutineRepresents};
ghost use Rattle.cp_compile_symbols.specs.Variables.{AreDeclared, declared_entry};
ghost use Rattle.cp_compile_symbols.specs.declared.types.Types as tables;

use crate::layout::{Layouts, has_room};
use crate::locals::Locals;
use crate::names::Names;
use crate::types::Types;
use crate::variables::Declared;
use cp_model::tree::{Identifier, Routine};
use std::alloc::{AllocError, Global};

/// A routine: its name, its parameters and variables in text order, where they are in an activation
/// (`locals` also has the size of the activation), and the number of the type of its result if it
/// is a function.
#[derive(Drop)]
pub struct RoutineTable<'t> {
    pub name: &'t [u8],
    pub parameters: Vec<Declared<'t>>,
    pub variables: Vec<Declared<'t>>,
    pub(crate) locals: Locals<'t>,
    pub result: Option<usize>,
}

impl<'t> RoutineTable<'t> {
    /// The parameters that a call passes: none if an activation has 2^32 words or more.
    pub fn passed(&self) -> &[Declared<'t>]
        ensures { (g : GlobalScope) (types : tables.Types) (r : a.Routine)
            → RoutineRepresents g types self.now r
            → AreDeclared types (map declared_entry result.now) (passed_parameters g r) }
    {
        if has_room(self.locals.words) {
            &self.parameters
        } else {
            &[]
        }
    }
}

// The size of the result in words.
fn words_of_result(of: &Option<Identifier>) -> u32
    ensures { result ≡ result_words (erase.name_if of.now) }
{
    match of {
        None => 0,
        Some(_) => 1,
    }
}

// The parameters, followed by the variables.
fn both<'t>(
    alloc: Global,
    parameters: &[Declared<'t>],
    variables: &[Declared<'t>],
) -> Result<Vec<Declared<'t>>, AllocError>
    ensures { IfOk result (λ all. map declared_entry all.items ≡
        map declared_entry parameters.now ++ map declared_entry variables.now) }
{
    let mut all = Vec::from_slice(alloc, parameters)?;
    all.extend_from_slice(variables)?;
    Ok(all)
}

impl<'t> Types<'t> {
    // The number of the type of the result, or `None` for a procedure.
    fn result(
        &mut self,
        names: &Names<'t>,
        of: &'t Option<Identifier>,
    ) -> Result<Option<usize>, AllocError>
        ensures { IfOk result (λ r. MakesResult names.now self.old self.new of.now r) }
    {
        match of {
            None => Ok(None),
            Some(x) => Ok(Some(self.named_type(names, x)?)),
        }
    }
}

impl<'t> Layouts<'t> {
    /// Makes the table of a routine.
    pub fn routine(
        &mut self,
        names: &Names<'t>,
        types: &mut Types<'t>,
        text: &'t Routine,
    ) -> Result<RoutineTable<'t>, AllocError>
        ensures { IfOk result (λ r. MakesRoutine names.now types.old types.new self.old.rows.items
            self.new.rows.items text.now r) }
    {
        let mut parameters = Vec::new(self.alloc);
        types.declare_parameters(names, &text.parameters, &mut parameters)?;
        let mut variables = Vec::new(self.alloc);
        types.declare_variables(names, &text.variables, &mut variables)?;
        let result = types.result(names, &text.result_type)?;
        self.extend(names, types)?;
        let all = both(self.alloc, &parameters, &variables)?;
        let locals = self.locals(&all, Some(words_of_result(&text.result_type)))?;
        Ok(RoutineTable {
            name: text.name.name.as_bytes(),
            parameters,
            variables,
            locals,
            result,
        })
    }
}
