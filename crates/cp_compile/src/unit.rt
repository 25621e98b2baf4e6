//! Compiles a unit: the code of a routine or of the body of a system type.

ghost use Rattle.std.specs.Prelude.{List, OnOk};
ghost use Rattle.cp_model_program.specs.Compile.{Compiled, with_code};
ghost use Rattle.cp_model_program.specs.Programs.{StartPlan};
ghost use Rattle.cp_model_program.specs.Scopes as code;
ghost use Rattle.cp_compile_symbols.specs.Scopes.{IsScope};
ghost use Rattle.cp_program.specs.View as view;
ghost use Rattle.cp_compile.specs.Compiles.{AddsUnit, IsCompiled, body_of};

use cp_compile_emit::Emitter;
use cp_compile_lower::Translator;
use cp_model::tree::Statement;
use cp_program::operation::Operation;
use cp_program::program::StartPiece;
use std::alloc::AllocError;

/// Compiles the statements `body` to a unit. It ends with the operation `last`, and its activations
/// start by the plan `starts`.
pub fn compile_unit(
    translator: Translator,
    starts: Vec<StartPiece>,
    last: Operation,
    body: &[Statement],
    emitter: &mut Emitter,
) -> Result<(), AllocError>
    ensures code { OnOk result ((known : List StartPlan) (s : code.Scope) (c : Compiled)
        → IsScope translator.entry.scope s → IsCompiled known emitter.old c
        → IsCompiled known emitter.new (with_code s (view.plan_of known starts.items)
        (view.operation last) (body_of body.now) c)) }
    ensures origin { OnOk result ((s : code.Scope) → IsScope translator.entry.scope s
        → AddsUnit translator.entry.origin emitter.old.origins.items emitter.new.origins.items) }
{
    emitter.begin(translator.scope.words()?);
    let at = emitter.push(last, translator.origin)?;
    let entry = translator.statements(body, 0, at, emitter)?;
    emitter.end(entry, starts)?;
    Ok(())
}
