//! The machine of a text at its start.

ghost use Rattle.std.specs.Prelude.{◌≡◌, IfOk};
ghost use Rattle.cp_check.specs.Checked.{IsProgramOf};
ghost use Rattle.cp_model.specs.Syntax as s;
ghost use Rattle.cp_frontend.specs.Inputs.{inputs_of};
ghost use Rattle.cp_execute_start.specs.Starts.{IsAtStart, setup_of};

use cp_base_config::tick::Tick;
use cp_compile_symbols::Tables;
use cp_frontend::inputs::ProcessInputs;
use cp_program::program::Program;
use cp_rounds::machine::Machine;
use std::alloc::{AllocError, Global};

/// The machine of a text's program and tables at its start. Each process reads its input.
///
/// # Errors
///
/// `AllocError` if memory runs out.
pub fn machine_at_start<'r, 't>(
    alloc: Global,
    program: Program,
    tables: &'r Tables<'t>,
    inputs: &ProcessInputs,
    tick: Tick,
) -> Result<Machine<'r, 't>, AllocError>
    ensures state { IfOk result (λ machine. (t : s.Tree) → IsProgramOf t program
        → IsAtStart (setup_of t (inputs_of inputs.now) tick.rounds) machine) }
    ensures rounds { IfOk result (λ machine. machine.rounds ≡ 0) }
    ensures tables { IfOk result (λ machine. machine.tables ≡ tables.entry) }
{
    let inputs = inputs.by_process(alloc, program.processes())?;
    Machine::new(alloc, program, tables, inputs, tick)
}
