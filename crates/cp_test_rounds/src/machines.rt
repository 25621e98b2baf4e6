//! Machines of texts, and what can be read of them.

ghost use Rattle.std.specs.Prelude.{◌≡◌, IfOk, length};
ghost use Rattle.cp_program.specs.View as view;

use cp_base_config::tick::Tick;
use cp_compile_symbols::Tables;
use cp_private::private::Activity;
use cp_program::program::Program;
use cp_rounds::machine::Machine;
use std::alloc::Global;
use std::test::Fail;

// An empty input for each process.
pub(crate) fn inputs_for(alloc: Global, program: &Program) -> Result<Vec<Vec<u8>>, Fail>
    ensures { IfOk result
        (λ all. length all.items ≡ length (view.program program.now).processes) }
{
    let mut all = Vec::new(alloc);
    for _process in 0..program.processes() {
        all.push(Vec::new(alloc))?;
    }
    if all.len() != program.processes() {
        return Err("there is an input for each process".into());
    }
    Ok(all)
}

// The machine of a compiled text, with a tick of one round and without input.
pub(crate) fn machine_of<'r, 't>(
    alloc: Global,
    program: Program,
    tables: &'r Tables<'t>,
) -> Result<Machine<'r, 't>, Fail> {
    let tick = Tick::new(1)?;
    let inputs = inputs_for(alloc, &program)?;
    Ok(Machine::new(alloc, program, tables, inputs, tick)?)
}

pub(crate) fn activity(machine: &Machine, p: usize) -> Result<Activity, Fail> {
    let private = machine.private(p).ok_or("there is no such process")?;
    Ok(private.activity())
}

// Whether `text` is the transcript of process p, with all of it moved to the kernel.
pub(crate) fn has_written(machine: &Machine, p: usize, text: &[u8]) -> bool {
    let (moved, held) = machine.transcript(p);
    moved == text && held.is_empty()
}
