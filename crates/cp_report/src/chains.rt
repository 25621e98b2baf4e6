//! The lines of chains of askers, which come after the report if they are wanted.

ghost use Rattle.std.specs.Prelude.{◌≡◌, ◌++◌, OnOk, flat_map};
ghost use Rattle.cp_model_machine.specs.Chains.{chain_line_of, is_asker, machine_chains};
ghost use Rattle.cp_model_machine.specs.KernelSteps.{stage_of};
ghost use Rattle.cp_kernel.specs.ChainOf.{processes_left};
ghost use Rattle.cp_rounds.specs.Views.{machine_of};
ghost use Rattle.cp_report.specs.Lines.{number_text};
ghost use Rattle.cp_inspect.specs.Statuses.{asks_for_gate};

use crate::gates::push_number;
use cp_compile_symbols::small_number;
use cp_inspect::state::ProcState;
use cp_kernel::chain::Chain;
use cp_rounds::machine::Machine;
use std::alloc::AllocError;

fn push_chain(out: &mut Vec<u8>, chain: Chain<'_>) -> Result<(), AllocError>
    ensures { OnOk result (out.new.items ≡ out.old.items ++
        flat_map number_text (processes_left chain.entry)) }
{
    for process in chain {
        push_number(out, process)?;
    }
    Ok(())
}

fn asks(state: ProcState) -> bool
    ensures { result ≡ asks_for_gate state }
{
    matches!(state, ProcState::Asking(_))
}

// Whether process p asks for a gate.
fn is_asking(machine: &Machine, p: u32) -> bool
    ensures { result ≡ is_asker (stage_of (machine_of machine.now).kernel.stages p) }
{
    asks(machine.state(p))
}

// Adds the line of the chain from process p, if it asks for a gate.
fn push_chain_of(out: &mut Vec<u8>, machine: &Machine, p: u32) -> Result<(), AllocError>
    ensures { OnOk result (out.new.items ≡ out.old.items ++
        chain_line_of (machine_of machine.now).kernel p) }
{
    if !is_asking(machine, p) {
        return Ok(());
    }
    out.extend_from_slice(b"chain")?;
    push_chain(out, machine.chain(p))?;
    out.extend_from_slice(b"\n")
}

/// Adds a line for each process that asks for a gate, by number: its chain.
pub(crate) fn push_chains(out: &mut Vec<u8>, machine: &Machine) -> Result<(), AllocError>
    ensures { OnOk result (out.new.items ≡ out.old.items ++
        machine_chains (machine_of machine.now)) }
{
    for index in 0..machine.processes() {
        let number = small_number(index + 1)?;
        push_chain_of(out, machine, number)?;
    }
    Ok(())
}
