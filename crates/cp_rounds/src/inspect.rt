//! What a trace reads of a machine.

ghost use Rattle.cp_kernel.specs.KernelOf.{transcripts_of};
ghost use Rattle.cp_model_machine.specs.KernelSteps.{gate_of};
ghost use Rattle.cp_model_machine.specs.Machines as plain;
ghost use Rattle.cp_rounds.specs.ProcessStates.{state_at};
ghost use Rattle.cp_rounds.specs.Values.{value_at};
ghost use Rattle.cp_rounds.specs.Views.{machine_of, output_of};

use crate::machine::Machine;
use cp_compile_symbols::{Base, Field, TypeRow};
use cp_inspect::inspect::Inspect;
use cp_inspect::leaves::{Leaf, initial_leaves, leaves};
use cp_inspect::place;
use cp_inspect::state::ProcState;
use cp_inspect::status::push_state;
use cp_inspect::walk::Walk;
use cp_private::kernel_view::Holder;
use std::alloc::{AllocError, Global};

impl Inspect for Machine<'_, '_> {
    ghost state = { λ m p. state_at (machine_of m) p };

    ghost written = { λ m p. plain.transcript_of (machine_of m).transcripts p };

    ghost held = { λ m p. output_of (machine_of m) p };

    ghost holder = { λ m n. (gate_of (machine_of m).kernel.gates n).holder };

    ghost askers = { λ m n. (gate_of (machine_of m).kernel.gates n).askers };

    ghost value = { λ m place. value_at (machine_of m) place };

    fn state_of(&self, process: u32) -> ProcState {
        self.state(process)
    }

    fn words_of(
        &self,
        alloc: Global,
        monitors: &[Field<'_>],
        state: ProcState,
    ) -> Result<String, AllocError> {
        let mut walk = Walk::new(alloc, 0);
        let mut words = Vec::new(alloc);
        let (tables, program) = (self.tables(), self.program());
        push_state(&mut walk, tables, program, monitors, state, &mut words)?;
        String::from_utf8_lossy(alloc, &words)
    }

    fn transcript_of(&self, process: u32) -> (&[u8], &[u8]) {
        self.transcript(process as usize)
    }

    fn holder_of(&self, monitor: u32) -> Holder {
        self.gate(monitor)
    }

    fn askers_of(&self, monitor: u32) -> &[u32] {
        self.askers(monitor)
    }

    fn value_at(&self, place: &place::Place) -> place::Value {
        self.value(place)
    }

    fn base_of(&self, number: usize) -> Option<Base<'_>> {
        match self.tables().types.row(number) {
            Some(TypeRow::Simple(simple)) => Some(simple.base),
            _ => None,
        }
    }

    fn leaves_of(&self, alloc: Global, number: Option<usize>) -> Result<Vec<Leaf>, AllocError> {
        match number {
            Some(number) => leaves(alloc, self.tables(), number),
            None => initial_leaves(alloc, self.tables()),
        }
    }
}
