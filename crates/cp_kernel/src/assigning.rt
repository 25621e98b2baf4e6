//! Kernels that are made the same as others.

ghost use Rattle.std.specs.Prelude.{◌≡◌, IfOk, OnOk, length, map, true};
ghost use Rattle.cp_private.specs.States as states;
ghost use Rattle.cp_kernel.specs.KernelOf.{kernel_of};

use crate::kernel::Kernel;
use cp_private::kernel_view::Gate;
use std::alloc::AllocError;

fn assign_gate(gate: &mut Gate, other: &Gate) -> Result<(), AllocError>
    ensures { OnOk result (states.gate gate.new ≡ states.gate other.now) }
{
    gate.holder = other.holder;
    gate.askers.clear();
    gate.askers.extend_from_slice(&other.askers)
}

fn assign_gates(gates: &mut [Gate], others: &[Gate]) -> Result<(), AllocError>
    requires { length gates.old ≡ length others.now }
    ensures same { OnOk result (map states.gate gates.new ≡ map states.gate others.now) }
    ensures count { length gates.new ≡ length gates.old }
{
    for i in 0..gates.len() {
        assign_gate(&mut gates[i], &others[i])?;
    }
    Ok(())
}

impl Kernel {
    /// Makes the kernel the same as another one with as many words, monitors and processes, apart
    /// from transcripts. Returns whether it is such a one.
    ///
    /// # Errors
    ///
    /// `AllocError` if memory runs out.
    pub fn assign(&mut self, other: &Kernel) -> Result<bool, AllocError>
        ensures { IfOk result (λ done. done ≡ true → kernel_of self.new ≡ kernel_of other.now) }
    {
        if self.shared.len() != other.shared.len()
            || self.gates.len() != other.gates.len()
            || self.stages.len() != other.stages.len()
        {
            return Ok(false);
        }
        self.may_have_fresh = true;
        self.shared.copy_from_slice(&other.shared);
        self.stages.copy_from_slice(&other.stages);
        assign_gates(&mut self.gates, &other.gates)?;
        Ok(true)
    }
}
