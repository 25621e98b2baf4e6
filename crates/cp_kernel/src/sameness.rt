//! Whether kernels have the same content.

ghost use Rattle.std.specs.Prelude.{◌≡◌, true, map};
ghost use Rattle.cp_private.specs.States as states;
ghost use Rattle.cp_kernel.specs.KernelOf.{kernel_of};

use crate::kernel::Kernel;
use cp_private::kernel_view::{Gate, SchedulingState};

fn is_same_gate(one: &Gate, other: &Gate) -> bool
    ensures { result ≡ true → states.gate one.now ≡ states.gate other.now }
{
    one.holder == other.holder && one.askers == other.askers
}

fn are_same_gates(ones: &[Gate], others: &[Gate]) -> bool
    ensures { result ≡ true → map states.gate ones.now ≡ map states.gate others.now }
{
    if ones.len() != others.len() {
        return false;
    }
    for i in 0..ones.len() {
        if !is_same_gate(&ones[i], &others[i]) {
            return false;
        }
    }
    true
}

fn are_same_stages(ones: &[SchedulingState], others: &[SchedulingState]) -> bool
    ensures { result ≡ true → ones.now ≡ others.now }
{
    if ones.len() != others.len() {
        return false;
    }
    for i in 0..ones.len() {
        if ones[i] != others[i] {
            return false;
        }
    }
    true
}

fn are_same_words(ones: &[i32], others: &[i32]) -> bool
    ensures { result ≡ true → ones.now ≡ others.now }
{
    ones == others
}

impl Kernel {
    /// Whether both have the same content, apart from transcripts. Only the answer `true` is proved
    /// to be right.
    pub fn is_same(&self, other: &Kernel) -> bool
        ensures { result ≡ true → kernel_of self.now ≡ kernel_of other.now }
    {
        are_same_words(&self.shared, &other.shared)
            && are_same_gates(&self.gates, &other.gates)
            && are_same_stages(&self.stages, &other.stages)
    }
}
