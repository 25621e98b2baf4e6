//! Hashes of kernels, and how much memory they take. Both are hints: no clause mentions them.

use crate::kernel::Kernel;
use cp_private::hashing::{mix, mix_words};
use cp_private::kernel_view::{Gate, Holder, SchedulingState};

fn number_of_holder(holder: Holder) -> u64 {
    match holder {
        Holder::Unset => 1 << 33,
        Holder::Free => 1 << 34,
        Holder::Process(p) => p.into(),
    }
}

fn mix_gate(mut hash: u64, gate: &Gate) -> u64 {
    hash = mix(hash, number_of_holder(gate.holder));
    for asker in &gate.askers {
        hash = mix(hash, u64::from(*asker));
    }
    hash
}

fn number_of_stage(stage: SchedulingState) -> u64 {
    match stage {
        SchedulingState::Unstarted => 1 << 33,
        SchedulingState::Fresh => 1 << 34,
        SchedulingState::Begun => 1 << 35,
        SchedulingState::Asking(m) => m.into(),
        SchedulingState::Delayed { monitor: _, queue } => u64::from(queue) ^ (1 << 36),
    }
}

impl Kernel {
    /// A hash of the content, but for transcripts.
    pub fn hash(&self) -> u64 {
        let mut hash = mix_words(0, &self.shared);
        for gate in &self.gates {
            hash = mix_gate(hash, gate);
        }
        for stage in &self.stages {
            hash = mix(hash, number_of_stage(*stage));
        }
        hash
    }

    /// How many bytes of memory a copy takes, about.
    pub fn size(&self) -> usize {
        let words = self.shared.len().saturating_mul(4);
        let gates = self.gates.len().saturating_mul(64);
        let processes = self.stages.len().saturating_mul(40);
        words
            .saturating_add(gates)
            .saturating_add(processes)
            .saturating_add(256)
    }
}
