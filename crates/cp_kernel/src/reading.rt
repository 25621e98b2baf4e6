//! What can be read of the kernel.

ghost use Rattle.std.specs.Prelude.{◌≡◌, true};
ghost use Rattle.cp_model_program.specs.Starts.{word};
ghost use Rattle.cp_private.specs.States.{holder as holder_view, stage as stage_view};
ghost use Rattle.cp_model_machine.specs.KernelSteps as plain;
ghost use Rattle.cp_kernel.specs.KernelOf.{IsAmong, kernel_of, transcripts_of};
ghost use Rattle.cp_model_machine.specs.Machines.{transcript_of};

use crate::kernel::Kernel;
use cp_private::kernel_view::{Holder, SchedulingState};

impl Kernel {
    /// The holder of monitor m's gate. A missing monitor is unset.
    pub fn holder(&self, m: u32) -> Holder
        ensures { holder_view result ≡ (plain.gate_of (kernel_of self.now).gates m).holder }
    {
        if m == 0 {
            return Holder::Unset;
        }
        match self.gates.get(m as usize - 1) {
            Some(gate) => gate.holder,
            None => Holder::Unset,
        }
    }

    /// The processes that ask for the gate of monitor m, in the order in which they asked.
    pub fn askers(&self, m: u32) -> &[u32]
        ensures { result.now ≡ (plain.gate_of (kernel_of self.now).gates m).askers }
    {
        if m == 0 {
            return &[];
        }
        match self.gates.get(m as usize - 1) {
            Some(gate) => &gate.askers,
            None => &[],
        }
    }

    /// Whether there is a process with this number.
    pub fn has_process(&self, p: usize) -> bool
        ensures { result ≡ true → IsAmong self.now p }
    {
        1 <= p && p <= self.stages.len()
    }

    /// The stage of process p. A missing process has begun.
    pub fn stage(&self, p: u32) -> SchedulingState
        ensures { stage_view result ≡ plain.stage_of (kernel_of self.now).stages p }
    {
        if p == 0 {
            return SchedulingState::Begun;
        }
        match self.stages.get(p as usize - 1) {
            Some(stage) => *stage,
            None => SchedulingState::Begun,
        }
    }

    /// Whether process p has begun, and neither asks nor is delayed.
    pub fn is_begun(&self, p: u32) -> bool
        ensures { result ≡ plain.is_begun (plain.stage_of (kernel_of self.now).stages p) }
    {
        matches!(self.stage(p), SchedulingState::Begun)
    }

    /// All shared words.
    pub fn all_words(&self) -> &[i32]
        ensures { result.now ≡ (kernel_of self.now).shared }
    {
        &self.shared
    }

    /// The shared word at an address. A missing word reads as 0.
    pub fn word(&self, at: usize) -> i32
        ensures { result ≡ word (kernel_of self.now).shared at }
    {
        match self.shared.get(at) {
            Some(n) => *n,
            None => 0,
        }
    }

    /// The transcript of process p, without the output that its private state still holds.
    pub fn transcript(&self, p: usize) -> &[u8]
        ensures { result.now ≡ transcript_of (transcripts_of self.now) p }
    {
        match self.transcripts.get(p.saturating_sub(1)) {
            Some(transcript) => transcript.as_slice(),
            None => &[],
        }
    }
}
