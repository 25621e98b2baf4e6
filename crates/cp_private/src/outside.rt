//! What a step reads besides the words and the private state of its process.

use crate::kernel_view::{Gate, SchedulingState};

/// What else a step reads: the clock, the input of the process, and what the kernel knows.
#[derive(Clone, Copy)]
pub struct StepContext<'a> {
    /// The ticks since the start.
    pub clock: u64,
    pub input: &'a [u8],
    /// The gates of monitors by number, from 1.
    pub gates: &'a [Gate],
    /// What the kernel knows of processes, by number, from 1.
    pub stages: &'a [SchedulingState],
}
