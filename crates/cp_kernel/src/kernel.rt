//! What the kernel keeps: shared words, gates, stages of processes and transcripts.

ghost use Rattle.std.specs.Prelude.{◌≡◌, ◌<◌, ◌^◌, false, length};
ghost use Rattle.cp_kernel.specs.Fresh.{HasNoFresh};

use cp_private::kernel_view::{Gate, SchedulingState};

/// What is known of all monitors and processes, and the shared words.
pub struct Kernel {
    /// The words of all monitors, and the parameters that wait for their processes.
    pub(crate) shared: Vec<i32>,
    /// The gates of monitors by number, from 1.
    pub(crate) gates: Vec<Gate>,
    /// The stages of processes by number, from 1.
    pub(crate) stages: Vec<SchedulingState>,
    /// The output of processes by number, from 1, without what their private states still hold.
    pub(crate) transcripts: Vec<Vec<u8>>,
    /// Whether a process may be fresh. Most rounds start none, and needn't look for it.
    pub(crate) may_have_fresh: bool,
    ghost facts: { (length shared.items < 2 ^ 30) × (length transcripts.items ≡ length
        stages.items) },
    ghost fresh: { may_have_fresh ≡ false → HasNoFresh stages.items },
}

// A derived `Drop` would make proofs slower (docs/CI.md).
impl Drop for Kernel {
    fn drop(self) {
        let Kernel {
            shared: _,
            gates: _,
            stages: _,
            transcripts: _,
            may_have_fresh: _,
        } = self;
    }
}
