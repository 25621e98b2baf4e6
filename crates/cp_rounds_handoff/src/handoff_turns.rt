//! The private turns at a handoff queue, which a worker pool makes chunk by chunk.

ghost use Rattle.std.specs.Prelude.{⊤};
ghost use Rattle.cp_rounds_handoff.specs.Turned.{AreTimes};
ghost use Rattle.cp_rounds_handoff.specs.Tasks.{IsCourseOf};

use crate::config::MachineConfig;
use crate::gate::TurnGate;
use crate::handoff::{Content, HandoffQueue};
use crate::task::Course;
use cp_base_config::plan::Plan;
use cp_rounds_workers::Work;
use std::sync::Wait;

/// How the private turns at a handoff queue are made.
#[derive(Drop)]
pub struct HandoffTurns<'a, C: Course, G: TurnGate> {
    pub handoff: HandoffQueue<'a, C>,
    pub config: &'a MachineConfig,
    pub plan: Plan,
    pub gate: &'a G,
    /// The number of rounds that were made before the run.
    pub done: u64,
    /// The number of waves in a round.
    pub waves: usize,
    /// The number of chunks in the first wave of a round of all processes. No other wave has more.
    pub chunks: usize,
    ghost course: { IsCourseOf C.without_kernel C.turned C.input C.most config.now plan.turn.steps },
    ghost times: { AreTimes C.round_time config.now done },
}

impl<'a, C: Course, G: TurnGate> Work for HandoffTurns<'a, C, G> {
    ghost can = { λ _. ⊤ };

    // The waves of a run are numbered through all its rounds, and the chunks of a round through all
    // its waves.
    fn work<R: Wait>(&self, rt: &R, wave: usize, chunk: usize) {
        let Some(index) = wave.checked_rem(self.waves) else {
            return;
        };
        let chunk = index.saturating_mul(self.chunks).saturating_add(chunk);
        let Some(batch) = self.handoff.published_batch(rt, chunk) else {
            return;
        };
        let mut batch = batch.lock(rt);
        if batch.content != Content::Published {
            return;
        }
        for slot in batch.tasks.iter_mut() {
            if let Some(task) = &mut slot.task {
                if !task.is_made() {
                    self.gate.begin(task.process());
                    task.make(self.config, self.done, self.plan.turn);
                }
            }
        }
        batch.content = Content::Made;
    }
}
