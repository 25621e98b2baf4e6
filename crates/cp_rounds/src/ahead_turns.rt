//! Finishes rounds that are made at once: one by one, while some processes are ahead.

ghost use Rattle.std.specs.Prelude.{◌≡◌, ◌≢◌, ◌≤◌, ◌<◌, ◌+◌, ◌-◌, ◌*◌, ℕ, IfOk, length, vec_capacity, vec_len};
ghost use Rattle.cp_model.specs.States.{numbers_from};
ghost use Rattle.cp_model_machine.specs.Machines as plain;
ghost use Rattle.cp_private.specs.Rooms.{HasRoomFor};
ghost use Rattle.cp_private.specs.States.{private_of};
ghost use Rattle.cp_program.specs.View as view;
ghost use Rattle.cp_rounds_handoff.specs.Inputs.{input_at};
ghost use Rattle.cp_rounds_handoff.specs.Turned.{take_turn, with_turn_taken};
ghost use Rattle.cp_rounds.specs.Ahead.{IsReadyAhead, IsTime, PartsAhead, turns_ahead};

use crate::closing::close_round;
use crate::finishing::kernel_turn_of;
use crate::run::Run;
use cp_kernel::kernel::Kernel;
use cp_private::private_box::PrivateBox;
use cp_rounds_handoff::gate::TurnGate;
use cp_rounds_handoff::round_time::RoundTime;
use cp_rounds_handoff::task::Course;
use cp_rounds_handoff::turns::turn_in_place;
use std::alloc::{AllocError, Global};

/// How many turns processes are ahead of the round that is being made.
#[derive(Drop)]
pub(crate) struct RunAheadTurns {
    /// The turns by index of process.
    pub(crate) turns: Vec<u32>,
    /// How many of the rounds come after this one.
    pub(crate) later: u32,
}

impl RunAheadTurns {
    /// The count before the first of several rounds: none of so many processes is ahead.
    ///
    /// # Errors
    ///
    /// `AllocError` if memory runs out.
    pub(crate) fn none(
        alloc: Global,
        processes: usize,
        later: u32,
    ) -> Result<RunAheadTurns, AllocError>
        ensures turns { IfOk result (λ ahead. length ahead.turns.items ≡ processes) }
        ensures later { IfOk result (λ ahead. ahead.later ≡ later) }
    {
        let mut turns = Vec::with_capacity(alloc, processes)?;
        for _process in 0..processes {
            turns.push(0)?;
        }
        Ok(RunAheadTurns { turns, later })
    }

    // How many turns all processes are ahead.
    fn of_all(&self) -> u32
        ensures few { result ≤ self.now.later }
        ensures all { (i : ℕ) → i < length self.now.turns.items
            → result ≤ turns_ahead self.now.turns.items i }
    {
        let mut least = self.later;
        for i in 0..self.turns.len() {
            least = least.min(self.turns[i]);
        }
        least
    }

    // Moves on to the round that comes so many rounds later.
    fn pass(&mut self, rounds: u32)
        requires later { rounds ≤ self.old.later }
        ensures later { self.new.later ≡ self.old.later - rounds }
        ensures count { length self.new.turns.items ≡ length self.old.turns.items }
        ensures less { (i : ℕ) → turns_ahead self.new.turns.items i
            ≡ turns_ahead self.old.turns.items i - rounds }
    {
        self.later -= rounds;
        for i in 0..self.turns.len() {
            self.turns[i] = self.turns[i].saturating_sub(rounds);
        }
    }
}

// Calls the hook for the kernel turns of a round in which the processes have nothing to do.
fn call_gate<'a, C: Course, G: TurnGate>(run: &Run<'a, C, G>, processes: usize) {
    for index in 0..processes {
        run.turns.gate.kernel(index + 1);
    }
}

/// Skips the rounds in which all processes are ahead, once the private turns of the first one are
/// made: nothing is left to do in them. Returns how many these are.
pub(crate) fn pass_rounds<'a, C: Course, G: TurnGate>(
    run: &Run<'a, C, G>,
    ahead: &mut RunAheadTurns,
    privates: &Vec<PrivateBox>,
    kernel: &Kernel,
) -> u32
    requires room { IsReadyAhead C.most ahead.old.later 0 ahead.old.turns.items privates.now.items
        kernel.now }
    ensures parts { (m : plain.Machine)
        → PartsAhead run.now.turns.config.now run.now.turns.plan.turn.steps (m.rounds + 1)
        (with_turn_taken run.now.turns.plan.turn.steps m) ahead.old.turns.items privates.now.items
        kernel.now
        → PartsAhead run.now.turns.config.now run.now.turns.plan.turn.steps
        (m.rounds + (result + 1)) (with_turn_taken run.now.turns.plan.turn.steps
        (plain.phased_rounds run.now.turns.plan.turn.steps
        (numbers_from 1 (length privates.now.items)) result m)) ahead.new.turns.items
        privates.now.items kernel.now }
    ensures room { IsReadyAhead C.most ahead.new.later 0 ahead.new.turns.items privates.now.items
        kernel.now }
    ensures later { ahead.new.later + result ≡ ahead.old.later }
{
    let rounds = ahead.of_all();
    for _round in 0..rounds {
        call_gate(run, privates.len());
    }
    ahead.pass(rounds);
    rounds
}

// Makes the kernel turn of the process at an index, unless it is ahead: then it has nothing to do
// in it.
fn finish_at<'a, C: Course, G: TurnGate>(
    run: &Run<'a, C, G>,
    round_time: RoundTime,
    ahead: &RunAheadTurns,
    index: usize,
    privates: &mut Vec<PrivateBox>,
    kernel: &mut Kernel,
)
    requires within { index < length privates.old.items }
    requires room { IsReadyAhead C.most ahead.now.later index ahead.now.turns.items
        privates.old.items kernel.old }
    ensures parts { (rounds : ℕ) (m : plain.Machine)
        → IsTime run.now.turns.config.now m round_time
        → PartsAhead run.now.turns.config.now run.now.turns.plan.turn.steps rounds
        (plain.kernel_turns run.now.turns.plan.turn.steps m (numbers_from 1 index))
        ahead.now.turns.items privates.old.items kernel.old
        → PartsAhead run.now.turns.config.now run.now.turns.plan.turn.steps rounds
        (plain.kernel_turns run.now.turns.plan.turn.steps m (numbers_from 1 (index + 1)))
        ahead.now.turns.items privates.new.items kernel.new }
    ensures room { IsReadyAhead C.most ahead.now.later (index + 1) ahead.now.turns.items
        privates.new.items kernel.new }
    ensures count { length privates.new.items ≡ length privates.old.items }
{
    if ahead.turns[index] > 0 {
        run.turns.gate.kernel(index + 1);
        return;
    }
    kernel_turn_of(run, round_time, index + 1, &mut privates[index], kernel);
}

/// Makes the kernel turns of a round, and ends it.
pub(crate) fn finish_round<'a, C: Course, G: TurnGate>(
    run: &Run<'a, C, G>,
    round_time: RoundTime,
    ahead: &RunAheadTurns,
    privates: &mut Vec<PrivateBox>,
    kernel: &mut Kernel,
)
    requires room { IsReadyAhead C.most ahead.now.later 0 ahead.now.turns.items privates.old.items
        kernel.old }
    ensures parts { (rounds : ℕ) (m : plain.Machine)
        → IsTime run.now.turns.config.now m round_time
        → PartsAhead run.now.turns.config.now run.now.turns.plan.turn.steps rounds m
        ahead.now.turns.items privates.old.items kernel.old
        → PartsAhead run.now.turns.config.now run.now.turns.plan.turn.steps rounds
        (plain.end_round (plain.kernel_turns run.now.turns.plan.turn.steps m
        (numbers_from 1 (length privates.old.items)))) ahead.now.turns.items privates.new.items
        kernel.new }
    ensures room { IsReadyAhead C.most ahead.now.later (length privates.new.items)
        ahead.now.turns.items privates.new.items kernel.new }
    ensures count { length privates.new.items ≡ length privates.old.items }
{
    for i in 0..privates.len() {
        finish_at(run, round_time, ahead, i, privates, kernel);
    }
    close_round(run.turns.config, privates, kernel);
}

// Makes the private turn of a process, unless it is ahead. Returns whether it had a step to make.
#[inline(always)]
fn turn_unless_ahead<'a, C: Course, G: TurnGate>(
    run: &Run<'a, C, G>,
    round_time: RoundTime,
    process: usize,
    turns: &mut u32,
    private: &mut PrivateBox,
) -> bool
    requires room { turns.old ≡ 0 → HasRoomFor private.old run.now.turns.plan.turn.steps }
    ensures ahead { turns.new ≡ turns.old - 1 }
    ensures still { turns.old ≢ 0 → private.new ≡ private.old }
    ensures turned { turns.old ≡ 0
        → let input = input_at run.now.turns.config.now.inputs.items (process - 1) in
        private_of private.new input ≡ take_turn (view.program run.now.turns.config.now.program)
        run.now.turns.plan.turn.steps round_time (private_of private.old input) }
    ensures number { private.new.number ≡ private.old.number }
    ensures length { vec_len private.new.output ≤ vec_len private.old.output
        + 11 * run.now.turns.plan.turn.steps }
    ensures capacity { vec_capacity private.old.output ≤ vec_capacity private.new.output }
{
    if *turns > 0 {
        *turns -= 1;
        return false;
    }
    if private.private().is_idle(round_time.wakes) {
        return false;
    }
    let private = private.private_mut();
    turn_in_place(
        run.turns.config,
        private,
        process,
        round_time,
        run.turns.plan.turn,
    );
    true
}

/// Makes the private turns of the next round, of the processes that aren't ahead. Returns whether
/// one of them had a step to make.
pub(crate) fn make_turns<'a, C: Course, G: TurnGate>(
    run: &Run<'a, C, G>,
    round_time: RoundTime,
    ahead: &mut RunAheadTurns,
    privates: &mut Vec<PrivateBox>,
    kernel: &Kernel,
) -> bool
    requires later { 0 < ahead.old.later }
    requires room { IsReadyAhead C.most ahead.old.later (length privates.old.items)
        ahead.old.turns.items privates.old.items kernel.now }
    ensures parts { (m : plain.Machine) → IsTime run.now.turns.config.now m round_time
        → PartsAhead run.now.turns.config.now run.now.turns.plan.turn.steps m.rounds m
        ahead.old.turns.items privates.old.items kernel.now
        → PartsAhead run.now.turns.config.now run.now.turns.plan.turn.steps (m.rounds + 1)
        (with_turn_taken run.now.turns.plan.turn.steps m) ahead.new.turns.items privates.new.items
        kernel.now }
    ensures room { IsReadyAhead C.most ahead.new.later 0 ahead.new.turns.items privates.new.items
        kernel.now }
    ensures later { ahead.new.later ≡ ahead.old.later - 1 }
    ensures count { length privates.new.items ≡ length privates.old.items }
{
    ahead.later -= 1;
    let mut made = false;
    for i in 0..privates.len() {
        let turns = &mut ahead.turns[i];
        if turn_unless_ahead(run, round_time, i + 1, turns, &mut privates[i]) {
            made = true;
        }
    }
    made
}
