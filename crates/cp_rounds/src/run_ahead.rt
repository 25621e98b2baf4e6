//! Several rounds at once.
//!
//! A process that has written nothing and whose next step isn't the kernel's, if it has one, has no
//! kernel turn to make, whatever the others do (`specs/Ahead.antt` of cp_model_machine). So the
//! threads make its private turns of several rounds one after another, and draw once for all of
//! them. The calling thread takes all private states back, and skips the rounds in which all
//! processes are ahead. It makes the others one by one, with the private turns that weren't made
//! ahead.

ghost use Rattle.std.specs.Prelude.{◌≡◌, ◌≤◌, ◌<◌, ◌+◌, ◌-◌, ℕ, false, true, length, slice_get, Some};
ghost use Rattle.cp_kernel.specs.KernelOf.{kernel_of};
ghost use Rattle.cp_model_machine.specs.KernelSteps as plain;
ghost use Rattle.cp_model_machine.specs.Machines.{Machine, phased_rounds};
ghost use Rattle.cp_model.specs.States.{numbers_from};
ghost use Rattle.cp_private.specs.Resting.{is_idle};
ghost use Rattle.cp_program.specs.View as view;
ghost use Rattle.cp_rounds_handoff.specs.Tasks.{AreInPlace, AreMade, AreTaken};
ghost use Rattle.cp_rounds_handoff.specs.Turned.{with_turn_taken};
ghost use Rattle.cp_rounds.specs.Ahead.{AreBack, IsReadyAhead, IsTime, PartsAhead, turns_ahead};
ghost use Rattle.cp_rounds.specs.Runs.{PartsAfter};

use crate::ahead_turns::{RunAheadTurns, finish_round, make_turns, pass_rounds};
use crate::coordinator::Coordinator;
use crate::parts::Parts;
use crate::round::{open_round, shares_of};
use crate::run::Run;
use cp_kernel::kernel::Kernel;
use cp_private::private_box::PrivateBox;
use cp_rounds_handoff::gate::TurnGate;
use cp_rounds_handoff::kernel_need::is_idle_forever;
use cp_rounds_handoff::open_round::OpenRound;
use cp_rounds_handoff::round_time::RoundTime;
use cp_rounds_handoff::task::Course;
use std::sync::Wait;

// How many turns of a process are taken back at most: only one that has begun may be ahead.
fn most_turns(kernel: &Kernel, process: usize, count: u32) -> u32
    requires count { 0 < count }
    ensures some { 0 < result }
    ensures few { result ≤ count }
    ensures begun { 1 < result
        → plain.is_begun (plain.stage_of (kernel_of kernel.now).stages process) ≡ true }
{
    if process <= u32::MAX as usize && kernel.is_begun(process as u32) {
        return count;
    }
    1
}

// Takes back the private state of a process after its turns, of a round and of those that are made
// at once with it. Returns how many turns it is ahead: as many as may be, if none of them has a
// step.
fn take_back<'a, C: Course, R: Wait, G: TurnGate>(
    rt: &R,
    run: &Run<'a, C, G>,
    coordinator: &mut Coordinator<'a, C>,
    round: &OpenRound<'a, C>,
    process: usize,
    private: &mut PrivateBox,
    kernel: &Kernel,
) -> u32
    requires count { 0 < round.now.rounds }
    requires some { 0 < process }
    requires left { is_idle round.now.round_time.wakes private.old ≡ true
        → slice_get round.now.start.value.items (process - 1) ≡ Some private.old }
    ensures taken { AreTaken (AreMade C.without_kernel C.turned C.round_time round.now.index (result + 1))
        (C.input (process - 1)) C.most round.now.start.value.items process private.new }
    ensures few { result < round.now.rounds }
    ensures begun { 0 < result
        → plain.is_begun (plain.stage_of (kernel_of kernel.now).stages process) ≡ true }
{
    let most = most_turns(kernel, process, round.rounds);
    if private.private().is_idle(round.round_time.wakes) {
        if is_idle_forever(&run.turns.config.program, private.private()) {
            return most - 1;
        }
        return 0;
    }
    coordinator.take(rt, run, round, process, most, private) - 1
}

// Takes back the private states of all processes after their turns, of a round and of those that
// are made at once with it.
fn take_all_back<'a, C: Course, R: Wait, G: TurnGate>(
    rt: &R,
    run: &Run<'a, C, G>,
    coordinator: &mut Coordinator<'a, C>,
    round: &OpenRound<'a, C>,
    ahead: &mut RunAheadTurns,
    privates: &mut Vec<PrivateBox>,
    kernel: &Kernel,
)
    requires some { 0 < round.now.rounds }
    requires left { AreInPlace round.now.round_time.wakes 0 round.now.start.value.items
        privates.old.items }
    requires count { length privates.old.items ≡ length round.now.start.value.items }
    requires turns { length ahead.old.turns.items ≡ length privates.old.items }
    ensures back { AreBack C.without_kernel C.turned C.round_time C.input C.most round.now.index
        round.now.rounds round.now.start.value.items ahead.new.turns.items privates.new.items
        kernel.now }
    ensures later { ahead.new.later ≡ ahead.old.later }
{
    for i in 0..privates.len() {
        ahead.turns[i] = take_back(rt, run, coordinator, round, i + 1, &mut privates[i], kernel);
    }
    coordinator.end_wave(rt, run);
}

// Makes the rounds one by one, of which the private turns of the first one are made. Returns
// whether all private turns of the others were made ahead, or had no step.
fn finish_one_by_one<'a, C: Course, G: TurnGate>(
    run: &Run<'a, C, G>,
    index: usize,
    round_time: RoundTime,
    ahead: &mut RunAheadTurns,
    privates: &mut Vec<PrivateBox>,
    kernel: &mut Kernel,
) -> bool
    requires within { index + ahead.old.later < length run.now.cells.now }
    requires ready { IsReadyAhead C.most ahead.old.later 0 ahead.old.turns.items privates.old.items
        kernel.old }
    ensures made { (m : Machine) → IsTime run.now.turns.config.now m round_time
        → m.tick ≡ run.now.turns.config.now.tick.rounds → m.rounds ≡ run.now.turns.done + index
        → PartsAhead run.now.turns.config.now run.now.turns.plan.turn.steps (m.rounds + 1)
        (with_turn_taken run.now.turns.plan.turn.steps m) ahead.old.turns.items privates.old.items
        kernel.old
        → PartsAhead run.now.turns.config.now run.now.turns.plan.turn.steps
        (m.rounds + (ahead.old.later + 1))
        (phased_rounds run.now.turns.plan.turn.steps (numbers_from 1 (length privates.old.items))
        (ahead.old.later + 1) m) ahead.new.turns.items privates.new.items kernel.new }
    ensures none { (i : ℕ) → turns_ahead ahead.new.turns.items i ≡ 0 }
    ensures ready { IsReadyAhead C.most 0 (length privates.new.items) ahead.new.turns.items
        privates.new.items kernel.new }
    ensures count { length privates.new.items ≡ length privates.old.items }
{
    finish_round(run, round_time, ahead, privates, kernel);
    let later = ahead.later;
    let mut computed = true;
    for next in 0..later {
        let round = index + next as usize + 1;
        let round_time = run.turns.config.round_time(run.turns.done + round as u64);
        if make_turns(run, round_time, ahead, privates, kernel) {
            computed = false;
        }
        finish_round(run, round_time, ahead, privates, kernel);
    }
    computed
}

// Makes the rounds, of which the private turns of the first one are made: those in which all
// processes are ahead at once, and the others one by one. Returns whether all private turns of the
// others were made ahead, or had no step.
fn finish_rounds<'a, C: Course, G: TurnGate>(
    run: &Run<'a, C, G>,
    index: usize,
    ahead: &mut RunAheadTurns,
    privates: &mut Vec<PrivateBox>,
    kernel: &mut Kernel,
) -> bool
    requires within { index + ahead.old.later < length run.now.cells.now }
    requires ready { IsReadyAhead C.most ahead.old.later 0 ahead.old.turns.items privates.old.items
        kernel.old }
    ensures made { (m : Machine)
        → m.program ≡ view.program run.now.turns.config.now.program
        → m.tick ≡ run.now.turns.config.now.tick.rounds → m.rounds ≡ run.now.turns.done + index
        → PartsAhead run.now.turns.config.now run.now.turns.plan.turn.steps (m.rounds + 1)
        (with_turn_taken run.now.turns.plan.turn.steps m) ahead.old.turns.items privates.old.items
        kernel.old
        → PartsAhead run.now.turns.config.now run.now.turns.plan.turn.steps
        (m.rounds + (ahead.old.later + 1))
        (phased_rounds run.now.turns.plan.turn.steps (numbers_from 1 (length privates.old.items))
        (ahead.old.later + 1) m) ahead.new.turns.items privates.new.items kernel.new }
    ensures none { (i : ℕ) → turns_ahead ahead.new.turns.items i ≡ 0 }
    ensures ready { IsReadyAhead C.most 0 (length privates.new.items) ahead.new.turns.items
        privates.new.items kernel.new }
    ensures count { length privates.new.items ≡ length privates.old.items }
{
    let passed = pass_rounds(run, ahead, privates, kernel);
    let index = index + passed as usize;
    let round_time = run.turns.config.round_time(run.turns.done + index as u64);
    finish_one_by_one(run, index, round_time, ahead, privates, kernel)
}

/// Makes `count` rounds of a run at once, from the one at this index on, if the hook does nothing
/// and there are threads to help. Returns whether it did. Otherwise only reserved room has changed.
pub(crate) fn run_ahead<'a, C: Course, R: Wait, G: TurnGate>(
    rt: &R,
    run: &Run<'a, C, G>,
    index: usize,
    count: u32,
    coordinator: &mut Coordinator<'a, C>,
    parts: &mut Parts,
) -> bool
    requires some { 0 < count }
    requires within { index + count ≤ length run.now.cells.now }
    ensures made { result ≡ true → PartsAfter run.now.turns.config.now
        run.now.turns.plan.turn.steps (run.now.turns.done + index) count parts.old parts.new }
    ensures kept { result ≡ false → PartsAfter run.now.turns.config.now
        run.now.turns.plan.turn.steps (run.now.turns.done + index) 0 parts.old parts.new }
    ensures count { length parts.new.privates.items ≡ length parts.old.privates.items }
{
    if !run.turns.gate.allows_batching() {
        return false;
    }
    let round_time = run.turns.config.round_time(run.turns.done + index as u64);
    let Parts { privates, kernel } = parts;
    let shares = shares_of(run, coordinator, privates, round_time, count);
    if shares.alone {
        coordinator.run_ahead_size.slow_down();
        return false;
    }
    let Ok(mut ahead) = RunAheadTurns::none(run.alloc, privates.len(), count - 1) else {
        return false;
    };
    let Ok(round) = open_round(
        rt,
        run,
        coordinator,
        index,
        round_time,
        shares,
        privates,
        kernel,
    ) else {
        return false;
    };
    take_all_back(rt, run, coordinator, &round, &mut ahead, privates, kernel);
    let computed = finish_rounds(run, index, &mut ahead, privates, kernel);
    coordinator.moved = true;
    coordinator.run_ahead_size.adapt(computed);
    true
}
