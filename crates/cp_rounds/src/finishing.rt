//! How the calling thread finishes the turns of a round: it takes private states back from the
//! handoff queue, or makes the private turns itself if nobody else does. It makes the kernel turns
//! in order of process. A process that has nothing to do costs a few comparisons.

ghost use Rattle.std.specs.Prelude.{◌≡◌, ◌≤◌, ◌<◌, ◌+◌, ◌-◌, ◌*◌, ℕ, List, true, Some, length, slice_get, take, vec_capacity, vec_len};
ghost use Rattle.cp_kernel.specs.KernelOf.{HasRoomForAskers, HasRoomForBytes, IsAmong};
ghost use Rattle.cp_kernel.specs.Turns.{IsTurned};
ghost use Rattle.cp_kernel.specs.declared.kernel.Kernel.{Kernel};
ghost use Rattle.cp_private.specs.Resting.{is_idle};
ghost use Rattle.cp_private.specs.Rooms.{HasRoomFor};
ghost use Rattle.cp_program.specs.View as view;
ghost use Rattle.cp_rounds_handoff.specs.Inputs.{input_at};
ghost use Rattle.cp_rounds_handoff.specs.Numbers.{AreNumbered};
ghost use Rattle.cp_rounds_handoff.specs.Tasks.{AreHere, AreInPlace, IsTaken, is_none};
ghost use Rattle.cp_rounds_handoff.specs.Turned.{round_time_of};
ghost use Rattle.cp_rounds.specs.Made.{IsReady};
ghost use Rattle.cp_rounds.specs.Runs.{TurnsTaken};

use crate::coordinator::Coordinator;
use crate::run::Run;
use cp_kernel::kernel::Kernel;
use cp_kernel::turns::{has_no_kernel_turn, kernel_turn};
use cp_private::private_box::PrivateBox;
use cp_rounds_handoff::gate::TurnGate;
use cp_rounds_handoff::open_round::OpenRound;
use cp_rounds_handoff::round_time::RoundTime;
use cp_rounds_handoff::task::Course;
use cp_rounds_handoff::turns::turn_in_place;
use std::sync::Wait;

// Takes the private state of a process from the handoff queue, after its private turn. It is kept
// out of the loop over all processes.
#[inline(never)]
fn take_from_handoff<'a, C: Course, R: Wait, G: TurnGate>(
    rt: &R,
    run: &Run<'a, C, G>,
    coordinator: &mut Coordinator<'a, C>,
    round: &OpenRound<'a, C>,
    process: usize,
    private: &mut PrivateBox,
)
    ensures { IsTaken (C.turned round.now.round_time) (C.input (process - 1)) C.most
        round.now.start.value.items process private.new }
{
    coordinator.take(rt, run, round, process, 1, private);
}

// Makes the private turn of a process where its private state is. It is kept out of the loop over
// all processes.
#[inline(never)]
fn turn_here<'a, C: Course, G: TurnGate>(
    run: &Run<'a, C, G>,
    round: &OpenRound<'a, C>,
    process: usize,
    private: &mut PrivateBox,
)
    requires some { 0 < process }
    requires here { slice_get round.now.start.value.items (process - 1) ≡ Some private.old }
    ensures { IsTaken (C.turned round.now.round_time) (C.input (process - 1)) C.most
        round.now.start.value.items process private.new }
{
    let private = private.private_mut();
    let turn = run.turns.plan.turn;
    turn_in_place(run.turns.config, private, process, round.round_time, turn);
}

// Brings back a private state after its private turn, which it has made where it is if it rests.
#[inline(always)]
fn bring_back<'a, C: Course, R: Wait, G: TurnGate>(
    rt: &R,
    run: &Run<'a, C, G>,
    coordinator: &mut Coordinator<'a, C>,
    round: &OpenRound<'a, C>,
    process: usize,
    private: &mut PrivateBox,
)
    requires some { 0 < process }
    requires left { is_idle round.now.round_time.wakes private.old ≡ true
        → slice_get round.now.start.value.items (process - 1) ≡ Some private.old }
    requires here { is_none round.now.token ≡ true
        → slice_get round.now.start.value.items (process - 1) ≡ Some private.old }
    ensures taken { IsTaken (C.turned round.now.round_time) (C.input (process - 1)) C.most
        round.now.start.value.items process private.new }
{
    if private.private().is_idle(round.round_time.wakes) {
        return;
    }
    if round.is_alone() {
        turn_here(run, round, process, private);
    } else {
        take_from_handoff(rt, run, coordinator, round, process, private);
    }
}

/// Makes the kernel turn of a process, and calls the hook before it.
#[inline(always)]
pub(crate) fn kernel_turn_of<'a, C: Course, G: TurnGate>(
    run: &Run<'a, C, G>,
    round_time: RoundTime,
    process: usize,
    private: &mut PrivateBox,
    kernel: &mut Kernel,
)
    requires among { IsAmong kernel.old private.old.number }
    requires asking { HasRoomForAskers kernel.old 1 }
    requires output { HasRoomFor private.old run.now.turns.plan.turn.steps }
    requires transcript { HasRoomForBytes kernel.old private.old.number
        (vec_len private.old.output + 11 * run.now.turns.plan.turn.steps) }
    ensures turn { IsTurned (view.program run.now.turns.config.now.program) round_time.clock
        run.now.turns.plan.turn.steps kernel.old kernel.new private.old private.new
        (input_at run.now.turns.config.now.inputs.items (process - 1)) }
    ensures asking { (n : ℕ) → HasRoomForAskers kernel.old (n + 1) → HasRoomForAskers kernel.new n }
    ensures left { (n : ℕ) → HasRoomForBytes kernel.old private.old.number
        (vec_len private.old.output + 11 * run.now.turns.plan.turn.steps + n)
        → HasRoomForBytes kernel.new private.old.number n }
    ensures number { private.new.number ≡ private.old.number }
    ensures empty { vec_len private.new.output ≡ 0 }
    ensures capacity { vec_capacity private.old.output ≤ vec_capacity private.new.output }
{
    run.turns.gate.kernel(process);
    let input = run.turns.config.input(process);
    kernel_turn(
        &run.turns.config.program,
        kernel,
        private.private_mut(),
        input,
        round_time.clock,
        run.turns.plan.turn,
    );
}

// Brings back the private state at an index after its private turn, and makes its kernel turn. It
// is kept out of the loop over all processes.
#[inline(never)]
fn finish_moving<'a, C: Course, R: Wait, G: TurnGate>(
    rt: &R,
    run: &Run<'a, C, G>,
    coordinator: &mut Coordinator<'a, C>,
    round: &OpenRound<'a, C>,
    index: usize,
    privates: &mut Vec<PrivateBox>,
    kernel: &mut Kernel,
)
    requires within { index < length privates.old.items }
    requires count { length privates.old.items ≡ length round.now.start.value.items }
    requires left { AreInPlace round.now.round_time.wakes index round.now.start.value.items
        privates.old.items }
    requires here { AreHere (is_none round.now.token) index round.now.start.value.items
        privates.old.items }
    requires ready { IsReady C.most index round.now.start.value.items kernel.old }
    ensures taken { (rounds : ℕ) (k : Kernel)
        → round.now.round_time ≡ round_time_of run.now.turns.config.now.tick.rounds rounds
        → TurnsTaken run.now.turns.config.now run.now.turns.plan.turn.steps rounds
        round.now.start.value.items k (take index privates.old.items) kernel.old
        → TurnsTaken run.now.turns.config.now run.now.turns.plan.turn.steps rounds
        round.now.start.value.items k (take (index + 1) privates.new.items) kernel.new }
    ensures numbers { AreNumbered (take index privates.old.items)
        → AreNumbered (take (index + 1) privates.new.items) }
    ensures left { AreInPlace round.now.round_time.wakes (index + 1)
        round.now.start.value.items privates.new.items }
    ensures here { AreHere (is_none round.now.token) (index + 1) round.now.start.value.items
        privates.new.items }
    ensures count { length privates.new.items ≡ length privates.old.items }
    ensures ready { IsReady C.most (index + 1) round.now.start.value.items kernel.new }
{
    let process = index + 1;
    coordinator.moved = true;
    let private = &mut privates[index];
    bring_back(rt, run, coordinator, round, process, private);
    kernel_turn_of(run, round.round_time, process, private, kernel);
}

// Whether a process has no step to make in the round, nor output to move: then both of its
// turns leave everything as it is.
#[inline(always)]
fn makes_no_step<'a, C: Course, G: TurnGate>(
    run: &Run<'a, C, G>,
    round: &OpenRound<'a, C>,
    process: usize,
    private: &PrivateBox,
    kernel: &Kernel,
) -> bool
    requires some { 0 < process }
    requires left { is_idle round.now.round_time.wakes private.now ≡ true
        → slice_get round.now.start.value.items (process - 1) ≡ Some private.now }
    ensures taken { result ≡ true → IsTaken (C.turned round.now.round_time) (C.input (process - 1))
        C.most round.now.start.value.items process private.now }
    ensures turned { result ≡ true → (clock n : ℕ) (input : List ℕ)
        → IsTurned (view.program run.now.turns.config.now.program) clock n kernel.now kernel.now
        private.now private.now input }
{
    let private = private.private();
    // The output is tested first, so that what `is_idle` finds is known when the kernel turn is
    // tested.
    private.output().is_empty()
        && private.is_idle(round.round_time.wakes)
        && has_no_kernel_turn(&run.turns.config.program, kernel, private)
}

// Finishes the turns of the process at an index. If the process is still, a few comparisons are
// enough.
#[inline(always)]
fn finish_next<'a, C: Course, R: Wait, G: TurnGate>(
    rt: &R,
    run: &Run<'a, C, G>,
    coordinator: &mut Coordinator<'a, C>,
    round: &OpenRound<'a, C>,
    index: usize,
    privates: &mut Vec<PrivateBox>,
    kernel: &mut Kernel,
)
    requires within { index < length privates.old.items }
    requires count { length privates.old.items ≡ length round.now.start.value.items }
    requires left { AreInPlace round.now.round_time.wakes index round.now.start.value.items
        privates.old.items }
    requires here { AreHere (is_none round.now.token) index round.now.start.value.items
        privates.old.items }
    requires ready { IsReady C.most index round.now.start.value.items kernel.old }
    ensures taken { (rounds : ℕ) (k : Kernel)
        → round.now.round_time ≡ round_time_of run.now.turns.config.now.tick.rounds rounds
        → TurnsTaken run.now.turns.config.now run.now.turns.plan.turn.steps rounds
        round.now.start.value.items k (take index privates.old.items) kernel.old
        → TurnsTaken run.now.turns.config.now run.now.turns.plan.turn.steps rounds
        round.now.start.value.items k (take (index + 1) privates.new.items) kernel.new }
    ensures numbers { AreNumbered (take index privates.old.items)
        → AreNumbered (take (index + 1) privates.new.items) }
    ensures left { AreInPlace round.now.round_time.wakes (index + 1)
        round.now.start.value.items privates.new.items }
    ensures here { AreHere (is_none round.now.token) (index + 1) round.now.start.value.items
        privates.new.items }
    ensures count { length privates.new.items ≡ length privates.old.items }
    ensures ready { IsReady C.most (index + 1) round.now.start.value.items kernel.new }
{
    let process = index + 1;
    if makes_no_step(run, round, process, &privates[index], kernel) {
        run.turns.gate.kernel(process);
        return;
    }
    finish_moving(rt, run, coordinator, round, index, privates, kernel);
}

// Makes all turns of a round: kernel turns alongside the private turns that are left at the handoff
// queue, or each after the private turn of its process, if the calling thread is alone. It isn't
// inlined, so that its loop keeps in registers what a process costs that can't move.
#[inline(never)]
pub(crate) fn finish_all<'a, C: Course, R: Wait, G: TurnGate>(
    rt: &R,
    run: &Run<'a, C, G>,
    coordinator: &mut Coordinator<'a, C>,
    round: &OpenRound<'a, C>,
    privates: &mut Vec<PrivateBox>,
    kernel: &mut Kernel,
)
    requires count { length privates.old.items ≡ length round.now.start.value.items }
    requires left { AreInPlace round.now.round_time.wakes 0 round.now.start.value.items
        privates.old.items }
    requires here { AreHere (is_none round.now.token) 0 round.now.start.value.items
        privates.old.items }
    requires ready { IsReady C.most 0 round.now.start.value.items kernel.old }
    ensures taken { (rounds : ℕ)
        → round.now.round_time ≡ round_time_of run.now.turns.config.now.tick.rounds rounds
        → TurnsTaken run.now.turns.config.now run.now.turns.plan.turn.steps rounds
        round.now.start.value.items kernel.old privates.new.items kernel.new }
    ensures numbers { AreNumbered privates.new.items }
    ensures count { length privates.new.items ≡ length privates.old.items }
    ensures stages { length kernel.new.stages.items ≡ length privates.new.items }
{
    for i in 0..privates.len() {
        finish_next(rt, run, coordinator, round, i, privates, kernel);
    }
    coordinator.end_wave(rt, run);
}
