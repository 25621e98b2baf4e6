//! A round of a run, by threads that draw the chunks of its waves.
//!
//! Everything that can fail comes before the first turn of a round: reserving room for all output
//! and for all askers, and the boards of all waves. The turns are then made in place, so the cost
//! of a round is that of what happens in it, and no state is copied. A private state whose private
//! turn has no step to make isn't even put at the handoff queue, unless the hook has to be called
//! for it.

ghost use Rattle.std.specs.Prelude.{◌≡◌, ◌≢◌, ◌≤◌, ◌<◌, ◌+◌, ◌-◌, ◌*◌, ℕ, false, IfErr, IfOk, IfSome, length, vec_len};
ghost use Rattle.cp_kernel.specs.KernelOf.{HasRoomForBytes, kernel_of, transcripts_of};
ghost use Rattle.cp_kernel.specs.declared.kernel.Kernel.{Kernel};
ghost use Rattle.cp_rounds_handoff.specs.Numbers.{AreNumbered};
ghost use Rattle.cp_rounds_handoff.specs.Tasks.{AllFree, AreHere, AreInPlace, HasRoom, is_none};
ghost use Rattle.cp_rounds.specs.Made.{IsReadyFor};
ghost use Rattle.cp_rounds.specs.Runs.{AreSame, IsOpened, IsSame, PartsAfter};

use crate::closing::close_round;
use crate::coordinator::Coordinator;
use crate::finishing::finish_all;
use crate::parts::Parts;
use crate::run::{Run, cell_at};
use cp_base_config::turn::Turn;
use cp_kernel::kernel::Kernel;
use cp_private::private::Private;
use cp_private::private_box::PrivateBox;
use cp_rounds_handoff::gate::TurnGate;
use cp_rounds_handoff::handoff_turns::HandoffTurns;
use cp_rounds_handoff::open_round::OpenRound;
use cp_rounds_handoff::round_time::RoundTime;
use cp_rounds_handoff::run_ahead_size::RunAheadSize;
use cp_rounds_handoff::sharing::{Shares, helpers};
use cp_rounds_handoff::task::{Course, Start};
use cp_rounds_workers::Wave;
use std::alloc::AllocError;
use std::marker::PhantomData;
use std::snapshot::Snapshot;
use std::sync::{OnceToken, Wait};

// How many rounds made at once count as many. Fewer take little room, and are made by programs that
// seldom compute for long.
const MIN_BATCHED_ROUNDS: u32 = 8;

// Reserves room for what a process writes in so many rounds, in its transcript, and for what it
// writes in one, in its private state.
fn reserve_output(
    private: &mut Private,
    kernel: &mut Kernel,
    p: usize,
    turn: Turn,
    rounds: u32,
) -> Result<(), AllocError>
    ensures private { IsSame private.old private.new }
    ensures kernel { kernel_of kernel.new ≡ kernel_of kernel.old }
    ensures gates { kernel.new.gates ≡ kernel.old.gates }
    ensures transcripts { transcripts_of kernel.new ≡ transcripts_of kernel.old }
    ensures others { (q n : ℕ) → q - 1 ≢ p - 1 → HasRoomForBytes kernel.old q n
        → HasRoomForBytes kernel.new q n }
    ensures free { IfOk result (λ _. HasRoom (11 * turn.steps) false private.new) }
    ensures room { IfOk result (λ _. HasRoomForBytes kernel.new p
        (vec_len private.new.output + rounds * (11 * turn.steps + 11 * turn.steps))) }
{
    private.reserve_round(turn)?;
    let bytes = private.output().len() + rounds as usize * (22 * turn.steps() as usize);
    kernel.reserve_bytes(p, bytes)?;
    Ok(())
}

// Reserves room for what all processes write in so many rounds, and for all of them as askers of
// each gate in each round.
fn reserve_room(
    privates: &mut Vec<PrivateBox>,
    kernel: &mut Kernel,
    turn: Turn,
    rounds: u32,
) -> Result<(), AllocError>
    requires numbers { AreNumbered privates.old.items }
    requires stages { length kernel.old.stages.items ≡ length privates.old.items }
    ensures same { AreSame privates.old.items kernel.old privates.new.items kernel.new }
    ensures free { IfOk result (λ _. AllFree (11 * turn.steps) privates.new.items) }
    ensures ready { IfOk result
        (λ _. IsReadyFor (11 * turn.steps) rounds privates.new.items kernel.new) }
{
    let Some(askers) = (rounds as usize).checked_mul(privates.len()) else {
        return Err(AllocError);
    };
    kernel.reserve_askers(askers)?;
    for i in 0..privates.len() {
        let private = privates[i].private_mut();
        reserve_output(private, kernel, i + 1, turn, rounds)?;
    }
    Ok(())
}

// The number of private turns of a round that are worth sharing: those of all processes if the hook
// has to be called for them, and otherwise of those that don't rest, if there are threads to help.
// If this number is wrong, the calling thread makes the turns alone.
fn turns_to_share<'a, C: Course, G: TurnGate>(
    run: &Run<'a, C, G>,
    coordinator: &Coordinator<'a, C>,
    privates: &[PrivateBox],
    of_all: bool,
    wakes: bool,
) -> usize {
    if of_all {
        return privates.len();
    }
    if run.mailboxes.places() == 0 || !coordinator.moved {
        return 0;
    }
    let mut turns = 0usize;
    for private in privates {
        if !private.private().is_idle(wakes) {
            turns = turns.wrapping_add(1);
        }
    }
    turns
}

// How the private turns of so many rounds are shared out.
pub(crate) fn shares_of<'a, C: Course, G: TurnGate>(
    run: &Run<'a, C, G>,
    coordinator: &Coordinator<'a, C>,
    privates: &[PrivateBox],
    round_time: RoundTime,
    rounds: u32,
) -> Shares
    ensures { result.rounds ≡ rounds }
{
    let of_all = !run.turns.gate.allows_batching();
    let turns = turns_to_share(run, coordinator, privates, of_all, round_time.wakes);
    let helpers = helpers(turns, of_all, run.turns.plan.turn, rounds).min(run.mailboxes.places());
    let alone = helpers == 0 && !of_all;
    Shares {
        rounds,
        turns: if alone { 0 } else { turns },
        helpers,
        alone,
    }
}

// The waves of a round of so many private turns, the first one last, for this many workers.
fn waves_of<'a, C: Course, R: Wait, G: TurnGate>(
    rt: &R,
    run: &Run<'a, C, G>,
    round: usize,
    turns: usize,
    workers: usize,
) -> Result<Vec<Wave<'a, C>>, AllocError>
    requires round { round < length run.now.cells.now }
{
    let count = run.turns.plan.waves(turns).min(run.turns.waves);
    let mut waves = Vec::with_capacity(run.alloc, count)?;
    for later in 0..count {
        let index = count - 1 - later;
        let chunks = run.turns.plan.chunks(index, turns);
        // The calling thread may still make the kernel turns of the wave before.
        let beside = if index > 0 { 1 } else { 0 };
        let number = run.number_of(round, index);
        let sheet = cell_at(run.sheets, number);
        waves.push(Wave::new(
            rt,
            run.alloc,
            sheet,
            number,
            chunks,
            workers.min(chunks + beside),
        )?)?;
    }
    Ok(waves)
}

// Publishes the private turns of a round at the handoff queue, unless the calling thread makes them
// alone.
fn publish_turns<'a, C: Course, R: Wait, G: TurnGate>(
    rt: &R,
    run: &Run<'a, C, G>,
    coordinator: &mut Coordinator<'a, C>,
    round: &OpenRound<'a, C>,
    privates: &mut Vec<PrivateBox>,
)
    requires start { round.now.start.value.items ≡ privates.old.items }
    ensures left { AreInPlace round.now.round_time.wakes 0 privates.old.items privates.new.items }
    ensures here { AreHere (is_none round.now.token) 0 privates.old.items privates.new.items }
    ensures count { length privates.new.items ≡ length privates.old.items }
{
    if round.is_alone() {
        return;
    }
    let HandoffTurns {
        handoff,
        plan,
        gate,
        ..
    } = &run.turns;
    let of_all = !gate.allows_batching();
    handoff.put_all(rt, plan, round, of_all, privates, &mut coordinator.tasks);
}

// Lets the threads draw the private turns of the round at this index, wave by wave, and returns
// what shows them its start, unless the calling thread makes them alone.
fn let_draw<'a, C: Course, R: Wait, G: TurnGate>(
    rt: &R,
    run: &Run<'a, C, G>,
    coordinator: &mut Coordinator<'a, C>,
    index: usize,
    shares: Shares,
    privates: &Vec<PrivateBox>,
) -> Result<Option<OnceToken<'a, Start>>, AllocError>
    requires index { index < length run.now.cells.now }
    ensures cell { IfOk result (λ token. IfSome token (λ t. t.of ≡ C.cell index)) }
    ensures start { IfOk result (λ token. IfSome token (λ t. t.value.value ≡ privates.now)) }
    ensures alone { IfOk result (λ token. is_none token ≡ shares.alone) }
{
    let Shares { turns, helpers, .. } = shares;
    if shares.alone {
        return Ok(None);
    }
    let waves = waves_of(rt, run, index, turns, helpers.saturating_add(1))?;
    // Only this round writes its cell, but no contract says so.
    let Ok(token) = cell_at(run.cells, index).set(rt, Snapshot::of(privates)) else {
        return Err(AllocError);
    };
    coordinator.begin(rt, run, waves);
    Ok(Some(token))
}

// The number of rounds for which room is reserved: the largest number that is ever made at once, as
// soon as many are, since room that grows little by little is copied each time.
fn rounds_of_room(run_ahead_size: &RunAheadSize, rounds: u32) -> u32
    ensures { rounds ≤ result }
{
    if rounds < MIN_BATCHED_ROUNDS {
        return rounds;
    }
    run_ahead_size.most().max(rounds)
}

/// Opens the round of a run at this index, and with it as many as are made at once: reserves room
/// for them, and lets the threads draw the private turns.
///
/// # Errors
///
/// `AllocError` if memory runs out. Only reserved room has then changed.
pub(crate) fn open_round<'a, C: Course, R: Wait, G: TurnGate>(
    rt: &R,
    run: &Run<'a, C, G>,
    coordinator: &mut Coordinator<'a, C>,
    index: usize,
    round_time: RoundTime,
    shares: Shares,
    privates: &mut Vec<PrivateBox>,
    kernel: &mut Kernel,
) -> Result<OpenRound<'a, C>, AllocError>
    requires index { index < length run.now.cells.now }
    requires time { round_time ≡ C.round_time index }
    requires numbers { AreNumbered privates.old.items }
    requires stages { length kernel.old.stages.items ≡ length privates.old.items }
    ensures kept { IfErr result
        (λ _. AreSame privates.old.items kernel.old privates.new.items kernel.new) }
    ensures index { IfOk result (λ round. round.index ≡ index) }
    ensures rounds { IfOk result (λ round. round.rounds ≡ shares.rounds) }
    ensures opened { IfOk result (λ round. IsOpened C.most round.round_time.wakes (is_none round.token)
        round.rounds privates.old.items kernel.old round.start.value.items privates.new.items
        kernel.new) }
{
    let room = rounds_of_room(&coordinator.run_ahead_size, shares.rounds);
    reserve_room(privates, kernel, run.turns.plan.turn, room)?;
    let token = let_draw(rt, run, coordinator, index, shares, privates)?;
    if round_time.wakes {
        coordinator.moved = false;
    }
    let round = OpenRound {
        start: Snapshot::of(privates),
        token,
        index,
        round_time,
        rounds: shares.rounds,
        of: PhantomData,
    };
    publish_turns(rt, run, coordinator, &round, privates);
    Ok(round)
}

/// Makes the round of a run at this index: room for all output, the waves, the private turns by
/// whichever thread draws them, the kernel turns in order of number, and the end of the round.
///
/// # Errors
///
/// `AllocError` if memory runs out. Only reserved room has then changed.
pub fn make_round<'a, C: Course, R: Wait, G: TurnGate>(
    rt: &R,
    run: &Run<'a, C, G>,
    index: usize,
    coordinator: &mut Coordinator<'a, C>,
    parts: &mut Parts,
) -> Result<(), AllocError>
    requires index { index < length run.now.cells.now }
    ensures made { IfOk result (λ _. PartsAfter run.now.turns.config.now
        run.now.turns.plan.turn.steps (run.now.turns.done + index) 1 parts.old parts.new) }
    ensures kept { IfErr result (λ _. PartsAfter run.now.turns.config.now
        run.now.turns.plan.turn.steps (run.now.turns.done + index) 0 parts.old parts.new) }
    ensures count { length parts.new.privates.items ≡ length parts.old.privates.items }
{
    let config = run.turns.config;
    let round_time = config.round_time(run.turns.done + index as u64);
    let Parts { privates, kernel } = parts;
    let shares = shares_of(run, coordinator, privates, round_time, 1);
    let round = open_round(
        rt,
        run,
        coordinator,
        index,
        round_time,
        shares,
        privates,
        kernel,
    )?;
    finish_all(rt, run, coordinator, &round, privates, kernel);
    close_round(config, privates, kernel);
    Ok(())
}
