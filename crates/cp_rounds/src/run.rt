//! Rounds by threads that are kept from one round to the next. The module `round` makes each round.

ghost use Rattle.std.specs.Prelude.{◌≡◌, ◌<◌, ◌≤◌, ◌+◌, ◌-◌, ◌*◌, ◌^◌, IfErr, IfOk, length, slice_get};
ghost use Rattle.cp_rounds_handoff.specs.Turned.{AreTimes};
ghost use Rattle.cp_rounds_handoff.specs.Tasks.{IsCourseOf};
ghost use Rattle.cp_rounds.specs.Runs.{AreNamed, PartsAfter, name_of};
ghost use Rattle.cp_rounds.specs.declared.parts.Parts.{Parts};

use crate::coordinator::Coordinator;
use crate::parts::Parts;
use crate::round::make_round;
use crate::run_ahead::run_ahead;
use cp_base_config::plan::Plan;
use cp_rounds_handoff::config::MachineConfig;
use cp_rounds_handoff::gate::TurnGate;
use cp_rounds_handoff::handoff::HandoffQueue;
use cp_rounds_handoff::handoff_turns::HandoffTurns;
use cp_rounds_handoff::law::configs_are_shared;
use cp_rounds_handoff::run_ahead_size::RunAheadSize;
use cp_rounds_handoff::sharing::drawn_plan;
use cp_rounds_handoff::task::{Course, Start};
use cp_rounds_workers::{Mailboxes, Sheet, Wave, start};
use std::alloc::{AllocError, Global};
use std::marker::Brand;
use std::sync::{OnceLock, Wait};
use std::thread;
use std::thread::{Scope, Threads};

/// The cell at an index.
pub(crate) fn cell_at<'a, T>(cells: &'a [OnceLock<T>], index: usize) -> &'a OnceLock<T>
    requires { index < length cells.now }
    ensures { result.now.id ≡ name_of (slice_get cells.now index) }
{
    &cells[index]
}

/// What a run holds: how turns are made, and a cell for each of its rounds and waves.
#[derive(Drop)]
pub struct Run<'a, C: Course, G: TurnGate> {
    /// The allocator from which the waves take their memory.
    pub(crate) alloc: Global,
    pub(crate) turns: HandoffTurns<'a, C, G>,
    pub(crate) mailboxes: Mailboxes<'a, C>,
    /// The cells of the starts of its rounds.
    pub(crate) cells: &'a [OnceLock<Start>],
    /// The cells of the sheets of its waves, and of one more, which ends the threads.
    pub(crate) sheets: &'a [OnceLock<Sheet>],
    ghost cell_names: { AreNamed C.cell cells.now },
    ghost sheet_names: { AreNamed C.sheet sheets.now },
    ghost few: { turns.done + length cells.now < 2 ^ 64 },
    ghost room: { length cells.now * turns.waves < length sheets.now },
}

impl<'a, C: Course, G: TurnGate> Run<'a, C, G> {
    /// The number of a wave of a round, among all waves of the run.
    pub(crate) fn number_of(&self, round: usize, wave: usize) -> usize
        requires round { round < length self.now.cells.now }
        requires wave { wave < self.now.turns.waves }
        ensures { result < length self.now.sheets.now }
    {
        // The number is below this one, so it fits.
        let all = self.sheets.len();
        prove!(all > 0);
        round * self.turns.waves + wave
    }

    // Makes the round at an index, and perhaps some of those after it. Returns how many were made.
    fn make_next<R: Wait>(
        &self,
        rt: &R,
        round: usize,
        coordinator: &mut Coordinator<'a, C>,
        parts: &mut Parts,
    ) -> Result<usize, AllocError>
        requires round { round < length self.now.cells.now }
        ensures some { IfOk result (λ n. 0 < n) }
        ensures few { IfOk result (λ n. round + n ≤ length self.now.cells.now) }
        ensures made { IfOk result (λ n. PartsAfter self.now.turns.config.now
            self.now.turns.plan.turn.steps (self.now.turns.done + round) n parts.old parts.new) }
        ensures kept { IfErr result (λ _. PartsAfter self.now.turns.config.now
            self.now.turns.plan.turn.steps (self.now.turns.done + round) 0 parts.old parts.new) }
        ensures count { length parts.new.privates.items ≡ length parts.old.privates.items }
    {
        let left = self.cells.len() - round;
        let count = (coordinator.run_ahead_size.rounds() as usize).min(left) as u32;
        if count > 1 && run_ahead(rt, self, round, count, coordinator, parts) {
            return Ok(count as usize);
        }
        make_round(rt, self, round, coordinator, parts)?;
        Ok(1)
    }

    // Makes a round for each cell. `Err` has the number of rounds made.
    fn run_rounds<R: Wait>(
        &self,
        rt: &R,
        coordinator: &mut Coordinator<'a, C>,
        parts: &mut Parts,
    ) -> Result<(), usize>
        ensures made { IfOk result (λ _. PartsAfter self.now.turns.config.now
            self.now.turns.plan.turn.steps self.now.turns.done (length self.now.cells.now) parts.old
            parts.new) }
        ensures partly { IfErr result (λ n. (n < length self.now.cells.now)
            × PartsAfter self.now.turns.config.now self.now.turns.plan.turn.steps
            self.now.turns.done n parts.old parts.new) }
        ensures count { length parts.new.privates.items ≡ length parts.old.privates.items }
    {
        let mut round = 0;
        'rounds: while round < self.cells.len() {
            match self.make_next(rt, round, coordinator, parts) {
                Ok(count) => round += count,
                Err(_) => return Err(round),
            }
        }
        Ok(())
    }
}

// A last wave without chunks, whose stop ends the threads of a run.
fn ending<'a, C: Course, R: Wait, G: TurnGate>(
    rt: &R,
    run: &Run<'a, C, G>,
) -> Result<Wave<'a, C>, AllocError> {
    let last = run.sheets.len() - 1;
    let workers = run.mailboxes.places().saturating_add(1);
    Wave::new(rt, run.alloc, cell_at(run.sheets, last), last, 0, workers)
}

// How many processes a chunk has at most: no more than its wave.
fn slots_of(plan: &Plan) -> usize {
    plan.chunk.min(plan.wave) as usize
}

// Starts the threads of a run, and makes its rounds. The stop is called when it returns, so that
// all threads end.
fn with_workers<'s, 'a, E, C: Course + Send + Sync, R: Threads + Wait + Sync, G: TurnGate>(
    rt: &'s R,
    scope: &'s Scope<'s, E>,
    run: &'s Run<'a, C, G>,
    mut parts: Parts,
) -> (Parts, Result<(), usize>)
    requires some { 0 < length run.now.cells.now }
    ensures made { IfOk result.1 (λ _. PartsAfter run.now.turns.config.now
        run.now.turns.plan.turn.steps run.now.turns.done (length run.now.cells.now)
        parts result.0) }
    ensures partly { IfErr result.1 (λ n. (n < length run.now.cells.now)
        × PartsAfter run.now.turns.config.now run.now.turns.plan.turn.steps
        run.now.turns.done n parts result.0) }
    ensures count { length result.0.privates.items ≡ length parts.privates.items }
{
    configs_are_shared();
    let Ok(ending) = ending(rt, run) else {
        return (parts, Err(0));
    };
    let HandoffTurns { config, plan, .. } = &run.turns;
    let run_ahead_size = RunAheadSize::first(&config.program, plan.turn);
    let Ok(mut coordinator) = Coordinator::new(run.alloc, slots_of(plan), run_ahead_size) else {
        return (parts, Err(0));
    };
    let made = match start(rt, scope, &run.mailboxes, &run.turns) {
        Ok(()) => run.run_rounds(rt, &mut coordinator, &mut parts),
        Err(_) => Err(0),
    };
    ending.stop(rt, &run.mailboxes);
    (parts, made)
}

/// Holds the parts of a machine while its rounds are made.
///
/// What a scope promises about its result is known outside the scope if the type of the result is a
/// parameter.
pub trait Holder: Drop {
    ghost holds: { Self → Parts };

    fn of(parts: Parts) -> Self
        ensures same { holds result ≡ parts };

    fn into_parts(self) -> Parts
        ensures same { result ≡ holds self };
}

impl Holder for Parts {
    ghost holds = { λ p. p };

    fn of(parts: Parts) -> Parts {
        parts
    }

    fn into_parts(self) -> Parts {
        self
    }
}

// Makes the rounds of a run in a scope of threads, which are kept through all rounds.
fn in_thread_scope<
    's,
    'a,
    C: Course + Send + Sync,
    R: Threads + Wait + Sync,
    G: TurnGate,
    H: Holder,
>(rt: &'s R, run: &'s Run<'a, C, G>, held: H) -> (H, Result<(), usize>)
    requires some { 0 < length run.now.cells.now }
    ensures made { IfOk result.1 (λ _. PartsAfter run.now.turns.config.now
        run.now.turns.plan.turn.steps run.now.turns.done (length run.now.cells.now) (H.holds held)
        (H.holds result.0)) }
    ensures partly { IfErr result.1 (λ n. (n < length run.now.cells.now)
        × PartsAfter run.now.turns.config.now run.now.turns.plan.turn.steps run.now.turns.done n
        (H.holds held) (H.holds result.0)) }
    ensures count { length (H.holds result.0).privates.items ≡ length
        (H.holds held).privates.items }
{
    thread::scope(
        thread::scope_env(),
        rt,
        move |scope| -> (H, Result<(), usize>)
            requires { 0 < length run.now.cells.now }
            ensures made { IfOk result.1 (λ _. PartsAfter run.entry.now.turns.config.now
                run.entry.now.turns.plan.turn.steps run.entry.now.turns.done
                (length run.entry.now.cells.now) (H.holds held) (H.holds result.0)) }
            ensures partly { IfErr result.1 (λ n. (n < length run.entry.now.cells.now)
                × PartsAfter run.entry.now.turns.config.now run.entry.now.turns.plan.turn.steps
                run.entry.now.turns.done n (H.holds held) (H.holds result.0)) }
            ensures count { length (H.holds result.0).privates.items ≡ length
                (H.holds held).privates.items }
        {
            let parts = held.into_parts();
            let (parts, made) = with_workers(rt, scope, run, parts);
            (H::of(parts), made)
        },
    )
}

/// Rounds to make: what their machine runs, how many it has made before, how each is made, and what
/// is called before each turn.
#[derive(Clone, Copy)]
pub struct Rounds<'a, G> {
    pub config: &'a MachineConfig,
    pub done: u64,
    pub plan: &'a Plan,
    pub gate: &'a G,
}

// Makes a round for each cell, with a handoff queue and a pool of workers for these rounds.
fn with_worker_pool<C: Course + Send + Sync, R: Threads + Wait + Sync, G: TurnGate>(
    rt: &R,
    alloc: Global,
    cells: &[OnceLock<Start>],
    sheets: &[OnceLock<Sheet>],
    waves: usize,
    rounds: &Rounds<'_, G>,
    parts: Parts,
) -> (Parts, Result<(), usize>)
    requires some { 0 < length cells.now }
    requires cells { AreNamed C.cell cells.now }
    requires sheets { AreNamed C.sheet sheets.now }
    requires room { length cells.now * waves < length sheets.now }
    requires times { AreTimes C.round_time rounds.now.config.now rounds.now.done }
    requires few { rounds.now.done + length cells.now < 2 ^ 64 }
    requires course { IsCourseOf C.without_kernel C.turned C.input C.most rounds.now.config.now
        rounds.now.plan.now.turn.steps }
    ensures made { IfOk result.1
        (λ _. PartsAfter rounds.now.config.now rounds.now.plan.now.turn.steps rounds.now.done
        (length cells.now) parts result.0) }
    ensures partly { IfErr result.1
        (λ n. (n < length cells.now) × PartsAfter rounds.now.config.now
        rounds.now.plan.now.turn.steps rounds.now.done n parts result.0) }
    ensures count { length result.0.privates.items ≡ length parts.privates.items }
{
    let Rounds {
        config,
        done,
        plan,
        gate,
    } = *rounds;
    let processes = parts.privates.len();
    let plan = drawn_plan(plan, processes, gate.allows_batching());
    let threads = plan.threads(processes);
    let chunks = plan.chunks(0, processes);
    let batches = chunks.saturating_mul(waves);
    let Ok(handoff) = HandoffQueue::<C>::new(alloc, batches, slots_of(&plan)) else {
        return (parts, Err(0));
    };
    let Ok(mailboxes) = Mailboxes::<C>::new(alloc, threads.saturating_sub(1)) else {
        return (parts, Err(0));
    };
    let run = Run {
        alloc,
        turns: HandoffTurns {
            handoff,
            config,
            plan,
            gate,
            done,
            waves,
            chunks,
        },
        mailboxes,
        cells,
        sheets,
    };
    in_thread_scope(rt, &run, parts)
}

// This many cells, none of them written.
fn empty_cells<T: Drop>(alloc: Global, count: usize) -> Result<Vec<OnceLock<T>>, AllocError>
    ensures { IfOk result (λ cells. length cells.items ≡ count) }
{
    let mut cells = Vec::with_capacity(alloc, count)?;
    for _cell in 0..count {
        cells.push(OnceLock::new())?;
    }
    Ok(cells)
}

// A cell for the sheet of each wave, and one more.
fn empty_sheets(
    alloc: Global,
    rounds: usize,
    waves: usize,
) -> Result<Vec<OnceLock<Sheet>>, AllocError>
    ensures { IfOk result (λ sheets. rounds * waves < length sheets.items) }
{
    let Some(all) = rounds.checked_mul(waves) else {
        return Err(AllocError);
    };
    let Some(count) = all.checked_add(1) else {
        return Err(AllocError);
    };
    empty_cells(alloc, count)
}

/// Makes this many rounds, with a cell for each round and each wave, by the threads of their plan,
/// which are started once. All threads have ended when it returns.
///
/// # Errors
///
/// The number of rounds made, if memory ran out in the next one or a thread could not be started.
pub fn with_cells<R: Threads + Wait + Sync, G: TurnGate>(
    rt: &R,
    alloc: Global,
    count: usize,
    rounds: &Rounds<'_, G>,
    parts: Parts,
) -> (Parts, Result<(), usize>)
    requires some { 0 < count }
    requires few { rounds.now.done + count < 2 ^ 64 }
    ensures made { IfOk result.1 (λ _. PartsAfter rounds.now.config.now
        rounds.now.plan.now.turn.steps rounds.now.done count parts result.0) }
    ensures partly { IfErr result.1
        (λ n. (n < count) × PartsAfter rounds.now.config.now rounds.now.plan.now.turn.steps
        rounds.now.done n parts result.0) }
    ensures count { length result.0.privates.items ≡ length parts.privates.items }
{
    let waves = rounds.plan.waves(parts.privates.len());
    let Ok(cells) = empty_cells(alloc, count) else {
        return (parts, Err(0));
    };
    let Ok(sheets) = empty_sheets(alloc, count, waves) else {
        return (parts, Err(0));
    };
    with_worker_pool::<Brand, R, G>(rt, alloc, &cells, &sheets, waves, rounds, parts)
}
