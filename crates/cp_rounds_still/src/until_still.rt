//! Rounds until nothing can move any more.
//!
//! A machine that is still stays still, so the first still state is found by rounds in gallops:
//! each is twice as long as the last one, until one leads past that state. It is taken back, and
//! from then on each gallop is half as long as the last one.

ghost use Rattle.std.specs.Prelude.{◌≡◌, ◌<◌, ◌≤◌, ◌+◌, ◌-◌, ◌^◌, IfErr, IfOk, true};
ghost use Rattle.cp_rounds.specs.InStates.{MakesRounds};
ghost use Rattle.cp_rounds.specs.Views.{IsAfter, KeepsText, processes_of};
ghost use Rattle.cp_rounds_still.specs.Stillness.{Advances, NoneStillBefore, ReportsStill};

use crate::stillness::is_still;
use cp_base_config::plan::Plan;
use cp_law_stillness::law::lasting;
use cp_model_machine::law::rounds as rounds_are_run;
use cp_rounds::gate::TurnGate;
use cp_rounds::machine::{Machine, MemoryAt};
use std::sync::Wait;
use std::thread::Threads;

// The longest gallop. Compared with so many rounds, the copy that is kept of the machine's parts
// costs little.
const MAX_GALLOP_ROUNDS: u32 = 65_536;

// How many rounds are tried next.
#[derive(Clone, Copy)]
struct Gallop {
    rounds: u32,
    /// Whether a gallop led past the first still state.
    past: bool,
    ghost some: { 0 < rounds },
    ghost most: { rounds ≤ 65536 },
}

impl Gallop {
    fn first() -> Gallop
        ensures rounds { result.rounds ≡ 1 }
    {
        Gallop {
            rounds: 1,
            past: false,
        }
    }

    // The gallop after one that made its rounds.
    fn next(self) -> Gallop
        ensures past { result.past ≡ self.past }
        ensures less { self.past ≡ true → result.rounds ≤ self.rounds }
    {
        let rounds = if self.past {
            self.rounds / 2
        } else {
            (self.rounds * 2).min(MAX_GALLOP_ROUNDS)
        };
        Gallop {
            rounds: rounds.max(1),
            past: self.past,
        }
    }

    // The gallop after one of `tried` rounds, which led past the first still state.
    fn half(tried: u32) -> Gallop
        requires several { 1 < tried }
        ensures past { result.past ≡ true }
        ensures less { result.rounds < tried }
    {
        Gallop {
            rounds: (tried / 2).min(MAX_GALLOP_ROUNDS),
            past: true,
        }
    }
}

// Makes `rounds` rounds. If there is more than one and the machine is still after them, the machine
// is put back as it was. Returns whether the rounds were made.
fn advance<R: Threads + Wait + Sync, G: TurnGate>(
    rt: &R,
    machine: &mut Machine,
    rounds: u32,
    plan: &Plan,
    gate: &G,
) -> Result<bool, MemoryAt>
    requires some { 0 < rounds }
    requires count { machine.old.rounds + rounds < 2 ^ 64 }
    ensures made { IfOk result
        (λ made. Advances plan.now.turn.steps rounds made machine.old machine.new) }
    ensures several { IfOk result (λ made. rounds ≤ 1 → made ≡ true) }
    ensures partly { IfErr result (λ e. (1 ≤ e.0) × (e.0 ≤ rounds)
        × IsAfter plan.now.turn.steps (e.0 - 1) machine.old machine.new) }
{
    let Ok(before) = machine.checkpoint() else {
        return Err(MemoryAt(1));
    };
    machine.run(rt, rounds, plan, gate)?;
    if rounds > 1 && is_still(machine) {
        machine.restore(before);
        return Ok(false);
    }
    Ok(true)
}

/// Makes rounds until no process can move, and at most `limit`. Returns how many were made: the
/// machine is still after them or there are `limit`, and it was still after no fewer.
///
/// # Errors
///
/// `MemoryAt` with the first round for which memory ran out or a thread could not be started.
pub fn run_until_still<R: Threads + Wait + Sync, G: TurnGate>(
    rt: &R,
    machine: &mut Machine,
    limit: u32,
    plan: &Plan,
    gate: &G,
) -> Result<u32, MemoryAt>
    requires count { machine.old.rounds + limit < 2 ^ 64 }
    ensures most { IfOk result (λ n. n ≤ limit) }
    ensures done { IfOk result (λ n. IsAfter plan.now.turn.steps n machine.old machine.new) }
    ensures state { IfOk result (λ n. MakesRounds plan.now.turn.steps n machine.old machine.new) }
    ensures still { IfOk result (λ n. n < limit → ReportsStill machine.new true) }
    ensures first { IfOk result (λ n. NoneStillBefore plan.now.turn.steps n machine.old) }
    ensures partly { IfErr result (λ e. (1 ≤ e.0) × (e.0 ≤ limit)
        × IsAfter plan.now.turn.steps (e.0 - 1) machine.old machine.new) }
    ensures processes { processes_of machine.new ≡ processes_of machine.old }
    ensures text { KeepsText machine.old machine.new }
{
    rounds_are_run();
    lasting();
    let mut done = 0;
    let mut gallop = Gallop::first();
    'rounds: while done < limit && !is_still(machine) {
        let count = gallop.rounds.min(limit - done);
        match advance(rt, machine, count, plan, gate) {
            Ok(true) => {
                done += count;
                gallop = gallop.next();
            }
            Ok(false) => gallop = Gallop::half(count),
            Err(MemoryAt(round)) => return Err(MemoryAt(done + round)),
        }
    }
    Ok(done)
}
