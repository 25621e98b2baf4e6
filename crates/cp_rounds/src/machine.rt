//! The machine: a program, the tables of its text, the private states of its processes, the kernel,
//! and the number of rounds made.

ghost use Rattle.std.specs.Prelude.{◌≡◌, ◌<◌, ◌≤◌, ◌+◌, ◌-◌, ◌^◌, length, IfErr, IfOk};
ghost use Rattle.cp_model.specs.States.{numbers_from};
ghost use Rattle.cp_model_machine.specs.Machines as plain;
ghost use Rattle.cp_program.specs.View as view;
ghost use Rattle.cp_rounds_handoff.specs.Inputs.{input_of};
ghost use Rattle.cp_rounds.specs.InStates.{IsStarted, MakesRound, MakesRounds};
ghost use Rattle.cp_rounds.specs.Views.{IsAfter, KeepsText, finished_machine_of, machine_of, processes_of};

use crate::finished_machine::FinishedMachine;
use crate::parts::Parts;
use crate::run::{Rounds, with_cells};
use crate::starting::first_parts;
use cp_base_config::plan::Plan;
use cp_base_config::tick::Tick;
use cp_compile_symbols::Tables;
use cp_model_machine::law;
use cp_program::program::Program;
use cp_rounds_handoff::config::MachineConfig;
use cp_rounds_handoff::gate::TurnGate;
use std::alloc::{AllocError, Global};
use std::mem;
use std::sync::Wait;
use std::thread::Threads;

// How many rounds share their threads. Each of these rounds takes a cell.
const ROUNDS_AT_ONCE: usize = 16_384;

// How many waves share their threads, if a round has no more. Each of these waves takes a cell.
const WAVES_AT_ONCE: usize = 65_536;

// How many rounds of so many waves share their threads.
fn rounds_at_once(waves: usize) -> u32
    ensures { 0 < result }
{
    (WAVES_AT_ONCE / waves.max(1)).min(ROUNDS_AT_ONCE).max(1) as u32
}

/// A machine. The module `reading` has the calls that read it.
pub struct Machine<'r, 't> {
    /// The allocator from which rounds take their memory.
    pub(crate) alloc: Global,
    pub(crate) config: MachineConfig,
    /// The tables of the text whose program it runs, for whoever reads it. No round uses them.
    pub(crate) tables: &'r Tables<'t>,
    pub(crate) parts: Parts,
    /// The number of rounds made so far.
    pub(crate) rounds: u64,
}

// A derived `Drop` would make proofs slower (docs/CI.md).
impl Drop for Machine<'_, '_> {
    fn drop(self) {
        let Machine {
            alloc: _,
            config: _,
            tables: _,
            parts: _,
            rounds: _,
        } = self;
    }
}

/// The round of a run, counted from 1, in which memory ran out or a thread could not be started.
/// The rounds before it were made, and nothing of this one.
#[derive(Clone, Copy, Debug)]
pub struct MemoryAt(pub u32);

impl<'r, 't> Machine<'r, 't> {
    /// The machine of a program at its start, with the tables of its text and an input for
    /// each process by number.
    ///
    /// # Errors
    ///
    /// `AllocError` if memory runs out, or if a process or the monitors have 2^30 words or more.
    pub fn new(
        alloc: Global,
        program: Program,
        tables: &'r Tables<'t>,
        inputs: Vec<Vec<u8>>,
        tick: Tick,
    ) -> Result<Machine<'r, 't>, AllocError>
        requires inputs { length inputs.items ≡ length (view.program program).processes }
        ensures start { IfOk result (λ machine. machine_of machine ≡ plain.first_machine
            (view.program program) tick.rounds (input_of inputs.items)) }
        ensures state { IfOk result
            (IsStarted (view.program program) tick.rounds inputs.items) }
        ensures tables { IfOk result (λ machine. machine.tables ≡ tables.entry) }
    {
        law::rounds();
        let parts = first_parts(alloc, &program)?;
        Ok(Machine {
            alloc,
            config: MachineConfig {
                program,
                inputs,
                tick,
            },
            tables,
            parts,
            rounds: 0,
        })
    }

    /// Makes one round. Workers make the private turns, wave by wave. The calling thread makes the
    /// kernel turns, in order of process number, as soon as the private turns before them are made.
    /// While it waits for these, it is a worker too. At the end, the processes that were started in
    /// the round begin. The hook is called before each turn.
    ///
    /// # Errors
    ///
    /// `AllocError` if memory runs out or a thread could not be started. The machine is then as it
    /// was.
    pub fn round<R: Threads + Wait + Sync, G: TurnGate>(
        &mut self,
        rt: &R,
        plan: &Plan,
        gate: &G,
    ) -> Result<(), AllocError>
        requires count { self.old.rounds < 2 ^ 64 - 1 }
        ensures made { IfOk result (λ _. machine_of self.new ≡ plain.phased_round
            plan.now.turn.steps (numbers_from 1 (processes_of self.old)) (machine_of self.old)) }
        ensures state { IfOk result (λ _. MakesRound plan.now.turn.steps self.old self.new) }
        ensures single { IfOk result
            (λ _. MakesRounds plan.now.turn.steps 1 self.old self.new) }
        ensures kept { IfErr result (λ _. machine_of self.new ≡ machine_of self.old) }
        ensures processes { processes_of self.new ≡ processes_of self.old }
        ensures text { KeepsText self.old self.new }
    {
        law::rounds();
        match self.run_batch(rt, 1, plan, gate) {
            Ok(()) => Ok(()),
            Err(_) => Err(AllocError),
        }
    }

    // Makes a batch of `rounds` rounds, by threads that are started once. `Err` has the number of
    // rounds made.
    fn run_batch<R: Threads + Wait + Sync, G: TurnGate>(
        &mut self,
        rt: &R,
        rounds: usize,
        plan: &Plan,
        gate: &G,
    ) -> Result<(), usize>
        requires some { 0 < rounds }
        requires count { self.old.rounds + rounds < 2 ^ 64 }
        ensures made { IfOk result (λ _. IsAfter plan.now.turn.steps rounds self.old self.new) }
        ensures partly { IfErr result
            (λ n. (n < rounds) × IsAfter plan.now.turn.steps n self.old self.new) }
    {
        let none = Parts::none(self.alloc);
        let parts = mem::replace(&mut self.parts, none);
        let asked = Rounds {
            config: &self.config,
            done: self.rounds,
            plan,
            gate,
        };
        let (parts, made) = with_cells(rt, self.alloc, rounds, &asked, parts);
        self.parts = parts;
        match made {
            Ok(()) => {
                self.rounds += rounds as u64;
                Ok(())
            }
            Err(n) => {
                self.rounds += n as u64;
                Err(n)
            }
        }
    }

    // Makes `rounds` rounds in batches. The rounds of a batch share their threads.
    fn run_in_batches<R: Threads + Wait + Sync, G: TurnGate>(
        &mut self,
        rt: &R,
        rounds: u32,
        plan: &Plan,
        gate: &G,
    ) -> Result<(), MemoryAt>
        requires count { self.old.rounds + rounds < 2 ^ 64 }
        ensures made { IfOk result (λ _. IsAfter plan.now.turn.steps rounds self.old self.new) }
        ensures partly { IfErr result (λ e. (1 ≤ e.0) × (e.0 ≤ rounds)
            × IsAfter plan.now.turn.steps (e.0 - 1) self.old self.new) }
    {
        let mut done = 0;
        'part: while done < rounds {
            let at_once = rounds_at_once(plan.waves(self.parts.privates.len()));
            let count = (rounds - done).min(at_once);
            match self.run_batch(rt, count as usize, plan, gate) {
                Ok(()) => done += count,
                Err(made) => return Err(MemoryAt(done + made as u32 + 1)),
            }
        }
        Ok(())
    }

    /// Makes `rounds` rounds.
    ///
    /// # Errors
    ///
    /// `MemoryAt` with the first round for which memory ran out or a thread could not be started.
    pub fn run<R: Threads + Wait + Sync, G: TurnGate>(
        &mut self,
        rt: &R,
        rounds: u32,
        plan: &Plan,
        gate: &G,
    ) -> Result<(), MemoryAt>
        requires count { self.old.rounds + rounds < 2 ^ 64 }
        ensures done { IfOk result (λ _. machine_of self.new ≡ plain.phased_rounds
            plan.now.turn.steps (numbers_from 1 (processes_of self.old)) rounds
            (machine_of self.old)) }
        ensures state { IfOk result
            (λ _. MakesRounds plan.now.turn.steps rounds self.old self.new) }
        ensures partly { IfErr result (λ e. (1 ≤ e.0) × (e.0 ≤ rounds)
            × (machine_of self.new ≡ plain.phased_rounds plan.now.turn.steps
            (numbers_from 1 (processes_of self.old)) (e.0 - 1) (machine_of self.old))) }
        ensures processes { processes_of self.new ≡ processes_of self.old }
        ensures text { KeepsText self.old self.new }
    {
        law::rounds();
        self.run_in_batches(rt, rounds, plan, gate)
    }

    /// Ends the rounds of the machine, and releases the tables of its text.
    pub fn halt(self) -> FinishedMachine
        ensures { finished_machine_of result ≡ machine_of self.entry }
    {
        let Machine {
            alloc: _,
            config,
            tables: _,
            parts,
            rounds,
        } = self;
        FinishedMachine {
            config,
            parts,
            rounds,
        }
    }
}
