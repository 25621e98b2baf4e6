//! How the kernel starts.

ghost use Rattle.std.specs.Prelude.{◌≡◌, ◌-◌, ◌<◌, ◌^◌, ◌∷◌, ℕ, List, [], IfOk, Some, map, pos, replicate, length, slice_get};
ghost use Rattle.cp_model_program.specs.Programs as code;
ghost use Rattle.cp_private.specs.States as states;
ghost use Rattle.cp_model_machine.specs.Machines as plain;
ghost use Rattle.cp_program.specs.View as view;
ghost use Rattle.cp_kernel.specs.KernelOf.{Bytes, kernel_of, transcripts_of, unset_gate};
ghost use Rattle.cp_kernel.specs.Promises.{IsAtStart};

use crate::kernel::Kernel;
use cp_model_machine::law;
use cp_private::kernel_view::{Gate, Holder, SchedulingState};
use cp_private::starting::start_words;
use cp_program::program::Program;
use std::alloc::{AllocError, Global};

/// There are fewer shared words than this.
const WORD_COUNT_LIMIT: usize = 1 << 30;

// Makes the words of the monitor with this number start as its plan says.
fn start_monitor(program: &Program, number: usize, words: &mut [i32])
    requires { length words.old < 2 ^ 30 }
    ensures words { (rest : List code.Monitor) (m : code.Monitor)
        → slice_get (view.program program.now).monitors
        (number - 1) ≡ Some m
        → plain.first_shared rest words.new ≡ plain.first_shared
        (m ∷ rest) words.old }
    ensures length { length words.new ≡ length words.old }
{
    if let Some(monitor) = program.monitor(number) {
        start_words(words, monitor.start as usize, program, monitor.plan);
    }
}

// Makes the words of all monitors start as their plans say.
fn start_monitors(program: &Program, words: &mut [i32])
    requires { length words.old < 2 ^ 30 }
    ensures words { words.new ≡ plain.first_shared (view.program program.now).monitors words.old }
    ensures length { length words.new ≡ length words.old }
{
    for i in 0..program.monitors() {
        start_monitor(program, i + 1, words);
    }
}

fn first_shared_words(alloc: Global, program: &Program) -> Result<Vec<i32>, AllocError>
    ensures words { IfOk result (λ ws. let p = view.program program.now in
        ws.items ≡ plain.first_shared p.monitors (replicate p.shared (pos 0))) }
    ensures few { IfOk result (λ ws. length ws.items < 2 ^ 30) }
{
    let count = program.shared_words() as usize;
    if WORD_COUNT_LIMIT <= count {
        return Err(AllocError);
    }
    let mut words = Vec::from_elem(alloc, 0, count)?;
    start_monitors(program, &mut words);
    Ok(words)
}

// The gates of `count` monitors that aren't initialised.
fn unset_gates(alloc: Global, count: usize) -> Result<Vec<Gate>, AllocError>
    ensures { IfOk result (λ all. map states.gate all.items ≡ replicate count unset_gate) }
{
    let mut all = Vec::with_capacity(alloc, count)?;
    for _i in 0..count {
        all.push(Gate {
            holder: Holder::Unset,
            askers: Vec::new(alloc),
        })?;
    }
    Ok(all)
}

// The stages of `count` processes, of which only the first, the initial process, has begun.
fn first_stages(alloc: Global, count: usize) -> Result<Vec<SchedulingState>, AllocError>
    ensures stages { IfOk result (λ all. (processes : List code.Process) → length processes ≡ count
        → map states.stage all.items ≡ plain.first_stages processes) }
    ensures count { IfOk result (λ all. length all.items ≡ count) }
{
    let mut all = Vec::from_elem(alloc, SchedulingState::Unstarted, count)?;
    let Some(first) = all.get_mut(0) else {
        return Ok(all);
    };
    *first = SchedulingState::Begun;
    Ok(all)
}

pub(crate) fn empty_transcripts(alloc: Global, count: usize) -> Result<Vec<Vec<u8>>, AllocError>
    ensures { IfOk result (λ all. map (λ (v : Bytes). v.items) all.items ≡ replicate count []) }
{
    let mut all = Vec::with_capacity(alloc, count)?;
    for _i in 0..count {
        all.push(Vec::new(alloc))?;
    }
    Ok(all)
}

impl Kernel {
    // The kernel at the start, as plain data.
    fn first(alloc: Global, program: &Program) -> Result<Kernel, AllocError>
        ensures start { IfOk result (λ k. (tick : ℕ) (inputs : ℕ → List ℕ)
            → kernel_of k ≡ (plain.first_machine (view.program program.now) tick inputs).kernel) }
        ensures transcripts { IfOk result (λ k. (tick : ℕ) (inputs : ℕ → List ℕ)
            → transcripts_of k
            ≡ (plain.first_machine (view.program program.now) tick inputs).transcripts) }
    {
        let processes = program.processes();
        Ok(Kernel {
            shared: first_shared_words(alloc, program)?,
            gates: unset_gates(alloc, program.monitors())?,
            stages: first_stages(alloc, processes)?,
            transcripts: empty_transcripts(alloc, processes)?,
            may_have_fresh: true,
        })
    }

    /// The kernel at the start: no monitor is initialised, and only the initial process has
    /// begun.
    ///
    /// # Errors
    ///
    /// `AllocError` if memory runs out, or if there are 2^30 shared words or more.
    pub fn new(alloc: Global, program: &Program) -> Result<Kernel, AllocError>
        ensures start { IfOk result (λ k. (tick : ℕ) (inputs : ℕ → List ℕ)
            → kernel_of k ≡ (plain.first_machine (view.program program.now) tick inputs).kernel) }
        ensures transcripts { IfOk result (λ k. (tick : ℕ) (inputs : ℕ → List ℕ)
            → transcripts_of k
            ≡ (plain.first_machine (view.program program.now) tick inputs).transcripts) }
        ensures meaning { IfOk result (IsAtStart program.now) }
    {
        law::start();
        Kernel::first(alloc, program)
    }
}
