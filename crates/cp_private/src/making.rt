//! How private states are made, copied and read, and how the kernel and rounds change them.

ghost use Rattle.std.specs.Prelude.{false, true, ◌≢◌, ◌≡◌, ◌<◌, ◌≤◌, ◌-◌, ◌*◌, ◌^◌, ℕ, List, [], IfOk, OnOk, Some, pos, replicate, length, slice_get, vec_capacity, vec_len};
ghost use Rattle.cp_model_program.specs.Programs as code;
ghost use Rattle.cp_model_program.specs.Starts.{carry_out, word};
ghost use Rattle.cp_private.specs.Promises.{IsAtStart, Wakes};
ghost use Rattle.cp_private.specs.Rooms.{HasRoomFor};
ghost use Rattle.cp_private.specs.States.{activity, private_of};
ghost use Rattle.cp_model_machine.specs.KernelSteps.{Kernel};
ghost use Rattle.cp_model_machine.specs.Machines as plain;
ghost use Rattle.cp_program.specs.View as view;

use crate::private::{Activity, Frame, Private};
use crate::{plans, words};
use cp_base_config::turn::Turn;
use cp_model_machine::law;
use cp_program::program::{Process, Program};
use cp_program::reach::Memory;
use smallvec::SmallVec;
use std::alloc::{AllocError, Global};

/// A process has fewer words, and fewer temps, than this.
const WORD_COUNT_LIMIT: usize = 1 << 30;

// The number of words that are left free after those of a process, so that no cache line holds
// words of two processes, which may run at the same time.
const WORDS_APART: usize = 16;

// What a process needs for its body and everything that it calls.
#[derive(Clone, Copy)]
struct Needs {
    start: u32,
    words: u32,
    temps: u32,
    frames: u32,
}

fn needs_of(program: &Program, body: u32) -> Needs
    ensures start { result.start ≡ (plain.unit_at (view.program program.now) body).start }
    ensures words { result.words ≡ (plain.unit_at (view.program program.now) body).words }
    ensures temps { result.temps ≡ (plain.unit_at (view.program program.now) body).temps }
    ensures frames { result.frames ≡ (plain.unit_at (view.program program.now) body).frames }
{
    match program.unit(body) {
        Some(unit) => Needs {
            start: unit.start,
            words: unit.words,
            temps: unit.temps,
            frames: unit.frames,
        },
        None => Needs {
            start: 0,
            words: 0,
            temps: 0,
            frames: 0,
        },
    }
}

// The words of a process at the start.
fn first_words(
    alloc: Global,
    program: &Program,
    process: &Process,
    count: usize,
) -> Result<Vec<i32>, AllocError>
    requires { count < 2 ^ 30 }
    ensures words { IfOk result (λ ws. ws.items ≡ carry_out 0
        (view.plan_at (view.plans_of program.now)
        process.now.plan) (replicate count (pos 0))) }
    ensures count { IfOk result (λ ws. length ws.items ≡ count) }
{
    let mut all = Vec::from_elem(alloc, 0, count)?;
    all.reserve(WORDS_APART)?;
    plans::start_by(&mut all, &mut [], 0, program, process.plan);
    Ok(all)
}

impl Private {
    // The private state of process p at the start, as plain data.
    fn first(alloc: Global, program: &Program, p: usize) -> Result<Private, AllocError>
        requires first { 1 ≤ p }
        requires last { p ≤ length (view.program program.now).processes }
        ensures { IfOk result (λ x. (input : List ℕ) (row : code.Process)
            → slice_get (view.program program.now).processes (p - 1) ≡ Some row
            → private_of x input ≡ plain.first_part (view.program program.now) (λ q. input) p row) }
    {
        let Some(process) = program.process(p) else {
            return Err(AllocError);
        };
        let needs = needs_of(program, process.body);
        let count = process.words as usize + needs.words as usize;
        let temps = needs.temps as usize;
        if WORD_COUNT_LIMIT <= count || WORD_COUNT_LIMIT <= temps || WORD_COUNT_LIMIT <= p {
            return Err(AllocError);
        }
        Ok(Private {
            number: p,
            activity: if p == 1 {
                Activity::Running
            } else {
                Activity::NotBegun
            },
            counter: needs.start,
            pause: needs.start,
            gate: 0,
            memory: Memory {
                words: first_words(alloc, program, process, count)?,
                temps: Vec::from_elem(alloc, 0, temps)?,
                base: process.words as usize,
                temp: 0,
                component: 0,
            },
            frames: SmallVec::from_elem(alloc, Frame::default(), needs.frames as usize)?,
            depth: 0,
            limit: needs.frames as usize,
            output: Vec::new(alloc),
            consumed: 0,
        })
    }

    /// The private state of process p at the start.
    ///
    /// # Errors
    ///
    /// `AllocError` if memory runs out, if the process has 2^30 or more words or temps, or if its
    /// number is 2^30 or more.
    pub fn new(alloc: Global, program: &Program, p: usize) -> Result<Private, AllocError>
        requires first { 1 ≤ p }
        requires last { p ≤ length (view.program program.now).processes }
        ensures start { IfOk result (λ x. (input : List ℕ) (row : code.Process)
            → slice_get (view.program program.now).processes (p - 1) ≡ Some row
            → private_of x input ≡ plain.first_part (view.program program.now) (λ q. input) p row) }
        ensures meaning { IfOk result (IsAtStart program.now p) }
    {
        law::start();
        Private::first(alloc, program, p)
    }

    /// A private state with the same content.
    ///
    /// # Errors
    ///
    /// `AllocError` if memory runs out.
    pub fn copy(&self, alloc: Global) -> Result<Private, AllocError>
        ensures { IfOk result
            (λ x. (input : List ℕ) → private_of x input ≡ private_of self.now input) }
    {
        Ok(Private {
            number: self.number,
            activity: self.activity,
            counter: self.counter,
            pause: self.pause,
            gate: self.gate,
            memory: Memory {
                words: Vec::from_slice(alloc, &self.memory.words)?,
                temps: Vec::from_slice(alloc, &self.memory.temps)?,
                base: self.memory.base,
                temp: self.memory.temp,
                component: self.memory.component,
            },
            frames: SmallVec::from_slice(alloc, &self.frames)?,
            depth: self.depth,
            limit: self.limit,
            output: Vec::from_slice(alloc, &self.output)?,
            consumed: self.consumed,
        })
    }

    /// Reserves room for the output of a turn. The content stays as it is.
    ///
    /// # Errors
    ///
    /// `AllocError` if memory runs out.
    pub fn reserve(&mut self, turn: Turn) -> Result<(), AllocError>
        ensures room { OnOk result (HasRoomFor self.new turn.steps) }
        ensures content { (input : List ℕ) → private_of self.new input ≡ private_of self.old input }
        ensures pause { self.new.pause ≡ self.old.pause }
    {
        self.output.reserve(11 * turn.steps() as usize)
    }

    /// Reserves room for the output of a round, which is a private turn and then a kernel turn. The
    /// content stays as it is.
    ///
    /// # Errors
    ///
    /// `AllocError` if memory runs out.
    pub fn reserve_round(&mut self, turn: Turn) -> Result<(), AllocError>
        ensures room { OnOk result (HasRoomFor self.new (2 * turn.steps)) }
        ensures number { self.new.number ≡ self.old.number }
        ensures content { (input : List ℕ) → private_of self.new input ≡ private_of self.old input }
        ensures pause { self.new.pause ≡ self.old.pause }
    {
        self.output.reserve(22 * turn.steps() as usize)
    }

    /// The number of the process, from 1.
    pub fn number(&self) -> usize
        ensures number { (input : List ℕ) → result ≡ (private_of self.now input).number }
        ensures small { result < 2 ^ 31 }
    {
        self.number
    }

    /// Whether the process holds a gate.
    #[inline(always)]
    pub fn holds_gate(&self) -> bool
        ensures yes { result ≡ true → self.now.gate ≢ 0 }
        ensures no { result ≡ false → self.now.gate ≡ 0 }
    {
        self.gate != 0
    }

    /// How many words of its own the process has.
    pub fn words(&self) -> usize
        ensures words { (input : List ℕ) → result ≡ length (private_of self.now input).words }
        ensures few { result < 2 ^ 30 }
    {
        self.memory.words.len()
    }

    /// Whether the process runs, waits, has ended or has faulted.
    pub fn activity(&self) -> Activity
        ensures { (input : List ℕ) → activity result ≡ (private_of self.now input).activity }
    {
        self.activity
    }

    /// The number of the next operation, which is also the one that faulted.
    pub fn counter(&self) -> u32
        ensures { (input : List ℕ) → result ≡ (private_of self.now input).counter }
    {
        self.counter
    }

    /// The number of the operation of the last call, `delay` or `wait`.
    pub fn pause(&self) -> u32
        ensures { result ≡ self.now.pause }
    {
        self.pause
    }

    /// The word at an address. A missing word reads as 0.
    pub fn value(&self, at: usize) -> i32
        ensures { (input : List ℕ) → result ≡ word (private_of self.now input).words at }
    {
        words::read(&self.memory.words, &[], at)
    }

    /// All words.
    pub fn all_words(&self) -> &[i32]
        ensures { (input : List ℕ) → result.now ≡ (private_of self.now input).words }
    {
        &self.memory.words
    }

    /// The output that isn't in the transcript yet.
    pub fn output(&self) -> &[u8]
        ensures { (input : List ℕ) → result.now ≡ (private_of self.now input).output }
    {
        &self.output
    }

    /// Clears the output, once it is in the transcript. The room for it stays.
    pub fn clear_output(&mut self)
        ensures content { (input : List ℕ) → private_of self.new input
            ≡ record (private_of self.old input) { output = [] } }
        ensures empty { vec_len self.new.output ≡ 0 }
        ensures room { vec_capacity self.old.output ≤ vec_capacity self.new.output }
        ensures pause { self.new.pause ≡ self.old.pause }
    {
        self.output.clear();
    }

    /// Lets the process run again if it waits for the clock.
    pub fn wake(&mut self)
        ensures content { (input : List ℕ) → private_of self.new input ≡ plain.wake_one
            (private_of self.old input) }
        ensures meaning { Wakes self.old self.new }
        ensures number { self.new.number ≡ self.old.number }
        ensures output { self.new.output ≡ self.old.output }
        ensures pause { self.new.pause ≡ self.old.pause }
    {
        law::between_turns();
        if matches!(self.activity, Activity::Waiting) {
            self.activity = Activity::Running;
        }
    }

    /// Begins the process, with its parameters, which wait among the shared words.
    pub fn begin(&mut self, program: &Program, shared: &[i32])
        ensures content { (input : List ℕ) (k : Kernel) → k.shared ≡ shared.now
            → private_of self.new input
            ≡ plain.begin_from (view.program program.now) k (private_of self.old input) }
        ensures pause { self.new.pause ≡ self.old.pause }
        ensures output { self.new.output ≡ self.old.output }
    {
        if let Some(process) = program.process(self.number) {
            let from = process.parameters as usize + 1;
            let count = process.waiting.saturating_sub(1) as usize;
            words::bring(&mut self.memory.words, 1, shared, from, count);
            self.activity = Activity::Running;
        }
    }
}
