//! Programs, which consist of operations, units of code and components.

ghost use Rattle.std.specs.Prelude.{◌≡◌, ◌-◌, ◌<◌, ◌^◌, true, false, None, Some, length, map, option_map, slice_get, take};
ghost use Rattle.cp_model_machine.specs.Passing as plain;
ghost use Rattle.cp_program.specs.View as view;
ghost use Rattle.cp_program.specs.View.{origins_of, plans_in, plans_of};

use crate::operation::Operation;

/// How words start: `count` words with one value, `count` blocks of `size` words like the first
/// one, or a part, which starts by the plan with the number `plan` in the program.
#[derive(Clone, Copy)]
pub enum StartPiece {
    Fill { at: u32, count: u32, value: i32 },
    Repeat { at: u32, size: u32, count: u32 },
    Part { at: u32, plan: u32 },
}

/// The code of a routine or of the body of a system type: the place of its first operation, how the
/// words of its activations start, and how many words, temps and frames it needs with all that it
/// calls.
#[derive(Drop)]
pub struct CodeUnit {
    pub start: u32,
    pub starts: Vec<StartPiece>,
    pub words: u32,
    pub temps: u32,
    pub frames: u32,
}

/// A monitor. Its words are among the shared words, from `start` on. They start by the plan with
/// the number `plan` in the program.
#[derive(Clone, Copy)]
pub struct Monitor {
    pub start: u32,
    /// The number of the unit of the monitor's body.
    pub body: u32,
    pub words: u32,
    pub plan: u32,
}

/// A process, which has words of its own. The arguments of its `init` wait among the shared words,
/// from `parameters` on.
#[derive(Clone, Copy)]
pub struct Process {
    /// The number of the unit of the process's body.
    pub body: u32,
    /// The number of its own words.
    pub words: u32,
    pub parameters: u32,
    /// The number of shared words that wait: a mark, and a word for each parameter.
    pub waiting: u32,
    /// The number of its plan in the program.
    pub plan: u32,
}

/// The start values of the words of the variables of one type, or of the components of one system
/// type. Its parts have plans before it in the program.
#[derive(Drop)]
pub struct StartPlan {
    pub starts: Vec<StartPiece>,
}

/// A program. Monitors have the numbers from 1 on, and so do processes, of which the first is the
/// initial one.
pub struct Program {
    operations: Vec<Operation>,
    /// The origin of each operation: the byte of the text, counted from 0, at which what it comes
    /// from begins. No step reads it.
    origins: Vec<usize>,
    units: Vec<CodeUnit>,
    monitors: Vec<Monitor>,
    processes: Vec<Process>,
    plans: Vec<StartPlan>,
    shared: u32,
}

// A derived `Drop` would make proofs slower (docs/CI.md).
impl Drop for Program {
    fn drop(self) {
        let Program {
            operations: _,
            origins: _,
            units: _,
            monitors: _,
            processes: _,
            plans: _,
            shared: _,
        } = self;
    }
}

impl Program {
    /// Creates a program of these parts. `origins` has the origin of each operation, and plans have
    /// the numbers from 0 on.
    pub fn new(
        operations: Vec<Operation>,
        origins: Vec<usize>,
        units: Vec<CodeUnit>,
        monitors: Vec<Monitor>,
        processes: Vec<Process>,
        plans: Vec<StartPlan>,
        shared: u32,
    ) -> Program
        ensures operations { (view.program result).operations ≡ map view.operation
            operations.items }
        ensures origins { origins_of result ≡ origins.items }
        ensures units { (view.program result).units ≡ map (view.code_unit
            (plans_in plans.items)) units.items }
        ensures monitors { (view.program result).monitors ≡ map (view.monitor
            (plans_in plans.items)) monitors.items }
        ensures processes { (view.program result).processes ≡ map (view.process
            (plans_in plans.items)) processes.items }
        ensures shared { (view.program result).shared ≡ shared }
    {
        Program {
            operations,
            origins,
            units,
            monitors,
            processes,
            plans,
            shared,
        }
    }

    /// Whether there is an operation at a place.
    #[inline(always)]
    pub fn has_operation(&self, place: u32) -> bool
        ensures there { result ≡ true → place < length (view.program self.now).operations }
        ensures none { result ≡ false
            → slice_get (view.program self.now).operations place ≡ None }
    {
        (place as usize) < self.operations.len()
    }

    /// The operation at a place.
    #[inline(always)]
    pub fn operation_at(&self, place: u32) -> &Operation
        requires { place < length (view.program self.now).operations }
        ensures { slice_get (view.program self.now).operations place
            ≡ Some (view.operation result.now) }
    {
        &self.operations[place as usize]
    }

    /// The operation at a place, if there is one.
    #[inline(always)]
    pub fn operation(&self, place: u32) -> Option<&Operation>
        ensures { option_map (λ o. view.operation o.now) result ≡ slice_get
            (view.program self.now).operations place }
    {
        self.operations.get(place as usize)
    }

    /// The origin of the operation at a place: the byte of the text, counted from 0, at which what
    /// it comes from begins.
    pub fn origin(&self, place: u32) -> Option<usize>
        ensures { result ≡ slice_get (origins_of self.now) place }
    {
        self.origins.get(place as usize).copied()
    }

    /// The unit with this number, from 0 on, if there is one.
    pub fn unit(&self, number: u32) -> Option<&CodeUnit>
        ensures { option_map (λ u. view.code_unit (plans_of self.now) u.now) result ≡ slice_get
            (view.program self.now).units number }
    {
        self.units.get(number as usize)
    }

    /// The monitor with this number, from 1 on, if there is one. The number 0 counts as 1.
    pub fn monitor(&self, number: usize) -> Option<&Monitor>
        ensures { option_map (λ m. view.monitor (plans_of self.now) m.now) result ≡ slice_get
            (view.program self.now).monitors (number - 1) }
    {
        self.monitors.get(number.saturating_sub(1))
    }

    /// Where the words of the monitor with this number begin among the shared words. It is 0 if
    /// there is no such monitor.
    pub fn monitor_start(&self, number: usize) -> usize
        ensures start { result ≡ plain.monitor_start (view.program self.now) number }
        ensures small { result < 2 ^ 32 }
    {
        match self.monitor(number) {
            Some(monitor) => monitor.start as usize,
            None => 0,
        }
    }

    /// The process with this number, from 1 on, if there is one. The number 0 counts as 1.
    pub fn process(&self, number: usize) -> Option<&Process>
        ensures { option_map (λ p. view.process (plans_of self.now) p.now) result ≡ slice_get
            (view.program self.now).processes (number - 1) }
    {
        self.processes.get(number.saturating_sub(1))
    }

    /// The number of plans.
    pub fn plans(&self) -> usize
        ensures { result ≡ length (plans_of self.now) }
    {
        self.plans.len()
    }

    // The plan with this number, if there is one.
    fn plan(&self, number: u32) -> Option<&StartPlan>
        ensures { option_map (λ p. p.now) result ≡ slice_get self.now.plans.items number }
    {
        self.plans.get(number as usize)
    }

    /// The pieces of the plan with this number, whose parts have plans before it. There are none if
    /// there is no such plan.
    pub fn starts(&self, plan: u32) -> &[StartPiece]
        ensures { view.plan_of (take plan (plans_of self.now)) result.now ≡ view.plan_at
            (plans_of self.now) plan }
    {
        match self.plan(plan) {
            Some(plan) => plan.starts.as_slice(),
            None => &[],
        }
    }

    /// The number of monitors, which is also the greatest number of a monitor.
    pub fn monitors(&self) -> usize
        ensures { result ≡ length (view.program self.now).monitors }
    {
        self.monitors.len()
    }

    /// The number of processes, which is also the greatest number of a process.
    pub fn processes(&self) -> usize
        ensures { result ≡ length (view.program self.now).processes }
    {
        self.processes.len()
    }

    /// The number of shared words, which the monitors and the waiting parameters take.
    pub fn shared_words(&self) -> u32
        ensures { result ≡ (view.program self.now).shared }
    {
        self.shared
    }
}
