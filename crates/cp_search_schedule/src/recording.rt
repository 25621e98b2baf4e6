//! Makes the calls of a schedule again, one step at a time, and records them.

use crate::noticing::{Before, fault_of, has_fresh, short};
use crate::schedule::{Call, Effect, Schedule};
use crate::writing::OrderText;
use cp_base_config::turn::Turn;
use cp_base_schedule::reading::MAX_SCHEDULE_BYTES;
use cp_private::kind::{Kind, next_kind};
use cp_private::private::Private;
use cp_program::operation::Operation;
use cp_program::program::Program;
use cp_search_states::state::SearchState;
use cp_search_states::steps::{ONE_STEP, close_round, run, step};
use std::alloc::{AllocError, Global};

/// What a recording made.
#[derive(Drop)]
pub enum Recorded {
    Schedule(Schedule),
    /// The order text has more bytes than one may have.
    TooLong,
}

// A recording.
#[derive(Drop)]
struct Recorder<'a> {
    alloc: Global,
    program: &'a Program,
    inputs: &'a [Vec<u8>],
    state: SearchState,
    order: OrderText,
    calls: Vec<Call>,
}

// Makes a private step of process p. Returns whether there is such a process.
fn step_private(
    program: &Program,
    inputs: &[Vec<u8>],
    state: &mut SearchState,
    p: usize,
) -> Result<bool, AllocError> {
    if p < 1 || state.privates.len() < p {
        return Ok(false);
    }
    run(program, inputs, &mut state.privates, p, ONE_STEP)?;
    Ok(true)
}

// Makes a step of the kernel of process p. Returns whether it could be made.
fn step_kernel(
    program: &Program,
    inputs: &[Vec<u8>],
    state: &mut SearchState,
    p: usize,
) -> Result<bool, AllocError> {
    if p < 1 || state.privates.len() < p {
        return Ok(false);
    }
    step(program, inputs, &mut state.privates, &mut state.kernel, p)
}

// Ends the round.
fn close_state(program: &Program, state: &mut SearchState) {
    close_round(program, &mut state.privates, &mut state.kernel);
}

impl Recorder<'_> {
    // The private state of process p, if there is one.
    fn private(&self, p: usize) -> Option<&Private> {
        match self.state.privates.get(p.checked_sub(1)?) {
            Some(private) => Some(private.private()),
            None => None,
        }
    }

    // Notes an effect of the last call.
    fn note(&mut self, effect: Effect) -> Result<(), AllocError> {
        if let Some(call) = self.calls.last_mut() {
            call.effects.push(effect)?;
        }
        Ok(())
    }

    // Notes the fault of a process that has made a step.
    fn note_fault(&mut self, p: usize) -> Result<(), AllocError> {
        let kind = match self.private(p) {
            Some(private) => fault_of(private),
            None => None,
        };
        match kind {
            Some(kind) => self.note(Effect {
                process: short(p),
                kind,
            }),
            None => Ok(()),
        }
    }

    // Notes which monitor the last call calls, unless that is known.
    fn note_monitor(&mut self, monitor: Option<u32>) {
        if let Some(call) = self.calls.last_mut() {
            call.monitor = call.monitor.or(monitor);
        }
    }

    // Makes a step of the kernel of process p, and records it and what it changes.
    fn make_kernel_step(&mut self, p: usize) -> Result<bool, AllocError> {
        let before = Before::of(self.alloc, &self.state, self.program.monitors())?;
        if !step_kernel(self.program, self.inputs, &mut self.state, p)? {
            return Ok(false);
        }
        self.order.push_kernel(p)?;
        let monitor = before.called(&self.state, short(p));
        self.note_monitor(monitor);
        let mut effects = Vec::new(self.alloc);
        before.push_changes(&self.state, short(p), &mut effects)?;
        for effect in &effects {
            self.note(*effect)?;
        }
        self.note_fault(p)?;
        Ok(true)
    }

    // Ends the round, if that begins a process.
    fn begin_fresh(&mut self) -> Result<(), AllocError> {
        if has_fresh(&self.state) {
            self.order.end_round()?;
            close_state(self.program, &mut self.state);
        }
        Ok(())
    }

    // Makes an eager step of process p, and records it.
    fn make_eager_step(&mut self, p: usize) -> Result<bool, AllocError> {
        let Some(private) = self.private(p) else {
            return Ok(false);
        };
        match next_kind(self.program, private) {
            Kind::Private => {
                let is_made = step_private(self.program, self.inputs, &mut self.state, p)?;
                self.order.push_private(p)?;
                self.note_fault(p)?;
                Ok(is_made)
            }
            Kind::Kernel => {
                let is_made = self.make_kernel_step(p)?;
                self.begin_fresh()?;
                Ok(is_made)
            }
            Kind::None => Ok(false),
        }
    }

    // Makes eager steps until there is none, and ends the round. Returns whether the order is
    // short enough.
    fn settle(&mut self) -> Result<bool, AllocError> {
        for _step in 0..MAX_SCHEDULE_BYTES {
            let Some(p) = self.state.first_eager(self.program) else {
                self.order.end_round()?;
                return Ok(self.order.len() <= MAX_SCHEDULE_BYTES);
            };
            if !self.make_eager_step(p)? || MAX_SCHEDULE_BYTES < self.order.len() {
                return Ok(false);
            }
        }
        Ok(false)
    }

    // Adds the call that process p makes next.
    fn push_call(&mut self, p: usize) -> Result<(), AllocError> {
        let Some(private) = self.private(p) else {
            return Ok(());
        };
        let operation = private.counter();
        let is_init = matches!(
            self.program.operation(operation),
            Some(Operation::InitMonitor { .. })
        );
        self.calls.push(Call {
            process: short(p),
            operation,
            monitor: None,
            is_init,
            effects: Vec::new(self.alloc),
        })?;
        Ok(())
    }

    // Makes the call of process p, and settles.
    fn make_call(&mut self, p: usize) -> Result<bool, AllocError> {
        self.push_call(p)?;
        if !self.make_kernel_step(p)? {
            return Ok(false);
        }
        self.settle()
    }

    fn make_calls(&mut self, callers: &[usize]) -> Result<bool, AllocError> {
        if !self.settle()? {
            return Ok(false);
        }
        for p in callers {
            if !self.make_call(*p)? {
                return Ok(false);
            }
        }
        Ok(true)
    }
}

/// Makes the calls of these processes again, from the start, and records them.
///
/// # Errors
///
/// `AllocError` if memory runs out.
pub fn record(
    alloc: Global,
    program: &Program,
    inputs: &[Vec<u8>],
    callers: &[usize],
) -> Result<Recorded, AllocError> {
    let mut recorder = Recorder {
        alloc,
        program,
        inputs,
        state: SearchState::first(alloc, program)?,
        order: OrderText::new(alloc),
        calls: Vec::new(alloc),
    };
    if !recorder.make_calls(callers)? {
        return Ok(Recorded::TooLong);
    }
    let Recorder { order, calls, .. } = recorder;
    Ok(Recorded::Schedule(Schedule {
        order: order.into_bytes(),
        calls,
    }))
}
