//! The words, temps and frames that a unit needs, including all that it calls.

ghost use Rattle.std.specs.Prelude.{◌≡◌, ◌+◌, [], max, suc, IfOk, map, length};
ghost use Rattle.cp_model_program.specs.CodeNeeds as needs;
ghost use Rattle.cp_compile_emit.specs.PlainNeeds.{plain_need};
ghost use Rattle.cp_program.specs.View as view;

use cp_compile_symbols::{small_number, small_sum};
use cp_program::operation::{Argument, Call, Operation};
use cp_program::program::CodeUnit;
use std::alloc::AllocError;

/// The numbers of words, temps and frames that are needed.
#[derive(Clone, Copy)]
pub struct Need {
    pub(crate) words: u32,
    pub(crate) temps: u32,
    pub(crate) frames: u32,
}

impl Need {
    /// Needs nothing.
    pub fn none() -> Need
        ensures { plain_need result ≡ needs.no_need }
    {
        Need {
            words: 0,
            temps: 0,
            frames: 0,
        }
    }

    /// The need of an activation of `words` words.
    pub fn of_activation(words: u32) -> Need
        ensures { plain_need result ≡ record { words = words; temps = 0; frames = 0 } }
    {
        Need {
            words,
            temps: 0,
            frames: 0,
        }
    }

    /// The greater of two needs, number by number.
    pub fn greater(self, other: Need) -> Need
        ensures { plain_need result ≡ needs.greater_need (plain_need self) (plain_need other) }
    {
        Need {
            words: self.words.max(other.words),
            temps: self.temps.max(other.temps),
            frames: self.frames.max(other.frames),
        }
    }

    // Raises the need to at least `temps` temps.
    fn with_temps(self, temps: u32) -> Need
        ensures { plain_need result ≡ needs.with_temps temps (plain_need self) }
    {
        Need {
            temps: self.temps.max(temps),
            ..self
        }
    }

    // Raises the need to room for the arguments of an `init`, after `words` words.
    fn with_room(self, words: u32, arguments: &[Argument]) -> Result<Need, AllocError>
        ensures { IfOk result
            (λ n. plain_need n ≡ needs.with_room words (length arguments.now) (plain_need self)) }
    {
        let arguments = small_sum(small_number(arguments.len())?, 1)?;
        let room = words.saturating_add(arguments);
        Ok(Need {
            words: self.words.max(room),
            ..self
        })
    }

    // What a call needs. The callee's unit was emitted before.
    fn of_call(units: &[CodeUnit], call: &Call) -> Result<Need, AllocError>
        ensures { IfOk result
            (λ n. plain_need n ≡ needs.need_of_call (map (view.code_unit []) units.now)
            (view.call call.now)) }
    {
        let Some(unit) = units.get(call.routine as usize) else {
            return Ok(Need::none());
        };
        Ok(Need {
            words: call.words.saturating_add(unit.words),
            temps: small_sum(call.temps, unit.temps)?,
            frames: small_sum(1, unit.frames)?,
        })
    }

    // What the `init` of a class or a monitor needs.
    fn of_init(units: &[CodeUnit], call: &Call) -> Result<Need, AllocError>
        ensures { IfOk result
            (λ n. plain_need n ≡ needs.with_room call.now.words (length call.now.arguments.items)
            (needs.need_of_call (map (view.code_unit []) units.now) (view.call call.now))) }
    {
        Need::of_call(units, call)?.with_room(call.words, &call.arguments)
    }

    /// What an operation needs, if `units` are the units emitted before.
    pub fn of(units: &[CodeUnit], operation: &Operation) -> Result<Need, AllocError>
        ensures { IfOk result
            (λ n. plain_need n ≡ needs.need_of (map (view.code_unit []) units.now)
            (view.operation operation.now)) }
    {
        match operation {
            Operation::Procedure { call, .. } => Need::of_call(units, call),
            Operation::Function { call, into, .. } => {
                let own = Need::of_call(units, call)?;
                Ok(own.with_temps(small_sum(*into, 1)?))
            }
            Operation::InitClass { call, .. } => Need::of_init(units, call),
            Operation::InitMonitor { call, .. } => Need::of_init(units, call),
            Operation::InitProcess {
                arguments,
                words,
                ..
            } => Need::none().with_room(*words, arguments),
            Operation::For { counting, .. } => {
                Ok(Need::none().with_temps(small_sum(counting.temp, 2)?))
            }
            _ => Ok(Need::none()),
        }
    }
}
