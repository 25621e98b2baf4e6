//! Turns: how many steps a process may make in a row.

ghost use Rattle.std.specs.Prelude.{◌≡◌, ◌↔◌, IfErr, IfOk, IsOk};
ghost use Rattle.cp_base_config.specs.Plans.{IsTurn};
ghost use Rattle.cp_base_config.specs.declared.limits.L1.TheVariants as limit;

use crate::limits::{L1, MAX_TURN_STEPS};

/// A number of steps, at least 1 and at most 10,000.
#[derive(Clone, Copy)]
pub struct Turn {
    pub steps: u32,
    ghost in_range: { IsTurn steps },
}

impl Turn {
    /// A turn of `steps` steps.
    ///
    /// # Errors
    ///
    /// `L1::Turn` if the number isn't within 1..=10,000.
    pub fn new(steps: u32) -> Result<Turn, L1>
        ensures range { IsOk result ↔ IsTurn steps }
        ensures steps { IfOk result (λ turn. turn.steps ≡ steps) }
        ensures field { IfErr result (λ e. e ≡ limit.Turn) }
    {
        if 1 <= steps && steps <= MAX_TURN_STEPS {
            Ok(Turn { steps })
        } else {
            Err(L1::Turn)
        }
    }

    /// The number of steps.
    pub fn steps(&self) -> u32
        ensures steps { result ≡ self.now.steps }
        ensures range { IsTurn result }
    {
        self.steps
    }
}
