//! Ticks: every `rounds` rounds, the processes that wait for the clock continue.

ghost use Rattle.std.specs.Prelude.{◌≡◌, ◌↔◌, IfErr, IfOk, IsOk};
ghost use Rattle.cp_base_config.specs.Plans.{IsTick};
ghost use Rattle.cp_base_config.specs.declared.limits.L1.TheVariants as limit;

use crate::limits::{L1, MAX_TICK_ROUNDS};

/// A number of rounds, at least 1 and at most 1,000,000.
#[derive(Clone, Copy)]
pub struct Tick {
    pub rounds: u32,
    ghost in_range: { IsTick rounds },
}

impl Tick {
    /// A tick of `rounds` rounds.
    ///
    /// # Errors
    ///
    /// `L1::Tick` if the number isn't within 1..=1,000,000.
    pub fn new(rounds: u32) -> Result<Tick, L1>
        ensures range { IsOk result ↔ IsTick rounds }
        ensures rounds { IfOk result (λ tick. tick.rounds ≡ rounds) }
        ensures field { IfErr result (λ e. e ≡ limit.Tick) }
    {
        if 1 <= rounds && rounds <= MAX_TICK_ROUNDS {
            Ok(Tick { rounds })
        } else {
            Err(L1::Tick)
        }
    }
}
