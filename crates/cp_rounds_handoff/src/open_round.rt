//! A round while its turns are made.

ghost use Rattle.std.specs.Prelude.{◌≡◌, IfSome};
ghost use Rattle.std.proofs.Props.{props};
ghost use Rattle.cp_rounds_handoff.specs.Numbers.{AreNumbered};
ghost use Rattle.cp_rounds_handoff.specs.Tasks.{AllFree, is_none};

use crate::round_time::RoundTime;
use crate::task::{Course, Start};
use std::marker::PhantomData;
use std::sync::OnceToken;

/// An open round of a run: threads may draw its private turns, unless the calling thread makes them
/// all.
#[derive(Drop)]
pub struct OpenRound<'a, C: Course> {
    /// The private states at its start, for proofs only.
    pub start: Start,
    /// Shows threads that this is its start. There is none if the calling thread makes all private
    /// turns, since to write the cell of a round wakes all who wait for it, by a call of the
    /// system.
    pub token: Option<OnceToken<'a, Start>>,
    /// Its index in the run.
    pub index: usize,
    pub round_time: RoundTime,
    /// How many rounds from this one on are made at once.
    pub rounds: u32,
    pub of: PhantomData<C>,
    ghost cell: { IfSome token (λ t. t.of ≡ C.cell index) } by { Prim.hlevel props },
    ghost same: { IfSome token (λ t. t.value.value ≡ start.value) } by { Prim.hlevel props },
    ghost time: { round_time ≡ C.round_time index },
    ghost numbers: { AreNumbered start.value.items },
    ghost free: { AllFree C.most start.value.items },
}

impl<'a, C: Course> OpenRound<'a, C> {
    /// Whether the calling thread makes all private turns.
    #[inline(always)]
    pub fn is_alone(&self) -> bool
        ensures { result ≡ is_none self.now.token }
    {
        self.token.is_none()
    }
}
