//! A seat on its way between threads.
//!
//! All that is known of a value taken out of a lock is its type. So the type of a lease says whose
//! seat it has: a seat of the board that the sheet of its wave shows. The sheet of a wave is
//! written once, and whoever begins the waves chooses the names of all sheets.

ghost use Rattle.std.specs.Prelude.{◌≡◌, ℕ, IfSome, IsTrue, true};
ghost use Rattle.std.specs.Arc.{arc_value};
ghost use Rattle.cp_board.specs.Models.{IsSeatOf};
ghost use Rattle.cp_board.specs.Views.{IsDone};

use crate::work::{Work, draw_until_stop};
use cp_board::{Board, Seat};
use std::alloc::Global;
use std::marker::{Brand, PhantomData};
use std::snapshot::Snapshot;
use std::sync::{Arc, OnceToken, Wait};

/// The board of a wave, for proofs only.
pub type Sheet = Snapshot<Board>;

/// The sheets of the waves that share their threads.
pub trait Sheets {
    /// The name of the cell that holds the sheet of a wave.
    ghost sheet: { ℕ → ℕ };
}

impl Sheets for Brand {
    ghost sheet = { λ _. 0 };
}

/// The right to draw from the board of a wave.
#[derive(Drop)]
pub struct SeatLease<'a, C: Sheets> {
    wave: usize,
    board: Arc<Board, Global>,
    seat: Seat,
    sheet: OnceToken<'a, Sheet>,
    of: PhantomData<C>,
    ghost cell: { sheet.of ≡ C.sheet wave },
    ghost board_is: { arc_value board ≡ sheet.value.value },
    ghost seat_of: { IsSeatOf sheet.value.value seat },
}

impl<'a, C: Sheets> SeatLease<'a, C> {
    /// The lease of a seat in a wave.
    pub(crate) fn new(
        sheet: &OnceToken<'a, Sheet>,
        wave: usize,
        board: Arc<Board, Global>,
        seat: Seat,
    ) -> SeatLease<'a, C>
        requires cell { sheet.now.of ≡ C.sheet wave }
        requires board { arc_value board ≡ sheet.now.value.value }
        requires seat { IsSeatOf sheet.now.value.value seat }
    {
        SeatLease {
            wave,
            board,
            seat,
            sheet: sheet.again(),
            of: PhantomData,
        }
    }

    /// The number of the wave.
    pub(crate) fn wave(&self) -> usize {
        self.wave
    }

    /// Draws until no chunk is left or a stop is seen. Returns whether no chunk is left.
    pub(crate) fn work<R: Wait, W: Work>(&mut self, rt: &R, work: &W) -> bool
        requires can { W.can work.now }
        ensures allowance { self.new.seat.view.allowance ≡ self.old.seat.view.allowance }
        ensures done { IsTrue result → IsDone self.new.seat.view }
        ensures stopped { (IsTrue result → ⊥) → self.new.seat.view.seen_stop ≡ true }
    {
        draw_until_stop(rt, &self.board, &mut self.seat, self.wave, work)
    }

    /// The seat, if it is one of this wave.
    pub(crate) fn finish(self, sheet: &OnceToken<'a, Sheet>, wave: usize) -> Option<Seat>
        requires cell { sheet.now.of ≡ C.sheet wave }
        ensures { IfSome result (IsSeatOf sheet.now.value.value) }
    {
        if self.wave != wave {
            return None;
        }
        sheet.agrees(&self.sheet);
        Some(self.seat)
    }
}
