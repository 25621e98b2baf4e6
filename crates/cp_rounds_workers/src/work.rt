//! What is done at a chunk, and how a seat draws.

ghost use Rattle.std.specs.Prelude.{◌≡◌, ◌<◌, ◌≤◌, length, true, IsTrue};
ghost use Rattle.cp_board.specs.Models.{IsSeatOf};
ghost use Rattle.cp_board.specs.Views.{IsDone};

use cp_board::{Board, Seat};
use std::sync::Wait;

/// What a worker pool does at each chunk of each wave.
pub trait Work {
    /// What has to hold of the work for it to be done.
    ghost can: { Self → Type 0 };

    /// Does what is to be done at a chunk of a wave.
    fn work<R: Wait>(&self, rt: &R, wave: usize, chunk: usize)
        requires can { can self.now };
}

/// Draws chunks and works on them, until none is left.
pub(crate) fn draw_all<R: Wait, W: Work>(
    rt: &R,
    board: &Board,
    seat: &mut Seat,
    wave: usize,
    work: &W,
)
    requires of { IsSeatOf board.now seat.old }
    requires can { W.can work.now }
    ensures of { IsSeatOf board.now seat.new }
    ensures allowance { seat.new.view.allowance ≡ seat.old.view.allowance }
    ensures done { IsDone seat.new.view }
{
    'draw: while let Some(chunk) = board.claim(seat) {
        work.work(rt, wave, chunk);
    }
}

/// Draws chunks and works on them, until none is left or a stop is seen. Returns whether none is
/// left.
pub(crate) fn draw_until_stop<R: Wait, W: Work>(
    rt: &R,
    board: &Board,
    seat: &mut Seat,
    wave: usize,
    work: &W,
) -> bool
    requires of { IsSeatOf board.now seat.old }
    requires can { W.can work.now }
    ensures of { IsSeatOf board.now seat.new }
    ensures allowance { seat.new.view.allowance ≡ seat.old.view.allowance }
    ensures done { IsTrue result → IsDone seat.new.view }
    ensures stopped { (IsTrue result → ⊥) → seat.new.view.seen_stop ≡ true }
{
    'draw: while !board.stopped(seat) {
        let Some(chunk) = board.claim(seat) else {
            return true;
        };
        work.work(rt, wave, chunk);
    }
    false
}
