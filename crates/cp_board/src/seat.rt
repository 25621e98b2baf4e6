//! The right of one thread to draw from a board. `specs/SeatInside.antt` defines how the fields of
//! a seat relate to its view.
ghost use Rattle.std.specs.Prelude.{◌≡◌};

use crate::marks::Marks;
use crate::view::View;
use std::marker::Model;

/// A seat of a board. A contract sees which board the seat belongs to, and its view.
#[derive(Drop)]
pub struct Seat {
    pub(crate) pass: atomic_table::Seat<(), View>,
    // The stripe from which the seat draws first. Nothing is promised about it.
    pub(crate) stripe: usize,
    pub(crate) allowance: usize,
    // How many numbers the seat has drawn.
    pub(crate) count: usize,
    pub(crate) used_up: Marks,
    pub(crate) seen_stop: bool,
}

impl Model for Seat {
    ghost use Rattle.cp_board.specs.Models.{SeatModel};

    ghost Value = { SeatModel };

    ghost use Rattle.cp_board.specs.SeatInside.{seat_model, IsValidSeat};

    ghost view = { seat_model };

    ghost invariant = { IsValidSeat };
}

impl Seat {
    /// How many seats this one may be split into.
    pub fn allowance(&self) -> usize
        ensures { result ≡ self.now.view.allowance }
    {
        self.allowance
    }
}
