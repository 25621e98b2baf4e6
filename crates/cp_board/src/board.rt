//! The board and its calls. `specs/Models.antt` defines what contracts see of a board, and
//! `specs/BoardInside.antt` how its fields relate to its table.
//!
//! There are three kinds of steps on shared words: `fetch_add` of 1 on a ticket word, a load of the
//! stop word, and `fetch_or` of 1 on the stop word. A ticket past the end of its stripe is not a
//! number, so the seat then marks the stripe. `join` makes one load besides the steps with which
//! `atomic_table` splits and joins views.
//!
//! No clause states the following of `claim`, but its code shows it: it touches no word of a stripe
//! that its seat has marked, makes at most as many atomic steps as there are stripes, and tries no
//! step twice.
//!
//! No call except `Board::new` takes memory, and none waits.
ghost use Rattle.std.specs.Prelude.{◌≡◌, ◌<◌, ◌≤◌, ◌++◌, ◌∷◌, [], true, length, IfOk, IsErr, IfErr, IfSome, None, IsNone, IfNone, IsTrue, ◌↔◌};
ghost use Rattle.cp_board.specs.Draws.{IsSound, IsWhole};
ghost use Rattle.cp_board.specs.Models.{IsSeatOf, ChangesOnlyDraws};
ghost use Rattle.cp_board.specs.Views.{IsDone, KeepsMarks, is_used_up, first_view, first_half, second_half, join_views, with_called_stop};

use crate::marks::either;
use crate::seat::Seat;
use crate::steps::{BoardRule, CallStop, DrawTicket, Halves, LearnDraws, ReadStop};
use crate::view::{FULL_ALLOWANCE, MAX_STRIPES, MAX_TICKETS, Shape, View, WORDS_APART};
use atomic_table::Table;
use std::alloc::{AllocError, Global};
use std::marker::Model;

/// The numbers below n, to be drawn by any number of threads. A contract sees which board it is,
/// and its shape.
#[derive(Drop)]
pub struct Board {
    // The ticket words, one for each stripe, followed by the stop word. They are on cache lines of
    // their own.
    table: Table<(), View, Shape, BoardRule, Global>,
    shape: Shape,
}

impl Model for Board {
    ghost use Rattle.cp_board.specs.Models.{BoardModel};

    ghost Value = { BoardModel };

    ghost use Rattle.cp_board.specs.BoardInside.{board_model, IsValidBoard};

    ghost view = { board_model };

    ghost invariant = { IsValidBoard };
}

impl Board {
    /// A board of the numbers below `n` over `stripes` stripes, and its first seat, which
    /// has the whole allowance, no draws and no marks. Returns `Err` if memory runs out.
    pub fn new(alloc: Global, n: usize, stripes: usize) -> Result<(Board, Seat), AllocError>
        requires numbers { n ≤ MAX_TICKETS }
        requires some { 0 < stripes }
        requires most { stripes ≤ MAX_STRIPES }
        ensures of { IfOk result (λ r. IsSeatOf r.0 r.1) }
        ensures shape { IfOk result (λ r. r.0.shape ≡ record { numbers = n; stripes = stripes }) }
        ensures seat { IfOk result (λ r. r.1.view ≡ first_view r.0.shape) }
    {
        let shape = Shape {
            numbers: n,
            stripes,
        };
        let words = [0u64; (MAX_STRIPES + 1) * WORDS_APART];
        let count = (stripes + 1) * WORDS_APART;
        let (table, pass) = Table::of_words(alloc, &words[..count], &shape)?;
        let board = Board { table, shape };
        let seat = Seat {
            pass,
            stripe: 0,
            allowance: FULL_ALLOWANCE,
            count: 0,
            used_up: [false; MAX_STRIPES],
            seen_stop: false,
        };
        Ok((board, seat))
    }

    // Draws the next ticket of the stripe. Returns `None` if the seat has marked the stripe, or if
    // it finds the stripe used up and marks it.
    fn draw_from(&self, seat: &mut Seat, stripe: usize) -> Option<usize>
        requires of { IsSeatOf self.now seat.old }
        requires stripe { stripe < self.now.shape.stripes }
        ensures rest { ChangesOnlyDraws seat.old seat.new }
        ensures below { IfSome result (λ x. x < self.now.shape.numbers) }
        ensures some { IfSome result (λ x. seat.new.view.draws ≡ seat.old.view.draws ++ x ∷ []) }
        ensures none { IfNone result (seat.new.view.draws ≡ seat.old.view.draws) }
        ensures marked { IsNone result ↔ (is_used_up seat.new.view stripe ≡ true) }
        ensures kept { KeepsMarks seat.old.view seat.new.view }
        ensures sound { IsSound self.now.shape.numbers seat.new.view.draws }
        ensures few { length seat.new.view.draws ≤ self.now.shape.numbers }
    {
        let Shape { numbers, stripes } = self.shape;
        if seat.used_up[stripe] {
            return None;
        }
        let ticket = self
            .table
            .shared
            .fetch_add::<DrawTicket>(&mut seat.pass, stripe * WORDS_APART, 1);
        let number = ticket as usize * stripes + stripe;
        if number < numbers {
            seat.count += 1;
            Some(number)
        } else {
            seat.used_up[stripe] = true;
            None
        }
    }

    /// A number below n that nobody else draws. Returns `None` if all numbers have been
    /// drawn, and from then on whenever this seat asks.
    pub fn claim(&self, seat: &mut Seat) -> Option<usize>
        requires { IsSeatOf self.now seat.old }
        ensures rest { ChangesOnlyDraws seat.old seat.new }

        // The returned number, and nothing else, is added to the draws.
        ensures below { IfSome result (λ x. x < self.now.shape.numbers) }
        ensures some { IfSome result (λ x. seat.new.view.draws ≡ seat.old.view.draws ++ x ∷ []) }
        ensures none { IfNone result (seat.new.view.draws ≡ seat.old.view.draws) }
        ensures sound { IsSound self.now.shape.numbers seat.new.view.draws }
        ensures few { length seat.new.view.draws ≤ self.now.shape.numbers }

        // `None` means that every stripe is marked, and marks never go away.
        ensures done { IsNone result ↔ IsDone seat.new.view }
        ensures kept { KeepsMarks seat.old.view seat.new.view }
        ensures again { IsDone seat.old.view → result ≡ None }
    {
        let stripes = self.shape.stripes;
        let own = seat.stripe;
        for stripe in own..stripes {
            if let Some(number) = self.draw_from(seat, stripe) {
                return Some(number);
            }
        }
        for stripe in 0..own {
            if let Some(number) = self.draw_from(seat, stripe) {
                return Some(number);
            }
        }
        None
    }

    /// Calls the stop for all seats of the board. This seat has then called it and seen it.
    pub fn stop(&self, seat: &mut Seat)
        requires { IsSeatOf self.now seat.old }
        ensures table { seat.new.table ≡ seat.old.table }
        ensures view { seat.new.view ≡ with_called_stop seat.old.view }
    {
        let stop_word = self.shape.stripes * WORDS_APART;
        self.table
            .shared
            .fetch_or::<CallStop>(&mut seat.pass, stop_word, 1);
        seat.seen_stop = true;
    }

    /// Whether a stop has been called: true only after a stop, and always true for a seat that has
    /// seen one. Only tests show that a seat sees a stop that another seat called.
    pub fn stopped(&self, seat: &mut Seat) -> bool
        requires { IsSeatOf self.now seat.old }
        ensures table { seat.new.table ≡ seat.old.table }
        ensures view { seat.new.view ≡ record seat.old.view { seen_stop = result } }
        ensures reported { IsTrue result ↔ (seat.new.view.seen_stop ≡ true) }
        ensures stays { seat.old.view.seen_stop ≡ true → IsTrue result }
    {
        let stop_word = self.shape.stripes * WORDS_APART;
        let found = self
            .table
            .shared
            .load::<ReadStop>(&mut seat.pass, stop_word);
        let stopped = found != 0;
        seat.seen_stop = stopped;
        stopped
    }

    /// Splits a seat into two. The allowance is halved, and the first seat keeps the larger half,
    /// the draws and the calls of the stop. Both seats keep what has been seen. The seat comes back
    /// if its allowance is 1, and only then.
    ///
    /// The second seat begins to draw from the stripe that is `apart` stripes behind the first
    /// seat's. Nothing is promised about it: seats that begin at different stripes are only faster.
    pub fn split(&self, seat: Seat, apart: usize) -> Result<(Seat, Seat), Seat>
        requires { IsSeatOf self.now seat }
        ensures tables { IfOk result (λ r. (r.0.table ≡ seat.table) × (r.1.table ≡ seat.table)) }
        ensures first { IfOk result (λ r. r.0.view ≡ first_half seat.view) }
        ensures second { IfOk result (λ r. r.1.view ≡ second_half seat.view) }
        ensures back { IfErr result (λ s. s ≡ seat) }
        ensures alone { IsErr result ↔ (seat.view.allowance ≡ 1) }
        ensures enough { IfOk result (λ _. 1 < seat.view.allowance) }
    {
        if seat.allowance == 1 {
            return Err(seat);
        }
        let stripes = self.shape.stripes;
        let Seat {
            mut pass,
            stripe,
            allowance,
            count,
            used_up,
            seen_stop,
        } = seat;
        let second_pass = self.table.shared.split_seat::<Halves>(&mut pass);
        let half = allowance / 2;
        let next = (stripe + apart % stripes) % stripes;
        let first = Seat {
            pass,
            stripe,
            allowance: allowance - half,
            count,
            used_up,
            seen_stop,
        };
        let second = Seat {
            pass: second_pass,
            stripe: next,
            allowance: half,
            count: 0,
            used_up,
            seen_stop,
        };
        Ok((first, second))
    }

    /// Joins two seats into one. The allowances are added, and the draws, the calls of the stop and
    /// what has been seen are combined.
    ///
    /// The load at the end changes nothing. From it the seat learns that the draws of both seats
    /// are sound together.
    pub fn join(&self, first: Seat, second: Seat) -> Seat
        requires first { IsSeatOf self.now first }
        requires second { IsSeatOf self.now second }
        ensures table { result.table ≡ first.table }
        ensures view { result.view ≡ join_views first.view second.view }
        ensures sound { IsSound self.now.shape.numbers result.view.draws }
        ensures few { length result.view.draws ≤ self.now.shape.numbers }

        // A seat for which `claim` returned `None` stays done.
        ensures first_done { IsDone first.view → IsDone result.view }
        ensures second_done { IsDone second.view → IsDone result.view }
    {
        let stop_word = self.shape.stripes * WORDS_APART;
        let Seat {
            mut pass,
            stripe,
            allowance,
            count,
            used_up,
            seen_stop,
        } = first;
        self.table
            .shared
            .join_seat::<Halves>(&mut pass, second.pass);
        self.table.shared.load::<LearnDraws>(&mut pass, stop_word);
        Seat {
            pass,
            stripe,
            allowance: allowance + second.allowance,
            count: count + second.count,
            used_up: either(&used_up, &second.used_up),
            seen_stop: seen_stop || second.seen_stop,
        }
    }

    /// Ends the board and returns the number of draws. The seat has to be the only one left, with
    /// the whole allowance.
    pub fn close(self, seat: Seat) -> usize
        requires of { IsSeatOf self seat }
        requires whole { seat.view.allowance ≡ FULL_ALLOWANCE }
        ensures count { result ≡ length seat.view.draws }
        ensures sound { IsSound self.shape.numbers seat.view.draws }

        // A seat for which `claim` ever returned `None` knows that every number was drawn.
        ensures done { IsDone seat.view → IsWhole self.shape.numbers seat.view.draws }
        ensures all { IsDone seat.view → result ≡ self.shape.numbers }

        // A stop is seen only if it was called.
        ensures stop { seat.view.seen_stop ≡ true → seat.view.called_stop ≡ true }
    {
        let Board { table, shape: _ } = self;
        let Seat { pass, count, .. } = seat;
        table.close_with(pass).free();
        count
    }
}
