//! The shape of a board, and what a seat knows. The functions on views are in `specs/Views.antt`.
use std::collections::LinkedList;

/// The most numbers that a board may have.
pub const MAX_TICKETS: usize = 255;

/// The most stripes over which a board may spread its numbers.
pub const MAX_STRIPES: usize = 64;

/// The allowance of a board's first seat, which is the number of seats that it may be split into.
pub const FULL_ALLOWANCE: usize = 64;

/// The distance between the words of a board, in words. Each has a cache line of 64 bytes to
/// itself, so a thread that draws from its own stripe waits for no other thread.
pub(crate) const WORDS_APART: usize = 8;

/// How many numbers a board has, and how many ticket words they are spread over.
#[derive(Clone, Copy)]
pub struct Shape {
    pub(crate) numbers: usize,
    pub(crate) stripes: usize,
}

/// What a seat knows. It is used only in clauses: no value of this type is ever made.
pub struct View {
    /// The shape of the seat's board.
    pub(crate) shape: Shape,
    /// The number of seats that this one may be split into. The allowances of a board's seats add
    /// up to `FULL_ALLOWANCE`.
    pub(crate) allowance: usize,
    /// The numbers that the seat has drawn, with the latest last.
    pub(crate) draws: LinkedList<usize>,
    /// For each stripe, whether the seat has found it used up.
    pub(crate) used_up: LinkedList<bool>,
    /// Whether the seat has called `Board::stop`.
    pub(crate) called_stop: bool,
    /// Whether the seat has called `Board::stop`, or `Board::stopped` has returned true.
    pub(crate) seen_stop: bool,
}
