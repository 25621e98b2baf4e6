//! A ticket board: the numbers below n, each drawn by only one seat, on whichever threads the seats
//! are, and a stop that any seat may call.
//!
//! A board has one ticket word for each of its stripes, and a stop word. `Board::new` returns the
//! board and its first seat. `Board::split` makes two seats of one and `Board::join` makes one of
//! two, so that each thread gets a seat of its own. A seat draws with `Board::claim`, calls the
//! stop with `Board::stop` and checks for it with `Board::stopped`. Whoever has joined all seats
//! closes the board with `Board::close`, and then knows everything that was drawn.
//!
//! | What | Where it is defined |
//! |---|---|
//! | draws, and when a list of them is sound or whole | `specs/Draws.antt` |
//! | which number is which ticket of which stripe | `specs/Stripes.antt` |
//! | what a seat knows, and how calls change it | `specs/Views.antt` |
//! | what contracts see of a board and of a seat | `specs/Models.antt` |
//! | the rule that holds between any two atomic steps | `specs/Rule.antt` |
//! | what a seat learns from each kind of atomic step | `specs/Steps.antt` |
//!
//! The board's table, from `atomic_table`, keeps the rule: that crate promises that the rule holds
//! between any two steps of any threads. No clause here names the rule. What a caller learns from
//! it is stated by the clauses of the calls.
#![tactic(auto)]

mod board;
mod marks;
mod seat;
mod steps;
mod view;

pub use board::Board;
pub use seat::Seat;
pub use view::{FULL_ALLOWANCE, MAX_STRIPES, MAX_TICKETS, Shape, View};
