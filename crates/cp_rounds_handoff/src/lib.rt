//! The private turns of a round on their way between threads. They are at a handoff queue, chunk by
//! chunk, where whichever thread draws a chunk makes them.
//!
//! - `handoff`, `cursor`: the handoff queue with a batch for each chunk, and the places on it.
//! - `slot`, `task`: the place of a process, and the turn that is there, whose type says which
//!   private state it turns (`specs/Tasks.antt`). `open_round`: the round of these turns.
//! - `handoff_turns`: how the threads make the turns of a chunk. `gate`: the hook that is called
//!   before each.
//! - `turns`, `kernel_need`: a private turn made in place (`specs/Turned.antt`), and processes that
//!   have no kernel turn to make, so that their turns of several rounds are made one after another.
//! - `config`, `round_time`: what no round changes, and the time of a round. `law`: threads may
//!   share a configuration.
//! - `sharing`, `run_ahead_size`: how the turns of a round are shared out, and how many rounds are
//!   worth making at once.
#![tactic(auto)]

pub mod config;
pub mod cursor;
pub mod gate;
pub mod handoff;
pub mod handoff_turns;
pub mod kernel_need;
pub mod law;
pub mod open_round;
pub mod round_time;
pub mod run_ahead_size;
pub mod sharing;
pub mod slot;
pub mod task;
pub mod turns;
