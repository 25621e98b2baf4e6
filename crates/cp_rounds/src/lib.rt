//! The machine: rounds and runs by threads, and what can be read of the machine between them.
//!
//! A round or a run makes of the machine what the definitions of cp_model_machine make of it as
//! plain data, for every plan and any schedule of the threads (`specs/Views.antt` defines the plain
//! data). By the laws of cp_model_machine, the machine is then in the next state of the meaning
//! (`specs/InStates.antt`).
//!
//! - `machine`, `reading`, `chain`, `checkpoint`, `finished_machine`: the public calls. `starting`:
//!   how a machine starts.
//! - `state`: the state of a process, by what the kernel and it know of it. `inspect`: what a
//!   trace reads of a machine.
//! - `gate`, of cp_rounds_handoff: the hook that is called before each turn.
//! - `parts`: what rounds change. `closing`: the end of a round.
//! - `run`, `round`: rounds by threads that are kept, which draw the chunks of each wave from its
//!   board and make their private turns at a handoff queue (cp_rounds_handoff).
//! - `run_ahead`, `ahead_turns`: several rounds at once, while processes only compute.
//! - `coordinator`, `finishing`: what the calling thread holds in a round, how it takes private
//!   states back, and how it finishes their turns.
//! - `replay`, `copies`, `events`: one round in any order of events, on the calling thread.
#![tactic(auto)]

mod ahead_turns;
mod chain;
pub mod checkpoint;
mod closing;
mod coordinator;
mod copies;
mod events;
pub mod finished_machine;
mod finishing;
mod inspect;
pub mod machine;
mod parts;
pub mod reading;
pub mod replay;
mod round;
mod run;
mod run_ahead;
mod starting;
mod state;

pub use cp_rounds_handoff::gate;
