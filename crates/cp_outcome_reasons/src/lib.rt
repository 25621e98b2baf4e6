//! Why each process that hasn't ended is where it is, and where in the text that is: the lines of
//! an outcome after its verdict, the graph of who waits for whom, and the outcome as an object.
//!
//! - `reasons`: the lines. `waits`: the graph. `object`: the object.
//! - `servers`: who may wait forever, or would have to.
//! - `snapshot`: where all are, as plain data. `states`: the word of a state.
//! - `names`: components, queues and places of the text.
//! - `faults`: what a fault means. `shown`: variables that are asked for by name.
//! - `delays`, `helpers`: who could continue whom, as data and in words. `loops`: a state that came
//!   again.
//!
//! All of this is for people to read, and is tested. `specs/Graphs.antt` says which form a graph
//! has.
#![tactic(auto)]

mod delays;
mod faults;
mod helpers;
pub mod loops;
pub mod names;
pub mod object;
pub mod reasons;
pub mod servers;
mod shown;
pub mod snapshot;
mod states;
pub mod waits;
