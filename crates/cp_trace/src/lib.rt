//! A trace: what becomes of each process and monitor of a machine, round by round.
//!
//! - `tracer`: follows a machine, and reports it in one of four forms.
//! - `topic`: what a trace is about.
//! - `owners`: the processes and monitors that a trace reports.
//! - `trace`: what was seen of a machine, and what changed since: of a `process`, of a `monitor`,
//!   and of the `values` of variables, whose places are their `shapes`. `vocabulary`: names in
//!   place of numbers.
//! - `changes`: what changed; as `lines` for people, as `objects` for programs.
//! - `grid`: what each process and monitor is after each of some rounds; as a `timeline` of text,
//!   and in `svg` as a picture of `bars`, with its `markup` and `colours`.
//!
//! What is seen of a machine takes memory once: it doesn't grow with the rounds. All of this is for
//! people to read, and is tested. `specs/Reporting.antt` and `specs/Tracers.antt` say what is added
//! to the buffer.
#![tactic(auto)]

mod bars;
mod changes;
mod colours;
mod grid;
mod lines;
mod markup;
mod monitor;
mod objects;
mod owners;
mod process;
mod shapes;
mod svg;
mod timeline;
pub mod topic;
mod trace;
pub mod tracer;
mod values;
mod vocabulary;
