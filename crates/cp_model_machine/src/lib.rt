//! The machine that runs compiled programs, as plain data, and the laws that its steps, its rounds
//! and its report are those of the meaning.
//!
//! `specs/` has the definitions, from the bottom up:
//!
//! - **The steps.** `Values`, `PrivateStates`, `Passing` and `Calling` say what terms, arguments
//!   and calls do to the words of a process. `Steps` is one step of any operation, `KernelSteps`
//!   adds gates and stages, `Machines` whole rounds, and `Replays` rounds in any order of events.
//!   `Ahead` says which private turns of later rounds may be made ahead of them.
//! - **The relation.** `PartOf` says when a private state is that of its process in a state of the
//!   system. `Addresses` says where variables are and which words are in reach, `Means` what words
//!   mean, and `Remaining` when a counter and frames are what is left to do. `Beginning` is about
//!   processes that haven't begun, `EffectOf` about effects on the kernel, `KernelOf` about the
//!   kernel, and `InState` about a whole machine.
//! - **The laws.** The functions of `law` state `Laws` and `RoundLaws`: the first private states
//!   and the first kernel are those of the start, private and kernel steps and turns are those of
//!   the meaning, and a turn of one process keeps the private states of the others right. So the
//!   rounds of the machine are those of the meaning, and what `Reports` reads from its words is the
//!   report.
#![tactic(auto)]

pub mod law;
