//! The command line: from the words that cpm is given to a command.
//!
//! - `command`: what cpm can be asked to do.
//! - `reading`: parses the words by the `grammar`, and takes the command from what was parsed, with
//!   the values of its `options`, which are `numbers` or `defaults`, its `inputs` and its `servers`.
//! - `arguments`: which arguments the grammar has, and what help says about them.
//! - `completions`: scripts by which shells complete words, from the same grammar.
//! - `misuse`: what is wrong with words that the grammar accepts. `unknown`: what is meant by words
//!   that it refuses.
//!
//! `specs/Commands.antt`, `specs/Options.antt` and `specs/Numbers.antt` define what arguments mean.
#![tactic(auto)]

mod arguments;
pub mod command;
pub mod completions;
pub mod defaults;
mod grammar;
mod inputs;
mod misuse;
pub mod numbers;
mod options;
pub mod reading;
mod servers;
mod unknown;

pub use cp_base_config::explaining::{Explaining, Extent, Form};
pub use cp_base_config::outcome::{OutcomeForm, UntilStill};
pub use cp_base_config::run::{Replay, Run};
pub use cp_base_config::search::{SearchForm, Searching};
pub use cp_base_config::trace::{TraceForm, Tracing};
