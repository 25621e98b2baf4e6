//! States of a run that come again.
//!
//! - `state_loop`: rounds from a state on until it comes again, after which the machine is put back.
//! - `kept`: a copy of a state, and who has moved since.
//!
//! Without the clock, a state that equals an earlier one, apart from what was displayed, comes again
//! forever. That isn't proved, so an outcome only says that it came again.
#![tactic(auto)]

mod kept;
pub mod state_loop;
