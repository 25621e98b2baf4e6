//! Who could continue whom, and circles of processes that wait for each other, as plain data.
//!
//! - `site`: the `continue` statements of a process. `circle`: a circle.
#![tactic(auto)]

pub mod circle;
pub mod site;
