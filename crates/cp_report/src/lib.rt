//! The report of a machine. Its bytes are those that cp_model_machine's `specs/Reports.antt` reads
//! off the machine's words as plain data.
//!
//! - `lines`, `gates`, `chains`: single lines, the lines of the gates of monitors, and those of
//!   chains of askers.
//! - `subject`, `processes`, `monitors`: what a report describes, and the lines of its processes
//!   and monitors.
//! - `report`: the whole report.
#![tactic(auto)]

mod chains;
mod gates;
mod lines;
mod monitors;
mod processes;
pub mod report;
mod subject;
