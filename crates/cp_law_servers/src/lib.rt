//! Servers: processes that may wait forever, so that a run may end while they wait.
#![tactic(auto)]

pub mod law;
