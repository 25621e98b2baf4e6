//! A machine at its start, made of the program of a text and what its processes read.
//! `specs/Starts.antt` defines the state that it is in.
#![tactic(auto)]

pub mod starting;
