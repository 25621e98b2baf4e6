//! From the bytes of readers to an accepted text and a fit input, or to a refusal.
//!
//! - `reading`: reads bytes. `checking`: parses a text and judges its tree.
//! - `inputs`: what each process reads, of one input or by its number. `cutting`: checks an input,
//!   and cuts it into the inputs of the processes.
//! - `sources`: reads a text that is accepted, and an input that is fit. A command makes one
//!   `AcceptedText`, and all that it does takes that.
//! - `refusal`: why a command has no result. `writing`: writes the result of one.
//!
//! `specs/Refusals.antt` and `specs/Texts.antt` define what each refusal means,
//! `specs/Cutting.antt` which inputs are fit, `specs/Inputs.antt` what each process reads,
//! `specs/KnownRefusals.antt` what a refusal says of bytes that are known, and `specs/Takings.antt`
//! how much is read.
#![tactic(auto)]

pub mod checking;
pub mod cutting;
pub mod inputs;
pub mod reading;
pub mod refusal;
pub mod sources;
pub mod writing;
