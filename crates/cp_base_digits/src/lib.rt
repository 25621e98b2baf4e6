//! The digits of numbers. `cp_model`'s `specs/Decimal.antt` and `specs/Report.antt` define them.
#![tactic(auto)]

pub mod decimal;
pub mod hexadecimal;
