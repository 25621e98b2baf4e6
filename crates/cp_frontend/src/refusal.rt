//! Why a command has no result: the line that it writes then, and its exit status.

ghost use Rattle.std.specs.Prelude.{◌≡◌};
ghost use Rattle.cp_frontend.specs.Refusals.{exit_status, of_order, of_read, of_rules, of_scan};
ghost use Rattle.cp_frontend.specs.declared.refusal.Refusal.TheVariants as refusal;

use crate::reading::ReadError;
use crate::writing::WriteFailed;
use cp_base_schedule::reading::OrderError;
use cp_model::rules::{Rule, Violation};
use cp_rules::text::RuleError;
use cp_scan::{Cause, ScanError};
use std::alloc::{AllocError, AllocFailed};
use thiserror::Error;

/// Why a command has no result. A place is the offset of a byte in the text or in the input, from
/// 0.
#[derive(Clone, Copy, Debug, PartialEq, Eq, Error)]
pub enum Refusal {
    /// S1 to S6: the text can't be split into tokens.
    #[error("refused S{} at {at}", scan_number(*cause))]
    Scan { cause: Cause, at: usize },
    /// Y1: no text continues like this.
    #[error("refused Y1 at {at}")]
    Unexpected { at: usize },
    /// Y2: the text ends too early.
    #[error("refused Y2 at {at}")]
    Unfinished { at: usize },
    /// Y3: the text is nested too deep.
    #[error("refused Y3 at {at}")]
    TooDeep { at: usize },
    /// C1 to C13: a rule is broken.
    #[error("refused C{} at {at}", rule.number())]
    Check { rule: Rule, at: usize },
    /// I3: a byte of the input is above 127.
    #[error("refused I3 at {at}")]
    InputByte { at: usize },
    /// I4: the input is longer than 1,048,576 bytes.
    #[error("refused I4 at 1048576")]
    InputSize,
    /// O1: a line of the order isn't well formed, or the order is longer than 1,048,576 bytes.
    #[error("refused O1 at {at}")]
    Order { at: usize },
    /// M: memory was refused.
    #[error("fault M")]
    Memory,
    /// I1: a read failed.
    #[error("fault I1")]
    Read,
    /// I2: a write failed.
    #[error("fault I2")]
    Write,
}

/// The number of a cause in S1 to S6.
pub fn scan_number(cause: Cause) -> u8
    ensures { result ≡ Rattle.cp_frontend.specs.Refusals.scan_number cause }
{
    match cause {
        Cause::Byte => 1,
        Cause::Comment => 2,
        Cause::Character => 3,
        Cause::Number => 4,
        Cause::Word => 5,
        Cause::Size => 6,
    }
}

/// The exit status after a refusal: 1 if the text or the input is refused, 3 if memory runs out, 4
/// if reading or writing fails.
pub fn exit_of(refusal: &Refusal) -> u8
    ensures { result ≡ exit_status refusal.now }
{
    match refusal {
        Refusal::Memory => 3,
        Refusal::Read | Refusal::Write => 4,
        _ => 1,
    }
}

impl From<AllocError> for Refusal {
    ghost from_gives = { λ _ r. r ≡ refusal.Memory };

    fn from(_error: AllocError) -> Refusal {
        Refusal::Memory
    }
}

impl<T: Drop> From<AllocFailed<T>> for Refusal {
    ghost from_gives = { λ _ r. r ≡ refusal.Memory };

    fn from(_error: AllocFailed<T>) -> Refusal {
        Refusal::Memory
    }
}

impl From<ReadError> for Refusal {
    ghost from_gives = { λ error r. r ≡ of_read error };

    fn from(error: ReadError) -> Refusal {
        match error {
            ReadError::Read => Refusal::Read,
            ReadError::Memory => Refusal::Memory,
        }
    }
}

impl From<OrderError> for Refusal {
    ghost from_gives = { λ error r. r ≡ of_order error };

    fn from(error: OrderError) -> Refusal {
        match error {
            OrderError::Line { at } => Refusal::Order { at },
            OrderError::Memory => Refusal::Memory,
        }
    }
}

impl From<WriteFailed> for Refusal {
    ghost from_gives = { λ _ r. r ≡ refusal.Write };

    fn from(_error: WriteFailed) -> Refusal {
        Refusal::Write
    }
}

impl From<ScanError> for Refusal {
    ghost from_gives = { λ error r. r ≡ of_scan error };

    fn from(error: ScanError) -> Refusal {
        match error {
            ScanError::Refused { cause, at } => Refusal::Scan { cause, at },
            ScanError::Memory => Refusal::Memory,
        }
    }
}

impl From<Violation> for Refusal {
    ghost from_gives = { λ violation r. r ≡ refusal.Check violation.rule violation.at };

    fn from(violation: Violation) -> Refusal {
        Refusal::Check {
            rule: violation.rule,
            at: violation.at,
        }
    }
}

impl From<RuleError> for Refusal {
    ghost from_gives = { λ error r. r ≡ of_rules error };

    fn from(error: RuleError) -> Refusal {
        match error {
            RuleError::Broken(violation) => Refusal::from(violation),
            RuleError::Memory => Refusal::Memory,
        }
    }
}
