//! The exit status of a verdict.

ghost use Rattle.std.specs.Prelude.{◌≡◌};
ghost use Rattle.cp_outcome.specs.Statuses.{status};

use crate::verdict::Verdict;

/// The exit status of a verdict: 0 if all processes have ended, 5 if they are stuck, 6 if
/// one has faulted, 7 if they still move.
pub fn status_of(verdict: Verdict) -> u8
    ensures { result ≡ status verdict }
{
    match verdict {
        Verdict::Ended => 0,
        Verdict::Stuck => 5,
        Verdict::Fault => 6,
        Verdict::Running => 7,
    }
}
