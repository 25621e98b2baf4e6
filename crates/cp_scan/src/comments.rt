//! Comments: any bytes but `"` between two `"`. `comment` of `specs/Pieces.antt` defines what is
//! read.

ghost use Rattle.std.specs.Prelude.{◌≡◌};
ghost use Rattle.cp_scan.specs.Fronts.{separator_piece};
ghost use Rattle.cp_scan.specs.Pieces as spec;

use crate::bytes::length_before_quote;
use crate::refusal::Cause;

/// Reads the rest of a comment, and returns the number of the bytes of all of it. The text before
/// `rest` ends with its opening `"`.
#[tactic(auto, unfolding(crate::specs::Pieces::comment))]
pub fn comment(rest: &[u8]) -> Result<usize, Cause>
    ensures { separator_piece result ≡ spec.comment rest.now }
{
    let n = length_before_quote(rest);
    if n < rest.len() {
        Ok(n + 2)
    } else {
        Err(Cause::Comment)
    }
}
