//! The marks of the stripes that a seat has found used up.
ghost use Rattle.std.specs.Prelude.{◌≡◌};
ghost use Rattle.cp_board.specs.Views.{or_each};

use crate::view::MAX_STRIPES;

/// One mark for each stripe. A board with fewer stripes leaves the rest unmarked.
pub(crate) type Marks = [bool; MAX_STRIPES];

/// The stripes that either seat has found used up.
pub(crate) fn either(first: &Marks, second: &Marks) -> Marks
    ensures { result ≡ or_each first.now second.now }
{
    let mut both = *first;
    for j in 0..MAX_STRIPES {
        both[j] |= second[j];
    }
    both
}
