//! What the pieces of a plan are: few, without parts, or one fill.

ghost use Rattle.std.specs.Prelude.{◌≡◌, ◌&&◌, List};
ghost use Rattle.cp_model_program.specs.Plans as text_plans;
ghost use Rattle.cp_model_program.specs.Programs as code;
ghost use Rattle.cp_program.specs.View as code_view;

use cp_program::program::StartPiece;

// The most pieces of a plan whose pieces are put among those of the whole.
const SHORT: usize = 8;

// The value with which all `size` words start, if a piece is a fill of them.
fn value_of_piece(size: u32, piece: StartPiece) -> Option<i32>
    ensures { (known : List code.StartPlan) → result ≡ text_plans.value_of_fill size
        (code_view.piece_before known piece code.Done) }
{
    match piece {
        StartPiece::Fill { at, count, value } => {
            if at == 0 && count == size {
                Some(value)
            } else {
                None
            }
        }
        StartPiece::Repeat { .. } => None,
        StartPiece::Part { .. } => None,
    }
}

/// The value with which all `size` words start, if the pieces of a plan are one fill of them.
pub(crate) fn value_of_fill(size: u32, pieces: &[StartPiece]) -> Option<i32>
    ensures { (known : List code.StartPlan)
        → result ≡ text_plans.value_of_fill size (code_view.plan_of known pieces.now) }
{
    if pieces.len() != 1 {
        return None;
    }
    value_of_piece(size, pieces[0])
}

/// Whether the pieces of a plan are few.
pub(crate) fn is_short(pieces: &[StartPiece]) -> bool
    ensures { (known : List code.StartPlan)
        → result ≡ text_plans.is_short (code_view.plan_of known pieces.now) }
{
    pieces.len() <= SHORT
}

// Whether none of the pieces is a part.
fn is_flat(pieces: &[StartPiece]) -> bool
    ensures { (known : List code.StartPlan)
        → result ≡ text_plans.is_flat (code_view.plan_of known pieces.now) }
{
    for piece in pieces {
        if let StartPiece::Part { .. } = piece {
            return false;
        }
    }
    true
}

/// Whether the pieces are few, and none of them is a part.
pub(crate) fn is_light(pieces: &[StartPiece]) -> bool
    ensures { (known : List code.StartPlan) → let p = code_view.plan_of known pieces.now in
        result ≡ (text_plans.is_short p && text_plans.is_flat p) }
{
    if is_short(pieces) {
        is_flat(pieces)
    } else {
        false
    }
}
