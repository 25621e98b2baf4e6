//! How plans are carried out.
//!
//! A part of a plan starts by a plan of its own. The walk comes back from each part but a last one,
//! from which nothing is left to do. The compiler puts the heaviest part last, so that any other
//! has at most half of the words, and the walk is never deeper than the number of words has bits.

ghost use Rattle.std.specs.Prelude.{◌≡◌, ◌+◌, ◌<◌, ◌^◌, ◌++◌, ℕ, ℤ, List, IfSome, length, take};
ghost use Rattle.cp_model_program.specs.Programs as code;
ghost use Rattle.cp_model_program.specs.Starts.{carry_out};
ghost use Rattle.cp_private.specs.Plans.{carried, carried_or_same};
ghost use Rattle.cp_program.specs.View as view;
ghost use Rattle.cp_program.specs.View.{plan_at, plans_of};

use crate::words::{fill, repeat};
use cp_program::program::{Program, StartPiece};

/// Pieces of a plan, which counts from address `base`. The plans of their parts have numbers below
/// `below`.
#[derive(Clone, Copy)]
pub(crate) struct Rest<'p> {
    pub(crate) base: usize,
    pub(crate) below: usize,
    pub(crate) pieces: &'p [StartPiece],
}

// The pieces of the part at address `at`, unless its plan isn't below `below`, or its words are
// behind all `count` words.
fn rest_of(program: &Program, below: usize, at: usize, plan: u32, count: usize) -> Option<Rest<'_>>
    ensures words { (ws : List ℤ) → length ws ≡ count → carried_or_same program.now result ws
        ≡ carry_out at (plan_at (take below (plans_of program.now)) plan) ws }
    ensures lower { IfSome result (λ r. r.below < below) }
    ensures near { IfSome result (λ r. r.base < count) }
{
    let number = plan as usize;
    if below <= number {
        return None;
    }
    if count <= at {
        return None;
    }
    Some(Rest {
        base: at,
        below: number,
        pieces: program.starts(plan),
    })
}

// Makes the words of one piece start.
#[cycle(starts)]
fn start_piece(
    own: &mut [i32],
    shared: &mut [i32],
    program: &Program,
    below: usize,
    base: usize,
    piece: StartPiece,
)
    requires words { length own.old + length shared.old < 2 ^ 32 }
    requires base { base < 2 ^ 33 }
    ensures words { own.new ++ shared.new ≡ carry_out base
        (view.piece_before (take below (plans_of program.now)) piece code.Done)
        (own.old ++ shared.old) }
    ensures own { length own.new ≡ length own.old }
    ensures shared { length shared.new ≡ length shared.old }
{
    match piece {
        StartPiece::Fill { at, count, value } => {
            fill(own, shared, base + at as usize, count as usize, value);
        }
        StartPiece::Repeat { at, size, count } => {
            let more = count.saturating_sub(1) as usize;
            repeat(own, shared, base + at as usize, size as usize, more);
        }
        StartPiece::Part { at, plan } => {
            let count = own.len() + shared.len();
            if let Some(rest) = rest_of(program, below, base + at as usize, plan, count) {
                start_rest(own, shared, program, rest);
            }
        }
    }
}

// Makes the words of all pieces start but those of a part that is the last one, whose pieces are
// returned.
#[cycle(starts)]
fn start_but_last<'p>(
    own: &mut [i32],
    shared: &mut [i32],
    program: &'p Program,
    rest: Rest<'p>,
) -> Option<Rest<'p>>
    requires words { length own.old + length shared.old < 2 ^ 32 }
    requires base { rest.base < 2 ^ 33 }
    ensures words { carried_or_same program.now result (own.new ++ shared.new)
        ≡ carried program.now rest.entry (own.old ++ shared.old) }
    ensures lower { IfSome result (λ r. r.below < rest.entry.below) }
    ensures near { IfSome result (λ r. r.base < 2 ^ 33) }
    ensures own { length own.new ≡ length own.old }
    ensures shared { length shared.new ≡ length shared.old }
{
    let (last, others) = rest.pieces.split_last()?;
    for piece in others {
        start_piece(own, shared, program, rest.below, rest.base, *piece);
    }
    match *last {
        StartPiece::Part { at, plan } => {
            let count = own.len() + shared.len();
            rest_of(program, rest.below, rest.base + at as usize, plan, count)
        }
        piece => {
            start_piece(own, shared, program, rest.below, rest.base, piece);
            None
        }
    }
}

// Makes the words of these pieces start.
#[cycle(starts)]
fn start_rest(own: &mut [i32], shared: &mut [i32], program: &Program, rest: Rest)
    requires words { length own.old + length shared.old < 2 ^ 32 }
    requires base { rest.base < 2 ^ 33 }
    ensures words { own.new ++ shared.new ≡ carried program.now rest.entry
        (own.old ++ shared.old) }
    ensures own { length own.new ≡ length own.old }
    ensures shared { length shared.new ≡ length shared.old }
{
    let mut left = Some(rest);
    while let Some(next) = left {
        left = start_but_last(own, shared, program, next);
    }
}

/// Makes words start by a plan of these pieces, whose parts have plans of the program. The plan
/// counts from address `base`.
pub(crate) fn start(
    own: &mut [i32],
    shared: &mut [i32],
    base: usize,
    program: &Program,
    pieces: &[StartPiece],
)
    requires words { length own.old + length shared.old < 2 ^ 32 }
    requires base { base < 2 ^ 33 }
    ensures words { own.new ++ shared.new ≡ carry_out base
        (view.plan_of (plans_of program.now) pieces.now) (own.old ++ shared.old) }
    ensures own { length own.new ≡ length own.old }
    ensures shared { length shared.new ≡ length shared.old }
{
    let below = program.plans();
    let rest = Rest {
        base,
        below,
        pieces,
    };
    start_rest(own, shared, program, rest);
}

/// Makes words start by the plan of the program with this number. The plan counts from address
/// `base`.
pub(crate) fn start_by(
    own: &mut [i32],
    shared: &mut [i32],
    base: usize,
    program: &Program,
    plan: u32,
)
    requires words { length own.old + length shared.old < 2 ^ 32 }
    requires base { base < 2 ^ 33 }
    ensures words { own.new ++ shared.new ≡ carry_out base (plan_at (plans_of program.now) plan)
        (own.old ++ shared.old) }
    ensures own { length own.new ≡ length own.old }
    ensures shared { length shared.new ≡ length shared.old }
{
    let rest = Rest {
        base,
        below: plan as usize,
        pieces: program.starts(plan),
    };
    start_rest(own, shared, program, rest);
}
