//! The rule of a board's table, and the kinds of its atomic steps. The rule is in
//! `specs/Rule.antt`, and what a seat learns from each kind of step is in `specs/Steps.antt`.
ghost use Rattle.cp_board.specs.Rule.{KeepsRule};
ghost use Rattle.cp_board.specs.Steps.{DrawsTicket, ReadsStop, CallsStop, LearnsDraws};
ghost use Rattle.cp_board.specs.Views.{first_view, first_half, second_half, join_views, spent_view};

use crate::view::{Shape, View};
use atomic_table::{Join, Play, Split, TableRule};

/// What holds of the words and all views between any two steps.
pub(crate) struct BoardRule;

impl TableRule<(), View, Shape> for BoardRule {
    ghost holds = { KeepsRule };

    ghost first = { first_view };
}

/// `fetch_add` of 1 on a ticket word.
pub(crate) struct DrawTicket;

impl Play<(), View> for DrawTicket {
    ghost then = { DrawsTicket };
}

/// A load of the stop word, to check whether a stop was called.
pub(crate) struct ReadStop;

impl Play<(), View> for ReadStop {
    ghost then = { ReadsStop };
}

/// `fetch_or` of 1 on the stop word.
pub(crate) struct CallStop;

impl Play<(), View> for CallStop {
    ghost then = { CallsStop };
}

/// A load of the stop word after a join. It changes no view. From it the seat learns, by the rule,
/// that its draws are sound.
pub(crate) struct LearnDraws;

impl Play<(), View> for LearnDraws {
    ghost then = { LearnsDraws };
}

/// How a view is split in two, and how two views are joined.
pub(crate) struct Halves;

impl Split<View> for Halves {
    ghost left = { first_half };

    ghost right = { second_half };
}

impl Join<View> for Halves {
    ghost both = { join_views };

    ghost spent = { spent_view };
}
