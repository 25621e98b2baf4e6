//! Plans in progress, which are made from the end.

ghost use Rattle.std.specs.Prelude.{◌≡◌, ◌+◌, List, [], IfOk, OnOk, take};
ghost use Rattle.cp_model_program.specs.Plans.{fill_before, pieces_before};
ghost use Rattle.cp_model_program.specs.Programs as code;
ghost use Rattle.cp_compile_emit.specs.Drafts.{Joins, plan_of};
ghost use Rattle.cp_program.specs.View as view;

use cp_compile_symbols::small_sum;
use cp_program::program::StartPiece;
use std::alloc::{AllocError, Global};

/// A plan in progress: the pieces that are planned so far, the last one first.
#[derive(Drop)]
pub struct Draft {
    pub(crate) starts: Vec<StartPiece>,
}

// The fill that combines a fill and `next`, if `next` is a fill with the same value that begins
// where the first one ends.
fn join(at: u32, count: u32, value: i32, next: StartPiece) -> Result<Option<StartPiece>, AllocError>
    ensures { IfOk result (λ both. Joins at count value next both) }
{
    match next {
        StartPiece::Fill {
            at: after,
            count: more,
            value: same,
        } if at.checked_add(count) == Some(after) && same == value => {
            let count = small_sum(count, more)?;
            Ok(Some(StartPiece::Fill { at, count, value }))
        }
        _ => Ok(None),
    }
}

impl Draft {
    /// Creates a draft with nothing planned.
    pub fn new(alloc: Global) -> Draft
        ensures { result.starts.items ≡ [] }
    {
        Draft {
            starts: Vec::new(alloc),
        }
    }

    /// Plans `count` words that all start with `value`, before those planned so far.
    pub fn fill(&mut self, at: u32, count: u32, value: i32) -> Result<(), AllocError>
        ensures { OnOk result ((known : List code.StartPlan)
            → plan_of known self.new ≡ fill_before at count value (plan_of known self.old)) }
    {
        let first = StartPiece::Fill { at, count, value };
        let Some(next) = self.starts.pop() else {
            self.starts.push(first)?;
            return Ok(());
        };
        match join(at, count, value, next)? {
            Some(both) => self.starts.push(both)?,
            None => {
                self.starts.push(next)?;
                self.starts.push(first)?;
            }
        }
        Ok(())
    }

    /// Plans, before everything planned so far, that the block of `size` words at `at` is repeated,
    /// for `count` blocks in all.
    pub fn repeat(&mut self, at: u32, size: u32, count: u32) -> Result<(), AllocError>
        ensures { OnOk result ((known : List code.StartPlan)
            → plan_of known self.new ≡ code.Repeat at size count (plan_of known self.old)) }
    {
        self.starts.push(StartPiece::Repeat { at, size, count })?;
        Ok(())
    }

    /// Plans, before everything planned so far, that the part at `at` starts by a plan.
    pub fn part(&mut self, at: u32, plan: u32) -> Result<(), AllocError>
        ensures { OnOk result ((known : List code.StartPlan) → plan_of known self.new
            ≡ code.Part at (view.plan_at known plan) (plan_of known self.old)) }
    {
        self.starts.push(StartPiece::Part { at, plan })?;
        Ok(())
    }

    // Plans a piece of a plan that begins at the word `at`, before everything planned so far. The
    // plan of a part has a number below `below`, or else there is none, as for the number `none`.
    fn piece(&mut self, at: u32, below: u32, none: u32, piece: StartPiece) -> Result<(), AllocError>
        ensures { OnOk result ((known : List code.StartPlan)
            → view.plan_at known none ≡ code.Done → plan_of known self.new
            ≡ pieces_before at (view.piece_before (take below known) piece code.Done)
            (plan_of known self.old)) }
    {
        match piece {
            StartPiece::Fill {
                at: behind,
                count,
                value,
            } => self.fill(small_sum(at, behind)?, count, value),
            StartPiece::Repeat {
                at: behind,
                size,
                count,
            } => self.repeat(small_sum(at, behind)?, size, count),
            StartPiece::Part { at: behind, plan } => {
                let at = small_sum(at, behind)?;
                if plan < below {
                    self.part(at, plan)
                } else {
                    self.part(at, none)
                }
            }
        }
    }

    /// Plans the pieces of a plan that begins at the word `at`, before everything planned so far.
    /// The plans of its parts have numbers below `below`, and `none` is a number that no plan has.
    pub fn pieces(
        &mut self,
        at: u32,
        below: u32,
        none: u32,
        pieces: &[StartPiece],
    ) -> Result<(), AllocError>
        ensures { OnOk result ((known : List code.StartPlan)
            → view.plan_at known none ≡ code.Done → plan_of known self.new
            ≡ pieces_before at (view.plan_of (take below known) pieces.now)
            (plan_of known self.old)) }
    {
        for i in (0..pieces.len()).rev() {
            self.piece(at, below, none, pieces[i])?;
        }
        Ok(())
    }

    /// The plan, with its first piece first.
    pub fn into_starts(self) -> Vec<StartPiece>
        ensures { (known : List code.StartPlan) → view.plan_of known result.items
            ≡ plan_of known self }
    {
        let Draft { mut starts } = self;
        starts.reverse();
        starts
    }
}
