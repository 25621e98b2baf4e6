//! Plans of parts that are one after another.

ghost use Rattle.std.specs.Prelude.{◌≡◌, IfOk, OnOk, map};
ghost use Rattle.cp_model_program.specs.Plans as text_plans;
ghost use Rattle.cp_compile_emit.specs.Drafts.{plan_of};
ghost use Rattle.cp_compile_emit.specs.Planning.{Knows, known_of, placed_in, types_of};
ghost use Rattle.cp_model.specs.Types.{GlobalScope, Members};
ghost use Rattle.cp_program.specs.View.{plan_at};
ghost use Rattle.cp_compile_symbols.specs.Representing.{AreMembers, entry};

use crate::draft::Draft;
use crate::pieces::{is_light, is_short};
use crate::plan::{Placed, Planner};
use cp_compile_symbols::{Field, small_number, small_sum};
use std::alloc::AllocError;

impl<'a, 't> Planner<'a, 't> {
    // The words of a part, unless its plan is short and has no parts.
    fn weight(&self, part: Placed) -> u32
        ensures { result ≡ text_plans.weight (placed_in (known_of self.now) part) }
    {
        if is_light(self.starts(part.plan)) {
            0
        } else {
            part.size
        }
    }

    // Puts the heaviest part last.
    fn arrange(&self, parts: &mut [Placed])
        ensures { map (placed_in (known_of self.now)) parts.new
            ≡ text_plans.arranged (map (placed_in (known_of self.now)) parts.old) }
    {
        for i in 1..parts.len() {
            if self.weight(parts[i]) < self.weight(parts[i - 1]) {
                parts.swap(i - 1, i);
            }
        }
    }

    /// Plans a part before everything planned so far.
    pub(crate) fn put(&self, part: Placed, draft: &mut Draft) -> Result<(), AllocError>
        ensures { OnOk result (plan_of (known_of self.now) draft.new
            ≡ text_plans.plan_before part.at (plan_at (known_of self.now) part.plan)
            (plan_of (known_of self.now) draft.old)) }
    {
        let pieces = self.starts(part.plan);
        if is_short(pieces) {
            let none = small_number(self.plans.len())?;
            draft.pieces(part.at, part.plan, none, pieces)
        } else {
            draft.part(part.at, part.plan)
        }
    }

    // Plans parts in this order.
    fn plan_in_order(&self, parts: &[Placed]) -> Result<Draft, AllocError>
        ensures { IfOk result (λ draft. plan_of (known_of self.now) draft
            ≡ text_plans.plan_in_order (map (placed_in (known_of self.now)) parts.now)) }
    {
        let mut draft = Draft::new(self.alloc);
        for i in (0..parts.len()).rev() {
            self.put(parts[i], &mut draft)?;
        }
        Ok(draft)
    }

    // The members as parts, of which the first begins at the word `at`.
    fn place(&self, zeros: bool, members: &[Field<'t>], at: u32) -> Result<Vec<Placed>, AllocError>
        ensures { IfOk result (λ parts. (g : GlobalScope) (ms : Members) → Knows self.now g
            → AreMembers (types_of self.now) (map entry members.now) ms
            → map (placed_in (known_of self.now)) parts.items ≡ text_plans.placed zeros g ms at) }
    {
        let mut parts = Vec::with_capacity(self.alloc, members.len())?;
        let mut next = at;
        for member in members {
            let size = self.words(member.of)?;
            let plan = self.plan_number(zeros, member.of)?;
            parts.push(Placed {
                at: next,
                size,
                plan,
            })?;
            next = small_sum(next, size)?;
        }
        Ok(parts)
    }

    /// Plans members, the first of which begins at the word `at`.
    pub(crate) fn plan_members(
        &self,
        zeros: bool,
        members: &[Field<'t>],
        at: u32,
    ) -> Result<Draft, AllocError>
        ensures { IfOk result (λ draft. (g : GlobalScope) (ms : Members) → Knows self.now g
            → AreMembers (types_of self.now) (map entry members.now) ms
            → plan_of (known_of self.now) draft
            ≡ text_plans.plan_of_parts (text_plans.placed zeros g ms at)) }
    {
        let mut parts = self.place(zeros, members, at)?;
        self.arrange(&mut parts);
        self.plan_in_order(&parts)
    }
}
