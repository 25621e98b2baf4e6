//! What plans are made from: the tables of a text, the plans so far, and those of its types.
//!
//! Each type has two plans: one for words that may be anything before, and one for words that are 0
//! before. They refer to the plans of their parts. Each plan equals that of `cp_model_program`'s
//! `specs/Plans.antt`.

ghost use Rattle.std.specs.Prelude.{◌≡◌, suc, Some, IfOk, IfSome, OnOk, if◌then◌else◌, length, option_map, slice_get, take};
ghost use Rattle.cp_model_program.specs.Layout.{local_words};
ghost use Rattle.cp_model_program.specs.Plans as text_plans;
ghost use Rattle.cp_compile_emit.specs.Drafts.{plan_of};
ghost use Rattle.cp_compile_emit.specs.Planning.{Extends, Knows, known_of, types_of};
ghost use Rattle.cp_model.specs.Declarations.{Variable};
ghost use Rattle.cp_model.specs.Types.{GlobalScope, ResolvedType};
ghost use Rattle.cp_program.specs.View as code_view;
ghost use Rattle.cp_program.specs.View.{plan_at};
ghost use Rattle.cp_compile_symbols.specs.Layouts.{rights_of};
ghost use Rattle.cp_compile_symbols.specs.Representing.{Represents};
ghost use Rattle.cp_law_typing.specs.Words.{words};

use crate::draft::Draft;
use cp_compile_symbols::{Tables, small_number, small_sum};
use cp_model::tree::Parameters;
use cp_program::program::{StartPiece, StartPlan};
use std::alloc::{AllocError, Global};

/// The numbers of the plans of a type: for words that may be anything before, and for words that
/// are 0 before.
#[derive(Clone, Copy)]
pub struct TypePlans {
    pub(crate) plain: u32,
    pub(crate) zeroed: u32,
}

/// A part: its first word, the number of its words, and the number of its plan.
#[derive(Clone, Copy)]
pub struct Placed {
    pub(crate) at: u32,
    pub(crate) size: u32,
    pub(crate) plan: u32,
}

/// What plans are made from: the tables of a text, the plans so far, and the numbers of those of
/// each type, if its words can be planned.
pub struct Planner<'a, 't> {
    pub(crate) alloc: Global,
    pub(crate) tables: &'a Tables<'t>,
    pub(crate) types: Vec<Option<TypePlans>>,
    pub(crate) plans: Vec<StartPlan>,
}

// A derived `Drop` would make proofs slower (docs/CI.md).
impl Drop for Planner<'_, '_> {
    fn drop(self) {
        let Planner {
            alloc: _,
            tables: _,
            types: _,
            plans: _,
        } = self;
    }
}

impl TypePlans {
    // The number of the plan for words that may be anything before, or that are 0 before.
    fn number(self, zeros: bool) -> u32
        ensures { result ≡ (if zeros then self.zeroed else self.plain) }
    {
        if zeros { self.zeroed } else { self.plain }
    }
}

impl<'a, 't> Planner<'a, 't> {
    /// The allocator that the planner uses.
    pub fn alloc(&self) -> Global
        ensures { result ≡ self.now.alloc }
    {
        self.alloc
    }

    /// The plans.
    pub fn into_plans(self) -> Vec<StartPlan>
        ensures { result ≡ self.entry.plans }
    {
        let Planner {
            alloc: _,
            tables: _,
            types: _,
            plans,
        } = self;
        plans
    }

    /// The size in words of a variable of the type `of`.
    pub(crate) fn words(&self, of: usize) -> Result<u32, AllocError>
        ensures { IfOk result (λ n. (g : GlobalScope) (t : ResolvedType) → Knows self.now g
            → Represents (types_of self.now) of t → n ≡ words g t) }
    {
        match self.tables.layouts.words(of)? {
            Some(words) => Ok(words),
            None => Err(AllocError),
        }
    }

    /// The size in words of a parameter or variable in an activation.
    pub(crate) fn local_words(&self, by_reference: bool, of: usize) -> Result<u32, AllocError>
        ensures { IfOk result (λ n. (g : GlobalScope) (v : Variable) → Knows self.now g
            → by_reference ≡ v.by_reference → Represents (types_of self.now) of v.type
            → n ≡ local_words g v) }
    {
        match self.tables.layouts.local_words(by_reference, of)? {
            Some(words) => Ok(words),
            None => Err(AllocError),
        }
    }

    /// The number of words before the members of a component with these parameters.
    pub(crate) fn head_words(&self, parameters: &[Parameters]) -> Result<u32, AllocError>
        ensures { IfOk result (λ n. (g : GlobalScope) → Knows self.now g
            → n ≡ suc (rights_of g parameters.now)) }
    {
        let tables = self.tables;
        let rights = tables.types.rights(&tables.names, parameters);
        let rights = rights.ok_or(AllocError)?;
        small_sum(rights, 1)
    }

    // The plan with this number, if there is one.
    fn plan(&self, number: u32) -> Option<&StartPlan>
        ensures { option_map (λ p. p.now) result ≡ slice_get self.now.plans.items number }
    {
        self.plans.get(number as usize)
    }

    /// The pieces of the plan with this number, whose parts have plans before it.
    pub(crate) fn starts(&self, plan: u32) -> &[StartPiece]
        ensures { code_view.plan_of (take plan (known_of self.now)) result.now
            ≡ plan_at (known_of self.now) plan }
    {
        match self.plan(plan) {
            Some(plan) => plan.starts.as_slice(),
            None => &[],
        }
    }

    // The numbers of the plans of a type, unless its words are too many. Its parts come before it,
    // so they have theirs.
    fn numbers(&self, of: usize) -> Option<TypePlans>
        ensures { IfSome result
            (λ plans. slice_get self.now.types.items of ≡ Some (Some plans)) }
    {
        *self.types.get(of)?
    }

    /// The number of the plan of a type, unless its words are too many.
    pub(crate) fn plan_number(&self, zeros: bool, of: usize) -> Result<u32, AllocError>
        ensures { IfOk result (λ n. (g : GlobalScope) (t : ResolvedType) → Knows self.now g
            → Represents (types_of self.now) of t
            → plan_at (known_of self.now) n ≡ text_plans.plan zeros g t) }
    {
        let plans = self.numbers(of).ok_or(AllocError)?;
        Ok(plans.number(zeros))
    }

    /// Adds a plan, and returns its number.
    pub(crate) fn add_plan(&mut self, draft: Draft) -> Result<u32, AllocError>
        ensures extends { Extends self.old self.new }
        ensures types { self.new.types ≡ self.old.types }
        ensures added { OnOk result (length self.new.plans.items
            ≡ suc (length self.old.plans.items)) }
        ensures number { IfOk result (λ n. n ≡ length self.old.plans.items) }
        ensures plan { IfOk result (λ n. plan_at (known_of self.new) n
            ≡ plan_of (known_of self.old) draft) }
    {
        let number = small_number(self.plans.len())?;
        self.plans.push(StartPlan {
            starts: draft.into_starts(),
        })?;
        Ok(number)
    }
}
