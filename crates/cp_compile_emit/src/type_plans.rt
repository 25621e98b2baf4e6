//! The plans of types. Both plans of each type are made once, in the order of the numbers of types.

ghost use Rattle.std.specs.Prelude.{◌≡◌, ◌<◌, ◌*◌, true, false, List, suc, IfOk, IfSome, OnOk, length, map, nat_le};
ghost use Rattle.cp_model_program.specs.Plans as text_plans;
ghost use Rattle.cp_model_program.specs.Programs as code;
ghost use Rattle.cp_compile_emit.specs.Drafts.{plan_of};
ghost use Rattle.cp_compile_emit.specs.Planning.{ArePlanned, Extends, Knows, known_of, types_of};
ghost use Rattle.cp_model.specs.Erase as erase;
ghost use Rattle.cp_model.specs.Integers as integers;
ghost use Rattle.cp_model.specs.Types.{ArrayOf, ComponentOf, GlobalScope, Members, ResolvedType};
ghost use Rattle.cp_model.specs.View as view;
ghost use Rattle.cp_program.specs.View.{plan_at};
ghost use Rattle.cp_compile_symbols.specs.Layouts.{AreLaid};
ghost use Rattle.cp_compile_symbols.specs.Representing.{AreMembers, ScopeRepresents, Represents, entry};

use crate::draft::Draft;
use crate::pieces::value_of_fill;
use crate::plan::{Placed, Planner, TypePlans};
use cp_compile_symbols::{Field, Tables, TypeRow, count_between, small_number};
use cp_model::tree::{Sort, System};
use std::alloc::{AllocError, Global};

// The number of integers from `low` to `high`, both included.
fn count_of(low: i32, high: i32) -> Result<u32, AllocError>
    ensures { IfOk result (λ count. count ≡ integers.count_between low high) }
{
    small_number(count_between(low, high))
}

// Whether a word is 0 before, and starts with 0.
fn stays_zero(zeros: bool, value: i32) -> bool
    ensures yes { result ≡ true → text_plans.plan_of_word zeros value ≡ code.Done }
    ensures no { result ≡ false → text_plans.plan_of_word zeros value
        ≡ code.Fill 0 1 value code.Done }
{
    if !zeros {
        return false;
    }
    value == 0
}

// Whether a number of blocks is at most one.
fn is_once(count: u32) -> bool
    ensures { result ≡ nat_le count 1 }
{
    count <= 1
}

// Plans that a block of `size` words is repeated, for `count` blocks in all.
fn repeat(size: u32, count: u32, draft: &mut Draft) -> Result<(), AllocError>
    ensures { OnOk result ((known : List code.StartPlan) → plan_of known draft.old ≡ code.Done
        → plan_of known draft.new ≡ text_plans.repeats size count) }
{
    if is_once(count) {
        Ok(())
    } else {
        draft.repeat(0, size, count)
    }
}

impl<'a, 't> Planner<'a, 't> {
    // Plans one word.
    fn plan_word(&self, zeros: bool, value: i32) -> Result<Draft, AllocError>
        ensures { IfOk result (λ draft. (known : List code.StartPlan)
            → plan_of known draft ≡ text_plans.plan_of_word zeros value) }
    {
        let mut draft = Draft::new(self.alloc);
        if stays_zero(zeros, value) {
            return Ok(draft);
        }
        draft.fill(0, 1, value)?;
        Ok(draft)
    }

    // Plans `count` elements of `size` words that all start with `value`.
    fn plan_fill(&self, size: u32, count: u32, value: i32) -> Result<Draft, AllocError>
        ensures { IfOk result (λ draft. (known : List code.StartPlan)
            → plan_of known draft ≡ code.Fill 0 (count * size) value code.Done) }
    {
        let mut draft = Draft::new(self.alloc);
        let all = count.checked_mul(size).ok_or(AllocError)?;
        draft.fill(0, all, value)?;
        Ok(draft)
    }

    // Plans `count` elements of `size` words that each start by the plan with this number.
    fn plan_elements(&self, plan: u32, size: u32, count: u32) -> Result<Draft, AllocError>
        ensures { IfOk result (λ draft. let p = plan_at (known_of self.now) plan in
            plan_of (known_of self.now) draft
            ≡ text_plans.plan_of_elements size count (text_plans.value_of_fill size p) p) }
    {
        let pieces = self.starts(plan);
        if let Some(value) = value_of_fill(size, pieces) {
            return self.plan_fill(size, count, value);
        }
        let mut draft = Draft::new(self.alloc);
        if pieces.is_empty() {
            return Ok(draft);
        }
        repeat(size, count, &mut draft)?;
        self.put(Placed { at: 0, size, plan }, &mut draft)?;
        Ok(draft)
    }

    // Plans the members of a component, if they are in its variable.
    fn plan_component(
        &self,
        zeros: bool,
        system: &System,
        members: &[Field<'t>],
    ) -> Result<Draft, AllocError>
        ensures { IfOk result (λ draft. (g : GlobalScope) (ms : Members) → Knows self.now g
            → AreMembers (types_of self.now) (map entry members.now) ms
            → plan_of (known_of self.now) draft
            ≡ text_plans.plan zeros g (ComponentOf (erase.system (view.system system.now)) ms)) }
    {
        match system.sort {
            Sort::Class => {
                let head = self.head_words(&system.parameters)?;
                self.plan_members(zeros, members, head)
            }
            _ => Ok(Draft::new(self.alloc)),
        }
    }

    // Plans an array.
    fn plan_array(
        &self,
        zeros: bool,
        low: i32,
        high: i32,
        element: usize,
    ) -> Result<Draft, AllocError>
        ensures { IfOk result (λ draft. (g : GlobalScope) (t : ResolvedType) → Knows self.now g
            → Represents (types_of self.now) element t → plan_of (known_of self.now) draft
            ≡ text_plans.plan zeros g (ArrayOf low high t)) }
    {
        let plan = self.plan_number(zeros, element)?;
        self.plan_elements(plan, self.words(element)?, count_of(low, high)?)
    }

    // Plans a variable of the type `of`. Nothing is planned for a number that no type has.
    fn plan_type(&self, zeros: bool, of: usize) -> Result<Draft, AllocError>
        ensures { IfOk result (λ draft. (g : GlobalScope) (t : ResolvedType) → Knows self.now g
            → Represents (types_of self.now) of t
            → plan_of (known_of self.now) draft ≡ text_plans.plan zeros g t) }
    {
        let types = &self.tables.types;
        match types.row(of) {
            Some(TypeRow::Simple(simple)) => self.plan_word(zeros, simple.start),
            Some(TypeRow::Array { low, high, element }) => {
                self.plan_array(zeros, *low, *high, *element)
            }
            Some(TypeRow::Record(fields)) => self.plan_members(zeros, fields, 0),
            Some(TypeRow::Queue) => self.plan_word(zeros, 0),
            Some(TypeRow::Component { system, members }) => match types.system(*system) {
                Some(system) => self.plan_component(zeros, system, members),
                None => Ok(Draft::new(self.alloc)),
            },
            Some(TypeRow::Unknown) => Ok(Draft::new(self.alloc)),
            None => Ok(Draft::new(self.alloc)),
        }
    }

    // Adds the plan of a type, and returns its number.
    fn add_type_plan(&mut self, zeros: bool, of: usize) -> Result<u32, AllocError>
        ensures extends { Extends self.old self.new }
        ensures types { self.new.types ≡ self.old.types }
        ensures number { IfOk result (λ n. n < length self.new.plans.items) }
        ensures plan { IfOk result (λ n. (g : GlobalScope) (t : ResolvedType) → Knows self.old g
            → Represents (types_of self.old) of t
            → plan_at (known_of self.new) n ≡ text_plans.plan zeros g t) }
    {
        let draft = self.plan_type(zeros, of)?;
        self.add_plan(draft)
    }

    // Adds both plans of a type, and returns their numbers, unless its words are too many: no text
    // has a variable of such a type.
    fn add_type_plans(&mut self, of: usize) -> Result<Option<TypePlans>, AllocError>
        ensures extends { Extends self.old self.new }
        ensures types { self.new.types ≡ self.old.types }
        ensures plans { IfOk result (λ o. IfSome o (λ p. (g : GlobalScope) (t : ResolvedType)
            → Knows self.old g → Represents (types_of self.old) of t
            → ArePlanned (known_of self.new) g p t)) }
    {
        if self.tables.layouts.words(of)?.is_none() {
            return Ok(None);
        }
        let plain = self.add_type_plan(false, of)?;
        let zeroed = self.add_type_plan(true, of)?;
        Ok(Some(TypePlans { plain, zeroed }))
    }

    // Adds the next type.
    fn add_type(&mut self) -> Result<(), AllocError>
        ensures tables { self.new.tables ≡ self.old.tables }
        ensures added { OnOk result (length self.new.types.items
            ≡ suc (length self.old.types.items)) }
        ensures knows { OnOk result ((g : GlobalScope) → Knows self.old g → Knows self.new g) }
    {
        let of = self.types.len();
        let plans = self.add_type_plans(of)?;
        self.types.push(plans)?;
        Ok(())
    }

    /// Creates a planner over the tables of a text, with the plans of its types.
    pub fn new(alloc: Global, tables: &'a Tables<'t>) -> Result<Planner<'a, 't>, AllocError>
        ensures tables { IfOk result (λ planner. planner.tables ≡ tables.entry) }
        ensures knows { IfOk result (λ planner. (g : GlobalScope)
            → ScopeRepresents tables.now.names tables.now.types g
            → AreLaid g tables.now.types tables.now.layouts.rows.items → Knows planner g) }
    {
        let mut planner = Planner {
            alloc,
            tables,
            types: Vec::new(alloc),
            plans: Vec::new(alloc),
        };
        while planner.tables.types.row(planner.types.len()).is_some() {
            planner.add_type()?;
        }
        Ok(planner)
    }
}
