//! Subranges and arrays: their rows, and the types that are made of them.

ghost use Rattle.std.specs.Prelude.{◌≡◌, ◌*◌, [], IfOk, OnOk, length, map};
ghost use Rattle.cp_model.specs.Integers.{count_between};
ghost use Rattle.cp_model.specs.RulesEnvironment as r;
ghost use Rattle.cp_model.specs.RulesJudged.{both};
ghost use Rattle.cp_model.specs.RulesTypes as types;
ghost use Rattle.cp_rules.specs.Checking.{Judges};
ghost use Rattle.cp_rules.specs.Outer.{Knows, ReportsOuter, around_both, array, arrays, make_known};

use crate::checker::{Checker, Judged};
use crate::words::{is_within, product};
use cp_model::rules::{Rule, Structure, TypeRow};
use cp_model::tree::Constant;
use cp_rules_body::Environment;
use cp_rules_body::constants::constant_at;
use std::alloc::AllocError;

// The number of integers from `low` to `high`.
fn count_between(low: i32, high: i32) -> usize
    ensures { result ≡ count_between low high }
{
    if high < low {
        0
    } else {
        (i64::from(high) - i64::from(low) + 1) as usize
    }
}

// The number of values of a simple type.
fn values_in(structure: Structure) -> usize
    ensures { result ≡ types.values_in structure }
{
    match structure {
        Structure::Simple(_, low, high) => count_between(low, high),
        _ => 0,
    }
}

fn array_row(env: &Environment, index: usize, element: usize) -> TypeRow
    ensures { result ≡ types.array_row env.now index element }
{
    let count = values_in(env.structure(index));
    TypeRow {
        structure: Structure::Array(index, element),
        words: product(count, env.words(element)),
        has_queues: env.has_queues(element),
    }
}

fn is_at_most(a: i32, b: i32) -> bool
    ensures { result ≡ types.at_most a b }
{
    a <= b
}

impl<'t> Checker<'t> {
    // C2: the constants are of different base types. C3: the lower bound is above the upper.
    fn bounds(&mut self, at: usize, low: (usize, i32), high: (usize, i32)) -> Judged<TypeRow>
        ensures { Judges self.old self.new result (types.c2_c3_subrange at low high) }
    {
        if low.0 != high.0 {
            return self.breaks(Rule::C2, at);
        }
        if !is_at_most(low.1, high.1) {
            return self.breaks(Rule::C3, at);
        }
        Ok(TypeRow {
            structure: Structure::Simple(low.0, low.1, high.1),
            words: 1,
            has_queues: false,
        })
    }

    fn judge_bounds(
        &mut self,
        at: usize,
        low: Judged<(usize, i32)>,
        high: Judged<(usize, i32)>,
    ) -> Judged<TypeRow>
        ensures { ReportsOuter self.old self.new result
            (around_both low high (types.c2_c3_subrange at)) }
    {
        self.bounds(at, low?, high?)
    }

    /// Judges a subrange and returns its row.
    pub fn subrange(&mut self, low: &Constant, high: &Constant) -> Judged<TypeRow>
        ensures { Judges self.old self.new result
            (both (types.constant self.old.env low.now) (types.constant self.old.env high.now)
            (types.c2_c3_subrange (types.constant_at high.now))) }
    {
        let first = self.constant(low);
        let last = self.constant(high);
        self.judge_bounds(constant_at(high), first, last)
    }

    /// Adds a type and returns its number. Fails only if memory runs out.
    pub fn add_type(&mut self, row: TypeRow) -> Result<usize, AllocError>
        ensures { IfOk result
            (λ t. (t ≡ length self.old.env.types)
            × (self.new ≡ record self.old { env = types.add_type self.old.env row })) }
    {
        let t = self.environment.type_count();
        self.environment.add_type(row)?;
        Ok(t)
    }

    /// Makes a type of a row, if the row is known. Fails only if memory runs out.
    pub fn make_type(&mut self, row: Judged<TypeRow>) -> Result<Judged<usize>, AllocError>
        ensures { IfOk result
            (λ answer. Knows self.old self.new answer (make_known self.old.env [] row)) }
    {
        match row {
            Err(violation) => Ok(Err(violation)),
            Ok(row) => Ok(Ok(self.add_type(row)?)),
        }
    }

    // C13: an array has too many words.
    fn judge_array(
        &mut self,
        at: usize,
        index: Judged<usize>,
        element: Judged<usize>,
    ) -> Judged<TypeRow>
        ensures { ReportsOuter self.old self.new result
            (around_both index element
            (λ a b. types.c13_type at (types.array_row self.old.env a b))) }
    {
        let row = array_row(&self.environment, index?, element?);
        if is_within(row.words) {
            Ok(row)
        } else {
            self.breaks(Rule::C13, at)
        }
    }

    // Makes an array type of these index and element types.
    fn array(
        &mut self,
        at: usize,
        index: Judged<usize>,
        element: Judged<usize>,
    ) -> Result<Judged<usize>, AllocError>
        ensures { IfOk result
            (λ answer. Knows self.old self.new answer (array self.old.env at index element)) }
    {
        let row = self.judge_array(at, index, element);
        self.make_type(row)
    }

    /// Makes an array of arrays, one for each index type. Fails only if memory runs out.
    pub fn arrays(
        &mut self,
        at: usize,
        mut indices: Vec<Judged<usize>>,
        element: Judged<usize>,
    ) -> Result<Judged<usize>, AllocError>
        ensures { IfOk result
            (λ answer. Knows self.old self.new answer
            (arrays self.old.env at indices.items element)) }
    {
        let mut of = element;
        while let Some(index) = indices.pop() {
            of = self.array(at, index, of)?;
        }
        Ok(of)
    }
}
