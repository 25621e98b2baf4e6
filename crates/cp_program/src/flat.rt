//! Evaluates the commonest terms, and computes the commonest places, in registers.
//!
//! A flat operand is a number or a word of a variable, so a flat term is evaluated without a call.
//! The indices of a flat place expression are flat terms. A near operand is flat, a flat term in
//! parentheses or its negation, the word of an element or at a flat place expression or of a `var` parameter, or the
//! value of a call.
//!
//! These functions find what those of `evaluation` find, in a result that fits registers. They find
//! nothing if a term or place expression goes deeper, has a fault, or needs a word that `W` doesn't
//! find. Then `evaluation` is called.

ghost use Rattle.std.specs.Prelude.{◌≡◌, ℕ, IfSome, Ok, map};
ghost use Rattle.cp_model_program.specs.Terms as terms;
ghost use Rattle.cp_model_machine.specs.Values as values;
ghost use Rattle.cp_program.specs.Reaches.{chain_value, elements_place, index_offset, view_with};
ghost use Rattle.cp_program.specs.View as view;

use crate::arithmetic::truth;
use crate::reach::{Memory, Words};
use crate::term::{Application, Index, Operand, PlaceExpression, Root, Term};

impl Operand {
    // The value of a flat operand.
    #[inline(always)]
    fn flat_value<W: Words>(&self, memory: &Memory, shared: &[i32]) -> Option<i32>
        ensures { (clock : ℕ) → IfSome result (λ n. values.value_of
            (view_with memory.now shared.now clock) (view.operand self.now) ≡ Ok n) }
    {
        match self {
            Operand::Number(n) => Some(*n),
            Operand::Local(at) => memory.fast_local::<W>(shared, *at),
            Operand::Member(at) => memory.fast_member::<W>(shared, *at),
            _ => None,
        }
    }

    // The value of a near operand.
    #[inline(always)]
    fn fast_value<W: Words>(&self, memory: &Memory, shared: &[i32]) -> Option<i32>
        ensures { (clock : ℕ) → IfSome result (λ n. values.value_of
            (view_with memory.now shared.now clock) (view.operand self.now) ≡ Ok n) }
    {
        match self {
            Operand::Number(n) => Some(*n),
            Operand::Local(at) => memory.fast_local::<W>(shared, *at),
            Operand::Member(at) => memory.fast_member::<W>(shared, *at),
            _ => self.further_value::<W>(memory, shared),
        }
    }

    // The value of a near operand that isn't flat.
    #[inline(always)]
    pub(crate) fn further_value<W: Words>(&self, memory: &Memory, shared: &[i32]) -> Option<i32>
        ensures { (clock : ℕ) → IfSome result (λ n. values.value_of
            (view_with memory.now shared.now clock) (view.operand self.now) ≡ Ok n) }
    {
        match self {
            Operand::Element(e) => e.fast_word::<W>(memory, shared),
            Operand::Item(s) => s.flat_word::<W>(memory, shared),
            Operand::Nested(t) => t.flat_value::<W>(memory, shared),
            Operand::Made(temp) => Some(memory.made(*temp)),
            _ => self.rarer_value::<W>(memory, shared),
        }
    }

    // The value of one of the rarer near operands. It isn't inlined, so that `fast_value` of terms
    // is small enough to be inlined.
    #[inline(never)]
    fn rarer_value<W: Words>(&self, memory: &Memory, shared: &[i32]) -> Option<i32>
        ensures { (clock : ℕ) → IfSome result (λ n. values.value_of
            (view_with memory.now shared.now clock) (view.operand self.now) ≡ Ok n) }
    {
        match self {
            Operand::Through { parameter, plus } => {
                let (parameter, plus) = (*parameter, *plus);
                let at = memory.fast_root_place::<W>(shared, Root::Through { parameter, plus })?;
                memory.fast_word::<W>(shared, at)
            }
            Operand::Not(t) => Some(truth(t.flat_value::<W>(memory, shared)? == 0)),
            _ => None,
        }
    }
}

// The value of a chain whose first operands have the value `first`, if the others are flat. It
// isn't inlined, so that a term of one operator saves no registers.
#[inline(never)]
fn long_flat_value<W: Words>(
    first: i32,
    rest: &[Application],
    memory: &Memory,
    shared: &[i32],
) -> Option<i32>
    ensures { (clock : ℕ) → IfSome result (λ n. chain_value
        (view_with memory.now shared.now clock) first (map view.application rest.now) ≡ Ok n) }
{
    let mut n = first;
    for x in rest {
        n = x.flat_value_after::<W>(n, memory, shared)?;
    }
    Some(n)
}

// The value of such a chain of flat operands, inlined. Most chains have one operator, and need no
// loop.
#[inline(always)]
fn flat_value_of_chain<W: Words>(
    first: i32,
    rest: &[Application],
    memory: &Memory,
    shared: &[i32],
) -> Option<i32>
    ensures { (clock : ℕ) → IfSome result (λ n. chain_value
        (view_with memory.now shared.now clock) first (map view.application rest.now) ≡ Ok n) }
{
    match rest {
        [x] => x.flat_value_after::<W>(first, memory, shared),
        _ => long_flat_value::<W>(first, rest, memory, shared),
    }
}

// The value of a chain whose first operands have the value `first`, if the others are near.
#[inline(always)]
fn fast_value_of_chain<W: Words>(
    first: i32,
    rest: &[Application],
    memory: &Memory,
    shared: &[i32],
) -> Option<i32>
    ensures { (clock : ℕ) → IfSome result (λ n. chain_value
        (view_with memory.now shared.now clock) first (map view.application rest.now) ≡ Ok n) }
{
    let mut n = first;
    for x in rest {
        n = x.fast_value_after::<W>(n, memory, shared)?;
    }
    Some(n)
}

impl Term {
    // The value of a term whose operands are flat.
    #[inline(always)]
    fn flat_value_here<W: Words>(&self, memory: &Memory, shared: &[i32]) -> Option<i32>
        ensures { (clock : ℕ) → IfSome result (λ n. values.value_of
            (view_with memory.now shared.now clock) (view.term self.now) ≡ Ok n) }
    {
        let first = self.first.flat_value::<W>(memory, shared)?;
        flat_value_of_chain::<W>(first, &self.rest, memory, shared)
    }

    // The value of a term whose operands are flat, found by a call.
    #[inline(never)]
    fn flat_value<W: Words>(&self, memory: &Memory, shared: &[i32]) -> Option<i32>
        ensures { (clock : ℕ) → IfSome result (λ n. values.value_of
            (view_with memory.now shared.now clock) (view.term self.now) ≡ Ok n) }
    {
        self.flat_value_here::<W>(memory, shared)
    }

    /// Evaluates a term, if its operands are near.
    // The proving compiler drops `inline(always)` from a function that grows so large. LLVM inlines
    // it by itself, since for each `W` only one function calls it.
    pub fn fast_value<W: Words>(&self, memory: &Memory, shared: &[i32]) -> Option<i32>
        ensures { (clock : ℕ) → IfSome result (λ n. values.value_of
            (view_with memory.now shared.now clock) (view.term self.now) ≡ Ok n) }
    {
        // Each way to find the first operand leaves by itself if nothing is found, so that there is
        // no option to look into afterwards.
        let first = match &self.first {
            Operand::Number(n) => *n,
            Operand::Local(at) => memory.fast_local::<W>(shared, *at)?,
            Operand::Member(at) => memory.fast_member::<W>(shared, *at)?,
            Operand::Made(temp) => memory.made(*temp),
            _ => self.first.further_value::<W>(memory, shared)?,
        };
        fast_value_of_chain::<W>(first, &self.rest, memory, shared)
    }

    /// Evaluates a term that is a near operand, or whose operands are flat. It takes less room where
    /// it is inlined than `fast_value`, and makes a call if there are operators.
    #[inline(always)]
    pub fn fast_argument<W: Words>(&self, memory: &Memory, shared: &[i32]) -> Option<i32>
        ensures { (clock : ℕ) → IfSome result (λ n. values.value_of
            (view_with memory.now shared.now clock) (view.term self.now) ≡ Ok n) }
    {
        if !self.rest.is_empty() {
            return self.flat_value::<W>(memory, shared);
        }
        self.first.fast_value::<W>(memory, shared)
    }
}

impl Operand {
    // The number that the operand is.
    #[inline(always)]
    fn number(&self) -> Option<i32>
        ensures { IfSome result (λ n. view.operand self.now ≡ terms.Number n) }
    {
        match self {
            Operand::Number(n) => Some(*n),
            _ => None,
        }
    }
}

impl Term {
    // The number that the term is.
    #[inline(always)]
    fn number_of(&self) -> Option<i32>
        ensures { IfSome result (λ n. view.term self.now ≡ terms.Number n) }
    {
        if !self.rest.is_empty() {
            return None;
        }
        self.first.number()
    }
}

impl Index {
    // The distance in words to which the index leads, if it needs no chain: it is a number, or a
    // word, or a word and a number.
    #[inline(always)]
    fn near_offset<W: Words>(&self, memory: &Memory, shared: &[i32]) -> Option<usize>
        ensures { (clock : ℕ) → IfSome result (λ far. index_offset
            (view_with memory.now shared.now clock) (view.index self.now) ≡ Ok far) }
    {
        match self {
            Index::Near(i) => i.fast_offset::<W>(memory, shared),
            Index::Far { part, value } => {
                let n = value.number_of()?;
                part.offset(n).ok()
            }
        }
    }

    // The distance in words to which the index leads, if it is flat.
    #[inline(always)]
    fn flat_offset<W: Words>(&self, memory: &Memory, shared: &[i32]) -> Option<usize>
        ensures { (clock : ℕ) → IfSome result (λ far. index_offset
            (view_with memory.now shared.now clock) (view.index self.now) ≡ Ok far) }
    {
        match self {
            Index::Near(i) => i.fast_offset::<W>(memory, shared),
            Index::Far { part, value } => {
                let n = value.flat_value::<W>(memory, shared)?;
                part.offset(n).ok()
            }
        }
    }
}

// The place to which the indices lead, starting from the place `from`, if they are flat.
#[inline(never)]
fn flat_place_of_element<W: Words>(
    from: usize,
    indices: &[Index],
    memory: &Memory,
    shared: &[i32],
) -> Option<usize>
    ensures { (clock : ℕ) → IfSome result (λ at. elements_place
        (view_with memory.now shared.now clock) from (map view.index indices.now) ≡ Ok at) }
{
    let mut at = from;
    for i in indices {
        at = at.checked_add(i.flat_offset::<W>(memory, shared)?)?;
    }
    Some(at)
}

// The place to which the indices lead, starting from the place `from`, if they are flat. Most need
// no chain, and so no call.
#[inline(always)]
fn fast_place_of_element<W: Words>(
    from: usize,
    indices: &[Index],
    memory: &Memory,
    shared: &[i32],
) -> Option<usize>
    ensures { (clock : ℕ) → IfSome result (λ at. elements_place
        (view_with memory.now shared.now clock) from (map view.index indices.now) ≡ Ok at) }
{
    let mut at = from;
    let mut left = indices;
    while let Some((i, after)) = left.split_first() {
        let Some(far) = i.near_offset::<W>(memory, shared) else {
            return flat_place_of_element::<W>(at, left, memory, shared);
        };
        at = at.checked_add(far)?;
        left = after;
    }
    Some(at)
}

impl PlaceExpression {
    #[inline(always)]
    fn place_of_indices<W: Words>(&self, memory: &Memory, shared: &[i32]) -> Option<usize>
        ensures { (clock : ℕ) → IfSome result (λ at. values.place_of
            (view_with memory.now shared.now clock) (view.place_expression self.now) ≡ Ok at) }
    {
        let from = memory.fast_root_place::<W>(shared, self.root)?;
        fast_place_of_element::<W>(from, &self.indices, memory, shared)
    }

    #[inline(never)]
    fn flat_place<W: Words>(&self, memory: &Memory, shared: &[i32]) -> Option<usize>
        ensures { (clock : ℕ) → IfSome result (λ at. values.place_of
            (view_with memory.now shared.now clock) (view.place_expression self.now) ≡ Ok at) }
    {
        self.place_of_indices::<W>(memory, shared)
    }

    /// The place of a variable or of a part of one, if the place expression is flat.
    #[inline(always)]
    pub fn fast_place<W: Words>(&self, memory: &Memory, shared: &[i32]) -> Option<usize>
        ensures { (clock : ℕ) → IfSome result (λ at. values.place_of
            (view_with memory.now shared.now clock) (view.place_expression self.now) ≡ Ok at) }
    {
        if self.indices.is_empty() {
            return memory.fast_root_place::<W>(shared, self.root);
        }
        self.flat_place::<W>(memory, shared)
    }

    // The word at the place of the place expression.
    #[inline(never)]
    fn flat_word<W: Words>(&self, memory: &Memory, shared: &[i32]) -> Option<i32>
        ensures { (clock : ℕ) → IfSome result (λ n. values.value_of
            (view_with memory.now shared.now clock) (terms.Item (view.place_expression self.now)) ≡ Ok n) }
    {
        let at = self.place_of_indices::<W>(memory, shared)?;
        memory.fast_word::<W>(shared, at)
    }
}
