//! Finds the places of elements by indices that need no chain of operands.

ghost use Rattle.std.specs.Prelude.{◌≡◌, ℕ, ◌+◌, ◌-◌, ◌*◌, ◌≤◌, ◌^◌, ◌+ℤ◌, pos, IfOk, IfSome, Ok};
ghost use Rattle.cp_model.specs.Places.{within};
ghost use Rattle.cp_model.specs.declared.state.Fault.TheVariants as fault;
ghost use Rattle.cp_model_program.specs.Functions.{unless};
ghost use Rattle.cp_model_program.specs.Layout as layout;
ghost use Rattle.cp_model_program.specs.Terms as terms;
ghost use Rattle.cp_model_machine.specs.Values as values;
ghost use Rattle.cp_program.specs.Reaches.{capped_result, index_offset, view_of, view_with};
ghost use Rattle.cp_program.specs.View as view;

use crate::arithmetic::apply;
use crate::element::{Addend, Element, ElementPart, NearIndex, Slot};
use crate::reach::{Memory, Reach, Words};
use cp_model::state::Fault;
use cp_model::tree::Operator;

impl Slot {
    // The value of the word, if it is found.
    #[inline(always)]
    fn fast_value<W: Words>(self, memory: &Memory, shared: &[i32]) -> Option<i32>
        ensures { (clock : ℕ) → IfSome result (λ n. values.value_of
            (view_with memory.now shared.now clock) (view.slot self) ≡ Ok n) }
    {
        match self {
            Slot::Local(at) => memory.fast_local::<W>(shared, at),
            Slot::Member(at) => memory.fast_member::<W>(shared, at),
        }
    }

    // The value of the word.
    fn value(self, reach: &Reach) -> i32
        ensures { values.value_of (view_of reach.now) (view.slot self) ≡ Ok result }
    {
        match self {
            Slot::Local(at) => reach.local_word(at),
            Slot::Member(at) => reach.member_word(at),
        }
    }
}

impl ElementPart {
    // The distance in words of the element with the index `n` from the first one.
    fn distance(&self, n: i32) -> Result<usize, Fault>
        ensures words { result ≡ unless
            (within self.now.bounds.low self.now.bounds.high n) fault.Index
            (layout.distance self.now.bounds.low n * self.now.size) }
        ensures small { IfOk result (λ far. far ≤ (2 ^ 32 - 1) * (2 ^ 32 - 1)) }
    {
        if n < self.bounds.low || self.bounds.high < n {
            return Err(Fault::Index);
        }
        let distance = (i64::from(n) - i64::from(self.bounds.low)) as usize;
        Ok(distance * self.size as usize)
    }

    // The distance in words of the part of the element with the index `n`.
    pub(crate) fn offset(&self, n: i32) -> Result<usize, Fault>
        ensures { result ≡ unless (within self.now.bounds.low self.now.bounds.high n) fault.Index
            (layout.distance self.now.bounds.low n * self.now.size + self.now.plus) }
    {
        let far = self.distance(n)?;
        Ok(far + self.plus as usize)
    }
}

impl NearIndex {
    // The distance in elements, if the word has the value `n` and leads into the array.
    #[inline(always)]
    fn distance(&self, n: i32) -> Option<usize>
        ensures shifted { IfSome result (λ d. pos d ≡ n +ℤ self.now.shift) }
        ensures last { IfSome result (λ d. d ≤ self.now.last) }
    {
        let distance = i64::from(n) + i64::from(self.shift);
        if distance < 0 || i64::from(self.last) < distance {
            return None;
        }
        Some(distance as usize)
    }

    // The distance in words of the part that the index selects, if it is found.
    #[inline(always)]
    pub(crate) fn fast_offset<W: Words>(&self, memory: &Memory, shared: &[i32]) -> Option<usize>
        ensures { (clock : ℕ) → IfSome result (λ far. index_offset
            (view_with memory.now shared.now clock) (view.near_index self.now) ≡ Ok far) }
    {
        let n = self.slot.fast_value::<W>(memory, shared)?;
        let distance = self.distance(n)?;
        Some(distance * self.part.size as usize + self.part.plus as usize)
    }

    // The value of the index.
    fn value(&self, reach: &Reach) -> Result<i32, Fault>
        ensures { result ≡ values.value_of (view_of reach.now) (view.near_index self.now).value }
    {
        let n = self.slot.value(reach);
        match self.addend {
            Addend::Nothing => Ok(n),
            Addend::Add(by) => apply(Operator::Add, n, by),
            Addend::Subtract(by) => apply(Operator::Subtract, n, by),
        }
    }

    // The distance in words of the part that the index selects.
    pub(crate) fn offset(&self, reach: &Reach) -> Result<usize, Fault>
        ensures { result ≡ index_offset (view_of reach.now) (view.near_index self.now) }
    {
        let n = self.value(reach)?;
        self.part.offset(n)
    }
}

impl Element {
    /// The place of the element, if the words that lead there are found.
    #[inline(always)]
    pub fn fast_place<W: Words>(&self, memory: &Memory, shared: &[i32]) -> Option<usize>
        ensures { (clock : ℕ) → IfSome result (λ at. values.place_of
            (view_with memory.now shared.now clock) (view.element self.now) ≡ Ok at) }
    {
        let n = self.index.slot.fast_value::<W>(memory, shared)?;
        let distance = self.index.distance(n)?;
        let from = memory.fast_root_place::<W>(shared, self.first)?;
        from.checked_add(distance * self.index.part.size as usize)
    }

    // The word at that place.
    #[inline(always)]
    pub(crate) fn fast_word<W: Words>(&self, memory: &Memory, shared: &[i32]) -> Option<i32>
        ensures { (clock : ℕ) → IfSome result (λ n. values.value_of
            (view_with memory.now shared.now clock) (terms.Item (view.element self.now)) ≡ Ok n) }
    {
        let at = self.fast_place::<W>(memory, shared)?;
        memory.fast_word::<W>(shared, at)
    }

    /// The place of the element.
    ///
    /// # Errors
    ///
    /// The fault of the index, or that it is beyond the bounds.
    pub fn place(&self, reach: &Reach) -> Result<usize, Fault>
        ensures { result ≡ capped_result
            (values.place_of (view_of reach.now) (view.element self.now)) }
    {
        let n = self.index.value(reach)?;
        let far = self.index.part.distance(n)?;
        let from = reach.root_place(self.first);
        Ok(from.saturating_add(far))
    }

    // The word at that place.
    pub(crate) fn word(&self, reach: &Reach) -> Result<i32, Fault>
        ensures { result ≡ values.value_of (view_of reach.now)
            (terms.Item (view.element self.now)) }
    {
        Ok(reach.word(self.place(reach)?))
    }
}
