//! Makes indices, and finds what is at the end of a chain of them: a part of an element.

ghost use Rattle.std.specs.Prelude.{◌≡◌, ◌+◌, ◌-ℤ◌, pos, IfSome, map};
ghost use Rattle.cp_model_program.specs.Terms as terms;
ghost use Rattle.cp_program.specs.Shifts.{added_by};
ghost use Rattle.cp_program.specs.View as view;

use crate::bounds::Bounds;
use crate::element::{Addend, ElementPart, NearIndex, Slot};
use crate::term::{Application, Index, Operand, Term};
use cp_model::ordinals::{FIRST_INTEGER, LAST_INTEGER};

impl Operand {
    // The operand as the word of an index.
    fn slot(&self) -> Option<Slot>
        ensures { IfSome result (λ s. view.operand self.now ≡ view.slot s) }
    {
        match self {
            Operand::Local(at) => Some(Slot::Local(*at)),
            Operand::Member(at) => Some(Slot::Member(*at)),
            _ => None,
        }
    }
}

impl Application {
    // The operator and its number as what they add to the word of an index.
    fn addend(&self) -> Option<Addend>
        ensures { (e : terms.Term) → IfSome result
            (λ s. view.with_addend s e ≡ view.applied_to e (view.application self.now)) }
    {
        match self {
            Application::AddNumber(n) => Some(Addend::Add(*n)),
            Application::SubtractNumber(n) => Some(Addend::Subtract(*n)),
            _ => None,
        }
    }
}

// The operators of an index as what they add.
fn addend_of(rest: &[Application]) -> Option<Addend>
    ensures { (e : terms.Term) → IfSome result
        (λ s. view.with_addend s e ≡ view.chain_of e (map view.application rest.now)) }
{
    match rest {
        [] => Some(Addend::Nothing),
        [x] => x.addend(),
        _ => None,
    }
}

impl Addend {
    // What is added, if it fits in 32 bits.
    fn added(self) -> Option<i32>
        ensures { IfSome result (λ n. n ≡ added_by self) }
    {
        match self {
            Addend::Nothing => Some(0),
            Addend::Add(n) => Some(n),
            Addend::Subtract(n) => n.checked_neg(),
        }
    }
}

impl Bounds {
    // The distance of the greatest number from the least.
    fn span(self) -> Option<u32>
        ensures { IfSome result (λ n. pos n ≡ self.high -ℤ self.low) }
    {
        let span = i64::from(self.high) - i64::from(self.low);
        if span < 0 || i64::from(u32::MAX) < span {
            return None;
        }
        Some(span as u32)
    }
}

impl NearIndex {
    // The index of a part of each element, if what it takes fits.
    fn new(part: ElementPart, slot: Slot, addend: Addend) -> Option<NearIndex>
        ensures { IfSome result (λ i. view.near_index i
            ≡ view.index_of part (view.with_addend addend (view.slot slot))) }
    {
        let bounds = part.bounds;
        if bounds.low < FIRST_INTEGER || LAST_INTEGER < bounds.high {
            return None;
        }
        let shift = addend.added()?.checked_sub(bounds.low)?;
        let last = bounds.span()?;
        Some(NearIndex {
            part,
            slot,
            addend,
            shift,
            last,
        })
    }
}

impl Term {
    // The term as an index that needs no chain.
    fn near_index(&self, part: ElementPart) -> Option<NearIndex>
        ensures { IfSome result
            (λ i. view.near_index i ≡ view.index_of part (view.term self.now)) }
    {
        let slot = self.first.slot()?;
        let addend = addend_of(&self.rest)?;
        NearIndex::new(part, slot, addend)
    }
}

impl ElementPart {
    // The part `words` words further on, if its distance fits in 32 bits. Otherwise it stays.
    fn advance(&mut self, words: u32) -> Option<()>
        ensures moved { IfSome result (λ _. self.new.plus ≡ self.old.plus + words) }
        ensures size { self.new.size ≡ self.old.size }
        ensures bounds { self.new.bounds ≡ self.old.bounds }
    {
        self.plus = self.plus.checked_add(words)?;
        Some(())
    }
}

impl Index {
    /// The index that has this value, of a part of each element.
    pub(crate) fn new(part: ElementPart, value: Term) -> Index
        ensures { view.index result ≡ view.index_of part (view.term value) }
    {
        match value.near_index(part) {
            Some(near) => Index::Near(near),
            None => Index::Far { part, value },
        }
    }

    /// Moves to the part `words` words further on, if its distance fits in 32 bits.
    pub(crate) fn advance(&mut self, words: u32) -> Option<()>
        ensures { IfSome result
            (λ _. view.index self.new ≡ view.index_after words (view.index self.old)) }
    {
        match self {
            Index::Near(i) => i.part.advance(words),
            Index::Far { part, .. } => part.advance(words),
        }
    }
}
