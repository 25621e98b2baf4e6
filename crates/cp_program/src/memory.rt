//! The words of a memory, and the places of variables in it.

ghost use Rattle.std.specs.Prelude.{◌≡◌, ℕ, IfSome, ◌+◌, ◌<◌, ◌^◌, ◌++◌};
ghost use Rattle.cp_model_program.specs.Layout as layout;
ghost use Rattle.cp_model_program.specs.Starts as starts;
ghost use Rattle.cp_model_machine.specs.Values as values;
ghost use Rattle.cp_program.specs.Reaches.{view_with};
ghost use Rattle.cp_program.specs.View as view;

use crate::reach::{Memory, Words};
use crate::term::Root;

// The word at an index, or 0 if there is no such word.
#[inline(always)]
pub(crate) fn word(words: &[i32], at: usize) -> i32
    ensures { result ≡ starts.word words.now at }
{
    match words.get(at) {
        Some(n) => *n,
        None => 0,
    }
}

// A word as a number that isn't negative. A negative word counts as 0.
#[inline(always)]
pub(crate) fn natural(n: i32) -> usize
    ensures natural { result ≡ layout.natural n }
    ensures small { result < 2 ^ 32 }
{
    if n < 0 { 0 } else { n as usize }
}

impl Memory {
    // The word at a place, if it is found.
    #[inline(always)]
    pub(crate) fn fast_word<W: Words>(&self, shared: &[i32], at: usize) -> Option<i32>
        ensures { IfSome result
            (λ n. starts.word (self.now.words.items ++ shared.now) at ≡ n) }
    {
        W::word(&self.words, shared, at)
    }

    /// The place of a word of the activation.
    #[inline(always)]
    pub fn local(&self, at: u32) -> usize
        ensures place { result ≡ self.now.base + at }
        ensures small { result < 2 ^ 33 }
    {
        self.base + at as usize
    }

    /// The place of a word of the component.
    #[inline(always)]
    pub fn member(&self, at: u32) -> usize
        ensures place { result ≡ self.now.component + at }
        ensures small { result < 2 ^ 33 }
    {
        self.component + at as usize
    }

    // The value of a word of the activation, if it is found.
    #[inline(always)]
    pub(crate) fn fast_local<W: Words>(&self, shared: &[i32], at: u32) -> Option<i32>
        ensures { (clock : ℕ) → IfSome result (λ n. values.value_of
            (view_with self.now shared.now clock) (view.local at) ≡ Ok n) }
    {
        self.fast_word::<W>(shared, self.local(at))
    }

    // The value of a word of the component, if it is found.
    #[inline(always)]
    pub(crate) fn fast_member<W: Words>(&self, shared: &[i32], at: u32) -> Option<i32>
        ensures { (clock : ℕ) → IfSome result (λ n. values.value_of
            (view_with self.now shared.now clock) (view.member at) ≡ Ok n) }
    {
        self.fast_word::<W>(shared, self.member(at))
    }

    // The temp with this number, counted from the first temp of the running activation.
    #[inline(always)]
    pub(crate) fn made(&self, temp: u32) -> i32
        ensures { result ≡ starts.word self.now.temps.items (self.now.temp + temp) }
    {
        word(&self.temps, self.temp + temp as usize)
    }

    /// The place where a variable begins, if the word that leads there is found.
    #[inline(always)]
    pub fn fast_root_place<W: Words>(&self, shared: &[i32], root: Root) -> Option<usize>
        ensures { (clock : ℕ) → IfSome result (λ at. values.root_place
            (view_with self.now shared.now clock) (view.root root) ≡ at) }
    {
        match root {
            Root::Local(at) => Some(self.local(at)),
            Root::Member(at) => Some(self.member(at)),
            Root::Through { parameter, plus } => {
                Some(natural(self.fast_word::<W>(shared, self.local(parameter))?) + plus as usize)
            }
        }
    }
}
