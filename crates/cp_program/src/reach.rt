//! What the evaluation of terms reads.

ghost use Rattle.std.specs.Prelude.{◌≡◌, ◌+◌, ◌<◌, ◌^◌, ◌++◌, IfSome, length};
ghost use Rattle.cp_model_program.specs.Starts as starts;

/// The memory of a process: its words and temps, and where those of the running activation and
/// component begin.
#[derive(Drop)]
pub struct Memory {
    pub words: Vec<i32>,
    pub temps: Vec<i32>,
    /// The first word of the running activation.
    pub base: usize,
    /// The first temp of the running activation.
    pub temp: usize,
    /// The first word of the running component.
    pub component: usize,
    ghost small: { (base < 2 ^ 32) × (temp < 2 ^ 32) × (component < 2 ^ 32) },
}

/// The memory of a process, the shared words, whose places follow those of its own words, and the
/// clock. A private step has no shared words.
#[derive(Clone, Copy)]
pub struct Reach<'a> {
    pub memory: &'a Memory,
    pub shared: &'a [i32],
    pub clock: u64,
    ghost fits: { length memory.now.words.items + length shared.now < 2 ^ 64 },
}

/// Which words the evaluation in registers finds.
pub trait Words {
    /// The word at a place, if it is found. Shared words follow a process's own.
    fn word(own: &[i32], shared: &[i32], at: usize) -> Option<i32>
        ensures { IfSome result (λ n. starts.word (own.now ++ shared.now) at ≡ n) };
}

/// Only a process's own words. A private step has no others.
#[derive(Clone, Copy)]
pub struct OwnWords;

impl Words for OwnWords {
    #[inline(always)]
    fn word(own: &[i32], _shared: &[i32], at: usize) -> Option<i32> {
        own.get(at).copied()
    }
}

/// A process's own words and the shared words.
#[derive(Clone, Copy)]
pub struct AllWords;

impl Words for AllWords {
    #[inline(always)]
    fn word(own: &[i32], shared: &[i32], at: usize) -> Option<i32> {
        match own.get(at) {
            Some(n) => Some(*n),
            None => shared.get(at.saturating_sub(own.len())).copied(),
        }
    }
}
