//! What code is translated with, and where it is emitted.

use cp_compile_symbols::Scope;
use std::alloc::Global;

/// What the code of a unit is translated with: the scope of the unit, an allocator, and the place
/// of the unit in the text.
#[derive(Clone, Copy)]
pub struct Translator<'s, 't> {
    pub scope: Scope<'s, 't>,
    pub alloc: Global,
    pub origin: usize,
}

/// Where the operation of a statement is emitted: temps are free from `low` on, the operation leads
/// to the place `next`, and it comes from the place `origin` of the text.
#[derive(Clone, Copy)]
pub(crate) struct StatementContext {
    pub(crate) low: u32,
    pub(crate) next: u32,
    pub(crate) origin: usize,
}
