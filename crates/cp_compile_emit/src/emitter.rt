//! The emitter: the operations so far, and the unit in progress.

ghost use Rattle.std.specs.Prelude.{◌≡◌, ◌≤◌, [], drop, length, map};
ghost use Rattle.cp_model_program.specs.CodeNeeds.{need_of_all};
ghost use Rattle.cp_compile_emit.specs.PlainNeeds.{plain_need};
ghost use Rattle.cp_program.specs.View as view;

use crate::need::Need;
use cp_program::operation::{Call, Operation};
use cp_program::program::CodeUnit;

/// A call that is made before a statement, the temp that takes its value, and its place in the
/// text.
#[derive(Drop)]
pub struct CodedCall {
    pub call: Call,
    pub into: u32,
    pub at: usize,
}

/// The operations with their origins, and the units so far. The unit in progress begins at the
/// operation `first`, and each of its activations has `words` words.
#[derive(Drop)]
pub struct Emitter {
    pub(crate) operations: Vec<Operation>,
    pub(crate) origins: Vec<usize>,
    pub(crate) units: Vec<CodeUnit>,
    pub(crate) first: usize,
    pub(crate) words: u32,
    pub(crate) need: Need,
    ghost begun: { first ≤ length operations.items },
    ghost known: { length origins.items ≡ length operations.items },
    ghost needed: { plain_need need ≡ need_of_all (map (view.code_unit []) units.items) words
        (drop first (map view.operation operations.items)) },
}
