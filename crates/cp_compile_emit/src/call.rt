//! The calls of a statement's terms, in the order in which they are made.

ghost use Rattle.std.specs.Prelude.{◌≡◌, [], ◌∷◌, ◌++◌, IfOk, OnOk, map, suc};
ghost use Rattle.cp_model_program.specs.Terms as plain;
ghost use Rattle.cp_compile_emit.specs.Emission.{coded_call};
ghost use Rattle.cp_program.specs.View as view;

use crate::emitter::CodedCall;
use cp_compile_symbols::small_sum;
use cp_program::operation::Call;
use cp_program::term::Term;
use std::alloc::{AllocError, Global};

/// A term for the value of a call, and the first temp after it.
#[derive(Drop)]
pub struct MadeTerm {
    pub term: Term,
    pub temps: u32,
}

/// Adds a call, which is at the place `at` of the text and whose value goes to the temp `into`.
/// Returns the term for its value.
pub fn make_call(
    alloc: Global,
    calls: &mut Vec<CodedCall>,
    call: Call,
    into: u32,
    at: usize,
) -> Result<MadeTerm, AllocError>
    ensures calls { OnOk result
        (map coded_call calls.new.items ≡ map coded_call calls.old.items ++
        record { call = view.call call; into = into } ∷ []) }
    ensures origins { OnOk result
        (map (λ c. c.at) calls.new.items ≡ map (λ c. c.at) calls.old.items ++ at ∷ []) }
    ensures term { IfOk result (λ made. view.term made.term ≡ plain.Made into) }
    ensures temps { IfOk result (λ made. made.temps ≡ suc into) }
{
    let temps = small_sum(into, 1)?;
    calls.push(CodedCall { call, into, at })?;
    Ok(MadeTerm {
        term: Term::temp(alloc, into),
        temps,
    })
}
