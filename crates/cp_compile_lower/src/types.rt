//! Queries about types.

ghost use Rattle.std.specs.Prelude.{◌≡◌, IfOk};
ghost use Rattle.cp_model.specs.Types.{ResolvedType};
ghost use Rattle.cp_law_typing.specs.Words.{words};
ghost use Rattle.cp_model_program.specs.CodedStatements.{high_of, low_of};
ghost use Rattle.cp_model_program.specs.Scopes as code;
ghost use Rattle.cp_compile_symbols.specs.Expressions.{SimpleIs};
ghost use Rattle.cp_compile_symbols.specs.Places.{TypeIs};
ghost use Rattle.cp_compile_symbols.specs.Scopes.{IsScope};
ghost use Rattle.cp_compile_symbols.specs.Representing.{Represents};

use crate::translator::Translator;
use cp_compile_symbols::Simple;
use cp_program::bounds::Bounds;
use std::alloc::AllocError;

/// The bounds of a simple type.
pub fn simple_bounds(simple: Simple) -> Bounds
    ensures low { result.low ≡ simple.entry.low }
    ensures high { result.high ≡ simple.entry.high }
{
    Bounds {
        low: simple.low,
        high: simple.high,
    }
}

/// The bounds of a type that may be simple. Those of any other type are 0.
pub fn bounds_of(of: Option<Simple>) -> Bounds
    ensures low { (t : ResolvedType) → SimpleIs of.entry t → result.low ≡ low_of t }
    ensures high { (t : ResolvedType) → SimpleIs of.entry t → result.high ≡ high_of t }
{
    match of {
        Some(simple) => simple_bounds(simple),
        None => Bounds { low: 0, high: 0 },
    }
}

impl<'s, 't> Translator<'s, 't> {
    /// The size in words of a variable of the type `of`.
    pub fn words(&self, of: usize) -> Result<u32, AllocError>
        ensures { IfOk result (λ n. (s : code.Scope) (t : ResolvedType) → IsScope self.now.scope s
            → Represents self.now.scope.tables.now.types of t → n ≡ words s.globals t) }
    {
        match self.scope.tables().layouts.words(of)? {
            Some(words) => Ok(words),
            None => Err(AllocError),
        }
    }

    /// The size in words of a variable of the type `of`, where `None` represents no type.
    pub fn place_words(&self, of: Option<usize>) -> Result<u32, AllocError>
        ensures { IfOk result (λ n. (s : code.Scope) (t : ResolvedType) → IsScope self.now.scope s
            → TypeIs self.now.scope.tables.now.types of t → n ≡ words s.globals t) }
    {
        match of {
            Some(of) => self.words(of),
            None => Ok(0),
        }
    }
}
