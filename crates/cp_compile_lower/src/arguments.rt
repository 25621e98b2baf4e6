//! The arguments that are passed to parameters.

ghost use Rattle.std.specs.Prelude.{◌≡◌, ◌+◌, false, List, IfOk};
ghost use Rattle.cp_model.specs.Declarations.{Variable};
ghost use Rattle.cp_model.specs.Types.{GlobalScope, ResolvedType};
ghost use Rattle.cp_model_program.specs.CodedTerms as coded;
ghost use Rattle.cp_model_program.specs.CodedTerms.{by_value};
ghost use Rattle.cp_model_program.specs.Layout.{local_words};
ghost use Rattle.cp_model_program.specs.Scopes as code;
ghost use Rattle.cp_model_program.specs.Terms as plain;
ghost use Rattle.cp_compile_emit.specs.declared.emitter.CodedCall.{CodedCall};
ghost use Rattle.cp_compile_symbols.specs.Expressions.{is_simple};
ghost use Rattle.cp_compile_symbols.specs.Scopes.{IsScope};
ghost use Rattle.cp_compile_symbols.specs.Representing.{Represents, simple_of};
ghost use Rattle.cp_compile_lower.specs.Translated.{IsArgument, IsPlaceExpression, IsTerm};

use crate::made::{MadeArgument, MadePlaceExpression};
use crate::translator::Translator;
use crate::types::simple_bounds;
use cp_compile_emit::call::MadeTerm;
use cp_compile_symbols::{Declared, Simple, small_sum};
use cp_program::operation::Argument;
use std::alloc::AllocError;

/// Passes a reference to a variable.
pub fn reference(at: u32, made: MadePlaceExpression) -> MadeArgument
    ensures { (before : List coded.CodedCall) (after : List CodedCall) (c : coded.CodedPlaceExpression)
        → IsPlaceExpression before after made c → IsArgument before after result
        (record { argument = plain.Reference at c.place_expression; calls = c.calls; temps = c.temps }) }
{
    MadeArgument {
        argument: Argument::Reference {
            at,
            to: made.place_expression,
        },
        temps: made.temps,
    }
}

/// Passes a value of a simple type.
pub fn simple_value(at: u32, simple: Simple, made: MadeTerm) -> MadeArgument
    ensures { (before : List coded.CodedCall) (after : List CodedCall) (g : GlobalScope)
        (t : coded.CodedTerm) (c : coded.CodedPlaceExpression) → IsTerm before after made t
        → IsArgument before after result (by_value g (simple_of simple.entry) at t c) }
{
    MadeArgument {
        argument: Argument::Value {
            at,
            bounds: simple_bounds(simple),
            term: made.term,
        },
        temps: made.temps,
    }
}

impl<'s, 't> Translator<'s, 't> {
    /// Passes a copy of the words of a variable whose type isn't simple.
    pub fn copy_argument(
        &self,
        at: u32,
        of: usize,
        made: MadePlaceExpression,
    ) -> Result<MadeArgument, AllocError>
        ensures { IfOk result (λ r. (before : List coded.CodedCall) (after : List CodedCall)
            (s : code.Scope) (type : ResolvedType) (t : coded.CodedTerm) (c : coded.CodedPlaceExpression)
            → IsScope self.now.scope s → Represents self.now.scope.tables.now.types of type
            → is_simple type ≡ false → IsPlaceExpression before after made c
            → IsArgument before after r (by_value s.globals type at t c)) }
    {
        Ok(MadeArgument {
            argument: Argument::Copy {
                at,
                size: self.words(of)?,
                from: made.place_expression,
            },
            temps: made.temps,
        })
    }

    // The size in words of a parameter in an activation.
    fn local_words(&self, parameter: &Declared) -> Result<u32, AllocError>
        ensures { IfOk result (λ n. (s : code.Scope) (v : Variable) → IsScope self.now.scope s
            → parameter.now.by_reference ≡ v.by_reference
            → Represents self.now.scope.tables.now.types parameter.now.of v.type
            → n ≡ local_words s.globals v) }
    {
        let layouts = &self.scope.tables().layouts;
        match layouts.local_words(parameter.by_reference, parameter.of)? {
            Some(words) => Ok(words),
            None => Err(AllocError),
        }
    }

    /// The word at which the next parameter is.
    pub fn next_parameter(&self, at: u32, parameter: &Declared) -> Result<u32, AllocError>
        ensures { IfOk result (λ n. (s : code.Scope) (v : Variable) → IsScope self.now.scope s
            → parameter.now.by_reference ≡ v.by_reference
            → Represents self.now.scope.tables.now.types parameter.now.of v.type
            → n ≡ at + local_words s.globals v) }
    {
        let words = self.local_words(parameter)?;
        small_sum(at, words)
    }
}
