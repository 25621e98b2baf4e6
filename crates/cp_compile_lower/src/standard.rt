//! Standard functions.

ghost use Rattle.std.specs.Prelude.{◌≡◌, List, IfOk, codes};
ghost use Rattle.std.specs.Str.{bytes_eq};
ghost use Rattle.cp_model.specs.Erase as erase;
ghost use Rattle.cp_model.specs.Expressions.{name_of};
ghost use Rattle.cp_model.specs.Types as types;
ghost use Rattle.cp_model.specs.Types.{base_of_type};
ghost use Rattle.cp_model.specs.View as tree;
ghost use Rattle.cp_law_typing.specs.StaticTypes.{expression_type};
ghost use Rattle.cp_model_program.specs.CodedTerms as coded;
ghost use Rattle.cp_model_program.specs.CodedTerms.{function_named};
ghost use Rattle.cp_model_program.specs.Scopes as code;
ghost use Rattle.cp_model_program.specs.Scopes.{environment};
ghost use Rattle.cp_model_program.specs.Terms as plain;
ghost use Rattle.cp_compile_emit.specs.declared.emitter.CodedCall.{CodedCall};
ghost use Rattle.cp_compile_symbols.specs.Scopes.{IsScope};
ghost use Rattle.cp_compile_symbols.specs.Representing.{base_of};
ghost use Rattle.cp_program.specs.View as view;
ghost use Rattle.cp_compile_lower.specs.Translated.{IsPlaceExpression, IsTerm};

use crate::made::MadePlaceExpression;
use crate::translator::Translator;
use cp_compile_emit::call::MadeTerm;
use cp_compile_symbols::{Base, base_type, first_ordinal, is_part, last_ordinal};
use cp_model::tree::{Designator, Expression};
use cp_program::term::{Function, Term};
use std::alloc::AllocError;

/// The name that a designator consists of, empty for a designator of a part.
pub fn lone_name(designator: &Designator) -> &[u8]
    ensures { result.now ≡ name_of (erase.designator (tree.designator designator.now)) }
{
    if is_part(designator) {
        return &[];
    }
    designator.root.name.as_bytes()
}

/// Whether a name is that of the standard function `empty`, which takes a queue.
pub fn is_empty_test(name: &[u8]) -> bool
    ensures { result ≡ bytes_eq name.now (codes "empty") }
{
    name == b"empty".as_slice()
}

// The function that shifts a value by `by`, within the bounds of a base type.
fn shift(by: i32, base: Base) -> Result<Function, AllocError>
    ensures { IfOk result (λ f. view.function f
        ≡ plain.Shift by (types.first_ordinal (base_of base.entry))
        (types.last_ordinal (base_of base.entry))) }
{
    Ok(Function::Shift {
        by,
        low: first_ordinal(base),
        high: last_ordinal(base)?,
    })
}

impl<'s, 't> Translator<'s, 't> {
    /// The base type of the value of an expression.
    pub fn base(&self, expression: &Expression) -> Result<Base<'t>, AllocError>
        ensures { IfOk result (λ b. (s : code.Scope) → IsScope self.now.scope s → base_of b
            ≡ base_of_type (expression_type (environment s)
            (erase.expression (tree.expression expression.now)))) }
    {
        Ok(base_type(self.scope.expression_type(expression)?))
    }

    /// The standard function with this name, for the argument `e`. Any name not listed counts as
    /// `chr`.
    pub fn function(&self, name: &[u8], expression: &Expression) -> Result<Function, AllocError>
        ensures { IfOk result (λ f. (s : code.Scope) → IsScope self.now.scope s
            → view.function f ≡ function_named name.now (base_of_type
            (expression_type (environment s) (erase.expression (tree.expression expression.now))))) }
    {
        if name == b"abs".as_slice() {
            Ok(Function::Abs)
        } else if name == b"succ".as_slice() {
            shift(1, self.base(expression)?)
        } else if name == b"pred".as_slice() {
            shift(-1, self.base(expression)?)
        } else if name == b"ord".as_slice() {
            Ok(Function::Ord)
        } else {
            Ok(Function::Chr)
        }
    }

    /// A standard function applied to a term.
    pub fn apply(&self, function: Function, made: MadeTerm) -> Result<MadeTerm, AllocError>
        ensures { IfOk result (λ n. (before : List coded.CodedCall) (after : List CodedCall)
            (t : coded.CodedTerm) → IsTerm before after made t → IsTerm before after n
            (record t { term = plain.Standard (view.function function) t.term })) }
    {
        Ok(MadeTerm {
            term: made.term.standard(self.alloc, function)?,
            temps: made.temps,
        })
    }

    /// The test whether a queue is empty.
    pub fn empty(&self, made: MadePlaceExpression) -> Result<MadeTerm, AllocError>
        ensures { IfOk result (λ n. (before : List coded.CodedCall) (after : List CodedCall)
            (c : coded.CodedPlaceExpression) → IsPlaceExpression before after made c → IsTerm before after n
            (record { term = plain.Empty c.place_expression; calls = c.calls; temps = c.temps })) }
    {
        Ok(MadeTerm {
            term: Term::empty(self.alloc, made.place_expression)?,
            temps: made.temps,
        })
    }
}
