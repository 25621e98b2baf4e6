//! Operators on terms.

ghost use Rattle.std.specs.Prelude.{List, ℕ, IfOk, map};
ghost use Rattle.cp_model.specs.Abstract as a;
ghost use Rattle.cp_model.specs.Erase as erase;
ghost use Rattle.cp_model_program.specs.CodedTerms as coded;
ghost use Rattle.cp_model_program.specs.CodedTerms.{coded_term, with_operator};
ghost use Rattle.cp_model_program.specs.Scopes as code;
ghost use Rattle.cp_model_program.specs.Terms as plain;
ghost use Rattle.cp_compile_emit.specs.Emission.{coded_call};
ghost use Rattle.cp_compile_emit.specs.declared.emitter.CodedCall.{CodedCall};
ghost use Rattle.cp_compile_lower.specs.Translated.{IsTerm};

use crate::translator::Translator;
use cp_compile_emit::call::MadeTerm;
use cp_model::tree::{Operator, Sign};
use cp_program::term::Term;
use std::alloc::AllocError;

impl<'s, 't> Translator<'s, 't> {
    /// A number, which needs no calls.
    pub fn number(&self, n: i32, low: u32) -> MadeTerm
        ensures { (calls : List CodedCall) → IsTerm (map coded_call calls) calls result
            (coded.lone_term (plain.Number n) low) }
    {
        MadeTerm {
            term: Term::number(self.alloc, n),
            temps: low,
        }
    }

    /// The negation of a Boolean term.
    pub fn not(&self, made: MadeTerm) -> Result<MadeTerm, AllocError>
        ensures { IfOk result (λ n. (before : List coded.CodedCall) (after : List CodedCall)
            (t : coded.CodedTerm) → IsTerm before after made t
            → IsTerm before after n (record t { term = plain.Not t.term })) }
    {
        Ok(MadeTerm {
            term: made.term.not(self.alloc)?,
            temps: made.temps,
        })
    }

    /// A term with a sign before it.
    pub fn with_sign(&self, sign: Sign, made: MadeTerm) -> Result<MadeTerm, AllocError>
        ensures { IfOk result (λ n. (before : List coded.CodedCall) (after : List CodedCall)
            (s : code.Scope) (e : a.Expression) (low : ℕ)
            → IsTerm before after made (coded_term s e low)
            → IsTerm before after n (coded_term s (erase.with_sign sign e) low)) }
    {
        match sign {
            Sign::Plus => Ok(made),
            Sign::Minus => Ok(MadeTerm {
                term: made.term.negative(self.alloc)?,
                temps: made.temps,
            }),
        }
    }

    /// A binary operator. The calls of the right operand come after those of the left one.
    pub fn binary(
        &self,
        left: MadeTerm,
        operator: Operator,
        right: MadeTerm,
    ) -> Result<MadeTerm, AllocError>
        ensures { IfOk result (λ n. (before : List coded.CodedCall) (middle after : List CodedCall)
            (x y : coded.CodedTerm) → IsTerm before middle left x
            → IsTerm (map coded_call middle) after right y
            → IsTerm before after n (with_operator (erase.operator_of operator) x y)) }
    {
        Ok(MadeTerm {
            term: left.term.binary(self.alloc, operator, right.term)?,
            temps: right.temps,
        })
    }
}
