//! Parts of variables: fields and elements.

ghost use Rattle.std.specs.Prelude.{◌≡◌, ◌∷◌, [], None, Some, List, ℕ, IfOk, map};
ghost use Rattle.cp_model.specs.Abstract as a;
ghost use Rattle.cp_model_program.specs.CodedTerms.{coded_term};
ghost use Rattle.cp_model_program.specs.CodedTerms as coded;
ghost use Rattle.cp_model.specs.Locations.{ByName};
ghost use Rattle.cp_model.specs.Types.{ResolvedType};
ghost use Rattle.cp_model_program.specs.Layout as layout;
ghost use Rattle.cp_model_program.specs.Scopes as code;
ghost use Rattle.cp_model_program.specs.Terms as plain;
ghost use Rattle.cp_compile_emit.specs.Emission.{coded_call};
ghost use Rattle.cp_compile_emit.specs.declared.emitter.CodedCall.{CodedCall};
ghost use Rattle.cp_compile_symbols.specs.Layouts.{PartIs};
ghost use Rattle.cp_compile_symbols.specs.Places.{TypeIs};
ghost use Rattle.cp_compile_symbols.specs.Scopes.{IsScope};
ghost use Rattle.cp_compile_lower.specs.Translated.{IsPlace, IsPlaceExpression, IsTerm, PartOf, elements_at};

use crate::made::MadePlaceExpression;
use crate::starts::part_start;
use crate::translator::Translator;
use cp_compile_emit::call::MadeTerm;
use cp_compile_symbols::{Elements, Part};
use cp_program::term::{PlaceExpression, Term};
use std::alloc::AllocError;

impl<'s, 't> Translator<'s, 't> {
    /// The place expression of the variable with this name, and the type of its place.
    pub fn variable(&self, name: &[u8], low: u32) -> Result<MadePlaceExpression, AllocError>
        ensures { IfOk result (λ made. (s : code.Scope) (calls : List CodedCall)
            → IsScope self.now.scope s
            → IsPlace self.now.scope s low (map coded_call calls) calls (a.Plain name.now) made) }
    {
        Ok(MadePlaceExpression {
            place_expression: PlaceExpression::variable(self.alloc, self.variable_root(name)?),
            temps: low,
            of: self.scope.named_place_type(name),
        })
    }

    /// The word at a place, as a term.
    pub fn item(&self, made: MadePlaceExpression) -> Result<MadeTerm, AllocError>
        ensures { IfOk result (λ t. (before : List coded.CodedCall) (after : List CodedCall)
            (c : coded.CodedPlaceExpression) → IsPlaceExpression before after made c → IsTerm before after t
            (record { term = plain.Item c.place_expression; calls = c.calls; temps = c.temps })) }
    {
        Ok(MadeTerm {
            term: Term::item(self.alloc, made.place_expression)?,
            temps: made.temps,
        })
    }

    // Where the member with this name is in a variable of the type `of`.
    fn part(&self, of: Option<usize>, name: &[u8]) -> Option<Part>
        ensures { (s : code.Scope) (t : ResolvedType) → IsScope self.now.scope s
            → TypeIs self.now.scope.tables.now.types of t
            → PartIs self.now.scope.tables.now.types result
            (layout.part s.globals t (ByName name.now ∷ [])) }
    {
        self.scope.tables().layouts.part(of?, name)
    }

    /// The member of a variable that has this name. A name of no member of its type represents the
    /// variable.
    pub fn field(
        &self,
        of: MadePlaceExpression,
        name: &[u8],
    ) -> Result<MadePlaceExpression, AllocError>
        ensures { IfOk result (λ made. (calls : List CodedCall)
            → PartOf self.now.scope calls calls of (λ d. a.Part d name.now) made) }
    {
        let at = part_start(self.part(of.of, name))?;
        let place_expression = of.place_expression.advance(at).ok_or(AllocError)?;
        Ok(MadePlaceExpression {
            place_expression,
            temps: of.temps,
            of: self.scope.field_type(of.of, name),
        })
    }

    /// The elements of a variable of the type `of`, if it is an array.
    pub fn elements(&self, of: Option<usize>) -> Option<Elements>
        ensures { result ≡ elements_at self.now.scope.tables.now.types of }
    {
        self.scope.tables().types.elements(of?)
    }

    /// What a variable that isn't an array has at an index: the variable itself, without a type.
    pub fn no_element(&self, of: MadePlaceExpression) -> MadePlaceExpression
        ensures { (s : code.Scope) (low : ℕ) (before : List coded.CodedCall)
            (calls : List CodedCall) (d : a.Designator) (e : a.Expression)
            → elements_at self.now.scope.tables.now.types of.of ≡ None
            → IsPlace self.now.scope s low before calls d of
            → IsPlace self.now.scope s low before calls (a.At d e) result }
    {
        MadePlaceExpression { of: None, ..of }
    }

    /// The element of an array at an index.
    pub fn element(
        &self,
        of: MadePlaceExpression,
        elements: Elements,
        index: MadeTerm,
    ) -> Result<MadePlaceExpression, AllocError>
        ensures { IfOk result (λ made. (s : code.Scope) (low : ℕ) (before : List coded.CodedCall)
            (old new : List CodedCall) (d : a.Designator) (e : a.Expression)
            → elements_at self.now.scope.tables.now.types of.of ≡ Some elements
            → IsScope self.now.scope s → IsPlace self.now.scope s low before old d of
            → IsTerm (map coded_call old) new index (coded_term s e of.temps)
            → IsPlace self.now.scope s low before new (a.At d e) made) }
    {
        let size = self.words(elements.of)?;
        let place_expression = of
            .place_expression
            .element(elements.low, elements.high, size, index.term)?;
        Ok(MadePlaceExpression {
            place_expression,
            temps: index.temps,
            of: Some(elements.of),
        })
    }
}
