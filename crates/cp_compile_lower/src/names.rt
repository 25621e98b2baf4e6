//! What names are translated to: places where variables begin, constants and the clock.

ghost use Rattle.std.specs.Prelude.{◌≡◌, ℕ, List, Option, IfOk, map, option_map};
ghost use Rattle.cp_model.specs.Declarations.{Variable};
ghost use Rattle.cp_model.specs.Names.{lookup};
ghost use Rattle.cp_model_program.specs.CodedTerms.{lone_place_expression, ordinal_or_zero, root_or_first, term_of_name};
ghost use Rattle.cp_model_program.specs.Layout as layout;
ghost use Rattle.cp_model_program.specs.Scopes as code;
ghost use Rattle.cp_model_program.specs.Scopes.{root_named, root_of_local, root_or_member};
ghost use Rattle.cp_model_program.specs.Terms as plain;
ghost use Rattle.cp_compile_emit.specs.Emission.{coded_call};
ghost use Rattle.cp_compile_emit.specs.declared.emitter.CodedCall.{CodedCall};
ghost use Rattle.cp_compile_symbols.specs.Layouts.{PartIs};
ghost use Rattle.cp_compile_symbols.specs.Locals.{LocalIs};
ghost use Rattle.cp_compile_symbols.specs.Scopes.{IsScope};
ghost use Rattle.cp_compile_symbols.specs.declared.types.Types.{Types};
ghost use Rattle.cp_program.specs.View as view;
ghost use Rattle.cp_compile_lower.specs.Translated.{IsPlaceExpression};
ghost use Rattle.cp_law_typing.specs.StaticTypes.{is_clock};

use crate::made::MadePlaceExpression;
use crate::translator::Translator;
use cp_compile_symbols::{Local, Part};
use cp_program::term::{PlaceExpression, Root, Term};
use std::alloc::AllocError;

// Whether a name is that of the clock.
fn is_clock(name: &[u8]) -> bool
    ensures { result ≡ is_clock name.now }
{
    name == b"realtime".as_slice()
}

// The place where a parameter or variable of a routine begins.
fn root_of_local(local: Local) -> Result<Root, AllocError>
    ensures { IfOk result (λ r. (types : Types) (q : ℕ × Variable)
        → LocalIs types (Some local) (Some q) → view.root r ≡ root_of_local q) }
{
    let at = local.at.ok_or(AllocError)?;
    if local.by_reference {
        Ok(Root::Through {
            parameter: at,
            plus: 0,
        })
    } else {
        Ok(Root::Local(at))
    }
}

// The place where a member of a component begins.
fn root_of_member(part: Part) -> Result<Root, AllocError>
    ensures { IfOk result (λ r. (types : Types) (q : layout.Part)
        → PartIs types (Some part) (Some q) → view.root r ≡ plain.Member q.0) }
{
    let at = part.at.ok_or(AllocError)?;
    Ok(Root::Member(at))
}

// The place where a variable begins: one of the routine if there is one, and otherwise one of the
// component.
fn root_of(local: Option<Local>, part: Option<Part>) -> Result<Option<Root>, AllocError>
    ensures { IfOk result (λ r. (types : Types) (l : Option (ℕ × Variable))
        (m : Option layout.Part) → LocalIs types local l → PartIs types part m
        → option_map view.root r ≡ root_or_member l m) }
{
    match (local, part) {
        (Some(local), _) => Ok(Some(root_of_local(local)?)),
        (None, Some(part)) => Ok(Some(root_of_member(part)?)),
        (None, None) => Ok(None),
    }
}

impl<'s, 't> Translator<'s, 't> {
    /// The first word of the activation.
    pub fn first_word(&self, low: u32) -> MadePlaceExpression
        ensures { (calls : List CodedCall) → IsPlaceExpression (map coded_call calls) calls result
            (lone_place_expression (plain.Rooted (plain.Local 0)) low) }
    {
        MadePlaceExpression {
            place_expression: PlaceExpression::variable(self.alloc, Root::Local(0)),
            temps: low,
            of: None,
        }
    }

    /// The place where the variable with this name begins, or `None` if there is no such variable.
    pub fn root(&self, name: &[u8]) -> Result<Option<Root>, AllocError>
        ensures { IfOk result (λ r. (s : code.Scope) → IsScope self.now.scope s
            → option_map view.root r ≡ root_named s name.now) }
    {
        root_of(self.scope.local(name), self.scope.member(name))
    }

    /// The place where the variable with this name begins. Any other name has the first word of the
    /// activation.
    pub fn variable_root(&self, name: &[u8]) -> Result<Root, AllocError>
        ensures { IfOk result (λ r. (s : code.Scope) → IsScope self.now.scope s
            → view.root r ≡ root_or_first (root_named s name.now)) }
    {
        Ok(self.root(name)?.unwrap_or(Root::Local(0)))
    }

    // The value of the constant with this name. Any other name represents 0.
    fn constant(&self, name: &[u8]) -> Term
        ensures { (s : code.Scope) → IsScope self.now.scope s → view.term result
            ≡ plain.Number (ordinal_or_zero (lookup name.now s.globals.constants)) }
    {
        match self.scope.tables().names.constants.find(name) {
            Some(value) => Term::number(self.alloc, value.ordinal),
            None => Term::number(self.alloc, 0),
        }
    }

    /// The value of a bare name: the clock, a variable or a constant.
    pub fn named_term(&self, name: &[u8]) -> Result<Term, AllocError>
        ensures { IfOk result (λ t. (s : code.Scope) → IsScope self.now.scope s
            → view.term t ≡ term_of_name s name.now) }
    {
        if is_clock(name) {
            return Ok(Term::realtime(self.alloc));
        }
        match self.root(name)? {
            Some(root) => Ok(Term::variable(self.alloc, root)),
            None => Ok(self.constant(name)),
        }
    }
}
