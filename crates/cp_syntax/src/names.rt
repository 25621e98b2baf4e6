//! Names and constants.

ghost use Rattle.std.specs.Prelude.{◌≡◌, ⊤};
ghost use Rattle.cp_model_grammar.specs.Reading.{kind_at, Gives};
ghost use Rattle.cp_model_grammar.specs.Names as spec;

use crate::lists::{Node, separated};
use crate::tokens::{Read, after, peek, place};
use cp_model::token::{Kind, Name, Symbol, Token};
use cp_model::tree::{Constant, Identifier};
use cp_model_grammar::Stop;
use std::alloc::Global;

/// Reads a name, with its place.
#[tactic(auto, unfolding(cp_model_grammar::specs::Names::identifier_of))]
pub fn identifier(alloc: Global, tokens: &[Token]) -> Read<'_, Identifier>
    ensures { Gives (λ x. x) result (spec.identifier_of tokens.now) }
{
    let at = place(tokens);
    match peek(tokens) {
        // The arms stay apart: joined before the result is made, they would copy each short name
        // once more.
        Some(Kind::Short(word)) => {
            let name = Name::of_short(word);
            Ok((Identifier { name, at }, after(tokens)))
        }
        Some(Kind::Long(word)) => {
            let name = Name::of_long(alloc, word.as_slice())?;
            Ok((Identifier { name, at }, after(tokens)))
        }
        _ => Err(Stop::Wrong(tokens.len())),
    }
}

/// Reads one or more names, with commas between them.
#[tactic(auto, unfolding(cp_model_grammar::specs::Names::names_of))]
pub fn names(alloc: Global, tokens: &[Token]) -> Read<'_, Vec<Identifier>>
    ensures { Gives (λ v. v.items) result (spec.names_of tokens.now) }
{
    separated(alloc, alloc, Symbol::Comma, tokens)
}

/// Reads a constant.
#[tactic(auto, unfolding(cp_model_grammar::specs::Names::constant_of))]
pub fn constant(alloc: Global, tokens: &[Token]) -> Read<'_, Constant>
    ensures { Gives (λ c. c) result (spec.constant_of tokens.now) }
{
    let at = place(tokens);
    let rest = after(tokens);
    match peek(tokens) {
        Some(Kind::Number(value)) => Ok((Constant::Number { at, value: *value }, rest)),
        Some(Kind::Character(ordinal)) => {
            let ordinal = *ordinal;
            Ok((Constant::Character { at, ordinal }, rest))
        }
        Some(Kind::Short(word)) => {
            let name = Name::of_short(word);
            Ok((Constant::Named(Identifier { name, at }), rest))
        }
        Some(Kind::Long(word)) => {
            let name = Name::of_long(alloc, word.as_slice())?;
            Ok((Constant::Named(Identifier { name, at }), rest))
        }
        Some(Kind::Symbol(Symbol::Minus)) => negative(at, rest),
        _ => Err(Stop::Wrong(tokens.len())),
    }
}

/// Reads the number after a `-` at the place `at`.
fn negative(at: usize, tokens: &[Token]) -> Read<'_, Constant>
    ensures { Gives (λ c. c) result (spec.negative_by at (kind_at tokens.now) tokens.now) }
{
    match peek(tokens) {
        Some(Kind::Number(value)) => Ok((Constant::Negative { at, value: *value }, after(tokens))),
        _ => Err(Stop::Wrong(tokens.len())),
    }
}

/// Reads one or more constants, with commas between them.
#[tactic(auto, unfolding(cp_model_grammar::specs::Names::constants_of))]
pub fn constants(alloc: Global, tokens: &[Token]) -> Read<'_, Vec<Constant>>
    ensures { Gives (λ v. v.items) result (spec.constants_of tokens.now) }
{
    separated(alloc, alloc, Symbol::Comma, tokens)
}

impl Node<Global> for Identifier {
    ghost use Rattle.cp_model.specs.declared.tree.Identifier as plain;

    ghost Plain = { plain.Identifier };

    ghost view = { λ x. x };

    ghost is_readable = { λ alloc. ⊤ };

    ghost reader = { λ alloc. spec.identifier_of };

    fn read(alloc: Global, tokens: &[Token]) -> Read<'_, Identifier> {
        identifier(alloc, tokens)
    }
}

impl Node<Global> for Constant {
    ghost use Rattle.cp_model.specs.declared.tree.Constant as plain;

    ghost Plain = { plain.Constant };

    ghost view = { λ c. c };

    ghost is_readable = { λ alloc. ⊤ };

    ghost reader = { λ alloc. spec.constant_of };

    fn read(alloc: Global, tokens: &[Token]) -> Read<'_, Constant> {
        constant(alloc, tokens)
    }
}
