//! Written types, given a reader of types one level deeper.

ghost use Rattle.std.specs.Prelude.{◌≡◌};
ghost use Rattle.cp_model.specs.Syntax as s;
ghost use Rattle.cp_model.specs.View as view;
ghost use Rattle.cp_model_grammar.specs.Reading.{Gives, and_then, by_kind};
ghost use Rattle.cp_model_grammar.specs.Names.{identifier_of, constant_of};
ghost use Rattle.cp_model_grammar.specs.Types as spec;
ghost use Rattle.cp_syntax.specs.Nests.{TypesAt, TypesBelow};

use crate::levels::{Level, Nested, inner, read_at};
use crate::lists::{Node, separated};
use crate::names::{constant, identifier, names};
use crate::tokens::{Read, after, expect, peek, place};
use cp_model::token::{Kind, Symbol, Token};
use cp_model::tree::{Constant, Fields, TypeExpression};
use cp_model_grammar::Stop;
use std::alloc::Global;

impl Nested for TypeExpression {
    ghost Plain = { s.TypeExpression };

    ghost view = { view.type_expression };

    ghost at = { spec.type_at };
}

impl<F: Fn(Global, usize, &[Token]) -> Read<'_, TypeExpression> + Copy> Node<Level<F>>
    for TypeExpression {
    ghost Plain = { s.TypeExpression };

    ghost view = { view.type_expression };

    ghost is_readable = { λ x. TypesAt x.room (F.pre x.read) (F.post x.read) };

    ghost reader = { λ x. spec.type_at x.room };

    fn read(level: Level<F>, tokens: &[Token]) -> Read<'_, TypeExpression> {
        read_at(level, tokens)
    }
}

impl<F: Fn(Global, usize, &[Token]) -> Read<'_, TypeExpression> + Copy> Node<Level<F>> for Fields {
    ghost Plain = { s.Variables };

    ghost view = { view.variables };

    ghost is_readable = { λ x. TypesAt x.room (F.pre x.read) (F.post x.read) };

    ghost reader = { λ x. spec.group_of (spec.type_at x.room) };

    /// Reads names of one type: fields or variables.
    #[tactic(auto, unfolding(cp_model_grammar::specs::Types::group_of))]
    fn read(level: Level<F>, tokens: &[Token]) -> Read<'_, Fields> {
        let (names, rest) = names(level.alloc, tokens)?;
        let (_, rest) = expect(rest, Symbol::Colon)?;
        let (of, rest) = read_at(level, rest)?;
        Ok((Fields { names, of }, rest))
    }
}

#[tactic(auto, unfolding(cp_model_grammar::specs::Types::array_of))]
fn array<F: Fn(Global, usize, &[Token]) -> Read<'_, TypeExpression> + Copy>(
    level: Level<F>,
    tokens: &[Token],
) -> Read<'_, TypeExpression>
    requires { TypesBelow level.room (F.pre level.read) (F.post level.read) }
    ensures { Gives view.type_expression result
        (spec.array_of (spec.inner_type_at level.room) tokens.now) }
{
    let inner = inner(level, tokens)?;
    let at = place(tokens);
    let (_, rest) = expect(after(tokens), Symbol::OpenBracket)?;
    let (indices, rest) = separated(level.alloc, inner, Symbol::Comma, rest)?;
    let (_, rest) = expect(rest, Symbol::CloseBracket)?;
    let (_, rest) = expect(rest, Symbol::Of)?;
    let (element, rest) = read_at(inner, rest)?;
    let indices = Box::new(level.alloc, indices)?;
    let element = Box::new(level.alloc, element)?;
    Ok((
        TypeExpression::Array {
            at,
            indices,
            element,
        },
        rest,
    ))
}

#[tactic(auto, unfolding(cp_model_grammar::specs::Types::record_of))]
fn record<F: Fn(Global, usize, &[Token]) -> Read<'_, TypeExpression> + Copy>(
    level: Level<F>,
    tokens: &[Token],
) -> Read<'_, TypeExpression>
    requires { TypesBelow level.room (F.pre level.read) (F.post level.read) }
    ensures { Gives view.type_expression result
        (spec.record_of (spec.inner_type_at level.room) tokens.now) }
{
    let inner = inner(level, tokens)?;
    let at = place(tokens);
    let (groups, rest) = separated(level.alloc, inner, Symbol::Semicolon, after(tokens))?;
    let (_, rest) = expect(rest, Symbol::End)?;
    let groups = Box::new(level.alloc, groups)?;
    Ok((TypeExpression::Record { at, groups }, rest))
}

/// Reads a type. A name is a type or the first bound of a subrange, depending on the token after
/// it.
#[tactic(auto, unfolding(cp_model_grammar::specs::Types::type_of, cp_model_grammar::specs::Types::type_by))]
pub fn type_from<F: Fn(Global, usize, &[Token]) -> Read<'_, TypeExpression> + Copy>(
    level: Level<F>,
    tokens: &[Token],
) -> Read<'_, TypeExpression>
    requires { TypesBelow level.room (F.pre level.read) (F.post level.read) }
    ensures { Gives view.type_expression result
        (spec.type_of (spec.inner_type_at level.room) tokens.now) }
{
    match peek(tokens) {
        Some(Kind::Short(_) | Kind::Long(_)) => name_or_subrange(level.alloc, tokens),
        Some(Kind::Number(_) | Kind::Character(_) | Kind::Symbol(Symbol::Minus)) => subrange(
            level.alloc,
            tokens,
        ),
        Some(Kind::Symbol(Symbol::Array)) => array(level, tokens),
        Some(Kind::Symbol(Symbol::Record)) => record(level, tokens),
        _ => Err(Stop::Wrong(tokens.len())),
    }
}

fn subrange(alloc: Global, tokens: &[Token]) -> Read<'_, TypeExpression>
    ensures { Gives view.type_expression result
        (and_then (constant_of tokens.now) spec.subrange_from) }
{
    let (low, rest) = constant(alloc, tokens)?;
    subrange_from(alloc, low, rest)
}

/// Reads the rest of a subrange after its first bound.
#[tactic(auto, unfolding(cp_model_grammar::specs::Types::subrange_from))]
fn subrange_from(alloc: Global, low: Constant, tokens: &[Token]) -> Read<'_, TypeExpression>
    ensures { Gives view.type_expression result (spec.subrange_from low tokens.now) }
{
    let (_, rest) = expect(tokens, Symbol::DotDot)?;
    let (high, rest) = constant(alloc, rest)?;
    let bounds = Box::new(alloc, (low, high))?;
    Ok((TypeExpression::Subrange(bounds), rest))
}

#[tactic(auto, unfolding(cp_model_grammar::specs::Types::named_or_subrange))]
fn name_or_subrange(alloc: Global, tokens: &[Token]) -> Read<'_, TypeExpression>
    ensures { Gives view.type_expression result
        (and_then (identifier_of tokens.now) (λ x. by_kind (spec.named_or_subrange x))) }
{
    let (name, rest) = identifier(alloc, tokens)?;
    match peek(rest) {
        Some(Kind::Symbol(Symbol::DotDot)) => subrange_from(alloc, Constant::Named(name), rest),
        _ => Ok((TypeExpression::Named(name), rest)),
    }
}

/// Reads a type, if `room` levels may be opened. It passes itself to the rules, which call it only
/// one level deeper.
pub fn type_expression(alloc: Global, room: usize, tokens: &[Token]) -> Read<'_, TypeExpression>
    ensures { Gives view.type_expression result (spec.type_at room tokens.now) }
{
    let level = Level {
        alloc,
        room,
        read: type_expression,
    };
    type_from(level, tokens)
}
