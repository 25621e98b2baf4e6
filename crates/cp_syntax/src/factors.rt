//! From selectors to factors, given a reader of factors one level deeper.

ghost use Rattle.std.specs.Prelude.{◌≡◌, map};
ghost use Rattle.cp_model.specs.Syntax as s;
ghost use Rattle.cp_model.specs.View as view;
ghost use Rattle.cp_model_grammar.specs.Reading.{kind_at, Gives};
ghost use Rattle.cp_model_grammar.specs.Expressions as spec;
ghost use Rattle.cp_syntax.specs.Nests.{FactorsBelow};

use crate::expressions::{expressions, indices};
use crate::levels::{Level, inner, read_at};
use crate::lists::{Item, Node, repeated};
use crate::names::identifier;
use crate::tokens::{Read, after, expect, peek, place, sees};
use cp_model::token::{Kind, Symbol, Token};
use cp_model::tree::{Designator, Expression, Selector};
use cp_model_grammar::Stop;
use std::alloc::Global;

impl<F: Fn(Global, usize, &[Token]) -> Read<'_, Expression> + Copy> Node<Level<F>> for Selector {
    ghost Plain = { s.Selector };

    ghost view = { view.selector };

    ghost is_readable = { λ x. FactorsBelow x.room (F.pre x.read) (F.post x.read) };

    ghost reader = { λ x. spec.selector_of (spec.inner_at x.room) };

    /// Reads a field or indices, depending on the next mark.
    #[tactic(auto, unfolding(cp_model_grammar::specs::Expressions::selector_of, cp_model_grammar::specs::Expressions::selector_by, cp_model_grammar::specs::Expressions::field_of))]
    fn read(level: Level<F>, tokens: &[Token]) -> Read<'_, Selector> {
        match peek(tokens) {
            Some(Kind::Symbol(Symbol::Dot)) => {
                let at = place(tokens);
                let (name, rest) = identifier(level.alloc, after(tokens))?;
                Ok((Selector::Field { at, name }, rest))
            }
            Some(Kind::Symbol(Symbol::OpenBracket)) => indexed(level, tokens),
            _ => Err(Stop::Wrong(tokens.len())),
        }
    }
}

impl<F: Fn(Global, usize, &[Token]) -> Read<'_, Expression> + Copy> Item<Level<F>> for Selector {
    ghost begins = { spec.begins_selector };

    fn begins(tokens: &[Token]) -> bool {
        matches!(
            peek(tokens),
            Some(Kind::Symbol(Symbol::Dot | Symbol::OpenBracket))
        )
    }
}

/// Reads indices in brackets.
#[tactic(auto, unfolding(cp_model_grammar::specs::Expressions::indexed_of))]
fn indexed<F: Fn(Global, usize, &[Token]) -> Read<'_, Expression> + Copy>(
    level: Level<F>,
    tokens: &[Token],
) -> Read<'_, Selector>
    requires { FactorsBelow level.room (F.pre level.read) (F.post level.read) }
    ensures { Gives view.selector result (spec.indexed_of (spec.inner_at level.room) tokens.now) }
{
    let (indices, rest) = indices(inner(level, tokens)?, tokens)?;
    let (_, rest) = expect(rest, Symbol::CloseBracket)?;
    Ok((Selector::Indexed(indices), rest))
}

/// Reads a name and the selectors after it.
#[tactic(auto, unfolding(cp_model_grammar::specs::Expressions::designator_of))]
fn designator_from<F: Fn(Global, usize, &[Token]) -> Read<'_, Expression> + Copy>(
    level: Level<F>,
    tokens: &[Token],
) -> Read<'_, Designator>
    requires { FactorsBelow level.room (F.pre level.read) (F.post level.read) }
    ensures { Gives view.designator result
        (spec.designator_of (spec.inner_at level.room) tokens.now) }
{
    let (root, rest) = identifier(level.alloc, tokens)?;
    let (selectors, rest) = repeated(level.alloc, level, rest)?;
    Ok((Designator { root, selectors }, rest))
}

/// Reads arguments in parentheses.
#[tactic(auto, unfolding(cp_model_grammar::specs::Expressions::arguments_of))]
fn arguments<F: Fn(Global, usize, &[Token]) -> Read<'_, Expression> + Copy>(
    level: Level<F>,
    tokens: &[Token],
) -> Read<'_, Vec<Expression>>
    requires { FactorsBelow level.room (F.pre level.read) (F.post level.read) }
    ensures { Gives (λ v. map view.expression v.items) result
        (spec.arguments_of (spec.inner_at level.room) tokens.now) }
{
    let (arguments, rest) = expressions(inner(level, tokens)?, after(tokens))?;
    let (_, rest) = expect(rest, Symbol::CloseParenthesis)?;
    Ok((arguments, rest))
}

/// Reads a designator, or a call of a function with arguments.
#[tactic(auto, unfolding(cp_model_grammar::specs::Expressions::named_of, cp_model_grammar::specs::Expressions::call_or_part))]
fn designator_or_call<F: Fn(Global, usize, &[Token]) -> Read<'_, Expression> + Copy>(
    level: Level<F>,
    tokens: &[Token],
) -> Read<'_, Expression>
    requires { FactorsBelow level.room (F.pre level.read) (F.post level.read) }
    ensures { Gives view.expression result (spec.named_of (spec.inner_at level.room) tokens.now) }
{
    let (d, rest) = designator_from(level, tokens)?;
    if !sees(rest, Symbol::OpenParenthesis) {
        return Ok((Expression::Designated(d), rest));
    }
    let (arguments, rest) = arguments(level, rest)?;
    let d = Box::new(level.alloc, d)?;
    Ok((Expression::Call(d, arguments), rest))
}

/// Reads an expression in parentheses.
#[tactic(auto, unfolding(cp_model_grammar::specs::Expressions::parenthesized_of))]
fn parentheses<F: Fn(Global, usize, &[Token]) -> Read<'_, Expression> + Copy>(
    level: Level<F>,
    tokens: &[Token],
) -> Read<'_, Expression>
    requires { FactorsBelow level.room (F.pre level.read) (F.post level.read) }
    ensures { Gives view.expression result
        (spec.parenthesized_of (spec.inner_at level.room) tokens.now) }
{
    let at = place(tokens);
    let (inner, rest) = Expression::read(inner(level, tokens)?, after(tokens))?;
    let (_, rest) = expect(rest, Symbol::CloseParenthesis)?;
    let inner = Box::new(level.alloc, inner)?;
    Ok((Expression::Parenthesized { at, inner }, rest))
}

/// Reads a `not` and the factor after it.
#[tactic(auto, unfolding(cp_model_grammar::specs::Expressions::not_of))]
fn negation<F: Fn(Global, usize, &[Token]) -> Read<'_, Expression> + Copy>(
    level: Level<F>,
    tokens: &[Token],
) -> Read<'_, Expression>
    requires { FactorsBelow level.room (F.pre level.read) (F.post level.read) }
    ensures { Gives view.expression result (spec.not_of (spec.inner_at level.room) tokens.now) }
{
    let at = place(tokens);
    let (operand, rest) = read_at(inner(level, tokens)?, after(tokens))?;
    let operand = Box::new(level.alloc, operand)?;
    Ok((Expression::Not { at, operand }, rest))
}

/// Reads a factor, depending on the next token.
#[tactic(auto, unfolding(cp_model_grammar::specs::Expressions::factor_of, cp_model_grammar::specs::Expressions::factor_by))]
pub fn factor_from<F: Fn(Global, usize, &[Token]) -> Read<'_, Expression> + Copy>(
    level: Level<F>,
    tokens: &[Token],
) -> Read<'_, Expression>
    requires { FactorsBelow level.room (F.pre level.read) (F.post level.read) }
    ensures { Gives view.expression result (spec.factor_of (spec.inner_at level.room) tokens.now) }
{
    let at = place(tokens);
    match peek(tokens) {
        Some(Kind::Number(value)) => Ok((Expression::Number { at, value: *value }, after(tokens))),
        Some(Kind::Character(ordinal)) => {
            let ordinal = *ordinal;
            Ok((Expression::Character { at, ordinal }, after(tokens)))
        }
        Some(Kind::Short(_) | Kind::Long(_)) => designator_or_call(level, tokens),
        Some(Kind::Symbol(Symbol::OpenParenthesis)) => parentheses(level, tokens),
        Some(Kind::Symbol(Symbol::Not)) => negation(level, tokens),
        _ => Err(Stop::Wrong(tokens.len())),
    }
}

/// Reads a factor, if `room` levels may be opened. It passes itself to the rules, which call it
/// only one level deeper.
pub fn factor(alloc: Global, room: usize, tokens: &[Token]) -> Read<'_, Expression>
    ensures { Gives view.expression result (spec.factor_at room tokens.now) }
{
    let level = Level {
        alloc,
        room,
        read: factor,
    };
    factor_from(level, tokens)
}

/// Reads an expression, if `room` levels may be opened.
pub fn expression(alloc: Global, room: usize, tokens: &[Token]) -> Read<'_, Expression>
    ensures { Gives view.expression result (spec.expression_at room tokens.now) }
{
    let level = Level {
        alloc,
        room,
        read: factor,
    };
    Expression::read(level, tokens)
}

/// Reads a designator, if `room` levels may be opened.
pub fn designator(alloc: Global, room: usize, tokens: &[Token]) -> Read<'_, Designator>
    ensures { Gives view.designator result (spec.designator_at room tokens.now) }
{
    let level = Level {
        alloc,
        room,
        read: factor,
    };
    designator_from(level, tokens)
}

/// Reads arguments in parentheses or none, if `room` levels may be opened.
#[tactic(auto, unfolding(cp_model_grammar::specs::Expressions::optional_arguments_of))]
pub fn optional_arguments(alloc: Global, room: usize, tokens: &[Token]) -> Read<'_, Vec<Expression>>
    ensures { Gives (λ v. map view.expression v.items) result
        (spec.optional_arguments_at room tokens.now) }
{
    if !sees(tokens, Symbol::OpenParenthesis) {
        return Ok((Vec::new(alloc), tokens));
    }
    let level = Level {
        alloc,
        room,
        read: factor,
    };
    arguments(level, tokens)
}
