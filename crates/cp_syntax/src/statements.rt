//! Statements, given a reader of statements one level deeper.

ghost use Rattle.std.specs.Prelude.{◌≡◌, map};
ghost use Rattle.cp_model.specs.Syntax as s;
ghost use Rattle.cp_model.specs.View as view;
ghost use Rattle.cp_model_grammar.specs.Reading.{Gives};
ghost use Rattle.cp_model_grammar.specs.Expressions.{inner_at};
ghost use Rattle.cp_model_grammar.specs.Statements as spec;
ghost use Rattle.cp_syntax.specs.Nests.{StatementsAt, StatementsBelow};

use crate::factors::expression;
use crate::levels::{Level, Nested, inner, read_at};
use crate::lists::{Node, separated};
use crate::names::{constants, identifier};
use crate::simple_statements::{assignment_or_call, init};
use crate::tokens::{Read, after, expect, peek, place, sees};
use cp_model::token::{Kind, Symbol, Token};
use cp_model::tree::{Arm, Body, Direction, ForHeader, Statement};
use cp_model_grammar::Stop;
use std::alloc::Global;

impl Nested for Statement {
    ghost Plain = { s.Statement };

    ghost view = { view.statement };

    ghost at = { spec.statement_at };
}

impl<F: Fn(Global, usize, &[Token]) -> Read<'_, Statement> + Copy> Node<Level<F>> for Statement {
    ghost Plain = { s.Statement };

    ghost view = { view.statement };

    ghost is_readable = { λ x. StatementsAt x.room (F.pre x.read) (F.post x.read) };

    ghost reader = { λ x. spec.statement_at x.room };

    // An empty statement before a semicolon is read without a call.
    #[inline(always)]
    #[tactic(auto, unfolding(cp_model_grammar::specs::Statements::statement_of, cp_model_grammar::specs::Statements::statement_by))]
    fn read(level: Level<F>, tokens: &[Token]) -> Read<'_, Statement> {
        match peek(tokens) {
            Some(Kind::Symbol(Symbol::Semicolon)) => Ok((Statement::Empty, tokens)),
            _ => read_at(level, tokens),
        }
    }
}

impl<F: Fn(Global, usize, &[Token]) -> Read<'_, Statement> + Copy> Node<Level<F>> for Arm {
    ghost Plain = { view.LabelledStatement };

    ghost view = { view.arm };

    ghost is_readable = { λ x. StatementsAt x.room (F.pre x.read) (F.post x.read) };

    ghost reader = { λ x. spec.arm_of (spec.statement_at x.room) };

    #[tactic(auto, unfolding(cp_model_grammar::specs::Statements::arm_of))]
    fn read(level: Level<F>, tokens: &[Token]) -> Read<'_, Arm> {
        let (labels, rest) = constants(level.alloc, tokens)?;
        let (_, rest) = expect(rest, Symbol::Colon)?;
        let (body, rest) = read_at(level, rest)?;
        Ok((Arm { labels, body }, rest))
    }
}

/// Reads one or more statements, with semicolons between them.
#[tactic(auto, unfolding(cp_model_grammar::specs::Statements::statements_from))]
fn statements<F: Fn(Global, usize, &[Token]) -> Read<'_, Statement> + Copy>(
    level: Level<F>,
    tokens: &[Token],
) -> Read<'_, Vec<Statement>>
    requires { StatementsAt level.room (F.pre level.read) (F.post level.read) }
    ensures { Gives (λ v. map view.statement v.items) result
        (spec.statements_from (spec.statement_at level.room) tokens.now) }
{
    separated(level.alloc, level, Symbol::Semicolon, tokens)
}

/// Reads from a `begin` to its `end`.
#[tactic(auto, unfolding(cp_model_grammar::specs::Statements::block_of))]
fn block_from<F: Fn(Global, usize, &[Token]) -> Read<'_, Statement> + Copy>(
    level: Level<F>,
    tokens: &[Token],
) -> Read<'_, Body>
    requires { StatementsBelow level.room (F.pre level.read) (F.post level.read) }
    ensures { Gives view.body result (spec.block_of (spec.deeper_at level.room) tokens.now) }
{
    let at = place(tokens);
    let (statements, rest) = statements(inner(level, tokens)?, after(tokens))?;
    let (_, rest) = expect(rest, Symbol::End)?;
    Ok((Body { at, statements }, rest))
}

#[tactic(auto, unfolding(cp_model_grammar::specs::Statements::compound_of))]
fn compound<F: Fn(Global, usize, &[Token]) -> Read<'_, Statement> + Copy>(
    level: Level<F>,
    tokens: &[Token],
) -> Read<'_, Statement>
    requires { StatementsBelow level.room (F.pre level.read) (F.post level.read) }
    ensures { Gives view.statement result
        (spec.compound_of (spec.deeper_at level.room) tokens.now) }
{
    let (body, rest) = block_from(level, tokens)?;
    let statements = Box::new(level.alloc, body.statements)?;
    Ok((Statement::Compound(statements), rest))
}

/// Reads an `if`. An `else` belongs to the statement that is being read when it comes: the
/// nearest `if` before it that has none.
#[tactic(auto, unfolding(cp_model_grammar::specs::Statements::if_of, cp_model_grammar::specs::Statements::else_part))]
fn conditional<F: Fn(Global, usize, &[Token]) -> Read<'_, Statement> + Copy>(
    level: Level<F>,
    tokens: &[Token],
) -> Read<'_, Statement>
    requires { StatementsBelow level.room (F.pre level.read) (F.post level.read) }
    ensures { Gives view.statement result (spec.if_of (spec.deeper_at level.room) tokens.now) }
{
    let inner = inner(level, tokens)?;
    let (condition, rest) = expression(inner.alloc, inner.room, after(tokens))?;
    let condition = Box::new(level.alloc, condition)?;
    let (_, rest) = expect(rest, Symbol::Then)?;
    let (then, rest) = read_at(inner, rest)?;
    if !sees(rest, Symbol::Else) {
        let then = Box::new(level.alloc, then)?;
        return Ok((Statement::If { condition, then }, rest));
    }
    let (otherwise, rest) = read_at(inner, after(rest))?;
    let branches = Box::new(level.alloc, (then, otherwise))?;
    Ok((
        Statement::IfElse {
            condition,
            branches,
        },
        rest,
    ))
}

#[tactic(auto, unfolding(cp_model_grammar::specs::Statements::case_of))]
fn case<F: Fn(Global, usize, &[Token]) -> Read<'_, Statement> + Copy>(
    level: Level<F>,
    tokens: &[Token],
) -> Read<'_, Statement>
    requires { StatementsBelow level.room (F.pre level.read) (F.post level.read) }
    ensures { Gives view.statement result (spec.case_of (spec.deeper_at level.room) tokens.now) }
{
    let inner = inner(level, tokens)?;
    let (selector, rest) = expression(inner.alloc, inner.room, after(tokens))?;
    let selector = Box::new(level.alloc, selector)?;
    let (_, rest) = expect(rest, Symbol::Of)?;
    let (arms, rest) = separated(level.alloc, inner, Symbol::Semicolon, rest)?;
    let (_, rest) = expect(rest, Symbol::End)?;
    let arms = Box::new(level.alloc, arms)?;
    Ok((Statement::Case { selector, arms }, rest))
}

#[tactic(auto, unfolding(cp_model_grammar::specs::Statements::while_of))]
fn while_loop<F: Fn(Global, usize, &[Token]) -> Read<'_, Statement> + Copy>(
    level: Level<F>,
    tokens: &[Token],
) -> Read<'_, Statement>
    requires { StatementsBelow level.room (F.pre level.read) (F.post level.read) }
    ensures { Gives view.statement result (spec.while_of (spec.deeper_at level.room) tokens.now) }
{
    let inner = inner(level, tokens)?;
    let (condition, rest) = expression(inner.alloc, inner.room, after(tokens))?;
    let condition = Box::new(level.alloc, condition)?;
    let (_, rest) = expect(rest, Symbol::Do)?;
    let (body, rest) = read_at(inner, rest)?;
    let body = Box::new(level.alloc, body)?;
    Ok((Statement::While { condition, body }, rest))
}

#[tactic(auto, unfolding(cp_model_grammar::specs::Statements::repeat_of))]
fn repeat_loop<F: Fn(Global, usize, &[Token]) -> Read<'_, Statement> + Copy>(
    level: Level<F>,
    tokens: &[Token],
) -> Read<'_, Statement>
    requires { StatementsBelow level.room (F.pre level.read) (F.post level.read) }
    ensures { Gives view.statement result (spec.repeat_of (spec.deeper_at level.room) tokens.now) }
{
    let inner = inner(level, tokens)?;
    let (body, rest) = statements(inner, after(tokens))?;
    let (_, rest) = expect(rest, Symbol::Until)?;
    let (condition, rest) = expression(inner.alloc, inner.room, rest)?;
    let condition = Box::new(level.alloc, condition)?;
    let body = Box::new(level.alloc, body)?;
    Ok((Statement::Repeat { body, condition }, rest))
}

#[tactic(auto, unfolding(cp_model_grammar::specs::Statements::for_of))]
fn for_loop<F: Fn(Global, usize, &[Token]) -> Read<'_, Statement> + Copy>(
    level: Level<F>,
    tokens: &[Token],
) -> Read<'_, Statement>
    requires { StatementsBelow level.room (F.pre level.read) (F.post level.read) }
    ensures { Gives view.statement result (spec.for_of (spec.deeper_at level.room) tokens.now) }
{
    let inner = inner(level, tokens)?;
    let (variable, rest) = identifier(level.alloc, after(tokens))?;
    let (_, rest) = expect(rest, Symbol::Assign)?;
    let (from, rest) = expression(inner.alloc, inner.room, rest)?;
    let (direction, rest) = direction(rest)?;
    let (last, rest) = expression(inner.alloc, inner.room, rest)?;
    let header = ForHeader {
        variable,
        from,
        direction,
        last,
    };
    let header = Box::new(level.alloc, header)?;
    let (_, rest) = expect(rest, Symbol::Do)?;
    let (body, rest) = read_at(inner, rest)?;
    let body = Box::new(level.alloc, body)?;
    Ok((Statement::For { header, body }, rest))
}

#[tactic(auto, unfolding(cp_model_grammar::specs::Statements::cycle_of))]
fn cycle<F: Fn(Global, usize, &[Token]) -> Read<'_, Statement> + Copy>(
    level: Level<F>,
    tokens: &[Token],
) -> Read<'_, Statement>
    requires { StatementsBelow level.room (F.pre level.read) (F.post level.read) }
    ensures { Gives view.statement result (spec.cycle_of (spec.deeper_at level.room) tokens.now) }
{
    let (body, rest) = statements(inner(level, tokens)?, after(tokens))?;
    let (_, rest) = expect(rest, Symbol::End)?;
    let body = Box::new(level.alloc, body)?;
    Ok((Statement::Cycle(body), rest))
}

/// Reads a statement, depending on the next token. It may be empty.
#[tactic(auto, unfolding(cp_model_grammar::specs::Statements::statement_of, cp_model_grammar::specs::Statements::statement_by))]
pub fn statement_from<F: Fn(Global, usize, &[Token]) -> Read<'_, Statement> + Copy>(
    level: Level<F>,
    tokens: &[Token],
) -> Read<'_, Statement>
    requires { StatementsBelow level.room (F.pre level.read) (F.post level.read) }
    ensures { Gives view.statement result
        (spec.statement_of (inner_at level.room) (spec.deeper_at level.room) tokens.now) }
{
    match peek(tokens) {
        Some(Kind::Short(_) | Kind::Long(_)) => assignment_or_call(level.alloc, level.room, tokens),
        Some(Kind::Symbol(symbol)) => match symbol {
            Symbol::Begin => compound(level, tokens),
            Symbol::If => conditional(level, tokens),
            Symbol::Case => case(level, tokens),
            Symbol::While => while_loop(level, tokens),
            Symbol::Repeat => repeat_loop(level, tokens),
            Symbol::For => for_loop(level, tokens),
            Symbol::Cycle => cycle(level, tokens),
            Symbol::Init => init(level.alloc, level.room, tokens),
            _ => Ok((Statement::Empty, tokens)),
        },
        _ => Ok((Statement::Empty, tokens)),
    }
}

#[tactic(auto, unfolding(cp_model_grammar::specs::Statements::direction_of))]
fn direction(tokens: &[Token]) -> Read<'_, Direction>
    ensures { Gives (λ way. way) result (spec.direction_of tokens.now) }
{
    match peek(tokens) {
        Some(Kind::Symbol(Symbol::To)) => Ok((Direction::Up, after(tokens))),
        Some(Kind::Symbol(Symbol::Downto)) => Ok((Direction::Down, after(tokens))),
        _ => Err(Stop::Wrong(tokens.len())),
    }
}

/// Reads a statement, if `room` levels may be opened. It passes itself to the rules, which call it
/// only one level deeper.
pub fn statement(alloc: Global, room: usize, tokens: &[Token]) -> Read<'_, Statement>
    ensures { Gives view.statement result (spec.statement_at room tokens.now) }
{
    let level = Level {
        alloc,
        room,
        read: statement,
    };
    statement_from(level, tokens)
}

/// Reads from a `begin` to its `end`, if `room` levels may be opened.
pub fn block(alloc: Global, room: usize, tokens: &[Token]) -> Read<'_, Body>
    ensures { Gives view.body result (spec.block_of (spec.deeper_at room) tokens.now) }
{
    let level = Level {
        alloc,
        room,
        read: statement,
    };
    block_from(level, tokens)
}
