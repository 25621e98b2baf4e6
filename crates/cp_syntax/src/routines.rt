//! Variables, parameters, routines and bodies, if `room` levels may be opened.

ghost use Rattle.std.specs.Prelude.{◌≡◌, ⊤, map};
ghost use Rattle.cp_model.specs.Syntax as s;
ghost use Rattle.cp_model.specs.View as view;
ghost use Rattle.cp_model_grammar.specs.Kinds.{is_symbol, is_name};
ghost use Rattle.cp_model_grammar.specs.Reading.{kind_at, Gives};
ghost use Rattle.cp_model_grammar.specs.Types.{type_at};
ghost use Rattle.cp_model_grammar.specs.Statements.{deeper_at};
ghost use Rattle.cp_model_grammar.specs.Declarations as spec;
ghost use Rattle.cp_syntax.specs.Views.{heading};

use crate::levels::{Level, Parser};
use crate::lists::{Item, Node, one_or_more, repeated, separated};
use crate::names::{identifier, names};
use crate::statements::block;
use crate::tokens::{Read, after, expect, optional_symbol, peek, sees, sees_name};
use crate::types::type_expression;
use cp_model::token::{Kind, Symbol, Token};
use cp_model::tree::{Body, Fields, Identifier, Parameters, Routine};
use cp_model_grammar::Stop;
use std::alloc::Global;

impl Node<Global> for Parameters {
    ghost Plain = { s.Parameters };

    ghost view = { view.parameters };

    ghost is_readable = { λ alloc. ⊤ };

    ghost reader = { λ alloc. spec.parameter_group_of };

    #[tactic(auto, unfolding(cp_model_grammar::specs::Declarations::parameter_group_of))]
    fn read(alloc: Global, tokens: &[Token]) -> Read<'_, Parameters> {
        let (by_reference, rest) = optional_symbol(tokens, Symbol::Var)?;
        let (names, rest) = names(alloc, rest)?;
        let (_, rest) = expect(rest, Symbol::Colon)?;
        let (of, rest) = identifier(alloc, rest)?;
        Ok((
            Parameters {
                by_reference,
                names,
                of,
            },
            rest,
        ))
    }
}

/// Reads parameters in parentheses, or none.
#[tactic(auto, unfolding(cp_model_grammar::specs::Declarations::parameters_of, cp_model_grammar::specs::Declarations::some_parameters_of))]
pub fn parameters(alloc: Global, tokens: &[Token]) -> Read<'_, Vec<Parameters>>
    ensures { Gives (λ v. map view.parameters v.items) result (spec.parameters_of tokens.now) }
{
    if !sees(tokens, Symbol::OpenParenthesis) {
        return Ok((Vec::new(alloc), tokens));
    }
    let (groups, rest) = separated(alloc, alloc, Symbol::Semicolon, after(tokens))?;
    let (_, rest) = expect(rest, Symbol::CloseParenthesis)?;
    Ok((groups, rest))
}

/// A routine up to the `;` before its variables.
#[derive(Drop)]
pub struct Heading {
    entry: Option<usize>,
    name: Identifier,
    parameters: Vec<Parameters>,
    result_type: Option<Identifier>,
}

/// Reads the result type of a function, and nothing for a procedure.
#[tactic(auto, unfolding(cp_model_grammar::specs::Declarations::result_type_of))]
fn result_type(alloc: Global, is_function: bool, tokens: &[Token]) -> Read<'_, Option<Identifier>>
    ensures { Gives (λ t. t) result (spec.result_type_of is_function tokens.now) }
{
    if !is_function {
        return Ok((None, tokens));
    }
    let (_, rest) = expect(tokens, Symbol::Colon)?;
    let (name, rest) = identifier(alloc, rest)?;
    Ok((Some(name), rest))
}

#[tactic(auto, unfolding(cp_model_grammar::specs::Declarations::heading_of, cp_model_grammar::specs::Declarations::heading_from))]
fn routine_heading(alloc: Global, tokens: &[Token]) -> Read<'_, Heading>
    ensures { Gives heading result (spec.heading_of tokens.now) }
{
    let is_function = sees(tokens, Symbol::Function);
    let (entry, rest) = optional_symbol(after(tokens), Symbol::Entry)?;
    let (name, rest) = identifier(alloc, rest)?;
    let (parameters, rest) = parameters(alloc, rest)?;
    let (result_type, rest) = result_type(alloc, is_function, rest)?;
    let (_, rest) = expect(rest, Symbol::Semicolon)?;
    Ok((
        Heading {
            entry,
            name,
            parameters,
            result_type,
        },
        rest,
    ))
}

impl Node<Parser> for Fields {
    ghost Plain = { s.Variables };

    ghost view = { view.variables };

    ghost is_readable = { λ x. ⊤ };

    ghost reader = { λ x. spec.variable_group_of (type_at x.room) };

    /// Reads variables of one type, and the `;` after them.
    #[tactic(auto, unfolding(cp_model_grammar::specs::Declarations::variable_group_of))]
    fn read(parser: Parser, tokens: &[Token]) -> Read<'_, Fields> {
        let level = Level {
            alloc: parser.alloc,
            room: parser.room,
            read: type_expression,
        };
        let (group, rest) = Fields::read(level, tokens)?;
        let (_, rest) = expect(rest, Symbol::Semicolon)?;
        Ok((group, rest))
    }
}

impl Item<Parser> for Fields {
    ghost begins = { is_name };

    fn begins(tokens: &[Token]) -> bool {
        sees_name(tokens)
    }
}

/// Reads variables after the word `var`, or none.
#[tactic(auto, unfolding(cp_model_grammar::specs::Declarations::variables_of, cp_model_grammar::specs::Declarations::some_variables_of))]
pub fn variables(parser: Parser, tokens: &[Token]) -> Read<'_, Vec<Fields>>
    ensures { Gives (λ v. map view.variables v.items) result
        (spec.variables_of (type_at parser.room) tokens.now) }
{
    if !sees(tokens, Symbol::Var) {
        return Ok((Vec::new(parser.alloc), tokens));
    }
    one_or_more(parser.alloc, parser, after(tokens))
}

/// Reads the statements of a system type, a routine or the initial process.
#[tactic(auto, unfolding(cp_model_grammar::specs::Declarations::body_of))]
pub fn body(parser: Parser, tokens: &[Token]) -> Read<'_, Body>
    ensures { Gives view.body result (spec.body_of (deeper_at parser.room) tokens.now) }
{
    if !sees(tokens, Symbol::Begin) {
        return Err(Stop::Wrong(tokens.len()));
    }
    block(parser.alloc, parser.room, tokens)
}

impl Node<Parser> for Routine {
    ghost Plain = { s.Routine };

    ghost view = { view.routine };

    ghost is_readable = { λ x. ⊤ };

    ghost reader = { λ x. spec.routine_of (type_at x.room) (deeper_at x.room) };

    #[tactic(auto, unfolding(cp_model_grammar::specs::Declarations::routine_of))]
    fn read(parser: Parser, tokens: &[Token]) -> Read<'_, Routine> {
        let (heading, rest) = routine_heading(parser.alloc, tokens)?;
        let (variables, rest) = variables(parser, rest)?;
        let (body, rest) = body(parser, rest)?;
        let (_, rest) = expect(rest, Symbol::Semicolon)?;
        Ok((
            Routine {
                entry: heading.entry,
                name: heading.name,
                parameters: heading.parameters,
                result_type: heading.result_type,
                variables,
                body,
            },
            rest,
        ))
    }
}

impl Item<Parser> for Routine {
    ghost begins = { spec.begins_routine };

    fn begins(tokens: &[Token]) -> bool {
        matches!(
            peek(tokens),
            Some(Kind::Symbol(Symbol::Procedure | Symbol::Function))
        )
    }
}

/// Reads procedures and functions, as long as there are any.
#[tactic(auto, unfolding(cp_model_grammar::specs::Declarations::routines_of))]
pub fn routines(parser: Parser, tokens: &[Token]) -> Read<'_, Vec<Routine>>
    ensures { Gives (λ v. map view.routine v.items) result
        (spec.routines_of (type_at parser.room) (deeper_at parser.room) tokens.now) }
{
    repeated(parser.alloc, parser, tokens)
}
