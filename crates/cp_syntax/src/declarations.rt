//! Definitions of constants and types, and the whole text, if `room` levels may be opened.

ghost use Rattle.std.specs.Prelude.{◌≡◌, ⊤, Option};
ghost use Rattle.cp_model.specs.Syntax as s;
ghost use Rattle.cp_model.specs.View as view;
ghost use Rattle.cp_model_grammar.specs.Reading.{kind_at, Reader, Gives};
ghost use Rattle.cp_model_grammar.specs.Kinds.{is_name};
ghost use Rattle.cp_model_grammar.specs.Reading as reading;
ghost use Rattle.cp_model_grammar.specs.Types.{type_at};
ghost use Rattle.cp_model_grammar.specs.Statements.{Deeper, deeper_at};
ghost use Rattle.cp_model_grammar.specs.Declarations as spec;
ghost use Rattle.cp_model_grammar.specs.Text as text;

use crate::levels::Parser;
use crate::lists::{Item, Node, one_or_more, repeated};
use crate::names::{constant, identifier, names};
use crate::routines::{body, parameters, routines, variables};
use crate::tokens::{Read, after, expect, peek, sees_name};
use crate::types::type_expression;
use cp_model::token::{Kind, Symbol, Token};
use cp_model::tree::{ConstantDefinition, Defined, Section, Sort, System, Tree, TypeDefinition};
use cp_model_grammar::Stop;
use std::alloc::Global;

impl Node<Global> for ConstantDefinition {
    ghost use Rattle.cp_model.specs.declared.tree.ConstantDefinition as plain;

    ghost Plain = { plain.ConstantDefinition };

    ghost view = { λ d. d };

    ghost is_readable = { λ alloc. ⊤ };

    ghost reader = { λ alloc. spec.constant_definition_of };

    #[tactic(auto, unfolding(cp_model_grammar::specs::Declarations::constant_definition_of))]
    fn read(alloc: Global, tokens: &[Token]) -> Read<'_, ConstantDefinition> {
        let (name, rest) = identifier(alloc, tokens)?;
        let (_, rest) = expect(rest, Symbol::Equal)?;
        let (value, rest) = constant(alloc, rest)?;
        let (_, rest) = expect(rest, Symbol::Semicolon)?;
        Ok((ConstantDefinition { name, value }, rest))
    }
}

impl Item<Global> for ConstantDefinition {
    ghost begins = { is_name };

    fn begins(tokens: &[Token]) -> bool {
        sees_name(tokens)
    }
}

/// Reads a system type after the word that says its sort.
#[tactic(auto, unfolding(cp_model_grammar::specs::Declarations::system_from))]
fn system(parser: Parser, sort: Sort, tokens: &[Token]) -> Read<'_, System>
    ensures { Gives view.system result
        (spec.system_from (type_at parser.room) (deeper_at parser.room) sort tokens.now) }
{
    let (parameters, rest) = parameters(parser.alloc, after(tokens))?;
    let (_, rest) = expect(rest, Symbol::Semicolon)?;
    let (variables, rest) = variables(parser, rest)?;
    let (routines, rest) = routines(parser, rest)?;
    let (body, rest) = body(parser, rest)?;
    Ok((
        System {
            sort,
            parameters,
            variables,
            routines,
            body,
        },
        rest,
    ))
}

#[tactic(auto, unfolding(cp_model_grammar::specs::Declarations::system_type))]
fn system_type(parser: Parser, sort: Sort, tokens: &[Token]) -> Read<'_, Defined>
    ensures { Gives view.defined_type result
        (spec.system_type (type_at parser.room) (deeper_at parser.room) sort tokens.now) }
{
    let (system, rest) = system(parser, sort, tokens)?;
    Ok((Defined::System(system), rest))
}

#[tactic(auto, unfolding(cp_model_grammar::specs::Declarations::enumeration_of))]
fn enumeration(alloc: Global, tokens: &[Token]) -> Read<'_, Defined>
    ensures { (of : Reader s.TypeExpression) (deeper : Option Deeper)
        → Gives view.defined_type result (spec.enumeration_of of deeper tokens.now) }
{
    let (values, rest) = names(alloc, after(tokens))?;
    let (_, rest) = expect(rest, Symbol::CloseParenthesis)?;
    Ok((Defined::Enumeration(values), rest))
}

#[tactic(auto, unfolding(cp_model_grammar::specs::Declarations::written_type))]
fn written_type(parser: Parser, tokens: &[Token]) -> Read<'_, Defined>
    ensures { Gives view.defined_type result
        (spec.written_type (type_at parser.room) (deeper_at parser.room) tokens.now) }
{
    let (of, rest) = type_expression(parser.alloc, parser.room, tokens)?;
    Ok((Defined::Written(of), rest))
}

/// Reads what a type definition gives a name to.
#[tactic(auto, unfolding(cp_model_grammar::specs::Declarations::defined_of, cp_model_grammar::specs::Declarations::defined_by))]
fn defined_type(parser: Parser, tokens: &[Token]) -> Read<'_, Defined>
    ensures { Gives view.defined_type result
        (spec.defined_of (type_at parser.room) (deeper_at parser.room) tokens.now) }
{
    match peek(tokens) {
        Some(Kind::Symbol(symbol)) => match symbol {
            Symbol::Process => system_type(parser, Sort::Process, tokens),
            Symbol::Monitor => system_type(parser, Sort::Monitor, tokens),
            Symbol::Class => system_type(parser, Sort::Class, tokens),
            Symbol::OpenParenthesis => enumeration(parser.alloc, tokens),
            _ => written_type(parser, tokens),
        },
        _ => written_type(parser, tokens),
    }
}

impl Node<Parser> for TypeDefinition {
    ghost Plain = { s.TypeDefinition };

    ghost view = { view.type_definition };

    ghost is_readable = { λ x. ⊤ };

    ghost reader = { λ x. spec.type_definition_of (type_at x.room) (deeper_at x.room) };

    #[tactic(auto, unfolding(cp_model_grammar::specs::Declarations::type_definition_of))]
    fn read(parser: Parser, tokens: &[Token]) -> Read<'_, TypeDefinition> {
        let (name, rest) = identifier(parser.alloc, tokens)?;
        let (_, rest) = expect(rest, Symbol::Equal)?;
        let (defined, rest) = defined_type(parser, rest)?;
        let (_, rest) = expect(rest, Symbol::Semicolon)?;
        Ok((TypeDefinition { name, defined }, rest))
    }
}

impl Item<Parser> for TypeDefinition {
    ghost begins = { is_name };

    fn begins(tokens: &[Token]) -> bool {
        sees_name(tokens)
    }
}

impl Node<Parser> for Section {
    ghost Plain = { s.Section };

    ghost view = { view.section_of };

    ghost is_readable = { λ x. ⊤ };

    ghost reader = { λ x. spec.section_of (type_at x.room) (deeper_at x.room) };

    /// Reads the definitions after one word `const` or `type`.
    #[tactic(auto, unfolding(cp_model_grammar::specs::Declarations::section_of, cp_model_grammar::specs::Declarations::section_by))]
    fn read(parser: Parser, tokens: &[Token]) -> Read<'_, Section> {
        match peek(tokens) {
            Some(Kind::Symbol(Symbol::Const)) => {
                let (definitions, rest) = one_or_more(parser.alloc, parser.alloc, after(tokens))?;
                Ok((Section::Constants(definitions), rest))
            }
            Some(Kind::Symbol(Symbol::Type)) => {
                let (definitions, rest) = one_or_more(parser.alloc, parser, after(tokens))?;
                Ok((Section::Types(definitions), rest))
            }
            _ => Err(Stop::Wrong(tokens.len())),
        }
    }
}

impl Item<Parser> for Section {
    ghost begins = { spec.begins_section };

    fn begins(tokens: &[Token]) -> bool {
        matches!(
            peek(tokens),
            Some(Kind::Symbol(Symbol::Const | Symbol::Type))
        )
    }
}

/// Reads a text up to its `.`.
#[tactic(auto, unfolding(cp_model_grammar::specs::Text::tree_of))]
fn tree(parser: Parser, tokens: &[Token]) -> Read<'_, Tree>
    ensures { Gives view.tree result
        (text.tree_of (type_at parser.room) (deeper_at parser.room) tokens.now) }
{
    let (sections, rest) = repeated(parser.alloc, parser, tokens)?;
    let (variables, rest) = variables(parser, rest)?;
    let (routines, rest) = routines(parser, rest)?;
    let (body, rest) = body(parser, rest)?;
    let (_, rest) = expect(rest, Symbol::Dot)?;
    Ok((
        Tree {
            sections,
            variables,
            routines,
            body,
        },
        rest,
    ))
}

/// Reads a whole text. No token may follow its tree.
#[tactic(auto, unfolding(cp_model_grammar::specs::Text::text_of))]
pub fn text(alloc: Global, room: usize, tokens: &[Token]) -> Read<'_, Tree>
    ensures { Gives view.tree result (text.text_at room tokens.now) }
{
    let (tree, rest) = tree(Parser { alloc, room }, tokens)?;
    if !rest.is_empty() {
        return Err(Stop::Wrong(rest.len()));
    }
    Ok((tree, rest))
}
