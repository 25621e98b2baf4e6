//! Statements that contain no statements, if `room` levels may be opened.

ghost use Rattle.std.specs.Prelude.{⊤};
ghost use Rattle.cp_model.specs.Syntax as s;
ghost use Rattle.cp_model.specs.View as view;
ghost use Rattle.cp_model_grammar.specs.Reading.{Gives};
ghost use Rattle.cp_model_grammar.specs.Expressions.{inner_at};
ghost use Rattle.cp_model_grammar.specs.Statements as spec;

use crate::factors::{designator, expression, optional_arguments};
use crate::levels::Parser;
use crate::lists::{Node, separated};
use crate::names::identifier;
use crate::tokens::{Read, after, place, sees};
use cp_model::token::{Symbol, Token};
use cp_model::tree::{Assignment, InitItem, ProcedureCall, Statement};
use std::alloc::Global;

/// Reads an assignment or a call of a procedure.
#[tactic(auto, unfolding(cp_model_grammar::specs::Statements::designated_of, cp_model_grammar::specs::Statements::assign_or_perform))]
pub fn assignment_or_call(alloc: Global, room: usize, tokens: &[Token]) -> Read<'_, Statement>
    ensures { Gives view.statement result (spec.designated_of (inner_at room) tokens.now) }
{
    let (d, rest) = designator(alloc, room, tokens)?;
    if sees(rest, Symbol::Assign) {
        let at = place(rest);
        let (value, left) = expression(alloc, room, after(rest))?;
        let assignment = Assignment {
            target: d,
            at,
            value,
        };
        return Ok((Statement::Assign(Box::new(alloc, assignment)?), left));
    }
    let (arguments, rest) = optional_arguments(alloc, room, rest)?;
    let call = ProcedureCall {
        procedure: d,
        arguments,
    };
    Ok((Statement::Call(Box::new(alloc, call)?), rest))
}

/// Reads the word `init` and the components after it.
#[tactic(auto, unfolding(cp_model_grammar::specs::Statements::init_of))]
pub fn init(alloc: Global, room: usize, tokens: &[Token]) -> Read<'_, Statement>
    ensures { Gives view.statement result (spec.init_of (inner_at room) tokens.now) }
{
    let at = place(tokens);
    let parser = Parser { alloc, room };
    let (items, rest) = separated(alloc, parser, Symbol::Comma, after(tokens))?;
    let items = Box::new(alloc, items)?;
    Ok((Statement::Init { at, items }, rest))
}

impl Node<Parser> for InitItem {
    ghost Plain = { s.InitItem };

    ghost view = { view.init_item };

    ghost is_readable = { λ x. ⊤ };

    ghost reader = { λ x. spec.init_item_of (inner_at x.room) };

    #[tactic(auto, unfolding(cp_model_grammar::specs::Statements::init_item_of))]
    fn read(parser: Parser, tokens: &[Token]) -> Read<'_, InitItem> {
        let (component, rest) = identifier(parser.alloc, tokens)?;
        let (arguments, rest) = optional_arguments(parser.alloc, parser.room, rest)?;
        Ok((
            InitItem {
                component,
                arguments,
            },
            rest,
        ))
    }
}
