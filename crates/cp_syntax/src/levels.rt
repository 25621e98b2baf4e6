//! Parts that may contain parts of their own kind, within the limit of levels.

ghost use Rattle.std.specs.Prelude.{◌≡◌, ℕ, IfOk, IfErr, Some, None, length};
ghost use Rattle.cp_model_grammar.specs.declared.stop.Stop.TheVariants.{Deep};
ghost use Rattle.cp_model_grammar.specs.Reading.{Reader, Gives};
ghost use Rattle.cp_model_grammar.specs.Expressions.{inner_at, factor_at, expression_at};
ghost use Rattle.cp_model_grammar.specs.Types.{inner_type_at, type_at};
ghost use Rattle.cp_model_grammar.specs.Statements.{deeper_at, statement_at};
ghost use Rattle.cp_syntax.specs.Nests.{Nests, Below};

use crate::tokens::Read;
use cp_model::token::Token;
use cp_model_grammar::Stop;
use std::alloc::Global;

/// What the rules of all other parts share: `room` levels may be opened.
#[derive(Clone, Copy)]
pub struct Parser {
    pub(crate) alloc: Global,
    pub(crate) room: usize,
}

/// A part of the syntax tree that may contain parts of its own kind.
pub trait Nested {
    ghost Plain: { Type 0 };

    ghost view: { Self → Plain };

    /// Its reader, by the number of levels that may be opened.
    ghost at: { ℕ → Reader Plain };
}

/// The rules of a part if `room` levels may still be opened, given a reader of such parts.
#[derive(Clone, Copy)]
pub struct Level<F> {
    pub(crate) alloc: Global,
    pub(crate) room: usize,
    pub(crate) read: F,
}

/// Reads a part with the reader that was given.
pub fn read_at<X: Nested, F: Fn(Global, usize, &[Token]) -> Read<'_, X>>(
    level: Level<F>,
    tokens: &[Token],
) -> Read<'_, X>
    requires { Nests X.view X.at level.room (F.pre level.read) (F.post level.read) }
    ensures { Gives X.view result (X.at level.room tokens.now) }
{
    (level.read)(level.alloc, level.room, tokens)
}

/// The rules one level deeper, or the reason to stop if the next token may not open a level.
#[tactic(auto, using(crate::proofs::Rooms::no_factor, crate::proofs::Rooms::some_factor, crate::proofs::Rooms::no_type, crate::proofs::Rooms::some_type, crate::proofs::Rooms::no_statement, crate::proofs::Rooms::some_statement))]
pub fn inner<X: Nested, F: Fn(Global, usize, &[Token]) -> Read<'_, X>>(
    level: Level<F>,
    tokens: &[Token],
) -> Result<Level<F>, Stop>
    requires { Below X.view X.at level.room (F.pre level.read) (F.post level.read) }
    ensures nests { IfOk result (λ x. Nests X.view X.at x.room (F.pre x.read) (F.post x.read)) }
    ensures factor { IfOk result (λ x. inner_at level.room ≡ Some (factor_at x.room)) }
    ensures type_expression { IfOk result (λ x. inner_type_at level.room ≡ Some (type_at x.room)) }
    ensures statement { IfOk result
        (λ x. deeper_at level.room ≡ Some
        (record { expression = expression_at x.room; statement = statement_at x.room })) }
    ensures deep { IfErr result (λ e. e ≡ Deep (length tokens.now)) }
    ensures no_factor { IfErr result (λ e. inner_at level.room ≡ None) }
    ensures no_type { IfErr result (λ e. inner_type_at level.room ≡ None) }
    ensures no_statement { IfErr result (λ e. deeper_at level.room ≡ None) }
{
    if level.room == 0 {
        return Err(Stop::Deep(tokens.len()));
    }
    Ok(Level {
        alloc: level.alloc,
        room: level.room - 1,
        read: level.read,
    })
}
