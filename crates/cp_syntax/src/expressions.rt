//! From terms to lists of expressions, given a reader of factors.
//!
//! The readers of the parts of an expression are inlined into the reader of the whole. So an
//! expression that is a single factor isn't copied from one reader to the next.

ghost use Rattle.std.specs.Prelude.{◌≡◌, map, IfOk, Option};
ghost use Rattle.std.specs.Option.{is_some};
ghost use Rattle.cp_model.specs.Syntax.{chain_of};
ghost use Rattle.cp_model.specs.Syntax as s;
ghost use Rattle.cp_model.specs.View as view;
ghost use Rattle.cp_model.specs.Tokens.{Kind};
ghost use Rattle.cp_model.specs.declared.token.Symbol.TheVariants as symbol;
ghost use Rattle.cp_model.specs.declared.tree.Operator as plain;
ghost use Rattle.cp_model_grammar.specs.Kinds.{is_symbol};
ghost use Rattle.cp_model_grammar.specs.Reading.{kind_at, Reader, Gives};
ghost use Rattle.cp_model_grammar.specs.Expressions as spec;
ghost use Rattle.cp_syntax.specs.Nests.{FactorsAt};

use crate::levels::{Level, Nested, read_at};
use crate::lists::{Item, Node, lone, one_or_more, repeated, separated};
use crate::operators::{product_operator, relation_operator, sign, sum_operator};
use crate::tokens::{Read, after, place, sees};
use cp_model::token::{Symbol, Token};
use cp_model::tree::{Expression, Index, Operation, Operator};
use cp_model_grammar::Stop;
use std::alloc::{AllocError, Global};

impl Nested for Expression {
    ghost Plain = { s.Expression };

    ghost view = { view.expression };

    ghost at = { spec.factor_at };
}

/// The operators of one class, and the operands between which they are.
trait Operators: Copy {
    ghost operators: { Option Kind → Option plain.Operator };

    /// What the class must know of the reader that it was given.
    ghost has_operands: { Self → Type 0 };

    ghost operands: { Self → Reader s.Expression };

    /// The operator that is the next token, if it is one of the class.
    fn operator(tokens: &[Token]) -> Option<Operator>
        ensures { result ≡ operators (kind_at tokens.now) };

    fn operand(self, tokens: &[Token]) -> Read<'_, Expression>
        requires { has_operands self }
        ensures { Gives view.expression result (operands self tokens.now) };
}

/// The operators between factors.
#[derive(Clone, Copy)]
struct Products<F>(Level<F>);

impl<F: Fn(Global, usize, &[Token]) -> Read<'_, Expression> + Copy> Operators for Products<F> {
    ghost operators = { spec.product_operator };

    ghost has_operands = { λ x. FactorsAt x.0.room (F.pre x.0.read) (F.post x.0.read) };

    ghost operands = { λ x. spec.factor_at x.0.room };

    fn operator(tokens: &[Token]) -> Option<Operator> {
        product_operator(tokens)
    }

    fn operand(self, tokens: &[Token]) -> Read<'_, Expression> {
        read_at(self.0, tokens)
    }
}

/// The operators between terms.
#[derive(Clone, Copy)]
struct Sums<F>(Level<F>);

impl<F: Fn(Global, usize, &[Token]) -> Read<'_, Expression> + Copy> Operators for Sums<F> {
    ghost operators = { spec.sum_operator };

    ghost has_operands = { λ x. FactorsAt x.0.room (F.pre x.0.read) (F.post x.0.read) };

    ghost operands = { λ x. spec.term_of (spec.factor_at x.0.room) };

    fn operator(tokens: &[Token]) -> Option<Operator> {
        sum_operator(tokens)
    }

    fn operand(self, tokens: &[Token]) -> Read<'_, Expression> {
        term(self.0, tokens)
    }
}

impl<O: Operators> Node<O> for Operation {
    ghost Plain = { s.Operation };

    ghost view = { view.operation };

    ghost is_readable = { O.has_operands };

    ghost reader = { λ x. spec.operation_of O.operators (O.operands x) };

    #[tactic(auto, unfolding(cp_model_grammar::specs::Expressions::operation_of))]
    fn read(class: O, tokens: &[Token]) -> Read<'_, Operation> {
        let Some(operator) = O::operator(tokens) else {
            return Err(Stop::Wrong(tokens.len()));
        };
        let at = place(tokens);
        let (operand, rest) = class.operand(after(tokens))?;
        Ok((
            Operation {
                operator,
                at,
                operand,
            },
            rest,
        ))
    }
}

impl<O: Operators> Item<O> for Operation {
    ghost begins = { λ k. is_some (O.operators k) };

    fn begins(tokens: &[Token]) -> bool {
        O::operator(tokens).is_some()
    }
}

/// Reads the operations after the first operand.
#[tactic(auto, using(crate::proofs::Loops::repeat_rests), unfolding(cp_model_grammar::specs::Expressions::chain_from))]
#[inline(always)]
fn chain<O: Operators>(
    alloc: Global,
    class: O,
    first: Expression,
    tokens: &[Token],
) -> Read<'_, Expression>
    requires { O.has_operands class }
    ensures { Gives view.expression result
        (spec.chain_from O.operators (O.operands class) (view.expression first) tokens.now) }
{
    // Most operands have no operator after them.
    if O::operator(tokens).is_none() {
        return Ok((first, tokens));
    }
    let (operations, rest) = repeated::<Operation, O>(alloc, class, tokens)?;
    Ok((join(alloc, first, operations)?, rest))
}

/// Joins operands with the operators between them, if there are any.
fn join(alloc: Global, first: Expression, rest: Vec<Operation>) -> Result<Expression, AllocError>
    ensures { IfOk result
        (λ e. view.expression e ≡ chain_of (view.expression first)
        (map view.operation rest.items)) }
{
    if rest.is_empty() {
        return Ok(first);
    }
    Ok(Expression::Chain {
        first: Box::new(alloc, first)?,
        rest,
    })
}

fn relation(alloc: Global, left: Expression, right: Operation) -> Result<Expression, AllocError>
    ensures { IfOk result
        (λ e. view.expression e ≡ s.Binary (view.expression left) right.operator right.at
        (view.expression right.operand)) }
{
    let rest = lone(alloc, right)?;
    join(alloc, left, rest)
}

/// Reads factors with operators between them.
#[tactic(auto, unfolding(cp_model_grammar::specs::Expressions::term_of))]
#[inline(always)]
fn term<F: Fn(Global, usize, &[Token]) -> Read<'_, Expression> + Copy>(
    level: Level<F>,
    tokens: &[Token],
) -> Read<'_, Expression>
    requires { FactorsAt level.room (F.pre level.read) (F.post level.read) }
    ensures { Gives view.expression result (spec.term_of (spec.factor_at level.room) tokens.now) }
{
    let (first, rest) = read_at(level, tokens)?;
    chain(level.alloc, Products(level), first, rest)
}

/// Reads a term, with or without a sign before it.
#[tactic(auto, unfolding(cp_model_grammar::specs::Expressions::signed_term))]
#[inline(always)]
fn signed_term<F: Fn(Global, usize, &[Token]) -> Read<'_, Expression> + Copy>(
    level: Level<F>,
    tokens: &[Token],
) -> Read<'_, Expression>
    requires { FactorsAt level.room (F.pre level.read) (F.post level.read) }
    ensures { Gives view.expression result
        (spec.signed_term (spec.factor_at level.room) (spec.sign_of (kind_at tokens.now))
        tokens.now) }
{
    let Some(sign) = sign(tokens) else {
        return term(level, tokens);
    };
    let at = place(tokens);
    let (operand, rest) = term(level, after(tokens))?;
    let operand = Box::new(level.alloc, operand)?;
    Ok((Expression::Signed { sign, at, operand }, rest))
}

/// Reads terms with operators between them, and with or without a sign before the first.
#[tactic(auto, unfolding(cp_model_grammar::specs::Expressions::simple_of))]
#[inline(always)]
fn simple<F: Fn(Global, usize, &[Token]) -> Read<'_, Expression> + Copy>(
    level: Level<F>,
    tokens: &[Token],
) -> Read<'_, Expression>
    requires { FactorsAt level.room (F.pre level.read) (F.post level.read) }
    ensures { Gives view.expression result (spec.simple_of (spec.factor_at level.room) tokens.now) }
{
    let (first, rest) = signed_term(level, tokens)?;
    chain(level.alloc, Sums(level), first, rest)
}

impl<F: Fn(Global, usize, &[Token]) -> Read<'_, Expression> + Copy> Node<Level<F>> for Expression {
    ghost Plain = { s.Expression };

    ghost view = { view.expression };

    ghost is_readable = { λ x. FactorsAt x.room (F.pre x.read) (F.post x.read) };

    ghost reader = { λ x. spec.expression_of (spec.factor_at x.room) };

    /// Reads two simple expressions with a relation between them, or a single one.
    #[tactic(auto, unfolding(cp_model_grammar::specs::Expressions::expression_of))]
    fn read(level: Level<F>, tokens: &[Token]) -> Read<'_, Expression> {
        let (left, rest) = simple(level, tokens)?;
        let Some(operator) = relation_operator(rest) else {
            return Ok((left, rest));
        };
        let at = place(rest);
        let (operand, rest) = simple(level, after(rest))?;
        let right = Operation {
            operator,
            at,
            operand,
        };
        Ok((relation(level.alloc, left, right)?, rest))
    }
}

/// Reads one or more expressions, with commas between them.
#[tactic(auto, unfolding(cp_model_grammar::specs::Expressions::expressions_from))]
pub fn expressions<F: Fn(Global, usize, &[Token]) -> Read<'_, Expression> + Copy>(
    level: Level<F>,
    tokens: &[Token],
) -> Read<'_, Vec<Expression>>
    requires { FactorsAt level.room (F.pre level.read) (F.post level.read) }
    ensures { Gives (λ v. map view.expression v.items) result
        (spec.expressions_from (spec.factor_at level.room) tokens.now) }
{
    separated(level.alloc, level, Symbol::Comma, tokens)
}

impl<F: Fn(Global, usize, &[Token]) -> Read<'_, Expression> + Copy> Node<Level<F>> for Index {
    ghost Plain = { view.PlacedIndex };

    ghost view = { view.index };

    ghost is_readable = { λ x. FactorsAt x.room (F.pre x.read) (F.post x.read) };

    ghost reader = { λ x. spec.index_of (spec.factor_at x.room) };

    /// Reads the `[` or the `,`, and the index after it.
    #[tactic(auto, unfolding(cp_model_grammar::specs::Expressions::index_of))]
    fn read(level: Level<F>, tokens: &[Token]) -> Read<'_, Index> {
        let at = place(tokens);
        let (value, rest) = Expression::read(level, after(tokens))?;
        Ok((Index { at, value }, rest))
    }
}

impl<F: Fn(Global, usize, &[Token]) -> Read<'_, Expression> + Copy> Item<Level<F>> for Index {
    ghost begins = { is_symbol symbol.Comma };

    fn begins(tokens: &[Token]) -> bool {
        sees(tokens, Symbol::Comma)
    }
}

/// Reads one or more indices, each after a `[` or a `,`.
#[tactic(auto, unfolding(cp_model_grammar::specs::Expressions::indices_from))]
pub fn indices<F: Fn(Global, usize, &[Token]) -> Read<'_, Expression> + Copy>(
    level: Level<F>,
    tokens: &[Token],
) -> Read<'_, Vec<Index>>
    requires { FactorsAt level.room (F.pre level.read) (F.post level.read) }
    ensures { Gives (λ v. map view.index v.items) result
        (spec.indices_from (spec.factor_at level.room) tokens.now) }
{
    one_or_more(level.alloc, level, tokens)
}
