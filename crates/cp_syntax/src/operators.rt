//! The operators, by the symbols that they are written with.

ghost use Rattle.std.specs.Prelude.{◌≡◌};
ghost use Rattle.cp_model_grammar.specs.Reading.{kind_at};
ghost use Rattle.cp_model_grammar.specs.Expressions as spec;

use crate::tokens::peek;
use cp_model::token::{Kind, Symbol, Token};
use cp_model::tree::{Operator, Sign};

/// The operator between two factors that is the next token, if it is one.
pub fn product_operator(tokens: &[Token]) -> Option<Operator>
    ensures { result ≡ spec.product_operator (kind_at tokens.now) }
{
    match peek(tokens) {
        Some(Kind::Symbol(symbol)) => match symbol {
            Symbol::Star => Some(Operator::Multiply),
            Symbol::Div => Some(Operator::Divide),
            Symbol::Mod => Some(Operator::Modulo),
            Symbol::Ampersand => Some(Operator::And),
            _ => None,
        },
        _ => None,
    }
}

/// The operator between two terms that is the next token, if it is one.
pub fn sum_operator(tokens: &[Token]) -> Option<Operator>
    ensures { result ≡ spec.sum_operator (kind_at tokens.now) }
{
    match peek(tokens) {
        Some(Kind::Symbol(symbol)) => match symbol {
            Symbol::Plus => Some(Operator::Add),
            Symbol::Minus => Some(Operator::Subtract),
            Symbol::Or => Some(Operator::Or),
            _ => None,
        },
        _ => None,
    }
}

/// The relation that is the next token, if it is one.
pub fn relation_operator(tokens: &[Token]) -> Option<Operator>
    ensures { result ≡ spec.relation_operator (kind_at tokens.now) }
{
    match peek(tokens) {
        Some(Kind::Symbol(symbol)) => match symbol {
            Symbol::Equal => Some(Operator::Equal),
            Symbol::Unequal => Some(Operator::Unequal),
            Symbol::Less => Some(Operator::Less),
            Symbol::Greater => Some(Operator::Greater),
            Symbol::AtMost => Some(Operator::AtMost),
            Symbol::AtLeast => Some(Operator::AtLeast),
            _ => None,
        },
        _ => None,
    }
}

/// The sign that is the next token, if it is one.
pub fn sign(tokens: &[Token]) -> Option<Sign>
    ensures { result ≡ spec.sign_of (kind_at tokens.now) }
{
    match peek(tokens) {
        Some(Kind::Symbol(symbol)) => match symbol {
            Symbol::Plus => Some(Sign::Plus),
            Symbol::Minus => Some(Sign::Minus),
            _ => None,
        },
        _ => None,
    }
}
