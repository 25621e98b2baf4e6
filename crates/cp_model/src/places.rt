//! Where expressions and statements begin in a text.

ghost use Rattle.std.specs.Prelude.{◌≡◌};
ghost use Rattle.cp_model.specs.RulesNames as names;
ghost use Rattle.cp_model.specs.View.{expression};

use crate::tree::{Expression, Statement};

impl Expression {
    /// The place of the expression's first token.
    pub fn first_token(&self) -> usize
        ensures { result ≡ names.first_token (expression self.now) }
    {
        match self {
            Expression::Number { at, .. } => *at,
            Expression::Character { at, .. } => *at,
            Expression::Designated(d) => d.root.at,
            Expression::Call(d, _) => d.root.at,
            Expression::Parenthesized { at, .. } => *at,
            Expression::Not { at, .. } => *at,
            Expression::Signed { at, .. } => *at,
            Expression::Chain { first, .. } => first.first_token(),
        }
    }
}

impl Statement {
    /// The place of the statement's first token. The tree doesn't have the place of a word such as
    /// `while`: then it is the place of the token after it. An empty statement has none.
    #[cycle(begins)]
    pub fn first_place(&self) -> Option<usize> {
        match self {
            Statement::Empty => None,
            Statement::Assign(a) => Some(a.target.root.at),
            Statement::Call(call) => Some(call.procedure.root.at),
            Statement::Compound(list) | Statement::Cycle(list) => first_place(list),
            Statement::If { condition, .. }
            | Statement::IfElse { condition, .. }
            | Statement::While { condition, .. } => Some(condition.first_token()),
            Statement::Case { selector, .. } => Some(selector.first_token()),
            Statement::Repeat { body, condition } => {
                Some(first_place(body).unwrap_or(condition.first_token()))
            }
            Statement::For { header, .. } => Some(header.variable.at),
            Statement::Init { at, .. } => Some(*at),
        }
    }
}

/// The place of the first of these statements that isn't empty, if there is one.
#[cycle(begins)]
pub fn first_place(list: &[Statement]) -> Option<usize> {
    for s in list {
        let found = s.first_place();
        if found.is_some() {
            return found;
        }
    }
    None
}
