//! Expressions and designators.

ghost use Rattle.cp_model.specs.Syntax as s;
ghost use Rattle.cp_model.specs.View as view;
ghost use Rattle.cp_rules_cutoff.specs.After.{designator_after, expression_after, selector_after};
ghost use Rattle.cp_rules_cutoff.specs.ListedParts.{index_after, operation_after};

use crate::parts::Part;
use cp_model::tree::{Designator, Expression, Index, Operation, Selector};

impl Part for Expression {
    ghost Plain = { s.Expression };

    ghost view = { view.expression };

    ghost after = { expression_after };

    #[cycle(expressions_after)]
    #[tactic(auto, using(crate::proofs::ExpressionParts::call_after, crate::proofs::ExpressionParts::chain_after))]
    fn is_after(&self, place: usize) -> bool {
        match self {
            Expression::Number { at, .. } => at.is_after(place),
            Expression::Character { at, .. } => at.is_after(place),
            Expression::Designated(d) => d.is_after(place),
            Expression::Call(d, arguments) => d.is_after(place) && arguments.is_after(place),
            Expression::Parenthesized { at, inner } => at.is_after(place) && inner.is_after(place),
            Expression::Not { at, operand } => at.is_after(place) && operand.is_after(place),
            Expression::Signed { at, operand, .. } => at.is_after(place) && operand.is_after(place),
            Expression::Chain { first, rest } => first.is_after(place) && rest.is_after(place),
        }
    }
}

impl Part for Operation {
    ghost Plain = { s.Operation };

    ghost view = { view.operation };

    ghost after = { operation_after };

    #[cycle(expressions_after)]
    fn is_after(&self, place: usize) -> bool {
        self.at.is_after(place) && self.operand.is_after(place)
    }
}

impl Part for Designator {
    ghost Plain = { s.Designator };

    ghost view = { view.designator };

    ghost after = { designator_after };

    #[cycle(expressions_after)]
    #[tactic(auto, using(crate::proofs::ExpressionParts::designated_after))]
    fn is_after(&self, place: usize) -> bool {
        self.root.is_after(place) && self.selectors.is_after(place)
    }
}

impl Part for Selector {
    ghost Plain = { s.Selector };

    ghost view = { view.selector };

    ghost after = { selector_after };

    #[cycle(expressions_after)]
    #[tactic(auto, using(crate::proofs::ExpressionParts::indexed_after))]
    fn is_after(&self, place: usize) -> bool {
        match self {
            Selector::Field { at, name } => at.is_after(place) && name.is_after(place),
            Selector::Indexed(indices) => indices.is_after(place),
        }
    }
}

impl Part for Index {
    ghost Plain = { view.PlacedIndex };

    ghost view = { view.index };

    ghost after = { index_after };

    #[cycle(expressions_after)]
    fn is_after(&self, place: usize) -> bool {
        self.at.is_after(place) && self.value.is_after(place)
    }
}
