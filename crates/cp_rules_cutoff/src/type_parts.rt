//! Written types, and fields or variables of one type.

ghost use Rattle.cp_model.specs.Syntax as s;
ghost use Rattle.cp_model.specs.View as view;
ghost use Rattle.cp_rules_cutoff.specs.After.{type_after, variables_after};

use crate::parts::{Part, both_after};
use cp_model::tree::{Fields, TypeExpression};

impl Part for TypeExpression {
    ghost Plain = { s.TypeExpression };

    ghost view = { view.type_expression };

    ghost after = { type_after };

    #[cycle(types_after)]
    #[tactic(auto, using(crate::proofs::TypeParts::array_after, crate::proofs::TypeParts::record_after))]
    fn is_after(&self, place: usize) -> bool {
        match self {
            TypeExpression::Named(x) => x.is_after(place),
            TypeExpression::Subrange(bounds) => both_after(&bounds.0, &bounds.1, place),
            TypeExpression::Array {
                at,
                indices,
                element,
            } => at.is_after(place) && both_after(indices, element, place),
            TypeExpression::Record { at, groups } => at.is_after(place) && groups.is_after(place),
        }
    }
}

impl Part for Fields {
    ghost Plain = { s.Variables };

    ghost view = { view.variables };

    ghost after = { variables_after };

    #[cycle(types_after)]
    fn is_after(&self, place: usize) -> bool {
        self.names.is_after(place) && self.of.is_after(place)
    }
}
