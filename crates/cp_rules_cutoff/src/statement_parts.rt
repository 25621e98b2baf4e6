//! Statements.

ghost use Rattle.std.specs.Prelude.{◌≡◌, ◌&&◌, nat_lt};
ghost use Rattle.cp_model.specs.Syntax as s;
ghost use Rattle.cp_model.specs.View as view;
ghost use Rattle.cp_rules_cutoff.specs.After.{designator_after, expression_after, item_after, name_after, statement_after};
ghost use Rattle.cp_rules_cutoff.specs.ListedParts.{arm_after};

use crate::parts::{Part, both_after};
use cp_model::tree::{Arm, Assignment, ForHeader, InitItem, Statement};

// Whether an assignment is after `place`.
fn assignment_after(a: &Assignment, place: usize) -> bool
    ensures { result ≡ (designator_after place (view.designator a.now.target)
        && nat_lt place a.now.at && expression_after place (view.expression a.now.value)) }
{
    a.target.is_after(place) && both_after(&a.at, &a.value, place)
}

// Whether what is between a `for` and its `do` is after `place`.
fn header_after(h: &ForHeader, place: usize) -> bool
    ensures { result ≡ (name_after place h.now.variable
        && expression_after place (view.expression h.now.from)
        && expression_after place (view.expression h.now.last)) }
{
    h.variable.is_after(place) && both_after(&h.from, &h.last, place)
}

impl Part for Statement {
    ghost Plain = { s.Statement };

    ghost view = { view.statement };

    ghost after = { statement_after };

    #[cycle(statements_after)]
    #[tactic(auto, using(crate::proofs::StatementParts::performed_after, crate::proofs::StatementParts::compound_after, crate::proofs::StatementParts::cycle_after, crate::proofs::StatementParts::case_after, crate::proofs::StatementParts::repeat_after, crate::proofs::StatementParts::for_after))]
    fn is_after(&self, place: usize) -> bool {
        match self {
            Statement::Empty => true,
            Statement::Assign(a) => assignment_after(a, place),
            Statement::Call(c) => c.procedure.is_after(place) && c.arguments.is_after(place),
            Statement::Compound(list) => list.is_after(place),
            Statement::If { condition, then } => condition.is_after(place) && then.is_after(place),
            Statement::IfElse {
                condition,
                branches,
            } => condition.is_after(place) && both_after(&branches.0, &branches.1, place),
            Statement::Case { selector, arms } => selector.is_after(place) && arms.is_after(place),
            Statement::While { condition, body } => {
                condition.is_after(place) && body.is_after(place)
            }
            Statement::Repeat { body, condition } => {
                body.is_after(place) && condition.is_after(place)
            }
            Statement::For { header, body } => header_after(header, place) && body.is_after(place),
            Statement::Cycle(list) => list.is_after(place),
            Statement::Init { at, items } => at.is_after(place) && items.is_after(place),
        }
    }
}

impl Part for Arm {
    ghost Plain = { view.LabelledStatement };

    ghost view = { view.arm };

    ghost after = { arm_after };

    #[cycle(statements_after)]
    fn is_after(&self, place: usize) -> bool {
        self.labels.is_after(place) && self.body.is_after(place)
    }
}

impl Part for InitItem {
    ghost Plain = { s.InitItem };

    ghost view = { view.init_item };

    ghost after = { item_after };

    #[tactic(auto, using(crate::proofs::StatementParts::initialised_after))]
    fn is_after(&self, place: usize) -> bool {
        self.component.is_after(place) && self.arguments.is_after(place)
    }
}
