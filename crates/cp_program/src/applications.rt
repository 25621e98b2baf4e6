//! Operators with one of their operands, in the form that finds both with one match.

ghost use Rattle.std.specs.Prelude.{◌≡◌};
ghost use Rattle.cp_model_program.specs.Terms as plain;
ghost use Rattle.cp_model.specs.Erase.{operator_of};
ghost use Rattle.cp_program.specs.View as view;

use crate::divisor::Divisor;
use crate::term::{Application, Operand};
use cp_model::tree::Operator;

impl Application {
    // The operator with a number on its right.
    fn of_number(operator: Operator, number: i32) -> Application
        ensures { view.application result ≡ view.After (operator_of operator)
            (plain.Number number) }
    {
        match (operator, Divisor::new(number)) {
            (Operator::Add, _) => Application::AddNumber(number),
            (Operator::Subtract, _) => Application::SubtractNumber(number),
            (Operator::Multiply, _) => Application::MultiplyNumber(number),
            (Operator::Divide, Some(divisor)) => Application::DivideNumber(divisor),
            (Operator::Modulo, Some(divisor)) => Application::ModuloNumber(divisor),
            _ => Application::WithNumber(operator, number),
        }
    }

    // The operator with a word of the activation on its right.
    fn of_local(operator: Operator, at: u32) -> Application
        ensures { view.application result ≡ view.After (operator_of operator) (view.local at) }
    {
        match operator {
            Operator::Add => Application::AddLocal(at),
            Operator::Subtract => Application::SubtractLocal(at),
            Operator::Multiply => Application::MultiplyLocal(at),
            _ => Application::WithLocal(operator, at),
        }
    }

    // The operator with a word of the component on its right.
    fn of_member(operator: Operator, at: u32) -> Application
        ensures { view.application result ≡ view.After (operator_of operator) (view.member at) }
    {
        match operator {
            Operator::Add => Application::AddMember(at),
            Operator::Subtract => Application::SubtractMember(at),
            Operator::Multiply => Application::MultiplyMember(at),
            _ => Application::WithMember(operator, at),
        }
    }

    /// The operator with this operand on its right.
    pub(crate) fn new(operator: Operator, operand: Operand) -> Application
        ensures { view.application result ≡ view.After (operator_of operator)
            (view.operand operand) }
    {
        match operand {
            Operand::Number(number) => Application::of_number(operator, number),
            Operand::Local(at) => Application::of_local(operator, at),
            Operand::Member(at) => Application::of_member(operator, at),
            Operand::Made(temp) => Application::WithMade(operator, temp),
            operand => Application::WithOperand(operator, operand),
        }
    }

    /// The operator with a word of the activation on its left.
    pub(crate) fn after_local(operator: Operator, at: u32) -> Application
        ensures { view.application result ≡ view.Before (operator_of operator) (plain.Local at) }
    {
        match operator {
            Operator::Subtract => Application::LocalMinus(at),
            _ => Application::LocalBefore(operator, at),
        }
    }

    /// The operator with a word of the component on its left.
    pub(crate) fn after_member(operator: Operator, at: u32) -> Application
        ensures { view.application result ≡ view.Before (operator_of operator) (plain.Member at) }
    {
        match operator {
            Operator::Subtract => Application::MemberMinus(at),
            _ => Application::MemberBefore(operator, at),
        }
    }
}
