//! Which message fits where types or sorts of names don't agree, which is rule C2.

use crate::counts::count;
use crate::messages as m;
use crate::site::{Call, Mark, NameRole, Purpose, Site, TypePlace};
use cp_explain_names::scope::Kind;
use cp_explain_names::standard::StandardKind;
use cp_model::tree::Routine;
use cp_output::message::Message;

fn is_taken(routine: Option<&Routine>, arguments: usize) -> bool {
    match routine {
        Some(routine) => count(&routine.parameters) == arguments,
        None => false,
    }
}

impl<'t> Site<'t> {
    /// The message for types or sorts of names that don't agree.
    pub fn c2(&self) -> Message {
        match self.mark {
            Some(mark) => self.c2_mark(mark),
            None => match self.role() {
                Some(role) => self.c2_name(role),
                None => self.disagreement(),
            },
        }
    }

    fn c2_mark(&self, mark: Mark) -> Message {
        match mark {
            Mark::Operator if self.operand.is_some() => self.prefix(),
            Mark::Operator => m::OPERANDS,
            Mark::Point => m::NO_PARTS,
            Mark::Index => m::NO_ELEMENTS,
            Mark::Becomes => m::SIDES,
            Mark::Type(_) => m::INDEX_TYPE,
            _ if self.name.is_some() && !self.is_constant() => m::NO_CONSTANT,
            Mark::Label => m::LABEL,
            _ => m::BASES,
        }
    }

    fn c2_name(&self, role: NameRole<'t>) -> Message {
        match role {
            NameRole::Type(TypePlace::Index) if matches!(self.kind(), Some(Kind::Type) | None) => {
                m::INDEX_TYPE
            }
            NameRole::Type(_) => m::NO_TYPE,
            NameRole::Constant => m::NO_CONSTANT,
            NameRole::Counter if self.is_variable() => m::COUNTER,
            NameRole::Value => self.c2_value(),
            NameRole::Function(arguments) => self.c2_function(arguments),
            NameRole::Procedure(arguments) => self.c2_procedure(arguments),
            NameRole::Member(_, call) => self.c2_member(call),
            NameRole::Counter | NameRole::Target => m::NO_VARIABLE,
            _ => m::NO_VALUE,
        }
    }

    // The message for a `not` or a sign.
    fn prefix(&self) -> Message {
        if self.is_compared {
            m::NOT_FIRST
        } else {
            m::OPERANDS
        }
    }

    // A name that is alone where a value is wanted.
    fn c2_value(&self) -> Message {
        match self.kind() {
            Some(Kind::Function) => self.call_message(0),
            None => self.standard_value(),
            _ if self.is_component() => m::NO_VALUE,
            _ if self.is_variable() || self.is_constant() => self.disagreement(),
            _ => m::NO_VALUE,
        }
    }

    fn c2_function(&self, arguments: usize) -> Message {
        match self.kind() {
            Some(Kind::Function) => self.call_message(arguments),
            None => self.standard_function(arguments),
            _ => m::NO_FUNCTION,
        }
    }

    fn c2_procedure(&self, arguments: usize) -> Message {
        match self.kind() {
            Some(Kind::Procedure) => self.call_message(arguments),
            None => self.standard_procedure(),
            _ => m::NO_PROCEDURE,
        }
    }

    fn c2_member(&self, call: Call) -> Message {
        match (self.kind(), call) {
            (Some(Kind::Procedure), Call::Procedure(arguments))
            | (Some(Kind::Function), Call::Function(arguments)) => self.call_message(arguments),
            (_, Call::Procedure(_)) => m::NO_PROCEDURE,
            _ => m::NO_VALUE,
        }
    }

    // The message for a call of a declared routine with `arguments` arguments: their number is
    // wrong, or else the value doesn't fit.
    fn call_message(&self, arguments: usize) -> Message {
        match self.declaration() {
            Some(declared) if is_taken(declared.routine, arguments) => self.disagreement(),
            _ => m::ARGUMENTS,
        }
    }

    fn standard_kind(&self) -> Option<StandardKind> {
        Some(self.standard()?.kind)
    }

    // The message for a call of a standard function with `arguments` arguments: their number is
    // wrong, or else the value doesn't fit.
    fn standard_function(&self, arguments: usize) -> Message {
        match self.standard_kind() {
            Some(StandardKind::Function(count)) if count == arguments => self.disagreement(),
            Some(StandardKind::Function(_)) => m::ARGUMENTS,
            _ => m::NO_FUNCTION,
        }
    }

    fn standard_procedure(&self) -> Message {
        match self.standard_kind() {
            Some(StandardKind::Procedure(0)) => m::WAIT_ARGUMENTS,
            Some(StandardKind::Procedure(_)) => m::ARGUMENTS,
            _ => m::NO_PROCEDURE,
        }
    }

    // The message for a standard name that is alone where a value is wanted.
    fn standard_value(&self) -> Message {
        match self.standard_kind() {
            Some(StandardKind::Constant) => self.disagreement(),
            Some(StandardKind::Function(_)) => self.standard_function(0),
            _ => m::NO_VALUE,
        }
    }

    fn disagreement(&self) -> Message {
        match self.purpose {
            Some(Purpose::Condition) => m::CONDITION,
            Some(Purpose::Selector) => m::SELECTOR,
            Some(Purpose::Bound(_)) => m::BOUND,
            Some(Purpose::Index(..)) => m::INDEX,
            Some(Purpose::InitArgument(..)) => m::INIT_ARGUMENT,
            Some(Purpose::Argument(..)) => m::ARGUMENT,
            None => m::NO_VALUE,
        }
    }
}
