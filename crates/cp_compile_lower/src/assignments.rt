//! Assignments: to the result of the running function, and to variables.

ghost use Rattle.std.specs.Prelude.{◌≡◌, [], false, IfOk};
ghost use Rattle.cp_model.specs.Abstract as a;
ghost use Rattle.cp_model.specs.Erase as erase;
ghost use Rattle.cp_model.specs.Types.{ResolvedType};
ghost use Rattle.cp_model.specs.View as tree;
ghost use Rattle.cp_law_typing.specs.StaticTypes.{place_type};
ghost use Rattle.cp_model_program.specs.CodedStatements as coded;
ghost use Rattle.cp_model_program.specs.CodedTerms.{CodedPlaceExpression, CodedTerm, coded_place_expression, coded_term, coded_variable};
ghost use Rattle.cp_model_program.specs.Scopes as code;
ghost use Rattle.cp_model_program.specs.Scopes.{environment};
ghost use Rattle.cp_compile_emit.specs.Emission.{place_of};
ghost use Rattle.cp_compile_symbols.specs.Expressions.{is_simple};
ghost use Rattle.cp_compile_symbols.specs.Places.{TypeIs};
ghost use Rattle.cp_compile_symbols.specs.Scopes.{IsScope};
ghost use Rattle.cp_compile_symbols.specs.Representing.{simple_of};
ghost use Rattle.cp_compile_lower.specs.Statements.{Enters, StatementOf};
ghost use Rattle.cp_compile_lower.specs.Translated.{IsPlaceExpression};

use crate::made::MadePlaceExpression;
use crate::translator::Translator;
use crate::types::{bounds_of, simple_bounds};
use cp_compile_emit::{CodedCall, Emitter};
use cp_compile_symbols::{Simple, is_part};
use cp_model::tree::{Designator, Expression};
use cp_program::operation::Operation;
use std::alloc::AllocError;

// The variable of an assignment: its place expression, the calls of its place, and the place
// `origin` of the text that names it.
#[derive(Drop)]
struct Assigned {
    to: MadePlaceExpression,
    calls: Vec<CodedCall>,
    origin: usize,
}

impl<'s, 't> Translator<'s, 't> {
    // Whether a name is that of the running function, and not that of one of its parameters or
    // variables.
    fn names_result(&self, name: &[u8]) -> bool
        ensures { (s : code.Scope) → IsScope self.now.scope s
            → result ≡ coded.is_result s (a.Plain name.now) }
    {
        if self.scope.local(name).is_some() {
            return false;
        }
        match self.scope.routine() {
            None => false,
            Some(routine) => name == routine.name && routine.result.is_some(),
        }
    }

    // Whether a designator means the result of the running function.
    fn is_result(&self, designator: &Designator) -> bool
        ensures { (s : code.Scope) → IsScope self.now.scope s
            → result ≡ coded.is_result s (erase.designator (tree.designator designator.now)) }
    {
        if is_part(designator) {
            return false;
        }
        self.names_result(designator.root.name.as_bytes())
    }

    // Emits an assignment to the result of the running function.
    fn set_result(
        &self,
        designator: &Designator,
        expression: &Expression,
        low: u32,
        next: u32,
        emitter: &mut Emitter,
    ) -> Result<u32, AllocError>
        ensures { IfOk result (λ entry. (s : code.Scope) → IsScope self.now.scope s
            → Enters emitter.old emitter.new entry (coded.set_result
            (place_type (environment s) (erase.designator (tree.designator designator.now)))
            (coded_term s (erase.expression (tree.expression expression.now)) low)
            (place_of emitter.old) next)) }
    {
        let of = self.scope.place_type(designator);
        let bounds = bounds_of(self.scope.tables().types.simple(of));
        let mut calls = Vec::new(self.alloc);
        let made = self.term(expression, low, &mut calls)?;
        let set = Operation::set_result(made.term, bounds, next);
        emitter.emit(calls, set, designator.root.at)
    }

    // Emits an assignment to a variable of a simple type.
    fn set_simple(
        &self,
        variable: Assigned,
        simple: Simple,
        expression: &Expression,
        next: u32,
        emitter: &mut Emitter,
    ) -> Result<u32, AllocError>
        ensures { IfOk result (λ entry. (s : code.Scope) (c : CodedPlaceExpression)
            (f : CodedPlaceExpression) → IsScope self.now.scope s
            → IsPlaceExpression [] variable.calls.items variable.to c
            → Enters emitter.old emitter.new entry (coded.store s.globals (simple_of simple.entry) c
            (coded_term s (erase.expression (tree.expression expression.now)) variable.to.temps) f
            (place_of emitter.old) next)) }
    {
        let Assigned {
            to,
            mut calls,
            origin,
        } = variable;
        let made = self.term(expression, to.temps, &mut calls)?;
        let bounds = simple_bounds(simple);
        let set = Operation::set(to.place_expression, made.term, bounds, next);
        emitter.emit(calls, set, origin)
    }

    // Emits a copy to a variable whose type isn't simple.
    fn copy_words(
        &self,
        variable: Assigned,
        expression: &Expression,
        next: u32,
        emitter: &mut Emitter,
    ) -> Result<u32, AllocError>
        ensures { IfOk result (λ entry. (s : code.Scope) (c : CodedPlaceExpression)
            (t : ResolvedType) (f : CodedTerm) → IsScope self.now.scope s
            → TypeIs self.now.scope.tables.now.types variable.to.of t → is_simple t ≡ false
            → IsPlaceExpression [] variable.calls.items variable.to c
            → Enters emitter.old emitter.new entry (coded.store s.globals t c f
            (coded_variable s (erase.expression (tree.expression expression.now)) variable.to.temps)
            (place_of emitter.old) next)) }
    {
        let Assigned {
            to,
            mut calls,
            origin,
        } = variable;
        let size = self.place_words(to.of)?;
        let from = self.argument_place_expression(expression, to.temps, &mut calls)?;
        let copy = Operation::CopyWords {
            to: to.place_expression,
            from: from.place_expression,
            size,
            next,
        };
        emitter.emit(calls, copy, origin)
    }

    // Emits an assignment to a variable.
    fn store(
        &self,
        designator: &Designator,
        expression: &Expression,
        low: u32,
        next: u32,
        emitter: &mut Emitter,
    ) -> Result<u32, AllocError>
        ensures { IfOk result (λ entry. (s : code.Scope) → IsScope self.now.scope s
            → let to = coded_place_expression s (erase.designator (tree.designator designator.now)) low in
            Enters emitter.old emitter.new entry (coded.store s.globals
            (place_type (environment s) (erase.designator (tree.designator designator.now))) to
            (coded_term s (erase.expression (tree.expression expression.now)) to.temps)
            (coded_variable s (erase.expression (tree.expression expression.now)) to.temps)
            (place_of emitter.old) next)) }
    {
        let mut calls = Vec::new(self.alloc);
        let to = self.place_expression(designator, low, &mut calls)?;
        let simple = self.scope.tables().types.simple(to.of);
        let variable = Assigned {
            to,
            calls,
            origin: designator.root.at,
        };
        match simple {
            Some(simple) => self.set_simple(variable, simple, expression, next, emitter),
            None => self.copy_words(variable, expression, next, emitter),
        }
    }

    /// Emits an assignment to the result of the running function or to a variable.
    pub fn assign(
        &self,
        designator: &Designator,
        expression: &Expression,
        low: u32,
        next: u32,
        emitter: &mut Emitter,
    ) -> Result<u32, AllocError>
        ensures { IfOk result (StatementOf self.now.scope emitter.old emitter.new
            (a.Assign (erase.designator (tree.designator designator.now))
            (erase.expression (tree.expression expression.now))) low next) }
    {
        if self.is_result(designator) {
            self.set_result(designator, expression, low, next, emitter)
        } else {
            self.store(designator, expression, low, next, emitter)
        }
    }
}
