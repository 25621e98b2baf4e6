//! Calls of procedures: those that the text declares and the standard ones.

ghost use Rattle.std.specs.Prelude.{◌≡◌, Some, IfOk, map};
ghost use Rattle.cp_program.specs.View as view;
ghost use Rattle.cp_model.specs.Abstract as a;
ghost use Rattle.cp_model.specs.Calls as model;
ghost use Rattle.cp_model.specs.Erase as erase;
ghost use Rattle.cp_model.specs.Types.{base_of_type};
ghost use Rattle.cp_model.specs.View as tree;
ghost use Rattle.cp_law_typing.specs.StaticTypes.{expression_type};
ghost use Rattle.cp_model_program.specs.CodedStatements as coded;
ghost use Rattle.cp_model_program.specs.CodedStatements.{with_calls};
ghost use Rattle.cp_model_program.specs.CodedTerms.{coded_term, coded_variable};
ghost use Rattle.cp_model_program.specs.Programs as op;
ghost use Rattle.cp_model_program.specs.Scopes as code;
ghost use Rattle.cp_model_program.specs.Scopes.{environment};
ghost use Rattle.cp_compile_emit.specs.Emission.{coded_call, place_of};
ghost use Rattle.cp_compile_symbols.specs.Scopes.{IsCallee, IsScope};
ghost use Rattle.cp_compile_symbols.specs.Representing.{base_of};
ghost use Rattle.cp_compile_lower.specs.Statements.{Enters, StatementOf};

use crate::calls::words_before;
use crate::standard::lone_name;
use crate::translator::{StatementContext, Translator};
use crate::types::bounds_of;
use cp_compile_emit::{CodedCall, Emitter};
use cp_compile_symbols::{Base, Callee};
use cp_model::tree::{Designator, Expression};
use cp_program::operation::Operation;
use cp_program::term::PlaceExpression;
use std::alloc::AllocError;

// Whether values of a base type are displayed as bytes.
fn is_char(base: Base) -> bool
    ensures { result ≡ coded.is_char (base_of base.entry) }
{
    matches!(base, Base::Char)
}

impl<'s, 't> Translator<'s, 't> {
    // Emits a `display` of a value.
    fn display(
        &self,
        expression: &Expression,
        context: StatementContext,
        emitter: &mut Emitter,
    ) -> Result<u32, AllocError>
        ensures { IfOk result (λ entry. (s : code.Scope) → IsScope self.now.scope s
            → let x = erase.expression (tree.expression expression.now) in
            let c = coded_term s x context.low in
            Enters emitter.old emitter.new entry (with_calls c.calls (op.Display c.term
            (coded.is_char (base_of_type (expression_type (environment s) x))) context.next)
            (place_of emitter.old))) }
    {
        let StatementContext { low, next, origin } = context;
        let mut calls = Vec::new(self.alloc);
        let made = self.term(expression, low, &mut calls)?;
        let display = Operation::Display {
            value: made.term,
            as_byte: is_char(self.base(expression)?),
            next,
        };
        emitter.emit(calls, display, origin)
    }

    // Makes the place expression of the variable that is passed to a standard procedure, and the
    // calls before it.
    fn passed_place_expression(
        &self,
        expression: &Expression,
        low: u32,
    ) -> Result<(PlaceExpression, Vec<CodedCall>), AllocError>
        ensures { IfOk result (λ p. (s : code.Scope) → IsScope self.now.scope s
            → let c = coded_variable s (erase.expression (tree.expression expression.now)) low in
            (map coded_call p.1.items ≡ c.calls) × (view.place_expression p.0 ≡ c.place_expression)) }
    {
        let mut calls = Vec::new(self.alloc);
        let made = self.argument_place_expression(expression, low, &mut calls)?;
        Ok((made.place_expression, calls))
    }

    // Emits an `accept`, which takes a value from the input.
    fn accept(
        &self,
        expression: &Expression,
        context: StatementContext,
        emitter: &mut Emitter,
    ) -> Result<u32, AllocError>
        ensures { IfOk result (λ entry. (s : code.Scope) → IsScope self.now.scope s
            → let x = erase.expression (tree.expression expression.now) in
            let c = coded_variable s x context.low in
            let t = expression_type (environment s) x in Enters emitter.old emitter.new entry
            (with_calls c.calls (op.Accept c.place_expression (coded.low_of t) (coded.high_of t)
            context.next) (place_of emitter.old))) }
    {
        let StatementContext { low, next, origin } = context;
        let bounds = bounds_of(self.scope.expression_type(expression)?);
        let (to, calls) = self.passed_place_expression(expression, low)?;
        let accept = Operation::Accept { to, bounds, next };
        emitter.emit(calls, accept, origin)
    }

    // Emits a `delay` in a queue.
    fn delay(
        &self,
        expression: &Expression,
        context: StatementContext,
        emitter: &mut Emitter,
    ) -> Result<u32, AllocError>
        ensures { IfOk result (λ entry. (s : code.Scope) → IsScope self.now.scope s
            → let x = erase.expression (tree.expression expression.now) in
            let c = coded_variable s x context.low in
            Enters emitter.old emitter.new entry (with_calls c.calls
            (op.Delay c.place_expression context.next) (place_of emitter.old))) }
    {
        let StatementContext { low, next, origin } = context;
        let (queue, calls) = self.passed_place_expression(expression, low)?;
        emitter.emit(calls, Operation::Delay { queue, next }, origin)
    }

    // Whether the running routine is a function.
    fn runs_function(&self) -> bool
        ensures { (s : code.Scope) → IsScope self.now.scope s
            → result ≡ coded.runs_function s.routine }
    {
        match self.scope.routine() {
            None => false,
            Some(routine) => routine.result.is_some(),
        }
    }

    // Emits a `continue`, which lets the process in a queue continue.
    fn resume(
        &self,
        expression: &Expression,
        low: u32,
        origin: usize,
        emitter: &mut Emitter,
    ) -> Result<u32, AllocError>
        ensures { IfOk result (λ entry. (s : code.Scope) → IsScope self.now.scope s
            → let c = coded_variable s (erase.expression (tree.expression expression.now)) low in
            Enters emitter.old emitter.new entry (with_calls c.calls
            (op.Continue c.place_expression (coded.runs_function s.routine)) (place_of emitter.old))) }
    {
        let (queue, calls) = self.passed_place_expression(expression, low)?;
        let function = self.runs_function();
        emitter.emit(calls, Operation::Continue { queue, function }, origin)
    }

    // Emits a call of the standard procedure with this name and first argument. Any name not listed
    // counts as `continue`.
    fn standard_procedure(
        &self,
        name: &[u8],
        expression: &Expression,
        context: StatementContext,
        emitter: &mut Emitter,
    ) -> Result<u32, AllocError>
        ensures { IfOk result (λ entry. (s : code.Scope) → IsScope self.now.scope s
            → let x = erase.expression (tree.expression expression.now) in
            Enters emitter.old emitter.new entry (coded.standard_procedure s name.now
            (expression_type (environment s) x) (coded_term s x context.low)
            (coded_variable s x context.low) (place_of emitter.old) context.next)) }
    {
        if name == b"display".as_slice() {
            self.display(expression, context, emitter)
        } else if name == b"accept".as_slice() {
            self.accept(expression, context, emitter)
        } else if name == b"delay".as_slice() {
            self.delay(expression, context, emitter)
        } else {
            self.resume(expression, context.low, context.origin, emitter)
        }
    }

    // Emits a call of a standard procedure. The one without arguments is `wait`.
    fn standard_statement(
        &self,
        name: &[u8],
        es: &[Expression],
        context: StatementContext,
        emitter: &mut Emitter,
    ) -> Result<u32, AllocError>
        ensures { IfOk result (λ entry. (s : code.Scope) → IsScope self.now.scope s
            → Enters emitter.old emitter.new entry (coded.standard_statement s name.now
            (erase.expressions (tree.expressions_of (map tree.expression es.now))) context.low
            (place_of emitter.old) context.next)) }
    {
        match es {
            [] => {
                let wait = Operation::Wait { next: context.next };
                emitter.emit(Vec::new(self.alloc), wait, context.origin)
            }
            [e, ..] => self.standard_procedure(name, e, context, emitter),
        }
    }

    // Emits a call of a procedure that the text declares.
    fn procedure_call(
        &self,
        called: &Callee,
        es: &[Expression],
        context: StatementContext,
        emitter: &mut Emitter,
    ) -> Result<u32, AllocError>
        ensures { IfOk result (λ entry. (s : code.Scope) (d : a.Designator) (c : model.Callee)
            → IsScope self.now.scope s → IsCallee self.now.scope s called.now c
            → Enters emitter.old emitter.new entry (coded.perform_by s d
            (erase.expressions (tree.expressions_of (map tree.expression es.now))) context.low
            (place_of emitter.old) context.next (Some c))) }
    {
        let StatementContext { low, next, origin } = context;
        let table = called.routine.table;
        let mut calls = Vec::new(self.alloc);
        let at = words_before(table);
        let xs = self.arguments(table.passed(), es, at, low, &mut calls)?;
        let call = self.call(called, xs.arguments, low)?;
        emitter.emit(calls, Operation::Procedure { call, next }, origin)
    }

    /// Emits a procedure statement.
    pub fn perform(
        &self,
        designator: &Designator,
        es: &[Expression],
        low: u32,
        next: u32,
        emitter: &mut Emitter,
    ) -> Result<u32, AllocError>
        ensures { IfOk result (StatementOf self.now.scope emitter.old emitter.new
            (a.Perform (erase.designator (tree.designator designator.now))
            (erase.expressions (tree.expressions_of (map tree.expression es.now)))) low next) }
    {
        let origin = designator.root.at;
        let context = StatementContext { low, next, origin };
        match self.scope.callee(designator) {
            Some(called) => self.procedure_call(&called, es, context, emitter),
            None => self.standard_statement(lone_name(designator), es, context, emitter),
        }
    }
}
