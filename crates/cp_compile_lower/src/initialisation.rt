//! `init` statements.

ghost use Rattle.std.specs.Prelude.{◌≡◌, [], Some, IfOk, List, map};
ghost use Rattle.cp_model.specs.Abstract as a;
ghost use Rattle.cp_model.specs.Abstract.{Name};
ghost use Rattle.cp_model.specs.Components as components;
ghost use Rattle.cp_model.specs.Declarations.{Variable, declarations};
ghost use Rattle.cp_model.specs.Erase as erase;
ghost use Rattle.cp_model.specs.View as tree;
ghost use Rattle.cp_model_program.specs.CodedStatements as coded;
ghost use Rattle.cp_model_program.specs.CodedTerms.{CodedArguments, call_of, init_argument, init_arguments};
ghost use Rattle.cp_model_program.specs.Programs as op;
ghost use Rattle.cp_model_program.specs.Scopes as code;
ghost use Rattle.cp_model_program.specs.Scopes.{environment, target_of};
ghost use Rattle.cp_model_program.specs.Terms as plain;
ghost use Rattle.cp_compile_emit.specs.Emission.{coded_call, place_of};
ghost use Rattle.cp_compile_emit.specs.declared.emitter.CodedCall.{CodedCall};
ghost use Rattle.cp_compile_symbols.specs.Scopes.{IsScope, Names};
ghost use Rattle.cp_compile_symbols.specs.Representing.{Represents};
ghost use Rattle.cp_program.specs.View as view;
ghost use Rattle.cp_compile_lower.specs.Initialisation.{IsTable, right_argument};
ghost use Rattle.cp_compile_lower.specs.Statements.{Enters, StatementOf};
ghost use Rattle.cp_compile_lower.specs.Translated.{AreArguments, IsArgument};

use crate::arguments::simple_value;
use crate::components::{member_at, right_at};
use crate::made::{MadeArgument, MadeArguments, no_arguments};
use crate::translator::{StatementContext, Translator};
use cp_compile_emit::{CodedCall, Emitter};
use cp_compile_symbols::{Component, Declared, SystemTable, small_number, small_sum};
use cp_model::tree::{Expression, InitItem, Sort};
use cp_program::operation::{Argument, Call, Operation, Target};
use std::alloc::AllocError;

// What is passed to a parameter that is neither a simple value nor a right.
fn no_value(low: u32) -> MadeArgument
    ensures { (calls : List CodedCall) → IsArgument (map coded_call calls) calls result
        (record { argument = plain.Right 0 plain.Own; calls = []; temps = low }) }
{
    MadeArgument {
        argument: Argument::Right {
            at: 0,
            of: Target::Own,
        },
        temps: low,
    }
}

impl<'s, 't> Translator<'s, 't> {
    // Passes a right to a component.
    fn right(&self, at: u32, expression: &Expression, low: u32) -> Result<MadeArgument, AllocError>
        ensures { IfOk result (λ made. (calls : List CodedCall) (s : code.Scope)
            → IsScope self.now.scope s → IsArgument (map coded_call calls) calls made
            (right_argument s at low (erase.expression (tree.expression expression.now)))) }
    {
        let of = self.named_target(expression)?;
        Ok(MadeArgument {
            argument: Argument::Right { at, of },
            temps: low,
        })
    }

    // Makes the argument for a parameter of a component: a value, or a right to another component.
    fn init_argument(
        &self,
        table: &SystemTable,
        parameter: &Declared,
        expression: &Expression,
        low: u32,
        calls: &mut Vec<CodedCall>,
    ) -> Result<MadeArgument, AllocError>
        ensures { IfOk result (λ made. (s : code.Scope) (y : a.System) (p : Name × Variable)
            → IsScope self.now.scope s
            → IsTable s.globals self.now.scope.tables.now.types table.now y
            → parameter.now.name.now ≡ p.0
            → Represents self.now.scope.tables.now.types parameter.now.of p.1.type
            → IsArgument (map coded_call calls.old.items) calls.new.items made
            (init_argument s y p (erase.expression (tree.expression expression.now)) low)) }
    {
        let types = &self.scope.tables().types;
        match types.simple(Some(parameter.of)) {
            Some(simple) => {
                let at = member_at(table, parameter.name)?;
                let made = self.term(expression, low, calls)?;
                Ok(simple_value(at, simple, made))
            }
            None => {
                if !types.is_component(parameter.of) {
                    return Ok(no_value(low));
                }
                self.right(right_at(table, parameter.name)?, expression, low)
            }
        }
    }

    // Makes the arguments for the parameters of a component.
    fn init_arguments(
        &self,
        table: &SystemTable,
        es: &[Expression],
        low: u32,
        calls: &mut Vec<CodedCall>,
    ) -> Result<MadeArguments, AllocError>
        ensures { IfOk result (λ made. (s : code.Scope) (y : a.System) → IsScope self.now.scope s
            → IsTable s.globals self.now.scope.tables.now.types table.now y
            → AreArguments (map coded_call calls.old.items) calls.new.items made
            (init_arguments s y
            (erase.expressions (tree.expressions_of (map tree.expression es.now)))
            (declarations s.globals y.parameters) low)) }
    {
        let mut made = no_arguments(self.alloc, low);
        for e in es {
            let Some(parameter) = table.parameters.get(made.arguments.len()) else {
                return Ok(made);
            };
            let next = self.init_argument(table, parameter, e, made.temps, calls)?;
            made.arguments.push(next.argument)?;
            made.temps = next.temps;
        }
        Ok(made)
    }

    // Makes the call of the body of a class or a monitor.
    fn init_call(
        &self,
        component: Component,
        arguments: Vec<Argument>,
        low: u32,
    ) -> Result<Call, AllocError>
        ensures { IfOk result (λ r. (s : code.Scope) (n : components.Component)
            → IsScope self.now.scope s → Names self.now.scope s component.entry n
            → view.call r ≡ call_of s (code.body_of s n) (target_of (environment s) (Some n))
            (map view.argument arguments.items) low) }
    {
        Ok(Call {
            routine: self.scope.body_of(&component)?,
            target: self.component_target(component)?,
            arguments,
            words: self.scope.words()?,
            temps: low,
        })
    }

    // Makes the operation that starts a process.
    fn init_process(
        &self,
        component: Component,
        arguments: Vec<Argument>,
        next: u32,
    ) -> Result<Operation, AllocError>
        ensures { IfOk result (λ o. (s : code.Scope) (n : components.Component)
            → IsScope self.now.scope s → Names self.now.scope s component.entry n
            → view.operation o ≡ op.InitProcess (components.process_number (environment s) n)
            (map view.argument arguments.items) s.words next) }
    {
        let before = self.scope.processes_before(&component);
        Ok(Operation::InitProcess {
            process: small_sum(small_number(before)?, 2)?,
            arguments,
            words: self.scope.words()?,
            next,
        })
    }

    // Makes the operation of an `init`, which depends on the sort of the component.
    fn init_operation(
        &self,
        component: Component,
        arguments: Vec<Argument>,
        low: u32,
        next: u32,
    ) -> Result<Operation, AllocError>
        ensures { IfOk result (λ o. (s : code.Scope) (n : components.Component)
            (xs : CodedArguments) → IsScope self.now.scope s
            → Names self.now.scope s component.entry n
            → map view.argument arguments.items ≡ xs.arguments
            → view.operation o ≡ coded.init_operation s n n.system.sort xs low next) }
    {
        match self.sort(&component) {
            Sort::Class => {
                let call = self.init_call(component, arguments, low)?;
                Ok(Operation::InitClass { call, next })
            }
            Sort::Monitor => {
                let call = self.init_call(component, arguments, low)?;
                Ok(Operation::InitMonitor { call, next })
            }
            Sort::Process => self.init_process(component, arguments, next),
        }
    }

    // Emits the initialisation of a component.
    fn init_component(
        &self,
        component: Component,
        es: &[Expression],
        context: StatementContext,
        emitter: &mut Emitter,
    ) -> Result<u32, AllocError>
        ensures { IfOk result (λ entry. (s : code.Scope) (n : components.Component)
            → IsScope self.now.scope s → Names self.now.scope s component.entry n
            → Enters emitter.old emitter.new entry (coded.init_by s
            (erase.expressions (tree.expressions_of (map tree.expression es.now))) context.low
            (place_of emitter.old) context.next (Some n))) }
    {
        let StatementContext { low, next, origin } = context;
        let Some(table) = self.system_table(&component) else {
            return Ok(next);
        };
        let mut calls = Vec::new(self.alloc);
        let xs = self.init_arguments(table, es, low, &mut calls)?;
        let operation = self.init_operation(component, xs.arguments, low, next)?;
        emitter.emit(calls, operation, origin)
    }

    // Emits the initialisation of a named component, and nothing if the name means none.
    fn init_item(
        &self,
        item: &InitItem,
        low: u32,
        next: u32,
        emitter: &mut Emitter,
    ) -> Result<u32, AllocError>
        ensures { IfOk result (StatementOf self.now.scope emitter.old emitter.new
            (a.Init item.now.component.name
            (erase.expressions (tree.init_item item.now).arguments)) low next) }
    {
        match self.component(item.component.name.as_bytes()) {
            None => Ok(next),
            Some(component) => {
                let origin = item.component.at;
                let context = StatementContext { low, next, origin };
                self.init_component(component, &item.arguments, context, emitter)
            }
        }
    }

    /// Emits the initialisations of these components, one after another.
    pub fn initialise(
        &self,
        items: &[InitItem],
        low: u32,
        next: u32,
        emitter: &mut Emitter,
    ) -> Result<u32, AllocError>
        ensures { IfOk result (StatementOf self.now.scope emitter.old emitter.new
            (erase.items (map tree.init_item items.now)) low next) }
    {
        let mut entry = next;
        for i in (0..items.len()).rev() {
            entry = self.init_item(&items[i], low, entry, emitter)?;
        }
        Ok(entry)
    }
}
