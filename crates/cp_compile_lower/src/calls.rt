//! Calls of routines.

ghost use Rattle.std.specs.Prelude.{◌≡◌, ◌++◌, ◌∷◌, [], List, Option, IfOk, OnOk, map};
ghost use Rattle.cp_model.specs.Abstract.{Routine};
ghost use Rattle.cp_model.specs.Calls as model;
ghost use Rattle.cp_model.specs.Components as components;
ghost use Rattle.cp_model.specs.Declarations.{declarations};
ghost use Rattle.cp_model.specs.Types.{GlobalScope};
ghost use Rattle.cp_law_typing.specs.Needs.{result_words};
ghost use Rattle.cp_model_program.specs.CodedTerms as coded;
ghost use Rattle.cp_model_program.specs.Layout as layout;
ghost use Rattle.cp_model_program.specs.Scopes as code;
ghost use Rattle.cp_model_program.specs.Scopes.{environment, part_start, right_start, target_of};
ghost use Rattle.cp_compile_emit.specs.declared.emitter.CodedCall.{CodedCall};
ghost use Rattle.cp_compile_symbols.specs.Routines.{RoutineRepresents};
ghost use Rattle.cp_compile_symbols.specs.Scopes.{IsCallee, IsScope};
ghost use Rattle.cp_compile_symbols.specs.Systems.{ComponentIs, IsComponent};
ghost use Rattle.cp_compile_symbols.specs.declared.types.Types.{Types};
ghost use Rattle.cp_program.specs.View as view;
ghost use Rattle.cp_compile_lower.specs.Translated.{AreArguments, IsTerm};

use crate::made::MadeArguments;
use crate::starts::{part_start, right_start};
use crate::translator::Translator;
use cp_compile_emit::CodedCall;
use cp_compile_emit::call::{MadeTerm, make_call};
use cp_compile_symbols::{Callee, Component, RoutineTable, small_number, small_sum};
use cp_model::tree::Sort;
use cp_program::operation::{Argument, Call, Target};
use std::alloc::AllocError;

/// The number of words before the parameters of a routine. A function has one, for its result.
pub fn words_before(routine: &RoutineTable) -> u32
    ensures { (g : GlobalScope) (types : Types) (r : Routine) → RoutineRepresents g types routine.now r
        → result ≡ result_words r.result }
{
    if routine.result.is_some() { 1 } else { 0 }
}

impl<'s, 't> Translator<'s, 't> {
    // The word of the component at which a class begins.
    fn class_at(&self, name: &[u8]) -> Result<u32, AllocError>
        ensures { IfOk result (λ at. (s : code.Scope) → IsScope self.now.scope s
            → at ≡ part_start (layout.member s.globals s.system name.now)) }
    {
        part_start(self.scope.member(name))
    }

    // The word of the component that holds a right.
    fn right_at(&self, name: &[u8]) -> Result<u32, AllocError>
        ensures { IfOk result (λ at. (s : code.Scope) → IsScope self.now.scope s
            → at ≡ right_start (layout.right s.globals s.system name.now)) }
    {
        right_start(self.scope.right(name))
    }

    /// The target of a call of a routine of another component.
    pub fn component_target(&self, of: Component) -> Result<Target, AllocError>
        ensures { IfOk result (λ t. (s : code.Scope) (n : components.Component)
            → IsScope self.now.scope s → IsComponent self.now.scope.tables.now.types
            (declarations s.globals s.system.parameters)
            (declarations s.globals s.system.variables) of.entry n
            → view.target t ≡ target_of (environment s) (Some n)) }
    {
        match (self.sort(&of), of.is_parameter) {
            (Sort::Class, false) => Ok(Target::Class(self.class_at(of.name)?)),
            (Sort::Class, true) => Ok(Target::ClassRight(self.right_at(of.name)?)),
            (Sort::Monitor, false) => {
                Ok(Target::Monitor(small_sum(small_number(of.monitors)?, 1)?))
            }
            (Sort::Monitor, true) => Ok(Target::MonitorRight(self.right_at(of.name)?)),
            (Sort::Process, _) => Ok(Target::Own),
        }
    }

    /// The target of a call: the running component, or the component that the designator names.
    pub fn target(&self, of: Option<Component>) -> Result<Target, AllocError>
        ensures { IfOk result (λ t. (s : code.Scope) (n : Option components.Component)
            → IsScope self.now.scope s → ComponentIs self.now.scope.tables.now.types
            (declarations s.globals s.system.parameters)
            (declarations s.globals s.system.variables) of.entry n
            → view.target t ≡ target_of (environment s) n) }
    {
        match of {
            None => Ok(Target::Own),
            Some(component) => self.component_target(component),
        }
    }

    /// A call of a routine with these arguments.
    pub fn call(
        &self,
        callee: &Callee,
        arguments: Vec<Argument>,
        low: u32,
    ) -> Result<Call, AllocError>
        ensures { IfOk result (λ r. (s : code.Scope) (c : model.Callee) → IsScope self.now.scope s
            → IsCallee self.now.scope s callee.now c
            → view.call r ≡ coded.call_of s (code.unit_of s c) (target_of (environment s) c.of)
            (map view.argument arguments.items) low) }
    {
        Ok(Call {
            routine: self.scope.unit_of(callee)?,
            target: self.target(callee.of)?,
            arguments,
            words: self.scope.words()?,
            temps: low,
        })
    }

    /// A call of a function with these arguments, which is at the place `origin` of the text.
    /// Its value goes to the first temp after their calls.
    pub fn function_call(
        &self,
        callee: &Callee,
        xs: MadeArguments,
        low: u32,
        origin: usize,
        calls: &mut Vec<CodedCall>,
    ) -> Result<MadeTerm, AllocError>
        ensures term { IfOk result (λ made. (s : code.Scope) (c : model.Callee)
            (before : List coded.CodedCall) (ys : coded.CodedArguments) → IsScope self.now.scope s
            → IsCallee self.now.scope s callee.now c
            → AreArguments before calls.old.items xs ys
            → IsTerm before calls.new.items made (coded.function_call s c ys low)) }
        ensures origin { OnOk result
            (map (λ x. x.at) calls.new.items ≡ map (λ x. x.at) calls.old.items ++ origin ∷ []) }
    {
        let call = self.call(callee, xs.arguments, low)?;
        make_call(self.alloc, calls, call, xs.temps, origin)
    }
}
