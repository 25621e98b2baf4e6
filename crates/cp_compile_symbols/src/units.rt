//! The numbers of units, and the words of activations.
//!
//! Units have numbers in text order: the routines of a system type, then its body.

ghost use Rattle.std.specs.Prelude.{◌≡◌, ◌+◌, IfOk, length};
ghost use Rattle.cp_model.specs.Calls as calls;
ghost use Rattle.cp_model.specs.Abstract.{Process};
ghost use Rattle.cp_model.specs.Components as components;
ghost use Rattle.cp_model.specs.Components.{count_before};
ghost use Rattle.cp_model.specs.Declarations.{declarations};
ghost use Rattle.cp_model_program.specs.Scopes as code;
ghost use Rattle.cp_compile_symbols.specs.Scopes.{IsCallee, IsScope, Names};

use crate::counts::{small_number, small_sum};
use crate::layout::has_room;
use crate::scope::{Callee, Scope};
use crate::systems::Component;
use std::alloc::AllocError;

// The unit that comes `count` units after `first`.
fn unit_after(first: u32, count: usize) -> Result<u32, AllocError>
    ensures { IfOk result (λ n. n ≡ first + count) }
{
    small_sum(first, small_number(count)?)
}

impl<'s, 't> Scope<'s, 't> {
    /// The size of an activation in words. A body has none, so its size is 0.
    pub fn words(&self) -> Result<u32, AllocError>
        ensures { IfOk result (λ n. (s : code.Scope) → IsScope self.now s → n ≡ s.words) }
    {
        match self.routine {
            None => Ok(0),
            Some(routine) => routine.locals.words.ok_or(AllocError),
        }
    }

    /// Whether a component of the system type has room: it has fewer than 2^32 words. Nothing runs in
    /// one that has more.
    pub fn component_fits(&self) -> bool
        ensures { (s : code.Scope) → IsScope self.now s → result ≡ code.component_fits s }
    {
        has_room(self.system.members.words)
    }

    /// Whether an activation has room: it has fewer than 2^32 words. Nobody calls a routine that
    /// needs more.
    pub fn activation_fits(&self) -> bool
        ensures { (s : code.Scope) → IsScope self.now s → result ≡ code.activation_fits s }
    {
        match self.routine {
            None => true,
            Some(routine) => has_room(routine.locals.words),
        }
    }

    /// The first unit of a component's system type.
    pub fn first_of(&self, component: &Component) -> u32
        ensures { (s : code.Scope) (n : components.Component) → IsScope self.now s
            → Names self.now s component.now n → result ≡ code.first_of s n }
    {
        let types = if component.is_parameter {
            &self.system.parameter_types
        } else {
            &self.system.variable_types
        };
        let of = types.find(component.name).unwrap_or(&[]);
        self.firsts.find(of).unwrap_or(0)
    }

    // The number of routines of a component's system type.
    fn routine_count(&self, component: &Component) -> usize
        ensures { (s : code.Scope) (n : components.Component) → IsScope self.now s
            → Names self.now s component.now n → result ≡ length n.system.routines }
    {
        match self.tables.types.system(component.system) {
            Some(of) => of.routines.len(),
            None => 0,
        }
    }

    /// The number of processes before the name of a component, among the variables.
    pub fn processes_before(&self, component: &Component) -> usize
        ensures { (s : code.Scope) (n : components.Component) → IsScope self.now s
            → Names self.now s component.now n → result
            ≡ count_before Process n.name (declarations s.globals s.system.variables) }
    {
        if !component.is_parameter {
            return component.processes;
        }
        self.tables
            .types
            .processes_before(&self.system.variables, component.name)
    }

    /// The unit of a component's body.
    pub fn body_of(&self, component: &Component) -> Result<u32, AllocError>
        ensures { IfOk result (λ unit. (s : code.Scope) (n : components.Component)
            → IsScope self.now s → Names self.now s component.now n → unit ≡ code.body_of s n) }
    {
        unit_after(self.first_of(component), self.routine_count(component))
    }

    /// The unit of a called routine.
    pub fn unit_of(&self, callee: &Callee) -> Result<u32, AllocError>
        ensures { IfOk result (λ unit. (s : code.Scope) (c : calls.Callee)
            → IsScope self.now s → IsCallee self.now s callee.now c → unit ≡ code.unit_of s c) }
    {
        let first = match &callee.of {
            None => self.first,
            Some(of) => self.first_of(of),
        };
        unit_after(first, callee.routine.index)
    }
}
