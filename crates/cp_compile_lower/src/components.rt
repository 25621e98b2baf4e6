//! The components that names mean, and where their parameters are.

ghost use Rattle.std.specs.Prelude.{◌≡◌, IfOk, IsSomeAnd};
ghost use Rattle.cp_model.specs.Abstract as a;
ghost use Rattle.cp_model.specs.Arguments.{designator_of};
ghost use Rattle.cp_model.specs.Components as components;
ghost use Rattle.cp_model.specs.Components.{component_named};
ghost use Rattle.cp_model.specs.Declarations.{declarations};
ghost use Rattle.cp_model.specs.Erase as erase;
ghost use Rattle.cp_model.specs.Expressions.{name_of};
ghost use Rattle.cp_model.specs.Types.{GlobalScope};
ghost use Rattle.cp_model.specs.View as tree;
ghost use Rattle.cp_model_program.specs.CodedTerms.{target_named};
ghost use Rattle.cp_model_program.specs.Layout as layout;
ghost use Rattle.cp_model_program.specs.Scopes as code;
ghost use Rattle.cp_model_program.specs.Scopes.{environment, part_start, right_start};
ghost use Rattle.cp_compile_symbols.specs.Scopes.{IsScope, Names};
ghost use Rattle.cp_compile_symbols.specs.Systems.{ComponentIs};
ghost use Rattle.cp_compile_symbols.specs.declared.types.Types.{Types};
ghost use Rattle.cp_program.specs.View as view;
ghost use Rattle.cp_compile_lower.specs.Initialisation.{IsTable};

use crate::standard::lone_name;
use crate::starts::{part_start, right_start};
use crate::translator::Translator;
use cp_compile_symbols::{Component, SystemTable};
use cp_model::tree::{Expression, Sort};
use cp_program::operation::Target;
use std::alloc::AllocError;

/// The word at which a member is in a component of a system type.
pub fn member_at(table: &SystemTable, name: &[u8]) -> Result<u32, AllocError>
    ensures { IfOk result (λ at. (g : GlobalScope) (types : Types) (y : a.System)
        → IsTable g types table.now y → at ≡ part_start (layout.member g y name.now)) }
{
    part_start(table.members.parts.find(name))
}

/// The word that holds a right in a component of a system type.
pub fn right_at(table: &SystemTable, name: &[u8]) -> Result<u32, AllocError>
    ensures { IfOk result (λ at. (g : GlobalScope) (types : Types) (y : a.System)
        → IsTable g types table.now y → at ≡ right_start (layout.right g y name.now)) }
{
    right_start(table.rights.find(name))
}

// The name that an argument consists of, perhaps in parentheses, empty for any other argument.
fn argument_name(expression: &Expression) -> &[u8]
    ensures { result.now ≡ name_of (designator_of (erase.expression (tree.expression expression.now))) }
{
    match expression {
        Expression::Designated(d) => lone_name(d),
        Expression::Call(d, es) => match es.as_slice() {
            [] => lone_name(d),
            [_, ..] => &[],
        },
        Expression::Parenthesized { inner, .. } => argument_name(inner),
        Expression::Chain { first, rest } => match rest.as_slice() {
            [] => argument_name(first),
            [_, ..] => &[],
        },
        Expression::Number { .. } => &[],
        Expression::Character { .. } => &[],
        Expression::Not { .. } => &[],
        Expression::Signed { .. } => &[],
    }
}

impl<'s, 't> Translator<'s, 't> {
    /// The component that a name means.
    pub fn component<'n>(&self, name: &'n [u8]) -> Option<Component<'n>>
        ensures { (s : code.Scope) → IsScope self.now.scope s
            → ComponentIs self.now.scope.tables.now.types
            (declarations s.globals s.system.parameters)
            (declarations s.globals s.system.variables) result
            (component_named (environment s) name.now) }
    {
        let types = &self.scope.tables().types;
        self.scope.system().component(types, name)
    }

    /// The sort of a component.
    pub fn sort(&self, component: &Component) -> Sort
        ensures { (s : code.Scope) (n : components.Component)
            → Names self.now.scope s component.now n → erase.sort_of result ≡ n.system.sort }
    {
        match self.scope.tables().types.system(component.system) {
            Some(system) => system.sort,
            None => Sort::Process,
        }
    }

    /// The table of a component's system type, which there is for every component.
    pub fn system_table(&self, component: &Component) -> Option<&'s SystemTable<'t>>
        ensures { (s : code.Scope) (n : components.Component)
            → IsScope self.now.scope s → Names self.now.scope s component.now n
            → IsSomeAnd result (λ table.
            IsTable s.globals self.now.scope.tables.now.types table.now n.system) }
    {
        self.scope.tables().system(component.system)
    }

    /// The component that an argument names, for passing a right to it.
    pub fn named_target(&self, expression: &Expression) -> Result<Target, AllocError>
        ensures { IfOk result (λ t. (s : code.Scope) → IsScope self.now.scope s
            → view.target t ≡ target_named (environment s)
            (erase.expression (tree.expression expression.now))) }
    {
        self.target(self.component(argument_name(expression)))
    }
}
