//! Expressions and designators.
//!
//! Expressions, designators and arguments contain one another, so their functions are mutually
//! recursive. The other functions are in modules of their own.

ghost use Rattle.std.specs.Prelude.{◌≡◌, None, IfOk, List, map};
ghost use Rattle.cp_model.specs.Abstract as a;
ghost use Rattle.cp_model.specs.Abstract.{Name};
ghost use Rattle.cp_model.specs.Calls as model;
ghost use Rattle.cp_model.specs.Calls.{callee};
ghost use Rattle.cp_model.specs.Declarations.{Variable};
ghost use Rattle.cp_model.specs.Erase as erase;
ghost use Rattle.cp_model.specs.Expressions.{name_of};
ghost use Rattle.cp_model.specs.View as tree;
ghost use Rattle.cp_model_program.specs.CodedTerms.{argument_of, coded_arguments, coded_place_expression, coded_standard, coded_term, coded_variable, function_call, name_or_item, parameters_of};
ghost use Rattle.cp_model_program.specs.Scopes as code;
ghost use Rattle.cp_model_program.specs.Scopes.{environment};
ghost use Rattle.cp_model_program.specs.Sites.{first_parameter};
ghost use Rattle.cp_compile_emit.specs.Emission.{coded_call};
ghost use Rattle.cp_compile_emit.specs.declared.emitter.CodedCall.{CodedCall};
ghost use Rattle.cp_compile_symbols.specs.Scopes.{IsCallee, IsScope};
ghost use Rattle.cp_compile_symbols.specs.Representing.{Represents};
ghost use Rattle.cp_compile_symbols.specs.Variables.{AreDeclared, declared_entry};
ghost use Rattle.cp_compile_lower.specs.Translated.{AreArguments, ChainOf, IsArgument, IsTerm, PartOf, PlaceExpressionOf, TermOf, VariableOf};

use crate::arguments::{reference, simple_value};
use crate::calls::words_before;
use crate::made::{MadeArgument, MadeArguments, MadePlaceExpression, no_arguments};
use crate::standard::{is_empty_test, lone_name};
use crate::translator::Translator;
use cp_compile_emit::CodedCall;
use cp_compile_emit::call::MadeTerm;
use cp_compile_symbols::{Callee, Declared, is_part};
use cp_model::tree::{Designator, Expression, Index, Operation, Selector};
use std::alloc::AllocError;

impl<'s, 't> Translator<'s, 't> {
    /// Makes the term of an expression, and adds the calls to make before it to `calls`. Their
    /// values go to the temps from `low` on.
    #[cycle(terms)]
    pub fn term(
        &self,
        expression: &Expression,
        low: u32,
        calls: &mut Vec<CodedCall>,
    ) -> Result<MadeTerm, AllocError>
        ensures { IfOk result (TermOf self.now.scope calls.old.items calls.new.items
            (erase.expression (tree.expression expression.now)) low) }
    {
        match expression {
            Expression::Number { value, .. } => Ok(self.number(i32::from(*value), low)),
            Expression::Character { ordinal, .. } => Ok(self.number(i32::from(*ordinal), low)),
            Expression::Designated(d) => self.use_term(d, low, calls),
            Expression::Call(d, es) => match es.as_slice() {
                [] => self.use_term(d, low, calls),
                [first, ..] => match self.scope.callee(d) {
                    Some(callee) => self.user_call(&callee, es, low, d.root.at, calls),
                    None => self.standard_call(lone_name(d), first, low, calls),
                },
            },
            Expression::Parenthesized { inner, .. } => self.term(inner, low, calls),
            Expression::Not { operand, .. } => {
                let made = self.term(operand, low, calls)?;
                self.not(made)
            }
            Expression::Signed { sign, operand, .. } => {
                let made = self.term(operand, low, calls)?;
                self.with_sign(*sign, made)
            }
            Expression::Chain { first, rest } => {
                let made = self.term(first, low, calls)?;
                self.chain(made, rest, calls)
            }
        }
    }

    // Adds the operators and right operands of a chain to its first operand.
    #[cycle(terms)]
    fn chain(
        &self,
        first: MadeTerm,
        rest: &[Operation],
        calls: &mut Vec<CodedCall>,
    ) -> Result<MadeTerm, AllocError>
        ensures { IfOk result (ChainOf self.now.scope calls.old.items calls.new.items first
            (map tree.operation rest.now)) }
    {
        let mut left = first;
        for o in rest {
            let right = self.term(&o.operand, left.temps, calls)?;
            left = self.binary(left, o.operator, right)?;
        }
        Ok(left)
    }

    // A designator that is used as a value: a call without arguments, or the value of a name or a
    // place.
    #[cycle(terms)]
    fn use_term(
        &self,
        designator: &Designator,
        low: u32,
        calls: &mut Vec<CodedCall>,
    ) -> Result<MadeTerm, AllocError>
        ensures { IfOk result (TermOf self.now.scope calls.old.items calls.new.items
            (a.Use (erase.designator (tree.designator designator.now))) low) }
    {
        match self.scope.callee(designator) {
            Some(callee) => {
                let none = no_arguments(self.alloc, low);
                self.function_call(&callee, none, low, designator.root.at, calls)
            }
            None => self.place_term(designator, low, calls),
        }
    }

    // The value of a name or a place.
    #[cycle(terms)]
    fn place_term(
        &self,
        designator: &Designator,
        low: u32,
        calls: &mut Vec<CodedCall>,
    ) -> Result<MadeTerm, AllocError>
        ensures { IfOk result (λ made. (s : code.Scope) → IsScope self.now.scope s
            → IsTerm (map coded_call calls.old.items) calls.new.items made
            (name_or_item s (erase.designator (tree.designator designator.now))
            (coded_place_expression s (erase.designator (tree.designator designator.now)) low) low)) }
    {
        if !is_part(designator) {
            let term = self.named_term(designator.root.name.as_bytes())?;
            return Ok(MadeTerm { term, temps: low });
        }
        let made = self.place_expression(designator, low, calls)?;
        self.item(made)
    }

    /// Makes the place expression of a designator.
    #[cycle(terms)]
    pub fn place_expression(
        &self,
        designator: &Designator,
        low: u32,
        calls: &mut Vec<CodedCall>,
    ) -> Result<MadePlaceExpression, AllocError>
        ensures { IfOk result (PlaceExpressionOf self.now.scope calls.old.items calls.new.items
            (erase.designator (tree.designator designator.now)) low) }
    {
        let mut made = self.variable(designator.root.name.as_bytes(), low)?;
        for selector in &designator.selectors {
            made = self.select(made, selector, calls)?;
        }
        Ok(made)
    }

    // Makes the place expression of a part of the place so far.
    #[cycle(terms)]
    fn select(
        &self,
        of: MadePlaceExpression,
        selector: &Selector,
        calls: &mut Vec<CodedCall>,
    ) -> Result<MadePlaceExpression, AllocError>
        ensures { IfOk result (PartOf self.now.scope calls.old.items calls.new.items of
            (λ d. erase.select d (tree.selector selector.now))) }
    {
        match selector {
            Selector::Field { name, .. } => self.field(of, name.name.as_bytes()),
            Selector::Indexed(indices) => self.select_elements(of, indices, calls),
        }
    }

    #[cycle(terms)]
    fn select_elements(
        &self,
        of: MadePlaceExpression,
        indices: &[Index],
        calls: &mut Vec<CodedCall>,
    ) -> Result<MadePlaceExpression, AllocError>
        ensures { IfOk result (PartOf self.now.scope calls.old.items calls.new.items of
            (λ d. erase.with_indices d (tree.indices_of (map tree.index indices.now)))) }
    {
        let mut made = of;
        for i in indices {
            made = self.select_element(made, &i.value, calls)?;
        }
        Ok(made)
    }

    // Makes the place expression of the element at an index.
    #[cycle(terms)]
    fn select_element(
        &self,
        of: MadePlaceExpression,
        index: &Expression,
        calls: &mut Vec<CodedCall>,
    ) -> Result<MadePlaceExpression, AllocError>
        ensures { IfOk result (PartOf self.now.scope calls.old.items calls.new.items of
            (λ d. a.At d (erase.expression (tree.expression index.now)))) }
    {
        match self.elements(of.of) {
            None => Ok(self.no_element(of)),
            Some(elements) => {
                let index = self.term(index, of.temps, calls)?;
                self.element(of, elements, index)
            }
        }
    }

    /// Makes the place expression of an argument that is a variable. That of any other expression
    /// is the first word of the activation.
    #[cycle(terms)]
    pub fn argument_place_expression(
        &self,
        expression: &Expression,
        low: u32,
        calls: &mut Vec<CodedCall>,
    ) -> Result<MadePlaceExpression, AllocError>
        ensures { IfOk result (VariableOf self.now.scope calls.old.items calls.new.items
            (erase.expression (tree.expression expression.now)) low) }
    {
        match expression {
            Expression::Designated(d) => self.place_expression(d, low, calls),
            Expression::Call(d, es) => match es.as_slice() {
                [] => self.place_expression(d, low, calls),
                [_, ..] => Ok(self.first_word(low)),
            },
            Expression::Parenthesized { inner, .. } => self.argument_place_expression(
                inner, low, calls,
            ),
            Expression::Chain { first, rest } => match rest.as_slice() {
                [] => self.argument_place_expression(first, low, calls),
                [_, ..] => Ok(self.first_word(low)),
            },
            Expression::Number { .. } => Ok(self.first_word(low)),
            Expression::Character { .. } => Ok(self.first_word(low)),
            Expression::Not { .. } => Ok(self.first_word(low)),
            Expression::Signed { .. } => Ok(self.first_word(low)),
        }
    }

    // A call of a function that the text declares.
    #[cycle(terms)]
    fn user_call(
        &self,
        callee: &Callee,
        es: &[Expression],
        low: u32,
        origin: usize,
        calls: &mut Vec<CodedCall>,
    ) -> Result<MadeTerm, AllocError>
        ensures { IfOk result (λ made. (s : code.Scope) (c : model.Callee)
            → IsScope self.now.scope s → IsCallee self.now.scope s callee.now c
            → IsTerm (map coded_call calls.old.items) calls.new.items made (function_call s c
            (coded_arguments s
            (erase.expressions (tree.expressions_of (map tree.expression es.now)))
            (parameters_of s c) (first_parameter c) low) low)) }
    {
        let table = callee.routine.table;
        let xs = self.arguments(table.passed(), es, words_before(table), low, calls)?;
        self.function_call(callee, xs, low, origin, calls)
    }

    // A standard function of the first argument.
    #[cycle(terms)]
    fn standard_call(
        &self,
        name: &[u8],
        expression: &Expression,
        low: u32,
        calls: &mut Vec<CodedCall>,
    ) -> Result<MadeTerm, AllocError>
        ensures { IfOk result (λ made. (s : code.Scope) (es : a.Expressions)
            → IsScope self.now.scope s
            → IsTerm (map coded_call calls.old.items) calls.new.items made
            (coded_standard s name.now
            (a.MoreExpressions (erase.expression (tree.expression expression.now)) es) low)) }
    {
        if is_empty_test(name) {
            let made = self.argument_place_expression(expression, low, calls)?;
            return self.empty(made);
        }
        let made = self.term(expression, low, calls)?;
        self.apply(self.function(name, expression)?, made)
    }

    /// Makes the arguments for these parameters, the first of which is `at` words from the first
    /// word of the new activation.
    #[cycle(terms)]
    pub fn arguments(
        &self,
        parameters: &[Declared],
        es: &[Expression],
        at: u32,
        low: u32,
        calls: &mut Vec<CodedCall>,
    ) -> Result<MadeArguments, AllocError>
        ensures { IfOk result (λ made. (s : code.Scope) (ps : List (Name × Variable))
            → IsScope self.now.scope s → AreDeclared self.now.scope.tables.now.types
            (map declared_entry parameters.now) ps
            → AreArguments (map coded_call calls.old.items) calls.new.items made
            (coded_arguments s
            (erase.expressions (tree.expressions_of (map tree.expression es.now))) ps at low)) }
    {
        let mut made = no_arguments(self.alloc, low);
        let mut at = at;
        for e in es {
            let Some(parameter) = parameters.get(made.arguments.len()) else {
                return Ok(made);
            };
            let next = self.argument(parameter, at, e, made.temps, calls)?;
            at = self.next_parameter(at, parameter)?;
            made.arguments.push(next.argument)?;
            made.temps = next.temps;
        }
        Ok(made)
    }

    // Makes the argument for a parameter: a reference, a simple value or a copy.
    #[cycle(terms)]
    fn argument(
        &self,
        parameter: &Declared,
        at: u32,
        expression: &Expression,
        low: u32,
        calls: &mut Vec<CodedCall>,
    ) -> Result<MadeArgument, AllocError>
        ensures { IfOk result (λ made. (s : code.Scope) (v : Variable) → IsScope self.now.scope s
            → parameter.now.by_reference ≡ v.by_reference
            → Represents self.now.scope.tables.now.types parameter.now.of v.type
            → IsArgument (map coded_call calls.old.items) calls.new.items made
            (argument_of s.globals v at
            (coded_term s (erase.expression (tree.expression expression.now)) low)
            (coded_variable s (erase.expression (tree.expression expression.now)) low))) }
    {
        if parameter.by_reference {
            let made = self.argument_place_expression(expression, low, calls)?;
            return Ok(reference(at, made));
        }
        match self.scope.tables().types.simple(Some(parameter.of)) {
            Some(simple) => {
                let made = self.term(expression, low, calls)?;
                Ok(simple_value(at, simple, made))
            }
            None => {
                let made = self.argument_place_expression(expression, low, calls)?;
                self.copy_argument(at, parameter.of, made)
            }
        }
    }
}
