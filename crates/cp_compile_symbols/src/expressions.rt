//! The types of the values of expressions.

ghost use Rattle.std.specs.Prelude.{◌≡◌, IfOk, map};
ghost use Rattle.cp_model.specs.Abstract as a;
ghost use Rattle.cp_model.specs.Calls as calls;
ghost use Rattle.cp_model.specs.Environments.{meaning};
ghost use Rattle.cp_model.specs.Erase as erase;
ghost use Rattle.cp_model.specs.Expressions.{name_of};
ghost use Rattle.cp_model.specs.Syntax as syntax;
ghost use Rattle.cp_model.specs.Types as types;
ghost use Rattle.cp_model.specs.Types.{ResolvedType};
ghost use Rattle.cp_model.specs.View as view;
ghost use Rattle.cp_law_typing.specs.StaticTypes as static;
ghost use Rattle.cp_model_program.specs.Scopes as code;
ghost use Rattle.cp_model_program.specs.Scopes.{environment};
ghost use Rattle.cp_compile_symbols.specs.Expressions.{SimpleIs, ValueIs};
ghost use Rattle.cp_compile_symbols.specs.Places.{TypeIs};
ghost use Rattle.cp_compile_symbols.specs.Scopes.{IsCallee, IsScope};
ghost use Rattle.cp_compile_symbols.specs.Representing.{base_of, simple_of};

use crate::designators::is_part;
use crate::scope::{Callee, Meaning, Scope};
use crate::types::{Base, Simple, TypeRow, Types};
use cp_model::ordinals::{FIRST_INTEGER, LAST_CHARACTER, LAST_INTEGER};
use cp_model::tree::{Designator, Expression, Operation, Operator, Sign};
use std::alloc::AllocError;

/// The first ordinal of a base type.
pub fn first_ordinal(base: Base) -> i32
    ensures { result ≡ types.first_ordinal (base_of base.entry) }
{
    match base {
        Base::Integer => FIRST_INTEGER,
        _ => 0,
    }
}

/// The last ordinal of a base type. That of an enumeration may not fit 32 bits.
pub fn last_ordinal(base: Base) -> Result<i32, AllocError>
    ensures { IfOk result (λ n. n ≡ types.last_ordinal (base_of base.entry)) }
{
    match base {
        Base::Integer => Ok(LAST_INTEGER),
        Base::Char => Ok(LAST_CHARACTER as i32),
        Base::Boolean => Ok(1),
        Base::Enumeration { last, .. } => { i32::try_from(last).map_err(|_| AllocError) }
    }
}

// The simple type that includes all values of a base type, and whose start value is 0.
fn full_range<'t>(base: Base<'t>) -> Result<Option<Simple<'t>>, AllocError>
    ensures { IfOk result (λ s. SimpleIs s (types.full_range (base_of base.entry))) }
{
    Ok(Some(Simple {
        base,
        low: first_ordinal(base),
        high: last_ordinal(base)?,
        start: 0,
    }))
}

/// The base type of the values of a type. A type that isn't simple counts as the integers.
pub fn base_type<'t>(of: Option<Simple<'t>>) -> Base<'t>
    ensures { (t : ResolvedType) → SimpleIs of.entry t → base_of result ≡ types.base_of_type t }
{
    match of {
        Some(simple) => simple.base,
        None => Base::Integer,
    }
}

fn operator_type<'t>(operator: Operator) -> Result<Option<Simple<'t>>, AllocError>
    ensures { IfOk result
        (λ s. SimpleIs s (static.operator_type (erase.operator_of operator))) }
{
    full_range(match operator {
        Operator::Add => Base::Integer,
        Operator::Subtract => Base::Integer,
        Operator::Multiply => Base::Integer,
        Operator::Divide => Base::Integer,
        Operator::Modulo => Base::Integer,
        _ => Base::Boolean,
    })
}

// The type of a chain of operands whose first operand has the type `first`.
fn chain_type<'t>(
    first: Option<Simple<'t>>,
    rest: &[Operation],
) -> Result<Option<Simple<'t>>, AllocError>
    ensures { IfOk result (λ of. (s : code.Scope) (e : syntax.Expression) → ValueIs s first.entry e
        → ValueIs s of (syntax.chain_of e (map view.operation rest.now))) }
{
    let mut of = first;
    for operation in rest {
        of = operator_type(operation.operator)?;
    }
    Ok(of)
}

// The type of the result of a standard function for an argument of the given type. Any name not
// listed counts as `chr`.
fn standard_type<'t>(
    name: &[u8],
    argument: Option<Simple<'t>>,
) -> Result<Option<Simple<'t>>, AllocError>
    ensures { IfOk result (λ s. (t : ResolvedType) → SimpleIs argument.entry t
        → SimpleIs s (static.standard_type name.now t)) }
{
    if name == b"abs".as_slice() {
        return full_range(Base::Integer);
    }
    if name == b"succ".as_slice() {
        return full_range(base_type(argument));
    }
    if name == b"pred".as_slice() {
        return full_range(base_type(argument));
    }
    if name == b"ord".as_slice() {
        return full_range(Base::Integer);
    }
    if name == b"empty".as_slice() {
        return full_range(Base::Boolean);
    }
    full_range(Base::Char)
}

impl<'t> Types<'t> {
    /// The simple type of the given number, or `None` if the type isn't simple.
    pub fn simple(&self, number: Option<usize>) -> Option<Simple<'t>>
        ensures { (t : ResolvedType) → TypeIs self.now number t → SimpleIs result t }
    {
        match self.row(number?) {
            Some(TypeRow::Simple(simple)) => Some(*simple),
            _ => None,
        }
    }
}

impl<'s, 't> Scope<'s, 't> {
    // The type of the value of a bare name.
    fn name_type(&self, name: &[u8]) -> Result<Option<Simple<'t>>, AllocError>
        ensures { IfOk result (λ of. (s : code.Scope) → IsScope self.now s
            → SimpleIs of (static.named_value_type (environment s) name.now)) }
    {
        if name == b"realtime".as_slice() {
            return full_range(Base::Integer);
        }
        match self.meaning(name) {
            Meaning::Constant(value) => full_range(value.base),
            Meaning::Variable(of) => Ok(self.tables.types.simple(Some(of))),
            Meaning::Unknown => Ok(None),
        }
    }

    // The type of the value of a designator that calls nothing.
    fn own_type(&self, designator: &Designator) -> Result<Option<Simple<'t>>, AllocError>
        ensures { IfOk result (λ of. (s : code.Scope) → IsScope self.now s → SimpleIs of
            (static.own_value_type (environment s) (erase.designator (view.designator designator.now)))) }
    {
        if is_part(designator) {
            Ok(self.tables.types.simple(self.place_type(designator)))
        } else {
            self.name_type(designator.root.name.as_bytes())
        }
    }

    // The type of the result of a function.
    fn answer_type(&self, callee: &Callee) -> Result<Option<Simple<'t>>, AllocError>
        ensures { IfOk result (λ of. (s : code.Scope) (c : calls.Callee) → IsScope self.now s
            → IsCallee self.now s callee.now c
            → SimpleIs of (static.answer_type s.globals c.routine.result)) }
    {
        match callee.routine.table.result {
            None => Ok(None),
            Some(of) => full_range(base_type(self.tables.types.simple(Some(of)))),
        }
    }

    // The type of a designator that is used as a value.
    fn use_type(&self, designator: &Designator) -> Result<Option<Simple<'t>>, AllocError>
        ensures { IfOk result (λ of. (s : code.Scope) → IsScope self.now s → SimpleIs of
            (static.expression_type (environment s)
            (a.Use (erase.designator (view.designator designator.now))))) }
    {
        match self.callee(designator) {
            Some(callee) => self.answer_type(&callee),
            None => self.own_type(designator),
        }
    }

    // The type of the result of a call whose first argument has the type `argument`.
    fn call_type(
        &self,
        designator: &Designator,
        argument: Option<Simple<'t>>,
    ) -> Result<Option<Simple<'t>>, AllocError>
        ensures { IfOk result (λ of. (s : code.Scope) (e : syntax.Expression)
            (es : syntax.Expressions) → IsScope self.now s → ValueIs s argument.entry e
            → ValueIs s of (syntax.Call (view.designator designator.now) (syntax.MoreExpressions e es))) }
    {
        match self.callee(designator) {
            Some(callee) => self.answer_type(&callee),
            None => {
                if is_part(designator) {
                    standard_type(&[], argument)
                } else {
                    standard_type(designator.root.name.as_bytes(), argument)
                }
            }
        }
    }

    /// The type of the value of an expression, or `None` if it isn't simple.
    ///
    /// # Errors
    ///
    /// `AllocError` if the last value of an enumeration has no ordinal of 32 bits.
    pub fn expression_type(&self, expression: &Expression) -> Result<Option<Simple<'t>>, AllocError>
        ensures { IfOk result (λ of. (s : code.Scope) → IsScope self.now s
            → ValueIs s of (view.expression expression.now)) }
    {
        match expression {
            Expression::Number { .. } => full_range(Base::Integer),
            Expression::Character { .. } => full_range(Base::Char),
            Expression::Designated(d) => self.use_type(d),
            Expression::Call(d, arguments) => match arguments.as_slice() {
                [] => self.use_type(d),
                [first, ..] => self.call_type(d, self.expression_type(first)?),
            },
            Expression::Parenthesized { inner, .. } => self.expression_type(inner),
            Expression::Not { .. } => full_range(Base::Boolean),
            Expression::Signed { sign, operand, .. } => match sign {
                Sign::Plus => self.expression_type(operand),
                Sign::Minus => full_range(Base::Integer),
            },
            Expression::Chain { first, rest } => chain_type(self.expression_type(first)?, rest),
        }
    }
}
