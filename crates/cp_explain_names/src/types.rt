//! The types of names, constants and expressions, as far as their declarations give them.

use crate::scope::{Declaration, Kind, Scope, Wanted};
use crate::standard::{StandardType, standard_value};
use cp_model::tree::{
    Constant, Defined, Designator, Expression, Fields, Identifier, Operator, Selector, System,
    TypeExpression,
};

/// How many definitions of one type or constant by another are followed.
const MAX_TYPE_STEPS: usize = 200;

/// A type. A subrange counts as its base type.
#[derive(Clone, Copy)]
pub enum Type<'t> {
    Standard(StandardType),
    /// An enumeration, by its name.
    Enumeration(&'t Identifier),
    /// An array or a record, by its name if it has one.
    Structured(Option<&'t Identifier>, &'t TypeExpression),
    System(&'t Identifier, &'t System),
}

/// The type of integers.
pub const INTEGER: Type<'static> = Type::Standard(StandardType::Integer);
/// The type of Booleans.
pub const BOOLEAN: Type<'static> = Type::Standard(StandardType::Boolean);
/// The type of characters.
pub const CHARACTER: Type<'static> = Type::Standard(StandardType::Char);

impl<'t> Type<'t> {
    /// Whether this is an enumeration.
    pub fn is_enumeration(self) -> bool {
        matches!(self, Type::Enumeration(_))
    }

    /// The name of the type, if it has one.
    pub fn name(self) -> Option<&'t [u8]> {
        match self {
            Type::Standard(of) => Some(of.name()),
            Type::Enumeration(x) => Some(x.name.as_bytes()),
            Type::Structured(x, _) => Some(x?.name.as_bytes()),
            Type::System(x, _) => Some(x.name.as_bytes()),
        }
    }

    /// Whether the two are known to be one type.
    pub fn is(self, other: Type<'_>) -> bool {
        match (self.name(), other.name()) {
            (Some(name), Some(another)) => name == another,
            _ => false,
        }
    }
}

/// The type of what an operator makes.
pub fn type_of_operation(operator: Operator) -> Type<'static> {
    match operator {
        Operator::Add
        | Operator::Subtract
        | Operator::Multiply
        | Operator::Divide
        | Operator::Modulo => INTEGER,
        _ => BOOLEAN,
    }
}

// The type of the field with this name.
fn field_type<'t>(groups: &'t [Fields], identifier: &Identifier) -> Option<&'t TypeExpression> {
    for group in groups {
        for name in &group.names {
            if name.name.as_bytes() == identifier.name.as_bytes() {
                return Some(&group.of);
            }
        }
    }
    None
}

impl<'t> Scope<'t> {
    /// The type with this name.
    pub fn type_of_name(&self, name: &'t Identifier) -> Option<Type<'t>> {
        let mut name = name;
        for _ in 0..MAX_TYPE_STEPS {
            let Some(declared) = self.find(Wanted::other_than(name)) else {
                return Some(Type::Standard(StandardType::named(name.name.as_bytes())?));
            };
            let definition = declared.definition?;
            match &definition.defined {
                Defined::Written(TypeExpression::Named(y)) => name = y,
                Defined::Written(TypeExpression::Subrange(bounds)) => {
                    return self.type_of_constant(&bounds.0);
                }
                Defined::Written(of) => return Some(Type::Structured(Some(&definition.name), of)),
                Defined::Enumeration(_) => return Some(Type::Enumeration(&definition.name)),
                Defined::System(system) => return Some(Type::System(&definition.name, system)),
            }
        }
        None
    }

    /// The type that is written so.
    pub fn type_of_written(&self, of: &'t TypeExpression) -> Option<Type<'t>> {
        match of {
            TypeExpression::Named(x) => self.type_of_name(x),
            TypeExpression::Subrange(bounds) => self.type_of_constant(&bounds.0),
            _ => Some(Type::Structured(None, of)),
        }
    }

    /// The type of a constant.
    pub fn type_of_constant(&self, constant: &'t Constant) -> Option<Type<'t>> {
        let mut constant = constant;
        for _ in 0..MAX_TYPE_STEPS {
            let x = match constant {
                Constant::Number { .. } | Constant::Negative { .. } => return Some(INTEGER),
                Constant::Character { .. } => return Some(CHARACTER),
                Constant::Named(x) => x,
            };
            match self.find(Wanted::other_than(x)) {
                None => return Some(Type::Standard(standard_value(x.name.as_bytes())?)),
                Some(declared) => match declared.value {
                    Some(value) => constant = value,
                    None => return enumeration_of(declared),
                },
            }
        }
        None
    }

    // The type of the value of a name, if it represents a variable, a constant or a function.
    fn type_of_declared(&self, declared: Declaration<'t>) -> Option<Type<'t>> {
        match declared.kind {
            Kind::Constant => self.type_of_constant(declared.value?),
            Kind::EnumerationValue => enumeration_of(declared),
            Kind::Function => self.type_of_name(declared.routine?.result_type.as_ref()?),
            Kind::Variable => self.type_of_written(declared.written?),
            Kind::ValueParameter | Kind::VarParameter => self.type_of_name(declared.of?),
            _ => None,
        }
    }

    /// The type of what a name represents, if it has a value.
    pub fn type_of_root(&self, name: &'t Identifier) -> Option<Type<'t>> {
        match self.find(Wanted::other_than(name)) {
            Some(declared) => self.type_of_declared(declared),
            None => Some(Type::Standard(standard_value(name.name.as_bytes())?)),
        }
    }

    // The type of a part of what has this type.
    fn type_of_part(&self, of: Type<'t>, selector: &'t Selector) -> Option<Type<'t>> {
        match (of, selector) {
            (
                Type::Structured(_, TypeExpression::Record { groups, .. }),
                Selector::Field { name, .. },
            ) => self.type_of_written(field_type(groups, name)?),
            (Type::System(_, system), Selector::Field { name, .. }) => {
                let entry = Wanted::other_than(name).in_routines(&system.routines)?;
                self.type_of_declared(entry)
            }
            (
                Type::Structured(
                    _,
                    TypeExpression::Array {
                        indices,
                        element,
                        ..
                    },
                ),
                Selector::Indexed(list),
            ) if indices.len() == list.len() => self.type_of_written(element),
            _ => None,
        }
    }

    /// The type of the part of a designator that ends before the selector with this number.
    pub fn type_of_front(&self, designator: &'t Designator, count: usize) -> Option<Type<'t>> {
        let mut of = self.type_of_root(&designator.root)?;
        for selector in designator.selectors.iter().take(count) {
            of = self.type_of_part(of, selector)?;
        }
        Some(of)
    }

    /// The type of what a designator represents.
    pub fn type_of_designator(&self, designator: &'t Designator) -> Option<Type<'t>> {
        self.type_of_front(designator, designator.selectors.len())
    }

    // The type of an expression other than one in parentheses and a call of `succ` or `pred`.
    fn type_of_simple(&self, expression: &'t Expression) -> Option<Type<'t>> {
        match expression {
            Expression::Number { .. } | Expression::Signed { .. } => Some(INTEGER),
            Expression::Character { .. } => Some(CHARACTER),
            Expression::Not { .. } => Some(BOOLEAN),
            Expression::Designated(d) => self.type_of_designator(d),
            Expression::Call(d, _) => self.type_of_designator(d),
            Expression::Chain { rest, .. } => Some(type_of_operation(rest.last()?.operator)),
            Expression::Parenthesized { .. } => None,
        }
    }

    /// The type of an expression.
    pub fn type_of_expression(&self, expression: &'t Expression) -> Option<Type<'t>> {
        let mut expression = expression;
        for _ in 0..MAX_TYPE_STEPS {
            match expression {
                Expression::Parenthesized { inner, .. } => expression = inner,
                Expression::Call(d, list) if self.keeps_type(d) => expression = list.first()?,
                _ => return self.type_of_simple(expression),
            }
        }
        None
    }

    // Whether this is the function `succ` or `pred`, whose value has the type of its argument.
    fn keeps_type(&self, designator: &Designator) -> bool {
        let name = designator.root.name.as_bytes();
        let is_named = name == b"succ".as_slice() || name == b"pred".as_slice();
        is_named
            && designator.selectors.is_empty()
            && self.find(Wanted::other_than(&designator.root)).is_none()
    }
}

// The enumeration to which a value belongs.
fn enumeration_of<'t>(declared: Declaration<'t>) -> Option<Type<'t>> {
    match declared.kind {
        Kind::EnumerationValue => Some(Type::Enumeration(&declared.definition?.name)),
        _ => None,
    }
}
