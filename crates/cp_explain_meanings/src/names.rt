//! The names that are visible at a place.

use crate::meaning::{BOOLEANS, CHARACTERS, INTEGERS, Meaning, Ordinals, Shape};
use cp_base_names::{Key, NameTable};
use cp_model::tree::{Constant, Expression, Fields, Identifier, Parameters, Sign, TypeExpression};
use std::alloc::{AllocError, Global};
use std::collections::BTreeMap;

// A name after a `.`: that of a field of the record type at a place, or of a routine of the system
// type whose name is at that place.
#[derive(Clone, Copy, PartialEq, Eq, PartialOrd, Ord)]
struct Member<'t> {
    of: usize,
    name: &'t [u8],
}

/// The names that are visible at a place.
#[derive(Drop)]
pub struct Names<'t> {
    visible: NameTable<'t, Meaning<'t>>,
    members: BTreeMap<Member<'t>, Meaning<'t>>,
}

impl<'t> Names<'t> {
    /// The standard names that represent types and constants. Fails only if memory runs out.
    pub fn standard(alloc: Global, key: Key) -> Result<Names<'t>, AllocError> {
        let mut names = Names {
            visible: NameTable::new(alloc, key),
            members: BTreeMap::new(alloc),
        };
        names.add(b"integer", Meaning::Type(Shape::Simple(INTEGERS)))?;
        names.add(b"boolean", Meaning::Type(Shape::Simple(BOOLEANS)))?;
        names.add(b"char", Meaning::Type(Shape::Simple(CHARACTERS)))?;
        names.add(b"queue", Meaning::Type(Shape::Queue))?;
        names.add(b"false", Meaning::Constant(0))?;
        names.add(b"true", Meaning::Constant(1))?;
        Ok(names)
    }

    fn add(&mut self, name: &'t [u8], meaning: Meaning<'t>) -> Result<(), AllocError> {
        match self.visible.find(name) {
            Some(_) => Ok(()),
            None => self.visible.add(name, meaning),
        }
    }

    /// Makes a name visible. Fails only if memory runs out.
    pub fn declare(
        &mut self,
        name: &'t Identifier,
        meaning: Meaning<'t>,
    ) -> Result<(), AllocError> {
        self.add(name.name.as_bytes(), meaning)
    }

    /// The number of names that are visible.
    pub fn count(&self) -> usize {
        self.visible.len()
    }

    /// Hides all names but the first `count`.
    pub fn leave(&mut self, count: usize) {
        self.visible.truncate(count);
    }

    /// What a name represents.
    pub fn find(&self, name: &Identifier) -> Option<Meaning<'t>> {
        self.visible.find(name.name.as_bytes())
    }

    /// Adds a name that can be after a `.`. Fails only if memory runs out.
    pub fn add_member(
        &mut self,
        of: usize,
        identifier: &'t Identifier,
        meaning: Meaning<'t>,
    ) -> Result<(), AllocError> {
        let member = Member {
            of,
            name: identifier.name.as_bytes(),
        };
        match self.members.insert(member, meaning) {
            Ok(_) => Ok(()),
            Err(_) => Err(AllocError),
        }
    }

    /// What a name after a `.` represents.
    pub fn member(
        &self,
        before: Option<Meaning<'t>>,
        identifier: &'t Identifier,
    ) -> Option<Meaning<'t>> {
        let of = match before? {
            Meaning::Variable(Shape::Record(of) | Shape::System(_, of)) => of,
            _ => return None,
        };
        let member = Member {
            of,
            name: identifier.name.as_bytes(),
        };
        self.members.get(&member).copied()
    }

    /// The shape of a type as it is written.
    pub fn shape(&self, of: &'t TypeExpression) -> Option<Shape<'t>> {
        match of {
            TypeExpression::Named(x) => self.shape_of_name(x),
            TypeExpression::Subrange(bounds) => Some(Shape::Simple(Ordinals {
                first: self.ordinal(&bounds.0)?,
                last: self.ordinal(&bounds.1)?,
            })),
            TypeExpression::Array {
                indices,
                element,
                ..
            } => Some(Shape::Array(indices, element)),
            TypeExpression::Record { at, .. } => Some(Shape::Record(*at)),
        }
    }

    /// The shape of the type with this name.
    pub fn shape_of_name(&self, name: &Identifier) -> Option<Shape<'t>> {
        match self.find(name)? {
            Meaning::Type(shape) => Some(shape),
            _ => None,
        }
    }

    /// The shape of an element of what has this shape, and the ordinals of its index.
    pub fn element(&self, array: Shape<'t>) -> Option<(Ordinals, Shape<'t>)> {
        let Shape::Array(indices, element) = array else {
            return None;
        };
        let (first, rest) = indices.split_first()?;
        let Shape::Simple(ordinals) = self.shape(first)? else {
            return None;
        };
        let part = if rest.is_empty() {
            self.shape(element)?
        } else {
            Shape::Array(rest, element)
        };
        Some((ordinals, part))
    }

    /// The ordinal of a constant as it is written in a declaration.
    pub fn ordinal(&self, constant: &Constant) -> Option<i32> {
        match constant {
            Constant::Number { value, .. } => Some(i32::from(*value)),
            Constant::Negative { value, .. } => i32::from(*value).checked_neg(),
            Constant::Character { ordinal, .. } => Some(i32::from(*ordinal)),
            Constant::Named(x) => self.ordinal_of_name(x),
        }
    }

    fn ordinal_of_name(&self, name: &Identifier) -> Option<i32> {
        match self.find(name)? {
            Meaning::Constant(ordinal) => Some(ordinal),
            _ => None,
        }
    }

    /// The ordinal of an expression that is a constant, perhaps with signs and in parentheses.
    pub fn value(&self, expression: &Expression) -> Option<i32> {
        match expression {
            Expression::Number { value, .. } => Some(i32::from(*value)),
            Expression::Character { ordinal, .. } => Some(i32::from(*ordinal)),
            Expression::Designated(d) if d.selectors.is_empty() => self.ordinal_of_name(&d.root),
            Expression::Parenthesized { inner, .. } => self.value(inner),
            Expression::Signed {
                sign: Sign::Plus,
                operand,
                ..
            } => self.value(operand),
            Expression::Signed {
                sign: Sign::Minus,
                operand,
                ..
            } => self.value(operand)?.checked_neg(),
            _ => None,
        }
    }

    // Adds the fields of the records in a type as it is written.
    #[cycle(fields)]
    fn add_fields(&mut self, of: &'t TypeExpression) -> Result<(), AllocError> {
        match of {
            TypeExpression::Array { element, .. } => self.add_fields(element),
            TypeExpression::Record { at, groups } => self.add_groups(*at, groups),
            _ => Ok(()),
        }
    }

    #[cycle(fields)]
    fn add_groups(&mut self, at: usize, groups: &'t [Fields]) -> Result<(), AllocError> {
        for group in groups {
            self.add_fields(&group.of)?;
            if let Some(shape) = self.shape(&group.of) {
                self.add_members(at, &group.names, shape)?;
            }
        }
        Ok(())
    }

    fn add_members(
        &mut self,
        at: usize,
        names: &'t [Identifier],
        shape: Shape<'t>,
    ) -> Result<(), AllocError> {
        for x in names {
            self.add_member(at, x, Meaning::Variable(shape))?;
        }
        Ok(())
    }

    fn declare_all(&mut self, names: &'t [Identifier], shape: Shape<'t>) -> Result<(), AllocError> {
        for x in names {
            self.declare(x, Meaning::Variable(shape))?;
        }
        Ok(())
    }

    /// Makes a type visible. Fails only if memory runs out.
    pub fn declare_type(
        &mut self,
        name: &'t Identifier,
        of: &'t TypeExpression,
    ) -> Result<(), AllocError> {
        self.add_fields(of)?;
        match self.shape(of) {
            Some(shape) => self.declare(name, Meaning::Type(shape)),
            None => Ok(()),
        }
    }

    /// Makes an enumeration and its values visible. Fails only if memory runs out.
    pub fn declare_enumeration(
        &mut self,
        name: &'t Identifier,
        values: &'t [Identifier],
    ) -> Result<(), AllocError> {
        let mut next: i32 = 0;
        for value in values {
            self.declare(value, Meaning::Constant(next))?;
            next = next.saturating_add(1);
        }
        let ordinals = Ordinals {
            first: 0,
            last: next.saturating_sub(1),
        };
        self.declare(name, Meaning::Type(Shape::Simple(ordinals)))
    }

    /// Makes variables visible. Fails only if memory runs out.
    pub fn declare_variables(&mut self, groups: &'t [Fields]) -> Result<(), AllocError> {
        for group in groups {
            self.add_fields(&group.of)?;
            if let Some(shape) = self.shape(&group.of) {
                self.declare_all(&group.names, shape)?;
            }
        }
        Ok(())
    }

    /// Makes parameters visible. Fails only if memory runs out.
    pub fn declare_parameters(&mut self, groups: &'t [Parameters]) -> Result<(), AllocError> {
        for group in groups {
            if let Some(shape) = self.shape_of_name(&group.of) {
                self.declare_all(&group.names, shape)?;
            }
        }
        Ok(())
    }
}
