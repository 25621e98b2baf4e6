//! Notes on constants beyond the range of the type that is wanted.

use crate::note::NoteKind;
use crate::walk::Walk;
use cp_explain_meanings::meaning::{CHARACTERS, Meaning, Shape};
use cp_model::tree::{
    Designator, Expression, Identifier, Index, InitItem, Operation, Operator, Parameters, Selector,
};
use std::alloc::AllocError;

// The name of the variable or field of which a designator represents the whole or for an element.
fn last_name(designator: &Designator) -> &Identifier {
    let mut x = &designator.root;
    for selector in &designator.selectors {
        if let Selector::Field { name, .. } = selector {
            x = name;
        }
    }
    x
}

impl<'t> Walk<'t> {
    // Notes a constant that a variable or a parameter of this shape can't hold.
    fn fits(
        &mut self,
        name: &'t Identifier,
        shape: Shape<'t>,
        expression: &'t Expression,
    ) -> Result<(), AllocError> {
        match (shape, self.names.value(expression)) {
            (Shape::Simple(ordinals), Some(value)) if !ordinals.contains(value) => {
                self.notes.add_on(
                    expression.first_token(),
                    NoteKind::OutOfRange,
                    name.name.as_bytes(),
                )
            }
            _ => Ok(()),
        }
    }

    /// Walks over an assignment.
    pub(crate) fn assignment(
        &mut self,
        target: &'t Designator,
        value: &'t Expression,
    ) -> Result<(), AllocError> {
        let meaning = self.target(target)?;
        self.expression(value)?;
        let shape = match meaning {
            Some(Meaning::Variable(shape)) => Some(shape),
            _ => self.sets_result(target),
        };
        match shape {
            Some(shape) => self.fits(last_name(target), shape, value),
            None => Ok(()),
        }
    }

    /// Compares arguments with the parameters for which they are.
    pub(crate) fn arguments(
        &mut self,
        groups: &'t [Parameters],
        list: &'t [Expression],
    ) -> Result<(), AllocError> {
        let mut first: usize = 0;
        for group in groups {
            if let (None, Some(shape)) = (group.by_reference, self.names.shape_of_name(&group.of)) {
                self.arguments_of(&group.names, shape, list, first)?;
            }
            first = first.saturating_add(group.names.len());
        }
        Ok(())
    }

    // Compares the arguments from the one with number `first` on with parameters of this shape.
    fn arguments_of(
        &mut self,
        names: &'t [Identifier],
        shape: Shape<'t>,
        list: &'t [Expression],
        first: usize,
    ) -> Result<(), AllocError> {
        for number in 0..names.len() {
            if let Some(e) = list.get(first.saturating_add(number)) {
                self.fits(&names[number], shape, e)?;
            }
        }
        Ok(())
    }

    /// Walks over the arguments of an `init`.
    pub(crate) fn init_arguments(&mut self, item: &'t InitItem) -> Result<(), AllocError> {
        self.expressions(&item.arguments)?;
        match self.system_of(&item.component) {
            Some(defined) => self.arguments(&defined.system.parameters, &item.arguments),
            None => Ok(()),
        }
    }

    /// What a designator represents. Notes constant indices beyond the bounds.
    pub(crate) fn meaning(
        &mut self,
        designator: &'t Designator,
    ) -> Result<Option<Meaning<'t>>, AllocError> {
        let mut x = &designator.root;
        let mut meaning = self.names.find(x);
        for selector in &designator.selectors {
            match selector {
                Selector::Field { name, .. } => {
                    x = name;
                    meaning = self.names.member(meaning, x);
                }
                Selector::Indexed(list) => meaning = self.elements(x, meaning, list)?,
            }
        }
        Ok(meaning)
    }

    fn elements(
        &mut self,
        name: &'t Identifier,
        array: Option<Meaning<'t>>,
        list: &'t [Index],
    ) -> Result<Option<Meaning<'t>>, AllocError> {
        let mut meaning = array;
        for index in list {
            meaning = self.element(name, meaning, &index.value)?;
        }
        Ok(meaning)
    }

    // What an array has at an index.
    fn element(
        &mut self,
        name: &'t Identifier,
        array: Option<Meaning<'t>>,
        index: &'t Expression,
    ) -> Result<Option<Meaning<'t>>, AllocError> {
        let Some(Meaning::Variable(shape)) = array else {
            return Ok(None);
        };
        let Some((ordinals, part)) = self.names.element(shape) else {
            return Ok(None);
        };
        match self.names.value(index) {
            Some(value) if !ordinals.contains(value) => {
                self.notes.add_on(
                    index.first_token(),
                    NoteKind::OutOfBounds,
                    name.name.as_bytes(),
                )?;
            }
            _ => {}
        }
        Ok(Some(Meaning::Variable(part)))
    }

    /// Notes a division by the constant zero.
    pub(crate) fn divides(&mut self, operation: &'t Operation) -> Result<(), AllocError> {
        let is_division = matches!(operation.operator, Operator::Divide | Operator::Modulo);
        if is_division && self.names.value(&operation.operand) == Some(0) {
            self.notes.add(operation.at, NoteKind::ZeroDivisor)?;
        }
        Ok(())
    }

    /// Notes a `chr` of a constant that is no character's number.
    pub(crate) fn makes_character(&mut self, list: &'t [Expression]) -> Result<(), AllocError> {
        let Some(e) = list.first() else {
            return Ok(());
        };
        match self.names.value(e) {
            Some(value) if !CHARACTERS.contains(value) => {
                self.notes.add(e.first_token(), NoteKind::NoCharacter)
            }
            _ => Ok(()),
        }
    }
}
