//! Notes on functions that can end without a result.

use crate::note::NoteKind;
use crate::walk::Walk;
use cp_explain_meanings::meaning::Shape;
use cp_model::tree::Designator;
use std::alloc::AllocError;

impl<'t> Walk<'t> {
    /// Walks over what is assigned to. Returns the shape of the function's result, if it is that.
    pub(crate) fn sets_result(&mut self, target: &'t Designator) -> Option<Shape<'t>> {
        let routine = self.inside.function()?;
        if routine.name.name.as_bytes() != target.root.name.as_bytes() {
            return None;
        }
        self.flow.has_result = true;
        self.inside.sets_result = true;
        self.names.shape_of_name(routine.result_type.as_ref()?)
    }

    /// Walks over the end of a routine.
    pub(crate) fn ends_function(&mut self) -> Result<(), AllocError> {
        let Some(routine) = self.inside.function() else {
            return Ok(());
        };
        if !self.flow.is_open() || self.flow.has_result {
            return Ok(());
        }
        let note_kind = if self.inside.sets_result {
            NoteKind::ResultUnderConditions
        } else {
            NoteKind::NoResult
        };
        self.notes
            .add_on(routine.name.at, note_kind, routine.name.name.as_bytes())
    }

    /// Walks over a `continue` at a place, which returns from the routine.
    pub(crate) fn returns_early(&mut self, at: usize) -> Result<(), AllocError> {
        match self.inside.function() {
            Some(routine) if !self.flow.has_result => {
                self.notes
                    .add_on(at, NoteKind::ReturnsEarly, routine.name.name.as_bytes())
            }
            _ => Ok(()),
        }
    }
}
