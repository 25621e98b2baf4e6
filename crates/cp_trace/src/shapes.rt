//! Where the variables of components are. Components of one type share their places.

use cp_inspect::inspect::Inspect;
use cp_inspect::leaves::Leaf;
use std::alloc::{AllocError, Global};

// The places of the components of a type.
#[derive(Drop)]
struct Shape {
    /// The number of the type, or `None` for the initial process.
    row: Option<usize>,
    leaves: Vec<Leaf>,
}

/// The places of the components of some types, by number from 0.
#[derive(Drop)]
pub(crate) struct Shapes {
    shapes: Vec<Shape>,
}

impl Shapes {
    /// No places.
    pub(crate) fn new(alloc: Global) -> Shapes {
        Shapes {
            shapes: Vec::new(alloc),
        }
    }

    /// The number of the shape of a type, which is added if it is new. `None` represents
    /// the type of the initial process.
    pub(crate) fn number_of<M: Inspect>(
        &mut self,
        alloc: Global,
        machine: &M,
        row: Option<usize>,
    ) -> Result<usize, AllocError> {
        if let Some(number) = self.shapes.iter().position(|shape| shape.row == row) {
            return Ok(number);
        }
        let leaves = machine.leaves_of(alloc, row)?;
        let number = self.shapes.len();
        self.shapes.push(Shape { row, leaves })?;
        Ok(number)
    }

    /// The places of the shape with a number.
    pub(crate) fn leaves(&self, number: usize) -> &[Leaf] {
        match self.shapes.get(number) {
            Some(shape) => &shape.leaves,
            None => &[],
        }
    }
}
