//! Where a process continues: one position for each of its activations. No step reads them.

ghost use Rattle.std.specs.Prelude.{List, ℕ};
ghost use Rattle.cp_private.specs.Positions.{IsAt, IsCaller};
ghost use Rattle.cp_private.specs.States.{private_of};

use crate::private::Private;

/// Where an activation continues: the number of its next operation, and the address of its
/// component among the process's own words and the shared words after them.
#[derive(Clone, Copy)]
pub struct Position {
    pub operation: u32,
    pub component: usize,
}

impl Private {
    /// The position of the running activation.
    pub fn position(&self) -> Position
        ensures { (input : List ℕ) → IsAt (private_of self.now input).counter
            (private_of self.now input).component result }
    {
        Position {
            operation: self.counter,
            component: self.memory.component,
        }
    }

    /// The position of the activation with an index, if it has called another one. The outermost
    /// activation has the index 0.
    pub fn caller(&self, index: usize) -> Option<Position>
        ensures { IsCaller self.now index result }
    {
        if self.depth <= index {
            return None;
        }
        let frame = self.frames.get(index)?;
        Some(Position {
            operation: frame.counter,
            component: frame.component as usize,
        })
    }
}
