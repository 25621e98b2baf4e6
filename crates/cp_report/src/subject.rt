//! What a report describes.

use cp_compile_symbols::{Field, Tables};
use cp_rounds::machine::Machine;

/// A machine, the tables of its text, and the monitors of the text.
#[derive(Clone, Copy)]
pub(crate) struct Subject<'r, 'm, 't> {
    pub(crate) tables: &'r Tables<'t>,
    pub(crate) machine: &'r Machine<'m, 't>,
    /// The monitors by number.
    pub(crate) monitors: &'r [Field<'t>],
}
