//! What a trace reads of a machine.

ghost use Rattle.std.specs.Prelude.{◌≡◌, ℕ, List};
ghost use Rattle.cp_private.specs.States.{holder as holder_view};
ghost use Rattle.cp_model.specs.States as plain;
ghost use Rattle.cp_inspect.specs.declared.place.Place.{Place};
ghost use Rattle.cp_inspect.specs.declared.place.Value.{Value};
ghost use Rattle.cp_inspect.specs.declared.state.ProcState.{ProcState};

use crate::leaves::Leaf;
use crate::place;
use crate::state::ProcState;
use cp_compile_symbols::{Base, Field};
use cp_private::kernel_view::Holder;
use std::alloc::{AllocError, Global};

/// What a trace reads of the machine of a text. It is a trait, so that traces don't depend on the
/// rounds of machines: code that names a machine names some ninety types, and is proved slowly
/// (docs/CI.md).
pub trait Inspect {
    /// What the reading calls of the machine give: the state of each process, what it has written
    /// as far as the kernel has it, and the rest, and for each monitor the holder of its gate and
    /// those that ask for it, and the value at each place.
    ghost state: { Self → ℕ → ProcState };

    ghost written: { Self → ℕ → List ℕ };

    ghost held: { Self → ℕ → List ℕ };

    ghost holder: { Self → ℕ → plain.Holder };

    ghost askers: { Self → ℕ → List ℕ };

    ghost value: { Self → Place → Value };

    /// The state of a process.
    fn state_of(&self, process: u32) -> ProcState
        ensures { result ≡ state self.now process };

    /// A state in the words of a report, given the monitors.
    ///
    /// # Errors
    ///
    /// `AllocError` if memory runs out.
    fn words_of(
        &self,
        alloc: Global,
        monitors: &[Field<'_>],
        state: ProcState,
    ) -> Result<String, AllocError>;

    /// What a process has written, as far as the kernel has it, and the rest.
    fn transcript_of(&self, process: u32) -> (&[u8], &[u8])
        ensures written { result.0.now ≡ written self.now process }
        ensures held { result.1.now ≡ held self.now process };

    /// The holder of the gate of a monitor.
    fn holder_of(&self, monitor: u32) -> Holder
        ensures { holder_view result ≡ holder self.now monitor };

    /// The processes that ask for the gate of a monitor.
    fn askers_of(&self, monitor: u32) -> &[u32]
        ensures { result.now ≡ askers self.now monitor };

    /// The value at a place.
    fn value_at(&self, place: &place::Place) -> place::Value
        ensures { result ≡ value self.now place.now };

    /// The base type of the simple type with a number.
    fn base_of(&self, number: usize) -> Option<Base<'_>>;

    /// The places of the components of a type, by its number, or those of the initial
    /// process.
    ///
    /// # Errors
    ///
    /// `AllocError` if memory runs out.
    fn leaves_of(&self, alloc: Global, number: Option<usize>) -> Result<Vec<Leaf>, AllocError>;
}
