//! Units: an emitter begins a unit, emits its operations, and ends it.

ghost use Rattle.std.specs.Prelude.{◌≡◌, List, [], ◌∷◌, ◌++◌, IfOk, OnOk, length, map};
ghost use Rattle.cp_model_program.specs.Compile.{left_out, stub};
ghost use Rattle.cp_model_program.specs.Programs.{StartPlan};
ghost use Rattle.cp_compile_emit.specs.Emission.{operations_of, place_of, unit_ended, units_of};
ghost use Rattle.cp_program.specs.View as view;

use crate::emitter::Emitter;
use crate::need::Need;
use cp_compile_symbols::small_number;
use cp_program::operation::Operation;
use cp_program::program::{CodeUnit, StartPiece};
use std::alloc::{AllocError, Global};

/// The greatest number of words that a unit can need. One that needs more has this number.
const MOST_WORDS: u32 = 0xffff_ffff;

impl Emitter {
    /// Creates an emitter without operations and units.
    pub fn new(alloc: Global) -> Emitter
        ensures operations { operations_of result ≡ [] }
        ensures origins { result.origins.items ≡ [] }
        ensures units { (known : List StartPlan) → units_of known result ≡ [] }
    {
        Emitter {
            operations: Vec::new(alloc),
            origins: Vec::new(alloc),
            units: Vec::new(alloc),
            first: 0,
            words: 0,
            need: Need::none(),
        }
    }

    /// Begins a unit whose activations have `words` words.
    pub fn begin(&mut self, words: u32)
        ensures operations { operations_of self.new ≡ operations_of self.old }
        ensures origins { self.new.origins ≡ self.old.origins }
        ensures units { self.new.units ≡ self.old.units }
        ensures first { self.new.first ≡ place_of self.old }
        ensures words { self.new.words ≡ words }
    {
        self.first = self.operations.len();
        self.words = words;
        self.need = Need::of_activation(words);
    }

    /// Ends the unit in progress. It is entered at the operation `entry`, and `starts` is the plan
    /// of its activations, whose parts have plans of their own.
    pub fn end(&mut self, entry: u32, starts: Vec<StartPiece>) -> Result<(), AllocError>
        ensures operations { OnOk result (operations_of self.new ≡ operations_of self.old) }
        ensures origins { OnOk result (self.new.origins ≡ self.old.origins) }
        ensures unit { OnOk result ((known : List StartPlan) → units_of known self.new
            ≡ units_of known self.old ++ unit_ended known self.old entry starts.items ∷ []) }
    {
        let need = self.need;
        self.units.push(CodeUnit {
            start: entry,
            starts,
            words: need.words,
            temps: need.temps,
            frames: need.frames,
        })?;
        self.first = self.operations.len();
        self.words = 0;
        self.need = Need::none();
        Ok(())
    }

    /// Adds a unit without code, whose activations have `words` words, and start by the plan `starts`.
    pub fn add_stub(&mut self, words: u32, starts: Vec<StartPiece>) -> Result<(), AllocError>
        ensures operations { OnOk result (operations_of self.new ≡ operations_of self.old) }
        ensures origins { OnOk result (self.new.origins ≡ self.old.origins) }
        ensures unit { OnOk result ((known : List StartPlan) → units_of known self.new
            ≡ units_of known self.old ++ stub words (view.plan_of known starts.items) ∷ []) }
    {
        self.units.push(CodeUnit {
            start: 0,
            starts,
            words,
            temps: 0,
            frames: 0,
        })?;
        self.first = self.operations.len();
        self.words = 0;
        self.need = Need::none();
        Ok(())
    }

    /// Adds a unit without code, for one that has no room: it needs more words than any process
    /// has.
    pub fn leave_out(&mut self, alloc: Global) -> Result<(), AllocError>
        ensures operations { OnOk result (operations_of self.new ≡ operations_of self.old) }
        ensures origins { OnOk result (self.new.origins ≡ self.old.origins) }
        ensures unit { OnOk result ((known : List StartPlan) → units_of known self.new
            ≡ units_of known self.old ++ left_out ∷ []) }
    {
        self.add_stub(MOST_WORDS, Vec::new(alloc))
    }

    /// The number of units so far.
    pub fn units(&self) -> Result<u32, AllocError>
        ensures { IfOk result (λ n. (known : List StartPlan)
            → n ≡ length (units_of known self.now)) }
    {
        small_number(self.units.len())
    }

    /// The operations, their origins and the units.
    pub fn into_parts(self) -> (Vec<Operation>, Vec<usize>, Vec<CodeUnit>)
        ensures operations { map view.operation result.0.items ≡ operations_of self }
        ensures origins { length result.1.items ≡ place_of self }
        ensures origins_are { result.1 ≡ self.origins }
        ensures units { (known : List StartPlan)
            → map (view.code_unit known) result.2.items ≡ units_of known self }
    {
        (self.operations, self.origins, self.units)
    }
}
