//! The operations of statements, each after the calls of its terms.

ghost use Rattle.std.specs.Prelude.{◌≡◌, ◌++◌, ◌∷◌, [], IfOk, List, OnOk, map, reverse};
ghost use Rattle.cp_model.specs.Erase as erase;
ghost use Rattle.cp_model.specs.View as tree;
ghost use Rattle.cp_model_program.specs.CodedStatements as coded;
ghost use Rattle.cp_model_program.specs.CodedStatements.{arms_at, with_calls};
ghost use Rattle.cp_model_program.specs.CodedTerms.{coded_term};
ghost use Rattle.cp_model_program.specs.Programs as op;
ghost use Rattle.cp_model_program.specs.Scopes as code;
ghost use Rattle.cp_compile_emit.specs.Emission.{origins_of_calls, place_of};
ghost use Rattle.cp_compile_emit.specs.declared.emitter.CodedCall.{CodedCall};
ghost use Rattle.cp_compile_symbols.specs.Scopes.{IsScope};
ghost use Rattle.cp_program.specs.Labels.{arm};
ghost use Rattle.cp_program.specs.View as view;
ghost use Rattle.cp_compile_lower.specs.Statements.{Enters};

use crate::translator::Translator;
use crate::types::bounds_of;
use cp_compile_emit::Emitter;
use cp_compile_emit::table::table_of;
use cp_model::tree::{Constant, Direction, Expression};
use cp_program::arm::Arm;
use cp_program::operation::{Counting, Operation};
use std::alloc::AllocError;

// Whether a `for` counts down.
fn is_down(direction: Direction) -> bool
    ensures { result ≡ erase.is_down direction }
{
    matches!(direction, Direction::Down)
}

impl<'s, 't> Translator<'s, 't> {
    /// Emits a test, which leads to `yes` or `no`.
    pub fn test(
        &self,
        expression: &Expression,
        low: u32,
        yes: u32,
        no: u32,
        emitter: &mut Emitter,
    ) -> Result<u32, AllocError>
        ensures { IfOk result (λ entry. (s : code.Scope) → IsScope self.now.scope s
            → let c = coded_term s (erase.expression (tree.expression expression.now)) low in
            Enters emitter.old emitter.new entry
            (with_calls c.calls (op.Test c.term yes no) (place_of emitter.old))) }
    {
        let mut calls = Vec::new(self.alloc);
        let made = self.term(expression, low, &mut calls)?;
        let test = Operation::test(made.term, yes, no);
        emitter.emit(calls, test, expression.first_token())
    }

    /// Emits the operation of a `case` with these arms.
    pub fn choose(
        &self,
        expression: &Expression,
        arms: Vec<Arm>,
        low: u32,
        emitter: &mut Emitter,
    ) -> Result<u32, AllocError>
        ensures { IfOk result (λ entry. (s : code.Scope) → IsScope self.now.scope s
            → let c = coded_term s (erase.expression (tree.expression expression.now)) low in
            Enters emitter.old emitter.new entry (with_calls c.calls
            (op.Case c.term (coded.table_of (map arm arms.items))) (place_of emitter.old))) }
    {
        let mut calls = Vec::new(self.alloc);
        let made = self.term(expression, low, &mut calls)?;
        let table = table_of(self.alloc, arms)?;
        let case = Operation::Case {
            value: made.term,
            table,
        };
        emitter.emit(calls, case, expression.first_token())
    }

    // Adds an arm for a label that leads to `place`, if the label has a value.
    fn add_label(&self, label: &Constant, place: u32, arms: &mut Vec<Arm>) -> Result<(), AllocError>
        ensures { OnOk result ((s : code.Scope) → IsScope self.now.scope s
            → map arm (reverse arms.new.items) ≡ arms_at s.globals place
            (erase.constant label.now ∷ []) (map arm (reverse arms.old.items))) }
    {
        if let Some(value) = self.scope.tables().names.value(label) {
            arms.push(Arm {
                label: value.ordinal,
                place,
            })?;
        }
        Ok(())
    }

    /// Adds arms for the labels of a statement at `place`. The last label comes first in `arms`.
    pub fn label(
        &self,
        labels: &[Constant],
        place: u32,
        arms: &mut Vec<Arm>,
    ) -> Result<(), AllocError>
        ensures { OnOk result ((s : code.Scope) → IsScope self.now.scope s
            → map arm (reverse arms.new.items) ≡ arms_at s.globals place
            (map erase.constant labels.now) (map arm (reverse arms.old.items))) }
    {
        for i in (0..labels.len()).rev() {
            self.add_label(&labels[i], place, arms)?;
        }
        Ok(())
    }

    /// The data of a `for` over the variable with this name, before its body is emitted.
    pub fn counting(
        &self,
        name: &[u8],
        direction: Direction,
        low: u32,
        next: u32,
    ) -> Result<Counting, AllocError>
        ensures { IfOk result (λ k. (s : code.Scope) → IsScope self.now.scope s
            → view.counting k ≡ coded.counting s name.now (erase.is_down direction) low 0 next) }
    {
        let of = self.scope.named_place_type(name);
        Ok(Counting {
            variable: self.variable_root(name)?,
            bounds: bounds_of(self.scope.tables().types.simple(of)),
            down: is_down(direction),
            temp: low,
            body: 0,
            next,
        })
    }

    /// Emits the operation with which a `for` begins. Its variable is at the place `origin`.
    pub fn start_counting(
        &self,
        counting: Counting,
        from: &Expression,
        last: &Expression,
        origin: usize,
        emitter: &mut Emitter,
    ) -> Result<u32, AllocError>
        ensures enters { IfOk result (λ entry. (s : code.Scope) → IsScope self.now.scope s
            → let a = coded_term s (erase.expression (tree.expression from.now)) counting.temp in
            let b = coded_term s (erase.expression (tree.expression last.now)) a.temps in
            Enters emitter.old emitter.new entry (with_calls (a.calls ++ b.calls)
            (op.For (view.counting counting) a.term b.term) (place_of emitter.old))) }
        ensures origin { OnOk result ((calls : List CodedCall) × (emitter.new.origins.items
            ≡ emitter.old.origins.items ++ origin ∷ origins_of_calls calls)) }
    {
        let mut calls = Vec::new(self.alloc);
        let first = self.term(from, counting.temp, &mut calls)?;
        let last = self.term(last, first.temps, &mut calls)?;
        let start = Operation::For {
            counting,
            first: first.term,
            last: last.term,
        };
        emitter.emit(calls, start, origin)
    }
}
