//! Emission of operations together with their calls, and of loops, which are closed once their body
//! is emitted.

ghost use Rattle.std.specs.Prelude.{◌≡◌, [], ◌∷◌, ◌++◌, IfOk, OnOk, length, map};
ghost use Rattle.cp_compile_emit.specs.Emission.{Emits, IsEmitted, calls_from, changed_at, operation_from, operations_of, origins_of_calls, place_of, with_body, with_repeated};
ghost use Rattle.cp_model_program.specs.Terms as terms;
ghost use Rattle.cp_program.specs.View as view;

use crate::emitter::{CodedCall, Emitter};
use crate::need::Need;
use cp_compile_symbols::small_number;
use cp_program::operation::{Operation, Then};
use std::alloc::AllocError;

// Makes a test lead to `body` if its value is 1.
fn complete_test(after: &mut Then, body: u32)
    ensures { (value : terms.Term) → view.evaluation value after.new
        ≡ with_body body (view.evaluation value after.old) }
{
    if let Then::Test { yes, .. } = after {
        *yes = body;
    }
}

// Makes a test lead to `body` if its value isn't 1.
fn complete_repeated_test(after: &mut Then, body: u32)
    ensures { (value : terms.Term) → view.evaluation value after.new
        ≡ with_repeated body (view.evaluation value after.old) }
{
    if let Then::Test { no, .. } = after {
        *no = body;
    }
}

// Completes the operation that closes a loop, by making it lead to `body`, where the loop's body
// begins.
fn complete(operation: &mut Operation, body: u32)
    ensures { view.operation operation.new ≡ with_body body (view.operation operation.old) }
{
    match operation {
        Operation::Cycle { body: place } => *place = body,
        Operation::ForNext(counting) => counting.body = body,
        Operation::Evaluate { then, .. } => complete_test(then, body),
        _ => {}
    }
}

// Completes the operation that closes a `repeat`, by making it lead to `body`.
fn complete_repeat(operation: &mut Operation, body: u32)
    ensures { view.operation operation.new ≡ with_repeated body (view.operation operation.old) }
{
    if let Operation::Evaluate { then, .. } = operation {
        complete_repeated_test(then, body);
    }
}

// Completes the operation at a place, if there is one.
fn complete_at(operations: &mut Vec<Operation>, place: u32, body: u32)
    ensures { map view.operation operations.new.items ≡ changed_at place (with_body body)
        (map view.operation operations.old.items) }
{
    let place = place as usize;
    if place < operations.len() {
        complete(&mut operations[place], body);
    }
}

fn complete_repeat_at(operations: &mut Vec<Operation>, place: u32, body: u32)
    ensures { map view.operation operations.new.items ≡ changed_at place (with_repeated body)
        (map view.operation operations.old.items) }
{
    let place = place as usize;
    if place < operations.len() {
        complete_repeat(&mut operations[place], body);
    }
}

impl Emitter {
    /// The place of the next operation.
    pub fn place(&self) -> Result<u32, AllocError>
        ensures { IfOk result (λ place. place ≡ place_of self.now) }
    {
        small_number(self.operations.len())
    }

    /// Emits an operation that comes from the place `at` of the text, and returns its own place.
    pub fn push(&mut self, operation: Operation, at: usize) -> Result<u32, AllocError>
        ensures place { IfOk result (λ place. place ≡ place_of self.old) }
        ensures emits { OnOk result (Emits self.old self.new (view.operation operation ∷ [])) }
        ensures origin { OnOk result
            (self.new.origins.items ≡ self.old.origins.items ++ at ∷ []) }
    {
        let place = self.place()?;
        let own = Need::of(&self.units, &operation)?;
        self.origins.reserve(1)?;
        self.operations.push(operation)?;
        let added = self.origins.push(at);
        prove!(added.is_ok());
        self.need = own.greater(self.need);
        Ok(place)
    }

    /// Completes the operation that closes a `cycle`, a `for` or a `while`, once the place where
    /// the loop's body begins is known.
    pub fn close_loop(&mut self, place: u32, body: u32)
        ensures { IsEmitted self.old self.new
            (changed_at place (with_body body) (operations_of self.old)) }
    {
        complete_at(&mut self.operations, place, body);
    }

    /// Completes the operation that closes a `repeat`, once the place where its body begins is
    /// known.
    pub fn close_repeat(&mut self, place: u32, body: u32)
        ensures { IsEmitted self.old self.new
            (changed_at place (with_repeated body) (operations_of self.old)) }
    {
        complete_repeat_at(&mut self.operations, place, body);
    }

    // Emits calls that lead to the place `next`, the last call first, and returns the place where
    // they are entered.
    fn emit_calls(&mut self, calls: Vec<CodedCall>, next: u32) -> Result<u32, AllocError>
        ensures entry { IfOk result
            (λ entry. entry ≡ (calls_from self.old calls.items next).entry) }
        ensures emits { OnOk result
            (Emits self.old self.new (calls_from self.old calls.items next).operations) }
        ensures origins { OnOk result
            (self.new.origins.items ≡ self.old.origins.items ++ origins_of_calls calls.items) }
    {
        let mut left = calls;
        let mut entry = next;
        while let Some(made) = left.pop() {
            let function = Operation::Function {
                call: made.call,
                into: made.into,
                next: entry,
            };
            entry = self.push(function, made.at)?;
        }
        Ok(entry)
    }

    /// Emits an operation that comes from the place `at` of the text, and the calls of its terms.
    /// Returns the place where they are entered.
    pub fn emit(
        &mut self,
        calls: Vec<CodedCall>,
        operation: Operation,
        at: usize,
    ) -> Result<u32, AllocError>
        ensures entry { IfOk result
            (λ entry. entry ≡ (operation_from self.old calls.items operation).entry) }
        ensures emits { OnOk result
            (Emits self.old self.new (operation_from self.old calls.items operation).operations) }
        ensures origins { OnOk result (self.new.origins.items
            ≡ self.old.origins.items ++ at ∷ origins_of_calls calls.items) }
    {
        let place = self.push(operation, at)?;
        self.emit_calls(calls, place)
    }
}
