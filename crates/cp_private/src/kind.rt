//! The kind of a process's next step.

ghost use Rattle.std.specs.Prelude.{◌≡◌, ℕ, List};
ghost use Rattle.cp_private.specs.Kinds.{kind_of};
ghost use Rattle.cp_private.specs.Promises.{ReportsKind};
ghost use Rattle.cp_private.specs.States.{private_of};
ghost use Rattle.cp_program.specs.View as view;

use crate::private::{Activity, Private};
use crate::step::needs_kernel;
use cp_program::program::Program;

/// Whether the next step of a process is private or the kernel's.
#[derive(Clone, Copy)]
pub enum Kind {
    Private,
    Kernel,
    /// There is no next step.
    None,
}

#[inline(always)]
fn kind_at_counter(program: &Program, private: &Private) -> Kind
    ensures { (input : List ℕ) → result ≡ kind_of (view.program program.now)
        (private_of private.now input) }
{
    if !matches!(private.activity, Activity::Running) {
        return Kind::None;
    }
    if private.gate != 0 {
        return Kind::Kernel;
    }
    match program.operation(private.counter) {
        Some(operation) if needs_kernel(operation) => Kind::Kernel,
        Some(_) => Kind::Private,
        None => Kind::None,
    }
}

/// The kind of the next step. It is the kernel's inside a monitor, and if it calls a
/// monitor or initialises a monitor or a process.
#[inline(always)]
pub fn next_kind(program: &Program, private: &Private) -> Kind
    ensures kind { (input : List ℕ) → result ≡ kind_of (view.program program.now)
        (private_of private.now input) }
    ensures meaning { (input : List ℕ) → ReportsKind program.now private.now input result }
{
    kind_at_counter(program, private)
}
