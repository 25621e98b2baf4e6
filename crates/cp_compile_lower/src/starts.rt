//! Where parts of variables begin, and where rights are.

ghost use Rattle.std.specs.Prelude.{◌≡◌, ℕ, Option, IfOk};
ghost use Rattle.cp_model.specs.Declarations.{Variable};
ghost use Rattle.cp_model_program.specs.Layout as layout;
ghost use Rattle.cp_model_program.specs.Scopes as code;
ghost use Rattle.cp_compile_symbols.specs.Components.{RightIs};
ghost use Rattle.cp_compile_symbols.specs.Layouts.{PartIs};
ghost use Rattle.cp_compile_symbols.specs.declared.types.Types.{Types};

use cp_compile_symbols::{Part, Right, small_number};
use std::alloc::AllocError;

/// The word at which a part begins, or 0 if there is no part.
pub fn part_start(part: Option<Part>) -> Result<u32, AllocError>
    ensures { IfOk result (λ at. (types : Types) (q : Option layout.Part) → PartIs types part q
        → at ≡ code.part_start q) }
{
    match part {
        Some(part) => part.at.ok_or(AllocError),
        None => Ok(0),
    }
}

/// The word that holds a right, or 0 if there is no right.
pub fn right_start(right: Option<Right>) -> Result<u32, AllocError>
    ensures { IfOk result (λ at. (types : Types) (q : Option (ℕ × Variable))
        → RightIs types right q → at ≡ code.right_start q) }
{
    match right {
        Some(right) => small_number(right.at),
        None => Ok(0),
    }
}
