//! The first state.

ghost use Rattle.std.specs.Prelude.{◌≡◌, ℕ, List, IfOk, length};
ghost use Rattle.cp_model_machine.specs.Machines.{first_machine};
ghost use Rattle.cp_law_cores.specs.Cores.{core};
ghost use Rattle.cp_program.specs.View as view;
ghost use Rattle.cp_search_states.specs.SearchStates.{core_of};
ghost use Rattle.cp_search_states.specs.Verdicts.{AreFirst};

use crate::state::SearchState;
use cp_kernel::kernel::Kernel;
use cp_private::private::Private;
use cp_private::private_box::PrivateBox;
use cp_program::program::Program;
use std::alloc::{AllocError, Global};

// The private states of all processes at the start.
fn first_privates(alloc: Global, program: &Program) -> Result<Vec<PrivateBox>, AllocError>
    ensures first { IfOk result (λ xs. AreFirst (view.program program.now) xs.items) }
    ensures count { IfOk result
        (λ xs. length xs.items ≡ length (view.program program.now).processes) }
{
    let count = program.processes();
    let mut privates = Vec::with_capacity(alloc, count)?;
    for i in 0..count {
        let private = Private::new(alloc, program, i + 1)?;
        privates.push(PrivateBox::new(alloc, private)?)?;
    }
    Ok(privates)
}

impl SearchState {
    /// A state without processes. It takes no memory.
    pub fn empty(alloc: Global) -> SearchState {
        SearchState {
            privates: Vec::new(alloc),
            kernel: Kernel::empty(alloc),
        }
    }

    /// The state at the start.
    ///
    /// # Errors
    ///
    /// `AllocError` if memory runs out, or if a process or the monitors have 2^30 words or more.
    pub fn first(alloc: Global, program: &Program) -> Result<SearchState, AllocError>
        ensures { IfOk result (λ state. (tick : ℕ) (inputs : ℕ → List ℕ)
            → core_of inputs state
            ≡ core (first_machine (view.program program.now) tick inputs)) }
    {
        let privates = first_privates(alloc, program)?;
        let kernel = Kernel::new(alloc, program)?;
        Ok(SearchState { privates, kernel })
    }
}
