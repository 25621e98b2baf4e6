//! Why reading stopped.

ghost use Rattle.std.specs.Prelude.{◌≡◌};
ghost use Rattle.cp_model_grammar.specs.declared.stop.Stop.TheVariants.{Memory};

use std::alloc::{AllocError, AllocFailed};

/// Why reading stopped, with the number of tokens that were left, including the one at which it
/// stopped.
#[derive(Clone, Copy)]
pub enum Stop {
    /// Memory ran out for the tree.
    Memory,
    /// No text has this token here. If no token is left, no text ends here.
    Wrong(usize),
    /// The token opens one level more than may be opened.
    Deep(usize),
}

impl From<AllocError> for Stop {
    ghost from_gives = { λ _ stop. stop ≡ Memory };

    fn from(_error: AllocError) -> Stop {
        Stop::Memory
    }
}

impl<T: Drop> From<AllocFailed<T>> for Stop {
    ghost from_gives = { λ _ stop. stop ≡ Memory };

    fn from(_error: AllocFailed<T>) -> Stop {
        Stop::Memory
    }
}
