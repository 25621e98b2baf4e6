//! Private states that threads hand to each other.

ghost use Rattle.std.specs.Prelude.{◌≡◌, IfOk};
ghost use Rattle.std.specs.Borrow.{sem};
ghost use Rattle.cp_private.specs.Lending.{LendsPrivate};

use crate::private::Private;
use std::alloc::{AllocError, Global};
use std::marker::Model;

/// A private state that stays where it is in memory while threads hand it to each other: they
/// exchange only its place. Contracts see the private state.
#[derive(Drop)]
pub struct PrivateBox {
    private: Box<Private>,
}

impl Model for PrivateBox {
    ghost use Rattle.cp_private.specs.declared.private.Private.{Private};

    ghost Value = { Private };

    ghost view = { λ r. r.private.value };
}

impl PrivateBox {
    /// Gives a private state a place.
    ///
    /// # Errors
    ///
    /// `AllocError` if memory runs out. The private state is then lost.
    pub fn new(alloc: Global, private: Private) -> Result<PrivateBox, AllocError>
        ensures { IfOk result (λ r. r ≡ private) }
    {
        let private = Box::new(alloc, private)?;
        Ok(PrivateBox { private })
    }

    /// The private state.
    #[inline(always)]
    pub fn private(&self) -> &Private
        ensures { result.now ≡ self.now }
    {
        &self.private
    }

    /// The private state, which may be changed.
    #[inline(always)]
    pub fn private_mut(&mut self) -> &mut Private
        ensures* writes_back { sem 𝓛 (LendsPrivate self.entry result) }
        ensures value { result.now ≡ self.old }
    {
        &mut self.private
    }
}
