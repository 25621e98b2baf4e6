//! The tokens of a text up to a place, and what each piece adds to them. `step` of
//! `specs/Pieces.antt` defines it.

ghost use Rattle.std.specs.Prelude.{◌≡◌, ◌+◌, ◌^◌, ◌<◌, Some, Ok};
ghost use Rattle.cp_model.specs.Kinds.{kind_of};
ghost use Rattle.cp_scan.specs.Failures.{Takes};
ghost use Rattle.cp_scan.specs.declared.refusal.ScanError.TheVariants.{Refused};

use crate::refusal::{Cause, ScanError};
use cp_model::token::{Kind, Span, Token};

/// The tokens of a text up to the place `at`.
#[derive(Drop)]
pub struct Progress {
    pub(crate) tokens: Vec<Token>,
    pub(crate) at: usize,
}

impl Progress {
    /// Appends a token of so many bytes, and continues after it. Fails only if memory runs out.
    #[inline(always)]
    pub fn append(&mut self, kind: Kind, length: usize) -> Result<(), ScanError>
        requires { self.old.at + length < 2 ^ 32 }
        ensures { Takes result self.old self.new (Ok (Some (kind_of kind), length)) }
    {
        let to = self.at + length;
        let span = Span {
            from: self.at as u32,
            to: to as u32,
        };
        self.tokens.push(Token::new(kind, span))?;
        self.at = to;
        Ok(())
    }

    /// Continues after a separator of so many bytes.
    #[inline(always)]
    pub fn pass(&mut self, length: usize)
        requires { self.old.at + length < 2 ^ 32 }
        ensures { self.new ≡ record self.old { at = self.old.at + length } }
    {
        self.at += length;
    }

    /// The refusal of what is at this place.
    pub fn refusal(&self, cause: Cause) -> ScanError
        ensures { result ≡ Refused cause self.now.at }
    {
        ScanError::Refused { cause, at: self.at }
    }
}
