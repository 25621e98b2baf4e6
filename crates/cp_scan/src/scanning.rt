//! All pieces of a text from left to right, and the tokens among them. `specs/Laws.antt` defines
//! what the contract of `scan` says about them, in terms of `Spelling` of cp_model.

ghost use Rattle.std.specs.Prelude.{◌≡◌, ◌≤◌, ◌<◌, ◌^◌, ℕ, List, drop, length, Ok, IfOk, IfErr, OnOk, MatchResult};
ghost use Rattle.cp_model.specs.Spelling.{Spells};
ghost use Rattle.cp_model.specs.Tokens.{Token};
ghost use Rattle.cp_scan.specs.Failures.{Fails};
ghost use Rattle.cp_scan.specs.Laws.{IsFirstCause, IsRefusalOrMemory, ReportsFirstCause, RisesFrom, RulesOutTokens, longest_text};
ghost use Rattle.cp_scan.specs.Pieces as spec;
ghost use Rattle.cp_scan.specs.declared.refusal.Cause.{Cause};
ghost use Rattle.cp_scan.specs.declared.refusal.ScanError.TheVariants.{Memory};

use crate::piece::read_piece;
use crate::progress::Progress;
use crate::refusal::{Cause, ScanError};
use cp_model::token::Token;
use std::alloc::Global;

/// The largest number of bytes of a text that is scanned.
pub const MAX_SOURCE_BYTES: usize = 1_048_576;

/// The tokens that spell the text, in its order: words in lower case, and no blanks or
/// comments. Each span covers the bytes of its token, so the spans rise and don't overlap. No other
/// list of tokens spells the text.
///
/// # Errors
///
/// `Refused` says why no tokens spell the text. If the text is too long, that is [`Cause::Size`] at
/// [`MAX_SOURCE_BYTES`], whatever the text contains. Otherwise it is the first place from left to
/// right at which neither a token nor a separator begins, with the cause. `Memory` only says that
/// memory was refused.
pub fn scan(alloc: Global, text: &[u8]) -> Result<Vec<Token>, ScanError>
    ensures spelled { IfOk result (λ tokens. Spells text.now tokens.items) }
    ensures spans { IfOk result (λ tokens. RisesFrom 0 tokens.items (length text.now)) }
    ensures within { OnOk result (length text.now ≤ longest_text) }

    // If tokens spell a text within the limit, these are the ones that are found, unless memory
    // runs out.
    ensures only { (tokens : List Token) → Spells text.now tokens → length text.now ≤ longest_text
        → MatchResult result (λ found. found.items ≡ tokens) (λ error. error ≡ Memory) }

    // An error other than `Memory` is the first cause of the text, and no other.
    ensures first { IfErr result (ReportsFirstCause text.now) }
    ensures refused { (cause : Cause) (at : ℕ) → IsFirstCause cause at text.now
        → MatchResult result (λ _. ⊥) (IsRefusalOrMemory cause at) }
    ensures none { IfErr result (RulesOutTokens text.now) }
{
    if text.len() > MAX_SOURCE_BYTES {
        return Err(ScanError::Refused {
            cause: Cause::Size,
            at: MAX_SOURCE_BYTES,
        });
    }
    all_tokens(alloc, text)
}

// The tokens of a text whose places fit into 32 bits, or its first cause.
fn all_tokens(alloc: Global, text: &[u8]) -> Result<Vec<Token>, ScanError>
    requires { length text.now < 2 ^ 32 }
    ensures tokens { IfOk result (λ tokens. spec.tokens_of text.now ≡ Ok tokens.items) }
    ensures fails { IfErr result (λ error. Fails error (spec.tokens_of text.now)) }
{
    let mut progress = Progress {
        tokens: Vec::new(alloc),
        at: 0,
    };
    while progress.at < text.len() {
        read_piece(alloc, text, &mut progress)?;
    }
    Ok(progress.tokens)
}
