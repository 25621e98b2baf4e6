//! What a command reads: a text that has to be accepted, and an input that has to be fit for a run.

ghost use Rattle.std.specs.Prelude.{◌≡◌, Ok, IfErr, IfOk, IfSome};
ghost use Rattle.cp_model.specs.Rules.{Accepted};
ghost use Rattle.cp_model.specs.View as view;
ghost use Rattle.cp_frontend.specs.Cutting.{judge_input};
ghost use Rattle.cp_frontend.specs.KnownRefusals.{RefusesInputOf, RefusesText};
ghost use Rattle.cp_frontend.specs.Takings.{IsAboutText, TakesInput, TakesText, concern};
ghost use Rattle.cp_frontend.specs.Texts.{IsAccepted};

use crate::checking::{AcceptedTree, accept};
use crate::cutting::check_input;
use crate::reading::read_text;
use crate::refusal::Refusal;
use cp_base_names::Key;
use cp_model::tree::Tree;
use std::alloc::Global;
use std::io::Read;

/// An accepted text: its bytes, its syntax tree, and the key of its names. A command makes it once.
#[derive(Drop)]
pub struct AcceptedText {
    pub bytes: Vec<u8>,
    pub tree: Tree,
    pub key: Key,
    ghost accepted: { Accepted (view.tree tree) },
}

impl AcceptedText {
    /// The text with these bytes, which has this tree.
    pub fn new(bytes: Vec<u8>, accepted: AcceptedTree) -> AcceptedText
        ensures { result.tree ≡ accepted.tree }
    {
        let AcceptedTree { tree, key } = accepted;
        AcceptedText { bytes, tree, key }
    }
}

/// Reads a text and returns it if it is accepted.
///
/// # Errors
///
/// I1, S, Y or C, in this order, and M if memory runs out.
pub fn read_accepted<R: Read>(alloc: Global, text: &mut R) -> Result<AcceptedText, Refusal>
    ensures accepted { IfOk result (λ t. Accepted (view.tree t.tree)) }
    ensures text { IfOk result
        (λ t. IfSome (R.remaining text.old) (λ xs. IsAccepted xs (view.tree t.tree))) }
    ensures refused { IfErr result (λ e. IfSome (R.remaining text.old) (λ xs. RefusesText xs e)) }
    ensures about_text { IfErr result (λ e. IsAboutText (concern e)) }
    ensures taken { TakesText result (R.remaining text.old) (R.remaining text.new) }
{
    let bytes = read_text(alloc, text)?;
    let accepted = accept(alloc, &bytes)?;
    Ok(AcceptedText::new(bytes, accepted))
}

/// Reads an input and returns it if it is fit for a run.
///
/// # Errors
///
/// I1, I4 or I3, in this order, and M if memory runs out.
pub fn read_input<S: Read>(alloc: Global, input: &mut S) -> Result<Vec<u8>, Refusal>
    ensures input { IfOk result (λ bytes. IfSome (S.remaining input.old) (λ ys. bytes.items ≡ ys)) }
    ensures judged { IfOk result (λ bytes. judge_input bytes.items ≡ Ok tt) }
    ensures refused { IfErr result (RefusesInputOf (S.remaining input.old)) }
    ensures taken { TakesInput result (S.remaining input.old) (S.remaining input.new) }
{
    let bytes = read_text(alloc, input)?;
    check_input(&bytes)?;
    Ok(bytes)
}
