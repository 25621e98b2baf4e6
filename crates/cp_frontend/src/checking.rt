//! From the bytes of a text to its syntax tree, or to the reason why it has none or isn't accepted.

ghost use Rattle.std.specs.Prelude.{◌≡◌, IfErr, IfOk};
ghost use Rattle.cp_model.specs.Rules.{Accepted};
ghost use Rattle.cp_model.specs.View as view;
ghost use Rattle.cp_frontend.specs.Refusals.{of_syntax};
ghost use Rattle.cp_frontend.specs.Texts.{IsAccepted, IsTextOf, Refuses};

use crate::refusal::Refusal;
use cp_base_names::Key;
use cp_model::tree::Tree;
use cp_rules::text::judge;
use cp_scan::scan;
use cp_syntax::{SyntaxError, parse};
use std::alloc::Global;

/// The syntax tree of an accepted text, and the key of its names.
#[derive(Drop)]
pub struct AcceptedTree {
    pub tree: Tree,
    pub key: Key,
    ghost accepted: { Accepted (view.tree tree) },
}

fn syntax_refusal(error: SyntaxError) -> Refusal
    ensures { result ≡ of_syntax error }
{
    match error {
        SyntaxError::Unexpected { at } => Refusal::Unexpected { at },
        SyntaxError::Unfinished { at } => Refusal::Unfinished { at },
        SyntaxError::TooDeep { at } => Refusal::TooDeep { at },
        SyntaxError::Memory => Refusal::Memory,
    }
}

/// Parses a text into its syntax tree.
///
/// # Errors
///
/// A refusal of S or Y if the text has no tree, and M if memory runs out.
pub fn tree_of(alloc: Global, text: &[u8]) -> Result<Tree, Refusal>
    ensures tree { IfOk result (λ t. IsTextOf text.now (view.tree t)) }
    ensures refused { IfErr result (Refuses text.now) }
{
    let tokens = match scan(alloc, text) {
        Ok(tokens) => tokens,
        Err(error) => return Err(Refusal::from(error)),
    };
    match parse(alloc, &tokens, text.len()) {
        Ok(tree) => Ok(tree),
        Err(error) => Err(syntax_refusal(error)),
    }
}

/// Parses a text and judges it by the rules, and returns its syntax tree if it is accepted.
///
/// # Errors
///
/// A refusal of S, Y or C, in this order, if the text isn't accepted, and M if memory runs out.
pub fn accept(alloc: Global, text: &[u8]) -> Result<AcceptedTree, Refusal>
    ensures accepted { IfOk result (λ t. IsAccepted text.now (view.tree t.tree)) }
    ensures refused { IfErr result (Refuses text.now) }
{
    let tree = tree_of(alloc, text)?;
    let key = Key::of(&tree);
    judge(alloc, key, &tree)?;
    Ok(AcceptedTree { tree, key })
}
