//! A text that is refused, as an object that a command writes in place of its own.

ghost use Rattle.std.specs.Prelude.{◌≡◌, IfOk, IfSome, None};
ghost use Rattle.cp_model.specs.View as view;
ghost use Rattle.cp_frontend.specs.Texts.{IsTextOf};
ghost use Rattle.cp_frontend.specs.declared.refusal.Refusal.TheVariants as refusal;
ghost use Rattle.cp_explain.specs.Explained.{RefusedWith};
ghost use Rattle.cp_explain.specs.Objects.{IsRefusedText, Judges};

use crate::object::{mistake_objects, violation_objects};
use crate::refusal_objects::{Mark, RefusalObject};
use cp_base_config::explaining::Extent;
use cp_base_names::Key;
use cp_frontend::checking::tree_of;
use cp_frontend::refusal::Refusal;
use cp_model::rules::Violation;
use cp_model::tree::Tree;
use cp_rules::text::{RuleError, judge, violations};
use std::alloc::{AllocError, Global};

/// Why a text is refused, and the line of the object that has its violations.
#[derive(Drop)]
pub struct RefusedText {
    pub refusal: Refusal,
    pub page: Vec<u8>,
}

// The object of a text that breaks a rule.
fn of_broken(
    alloc: Global,
    file: &[u8],
    text: &[u8],
    tree: &Tree,
    violation: Violation,
) -> Result<RefusedText, AllocError>
    requires refused { RefusedWith text.now (refusal.Check violation.rule violation.at) }
    ensures { IfOk result (λ refused. IsRefusedText text.now refused.refusal refused.page.items) }
{
    let key = Key::of(tree);
    let list = violations(alloc, key, tree)?;
    let objects = violation_objects(alloc, key, text, tree, violation, &list)?;
    let object = RefusalObject::of(alloc, Mark::Verdict, file, objects, list.len())?;
    let page = object.line(alloc)?;
    let refusal = Refusal::from(violation);
    Ok(RefusedText { refusal, page })
}

fn of_tree(
    alloc: Global,
    file: &[u8],
    text: &[u8],
    tree: &Tree,
) -> Result<Option<RefusedText>, AllocError>
    requires text { IsTextOf text.now (view.tree tree.now) }
    ensures accepted { IfOk result (λ found. found ≡ None → Judges text.now None) }
    ensures refused { IfOk result (λ found. IfSome found
        (λ refused. IsRefusedText text.now refused.refusal refused.page.items)) }
{
    let key = Key::of(tree);
    match judge(alloc, key, tree) {
        Ok(()) => Ok(None),
        Err(RuleError::Broken(violation)) => {
            Ok(Some(of_broken(alloc, file, text, tree, violation)?))
        }
        Err(RuleError::Memory) => Err(AllocError),
    }
}

// The object of a text that has no tree.
fn of_refusal(
    alloc: Global,
    file: &[u8],
    text: &[u8],
    refusal: Refusal,
) -> Result<RefusedText, AllocError>
    requires refused { RefusedWith text.now refusal }
    ensures { IfOk result (λ refused. IsRefusedText text.now refused.refusal refused.page.items) }
{
    let objects = mistake_objects(alloc, text, refusal, Extent::All)?;
    let object = RefusalObject::of(alloc, Mark::Verdict, file, objects, 0)?;
    let page = object.line(alloc)?;
    Ok(RefusedText { refusal, page })
}

/// Why a text is refused, and the line of an object with all of its violations, as
/// `explain --json --all` has them. `None` if the text is accepted.
///
/// # Errors
///
/// `AllocError` if memory runs out.
pub fn refused_object(
    alloc: Global,
    file: &[u8],
    text: &[u8],
) -> Result<Option<RefusedText>, AllocError>
    ensures accepted { IfOk result (λ found. found ≡ None → Judges text.now None) }
    ensures refused { IfOk result (λ found. IfSome found
        (λ refused. IsRefusedText text.now refused.refusal refused.page.items)) }
{
    match tree_of(alloc, text) {
        Ok(tree) => of_tree(alloc, file, text, &tree),
        Err(Refusal::Memory) => Err(AllocError),
        Err(refusal) => Ok(Some(of_refusal(alloc, file, text, refusal)?)),
    }
}
