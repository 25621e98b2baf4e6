//! The explanation of a text as a JSON object, for programs.

ghost use Rattle.std.specs.Prelude.{◌≡◌, IfErr, IfOk, OnOk, Option};
ghost use Rattle.std.specs.Io.KnownBytes.{Keeps};
ghost use Rattle.cp_model.specs.View as view;
ghost use Rattle.cp_frontend.specs.KnownRefusals.{IsBeforeWriting, IsFault};
ghost use Rattle.cp_frontend.specs.Texts.{IsTextOf};
ghost use Rattle.cp_frontend.specs.declared.refusal.Refusal.{Refusal};
ghost use Rattle.cp_frontend.specs.declared.refusal.Refusal.TheVariants as refusal;
ghost use Rattle.cp_explain.specs.Explained.{IsOfText, RefusedWith};
ghost use Rattle.cp_explain.specs.Objects.{FirstIs, IsObjectOf, IsViolationOf, WroteObject, WroteObjectPart};

use crate::accepted_object::AcceptedObject;
use crate::all::most;
use crate::explain::{Explanation, place, read};
use crate::refusal_objects::{Mark, RefusalObject, ViolationObject};
use crate::reported::{later_mistakes, of_no_tree, refusal_of};
use cp_base_config::explaining::Extent;
use cp_base_names::Key;
use cp_explain_rules::of_violation;
use cp_frontend::checking::tree_of;
use cp_frontend::refusal::Refusal;
use cp_frontend::writing::write_result;
use cp_model::rules::Violation;
use cp_model::tree::Tree;
use cp_rules::text::{RuleError, judge, violations};
use std::alloc::{AllocError, Global};
use std::io::{Read, Write};

// A violation of a text that has a tree.
fn of_rule(
    alloc: Global,
    key: Key,
    text: &[u8],
    tree: &Tree,
    violation: Violation,
) -> Result<ViolationObject, AllocError>
    ensures { IfOk result
        (IsViolationOf text.now (refusal.Check violation.rule violation.at)) }
{
    let reported = of_violation(alloc, key, text, tree, violation)?;
    ViolationObject::of(alloc, text, &Refusal::from(violation), &reported)
}

/// The violations that are reported of a text: the first, and then those after it in the list of
/// all. Fails only if memory runs out.
pub(crate) fn violation_objects(
    alloc: Global,
    key: Key,
    text: &[u8],
    tree: &Tree,
    first: Violation,
    list: &[Violation],
) -> Result<Vec<ViolationObject>, AllocError>
    ensures { IfOk result
        (λ all. FirstIs text.now (refusal.Check first.rule first.at) all.items) }
{
    let mut all = Vec::new(alloc);
    all.push(of_rule(alloc, key, text, tree, first)?)?;
    for violation in list.iter().take(most(text)).skip(1) {
        all.push(of_rule(alloc, key, text, tree, *violation)?)?;
    }
    Ok(all)
}

// The first violation, or all of them.
fn violations_of(
    alloc: Global,
    key: Key,
    tree: &Tree,
    first: Violation,
    extent: Extent,
) -> Result<Vec<Violation>, AllocError> {
    match extent {
        Extent::First => Vec::from_slice(alloc, &[first]),
        Extent::All => violations(alloc, key, tree),
    }
}

// Explains a text that breaks a rule.
fn of_broken(
    alloc: Global,
    file: &[u8],
    text: &[u8],
    tree: &Tree,
    violation: Violation,
    extent: Extent,
) -> Result<Explanation, AllocError>
    requires refused { RefusedWith text.now (refusal.Check violation.rule violation.at) }
    ensures { IfOk result (λ e. IsObjectOf text.now e.refusal e.page.items) }
{
    let key = Key::of(tree);
    let list = violations_of(alloc, key, tree, violation, extent)?;
    let objects = violation_objects(alloc, key, text, tree, violation, &list)?;
    let object = RefusalObject::of(alloc, Mark::Accepted, file, objects, list.len())?;
    let page = object.line(alloc)?;
    let refusal = Some(Refusal::from(violation));
    Ok(Explanation { page, refusal })
}

fn of_tree(
    alloc: Global,
    file: &[u8],
    text: &[u8],
    tree: &Tree,
    extent: Extent,
) -> Result<Explanation, AllocError>
    requires text { IsTextOf text.now (view.tree tree.now) }
    ensures { IfOk result (λ e. IsObjectOf text.now e.refusal e.page.items) }
{
    let key = Key::of(tree);
    match judge(alloc, key, tree) {
        Ok(()) => {
            let page = AcceptedObject::of(alloc, key, file, text, tree)?.line(alloc)?;
            Ok(Explanation {
                page,
                refusal: None,
            })
        }
        Err(RuleError::Broken(violation)) => of_broken(alloc, file, text, tree, violation, extent),
        Err(RuleError::Memory) => Err(AllocError),
    }
}

// Adds the syntax errors of a text after the first one, if all are to be reported.
fn push_later(
    alloc: Global,
    all: &mut Vec<ViolationObject>,
    text: &[u8],
    refusal: Refusal,
    extent: Extent,
) -> Result<(), AllocError>
    ensures { (e : Refusal) → FirstIs text.now e all.old.items
        → OnOk result (FirstIs text.now e all.new.items) }
{
    if extent != Extent::All {
        return Ok(());
    }
    for mistake in later_mistakes(alloc, text, refusal)? {
        let later = refusal_of(&mistake);
        let reported = mistake.page.finish()?;
        all.push(ViolationObject::of(alloc, text, &later, &reported)?)?;
    }
    Ok(())
}

/// Why a text has no tree: the first reason, or all of its syntax errors. Fails only if memory runs
/// out.
pub(crate) fn mistake_objects(
    alloc: Global,
    text: &[u8],
    refusal: Refusal,
    extent: Extent,
) -> Result<Vec<ViolationObject>, AllocError>
    ensures { IfOk result (λ all. FirstIs text.now refusal all.items) }
{
    let reported = of_no_tree(alloc, text, place(&refusal), refusal)?.finish()?;
    let mut all = Vec::new(alloc);
    all.push(ViolationObject::of(alloc, text, &refusal, &reported)?)?;
    push_later(alloc, &mut all, text, refusal, extent)?;
    Ok(all)
}

// Explains a text that has no tree.
fn of_refusal(
    alloc: Global,
    file: &[u8],
    text: &[u8],
    refusal: Refusal,
    extent: Extent,
) -> Result<Explanation, AllocError>
    requires refused { RefusedWith text.now refusal }
    ensures { IfOk result (λ e. IsObjectOf text.now e.refusal e.page.items) }
{
    let objects = mistake_objects(alloc, text, refusal, extent)?;
    let object = RefusalObject::of(alloc, Mark::Accepted, file, objects, 0)?;
    let page = object.line(alloc)?;
    let refusal = Some(refusal);
    Ok(Explanation { page, refusal })
}

/// Explains a text by an object: the notes on it and its access graph if it is accepted, or else
/// the first violation or all of them. Fails only if memory runs out.
pub fn object(
    alloc: Global,
    file: &[u8],
    text: &[u8],
    extent: Extent,
) -> Result<Explanation, AllocError>
    ensures { IfOk result (λ e. IsObjectOf text.now e.refusal e.page.items) }
{
    match tree_of(alloc, text) {
        Ok(tree) => of_tree(alloc, file, text, &tree, extent),
        Err(Refusal::Memory) => Err(AllocError),
        Err(refusal) => of_refusal(alloc, file, text, refusal, extent),
    }
}

/// Explains the text of a reader by a line with an object, and returns why it is refused.
///
/// # Errors
///
/// I1 if a read fails, M if memory runs out, and I2 if a write fails. After I1 and M nothing has
/// been written.
#[tactic(auto, using(crate::proofs::About::of_object))]
pub fn explain_object<R: Read, W: Write>(
    alloc: Global,
    file: &[u8],
    text: &mut R,
    extent: Extent,
    out: &mut W,
) -> Result<Option<Refusal>, Refusal>
    ensures about { IfOk result IsOfText }
    ensures explains { IfOk result
        (λ e. WroteObject (R.remaining text.old) e (W.contents out.old) (W.contents out.new)) }
    ensures unwritten { IfErr result
        (λ e. IsBeforeWriting e
        → Keeps (W.contents out.old) (W.contents out.new)) }
    ensures part { IfErr result
        (λ e. e ≡ refusal.Write
        → (why : Option Refusal)
        × WroteObjectPart (R.remaining text.old) why (W.contents out.old) (W.contents out.new)) }
    ensures fault { IfErr result IsFault }
{
    let bytes = read(alloc, text)?;
    let Explanation { page, refusal } = object(alloc, file, &bytes, extent)?;
    write_result(out, &page)?;
    Ok(refusal)
}
