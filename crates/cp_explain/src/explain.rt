//! The explanation of a text: the judgement of `check`, written for people
//! (`specs/Explained.antt`).

ghost use Rattle.std.specs.Prelude.{◌≡◌, ◌++◌, IfErr, IfOk, IfSome, OnOk, Option, Some};
ghost use Rattle.std.specs.Io.KnownBytes.{Keeps};
ghost use Rattle.cp_model.specs.View as view;
ghost use Rattle.cp_frontend.specs.KnownRefusals.{IsBeforeWriting, IsFault};
ghost use Rattle.cp_frontend.specs.Takings.{front};
ghost use Rattle.cp_frontend.specs.Texts.{IsTextOf, Refuses};
ghost use Rattle.cp_frontend.specs.declared.refusal.Refusal.TheVariants as refusal;
ghost use Rattle.cp_frontend.specs.declared.refusal.Refusal.{Refusal};
ghost use Rattle.cp_explain.specs.Explained.{Begins, Drew, DrewPart, Explains, IsOfText, Wrote, WrotePart, code_of, heading, place_of};

use crate::all::of_all;
use crate::lacking::push_lacking;
use crate::reported::{later_mistakes, of_no_tree, refusal_of};
use cp_base_config::explaining::{Extent, Form};
use cp_base_digits::decimal::push_natural;
use cp_base_names::Key;
use cp_explain_notes::add_notes;
use cp_explain_rights::graph::graph;
use cp_explain_rules::of_violation;
use cp_frontend::checking::tree_of;
use cp_frontend::reading::read_text;
use cp_frontend::refusal::{Refusal, scan_number};
use cp_frontend::writing::write_result;
use cp_model::rules::Violation;
use cp_model::tree::Tree;
use cp_output::page::Page;
use cp_output::position::Position;
use cp_rules::text::{RuleError, judge};
use std::alloc::{AllocError, Global};
use std::io::{Read, Write};

/// The explanation of a text, and why it is refused, unless it is accepted.
#[derive(Drop)]
pub struct Explanation {
    pub(crate) page: Vec<u8>,
    pub(crate) refusal: Option<Refusal>,
}

/// A text that has a tree, its file, and the key of its names.
#[derive(Clone, Copy)]
pub(crate) struct Source<'a> {
    pub(crate) key: Key,
    pub(crate) file: &'a [u8],
    pub(crate) text: &'a [u8],
    pub(crate) tree: &'a Tree,
}

/// The place at which a text is refused.
pub(crate) fn place(refusal: &Refusal) -> usize
    ensures { result ≡ place_of refusal.now }
{
    match refusal {
        Refusal::Scan { at, .. }
        | Refusal::Unexpected { at }
        | Refusal::Unfinished { at }
        | Refusal::TooDeep { at }
        | Refusal::Check { at, .. } => *at,
        _ => 0,
    }
}

/// Adds the letter and the number of a refusal. Fails only if memory runs out.
pub(crate) fn push_code(page: &mut Vec<u8>, refusal: &Refusal) -> Result<(), AllocError>
    ensures { OnOk result (page.new.items ≡ page.old.items ++ code_of refusal.now) }
{
    match refusal {
        Refusal::Scan { cause, .. } => {
            page.extend_from_slice(b"S")?;
            push_natural(page, u64::from(scan_number(*cause)))
        }
        Refusal::Unexpected { .. } => page.extend_from_slice(b"Y1"),
        Refusal::Unfinished { .. } => page.extend_from_slice(b"Y2"),
        Refusal::TooDeep { .. } => page.extend_from_slice(b"Y3"),
        Refusal::Check { rule, .. } => {
            page.extend_from_slice(b"C")?;
            push_natural(page, u64::from(rule.number()))
        }
        _ => Ok(()),
    }
}

/// The start of the first line of an explanation: the file, the position, and the code of the
/// refusal. Fails only if memory runs out.
pub(crate) fn heading_of(
    alloc: Global,
    file: &[u8],
    text: &[u8],
    refusal: &Refusal,
) -> Result<Vec<u8>, AllocError>
    ensures { IfOk result (λ page. page.items ≡ heading file.now text.now refusal.now) }
{
    let position = Position::of(text, place(refusal));
    let mut page = Vec::from_slice(alloc, file)?;
    page.extend_from_slice(b":")?;
    push_natural(&mut page, position.line as u64)?;
    page.extend_from_slice(b":")?;
    push_natural(&mut page, position.column as u64)?;
    page.extend_from_slice(b": ")?;
    push_code(&mut page, refusal)?;
    page.extend_from_slice(b": ")?;
    Ok(page)
}

// The explanation of a refusal: its heading, and then `reported`.
fn explain_refusal(
    alloc: Global,
    file: &[u8],
    text: &[u8],
    refusal: Refusal,
    reported: &[u8],
) -> Result<Explanation, AllocError>
    ensures refusal { IfOk result (λ e. e.refusal ≡ Some refusal) }
    ensures heading { IfOk result (λ e. Begins (heading file.now text.now refusal) e.page.items) }
{
    let mut page = heading_of(alloc, file, text, &refusal)?;
    page.extend_from_slice(reported)?;
    Ok(Explanation {
        page,
        refusal: Some(refusal),
    })
}

// What is reported of a text that breaks a rule, after the first heading.
fn reported_of_tree(
    alloc: Global,
    source: &Source<'_>,
    violation: Violation,
    extent: Extent,
) -> Result<Vec<u8>, AllocError> {
    match extent {
        Extent::First => of_violation(alloc, source.key, source.text, source.tree, violation),
        Extent::All => of_all(alloc, source),
    }
}

// Adds the syntax errors of a text after the first one, and the number of all.
fn push_later(
    alloc: Global,
    page: &mut Page,
    file: &[u8],
    text: &[u8],
    refusal: Refusal,
) -> Result<(), AllocError> {
    let later = later_mistakes(alloc, text, refusal)?;
    let count = later.len().saturating_add(1);
    for mistake in later {
        page.bytes(&heading_of(alloc, file, text, &refusal_of(&mistake))?);
        page.bytes(&mistake.page.finish()?);
    }
    if 1 < count {
        page.number(count);
        page.text(" syntax errors\n");
    }
    Ok(())
}

// What is reported of a text that has no tree, after the heading.
fn reported_of_no_tree(
    alloc: Global,
    file: &[u8],
    text: &[u8],
    refusal: Refusal,
    extent: Extent,
) -> Result<Vec<u8>, AllocError> {
    let mut page = of_no_tree(alloc, text, place(&refusal), refusal)?;
    if extent == Extent::All {
        push_later(alloc, &mut page, file, text, refusal)?;
        push_lacking(&mut page, text);
    }
    page.finish()
}

fn of_tree(
    alloc: Global,
    file: &[u8],
    text: &[u8],
    tree: &Tree,
    form: Form,
    extent: Extent,
) -> Result<Explanation, AllocError>
    requires text { IsTextOf text.now (view.tree tree.now) }
    ensures { IfOk result (λ e. Explains file.now text.now e.refusal e.page.items) }
{
    let key = Key::of(tree);
    match judge(alloc, key, tree) {
        Ok(()) => {
            let mut page = graph(alloc, key, tree, form)?;
            if form == Form::Lines {
                add_notes(alloc, key, &mut page, file, text, tree)?;
            }
            Ok(Explanation {
                page: page.finish()?,
                refusal: None,
            })
        }
        Err(RuleError::Broken(violation)) => {
            let source = Source {
                key,
                file,
                text,
                tree,
            };
            let reported = reported_of_tree(alloc, &source, violation, extent)?;
            explain_refusal(alloc, file, text, Refusal::from(violation), &reported)
        }
        Err(RuleError::Memory) => Err(AllocError),
    }
}

/// Explains a text: by the access graph if it is accepted, or else by as many of its violations as
/// `extent` says.
/// Fails only if memory runs out.
pub fn explain(
    alloc: Global,
    file: &[u8],
    text: &[u8],
    form: Form,
    extent: Extent,
) -> Result<Explanation, AllocError>
    ensures { IfOk result (λ e. Explains file.now text.now e.refusal e.page.items) }
{
    match tree_of(alloc, text) {
        Ok(tree) => of_tree(alloc, file, text, &tree, form, extent),
        Err(Refusal::Memory) => Err(AllocError),
        Err(refusal) => {
            let reported = reported_of_no_tree(alloc, file, text, refusal, extent)?;
            explain_refusal(alloc, file, text, refusal, &reported)
        }
    }
}

/// Reads the bytes of a text.
///
/// # Errors
///
/// I1 if a read fails, M if memory runs out.
pub(crate) fn read<R: Read>(alloc: Global, text: &mut R) -> Result<Vec<u8>, Refusal>
    ensures bytes { IfOk result
        (λ bytes. IfSome (R.remaining text.old)
        (λ xs. bytes.items ≡ front xs)) }
    ensures fault { IfErr result IsFault }
    ensures unwritten { IfErr result IsBeforeWriting }
{
    Ok(read_text(alloc, text)?)
}

/// Draws the access graph of the text of a reader, or explains why it is refused. The graph goes to
/// `out`, as a graph for Graphviz, and an explanation to `errors`. Returns why the text is refused,
/// unless it is accepted.
///
/// # Errors
///
/// I1 if a read fails, M if memory runs out, and I2 if a write fails. After I1 and M nothing has
/// been written.
#[tactic(auto, using(crate::proofs::About::of_page))]
pub fn draw_text<R: Read, W: Write, E: Write>(
    alloc: Global,
    file: &[u8],
    text: &mut R,
    out: &mut W,
    errors: &mut E,
) -> Result<Option<Refusal>, Refusal>
    ensures about { IfOk result IsOfText }
    ensures draws { IfOk result
        (λ e. Drew file.now (R.remaining text.old) e (W.contents out.old) (W.contents out.new)
        (E.contents errors.old) (E.contents errors.new)) }
    ensures unwritten { IfErr result
        (λ e. IsBeforeWriting e
        → Keeps (W.contents out.old) (W.contents out.new)
        × Keeps (E.contents errors.old) (E.contents errors.new)) }
    ensures part { IfErr result
        (λ e. e ≡ refusal.Write
        → (why : Option Refusal)
        × DrewPart file.now (R.remaining text.old) why (W.contents out.old) (W.contents out.new)
        (E.contents errors.old) (E.contents errors.new)) }
    ensures fault { IfErr result IsFault }
{
    let bytes = read(alloc, text)?;
    let Explanation { page, refusal } = explain(alloc, file, &bytes, Form::Dot, Extent::First)?;
    match refusal {
        None => write_result(out, &page)?,
        Some(_) => write_result(errors, &page)?,
    }
    Ok(refusal)
}

// Explains the text of a reader, with as many violations as `extent` says.
#[tactic(auto, using(crate::proofs::About::of_page))]
fn explain_to<R: Read, W: Write>(
    alloc: Global,
    file: &[u8],
    text: &mut R,
    form: Form,
    extent: Extent,
    out: &mut W,
) -> Result<Option<Refusal>, Refusal>
    ensures about { IfOk result IsOfText }
    ensures explains { IfOk result
        (λ e. Wrote file.now (R.remaining text.old) e (W.contents out.old) (W.contents out.new)) }
    ensures unwritten { IfErr result
        (λ e. IsBeforeWriting e
        → Keeps (W.contents out.old) (W.contents out.new)) }
    ensures part { IfErr result
        (λ e. e ≡ refusal.Write
        → (why : Option Refusal)
        × WrotePart file.now (R.remaining text.old) why (W.contents out.old) (W.contents out.new)) }
    ensures fault { IfErr result IsFault }
{
    let bytes = read(alloc, text)?;
    let Explanation { page, refusal } = explain(alloc, file, &bytes, form, extent)?;
    write_result(out, &page)?;
    Ok(refusal)
}

/// Explains the text of a reader, and returns why it is refused, unless it is accepted.
///
/// # Errors
///
/// I1 if a read fails, M if memory runs out, and I2 if a write fails. After I1 and M nothing has
/// been written.
pub fn explain_text<R: Read, W: Write>(
    alloc: Global,
    file: &[u8],
    text: &mut R,
    form: Form,
    out: &mut W,
) -> Result<Option<Refusal>, Refusal>
    ensures about { IfOk result IsOfText }
    ensures explains { IfOk result
        (λ e. Wrote file.now (R.remaining text.old) e (W.contents out.old) (W.contents out.new)) }
    ensures unwritten { IfErr result
        (λ e. IsBeforeWriting e
        → Keeps (W.contents out.old) (W.contents out.new)) }
    ensures part { IfErr result
        (λ e. e ≡ refusal.Write
        → (why : Option Refusal)
        × WrotePart file.now (R.remaining text.old) why (W.contents out.old) (W.contents out.new)) }
    ensures fault { IfErr result IsFault }
{
    explain_to(alloc, file, text, form, Extent::First, out)
}

/// Reports all violations of the text of a reader, and if it has no tree, what an old text uses
/// that this language hasn't. Returns why the text is refused, unless it is accepted.
///
/// # Errors
///
/// I1 if a read fails, M if memory runs out, and I2 if a write fails. After I1 and M nothing has
/// been written.
pub fn explain_all_text<R: Read, W: Write>(
    alloc: Global,
    file: &[u8],
    text: &mut R,
    out: &mut W,
) -> Result<Option<Refusal>, Refusal>
    ensures about { IfOk result IsOfText }
    ensures explains { IfOk result
        (λ e. Wrote file.now (R.remaining text.old) e (W.contents out.old) (W.contents out.new)) }
    ensures unwritten { IfErr result
        (λ e. IsBeforeWriting e
        → Keeps (W.contents out.old) (W.contents out.new)) }
    ensures part { IfErr result
        (λ e. e ≡ refusal.Write
        → (why : Option Refusal)
        × WrotePart file.now (R.remaining text.old) why (W.contents out.old) (W.contents out.new)) }
    ensures fault { IfErr result IsFault }
{
    explain_to(alloc, file, text, Form::Lines, Extent::All, out)
}
