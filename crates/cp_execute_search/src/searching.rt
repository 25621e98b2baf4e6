//! Searching the program of an accepted text: from its inputs to what was found.

ghost use Rattle.std.specs.Prelude.{◌≡◌, IfErr, IfOk, true};
ghost use Rattle.cp_model.specs.Rules.{Accepted};
ghost use Rattle.cp_model.specs.View as view;
ghost use Rattle.cp_check.specs.Checked.{IsProgramOf};
ghost use Rattle.cp_frontend.specs.Inputs.{inputs_of};
ghost use Rattle.cp_frontend.specs.declared.refusal.Refusal.TheVariants as refusal;
ghost use Rattle.cp_execute_search.specs.Certificates.{IsCertified, IsShown};
ghost use Rattle.cp_execute_search.specs.Searches.{FoundNothing, IsFoundIn, IsSearchOf, IsWritten};
ghost use Rattle.cp_execute_search.specs.declared.verdict.SearchVerdict.TheVariants as verdicts;
ghost use Rattle.cp_outcome_schedule.specs.declared.findings.Finding.TheVariants as variants;

use crate::certifying::certify;
use crate::form::page_of;
use crate::kind::Kind;
use crate::seeing::{Seen, see};
use crate::verdict::SearchVerdict;
use cp_base_config::search::Searching;
use cp_check::checking::{CompiledText, compile_accepted};
use cp_frontend::inputs::ProcessInputs;
use cp_frontend::refusal::Refusal;
use cp_frontend::sources::AcceptedText;
use cp_outcome_schedule::findings::{Finding, Findings, Subject};
use cp_search::notes::Stop;
use cp_search::search::Watch;
use cp_search_schedule::recording::Recorded;
use std::alloc::{AllocError, Global};
use std::thread::Threads;

/// What a search has found, the verdict on it, and the text that reports both.
#[derive(Drop)]
pub struct Reported {
    pub verdict: SearchVerdict,
    pub findings: Findings,
    pub page: Vec<u8>,
}

// What was found of a kind, after a replay of its schedule.
fn finding_of(
    alloc: Global,
    text: &AcceptedText,
    inputs: &ProcessInputs,
    recorded: Option<Recorded>,
    servers: &[u32],
    kind: Kind,
) -> Result<Finding, AllocError>
    requires accepted { Accepted (view.tree text.now.tree) }
    ensures certified { IfOk result
        (IsCertified kind servers.now (view.tree text.now.tree) (inputs_of inputs.now)) }
    ensures none { IfOk result (λ found. found ≡ variants.None → recorded ≡ None) }
{
    match recorded {
        None => Ok(Finding::None),
        Some(Recorded::TooLong) => Ok(Finding::TooLong),
        Some(Recorded::Schedule(schedule)) => certify(alloc, text, inputs, schedule, servers, kind),
    }
}

// What was found of all that was seen.
fn findings_of(
    alloc: Global,
    text: &AcceptedText,
    inputs: &ProcessInputs,
    servers: &[u32],
    seen: Seen,
) -> Result<Findings, AllocError>
    requires accepted { Accepted (view.tree text.now.tree) }
    ensures { IfOk result
        (IsFoundIn servers.now (view.tree text.now.tree) (inputs_of inputs.now) seen) }
{
    Ok(Findings {
        stuck: finding_of(alloc, text, inputs, seen.stuck, servers, Kind::Stuck)?,
        fault: finding_of(alloc, text, inputs, seen.fault, servers, Kind::Fault)?,
        has_ended: seen.has_ended,
        states: seen.states,
        transitions: seen.transitions,
        stop: seen.stop,
    })
}

fn is_shown(finding: &Finding) -> bool
    ensures { result ≡ true → IsShown finding.now }
{
    matches!(finding, Finding::Schedule(_))
}

fn is_none(finding: &Finding) -> bool
    ensures { result ≡ true → finding.now ≡ variants.None }
{
    matches!(finding, Finding::None)
}

fn has_defect(findings: &Findings) -> bool {
    findings.stuck.is_defect()
        || findings.fault.is_defect()
        || matches!(findings.stop, Some(Stop::Defect))
}

fn found_nothing(findings: &Findings) -> bool
    ensures { result ≡ true → FoundNothing findings.now }
{
    is_none(&findings.stuck) && is_none(&findings.fault) && findings.stop.is_none()
}

// The verdict on what was found.
fn verdict_of(findings: &Findings) -> SearchVerdict
    ensures fine { result ≡ verdicts.Fine → FoundNothing findings.now }
    ensures stuck { result ≡ verdicts.Stuck → IsShown findings.now.stuck }
    ensures fault { result ≡ verdicts.Fault → IsShown findings.now.fault }
{
    if has_defect(findings) {
        SearchVerdict::Defect
    } else if is_shown(&findings.fault) {
        SearchVerdict::Fault
    } else if is_shown(&findings.stuck) {
        SearchVerdict::Stuck
    } else if found_nothing(findings) {
        SearchVerdict::Fine
    } else {
        SearchVerdict::Running
    }
}

// Searches the program of a text.
fn search_compiled<R: Threads + Sync, V: Watch>(
    rt: &R,
    alloc: Global,
    text: &AcceptedText,
    compiled: &CompiledText<'_>,
    inputs: &ProcessInputs,
    servers: &[u32],
    how: Searching,
    workers: u32,
    watch: &V,
) -> Result<Reported, AllocError>
    requires accepted { Accepted (view.tree text.now.tree) }
    requires program { IsProgramOf (view.tree text.now.tree) compiled.now.program }
    ensures search { IfOk result (λ reported. IsSearchOf servers.now (view.tree text.now.tree)
        (inputs_of inputs.now) reported.verdict reported.findings) }
    ensures page { IfOk result (λ reported. IsWritten how.form reported.page.items) }
{
    let seen = see(
        rt,
        alloc,
        &compiled.program,
        inputs,
        servers,
        how,
        workers,
        watch,
    )?;
    let findings = findings_of(alloc, text, inputs, servers, seen)?;
    let verdict = verdict_of(&findings);
    let subject = Subject {
        bytes: &text.bytes,
        tree: &text.tree,
        tables: &compiled.tables,
        program: &compiled.program,
        servers,
    };
    let page = page_of(alloc, subject, &findings, verdict, how)?;
    Ok(Reported {
        verdict,
        findings,
        page,
    })
}

/// Searches the program of an accepted text, whose processes read these inputs, by so many threads.
/// What it finds doesn't depend on how many there are. The servers, by their numbers, may wait
/// forever.
///
/// # Errors
///
/// M if memory runs out.
pub fn search_text<R: Threads + Sync, V: Watch>(
    rt: &R,
    alloc: Global,
    text: &AcceptedText,
    inputs: &ProcessInputs,
    servers: &[u32],
    how: Searching,
    workers: u32,
    watch: &V,
) -> Result<Reported, Refusal>
    requires accepted { Accepted (view.tree text.now.tree) }
    ensures search { IfOk result (λ reported. IsSearchOf servers.now (view.tree text.now.tree)
        (inputs_of inputs.now) reported.verdict reported.findings) }
    ensures page { IfOk result (λ reported. IsWritten how.form reported.page.items) }
    ensures memory { IfErr result (λ e. e ≡ refusal.Memory) }
{
    let compiled = compile_accepted(alloc, text.key, &text.tree)?;
    let reported = search_compiled(
        rt, alloc, text, &compiled, inputs, servers, how, workers, watch,
    )?;
    Ok(reported)
}
