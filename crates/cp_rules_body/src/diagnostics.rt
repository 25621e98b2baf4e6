//! What is reported while a part of a text is judged: violations. The earliest is the first by its
//! place in the text, and at one place the one with the lowest number of the rule.

ghost use Rattle.std.specs.Prelude.{◌≡◌, IfOk, None, OnOk, slice_get};
ghost use Rattle.cp_model.specs.RulesJudged.{breaks, earlier, is_before, unless};
ghost use Rattle.cp_rules_body.specs.Reports.{Reports, ReportsFirst, ReportsOf, with_part};

use cp_model::rules::{Rule, Violation};
use std::alloc::{AllocError, Global};
use std::marker::Model;

// The violations that are kept in addition to the earliest.
#[derive(Drop)]
enum Kept {
    None,
    All(Vec<Violation>),
    // Memory ran out for one of them.
    Lost,
}

/// The violations that were reported. Contracts see the earliest.
///
/// `Diagnostics::earliest` keeps no other and takes no memory. `Diagnostics::all` lists them too,
/// each as often as it was reported.
#[derive(Drop)]
pub struct Diagnostics {
    earliest: Option<Violation>,
    kept: Kept,
}

impl Model for Diagnostics {
    ghost use Rattle.std.specs.Prelude.{Option};
    ghost use Rattle.cp_model.specs.declared.rules.Violation.{Violation};

    ghost Value = { Option Violation };

    ghost view = { λ t. t.earliest };
}

impl Diagnostics {
    /// Diagnostics without a violation. Only the earliest will be kept.
    pub fn earliest() -> Diagnostics
        ensures { result ≡ None }
    {
        Diagnostics {
            earliest: None,
            kept: Kept::None,
        }
    }

    /// Diagnostics without a violation. All of them will be listed.
    pub fn all(alloc: Global) -> Diagnostics
        ensures { result ≡ None }
    {
        Diagnostics {
            earliest: None,
            kept: Kept::All(Vec::new(alloc)),
        }
    }

    /// The earliest violation.
    pub fn first(&self) -> Option<Violation>
        ensures { result ≡ self.now }
    {
        self.earliest
    }

    /// Whether all violations are listed, and not only the earliest is kept.
    pub fn lists_all(&self) -> bool {
        !matches!(&self.kept, Kept::None)
    }

    /// Diagnostics for a part, which keep as much as these. Nothing is reported there yet.
    pub fn part(&self, alloc: Global) -> Diagnostics
        ensures { result ≡ None }
    {
        match self.kept {
            Kept::None => Diagnostics::earliest(),
            _ => Diagnostics::all(alloc),
        }
    }

    // Lists a violation, if violations are listed.
    fn list(&mut self, violation: Violation)
        ensures { self.new ≡ self.old }
    {
        if let Kept::All(list) = &mut self.kept {
            if list.push(violation).is_err() {
                self.kept = Kept::Lost;
            }
        }
    }

    // Lists what a part has listed, if violations are listed.
    fn list_part(&mut self, part: &Kept)
        ensures { self.new ≡ self.old }
    {
        if let Kept::All(list) = &mut self.kept {
            let is_kept = match part {
                Kept::None => true,
                Kept::All(inside) => list.extend_from_slice(inside.as_slice()).is_ok(),
                Kept::Lost => false,
            };
            if !is_kept {
                self.kept = Kept::Lost;
            }
        }
    }

    // Keeps a violation if it is the earliest.
    fn keep(&mut self, violation: Violation)
        ensures { self.new ≡ earlier self.old violation }
    {
        let is_earlier = match self.earliest {
            None => true,
            Some(w) => is_before(violation, w),
        };
        if is_earlier {
            self.earliest = Some(violation);
        }
    }

    /// Reports all that was reported of a part.
    pub fn report_part(&mut self, part: Diagnostics)
        ensures { self.new ≡ with_part self.old part }
    {
        let Diagnostics { earliest, kept } = part;
        self.list_part(&kept);
        if let Some(violation) = earliest {
            self.keep(violation);
        }
    }

    /// The violations that are kept, in the order of their places, and of several at one place by
    /// the number of the rule. None is listed twice.
    ///
    /// # Errors
    ///
    /// `AllocError` if memory runs out, or has run out for one of the violations.
    pub fn into_list(self, alloc: Global) -> Result<Vec<Violation>, AllocError>
        ensures { IfOk result (λ list. slice_get list.items 0 ≡ self) }
    {
        let Diagnostics { earliest, kept } = self;
        let mut list = Vec::new(alloc);
        if let Some(violation) = earliest {
            list.push(violation)?;
        }
        for violation in kept.in_order(alloc)? {
            push_later(&mut list, violation)?;
        }
        Ok(list)
    }
}

impl Kept {
    // The violations in the order of their places and rules, each as often as it was reported.
    fn in_order(self, alloc: Global) -> Result<Vec<Violation>, AllocError> {
        match self {
            Kept::None => Ok(Vec::new(alloc)),
            Kept::All(mut list) => {
                list.sort_by_key(|violation| (violation.at, violation.rule.number()))?;
                Ok(list)
            }
            Kept::Lost => Err(AllocError),
        }
    }
}

/// Whether a violation comes before another one: by its place, and at one place by the number of
/// the rule.
pub fn is_before(violation: Violation, other: Violation) -> bool
    ensures { result ≡ is_before violation other }
{
    violation.at < other.at
        || (violation.at == other.at && violation.rule.number() < other.rule.number())
}

// Adds a violation to a list that begins with an earlier one, if it comes after the last.
fn push_later(list: &mut Vec<Violation>, violation: Violation) -> Result<(), AllocError>
    ensures { OnOk result (slice_get list.new.items 0 ≡ slice_get list.old.items 0) }
{
    match list.last() {
        Some(last) if is_before(*last, violation) => list.push(violation)?,
        _ => {}
    }
    Ok(())
}

/// Reports a violation.
pub fn report(diagnostics: &mut Diagnostics, violation: Violation)
    ensures { diagnostics.new ≡ earlier diagnostics.old violation }
{
    diagnostics.list(violation);
    diagnostics.keep(violation);
}

/// Reports that a rule is broken at a place, and returns `None`.
pub fn report_violation<A>(diagnostics: &mut Diagnostics, rule: Rule, at: usize) -> Option<A>
    ensures { Reports diagnostics.old diagnostics.new result (breaks rule at) }
{
    report(diagnostics, Violation { rule, at });
    None
}

/// Reports that a rule is broken at a place, and returns that violation.
pub fn fail_with_violation<A>(
    diagnostics: &mut Diagnostics,
    rule: Rule,
    at: usize,
) -> Result<A, Violation>
    ensures { ReportsFirst diagnostics.old diagnostics.new result (breaks rule at) }
{
    let violation = Violation { rule, at };
    report(diagnostics, violation);
    Err(violation)
}

/// Reports that a rule is broken at a place unless `holds` is true, and returns `holds`.
pub fn unless_holds(diagnostics: &mut Diagnostics, holds: bool, rule: Rule, at: usize) -> bool
    ensures { ReportsOf diagnostics.old diagnostics.new result (unless holds rule at) }
{
    if !holds {
        report(diagnostics, Violation { rule, at });
    }
    holds
}

/// The answer if nothing else is broken.
pub fn answer_if<A: Copy>(sound: bool, answer: Option<A>) -> Option<A>
    ensures { result ≡ Rattle.cp_rules_body.specs.Reports.answer_if sound answer }
{
    if sound { answer } else { None }
}
