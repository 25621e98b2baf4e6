//! The labels of a `case`.

ghost use Rattle.std.specs.Prelude.{◌≡◌, ◌++◌, [], ◌∷◌, IfOk, OnOk, map, not, Option, None, Some, Decides};
ghost use Rattle.std.specs.List.Sorted.{IsSorted};
ghost use Rattle.std.specs.Ordering.{int_cmp};
ghost use Rattle.cp_model.specs.RulesJudged.{least, then_judge, guard, violations_of};
ghost use Rattle.cp_model.specs.RulesStatements as st;
ghost use Rattle.cp_model.specs.RulesTypes as types;
ghost use Rattle.cp_model.specs.declared.rules.Rule.TheVariants as rules;
ghost use Rattle.cp_rules_body.specs.Labels as spec;
ghost use Rattle.cp_rules_body.specs.Reports.{Reports, ReportsOf};

use crate::constants::{constant, constant_at};
use crate::diagnostics::{Diagnostics, answer_if, report_violation, unless_holds};
use crate::environment::Environment;
use cp_model::rules::Rule;
use cp_model::tree::Constant;
use std::alloc::{AllocError, Global};
use std::collections::BTreeSet;
use std::marker::Model;

/// The labels of one `case` so far: the base type and the ordinal of each. Contracts see them in
/// any order.
#[derive(Drop)]
pub struct Labels {
    // Most labels have one base type and come in ascending order, which costs least.
    base: usize,
    ascending: Vec<i32>,
    // The labels of other base types, and those that came out of order.
    others: BTreeSet<(usize, i32)>,
}

impl Model for Labels {
    ghost Value = { spec.Labels };

    ghost view = { λ s. spec.labels_of s.base s.ascending.items ++ s.others.keys };

    ghost invariant = { λ s. IsSorted int_cmp s.ascending.items
        × spec.NoneGreater s.base s.ascending.items s.others.keys };
}

impl Labels {
    /// An empty set of labels. It is fastest for ascending labels of the base type
    /// `base`.
    pub fn new(alloc: Global, base: usize) -> Labels
        ensures { result ≡ spec.no_labels }
    {
        Labels {
            base,
            ascending: Vec::new(alloc),
            others: BTreeSet::new(alloc),
        }
    }

    /// Adds a label, and returns whether it is new. Fails only if memory runs out.
    fn add(&mut self, label: (usize, i32)) -> Result<bool, AllocError>
        ensures new { IfOk result (λ new. new ≡ not (st.is_among label self.old)) }
        ensures added { OnOk result (spec.SameLabels self.new (st.with_label self.old label)) }
    {
        if label.0 == self.base {
            if is_greatest(&self.ascending, label.1) {
                self.ascending.push(label.1)?;
                return Ok(true);
            }
            if self.ascending.binary_search(&label.1).is_ok() {
                return Ok(false);
            }
        }
        Ok(self.others.insert(label)?)
    }
}

// Whether an ordinal is greater than all that came in ascending order.
fn is_greatest(ascending: &[i32], ordinal: i32) -> bool
    ensures { IsSorted int_cmp ascending.now
        → Decides result (spec.IsGreatest ordinal ascending.now) }
{
    match ascending.last() {
        Some(last) => *last < ordinal,
        None => true,
    }
}

fn fits(base: Option<usize>, label: (usize, i32)) -> bool
    ensures { result ≡ st.fits_selector base label }
{
    match base {
        Some(base) => base == label.0,
        None => true,
    }
}

// C3: a label occurs twice.
fn once(
    diagnostics: &mut Diagnostics,
    is_new: bool,
    at: usize,
    label: (usize, i32),
) -> Option<(usize, i32)>
    ensures { Reports diagnostics.old diagnostics.new result (guard is_new rules.C3 at label) }
{
    if is_new {
        return Some(label);
    }
    report_violation(diagnostics, Rule::C3, at)
}

// C2: the base type of a label isn't that of the selector, if that is known. C3: the label occurs
// twice.
fn judge_known_label(
    diagnostics: &mut Diagnostics,
    base: Option<usize>,
    is_new: bool,
    at: usize,
    label: (usize, i32),
) -> Option<(usize, i32)>
    ensures { (seen : spec.Labels) → is_new ≡ not (st.is_among label seen)
        → Reports diagnostics.old diagnostics.new result (st.c2_c3_label base seen at label) }
{
    let fits = unless_holds(diagnostics, fits(base, label), Rule::C2, at);
    let label = once(diagnostics, is_new, at, label);
    answer_if(fits, label)
}

/// Judges the labels of one arm of a `case`, after those that were seen. Fails only if memory runs
/// out.
pub fn judge_labels(
    env: &Environment,
    diagnostics: &mut Diagnostics,
    base: Option<usize>,
    seen: &mut Labels,
    list: &[Constant],
) -> Result<(), AllocError>
    ensures diagnostics { OnOk result
        (diagnostics.new ≡ least diagnostics.old (st.labels env.now base seen.old list.now).violations) }
    ensures seen { OnOk result
        (spec.SameLabels seen.new (st.labels env.now base seen.old list.now).seen) }
{
    for c in list {
        judge_label(env, diagnostics, base, seen, c)?;
    }
    Ok(())
}

// Judges a label, after those that were seen.
fn judge_label(
    env: &Environment,
    diagnostics: &mut Diagnostics,
    base: Option<usize>,
    seen: &mut Labels,
    c: &Constant,
) -> Result<(), AllocError>
    ensures diagnostics { OnOk result
        (diagnostics.new ≡ least diagnostics.old
        (violations_of
        (then_judge (types.constant env.now c.now)
        (st.c2_c3_label base seen.old (types.constant_at c.now))))) }
    ensures seen { OnOk result
        (spec.SameLabels seen.new (st.more_seen seen.old (types.constant env.now c.now))) }
{
    match constant(env, diagnostics, c) {
        Err(_) => Ok(()),
        Ok(label) => {
            let is_new = seen.add(label)?;
            judge_known_label(diagnostics, base, is_new, constant_at(c), label);
            Ok(())
        }
    }
}

/// The base type of a selector, if it is known.
pub fn selector_base(env: &Environment, selector: Option<usize>) -> Option<usize>
    ensures { result ≡ spec.base_if env.now selector }
{
    env.base(selector?)
}
