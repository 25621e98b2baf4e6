//! The rules of a whole text: its definitions, then the variables, the routines and the body of the
//! initial process.

ghost use Rattle.std.specs.Prelude.{◌≡◌, ℕ, None, IfOk, OnOk, map};
ghost use Rattle.cp_model.specs.Rules.{first_violation};
ghost use Rattle.cp_model.specs.RulesJudged.{least};
ghost use Rattle.cp_model.specs.RulesStatements as st;
ghost use Rattle.cp_model.specs.RulesTypes as ty;
ghost use Rattle.cp_model.specs.View as view;
ghost use Rattle.cp_rules.specs.Texts.{Judges, Lists, body_violations};
ghost use Rattle.cp_rules.specs.Endings.{rest_of, reported_with};
ghost use Rattle.cp_rules.specs.Checking.{reporting};

use crate::checker::Checker;
use crate::remaining::Remaining;
use crate::words::{is_within, sum};
use cp_base_names::Key;
use cp_model::rules::{Position, Rule, Violation};
use cp_model::tree::{Body, Sort, Statement, Tree};
use cp_rules_body::diagnostics::Diagnostics;
use cp_rules_body::statements::statements;
use std::alloc::{AllocError, Global};

/// Why a text isn't accepted.
#[derive(Clone, Copy)]
pub enum RuleError {
    /// A rule is broken: the earliest violation, and of several at the same place the lowest rule.
    Broken(Violation),
    /// Memory ran out.
    Memory,
}

impl<'t> Checker<'t> {
    // What is reported only of these statements.
    fn reported_inside(&self, list: &[Statement]) -> Result<Diagnostics, AllocError>
        ensures { IfOk result
            (λ diagnostics. diagnostics ≡ least None
            (st.statements self.now.env (view.statements_of (map view.statement list.now)))) }
    {
        let mut inside = self.diagnostics.part(self.alloc);
        statements(&self.environment, self.alloc, &mut inside, list)?;
        Ok(inside)
    }

    // Judges the body of the initial process, whose variables take `words` words. C13: the process
    // has too many words, which is judged only if nothing is broken in the body.
    fn initial_body(&mut self, words: usize, body: &Body) -> Result<(), AllocError>
        ensures { (n : ℕ) → words ≡ ty.cap_words n
            → OnOk result
            (self.new ≡ reporting self.old (body_violations self.old.env n (view.body body.now))) }
    {
        let inside = self.reported_inside(&body.statements)?;
        match inside.first() {
            Some(_) => self.diagnostics.report_part(inside),
            None => {
                let need = self.need(&body.statements);
                let fits = is_within(sum(sum(1, words), need));
                self.unless(fits, Rule::C13, body.at);
            }
        }
        Ok(())
    }

    // Judges what is left of a text.
    fn judge_left(&mut self, left: &Remaining<'t>) -> Result<(), AllocError>
        ensures { OnOk result (self.new.diagnostics ≡ reported_with self.old (rest_of left.now)) }
    {
        let tree = left.tree;
        self.define_types(left.definitions)?;
        self.define_sections(left.sections)?;
        let words = self.variables(Position::InitialVariable, &tree.variables)?;
        self.routines(Sort::Process, &tree.routines)?;
        self.initial_body(words, &tree.body)?;
        Ok(())
    }

    // Judges a text, and continues reporting from `diagnostics`, where nothing is reported yet. Once
    // something is reported in the definitions, the rest is judged only if it could report
    // something earlier.
    fn text(
        alloc: Global,
        key: Key,
        diagnostics: Diagnostics,
        tree: &'t Tree,
    ) -> Result<Checker<'t>, AllocError>
        requires nothing { diagnostics ≡ None }
        ensures { IfOk result (λ c. c.diagnostics ≡ first_violation (view.tree tree.now)) }
    {
        let mut checker = Checker::new(alloc, key, diagnostics)?;
        let left = checker.define_until_broken(tree)?;
        if checker.is_decided(&left) {
            return Ok(checker);
        }
        checker.judge_left(&left)?;
        Ok(checker)
    }
}

/// Judges a text by all rules. The key is that of its names.
///
/// # Errors
///
/// `Broken` if the text breaks a rule, `Memory` if memory runs out.
pub fn judge(alloc: Global, key: Key, tree: &Tree) -> Result<(), RuleError>
    ensures { Judges (view.tree tree.now) result }
{
    match Checker::text(alloc, key, Diagnostics::earliest(), tree) {
        Err(_) => Err(RuleError::Memory),
        Ok(checker) => match checker.diagnostics.first() {
            Some(violation) => Err(RuleError::Broken(violation)),
            None => Ok(()),
        },
    }
}

/// All violations of a text, in the order of their places, and of several at one place by the
/// number of the rule. None is listed twice. The key is that of the text's names.
///
/// # Errors
///
/// `AllocError` if memory runs out.
pub fn violations(alloc: Global, key: Key, tree: &Tree) -> Result<Vec<Violation>, AllocError>
    ensures { IfOk result (λ list. Lists (view.tree tree.now) list.items) }
{
    let checker = Checker::text(alloc, key, Diagnostics::all(alloc), tree)?;
    checker.diagnostics.into_list(alloc)
}
