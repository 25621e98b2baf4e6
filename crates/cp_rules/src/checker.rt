//! The checker of a text: the environment so far, and what was reported.

ghost use Rattle.std.specs.Prelude.{◌≡◌, [], None, IfOk, OnOk, length, take};
ghost use Rattle.cp_model.specs.RulesEnvironment as r;
ghost use Rattle.cp_model.specs.RulesJudged as j;
ghost use Rattle.cp_rules.specs.Checking.{State, Judges, after, declared_name, reporting, with_set};

use crate::standard::standard_environment;
use cp_base_names::Key;
use cp_model::rules::{Entity, Rule, Violation};
use cp_model::tree::Identifier;
use cp_rules_body::Environment;
use cp_rules_body::diagnostics::{Diagnostics, fail_with_violation, unless_holds};
use std::alloc::{AllocError, Global};
use std::marker::Model;

/// The judgement of a part of a text: its meaning, or the first violation in it.
pub type Judged<A> = Result<A, Violation>;

/// Judges a text. It holds the environment of the part that is being judged, and what was reported.
/// Contracts see both.
#[derive(Drop)]
pub struct Checker<'t> {
    pub(crate) environment: Environment<'t>,
    pub(crate) diagnostics: Diagnostics,
    pub(crate) alloc: Global,
    pub(crate) key: Key,
}

impl<'t> Model for Checker<'t> {
    ghost Value = { State };

    ghost view = { λ c. record { env = c.environment; diagnostics = c.diagnostics } };
}

impl<'t> Checker<'t> {
    /// A checker at the beginning of a text, which continues reporting from `diagnostics`. Fails only
    /// if memory runs out.
    pub fn new(alloc: Global, key: Key, diagnostics: Diagnostics) -> Result<Checker<'t>, AllocError>
        ensures { IfOk result
            (λ c. c ≡ record { env = r.standard_environment; diagnostics = diagnostics }) }
    {
        Ok(Checker {
            environment: standard_environment(alloc, key)?,
            diagnostics,
            alloc,
            key,
        })
    }

    /// Reports that a rule is broken at a place, and returns the violation.
    pub fn breaks<A>(&mut self, rule: Rule, at: usize) -> Judged<A>
        ensures { Judges self.old self.new result (j.breaks rule at) }
    {
        fail_with_violation(&mut self.diagnostics, rule, at)
    }

    /// Reports that a rule is broken at a place, unless `holds` is true.
    pub fn unless(&mut self, holds: bool, rule: Rule, at: usize)
        ensures { self.new ≡ reporting self.old (j.unless holds rule at) }
    {
        unless_holds(&mut self.diagnostics, holds, rule, at);
    }

    /// Declares a name, unless it is already visible: the first declaration counts. Fails only if
    /// memory runs out.
    pub fn add(&mut self, name: &'t Identifier, entity: Entity) -> Result<(), AllocError>
        ensures { OnOk result
            (self.new ≡ record self.old { env = r.declare name.now entity self.old.env }) }
    {
        self.environment.declare(name, entity)?;
        Ok(())
    }

    /// Declares a name. C1: it is already visible. Fails only if memory runs out.
    pub fn declare(&mut self, name: &'t Identifier, entity: Entity) -> Result<(), AllocError>
        ensures { OnOk result
            (self.new ≡ after self.old (declared_name self.old.env name.now entity)) }
    {
        let is_new = self.environment.declare(name, entity)?;
        self.unless(is_new, Rule::C1, name.at);
        Ok(())
    }

    /// The number of visible names, as a mark for `set_from` and `leave`.
    pub fn mark(&self) -> usize
        ensures { result ≡ length self.now.env.names }
    {
        self.environment.name_count()
    }

    /// Makes the names that were declared after the first `mark` ones represent `entity`.
    pub fn set_from(&mut self, mark: usize, entity: Entity)
        ensures { self.new ≡ with_set self.old mark entity }
    {
        self.environment.set_from(mark, entity);
    }

    /// Removes the names that were declared after the first `mark` ones.
    pub fn leave(&mut self, mark: usize)
        ensures { self.new ≡ record
            self.old { env = r.with_names (take mark self.old.env.names) self.old.env } }
    {
        self.environment.leave(mark);
    }
}
