//! Headings: the parameters of a routine or of a system type.
//!
//! Within its own group, a parameter's name is the name of a variable. After its group, it is
//! hidden up to the end of the heading. After the heading, all names are visible.

ghost use Rattle.std.specs.Prelude.{◌≡◌, ◌+◌, ◌*◌, ◌++◌, [], IfOk, OnOk, OnErr, map, replicate, length};
ghost use Rattle.cp_model.specs.RulesDeclarations as d;
ghost use Rattle.cp_model.specs.RulesJudged.{then_judge};
ghost use Rattle.cp_model.specs.RulesTypes.{named_type};
ghost use Rattle.cp_model.specs.View as view;
ghost use Rattle.cp_rules.specs.Checking.{Judges, first_of, reporting};
ghost use Rattle.cp_rules.specs.Declaring.{entity_of_type, words_of_type};
ghost use Rattle.cp_rules.specs.Headings.{Heads, collection, hidden_group, is_by_reference, nothing, parameter_judged, row_of_type, with_heading, with_names, with_part, words_of_parameter};

use crate::checker::{Checker, Judged};
use crate::variables::{UNFINISHED, words};
use crate::words::{product, sum};
use cp_model::rules::{Access, Entity, ParameterRow, Rule, Structure};
use cp_model::tree::{Identifier, Parameters, Sort};
use cp_rules_body::Environment;
use std::alloc::{AllocError, Global};

/// The parameters of a heading: what each name represents after it, their rows, and the words that
/// they take in an activation, counted up to one above the limit.
#[derive(Drop)]
pub struct Heading<'t> {
    pub(crate) bound: Vec<(&'t Identifier, Entity)>,
    pub(crate) rows: Vec<ParameterRow>,
    pub(crate) words: usize,
}

// Whether a parameter of a system type may be a component of this sort: a monitor, or for a class
// also a class.
fn allows_component(of: Sort, sort: Sort) -> bool
    ensures { result ≡ d.allows_component of sort }
{
    matches!((of, sort), (_, Sort::Monitor) | (Sort::Class, Sort::Class))
}

fn allows_parameter(env: &Environment, of: Option<Sort>, structure: Structure) -> bool
    ensures { result ≡ d.allows_parameter env.now of structure }
{
    match (of, structure) {
        (Some(_), Structure::Simple(_, _, _)) => true,
        (Some(of), Structure::System(y)) => allows_component(of, env.system_row(y).sort),
        (Some(_), _) => false,
        (None, Structure::System(_)) => false,
        (None, _) => true,
    }
}

// The rule about the word `var`. C7: before a parameter of a system type. C11: before one of a
// function.
fn var_rule(of: Option<Sort>, is_function: bool) -> Option<Rule>
    ensures { result ≡ d.var_rule of is_function }
{
    match of {
        Some(_) => Some(Rule::C7),
        None => if is_function { Some(Rule::C11) } else { None },
    }
}

fn access(by_reference: bool) -> Access
    ensures { result ≡ d.parameter_access by_reference }
{
    if by_reference {
        Access::ByReference
    } else {
        Access::Passive
    }
}

// What a parameter of a type represents.
fn entity(by_reference: bool, of: Judged<usize>) -> Entity
    ensures { result ≡ entity_of_type (d.parameter_entity by_reference) of }
{
    match of {
        Ok(t) => Entity::Variable(t, access(by_reference)),
        Err(violation) => Entity::Broken(violation),
    }
}

fn row(by_reference: bool, of: Judged<usize>) -> ParameterRow
    ensures { result ≡ row_of_type by_reference of }
{
    ParameterRow {
        by_reference,
        of: of.ok(),
    }
}

// Whether these parameters of a routine are passed by reference.
fn is_by_reference(of: Option<Sort>, group: &Parameters) -> bool
    ensures { result ≡ is_by_reference of (view.parameters group.now) }
{
    group.by_reference.is_some() && of.is_none()
}

// The number of words of one parameter in an activation.
fn parameter_words(env: &Environment, by_reference: bool, of: Judged<usize>) -> usize
    ensures { result ≡ words_of_parameter env.now by_reference of }
{
    if by_reference { 1 } else { words(env, of) }
}

impl<'t> Heading<'t> {
    /// A heading without parameters.
    pub fn new(alloc: Global) -> Heading<'t>
        ensures { collection result ≡ nothing }
    {
        Heading {
            bound: Vec::new(alloc),
            rows: Vec::new(alloc),
            words: 0,
        }
    }

    // Adds parameters of one type.
    fn add(
        &mut self,
        names: &'t [Identifier],
        entity: Entity,
        row: ParameterRow,
    ) -> Result<(), AllocError>
        ensures { OnOk result
            (collection self.new ≡ with_names (collection self.old) entity row names.now) }
    {
        for x in names {
            self.bound.push((x, entity))?;
            self.rows.push(row)?;
        }
        Ok(())
    }
}

impl<'t> Checker<'t> {
    // C7 and C8: a parameter may not have this type.
    fn parameter(&mut self, of: Option<Sort>, at: usize, t: usize) -> Judged<usize>
        ensures { Judges self.old self.new result (d.c7_c8_parameter self.old.env of at t) }
    {
        let env = &self.environment;
        let allowed = allows_parameter(env, of, env.structure(t));
        if env.has_queues(t) {
            return self.breaks(Rule::C8, at);
        }
        if !allowed {
            return self.breaks(Rule::C7, at);
        }
        Ok(t)
    }

    fn parameter_type(&mut self, of: Option<Sort>, name: &Identifier) -> Judged<usize>
        ensures { Judges self.old self.new result
            (then_judge (named_type self.old.env name.now)
            (d.c7_c8_parameter self.old.env of name.now.at)) }
    {
        let t = self.named_type(name)?;
        self.parameter(of, name.at, t)
    }

    // C7 and C11: the word `var` isn't allowed.
    fn judge_var(&mut self, rule: Option<Rule>, at: Option<usize>)
        ensures { self.new ≡ reporting self.old (d.c7_c11_var rule at) }
    {
        if let (Some(rule), Some(at)) = (rule, at) {
            self.unless(false, rule, at);
        }
    }

    // Judges a group, and hides its names.
    fn group_of_parameters(
        &mut self,
        of: Option<Sort>,
        is_function: bool,
        group: &'t Parameters,
    ) -> Result<Judged<usize>, AllocError>
        ensures { IfOk result
            (λ t. (self.new ≡ hidden_group self.old of is_function (view.parameters group.now))
            × (t ≡ first_of (parameter_judged self.old.env of (view.parameters group.now)))) }
    {
        let outside = self.mark();
        self.declare_all(&group.names, UNFINISHED)?;
        self.judge_var(var_rule(of, is_function), group.by_reference);
        let t = self.parameter_type(of, &group.of);
        self.set_from(outside, Entity::Hidden);
        Ok(t)
    }

    // Judges a group, and adds it to the heading.
    fn parameter_group(
        &mut self,
        of: Option<Sort>,
        is_function: bool,
        heading: &mut Heading<'t>,
        group: &'t Parameters,
    ) -> Result<(), AllocError>
        ensures state { OnOk result
            (self.new ≡ hidden_group self.old of is_function (view.parameters group.now)) }
        ensures heading { OnOk result
            (collection heading.new ≡ with_part (collection heading.old)
            (d.parameter_group self.old.env of is_function (view.parameters group.now))) }
    {
        let t = self.group_of_parameters(of, is_function, group)?;
        let by_reference = is_by_reference(of, group);
        let each = parameter_words(&self.environment, by_reference, t);
        heading.add(&group.names, entity(by_reference, t), row(by_reference, t))?;
        heading.words = sum(heading.words, product(group.names.len(), each));
        Ok(())
    }

    /// Judges the heading of a system type of this sort, or of a routine. C7 and C8: the type of a
    /// parameter. C7 and C11: the word `var`. Fails only if memory runs out.
    pub fn heading(
        &mut self,
        of: Option<Sort>,
        is_function: bool,
        groups: &'t [Parameters],
    ) -> Result<Heading<'t>, AllocError>
        ensures { IfOk result
            (λ h. Heads self.old self.new h
            (d.heading self.old.env of is_function (map view.parameters groups.now))) }
    {
        let mut heading = Heading::new(self.alloc);
        for group in groups {
            self.parameter_group(of, is_function, &mut heading, group)?;
        }
        Ok(heading)
    }
}
