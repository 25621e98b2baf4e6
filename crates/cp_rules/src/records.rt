//! Records: the names of their fields, and the types that are made of them.

ghost use Rattle.std.specs.Prelude.{◌≡◌, ◌∷◌, [], None, IfOk, OnOk, map, slice_get};
ghost use Rattle.cp_model.specs.RulesJudged.{unless};
ghost use Rattle.cp_model.specs.RulesTypes.{cap_words};
ghost use Rattle.cp_model.specs.declared.rules.Rule.TheVariants.{C1};
ghost use Rattle.cp_rules.specs.Checking.{reporting};
ghost use Rattle.cp_rules.specs.Outer.{Knows};
ghost use Rattle.cp_rules.specs.Records.{broken_in, is_new, or_first, record_of, with_field, with_fields, words_if, words_of_member, words_of_members};

use crate::checker::{Checker, Judged};
use crate::words::{is_within, sum};
use cp_base_names::Key;
use cp_model::rules::{Member, Rule, Structure, TypeRow, Violation};
use cp_model::tree::Identifier;
use cp_rules_body::Environment;
use cp_rules_body::environment::Members;
use std::alloc::{AllocError, Global};

/// The fields of a record so far, and the first violation in them.
#[derive(Drop)]
pub struct FieldList<'t> {
    pub(crate) members: Members<'t>,
    pub(crate) first: Option<Violation>,
}

impl<'t> FieldList<'t> {
    /// An empty list of fields.
    pub fn new(alloc: Global, key: Key) -> FieldList<'t>
        ensures members { result.members ≡ [] }
        ensures first { result.first ≡ None }
    {
        FieldList {
            members: Members::new(alloc, key),
            first: None,
        }
    }

    /// Notes the violation in a part, unless one was noted before.
    pub fn note(&mut self, of: Judged<usize>)
        ensures { self.new ≡ record self.old { first = or_first self.old.first (broken_in of) } }
    {
        if let (None, Err(violation)) = (self.first, of) {
            self.first = Some(violation);
        }
    }
}

// The number of words of a field.
fn words_of_member(env: &Environment, member: Member) -> usize
    ensures { result ≡ words_of_member env.now member }
{
    match member {
        Member::Field(t) => env.words(t),
        Member::Routine(_) => 0,
    }
}

fn words_at(env: &Environment, members: &Members, number: usize) -> usize
    ensures { result ≡ words_if env.now (slice_get members.now number) }
{
    match members.get(number) {
        Some((_, member)) => words_of_member(env, member),
        None => 0,
    }
}

// The number of words of fields, counted up to one above the limit.
fn words_of_members(env: &Environment, members: &Members) -> usize
    ensures { result ≡ cap_words (words_of_members env.now members.now) }
{
    let mut words = 0;
    for number in 0..members.len() {
        words = sum(words, words_at(env, members, number));
    }
    words
}

impl<'t> Checker<'t> {
    // Adds a field. C1: its name occurs twice.
    fn add_field(
        &mut self,
        fields: &mut FieldList<'t>,
        identifier: &'t Identifier,
        t: usize,
    ) -> Result<(), AllocError>
        ensures diagnostics { OnOk result
            (self.new ≡ reporting self.old (unless (is_new fields.old.members identifier.now) C1 identifier.now.at)) }
        ensures members { OnOk result (fields.new.members ≡ with_field fields.old.members identifier.now t) }
        ensures first { OnOk result
            (fields.new.first ≡ or_first fields.old.first
            (unless (is_new fields.old.members identifier.now) C1 identifier.now.at)) }
    {
        let name = identifier.name.as_bytes();
        if !fields.members.add_if_new(name, Member::Field(t))? {
            let broken = self.breaks(Rule::C1, identifier.at);
            fields.note(broken);
        }
        Ok(())
    }

    /// Adds fields of one type. C1: a name occurs twice in the record. Fails only if memory runs
    /// out.
    pub fn add_fields(
        &mut self,
        fields: &mut FieldList<'t>,
        names: &'t [Identifier],
        t: usize,
    ) -> Result<(), AllocError>
        ensures diagnostics { OnOk result
            (self.new ≡ reporting self.old (with_fields fields.old.members t names.now).violations) }
        ensures members { OnOk result
            (fields.new.members ≡ (with_fields fields.old.members t names.now).members) }
        ensures first { OnOk result
            (fields.new.first ≡ or_first fields.old.first
            (with_fields fields.old.members t names.now).violations) }
    {
        for x in names {
            self.add_field(fields, x, t)?;
        }
        Ok(())
    }

    /// Makes a record type of these fields, unless something is broken in them. C13: it has too
    /// many words. Fails only if memory runs out.
    pub fn make_record(
        &mut self,
        at: usize,
        fields: FieldList<'t>,
    ) -> Result<Judged<usize>, AllocError>
        ensures { IfOk result
            (λ answer. Knows self.old self.new answer
            (record_of self.old.env at fields.entry.members fields.entry.first)) }
    {
        if let Some(violation) = fields.first {
            return Ok(Err(violation));
        }
        let words = words_of_members(&self.environment, &fields.members);
        if !is_within(words) {
            return Ok(self.breaks(Rule::C13, at));
        }
        let t = self.environment.type_count();
        let structure = Structure::Record(self.environment.table_count());
        self.environment.add_type(TypeRow {
            structure,
            words,
            has_queues: false,
        })?;
        self.environment.add_members(fields.members)?;
        Ok(Ok(t))
    }
}
