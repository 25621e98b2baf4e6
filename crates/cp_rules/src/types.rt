//! Written types: what they represent, and the rules inside them.

ghost use Rattle.std.specs.Prelude.{◌≡◌, IfOk, OnOk, map};
ghost use Rattle.cp_model.specs.Syntax as s;
ghost use Rattle.cp_model.specs.RulesTypes as ty;
ghost use Rattle.cp_model.specs.View as view;
ghost use Rattle.cp_rules.specs.Checking.{Makes};
ghost use Rattle.cp_rules.specs.Records as records;
ghost use Rattle.cp_rules.specs.Records.{number_or_any, or_first};
ghost use Rattle.cp_rules.specs.Types.{JudgesIndices, with_groups};

use crate::checker::{Checker, Judged};
use crate::records::FieldList;
use cp_model::rules::Position;
use cp_model::tree::{Fields, TypeExpression};
use std::alloc::AllocError;

// The number of a type, or any number if the type is broken: what it is a part of isn't made then.
fn number_or_any(of: Judged<usize>) -> usize
    ensures { result ≡ number_or_any of }
{
    match of {
        Ok(t) => t,
        Err(_) => 0,
    }
}

impl<'t> Checker<'t> {
    // Judges a type by itself, without its position.
    #[cycle(types)]
    fn type_of(&mut self, written: &'t TypeExpression) -> Result<Judged<usize>, AllocError>
        ensures { IfOk result
            (λ of. Makes self.old self.new of
            (ty.type_of self.old.env (view.type_expression written.now))) }
    {
        match written {
            TypeExpression::Named(x) => Ok(self.named_type(x)),
            TypeExpression::Subrange(bounds) => {
                let row = self.subrange(&bounds.0, &bounds.1);
                self.make_type(row)
            }
            TypeExpression::Array {
                at,
                indices,
                element,
            } => {
                let indices = self.index_types(indices)?;
                let of = self.type_of(element)?;
                let of = self.judge_position(Position::Element, element, of);
                self.arrays(*at, indices, of)
            }
            TypeExpression::Record { at, groups } => self.record_type(*at, groups),
        }
    }

    #[cycle(types)]
    fn index_types(&mut self, list: &'t [TypeExpression]) -> Result<Vec<Judged<usize>>, AllocError>
        ensures { IfOk result
            (λ answers. JudgesIndices self.old self.new answers.items
            (ty.index_types self.old.env (view.types_of (map view.type_expression list.now)))) }
    {
        let mut answers = Vec::new(self.alloc);
        for t in list {
            let of = self.type_of(t)?;
            answers.push(self.index_type(t, of))?;
        }
        Ok(answers)
    }

    #[cycle(types)]
    fn record_type(&mut self, at: usize, groups: &'t [Fields]) -> Result<Judged<usize>, AllocError>
        ensures { IfOk result
            (λ of. Makes self.old self.new of
            (ty.type_of self.old.env
            (s.Record at (view.fields_of (map view.variables groups.now))))) }
    {
        let mut fields = FieldList::new(self.alloc, self.key);
        for group in groups {
            self.field_group(&mut fields, group)?;
        }
        self.make_record(at, fields)
    }

    // Judges fields of one type.
    #[cycle(types)]
    fn field_group(
        &mut self,
        fields: &mut FieldList<'t>,
        group: &'t Fields,
    ) -> Result<(), AllocError>
        ensures state { OnOk result
            (self.new ≡ with_groups self.old
            (records.group self.old.env fields.old.members (view.variables group.now))) }
        ensures members { OnOk result
            (fields.new.members
            ≡ (records.group self.old.env fields.old.members (view.variables group.now)).members) }
        ensures first { OnOk result
            (fields.new.first ≡ or_first fields.old.first
            (records.group self.old.env fields.old.members (view.variables group.now)).violations) }
    {
        let of = self.type_of(&group.of)?;
        let of = self.judge_position(Position::Field, &group.of, of);
        self.add_fields(fields, &group.names, number_or_any(of))?;
        fields.note(of);
        Ok(())
    }

    /// Judges a written type at its position. Fails only if memory runs out.
    pub fn judge_type(
        &mut self,
        position: Position,
        written: &'t TypeExpression,
    ) -> Result<Judged<usize>, AllocError>
        ensures { IfOk result
            (λ of. Makes self.old self.new of
            (ty.type_placed self.old.env position (view.type_expression written.now))) }
    {
        let of = self.type_of(written)?;
        Ok(self.judge_position(position, written, of))
    }
}
