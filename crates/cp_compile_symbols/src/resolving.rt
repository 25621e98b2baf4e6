//! What written constants and types represent.

ghost use Rattle.std.specs.Prelude.{◌≡◌, ◌++◌, IfOk, OnOk, map, option_map};
ghost use Rattle.cp_model.specs.Abstract.{Integer};
ghost use Rattle.cp_model.specs.Types.{GlobalScope, constant_value};
ghost use Rattle.cp_model.specs.Erase as erase;
ghost use Rattle.cp_compile_symbols.specs.Representing.{Adds, ConstantsRepresent, Makes, MakesArray, MakesFields, MakesIndexed, array_row, entries_of, entry, name_type, range_type, record_type, row_at, subrange_row, value_of, with_group, with_groups, type_from};

use crate::names::{Names, Value};
use crate::types::{Base, Field, Simple, TypeRow, Types};
use cp_model::tree::{Constant, Fields, Identifier, TypeExpression};
use std::alloc::{AllocError, Global};

fn integer<'t>(ordinal: i32) -> Value<'t>
    ensures { value_of result ≡ (Integer, ordinal) }
{
    Value {
        base: Base::Integer,
        ordinal,
    }
}

// A subrange has the base type of its constants, and starts at its lower bound.
fn subrange_row<'t>(low: Option<Value<'t>>, high: Option<Value<'t>>) -> TypeRow<'t>
    ensures { result ≡ subrange_row low.entry high.entry }
{
    match (low, high) {
        (Some(low), Some(high)) => TypeRow::Simple(Simple {
            base: low.base,
            low: low.ordinal,
            high: high.ordinal,
            start: low.ordinal,
        }),
        _ => TypeRow::Unknown,
    }
}

/// Adds fields of one type.
pub fn add_fields<'t>(
    fields: &mut Vec<Field<'t>>,
    names: &'t [Identifier],
    of: usize,
) -> Result<(), AllocError>
    ensures { OnOk result (map entry fields.new.items ≡ map entry fields.old.items ++ entries_of
        names.now of) }
{
    for x in names {
        fields.push(Field {
            name: x.name.as_bytes(),
            of,
        })?;
    }
    Ok(())
}

impl<'t> Names<'t> {
    /// The value of a written constant, or `None` if its name isn't that of a constant.
    pub fn value(&self, constant: &Constant) -> Option<Value<'t>>
        ensures { (g : GlobalScope) → ConstantsRepresent self.now g
            → option_map value_of result ≡ constant_value g (erase.constant constant.now) }
    {
        match constant {
            Constant::Number { value, .. } => Some(integer(i32::from(*value))),
            Constant::Negative { value, .. } => Some(integer(-i32::from(*value))),
            Constant::Character { ordinal, .. } => Some(Value {
                base: Base::Char,
                ordinal: i32::from(*ordinal),
            }),
            Constant::Named(x) => self.constants.find(x.name.as_bytes()),
        }
    }
}

impl<'t> Types<'t> {
    fn subrange(
        &mut self,
        names: &Names<'t>,
        low: &Constant,
        high: &Constant,
    ) -> Result<usize, AllocError>
        ensures { IfOk result
            (λ n. Makes names.now self.old self.new (range_type low.now high.now) n) }
    {
        self.add(subrange_row(names.value(low), names.value(high)))
    }

    /// The number of the type that a name means. A name that means no type gets a new row,
    /// `Unknown`.
    pub fn named_type(&mut self, names: &Names<'t>, name: &Identifier) -> Result<usize, AllocError>
        ensures { IfOk result (λ n. Makes names.now self.old self.new (name_type name.now.name) n) }
    {
        match names.types.find(name.name.as_bytes()) {
            Some(n) => Ok(n),
            None => self.add(TypeRow::Unknown),
        }
    }

    // The row of an array type. Its bounds are those of its index type.
    fn array_row(&self, index: usize, element: usize) -> TypeRow<'t>
        ensures { result ≡ array_row (row_at self.now index) element }
    {
        match self.row(index) {
            Some(TypeRow::Simple(s)) => TypeRow::Array {
                low: s.low,
                high: s.high,
                element,
            },
            _ => TypeRow::Unknown,
        }
    }

    fn array(&mut self, index: usize, element: usize) -> Result<usize, AllocError>
        ensures { IfOk result (λ n. MakesArray self.old self.new index element n) }
    {
        let row = self.array_row(index, element);
        self.add(row)
    }

    /// The number of a written type, whose rows are added as needed.
    #[cycle(types)]
    pub fn resolve(
        &mut self,
        names: &Names<'t>,
        written: &'t TypeExpression,
    ) -> Result<usize, AllocError>
        ensures { IfOk result (λ n. Makes names.now self.old self.new (type_from written.now) n) }
    {
        match written {
            TypeExpression::Named(x) => self.named_type(names, x),
            TypeExpression::Subrange(bounds) => self.subrange(names, &bounds.0, &bounds.1),
            TypeExpression::Array {
                indices,
                element,
                ..
            } => {
                let of = self.resolve(names, element)?;
                self.arrays(names, indices, of)
            }
            TypeExpression::Record { groups, .. } => self.record(names, groups),
        }
    }

    // Adds an array of arrays, one for each index type. The last one is made first.
    #[cycle(types)]
    fn arrays(
        &mut self,
        names: &Names<'t>,
        indices: &'t [TypeExpression],
        element: usize,
    ) -> Result<usize, AllocError>
        ensures { IfOk result
            (λ n. MakesIndexed names.now self.old self.new indices.now element n) }
    {
        let mut of = element;
        let mut left = indices.len();
        while left > 0 {
            left -= 1;
            let index = self.resolve(names, &indices[left])?;
            of = self.array(index, of)?;
        }
        Ok(of)
    }

    #[cycle(types)]
    fn record(&mut self, names: &Names<'t>, groups: &'t [Fields]) -> Result<usize, AllocError>
        ensures { IfOk result (λ n. Makes names.now self.old self.new (record_type groups.now) n) }
    {
        let mut fields = Vec::new(self.alloc);
        self.fields(names, groups, &mut fields)?;
        self.add(TypeRow::Record(fields))
    }

    /// Adds the fields of these groups.
    #[cycle(types)]
    pub fn fields(
        &mut self,
        names: &Names<'t>,
        groups: &'t [Fields],
        fields: &mut Vec<Field<'t>>,
    ) -> Result<(), AllocError>
        ensures { OnOk result (MakesFields names.now self.old self.new (map entry fields.old.items)
            (map entry fields.new.items) (with_groups groups.now)) }
    {
        for group in groups {
            self.group(names, group, fields)?;
        }
        Ok(())
    }

    // Adds fields of one type.
    #[cycle(types)]
    fn group(
        &mut self,
        names: &Names<'t>,
        group: &'t Fields,
        fields: &mut Vec<Field<'t>>,
    ) -> Result<(), AllocError>
        ensures { OnOk result (MakesFields names.now self.old self.new (map entry fields.old.items)
            (map entry fields.new.items) (with_group group.now)) }
    {
        let of = self.resolve(names, &group.of)?;
        add_fields(fields, &group.names, of)?;
        Ok(())
    }
}
