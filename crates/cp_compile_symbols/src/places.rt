//! The types of the parts of variables.

ghost use Rattle.std.specs.Prelude.{◌≡◌, map, option_map};
ghost use Rattle.cp_model.specs.Erase as erase;
ghost use Rattle.cp_model.specs.Places as places;
ghost use Rattle.cp_model.specs.Types.{ResolvedType};
ghost use Rattle.cp_model.specs.View as view;
ghost use Rattle.cp_law_typing.specs.StaticTypes as static;
ghost use Rattle.cp_model_program.specs.Scopes as code;
ghost use Rattle.cp_model.specs.Abstract as a;
ghost use Rattle.cp_compile_symbols.specs.Places.{PlaceIs, TypeIs, elements_of, is_record};
ghost use Rattle.cp_compile_symbols.specs.Scopes.{IsScope};
ghost use Rattle.cp_compile_symbols.specs.Representing.{Represents, row_at};

use crate::layout::Part;
use crate::scope::{Meaning, Scope};
use crate::types::{TypeRow, Types};
use cp_model::tree::{Designator, Index, Selector};

/// An array type: its bounds, and the number of the type of its elements.
#[derive(Clone, Copy)]
pub struct Elements {
    pub low: i32,
    pub high: i32,
    pub of: usize,
}

impl<'t> Types<'t> {
    /// Whether a type is a record type.
    pub fn is_record(&self, number: usize) -> bool
        ensures { (t : ResolvedType) → Represents self.now number t → result ≡ is_record t }
    {
        matches!(self.row(number), Some(TypeRow::Record(_)))
    }

    /// The bounds and element type of an array type, or `None` for another type.
    pub fn elements(&self, number: usize) -> Option<Elements>
        ensures { result ≡ elements_of (row_at self.now number) }
    {
        match self.row(number) {
            Some(TypeRow::Array { low, high, element }) => Some(Elements {
                low: *low,
                high: *high,
                of: *element,
            }),
            _ => None,
        }
    }

    /// The type of an element of a value of the type `of`, where `None` represents no type.
    pub fn element_type(&self, of: Option<usize>) -> Option<usize>
        ensures { (t : ResolvedType) → TypeIs self.now of t → TypeIs self.now result
            (static.element_type t) }
    {
        Some(self.elements(of?)?.of)
    }
}

fn part_type(part: Option<Part>) -> Option<usize>
    ensures { result ≡ option_map (λ p. p.of) part }
{
    Some(part?.of)
}

impl<'s, 't> Scope<'s, 't> {
    /// The type of a field of a value of the type `of`.
    pub fn field_type(&self, of: Option<usize>, name: &[u8]) -> Option<usize>
        ensures { (s : code.Scope) (t : ResolvedType) → IsScope self.now s
            → TypeIs self.now.tables.now.types of t → TypeIs self.now.tables.now.types result
            (places.field_type name.now t) }
    {
        let of = of?;
        if !self.tables.types.is_record(of) {
            return None;
        }
        part_type(self.tables.layouts.part(of, name))
    }

    /// The type of the place that a name means.
    pub fn named_place_type(&self, name: &[u8]) -> Option<usize>
        ensures { (s : code.Scope) → IsScope self.now s → PlaceIs self.now s result
            (a.Plain name.now) }
    {
        match self.meaning(name) {
            Meaning::Variable(of) => Some(of),
            _ => None,
        }
    }
    // The type of the element that is left after indexing once for each of `indices`.
    fn indexed_type(&self, mut of: Option<usize>, indices: &[Index]) -> Option<usize>
        ensures { (s : code.Scope) (d : a.Designator) → PlaceIs self.now s of d
            → PlaceIs self.now s result
            (erase.with_indices d (view.indices_of (map view.index indices.now))) }
    {
        for _index in indices {
            of = self.tables.types.element_type(of);
        }
        of
    }

    // The type of the part that a selector selects.
    fn selected_type(&self, of: Option<usize>, selector: &Selector) -> Option<usize>
        ensures { (s : code.Scope) (d : a.Designator) → IsScope self.now s
            → PlaceIs self.now s of d → PlaceIs self.now s result
            (erase.select d (view.selector selector.now)) }
    {
        match selector {
            Selector::Field { name, .. } => self.field_type(of, name.name.as_bytes()),
            Selector::Indexed(indices) => self.indexed_type(of, indices),
        }
    }

    /// The type of the place of a designator, or `None` if it has no type.
    pub fn place_type(&self, designator: &Designator) -> Option<usize>
        ensures { (s : code.Scope) → IsScope self.now s → PlaceIs self.now s result
            (erase.designator (view.designator designator.now)) }
    {
        let mut of = self.named_place_type(designator.root.name.as_bytes());
        for selector in &designator.selectors {
            of = self.selected_type(of, selector);
        }
        of
    }
}
