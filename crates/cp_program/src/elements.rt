//! Makes elements by one index that needs no chain of operands.

ghost use Rattle.std.specs.Prelude.{◌≡◌, ◌≤◌, ◌∷◌, [], IfSome, map};
ghost use Rattle.cp_model_program.specs.Terms as terms;
ghost use Rattle.cp_program.specs.Shifts.{distance_to};
ghost use Rattle.cp_program.specs.View as view;

use crate::element::{Element, NearIndex};
use crate::term::{Index, PlaceExpression, Root};

impl Root {
    // The root `words` words further on, if its offset fits in 32 bits.
    fn part(self, words: u32) -> Option<Root>
        ensures back { IfSome result
            (λ r. view.root_before words (view.root r) ≡ view.root self) }
        ensures within { IfSome result (λ r. words ≤ distance_to r) }
    {
        match self {
            Root::Local(at) => Some(Root::Local(at.checked_add(words)?)),
            Root::Member(at) => Some(Root::Member(at.checked_add(words)?)),
            Root::Through { parameter, plus } => Some(Root::Through {
                parameter,
                plus: plus.checked_add(words)?,
            }),
        }
    }
}

impl Element {
    // The element that an index of a variable leads to, if its place fits.
    fn new(root: Root, index: NearIndex) -> Option<Element>
        ensures { IfSome result (λ e. view.element e
            ≡ view.elements_of (terms.Rooted (view.root root)) (view.near_index index ∷ [])) }
    {
        let first = root.part(index.part.plus)?;
        Some(Element { first, index })
    }
}

impl Index {
    // The element to which the index leads from a root.
    fn element(&self, root: Root) -> Option<Element>
        ensures { IfSome result (λ e. view.element e
            ≡ view.elements_of (terms.Rooted (view.root root)) (view.index self.now ∷ [])) }
    {
        match self {
            Index::Near(i) => Element::new(root, *i),
            Index::Far { .. } => None,
        }
    }
}

// The element to which the indices lead from a root, if there is one index.
fn element_of(root: Root, indices: &[Index]) -> Option<Element>
    ensures { IfSome result (λ e. view.element e
        ≡ view.elements_of (terms.Rooted (view.root root)) (map view.index indices.now)) }
{
    match indices {
        [i] => i.element(root),
        _ => None,
    }
}

impl PlaceExpression {
    /// The place expression as an element, if its place needs no loop.
    pub(crate) fn as_element(&self) -> Option<Element>
        ensures { IfSome result (λ e. view.element e ≡ view.place_expression self.now) }
    {
        element_of(self.root, &self.indices)
    }
}
