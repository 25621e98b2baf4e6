//! The parts that designators select.

ghost use Rattle.std.specs.Prelude.{◌≡◌, true, false};
ghost use Rattle.cp_model.specs.Abstract as a;
ghost use Rattle.cp_model.specs.Erase as erase;
ghost use Rattle.cp_model.specs.View as view;
ghost use Rattle.cp_compile_symbols.specs.Designators.{FirstPart, Selects, is_part};

use cp_model::tree::{Designator, Selector};

// Whether a selector selects a part. An index list without an index selects none.
fn selects(selector: &Selector) -> bool
    ensures yes { result ≡ true → Selects (view.selector selector.now) }
    ensures no { result ≡ false
        → (d : a.Designator) → erase.select d (view.selector selector.now) ≡ d }
{
    match selector {
        Selector::Field { .. } => true,
        Selector::Indexed(indices) => match indices.as_slice() {
            [] => false,
            [_, ..] => true,
        },
    }
}

/// The first of these selectors that selects a part, and those after it.
pub fn first_part(selectors: &[Selector]) -> Option<(&Selector, &[Selector])>
    ensures { FirstPart selectors.now result }
{
    for i in 0..selectors.len() {
        if selects(&selectors[i]) {
            return Some((&selectors[i], &selectors[i + 1..]));
        }
    }
    None
}

/// Whether a designator is more than a bare name.
pub fn is_part(designator: &Designator) -> bool
    ensures { result ≡ is_part (erase.designator (view.designator designator.now)) }
{
    first_part(&designator.selectors).is_some()
}
